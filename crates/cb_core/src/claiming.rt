//! The steps of a write in place: claim, store, settle.

ghost use Rattle.std.specs.Prelude.{◌≡◌, ◌+◌, ◌-◌, ◌^◌, ◌<◌, ◌≤◌, length, IfSome, IfNone, IfOk, OnErr};
ghost use Rattle.cb_ptr.specs.Word.{len_of, place_of};
ghost use Rattle.cb_world.specs.Memory.{words_for};
ghost use Rattle.cb_world.specs.OpenSteps.{next_word};
ghost use Rattle.cb_world.specs.World.{IsSoundWorld, word_at};
ghost use Rattle.cb_world.specs.StillWords.{stamp_at};
ghost use Rattle.cb_core.specs.Claiming.{ClaimStep, IsClaimRefused, IsVersionStored, IsWordStored, MayClaim, SettleStep, StoreStep, next_place, opened};

use cb_mutate::merged;
use cb_ptr::{State, unpack};
use cb_types::{Bytes, Handle, NoMemory, Reply};
use cb_world::{OpenWrite, PlainDesk, Seats, World};
use std::alloc::Global;

/// Claims an object for a write of a seat, `bytes` from the byte number `at` on: from here on the
/// object is Moving, until the write is settled. Takes the memory of the object's words and of the
/// bytes; where there is none, nothing is changed.
///
/// Refuses as a write would: with Unmade, Freed, NotHere or Moving where the object is not here,
/// then with Range, Pinned and Worn.
pub(crate) fn claim(
    alloc: Global,
    world: &mut World,
    seat: u32,
    h: Handle,
    at: u32,
    bytes: &[u8],
) -> Result<Reply, NoMemory>
    requires sound { IsSoundWorld world.old }
    requires seat { seat < 64 }
    requires handle { h.n < world.old.desk.settings.handles }
    ensures step { IfOk result (λ reply.
        ClaimStep seat h.n at bytes.now world.old reply world.new) }
    ensures error { OnErr result (world.new ≡ world.old) }
{
    if let Some(refusal) = claim_refusal(&world.desk, h, at, bytes) {
        return Ok(refusal);
    }
    let write = open_write(alloc, &world.desk, h, at, bytes)?;
    world.seats.open(seat, write)?;
    world.desk.claim_here(h);
    Ok(Reply::Claimed)
}

/// Why an object can't be claimed for a write of these bytes from the byte number `at` on, None
/// where it can.
fn claim_refusal(desk: &PlainDesk, h: Handle, at: u32, bytes: &[u8]) -> Option<Reply>
    requires { h.n < desk.now.settings.handles }
    ensures refused { IfSome result (λ r.
        IsClaimRefused (word_at desk.now h.n) (stamp_at desk.now h.n) at (length bytes.now) r) }
    ensures none { IfNone result (MayClaim desk.now h.n at (length bytes.now)) }
{
    let fields = unpack(desk.look(h));
    let version = desk.tell(h);
    match fields.state {
        State::Empty if version == 0 => Some(Reply::Unmade),
        State::Empty => Some(Reply::Freed),
        State::Far => Some(Reply::NotHere),
        State::Moving => Some(Reply::Moving),
        State::Here if at as usize + bytes.len() > fields.len as usize => {
            Some(Reply::Range { len: fields.len })
        }
        State::Here if fields.pins > 0 => Some(Reply::Pinned { count: fields.pins }),
        State::Here if version == u64::MAX => Some(Reply::Worn),
        State::Here => None,
    }
}

/// The open write of an object that is to be claimed, with copies of its words and of the bytes.
fn open_write(
    alloc: Global,
    desk: &PlainDesk,
    h: Handle,
    at: u32,
    bytes: &[u8],
) -> Result<OpenWrite, NoMemory>
    requires handle { h.n < desk.now.settings.handles }
    requires within { place_of (word_at desk.now h.n) + words_for (len_of (word_at desk.now h.n))
        ≤ length desk.now.memory }
    ensures { IfOk result (λ write. write ≡ opened desk.now h.n at bytes.now) }
{
    let words = desk.contents(alloc, h)?;
    let bytes = Bytes::copy_of(alloc, bytes)?;
    Ok(OpenWrite {
        handle: h.n,
        len: unpack(desk.look(h)).len,
        version: desk.tell(h),
        words,
        at,
        bytes,
        stored: 0,
    })
}

/// Stores the next word of a seat's open write on an object: the memory words that the write
/// touches, in ascending order, and the version word last. Tells how many are left. Takes no
/// memory. Refuses with NotClaimed where the seat has no open write on the object; where nothing is
/// left nothing is changed.
pub(crate) fn store(world: &mut World, seat: u32, h: Handle) -> Reply
    requires sound { IsSoundWorld world.old }
    requires seat { seat < 64 }
    requires handle { h.n < world.old.desk.settings.handles }
    ensures step { StoreStep seat h.n world.old result world.new }
{
    let Some(at) = world.seats.claim_on(seat, h.n) else {
        return Reply::NotClaimed;
    };
    let write = world.seats.claim(seat, at);
    let left = write.left();
    if left == 0 {
        return Reply::Stored { left };
    }
    store_next(&mut world.desk, h, write, left);
    world.seats.count_stored(seat, at);
    Reply::Stored { left: left - 1 }
}

/// Stores the next word of an open write on an object, of which so many are left: the version word
/// where one is, and else a memory word.
fn store_next(desk: &mut PlainDesk, h: Handle, write: &OpenWrite, left: u32)
    requires handle { h.n < desk.old.settings.handles }
    requires small { (next_word write.now < 2 ^ 24) × (write.now.at < 2 ^ 24)
        × (length write.now.bytes < 2 ^ 24) }
    requires next { write.now.version < 2 ^ 64 - 1 }
    requires within { 2 ≤ left → next_place desk.old h.n write.now < length desk.old.memory }
    requires some { 1 ≤ left }
    ensures word { 2 ≤ left → IsWordStored h.n write.now desk.old desk.new }
    ensures version { left ≡ 1 → IsVersionStored h.n write.now desk.old desk.new }
{
    if left == 1 {
        store_version(desk, h, write);
    } else {
        store_word(desk, h, write);
    }
}

/// Stores the next memory word of an open write on an object.
fn store_word(desk: &mut PlainDesk, h: Handle, write: &OpenWrite)
    requires handle { h.n < desk.old.settings.handles }
    requires small { (next_word write.now < 2 ^ 24) × (write.now.at < 2 ^ 24)
        × (length write.now.bytes < 2 ^ 24) }
    requires within { next_place desk.old h.n write.now < length desk.old.memory }
    ensures { IsWordStored h.n write.now desk.old desk.new }
{
    let first = write.at / 8 + write.stored;
    let place = unpack(desk.look(h)).place + first;
    let word = merged(
        desk.load_word(place),
        8 * first,
        write.at,
        write.bytes.as_slice(),
    );
    desk.store_word(place, word);
}

/// Stores the version word of an open write on an object: the version that the write ends in.
fn store_version(desk: &mut PlainDesk, h: Handle, write: &OpenWrite)
    requires handle { h.n < desk.old.settings.handles }
    requires next { write.now.version < 2 ^ 64 - 1 }
    ensures { IsVersionStored h.n write.now desk.old desk.new }
{
    desk.stamp(h, write.version + 1);
}

/// Settles a seat's open write on an object whose words are all stored: the object is here again,
/// and hot. Tells its version. Takes no memory. Refuses with NotClaimed where the seat has no open
/// write on the object, and with NotStored, and how many words are left, where some are.
pub(crate) fn settle(world: &mut World, seat: u32, h: Handle) -> Reply
    requires sound { IsSoundWorld world.old }
    requires seat { seat < 64 }
    requires handle { h.n < world.old.desk.settings.handles }
    ensures step { SettleStep seat h.n world.old result world.new }
{
    let Some(at) = world.seats.claim_on(seat, h.n) else {
        return Reply::NotClaimed;
    };
    let write = world.seats.claim(seat, at);
    let left = write.left();
    let version = write.version;
    if left > 0 {
        return Reply::NotStored { left };
    }
    world.desk.settle_here(h);
    world.seats.close(seat, at);
    Reply::Version {
        version: version + 1,
    }
}
