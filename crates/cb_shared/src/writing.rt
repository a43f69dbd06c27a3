//! A write in place: claim, store, settle.

ghost use Rattle.std.specs.Prelude.{◌≡◌, ℕ, ◌+◌, ◌*◌, ◌^◌, ◌<◌, ◌≤◌, true, false, List, length};
ghost use Rattle.std.specs.Prelude.{slice_index, Option, None, Some};
ghost use Rattle.cb_ptr.specs.Word.{len_of, pins_of};
ghost use Rattle.cb_world.specs.Memory.{words_for};
ghost use Rattle.cb_world.specs.Write.{IsWrite};
ghost use Rattle.cb_mutate.specs.Merged.{IsWordMerged};
ghost use Rattle.cb_rule.specs.declared.view.Held.{Held};
ghost use Rattle.cb_rule.specs.Steps.{Knows};
ghost use Rattle.cb_shared.specs.declared.answers.WriteAnswer.{WriteAnswer};
ghost use Rattle.cb_shared.specs.Claims.{HoldsOnly, IsFreshClaim, IsWithin, with_memory, with_only};
ghost use Rattle.cb_shared.specs.Glances.{Glances};
ghost use Rattle.cb_shared.specs.Passes.{IsAtRest, IsPassOf, record_of};
ghost use Rattle.cb_shared.specs.Seats.{IsOf, Moves, record_at};
ghost use Rattle.cb_shared.specs.Writing.{IsRoomFor, IsWriteRefusal, WriteAt, WriteClaimed};
ghost use Rattle.cb_shared.specs.Writing.{WriteFrom, WriteGives};

use crate::answers::WriteAnswer;
use crate::board::{SeatAt, Top};
use crate::pass::Pass;
use crate::pins::glance;
use crate::plays::{ClaimHere, Date, PutBack, ReadHeld, SettleHere, StampHere, StoreHere};
use crate::runtime::Shared;
use byteorder::{ByteOrder, LittleEndian};
use cb_mutate::merged;
use cb_ptr::{State, claimed, settled, unpack};
use cb_types::{Config, Handle};

impl Shared {
    /// Writes over a part of an object that the pass knows, where it is here and has no pins:
    /// `bytes` from the byte number `at` on. One load of its word, one exchange, one load and one
    /// store of its version, one store for each word that changes, before it one load where a part
    /// of the word stays, and one store of its word. Takes no memory and waits for nobody.
    pub fn write_here(&self, pass: &mut Pass, h: Handle, at: u32, bytes: &[u8]) -> WriteAnswer
        requires of { IsPassOf self.now pass.old }
        requires knows { Knows h.n (record_of pass.old) }
        ensures of { IsPassOf self.now pass.new }
        ensures write { WriteGives h.n at bytes.now result
            (record_of pass.old) (record_of pass.new) }
    {
        let saw = self.look(pass, h);
        self.write_from(pass, h, saw, at, bytes)
    }

    /// The pointer word of an object that the pass knows, by one load.
    #[inline(always)]
    pub(crate) fn look(&self, pass: &mut Pass, h: Handle) -> u64
        requires of { IsPassOf self.now pass.old }
        requires knows { Knows h.n (record_of pass.old) }
        ensures of { IsPassOf self.now pass.new }
        ensures look { Glances h.n result pass.old.seat pass.new.seat }
    {
        glance(&self.board.shared, &mut pass.seat, &self.config, h.n)
    }

    /// The write of an object whose word was found so: why it can't be claimed, and else the claim
    /// and the write.
    #[inline(always)]
    pub(crate) fn write_from(
        &self,
        pass: &mut Pass,
        h: Handle,
        saw: u64,
        at: u32,
        bytes: &[u8],
    ) -> WriteAnswer
        requires of { IsPassOf self.now pass.old }
        requires knows { Knows h.n (record_of pass.old) }
        ensures of { IsPassOf self.now pass.new }
        ensures write { WriteFrom h.n saw at bytes.now result (record_of pass.old)
            (record_of pass.new) }
    {
        match refuse_write(saw, at, bytes.len()) {
            Some(answer) => answer,
            None => {
                let top = &self.board.shared;
                write_at(top, &mut pass.seat, &self.config, h.n, saw, at, bytes)
            }
        }
    }
}

/// Why an object is not claimed for a write, by its word; None where it can be.
fn refuse_write(word: u64, at: u32, count: usize) -> Option<WriteAnswer>
    requires { count < 2 ^ 63 }
    ensures refused { (a : WriteAnswer) → result ≡ Some a → IsWriteRefusal at count word a }
    ensures room { result ≡ None → IsRoomFor at count word × (pins_of word ≡ 0) }
{
    let fields = unpack(word);
    match fields.state {
        State::Empty => Some(WriteAnswer::Freed),
        State::Far => Some(WriteAnswer::NotHere),
        State::Moving => Some(WriteAnswer::Moving),
        State::Here if at as usize + count > fields.len as usize => {
            Some(WriteAnswer::Range { len: fields.len })
        }
        State::Here if fields.pins > 0 => Some(WriteAnswer::Pinned { count: fields.pins }),
        State::Here => None,
    }
}

/// Whether so many bytes from the byte number `at` on lie inside of an object with this word.
pub(crate) fn is_inside(word: u64, at: u32, count: usize) -> bool
    requires { count < 2 ^ 63 }
    ensures yes { result ≡ true → at + count ≤ len_of word }
    ensures no { result ≡ false → len_of word < at + count }
{
    at as usize + count <= unpack(word).len as usize
}

/// The claim of an object at the word that was seen, and its write.
#[inline(always)]
fn write_at(
    top: &Top,
    seat: &mut SeatAt,
    config: &Config,
    h: u32,
    saw: u64,
    at: u32,
    bytes: &[u8],
) -> WriteAnswer
    requires of { IsOf top.now.table_id top.now.key config.now seat.old }
    requires rest { IsAtRest config.now (record_at seat.old) }
    requires handle { h < config.now.handles }
    requires room { IsRoomFor at (length bytes.now) saw }
    requires bare { pins_of saw ≡ 0 }
    requires knows { Knows h (record_at seat.old) }
    ensures table { (seat.new.table_id ≡ seat.old.table_id) × (seat.new.me.1 ≡ seat.old.me.1) }
    ensures share { (record_at seat.new).share ≡ (record_at seat.old).share }
    ensures pins { (record_at seat.new).pins ≡ (record_at seat.old).pins }
    ensures rest { IsAtRest config.now (record_at seat.new) }
    ensures write { WriteAt h saw at bytes.now result (record_at seat.old) (record_at seat.new) }
{
    let found = top.compare_exchange::<ClaimHere>(seat, 1 + h as usize, saw, claimed(saw));
    if found != saw {
        return WriteAnswer::Raced { saw, found };
    }
    write_claimed(top, seat, config, h, saw, at, bytes)
}

/// The write of an object that the seat claims, and its settling.
#[inline(always)]
fn write_claimed(
    top: &Top,
    seat: &mut SeatAt,
    config: &Config,
    h: u32,
    word: u64,
    at: u32,
    bytes: &[u8],
) -> WriteAnswer
    requires of { IsOf top.now.table_id top.now.key config.now seat.old }
    requires handle { h < config.now.handles }
    requires room { IsRoomFor at (length bytes.now) word }
    requires bare { pins_of word ≡ 0 }
    requires claim { (v : ℕ) × (words : List ℕ) × IsFreshClaim config.now h word v words seat.old }
    ensures { (v : ℕ) (words : List ℕ) → IsFreshClaim config.now h word v words seat.old
        → WriteClaimed h word at bytes.now v words result seat.old seat.new }
{
    let stamp = 1 + config.handles as usize + h as usize;
    let version = top.load::<Date>(seat, stamp);
    if version == u64::MAX {
        top.store::<PutBack>(seat, 1 + h as usize, word);
        return WriteAnswer::Worn;
    }
    let place = unpack(word).place;
    overwrite_own(top, seat, config, place, at, bytes);
    top.store::<StampHere>(seat, stamp, version + 1);
    let next = settled(claimed(word), place, true);
    top.store::<SettleHere>(seat, 1 + h as usize, next);
    WriteAnswer::Ok {
        version: version + 1,
    }
}

/// Stores each word of a claimed object that these bytes reach, from the byte number `at` on. A
/// word of which a part stays is loaded before.
#[inline(always)]
fn overwrite_own(top: &Top, seat: &mut SeatAt, config: &Config, place: u32, at: u32, bytes: &[u8])
    requires of { IsOf top.now.table_id top.now.key config.now seat.old }
    requires end { at + length bytes.now < 2 ^ 16 }
    requires claim { (x : Held) × HoldsOnly x x.handle seat.old
        × IsWithin config.now x place at (length bytes.now) }
    ensures { (x : Held) → HoldsOnly x x.handle seat.old
        → IsWithin config.now x place at (length bytes.now)
        → (new : List ℕ) × IsWrite x.memory at bytes.now new
        × Moves seat.old seat.new (with_only (with_memory new x) (record_at seat.old)) }
{
    let end = at + bytes.len() as u32;
    let handles = config.handles as usize;
    let first = place as usize;
    for i in at / 8..end.div_ceil(8) {
        let word = merged_own(top, seat, config, first + i as usize, 8 * i, at, bytes);
        top.store::<StoreHere>(seat, 1 + handles + handles + first + i as usize, word);
    }
}

/// The word of a claimed object whose first byte is the object's byte `first`, with these bytes. It
/// is loaded where a part of it stays; where the bytes cover all of it there is one load of eight
/// of them.
#[inline(always)]
fn merged_own(
    top: &Top,
    seat: &mut SeatAt,
    config: &Config,
    place: usize,
    first: u32,
    at: u32,
    bytes: &[u8],
) -> u64
    requires of { IsOf top.now.table_id top.now.key config.now seat.old }
    requires place { place < 512 * config.now.frames }
    requires first { first + 8 < 2 ^ 32 }
    requires end { at + length bytes.now < 2 ^ 16 }
    ensures same { Moves seat.old seat.new (record_at seat.old) }
    ensures merged { (x : Held) (j : ℕ) → HoldsOnly x x.handle seat.old → j < words_for x.len
        → place ≡ x.place + j → IsWordMerged (slice_index x.memory j) first at bytes.now result }
{
    let end = at + bytes.len() as u32;
    if at <= first && first + 8 <= end {
        let from = (first - at) as usize;
        return LittleEndian::read_u64(&bytes[from..from + 8]);
    }
    let config = *config;
    let handles = config.handles as usize;
    let old = top.load::<ReadHeld>(seat, 1 + handles + handles + place);
    merged(old, first, at, bytes)
}
