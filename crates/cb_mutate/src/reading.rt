//! A read of an object in local memory.

ghost use Rattle.std.specs.Prelude.{◌≡◌, ℕ, ◌*◌, ◌<◌, List, length, IfOk, OnErr};
ghost use Rattle.cb_types.specs.Config.{IsAccepted};
ghost use Rattle.cb_ptr.specs.declared.word.State.TheVariants as state;
ghost use Rattle.cb_ptr.specs.Word.{state_of, len_of, place_of};
ghost use Rattle.cb_world.specs.declared.access.Access.{Access};
ghost use Rattle.cb_types.specs.declared.reply.Reply.TheVariants as answer;
ghost use Rattle.cb_world.specs.declared.object.Object.TheVariants as is;
ghost use Rattle.cb_world.specs.declared.shown.Shown.{Shown};
ghost use Rattle.cb_world.specs.Desks.{IsReadyDesk, Operates};
ghost use Rattle.cb_world.specs.Shown.{object_at};
ghost use Rattle.cb_world.specs.Still.{IsStill};
ghost use Rattle.cb_world.specs.Claimed.{IsClaimedAt};
ghost use Rattle.cb_world.specs.Grasped.{IsFree};
ghost use Rattle.cb_world.specs.Reads.{AreReads};
ghost use Rattle.cb_world.specs.Touches.{Touches};
ghost use Rattle.cb_world.specs.Finishes.{Finishes};
ghost use Rattle.cb_mutate.specs.Answered.{AnsweredAs};
ghost use Rattle.cb_mutate.specs.ReadRule.{ReadHere, ReadRule, ReadEffect, IsSeenHere};
ghost use Rattle.cb_mutate.specs.ReadEnds.{ReadEnds, ReadsPinned, LiesInMemory};

use crate::loading::load_into;
use crate::reaching::{Reached, reach};
use crate::refusing::absent;
use cb_ptr::{State, claimed, settled, unpack};
use cb_types::{Bytes, Handle, NoMemory, Reply};
use cb_world::{Desk, Far, Grasp};
use std::alloc::Global;

/// Reads an object in local memory, and leaves its word hot. Pins don't hinder it: what others pin
/// they don't write, so a pinned object is read as it stands. Takes the memory of the answer alone,
/// by the length that a first look finds and before the object is touched; where there is none,
/// nothing is changed.
///
/// Refuses with Unmade, Freed, Moving or NotHere where the object is not here; NotHere is answered
/// only where it is far.
pub fn read<D: Desk>(
    alloc: Global,
    desk: &mut D,
    far: &mut Far,
    h: Handle,
) -> Result<Reply, NoMemory>
    requires handle { h.n < (D.settings desk.old).handles }
    requires config { IsAccepted (D.settings desk.old) }
    requires sound { IsReadyDesk D.shows desk.old far.old }
    ensures far { far.new ≡ far.old }
    ensures read { IfOk result (λ reply. Operates D.run D.shows desk.old far.old desk.new far.new
        (ReadRule h.n reply)
        (ReadEffect h.n reply)) }
    ensures error { OnErr result (Operates D.run D.shows desk.old far.old desk.new far.new
        (IsSeenHere h.n)
        IsStill) }
    ensures away { IfOk result (λ reply. reply ≡ answer.NotHere → (s : Shown) → D.shows desk.old s
        → (len v : ℕ) × (words : List ℕ) × (object_at s h.n ≡ is.Far len v words)) }
{
    let _far = far;
    match reach(alloc, desk, h)? {
        Reached::Claimed { word, room } => Ok(read_claimed(desk, h, word, room)),
        Reached::Left { word, room } => Ok(read_left(desk, h, word, room)),
    }
}

/// What is answered of an object that can't be claimed: with pins it is read as it stands.
fn read_left<D: Desk>(desk: &mut D, h: Handle, word: u64, room: Bytes) -> Reply
    requires handle { h.n < (D.settings desk.old).handles }
    requires config { IsAccepted (D.settings desk.old) }
    requires left { ¬ (IsFree word) }
    requires within { state_of word ≡ state.Here
        → LiesInMemory word (512 * (D.settings desk.old).frames) }
    requires room { state_of word ≡ state.Here → length room ≡ len_of word }
    ensures { (es : List Access) × D.run desk.old es desk.new × AreReads h.n es
        × Touches h.n (place_of word) (len_of word) es
        × AnsweredAs (state_of word) (ReadHere h.n es result) word h.n es result }
{
    match unpack(word).state {
        State::Here => read_pinned(desk, h, word, room),
        _ => absent(desk, h, word),
    }
}

/// Reads a claimed object and settles it hot.
fn read_claimed<D: Desk>(desk: &mut D, h: Handle, word: u64, mut room: Bytes) -> Reply
    requires handle { h.n < (D.settings desk.old).handles }
    requires config { IsAccepted (D.settings desk.old) }
    requires claimed { (s : Shown) × D.shows desk.old s
        × ((v : ℕ) × (words : List ℕ) × IsClaimedAt s h.n word v words) }
    requires room { length room ≡ len_of word }
    ensures shown { (v : ℕ) × (bytes : List ℕ) × (result ≡ answer.Bytes v bytes) }
    ensures ends { Finishes (λ es. D.run desk.old es desk.new)
        (λ s v words. D.shows desk.old s × IsClaimedAt s h.n word v words) h.n word
        (ReadEnds h.n word result) }
{
    let fields = unpack(word);
    let version = desk.version(h);
    load_into(desk, fields.place, fields.len, &mut room);
    desk.settle(h, settled(claimed(word), fields.place, true));
    Reply::Bytes {
        version,
        bytes: room,
    }
}

/// Reads an object with pins.
fn read_pinned<D: Desk>(desk: &mut D, h: Handle, word: u64, mut room: Bytes) -> Reply
    requires handle { h.n < (D.settings desk.old).handles }
    requires config { IsAccepted (D.settings desk.old) }
    requires within { LiesInMemory word (512 * (D.settings desk.old).frames) }
    requires room { length room ≡ len_of word }
    ensures { ReadsPinned (λ es. D.run desk.old es desk.new) h.n word result }
{
    let fields = unpack(word);
    let version = desk.version(h);
    load_into(desk, fields.place, fields.len, &mut room);
    Reply::Bytes {
        version,
        bytes: room,
    }
}
