//! A free.

ghost use Rattle.std.specs.Prelude.{◌≡◌, ◌≢◌, ℕ, ◌<◌, List, true, false, IsOk, IfOk};
ghost use Rattle.cb_ptr.specs.declared.word.State.TheVariants as state;
ghost use Rattle.cb_ptr.specs.Word.{state_of, len_of, place_of};
ghost use Rattle.cb_span.specs.Contents.{Contents};
ghost use Rattle.cb_types.specs.declared.reply.Reply.TheVariants as answer;
ghost use Rattle.cb_world.specs.declared.access.Access.{Access};
ghost use Rattle.cb_world.specs.declared.shown.Shown.{Shown};
ghost use Rattle.cb_world.specs.Desks.{IsReadyDesk, Operates};
ghost use Rattle.cb_world.specs.Sound.{Sound};
ghost use Rattle.cb_world.specs.Grasped.{IsFree};
ghost use Rattle.cb_world.specs.Reads.{AreReads};
ghost use Rattle.cb_world.specs.Touches.{Touches};
ghost use Rattle.cb_world.specs.Claimed.{IsClaimedAt};
ghost use Rattle.cb_world.specs.Released.{IsSlotAt, with_released};
ghost use Rattle.cb_world.specs.declared.homes.Home.{Home};
ghost use Rattle.cb_world.specs.declared.object.Object.TheVariants as is;
ghost use Rattle.cb_world.specs.Shown.{object_at};
ghost use Rattle.cb_world.specs.LeftOver.{LiesIn, without_far};
ghost use Rattle.cb_set.specs.SetState.{SetState};
ghost use Rattle.cb_world.specs.Finishes.{Finishes};
ghost use Rattle.cb_mutate.specs.Answered.{AnsweredAs};
ghost use Rattle.cb_mutate.specs.FreeRule.{FreeHere, FreeRule, FreeEffect};
ghost use Rattle.cb_mutate.specs.FreeEnds.{FreeEnds, FreesFar};

use crate::refusing::absent;
use cb_ptr::{State, unpack};
use cb_types::{Handle, NoMemory, Reply};
use cb_world::{Desk, Far, Grasp, release, remove_far, try_claim};

/// Frees an object. Where it is in local memory its slot is empty, and a span whose last object
/// goes gives its frames back at once. Where it is far no row is read: its slot in its span-set is
/// empty, a position without objects is dead, and a set with no live position goes with all its
/// rows. Takes no memory, and never answers that there is none.
///
/// Refuses with Unmade, Freed or Moving, with Pinned where the object has pins, and with Worn where
/// its version has no next one.
pub fn free<D: Desk>(desk: &mut D, far: &mut Far, h: Handle) -> Result<Reply, NoMemory>
    requires handle { h.n < (D.settings desk.old).handles }
    requires sound { IsReadyDesk D.shows desk.old far.old }
    ensures memory { IsOk result }
    ensures free { IfOk result (λ reply. Operates D.run D.shows desk.old far.old desk.new far.new
        (FreeRule h.n far.old far.new reply)
        (FreeEffect h.n reply)) }
{
    Ok(freed(desk, far, h))
}

/// The free, which always answers.
fn freed<D: Desk>(desk: &mut D, far: &mut Far, h: Handle) -> Reply
    requires handle { h.n < (D.settings desk.old).handles }
    requires sound { IsReadyDesk D.shows desk.old far.old }
    ensures free { Operates D.run D.shows desk.old far.old desk.new far.new
        (FreeRule h.n far.old far.new result)
        (FreeEffect h.n result) }
{
    match try_claim(desk, h) {
        Grasp::Claimed { word } => free_claimed(desk, far, h, word),
        Grasp::Left { word } => {
            if is_far(word) {
                free_far(desk, far, h)
            } else {
                refuse_free(desk, h, word)
            }
        }
    }
}

/// Whether a word is that of a far object.
fn is_far(word: u64) -> bool
    ensures far { result ≡ true → state_of word ≡ state.Far }
    ensures other { result ≡ false → state_of word ≢ state.Far }
{
    match unpack(word).state {
        State::Far => true,
        _ => false,
    }
}

/// The free of a far object: it is empty with its next version, and taken out of its set.
fn free_far<D: Desk>(desk: &mut D, far: &mut Far, h: Handle) -> Reply
    requires handle { h.n < (D.settings desk.old).handles }
    requires away { (s : Shown) × D.shows desk.old s × Sound s far.old
        × ((len v : ℕ) × (words : List ℕ) × (object_at s h.n ≡ is.Far len v words)) }
    ensures frees { (v : ℕ) × FreesFar (λ es. D.run desk.old es desk.new) h.n v result }
    ensures stays { result ≡ answer.Worn → far.new ≡ far.old }
    ensures removed { (n : ℕ) (home : Home) (set : SetState) → result ≡ answer.Version n
        → LiesIn far.old h.n home set → far.new ≡ without_far far.old h.n home set }
{
    let last = desk.version(h);
    if last == u64::MAX {
        return Reply::Worn;
    }
    desk.store_version(h, last + 1);
    desk.settle(h, 0);
    remove_far(far, h.n);
    Reply::Version { version: last + 1 }
}

/// Why a free is refused by a word that can't be claimed and is not far.
fn refuse_free<D: Desk>(desk: &mut D, h: Handle, word: u64) -> Reply
    requires handle { h.n < (D.settings desk.old).handles }
    requires left { ¬ (IsFree word) }
    ensures { (es : List Access) × D.run desk.old es desk.new × AreReads h.n es
        × Touches h.n (place_of word) (len_of word) es
        × AnsweredAs (state_of word) (FreeHere h.n es result) word h.n es result }
{
    let fields = unpack(word);
    match fields.state {
        State::Here => Reply::Pinned { count: fields.pins },
        _ => absent(desk, h, word),
    }
}

/// The free of a claimed object.
fn free_claimed<D: Desk>(desk: &mut D, far: &mut Far, h: Handle, word: u64) -> Reply
    requires handle { h.n < (D.settings desk.old).handles }
    requires claimed { (s : Shown) × D.shows desk.old s
        × ((v : ℕ) × (words : List ℕ) × IsClaimedAt s h.n word v words) }
    requires slot { (f slot : ℕ) × (span : Contents)
        × IsSlotAt far.old.frames far.old.spans (place_of word) f slot span }
    ensures ends { Finishes (λ es. D.run desk.old es desk.new)
        (λ s v words. D.shows desk.old s × IsClaimedAt s h.n word v words) h.n word
        (FreeEnds h.n word result) }
    ensures stays { result ≡ answer.Worn → far.new ≡ far.old }
    ensures released { (n f slot : ℕ) (span : Contents) → result ≡ answer.Version n
        → IsSlotAt far.old.frames far.old.spans (place_of word) f slot span
        → far.new ≡ with_released far.old f slot span }
{
    let version = desk.version(h);
    if version == u64::MAX {
        desk.settle(h, word);
        return Reply::Worn;
    }
    desk.store_version(h, version + 1);
    desk.settle(h, 0);
    release(&mut far.spans, &mut far.frames, unpack(word).place);
    Reply::Version {
        version: version + 1,
    }
}
