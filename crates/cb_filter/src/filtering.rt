//! An object moves to a span of its temperature.

ghost use Rattle.std.specs.Prelude.{◌≡◌, ℕ, ◌^◌, ◌<◌, ◌≤◌, List, [], ◌∷◌, length, IfOk, OnErr};
ghost use Rattle.cb_ptr.specs.Word.{hot_of, place_of};
ghost use Rattle.cb_types.specs.Config.{IsAccepted};
ghost use Rattle.cb_world.specs.declared.access.Access.TheVariants.{Settled};
ghost use Rattle.cb_world.specs.declared.shown.Shown.{Shown};
ghost use Rattle.cb_world.specs.Desks.{IsReadyDesk, Operates};
ghost use Rattle.cb_world.specs.LocalSound.{AreFrames};
ghost use Rattle.cb_world.specs.Still.{IsStill};
ghost use Rattle.cb_filter.specs.Seats.{Seat, temp_for};
ghost use Rattle.cb_filter.specs.FilterRule.{FilterRule, NeedsMemory};
ghost use Rattle.cb_filter.specs.FilterEffect.{FilterEffect};
ghost use Rattle.cb_filter.specs.Plans.{LiesAtPlace, Wants};
ghost use Rattle.cb_filter.specs.ClaimEnds.{ClaimEnds, FilterEnds, IsKnownAt};

use crate::copying::{carry, cool};
use crate::planning::{Plan, plan_move};
use crate::refusing::refuse;
use cb_ptr::unpack;
use cb_types::{Handle, NoMemory, Reply};
use cb_world::{Desk, Far, Grasp, release, try_claim};

/// Moves an object in local memory to a span of its temperature: a hot one where its word is hot,
/// else a cold one. Takes the memory of a new span alone, before anything but the object's claim is
/// changed; where there is none, all is as it was.
///
/// Moved, where the object's span has the other temperature: the object goes into the least empty
/// slot of the least frame that holds a span of its class and temperature with one and is not
/// leaving, else into a new span in the least run of free frames that it fits. A span whose last
/// object goes gives its frames back. Same, where its span has its temperature. After both its word
/// is not hot.
///
/// Refuses with Unmade where it was never made, with NotHere where it was freed or is far, with
/// Moving where another has claimed it, with Pinned where it has pins, and with NoSlot where there
/// is neither a slot nor such a run. A refusal changes nothing.
pub fn filter_one<D: Desk>(desk: &mut D, far: &mut Far, h: Handle) -> Result<Reply, NoMemory>
    requires handle { h.n < (D.settings desk.old).handles }
    requires config { IsAccepted (D.settings desk.old) }
    requires sound { IsReadyDesk D.shows desk.old far.old }
    ensures filter { IfOk result (λ reply. Operates D.run D.shows desk.old far.old desk.new far.new
        (FilterRule (D.settings desk.old).frames h.n far.old far.new reply)
        (FilterEffect h.n far.old far.new reply)) }
    ensures error { OnErr result (Operates D.run D.shows desk.old far.old desk.new far.new
        (NeedsMemory h.n far.old far.new)
        IsStill) }
{
    match try_claim(desk, h) {
        Grasp::Claimed { word } => filter_claimed(desk, far, h, word),
        Grasp::Left { word } => Ok(refuse(desk, h, word)),
    }
}

/// The filter of a claimed object.
fn filter_claimed<D: Desk>(
    desk: &mut D,
    far: &mut Far,
    h: Handle,
    word: u64,
) -> Result<Reply, NoMemory>
    requires handle { h.n < (D.settings desk.old).handles }
    requires config { IsAccepted (D.settings desk.old) }
    requires frames { AreFrames far.old }
    requires numbered { length far.old.frames ≤ 2 ^ 15 }
    requires seat { (seat : Seat) × LiesAtPlace far.old (place_of word) seat }
    requires ready { (s : Shown) × D.shows desk.old s
        × ((v : ℕ) × (words : List ℕ) × IsKnownAt s far.old h.n word v words) }
    ensures ends { IfOk result (λ reply. ClaimEnds (λ es. D.run desk.old es desk.new)
        (λ s v words. D.shows desk.old s × IsKnownAt s far.old h.n word v words) h.n
        (FilterEnds (D.settings desk.old).frames far.old far.new h.n word reply)) }
    ensures error { OnErr result ((far.new ≡ far.old)
        × ((seat : Seat) → LiesAtPlace far.old (place_of word) seat
        → Wants far.old (temp_for (hot_of word)) seat)
        × D.run desk.old (Settled h.n word ∷ []) desk.new) }
{
    let plan = match plan_move(far, h.n, word) {
        Ok(plan) => plan,
        Err(error) => {
            desk.settle(h, word);
            return Err(error);
        }
    };
    match plan {
        Plan::Same => {
            cool(desk, h, word);
            Ok(Reply::Same)
        }
        Plan::NoSlot => {
            let frames = desk.config().frames;
            desk.settle(h, word);
            Ok(Reply::NoSlot { frames })
        }
        Plan::Move { place } => {
            carry(desk, h, word, place);
            release(&mut far.spans, &mut far.frames, unpack(word).place);
            Ok(Reply::Moved)
        }
    }
}
