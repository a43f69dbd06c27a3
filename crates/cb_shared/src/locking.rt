//! The far lock: it is taken with the far state, and given back with it.
ghost use Rattle.std.specs.Prelude.{◌≡◌, ◌%◌, ◌^◌, ◌<◌, [], ◌∷◌, Some, None};
ghost use Rattle.cb_world.specs.FarState.{FarState};
ghost use Rattle.cb_shared.specs.Seats.{IsOf, Moves, record_at};
ghost use Rattle.cb_shared.specs.UnderLock.{GivesFar, IsEnding, TakesFar};

use crate::board::{SeatAt, Top};
use crate::boxed_far::BoxedFar;
use crate::plays::{Deed, GiveLock, Opening, TakeLock};
use cb_types::Config;
use std::marker::Brand;
use std::sync::Wait;
use std::{hint, mem};

/// How often a pass looks at the lock before it sleeps until the lock is given back: some tens of
/// microseconds, in which a few turns are over that bring a span in. To sleep and to be woken takes
/// longer than one of these; a pass that waits for a long turn leaves its processor to the others.
const SPINS: u32 = 4000;

/// Waits until the far lock is free, and takes it with the far state.
pub(crate) fn lock_far<R: Wait>(rt: &R, top: &Top, seat: &mut SeatAt, config: &Config) -> BoxedFar
    requires of { IsOf top.now.table_id top.now.key config.now seat.old }
    ensures took { TakesFar config.now result seat.old seat.new }
    ensures first { (record_at seat.new).known.first ≡ top.now.key.first }
{
    for _ in rt.forever() {
        let word = await_free(rt, top);
        match take_far::<Brand>(top, seat, config, word) {
            Some(far) => return far,
            None => {}
        }
    }
    unreachable!()
}

/// Waits until the lock's word is one that a free lock has, and answers it. A look at the word
/// alone is short, and moves no far state. The word of a lock that is held is 1.
fn await_free<R: Wait>(rt: &R, top: &Top) -> u64
    requires word { 0 < top.now.table_id.words }
    ensures even { result % 2 ≡ 0 }
{
    let mut spins = 0;
    for _ in rt.forever() {
        let word = top.peek(0);
        if word % 2 == 0 {
            return word;
        }
        if spins < SPINS {
            hint::spin_loop();
            spins += 1;
        } else {
            top.park(rt, 0, 1);
            spins = 0;
        }
    }
    unreachable!()
}

/// Takes the lock if its word is this one, and the far state out of the slot that comes with it.
fn take_far<W: Opening>(
    top: &Top,
    seat: &mut SeatAt,
    config: &Config,
    word: u64,
) -> Option<BoxedFar>
    requires of { IsOf top.now.table_id top.now.key config.now seat.old }
    requires picks { W.first ≡ top.now.key.first }
    requires even { word % 2 ≡ 0 }
    ensures took { (far : FarState) → result ≡ Some far
        → TakesFar config.now far seat.old seat.new }
    ensures first { (far : FarState) → result ≡ Some far
        → (record_at seat.new).known.first ≡ top.now.key.first }
    ensures lost { result ≡ None → Moves seat.old seat.new (record_at seat.old) }
{
    let _config = config;
    let found = top.compare_exchange::<TakeLock<W>>(seat, 0, word, 1);
    if found != word {
        return None;
    }
    top.exchange(seat, 0, None)
}

/// How many turns were counted.
fn turns_of(far: &BoxedFar) -> u64
    ensures { result ≡ far.now.counts.turns }
{
    far.state.counts.turns
}

/// Puts the far state into its slot, gives the lock back, and wakes one who waits for it. The
/// lock's word is twice the count of turns then. What the turn was asked for and answered is told,
/// so that the deed is picked by it.
pub(crate) fn give_far<W: Deed, T: Copy>(
    top: &Top,
    seat: &mut SeatAt,
    config: &Config,
    told: T,
    far: BoxedFar,
)
    requires of { IsOf top.now.table_id top.now.key config.now seat.old }
    requires slot { seat.old.me.1 ≡ (0, None) ∷ [] }
    requires few { far.counts.turns < 2 ^ 63 }
    requires ends { IsEnding config.now W.job W.reply W.keeps far (record_at seat.old) }
    ensures { GivesFar config.now W.job W.reply W.keeps far seat.old seat.new }
{
    let _config = config;
    let _told = told;
    let word = 2 * turns_of(&far);
    // The slot was empty, so that there is nothing to drop.
    mem::forget(top.exchange(seat, 0, Some(far)));
    top.store::<GiveLock<W>>(seat, 0, word);
    top.wake_one(0);
}
