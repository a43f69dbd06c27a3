//! A turn is counted, or refused after 2^40 of them.

ghost use Rattle.std.specs.Prelude.{◌≡◌, ◌^◌, ◌<◌, IfNone, IfSome, true, false};
ghost use Rattle.cb_world.specs.World.{AreCounted, IsSoundWorld};
ghost use Rattle.cb_core.specs.Admitting.{IsAdmitted, IsTurnRefused};
ghost use Rattle.cb_core.specs.Jobs.{NeedsNoOrder};
ghost use Rattle.cb_core.specs.Turned.{counted};

use crate::holding::other_holder;
use crate::turning::count_turn;
use cb_types::{Job, Reply};
use cb_world::World;

/// Counts a turn of a seat, whose job the caller is to do; it is one that hands no order out and
/// takes none. Takes no memory. Answers None where it
/// is counted, and else why it is refused, as `step` refuses it: with Held, and the seat, where
/// another one holds the far lock, and with Worn where 2^40 turns were counted. A turn that is
/// refused changes nothing.
pub fn admit_turn(world: &mut World, seat: u32, job: &Job) -> Option<Reply>
    requires order { NeedsNoOrder job.now }
    requires sound { IsSoundWorld world.old }
    ensures refused { IfSome result (λ reply. IsTurnRefused seat world.old reply) }
    ensures same { IfSome result (λ reply. world.new ≡ world.old) }
    ensures admitted { IfNone result (IsAdmitted seat job.now world.old world.new) }
    ensures sound { IsSoundWorld world.new }
{
    match other_holder(world, seat) {
        Some(holder) => Some(Reply::Held { seat: holder }),
        None => {
            if counts(world, job) {
                None
            } else {
                Some(Reply::Worn)
            }
        }
    }
}

/// Counts a turn in the world, unless 2^40 turns were counted. Answers whether it did.
fn counts(world: &mut World, job: &Job) -> bool
    requires counted { AreCounted world.old.far }
    ensures done { result ≡ true → (world.old.far.counts.turns < 2 ^ 40)
        × (world.new ≡ record world.old { far = counted world.old.far job.now }) }
    ensures worn { result ≡ false → (world.old.far.counts.turns ≡ 2 ^ 40)
        × (world.new ≡ world.old) }
{
    count_turn(&mut world.far, job)
}
