//! What a world counts, and its end.

ghost use Rattle.std.specs.Prelude.{◌≡◌, None};
ghost use Rattle.carbink_c.specs.Handle.{IsSoundIn, world_of};
ghost use Rattle.carbink_c.specs.Outcome.{IsOutcomeOf};
ghost use Rattle.carbink_c.specs.WorldEnds.{GivenEnds};

use crate::handle::CarbinkWorld;
use crate::held::Held;
use crate::outcome::Outcome;
use std::alloc::Global;
use std::mem;

/// Gives the world's memory back, where the handle holds one; it holds none then.
#[unsafe(no_mangle)]
pub extern "C" fn carbink_world_free(alloc: Global, world: &mut CarbinkWorld)
    ensures { world_of world.new ≡ None }
{
    if let Some(held) = world.take(alloc) {
        mem::drop(held);
    }
}

/// Tells how many rows the nodes of the world have given out. Where the answer is not Done, `given`
/// stays as it is; the world does in any case.
#[unsafe(no_mangle)]
pub extern "C" fn carbink_world_given(
    alloc: Global,
    world: &mut CarbinkWorld,
    given: &mut u64,
) -> u32
    requires sound { IsSoundIn (world_of world.old) }
    ensures ends { IsOutcomeOf (GivenEnds (world_of world.old) given.old given.new) result }
    ensures same { world_of world.new ≡ world_of world.old }
{
    counted(alloc, world, given).number()
}

fn counted(alloc: Global, world: &mut CarbinkWorld, given: &mut u64) -> Outcome
    ensures ends { GivenEnds (world_of world.old) given.old given.new result }
    ensures same { world_of world.new ≡ world_of world.old }
{
    match world.take(alloc) {
        Some(held) => {
            *given = given_by(&held);
            world.put(held);
            Outcome::Done
        }
        None => Outcome::NoWorld,
    }
}

fn given_by(held: &Held) -> u64
    ensures { result ≡ held.now.world.far.nodes.given }
{
    held.world.far.nodes.given()
}
