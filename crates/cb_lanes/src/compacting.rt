//! Two sets are joined, and the compute side makes the parities.

ghost use Rattle.std.specs.Prelude.{◌≡◌, ◌<◌, ◌≤◌, ℕ, IfOk, OnErr};
ghost use Rattle.cb_world.specs.declared.shown.Shown.{Shown};
ghost use Rattle.cb_world.specs.Sound.{Sound};
ghost use Rattle.cb_world.specs.World.{IsSoundWorld};
ghost use Rattle.cb_local.specs.Fetching.{far_given};
ghost use Rattle.cb_local.specs.LocalStep.{LocalStep};
ghost use Rattle.cb_lanes.specs.CompactsHere.{CompactsHere, StopsHere};

use cb_core::admit_turn;
use cb_local::compact_local;
use cb_types::{Job, NoMemory, Reply};
use cb_world::World;
use std::alloc::Global;

/// A turn of a seat in which two span-sets are joined, and the compute side makes the parities. It
/// is counted as a compaction, and refused where that is: with Held, and the seat, where another
/// one holds the far lock, and with Worn where 2^40 turns were counted. Where there was no memory,
/// the turn is counted and rows of a pair may have been given out; nothing else changed.
pub(crate) fn compact_here(alloc: Global, world: &mut World, seat: u32) -> Result<Reply, NoMemory>
    requires seat { seat < 64 }
    requires sound { IsSoundWorld world.old }
    ensures step { IfOk result (λ reply. CompactsHere seat world.old reply world.new) }
    ensures error { OnErr result (StopsHere seat world.old world.new) }
    ensures sound { IsSoundWorld world.new }
{
    match admit_turn(world, seat, &Job::Compact) {
        Some(reply) => Ok(reply),
        None => compact(alloc, world),
    }
}

/// Joins two span-sets in a world that has counted the turn.
fn compact(alloc: Global, world: &mut World) -> Result<Reply, NoMemory>
    requires sound { IsSoundWorld world.old }
    ensures desk { world.new.desk ≡ world.old.desk }
    ensures seats { world.new.seats ≡ world.old.seats }
    ensures step { IfOk result (λ reply. LocalStep world.old.far world.new.far reply) }
    ensures error { OnErr result ((rows : ℕ) × (rows ≤ 36)
        × (world.new.far ≡ far_given world.old.far rows)) }
    ensures sound { (s : Shown) → Sound s world.old.far → Sound s world.new.far }
{
    compact_local(alloc, &mut world.desk, &mut world.far)
}
