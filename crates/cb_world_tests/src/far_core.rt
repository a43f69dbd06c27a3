//! Turns of the core, as docs/EMBEDDING.md shows them: two objects leave, a node crashes, and one
//! of them is read.
ghost use Rattle.cb_world_tests.specs.Worlds.{IsSmallWorld};

use crate::worlds::turn_of;
use cb_member::NodeId;
use cb_types::{Bytes, Handle, Job, NoMemory, Reply};
use cb_world::World;
use std::alloc::Global;

/// Makes two objects in spans of their own, lets both spans leave as one set, crashes a node that
/// has a row of it, and reads the first object.
pub(crate) fn read_behind_a_crash(alloc: Global, world: &mut World) -> Result<Reply, NoMemory>
    requires world { IsSmallWorld world.old }
{
    let greeting = Bytes::copy_of(alloc, b"hello")?;
    turn_of(alloc, world, Job::Make { bytes: greeting })?;
    let numbers = Bytes::copy_of(alloc, &[7; 17])?;
    turn_of(alloc, world, Job::Make { bytes: numbers })?;
    turn_of(alloc, world, Job::Evict)?;
    let node = NodeId { n: 0 };
    turn_of(alloc, world, Job::Crash { node })?;
    let handle = Handle { n: 0 };
    turn_of(alloc, world, Job::Read { handle })
}
