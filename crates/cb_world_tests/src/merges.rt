//! Scripts of joins, by the nodes and by the compute side.

use crate::scrubbing::world_of;
use cb_types::NoMemory;
use cb_world::World;
use std::alloc::Global;
use std::test::Fail;

/// Two sets on two data rows and two parities each; of the first one position 1 is back, of the
/// second one position 0.
pub(crate) const TWO_SETS: &[u8] =
    b"carbink 1 k=2 r=2 nodes=6 frames=8 room=64 handles=16 turns=0\n\
    1 make a 01\n1 make b 02\n1 filter a\n1 evict\n1 make c 03\n1 make d 04\n1 filter c\n\
    1 evict\n1 read b\n1 read c\n";

/// The two become one, in steps and in one line.
const IN_STEPS: &[u8] = b"1 pair\n1 patch\n1 patch\n1 patch\n1 patch\n1 merge\n";

const AT_ONCE: &[u8] = b"1 compact\n";

/// Both far objects are read, each of them from two of the rows that are left.
const READ: &[u8] = b"1 crash 0\n1 crash 1\n1 read a\n1 read d\n1 read b\n1 read c\n";

/// How many rows were given out in a world.
pub(crate) fn given_in(world: &World) -> u64 {
    world.far.nodes.given()
}

/// Whether so many rows were given out in the world that the lines lead to.
fn are_given_by(alloc: Global, parts: &[&[u8]], rows: u64) -> Result<bool, NoMemory> {
    let world = world_of(alloc, parts)?;
    let given = given_in(&world);
    world.end();
    Ok(given == rows)
}

/// Whether a merge, in steps and at once, gives no row out, and four are given out after it.
fn merges_give_none(alloc: Global) -> Result<bool, NoMemory> {
    let mut all = are_given_by(alloc, &[TWO_SETS], 2)?;
    for merge in [IN_STEPS, AT_ONCE] {
        all &= are_given_by(alloc, &[TWO_SETS, merge], 2)?;
        all &= are_given_by(alloc, &[TWO_SETS, merge, READ], 6)?;
    }
    Ok(all)
}

#[test]
fn a_merge_gives_no_row_out(rt: HostRuntime) -> Result<(), Fail> {
    assert!(rt; matches!(merges_give_none(rt.alloc()), Ok(true)));
    Ok(())
}
