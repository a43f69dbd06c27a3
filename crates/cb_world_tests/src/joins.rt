//! Joins of two sets, in steps and at once.

ghost use Rattle.cb_world.specs.World.{IsSoundWorld};

use crate::merges::{TWO_SETS, given_in};
use crate::scrubbing::world_of;
use cb_core::{Event, step};
use cb_local::compact_local;
use cb_member::{NodeId, Shard};
use cb_types::{Job, NoMemory, Reply};
use cb_world::{Far, World};
use std::alloc::Global;
use std::test::Fail;

/// The same two sets at nodes that have room for two rows each, which two of a's nodes hold.
const TWO_SETS_AT_FULL_NODES: &[u8] = b"carbink 1 k=2 r=2 nodes=6 frames=8 room=2 handles=16 \
turns=0\n1 make a 01\n1 make b 02\n1 filter a\n1 evict\n1 make c 03\n1 make d 04\n1 filter c\n\
1 evict\n1 read b\n1 read c\n";

/// Whether the replies are the same ending of a join.
fn are_same(a: &Result<Reply, NoMemory>, b: &Result<Reply, NoMemory>) -> bool {
    match (a, b) {
        (
            Ok(Reply::Merged { set, moved }),
            Ok(
                Reply::Merged {
                    set: other,
                    moved: count,
                },
            ),
        ) => { set.n == other.n && moved == count }
        (Ok(Reply::NodeFull { node }), Ok(Reply::NodeFull { node: other })) => node.n == other.n,
        (Ok(Reply::NoPair), Ok(Reply::NoPair)) => true,
        _ => false,
    }
}

/// Whether both lists are of the same shards.
fn same_shards(a: &[Shard], b: &[Shard]) -> bool {
    if a.len() != b.len() {
        return false;
    }
    for (i, shard) in a.iter().enumerate() {
        if shard.node.n != b[i].node.n || shard.key != b[i].key {
            return false;
        }
    }
    true
}

/// Whether the set of a number is in both, with the same shards, or in neither.
fn same_set(a: &Far, b: &Far, id: u64) -> bool {
    match (a.sets.committed(id), b.sets.committed(id)) {
        (Some(set), Some(other)) => same_shards(set.shards(), other.shards()),
        (None, None) => true,
        _ => false,
    }
}

/// Whether each of the six nodes holds as many rows in both.
fn same_nodes(a: &Far, b: &Far) -> bool {
    for n in 0..6u8 {
        if u32::from(n) >= a.nodes.len() || u32::from(n) >= b.nodes.len() {
            return false;
        }
        let node = NodeId { n };
        if a.nodes.held(node) != b.nodes.held(node) {
            return false;
        }
    }
    true
}

/// Whether both have drawn as much, hold the same of the first three sets, and join no pair.
fn same_far(a: &Far, b: &Far) -> bool {
    let drawn = a.counts.keys == b.counts.keys && a.counts.sets == b.counts.sets;
    let sets = same_set(a, b, 0) && same_set(a, b, 1) && same_set(a, b, 2);
    drawn && sets && same_nodes(a, b) && a.joining.is_none() && b.joining.is_none()
}

/// Whether both ways to join the sets of these worlds, which are alike, lead to the same, but that
/// the compute side was given so many rows: in a turn, with parities that the nodes make, and with
/// parities that the compute side makes.
fn compare(alloc: Global, there: &mut World, here: &mut World, rows: u64) -> bool
    requires there { IsSoundWorld there.old }
    requires here { IsSoundWorld here.old }
{
    let before = given_in(here);
    let job = Job::Compact;
    let said = step(alloc, there, &Event::Turn { seat: 0, job });
    let told = compact_local(alloc, &mut here.desk, &mut here.far);
    let given = given_in(there) == before && given_in(here).wrapping_sub(before) == rows;
    are_same(&said, &told) && given && same_far(&here.far, &there.far)
}

/// The same in two worlds that these lines lead to.
fn both_join(alloc: Global, text: &[u8], rows: u64) -> Result<bool, NoMemory> {
    let mut there = world_of(alloc, &[text])?;
    let found = match world_of(alloc, &[text]) {
        Ok(mut here) => {
            let found = compare(alloc, &mut there, &mut here, rows);
            here.end();
            Ok(found)
        }
        Err(e) => Err(e),
    };
    there.end();
    found
}

#[test]
fn both_joins_lead_to_the_same_but_for_the_rows_given(rt: HostRuntime) -> Result<(), Fail> {
    let alloc = rt.alloc();
    assert!(rt; matches!(both_join(alloc, TWO_SETS, 4), Ok(true)));
    assert!(rt; matches!(both_join(alloc, TWO_SETS_AT_FULL_NODES, 0), Ok(true)));
    Ok(())
}
