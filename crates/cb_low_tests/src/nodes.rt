//! Rows at nodes, and the shards of a set.

ghost use Rattle.std.specs.Prelude.{◌≡◌, length};

use cb_member::{Epoch, Loss, Losses, Members, NoMemory, NodeId, Shard};
use cb_node::{Nodes, PutAnswer};
use cb_set::SpanSet;
use std::alloc::Global;

const LOSS: Loss = Loss {
    node: NodeId { n: 1 },
    epoch: Epoch { n: 1 },
};

/// Whether a copy of two losses has both.
fn copy_has_them(alloc: Global) -> Result<bool, NoMemory> {
    let losses = Losses::copy_of(alloc, &[LOSS, LOSS])?;
    Ok(losses.as_slice() == [LOSS, LOSS].as_slice())
}

/// Whether a row is put at one of two nodes and copied to the other.
fn copies(nodes: &mut Nodes) -> Result<bool, NoMemory>
    requires { length nodes.old.nodes ≡ 2 }
{
    let (a, b) = (NodeId { n: 0 }, NodeId { n: 1 });
    if nodes.has(a, 0) {
        return Ok(false);
    }
    let put = nodes.put(a, 0, &[7, 9])?;
    if !nodes.has(a, 0) || nodes.has(b, 1) {
        return Ok(false);
    }
    Ok(put == PutAnswer::Stored && nodes.copy(a, 0, b, 1)? == PutAnswer::Stored)
}

/// Whether a row is copied from a node to another.
fn row_is_copied(alloc: Global) -> Result<bool, NoMemory> {
    let mut nodes = Nodes::new(alloc, 2, 1)?;
    copies(&mut nodes)
}

const SHARDS: [Shard; 2] = [
    Shard {
        node: NodeId { n: 0 },
        incarnation: 0,
        key: 7,
    },
    Shard {
        node: NodeId { n: 1 },
        incarnation: 0,
        key: 8,
    },
];

/// Whether a set without objects, whose shards are there, matches itself.
fn set_matches(alloc: Global, members: &Members) -> Result<bool, NoMemory>
    requires { length members.now.nodes ≡ 2 }
{
    let set = SpanSet::new(alloc, 5, 1, 1, 1, &SHARDS)?;
    Ok(SpanSet::matched(&set, &set, members))
}

/// Whether a set matches itself where all nodes are up.
fn whole_set_matches(alloc: Global) -> Result<bool, NoMemory> {
    let members = Members::new(alloc, 2)?;
    set_matches(alloc, &members)
}

#[test]
fn losses_rows_and_sets_are_copied_and_matched(rt: HostRuntime) {
    let alloc = rt.alloc();
    assert!(rt; matches!(copy_has_them(alloc), Ok(true)));
    assert!(rt; matches!(row_is_copied(alloc), Ok(true)));
    assert!(rt; matches!(whole_set_matches(alloc), Ok(true)));
}
