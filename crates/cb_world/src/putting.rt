//! A row is put at a node under the next key.

ghost use Rattle.std.specs.Prelude.{◌≡◌, ◌<◌, false, length, OnErr, OnOk};
ghost use Rattle.cb_member.specs.Membership.{incarnation};
ghost use Rattle.cb_node.specs.NodesState.{has, held, with_row};

use crate::far::Far;
use cb_member::{NoMemory, NodeId, Shard};
use cb_node::{Nodes, PutAnswer};

/// The number of the next set.
pub fn next_number(far: &Far) -> u64
    ensures { result ≡ far.now.counts.sets }
{
    far.counts.sets
}

/// The shard for the next row on the node: of its incarnation, under the next key.
pub fn next_shard(far: &Far, node: NodeId) -> Shard
    requires { node.n < length far.now.members.nodes }
    ensures node { result.node ≡ node }
    ensures incarnation { result.incarnation ≡ incarnation far.now.members node }
    ensures key { result.key ≡ far.now.counts.keys }
{
    Shard {
        node,
        incarnation: far.members.incarnation(node),
        key: far.counts.keys,
    }
}

/// Puts a row at its shard's node, which has room: so running out of memory is the only error.
pub fn put_row(nodes: &mut Nodes, shard: Shard, row: &[u8]) -> Result<(), NoMemory>
    requires within { shard.node.n < length nodes.old.nodes }
    requires fresh { has nodes.old shard.node shard.key ≡ false }
    requires room { held nodes.old shard.node < nodes.old.room }
    ensures ok { OnOk result (nodes.new ≡ with_row nodes.old shard.node shard.key row.now) }
    ensures err { OnErr result (nodes.new ≡ nodes.old) }
{
    match nodes.put(shard.node, shard.key, row)? {
        PutAnswer::Stored => Ok(()),
        PutAnswer::Full { .. } => unreachable!(),
    }
}
