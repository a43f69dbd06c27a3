//! Which node gets a row.

ghost use Rattle.std.specs.Prelude.{◌≡◌, ◌<◌, ◌≤◌, ◌↔◌, IfNone, IfSome, IsTrue, length};
ghost use Rattle.cb_member.specs.declared.names.NodeId.{NodeId};
ghost use Rattle.cb_world.specs.Choices.{has_room, stands_on, room_count, HoldsFewer, MayPut, IsLeastNode};

use cb_member::{Members, NodeId, Shard};
use cb_node::Nodes;

/// Whether the node is alive and holds fewer rows than it has room for.
fn has_room(nodes: &Nodes, members: &Members, node: NodeId) -> bool
    requires counted { length nodes.now.nodes ≡ length members.now.nodes }
    requires within { node.n < length nodes.now.nodes }
    ensures { result ≡ has_room nodes.now members.now node }
{
    members.alive(node) && nodes.held(node) < nodes.room()
}

/// How many nodes have room: they are alive and hold fewer rows than they have room for. Walks over
/// the counts of all nodes, which are at most 64 in every configuration.
pub fn nodes_with_room(nodes: &Nodes, members: &Members) -> u32
    requires counted { length nodes.now.nodes ≡ length members.now.nodes }
    requires few { length nodes.now.nodes ≤ 256 }
    ensures { result ≡ room_count nodes.now members.now }
{
    let mut count = 0;
    for n in 0..nodes.len() {
        if has_room(nodes, members, NodeId { n: n as u8 }) {
            count += 1;
        }
    }
    count
}

/// Whether one of the shards stands on the node.
fn stands_on(shards: &[Shard], node: NodeId) -> bool
    ensures { result ≡ stands_on shards.now node }
{
    shards.iter().any(|shard| shard.node.n == node.n)
}

/// Whether the node holds fewer rows than the best one so far, where there is one.
fn is_better(nodes: &Nodes, node: NodeId, best: Option<NodeId>) -> bool
    requires within { node.n < length nodes.now.nodes }
    requires best { IfSome best (λ other. other.n < length nodes.now.nodes) }
    ensures { IsTrue result ↔ HoldsFewer nodes.now node best }
{
    match best {
        Some(other) => nodes.held(node) < nodes.held(other),
        None => true,
    }
}

/// Whether a row is put at this node sooner than at the best one so far. Nodes are tried by
/// ascending number, so of those that hold as many rows the first one stays.
fn is_next(
    nodes: &Nodes,
    members: &Members,
    except: &[Shard],
    node: NodeId,
    best: Option<NodeId>,
) -> bool
    requires counted { length nodes.now.nodes ≡ length members.now.nodes }
    requires within { node.n < length nodes.now.nodes }
    requires best { IfSome best (λ other. other.n < length nodes.now.nodes) }
    ensures { IsTrue result ↔ (MayPut nodes.now members.now except.now node
        × HoldsFewer nodes.now node best) }
{
    has_room(nodes, members, node) && !stands_on(except, node) && is_better(nodes, node, best)
}

/// The node for a row: of those with room on which none of these shards stands, the one that holds
/// the fewest rows, and of those that hold as many the one with the least number; None exactly
/// where there is none. Walks over the counts of all nodes, and takes no memory.
pub fn least_node(nodes: &Nodes, members: &Members, except: &[Shard]) -> Option<NodeId>
    requires counted { length nodes.now.nodes ≡ length members.now.nodes }
    requires few { length nodes.now.nodes ≤ 256 }
    ensures least { IfSome result (IsLeastNode nodes.now members.now except.now) }
    ensures none { IfNone result
        ((node : NodeId) → ¬ (MayPut nodes.now members.now except.now node)) }
    ensures enough { IfNone result (room_count nodes.now members.now ≤ length except.now) }
{
    let mut best = None;
    for n in 0..nodes.len() {
        let node = NodeId { n: n as u8 };
        if is_next(nodes, members, except, node, best) {
            best = Some(node);
        }
    }
    best
}
