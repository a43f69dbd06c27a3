//! Which node of a pair has no room.

ghost use Rattle.std.specs.Prelude.{◌≡◌, ◌<◌, true, IfNone, IfSome, None, Some, length, slice_get};
ghost use Rattle.cb_member.specs.declared.names.NodeId.{NodeId};
ghost use Rattle.cb_member.specs.declared.names.Shard.{Shard};
ghost use Rattle.cb_node.specs.NodesState.{held};
ghost use Rattle.cb_set.specs.SetState.{SetState};
ghost use Rattle.cb_world.specs.declared.shown.Shown.{Shown};
ghost use Rattle.cb_world.specs.FarSound.{FarSound};
ghost use Rattle.cb_world.specs.Joining.{JoiningState};
ghost use Rattle.cb_compact.specs.PartStep.{IsFreshPair};
ghost use Rattle.cb_compact.specs.PatchStep.{is_undone};
ghost use Rattle.cb_local.specs.Rooms.{AllHaveRoom, IsFirstFull};

use cb_compact::Compaction;
use cb_member::NodeId;
use cb_world::Far;

/// The node of a's shard at a position of the joining pair, if it holds as many rows as it has room
/// for.
fn full_beside(far: &Far, position: u32) -> Option<NodeId>
    requires sound { (s : Shown) × FarSound s far.now }
    requires fresh { (pair : JoiningState) × (a : SetState) × (b : SetState)
        × IsFreshPair far.now pair a b × (position < length pair.steps) }
    ensures full { IfSome result (λ node. (pair : JoiningState) (old : Shard)
        → far.now.joining ≡ Some pair → slice_get pair.shards_a position ≡ Some old
        → (node ≡ old.node) × (held far.now.nodes old.node ≡ far.now.nodes.room)) }
    ensures room { IfNone result ((pair : JoiningState) (old : Shard)
        → far.now.joining ≡ Some pair → slice_get pair.shards_a position ≡ Some old
        → held far.now.nodes old.node < far.now.nodes.room) }
{
    let node = Compaction::new_shard(far, position).node;
    if far.nodes.held(node) == far.nodes.room() {
        return Some(node);
    }
    None
}

/// The same, if the step of the position is to be done.
fn full_at(far: &Far, position: u32) -> Option<NodeId>
    requires sound { (s : Shown) × FarSound s far.now }
    requires fresh { (pair : JoiningState) × (a : SetState) × (b : SetState)
        × IsFreshPair far.now pair a b × (position < length pair.steps) }
    ensures full { IfSome result (λ node. (pair : JoiningState) (a b : SetState) (old : Shard)
        → IsFreshPair far.now pair a b → slice_get pair.shards_a position ≡ Some old
        → (is_undone pair (length a.positions) position ≡ true) × (node ≡ old.node)
        × (held far.now.nodes old.node ≡ far.now.nodes.room)) }
    ensures room { IfNone result ((pair : JoiningState) (a b : SetState) (old : Shard)
        → IsFreshPair far.now pair a b → slice_get pair.shards_a position ≡ Some old
        → is_undone pair (length a.positions) position ≡ true
        → held far.now.nodes old.node < far.now.nodes.room) }
{
    if !Compaction::undone_at(far, position) {
        return None;
    }
    full_beside(far, position)
}

/// The first of a's nodes, in order of the positions whose steps are to be done, that has no room
/// for a row more.
pub(crate) fn full_node(far: &Far) -> Option<NodeId>
    requires sound { (s : Shown) × FarSound s far.now }
    requires fresh { (pair : JoiningState) × (a : SetState) × (b : SetState)
        × IsFreshPair far.now pair a b }
    ensures full { IfSome result (λ node. (pair : JoiningState) (a b : SetState)
        → IsFreshPair far.now pair a b → IsFirstFull far.now pair a node) }
    ensures room { IfNone result ((pair : JoiningState) (a b : SetState)
        → IsFreshPair far.now pair a b → AllHaveRoom far.now pair a) }
{
    for position in 0..Compaction::step_count(far) {
        if let Some(node) = full_at(far, position) {
            return Some(node);
        }
    }
    None
}
