//! Which row is made again, and where it goes.

ghost use Rattle.std.specs.Prelude.{◌≡◌, ◌<◌, ◌≤◌, IfNone, IfOk, IfSome, Some, length};
ghost use Rattle.cb_member.specs.declared.names.NodeId.{NodeId};
ghost use Rattle.cb_set.specs.SetState.{SetState};
ghost use Rattle.cb_set.specs.Lost.{least_lost};
ghost use Rattle.cb_set.specs.Nodes.{other_shards};
ghost use Rattle.cb_world.specs.declared.shown.Shown.{Shown};
ghost use Rattle.cb_world.specs.Sets.{set_in};
ghost use Rattle.cb_world.specs.FarSound.{AwaySound};
ghost use Rattle.cb_world.specs.Choices.{IsLeastNode, MayPut};
ghost use Rattle.cb_world.specs.SetWord.{IsWeak};

use cb_member::{NodeId, Shard};
use cb_set::SpanSet;
use cb_types::NoMemory;
use cb_world::{Far, least_node};
use std::alloc::Global;

/// The least lost position of a committed set that is weak.
pub(crate) fn lost_position(far: &Far, id: u64) -> u32
    requires sound { (s : Shown) × AwaySound s far.now }
    requires weak { (set : SetState) × (set_in far.now.sets id ≡ Some set)
        × IsWeak far.now.members set }
    ensures least { (set : SetState) → set_in far.now.sets id ≡ Some set
        → least_lost far.now.members set.shards ≡ Some result }
{
    let set = far.sets.committed(id).unwrap();
    set.least_lost(&far.members).unwrap()
}

/// The shards of all positions of a set but one.
fn others(alloc: Global, set: &SpanSet, position: u32) -> Result<Vec<Shard>, NoMemory>
    requires { position < length set.now.shards }
    ensures { IfOk result (λ shards. shards.items ≡ other_shards set.now.shards position) }
{
    let place = position as usize;
    let shards = set.shards();
    let mut others = Vec::from_slice(alloc, &shards[..place])?;
    others.extend_from_slice(&shards[place + 1..])?;
    Ok(others)
}

/// The node for the row of a position of a committed set: the least one with room that no other
/// position names. The node of the lost shard itself may be taken again.
pub(crate) fn spare_node(far: &Far, id: u64, position: u32) -> Result<Option<NodeId>, NoMemory>
    requires sound { (s : Shown) × AwaySound s far.now }
    requires few { length far.now.nodes.nodes ≤ 256 }
    requires there { (set : SetState) × (set_in far.now.sets id ≡ Some set)
        × (position < length set.shards) }
    ensures least { IfOk result (λ node. (set : SetState) → set_in far.now.sets id ≡ Some set
        → IfSome node (IsLeastNode far.now.nodes far.now.members (other_shards set.shards position))) }
    ensures none { IfOk result (λ node. (set : SetState) → set_in far.now.sets id ≡ Some set
        → IfNone node ((n : NodeId)
        → ¬ (MayPut far.now.nodes far.now.members (other_shards set.shards position) n))) }
{
    let set = far.sets.committed(id).unwrap();
    let others = others(far.alloc, set, position)?;
    Ok(least_node(&far.nodes, &far.members, &others))
}
