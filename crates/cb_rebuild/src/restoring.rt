//! A lost row is made again from k others.

ghost use Rattle.std.specs.Prelude.{◌≡◌, ℕ, ◌+◌, ◌^◌, ◌<◌, ◌≤◌, false, List, OnErr, OnOk, Some, length};
ghost use Rattle.cb_node.specs.NodesState.{has, held};
ghost use Rattle.cb_set.specs.SetState.{SetState};
ghost use Rattle.cb_world.specs.declared.shown.Shown.{Shown};
ghost use Rattle.cb_world.specs.Sets.{set_in};
ghost use Rattle.cb_world.specs.FarSound.{AwaySound};
ghost use Rattle.cb_world.specs.SetWord.{IsWeak};
ghost use Rattle.cb_rebuild.specs.RebuildStep.{IsRowOf, far_given, with_put, with_shard_named};

use cb_member::Shard;
use cb_types::NoMemory;
use cb_world::{Far, put_row, solved};

/// Makes the row of a position of a committed set again, from k rows that are given out, and puts
/// it under the shard. Takes all memory that a rebuild needs.
pub(crate) fn put_again(far: &mut Far, id: u64, position: u32, shard: Shard) -> Result<(), NoMemory>
    requires sound { (s : Shown) × AwaySound s far.old }
    requires weak { (set : SetState) × (set_in far.old.sets id ≡ Some set)
        × IsWeak far.old.members set × (position < length set.shards) }
    requires given { far.old.nodes.given + 16 < 2 ^ 64 }
    requires within { shard.node.n < length far.old.nodes.nodes }
    requires fresh { has far.old.nodes shard.node shard.key ≡ false }
    requires room { held far.old.nodes shard.node < far.old.nodes.room }
    ensures put { OnOk result ((set : SetState) → set_in far.old.sets id ≡ Some set
        → (row : List ℕ) × IsRowOf far.old set position row
        × (far.new ≡ with_put far.old set shard row)) }
    ensures error { OnErr result ((set : SetState) → set_in far.old.sets id ≡ Some set → (n : ℕ)
        × (n ≤ length set.positions) × (far.new ≡ far_given far.old n)) }
{
    let set = far.sets.committed(id).unwrap();
    let word = solved(far.alloc, &mut far.nodes, &far.members, set)?;
    put_row(&mut far.nodes, shard, word.row(position))
}

/// Names the new shard at the position, whose key is drawn. Takes no memory.
pub(crate) fn name_shard(far: &mut Far, id: u64, position: u32, shard: Shard)
    requires there { (set : SetState) × (set_in far.old.sets id ≡ Some set)
        × (position < length set.shards) }
    requires keys { far.old.counts.keys < 2 ^ 62 }
    ensures { (set : SetState) → set_in far.old.sets id ≡ Some set
        → far.new ≡ with_shard_named far.old id set position shard }
{
    far.counts.keys += 1;
    far.sets.set_shard(id, position, shard);
}
