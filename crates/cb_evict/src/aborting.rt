//! A batch that is leaving is given up.

ghost use Rattle.std.specs.Prelude.{◌≡◌, ◌<◌, IfOk, IsOk, None, Some, length};
ghost use Rattle.std.specs.FinMap as map;
ghost use Rattle.cb_member.specs.declared.names.Shard.{Shard};
ghost use Rattle.cb_node.specs.NodesState.{with_dropped};
ghost use Rattle.cb_world.specs.Desks.{IsReadyDesk, Operates};
ghost use Rattle.cb_world.specs.Reserved.{put_shards};
ghost use Rattle.cb_world.specs.Stored.{AreThere, all_dropped};
ghost use Rattle.cb_evict.specs.AbortRule.{AbortEffect, AbortRule};

use crate::restoring::restore;
use cb_member::Shard;
use cb_node::Nodes;
use cb_types::{NoMemory, Reply};
use cb_world::{Desk, Far, Leaving};

/// Gives up the batch that is leaving: its objects are here again as they were before the begin,
/// hot bits included, the rows that were put are dropped, and no batch is leaving. The number of
/// its set is not given back.
///
/// Refuses with NoBatch where none is leaving. Looks at the batch's objects and positions alone;
/// takes no memory.
pub fn abort<D: Desk>(desk: &mut D, far: &mut Far) -> Result<Reply, NoMemory>
    requires sound { IsReadyDesk D.shows desk.old far.old }
    ensures memory { IsOk result }
    ensures abort { IfOk result (λ reply. Operates D.run D.shows desk.old far.old desk.new far.new
        (AbortRule far.old far.new reply)
        (AbortEffect far.old far.new)) }
{
    let Some(batch) = far.leaving.take() else {
        return Ok(Reply::NoBatch);
    };
    restore(desk, &batch.words);
    forget(far, &batch);
    Ok(Reply::Done)
}

/// Drops the rows of a batch that were put, and the set that it would have been. Takes no memory.
fn forget(far: &mut Far, batch: &Leaving)
    requires there { AreThere far.old.nodes (put_shards batch.now.shards) }
    ensures { far.new ≡ record far.old {
      sets = map.remove far.old.sets batch.now.set;
      nodes = all_dropped far.old.nodes (put_shards batch.now.shards);
    } }
{
    drop_put(&mut far.nodes, &batch.shards);
    far.sets.remove(batch.set);
}

/// Drops the rows that were put for the positions of a batch. A row that is not there any more is
/// passed over.
fn drop_put(nodes: &mut Nodes, shards: &[Option<Shard>])
    requires there { AreThere nodes.old (put_shards shards.now) }
    ensures dropped { nodes.new ≡ all_dropped nodes.old (put_shards shards.now) }
{
    for shard in shards {
        drop_one(nodes, *shard);
    }
}

/// Drops the row of a position, if one was put.
fn drop_one(nodes: &mut Nodes, shard: Option<Shard>)
    requires there { (s : Shard) → shard ≡ Some s → s.node.n < length nodes.old.nodes }
    ensures put { (s : Shard) → shard ≡ Some s
        → nodes.new ≡ with_dropped nodes.old s.node s.key }
    ensures none { shard ≡ None → nodes.new ≡ nodes.old }
    ensures count { length nodes.new.nodes ≡ length nodes.old.nodes }
{
    if let Some(shard) = shard {
        nodes.drop_row(shard.node, shard.key);
    }
}
