//! Which row of a leaving batch is put next.

ghost use Rattle.std.specs.Prelude.{◌≡◌, ℕ, ◌+◌, ◌<◌, ◌≤◌, ◌++◌, IfOk, OnErr, OnOk, Some, length};
ghost use Rattle.cb_world.specs.declared.shown.Shown.{Shown};
ghost use Rattle.cb_world.specs.Reserved.{put_shards};
ghost use Rattle.cb_world.specs.Sound.{Sound};
ghost use Rattle.cb_evict.specs.ShipRule.{other_puts};
ghost use Rattle.cb_evict.specs.Shipping.{IsNextPut, IsNextPutOf, Waits};
ghost use Rattle.cb_evict.specs.Waiting.{least_waiting};

use crate::waiting::least_waiting;
use cb_member::Shard;
use cb_types::NoMemory;
use cb_world::{Far, Leaving, least_node, next_shard};
use std::alloc::Global;

/// What is to be put next of the batch that is leaving.
#[derive(Clone, Copy)]
pub(crate) enum NextPut {
    /// No batch is leaving.
    NoBatch,
    /// No position waits for its row.
    AllShipped,
    /// No node can take the row of the least position that waits.
    NoNode,
    /// The row of this position, under this shard.
    Put { position: u32, shard: Shard },
}

/// Adds the shards that were put, in order.
fn push_put(into: &mut Vec<Shard>, shards: &[Option<Shard>]) -> Result<(), NoMemory>
    ensures { OnOk result (into.new.items ≡ into.old.items ++ put_shards shards.now) }
{
    for put in shards {
        if let Some(shard) = put {
            into.push(*shard)?;
        }
    }
    Ok(())
}

/// The shards put at all positions of a batch but one.
fn other_puts(
    alloc: Global,
    shards: &[Option<Shard>],
    position: u32,
) -> Result<Vec<Shard>, NoMemory>
    requires { position < length shards.now }
    ensures { IfOk result (λ others. others.items ≡ other_puts shards.now position) }
{
    let place = position as usize;
    let mut others = Vec::with_capacity(alloc, shards.len())?;
    push_put(&mut others, &shards[..place])?;
    push_put(&mut others, &shards[place + 1..])?;
    Ok(others)
}

/// What is to be put next of this batch: the row of the least position that waits, at the node with
/// the fewest rows of those with room on which no other position's shard stands.
fn next_of(far: &Far, batch: &Leaving) -> Result<NextPut, NoMemory>
    requires there { far.now.leaving ≡ Some batch.now }
    requires sound { (s : Shown) × Sound s far.now }
    requires few { length far.now.nodes.nodes ≤ 256 }
    ensures next { IfOk result (λ next. IsNextPutOf far.now batch.now next) }
    ensures waits { OnErr result ((p : ℕ) × (least_waiting far.now.members batch.now.shards ≡ Some p)) }
{
    let Some(position) = least_waiting(&batch.shards, &far.members) else {
        return Ok(NextPut::AllShipped);
    };
    let others = other_puts(far.alloc, &batch.shards, position)?;
    let Some(node) = least_node(&far.nodes, &far.members, &others) else {
        return Ok(NextPut::NoNode);
    };
    Ok(NextPut::Put {
        position,
        shard: next_shard(far, node),
    })
}

/// What is to be put next of the batch that is leaving. Looks at its positions and at the counts of
/// all nodes.
pub(crate) fn next_put(far: &Far) -> Result<NextPut, NoMemory>
    requires sound { (s : Shown) × Sound s far.now }
    requires few { length far.now.nodes.nodes ≤ 256 }
    ensures next { IfOk result (λ next. IsNextPut far.now next) }
    ensures waits { OnErr result (Waits far.now) }
{
    match &far.leaving {
        Some(batch) => next_of(far, batch),
        None => Ok(NextPut::NoBatch),
    }
}
