//! The rows of the merged set are put beside the old ones.

ghost use Rattle.std.specs.Prelude.{◌≡◌, ℕ, ◌+◌, ◌^◌, ◌<◌, ◌≤◌, List, true, false, IfNone, IfSome, OnErr, OnOk, Some, length, slice_get, slice_index};
ghost use Rattle.cb_gf256.specs.Rows.{row_at};
ghost use Rattle.cb_member.specs.declared.names.Shard.{Shard};
ghost use Rattle.cb_node.specs.NodesState.{has, held, with_row};
ghost use Rattle.cb_set.specs.SetState.{SetState};
ghost use Rattle.cb_world.specs.declared.shown.Shown.{Shown};
ghost use Rattle.cb_world.specs.FarSound.{FarSound};
ghost use Rattle.cb_world.specs.FarState.{FarState};
ghost use Rattle.cb_world.specs.Joining.{JoiningState};
ghost use Rattle.cb_world.specs.Merged.{IsMergedWord, takes};
ghost use Rattle.cb_compact.specs.PartStep.{IsFreshPair};
ghost use Rattle.cb_compact.specs.PatchStep.{IsNext, shard_beside, with_stepped};
ghost use Rattle.cb_local.specs.Delta.{IsOrder};
ghost use Rattle.cb_local.specs.Putting.{ArePut};
ghost use Rattle.cb_local.specs.Words.{AreMergedParities, IsOfWords};

use crate::order::DeltaDone;
use cb_compact::Compaction;
use cb_member::Shard;
use cb_types::NoMemory;
use cb_world::{Far, put_row};

/// The place of a position among those that are taken, if it is one.
fn place_of(taken: &[u8], position: u32) -> Option<u32>
    requires few { length taken.now ≤ 20 }
    ensures found { IfSome result (λ i. (i < length taken.now)
        × (slice_index taken.now i ≡ position)) }
    ensures none { IfNone result (takes taken.now position ≡ false) }
{
    for (i, other) in taken.iter().enumerate() {
        if u32::from(*other) == position {
            return Some(i as u32);
        }
    }
    None
}

/// The row of a position in the merged word: the order's new row at a taken position, and the
/// patched parity at a parity's.
fn merged_row(done: &DeltaDone, position: u32) -> &[u8]
    requires order { IsOrder done.now.order }
    requires count { length done.now.parities ≡ done.now.order.r }
    requires within { position < done.now.order.k + done.now.order.r }
    requires taken { position < done.now.order.k
        → takes done.now.order.taken position ≡ true }
    requires merged { AreMergedParities done.now.order done.now.parities }
    ensures { (pages : ℕ) (wa wb m : List (List ℕ)) → IsOfWords done.now.order pages wa wb
        → IsMergedWord pages done.now.order.k done.now.order.r done.now.order.taken wa wb m
        → result.now ≡ row_at m position }
{
    let order = done.order();
    match place_of(order.taken.as_slice(), position) {
        Some(i) => order.new.row(i),
        None => done.parities().row(position - order.k),
    }
}

/// Puts a row under a shard beside one of a's, whose node has room.
fn put_beside(far: &mut Far, shard: Shard, row: &[u8]) -> Result<(), NoMemory>
    requires within { shard.node.n < length far.old.nodes.nodes }
    requires fresh { has far.old.nodes shard.node shard.key ≡ false }
    requires room { held far.old.nodes shard.node < far.old.nodes.room }
    ensures put { OnOk result (far.new ≡ record far.old {
      nodes = with_row far.old.nodes shard.node shard.key row.now;
    }) }
    ensures error { OnErr result (far.new ≡ far.old) }
{
    put_row(&mut far.nodes, shard, row)
}

/// Puts a row for the step of a position of the joining pair, and notes that it is done.
fn take_row(far: &mut Far, position: u32, row: &[u8]) -> Result<(), NoMemory>
    requires sound { (s : Shown) × FarSound s far.old }
    requires next { (pair : JoiningState) × (a : SetState) × (b : SetState) × (old : Shard)
        × IsFreshPair far.old pair a b × IsNext pair (length a.positions) position
        × (slice_get pair.shards_a position ≡ Some old)
        × (held far.old.nodes old.node < far.old.nodes.room) }
    requires keys { far.old.counts.keys < 2 ^ 62 }
    ensures step { OnOk result ((pair : JoiningState) (old : Shard) → far.old.joining ≡ Some pair
        → slice_get pair.shards_a position ≡ Some old
        → far.new ≡ with_stepped far.old pair position (shard_beside far.old old) row.now) }
    ensures error { OnErr result (far.new ≡ far.old) }
{
    let shard = Compaction::new_shard(far, position);
    put_beside(far, shard, row)?;
    Compaction::note_step(far, position, shard);
    Ok(())
}

/// Puts the merged row for the step of a position of the joining pair, if it is to be done.
fn put_step(far: &mut Far, done: &DeltaDone, position: u32) -> Result<(), NoMemory>
    requires put { (s : Shown) × (begun : FarState) × (first : JoiningState) × (a : SetState)
        × (b : SetState) × ArePut done.now s begun first a b far.old position
        × (position < length first.steps) }
    ensures put { OnOk result ((s : Shown) (begun : FarState) (first : JoiningState)
        (a b : SetState) → ArePut done.now s begun first a b far.old position
        → position < length first.steps
        → ArePut done.now s begun first a b far.new (position + 1)) }
    ensures error { OnErr result (far.new ≡ far.old) }
{
    if !Compaction::undone_at(far, position) {
        return Ok(());
    }
    take_row(far, position, merged_row(done, position))
}

/// Puts the merged rows for all steps of the joining pair, in order of position, each on a's node,
/// which has room.
pub(crate) fn put_rows(far: &mut Far, done: &DeltaDone) -> Result<(), NoMemory>
    requires put { (s : Shown) × (begun : FarState) × (first : JoiningState) × (a : SetState)
        × (b : SetState) × ArePut done.now s begun first a b far.old 0 }
    ensures put { OnOk result ((s : Shown) (begun : FarState) (first : JoiningState)
        (a b : SetState) → ArePut done.now s begun first a b far.old 0
        → ArePut done.now s begun first a b far.new (length first.steps)) }
    ensures error { OnErr result ((s : Shown) (begun : FarState) (first : JoiningState)
        (a b : SetState) → ArePut done.now s begun first a b far.old 0
        → (n : ℕ) × ArePut done.now s begun first a b far.new n) }
{
    for position in 0..Compaction::step_count(far) {
        put_step(far, done, position)?;
    }
    Ok(())
}
