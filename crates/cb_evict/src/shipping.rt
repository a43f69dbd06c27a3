//! One row of a leaving batch is put at its node.

ghost use Rattle.std.specs.Prelude.{◌≡◌, ℕ, ◌+◌, ◌-◌, ◌*◌, ◌^◌, ◌<◌, ◌≤◌, true, false, All, IfOk, OnErr, OnOk, List, None, Some, length, slice_get};
ghost use Rattle.cb_gf256.specs.InRange.{IsInRange};
ghost use Rattle.cb_gf256.specs.Rows.{row_at};
ghost use Rattle.cb_types.specs.Config.{IsAccepted};
ghost use Rattle.cb_node.specs.NodesState.{has, held, with_row};
ghost use Rattle.cb_world.specs.declared.access.Access.{Access};
ghost use Rattle.cb_world.specs.declared.shown.Shown.{Shown};
ghost use Rattle.cb_world.specs.Desks.{IsReadyDesk, Operates};
ghost use Rattle.cb_world.specs.FarState.{FarState, pages_at};
ghost use Rattle.cb_world.specs.Leaving.{AreRoomy, LeavingState};
ghost use Rattle.cb_world.specs.World.{IsConfigured};
ghost use Rattle.cb_world.specs.Still.{IsStill};
ghost use Rattle.cb_world.specs.Sound.{Sound};
ghost use Rattle.cb_evict.specs.ShipRule.{ReadsLeaving, ShipEffect, ShipRule, with_noted, with_shard_at};
ghost use Rattle.cb_evict.specs.declared.next_put.NextPut.TheVariants as next;
ghost use Rattle.cb_evict.specs.Shipping.{IsNextPut, IsParityDue, LoadsAny, LoadsParities, PutsMade, PutsNothing, PutsRow, Waits};

use crate::loading::{load_span, load_spans};
use crate::next_put::{NextPut, next_put};
use cb_class::PAGE_BYTES;
use cb_code::coefficients;
use cb_member::Shard;
use cb_node::Nodes;
use cb_types::{NoMemory, Reply};
use cb_world::{Desk, Far, Leaving, Parities, put_row};

/// Gives the position of the batch its shard.
fn set_shard(batch: &mut Leaving, position: u32, shard: Shard)
    requires { position < length batch.old.shards }
    ensures { batch.new ≡ with_shard_at batch.old position shard }
{
    batch.shards[position as usize] = Some(shard);
}

/// Gives the position of the batch that is leaving its shard, whose key is drawn. Takes no memory.
fn note_shard(far: &mut Far, position: u32, shard: Shard)
    requires there { (batch : LeavingState) × (far.old.leaving ≡ Some batch)
        × (position < length batch.shards) }
    requires keys { far.old.counts.keys < 2 ^ 62 }
    ensures { (batch : LeavingState) → far.old.leaving ≡ Some batch
        → far.new ≡ with_noted far.old batch position shard }
{
    far.counts.keys += 1;
    if let Some(batch) = &mut far.leaving {
        set_shard(batch, position, shard);
    }
}

/// The pages of each span of the batch that is leaving, and 0 where none is.
fn leaving_pages(far: &Far) -> u32
    ensures { (batch : LeavingState) → far.now.leaving ≡ Some batch → result ≡ batch.pages }
{
    match &far.leaving {
        Some(batch) => batch.pages,
        None => 0,
    }
}

/// The frame of a position of the batch that is leaving, and None where it is a parity's.
fn frame_at(far: &Far, position: u32) -> Option<u32>
    ensures { (batch : LeavingState) → far.now.leaving ≡ Some batch
        → result ≡ slice_get batch.frames position }
{
    match &far.leaving {
        Some(batch) => batch.frames.get(position as usize).copied(),
        None => None,
    }
}

/// Whether the parities of the batch that is leaving are made.
fn are_made(far: &Far) -> bool
    ensures { (batch : LeavingState) → far.now.leaving ≡ Some batch → result ≡ batch.made }
{
    match &far.leaving {
        Some(batch) => batch.parities.is_made(),
        None => true,
    }
}

/// Puts the parity of a position of a batch, which is made, under the shard.
fn put_parity(
    nodes: &mut Nodes,
    batch: &Leaving,
    position: u32,
    shard: Shard,
) -> Result<(), NoMemory>
    requires made { batch.now.made ≡ true }
    requires parity { (length batch.now.frames ≤ position)
        × (position < length batch.now.frames + length batch.now.parities) }
    requires few { length batch.now.frames < 2 ^ 32 }
    requires within { shard.node.n < length nodes.old.nodes }
    requires fresh { has nodes.old shard.node shard.key ≡ false }
    requires room { held nodes.old shard.node < nodes.old.room }
    ensures ok { OnOk result (nodes.new ≡ with_row nodes.old shard.node shard.key
        (row_at batch.now.parities (position - length batch.now.frames))) }
    ensures err { OnErr result (nodes.new ≡ nodes.old) }
{
    let k = batch.frames.len() as u32;
    put_row(nodes, shard, batch.parities.row(position - k))
}

/// Puts the parity of a position of the batch that is leaving, which is made, under the shard, which
/// the position has then.
fn ship_parity(far: &mut Far, position: u32, shard: Shard) -> Result<(), NoMemory>
    requires there { (batch : LeavingState) × (far.old.leaving ≡ Some batch)
        × (batch.made ≡ true)
        × (length batch.frames ≤ position)
        × (position < length batch.frames + length batch.parities)
        × (length batch.shards ≡ length batch.frames + length batch.parities)
        × (length batch.shards ≤ 20) }
    requires keys { far.old.counts.keys < 2 ^ 62 }
    requires within { shard.node.n < length far.old.nodes.nodes }
    requires fresh { has far.old.nodes shard.node shard.key ≡ false }
    requires room { held far.old.nodes shard.node < far.old.nodes.room }
    ensures ok { OnOk result ((batch : LeavingState) → far.old.leaving ≡ Some batch
        → far.new ≡ with_noted (record far.old {
          nodes = with_row far.old.nodes shard.node shard.key
              (row_at batch.parities (position - length batch.frames));
        }) batch position shard) }
    ensures err { OnErr result (far.new ≡ far.old) }
{
    let batch = far.leaving.as_ref().unwrap();
    put_parity(&mut far.nodes, batch, position, shard)?;
    note_shard(far, position, shard);
    Ok(())
}

/// Reads the words of the spans in these frames, of so many pages each, and makes the parities of
/// their rows in the room that is kept for them. They are not marked as made.
fn make_from<D: Desk>(desk: &mut D, frames: &[u32], pages: u32, parities: &mut Parities)
    requires config { IsAccepted (D.settings desk.old) }
    requires below { All (λ f. f + pages ≤ (D.settings desk.old).frames) frames.now }
    requires range { IsInRange (length frames.now) (length parities.old.rows) }
    requires unmade { parities.old.made ≡ false }
    requires roomy { AreRoomy pages (length frames.now) parities.old }
    ensures loads { LoadsParities (λ es. D.run desk.old es desk.new)
        (λ s. D.shows desk.old s) pages frames.now parities.new.rows }
    ensures count { length parities.new.rows ≡ length parities.old.rows }
    ensures unmade { parities.new.made ≡ false }
    ensures roomy { AreRoomy pages (length frames.now) parities.new }
{
    let mut source = parities.take_source();
    load_spans(desk, frames, pages, &mut source);
    let c = coefficients(frames.len() as u32, parities.count());
    parities.make(&c, source);
}

/// Makes the parities of a batch and puts the one of a position under the shard. Where there is no
/// memory, the batch has none still.
fn put_unmade<D: Desk>(
    desk: &mut D,
    nodes: &mut Nodes,
    batch: &mut Leaving,
    position: u32,
    shard: Shard,
) -> Result<(), NoMemory>
    requires config { IsAccepted (D.settings desk.old) }
    requires below { All (λ f. f + batch.old.pages ≤ (D.settings desk.old).frames)
        batch.old.frames }
    requires range { IsInRange (length batch.old.frames) (length batch.old.parities) }
    requires unmade { batch.old.made ≡ false }
    requires parity { (length batch.old.frames ≤ position)
        × (position < length batch.old.frames + length batch.old.parities) }
    requires within { shard.node.n < length nodes.old.nodes }
    requires fresh { has nodes.old shard.node shard.key ≡ false }
    requires room { held nodes.old shard.node < nodes.old.room }
    ensures ok { OnOk result (PutsMade (λ es. D.run desk.old es desk.new)
        (λ s. D.shows desk.old s) nodes.old nodes.new batch.old batch.new position shard) }
    ensures reads { OnErr result (LoadsAny (λ es. D.run desk.old es desk.new) batch.old.pages
        batch.old.frames) }
    ensures err { OnErr result (nodes.new ≡ nodes.old) }
    ensures unchanged { OnErr result (batch.new ≡ batch.old) }
{
    make_from(desk, &batch.frames, batch.pages, &mut batch.parities);
    let k = batch.frames.len() as u32;
    put_row(nodes, shard, batch.parities.row_in_room(position - k))?;
    // Last, since a ship that finds no memory has changed nothing.
    batch.parities.mark_made();
    Ok(())
}

/// Makes the parities of the batch that is leaving and puts the one of a position under the shard,
/// which the position has then. Where there is no memory, nothing has changed.
fn ship_unmade<D: Desk>(
    desk: &mut D,
    far: &mut Far,
    position: u32,
    shard: Shard,
) -> Result<(), NoMemory>
    requires config { IsAccepted (D.settings desk.old) }
    requires there { (batch : LeavingState) × (far.old.leaving ≡ Some batch)
        × IsParityDue (D.settings desk.old).frames far.old.spans batch position }
    requires unmade { (batch : LeavingState) → far.old.leaving ≡ Some batch
        → batch.made ≡ false }
    requires keys { far.old.counts.keys < 2 ^ 62 }
    requires within { shard.node.n < length far.old.nodes.nodes }
    requires fresh { has far.old.nodes shard.node shard.key ≡ false }
    requires room { held far.old.nodes shard.node < far.old.nodes.room }
    ensures ok { OnOk result ((batch : LeavingState) → far.old.leaving ≡ Some batch
        → PutsRow (λ es. D.run desk.old es desk.new) (λ s. D.shows desk.old s)
        far.old far.new batch position shard) }
    ensures err { OnErr result (PutsNothing (λ es. D.run desk.old es desk.new) far.old) }
    ensures unchanged { OnErr result (far.new ≡ far.old) }
{
    let Some(batch) = &mut far.leaving else {
        return Ok(());
    };
    put_unmade(desk, &mut far.nodes, batch, position, shard)?;
    note_shard(far, position, shard);
    Ok(())
}

/// Puts the parity of a position of the batch that is leaving under the shard, which the position
/// has then. The parities are made first, where they are not yet. Where there is no memory, nothing
/// has changed.
fn ship_due<D: Desk>(
    desk: &mut D,
    far: &mut Far,
    position: u32,
    shard: Shard,
) -> Result<(), NoMemory>
    requires config { IsAccepted (D.settings desk.old) }
    requires there { (batch : LeavingState) × (far.old.leaving ≡ Some batch)
        × IsParityDue (D.settings desk.old).frames far.old.spans batch position }
    requires keys { far.old.counts.keys < 2 ^ 62 }
    requires within { shard.node.n < length far.old.nodes.nodes }
    requires fresh { has far.old.nodes shard.node shard.key ≡ false }
    requires room { held far.old.nodes shard.node < far.old.nodes.room }
    ensures ok { OnOk result ((batch : LeavingState) → far.old.leaving ≡ Some batch
        → PutsRow (λ es. D.run desk.old es desk.new) (λ s. D.shows desk.old s)
        far.old far.new batch position shard) }
    ensures err { OnErr result (PutsNothing (λ es. D.run desk.old es desk.new) far.old) }
    ensures unchanged { OnErr result (far.new ≡ far.old) }
{
    if are_made(far) {
        ship_parity(far, position, shard)
    } else {
        ship_unmade(desk, far, position, shard)
    }
}

/// Reads the words of the span at a position of the batch that is leaving into a row, and puts
/// that under the shard, which the position has then. The row is allocated before all else.
fn ship_data<D: Desk>(
    desk: &mut D,
    far: &mut Far,
    frame: u32,
    position: u32,
    shard: Shard,
) -> Result<(), NoMemory>
    requires config { IsAccepted (D.settings desk.old) }
    requires frames { (batch : LeavingState) → far.old.leaving ≡ Some batch
        → frame + batch.pages ≤ (D.settings desk.old).frames }
    requires spans { (batch : LeavingState) → far.old.leaving ≡ Some batch
        → pages_at far.old.spans frame ≡ batch.pages }
    requires there { (batch : LeavingState) × (far.old.leaving ≡ Some batch)
        × (slice_get batch.frames position ≡ Some frame) × (position < length batch.shards) }
    requires keys { far.old.counts.keys < 2 ^ 62 }
    requires within { shard.node.n < length far.old.nodes.nodes }
    requires fresh { has far.old.nodes shard.node shard.key ≡ false }
    requires room { held far.old.nodes shard.node < far.old.nodes.room }
    ensures ok { OnOk result ((batch : LeavingState) → far.old.leaving ≡ Some batch
        → PutsRow (λ es. D.run desk.old es desk.new) (λ s. D.shows desk.old s)
        far.old far.new batch position shard) }
    ensures err { OnErr result (PutsNothing (λ es. D.run desk.old es desk.new) far.old) }
    ensures unchanged { OnErr result (far.new ≡ far.old) }
{
    let pages = leaving_pages(far);
    let mut row = vec![in far.alloc; 0; PAGE_BYTES as usize * pages as usize]?;
    load_span(desk, frame, pages, &mut row);
    put_row(&mut far.nodes, shard, &row)?;
    note_shard(far, position, shard);
    Ok(())
}

/// Puts the row of a position of the batch that is leaving under the shard, which the position has
/// then. Where there is no memory, nothing has changed.
fn ship_row<D: Desk>(
    desk: &mut D,
    far: &mut Far,
    position: u32,
    shard: Shard,
) -> Result<(), NoMemory>
    requires config { IsAccepted (D.settings desk.old) }
    requires configured { IsConfigured (D.settings desk.old) far.old }
    requires keys { far.old.counts.keys < 2 ^ 62 }
    requires sound { (s : Shown) × Sound s far.old }
    requires next { IsNextPut far.old (next.Put position shard) }
    ensures ok { OnOk result ((batch : LeavingState) → far.old.leaving ≡ Some batch
        → PutsRow (λ es. D.run desk.old es desk.new) (λ s. D.shows desk.old s)
        far.old far.new batch position shard) }
    ensures err { OnErr result (PutsNothing (λ es. D.run desk.old es desk.new) far.old) }
    ensures unchanged { OnErr result (far.new ≡ far.old) }
{
    match frame_at(far, position) {
        Some(frame) => ship_data(desk, far, frame, position, shard),
        None => ship_due(desk, far, position, shard),
    }
}

/// Puts one row of the batch that is leaving: that of the least position whose row was not put yet,
/// or was put and is lost. It goes to the node with the fewest rows, and then the least number, of
/// those that are up, have room and hold no row of another position, lost ones included; the
/// position's own old node may be taken again. A data row is read from memory, whose words no one
/// else changes while the batch leaves; a parity is the batch's. Where a parity is due and the batch
/// has none yet, all its parities are made first, from all its spans as they stand in memory, in the
/// room that its gather took.
///
/// Answers NoBatch exactly where no batch is leaving, AllShipped exactly where each position's row
/// is put on a node that has not crashed since, NoNode where no node can take the row, and else
/// Shipped. No object is looked at, and nothing is settled. Where there is no memory, which may be
/// only where a position waits for its row, nothing has changed.
pub fn ship<D: Desk>(desk: &mut D, far: &mut Far) -> Result<Reply, NoMemory>
    requires config { IsAccepted (D.settings desk.old) }
    requires configured { IsConfigured (D.settings desk.old) far.old }
    requires keys { far.old.counts.keys < 2 ^ 62 }
    requires sound { IsReadyDesk D.shows desk.old far.old }
    ensures ship { IfOk result (λ reply. Operates D.run D.shows desk.old far.old desk.new far.new
        (ShipRule far.old far.new reply)
        (ShipEffect far.old far.new reply)) }
    ensures error { OnErr result (Operates D.run D.shows desk.old far.old desk.new far.new
        (ReadsLeaving far.old)
        IsStill) }
    ensures unchanged { OnErr result (far.new ≡ far.old) }
    ensures waits { OnErr result (Waits far.old) }
{
    match next_put(far)? {
        NextPut::NoBatch => Ok(Reply::NoBatch),
        NextPut::AllShipped => Ok(Reply::AllShipped),
        NextPut::NoNode => Ok(Reply::NoNode),
        NextPut::Put { position, shard } => {
            ship_row(desk, far, position, shard)?;
            Ok(Reply::Shipped { position })
        }
    }
}
