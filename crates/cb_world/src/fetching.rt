//! Rows of a set are given out, and a lost one solved from them.

ghost use Rattle.std.specs.Prelude.{◌≡◌, ℕ, ◌+◌, ◌-◌, ◌*◌, ◌^◌, ◌<◌, ◌≤◌, List, All, IfOk, OnOk, OnErr, length, slice_index, take};
ghost use Rattle.cb_gf256.specs.Rows.{row_at, HaveLength};
ghost use Rattle.cb_set.specs.Lost.{lost};
ghost use Rattle.cb_world.specs.SetWord.{IsShaped, IsWordOf};
ghost use Rattle.cb_set.specs.SetState.{parities};
ghost use Rattle.cb_set.specs.Surviving.{surviving};
ghost use Rattle.cb_world.specs.Fetched.{AreGiven, StandAt, with_rows_given};

use cb_class::PAGE_BYTES;
use cb_erase::solve;
use cb_gf256::Rows;
use cb_member::{Members, NoMemory};
use cb_node::Nodes;
use cb_set::SpanSet;
use cb_types::Positions;
use std::alloc::Global;

/// Gives the rows at these positions of the set out into the table.
fn give_rows(nodes: &mut Nodes, set: &SpanSet, positions: &[u8], table: &mut Rows)
    requires given { nodes.old.given + length positions.now < 2 ^ 64 }
    requires below { All (λ p. p < length table.old) positions.now }
    requires lengths { HaveLength (4096 * set.now.pages) table.old }
    requires there { (rows : List (List ℕ)) × StandAt set.now.pages nodes.old
        set.now.shards rows positions.now }
    ensures nodes { nodes.new ≡ record nodes.old { given = nodes.old.given + length positions.now } }
    ensures count { length table.new ≡ length table.old }
    ensures rows { (rows : List (List ℕ)) → StandAt set.now.pages nodes.old
        set.now.shards rows positions.now
        → (i : ℕ) → i < length positions.now → row_at table.new (slice_index positions.now i) ≡ row_at rows (slice_index positions.now i) }
{
    for position in positions {
        let shard = set.shard(u32::from(*position));
        nodes.give_row(shard.node, shard.key, table.row_mut(u32::from(*position)));
    }
}

/// Gives rows of the set out, one at each of its k least positions whose shards are not lost, and
/// makes the word of them. Where there is no memory, at most k rows were given out.
pub fn solved(
    alloc: Global,
    nodes: &mut Nodes,
    members: &Members,
    set: &SpanSet,
) -> Result<Rows, NoMemory>
    requires given { nodes.old.given + length set.now.positions < 2 ^ 64 }
    requires counted { length nodes.old.nodes ≡ length members.now.nodes }
    requires shaped { IsShaped members.now set.now }
    requires few { length (lost members.now set.now.shards) ≤ parities set.now }
    requires word { (rows : List (List ℕ)) × IsWordOf nodes.old members.now set.now rows }
    ensures nodes { OnOk result (nodes.new ≡ with_rows_given nodes.old (length set.now.positions)) }
    ensures error { OnErr result ((n : ℕ) × (n ≤ length set.now.positions)
        × (nodes.new ≡ with_rows_given nodes.old n)) }
    ensures rows { IfOk result (λ word. (rows : List (List ℕ)) → IsWordOf nodes.old members.now set.now rows → rows ≡ word) }
{
    let k = set.k();
    let r = set.r();
    let Ok(mut table) = Rows::new(alloc, k + r, PAGE_BYTES * set.pages()) else {
        return Err(NoMemory);
    };
    let present = set.survivors(members);
    let present = &present[..k as usize];
    give_rows(nodes, set, present, &mut table);
    match solve(alloc, k, r, &table, present) {
        Ok(word) => Ok(word),
        Err(_) => Err(NoMemory),
    }
}

/// Rows of a set that were given out, in order, and their positions, ascending.
#[derive(Drop)]
pub struct GivenRows {
    pub present: Positions,
    pub rows: Rows,
}

/// Gives the rows at these positions of the set out into the table, one after another.
fn give_in_order(nodes: &mut Nodes, set: &SpanSet, positions: &[u8], table: &mut Rows)
    requires given { nodes.old.given + length positions.now < 2 ^ 64 }
    requires few { length positions.now < 2 ^ 32 }
    requires count { length table.old ≡ length positions.now }
    requires lengths { HaveLength (4096 * set.now.pages) table.old }
    requires there { (rows : List (List ℕ)) × StandAt set.now.pages nodes.old
        set.now.shards rows positions.now }
    ensures nodes { nodes.new ≡ with_rows_given nodes.old (length positions.now) }
    ensures count { length table.new ≡ length positions.now }
    ensures lengths { HaveLength (4096 * set.now.pages) table.new }
    ensures rows { (rows : List (List ℕ)) → StandAt set.now.pages nodes.old
        set.now.shards rows positions.now
        → (i : ℕ) → i < length positions.now
        → row_at table.new i ≡ row_at rows (slice_index positions.now i) }
{
    for (i, position) in positions.iter().enumerate() {
        let shard = set.shard(u32::from(*position));
        nodes.give_row(shard.node, shard.key, table.row_mut(i as u32));
    }
}

/// Gives rows of the set out, one at each of its k least positions whose shards are not lost.
/// Where there is no memory, none was given out.
pub fn fetched(
    alloc: Global,
    nodes: &mut Nodes,
    members: &Members,
    set: &SpanSet,
) -> Result<GivenRows, NoMemory>
    requires given { nodes.old.given + length set.now.positions < 2 ^ 64 }
    requires counted { length nodes.old.nodes ≡ length members.now.nodes }
    requires shaped { IsShaped members.now set.now }
    requires few { length (lost members.now set.now.shards) ≤ parities set.now }
    requires word { (rows : List (List ℕ)) × IsWordOf nodes.old members.now set.now rows }
    ensures nodes { OnOk result (nodes.new ≡ with_rows_given nodes.old (length set.now.positions)) }
    ensures error { OnErr result (nodes.new ≡ nodes.old) }
    ensures present { IfOk result (λ fetched. fetched.present
        ≡ take (length set.now.positions) (surviving members.now set.now.shards)) }
    ensures lengths { IfOk result (λ fetched. HaveLength (4096 * set.now.pages) fetched.rows) }
    ensures rows { IfOk result (λ fetched.
        AreGiven nodes.old set.now.shards fetched.present fetched.rows) }
{
    let k = set.k();
    let Ok(mut rows) = Rows::new(alloc, k, PAGE_BYTES * set.pages()) else {
        return Err(NoMemory);
    };
    let present = set.survivors(members);
    let present = &present[..k as usize];
    give_in_order(nodes, set, present, &mut rows);
    Ok(GivenRows {
        present: Positions::copy_of(present),
        rows,
    })
}
