//! Rows of the merged word, made of deltas at the nodes.

ghost use Rattle.std.specs.Prelude.{◌≡◌, ℕ, ◌+◌, ◌<◌, List, All, Some, false, true, length, slice_get, IfOk, OnErr};
ghost use Rattle.cb_gf256.specs.Rows.{row_at};
ghost use Rattle.cb_member.specs.declared.names.Shard.{Shard};
ghost use Rattle.cb_node.specs.Answer.{PutGives};
ghost use Rattle.cb_node.specs.NodesState.{has, with_row};
ghost use Rattle.cb_world.specs.Merged.{IsMergedWord, patched, takes};
ghost use Rattle.cb_compact.specs.Deltas.{CanPatch, HaveAllRows, IsOfCode, NoneNames, StandTogether};

use cb_code::{Coeffs, coefficients};
use cb_member::{NoMemory, Shard};
use cb_node::{Nodes, PutAnswer};
use cb_world::Joining;

/// Adds to the row of a shard the deltas of the taken positions for a parity: for each its
/// coefficient times the sum of the rows of a and b there. Two nodes and the row's own take part in
/// each.
fn add_deltas(
    nodes: &mut Nodes,
    to: Shard,
    table: &Coeffs,
    parity: u32,
    a: &[Shard],
    b: &[Shard],
    taken: &[u32],
)
    requires to { to.node.n < length nodes.old.nodes }
    requires parity { parity < length table.now }
    requires table { All (λ i. i < length (row_at table.now parity)) taken.now }
    requires in_a { All (λ i. i < length a.now) taken.now }
    requires in_b { All (λ i. i < length b.now) taken.now }
    requires a_other { NoneNames a.now to.node to.key }
    requires b_other { NoneNames b.now to.node to.key }
    requires rows { (wa wb : List (List ℕ)) × (row : List ℕ)
        × CanPatch nodes.old to.node to.key a.now b.now taken.now wa wb row }
    ensures { (wa wb : List (List ℕ)) (row : List ℕ)
        → CanPatch nodes.old to.node to.key a.now b.now taken.now wa wb row
        → nodes.new ≡ with_row nodes.old to.node to.key
        (patched (row_at table.now parity) wa wb row taken.now) }
{
    for position in taken {
        let old = a[*position as usize];
        let new = b[*position as usize];
        nodes.add_delta(to.node, to.key, table.at(parity, *position), old, new);
    }
}

/// Puts a copy of the row of one shard under another one, or answers that its node is full.
fn copy_row(nodes: &mut Nodes, from: Shard, to: Shard) -> Result<PutAnswer, NoMemory>
    requires from { from.node.n < length nodes.old.nodes }
    requires to { to.node.n < length nodes.old.nodes }
    requires source { has nodes.old from.node from.key ≡ true }
    requires fresh { has nodes.old to.node to.key ≡ false }
    ensures copied { IfOk result (λ answer. (rows : List (List ℕ)) (p : ℕ) (shards : List Shard)
        → HaveAllRows nodes.old shards rows → slice_get shards p ≡ Some from
        → PutGives nodes.old to.node to.key (row_at rows p) answer nodes.new) }
    ensures error { OnErr result (nodes.new ≡ nodes.old) }
    ensures count { length nodes.new.nodes ≡ length nodes.old.nodes }
{
    nodes.copy(from.node, from.key, to.node, to.key)
}

/// Makes the parity of the merged word under a shard: a copy of a's own parity, and the deltas of
/// the taken positions. A full node is answered with its count.
fn put_parity(
    nodes: &mut Nodes,
    pair: &Joining,
    k: u32,
    r: u32,
    parity: u32,
    to: Shard,
) -> Result<PutAnswer, NoMemory>
    requires code { IsOfCode nodes.old pair.now k r }
    requires parity { parity < r }
    requires to { to.node.n < length nodes.old.nodes }
    requires fresh { has nodes.old to.node to.key ≡ false }
    requires a_other { NoneNames pair.now.shards_a to.node to.key }
    requires b_other { NoneNames pair.now.shards_b to.node to.key }
    requires words { (wa wb : List (List ℕ)) × (pages : ℕ)
        × StandTogether nodes.old pair.now pages k r wa wb }
    ensures put { IfOk result (λ answer. (pages : ℕ) (wa wb m : List (List ℕ))
        → StandTogether nodes.old pair.now pages k r wa wb
        → IsMergedWord pages k r pair.now.taken wa wb m
        → PutGives nodes.old to.node to.key (row_at m (k + parity)) answer nodes.new) }
    ensures error { OnErr result (nodes.new ≡ nodes.old) }
{
    let table = coefficients(k, r);
    let own = pair.shards_a[(k + parity) as usize];
    match copy_row(nodes, own, to)? {
        PutAnswer::Stored => {
            add_deltas(
                nodes,
                to,
                &table,
                parity,
                &pair.shards_a,
                &pair.shards_b,
                &pair.taken,
            );
            Ok(PutAnswer::Stored)
        }
        PutAnswer::Full { held } => Ok(PutAnswer::Full { held }),
    }
}

/// Puts the row of a position in the merged word of a pair under a shard: b's row for a data
/// position that is taken, the parity that is patched for a parity's. A full node is answered with
/// its count.
pub(crate) fn put_merged(
    nodes: &mut Nodes,
    pair: &Joining,
    k: u32,
    r: u32,
    position: u32,
    to: Shard,
) -> Result<PutAnswer, NoMemory>
    requires code { IsOfCode nodes.old pair.now k r }
    requires position { position < k + r }
    requires taken { position < k → takes pair.now.taken position ≡ true }
    requires to { to.node.n < length nodes.old.nodes }
    requires fresh { has nodes.old to.node to.key ≡ false }
    requires a_other { NoneNames pair.now.shards_a to.node to.key }
    requires b_other { NoneNames pair.now.shards_b to.node to.key }
    requires words { (wa wb : List (List ℕ)) × (pages : ℕ)
        × StandTogether nodes.old pair.now pages k r wa wb }
    ensures put { IfOk result (λ answer. (pages : ℕ) (wa wb m : List (List ℕ))
        → StandTogether nodes.old pair.now pages k r wa wb
        → IsMergedWord pages k r pair.now.taken wa wb m
        → PutGives nodes.old to.node to.key (row_at m position) answer nodes.new) }
    ensures error { OnErr result (nodes.new ≡ nodes.old) }
{
    if position < k {
        return copy_row(nodes, pair.shards_b[position as usize], to);
    }
    put_parity(nodes, pair, k, r, position - k, to)
}
