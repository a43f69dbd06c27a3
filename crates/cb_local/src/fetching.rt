//! The rows of a joining pair are fetched into an order.

ghost use Rattle.std.specs.Prelude.{◌≡◌, ℕ, ◌+◌, ◌*◌, ◌^◌, ◌<◌, ◌≤◌, List, All, IfOk, OnErr, OnOk, length, slice_index};
ghost use Rattle.cb_gf256.specs.InRange.{IsInRange};
ghost use Rattle.cb_gf256.specs.Rows.{row_at, HaveLength};
ghost use Rattle.cb_set.specs.SetState.{SetState, parities};
ghost use Rattle.cb_world.specs.declared.shown.Shown.{Shown};
ghost use Rattle.cb_world.specs.Fetched.{StandAt, with_rows_given};
ghost use Rattle.cb_world.specs.Joining.{JoiningState};
ghost use Rattle.cb_compact.specs.PartStep.{IsFreshPair};
ghost use Rattle.cb_local.specs.Fetching.{AreFetched, AreParitiesMade, CanFetch, HasOrder, IsBlank, IsOrderFetched, far_given, rows_given};

use crate::order::{DeltaDone, DeltaOrder};
use crate::running::run_delta;
use cb_class::PAGE_BYTES;
use cb_compact::Compaction;
use cb_gf256::Rows;
use cb_member::Shard;
use cb_node::Nodes;
use cb_set::MOST_POSITIONS;
use cb_types::{NoMemory, Positions};
use cb_world::{Far, Joining};
use std::alloc::Global;

/// Gives the rows of the shards at some positions out, one after another, into the table.
fn give_rows(nodes: &mut Nodes, shards: &[Shard], positions: &[u32], table: &mut Rows)
    requires given { nodes.old.given + length positions.now < 2 ^ 64 }
    requires few { length positions.now ≤ 20 }
    requires within { All (λ p. p < length shards.now) positions.now }
    requires count { length table.old ≡ length positions.now }
    requires there { (pages : ℕ) × HaveLength (4096 * pages) table.old
        × ((rows : List (List ℕ)) × StandAt pages nodes.old shards.now rows positions.now) }
    ensures nodes { nodes.new ≡ with_rows_given nodes.old (length positions.now) }
    ensures count { length table.new ≡ length positions.now }
    ensures lengths { (pages : ℕ) → HaveLength (4096 * pages) table.old
        → HaveLength (4096 * pages) table.new }
    ensures rows { (pages : ℕ) (rows : List (List ℕ)) → StandAt pages nodes.old
        shards.now rows positions.now → (i : ℕ) → i < length positions.now
        → row_at table.new i ≡ row_at rows (slice_index positions.now i) }
{
    for (i, position) in positions.iter().enumerate() {
        let shard = shards[*position as usize];
        nodes.give_row(shard.node, shard.key, table.row_mut(i as u32));
    }
}

/// These positions, each in a byte. Takes no memory.
fn positions_of(taken: &[u32]) -> Positions
    requires few { length taken.now ≤ 20 }
    requires small { All (λ p. p < 2 ^ 8) taken.now }
    ensures { result ≡ taken.now }
{
    let mut found = [0; MOST_POSITIONS];
    for (i, position) in taken.iter().enumerate() {
        found[i] = *position as u8;
    }
    Positions::copy_of(&found[..taken.len()])
}

/// The positions of the parities, in the first `r` places.
fn parity_positions(k: u32, r: u32) -> [u32; 4]
    requires { IsInRange k r }
    ensures size { length result ≡ 4 }
    ensures positions { (e : ℕ) → e < r → slice_index result e ≡ k + e }
{
    let mut positions = [0; 4];
    for e in 0..r {
        positions[e as usize] = k + e;
    }
    positions
}

/// An order for a joining pair of sets with `k` data rows and `r` parities, of spans of so many
/// pages, whose rows are still to be fetched: all their bytes are zero.
fn blank_order(
    alloc: Global,
    pair: &Joining,
    k: u32,
    r: u32,
    pages: u32,
) -> Result<DeltaOrder, cb_gf256::NoMemory>
    requires few { length pair.now.taken ≤ 20 }
    requires small { All (λ p. p < 2 ^ 8) pair.now.taken }
    requires pages { pages ≤ 4 }
    ensures { IfOk result (IsBlank pair.now k r pages) }
{
    let taken = positions_of(&pair.taken);
    let count = pair.taken.len() as u32;
    let len = PAGE_BYTES * pages;
    let parities = Rows::new(alloc, r, len)?;
    let old = Rows::new(alloc, count, len)?;
    let new = Rows::new(alloc, count, len)?;
    Ok(DeltaOrder {
        set: pair.a,
        taken,
        old,
        new,
        parities,
        k,
        r,
    })
}

/// Gives the rows out that an order for a joining pair takes: both rows at each taken position, and
/// the parities of a.
fn fetch_rows(nodes: &mut Nodes, pair: &Joining, order: &mut DeltaOrder)
    requires given { nodes.old.given + 36 < 2 ^ 64 }
    requires ready { CanFetch nodes.old pair.now order.now }
    ensures nodes { nodes.new ≡ with_rows_given nodes.old
        (rows_given pair.now.taken order.entry.now.r) }
    ensures rows { AreFetched nodes.old pair.now order.entry.now order.exit.now }
{
    let parities = parity_positions(order.k, order.r);
    give_rows(nodes, &pair.shards_a, &pair.taken, &mut order.old);
    give_rows(nodes, &pair.shards_b, &pair.taken, &mut order.new);
    give_rows(
        nodes,
        &pair.shards_a,
        &parities[..order.r as usize],
        &mut order.parities,
    );
}

/// The order for the joining pair, whose rows are still to be fetched.
fn new_order(alloc: Global, far: &Far) -> Result<DeltaOrder, NoMemory>
    requires ready { (s : Shown) × (pair : JoiningState) × (a : SetState) × (b : SetState)
        × HasOrder s far.now pair a b }
    ensures { IfOk result (λ order. (pair : JoiningState) (a b : SetState)
        → IsFreshPair far.now pair a b
        → IsBlank pair (length a.positions) (parities a) a.pages order) }
{
    let pair = far.joining.as_ref().unwrap();
    let a = Compaction::first_set(far);
    match blank_order(alloc, pair, a.k(), a.r(), a.pages()) {
        Ok(order) => Ok(order),
        Err(_) => Err(NoMemory),
    }
}

/// Fetches the rows of the order for the joining pair.
fn fill_order(far: &mut Far, order: &mut DeltaOrder)
    requires given { far.old.nodes.given + 36 < 2 ^ 64 }
    requires ready { (s : Shown) × (pair : JoiningState) × (a : SetState) × (b : SetState)
        × HasOrder s far.old pair a b
        × IsBlank pair (length a.positions) (parities a) a.pages order.now }
    ensures far { (pair : JoiningState) (a b : SetState) → IsFreshPair far.old pair a b
        → far.new ≡ far_given far.old (rows_given pair.taken (parities a)) }
    ensures order { (pair : JoiningState) (a b : SetState) → IsFreshPair far.old pair a b
        → IsOrderFetched far.old pair a b order.exit.now }
{
    let pair = far.joining.as_ref().unwrap();
    fetch_rows(&mut far.nodes, pair, order);
}

/// The order for the joining pair, with its rows.
fn fetch(alloc: Global, far: &mut Far) -> Result<DeltaOrder, NoMemory>
    requires given { far.old.nodes.given + 36 < 2 ^ 64 }
    requires ready { (s : Shown) × (pair : JoiningState) × (a : SetState) × (b : SetState)
        × HasOrder s far.old pair a b }
    ensures far { OnOk result ((pair : JoiningState) (a b : SetState)
        → IsFreshPair far.old pair a b
        → far.new ≡ far_given far.old (rows_given pair.taken (parities a))) }
    ensures order { IfOk result (λ order. (pair : JoiningState) (a b : SetState)
        → IsFreshPair far.old pair a b → IsOrderFetched far.old pair a b order) }
    ensures error { OnErr result (far.new ≡ far.old) }
{
    let mut order = new_order(alloc, far)?;
    fill_order(far, &mut order);
    Ok(order)
}

/// Fetches the rows of the order for the joining pair, and runs it. Where there is no memory, the
/// rows may have been given out.
pub(crate) fn run_pair(alloc: Global, far: &mut Far) -> Result<DeltaDone, NoMemory>
    requires given { far.old.nodes.given + 36 < 2 ^ 64 }
    requires ready { (s : Shown) × (pair : JoiningState) × (a : SetState) × (b : SetState)
        × HasOrder s far.old pair a b }
    ensures far { OnOk result ((pair : JoiningState) (a b : SetState)
        → IsFreshPair far.old pair a b
        → far.new ≡ far_given far.old (rows_given pair.taken (parities a))) }
    ensures made { IfOk result (λ done. (pair : JoiningState) (a b : SetState)
        → IsFreshPair far.old pair a b → AreParitiesMade far.old pair a b done) }
    ensures error { OnErr result ((n : ℕ) × (n ≤ 36) × (far.new ≡ far_given far.old n)) }
{
    let order = fetch(alloc, far)?;
    match run_delta(alloc, order) {
        Ok(done) => Ok(done),
        Err(_) => Err(NoMemory),
    }
}
