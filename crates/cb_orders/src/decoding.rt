//! An order to make one row is run.

ghost use Rattle.std.specs.Prelude.{◌≡◌, ℕ, ◌<◌, ◌≤◌, List, [], ◌∷◌, length, slice_index};
ghost use Rattle.std.specs.Prelude.{IfErr, IfOk};
ghost use Rattle.cb_gf256.specs.Rows.{row_at, HaveLength};
ghost use Rattle.cb_orders.specs.Done.{IsDecoded, IsOfWord};
ghost use Rattle.cb_types.specs.Orders.{IsDecodable};

use crate::done::DecodeDone;
use cb_erase::{Weights, weights};
use cb_gf256::{Factors, NoMemory, Rows};
use cb_types::DecodeOrder;
use std::alloc::Global;

/// The factors of `k` rows in the row at this position.
fn factors_at(weights: &Weights, position: u32, k: u32) -> Factors
    requires few { k ≤ 16 }
    requires position { position < length weights.now }
    requires width { HaveLength k weights.now }
    ensures { result ≡ row_at weights.now position ∷ [] }
{
    let mut factors = [0; 16];
    for i in 0..k {
        factors[i as usize] = weights.at(position, i);
    }
    Factors::of_table(&[factors, [0; 16], [0; 16], [0; 16]], k, 1)
}

/// The first positions, one after another.
static POSITIONS: [u8; 16] = [0, 1, 2, 3, 4, 5, 6, 7, 8, 9, 10, 11, 12, 13, 14, 15];

/// The first `n` positions.
fn first_positions(n: usize) -> &'static [u8]
    requires { n ≤ 16 }
    ensures count { length result.now ≡ n }
    ensures positions { (i : ℕ) → i < n → slice_index result.now i ≡ i }
{
    &POSITIONS[..n]
}

/// A table of one row, the one at the order's position. Each of the order's rows is read once. The
/// only error is out of memory.
fn decoded(alloc: Global, order: &DecodeOrder) -> Result<Rows, NoMemory>
    requires { IsDecodable order.now }
    ensures count { IfOk result (λ made. length made ≡ 1) }
    ensures word { IfOk result (λ made. IsOfWord order.now (row_at made 0)) }
{
    let table = weights(order.k, order.r, order.present.as_slice());
    let factors = factors_at(&table, order.position, order.k);
    let rows = order.rows.borrowed();
    let mut made = Rows::new(alloc, 1, order.rows.row_len())?;
    made.set_sums(&[0], &factors, &rows, first_positions(order.k as usize));
    Ok(made)
}

/// Runs an order: makes the row at its position of the code word that agrees with its rows, the
/// only one that is. It takes memory for that row; where there is none, the order is handed back as
/// it was.
pub fn run_decode(alloc: Global, order: DecodeOrder) -> Result<DecodeDone, DecodeOrder>
    requires { IsDecodable order }
    ensures order { IfOk result (λ done. done.order ≡ order) }
    ensures done { IfOk result (λ done. IsDecoded order done.row) }
    ensures word { IfOk result (λ done. IsOfWord order done.row) }
    ensures only { IfOk result (λ done. (other : List ℕ) → IsDecoded order other
        → other ≡ done.row) }
    ensures back { IfErr result (λ kept. kept ≡ order) }
{
    match decoded(alloc, &order) {
        Ok(made) => Ok(DecodeDone::of(order, made)),
        Err(NoMemory) => Err(order),
    }
}
