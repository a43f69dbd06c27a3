//! Lost rows from k present ones.

ghost use Rattle.std.specs.Prelude.{◌≡◌, ℕ, ◌+◌, ◌<◌, List, length, All, IfOk, slice_index};
ghost use Rattle.std.specs.List.Sorted.{IsStrictlyIncreasing};
ghost use Rattle.cb_gf256.specs.Rows.{rows_at, byte_at, HaveLength, HoldBytes};
ghost use Rattle.cb_gf256.specs.InRange.{IsInRange};
ghost use Rattle.cb_gf256.specs.Positions.{ArePositions};
ghost use Rattle.cb_gf256.specs.Lagrange.{AreFactors};
ghost use Rattle.cb_erase.specs.Weights.{IsSolution};

use crate::lost::lost_positions;
use crate::restoring::restore;
use crate::weighing::factor_row;
use cb_gf256::{NoMemory, Rows, RowsRef};
use std::alloc::Global;

/// The code word that agrees with the rows at the `k` positions `present`; what the other rows hold
/// does not matter. The only error is out of memory.
pub fn solve(alloc: Global, k: u32, r: u32, rows: &Rows, present: &[u8]) -> Result<Rows, NoMemory>
    requires in_range { IsInRange k r }
    requires positions { ArePositions (k + r) k present.now }
    requires count { length rows.now ≡ k + r }
    ensures solution { IfOk result (λ word. IsSolution k r present.now
        (rows_at rows.now present.now) word) }
    ensures only { IfOk result (λ word. (other : List (List ℕ)) → HoldBytes other
        → IsSolution k r present.now (rows_at rows.now present.now) other → other ≡ word) }
{
    let borrowed = rows.borrowed();
    solve_borrowed(alloc, k, r, &borrowed, present)
}

/// The same of rows that somebody else has.
pub fn solve_borrowed(
    alloc: Global,
    k: u32,
    r: u32,
    rows: &RowsRef<'_>,
    present: &[u8],
) -> Result<Rows, NoMemory>
    requires in_range { IsInRange k r }
    requires positions { ArePositions (k + r) k present.now }
    requires count { length rows.now ≡ k + r }
    ensures solution { IfOk result (λ word. IsSolution k r present.now
        (rows_at rows.now present.now) word) }
    ensures only { IfOk result (λ word. (other : List (List ℕ)) → HoldBytes other
        → IsSolution k r present.now (rows_at rows.now present.now) other → other ≡ word) }
{
    let positions = lost_positions(k, r, present);
    let lost = &positions[..r as usize];
    let table = lost_factors(k, r, present, lost);
    let mut word = Rows::new(alloc, k + r, rows.row_len())?;
    restore(&mut word, lost, &table, rows, present);
    Ok(word)
}

/// The factors of the present rows in the lost ones: row e is for the row at `lost[e]`.
fn lost_factors(k: u32, r: u32, present: &[u8], lost: &[u8]) -> [[u8; 16]; 4]
    requires in_range { IsInRange k r }
    requires present { length present.now ≡ k }
    requires lost { length lost.now ≡ r }
    requires ascending { IsStrictlyIncreasing lost.now }
    requires below { All (λ m. m < 255) lost.now }
    ensures height { length result ≡ 4 }
    ensures width { HaveLength 16 result }
    ensures factors { AreFactors k r (λ i. slice_index present.now i)
        (λ e. slice_index lost.now e) (byte_at result) }
{
    let mut table = [[0; 16]; 4];
    for e in 0..lost.len() {
        table[e] = factor_row(present, lost, e);
    }
    table
}
