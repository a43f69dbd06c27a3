//! The factors of present rows, by Lagrange's formula.

ghost use Rattle.std.specs.Prelude.{◌≡◌, ℕ, ◌+◌, ◌<◌, ◌≤◌};
ghost use Rattle.std.specs.Prelude.{◌==◌, if◌then◌else◌, length, All, slice_index};
ghost use Rattle.std.specs.List.Sorted.{IsStrictlyIncreasing};
ghost use Rattle.cb_gf256.specs.Rows.{byte_at, HaveLength};
ghost use Rattle.cb_gf256.specs.InRange.{IsInRange};
ghost use Rattle.cb_gf256.specs.Positions.{ArePositions};
ghost use Rattle.cb_gf256.specs.Lagrange.{IsLagrangeFactor};
ghost use Rattle.cb_erase.specs.Weights.{AreWeights};

use crate::Weights;
use crate::lost::lost_positions;
use cb_gf256::{factor_by, own_inverse};

/// The weights of the code with `k` data rows (1 to 16) and `r` parities (1 to 4), where the rows
/// at the `k` positions `present` are there.
pub fn weights(k: u32, r: u32, present: &[u8]) -> Weights
    requires in_range { IsInRange k r }
    requires positions { ArePositions (k + r) k present.now }
    ensures { AreWeights k r present.now result }
{
    let positions = lost_positions(k, r, present);
    let lost = &positions[..r as usize];
    let mut table = unit_rows(present);
    for (e, position) in lost.iter().enumerate() {
        table[usize::from(*position)] = factor_row(present, lost, e);
    }
    Weights::of_table(table, k, k + r)
}

/// A table in which the row at `present[i]` has 1 at place i and 0 elsewhere.
fn unit_rows(present: &[u8]) -> [[u8; 16]; 20]
    requires few { length present.now ≤ 16 }
    requires ascending { IsStrictlyIncreasing present.now }
    requires below { All (λ p. p < 20) present.now }
    ensures height { length result ≡ 20 }
    ensures width { HaveLength 16 result }
    ensures units { (i j : ℕ) → i < length present.now → j < 16
        → byte_at result (slice_index present.now i) j ≡ (if j == i then 1 else 0) }
{
    let mut table = [[0; 16]; 20];
    for (i, position) in present.iter().enumerate() {
        table[usize::from(*position)] = unit_row(i);
    }
    table
}

/// 1 at place `i` and 0 elsewhere.
fn unit_row(i: usize) -> [u8; 16]
    requires { i < 16 }
    ensures size { length result ≡ 16 }
    ensures unit { (j : ℕ) → j < 16 → slice_index result j ≡ (if j == i then 1 else 0) }
{
    let mut row = [0; 16];
    row[i] = 1;
    row
}

/// The factors of the present rows in the row at `lost[e]`.
pub(crate) fn factor_row(present: &[u8], lost: &[u8], e: usize) -> [u8; 16]
    requires few { length present.now ≤ 16 }
    requires ascending { IsStrictlyIncreasing lost.now }
    requires below { All (λ m. m < 255) lost.now }
    requires within { e < length lost.now }
    ensures size { length result ≡ 16 }
    ensures factors { (i : ℕ) → i < length present.now
        → IsLagrangeFactor (length lost.now) (λ m. slice_index lost.now m) e
        (slice_index present.now i) (slice_index result i) }
{
    let inverse = own_inverse(lost, e);
    let mut row = [0; 16];
    for (i, position) in present.iter().enumerate() {
        row[i] = factor_by(lost, e, inverse, *position);
    }
    row
}
