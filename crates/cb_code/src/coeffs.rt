//! The coefficients of the code, k for each parity.

ghost use Rattle.std.specs.Prelude.{◌≡◌, ℕ, ◌+◌, ◌<◌, ◌≤◌, length, All, slice_index};
ghost use Rattle.std.specs.List.Sorted.{IsStrictlyIncreasing};
ghost use Rattle.cb_gf256.specs.Rows.{row_at, byte_at};
ghost use Rattle.cb_gf256.specs.Lagrange.{IsLagrangeFactor};
ghost use Rattle.cb_gf256.specs.InRange.{IsInRange};
ghost use Rattle.cb_code.specs.Coefficients.{AreCoefficients};

use cb_gf256::{Factors, factor_by, own_inverse};
use std::marker::Model;

/// The coefficients of a code: parity j is the sum over the data positions i of `at(j, i)` times
/// data row i.
#[derive(Drop)]
pub struct Coeffs {
    factors: Factors,
}

impl Model for Coeffs {
    ghost use Rattle.std.specs.Prelude.{ℕ, List};
    ghost use Rattle.cb_code.specs.Coefficients.{IsCode};

    ghost Value = { List (List ℕ) };

    ghost view = { λ c. c.factors };

    ghost invariant = { λ c. IsCode c.factors };
}

/// The coefficients of the code with `k` data rows (1 to 16) and `r` parities (1 to 4).
pub fn coefficients(k: u32, r: u32) -> Coeffs
    requires { IsInRange k r }
    ensures { AreCoefficients k r result }
{
    let parities = parity_positions(k, r);
    let lost = &parities[..r as usize];
    let mut table = [[0; 16]; 4];
    for j in 0..r as usize {
        table[j] = coefficient_row(k, lost, j);
    }
    let factors = Factors::of_table(&table, k, r);
    Coeffs { factors }
}

/// The positions of the parities, in the first `r` places.
fn parity_positions(k: u32, r: u32) -> [u8; 4]
    requires { IsInRange k r }
    ensures size { length result ≡ 4 }
    ensures positions { (e : ℕ) → e < r → slice_index result e ≡ k + e }
{
    let mut positions = [0; 4];
    for e in 0..r {
        positions[e as usize] = (k + e) as u8;
    }
    positions
}

/// The coefficients of the parity at `lost[j]`, in the first `k` places: Lagrange's factors of
/// the data positions.
fn coefficient_row(k: u32, lost: &[u8], j: usize) -> [u8; 16]
    requires data { k ≤ 16 }
    requires ascending { IsStrictlyIncreasing lost.now }
    requires below { All (λ m. m < 255) lost.now }
    requires within { j < length lost.now }
    ensures size { length result ≡ 16 }
    ensures factors { (i : ℕ) → i < k
        → IsLagrangeFactor (length lost.now) (λ m. slice_index lost.now m) j i
        (slice_index result i) }
{
    let inverse = own_inverse(lost, j);
    let mut row = [0; 16];
    for i in 0..k {
        row[i as usize] = factor_by(lost, j, inverse, i as u8);
    }
    row
}

impl Coeffs {
    /// The factor of the data row at `position` in this parity.
    pub fn at(&self, parity: u32, position: u32) -> u8
        requires parity { parity < length self.now }
        requires position { position < length (row_at self.now parity) }
        ensures { result ≡ byte_at self.now parity position }
    {
        self.factors.at(parity, position)
    }

    /// How many parities there are.
    pub fn parities(&self) -> u32
        ensures count { result ≡ length self.now }
        ensures coefficients { AreCoefficients (length (row_at self.now 0))
            (length self.now) self.now }
        ensures in_range { IsInRange (length (row_at self.now 0)) (length self.now) }
    {
        self.factors.height()
    }

    /// The coefficients with their products.
    pub(crate) fn factors(&self) -> &Factors
        ensures { result.now ≡ self.now }
    {
        &self.factors
    }
}
