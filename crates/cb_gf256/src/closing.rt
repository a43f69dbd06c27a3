//! Sums by a closed table: the factors add up to 1 at each place, so the last sum takes none of
//! them, since it is the sum of all rows and of all other sums.
ghost use Rattle.std.specs.Prelude.{◌≡◌, ℕ, ◌+◌, ◌<◌, ◌≤◌, length, All, slice_index};
ghost use Rattle.cb_gf256.specs.Sum.{◌⊕◌, sum_over};
ghost use Rattle.cb_gf256.specs.Rows.{row_at, rows_at, byte_at, HaveLength, AreRows};
ghost use Rattle.cb_gf256.specs.Lanes.{HasLanes};
ghost use Rattle.cb_gf256.specs.Combination.{combination};
ghost use Rattle.cb_gf256.specs.Closed.{IsClosed};

use crate::factors::Factors;
use crate::lanes::{add_blocks, block_at};
use crate::rows::RowsRef;
use crate::sums::with_products;
use std::simd::prelude::*;

/// The blocks of all `R` sums from a place on, where all but the last are `M`.
#[inline(always)]
pub(crate) fn closed_sums<const R: usize, const M: usize>(
    factors: &Factors,
    rows: &RowsRef<'_>,
    sources: &[u8],
    at: usize,
    len: usize,
) -> [u8x64; R]
    requires few { (R ≤ 4) × (length sources.now ≤ 16) }
    requires last { M + 1 ≡ R }
    requires height { length factors.now ≡ R }
    requires closed { IsClosed factors.now }
    requires width { HaveLength (length sources.now) factors.now }
    requires rows { AreRows rows.now }
    requires below { All (λ p. p < length rows.now) sources.now }
    requires lengths { HaveLength len rows.now }
    requires inside { at + 64 ≤ len }
    ensures { (j : ℕ) → j < R
        → HasLanes (row_at result j) (λ l. combination (row_at factors.now j)
        (rows_at rows.now sources.now) (at + l)) }
{
    let mut sums = [u8x64::splat(0); M];
    let mut plain = u8x64::splat(0);
    for (i, position) in sources.iter().enumerate() {
        let block = block_at(rows.row(u32::from(*position)), at);
        plain = add_blocks(plain, block);
        sums = with_products::<M>(sums, factors, i, block);
    }
    with_last_sum::<R, M>(sums, plain)
}

/// The blocks of the first `M` sums by a closed table, and of the last one, which is the sum of all
/// of them and of the plain sum of the rows.
#[inline(always)]
pub fn with_last_sum<const R: usize, const M: usize>(sums: [u8x64; M], plain: u8x64) -> [u8x64; R]
    requires few { R ≤ 4 }
    requires last { M + 1 ≡ R }
    ensures count { length result ≡ R }
    ensures first { (j : ℕ) → j < M → row_at result j ≡ row_at sums.entry j }
    ensures last { HasLanes (row_at result M)
        (λ l. slice_index plain l ⊕ sum_over M (λ j. byte_at sums.entry j l)) }
{
    let mut all = [plain; R];
    for j in 0..M {
        all[M] = add_blocks(all[M], sums[j]);
        all[j] = sums[j];
    }
    all
}
