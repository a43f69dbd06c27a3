//! Sums of rows that are put beside copies of those rows, in one pass over memory.
ghost use Rattle.std.specs.Prelude.{◌≡◌, ◌≢◌, ℕ, ◌+◌, ◌-◌, ◌/◌, ◌*◌};
ghost use Rattle.std.specs.Prelude.{◌<◌, ◌≤◌, List, length, All, slice_index};
ghost use Rattle.std.specs.List.Sorted.{IsStrictlyIncreasing};
ghost use Rattle.cb_gf256.specs.Block.{cut_rows};
ghost use Rattle.cb_gf256.specs.Rows.{row_at, rows_at, byte_at, HaveLength};
ghost use Rattle.cb_gf256.specs.Lanes.{HasLanes};
ghost use Rattle.cb_gf256.specs.Combination.{combination, AreCombinations};
ghost use Rattle.cb_gf256.specs.Placing.{Placed, Restored, AreDisjoint};

use crate::factors::Factors;
use crate::lanes::{BLOCK, block_at, put_block};
use crate::rows::{Rows, RowsRef};
use crate::sums::{put_sums, set_column, with_products};
use std::simd::prelude::*;

/// The blocks of the first `R` sums from a place on. Each block that is read is put into the row
/// at its own position.
#[inline(always)]
fn kept_block_sums<const R: usize>(
    out: &mut [u8],
    count: u32,
    len: usize,
    factors: &Factors,
    rows: &RowsRef<'_>,
    sources: &[u8],
    at: usize,
) -> [u8x64; R]
    requires size { length out.old ≡ count * len }
    requires few { (R ≤ 4) × (length sources.now ≤ 16) }
    requires height { R ≤ length factors.now }
    requires width { HaveLength (length sources.now) factors.now }
    requires ascending { IsStrictlyIncreasing sources.now }
    requires sources { All (λ p. p < length rows.now) sources.now }
    requires below { All (λ p. p < count) sources.now }
    requires lengths { HaveLength len rows.now }
    requires inside { at + 64 ≤ len }
    ensures lanes { (j : ℕ) → j < R
        → HasLanes (row_at result j) (λ l. combination (row_at factors.now j)
        (rows_at rows.now sources.now) (at + l)) }
    ensures kept { Placed 64 at sources.now
        (λ i l. byte_at (rows_at rows.now sources.now) i (at + l))
        (cut_rows count len out.old) (cut_rows count len out.new) (length sources.now) }
{
    let mut sums = [u8x64::splat(0); R];
    for (i, position) in sources.iter().enumerate() {
        let block = block_at(rows.row(u32::from(*position)), at);
        put_block(out, usize::from(*position) * len + at, block);
        sums = with_products::<R>(sums, factors, i, block);
    }
    sums
}

/// Makes the sums and the copies in the whole blocks, from the last to the first.
fn restore_blocks<const R: usize>(
    out: &mut [u8],
    count: u32,
    len: usize,
    targets: &[u8],
    factors: &Factors,
    rows: &RowsRef<'_>,
    sources: &[u8],
)
    requires size { length out.old ≡ count * len }
    requires few { (R ≤ 4) × (length sources.now ≤ 16) }
    requires height { length factors.now ≡ R }
    requires width { HaveLength (length sources.now) factors.now }
    requires sources { All (λ p. p < length rows.now) sources.now }
    requires targets { length targets.now ≡ R }
    requires ascending { IsStrictlyIncreasing sources.now × IsStrictlyIncreasing targets.now }
    requires below { All (λ p. p < count) sources.now
        × All (λ p. p < count) targets.now }
    requires apart { AreDisjoint sources.now targets.now }
    requires lengths { HaveLength len rows.now }
    ensures { Restored factors.now (rows_at rows.now sources.now) targets.now sources.now
        (cut_rows count len out.old) (cut_rows count len out.new) 0 (len / 64 * 64) }
{
    for block in (0..len / BLOCK).rev() {
        let at = block * BLOCK;
        let sums = kept_block_sums::<R>(out, count, len, factors, rows, sources, at);
        put_sums::<R>(out, count, len, targets, at, sums);
    }
}

/// The same for as many sums as there are rows of factors.
fn restore_whole_blocks(
    out: &mut [u8],
    count: u32,
    len: usize,
    targets: &[u8],
    factors: &Factors,
    rows: &RowsRef<'_>,
    sources: &[u8],
)
    requires size { length out.old ≡ count * len }
    requires few { length sources.now ≤ 16 }
    requires height { length targets.now ≡ length factors.now }
    requires width { HaveLength (length sources.now) factors.now }
    requires sources { All (λ p. p < length rows.now) sources.now }
    requires ascending { IsStrictlyIncreasing sources.now × IsStrictlyIncreasing targets.now }
    requires below { All (λ p. p < count) sources.now
        × All (λ p. p < count) targets.now }
    requires apart { AreDisjoint sources.now targets.now }
    requires lengths { HaveLength len rows.now }
    ensures height { length factors.now ≤ 4 }
    ensures blocks { Restored factors.now (rows_at rows.now sources.now) targets.now sources.now
        (cut_rows count len out.old) (cut_rows count len out.new) 0 (len / 64 * 64) }
{
    match factors.height() {
        0 => restore_blocks::<0>(out, count, len, targets, factors, rows, sources),
        1 => restore_blocks::<1>(out, count, len, targets, factors, rows, sources),
        2 => restore_blocks::<2>(out, count, len, targets, factors, rows, sources),
        3 => restore_blocks::<3>(out, count, len, targets, factors, rows, sources),
        _ => restore_blocks::<4>(out, count, len, targets, factors, rows, sources),
    }
}

/// Copies one column of the rows at the sources.
fn copy_column(
    out: &mut [u8],
    count: u32,
    len: usize,
    rows: &RowsRef<'_>,
    sources: &[u8],
    column: usize,
)
    requires size { length out.old ≡ count * len }
    requires ascending { IsStrictlyIncreasing sources.now }
    requires sources { All (λ p. p < length rows.now) sources.now }
    requires below { All (λ p. p < count) sources.now }
    requires lengths { HaveLength len rows.now }
    requires inside { column < len }
    ensures { Placed 1 column sources.now
        (λ i l. byte_at (rows_at rows.now sources.now) i (column + l))
        (cut_rows count len out.old) (cut_rows count len out.new) (length sources.now) }
{
    for i in 0..sources.len() {
        let byte = rows.row(u32::from(sources[i]))[column];
        out[usize::from(sources[i]) * len + column] = byte;
    }
}

/// Makes the columns of the sums and of the copies from one on, where those before it are made.
fn restore_rest(
    out: &mut [u8],
    count: u32,
    len: usize,
    targets: &[u8],
    factors: &Factors,
    rows: &RowsRef<'_>,
    sources: &[u8],
    from: usize,
)
    requires size { length out.old ≡ count * len }
    requires few { (length targets.now ≤ 4) × (length sources.now ≤ 16) }
    requires height { length targets.now ≡ length factors.now }
    requires width { HaveLength (length sources.now) factors.now }
    requires sources { All (λ p. p < length rows.now) sources.now }
    requires ascending { IsStrictlyIncreasing sources.now × IsStrictlyIncreasing targets.now }
    requires below { All (λ p. p < count) sources.now
        × All (λ p. p < count) targets.now }
    requires apart { AreDisjoint sources.now targets.now }
    requires lengths { HaveLength len rows.now }
    requires inside { from ≤ len }
    ensures { (before : List (List ℕ))
        → Restored factors.now (rows_at rows.now sources.now) targets.now sources.now before
        (cut_rows count len out.old) 0 from
        → Restored factors.now (rows_at rows.now sources.now) targets.now sources.now before
        (cut_rows count len out.new) 0 len }
{
    for column in from..len {
        copy_column(out, count, len, rows, sources, column);
        set_column(out, count, len, targets, factors, rows, sources, column);
    }
}

impl Rows {
    /// Makes the rows at `sources` copies of those of `rows`, and the rows at `targets` sums of
    /// them: row j of the factors has the factor of each source in the row at target j. All other
    /// rows stay.
    pub fn restore(&mut self, targets: &[u8], factors: &Factors, rows: &RowsRef<'_>, sources: &[u8])
        requires some { 0 < length sources.now }
        requires few { length sources.now ≤ 16 }
        requires height { length targets.now ≡ length factors.now }
        requires width { HaveLength (length sources.now) factors.now }
        requires sources { All (λ p. p < length rows.now) sources.now }
        requires ascending { IsStrictlyIncreasing sources.now × IsStrictlyIncreasing targets.now }
        requires below { All (λ p. p < length self.old) sources.now
            × All (λ p. p < length self.old) targets.now }
        requires apart { AreDisjoint sources.now targets.now }
        requires lengths { HaveLength (length (row_at rows.now 0)) self.old }
        ensures count { length self.new ≡ length self.old }
        ensures lengths { HaveLength (length (row_at rows.now 0)) self.new }
        ensures sums { AreCombinations factors.now (rows_at rows.now sources.now)
            (rows_at self.new targets.now) }
        ensures kept { (i : ℕ) → i < length sources.now
            → row_at self.new (slice_index sources.now i)
            ≡ row_at rows.now (slice_index sources.now i) }
        ensures others { (i : ℕ) → All (λ t. t ≢ i) targets.now → All (λ p. p ≢ i) sources.now
            → row_at self.new i ≡ row_at self.old i }
    {
        let len = rows.row_len() as usize;
        let from = len / BLOCK * BLOCK;
        let out = &mut self.block[..];
        restore_whole_blocks(out, self.count, len, targets, factors, rows, sources);
        restore_rest(out, self.count, len, targets, factors, rows, sources, from);
    }
}
