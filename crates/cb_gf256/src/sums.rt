//! Sums of rows, each times its factor: a block of all sums at a time, and the rest byte by byte.
ghost use Rattle.std.specs.Prelude.{◌≡◌, ◌≢◌, ℕ, ◌+◌, ◌-◌, ◌/◌, ◌*◌};
ghost use Rattle.std.specs.Prelude.{◌<◌, ◌≤◌, List, length, All, slice_index};
ghost use Rattle.std.specs.List.Sorted.{IsStrictlyIncreasing};
ghost use Rattle.cb_gf256.specs.Sum.{◌⊕◌};
ghost use Rattle.cb_gf256.specs.Product.{◌⊗◌};
ghost use Rattle.cb_gf256.specs.Block.{cut_rows};
ghost use Rattle.cb_gf256.specs.Rows.{row_at, rows_at, byte_at, HaveLength, AreRows};
ghost use Rattle.cb_gf256.specs.Lanes.{HasLanes};
ghost use Rattle.cb_gf256.specs.Combination.{combination, AreCombinations};
ghost use Rattle.cb_gf256.specs.Placing.{Placed, Combined};

use crate::closing::closed_sums;
use crate::factors::Factors;
use crate::lanes::{BLOCK, add_blocks, block_at, put_block};
use crate::rows::{Rows, RowsRef};
use std::simd::prelude::*;

/// Adds to each of the sums a block, times its factor for place `i`.
#[inline(always)]
pub(crate) fn with_products<const R: usize>(
    sums: [u8x64; R],
    factors: &Factors,
    i: usize,
    block: u8x64,
) -> [u8x64; R]
    requires few { (R ≤ 4) × (i < 16) }
    requires height { R ≤ length factors.now }
    requires width { (j : ℕ) → j < R → i < length (row_at factors.now j) }
    ensures count { length result ≡ R }
    ensures lanes { (j : ℕ) → j < R
        → HasLanes (row_at result j) (λ l. byte_at sums.entry j l ⊕
        (byte_at factors.now j i ⊗ slice_index block l)) }
{
    let mut more = sums;
    for j in 0..R {
        more[j] = add_blocks(more[j], factors.product(j, i).times_block(block));
    }
    more
}

/// The blocks of the first `R` sums from a place on.
#[inline(always)]
fn sums_by_factors<const R: usize>(
    factors: &Factors,
    rows: &RowsRef<'_>,
    sources: &[u8],
    at: usize,
    len: usize,
) -> [u8x64; R]
    requires few { (R ≤ 4) × (length sources.now ≤ 16) }
    requires height { R ≤ length factors.now }
    requires width { HaveLength (length sources.now) factors.now }
    requires below { All (λ p. p < length rows.now) sources.now }
    requires lengths { HaveLength len rows.now }
    requires inside { at + 64 ≤ len }
    ensures { (j : ℕ) → j < R
        → HasLanes (row_at result j) (λ l. combination (row_at factors.now j)
        (rows_at rows.now sources.now) (at + l)) }
{
    let mut sums = [u8x64::splat(0); R];
    for (i, position) in sources.iter().enumerate() {
        let block = block_at(rows.row(u32::from(*position)), at);
        sums = with_products::<R>(sums, factors, i, block);
    }
    sums
}

/// The blocks of all sums from a place on. Where the table is closed, `M` of them take factors.
#[inline(always)]
fn block_sums<const R: usize, const M: usize>(
    factors: &Factors,
    rows: &RowsRef<'_>,
    sources: &[u8],
    at: usize,
    len: usize,
) -> [u8x64; R]
    requires few { (R ≤ 4) × (length sources.now ≤ 16) }
    requires height { length factors.now ≡ R }
    requires last { M ≡ R - 1 }
    requires width { HaveLength (length sources.now) factors.now }
    requires rows { AreRows rows.now }
    requires below { All (λ p. p < length rows.now) sources.now }
    requires lengths { HaveLength len rows.now }
    requires inside { at + 64 ≤ len }
    ensures { (j : ℕ) → j < R
        → HasLanes (row_at result j) (λ l. combination (row_at factors.now j)
        (rows_at rows.now sources.now) (at + l)) }
{
    if factors.is_closed() {
        closed_sums::<R, M>(factors, rows, sources, at, len)
    } else {
        sums_by_factors::<R>(factors, rows, sources, at, len)
    }
}

/// Puts the blocks of the first `R` sums into the rows at the targets, from a place on.
#[inline(always)]
pub(crate) fn put_sums<const R: usize>(
    out: &mut [u8],
    count: u32,
    len: usize,
    targets: &[u8],
    at: usize,
    sums: [u8x64; R],
)
    requires size { length out.old ≡ count * len }
    requires targets { length targets.now ≡ R }
    requires ascending { IsStrictlyIncreasing targets.now }
    requires below { All (λ p. p < count) targets.now }
    requires inside { at + 64 ≤ len }
    requires lanes { (j : ℕ) → j < R → length (row_at sums j) ≡ 64 }
    ensures { Placed 64 at targets.now (byte_at sums.entry) (cut_rows count len out.old)
        (cut_rows count len out.new) R }
{
    for j in 0..R {
        put_block(out, usize::from(targets[j]) * len + at, sums[j]);
    }
}

/// Makes the sums in the rows at the targets, up to the last whole block and from there down.
fn set_blocks<const R: usize, const M: usize>(
    out: &mut [u8],
    count: u32,
    len: usize,
    targets: &[u8],
    factors: &Factors,
    rows: &RowsRef<'_>,
    sources: &[u8],
)
    requires size { length out.old ≡ count * len }
    requires few { (R ≤ 4) × (length sources.now ≤ 16) }
    requires height { length factors.now ≡ R }
    requires last { M ≡ R - 1 }
    requires rows { AreRows rows.now }
    requires width { HaveLength (length sources.now) factors.now }
    requires sources { All (λ p. p < length rows.now) sources.now }
    requires targets { length targets.now ≡ R }
    requires ascending { IsStrictlyIncreasing targets.now }
    requires below { All (λ p. p < count) targets.now }
    requires lengths { HaveLength len rows.now }
    ensures { Combined factors.now (rows_at rows.now sources.now) targets.now
        (cut_rows count len out.old) (cut_rows count len out.new) 0 (len / 64 * 64) }
{
    // From the last to the first: a processor that compares the last twelve bits of addresses
    // alone takes a block for the one that was just written, where that one lies lower in its row.
    for block in (0..len / BLOCK).rev() {
        let at = block * BLOCK;
        let sums = block_sums::<R, M>(factors, rows, sources, at, len);
        put_sums::<R>(out, count, len, targets, at, sums);
    }
}

/// The same for as many sums as there are rows of factors.
fn set_whole_blocks(
    out: &mut [u8],
    count: u32,
    len: usize,
    targets: &[u8],
    factors: &Factors,
    rows: &RowsRef<'_>,
    sources: &[u8],
)
    requires size { length out.old ≡ count * len }
    requires few { length sources.now ≤ 16 }
    requires rows { AreRows rows.now }
    requires height { length targets.now ≡ length factors.now }
    requires width { HaveLength (length sources.now) factors.now }
    requires sources { All (λ p. p < length rows.now) sources.now }
    requires ascending { IsStrictlyIncreasing targets.now }
    requires below { All (λ p. p < count) targets.now }
    requires lengths { HaveLength len rows.now }
    ensures height { length factors.now ≤ 4 }
    ensures blocks { Combined factors.now (rows_at rows.now sources.now) targets.now
        (cut_rows count len out.old) (cut_rows count len out.new) 0 (len / 64 * 64) }
{
    match factors.height() {
        0 => set_blocks::<0, 0>(out, count, len, targets, factors, rows, sources),
        1 => set_blocks::<1, 0>(out, count, len, targets, factors, rows, sources),
        2 => set_blocks::<2, 1>(out, count, len, targets, factors, rows, sources),
        3 => set_blocks::<3, 2>(out, count, len, targets, factors, rows, sources),
        _ => set_blocks::<4, 3>(out, count, len, targets, factors, rows, sources),
    }
}

/// The byte at a column of sum `j`.
fn sum_at(factors: &Factors, j: usize, rows: &RowsRef<'_>, sources: &[u8], column: usize) -> u8
    requires few { (j < 4) × (length sources.now ≤ 16) }
    requires height { j < length factors.now }
    requires width { HaveLength (length sources.now) factors.now }
    requires below { All (λ p. p < length rows.now) sources.now }
    requires inside { (i : ℕ) → i < length rows.now → column < length (row_at rows.now i) }
    ensures { result ≡ combination (row_at factors.now j) (rows_at rows.now sources.now) column }
{
    let mut sum = 0;
    for (i, position) in sources.iter().enumerate() {
        sum ^= factors
            .product(j, i)
            .times(rows.row(u32::from(*position))[column]);
    }
    sum
}

/// Makes one column of the sums.
pub(crate) fn set_column(
    out: &mut [u8],
    count: u32,
    len: usize,
    targets: &[u8],
    factors: &Factors,
    rows: &RowsRef<'_>,
    sources: &[u8],
    column: usize,
)
    requires size { length out.old ≡ count * len }
    requires few { (length targets.now ≤ 4) × (length sources.now ≤ 16) }
    requires height { length targets.now ≡ length factors.now }
    requires width { HaveLength (length sources.now) factors.now }
    requires sources { All (λ p. p < length rows.now) sources.now }
    requires ascending { IsStrictlyIncreasing targets.now }
    requires below { All (λ p. p < count) targets.now }
    requires lengths { HaveLength len rows.now }
    requires inside { column < len }
    ensures { Placed 1 column targets.now
        (λ j l. combination (row_at factors.now j) (rows_at rows.now sources.now) (column + l))
        (cut_rows count len out.old) (cut_rows count len out.new) (length targets.now) }
{
    for (j, target) in targets.iter().enumerate() {
        let sum = sum_at(factors, j, rows, sources, column);
        out[usize::from(*target) * len + column] = sum;
    }
}

/// Makes the columns of the sums from one on, where those before it are made.
fn set_rest(
    out: &mut [u8],
    count: u32,
    len: usize,
    targets: &[u8],
    factors: &Factors,
    rows: &RowsRef<'_>,
    sources: &[u8],
    from: usize,
)
    requires size { length out.old ≡ count * len }
    requires few { (length targets.now ≤ 4) × (length sources.now ≤ 16) }
    requires height { length targets.now ≡ length factors.now }
    requires width { HaveLength (length sources.now) factors.now }
    requires sources { All (λ p. p < length rows.now) sources.now }
    requires ascending { IsStrictlyIncreasing targets.now }
    requires below { All (λ p. p < count) targets.now }
    requires lengths { HaveLength len rows.now }
    requires inside { from ≤ len }
    ensures { (before : List (List ℕ))
        → Combined factors.now (rows_at rows.now sources.now) targets.now before
        (cut_rows count len out.old) 0 from
        → Combined factors.now (rows_at rows.now sources.now) targets.now before
        (cut_rows count len out.new) 0 len }
{
    for column in from..len {
        set_column(out, count, len, targets, factors, rows, sources, column);
    }
}

/// Makes the rows at `targets`, of the `count` rows that a block has, sums of the rows of `rows` at
/// `sources`: row j of the factors has the factor of each source in the row at target j. All other
/// rows stay. It takes no memory.
pub fn set_sums_in(
    block: &mut [u8],
    count: u32,
    targets: &[u8],
    factors: &Factors,
    rows: &RowsRef<'_>,
    sources: &[u8],
)
    requires size { length block.old ≡ count * length (row_at rows.now 0) }
    requires some { 0 < length sources.now }
    requires few { length sources.now ≤ 16 }
    requires height { length targets.now ≡ length factors.now }
    requires width { HaveLength (length sources.now) factors.now }
    requires sources { All (λ p. p < length rows.now) sources.now }
    requires ascending { IsStrictlyIncreasing targets.now }
    requires below { All (λ p. p < count) targets.now }
    ensures sums { AreCombinations factors.now (rows_at rows.now sources.now)
        (rows_at (cut_rows count (length (row_at rows.now 0)) block.new) targets.now) }
    ensures others { (i : ℕ) → All (λ t. t ≢ i) targets.now
        → row_at (cut_rows count (length (row_at rows.now 0)) block.new) i
        ≡ row_at (cut_rows count (length (row_at rows.now 0)) block.old) i }
{
    let len = rows.row_len() as usize;
    set_whole_blocks(block, count, len, targets, factors, rows, sources);
    set_rest(
        block,
        count,
        len,
        targets,
        factors,
        rows,
        sources,
        len / BLOCK * BLOCK,
    );
}

impl Rows {
    /// Makes the rows at `targets` sums of the rows of `rows` at `sources`: row j of the factors
    /// has the factor of each source in the row at target j. All other rows stay.
    /// It is compiled into its callers.
    #[inline(always)]
    pub fn set_sums(
        &mut self,
        targets: &[u8],
        factors: &Factors,
        rows: &RowsRef<'_>,
        sources: &[u8],
    )
        requires some { 0 < length sources.now }
        requires few { length sources.now ≤ 16 }
        requires height { length targets.now ≡ length factors.now }
        requires width { HaveLength (length sources.now) factors.now }
        requires sources { All (λ p. p < length rows.now) sources.now }
        requires ascending { IsStrictlyIncreasing targets.now }
        requires below { All (λ p. p < length self.old) targets.now }
        requires lengths { HaveLength (length (row_at rows.now 0)) self.old }
        ensures count { length self.new ≡ length self.old }
        ensures lengths { HaveLength (length (row_at rows.now 0)) self.new }
        ensures sums { AreCombinations factors.now (rows_at rows.now sources.now)
            (rows_at self.new targets.now) }
        ensures others { (i : ℕ) → All (λ t. t ≢ i) targets.now
            → row_at self.new i ≡ row_at self.old i }
    {
        set_sums_in(&mut self.block, self.count, targets, factors, rows, sources);
    }
}
