//! Lost rows restored beside copies of the present ones, a block at a time. All rows of a code word
//! add up to 0, so the last lost row takes no factors: it is the sum of all others.
ghost use Rattle.std.specs.Prelude.{◌≡◌, ℕ, ◌+◌, ◌*◌, ◌-◌, ◌/◌, ◌%◌, ◌<◌, ◌≤◌};
ghost use Rattle.std.specs.Prelude.{List, length, All, slice_index};
ghost use Rattle.std.specs.List.Sorted.{IsStrictlyIncreasing};
ghost use Rattle.cb_gf256.specs.Sum.{◌⊕◌};
ghost use Rattle.cb_gf256.specs.Product.{◌⊗◌};
ghost use Rattle.cb_gf256.specs.Rows.{row_at, rows_at, byte_at, HaveLength, AreRows};
ghost use Rattle.cb_gf256.specs.Lanes.{HasLanes};
ghost use Rattle.cb_gf256.specs.Combination.{AreCombinations};
ghost use Rattle.cb_gf256.specs.Corner.{corner};
ghost use Rattle.cb_gf256.specs.InRange.{IsInRange};
ghost use Rattle.cb_gf256.specs.Lagrange.{AreFactors};
ghost use Rattle.cb_gf256.specs.Split.{Splits};
ghost use Rattle.cb_gf256.specs.Placing.{Placed, Restored, AreDisjoint};
ghost use Rattle.cb_erase.specs.Closing.{sum_by, closing_sum, Closes};

use cb_gf256::{
    BLOCK, Factors, Products, Rows, RowsRef, add_blocks, block_at, put_block, with_last_sum,
};
use std::simd::prelude::*;

/// Adds to each of the sums a block, times its factor at place `i`.
#[inline(always)]
fn with_products<const M: usize>(
    sums: [u8x64; M],
    products: &[[Products; 16]; 3],
    i: usize,
    block: u8x64,
) -> [u8x64; M]
    requires few { (M ≤ 3) × (i < 16) }
    requires height { length products.now ≡ 3 }
    requires width { HaveLength 16 products.now }
    ensures count { length result ≡ M }
    ensures lanes { (j : ℕ) → j < M → HasLanes (row_at result j)
        (λ l. byte_at sums.entry j l ⊕ (byte_at products.now j i ⊗ slice_index block l)) }
{
    let mut more = sums;
    for j in 0..M {
        more[j] = add_blocks(more[j], products[j][i].times_block(block));
    }
    more
}

/// The sums of the rows at the sources over a block from a place on: `M` of them by their factors,
/// and the last one, which closes them. Each block that is read is put into the row at its own
/// position.
#[inline(always)]
fn kept_sums<const R: usize, const M: usize>(
    out: &mut Rows,
    products: &[[Products; 16]; 3],
    rows: &RowsRef<'_>,
    sources: &[u8],
    at: usize,
    len: usize,
) -> [u8x64; R]
    requires few { (R ≤ 4) × (length sources.now ≤ 16) }
    requires last { M + 1 ≡ R }
    requires width { HaveLength 16 products.now }
    requires ascending { IsStrictlyIncreasing sources.now }
    requires sources { All (λ p. p < length rows.now) sources.now }
    requires below { All (λ p. p < length out.old) sources.now }
    requires lengths { HaveLength len rows.now × HaveLength len out.old }
    requires inside { at + 64 ≤ len }
    ensures by_factors { (j : ℕ) → j < M → HasLanes (row_at result j)
        (λ l. sum_by (length sources.now) products.now (rows_at rows.now sources.now) j (at + l)) }
    ensures last { HasLanes (row_at result M)
        (λ l. closing_sum M (length sources.now) products.now (rows_at rows.now sources.now)
        (at + l)) }
    ensures kept { Placed 64 at sources.now
        (λ i l. byte_at (rows_at rows.now sources.now) i (at + l))
        out.old out.new (length sources.now) }
{
    let mut sums = [u8x64::splat(0); M];
    let mut plain = u8x64::splat(0);
    for (i, position) in sources.iter().enumerate() {
        let row = u32::from(*position);
        let block = block_at(rows.row(row), at);
        put_block(out.row_mut(row), at, block);
        plain = add_blocks(plain, block);
        sums = with_products::<M>(sums, products, i, block);
    }
    with_last_sum::<R, M>(sums, plain)
}

/// Puts the blocks of the sums into the rows at the targets, from a place on.
#[inline(always)]
fn put_sums<const R: usize>(out: &mut Rows, targets: &[u8], at: usize, sums: [u8x64; R], len: usize)
    requires lanes { (j : ℕ) → j < R → length (row_at sums j) ≡ 64 }
    requires targets { length targets.now ≡ R }
    requires ascending { IsStrictlyIncreasing targets.now }
    requires below { All (λ p. p < length out.old) targets.now }
    requires lengths { HaveLength len out.old }
    requires inside { at + 64 ≤ len }
    ensures { Placed 64 at targets.now (byte_at sums.entry) out.old out.new R }
{
    for j in 0..R {
        put_block(out.row_mut(u32::from(targets[j])), at, sums[j]);
    }
}

/// Makes the copies and the restored rows, from the last columns to the first.
fn restore_blocks<const R: usize, const M: usize>(
    out: &mut Rows,
    targets: &[u8],
    products: &[[Products; 16]; 3],
    rows: &RowsRef<'_>,
    sources: &[u8],
    len: usize,
)
    requires few { (R ≤ 4) × (length sources.now ≤ 16) }
    requires last { M + 1 ≡ R }
    requires width { HaveLength 16 products.now }
    requires sources { All (λ p. p < length rows.now) sources.now }
    requires targets { length targets.now ≡ R }
    requires ascending { IsStrictlyIncreasing sources.now × IsStrictlyIncreasing targets.now }
    requires below { All (λ p. p < length out.old) sources.now
        × All (λ p. p < length out.old) targets.now }
    requires apart { AreDisjoint sources.now targets.now }
    requires lengths { HaveLength len rows.now × HaveLength len out.old }
    ensures { (whole : List (List ℕ))
        → Closes M (length sources.now) len products.now (rows_at rows.now sources.now) whole
        → Restored whole (rows_at rows.now sources.now) targets.now sources.now
        out.old out.new 0 (len / 64 * 64) }
{
    // Downwards: a processor that compares the last twelve bits of addresses alone takes a block
    // for the one that was just written, where that one lies lower in its row.
    for block in (0..len / BLOCK).rev() {
        let at = block * BLOCK;
        let sums = kept_sums::<R, M>(out, products, rows, sources, at, len);
        put_sums::<R>(out, targets, at, sums, len);
    }
}

/// Sets the first `k` products of a row.
fn set_products(products: &mut [Products; 16], row: &[u8; 16], k: usize)
    requires { k ≤ 16 }
    ensures count { length products.new ≡ 16 }
    ensures factors { (i : ℕ) → i < k → slice_index products.new i ≡ slice_index row.now i }
{
    for i in 0..k {
        products[i] = Products::of(row[i]);
    }
}

/// Makes the copies and the restored rows of whole blocks, by a table that has the
/// factors of each source in the row at each target.
fn restore_whole(
    out: &mut Rows,
    targets: &[u8],
    table: &[[u8; 16]; 4],
    rows: &RowsRef<'_>,
    sources: &[u8],
    len: usize,
)
    requires in_range { IsInRange (length sources.now) (length targets.now) }
    requires width { HaveLength 16 table.now }
    requires split { Splits (length sources.now + length targets.now) (length sources.now)
        (length targets.now) (λ i. slice_index sources.now i) (λ e. slice_index targets.now e) }
    requires factors { AreFactors (length sources.now) (length targets.now)
        (λ i. slice_index sources.now i) (λ e. slice_index targets.now e) (byte_at table.now) }
    requires rows { AreRows rows.now }
    requires sources { All (λ p. p < length rows.now) sources.now }
    requires ascending { IsStrictlyIncreasing sources.now × IsStrictlyIncreasing targets.now }
    requires below { All (λ p. p < length out.old) sources.now
        × All (λ p. p < length out.old) targets.now }
    requires apart { AreDisjoint sources.now targets.now }
    requires lengths { HaveLength len rows.now × HaveLength len out.old }
    ensures { Restored (corner (length sources.now) (length targets.now) table.now)
        (rows_at rows.now sources.now) targets.now sources.now out.old out.new 0 (len / 64 * 64) }
{
    let m = targets.len() - 1;
    let mut products = [[Products::of(0); 16]; 3];
    for j in 0..m {
        set_products(&mut products[j], &table[j], sources.len());
    }
    match m {
        0 => restore_blocks::<1, 0>(out, targets, &products, rows, sources, len),
        1 => restore_blocks::<2, 1>(out, targets, &products, rows, sources, len),
        2 => restore_blocks::<3, 2>(out, targets, &products, rows, sources, len),
        _ => restore_blocks::<4, 3>(out, targets, &products, rows, sources, len),
    }
}

/// Makes the rows at the sources copies of those of `rows`, and the rows at the targets sums of
/// them, by a table that has the factors of each source in the row at each target.
pub(crate) fn restore(
    out: &mut Rows,
    targets: &[u8],
    table: &[[u8; 16]; 4],
    rows: &RowsRef<'_>,
    sources: &[u8],
)
    requires in_range { IsInRange (length sources.now) (length targets.now) }
    requires width { HaveLength 16 table.now }
    requires split { Splits (length sources.now + length targets.now) (length sources.now)
        (length targets.now) (λ i. slice_index sources.now i) (λ e. slice_index targets.now e) }
    requires factors { AreFactors (length sources.now) (length targets.now)
        (λ i. slice_index sources.now i) (λ e. slice_index targets.now e) (byte_at table.now) }
    requires sources { All (λ p. p < length rows.now) sources.now }
    requires ascending { IsStrictlyIncreasing sources.now × IsStrictlyIncreasing targets.now }
    requires below { All (λ p. p < length out.old) sources.now
        × All (λ p. p < length out.old) targets.now }
    requires apart { AreDisjoint sources.now targets.now }
    requires lengths { HaveLength (length (row_at rows.now 0)) out.old }
    ensures count { length out.new ≡ length out.old }
    ensures lengths { HaveLength (length (row_at rows.now 0)) out.new }
    ensures sums { AreCombinations (corner (length sources.now) (length targets.now) table.now)
        (rows_at rows.now sources.now) (rows_at out.new targets.now) }
    ensures kept { (i : ℕ) → i < length sources.now
        → row_at out.new (slice_index sources.now i)
        ≡ row_at rows.now (slice_index sources.now i) }
{
    let len = rows.row_len() as usize;
    if len % BLOCK == 0 {
        restore_whole(out, targets, table, rows, sources, len);
    } else {
        let factors = Factors::of_table(table, sources.len() as u32, targets.len() as u32);
        out.restore(targets, &factors, rows, sources);
    }
}
