//! Whether rows are a code word, by all their syndromes in one pass.
ghost use Rattle.std.specs.Prelude.{◌≡◌, ℕ, ◌+◌, ◌-◌, ◌*◌, ◌<◌, ◌≤◌, ◌↔◌};
ghost use Rattle.std.specs.Prelude.{IsTrue, length, slice_index};
ghost use Rattle.cb_gf256.specs.Sum.{◌⊕◌};
ghost use Rattle.cb_gf256.specs.Product.{◌⊗◌};
ghost use Rattle.cb_gf256.specs.Power.{power};
ghost use Rattle.cb_gf256.specs.Rows.{row_at, byte_at, HaveLength};
ghost use Rattle.cb_gf256.specs.CodeWord.{syndrome, IsCodeWord};
ghost use Rattle.cb_gf256.specs.InRange.{IsInRange};
ghost use Rattle.cb_gf256.specs.Lanes.{HasLanes};
ghost use Rattle.cb_scrub.specs.Wrong.{AreZero};

use cb_code::powers_of_two;
use cb_gf256::{BLOCK, Products, RowsRef, add, add_blocks, block_at, is_zero_block};
use std::simd::prelude::*;

/// Whether rows that somebody else has, of which the last `r` are the parities, are a code word:
/// all syndromes of the powers below `r` are 0. It wants no table of the code and no memory.
pub fn is_code_word(r: u32, rows: &RowsRef<'_>) -> bool
    requires { IsInRange (length rows.now - r) r }
    ensures { IsTrue result ↔ IsCodeWord (length rows.now - r) r rows.now }
{
    let len = rows.row_len() as usize;
    let powers = powers_of_two();
    if len < BLOCK {
        return columns_are_zero(r, &powers, rows, len);
    }
    match r {
        1 => blocks_are_zero::<1>(&powers, rows, len),
        2 => blocks_are_zero::<2>(&powers, rows, len),
        3 => blocks_are_zero::<3>(&powers, rows, len),
        _ => blocks_are_zero::<4>(&powers, rows, len),
    }
}

/// Whether the syndromes of the powers below `R` are 0 at all columns, of which there are a block
/// or more. The last block overlaps the one before where the columns are no whole blocks.
fn blocks_are_zero<const R: usize>(powers: &[Products; 4], rows: &RowsRef<'_>, len: usize) -> bool
    requires few { R ≤ 4 }
    requires powers { (j : ℕ) → j < 4 → slice_index powers.now j ≡ power 2 j }
    requires lengths { HaveLength len rows.now }
    requires some { 0 < length rows.now }
    requires long { 64 ≤ len }
    ensures { IsTrue result ↔ AreZero R rows.now 0 len }
{
    for block in 0..len / BLOCK {
        if !block_is_zero::<R>(powers, rows, block * BLOCK, len) {
            return false;
        }
    }
    len % BLOCK == 0 || block_is_zero::<R>(powers, rows, len - BLOCK, len)
}

/// The same, of the block at a place.
#[inline(always)]
fn block_is_zero<const R: usize>(
    powers: &[Products; 4],
    rows: &RowsRef<'_>,
    at: usize,
    len: usize,
) -> bool
    requires few { R ≤ 4 }
    requires powers { (j : ℕ) → j < 4 → slice_index powers.now j ≡ power 2 j }
    requires lengths { HaveLength len rows.now }
    requires some { 0 < length rows.now }
    requires inside { at + 64 ≤ len }
    ensures { IsTrue result ↔ AreZero R rows.now at (at + 64) }
{
    let sums = block_syndromes::<R>(powers, rows, at, len);
    for j in 0..R {
        if !is_zero_block(sums[j]) {
            return false;
        }
    }
    true
}

/// The syndromes of the powers below `R` in a block, by Horner: each sum so far times its power,
/// and the next row, from the last row to the first.
#[inline(always)]
fn block_syndromes<const R: usize>(
    powers: &[Products; 4],
    rows: &RowsRef<'_>,
    at: usize,
    len: usize,
) -> [u8x64; R]
    requires few { R ≤ 4 }
    requires powers { (j : ℕ) → j < 4 → slice_index powers.now j ≡ power 2 j }
    requires lengths { HaveLength len rows.now }
    requires some { 0 < length rows.now }
    requires inside { at + 64 ≤ len }
    ensures count { length result ≡ R }
    ensures lanes { (j : ℕ) → j < R
        → HasLanes (row_at result j) (λ l. syndrome j rows.now (at + l)) }
{
    let count = rows.count();
    let mut sums = [block_at(rows.row(count - 1), at); R];
    for i in 1..count {
        let block = block_at(rows.row(count - 1 - i), at);
        sums = with_row::<R>(sums, powers, block);
    }
    sums
}

/// Each of the sums times its power, and a block.
#[inline(always)]
fn with_row<const R: usize>(sums: [u8x64; R], powers: &[Products; 4], block: u8x64) -> [u8x64; R]
    requires few { R ≤ 4 }
    requires powers { (j : ℕ) → j < 4 → slice_index powers.now j ≡ power 2 j }
    ensures count { length result ≡ R }
    ensures lanes { (j : ℕ) → j < R → HasLanes (row_at result j)
        (λ l. (power 2 j ⊗ byte_at sums.entry j l) ⊕ slice_index block l) }
{
    let mut more = sums;
    for j in 0..R {
        more[j] = add_blocks(raised(j, powers, more[j]), block);
    }
    more
}

/// A block times a power of 2. The power 0 costs nothing.
#[inline(always)]
fn raised(j: usize, powers: &[Products; 4], block: u8x64) -> u8x64
    requires few { j < 4 }
    requires powers { (j : ℕ) → j < 4 → slice_index powers.now j ≡ power 2 j }
    ensures { HasLanes result (λ l. power 2 j ⊗ slice_index block l) }
{
    if j == 0 {
        return block;
    }
    powers[j].times_block(block)
}

/// Whether the syndromes of the powers below `r` are 0 at all columns, one by one.
fn columns_are_zero(r: u32, powers: &[Products; 4], rows: &RowsRef<'_>, len: usize) -> bool
    requires few { r ≤ 4 }
    requires powers { (j : ℕ) → j < 4 → slice_index powers.now j ≡ power 2 j }
    requires lengths { HaveLength len rows.now }
    ensures { IsTrue result ↔ AreZero r rows.now 0 len }
{
    for column in 0..len {
        if !column_is_zero(r, powers, rows, column, len) {
            return false;
        }
    }
    true
}

/// The same, of one column.
fn column_is_zero(
    r: u32,
    powers: &[Products; 4],
    rows: &RowsRef<'_>,
    column: usize,
    len: usize,
) -> bool
    requires few { r ≤ 4 }
    requires powers { (j : ℕ) → j < 4 → slice_index powers.now j ≡ power 2 j }
    requires lengths { HaveLength len rows.now }
    requires inside { column < len }
    ensures { IsTrue result ↔ ((j : ℕ) → j < r → syndrome j rows.now column ≡ 0) }
{
    for j in 0..r {
        if column_syndrome(&powers[j as usize], rows, column, len) != 0 {
            return false;
        }
    }
    true
}

/// The syndrome of a power at a column, by Horner.
fn column_syndrome(factor: &Products, rows: &RowsRef<'_>, column: usize, len: usize) -> u8
    requires lengths { HaveLength len rows.now }
    requires inside { column < len }
    ensures { (j : ℕ) → factor.now ≡ power 2 j → result ≡ syndrome j rows.now column }
{
    let count = rows.count();
    let mut sum = 0;
    for i in 0..count {
        sum = add(factor.times(sum), rows.row(count - 1 - i)[column]);
    }
    sum
}
