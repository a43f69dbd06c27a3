//! Whether rows are a code word, by their syndromes.

ghost use Rattle.std.specs.Prelude.{◌≡◌, ℕ, ◌-◌, ◌+◌, ◌*◌, ◌/◌};
ghost use Rattle.std.specs.Prelude.{◌<◌, ◌≤◌, ◌↔◌, length, slice_index, IsTrue};
ghost use Rattle.cb_gf256.specs.Power.{power};
ghost use Rattle.cb_gf256.specs.Rows.{HaveLength};
ghost use Rattle.cb_gf256.specs.CodeWord.{syndrome, IsCodeWord};
ghost use Rattle.cb_gf256.specs.InRange.{IsInRange};
ghost use Rattle.cb_gf256.specs.Lanes.{HasLanes};

use cb_gf256::{BLOCK, Products, Rows, add, add_blocks, block_at, is_zero_block, mul, pow};
use std::simd::prelude::*;

/// Whether the rows, of which the last `r` are the parities, are a code word: all syndromes of
/// the powers below `r` are 0.
pub fn syndromes_zero(r: u32, rows: &Rows) -> bool
    requires { IsInRange (length rows.now - r) r }
    ensures { IsTrue result ↔ IsCodeWord (length rows.now - r) r rows.now }
{
    let len = rows.row_len() as usize;
    blocks_are_zero(r, rows, len) && columns_are_zero(r, rows, len / BLOCK * BLOCK, len)
}

/// Whether the syndromes of the powers below `r` are 0 in all whole blocks.
fn blocks_are_zero(r: u32, rows: &Rows, len: usize) -> bool
    requires few { r ≤ 4 }
    requires positions { length rows.now ≤ 20 }
    requires lengths { HaveLength len rows.now }
    requires some { 0 < length rows.now }
    ensures { IsTrue result ↔ ((column j : ℕ) → column < len / 64 * 64 → j < r
        → syndrome j rows.now column ≡ 0) }
{
    let powers = powers_of_two();
    for block in 0..len / BLOCK {
        if !block_is_zero(r, &powers, rows, block * BLOCK, len) {
            return false;
        }
    }
    true
}

/// The powers of 2 of which a syndrome is taken.
pub fn powers_of_two() -> [Products; 4]
    ensures count { length result ≡ 4 }
    ensures powers { (j : ℕ) → j < 4 → slice_index result j ≡ power 2 j }
{
    [
        Products::of(1),
        Products::of(2),
        Products::of(4),
        Products::of(8),
    ]
}

/// Whether the syndromes of the powers below `r` are 0 in the block at a place.
pub fn block_is_zero(r: u32, powers: &[Products; 4], rows: &Rows, at: usize, len: usize) -> bool
    requires few { r ≤ 4 }
    requires powers { (j : ℕ) → j < 4 → slice_index powers.now j ≡ power 2 j }
    requires positions { length rows.now ≤ 20 }
    requires lengths { HaveLength len rows.now }
    requires some { 0 < length rows.now }
    requires inside { at + 64 ≤ len }
    ensures { IsTrue result ↔ ((j l : ℕ) → j < r → l < 64 → syndrome j rows.now (at + l) ≡ 0) }
{
    for j in 0..r {
        if !is_zero_block(block_syndrome(&powers[j as usize], rows, at, len)) {
            return false;
        }
    }
    true
}

/// The syndrome of a power in a block, by Horner: the sum so far times the power, and the next
/// row, from the last row to the first.
#[inline(always)]
pub fn block_syndrome(factor: &Products, rows: &Rows, at: usize, len: usize) -> u8x64
    requires byte { factor.now < 256 }
    requires positions { length rows.now ≤ 20 }
    requires lengths { HaveLength len rows.now }
    requires some { 0 < length rows.now }
    requires inside { at + 64 ≤ len }
    ensures { (j : ℕ) → factor.now ≡ power 2 j
        → HasLanes result (λ l. syndrome j rows.now (at + l)) }
{
    let count = rows.count();
    let mut sum = u8x64::splat(0);
    for i in 0..count {
        let row = rows.row(count - 1 - i);
        sum = add_blocks(factor.times_block(sum), block_at(row, at));
    }
    sum
}

/// Whether the syndromes of the powers below `r` are 0 at the columns from one on.
fn columns_are_zero(r: u32, rows: &Rows, from: usize, len: usize) -> bool
    requires few { r ≤ 4 }
    requires positions { length rows.now ≤ 20 }
    requires lengths { HaveLength len rows.now }
    requires some { 0 < length rows.now }
    ensures { IsTrue result ↔ ((column j : ℕ) → from ≤ column → column < len → j < r
        → syndrome j rows.now column ≡ 0) }
{
    for column in from..len {
        if !column_is_zero(r, rows, column, len) {
            return false;
        }
    }
    true
}

/// Whether the syndromes of the powers below `r` are 0 at this column.
pub fn column_is_zero(r: u32, rows: &Rows, column: usize, len: usize) -> bool
    requires few { r ≤ 4 }
    requires positions { length rows.now ≤ 20 }
    requires lengths { HaveLength len rows.now }
    requires column { column < len }
    ensures { IsTrue result ↔ ((j : ℕ) → j < r → syndrome j rows.now column ≡ 0) }
{
    for j in 0..r {
        if syndrome_at(j, rows, column, len) != 0 {
            return false;
        }
    }
    true
}

/// The sum over the positions i of 2^(i*j) times the byte of row i at this column.
pub fn syndrome_at(j: u32, rows: &Rows, column: usize, len: usize) -> u8
    requires few { j ≤ 4 }
    requires positions { length rows.now ≤ 20 }
    requires lengths { HaveLength len rows.now }
    requires column { column < len }
    ensures { result ≡ syndrome j rows.now column }
{
    let mut sum = 0;
    for i in 0..rows.count() {
        sum = add(sum, mul(pow(2, i * j), rows.row(i)[column]));
    }
    sum
}
