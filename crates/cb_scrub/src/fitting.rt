//! Whether the syndromes are those of one wrong row.
ghost use Rattle.std.specs.Prelude.{◌≡◌, ℕ, ◌+◌, ◌*◌, ◌/◌, ◌<◌, ◌≤◌};
ghost use Rattle.std.specs.Prelude.{◌↔◌, IsTrue, length, slice_index};
ghost use Rattle.cb_gf256.specs.Product.{◌⊗◌};
ghost use Rattle.cb_gf256.specs.Power.{power};
ghost use Rattle.cb_gf256.specs.Rows.{HaveLength};
ghost use Rattle.cb_gf256.specs.CodeWord.{syndrome};
ghost use Rattle.cb_scrub.specs.Fitting.{FitsAt, FitsColumns};

use cb_code::{block_syndrome, powers_of_two, syndrome_at};
use cb_gf256::{BLOCK, Products, Rows, add_blocks, is_zero_block, mul, pow};
use std::simd::prelude::*;

/// Whether in each column, from a block on, the syndromes of the powers below `r` are those of one
/// wrong row at the position: that of power j is 2^(position*j) times that of power 0.
pub(crate) fn fits(r: u32, rows: &Rows, position: u32, block: usize, len: usize) -> bool
    requires few { r ≤ 4 }
    requires positions { length rows.now ≤ 20 }
    requires lengths { HaveLength len rows.now }
    requires inside { position < length rows.now }
    requires block { block ≤ len / 64 }
    ensures { IsTrue result ↔ FitsColumns r rows.now position (block * 64) len }
{
    blocks_fit(r, rows, position, block, len)
        && columns_fit(r, rows, position, len / BLOCK * BLOCK, len)
}

/// The same, of the whole blocks.
fn blocks_fit(r: u32, rows: &Rows, position: u32, first: usize, len: usize) -> bool
    requires few { r ≤ 4 }
    requires positions { length rows.now ≤ 20 }
    requires lengths { HaveLength len rows.now }
    requires inside { position < length rows.now }
    requires first { first ≤ len / 64 }
    ensures { IsTrue result ↔ FitsColumns r rows.now position (first * 64) (len / 64 * 64) }
{
    let powers = powers_of_two();
    let factors = powers_of(position);
    for block in first..len / BLOCK {
        if !block_fits(r, &powers, &factors, rows, position, block * BLOCK, len) {
            return false;
        }
    }
    true
}

/// The first four powers of the position's power of 2.
fn powers_of(position: u32) -> [Products; 4]
    requires { position < 20 }
    ensures count { length result ≡ 4 }
    ensures powers { (j : ℕ) → j < 4 → slice_index result j ≡ power 2 (position * j) }
{
    [
        Products::of(pow(2, 0)),
        Products::of(pow(2, position)),
        Products::of(pow(2, position * 2)),
        Products::of(pow(2, position * 3)),
    ]
}

/// The same, of one block.
fn block_fits(
    r: u32,
    powers: &[Products; 4],
    factors: &[Products; 4],
    rows: &Rows,
    position: u32,
    at: usize,
    len: usize,
) -> bool
    requires few { r ≤ 4 }
    requires powers { (j : ℕ) → j < 4 → slice_index powers.now j ≡ power 2 j }
    requires factors { (j : ℕ) → j < 4 → slice_index factors.now j ≡ power 2 (position * j) }
    requires positions { length rows.now ≤ 20 }
    requires lengths { HaveLength len rows.now }
    requires some { 0 < length rows.now }
    requires inside { at + 64 ≤ len }
    ensures { IsTrue result ↔ FitsColumns r rows.now position at (at + 64) }
{
    let first = power_at(powers, 0);
    let sum = block_syndrome(first, rows, at, len);
    for j in 1..r {
        let base = power_at(powers, j as usize);
        let factor = power_at(factors, j as usize);
        if !power_fits(base, factor, sum, rows, at, len) {
            return false;
        }
    }
    true
}

/// One of four powers.
fn power_at(powers: &[Products; 4], j: usize) -> &Products
    requires { j < 4 }
    ensures { result.now ≡ slice_index powers.now j }
{
    &powers[j]
}

/// Whether the syndrome of a power in a block is the factor times this sum, byte by byte.
fn power_fits(
    base: &Products,
    factor: &Products,
    sum: u8x64,
    rows: &Rows,
    at: usize,
    len: usize,
) -> bool
    requires byte { base.now < 256 }
    requires positions { length rows.now ≤ 20 }
    requires lengths { HaveLength len rows.now }
    requires some { 0 < length rows.now }
    requires inside { at + 64 ≤ len }
    ensures { (j : ℕ) → base.now ≡ power 2 j → (IsTrue result ↔ ((l : ℕ) → l < 64
        → syndrome j rows.now (at + l) ≡ factor.now ⊗ slice_index sum l)) }
{
    let other = block_syndrome(base, rows, at, len);
    is_zero_block(add_blocks(other, factor.times_block(sum)))
}

/// The same, of the columns from one on.
fn columns_fit(r: u32, rows: &Rows, position: u32, from: usize, len: usize) -> bool
    requires few { r ≤ 4 }
    requires positions { length rows.now ≤ 20 }
    requires lengths { HaveLength len rows.now }
    requires inside { position < length rows.now }
    ensures { IsTrue result ↔ FitsColumns r rows.now position from len }
{
    for column in from..len {
        if !column_fits(r, rows, position, column, len) {
            return false;
        }
    }
    true
}

/// The same, of one column.
fn column_fits(r: u32, rows: &Rows, position: u32, column: usize, len: usize) -> bool
    requires few { r ≤ 4 }
    requires positions { length rows.now ≤ 20 }
    requires lengths { HaveLength len rows.now }
    requires position { position < length rows.now }
    requires inside { column < len }
    ensures { IsTrue result ↔ FitsAt r rows.now position column }
{
    let sum = syndrome_at(0, rows, column, len);
    for j in 1..r {
        if syndrome_at(j, rows, column, len) != mul(pow(2, position * j), sum) {
            return false;
        }
    }
    true
}
