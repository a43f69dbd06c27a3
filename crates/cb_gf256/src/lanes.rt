//! Blocks of 64 bytes as lanes.
ghost use Rattle.std.specs.Prelude.{◌≡◌, ℕ, ◌+◌, ◌%◌, ◌/◌, ◌<◌};
ghost use Rattle.std.specs.Prelude.{◌≤◌, ◌↔◌, length, slice_index, bit_and, IsTrue};
ghost use Rattle.std.specs.Simd.Lanes.{chunk, put_chunk};
ghost use Rattle.cb_gf256.specs.Sum.{◌⊕◌};
ghost use Rattle.cb_gf256.specs.Product.{◌⊗◌};
ghost use Rattle.cb_gf256.specs.Lanes.{AreLanes, HasLanes};

use std::simd::prelude::*;

/// How many bytes a block has.
pub const BLOCK: usize = 64;

/// The block of a row from a place on.
#[inline(always)]
pub fn block_at(row: &[u8], at: usize) -> u8x64
    requires { at + 64 ≤ length row.now }
    ensures { HasLanes result (λ l. slice_index row.now (at + l)) }
{
    u8x64::from_slice(&row[at..])
}

/// Sixteen bytes of a row from a place on.
#[inline(always)]
pub(crate) fn table_at(row: &[u8], at: usize) -> u8x16
    requires { at + 16 ≤ length row.now }
    ensures { result ≡ chunk at 16 row.now }
{
    u8x16::from_slice(&row[at..])
}

/// Writes a block over a row from a place on.
#[inline(always)]
pub fn put_block(row: &mut [u8], at: usize, block: u8x64)
    requires { at + 64 ≤ length row.old }
    ensures { row.new ≡ put_chunk at row.old block }
{
    block.copy_to_slice(&mut row[at..]);
}

/// The sum of two blocks.
#[inline(always)]
pub fn add_blocks(a: u8x64, b: u8x64) -> u8x64
    ensures { HasLanes result (λ l. slice_index a l ⊕ slice_index b l) }
{
    a ^ b
}

/// The sum of two lists of 32 bytes, as many as a byte's halves have values.
#[inline(always)]
pub(crate) fn add_halves(a: u8x32, b: u8x32) -> u8x32
    ensures { AreLanes 32 result (λ l. slice_index a l ⊕ slice_index b l) }
{
    a ^ b
}

/// The bits of each byte that the mask has.
#[inline(always)]
pub(crate) fn masked(bytes: u8x32, mask: u8) -> u8x32
    ensures { AreLanes 32 result (λ l. bit_and (slice_index bytes l) mask) }
{
    bytes & u8x32::splat(mask)
}

/// Each byte times 2: shifted, and with 1D added where the shift takes a bit out.
#[inline(always)]
pub(crate) fn doubled(bytes: u8x32) -> u8x32
    ensures { AreLanes 32 result (λ l. 2 ⊗ slice_index bytes l) }
{
    let taken_out = bytes
        .simd_ge(u8x32::splat(0x80))
        .select(u8x32::splat(0x1D), u8x32::splat(0));
    (bytes + bytes) ^ taken_out
}

/// The table's entries at the low halves of the bytes.
#[inline(always)]
pub(crate) fn at_low_halves(table: u8x16, block: u8x64) -> u8x64
    ensures { HasLanes result (λ l. slice_index table (slice_index block l % 16)) }
{
    spread(table).swizzle_dyn_within::<16>(block & u8x64::splat(15))
}

/// The table's entries at the high halves of the bytes.
#[inline(always)]
pub(crate) fn at_high_halves(table: u8x16, block: u8x64) -> u8x64
    ensures { HasLanes result (λ l. slice_index table (slice_index block l / 16)) }
{
    spread(table).swizzle_dyn_within::<16>(block >> u8x64::splat(4))
}

/// The table four times over, so that each lane can look up in sixteen bytes near it.
#[inline(always)]
fn spread(table: u8x16) -> u8x64
    ensures { HasLanes result (λ l. slice_index table (l % 16)) }
{
    table.swizzle([
        0, 1, 2, 3, 4, 5, 6, 7, 8, 9, 10, 11, 12, 13, 14, 15, 0, 1, 2, 3, 4, 5, 6, 7, 8, 9, 10, 11,
        12, 13, 14, 15, 0, 1, 2, 3, 4, 5, 6, 7, 8, 9, 10, 11, 12, 13, 14, 15, 0, 1, 2, 3, 4, 5, 6,
        7, 8, 9, 10, 11, 12, 13, 14, 15,
    ])
}

/// Whether all bytes of a block are 0.
#[inline(always)]
pub fn is_zero_block(block: u8x64) -> bool
    ensures { IsTrue result ↔ ((l : ℕ) → l < 64 → slice_index block l ≡ 0) }
{
    block.simd_ne(u8x64::splat(0)).to_bitmask() == 0
}
