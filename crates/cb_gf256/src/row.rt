//! A row added to another one, plain or times a factor.

ghost use Rattle.std.specs.Prelude.{◌≡◌, ◌*◌, ◌/◌, length};
ghost use Rattle.cb_gf256.specs.Row.{row_sum, scaled_row, summed_front};

use crate::lanes::{BLOCK, add_blocks, block_at, put_block};
use crate::products::Products;

/// Adds the row `src` to the row `dst`, byte by byte. Both are bytes of the field, as many in
/// each.
pub fn xor_row(dst: &mut [u8], src: &[u8])
    requires { length dst.old ≡ length src.now }
    ensures { dst.new ≡ row_sum dst.old src.now }
{
    xor_blocks(dst, src);
    for i in src.len() / BLOCK * BLOCK..src.len() {
        dst[i] ^= src[i];
    }
}

/// Adds `c` times the row `src` to the row `dst`, byte by byte.
pub fn axpy_row(dst: &mut [u8], c: u8, src: &[u8])
    requires { length dst.old ≡ length src.now }
    ensures { dst.new ≡ row_sum dst.old (scaled_row c src.now) }
{
    let factor = Products::of(c);
    axpy_blocks(dst, &factor, src);
    for i in src.len() / BLOCK * BLOCK..src.len() {
        dst[i] ^= factor.times(src[i]);
    }
}

/// Adds the whole blocks of `src`.
fn xor_blocks(dst: &mut [u8], src: &[u8])
    requires { length dst.old ≡ length src.now }
    ensures { dst.new ≡ summed_front dst.old src.now (length src.now / 64 * 64) }
{
    for block in 0..src.len() / BLOCK {
        let at = block * BLOCK;
        put_block(dst, at, add_blocks(block_at(dst, at), block_at(src, at)));
    }
}

/// Adds the whole blocks of `src`, times the factor.
fn axpy_blocks(dst: &mut [u8], factor: &Products, src: &[u8])
    requires { length dst.old ≡ length src.now }
    ensures { dst.new ≡ summed_front dst.old (scaled_row factor.now src.now)
        (length src.now / 64 * 64) }
{
    for block in 0..src.len() / BLOCK {
        let at = block * BLOCK;
        let product = factor.times_block(block_at(src, at));
        put_block(dst, at, add_blocks(block_at(dst, at), product));
    }
}
