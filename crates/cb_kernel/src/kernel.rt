//! Rows of bytes added, plain or times a factor.

ghost use Rattle.std.specs.Prelude.{◌≡◌, length};
ghost use Rattle.cb_gf256.specs.Row.{row_sum, scaled_row};

use cb_gf256::{axpy_row, xor_row};

/// Adds the row `src` to the row `dst`, byte by byte.
pub fn xor(dst: &mut [u8], src: &[u8])
    requires { length dst.old ≡ length src.now }
    ensures { dst.new ≡ row_sum dst.old src.now }
{
    xor_row(dst, src);
}

/// Adds `c` times the row `src` to the row `dst`, byte by byte. The products of `c` are made anew
/// at each call, by doublings over lanes.
pub fn axpy(dst: &mut [u8], c: u8, src: &[u8])
    requires { length dst.old ≡ length src.now }
    ensures { dst.new ≡ row_sum dst.old (scaled_row c src.now) }
{
    axpy_row(dst, c, src);
}
