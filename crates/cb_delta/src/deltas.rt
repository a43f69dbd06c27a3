//! The delta of a data row, and a parity that is patched by it.

ghost use Rattle.std.specs.Prelude.{◌≡◌, ℕ, ◌<◌, List, length, slice_index, slice_set};
ghost use Rattle.cb_gf256.specs.Row.{row_sum, scaled_row};
ghost use Rattle.cb_gf256.specs.Rows.{row_at};
ghost use Rattle.cb_delta.specs.Parity.{IsParity};

use cb_kernel::{axpy, xor};

/// Writes the delta of a data row, the sum of its old and its new bytes, over the row `into`.
pub fn delta(old: &[u8], new: &[u8], into: &mut [u8])
    requires same { length old.now ≡ length new.now }
    requires room { length into.old ≡ length old.now }
    ensures { into.new ≡ row_sum old.now new.now }
{
    into.copy_from_slice(old);
    xor(into, new);
}

/// Adds to a parity the delta of one data row, times the coefficient of that row in the parity.
/// The parity is then that of the rows with the new bytes.
pub fn patch(parity: &mut [u8], coeff: u8, delta: &[u8])
    requires { length parity.old ≡ length delta.now }
    ensures value { parity.new ≡ row_sum parity.old (scaled_row coeff delta.now) }
    ensures anew { (factors : List ℕ) (rows : List (List ℕ)) (i : ℕ) (new : List ℕ)
        → IsParity factors rows parity.old
        → i < length factors → i < length rows → coeff ≡ slice_index factors i
        → length new ≡ length (row_at rows i)
        → delta.now ≡ row_sum (row_at rows i) new
        → IsParity factors (slice_set rows i new) parity.new }
{
    axpy(parity, coeff, delta);
}
