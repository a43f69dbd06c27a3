//! The parities of data rows, made where the caller has room for them.
ghost use Rattle.std.specs.Prelude.{◌≡◌, ◌*◌, length};
ghost use Rattle.cb_gf256.specs.Block.{cut_rows};
ghost use Rattle.cb_gf256.specs.Rows.{row_at};
ghost use Rattle.carbink_c.specs.Made.{AreParities};

use cb_code::{Coeffs, encode_into};
use cb_gf256::RowsRef;

/// Puts the parities of data rows into a buffer, where both have as many bytes as their rows.
pub(crate) fn put_parities(code: &Coeffs, k: u32, len: u32, given: &[u8], parities: &mut [u8])
    requires wide { length (row_at code.now 0) ≡ k }
    requires given { length given.now ≡ k * len }
    requires parities { length parities.old ≡ length code.now * len }
    ensures { AreParities k (length code.now) (cut_rows k len given.now)
        (cut_rows (length code.now) len parities.new) }
{
    let _ = code.parities();
    let rows = RowsRef::of(k, len, given);
    encode_into(code, &rows, parities);
}
