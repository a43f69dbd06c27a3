//! A code with its table, for rows of one length.
ghost use Rattle.std.specs.Prelude.{◌≡◌, length};
ghost use Rattle.cb_gf256.specs.Rows.{row_at};

use cb_code::Coeffs;

/// The table of a code with the products of its factors, and the length of the rows that it is for.
#[derive(Drop)]
pub struct Encoder {
    pub(crate) k: u32,
    pub(crate) len: u32,
    pub(crate) code: Coeffs,
    pub ghost wide: { length (row_at code 0) ≡ k },
}
