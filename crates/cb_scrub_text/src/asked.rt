//! The rows that are to be examined.

use cb_gf256::Rows;

/// The rows that are to be examined.
#[derive(Drop)]
pub struct Asked {
    /// How many data rows there are.
    pub k: u32,
    /// How many parities there are.
    pub r: u32,
    /// The data rows, and the parities after them.
    pub rows: Rows,
}
