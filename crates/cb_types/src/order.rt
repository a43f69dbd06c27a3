//! Coding work to be done while no lock is held.

use crate::positions::Positions;
use cb_gf256::Rows;

/// The parities of a span-set that are still to be made, from its k data rows.
#[derive(Drop)]
pub struct EncodeOrder {
    /// The number of the set.
    pub set: u64,
    /// How many data rows it has.
    pub k: u32,
    /// How many parities.
    pub r: u32,
    /// The data rows.
    pub rows: Rows,
}

/// A row of a span-set that is still to be made, from k of its other rows.
#[derive(Drop)]
pub struct DecodeOrder {
    /// The number of the set.
    pub set: u64,
    /// The position of the row.
    pub position: u32,
    /// How many data rows the set has.
    pub k: u32,
    /// How many parities.
    pub r: u32,
    /// The positions of the rows at hand, in order.
    pub present: Positions,
    /// The rows at these positions.
    pub rows: Rows,
}

/// The order that a seat keeps: work on rows that is done while no lock is held.
#[derive(Drop)]
pub enum Kept {
    Encode(EncodeOrder),
    Decode(DecodeOrder),
}
