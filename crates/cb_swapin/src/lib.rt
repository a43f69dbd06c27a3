//! Swap-in: the span of a position of a span-set comes back into local memory, by the row at its
//! node, or by the row that k others of the set make. That row is made here, or elsewhere by an order
//! that a fetch hands out, and lands then.
#![tactic(auto)]

mod bringing;
mod fetching;
mod landing;
mod storing;
mod swapping;

pub use fetching::{Fetching, fetch_rows};
pub use landing::land;
pub use swapping::swap_in;
