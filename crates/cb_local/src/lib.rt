//! Compaction with parities that the compute side makes: the parities of a set are patched there by
//! the deltas of the data rows that it takes from another.
#![tactic(auto)]

mod compacting;
mod fetching;
mod order;
mod putting;
mod rooms;
mod running;

pub use compacting::compact_local;
pub use order::{DeltaDone, DeltaOrder};
pub use running::run_delta;
