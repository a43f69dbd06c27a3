//! Deltas of data rows, and parities that are patched by them.
#![tactic(auto)]

mod deltas;
mod laws;

pub use deltas::{delta, patch};
pub use laws::parity_laws;
