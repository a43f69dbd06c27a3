//! Coding work that is done while no lock is held: an order has all rows that it needs, and a done
//! order carries the rows that were made of them.
#![tactic(auto)]

mod decoding;
mod done;
mod encoding;

pub use decoding::run_decode;
pub use done::{DecodeDone, EncodeDone};
pub use encoding::run_encode;
