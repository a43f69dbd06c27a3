//! Spans: runs of slots of one size class, each slot empty or with one object, named by its handle.
#![tactic(auto)]

mod layout;
mod span;
mod temp;

pub use layout::{place_frame, place_slot, slot_place};
pub use span::Span;
pub use temp::Temp;
