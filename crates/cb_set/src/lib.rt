//! Span-sets: the spans that are coded together, each with the shards that name its rows at the
//! memory nodes, and which of those shards are lost.
#![tactic(auto)]

mod lost;
mod matched;
mod position;
mod span_set;

pub use lost::{MOST_POSITIONS, is_lost};
pub use span_set::SpanSet;
