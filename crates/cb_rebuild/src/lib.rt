//! Rebuilding: a lost row of a span-set is made again from k rows that stand, and put on a spare
//! node, so that the set has its strength back before the next crash.
#![tactic(auto)]

mod choosing;
mod finding;
mod rebuilding;
mod restoring;

pub use rebuilding::rebuild_next;
