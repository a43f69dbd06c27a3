//! The four workers that move things while lanes run: which job a worker's next turn has, and the
//! bodies that make the turns.
#![tactic(auto)]

mod bodies;
mod turns;
mod worker;
mod working;

pub use bodies::{Stopped, compact_body, evict_body, filter_body, rebuild_body, worker_body};
pub use worker::Worker;
