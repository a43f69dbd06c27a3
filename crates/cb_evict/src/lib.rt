//! Eviction: spans whose objects no one uses leave local memory, coded together as a span-set whose
//! rows stand on memory nodes.
#![tactic(auto)]

mod aborting;
mod beginning;
mod candidates;
mod claiming;
mod closing;
mod committing;
mod evicting;
pub mod eviction;
mod finding;
mod gathering;
mod installing;
mod lengths;
mod loading;
mod looking;
mod next_put;
mod restoring;
mod sending;
mod shipping;
mod storing;
mod taking;
mod waiting;

pub use aborting::abort;
pub use beginning::begin;
pub use committing::commit;
pub use evicting::{evict_counted, evict_now};
pub use eviction::{Eviction, Lack};
pub use gathering::{Gathered, gather};
pub use installing::install;
pub use shipping::ship;
