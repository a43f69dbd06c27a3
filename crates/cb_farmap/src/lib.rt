//! An array and a hash map of numbers whose objects may lie far away. Each stands on one pass of
//! the shared runtime: as long as nobody else writes its objects it is a plain list, or a plain
//! map, and the first call that finds that somebody did says so.
#![tactic(auto)]

mod array;
pub mod bucket;
mod buckets;
pub mod commands;
pub mod find;
pub mod kept;
mod map;
mod object;
mod pairs;

pub use array::FarArray;
pub use commands::{FarAnswers, run_commands};
pub use kept::{Cannot, KeptObject, Stop};
pub use map::FarMap;
