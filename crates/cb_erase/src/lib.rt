//! Erasures of the Reed-Solomon code over GF(256): any k rows of a code word give the others.
#![tactic(auto)]

mod laws;
mod lost;
mod restoring;
mod solving;
mod table;
mod weighing;

pub use laws::weight_laws;
pub use solving::{solve, solve_borrowed};
pub use table::Weights;
pub use weighing::weights;
