//! The filter: an object in local memory moves to a span of its temperature, so that cold objects
//! leave together.
#![tactic(auto)]

mod copying;
mod filtering;
mod planning;
mod refusing;

pub use filtering::filter_one;
