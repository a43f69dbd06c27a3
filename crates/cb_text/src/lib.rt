//! The lines of output, to the byte.
#![tactic(auto)]

pub mod line;
pub mod reply;
mod verb;
pub mod word;

pub use line::{line_text, push_line};
