//! Scripts that are drawn from a seed, and the summary of what they are answered.
#![tactic(auto)]

mod draws;
mod lengths;
mod make;
mod request;
pub mod summary;

pub use make::make_script;
pub use summary::summary_text;
