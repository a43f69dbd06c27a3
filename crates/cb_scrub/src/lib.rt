//! The scrubber: rows of a span-set that are not what was put are found, and one wrong row is made
//! right again.
#![tactic(auto)]

mod examining;
mod finding;
mod fitting;
mod found;
mod mending;
mod testing;

pub use examining::examine;
pub use found::Found;
pub use mending::mend;
pub use testing::is_code_word;
