//! The scrubber over the world: the rows of the committed span-sets are given out and examined, set
//! after set, and one wrong row of a set is made right at its node.
#![tactic(auto)]

mod choosing;
mod giving;
mod mending;
mod scrubbed;
mod scrubbing;

pub use scrubbed::Scrubbed;
pub use scrubbing::scrub_next;
