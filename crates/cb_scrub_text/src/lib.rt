//! What `carbink scrub` makes of bytes: the rows that they spell are examined, and one wrong row is
//! made right again. Bytes outside the form are refused, with their first line that is.
#![tactic(auto)]

mod asked;
mod filling;
mod header;
mod reading;
mod scrubbing;
mod telling;

pub use asked::Asked;
pub use scrubbing::scrub_bytes;
