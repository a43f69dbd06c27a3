//! Remote orders on rows over a network that loses messages, repeats them and changes their order:
//! a sender with a window, a keeper that applies each order once and in order, and schedules that
//! are run on both.
#![tactic(auto)]

mod course;
pub mod keeper;
pub mod order;
mod rows;
pub mod schedule;
pub mod sender;
pub mod step;

pub use keeper::{Handled, Keeper};
pub use order::{Ack, Ask, Order};
pub use schedule::{Ended, run_schedule};
pub use sender::{Heard, Sender, Submitted};
pub use step::{Said, Saids, Step};
