//! Membership: which memory nodes are up, how often each has joined, and at which epoch each of
//! its incarnations crashed; and the names by which the crates above speak of nodes and losses.
#![tactic(auto)]

mod losses;
mod members;
mod names;
mod no_memory;
mod node;

pub use losses::Losses;
pub use members::{MemberAnswer, Members};
pub use names::{Code, Epoch, Loss, NodeId, Shard};
pub use no_memory::NoMemory;
