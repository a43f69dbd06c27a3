//! Memory nodes: each keeps rows by their keys, up to a capacity. Rows leave the nodes by two
//! calls, which count them; nodes copy and combine rows among themselves.
#![tactic(auto)]

mod node;
mod nodes;
mod row;
mod spare;

pub use nodes::{Nodes, PutAnswer};
