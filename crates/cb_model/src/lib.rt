//! The plain map from handles to byte lists against which everything is proved, what it means that
//! a list of answers is legal, and what it means that there is one order of all lanes' answers.
#![tactic(auto)]

pub mod call;
pub mod map;
pub mod object;
mod one_order;

pub use call::{Call, MapReply};
pub use map::MapState;
pub use object::Object;
pub use one_order::serial_laws;
