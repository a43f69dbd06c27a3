//! The shared runtime: callers in any threads pin, read and write objects of one table of atomic
//! words, each by single steps of its own pass, and wait for nobody.
#![tactic(auto)]

pub mod answers;
mod asked;
mod board;
mod boxed_far;
pub mod calling;
mod closing;
mod crossing;
mod filling;
mod frames;
mod freed;
mod handing;
mod handles;
mod locking;
mod ordering;
pub mod pass;
mod pinning;
mod pins;
mod plays;
mod reading;
mod recalling;
pub mod refused;
mod room;
pub mod runtime;
pub mod seal;
pub mod sealed;
mod seat_desk;
mod seats;
mod setup;
mod starting;
mod trying;
pub mod turning;
pub mod waiting;
mod ways;
mod working;
mod writing;

pub use answers::{PinAnswer, WriteAnswer};
pub use pass::{Pass, Pin};
pub use refused::CloseRefused;
pub use runtime::Shared;
pub use seal::Seal;
pub use waiting::Patience;
