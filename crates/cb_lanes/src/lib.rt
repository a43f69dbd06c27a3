//! The lanes of a script: its lines are answered one after the other, on one thread, or those of
//! one lane beside others.
#![tactic(auto)]

mod answering;
mod asks;
pub mod body;
mod caller;
mod compacting;
mod kept_pins;
pub mod noting;
mod passing;
mod resting;
mod seat;
pub mod seq;
pub mod side;

pub use body::{LaneEnd, Named, Names, Stopped, lane_body};
pub use noting::note_loss;
pub use seq::{SeqEnd, run_lines};
pub use side::Side;
