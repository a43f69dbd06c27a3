//! Schedules of remote orders as text: what a user writes, an event a line after a header, and what
//! is printed of each event. The reader takes exactly the schedules that are in the form, and tells
//! the first line that is not.
#![tactic(auto)]

mod event;
mod header;
pub mod laws;
mod read;
pub mod run;
mod said;
mod verb;

pub use laws::rma_laws;
pub use run::rma_bytes;
