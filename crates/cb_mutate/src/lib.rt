//! Make, read, write and free of objects in local memory.
#![tactic(auto)]

mod freeing;
mod loading;
mod making;
mod merge;
mod overwriting;
mod reaching;
mod reading;
mod refusing;
mod writing;

pub use freeing::free;
pub use making::make;
pub use merge::merged;
pub use reading::read;
pub use writing::write;
