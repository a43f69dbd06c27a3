//! Why a runtime was not closed.

use crate::pass::Pass;
use crate::runtime::Shared;

/// Why a runtime was not closed. The runtime and the pass come back as they were.
#[derive(Drop)]
pub enum CloseRefused {
    /// The pass has less than the whole share, since other passes are out.
    Out {
        shared: Shared,
        pass: Pass,
        share: u32,
    },
    /// There was no memory for the world.
    NoMemory {
        shared: Shared,
        pass: Pass,
    },
}
