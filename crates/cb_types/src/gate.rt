//! What is notified of each answered line and turn.

use crate::handle::Lane;

/// Is told of each answered line of a lane, and of each turn of a worker, outside of every lock. A
/// test can hold a lane or a worker there.
pub trait Gate: Sync {
    /// The lanes are 0 to 15. The workers are 16 to 19, and their line is the number of the turn.
    fn after(&self, lane: Lane, line: u32);
}

/// Holds nobody.
pub struct OpenGate;

impl Gate for OpenGate {
    fn after(&self, _lane: Lane, _line: u32) {}
}
