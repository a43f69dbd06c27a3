//! What may happen next in a world: an atomic step or a turn.

use cb_types::{Bytes, Handle, Job};

/// One atomic step on one word.
#[derive(Drop)]
pub enum Atomic {
    /// The pointer word of an object is read.
    Load {
        handle: Handle,
    },
    /// The object is pinned.
    Pin {
        handle: Handle,
    },
    /// The seat's newest pin on the object is given back.
    Unpin {
        handle: Handle,
    },
    /// The object is claimed for a write of these bytes from the byte number `at` on.
    Claim {
        handle: Handle,
        at: u32,
        bytes: Bytes,
    },
    /// The next word of the seat's open write on the object is stored.
    Store {
        handle: Handle,
    },
    /// The seat's open write on the object is settled.
    Settle {
        handle: Handle,
    },
    /// The seat takes the far lock.
    Take,
    /// The seat gives the far lock back.
    Give,
}

/// What happens next: a seat takes an atomic step, or makes a turn with a job. Seats are numbered
/// from 0, below 64.
#[derive(Drop)]
pub enum Event {
    Step { seat: u32, atomic: Atomic },
    Turn { seat: u32, job: Job },
}
