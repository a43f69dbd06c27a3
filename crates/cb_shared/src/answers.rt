//! What pins and writes in place answer.

use crate::pass::Pin;

/// What a pin is answered. The refusals are tested in this order.
#[derive(Drop)]
pub enum PinAnswer {
    /// The object is pinned.
    Pinned(Pin),
    /// The pass has as many pins as it may have.
    ScopeFull,
    /// The object was freed.
    Freed,
    /// The object is far.
    NotHere,
    /// The object is being moved or written.
    Moving,
    /// The object has as many pins as its word can count.
    Crowded,
    /// The word was another one at the exchange than at the look before it.
    Raced { saw: u64, found: u64 },
}

/// What a write in place is answered. The refusals are tested in this order, but that Raced comes
/// before Worn.
#[derive(Clone, Copy)]
pub enum WriteAnswer {
    /// The object was written, and has this version.
    Ok { version: u64 },
    /// The object was freed.
    Freed,
    /// The object is far.
    NotHere,
    /// The object is being moved or written.
    Moving,
    /// The write goes past the object's end; its length in bytes.
    Range { len: u32 },
    /// The object is pinned; how often.
    Pinned { count: u32 },
    /// The object's version has no next one.
    Worn,
    /// The word was another one at the exchange than at the look before it.
    Raced { saw: u64, found: u64 },
}
