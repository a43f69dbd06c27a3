//! The names of objects, lanes, sets and batches.

/// An object, by the number that its make gave it. Numbers count up from 0 and none is used again.
#[derive(Clone, Copy, Debug, PartialEq, Eq, PartialOrd, Ord)]
pub struct Handle {
    pub n: u32,
}

/// A lane of a script: lines of one lane are answered one after the other.
#[derive(Clone, Copy, Debug, PartialEq, Eq, PartialOrd, Ord)]
pub struct Lane {
    pub n: u8,
}

/// A span-set, by its number. Numbers count up from 0 and none is used again.
#[derive(Clone, Copy, Debug, PartialEq, Eq, PartialOrd, Ord)]
pub struct SetId {
    pub n: u64,
}
