//! A version of an object that was written.

/// A version of an object that was written: its length in bytes, and its words before and after. A
/// free writes a version with no words. No value of it is made; contracts read its arrays as lists
/// of any length.
pub struct Entry {
    pub handle: u32,
    pub version: u64,
    pub len: u32,
    pub freed: bool,
    pub before: [u64; 0],
    pub after: [u64; 0],
}
