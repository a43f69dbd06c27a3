//! What the holder of the far lock knows of an object.

/// What the holder of the far lock knows of an object. No value of it is made; contracts read its
/// arrays as lists of any length. Lengths are in bytes, places are indices of memory words.
pub enum Object {
    /// Never made (version 0), or freed at this version.
    Empty {
        version: u64,
    },
    /// Away: its length, its last complete version and the words of its contents.
    Far {
        len: u32,
        version: u64,
        words: [u64; 0],
    },
    /// In local memory. Others may pin it, claim it and write it.
    Here {
        len: u32,
        place: u32,
    },
    /// In local memory and claimed by the holder: its last complete version and the words of its
    /// contents.
    Claimed {
        len: u32,
        place: u32,
        version: u64,
        words: [u64; 0],
    },
}
