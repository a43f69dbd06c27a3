//! What the holder of the far lock knows of all words.

use crate::object::Object;

/// What the holder of the far lock knows. No value of it is made; contracts read its arrays as
/// lists of any length. Objects, version words and whether a word was seen hot are listed by
/// handle, memory words by place.
pub struct Shown {
    /// The version that a make gives.
    pub first: u64,
    pub objects: [Object; 0],
    pub hots: [bool; 0],
    pub versions: [u64; 0],
    pub memory: [u64; 0],
}
