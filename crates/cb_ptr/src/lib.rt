//! Pointer words: where an object is, whether it was used, how often it is pinned, how long it is
//! and where it lies, in the low 53 bits of one word. Its changes are steps on the number.
#![tactic(auto)]

mod steps;
mod word;

pub use steps::{claimed, far_word, pinned, settled, unpinned};
pub use word::{PtrWord, State, pack, unpack};
