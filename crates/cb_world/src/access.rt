//! What is done at a desk, or found there.

/// What is done at a desk, or found there. No value of it is made: contracts tell a call by the
/// list of its events, the first one first, and read a field that is an array as a list of any
/// length. Objects are named by handle, places and words are those of local memory, of eight bytes
/// each.
pub enum Access {
    /// The pointer word of an object was found, by a look or by a claim that was raced.
    Looked {
        handle: u32,
        word: u64,
    },
    /// The object was claimed at this word, with its version and the words of its contents.
    Claimed {
        handle: u32,
        word: u64,
        version: u64,
        words: [u64; 0],
    },
    /// The version word of an object was read.
    Told {
        handle: u32,
        version: u64,
    },
    /// A memory word was read.
    Loaded {
        place: u32,
        word: u64,
    },
    /// A memory word was stored.
    Stored {
        place: u32,
        word: u64,
    },
    /// The version word of an object was stored.
    Stamped {
        handle: u32,
        version: u64,
    },
    /// The pointer word of an object was stored.
    Settled {
        handle: u32,
        word: u64,
    },
}
