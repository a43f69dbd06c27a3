//! What syndromes tell.

/// What the syndromes of rows tell.
#[derive(Clone, Copy, Debug, PartialEq, Eq)]
pub enum Found {
    /// The rows are a code word.
    Clean,
    /// The row at this position alone is wrong: some code word agrees with all others.
    One { position: u32 },
    /// The rows are no code word, and no one row can be told to be wrong: the first syndrome that
    /// is not 0, in the least column and there of the least power.
    Many { power: u32, column: u32, sum: u8 },
}
