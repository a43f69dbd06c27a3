//! A turn as the record keeps it.

use cb_types::{Job, Kept, Reply};
use cb_world::{Access, Entry, Far, Shown};

/// A turn under the far lock. No value of it is made; contracts read its arrays as lists of any
/// length.
pub struct Turn {
    pub job: Job,
    /// None where there was no memory.
    pub reply: Option<Reply>,
    /// What was known when it began.
    pub start: Shown,
    /// How many entries the history had when it began, and when it ended.
    pub since: u64,
    pub until: u64,
    /// The entries that its view had as written when it began, and when it ended.
    pub had: [Entry; 0],
    pub left: [Entry; 0],
    /// Those that the view had when the turn before it ended, or when it last took another view in,
    /// and how many entries the history had when that turn ended.
    pub old: [Entry; 0],
    pub ended: u64,
    /// The first one first.
    pub acts: [Access; 0],
    /// The orders that its seat kept before it and after it.
    pub order: Option<Kept>,
    pub keeps: Option<Kept>,
    /// The far states that it took and gave.
    pub took: Far,
    pub gave: Far,
}
