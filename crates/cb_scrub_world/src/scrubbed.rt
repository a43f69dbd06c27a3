//! What the scrub of a set answers.

use cb_scrub::Found;
use cb_types::SetId;

/// What a scrub of the next set answers.
#[derive(Clone, Copy, Debug, PartialEq, Eq)]
pub enum Scrubbed {
    /// There is no further committed set.
    Done,
    /// So many shards of the set are lost; it was not examined.
    Skipped { set: SetId, lost: u32 },
    /// All rows of the set were examined.
    Set { set: SetId, found: Found },
}
