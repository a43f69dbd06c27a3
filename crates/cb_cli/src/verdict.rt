//! What a command makes of the bytes that were taken.

use crate::pieces::Pieces;
use cb_types::Bytes;

/// What a command makes of the bytes that were taken.
#[derive(Drop)]
pub enum Verdict {
    /// They are done with, and this text is due.
    Done(Pieces),
    /// They are refused, and this text tells where and why.
    Refused(Bytes),
}
