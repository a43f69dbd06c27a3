//! Replies of turns and reads.
ghost use Rattle.std.specs.Prelude.{◌≡◌, true, Ok};
ghost use Rattle.cb_types.specs.declared.reply.Reply.{Reply};

use cb_types::{NoMemory, Reply};

/// Whether a reply is one that is waited for: an object was made, read or written, a set was put
/// away, a batch was begun or given up, a span came in, a node crashed or joined, no row was lost,
/// or no pair was joining.
pub(crate) fn is_right(reply: &Result<Reply, NoMemory>) -> bool
    ensures { result ≡ true → (r : Reply) × (reply.now ≡ Ok r) }
{
    matches!(
        reply,
        Ok(
            Reply::Made { .. }
                | Reply::Bytes { .. }
                | Reply::Version { .. }
                | Reply::Set { .. }
                | Reply::Batch { .. }
                | Reply::Done
                | Reply::Whole { .. }
                | Reply::Swapped { .. }
                | Reply::EpochAt { .. }
                | Reply::NoJoin
        )
    )
}

/// Whether a turn of Join found its node up.
pub(crate) fn finds_up(reply: &Result<Reply, NoMemory>) -> bool {
    matches!(reply, Ok(Reply::Up { .. }))
}
