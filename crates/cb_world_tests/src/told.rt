//! What calls are answered, as the tests compare it.
use cb_shared::WriteAnswer;
use cb_types::{NoMemory, Reply};

/// What a number is that a call tells.
#[derive(Clone, Copy, PartialEq, Eq)]
pub(crate) enum Number {
    /// The object was written or freed, and has this version.
    Version,
    /// So many pins are in the way.
    Pinned,
    /// Spans left as the set with this number.
    Set,
    /// So many spans are loose, which are too few.
    NoSpans,
    /// A batch with this number began.
    Batch,
    /// The row of this position was put.
    Shipped,
    /// The set with this number is another one, or is gone.
    Changed,
    Epoch,
}

/// What a call tells without a number.
#[derive(Clone, Copy, PartialEq, Eq)]
pub(crate) enum Plain {
    /// Two words of the object differ.
    Torn,
    Freed,
    Worn,
    Moved,
    /// The object is far, or no span is better for it.
    Stays,
    Done,
    NoBatch,
    /// An order was handed out.
    Fetched,
    Swapped,
    /// The set has lost too many shards.
    Lost,
    /// A row was made again, or none was lost.
    Whole,
    /// The pass has as many pins as it may have.
    Full,
    /// A pass was left out.
    Left,
    /// What other threads do is in the way.
    Later,
    /// Anything else.
    Other,
}

/// What a step of a seat of a world tells, a make there, or a look at a word.
#[derive(Clone, Copy, PartialEq, Eq)]
pub(crate) enum Step {
    /// The object with this handle was made, at the first version.
    Made,
    /// A pointer word, or a memory word.
    Word,
    Place,
    Claimed,
    NotClaimed,
    /// So many words of the seat's open write are left.
    Stored,
    NotStored,
    /// The seat with this number holds the far lock.
    Held,
    NotHeld,
    NotPinned,
    Unmade,
}

/// What a call was answered. An enum of few variants, since its comparison is proved for all pairs.
#[derive(Clone, Copy, PartialEq, Eq)]
pub(crate) enum Told {
    Count(Number, u64),
    Just(Plain),
    /// With 0 where there is no number.
    Step(Step, u64),
    /// The object's version, its length, and the word that each eight of its bytes are.
    Bytes { version: u64, len: usize, word: u64 },
}

/// An object with these bytes.
fn shown(version: u64, bytes: &[u8]) -> Told {
    let mut first = [0u8; 8];
    for i in 0..bytes.len() {
        if i < 8 {
            first[i] = bytes[i];
        } else if bytes[i] != first[i % 8] {
            return Told::Just(Plain::Torn);
        }
    }
    Told::Bytes {
        version,
        len: bytes.len(),
        word: u64::from_le_bytes(first),
    }
}

/// What a call tells that was so answered.
pub(crate) fn told_by(reply: Result<Reply, NoMemory>) -> Result<Told, NoMemory> {
    match reply {
        Ok(reply) => Ok(told_of(&reply)),
        Err(e) => Err(e),
    }
}

/// What a reply tells.
pub(crate) fn told_of(reply: &Reply) -> Told {
    match reply {
        Reply::Version { version } => Told::Count(Number::Version, *version),
        Reply::Bytes { version, bytes } => shown(*version, bytes.as_slice()),
        Reply::Freed => Told::Just(Plain::Freed),
        Reply::Worn => Told::Just(Plain::Worn),
        Reply::Pinned { count } => Told::Count(Number::Pinned, u64::from(*count)),
        Reply::Moved => Told::Just(Plain::Moved),
        Reply::Same | Reply::NotHere | Reply::NoSlot { .. } => Told::Just(Plain::Stays),
        Reply::Set { set } => Told::Count(Number::Set, set.n),
        Reply::NoSpans { loose } => Told::Count(Number::NoSpans, u64::from(*loose)),
        Reply::Batch { set } => Told::Count(Number::Batch, set.n),
        Reply::Shipped { position } => Told::Count(Number::Shipped, u64::from(*position)),
        Reply::Done => Told::Just(Plain::Done),
        Reply::NoBatch => Told::Just(Plain::NoBatch),
        Reply::Changed { set } => Told::Count(Number::Changed, set.n),
        Reply::Swapped { .. } => Told::Just(Plain::Swapped),
        Reply::Unavailable { .. } => Told::Just(Plain::Lost),
        Reply::EpochAt { epoch } => Told::Count(Number::Epoch, epoch.n),
        Reply::Rebuilt { .. } | Reply::Whole { .. } => Told::Just(Plain::Whole),
        Reply::Moving => Told::Just(Plain::Later),
        Reply::Made { handle, version: 1 } => Told::Step(Step::Made, u64::from(handle.n)),
        Reply::Word { word } => Told::Step(Step::Word, *word),
        Reply::Claimed => Told::Step(Step::Claimed, 0),
        Reply::NotClaimed => Told::Step(Step::NotClaimed, 0),
        Reply::Stored { left } => Told::Step(Step::Stored, u64::from(*left)),
        Reply::NotStored { left } => Told::Step(Step::NotStored, u64::from(*left)),
        Reply::Held { seat } => Told::Step(Step::Held, u64::from(*seat)),
        Reply::NotHeld => Told::Step(Step::NotHeld, 0),
        Reply::NotPinned => Told::Step(Step::NotPinned, 0),
        Reply::Unmade => Told::Step(Step::Unmade, 0),
        _ => Told::Just(Plain::Other),
    }
}

/// Whether a reply shows these bytes at the first version.
pub(crate) fn shows(reply: &Reply, wanted: &[u8]) -> bool {
    match reply {
        Reply::Bytes { version, bytes } => *version == 1 && bytes.as_slice() == wanted,
        _ => false,
    }
}

/// What a write in place tells.
pub(crate) fn told_of_write(answer: WriteAnswer) -> Told {
    match answer {
        WriteAnswer::Ok { version } => Told::Count(Number::Version, version),
        WriteAnswer::Freed => Told::Just(Plain::Freed),
        WriteAnswer::Worn => Told::Just(Plain::Worn),
        WriteAnswer::Pinned { count } => Told::Count(Number::Pinned, u64::from(count)),
        WriteAnswer::Moving | WriteAnswer::Raced { .. } => Told::Just(Plain::Later),
        WriteAnswer::NotHere | WriteAnswer::Range { .. } => Told::Just(Plain::Other),
    }
}

/// What a call told, where the words under another pass's pin were one version before it and after.
pub(crate) fn told_while(
    before: Told,
    told: Result<Told, NoMemory>,
    behind: Told,
) -> Result<Told, NoMemory> {
    if before == Told::Just(Plain::Torn) || before != behind {
        return Ok(Told::Just(Plain::Torn));
    }
    told
}
