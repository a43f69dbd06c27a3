//! What is timed.

/// Turns that are made one after another, again and again, with coding work in them.
#[derive(Clone, Copy)]
pub(crate) enum Round {
    /// A batch begins to leave with its parities, and is given up.
    Begin,
    /// It begins to leave without them, gets them of an order that is run under no lock, and is
    /// given up.
    Gather,
    /// Spans leave, lose their shards and come in by swaps.
    Swap,
    /// They come in by orders that are run under no lock.
    Fetch,
}

/// What is timed.
#[derive(Clone, Copy)]
pub(crate) enum Deed {
    /// A pin, which is given back.
    Pin,
    /// A pin, a peek, and the pin is given back.
    Look,
    /// The words of an object under one pin.
    Peek,
    /// A write in place of eight bytes.
    WriteShort,
    /// A write in place of 1,024 bytes.
    WriteLong,
    /// A read of an object that is here.
    Read,
    /// A read of an object that is far.
    ReadFar,
    /// A turn that finds nothing to do.
    Turn,
    /// A read of an object whose batch is leaving, until that is given up.
    Await,
    /// The batch, which is held for a while and then given up.
    Hold,
    /// A write of eight bytes of an object that is here, by the call that tries again.
    Write,
    /// The number of an array at an index.
    Get,
    /// A number in the place of the one at an index.
    Set,
    /// A number after the last one of an array, into an object that it has.
    Push,
    /// The last number of an array.
    Pop,
    /// The number of a key of a map, in a bucket of one object.
    MapLook,
    /// A number in the place of the one that a key has there.
    MapPut,
    /// The turns of a round whose coding work is timed, on a thread alone.
    Alone(Round),
    /// Turns that find nothing to do, beside a thread that makes rounds.
    Beside(Round),
    /// The rounds of the one thread there.
    Rounds(Round),
    /// The turns of the other.
    Idle,
    /// A read in a still world of an object that is here.
    StepRead,
    /// A read in a still world of an object that is far.
    StepFar,
}

/// What a word names.
pub(crate) fn deed_of(word: &str) -> Option<Deed> {
    match word {
        "pin" => Some(Deed::Pin),
        "look" => Some(Deed::Look),
        "peek" => Some(Deed::Peek),
        "write8" => Some(Deed::WriteShort),
        "write1024" => Some(Deed::WriteLong),
        "read" => Some(Deed::Read),
        "far" => Some(Deed::ReadFar),
        "turn" => Some(Deed::Turn),
        "waiting" => Some(Deed::Await),
        "write" => Some(Deed::Write),
        "get" => Some(Deed::Get),
        "set" => Some(Deed::Set),
        "push" => Some(Deed::Push),
        "pop" => Some(Deed::Pop),
        "maplook" => Some(Deed::MapLook),
        "mapput" => Some(Deed::MapPut),
        "begin" => Some(Deed::Alone(Round::Begin)),
        "gather" => Some(Deed::Alone(Round::Gather)),
        "swap" => Some(Deed::Alone(Round::Swap)),
        "fetch" => Some(Deed::Alone(Round::Fetch)),
        "besidebegin" => Some(Deed::Beside(Round::Begin)),
        "besidegather" => Some(Deed::Beside(Round::Gather)),
        "besideswap" => Some(Deed::Beside(Round::Swap)),
        "besidefetch" => Some(Deed::Beside(Round::Fetch)),
        "stepread" => Some(Deed::StepRead),
        "stepfar" => Some(Deed::StepFar),
        _ => None,
    }
}

/// How many calls a slice has: some milliseconds of them, in which the start of a thread is little.
/// Those of a peek are in rounds over the words of an object. Of rounds a slice has as many as there
/// is time for; its time is told as that of so many.
pub(crate) fn calls_of(deed: Deed) -> u32 {
    match deed {
        Deed::Pin | Deed::Look | Deed::WriteShort | Deed::Write => 200_000,
        Deed::Get | Deed::Set | Deed::Push | Deed::Pop | Deed::MapLook | Deed::MapPut => 40_960,
        Deed::Peek => 6_400_000,
        Deed::WriteLong => 10_000,
        Deed::Read | Deed::StepRead | Deed::Turn => 40_000,
        Deed::ReadFar | Deed::StepFar => 500,
        Deed::Alone(_) => 1_000,
        Deed::Beside(_) | Deed::Rounds(_) | Deed::Idle | Deed::Await | Deed::Hold => 1,
    }
}

/// What the threads do that work on one object, the first one and the others: one holds a batch for
/// which the others wait, or makes rounds beside which they make turns.
pub(crate) fn deed_at(deed: Deed, thread: u32) -> Deed {
    match deed {
        Deed::Await if thread == 0 => Deed::Hold,
        Deed::Beside(round) if thread == 0 => Deed::Rounds(round),
        Deed::Beside(_) => Deed::Idle,
        _ => deed,
    }
}

/// How many threads work on one object.
pub(crate) fn threads_of(deed: Deed, threads: u32) -> u32 {
    match deed {
        Deed::Await => threads.saturating_add(1),
        Deed::Beside(_) => 2,
        _ => 1,
    }
}
