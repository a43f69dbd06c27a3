//! What the seats of a world do, and what they are to be told: tables, and walks over them that
//! reach no type of a world.
use crate::bodies::MOST;
use crate::told::{Number, Plain, Step, Told};
use cb_types::{Handle, NoMemory};

/// What is done to an object, or looked at.
#[derive(Clone, Copy)]
pub(crate) enum Act {
    /// A turn that makes an object of the bytes that are given.
    Make,
    /// A turn that reads it.
    Read,
    /// A turn that reads it, Done where it shows the bytes that are given at the first version.
    Show,
    /// A turn that evicts.
    Evict,
    /// A step that reads its pointer word.
    Load,
    Pin,
    Unpin,
    /// A claim for a write of the byte ff, at the second byte.
    Claim,
    Store,
    Settle,
    Take,
    Give,
    /// Its place, its pointer word, its version word, and the memory word with the handle's number.
    Place,
    Word,
    Version,
    Memory,
}

/// The seats of a world. The tables walk over any such, so that their proofs do not reach its
/// types.
pub(crate) trait Acts {
    // More may be done.
    ghost may: { Self → Type 0 };

    /// What a seat does to an object; Other where there is none.
    fn act(&mut self, seat: u8, h: Handle, act: Act, bytes: &[u8]) -> Result<Told, NoMemory>
        requires { may self.old }
        ensures { may self.new };
}

/// The number of a seat below 64, what it does to the object with this handle, and what it is told.
pub(crate) type Row = (u8, u32, Act, Told);

/// The steps of two seats with an object of the bytes 0a 0b: a claim is refused beside the second
/// seat's pin, and a pin beside the claim; the write is settled after its last store; and the
/// second seat makes no turn while the first one holds the far lock.
pub(crate) static WRITES: [Row; 16] = [
    (0, 0, Act::Make, Told::Step(Step::Made, 0)),
    (1, 0, Act::Pin, VERSION),
    (0, 0, Act::Claim, Told::Count(Number::Pinned, 1)),
    (1, 0, Act::Unpin, DONE),
    (0, 0, Act::Claim, Told::Step(Step::Claimed, 0)),
    (1, 0, Act::Pin, Told::Just(Plain::Later)),
    (0, 0, Act::Store, Told::Step(Step::Stored, 1)),
    (0, 0, Act::Settle, Told::Step(Step::NotStored, 1)),
    (0, 0, Act::Store, Told::Step(Step::Stored, 0)),
    (0, 0, Act::Settle, Told::Count(Number::Version, 2)),
    (0, 0, Act::Settle, Told::Step(Step::NotClaimed, 0)),
    (0, 0, Act::Take, DONE),
    (1, 0, Act::Read, Told::Step(Step::Held, 0)),
    (1, 0, Act::Give, Told::Step(Step::NotHeld, 0)),
    (0, 0, Act::Give, DONE),
    (
        1,
        0,
        Act::Read,
        Told::Bytes {
            version: 2,
            len: 2,
            word: 0xff0a,
        },
    ),
];

/// The bytes of the object.
pub(crate) const WRITTEN: &[u8] = &[0x0a, 0x0b];

const DONE: Told = Told::Just(Plain::Done);

/// The first version.
const VERSION: Told = Told::Count(Number::Version, 1);

/// A turn evicts from the empty world, and a step looks at the first handle, pins it and gives back
/// a pin on it.
pub(crate) static ON_NOTHING: [Row; 4] = [
    (0, 0, Act::Evict, Told::Count(Number::NoSpans, 0)),
    (1, 0, Act::Load, Told::Step(Step::Word, 0)),
    (1, 0, Act::Pin, Told::Step(Step::Unmade, 0)),
    (1, 0, Act::Unpin, Told::Step(Step::NotPinned, 0)),
];

/// An object of nine bytes, its pointer word and its version word, and the first two memory words:
/// here, not hot, no pins, nine bytes, at place 0.
static OF_NINE_BYTES: [Row; 5] = [
    (0, 0, Act::Make, Told::Step(Step::Made, 0)),
    (0, 0, Act::Word, Told::Step(Step::Word, 2 + 9 * 8192)),
    (0, 0, Act::Version, VERSION),
    (
        0,
        0,
        Act::Memory,
        Told::Step(Step::Word, 0x0807_0605_0403_0201),
    ),
    (0, 1, Act::Memory, Told::Step(Step::Word, 9)),
];

/// What a test looks at in a world in which nothing was made.
#[derive(Clone, Copy)]
pub(crate) enum Case {
    /// The place and the bytes of the second of two objects of a length.
    Second { len: usize, place: u64 },
    /// The words of an object of nine bytes.
    Words,
    /// The replies of a run on nothing.
    OnNothing,
    /// The replies to the steps of open writes and of the far lock.
    Writes,
    /// The replies of a run of these.
    WritesInARun,
    /// An object that is read after a crash.
    Crash,
}

/// The least and the most bytes of each class, and the place after one slot of it.
pub(crate) static LENGTHS: [Case; 24] = [
    Case::Second { len: 1, place: 2 },
    Case::Second { len: 16, place: 2 },
    Case::Second { len: 17, place: 4 },
    Case::Second { len: 32, place: 4 },
    Case::Second { len: 33, place: 6 },
    Case::Second { len: 48, place: 6 },
    Case::Second { len: 49, place: 8 },
    Case::Second { len: 64, place: 8 },
    Case::Second { len: 65, place: 12 },
    Case::Second { len: 96, place: 12 },
    Case::Second { len: 97, place: 16 },
    Case::Second {
        len: 128,
        place: 16,
    },
    Case::Second {
        len: 129,
        place: 24,
    },
    Case::Second {
        len: 192,
        place: 24,
    },
    Case::Second {
        len: 193,
        place: 32,
    },
    Case::Second {
        len: 256,
        place: 32,
    },
    Case::Second {
        len: 257,
        place: 48,
    },
    Case::Second {
        len: 384,
        place: 48,
    },
    Case::Second {
        len: 385,
        place: 64,
    },
    Case::Second {
        len: 512,
        place: 64,
    },
    Case::Second {
        len: 513,
        place: 96,
    },
    Case::Second {
        len: 768,
        place: 96,
    },
    Case::Second {
        len: 769,
        place: 128,
    },
    Case::Second {
        len: 1024,
        place: 128,
    },
];

/// Whether each row is answered so, where objects are made of these bytes.
pub(crate) fn are_told<A: Acts>(seats: &mut A, rows: &[Row], bytes: &[u8]) -> Result<bool, NoMemory>
    requires { A.may seats.old }
    ensures { A.may seats.new }
{
    let mut all = true;
    for row in rows {
        let (seat, n, act, wanted) = *row;
        let told = seats.act(seat, Handle { n }, act, bytes)?;
        all &= told == wanted;
    }
    Ok(all)
}

/// Whether the second of two objects of so many bytes lies at the place, and reads back.
fn second_is_at<A: Acts>(seats: &mut A, len: usize, place: u64) -> Result<bool, NoMemory>
    requires { A.may seats.old }
{
    let mut all = [0u8; MOST];
    for i in 0..MOST {
        all[i] = (i % 255) as u8 + 1;
    }
    let rows = [
        (0, 0, Act::Make, Told::Step(Step::Made, 0)),
        (0, 0, Act::Make, Told::Step(Step::Made, 1)),
        (0, 1, Act::Show, DONE),
        (0, 1, Act::Place, Told::Step(Step::Place, place)),
    ];
    are_told(seats, &rows, all.get(..len).unwrap_or(&all))
}

/// Whether what the seats of a world are told is as it should be, one act after another.
pub(crate) fn is_told<A: Acts>(seats: &mut A, case: Case) -> Result<bool, NoMemory>
    requires { A.may seats.old }
{
    match case {
        Case::Second { len, place } => second_is_at(seats, len, place),
        Case::Words => are_told(seats, &OF_NINE_BYTES, &[1, 2, 3, 4, 5, 6, 7, 8, 9]),
        _ => are_told(seats, &WRITES, WRITTEN),
    }
}
