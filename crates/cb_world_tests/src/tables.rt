//! What is done on one thread: tables of calls and of what they tell.
use crate::asking::{Asks, Between, By, Call, Deed};
use crate::bodies::{Body, Course};
use crate::told::{Number, Plain, Told};
use cb_types::NoMemory;

/// The number of an object, who calls, a call on it, one byte for a write, and what the call is to
/// tell.
pub(crate) type Line = (usize, By, Call, u8, Told);

/// Nothing is done.
static NONE: [Line; 0] = [];

/// Of two passes. While the second one has a pin, a write and an eviction are refused; then the
/// object is written, and the second pass is taken in with a pin of what was written.
static TWO_PASSES: [Line; 5] = [
    (
        0,
        By::Second,
        Call::Look,
        0,
        Told::Bytes {
            version: 1,
            len: 1,
            word: 1,
        },
    ),
    (
        0,
        By::Beside,
        Call::WriteHere,
        2,
        Told::Count(Number::Pinned, 1),
    ),
    (
        0,
        By::Beside,
        Call::Turn(Deed::Evict),
        0,
        Told::Count(Number::NoSpans, 0),
    ),
    (
        0,
        By::Itself,
        Call::WriteHere,
        2,
        Told::Count(Number::Version, 2),
    ),
    (
        0,
        By::Second,
        Call::Hold,
        0,
        Told::Bytes {
            version: 2,
            len: 1,
            word: 2,
        },
    ),
];

/// Calls that try again.
static CALLS: [Line; 7] = [
    (
        0,
        By::Itself,
        Call::Read,
        0,
        Told::Bytes {
            version: 1,
            len: 2,
            word: 0x201,
        },
    ),
    (
        0,
        By::Itself,
        Call::Write,
        3,
        Told::Count(Number::Version, 2),
    ),
    (
        0,
        By::Itself,
        Call::Read,
        0,
        Told::Bytes {
            version: 2,
            len: 2,
            word: 0x203,
        },
    ),
    (
        0,
        By::Itself,
        Call::Free,
        0,
        Told::Count(Number::Version, 3),
    ),
    (0, By::Itself, Call::Read, 0, Told::Just(Plain::Freed)),
    (0, By::Itself, Call::Look, 0, Told::Just(Plain::Freed)),
    (0, By::Itself, Call::WriteHere, 0, Told::Just(Plain::Freed)),
];

/// The first of two objects is moved to a span of its own.
const FILTERED: Line = (
    0,
    By::Itself,
    Call::Turn(Deed::Filter),
    0,
    Told::Just(Plain::Moved),
);

/// Both leave, and the nodes crash on which they are.
static LOST: [Line; 4] = [
    FILTERED,
    (
        0,
        By::Itself,
        Call::Turn(Deed::Evict),
        0,
        Told::Count(Number::Set, 0),
    ),
    (
        0,
        By::Itself,
        Call::Turn(Deed::Crash(0)),
        0,
        Told::Count(Number::Epoch, 1),
    ),
    (
        0,
        By::Itself,
        Call::Turn(Deed::Crash(1)),
        0,
        Told::Count(Number::Epoch, 2),
    ),
];

/// Both are read back.
static READS: [Line; 2] = [
    (
        0,
        By::Itself,
        Call::Turn(Deed::Read),
        0,
        Told::Bytes {
            version: 1,
            len: 2,
            word: 0x0b0a,
        },
    ),
    (
        1,
        By::Itself,
        Call::Turn(Deed::Read),
        0,
        Told::Bytes {
            version: 1,
            len: 1,
            word: 0x0c,
        },
    ),
];

/// An order, between whose turns a second pass makes none.
const ALONE: By = By::Between((None, None));

/// The rows of a batch are put one after another.
const FIRST: Line = (
    0,
    By::Itself,
    Call::Turn(Deed::Ship),
    0,
    Told::Count(Number::Shipped, 0),
);

const SECOND: Line = (
    0,
    By::Itself,
    Call::Turn(Deed::Ship),
    0,
    Told::Count(Number::Shipped, 1),
);

const THIRD: Line = (
    0,
    By::Itself,
    Call::Turn(Deed::Ship),
    0,
    Told::Count(Number::Shipped, 2),
);

const FOURTH: Line = (
    0,
    By::Itself,
    Call::Turn(Deed::Ship),
    0,
    Told::Count(Number::Shipped, 3),
);

/// A batch gets its parities by an order, is shipped and committed.
static BATCH: [Line; 7] = [
    FILTERED,
    (0, ALONE, Call::Install, 0, Told::Just(Plain::Done)),
    FIRST,
    SECOND,
    THIRD,
    FOURTH,
    (
        0,
        By::Itself,
        Call::Turn(Deed::Commit),
        0,
        Told::Count(Number::Set, 0),
    ),
];

/// A second pass gives the batch up.
const ABORTED: Between = (Some((0, Deed::Abort, Told::Just(Plain::Done))), None);

/// And begins the next one.
const BEGUN_ANEW: Between = (
    Some((0, Deed::Abort, Told::Just(Plain::Done))),
    Some((0, Deed::Begin, Told::Count(Number::Batch, 2))),
);

/// It makes turns that leave the batch as it is.
const FILTERS: Between = (
    Some((0, Deed::Filter, Told::Just(Plain::Later))),
    Some((0, Deed::Rebuild, Told::Just(Plain::Whole))),
);

/// The order of a batch that was given up is not installed, nor where another one is leaving; where
/// other turns were made, it is.
static BATCHES: [Line; 10] = [
    FILTERED,
    (
        0,
        By::Between(ABORTED),
        Call::Install,
        0,
        Told::Just(Plain::NoBatch),
    ),
    (
        0,
        By::Between(BEGUN_ANEW),
        Call::Install,
        0,
        Told::Count(Number::Changed, 1),
    ),
    (
        0,
        By::Itself,
        Call::Turn(Deed::Abort),
        0,
        Told::Just(Plain::Done),
    ),
    (
        0,
        By::Between(FILTERS),
        Call::Install,
        0,
        Told::Just(Plain::Done),
    ),
    FIRST,
    SECOND,
    THIRD,
    FOURTH,
    (
        0,
        By::Itself,
        Call::Turn(Deed::Commit),
        0,
        Told::Count(Number::Set, 3),
    ),
];

/// The rows of an object are handed out, and no more.
static FETCH: [Line; 1] = [(0, By::Itself, Call::Fetch, 0, Told::Just(Plain::Fetched))];

/// Its row is made again by an order, and landed.
static LAND: [Line; 1] = [(0, ALONE, Call::Land, 0, Told::Just(Plain::Swapped))];

/// So, where a second pass makes the row again too.
const REBUILT: Between = (
    Some((0, Deed::Rebuild, Told::Just(Plain::Whole))),
    Some((1, Deed::Filter, Told::Just(Plain::Stays))),
);

static REBUILD: [Line; 1] = [(
    0,
    By::Between(REBUILT),
    Call::Land,
    0,
    Told::Just(Plain::Swapped),
)];

/// But not where it frees both objects, with which their set is gone.
const FREED: Between = (
    Some((1, Deed::Free, Told::Count(Number::Version, 2))),
    Some((0, Deed::Free, Told::Count(Number::Version, 2))),
);

static FREES: [Line; 1] = [(
    0,
    By::Between(FREED),
    Call::Land,
    0,
    Told::Count(Number::Changed, 0),
)];

/// Nor where a third node crashes.
const CRASHED: Between = (
    Some((0, Deed::Crash(2), Told::Count(Number::Epoch, 3))),
    None,
);

static LOSES: [Line; 1] = [(
    0,
    By::Between(CRASHED),
    Call::Land,
    0,
    Told::Just(Plain::Lost),
)];

/// The object is freed, and another one keeps its position live; and a third node crashes.
const STRAYED: Between = (
    Some((1, Deed::Free, Told::Count(Number::Version, 2))),
    Some((1, Deed::Crash(2), Told::Count(Number::Epoch, 3))),
);

/// The landing tells what its set lacks; the object itself is freed, and no call on it tells that it
/// was unavailable. The other one is.
static STRAYS: [Line; 4] = [
    (
        1,
        By::Between(STRAYED),
        Call::Land,
        0,
        Told::Just(Plain::Lost),
    ),
    (
        1,
        By::Itself,
        Call::Turn(Deed::Read),
        0,
        Told::Just(Plain::Freed),
    ),
    (1, By::Itself, Call::Read, 0, Told::Just(Plain::Freed)),
    (2, By::Itself, Call::Read, 0, Told::Just(Plain::Lost)),
];

/// The end of the versions.
static WEARS: [Line; 3] = [
    (
        0,
        By::Itself,
        Call::WriteHere,
        2,
        Told::Count(Number::Version, u64::MAX),
    ),
    (0, By::Itself, Call::WriteHere, 3, Told::Just(Plain::Worn)),
    (0, By::Itself, Call::Free, 0, Told::Just(Plain::Worn)),
];

/// One pin of an object, and one more than the pass may have.
const PIN: Line = (
    0,
    By::Itself,
    Call::Hold,
    0,
    Told::Bytes {
        version: 1,
        len: 1,
        word: 1,
    },
);

static PINS: [Line; 16] = [PIN; 16];

static FILLS: [Line; 2] = [
    (0, By::Itself, Call::Hold, 0, Told::Just(Plain::Full)),
    (0, By::Itself, Call::Leave, 0, Told::Just(Plain::Left)),
];

/// Whether each line is answered so.
fn are_answered<A: Asks>(asked: &mut A, rows: &[Line]) -> Result<bool, NoMemory>
    requires { A.keeps asked.old asked.old }
    ensures { A.keeps asked.old asked.new }
{
    let mut all = true;
    for row in rows {
        let (object, by, call, byte, wanted) = *row;
        let told = asked.ask(object, by, call, &[byte])?;
        all &= told == wanted;
    }
    Ok(all)
}

/// What is done with the objects: two tables, one after the other.
fn tables_of(body: Body) -> (&'static [Line], &'static [Line]) {
    match body {
        Body::TwoPasses => (&TWO_PASSES, &NONE),
        Body::Calls => (&CALLS, &NONE),
        Body::Crashes => (&LOST, &READS),
        Body::Wears => (&WEARS, &NONE),
        Body::Fills => (&PINS, &FILLS),
        Body::Order(Course::Batch) => (&BATCH, &NONE),
        Body::Order(Course::Batches) => (&BATCHES, &NONE),
        Body::Order(Course::Fetch) => (&LOST, &FETCH),
        Body::Order(Course::Land) => (&LOST, &LAND),
        Body::Order(Course::Rebuild) => (&LOST, &REBUILD),
        Body::Order(Course::Frees) => (&LOST, &FREES),
        Body::Order(Course::Loses) => (&LOST, &LOSES),
        Body::Order(Course::Strays) => (&LOST, &STRAYS),
        Body::Values | Body::Crew(_) => (&NONE, &NONE),
    }
}

/// Whether each line of both tables is answered so.
pub(crate) fn are_both_answered<A: Asks>(asked: &mut A, body: Body) -> Result<bool, NoMemory>
    requires { A.keeps asked.old asked.old }
    ensures { A.keeps asked.old asked.new }
{
    let (first, then) = tables_of(body);
    let is_first = are_answered(asked, first)?;
    let is_then = are_answered(asked, then)?;
    Ok(is_first && is_then)
}
