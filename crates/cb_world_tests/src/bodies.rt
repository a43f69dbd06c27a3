//! What each test makes and does.
ghost use Rattle.std.specs.Prelude.{◌≤◌};

use crate::making::Way;

/// The most bytes of an object.
pub(crate) const MOST: usize = 1024;

/// How many objects the threads share.
pub(crate) const OBJECTS: usize = 4;

/// What the threads do.
#[derive(Clone, Copy)]
pub(crate) enum Work {
    /// Pins and writes of objects that are here.
    Here,
    /// Reads, writes and frees beside turns that move objects.
    Far,
}

/// What comes of an order between the two turns that it is for.
#[derive(Clone, Copy)]
pub(crate) enum Course {
    /// A batch gets its parities by one.
    Batch,
    /// So, where a second pass gives the batch up, begins another one, or makes other turns.
    Batches,
    /// One to make a row again is left.
    Fetch,
    /// An object is brought in by one.
    Land,
    /// So, while a second pass makes the row again.
    Rebuild,
    /// So, while it frees the objects of the set.
    Frees,
    /// So, while the set loses too many shards.
    Loses,
    /// So, while the object is freed, another one keeps its position, and the set loses too many.
    Strays,
}

/// What is done with a runtime in which nothing was made.
#[derive(Clone, Copy)]
pub(crate) enum Body {
    TwoPasses,
    Calls,
    Crashes,
    Wears,
    /// A pass takes all the pins that it may have, and another one is left out.
    Fills,
    /// A far array and a far map have objects of their own.
    Values,
    /// Of objects that left in one set, or are to, the rows are coded outside of the far lock.
    Order(Course),
    Crew(Work),
}

/// How its objects are made, and what stands at the end.
#[derive(Clone, Copy)]
pub(crate) struct Plan {
    pub(crate) way: Way,
    /// The version at which they are made.
    pub(crate) version: u64,
    pub(crate) count: usize,
    /// How many rows were given out, where that is fixed.
    pub(crate) given: Option<u64>,
    /// The share of the first pass.
    pub(crate) share: u32,
}

pub(crate) fn plan_of(body: Body) -> Plan {
    let way = match body {
        Body::Calls | Body::Crew(_) => Way::Call,
        _ => Way::Turn,
    };
    let version = match body {
        Body::Wears => u64::MAX - 1,
        _ => 1,
    };
    let share = match body {
        Body::Fills => 63,
        _ => 64,
    };
    let (count, given) = match body {
        Body::Crew(_) => (OBJECTS, None),
        Body::Values => (1, None),
        Body::Crashes | Body::Order(Course::Rebuild) => (2, Some(4)),
        Body::Order(Course::Batch | Course::Batches) => (2, Some(0)),
        Body::Order(Course::Strays) => (3, Some(2)),
        Body::Order(_) => (2, Some(2)),
        _ => (1, Some(0)),
    };
    Plan {
        way,
        version,
        count,
        given,
        share,
    }
}

/// The length of an object that threads share: each one lies in a span of its own.
pub(crate) fn len_shared(i: usize) -> usize
    ensures { (1 ≤ result) × (result ≤ 1024) }
{
    match i {
        0 => 1024,
        1 => 512,
        2 => 96,
        _ => 8,
    }
}

/// The length of an object, and its bytes up to the most: two, after which there are zeros.
pub(crate) fn bytes_of(body: Body, i: usize) -> (usize, [u8; MOST])
    ensures { (1 ≤ result.0) × (result.0 ≤ 1024) }
{
    let (len, first, second) = match body {
        Body::Crew(_) => (len_shared(i), 0, 0),
        Body::Calls => (2, 1, 2),
        Body::Crashes | Body::Order(_) if i == 0 => (2, 10, 11),
        Body::Crashes | Body::Order(_) => (1, 12, 0),
        _ => (1, 1, 2),
    };
    let mut bytes = [0u8; MOST];
    bytes[0] = first;
    bytes[1] = second;
    (len, bytes)
}
