//! How a call on a world ends, as a number for C.

ghost use Rattle.std.specs.Prelude.{◌≡◌, ◌+◌};
ghost use Rattle.cb_types.specs.Config.{place};
ghost use Rattle.carbink_c.specs.Outcome.{outcome_number};

use cb_types::Field;

/// How a call on a world ends.
#[derive(Clone, Copy)]
pub enum Outcome {
    /// The call did its work.
    Done,
    /// The buffer for a reply's bytes has fewer than 4,096.
    BadBuffer,
    /// There was no memory.
    NoMemory,
    /// The handle holds no world.
    NoWorld,
    /// The handle holds a world already.
    HasWorld,
    /// There is no such verb.
    BadVerb,
    /// Seats are numbered below 64.
    BadSeat,
    /// The handle, the node or the number of bytes is none that the verb takes.
    BadArgument,
    /// A size of the world is out of its range; which is the first.
    BadSize(Field),
}

impl Outcome {
    /// The number by which C knows it. Those of `Status` that it shares have the same number.
    pub fn number(self) -> u32
        ensures { result ≡ outcome_number self }
    {
        match self {
            Outcome::Done => 0,
            Outcome::BadBuffer => 3,
            Outcome::NoMemory => 5,
            Outcome::NoWorld => 6,
            Outcome::HasWorld => 7,
            Outcome::BadVerb => 8,
            Outcome::BadSeat => 9,
            Outcome::BadArgument => 10,
            Outcome::BadSize(field) => 16 + place_of(field),
        }
    }
}

/// The place of a field among the fields.
fn place_of(field: Field) -> u32
    ensures { result ≡ place field }
{
    match field {
        Field::K => 0,
        Field::R => 1,
        Field::Nodes => 2,
        Field::Frames => 3,
        Field::Room => 4,
        Field::Handles => 5,
        Field::Turns => 6,
    }
}
