//! Pins of a seat in a world on one thread.

ghost use Rattle.std.specs.Prelude.{◌≡◌, ◌<◌, length, Some};
ghost use Rattle.cb_core.specs.Pinning.{PinStep, UnpinStep};
ghost use Rattle.cb_world.specs.World.{ArePinned};

use cb_ptr::{State, unpack};
use cb_types::{Handle, Reply};
use cb_world::{MOST_PINS, SeatPin, World};

/// The most pins that a word can count.
const MOST_ON_A_WORD: u32 = 1023;

/// Pins an object for a seat: the object stays where it is until the pin is given back. Takes no
/// memory.
///
/// Refuses with ScopeFull where the seat has 16 pins, then with Unmade, Freed, NotHere or Moving
/// where the object is not here, and with Crowded where it has 1,023 pins. Else answers its
/// version.
pub(crate) fn pin(world: &mut World, seat: u32, h: Handle) -> Reply
    requires seat { seat < 64 }
    requires handle { h.n < world.old.desk.settings.handles }
    requires pinned { ArePinned world.old.desk world.old.seats }
    requires sized { length world.old.desk.words ≡ world.old.desk.settings.handles }
    ensures step { PinStep seat h.n world.old result world.new }
{
    if world.seats.pins(seat).len() == MOST_PINS {
        return Reply::ScopeFull;
    }
    let fields = unpack(world.desk.look(h));
    let version = world.desk.tell(h);
    match fields.state {
        State::Empty if version == 0 => Reply::Unmade,
        State::Empty => Reply::Freed,
        State::Far => Reply::NotHere,
        State::Moving => Reply::Moving,
        State::Here if fields.pins == MOST_ON_A_WORD => Reply::Crowded,
        State::Here => {
            world.desk.pin(h);
            world.seats.add(
                seat,
                SeatPin {
                    handle: h.n,
                    version,
                },
            );
            Reply::Version { version }
        }
    }
}

/// Gives a seat's newest pin on an object back. Takes no memory. Refuses with NotPinned where the
/// seat has none.
pub(crate) fn unpin(world: &mut World, seat: u32, h: Handle) -> Reply
    requires seat { seat < 64 }
    requires handle { h.n < world.old.desk.settings.handles }
    requires pinned { ArePinned world.old.desk world.old.seats }
    requires sized { length world.old.desk.words ≡ world.old.desk.settings.handles }
    ensures step { UnpinStep seat h.n world.old result world.new }
{
    let Some(at) = world.seats.newest(seat, h.n) else {
        return Reply::NotPinned;
    };
    world.seats.remove(seat, at);
    world.desk.unpin(h);
    Reply::Done
}
