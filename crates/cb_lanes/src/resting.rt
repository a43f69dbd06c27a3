//! A lane's pins are given back after its last line.

ghost use Rattle.std.specs.Prelude.{◌≡◌, ◌+◌, ◌<◌, ◌≤◌, ℕ, List, ◌∷◌, length, slice_index, IfOk};
ghost use Rattle.cb_world.specs.Seats.{pins_of_seat};
ghost use Rattle.cb_world.specs.World.{WorldState, IsSoundWorld};
ghost use Rattle.cb_lanes.specs.GivingBack.{GivesAll, Rests, lines_by};
ghost use Rattle.cb_lanes.specs.LinesLeft.{AreLanes, AreLeft, lanes_of};

use cb_core::{Atomic, Event, step};
use cb_script::Line;
use cb_types::{Handle, NoMemory};
use cb_world::World;
use std::alloc::Global;

/// How many lanes there may be.
pub(crate) const LANES: usize = 16;

/// Gives all pins of a seat back, the newest one first, and answers how many there were. Takes no
/// memory, and at most 16 steps.
pub(crate) fn give_back(alloc: Global, world: &mut World, seat: u32) -> Result<u32, NoMemory>
    requires seat { seat < 64 }
    requires sound { IsSoundWorld world.old }
    ensures gives { IfOk result (λ pins. GivesAll seat world.old world.new) }
    ensures pins { IfOk result (λ pins. pins ≡ length (pins_of_seat world.old.seats seat)) }
    ensures sound { IsSoundWorld world.new }
{
    let count = world.seats.pins(seat).len() as u32;
    for _ in 0..count {
        give_newest(alloc, world, seat)?;
    }
    Ok(count)
}

/// Gives the newest pin of a seat back. Takes no memory.
fn give_newest(alloc: Global, world: &mut World, seat: u32) -> Result<(), NoMemory>
    requires seat { seat < 64 }
    requires some { 1 ≤ length (pins_of_seat world.old.seats seat) }
    requires sound { IsSoundWorld world.old }
    ensures gives { IfOk result (λ done. (end : WorldState) → GivesAll seat world.new end
        → GivesAll seat world.old end) }
    ensures fewer { IfOk result (λ done. length (pins_of_seat world.old.seats seat)
        ≡ length (pins_of_seat world.new.seats seat) + 1) }
    ensures sound { IsSoundWorld world.new }
{
    let pins = world.seats.pins(seat);
    let newest = pins[pins.len() - 1];
    let handle = Handle { n: newest.handle };
    let atomic = Atomic::Unpin { handle };
    step(alloc, world, &Event::Step { seat, atomic })?;
    Ok(())
}

/// After a line of the seat's lane that has so many lines yet to come: where there is none, its
/// pins are given back.
pub(crate) fn rest(alloc: Global, world: &mut World, seat: u32, left: u32) -> Result<(), NoMemory>
    requires seat { seat < 64 }
    requires sound { IsSoundWorld world.old }
    ensures rests { IfOk result (λ done. Rests left seat world.old world.new) }
    ensures sound { IsSoundWorld world.new }
{
    if left == 0 {
        give_back(alloc, world, seat)?;
    }
    Ok(())
}

/// How many lines each lane has.
pub(crate) fn lines_by_lane(lines: &[Line]) -> [u32; LANES]
    requires lanes { AreLanes (lanes_of lines.now) }
    requires few { length lines.now ≤ 20000 }
    ensures left { AreLeft (lanes_of lines.now) result }
{
    let mut left = [0; LANES];
    for line in lines {
        left[usize::from(line.lane.n)] += 1;
    }
    left
}

/// Takes a line of a lane from the lines that are left, and answers how many the lane has left.
pub(crate) fn take_line(left: &mut [u32; LANES], lane: u8) -> u32
    requires lane { lane < 16 }
    requires some { 1 ≤ slice_index left.old lane }
    ensures left { (later : List ℕ) → AreLeft (lane ∷ later) left.old
        → AreLeft later left.new × (result ≡ lines_by lane later) }
{
    let count = left[usize::from(lane)] - 1;
    left[usize::from(lane)] = count;
    count
}
