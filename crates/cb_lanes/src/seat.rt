//! The lane of a seat of a world, on one thread.
ghost use Rattle.std.specs.Prelude.{◌<◌, IfOk};
ghost use Rattle.cb_world.specs.World.{IsSoundWorld};
ghost use Rattle.cb_core.specs.Jobs.{IsJob, NeedsNoOrder};
ghost use Rattle.cb_core.specs.Events.{IsAtomic};
ghost use Rattle.cb_core.specs.Step.{AtomicStep, Step};
ghost use Rattle.cb_lanes.specs.LineStep.{CompactsAt, PeekStep, PinLine, TurnAt};
ghost use Rattle.cb_lanes.specs.LineStep.{goes_at};

use crate::caller::Caller;
use crate::compacting::compact_here;
use crate::resting::give_back;
use crate::side::Side;
use cb_core::{Atomic, Event, is_there, step};
use cb_mutate::read;
use cb_types::{Handle, Job, NoMemory, Reply};
use cb_world::World;
use std::alloc::Global;

/// Answers the lines of a seat of a world by events of this seat, where this side makes the
/// parities of each compaction.
#[derive(Clone, Copy)]
pub(crate) struct SeatCaller {
    pub side: Side,
    pub seat: u32,
}

impl Caller for SeatCaller {
    type State = World;

    ghost goes = { λ c. goes_at c.side c.seat };

    ghost stops = { λ c ask a b. Unit {0} };

    ghost well = { λ c w. (c.seat < 64) × IsSoundWorld w };

    ghost nodes = { λ c w. w.desk.settings.nodes };

    ghost may_name = { λ c w h. h < w.desk.settings.handles };

    fn turn(&self, alloc: Global, world: &mut World, job: Job) -> Result<Reply, NoMemory> {
        turn_at(alloc, world, self.side, self.seat, job)
    }

    fn pin(&self, alloc: Global, world: &mut World, handle: Handle) -> Result<Reply, NoMemory> {
        pin(alloc, world, self.seat, handle)
    }

    fn peek(&self, alloc: Global, world: &mut World, handle: Handle) -> Result<Reply, NoMemory> {
        peek(alloc, world, self.seat, handle)
    }

    fn unpin(&self, alloc: Global, world: &mut World, handle: Handle) -> Result<Reply, NoMemory> {
        step_of(alloc, world, self.seat, Atomic::Unpin { handle })
    }

    fn leave(&self, alloc: Global, world: &mut World) -> Result<Reply, NoMemory> {
        let pins = give_back(alloc, world, self.seat)?;
        Ok(Reply::Left { pins })
    }
}

/// A turn of a seat, where this side makes the parities of a compaction.
fn turn_at(
    alloc: Global,
    world: &mut World,
    side: Side,
    seat: u32,
    job: Job,
) -> Result<Reply, NoMemory>
    requires seat { seat < 64 }
    requires job { IsJob world.old.desk.settings job }
    requires alone { NeedsNoOrder job }
    requires sound { IsSoundWorld world.old }
    ensures step { IfOk result (λ reply. TurnAt job side seat world.old reply world.new) }
    ensures sound { IsSoundWorld world.new }
{
    match job {
        Job::Compact => compact_at(alloc, world, side, seat),
        job => turn_of(alloc, world, seat, job),
    }
}

/// A compaction, where this side makes the parities.
fn compact_at(alloc: Global, world: &mut World, side: Side, seat: u32) -> Result<Reply, NoMemory>
    requires seat { seat < 64 }
    requires sound { IsSoundWorld world.old }
    ensures step { IfOk result (λ reply. CompactsAt side seat world.old reply world.new) }
    ensures sound { IsSoundWorld world.new }
{
    match side {
        Side::Nodes => turn_of(alloc, world, seat, Job::Compact),
        Side::Compute => compact_here(alloc, world, seat),
    }
}

/// A turn of a seat.
fn turn_of(alloc: Global, world: &mut World, seat: u32, job: Job) -> Result<Reply, NoMemory>
    requires seat { seat < 64 }
    requires job { IsJob world.old.desk.settings job }
    requires alone { NeedsNoOrder job }
    requires sound { IsSoundWorld world.old }
    ensures step { IfOk result (λ reply. Step world.old (Event.Turn seat job) reply world.new) }
    ensures sound { IsSoundWorld world.new }
{
    step(alloc, world, &Event::Turn { seat, job })
}

/// An atomic step of a seat.
fn step_of(alloc: Global, world: &mut World, seat: u32, atomic: Atomic) -> Result<Reply, NoMemory>
    requires seat { seat < 64 }
    requires handle { IsAtomic world.old.desk.settings atomic }
    requires sound { IsSoundWorld world.old }
    ensures step { IfOk result (λ reply. AtomicStep seat atomic world.old reply world.new) }
    ensures sound { IsSoundWorld world.new }
{
    step(alloc, world, &Event::Step { seat, atomic })
}

/// Pins an object. One that is not in local memory is swapped in by a turn before, and where it
/// can't be, the pin is answered as the swap was.
fn pin(alloc: Global, world: &mut World, seat: u32, handle: Handle) -> Result<Reply, NoMemory>
    requires seat { seat < 64 }
    requires within { handle.n < world.old.desk.settings.handles }
    requires sound { IsSoundWorld world.old }
    ensures pin { IfOk result (λ reply. PinLine seat handle.n world.old reply world.new) }
    ensures sound { IsSoundWorld world.new }
{
    let pin = Atomic::Pin { handle };
    match step_of(alloc, world, seat, pin)? {
        Reply::NotHere => {
            let reply = turn_of(alloc, world, seat, Job::Swap { handle })?;
            if is_there(&reply) {
                step_of(alloc, world, seat, Atomic::Pin { handle })
            } else {
                Ok(reply)
            }
        }
        reply => Ok(reply),
    }
}

/// Shows an object on which the seat has a pin: it stays as it is, so it is read as it stands, and
/// the world is unchanged. Refuses with NotPinned where the seat has no pin on it.
fn peek(alloc: Global, world: &mut World, seat: u32, handle: Handle) -> Result<Reply, NoMemory>
    requires seat { seat < 64 }
    requires within { handle.n < world.old.desk.settings.handles }
    requires sound { IsSoundWorld world.old }
    ensures peek { IfOk result (λ reply. PeekStep seat handle.n world.old reply world.new) }
    ensures sound { IsSoundWorld world.new }
{
    match world.seats.newest(seat, handle.n) {
        None => Ok(Reply::NotPinned),
        Some(_) => read(alloc, &mut world.desk, &mut world.far, handle),
    }
}
