//! One event: the entry of every line into the core.

ghost use Rattle.std.specs.Prelude.{◌≡◌, ◌<◌, IfOk, OnErr, length, true, false};
ghost use Rattle.cb_world.specs.Seats.{with_order};
ghost use Rattle.cb_world.specs.World.{IsSoundWorld};
ghost use Rattle.cb_core.specs.Events.{IsAtomic, IsEvent};
ghost use Rattle.cb_core.specs.Holding.{NoOtherHolds};
ghost use Rattle.cb_core.specs.Jobs.{IsJob, NeedsNoOrder};
ghost use Rattle.cb_core.specs.Run.{IsOnlyStep, LeavesAsBefore};
ghost use Rattle.cb_core.specs.Step.{AtomicStep, AtomicStops, EventStops, SeatTurn, Step, TurnStep, TurnStops};
ghost use Rattle.cb_core.specs.Unavailable.{TellsUnavailable};

use crate::claiming::{claim, settle, store};
use crate::event::{Atomic, Event};
use crate::holding::{give, other_holder, take};
use crate::ordering::turn_with;
use crate::pinning::{pin, unpin};
use crate::turning::turn;
use cb_types::{Job, Kept, NoMemory, Reply};
use cb_world::{Seats, World};
use std::alloc::Global;

/// One event: a seat takes an atomic step, or makes a turn. The world stays sound. A turn is
/// refused with Held, and not counted, where another seat holds the far lock. Where there is no
/// memory, a claim changed nothing, and a turn is counted, and what its parts did before stays: a
/// span may have left or come in, and each object holds what it held. Between events a batch may be
/// leaving, whose objects are Moving until it is committed or given up.
///
/// The event has no other reply from that world, and leads to no other world: every word, every row
/// at the nodes and all counts are fixed.
///
/// A turn with a job that hands an order out or takes one goes by the order that its seat keeps: a
/// new one replaces it; an install and a landing run it first, and it is taken from the seat where
/// they are answered Done or Swapped. Where it can't be run for lack of memory, the turn is counted
/// and nothing else changes.
///
/// Unavailable is answered exactly where a turn is to bring in a far object whose set has lost more
/// shards than it has parities, or to land an order of such a set, and tells the set and all that
/// it lost.
pub fn step(alloc: Global, world: &mut World, event: &Event) -> Result<Reply, NoMemory>
    requires sound { IsSoundWorld world.old }
    requires event { IsEvent world.old.desk.settings event.now }
    ensures step { IfOk result (λ reply. Step world.old event.now reply world.new) }
    ensures fixes { IfOk result (λ reply. IsOnlyStep world.old event.now reply world.new) }
    ensures unavailable { IfOk result (λ reply. TellsUnavailable world.old event.now reply) }
    ensures sound { IsSoundWorld world.new }
    ensures error { OnErr result (EventStops world.old event.now world.new) }
    ensures leaves { OnErr result (LeavesAsBefore world.old event.now world.new) }
{
    match event {
        Event::Step { seat, atomic } => atomic_step(alloc, world, *seat, atomic),
        Event::Turn { seat, job } => seat_turn(alloc, world, *seat, job),
    }
}

/// An atomic step of a seat. A claim takes memory, and where there is none nothing is changed; no
/// other step takes any.
fn atomic_step(
    alloc: Global,
    world: &mut World,
    seat: u32,
    atomic: &Atomic,
) -> Result<Reply, NoMemory>
    requires sound { IsSoundWorld world.old }
    requires seat { seat < 64 }
    requires handle { IsAtomic world.old.desk.settings atomic.now }
    ensures step { IfOk result (λ reply.
        AtomicStep seat atomic.now world.old reply world.new) }
    ensures sound { IsSoundWorld world.new }
    ensures error { OnErr result (AtomicStops atomic.now world.old world.new) }
{
    match atomic {
        Atomic::Load { handle } => Ok(Reply::Word {
            word: world.desk.look(*handle),
        }),
        Atomic::Pin { handle } => Ok(pin(world, seat, *handle)),
        Atomic::Unpin { handle } => Ok(unpin(world, seat, *handle)),
        Atomic::Claim { handle, at, bytes } => {
            claim(alloc, world, seat, *handle, *at, bytes.as_slice())
        }
        Atomic::Store { handle } => Ok(store(world, seat, *handle)),
        Atomic::Settle { handle } => Ok(settle(world, seat, *handle)),
        Atomic::Take => Ok(take(world, seat)),
        Atomic::Give => Ok(give(world, seat)),
    }
}

/// A turn of a seat. Where another seat holds the far lock it is refused with Held, and the seat
/// that holds it, and nothing is changed.
fn seat_turn(alloc: Global, world: &mut World, seat: u32, job: &Job) -> Result<Reply, NoMemory>
    requires sound { IsSoundWorld world.old }
    requires seat { seat < 64 }
    requires job { IsJob world.old.desk.settings job.now }
    ensures step { IfOk result (λ reply. SeatTurn seat job.now world.old reply world.new) }
    ensures sound { IsSoundWorld world.new }
    ensures error { OnErr result (EventStops world.old (Event.Turn seat job.now) world.new) }
{
    match other_holder(world, seat) {
        Some(holder) => Ok(Reply::Held { seat: holder }),
        None => {
            if needs_order(job) {
                order_turn(alloc, world, seat, job)
            } else {
                turn_step(alloc, world, job)
            }
        }
    }
}

/// Whether a job hands an order out or takes one.
fn needs_order(job: &Job) -> bool
    ensures yes { result ≡ true → NeedsNoOrder job.now → ⊥ }
    ensures other { result ≡ false → NeedsNoOrder job.now }
{
    matches!(
        job,
        Job::Gather | Job::Install | Job::Fetch { .. } | Job::Land
    )
}

/// A turn that hands an order out or takes one, at the still desk: the seat keeps what the turn
/// leaves it.
fn order_turn(alloc: Global, world: &mut World, seat: u32, job: &Job) -> Result<Reply, NoMemory>
    requires sound { IsSoundWorld world.old }
    requires seat { seat < 64 }
    requires job { IsJob world.old.desk.settings job.now }
    requires needs { NeedsNoOrder job.now → ⊥ }
    requires alone { NoOtherHolds world.old.seats seat }
    ensures step { IfOk result (λ reply. SeatTurn seat job.now world.old reply world.new) }
    ensures sound { IsSoundWorld world.new }
    ensures error { OnErr result (EventStops world.old (Event.Turn seat job.now) world.new) }
{
    let order = world.seats.take_order(seat);
    let ended = turn_with(alloc, &mut world.desk, &mut world.far, job, order);
    put_back(&mut world.seats, seat, ended)
}

/// The answer of such a turn; the seat keeps what the turn leaves it.
fn put_back(
    seats: &mut Seats,
    seat: u32,
    ended: (Option<Kept>, Result<Reply, NoMemory>),
) -> Result<Reply, NoMemory>
    requires { seat < length seats.old }
    ensures answer { result ≡ ended.1 }
    ensures kept { seats.new ≡ with_order seats.old seat ended.0 }
{
    let (keeps, answer) = ended;
    seats.keep_order(seat, keeps);
    answer
}

/// A turn at the still desk.
fn turn_step(alloc: Global, world: &mut World, job: &Job) -> Result<Reply, NoMemory>
    requires sound { IsSoundWorld world.old }
    requires job { IsJob world.old.desk.settings job.now }
    requires order { NeedsNoOrder job.now }
    ensures step { IfOk result (λ reply. TurnStep job.now world.old reply world.new) }
    ensures sound { IsSoundWorld world.new }
    ensures error { OnErr result (TurnStops job.now world.old world.new) }
{
    turn(alloc, &mut world.desk, &mut world.far, job)
}
