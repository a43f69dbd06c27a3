//! The job of a turn, under the far lock.
ghost use Rattle.std.specs.Prelude.{◌≡◌, ◌<◌, ◌≤◌, true, false, [], length, None, Some, Result};
ghost use Rattle.std.specs.Prelude.{IfOk};
ghost use Rattle.cb_member.specs.declared.no_memory.NoMemory.{NoMemory};
ghost use Rattle.cb_types.specs.Config.{IsAccepted};
ghost use Rattle.cb_types.specs.declared.handle.Handle.{Handle};
ghost use Rattle.cb_types.specs.declared.job.Job.TheVariants as jobs;
ghost use Rattle.cb_types.specs.declared.reply.Reply.{Reply};
ghost use Rattle.cb_types.specs.declared.reply.Reply.TheVariants as answer;
ghost use Rattle.cb_core.specs.Jobs.{IsJob, NeedsNoOrder};
ghost use Rattle.cb_core.specs.Unavailable.{TurnTells};
ghost use Rattle.cb_world.specs.Orders.{KeepsOrder};
ghost use Rattle.cb_rule.specs.Locking.{Stood};
ghost use Rattle.cb_rule.specs.Steps.{Knows};
ghost use Rattle.cb_shared.specs.Rights.{writes_of};
ghost use Rattle.cb_shared.specs.Seats.{HoldsLock, IsOf, record_at};
ghost use Rattle.cb_shared.specs.Turning.{KnowsOf};
ghost use Rattle.cb_shared.specs.UnderLock.{BringAt, CameThere, IsBeginning, IsNoRead, IsReplyTo};
ghost use Rattle.cb_shared.specs.UnderLock.{IsTriedAgain, TriesOn, TurnAtSeat, WorkBy};

use crate::board::{SeatAt, Top};
use crate::reading::{ReadAnswer, read_pinned};
use crate::seat_desk::SeatDesk;
use cb_core::{bring_to_read, is_there, turn};
use cb_types::{Config, Handle, Job, NoMemory, Reply};
use cb_world::Far;
use std::alloc::Global;
use std::sync::Wait;

/// Does the job of a turn, by a seat that holds the far lock: a read under a pin of its own, and
/// every other job at the desk over the seat.
pub(crate) fn work<R: Wait>(
    rt: &R,
    top: &Top,
    seat: &mut SeatAt,
    config: &Config,
    far: &mut Far,
    alloc: Global,
    job: &Job,
) -> Result<Reply, NoMemory>
    requires of { IsOf top.now.table_id top.now.key config.now seat.old }
    requires few { length (record_at seat.old).pins ≤ 16 }
    requires config { IsAccepted config.now }
    requires job { IsJob config.now job.now }
    requires alone { NeedsNoOrder job.now }
    requires knows { KnowsOf job.now (record_at seat.old) }
    requires begins { IsBeginning config.now far.old (record_at seat.old) }
    ensures work { WorkBy config.now job.now result (record_at seat.old).order far.old far.new
        seat.old seat.new }
    ensures no_frame { IfOk result (λ reply. reply ≡ answer.NoFrame → ⊥) }
    ensures unavailable { IfOk result (λ reply. TurnTells job.now far.old reply) }
{
    match job {
        Job::Read { handle } => read_by_seat(rt, top, seat, config, far, alloc, *handle),
        _ => turn_by_seat(rt, top, seat, config, far, alloc, job),
    }
}

/// A job at the desk over the seat.
fn turn_by_seat<R: Wait>(
    rt: &R,
    top: &Top,
    seat: &mut SeatAt,
    config: &Config,
    far: &mut Far,
    alloc: Global,
    job: &Job,
) -> Result<Reply, NoMemory>
    requires holds { HoldsLock top.now.table_id top.now.key config.now seat.old }
    requires config { IsAccepted config.now }
    requires job { IsJob config.now job.now }
    requires other { IsNoRead job.now }
    requires alone { NeedsNoOrder job.now }
    requires knows { KnowsOf job.now (record_at seat.old) }
    requires stood { Stood config.now (record_at seat.old).known far.old }
    requires idle { (record_at seat.old).acts ≡ [] }
    requires fresh { (record_at seat.old).fresh ≡ [] }
    requires kept { KeepsOrder (record_at seat.old).known far.old (record_at seat.old).order }
    ensures turn { TurnAtSeat config.now job.now result (record_at seat.old).order far.old far.new
        seat.old seat.new }
    ensures no_frame { IfOk result (λ reply. reply ≡ answer.NoFrame → ⊥) }
    ensures unavailable { IfOk result (λ reply. TurnTells job.now far.old reply) }
{
    let allowed = object_written(job, far);
    let mut desk = SeatDesk {
        rt,
        config: *config,
        top,
        seat,
        allowed,
    };
    let reply = turn(alloc, &mut desk, far, job);
    let SeatDesk {
        rt: _,
        config: _,
        top: _,
        seat: _,
        allowed: _,
    } = desk;
    reply
}

/// The object that a job writes: a make the next handle, a write or a free its own, and every other
/// job none.
fn object_written(job: &Job, far: &Far) -> Option<u32>
    ensures { result ≡ writes_of job.now far.now }
{
    match job {
        Job::Make { .. } => Some(far.made),
        Job::Write { handle, .. } => Some(handle.n),
        Job::Free { handle } => Some(handle.n),
        _ => None,
    }
}

/// A read: the object is brought in at the desk over the seat, and read under a pin. This is the
/// read for turns of the job Read, which hold the far lock until the last word is read, so that
/// nobody takes the object away in between; that for callers is `Shared::read`.
fn read_by_seat<R: Wait>(
    rt: &R,
    top: &Top,
    seat: &mut SeatAt,
    config: &Config,
    far: &mut Far,
    alloc: Global,
    h: Handle,
) -> Result<Reply, NoMemory>
    requires of { IsOf top.now.table_id top.now.key config.now seat.old }
    requires few { length (record_at seat.old).pins ≤ 16 }
    requires config { IsAccepted config.now }
    requires handle { h.n < config.now.handles }
    requires knows { Knows h.n (record_at seat.old) }
    requires begins { IsBeginning config.now far.old (record_at seat.old) }
    ensures work { WorkBy config.now (jobs.Read h) result (record_at seat.old).order far.old far.new
        seat.old seat.new }
    ensures no_frame { IfOk result (λ reply. reply ≡ answer.NoFrame → ⊥) }
    ensures unavailable { IfOk result (λ reply. TurnTells (jobs.Read h) far.old reply) }
{
    let place = bring_by_seat(rt, top, seat, config, far, h);
    if !came_there(&place) {
        return place;
    }
    read_tried(rt, top, seat, config, alloc, h.n)
}

/// Whether the object is here by the answer of the first part of a read.
fn came_there(place: &Result<Reply, NoMemory>) -> bool
    ensures yes { result ≡ true → CameThere place.now }
    ensures other { result ≡ false → CameThere place.now → ⊥ }
{
    match place {
        Ok(reply) => is_there(reply),
        Err(_) => false,
    }
}

/// The first part of a read, at the desk over the seat.
fn bring_by_seat<R: Wait>(
    rt: &R,
    top: &Top,
    seat: &mut SeatAt,
    config: &Config,
    far: &mut Far,
    h: Handle,
) -> Result<Reply, NoMemory>
    requires holds { HoldsLock top.now.table_id top.now.key config.now seat.old }
    requires config { IsAccepted config.now }
    requires handle { h.n < config.now.handles }
    requires stood { Stood config.now (record_at seat.old).known far.old }
    requires idle { (record_at seat.old).acts ≡ [] }
    requires fresh { (record_at seat.old).fresh ≡ [] }
    ensures bring { BringAt config.now h result far.old far.new seat.old seat.new }
    ensures no_frame { IfOk result (λ reply. reply ≡ answer.NoFrame → ⊥) }
{
    let mut desk = SeatDesk {
        rt,
        config: *config,
        top,
        seat,
        allowed: None,
    };
    let reply = bring_to_read(&mut desk, far, h);
    let SeatDesk {
        rt: _,
        config: _,
        top: _,
        seat: _,
        allowed: _,
    } = desk;
    reply
}

/// Reads an object that was brought in, under a pin. It tries again where the exchange found
/// another word. The object is not far while the seat holds the far lock.
fn read_tried<R: Wait>(
    rt: &R,
    top: &Top,
    seat: &mut SeatAt,
    config: &Config,
    alloc: Global,
    h: u32,
) -> Result<Reply, NoMemory>
    requires of { IsOf top.now.table_id top.now.key config.now seat.old }
    requires handle { h < config.now.handles }
    requires knows { Knows h (record_at seat.old) }
    requires few { length (record_at seat.old).pins ≤ 16 }
    ensures { TriesOn config.now h result seat.old seat.new }
{
    for _ in rt.forever() {
        match reply_to(read_pinned(top, seat, config, alloc, h)) {
            Some(reply) => return reply,
            None => {}
        }
    }
    unreachable!()
}

/// What a read is answered, None where it is to be tried again.
fn reply_to(found: Result<ReadAnswer, NoMemory>) -> Option<Result<Reply, NoMemory>>
    ensures done { (reply : Result Reply NoMemory) → result ≡ Some reply → IsReplyTo found reply }
    ensures again { result ≡ None → IsTriedAgain found }
{
    match found {
        Ok(ReadAnswer::Bytes { version, bytes }) => Some(Ok(Reply::Bytes { version, bytes })),
        Ok(ReadAnswer::Freed) => Some(Ok(Reply::Freed)),
        Ok(ReadAnswer::Moving) => Some(Ok(Reply::Moving)),
        Ok(ReadAnswer::Crowded) => Some(Ok(Reply::Crowded)),
        Ok(ReadAnswer::NotHere | ReadAnswer::Raced { .. }) => None,
        Err(e) => Some(Err(e)),
    }
}
