//! The freed entry of an object, after a turn that was answered Freed.
ghost use Rattle.std.specs.Prelude.{◌≡◌};
ghost use Rattle.cb_shared.specs.Seats.{IsOf, record_at};
ghost use Rattle.cb_shared.specs.Seeking.{KnownMoves, swapped_of};
ghost use Rattle.cb_shared.specs.Turning.{KnowsIt, freed_of};
ghost use Rattle.cb_shared.specs.UnderLock.{FreedMoves, IsBelow};

use crate::board::{SeatAt, Top};
use crate::pins::{glance, glance_any};
use cb_ptr::{State, unpack};
use cb_types::{Config, Handle, Job, NoMemory, Reply};
use std::sync::Wait;

/// The object of a read, a write or a free that was answered Freed.
pub(crate) fn freed_of(job: &Job, reply: &Result<Reply, NoMemory>) -> Option<u32>
    ensures { result ≡ freed_of job.now reply.now }
{
    match reply {
        Ok(Reply::Freed) => match job {
            Job::Read { handle } | Job::Write { handle, .. } | Job::Free { handle } => {
                Some(handle.n)
            }
            _ => None,
        },
        _ => None,
    }
}

/// Reads the freed entry of the object, if there is one: looks at it until a look finds it freed. A
/// freed object stays so, and the first look finds it.
pub(crate) fn find_freed<R: Wait>(
    rt: &R,
    top: &Top,
    seat: &mut SeatAt,
    config: &Config,
    freed: Option<u32>,
)
    requires of { IsOf top.now.table_id top.now.key config.now seat.old }
    requires handle { IsBelow config.now freed }
    requires knows { KnowsIt freed (record_at seat.old) }
    ensures { FreedMoves config.now freed seat.old seat.new }
{
    let Some(h) = freed else {
        return;
    };
    for _ in rt.forever() {
        let word = glance(top, seat, config, h);
        match unpack(word).state {
            State::Empty => return,
            _ => {}
        }
    }
    unreachable!()
}

/// The object of a swap-in that was answered Freed.
pub(crate) fn swapped_of(job: &Job, reply: &Result<Reply, NoMemory>) -> Option<u32>
    ensures { result ≡ swapped_of job.now reply.now }
{
    match job {
        Job::Swap { handle } => match reply {
            Ok(Reply::Freed) => Some(handle.n),
            _ => None,
        },
        _ => None,
    }
}

/// Looks at the object, if there is one, until a look finds it freed: its freed entry is read then,
/// if the seat knows the object. A freed object stays so, and the first look finds it.
pub(crate) fn find_known<R: Wait>(
    rt: &R,
    top: &Top,
    seat: &mut SeatAt,
    config: &Config,
    freed: Option<u32>,
)
    requires of { IsOf top.now.table_id top.now.key config.now seat.old }
    requires handle { IsBelow config.now freed }
    ensures { KnownMoves config.now freed seat.old seat.new }
{
    let Some(h) = freed else {
        return;
    };
    for _ in rt.forever() {
        let found = glance_any(top, seat, config, h);
        match unpack(found).state {
            State::Empty => return,
            _ => {}
        }
    }
    unreachable!()
}
