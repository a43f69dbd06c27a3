//! The job of a turn that hands an order out or takes one, under the far lock.
ghost use Rattle.std.specs.Prelude.{◌≡◌, IfOk};
ghost use Rattle.cb_types.specs.Config.{IsAccepted};
ghost use Rattle.cb_world.specs.declared.shown.Shown.{Shown};
ghost use Rattle.cb_world.specs.Desks.{IsReadyDesk};
ghost use Rattle.cb_world.specs.Orders.{KeepsOrder};
ghost use Rattle.cb_world.specs.Sound.{Sound};
ghost use Rattle.cb_world.specs.World.{AreCounted, IsConfigured};
ghost use Rattle.cb_shared.specs.Ordering.{AsksBelow, AsksDesk, CanRun, IsAnswered, MayAsk, handed_by};
ghost use Rattle.cb_shared.specs.Ordering.{job_of, keeps_of, order_run, told};
ghost use Rattle.cb_shared.specs.Seats.{IsOf, record_at};
ghost use Rattle.cb_shared.specs.Turning.{TellsLost};
ghost use Rattle.cb_shared.specs.UnderLock.{IsBeginning, WorkBy};

use crate::asked::{Asked, Outcome};
use crate::board::{SeatAt, Top};
use crate::seat_desk::SeatDesk;
use cb_core::{fetch, gather, install, land};
use cb_types::Config;
use cb_world::{Desk, Far};
use std::alloc::Global;
use std::sync::Wait;

/// Does what is asked for, over any desk. An order that was run is one that was kept until now.
fn ask<D: Desk>(desk: &mut D, far: &mut Far, asked: &Asked<'_>) -> Outcome
    requires config { IsAccepted (D.settings desk.old) }
    requires configured { IsConfigured (D.settings desk.old) far.old }
    requires counted { AreCounted far.old }
    requires below { AsksBelow (D.settings desk.old) asked.now }
    requires sound { IsReadyDesk D.shows desk.old far.old }
    requires kept { (s : Shown) → D.shows desk.old s → Sound s far.old
        → KeepsOrder s far.old (order_run asked.now) }
    ensures { AsksDesk D.run D.shows (D.settings desk.old) asked.now
        result (record { desk = desk.old; far = far.old })
        (record { desk = desk.new; far = far.new }) }
{
    let alloc = alloc_of(far);
    match asked {
        Asked::Gather => Outcome::Gather(gather(alloc, desk, far)),
        Asked::Install(done) => Outcome::Install(install(far, Some(*done))),
        Asked::Fetch(handle) => Outcome::Fetch(fetch(alloc, desk, far, *handle)),
        Asked::Land(done) => Outcome::Land(land(alloc, desk, far, Some(*done))),
    }
}

/// Where the far state takes its memory.
fn alloc_of(far: &Far) -> Global {
    far.alloc
}

/// Does what is asked for, at the desk over a seat that holds the far lock.
pub(crate) fn ask_by_seat<R: Wait>(
    rt: &R,
    top: &Top,
    seat: &mut SeatAt,
    config: &Config,
    far: &mut Far,
    asked: &Asked<'_>,
) -> Outcome
    requires of { IsOf top.now.table_id top.now.key config.now seat.old }
    requires config { IsAccepted config.now }
    requires may { MayAsk config.now (record_at seat.old).order asked.now }
    requires begins { IsBeginning config.now far.old (record_at seat.old) }
    ensures work { WorkBy config.now (job_of asked.now) (told result)
        (keeps_of result (record_at seat.old).order) far.old far.new seat.old seat.new }
    ensures kind { IsAnswered asked.now result }
    ensures runs { CanRun (handed_by result) }
    ensures tells { IfOk (told result) (λ reply.
        TellsLost (job_of asked.now) (record_at seat.old).order far.old reply) }
{
    let mut desk = SeatDesk {
        rt,
        config: *config,
        top,
        seat,
        allowed: None,
    };
    let outcome = ask(&mut desk, far, asked);
    let SeatDesk {
        rt: _,
        config: _,
        top: _,
        seat: _,
        allowed: _,
    } = desk;
    outcome
}
