//! Rows of a batch are handed out, and its parities taken in.

ghost use Rattle.std.specs.Prelude.{◌≡◌, ◌^◌, ◌<◌, IfOk, OnErr, Option};
ghost use Rattle.cb_types.specs.Config.{IsAccepted};
ghost use Rattle.cb_types.specs.declared.config.Config.{Config};
ghost use Rattle.cb_types.specs.declared.job.Job.TheVariants as job;
ghost use Rattle.cb_types.specs.declared.order.Kept.{Kept};
ghost use Rattle.cb_world.specs.declared.shown.Shown.{Shown};
ghost use Rattle.cb_world.specs.Desks.{IsReadyDesk};
ghost use Rattle.cb_world.specs.Orders.{KeepsOrder};
ghost use Rattle.cb_world.specs.Sound.{Sound};
ghost use Rattle.cb_world.specs.World.{AreCounted, IsConfigured};
ghost use Rattle.cb_evict.specs.Gathering.{gathered_order, gathered_reply};
ghost use Rattle.cb_evict.specs.InstallRule.{kept_behind, order_done};
ghost use Rattle.cb_core.specs.Ordered.{InstallTurn, StoppedWith, TurnedWith};
ghost use Rattle.cb_core.specs.OrderLeaves.{HandsOrder, InstallLeaves, gather_hands};
ghost use Rattle.cb_core.specs.OrderParts.{encode_in};

use crate::turning::count_turn;
use cb_evict::Gathered;
use cb_orders::EncodeDone;
use cb_types::{Job, NoMemory, Reply};
use cb_world::{Desk, Far};
use std::alloc::Global;

/// A turn of the holder of the far lock with the job Gather: it is counted, and spans begin to
/// leave as by a begin, but without parities; an order is handed out to make them elsewhere. That
/// order is kept from here: its rows are those of the spans as they stand in memory. Where 2^40
/// turns were counted it answers Worn, and neither counts nor does anything.
///
/// The answers are those of `begin`, with the order in place of Batch. Where there is no memory,
/// the turn is counted and nothing else has changed.
pub fn gather<D: Desk>(alloc: Global, desk: &mut D, far: &mut Far) -> Result<Gathered, NoMemory>
    requires config { IsAccepted (D.settings desk.old) }
    requires configured { IsConfigured (D.settings desk.old) far.old }
    requires counted { AreCounted far.old }
    requires sound { IsReadyDesk D.shows desk.old far.old }
    ensures turned { IfOk result (λ g. (order : Option Kept) → TurnedWith
        D.run D.shows (D.settings desk.old) job.Gather order
        (record { desk = desk.old; far = far.old }) (gathered_reply g) (gathered_order order g)
        (record { desk = desk.new; far = far.new })) }
    ensures error { OnErr result ((order : Option Kept) → StoppedWith D.run
        D.shows (D.settings desk.old) job.Gather order
        (record { desk = desk.old; far = far.old }) (record { desk = desk.new; far = far.new })) }
    ensures leaves { HandsOrder D.run D.shows (D.settings desk.old)
        (record { desk = desk.old; far = far.old }) (record { desk = desk.new; far = far.new })
        (gather_hands result) }
{
    let _alloc = alloc;
    if !count_turn(far, &Job::Gather) {
        return Ok(Gathered::Answer(Reply::Worn));
    }
    cb_evict::gather(desk, far)
}

/// A turn of the holder of the far lock with the job Install: it is counted, and the batch that is
/// leaving gets the parities of an order that was run, or None for a seat that keeps no order to
/// encode. The order is one that was kept until now. Takes no memory. Where 2^40 turns were counted
/// it answers Worn, and neither counts nor does anything.
///
/// Answers NoOrder where there is no order, NoBatch where no batch is leaving, Changed with the
/// order's number where the batch that is leaving has another one, and else Done: the seat keeps no
/// order then. A refusal changes nothing more than the count.
pub fn install(far: &mut Far, done: Option<&EncodeDone>) -> Reply
    requires counted { AreCounted far.old }
    requires kept { (s : Shown) × Sound s far.old × KeepsOrder s far.old (order_done done) }
    ensures turned { (order : Option Kept) → encode_in order ≡ order_done done.entry
        → InstallTurn far.old result order (kept_behind result order) far.new }
    ensures leaves { (c : Config) → IsConfigured c far.old
        → InstallLeaves c far.old far.new (order_done done.entry) }
{
    if !count_turn(far, &Job::Install) {
        return Reply::Worn;
    }
    cb_evict::install(far, done)
}
