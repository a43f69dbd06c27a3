//! Turns that hand an order out, or take one that was run.

ghost use Rattle.std.specs.Prelude.{◌≡◌, ◌^◌, ◌<◌, ℕ, IfOk, None, Ok, OnErr, Option, Some, true, false};
ghost use Rattle.cb_types.specs.Config.{IsAccepted};
ghost use Rattle.cb_types.specs.declared.config.Config.{Config};
ghost use Rattle.cb_types.specs.declared.job.Job.TheVariants as job;
ghost use Rattle.cb_types.specs.declared.order.Kept.{Kept};
ghost use Rattle.cb_types.specs.declared.order.Kept.TheVariants.{Decode, Encode};
ghost use Rattle.cb_types.specs.declared.reply.Reply.TheVariants as answer;
ghost use Rattle.cb_world.specs.declared.shown.Shown.{Shown};
ghost use Rattle.cb_world.specs.Desks.{IsReadyDesk};
ghost use Rattle.cb_world.specs.Orders.{IsDecodeKept, IsEncodeKept, KeepsOrder};
ghost use Rattle.cb_world.specs.Sound.{Sound};
ghost use Rattle.cb_world.specs.World.{AreCounted, IsConfigured};
ghost use Rattle.cb_evict.specs.InstallRule.{kept_behind};
ghost use Rattle.cb_core.specs.Jobs.{IsJob, NeedsNoOrder};
ghost use Rattle.cb_core.specs.Ordered.{EndsWith, InstallEnds, fetch_answer, fetch_keeps, gather_answer, gather_keeps, land_keeps};
ghost use Rattle.cb_core.specs.OrderLeaves.{InstallLeaves, LeavesWith, TurnsWith};
ghost use Rattle.cb_core.specs.OrderParts.{encode_in};
ghost use Rattle.cb_core.specs.Turned.{counted};

use crate::fetching::{fetch, land};
use crate::gathering::{gather, install};
use crate::turning::count_turn;
use cb_evict::Gathered;
use cb_orders::{DecodeDone, EncodeDone, run_decode, run_encode};
use cb_swapin::Fetching;
use cb_types::{DecodeOrder, EncodeOrder, Handle, Job, Kept, NoMemory, Reply, SetId};
use cb_world::{Desk, Far};
use std::alloc::Global;

/// A turn of the holder of the far lock with a job that hands an order out or takes one, for a seat
/// that keeps this order: what the seat keeps after it, and the answer.
///
/// A new order replaces the one before. For an install and a landing the order that the seat keeps
/// is run first; it is taken from the seat where the answer is Done or Swapped, and else put back.
/// Where it can't be run for lack of memory, the turn is counted and nothing else changes.
pub(crate) fn turn_with<D: Desk>(
    alloc: Global,
    desk: &mut D,
    far: &mut Far,
    job: &Job,
    order: Option<Kept>,
) -> (Option<Kept>, Result<Reply, NoMemory>)
    requires config { IsAccepted (D.settings desk.old) }
    requires configured { IsConfigured (D.settings desk.old) far.old }
    requires job { IsJob (D.settings desk.old) job.now }
    requires needs { NeedsNoOrder job.now → ⊥ }
    requires counted { AreCounted far.old }
    requires sound { IsReadyDesk D.shows desk.old far.old }
    requires kept { (s : Shown) → D.shows desk.old s → Sound s far.old
        → KeepsOrder s far.old order }
    ensures ends { EndsWith D.run D.shows (D.settings desk.old)
        job.now order (record { desk = desk.old; far = far.old }) result.0 result.1
        (record { desk = desk.new; far = far.new }) }
    ensures leaves { LeavesWith D.run D.shows
        (D.settings desk.old) (record { desk = desk.old; far = far.old })
        (record { desk = desk.new; far = far.new }) order result.0 }
{
    match job {
        Job::Gather => gather_with(alloc, desk, far, order),
        Job::Install => install_with(alloc, far, order),
        Job::Fetch { handle } => fetch_with(alloc, desk, far, *handle, order),
        Job::Land => land_with(alloc, desk, far, order),
        _ => unreachable!(),
    }
}

/// A gather: a new order replaces what the seat keeps.
fn gather_with<D: Desk>(
    alloc: Global,
    desk: &mut D,
    far: &mut Far,
    order: Option<Kept>,
) -> (Option<Kept>, Result<Reply, NoMemory>)
    requires config { IsAccepted (D.settings desk.old) }
    requires configured { IsConfigured (D.settings desk.old) far.old }
    requires counted { AreCounted far.old }
    requires sound { IsReadyDesk D.shows desk.old far.old }
    ensures turned { TurnsWith D.run D.shows
        (D.settings desk.old) job.Gather order
        (record { desk = desk.old; far = far.old }) result.0 result.1
        (record { desk = desk.new; far = far.new }) }
{
    let gathered = gather(alloc, desk, far);
    behind_gather(order, gathered)
}

/// What a seat keeps after a gather, and its answer.
fn behind_gather(
    order: Option<Kept>,
    gathered: Result<Gathered, NoMemory>,
) -> (Option<Kept>, Result<Reply, NoMemory>)
    ensures keeps { result.0 ≡ gather_keeps order gathered }
    ensures answer { result.1 ≡ gather_answer gathered }
{
    match gathered {
        Ok(Gathered::Order(new)) => {
            let set = SetId { n: new.set };
            (Some(Kept::Encode(new)), Ok(Reply::Batch { set }))
        }
        Ok(Gathered::Answer(reply)) => (order, Ok(reply)),
        Err(error) => (order, Err(error)),
    }
}

/// A fetch: a new order replaces what the seat keeps.
fn fetch_with<D: Desk>(
    alloc: Global,
    desk: &mut D,
    far: &mut Far,
    h: Handle,
    order: Option<Kept>,
) -> (Option<Kept>, Result<Reply, NoMemory>)
    requires config { IsAccepted (D.settings desk.old) }
    requires configured { IsConfigured (D.settings desk.old) far.old }
    requires handle { h.n < (D.settings desk.old).handles }
    requires counted { AreCounted far.old }
    requires sound { IsReadyDesk D.shows desk.old far.old }
    ensures turned { TurnsWith D.run D.shows
        (D.settings desk.old) (job.Fetch h) order
        (record { desk = desk.old; far = far.old }) result.0 result.1
        (record { desk = desk.new; far = far.new }) }
{
    let fetched = fetch(alloc, desk, far, h);
    behind_fetch(order, fetched)
}

/// What a seat keeps after a fetch, and its answer.
fn behind_fetch(
    order: Option<Kept>,
    fetched: Result<Fetching, NoMemory>,
) -> (Option<Kept>, Result<Reply, NoMemory>)
    ensures keeps { result.0 ≡ fetch_keeps order fetched }
    ensures answer { result.1 ≡ fetch_answer fetched }
{
    match fetched {
        Ok(Fetching::Order(new)) => {
            let set = SetId { n: new.set };
            let position = new.position;
            (
                Some(Kept::Decode(new)),
                Ok(Reply::Fetched { set, position }),
            )
        }
        Ok(Fetching::Answer(reply)) => (order, Ok(reply)),
        Err(error) => (order, Err(error)),
    }
}

/// An order that could not be run: it is put back, and the turn is counted, unless 2^40 were.
fn not_run(far: &mut Far, job: &Job, order: Kept) -> (Option<Kept>, Result<Reply, NoMemory>)
    requires counted { AreCounted far.old }
    ensures keeps { result.0 ≡ Some order }
    ensures late { IfOk result.1 (λ r. (r ≡ answer.Worn) × (far.old.counts.turns ≡ 2 ^ 40)
        × (far.new ≡ far.old)) }
    ensures lacks { OnErr result.1 ((far.old.counts.turns < 2 ^ 40)
        × (far.new ≡ counted far.old job.now)) }
{
    if count_turn(far, job) {
        (Some(order), Err(NoMemory))
    } else {
        (Some(order), Ok(Reply::Worn))
    }
}

/// An install, which runs an order to encode that the seat keeps.
fn install_with(
    alloc: Global,
    far: &mut Far,
    order: Option<Kept>,
) -> (Option<Kept>, Result<Reply, NoMemory>)
    requires counted { AreCounted far.old }
    requires kept { (s : Shown) × Sound s far.old × KeepsOrder s far.old order }
    ensures ends { InstallEnds far.old order result.0 result.1 far.new }
    ensures leaves { (c : Config) → IsConfigured c far.old
        → InstallLeaves c far.old far.new (encode_in order) }
{
    match order {
        Some(Kept::Encode(order)) => install_run(alloc, far, order),
        Some(Kept::Decode(order)) => {
            let reply = install(far, None);
            behind_install(Some(Kept::Decode(order)), reply)
        }
        None => {
            let reply = install(far, None);
            behind_install(None, reply)
        }
    }
}

/// Runs an order to encode, and installs it.
fn install_run(
    alloc: Global,
    far: &mut Far,
    order: EncodeOrder,
) -> (Option<Kept>, Result<Reply, NoMemory>)
    requires counted { AreCounted far.old }
    requires kept { (s : Shown) × Sound s far.old × IsEncodeKept s far.old order }
    ensures ends { InstallEnds far.old (Some (Encode order)) result.0 result.1 far.new }
    ensures leaves { (c : Config) → IsConfigured c far.old
        → InstallLeaves c far.old far.new (Some (Encode order)) }
{
    match run_encode(alloc, order) {
        Ok(done) => install_made(far, done),
        Err(order) => not_run(far, &Job::Install, Kept::Encode(order)),
    }
}

/// Installs an order that was run.
fn install_made(far: &mut Far, done: EncodeDone) -> (Option<Kept>, Result<Reply, NoMemory>)
    requires counted { AreCounted far.old }
    requires kept { (s : Shown) × Sound s far.old × IsEncodeKept s far.old done.order }
    ensures ends { InstallEnds far.old (Some (Encode done.order)) result.0 result.1 far.new }
    ensures leaves { (c : Config) → IsConfigured c far.old
        → InstallLeaves c far.old far.new (Some (Encode done.order)) }
{
    let reply = install(far, Some(&done));
    behind_install(Some(Kept::Encode(done.into_order())), reply)
}

/// What a seat keeps after an install, and its answer.
fn behind_install(order: Option<Kept>, reply: Reply) -> (Option<Kept>, Result<Reply, NoMemory>)
    ensures keeps { result.0 ≡ kept_behind reply order }
    ensures answer { result.1 ≡ Ok reply }
{
    if is_done(&reply) {
        (None, Ok(reply))
    } else {
        (order, Ok(reply))
    }
}

/// Whether a reply is Done.
fn is_done(reply: &Reply) -> bool
    ensures yes { result ≡ true → reply.now ≡ answer.Done }
    ensures other { result ≡ false → reply.now ≡ answer.Done → ⊥ }
{
    matches!(reply, Reply::Done)
}

/// A landing, which runs an order to decode that the seat keeps.
fn land_with<D: Desk>(
    alloc: Global,
    desk: &mut D,
    far: &mut Far,
    order: Option<Kept>,
) -> (Option<Kept>, Result<Reply, NoMemory>)
    requires config { IsAccepted (D.settings desk.old) }
    requires configured { IsConfigured (D.settings desk.old) far.old }
    requires counted { AreCounted far.old }
    requires kept { (s : Shown) × D.shows desk.old s × Sound s far.old
        × KeepsOrder s far.old order }
    ensures turned { TurnsWith D.run D.shows
        (D.settings desk.old) job.Land order
        (record { desk = desk.old; far = far.old }) result.0 result.1
        (record { desk = desk.new; far = far.new }) }
{
    match order {
        Some(Kept::Decode(order)) => land_run(alloc, desk, far, order),
        Some(Kept::Encode(order)) => {
            let ended = land(alloc, desk, far, None);
            behind_land(Some(Kept::Encode(order)), ended)
        }
        None => {
            let ended = land(alloc, desk, far, None);
            behind_land(None, ended)
        }
    }
}

/// Runs an order to decode, and lands it.
fn land_run<D: Desk>(
    alloc: Global,
    desk: &mut D,
    far: &mut Far,
    order: DecodeOrder,
) -> (Option<Kept>, Result<Reply, NoMemory>)
    requires config { IsAccepted (D.settings desk.old) }
    requires configured { IsConfigured (D.settings desk.old) far.old }
    requires counted { AreCounted far.old }
    requires kept { (s : Shown) × D.shows desk.old s × Sound s far.old
        × IsDecodeKept far.old order }
    ensures turned { TurnsWith D.run D.shows
        (D.settings desk.old) job.Land (Some (Decode order))
        (record { desk = desk.old; far = far.old }) result.0 result.1
        (record { desk = desk.new; far = far.new }) }
{
    match run_decode(alloc, order) {
        Ok(done) => land_made(alloc, desk, far, done),
        Err(order) => not_run(far, &Job::Land, Kept::Decode(order)),
    }
}

/// Lands an order that was run.
fn land_made<D: Desk>(
    alloc: Global,
    desk: &mut D,
    far: &mut Far,
    done: DecodeDone,
) -> (Option<Kept>, Result<Reply, NoMemory>)
    requires config { IsAccepted (D.settings desk.old) }
    requires configured { IsConfigured (D.settings desk.old) far.old }
    requires counted { AreCounted far.old }
    requires kept { (s : Shown) × D.shows desk.old s × Sound s far.old
        × IsDecodeKept far.old done.order }
    ensures turned { TurnsWith D.run D.shows
        (D.settings desk.old) job.Land (Some (Decode done.order))
        (record { desk = desk.old; far = far.old }) result.0 result.1
        (record { desk = desk.new; far = far.new }) }
{
    let ended = land(alloc, desk, far, Some(&done));
    behind_land(Some(Kept::Decode(done.into_order())), ended)
}

/// What a seat keeps after a landing, and its answer.
fn behind_land(
    order: Option<Kept>,
    ended: Result<Reply, NoMemory>,
) -> (Option<Kept>, Result<Reply, NoMemory>)
    ensures keeps { result.0 ≡ land_keeps order ended }
    ensures answer { result.1 ≡ ended }
{
    if has_landed(&ended) {
        (None, ended)
    } else {
        (order, ended)
    }
}

/// Whether the position of an order was brought in.
fn has_landed(ended: &Result<Reply, NoMemory>) -> bool
    ensures yes { result ≡ true → (f : ℕ) × (ended.now ≡ Ok (answer.Swapped f)) }
    ensures other { result ≡ false → (f : ℕ) → ended.now ≡ Ok (answer.Swapped f) → ⊥ }
{
    matches!(ended, Ok(Reply::Swapped { .. }))
}
