//! Rows are handed out of a far object's set, to be decoded outside the lock.

ghost use Rattle.std.specs.Prelude.{◌≡◌, ◌+◌, ◌^◌, ◌<◌, [], IfOk, None, OnErr, Option, Some};
ghost use Rattle.cb_types.specs.Config.{IsAccepted};
ghost use Rattle.cb_types.specs.declared.job.Job.TheVariants as job;
ghost use Rattle.cb_types.specs.declared.order.Kept.{Kept};
ghost use Rattle.cb_types.specs.declared.reply.Reply.TheVariants as answer;
ghost use Rattle.cb_world.specs.declared.homes.Home.{Home};
ghost use Rattle.cb_world.specs.declared.shown.Shown.{Shown};
ghost use Rattle.cb_world.specs.Desks.{IsReadyDesk};
ghost use Rattle.cb_world.specs.Homes.{home_at};
ghost use Rattle.cb_world.specs.Orders.{KeepsOrder};
ghost use Rattle.cb_world.specs.Sound.{Sound};
ghost use Rattle.cb_world.specs.World.{AreCounted, IsConfigured};
ghost use Rattle.cb_swapin.specs.FetchStep.{FetchStep, fetching_order, fetching_reply};
ghost use Rattle.cb_swapin.specs.LandRule.{done_order};
ghost use Rattle.cb_core.specs.Ordered.{FetchRun, FetchStops, StoppedWith, TurnedWith};
ghost use Rattle.cb_core.specs.OrderLeaves.{HandsOrder, fetch_hands};
ghost use Rattle.cb_core.specs.OrderParts.{decode_in, landed_order};
ghost use Rattle.cb_core.specs.TurnLeaves.{TurnLeaves};
ghost use Rattle.cb_core.specs.Unavailable.{LandTells, TurnTells};

use crate::bringing::{is_not_here, land_with_room};
use crate::declining::find;
use crate::turning::count_turn;
use cb_orders::DecodeDone;
use cb_swapin::{Fetching, fetch_rows};
use cb_types::{Handle, Job, NoMemory, Reply, SetId};
use cb_world::{Desk, Far};
use std::alloc::Global;

/// A turn of the holder of the far lock with the job Fetch: it is counted, and an order is handed
/// out to make the row of a far object elsewhere, with the k rows that it needs, which are given
/// out. That order is kept from here: its rows are those of the set's word. Where 2^40 turns were
/// counted it answers Worn, and neither counts nor does anything.
///
/// Of an object that is not far the answer is where it is: Unmade, Freed, Moving or Stays. Answers
/// Unavailable exactly where its set has lost more shards than it has parities, with all that it
/// lost, and Direct where its position's own shard is not lost, so that a swap brings it in. Where
/// there is no memory, the turn is counted and nothing else has changed.
pub fn fetch<D: Desk>(
    alloc: Global,
    desk: &mut D,
    far: &mut Far,
    h: Handle,
) -> Result<Fetching, NoMemory>
    requires config { IsAccepted (D.settings desk.old) }
    requires configured { IsConfigured (D.settings desk.old) far.old }
    requires handle { h.n < (D.settings desk.old).handles }
    requires counted { AreCounted far.old }
    requires sound { IsReadyDesk D.shows desk.old far.old }
    ensures turned { IfOk result (λ g. (order : Option Kept) → TurnedWith
        D.run D.shows (D.settings desk.old) (job.Fetch h) order
        (record { desk = desk.old; far = far.old }) (fetching_reply g) (fetching_order order g)
        (record { desk = desk.new; far = far.new })) }
    ensures unavailable { IfOk result (λ g.
        TurnTells (job.Fetch h) far.old (fetching_reply g)) }
    ensures error { OnErr result ((order : Option Kept) → StoppedWith D.run
        D.shows (D.settings desk.old) (job.Fetch h) order
        (record { desk = desk.old; far = far.old }) (record { desk = desk.new; far = far.new })) }
    ensures leaves { HandsOrder D.run D.shows (D.settings desk.old)
        (record { desk = desk.old; far = far.old }) (record { desk = desk.new; far = far.new })
        (fetch_hands result) }
{
    let _alloc = alloc;
    if !count_turn(far, &Job::Fetch { handle: h }) {
        return Ok(Fetching::Answer(Reply::Worn));
    }
    hand_rows(desk, far, h)
}

/// Looks at an object, and hands the rows out of one that is far.
fn hand_rows<D: Desk>(desk: &mut D, far: &mut Far, h: Handle) -> Result<Fetching, NoMemory>
    requires handle { h.n < (D.settings desk.old).handles }
    requires given { far.old.nodes.given + 16 < 2 ^ 64 }
    requires sound { IsReadyDesk D.shows desk.old far.old }
    ensures fetches { IfOk result (λ g. FetchRun D.run D.shows h.n
        (record { desk = desk.old; far = far.old }) g (record { desk = desk.new; far = far.new })) }
    ensures error { OnErr result (FetchStops D.run D.shows h.n
        (record { desk = desk.old; far = far.old }) (record { desk = desk.new; far = far.new })) }
    ensures sound { (s : Shown) → Sound s far.old → Sound s far.new }
    ensures kept { IfOk result (λ g. (s : Shown) → Sound s far.old
        → KeepsOrder s far.new (fetching_order None g)) }
{
    let place = find(desk, far, h);
    if !is_not_here(&place) {
        return Ok(Fetching::Answer(place));
    }
    rows_of_home(far, h)
}

/// Hands the rows out of the position at which a far object has its home.
fn rows_of_home(far: &mut Far, h: Handle) -> Result<Fetching, NoMemory>
    requires home { (home : Home) × (home_at far.old.homes h.n ≡ Some home) }
    requires given { far.old.nodes.given + 16 < 2 ^ 64 }
    requires sound { (s : Shown) × Sound s far.old }
    ensures step { IfOk result (λ g. (home : Home) × (home_at far.old.homes h.n ≡ Some home)
        × FetchStep home.set home.position far.old far.new g) }
    ensures sound { (s : Shown) → Sound s far.old → Sound s far.new }
    ensures kept { IfOk result (λ g. (s : Shown) → Sound s far.old
        → KeepsOrder s far.new (fetching_order None g)) }
    ensures error { OnErr result (far.new ≡ far.old) }
{
    let home = far.homes.at(h.n).unwrap();
    fetch_rows(far, SetId { n: home.set }, home.position)
}

/// A turn of the holder of the far lock with the job Land: it is counted, and the position of an
/// order that was run is brought in with the order's row; None stands for a seat that keeps no
/// order to decode. The order is one that was kept until now. No row is given out. Where no frame
/// is free, room is won as for a swap. Where 2^40 turns were counted it answers Worn, and neither
/// counts nor does anything.
///
/// Answers NoOrder where there is no order, Changed with the order's set where that is gone or the
/// position is not live, Unavailable exactly where the set has lost more shards than it has
/// parities, NoRoom as `turn` does, and else Swapped: the seat keeps no order then. Where there is
/// no memory, the turn is counted, and the evictions that were made stay.
pub fn land<D: Desk>(
    alloc: Global,
    desk: &mut D,
    far: &mut Far,
    done: Option<&DecodeDone>,
) -> Result<Reply, NoMemory>
    requires config { IsAccepted (D.settings desk.old) }
    requires configured { IsConfigured (D.settings desk.old) far.old }
    requires counted { AreCounted far.old }
    requires kept { (s : Shown) × D.shows desk.old s × Sound s far.old
        × KeepsOrder s far.old (done_order done) }
    ensures turned { IfOk result (λ reply. (order : Option Kept)
        → decode_in order ≡ done_order done.entry → TurnedWith
        D.run D.shows (D.settings desk.old) job.Land order
        (record { desk = desk.old; far = far.old }) reply (landed_order order reply)
        (record { desk = desk.new; far = far.new })) }
    ensures no_frame { IfOk result (λ reply. reply ≡ answer.NoFrame → ⊥) }
    ensures unavailable { IfOk result (λ reply. LandTells (done_order done.entry) far.old reply) }
    ensures error { OnErr result ((order : Option Kept) → decode_in order ≡ done_order done.entry
        → StoppedWith D.run
        D.shows (D.settings desk.old) job.Land order
        (record { desk = desk.old; far = far.old }) (record { desk = desk.new; far = far.new })) }
    ensures leaves { TurnLeaves D.run D.shows (D.settings desk.old)
        (record { desk = desk.old; far = far.old }) (record { desk = desk.new; far = far.new })
        (λ more. more ≡ []) }
{
    let _alloc = alloc;
    if !count_turn(far, &Job::Land) {
        return Ok(Reply::Worn);
    }
    land_with_room(desk, far, done)
}
