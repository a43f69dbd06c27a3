//! How a call brings a far object in: by a turn of the job Fetch, and where its row is lost by
//! making that row outside of the far lock.
ghost use Rattle.std.specs.Prelude.{◌≡◌, ◌<◌, true, false, None, Some, IfOk, OnErr};
ghost use Rattle.cb_types.specs.declared.job.Job.TheVariants as jobs;
ghost use Rattle.cb_types.specs.declared.order.Kept.TheVariants.{Decode};
ghost use Rattle.cb_types.specs.declared.reply.Reply.TheVariants as answer;
ghost use Rattle.cb_types.specs.Orders.{IsDecodable};
ghost use Rattle.cb_shared.specs.Ways.{HasWay, IsFound, IsLandedBy, IsLandingOf, IsWayOf};
ghost use Rattle.cb_shared.specs.Ways.{LandingLacks, landing_told, way_told};
ghost use Rattle.cb_shared.specs.Calls.{AtNone, Brings, OfThis, StopsBy, TriesBy, TurnStops};
ghost use Rattle.cb_shared.specs.Calls.{TurnTries};
ghost use Rattle.cb_shared.specs.Fetching.{AreBringingTo, AreOneTry, GetsTurns};
ghost use Rattle.cb_shared.specs.Fetching.{IsOneAtMost, IsOneOf, TriesOnward, TriesOnwardTo};
ghost use Rattle.cb_shared.specs.Passes.{IsPassOf, record_of};

use crate::calling::is_lack;
use crate::pass::Pass;
use crate::runtime::Shared;
use crate::waiting::Patience;
use cb_orders::run_decode;
use cb_swapin::Fetching;
use cb_types::{DecodeOrder, Handle, Job, NoMemory, Reply};
use std::alloc::Global;
use std::sync::Wait;

/// How a far object can be brought in, by what a turn of the job Fetch was answered.
#[derive(Drop)]
pub(crate) enum Way {
    /// Its row is lost, and is made by this order.
    Made(DecodeOrder),
    /// Its row is at hand.
    Direct,
    /// Not by this turn: its reply where that says why, and else the call looks again.
    Told(Option<Reply>),
}

/// What a call comes to by the landing of a row.
#[derive(Drop)]
pub(crate) enum Landing {
    /// The row's set lacks shards, or there is no room for it: the call makes a turn on its own
    /// object, which may be in that set no longer.
    Lacks,
    /// Worn by the count of turns; else the call looks again.
    Told(Option<Reply>),
}

impl Shared {
    /// Turns that bring a far object in, for a call that looks at it again: one of the job Fetch,
    /// and after it one of the job Land with the row that was made outside of the far lock, or one
    /// of the job Swap where its own row is not lost. A landing speaks of a set, in which the object
    /// may be no longer: where that set lacks shards, or there is no room for the row, a turn of the
    /// job Swap comes after it. The reply of the last one where it tells why the object can't be
    /// brought in: Unavailable and NoRoom by a turn on this object, or Worn by the count of turns.
    /// Else None, after a wait where others stand in its way, and without one where the object is
    /// here now. Where there is no memory to make the row, the pass keeps the order. Waits.
    pub fn bring<R: Wait>(
        &self,
        rt: &R,
        alloc: Global,
        pass: &mut Pass,
        h: Handle,
        patience: &mut Patience,
    ) -> Result<Option<Reply>, NoMemory>
        requires of { IsPassOf self.now pass.old }
        requires handle { h.n < self.now.config.handles }
        ensures of { IsPassOf self.now pass.new }
        ensures brings { IfOk result (λ o. TriesBy self.now.config AtNone (Brings h.n) o
            (record_of pass.old) (record_of pass.new)) }
        ensures error { OnErr result (StopsBy self.now.config AtNone (Brings h.n)
            (record_of pass.old) (record_of pass.new)) }
        ensures jobs { GetsTurns (AreOneTry h.n) (record_of pass.old) (record_of pass.new) }
        ensures brought { IfOk result (λ o. o ≡ None → GetsTurns (AreBringingTo h.n
            patience.old.brought patience.new.brought) (record_of pass.old) (record_of pass.new)) }
    {
        match self.find_way(rt, pass, h, patience)? {
            Way::Made(order) => self.land_or_swap(rt, alloc, pass, h, order, patience),
            Way::Direct => self.try_turn(rt, alloc, pass, &Job::Swap { handle: h }, patience),
            Way::Told(told) => Ok(told),
        }
    }

    /// A turn of the job Fetch.
    pub(crate) fn find_way<R: Wait>(
        &self,
        rt: &R,
        pass: &mut Pass,
        h: Handle,
        patience: &mut Patience,
    ) -> Result<Way, NoMemory>
        requires of { IsPassOf self.now pass.old }
        requires handle { h.n < self.now.config.handles }
        ensures of { IsPassOf self.now pass.new }
        ensures tries { IfOk result (λ way. TriesBy self.now.config AtNone (OfThis (jobs.Fetch h))
            (way_told way) (record_of pass.old) (record_of pass.new)) }
        ensures way { IfOk result (λ way. HasWay way (record_of pass.new)) }
        ensures error { OnErr result (TurnStops self.now.config (jobs.Fetch h)
            (record_of pass.old) (record_of pass.new)) }
        ensures one { GetsTurns (IsOneOf (jobs.Fetch h)) (record_of pass.old)
            (record_of pass.new) }
        ensures found { IfOk result (λ way. GetsTurns (IsFound h.n way patience.old.brought
            patience.new.brought) (record_of pass.old) (record_of pass.new)) }
    {
        let fetching = self.fetch_within(rt, pass, h);
        self.way_of(rt, pass.again(), fetching, patience)
    }

    /// The way by what a fetch was answered, after a wait where others stand in its way.
    fn way_of<R: Wait>(
        &self,
        rt: &R,
        again: bool,
        fetching: Result<Fetching, NoMemory>,
        patience: &mut Patience,
    ) -> Result<Way, NoMemory>
        ensures { IsWayOf again patience.old.brought patience.new.brought fetching result }
    {
        match fetching? {
            Fetching::Order(order) => Ok(Way::Made(order)),
            Fetching::Answer(reply) => {
                if is_direct(&reply) {
                    return Ok(Way::Direct);
                }
                if is_lack(again, &reply) {
                    return Ok(Way::Told(Some(reply)));
                }
                self.wait_behind(rt, &reply, patience);
                Ok(Way::Told(None))
            }
        }
    }

    /// Makes the row of the order that the pass keeps and lands it. What the landing lacks is no
    /// answer on the object, which is swapped in by a turn of its own then.
    fn land_or_swap<R: Wait>(
        &self,
        rt: &R,
        alloc: Global,
        pass: &mut Pass,
        h: Handle,
        order: DecodeOrder,
        patience: &mut Patience,
    ) -> Result<Option<Reply>, NoMemory>
        requires of { IsPassOf self.now pass.old }
        requires handle { h.n < self.now.config.handles }
        requires kept { (record_of pass.old).order ≡ Some (Decode order) }
        requires fits { IsDecodable order }
        ensures of { IsPassOf self.now pass.new }
        ensures brings { IfOk result (λ o. TriesBy self.now.config AtNone (Brings h.n) o
            (record_of pass.old) (record_of pass.new)) }
        ensures error { OnErr result (StopsBy self.now.config AtNone (Brings h.n)
            (record_of pass.old) (record_of pass.new)) }
        ensures jobs { GetsTurns (TriesOnward h.n jobs.Land) (record_of pass.old)
            (record_of pass.new) }
        ensures brought { IfOk result (λ o. o ≡ None → GetsTurns (TriesOnwardTo h.n jobs.Land
            patience.old.brought patience.new.brought) (record_of pass.old) (record_of pass.new)) }
    {
        match self.land_order(rt, alloc, pass, order, patience)? {
            Landing::Lacks => self.try_turn(rt, alloc, pass, &Job::Swap { handle: h }, patience),
            Landing::Told(told) => Ok(told),
        }
    }

    /// Makes the row of the order that the pass keeps, while no lock is held, and lands it by a
    /// turn. Where there is no memory for the row no turn is made.
    pub(crate) fn land_order<R: Wait>(
        &self,
        rt: &R,
        alloc: Global,
        pass: &mut Pass,
        order: DecodeOrder,
        patience: &mut Patience,
    ) -> Result<Landing, NoMemory>
        requires of { IsPassOf self.now pass.old }
        requires kept { (record_of pass.old).order ≡ Some (Decode order) }
        requires fits { IsDecodable order }
        ensures of { IsPassOf self.now pass.new }
        ensures turn { IfOk result (λ l. TurnTries self.now.config jobs.Land (landing_told l)
            (record_of pass.old) (record_of pass.new)) }
        ensures error { OnErr result (TurnStops self.now.config jobs.Land (record_of pass.old)
            (record_of pass.new)) }
        ensures one { GetsTurns (IsOneAtMost jobs.Land) (record_of pass.old)
            (record_of pass.new) }
        ensures landed { IfOk result (λ l. GetsTurns (IsLandedBy l patience.old.brought
            patience.new.brought) (record_of pass.old) (record_of pass.new)) }
    {
        match run_decode(alloc, order) {
            Ok(done) => {
                let reply = self.land(rt, alloc, pass, done)?;
                Ok(self.landing_of(rt, reply, patience))
            }
            Err(_) => Err(NoMemory),
        }
    }

    /// What the call comes to by the reply of a landing, after a wait where others stand in its way.
    fn landing_of<R: Wait>(&self, rt: &R, reply: Reply, patience: &mut Patience) -> Landing
        ensures { IsLandingOf patience.old.brought patience.new.brought reply result }
    {
        if is_of_set(&reply) {
            return Landing::Lacks;
        }
        if is_worn(&reply) {
            return Landing::Told(Some(reply));
        }
        self.wait_behind(rt, &reply, patience);
        Landing::Told(None)
    }
}

/// Whether a landing was told what its set lacks, or that there is no room for the row.
fn is_of_set(reply: &Reply) -> bool
    ensures yes { result ≡ true → LandingLacks reply.now }
    ensures no { result ≡ false → LandingLacks reply.now → ⊥ }
{
    match reply {
        Reply::Unavailable { .. } | Reply::NoRoom { .. } => true,
        _ => false,
    }
}

/// Whether a turn was refused by the count of turns.
pub(crate) fn is_worn(reply: &Reply) -> bool
    ensures yes { result ≡ true → reply.now ≡ answer.Worn }
    ensures no { result ≡ false → reply.now ≡ answer.Worn → ⊥ }
{
    match reply {
        Reply::Worn => true,
        _ => false,
    }
}

/// Whether a fetch was told that the object's own row is not lost.
fn is_direct(reply: &Reply) -> bool
    ensures yes { result ≡ true → reply.now ≡ answer.Direct }
    ensures no { result ≡ false → reply.now ≡ answer.Direct → ⊥ }
{
    match reply {
        Reply::Direct => true,
        _ => false,
    }
}
