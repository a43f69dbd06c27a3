//! Turns that hand an order out, or take one that was run.
ghost use Rattle.std.specs.Prelude.{◌≡◌, ◌<◌, [], Some, Ok, IfOk};
ghost use Rattle.cb_types.specs.Config.{IsAccepted};
ghost use Rattle.cb_types.specs.declared.job.Job.TheVariants as jobs;
ghost use Rattle.cb_types.specs.declared.order.DecodeOrder.{DecodeOrder};
ghost use Rattle.cb_types.specs.declared.order.EncodeOrder.{EncodeOrder};
ghost use Rattle.cb_types.specs.declared.order.Kept.TheVariants.{Encode, Decode};
ghost use Rattle.cb_types.specs.declared.reply.Reply.TheVariants as answer;
ghost use Rattle.cb_evict.specs.declared.gathering.Gathered.TheVariants as gathered;
ghost use Rattle.cb_evict.specs.InstallRule.{kept_behind};
ghost use Rattle.cb_core.specs.OrderLeaves.{fetch_hands, gather_hands};
ghost use Rattle.cb_core.specs.Ordered.{fetch_answer, fetch_keeps, gather_answer, gather_keeps};
ghost use Rattle.cb_core.specs.Ordered.{land_keeps};
ghost use Rattle.cb_swapin.specs.declared.fetching.Fetching.TheVariants as fetching;
ghost use Rattle.cb_shared.specs.Ordering.{CanRun, FetchFinds, IsAnswered, IsPlainFetch};
ghost use Rattle.cb_shared.specs.Ordering.{IsPlainGather, MayAsk, handed_by, job_of, keeps_of};
ghost use Rattle.cb_shared.specs.Ordering.{told};
ghost use Rattle.cb_shared.specs.Passes.{IsAtRest, IsPassOf, record_of};
ghost use Rattle.cb_shared.specs.Seats.{IsOf, record_at};
ghost use Rattle.cb_shared.specs.Trying.{tries_of};
ghost use Rattle.cb_shared.specs.Turning.{TurnBy};
ghost use Rattle.cb_shared.specs.UnderLock.{TurnedBy};

use crate::asked::{Asked, Outcome, fetched_of};
use crate::board::{SeatAt, Top};
use crate::locking::{give_far, lock_far};
use crate::ordering::ask_by_seat;
use crate::pass::Pass;
use crate::runtime::Shared;
use crate::trying::is_order_tried_again;
use cb_core::{Fetching, Gathered};
use cb_orders::{DecodeDone, EncodeDone};
use cb_types::{Config, Handle, NoMemory, Reply};
use std::alloc::Global;
use std::marker::Brand;
use std::sync::Wait;

impl Shared {
    /// A turn of the job Gather, as `turn` makes one: spans begin to leave, and the order to make
    /// their parities is handed out, which the pass keeps from here in place of the one that it
    /// had. It can be run, and is handed out exactly where the job answers Batch. Else the answer
    /// is a refusal, and the pass keeps what it kept; so it does where there is no memory. Waits
    /// for the lock.
    pub fn gather<R: Wait>(
        &self,
        rt: &R,
        alloc: Global,
        pass: &mut Pass,
    ) -> Result<Gathered, NoMemory>
        requires of { IsPassOf self.now pass.old }
        ensures of { IsPassOf self.now pass.new }
        ensures turn { TurnBy self.now.config jobs.Gather (gather_answer result)
            (record_of pass.old) (record_of pass.new) }
        ensures keeps { (record_of pass.new).order
            ≡ gather_keeps (record_of pass.old).order result }
        ensures handed { IfOk result (λ g. (o : EncodeOrder) → g ≡ gathered.Order o
            → (record_of pass.new).order ≡ Some (Encode o)) }
        ensures plain { IsPlainGather result }
        ensures runs { CanRun (gather_hands result) }
    {
        let _alloc = alloc;
        let outcome = self.ask(rt, pass, &Asked::Gather);
        outcome.into_gathered()
    }

    /// A turn of the job Install, as `turn` makes one: the batch that is leaving gets the parities
    /// of the order that the pass keeps. Takes no memory. After Done the pass keeps no order; else
    /// it keeps this one. Waits for the lock.
    pub fn install<R: Wait>(&self, rt: &R, pass: &mut Pass, done: EncodeDone) -> Reply
        requires of { IsPassOf self.now pass.old }
        requires kept { (record_of pass.old).order ≡ Some (Encode done.order) }
        ensures of { IsPassOf self.now pass.new }
        ensures turn { TurnBy self.now.config jobs.Install (Ok result) (record_of pass.old)
            (record_of pass.new) }
        ensures keeps { (record_of pass.new).order ≡ kept_behind result (record_of pass.old).order }
    {
        let outcome = self.ask(rt, pass, &Asked::Install(&done));
        outcome.into_installed()
    }

    /// A turn of the job Fetch, as `turn` makes one: the order to make the row of a far object is
    /// handed out, which the pass keeps from here in place of the one that it had. It can be run,
    /// and is handed out exactly where the job answers Fetched. Else the answer tells where the
    /// object is or why there is no order, and the pass keeps what it kept; so it does where there
    /// is no memory. After Freed it looks at the object, whose freed entry is read where the pass
    /// knows it. Waits for the lock.
    pub fn fetch<R: Wait>(
        &self,
        rt: &R,
        alloc: Global,
        pass: &mut Pass,
        h: Handle,
    ) -> Result<Fetching, NoMemory>
        requires of { IsPassOf self.now pass.old }
        requires handle { h.n < self.now.config.handles }
        ensures of { IsPassOf self.now pass.new }
        ensures turn { FetchFinds self.now.config h (fetch_answer result)
            (record_of pass.old) (record_of pass.new) }
        ensures keeps { (record_of pass.new).order
            ≡ fetch_keeps (record_of pass.old).order result }
        ensures handed { IfOk result (λ g. (o : DecodeOrder) → g ≡ fetching.Order o
            → (record_of pass.new).order ≡ Some (Decode o)) }
        ensures plain { IsPlainFetch result }
        ensures runs { CanRun (fetch_hands result) }
    {
        let _alloc = alloc;
        let fetching = self.fetch_within(rt, pass, h);
        self.find_swapped(rt, pass, fetched_of(h, &fetching));
        fetching
    }

    /// A turn of the job Fetch as a part of a call that goes on: as `fetch`, but that nothing is
    /// looked for after it.
    pub(crate) fn fetch_within<R: Wait>(
        &self,
        rt: &R,
        pass: &mut Pass,
        h: Handle,
    ) -> Result<Fetching, NoMemory>
        requires of { IsPassOf self.now pass.old }
        requires handle { h.n < self.now.config.handles }
        ensures of { IsPassOf self.now pass.new }
        ensures turn { TurnBy self.now.config (jobs.Fetch h) (fetch_answer result)
            (record_of pass.old) (record_of pass.new) }
        ensures keeps { (record_of pass.new).order
            ≡ fetch_keeps (record_of pass.old).order result }
        ensures plain { IsPlainFetch result }
        ensures runs { CanRun (fetch_hands result) }
    {
        let outcome = self.ask(rt, pass, &Asked::Fetch(h));
        outcome.into_fetching()
    }

    /// A turn of the job Land, as `turn` makes one: the position of the order that the pass keeps
    /// is brought in with the order's row. After Swapped the pass keeps no order; else, and where
    /// there is no memory, it keeps this one. Waits for the lock.
    pub fn land<R: Wait>(
        &self,
        rt: &R,
        alloc: Global,
        pass: &mut Pass,
        done: DecodeDone,
    ) -> Result<Reply, NoMemory>
        requires of { IsPassOf self.now pass.old }
        requires kept { (record_of pass.old).order ≡ Some (Decode done.order) }
        ensures of { IsPassOf self.now pass.new }
        ensures turn { TurnBy self.now.config jobs.Land result (record_of pass.old)
            (record_of pass.new) }
        ensures keeps { (record_of pass.new).order
            ≡ land_keeps (record_of pass.old).order result }
        ensures no_frame { IfOk result (λ reply. reply ≡ answer.NoFrame → ⊥) }
    {
        let _alloc = alloc;
        let outcome = self.ask(rt, pass, &Asked::Land(&done));
        outcome.into_landed()
    }

    /// A turn of what is asked for.
    fn ask<R: Wait>(&self, rt: &R, pass: &mut Pass, asked: &Asked<'_>) -> Outcome
        requires of { IsPassOf self.now pass.old }
        requires may { MayAsk self.now.config (record_of pass.old).order asked.now }
        ensures of { IsPassOf self.now pass.new }
        ensures turn { TurnBy self.now.config (job_of asked.now) (told result) (record_of pass.old)
            (record_of pass.new) }
        ensures keeps { (record_of pass.new).order ≡ keeps_of result (record_of pass.old).order }
        ensures kind { IsAnswered asked.now result }
        ensures runs { CanRun (handed_by result) }
    {
        let config = self.config;
        let top = &self.board.shared;
        let (outcome, again) = locked_order(rt, top, &mut pass.seat, &config, asked);
        pass.tries = Some(again);
        outcome
    }
}

/// Such a turn, from taking the far lock to giving it back, and whether it is made again.
fn locked_order<R: Wait>(
    rt: &R,
    top: &Top,
    seat: &mut SeatAt,
    config: &Config,
    asked: &Asked<'_>,
) -> (Outcome, bool)
    requires of { IsOf top.now.table_id top.now.key config.now seat.old }
    requires rest { IsAtRest config.now (record_at seat.old) }
    requires slots { seat.old.me.1 ≡ [] }
    requires config { IsAccepted config.now }
    requires may { MayAsk config.now (record_at seat.old).order asked.now }
    ensures same { (seat.new.table_id ≡ seat.old.table_id) × (seat.new.id ≡ seat.old.id)
        × (seat.new.me.1 ≡ []) }
    ensures turn { TurnedBy config.now (job_of asked.now) (told result.0)
        (keeps_of result.0 (record_at seat.old).order) (record_at seat.old) (record_at seat.new) }
    ensures again { tries_of (record_at seat.new) ≡ Some result.1 }
    ensures kind { IsAnswered asked.now result.0 }
    ensures runs { CanRun (handed_by result.0) }
{
    let mut far = lock_far(rt, top, seat, config);
    let outcome = ask_by_seat(rt, top, seat, config, &mut *far.state, asked);
    let again = is_order_tried_again(config, &far.state, asked, &outcome);
    give_far::<Brand, _>(top, seat, config, (asked, &outcome), far);
    (outcome, again)
}
