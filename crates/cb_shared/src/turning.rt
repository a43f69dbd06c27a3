//! Turns under the far lock.
ghost use Rattle.std.specs.Prelude.{◌≡◌, ◌≤◌, [], length, Some, IfOk};
ghost use Rattle.cb_types.specs.Config.{IsAccepted};
ghost use Rattle.cb_types.specs.declared.reply.Reply.TheVariants as answer;
ghost use Rattle.cb_core.specs.Jobs.{IsJob, NeedsNoOrder};
ghost use Rattle.cb_shared.specs.Making.{MakesNew};
ghost use Rattle.cb_shared.specs.Passes.{IsAtRest, IsPassOf, record_of};
ghost use Rattle.cb_record.specs.Parts.{Grows, Part};
ghost use Rattle.cb_shared.specs.Seats.{IsOf, record_at};
ghost use Rattle.cb_shared.specs.Seeking.{FindsKnown, TurnFinds};
ghost use Rattle.cb_shared.specs.Trying.{tries_of};
ghost use Rattle.cb_shared.specs.Turning.{KnowsOf, TurnBy};
ghost use Rattle.cb_shared.specs.UnderLock.{IsBelow, TurnedBy};

use crate::board::{SeatAt, Top};
use crate::freed::{find_freed, find_known, freed_of, swapped_of};
use crate::handles::count_pins;
use crate::locking::{give_far, lock_far};
use crate::pass::Pass;
use crate::runtime::Shared;
use crate::trying::is_to_try_again;
use crate::working::work;
use cb_types::{Config, Job, NoMemory, Reply};
use std::alloc::Global;
use std::marker::Brand;
use std::sync::Wait;

impl Shared {
    /// A turn of any pass: it takes the far lock, is counted and does its job, and gives the lock
    /// back, while others pin, unpin, read and write. It is answered as a turn over any desk, but
    /// that a read is made under a pin beside those of the scope: it tries again where its exchange
    /// found another word, and is answered Moving or Crowded where the pin's look found a word that
    /// is Moving or has 1,023 pins. After a swap-in that was answered Freed it looks at the object,
    /// whose freed entry is read where the pass knows it. Where there is no memory, the turn is
    /// counted and what its parts did before stays. Of a job that hands no order out and takes
    /// none; the pass keeps the order that it has. Waits for the lock.
    pub fn turn<R: Wait>(
        &self,
        rt: &R,
        alloc: Global,
        pass: &mut Pass,
        job: &Job,
    ) -> Result<Reply, NoMemory>
        requires of { IsPassOf self.now pass.old }
        requires job { IsJob self.now.config job.now }
        requires alone { NeedsNoOrder job.now }
        requires knows { KnowsOf job.now (record_of pass.old) }
        ensures of { IsPassOf self.now pass.new }
        ensures turn { TurnFinds self.now.config job.now result (record_of pass.old)
            (record_of pass.new) }
        ensures new { IfOk result (λ reply. MakesNew self.now.board.shared.key.first job.now reply
            (record_of pass.old)) }
        ensures no_frame { IfOk result (λ reply. reply ≡ answer.NoFrame → ⊥) }
    {
        let reply = self.turn_within(rt, alloc, pass, job);
        self.find_swapped(rt, pass, swapped_of(job, &reply));
        reply
    }

    /// Looks for the freed entry of an object, if there is one.
    pub(crate) fn find_swapped<R: Wait>(&self, rt: &R, pass: &mut Pass, freed: Option<u32>)
        requires of { IsPassOf self.now pass.old }
        requires handle { IsBelow self.now.config freed }
        ensures of { IsPassOf self.now pass.new }
        ensures finds { (d : Part) × Grows (record_of pass.old) d (record_of pass.new)
            × FindsKnown freed (record_of pass.old) d }
        ensures order { (record_of pass.new).order ≡ (record_of pass.old).order }
    {
        let config = self.config;
        find_known(rt, &self.board.shared, &mut pass.seat, &config, freed);
    }

    /// A turn as a part of a call that goes on: as `turn`, but that nothing is looked for after a
    /// swap-in.
    pub fn turn_within<R: Wait>(
        &self,
        rt: &R,
        alloc: Global,
        pass: &mut Pass,
        job: &Job,
    ) -> Result<Reply, NoMemory>
        requires of { IsPassOf self.now pass.old }
        requires job { IsJob self.now.config job.now }
        requires alone { NeedsNoOrder job.now }
        requires knows { KnowsOf job.now (record_of pass.old) }
        ensures of { IsPassOf self.now pass.new }
        ensures turn { TurnBy self.now.config job.now result (record_of pass.old)
            (record_of pass.new) }
        ensures new { IfOk result (λ reply. MakesNew self.now.board.shared.key.first job.now reply
            (record_of pass.old)) }
        ensures no_frame { IfOk result (λ reply. reply ≡ answer.NoFrame → ⊥) }
    {
        let config = self.config;
        let top = &self.board.shared;
        count_pins(&pass.pins);
        let (reply, again) = locked_turn(rt, top, &mut pass.seat, &config, alloc, job);
        find_freed(rt, top, &mut pass.seat, &config, freed_of(job, &reply));
        pass.tries = Some(again);
        reply
    }
}

/// A turn, from taking the far lock to giving it back, and whether it is made again.
fn locked_turn<R: Wait>(
    rt: &R,
    top: &Top,
    seat: &mut SeatAt,
    config: &Config,
    alloc: Global,
    job: &Job,
) -> (Result<Reply, NoMemory>, bool)
    requires of { IsOf top.now.table_id top.now.key config.now seat.old }
    requires rest { IsAtRest config.now (record_at seat.old) }
    requires slots { seat.old.me.1 ≡ [] }
    requires few { length (record_at seat.old).pins ≤ 16 }
    requires config { IsAccepted config.now }
    requires job { IsJob config.now job.now }
    requires alone { NeedsNoOrder job.now }
    requires knows { KnowsOf job.now (record_at seat.old) }
    ensures same { (seat.new.table_id ≡ seat.old.table_id) × (seat.new.id ≡ seat.old.id)
        × (seat.new.me.1 ≡ []) }
    ensures turn { TurnedBy config.now job.now result.0 (record_at seat.old).order
        (record_at seat.old) (record_at seat.new) }
    ensures again { tries_of (record_at seat.new) ≡ Some result.1 }
    ensures new { IfOk result.0
        (λ reply. MakesNew top.now.key.first job.now reply (record_at seat.old)) }
    ensures no_frame { IfOk result.0 (λ reply. reply ≡ answer.NoFrame → ⊥) }
{
    let mut far = lock_far(rt, top, seat, config);
    let reply = work(rt, top, seat, config, &mut *far.state, alloc, job);
    let again = is_to_try_again(config, &far.state, None, job, &reply);
    give_far::<Brand, _>(top, seat, config, (job, &reply), far);
    (reply, again)
}
