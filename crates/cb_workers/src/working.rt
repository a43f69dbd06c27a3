//! How a worker makes its turns.
ghost use Rattle.std.specs.Prelude.{◌≡◌, IfOk, OnErr, IsOk, Some, is_some};
ghost use Rattle.cb_types.specs.declared.job.Job.TheVariants as jobs;
ghost use Rattle.cb_types.specs.declared.order.EncodeOrder.{EncodeOrder};
ghost use Rattle.cb_evict.specs.declared.gathering.Gathered.TheVariants as gathered;
ghost use Rattle.cb_core.specs.Jobs.{NeedsNoOrder};
ghost use Rattle.cb_core.specs.Ordered.{gather_answer};
ghost use Rattle.cb_shared.specs.Passes.{IsPassOf};
ghost use Rattle.cb_shared.specs.Turning.{answer_of};
ghost use Rattle.cb_workers.specs.Bodies.{
  AddsTurns,
  Cuts,
  EndsBegun,
  HandsOver,
  HasMade,
  HasOrder,
  IsAtHand,
  IsEnd,
  IsOwed,
  Lacks,
  Steps,
  TellsNoBatch,
  WorkerStops,
  WorkerWorks,
  one_deed,
};
ghost use Rattle.cb_workers.specs.Rules.{end_of, first_job, owner};
ghost use Rattle.cb_workers.specs.Work.{lack_of};
ghost use Rattle.cb_workers.specs.declared.worker.Worker.TheVariants as worker;

use crate::turns::end_of;
use crate::worker::Worker;
use cb_core::Gathered;
use cb_orders::run_encode;
use cb_shared::{Pass, Shared};
use cb_types::{EncodeOrder, Gate, Job, NoMemory, Reply, SetId};
use std::alloc::Global;
use std::sync::Wait;

/// A worker's turns, and the end of what it had begun after the last one, or after the one for
/// which there was no memory.
pub(crate) fn work<R: Wait, G: Gate>(
    rt: &R,
    alloc: Global,
    shared: &Shared,
    pass: &mut Pass,
    worker: Worker,
    turns: u32,
    gate: &G,
) -> Result<(), NoMemory>
    requires of { IsPassOf shared.now pass.old }
    ensures works { IfOk result (λ _. WorkerWorks shared.now worker turns pass.old pass.new) }
    ensures stopped { OnErr result (WorkerStops shared.now worker turns pass.old pass.new) }
{
    let mut due = worker.first();
    let made = make_turns(rt, alloc, shared, pass, worker, turns, gate, &mut due);
    if end_work(rt, alloc, shared, pass, &due) {
        gate.after(worker.lane(), turns);
    }
    made
}

/// So many turns, as long as there is memory. What is left is the job that is due: the next one, or
/// that for which there was no memory.
fn make_turns<R: Wait, G: Gate>(
    rt: &R,
    alloc: Global,
    shared: &Shared,
    pass: &mut Pass,
    worker: Worker,
    turns: u32,
    gate: &G,
    due: &mut Job,
) -> Result<(), NoMemory>
    requires of { IsPassOf shared.now pass.old }
    requires first { due.old ≡ first_job worker }
    ensures of { IsPassOf shared.now pass.new }
    ensures made { IfOk result (λ _. HasMade shared.now.config worker turns due.new
        pass.old.seat.me.0 pass.new.seat.me.0) }
    ensures cut { OnErr result (Cuts shared.now.config worker turns due.new
        pass.old.seat.me.0 pass.new.seat.me.0) }
{
    let mut order = None;
    for number in 0..turns {
        step(rt, alloc, shared, pass, worker, due, &mut order)?;
        gate.after(worker.lane(), number);
    }
    Ok(())
}

/// A turn with the job that is due, after which another one is due. The order of a batch is kept at
/// hand until its install.
fn step<R: Wait>(
    rt: &R,
    alloc: Global,
    shared: &Shared,
    pass: &mut Pass,
    worker: Worker,
    due: &mut Job,
    order: &mut Option<EncodeOrder>,
) -> Result<(), NoMemory>
    requires of { IsPassOf shared.now pass.old }
    requires owed { IsOwed shared.now.config.handles due.old }
    requires own { owner due.old ≡ Some worker }
    requires order { HasOrder due.old order.old pass.old.seat.me.0 }
    ensures of { IsPassOf shared.now pass.new }
    ensures order { IfOk result (λ _. HasOrder due.new order.new pass.new.seat.me.0) }
    ensures steps { IfOk result (λ _. Steps shared.now.config worker due.old due.new
        pass.old.seat.me.0 pass.new.seat.me.0) }
    ensures lacks { OnErr result (Lacks shared.now.config due.old due.new pass.old.seat.me.0
        pass.new.seat.me.0) }
{
    let reply = due_turn(rt, alloc, shared, pass, due, order)?;
    *due = worker.next(shared.config().handles, due, &reply);
    Ok(())
}

/// A turn with the job that is due: a gather puts an order at hand, and an install takes it.
fn due_turn<R: Wait>(
    rt: &R,
    alloc: Global,
    shared: &Shared,
    pass: &mut Pass,
    due: &Job,
    order: &mut Option<EncodeOrder>,
) -> Result<Reply, NoMemory>
    requires of { IsPassOf shared.now pass.old }
    requires owed { IsOwed shared.now.config.handles due.now }
    requires order { HasOrder due.now order.old pass.old.seat.me.0 }
    ensures of { IsPassOf shared.now pass.new }
    ensures adds { IfOk result (λ reply. AddsTurns shared.now.config (one_deed due.now (Some reply))
        pass.old.seat.me.0 pass.new.seat.me.0) }
    ensures lacks { OnErr result (AddsTurns shared.now.config (lack_of due.now) pass.old.seat.me.0
        pass.new.seat.me.0) }
    ensures hands { IfOk result (λ reply. HandsOver due.now reply order.new pass.new.seat.me.0) }
{
    match due {
        Job::Gather => take_order(shared.gather(rt, alloc, pass), order),
        Job::Install => install_parities(rt, alloc, shared, pass, order),
        _ => one_turn(rt, alloc, shared, pass, due),
    }
}

/// The reply of a gather so answered. An order that it handed out is at hand from here.
fn take_order(
    answer: Result<Gathered, NoMemory>,
    order: &mut Option<EncodeOrder>,
) -> Result<Reply, NoMemory>
    ensures told { result ≡ gather_answer answer }
    ensures handed { IfOk answer (λ g. (o : EncodeOrder) → g ≡ gathered.Order o
        → order.new ≡ Some o) }
{
    match answer {
        Ok(Gathered::Order(given)) => {
            let set = SetId { n: given.set };
            *order = Some(given);
            Ok(Reply::Batch { set })
        }
        Ok(Gathered::Answer(reply)) => Ok(reply),
        Err(e) => Err(e),
    }
}

/// Runs the order that is at hand, outside of the far lock, and installs its parities. Where there
/// was no memory for them, no turn was made.
fn install_parities<R: Wait>(
    rt: &R,
    alloc: Global,
    shared: &Shared,
    pass: &mut Pass,
    order: &mut Option<EncodeOrder>,
) -> Result<Reply, NoMemory>
    requires of { IsPassOf shared.now pass.old }
    requires order { IsAtHand order.old pass.old.seat.me.0 }
    ensures of { IsPassOf shared.now pass.new }
    ensures adds { IfOk result (λ reply. AddsTurns shared.now.config (one_deed jobs.Install (Some reply))
        pass.old.seat.me.0 pass.new.seat.me.0) }
    ensures same { OnErr result (pass.new ≡ pass.old) }
    ensures begins { IfOk result TellsNoBatch }
{
    let Some(given) = order.take() else {
        unreachable!()
    };
    match run_encode(alloc, given) {
        Ok(done) => Ok(shared.install(rt, pass, done)),
        Err(_) => Err(NoMemory),
    }
}

/// Ends what was begun, where the job that is due would go on with it. That takes no memory. The
/// answer is whether there was something to end.
fn end_work<R: Wait>(rt: &R, alloc: Global, shared: &Shared, pass: &mut Pass, due: &Job) -> bool
    requires of { IsPassOf shared.now pass.old }
    ensures of { IsPassOf shared.now pass.new }
    ensures ends { EndsBegun shared.now.config due.now pass.old.seat.me.0 pass.new.seat.me.0 }
    ensures told { result ≡ is_some (end_of due.now) }
{
    if let Some(job) = end_of(due) {
        let _reply = one_turn(rt, alloc, shared, pass, &job);
        return true;
    }
    false
}

/// A turn of a worker: nothing but the turn itself comes to the record of its pass.
fn one_turn<R: Wait>(
    rt: &R,
    alloc: Global,
    shared: &Shared,
    pass: &mut Pass,
    job: &Job,
) -> Result<Reply, NoMemory>
    requires of { IsPassOf shared.now pass.old }
    requires owed { IsOwed shared.now.config.handles job.now }
    requires alone { NeedsNoOrder job.now }
    ensures of { IsPassOf shared.now pass.new }
    ensures adds { AddsTurns shared.now.config (one_deed job.now (answer_of result)) pass.old.seat.me.0
        pass.new.seat.me.0 }
    ensures begins { IfOk result (λ reply. owner job.now ≡ Some worker.Evict
        → TellsNoBatch reply) }
    ensures memory { IsEnd job.now → IsOk result }
{
    shared.turn_within(rt, alloc, pass, job)
}
