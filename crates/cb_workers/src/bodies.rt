//! The bodies of the workers: each makes so many turns of its own pass.
ghost use Rattle.std.specs.Prelude.{IfOk, IfErr};
ghost use Rattle.cb_shared.specs.Passes.{IsPassOf};
ghost use Rattle.cb_workers.specs.Bodies.{WorkerStops, WorkerWorks};
ghost use Rattle.cb_workers.specs.declared.worker.Worker.TheVariants as worker;

use crate::worker::Worker;
use crate::working::work;
use cb_shared::{Pass, Shared};
use cb_types::Gate;
use std::alloc::Global;
use std::sync::Wait;

/// What is left of a worker that found no memory: its pass.
#[derive(Drop)]
pub struct Stopped {
    pub pass: Pass,
}

/// Moves the objects to spans of their temperature, one a turn, by their handles, again and again.
pub fn filter_body<R: Wait, G: Gate>(
    rt: &R,
    alloc: Global,
    shared: &Shared,
    pass: Pass,
    turns: u32,
    gate: &G,
) -> Result<Pass, Stopped>
    requires of { IsPassOf shared.now pass }
    ensures works { IfOk result (λ p. WorkerWorks shared.now worker.Filter turns pass p) }
    ensures stopped { IfErr result (λ s. WorkerStops shared.now worker.Filter turns pass s.pass) }
{
    worker_body(rt, alloc, shared, pass, Worker::Filter, turns, gate)
}

/// Lets batches of spans leave local memory, a step a turn. The parities of a batch are made
/// between two turns, outside of the far lock. A batch that is leaving after the last turn is
/// aborted.
pub fn evict_body<R: Wait, G: Gate>(
    rt: &R,
    alloc: Global,
    shared: &Shared,
    pass: Pass,
    turns: u32,
    gate: &G,
) -> Result<Pass, Stopped>
    requires of { IsPassOf shared.now pass }
    ensures works { IfOk result (λ p. WorkerWorks shared.now worker.Evict turns pass p) }
    ensures stopped { IfErr result (λ s. WorkerStops shared.now worker.Evict turns pass s.pass) }
{
    worker_body(rt, alloc, shared, pass, Worker::Evict, turns, gate)
}

/// Lets pairs of span-sets become one, a step a turn. A pair that is joining after the last turn is
/// parted.
pub fn compact_body<R: Wait, G: Gate>(
    rt: &R,
    alloc: Global,
    shared: &Shared,
    pass: Pass,
    turns: u32,
    gate: &G,
) -> Result<Pass, Stopped>
    requires of { IsPassOf shared.now pass }
    ensures works { IfOk result (λ p. WorkerWorks shared.now worker.Compact turns pass p) }
    ensures stopped { IfErr result (λ s. WorkerStops shared.now worker.Compact turns pass s.pass) }
{
    worker_body(rt, alloc, shared, pass, Worker::Compact, turns, gate)
}

/// Makes lost rows again, one a turn.
pub fn rebuild_body<R: Wait, G: Gate>(
    rt: &R,
    alloc: Global,
    shared: &Shared,
    pass: Pass,
    turns: u32,
    gate: &G,
) -> Result<Pass, Stopped>
    requires of { IsPassOf shared.now pass }
    ensures works { IfOk result (λ p. WorkerWorks shared.now worker.Rebuild turns pass p) }
    ensures stopped { IfErr result (λ s. WorkerStops shared.now worker.Rebuild turns pass s.pass) }
{
    worker_body(rt, alloc, shared, pass, Worker::Rebuild, turns, gate)
}

/// Makes a worker's turns. Where there is no memory for one, or for the parities that one is to
/// install, what was begun is ended, so that no other pass waits for it, and the pass comes back.
pub fn worker_body<R: Wait, G: Gate>(
    rt: &R,
    alloc: Global,
    shared: &Shared,
    mut pass: Pass,
    worker: Worker,
    turns: u32,
    gate: &G,
) -> Result<Pass, Stopped>
    requires of { IsPassOf shared.now pass }
    ensures works { IfOk result (λ p. WorkerWorks shared.now worker turns pass p) }
    ensures stopped { IfErr result (λ s. WorkerStops shared.now worker turns pass s.pass) }
{
    match work(rt, alloc, shared, &mut pass, worker, turns, gate) {
        Ok(()) => Ok(pass),
        Err(_) => Err(Stopped { pass }),
    }
}
