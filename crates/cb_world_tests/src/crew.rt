//! Four threads over the same objects.
ghost use Rattle.std.specs.Prelude.{All, IfOk, OnOk};
ghost use Rattle.cb_world_tests.specs.Callers.{IsCaller};

use crate::asking::{Asks, By, Call};
use crate::bodies::{Body, OBJECTS, Work};
use crate::notes::{MORTAL, Note, last};
use crate::rounds::{End, Part, THREADS, noted_call, work_through};
use cb_shared::{Pass, Shared};
use cb_types::{Handle, NoMemory};
use std::alloc::Global;
use std::sync::Wait;
use std::thread;
use std::thread::Threads;

/// The share of each thread's pass.
const SHARE: u32 = 8;

/// A pass for each thread.
fn deal(
    shared: &Shared,
    objects: &[Handle],
    first: &mut Pass,
    work: Work,
    parts: &mut Vec<Part>,
) -> Result<(), NoMemory>
    requires caller { IsCaller shared.now objects.now first.old }
    requires parts { All (λ x. IsCaller shared.now objects.now x.pass) parts.old.items }
    ensures caller { IsCaller shared.now objects.now first.new }
    ensures parts { OnOk result
        (All (λ x. IsCaller shared.now objects.now x.pass) parts.new.items) }
{
    for thread in 0..THREADS {
        if first.share() <= SHARE {
            return Err(NoMemory);
        }
        let pass = shared.split(first, SHARE);
        parts.push(Part { pass, thread, work })?;
    }
    Ok(())
}

/// Takes the pass of the last thread in that is left, and its notes; whether no answer was wrong.
fn take_last(
    shared: &Shared,
    objects: &[Handle],
    first: &mut Pass,
    ends: &mut Vec<Result<End, NoMemory>>,
    notes: &mut Vec<Note>,
) -> Result<bool, NoMemory>
    requires caller { IsCaller shared.now objects.now first.old }
    requires ends { All (λ r. IfOk r (λ e. IsCaller shared.now objects.now e.pass)) ends.old.items }
    ensures caller { IsCaller shared.now objects.now first.new }
    ensures ends { All (λ r. IfOk r (λ e. IsCaller shared.now objects.now e.pass)) ends.new.items }
{
    match ends.pop() {
        Some(
            Ok(
                End {
                    pass,
                    notes: more,
                    is_right,
                },
            ),
        ) => {
            shared.join_pass(first, pass);
            notes.extend_from_slice(more.as_slice())?;
            Ok(is_right)
        }
        _ => Err(NoMemory),
    }
}

/// Takes all passes in; whether no answer was wrong.
fn gather(
    shared: &Shared,
    objects: &[Handle],
    first: &mut Pass,
    ends: &mut Vec<Result<End, NoMemory>>,
    notes: &mut Vec<Note>,
) -> Result<bool, NoMemory>
    requires caller { IsCaller shared.now objects.now first.old }
    requires ends { All (λ r. IfOk r (λ e. IsCaller shared.now objects.now e.pass)) ends.old.items }
    ensures caller { IsCaller shared.now objects.now first.new }
{
    let mut is_right = true;
    'ends: for _ in 0..THREADS {
        is_right &= take_last(shared, objects, first, ends, notes)?;
    }
    Ok(is_right)
}

/// All rounds of all threads, each in a thread of its own, by passes that are split off and taken
/// in, where threads are to run; whether no answer was wrong.
pub(crate) fn run_crew<R: Threads + Wait + Sync>(
    rt: &R,
    alloc: Global,
    shared: &Shared,
    objects: &[Handle],
    first: &mut Pass,
    body: Body,
    notes: &mut Vec<Note>,
) -> Result<bool, NoMemory>
    requires caller { IsCaller shared.now objects.now first.old }
    ensures caller { IsCaller shared.now objects.now first.new }
{
    let Body::Crew(work) = body else {
        return Ok(true);
    };
    let mut parts = Vec::new(alloc);
    deal(shared, objects, first, work, &mut parts)?;
    let mut ends = thread::map_vec(
        rt,
        parts,
        &|part: Part| -> Result<End, NoMemory>
            requires { IsCaller shared.now objects.now part.pass }
            ensures { IfOk result (λ e. IsCaller shared.entry.now objects.entry.now e.pass) }
        { work_through(rt, alloc, shared, objects, part) },
    )?;
    gather(shared, objects, first, &mut ends, notes)
}

/// After the threads: each object was written where it is, or the one that may be freed is freed.
pub(crate) fn are_settled<A: Asks>(
    asked: &mut A,
    work: Work,
    notes: &mut Vec<Note>,
) -> Result<bool, NoMemory>
    requires { A.keeps asked.old asked.old }
    ensures { A.keeps asked.old asked.new }
{
    match work {
        Work::Here => Ok(are_written(notes.as_slice())),
        Work::Far => noted_call(asked, MORTAL, By::Itself, Call::Free, 0, notes),
    }
}

/// Whether each object was written.
fn are_written(notes: &[Note]) -> bool {
    let mut all = true;
    for object in 0..OBJECTS {
        all &= last(notes, object) > 1;
    }
    all
}
