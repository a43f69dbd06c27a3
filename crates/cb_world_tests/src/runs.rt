//! The tests. One function owns the runtime of all, since each one that does is proved to drop it.
ghost use Rattle.std.specs.Prelude.{[], OnOk};
ghost use Rattle.cb_shared.specs.Passes.{IsPassOf};
ghost use Rattle.cb_world_tests.specs.Callers.{IsCaller};

use crate::asking::Asks;
use crate::bodies::{Body, Course, Work, plan_of};
use crate::called::Caller;
use crate::closed::{Ended, close};
use crate::crew::{are_settled, run_crew};
use crate::making::{begun, make_all};
use crate::notes::Note;
use crate::tables::are_both_answered;
use crate::values::are_values;
use cb_shared::{Pass, Shared};
use cb_types::{Handle, NoMemory};
use std::alloc::Global;
use std::mem;
use std::sync::Wait;
use std::test::Fail;
use std::thread::Threads;

/// What the first pass does, or does after the threads; whether no answer was wrong.
fn asked_through<A: Asks>(
    asked: &mut A,
    body: Body,
    notes: &mut Vec<Note>,
) -> Result<bool, NoMemory>
    requires { A.keeps asked.old asked.old }
    ensures { A.keeps asked.old asked.new }
{
    match body {
        Body::Crew(work) => are_settled(asked, work, notes),
        _ => are_both_answered(asked, body),
    }
}

/// What is done with the objects; whether no answer was wrong.
fn done<R: Threads + Wait + Sync>(
    rt: &R,
    alloc: Global,
    shared: &Shared,
    objects: &[Handle],
    first: &mut Pass,
    notes: &mut Vec<Note>,
    body: Body,
) -> Result<bool, NoMemory>
    requires caller { IsCaller shared.now objects.now first.old }
    ensures of { OnOk result (IsPassOf shared.now first.new) }
{
    let is_run = run_crew(rt, alloc, shared, objects, first, body, notes)?;
    let mut caller = Caller {
        rt,
        alloc,
        shared,
        objects,
        pass: first,
    };
    let is_right = asked_through(&mut caller, body, notes);
    let Caller {
        rt: _,
        alloc: _,
        shared: _,
        objects: _,
        pass: _,
    } = caller;
    Ok(is_run && is_right? && first.share() == plan_of(body).share)
}

/// What was done with a runtime, before it is closed. Only of threads the objects are noted.
fn ended<R: Threads + Wait + Sync>(
    rt: &R,
    alloc: Global,
    shared: &Shared,
    first: &mut Pass,
    body: Body,
) -> Result<Ended, NoMemory>
    requires caller { IsCaller shared.now [] first.old }
    ensures of { OnOk result (IsPassOf shared.now first.new) }
{
    let is_right_first = are_values(rt, alloc, shared, first, body);
    let mut objects = Vec::new(alloc);
    let mut notes = Vec::new(alloc);
    let is_made = make_all(rt, alloc, shared, &mut objects, first, body)?;
    let known = objects.as_slice();
    let is_right = done(rt, alloc, shared, known, first, &mut notes, body)?;
    if notes.is_empty() {
        objects.clear();
    }
    Ok(Ended {
        is_right: is_right_first && is_made && is_right,
        is_out: matches!(body, Body::Fills),
        given: plan_of(body).given,
        objects,
        notes,
    })
}

/// Whether no answer was wrong of what is done with a runtime, nor that of its close.
fn holds<R: Threads + Wait + Sync>(rt: &R, alloc: Global, body: Body) -> Result<bool, NoMemory> {
    let (shared, mut first) = begun(alloc, matches!(body, Body::Wears))?;
    match ended(rt, alloc, &shared, &mut first, body) {
        Ok(ended) => close(alloc, shared, first, &ended),
        Err(e) => {
            mem::forget(shared);
            Err(e)
        }
    }
}

/// Whether no answer was wrong of any of these.
fn all_hold<R: Threads + Wait + Sync>(
    rt: &R,
    alloc: Global,
    bodies: &[Body],
) -> Result<bool, NoMemory> {
    let mut all = true;
    for body in bodies {
        all &= holds(rt, alloc, *body)?;
    }
    Ok(all)
}

/// Two passes by the table; each call that tries again; turns that read back what two crashes left;
/// the end of the versions; a pass that takes all its pins beside one that is left out; and a far
/// array and a far map.
const ON_ONE_THREAD: [Body; 6] = [
    Body::TwoPasses,
    Body::Calls,
    Body::Crashes,
    Body::Wears,
    Body::Fills,
    Body::Values,
];

#[test]
fn calls_on_one_thread_are_answered_by_the_tables(rt: HostRuntime) -> Result<(), Fail> {
    assert!(rt; matches!(all_hold(&rt, rt.alloc(), &ON_ONE_THREAD), Ok(true)));
    Ok(())
}

/// A batch whose parities are made by an order, and one beside which a second pass makes turns; and
/// of a set whose data shards are lost an order that is left, and one that is landed: where nothing
/// was done meanwhile, where a row was made again, where the set is gone, where it lost more, and
/// where the object had left a set that did.
const WITH_ORDERS: [Body; 8] = [
    Body::Order(Course::Batch),
    Body::Order(Course::Batches),
    Body::Order(Course::Fetch),
    Body::Order(Course::Land),
    Body::Order(Course::Rebuild),
    Body::Order(Course::Frees),
    Body::Order(Course::Loses),
    Body::Order(Course::Strays),
];

#[test]
fn orders_are_run_between_turns_as_the_tables_say(rt: HostRuntime) -> Result<(), Fail> {
    assert!(rt; matches!(all_hold(&rt, rt.alloc(), &WITH_ORDERS), Ok(true)));
    Ok(())
}

/// Pins and writes in place, and calls beside turns that move objects.
const ON_FOUR_THREADS: [Body; 2] = [Body::Crew(Work::Here), Body::Crew(Work::Far)];

#[test]
fn four_threads_write_one_history(rt: HostRuntime) -> Result<(), Fail> {
    assert!(rt; matches!(all_hold(&rt, rt.alloc(), &ON_FOUR_THREADS), Ok(true)));
    Ok(())
}
