//! Threads that make the calls of a slice at once, each on an object of its own, or on one object:
//! they wait for it while its batch is leaving, or make turns while it leaves and comes back.
ghost use Rattle.std.specs.Prelude.{◌<◌, All, IfSome};
ghost use Rattle.cb_shared.specs.Passes.{IsPassOf};
ghost use Rattle.cb_shared_bench.specs.Callers.{IsCaller};

use crate::calls::{time, turn};
use crate::deeds::{Deed, deed_at, threads_of};
use crate::objects::{begun, object};
use cb_shared::{Pass, Shared};
use cb_types::{Handle, Job};
use std::alloc::Global;
use std::sync::Wait;
use std::thread;
use std::thread::Threads;
use std::time::Clock;

/// What a thread is given.
#[derive(Drop)]
struct Part {
    pass: Pass,
    handle: Handle,
    deed: Deed,
    seed: u8,
}

/// A pass of a part of the share, which knows the object too.
fn split(shared: &Shared, first: &mut Pass, h: Handle) -> Pass
    requires caller { IsCaller shared.now h first.old }
    requires share { 1 < first.old.seat.me.0.share }
    ensures of { IsPassOf shared.now first.new }
    ensures left { IsCaller shared.now h first.new }
    ensures caller { IsCaller shared.now h result }
{
    let _h = h;
    shared.split(first, 1)
}

/// What one thread is given.
fn part_for<R: Wait>(
    rt: &R,
    alloc: Global,
    shared: &Shared,
    first: &mut Pass,
    deed: Deed,
    seed: u8,
) -> Option<Part>
    requires of { IsPassOf shared.now first.old }
    ensures of { IsPassOf shared.now first.new }
    ensures caller { IfSome result (λ x. IsCaller shared.now x.handle x.pass) }
{
    match object(rt, alloc, shared, first, deed) {
        Some(handle) if first.share() > 1 => Some(Part {
            pass: split(shared, first, handle),
            handle,
            deed,
            seed,
        }),
        _ => None,
    }
}

/// What one more thread is given; false where there is nothing to give.
fn deal_one<R: Wait>(
    rt: &R,
    alloc: Global,
    shared: &Shared,
    first: &mut Pass,
    deed: Deed,
    seed: u8,
    parts: &mut Vec<Part>,
) -> bool
    requires of { IsPassOf shared.now first.old }
    requires callers { All (λ x. IsCaller shared.now x.handle x.pass) parts.old.items }
    ensures of { IsPassOf shared.now first.new }
    ensures callers { All (λ x. IsCaller shared.now x.handle x.pass) parts.new.items }
{
    match part_for(rt, alloc, shared, first, deed, seed) {
        Some(part) => parts.push(part).is_ok(),
        None => false,
    }
}

/// What each thread is given.
fn deal<R: Wait>(
    rt: &R,
    alloc: Global,
    shared: &Shared,
    first: &mut Pass,
    deed: Deed,
    threads: u32,
) -> Option<Vec<Part>>
    requires of { IsPassOf shared.now first.old }
    ensures callers { IfSome result (λ v.
        All (λ x. IsCaller shared.now x.handle x.pass) v.items) }
{
    let mut parts = Vec::new(alloc);
    for thread in 0..threads {
        if !deal_one(
            rt,
            alloc,
            shared,
            first,
            deed,
            1 + (thread % 16) as u8,
            &mut parts,
        ) {
            return None;
        }
    }
    Some(parts)
}

/// What one more thread is given on an object that the others have too.
fn part_on(shared: &Shared, first: &mut Pass, h: Handle, deed: Deed) -> Option<Part>
    requires caller { IsCaller shared.now h first.old }
    ensures left { IsCaller shared.now h first.new }
    ensures caller { IfSome result (λ x. IsCaller shared.now x.handle x.pass) }
{
    if first.share() > 1 {
        Some(Part {
            pass: split(shared, first, h),
            handle: h,
            deed,
            seed: 1,
        })
    } else {
        None
    }
}

/// What one more thread is given on an object that the others have too; false where there is
/// nothing to give.
fn deal_same(
    shared: &Shared,
    first: &mut Pass,
    h: Handle,
    deed: Deed,
    parts: &mut Vec<Part>,
) -> bool
    requires caller { IsCaller shared.now h first.old }
    requires callers { All (λ x. IsCaller shared.now x.handle x.pass) parts.old.items }
    ensures left { IsCaller shared.now h first.new }
    ensures callers { All (λ x. IsCaller shared.now x.handle x.pass) parts.new.items }
{
    match part_on(shared, first, h, deed) {
        Some(part) => parts.push(part).is_ok(),
        None => false,
    }
}

/// What the threads are given that work on one object.
fn deal_on(
    alloc: Global,
    shared: &Shared,
    first: &mut Pass,
    h: Handle,
    deed: Deed,
    threads: u32,
) -> Option<Vec<Part>>
    requires caller { IsCaller shared.now h first.old }
    ensures callers { IfSome result (λ v.
        All (λ x. IsCaller shared.now x.handle x.pass) v.items) }
{
    let mut parts = Vec::new(alloc);
    for thread in 0..threads_of(deed, threads) {
        if !deal_same(shared, first, h, deed_at(deed, thread), &mut parts) {
            return None;
        }
    }
    Some(parts)
}

/// Lets the batch begin to leave for whose object threads wait.
fn prepare<R: Wait>(
    rt: &R,
    alloc: Global,
    shared: &Shared,
    first: &mut Pass,
    h: Handle,
    deed: Deed,
) -> bool
    requires caller { IsCaller shared.now h first.old }
    ensures caller { IsCaller shared.now h first.new }
{
    match deed {
        Deed::Await => turn(rt, alloc, shared, first, h, &Job::Begin),
        _ => true,
    }
}

/// What each thread is given where they work on one object.
fn deal_together<R: Wait>(
    rt: &R,
    alloc: Global,
    shared: &Shared,
    first: &mut Pass,
    deed: Deed,
    threads: u32,
) -> Option<Vec<Part>>
    requires of { IsPassOf shared.now first.old }
    ensures callers { IfSome result (λ v.
        All (λ x. IsCaller shared.now x.handle x.pass) v.items) }
{
    match object(rt, alloc, shared, first, deed) {
        Some(h) => {
            if prepare(rt, alloc, shared, first, h, deed) {
                deal_on(alloc, shared, first, h, deed, threads)
            } else {
                None
            }
        }
        None => None,
    }
}

/// What each thread is given for a deed.
fn deal_for<R: Wait>(
    rt: &R,
    alloc: Global,
    shared: &Shared,
    first: &mut Pass,
    deed: Deed,
    threads: u32,
) -> Option<Vec<Part>>
    requires of { IsPassOf shared.now first.old }
    ensures callers { IfSome result (λ v.
        All (λ x. IsCaller shared.now x.handle x.pass) v.items) }
{
    match deed {
        Deed::Await | Deed::Alone(_) | Deed::Beside(_) => {
            deal_together(rt, alloc, shared, first, deed, threads)
        }
        _ => deal(rt, alloc, shared, first, deed, threads),
    }
}

/// The calls of one thread.
fn work<R: Clock + Wait>(rt: &R, alloc: Global, shared: &Shared, part: Part) -> Option<u64>
    requires { IsCaller shared.now part.handle part.pass }
{
    let Part {
        mut pass,
        handle,
        deed,
        seed,
    } = part;
    time(rt, alloc, shared, &mut pass, handle, deed, seed)
}

/// The calls of each thread at once; their times.
fn scatter<R: Clock + Threads + Wait + Sync>(
    rt: &R,
    alloc: Global,
    shared: &Shared,
    parts: Vec<Part>,
) -> Option<Vec<Option<u64>>>
    requires { All (λ x. IsCaller shared.now x.handle x.pass) parts.items }
{
    thread::map_vec(
        rt,
        parts,
        &|part: Part| -> Option<u64>
            requires { IsCaller shared.now part.handle part.pass }
        { work(rt, alloc, shared, part) },
    )
    .ok()
}

/// The longest time.
fn longest(times: &[Option<u64>]) -> Option<u64> {
    let mut most = 0;
    for time in times {
        most = most.max((*time)?);
    }
    Some(most)
}

/// The time of the slowest thread.
fn run<R: Clock + Threads + Wait + Sync>(
    rt: &R,
    alloc: Global,
    shared: &Shared,
    first: &mut Pass,
    deed: Deed,
    threads: u32,
) -> Option<u64>
    requires of { IsPassOf shared.now first.old }
{
    let parts = deal_for(rt, alloc, shared, first, deed, threads)?;
    let times = scatter(rt, alloc, shared, parts)?;
    longest(times.as_slice())
}

/// How many turns the second thread made beside the rounds of the first, and the time of these in
/// nanoseconds.
fn both(times: &[Option<u64>]) -> Option<(u64, u64)> {
    let took = (*times.first()?)?;
    let turns = (*times.get(1)?)?;
    Some((turns, took))
}

/// Turns beside rounds: how many there were, and the time of the rounds in nanoseconds.
fn run_beside<R: Clock + Threads + Wait + Sync>(
    rt: &R,
    alloc: Global,
    shared: &Shared,
    first: &mut Pass,
    deed: Deed,
) -> Option<(u64, u64)>
    requires of { IsPassOf shared.now first.old }
{
    let parts = deal_for(rt, alloc, shared, first, deed, 2)?;
    let times = scatter(rt, alloc, shared, parts)?;
    both(times.as_slice())
}

/// The same, in a runtime of its own with so many data positions.
pub(crate) fn beside<R: Clock + Threads + Wait + Sync>(
    rt: &R,
    alloc: Global,
    deed: Deed,
    k: u32,
) -> Option<(u64, u64)> {
    match begun(alloc, k) {
        Ok((shared, mut first)) => run_beside(rt, alloc, &shared, &mut first, deed),
        Err(_) => None,
    }
}

/// The time of the slowest thread of a slice in nanoseconds, in a runtime of its own with so many
/// data positions.
pub(crate) fn slice<R: Clock + Threads + Wait + Sync>(
    rt: &R,
    alloc: Global,
    deed: Deed,
    threads: u32,
    k: u32,
) -> Option<u64> {
    match begun(alloc, k) {
        Ok((shared, mut first)) => run(rt, alloc, &shared, &mut first, deed, threads),
        Err(_) => None,
    }
}
