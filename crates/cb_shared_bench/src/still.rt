//! Reads of one object in a still world, where nothing else is done.
ghost use Rattle.std.specs.Prelude.{◌≡◌, true, IfOk, IfSome};
ghost use Rattle.cb_core.specs.declared.event.Event.TheVariants.{Turn};
ghost use Rattle.cb_core.specs.Events.{IsEvent};
ghost use Rattle.cb_shared_bench.specs.Callers.{IsBenchWorld, the_config};

use crate::objects::{BYTES, CONFIG};
use crate::replies::is_right;
use crate::timing::{now, since};
use cb_core::{Event, step};
use cb_types::{Bytes, Handle, Job, NoMemory};
use cb_world::World;
use std::alloc::Global;
use std::time::Clock;

/// A turn; whether its reply is one that is waited for.
fn turn(alloc: Global, world: &mut World, event: &Event) -> bool
    requires still { IsBenchWorld world.old }
    requires event { IsEvent the_config event.now }
    ensures still { result ≡ true → IsBenchWorld world.new }
{
    let reply = step(alloc, world, event);
    is_right(&reply)
}

/// Makes an object.
fn make(alloc: Global, world: &mut World) -> bool
    requires still { IsBenchWorld world.old }
    ensures still { result ≡ true → IsBenchWorld world.new }
{
    match Bytes::copy_of(alloc, &[1u8; BYTES]) {
        Ok(bytes) => turn(alloc, world, &the_turn(Job::Make { bytes })),
        Err(_) => false,
    }
}

/// The turn of the first seat with this job.
fn the_turn(job: Job) -> Event
    ensures { result ≡ Turn 0 job }
{
    Event::Turn { seat: 0, job }
}

/// So many reads of an object that is here, and their time.
fn time_reads<R: Clock>(
    rt: &R,
    alloc: Global,
    world: &mut World,
    read: &Event,
    count: u32,
) -> Option<u64>
    requires still { IsBenchWorld world.old }
    requires read { IsEvent the_config read.now }
{
    let start = now(rt)?;
    for _ in 0..count {
        if !turn(alloc, world, read) {
            return None;
        }
    }
    since(rt, start)
}

/// Lets the object leave, and reads it; the time of the read.
fn time_far_read<R: Clock>(
    rt: &R,
    alloc: Global,
    world: &mut World,
    read: &Event,
    evict: &Event,
) -> Option<u64>
    requires still { IsBenchWorld world.old }
    requires read { IsEvent the_config read.now }
    requires evict { IsEvent the_config evict.now }
    ensures still { IfSome result (λ _. IsBenchWorld world.new) }
{
    if !turn(alloc, world, evict) {
        return None;
    }
    let start = now(rt)?;
    if !turn(alloc, world, read) {
        return None;
    }
    since(rt, start)
}

/// So many reads of an object that is far, and their time.
fn time_far_reads<R: Clock>(
    rt: &R,
    alloc: Global,
    world: &mut World,
    read: &Event,
    evict: &Event,
    count: u32,
) -> Option<u64>
    requires still { IsBenchWorld world.old }
    requires read { IsEvent the_config read.now }
    requires evict { IsEvent the_config evict.now }
{
    let mut sum = 0u64;
    for _ in 0..count {
        sum = sum.saturating_add(time_far_read(rt, alloc, world, read, evict)?);
    }
    Some(sum)
}

/// Makes an object, and reads it so often.
fn time<R: Clock>(rt: &R, alloc: Global, world: &mut World, count: u32, is_far: bool) -> Option<u64>
    requires still { IsBenchWorld world.old }
{
    if !make(alloc, world) {
        return None;
    }
    let handle = Handle { n: 0 };
    let read = the_turn(Job::Read { handle });
    if is_far {
        time_far_reads(rt, alloc, world, &read, &the_turn(Job::Evict), count)
    } else {
        time_reads(rt, alloc, world, &read, count)
    }
}

/// A world in which nothing was made.
fn empty(alloc: Global) -> Result<World, NoMemory>
    ensures { IfOk result IsBenchWorld }
{
    let Ok(()) = CONFIG.check() else {
        return Err(NoMemory);
    };
    World::new(alloc, CONFIG)
}

/// The time of so many reads in nanoseconds, in a world of its own.
pub(crate) fn slice<R: Clock>(rt: &R, alloc: Global, count: u32, is_far: bool) -> Option<u64> {
    match empty(alloc) {
        Ok(mut world) => {
            let time = time(rt, alloc, &mut world, count, is_far);
            world.end();
            time
        }
        Err(_) => None,
    }
}
