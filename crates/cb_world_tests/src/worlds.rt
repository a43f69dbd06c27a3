//! Worlds in which nothing was made, and the tests of them. One function owns them all, and gives
//! each one up, so that none is proved to drop a world.
ghost use Rattle.std.specs.Prelude.{◌≡◌, IfOk, OnOk};
ghost use Rattle.cb_core.specs.Jobs.{IsJob, NeedsNoOrder};
ghost use Rattle.cb_world.specs.World.{IsSoundWorld};
ghost use Rattle.cb_world_tests.specs.Worlds.{IsSmallWorld, small};

use crate::acting::{Case, LENGTHS, ON_NOTHING, WRITES, WRITTEN, is_told};
use crate::far_core::read_behind_a_crash;
use crate::seats::{AtSeats, are_told_in_a_run};
use crate::told::shows;
use cb_core::{Event, step};
use cb_types::{Config, Job, NoMemory, Reply};
use cb_world::World;
use std::alloc::Global;
use std::test::Fail;

/// Eight frames, six nodes and sixteen handles.
pub(crate) const SMALL: Config = Config {
    k: 2,
    r: 2,
    nodes: 6,
    frames: 8,
    room: 64,
    handles: 16,
    turns: 0,
};

/// A world in which nothing was made.
fn empty_world(alloc: Global, config: Config) -> Result<World, NoMemory>
    ensures sound { IfOk result IsSoundWorld }
    ensures settings { IfOk result (λ world. world.desk.settings ≡ config) }
{
    let Ok(()) = config.check() else {
        return Err(NoMemory);
    };
    World::new(alloc, config)
}

/// The reply of a turn of a small world, after which more may come.
pub(crate) fn turn_of(alloc: Global, world: &mut World, job: Job) -> Result<Reply, NoMemory>
    requires world { IsSmallWorld world.old }
    requires job { IsJob small job }
    requires alone { NeedsNoOrder job }
    ensures world { OnOk result (IsSmallWorld world.new) }
{
    step(alloc, world, &Event::Turn { seat: 0, job })
}

/// Whether what is looked at in a small world is as it should be.
fn is_seen(alloc: Global, world: &mut World, case: Case) -> Result<bool, NoMemory>
    requires { IsSmallWorld world.old }
{
    match case {
        Case::OnNothing => are_told_in_a_run(alloc, world, &ON_NOTHING, &[]),
        Case::WritesInARun => are_told_in_a_run(alloc, world, &WRITES, WRITTEN),
        Case::Crash => Ok(shows(&read_behind_a_crash(alloc, world)?, b"hello")),
        _ => by_seats(alloc, world, case),
    }
}

/// The same, of what its seats do one after another.
fn by_seats(alloc: Global, world: &mut World, case: Case) -> Result<bool, NoMemory>
    requires { IsSoundWorld world.old }
{
    let mut seats = AtSeats { alloc, world };
    let holds = is_told(&mut seats, case);
    let AtSeats { alloc: _, world: _ } = seats;
    holds
}

/// The same of a world of its own.
fn holds(alloc: Global, case: Case) -> Result<bool, NoMemory> {
    let mut world = empty_world(alloc, SMALL)?;
    let holds = is_seen(alloc, &mut world, case);
    world.end();
    holds
}

/// The same of each of these.
fn all_hold(alloc: Global, cases: &[Case]) -> Result<bool, NoMemory> {
    let mut all = true;
    for case in cases {
        all &= holds(alloc, *case)?;
    }
    Ok(all)
}

#[test]
fn each_length_has_a_slot_of_its_class_and_reads_back(rt: HostRuntime) -> Result<(), Fail> {
    assert!(rt; matches!(all_hold(rt.alloc(), &LENGTHS), Ok(true)));
    Ok(())
}

#[test]
fn the_words_of_an_object_hold_its_bytes_and_then_zeros(rt: HostRuntime) -> Result<(), Fail> {
    assert!(rt; matches!(holds(rt.alloc(), Case::Words), Ok(true)));
    Ok(())
}

#[test]
fn an_object_is_read_behind_a_crash(rt: HostRuntime) -> Result<(), Fail> {
    assert!(rt; matches!(holds(rt.alloc(), Case::Crash), Ok(true)));
    Ok(())
}

/// Of a run on nothing, and of a write in steps beside the far lock, event by event and in one run.
const BY_ROWS: [Case; 3] = [Case::OnNothing, Case::Writes, Case::WritesInARun];

#[test]
fn steps_and_runs_are_answered_row_by_row(rt: HostRuntime) -> Result<(), Fail> {
    assert!(rt; matches!(all_hold(rt.alloc(), &BY_ROWS), Ok(true)));
    Ok(())
}
