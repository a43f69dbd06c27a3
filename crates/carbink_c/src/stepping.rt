//! One event on a world, from C's buffers and back.

ghost use Rattle.std.specs.Prelude.{◌≡◌, ◌≤◌, length};
ghost use Rattle.cb_types.specs.Config.{most_bytes};
ghost use Rattle.cb_core.specs.Events.{IsEvent};
ghost use Rattle.cb_world.specs.World.{IsSoundWorld};
ghost use Rattle.carbink_c.specs.Asked.{event_by};
ghost use Rattle.carbink_c.specs.Handle.{IsSoundIn, world_of};
ghost use Rattle.carbink_c.specs.Outcome.{IsOutcomeOf};
ghost use Rattle.carbink_c.specs.WorldEnds.{AnswerEnds, EventEnds, IsAsked, StepEnds};

use crate::asking::{event_of, may_come};
use crate::event::{CarbinkEvent, Verb};
use crate::handle::CarbinkWorld;
use crate::outcome::Outcome;
use crate::reply::{CarbinkReply, told};
use crate::telling::put_bytes;
use cb_core::{Event, step};
use cb_types::{Config, MOST_BYTES, NoMemory};
use cb_world::{Desk, World};
use std::alloc::Global;

/// The fewest bytes of a caller's buffer: as many as an object has at the most.
const BUFFER_BYTES: usize = MOST_BYTES as usize;

/// One event on the world: what it is answered, with its bytes at the front of `room`.
///
/// Where the answer is NoMemory, what each object holds is as it was, and so are `reply` and
/// `room`; where it is neither this nor Done, nothing is changed.
#[unsafe(no_mangle)]
pub extern "C" fn carbink_world_step(
    alloc: Global,
    world: &mut CarbinkWorld,
    asked: &CarbinkEvent,
    bytes: &[u8],
    reply: &mut CarbinkReply,
    room: &mut [u8],
) -> u32
    requires sound { IsSoundIn (world_of world.old) }
    ensures ends { IsOutcomeOf (StepEnds asked.now bytes.now (world_of world.old)
        (world_of world.new) (record { reply = reply.old; room = room.old })
        (record { reply = reply.new; room = room.new })) result }
    ensures sound { IsSoundIn (world_of world.new) }
{
    stepped(alloc, world, asked, bytes, reply, room).number()
}

fn stepped(
    alloc: Global,
    world: &mut CarbinkWorld,
    asked: &CarbinkEvent,
    bytes: &[u8],
    reply: &mut CarbinkReply,
    room: &mut [u8],
) -> Outcome
    requires sound { IsSoundIn (world_of world.old) }
    ensures ends { StepEnds asked.now bytes.now (world_of world.old) (world_of world.new)
        (record { reply = reply.old; room = room.old })
        (record { reply = reply.new; room = room.new }) result }
    ensures sound { IsSoundIn (world_of world.new) }
{
    match world.take(alloc) {
        Some(mut held) => {
            let outcome = taken(alloc, &mut held.world, asked, bytes, reply, room);
            world.put(held);
            outcome
        }
        None => Outcome::NoWorld,
    }
}

/// An event on the world that was taken out.
fn taken(
    alloc: Global,
    world: &mut World,
    asked: &CarbinkEvent,
    bytes: &[u8],
    reply: &mut CarbinkReply,
    room: &mut [u8],
) -> Outcome
    requires sound { IsSoundWorld world.old }
    ensures ends { EventEnds asked.now bytes.now world.old world.new
        (record { reply = reply.old; room = room.old })
        (record { reply = reply.new; room = room.new }) result }
    ensures sound { IsSoundWorld world.new }
{
    let Some(verb) = Verb::of(asked.verb) else {
        return Outcome::BadVerb;
    };
    if asked.seat >= 64 {
        return Outcome::BadSeat;
    }
    let config = settings(world);
    if !may_come(&config, verb, asked, bytes) {
        return Outcome::BadArgument;
    }
    if room.len() < BUFFER_BYTES {
        return Outcome::BadBuffer;
    }
    come(alloc, world, &config, verb, asked, bytes, reply, room)
}

/// The configuration of a world.
fn settings(world: &World) -> Config
    ensures { result ≡ world.now.desk.settings }
{
    world.desk.config()
}

/// An event that may come, once it is made of what was asked for.
fn come(
    alloc: Global,
    world: &mut World,
    config: &Config,
    verb: Verb,
    asked: &CarbinkEvent,
    bytes: &[u8],
    reply: &mut CarbinkReply,
    room: &mut [u8],
) -> Outcome
    requires sound { IsSoundWorld world.old }
    requires settings { config.now ≡ world.old.desk.settings }
    requires asked { IsAsked verb asked.now }
    requires may { IsEvent config.now (event_by verb asked.now bytes.now) }
    requires large { most_bytes ≤ length room.old }
    ensures ends { EventEnds asked.now bytes.now world.old world.new
        (record { reply = reply.old; room = room.old })
        (record { reply = reply.new; room = room.new }) result }
    ensures sound { IsSoundWorld world.new }
{
    match event_of(alloc, config, verb, asked, bytes) {
        Ok(event) => answered(alloc, world, &event, reply, room),
        Err(NoMemory) => Outcome::NoMemory,
    }
}

/// An event that may come.
fn answered(
    alloc: Global,
    world: &mut World,
    event: &Event,
    reply: &mut CarbinkReply,
    room: &mut [u8],
) -> Outcome
    requires sound { IsSoundWorld world.old }
    requires event { IsEvent world.old.desk.settings event.now }
    requires large { most_bytes ≤ length room.old }
    ensures ends { AnswerEnds event.now world.old world.new
        (record { reply = reply.old; room = room.old })
        (record { reply = reply.new; room = room.new }) result }
    ensures sound { IsSoundWorld world.new }
{
    match step(alloc, world, event) {
        Ok(answer) => {
            *reply = told(&answer);
            put_bytes(&answer, room);
            Outcome::Done
        }
        Err(NoMemory) => Outcome::NoMemory,
    }
}
