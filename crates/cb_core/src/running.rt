//! Events one after another.

ghost use Rattle.std.specs.Prelude.{◌≡◌, ◌++◌, List, [], IfOk, OnErr};
ghost use Rattle.std.specs.List.{AllByRecursion};
ghost use Rattle.cb_model.specs.Called.{Called};
ghost use Rattle.cb_model.specs.Legal.{Follow, AreLegal};
ghost use Rattle.cb_world.specs.World.{IsSoundWorld, empty_world};
ghost use Rattle.cb_core.specs.Called.{ClaimCall, calls_by, claims_by, StandsBeside};
ghost use Rattle.cb_core.specs.Events.{IsEvent};
ghost use Rattle.cb_core.specs.Run.{IsOnlyRun, LeadsSoundly, LeavesPrefix, RunStops};
ghost use Rattle.cb_core.specs.Step.{Leads};
ghost use Rattle.cb_core.specs.Unavailable.{LeadsTelling};
ghost use Rattle.cb_core.specs.Unmoved.{LeadsPinned, LeadsUnmoved};

use crate::event::Event;
use crate::replies::Replies;
use crate::stepping::step;
use cb_types::NoMemory;
use cb_world::World;
use std::alloc::Global;

/// Events one after another, with the reply to each. The world is sound after each of them. The
/// events have no other replies from that world, and lead to no other world.
///
/// Where there is no memory, the world is left to which some first events led, or that world once
/// room was made for the next event, by an eviction or by the swap-in of its object; the counts of
/// turns and of rows that were given out are left out of this. What each object holds, pins and
/// open writes are as those first events left them.
///
/// An event is answered Unavailable exactly where it is a turn that is to bring in a far object
/// whose set has lost more shards than it has parities.
///
/// The completed calls among the events are legal in their order: makes, turns on objects, pins and
/// writes in steps, but for those of which the reply says nothing of any object (Worn, ScopeFull,
/// Held). A write in steps completes where it is settled; a claim that is refused is a write that
/// is. Wherever the plain map stands beside the world, each call is answered as the map answers it
/// after the calls before it, and the map goes on standing beside the world. Of an object that a
/// seat has claimed the world holds what it had at the claim; and an object is gone exactly where
/// it is far and its set has lost more shards than it has parities. From the empty world the calls
/// are legal by themselves too: each object has a history, each answer is true of it, and no
/// version falls.
///
/// Each event leaves an object that has a pin before and after at its place, with its length, its
/// version and its bytes. So an object that has a pin before the first event, after the last and
/// after each one between them is unmoved over all of them.
pub fn run(alloc: Global, world: &mut World, events: &[Event]) -> Result<Replies, NoMemory>
    requires sound { IsSoundWorld world.old }
    requires events { AllByRecursion (IsEvent world.old.desk.settings) events.now }
    ensures leads { IfOk result (λ replies. Leads world.old events.now replies world.new) }
    ensures along { IfOk result (λ replies. LeadsSoundly world.old events.now replies world.new) }
    ensures fixes { IfOk result (λ replies. IsOnlyRun world.old events.now replies world.new) }
    ensures legal { IfOk result (λ replies. (before : List Called) (claims : List ClaimCall)
        → StandsBeside before claims world.old
        → Follow world.old.far.first world.old.desk.settings.handles before
        (calls_by before claims events.now replies)
        × StandsBeside (before ++ calls_by before claims events.now replies)
        (claims_by claims events.now replies) world.new) }
    ensures from_empty { IfOk result (λ replies. world.old ≡ empty_world world.old.desk.settings
        → AreLegal world.old.far.first world.old.desk.settings.handles
        (calls_by [] [] events.now replies)
        × Follow world.old.far.first world.old.desk.settings.handles []
        (calls_by [] [] events.now replies)
        × StandsBeside (calls_by [] [] events.now replies) (claims_by [] events.now replies)
        world.new) }
    ensures pinned { IfOk result (λ replies. LeadsPinned world.old events.now replies world.new) }
    ensures unmoved { IfOk result (λ replies. LeadsUnmoved world.old events.now replies world.new) }
    ensures unavailable { IfOk result (λ replies.
        LeadsTelling world.old events.now replies world.new) }
    ensures sound { IsSoundWorld world.new }
    ensures error { OnErr result (LeavesPrefix world.old events.now world.new) }
    ensures stops { OnErr result (RunStops world.old events.now world.new) }
{
    let mut replies = Replies::new(alloc);
    for event in events {
        let reply = step(alloc, world, event)?;
        replies.push(reply)?;
    }
    Ok(replies)
}
