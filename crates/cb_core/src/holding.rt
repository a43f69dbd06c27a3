//! The far lock is taken by a seat, and given back.

ghost use Rattle.std.specs.Prelude.{◌≡◌, ◌<◌, IfNone, IfSome};
ghost use Rattle.cb_world.specs.Seats.{Holds};
ghost use Rattle.cb_world.specs.World.{IsSoundWorld};
ghost use Rattle.cb_core.specs.Holding.{GiveStep, NoOtherHolds, TakeStep};

use cb_types::Reply;
use cb_world::World;

/// Gives the far lock to a seat. Takes no memory. Refuses with Held, and the seat that holds it,
/// where one does.
pub(crate) fn take(world: &mut World, seat: u32) -> Reply
    requires sound { IsSoundWorld world.old }
    requires seat { seat < 64 }
    ensures step { TakeStep seat world.old result world.new }
{
    if let Some(holder) = world.seats.holder() {
        return Reply::Held { seat: holder };
    }
    world.seats.take_lock(seat);
    Reply::Done
}

/// Takes the far lock back from a seat. Takes no memory. Refuses with NotHeld where the seat does
/// not hold it.
pub(crate) fn give(world: &mut World, seat: u32) -> Reply
    requires sound { IsSoundWorld world.old }
    requires seat { seat < 64 }
    ensures step { GiveStep seat world.old result world.new }
{
    if !world.seats.holds(seat) {
        return Reply::NotHeld;
    }
    world.seats.give_lock(seat);
    Reply::Done
}

/// The other seat that holds the far lock, None exactly where no seat but this one does.
pub(crate) fn other_holder(world: &World, seat: u32) -> Option<u32>
    requires sound { IsSoundWorld world.now }
    ensures found { IfSome result (λ holder. (holder ≡ seat → ⊥) × Holds world.now.seats holder) }
    ensures none { IfNone result (NoOtherHolds world.now.seats seat) }
{
    match world.seats.holder() {
        Some(holder) if holder != seat => Some(holder),
        _ => None,
    }
}
