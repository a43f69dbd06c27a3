//! Objects of a slot table get their homes.

ghost use Rattle.std.specs.Prelude.{◌≡◌, ℕ, ◌^◌, ◌<◌, IfSome, None, Some, length, slice_index_or, slice_set};
ghost use Rattle.cb_world.specs.Homes.{HasHomes};

use crate::homes::{Home, Homes};

/// Gives the object of a slot its home, if there is one.
fn put_home(homes: &mut Homes, object: Option<u32>, home: Home)
    requires below { IfSome object (λ h. h < length homes.old) }
    ensures put { (h : ℕ) → object ≡ Some h → homes.new ≡ slice_set homes.old h (Some home) }
    ensures none { object ≡ None → homes.new ≡ homes.old }
{
    if let Some(h) = object {
        homes.put(h, home);
    }
}

/// Gives each object of the slot table its home at a position of a set. Takes no memory.
pub fn put_homes(homes: &mut Homes, slots: &[Option<u32>], set: u64, position: u32)
    requires below { (slot h : ℕ) → slice_index_or slots.now slot None ≡ Some h
        → h < length homes.old }
    requires apart { (i j h : ℕ) → slice_index_or slots.now i None ≡ Some h
        → slice_index_or slots.now j None ≡ Some h → i ≡ j }
    requires few { length slots.now < 2 ^ 32 }
    ensures { HasHomes slots.now set position homes.old homes.new }
{
    for (slot, object) in slots.iter().enumerate() {
        put_home(
            homes,
            *object,
            Home {
                set,
                position,
                slot: slot as u32,
            },
        );
    }
}
