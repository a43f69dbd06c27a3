//! A closed table, taken apart: its words go into a still desk, and the far state out of its slot.
ghost use Rattle.std.specs.Prelude.{◌≡◌, ℕ, ◌+◌, ◌*◌, ◌<◌, Some, length, slice_index, slice_set};
ghost use Rattle.std.specs.Slots.{IsFull, slots_items, slots_len};
ghost use mathlib.Core.Option.{some};
ghost use lib.ListN.{get_elem?};
ghost use Rattle.cb_types.specs.Config.{IsAccepted};
ghost use Rattle.cb_world.specs.FarState.{FarState};
ghost use Rattle.cb_world.specs.Memory.{window};
ghost use Rattle.cb_world.specs.Plain.{IsSized};
ghost use Rattle.cb_rule.specs.Words.{base, stamps};

use crate::boxed_far::BoxedFar;
use atomic_table::Closed;
use cb_types::{Config, Handle};
use cb_world::{Far, PlainDesk};
use std::alloc::Global;

/// The table of the words, which no seat shares any more.
pub(crate) type Rows = Closed<Option<BoxedFar>, Global>;

/// Puts the pointer words and the version words of all objects.
pub(crate) fn fill_objects(rows: &Rows, desk: &mut PlainDesk, config: &Config)
    requires full { IsFull rows.now.words }
    requires words { slots_len rows.now.words ≡ base config.now + 512 * config.now.frames }
    requires settings { desk.old.settings ≡ config.now }
    requires sized { IsSized desk.old }
    ensures { desk.new ≡ record desk.old {
      words = window (slots_items rows.now.words) 1 config.now.handles;
      versions = window (slots_items rows.now.words) (stamps config.now) config.now.handles;
    } }
{
    let first = 1 + config.handles as usize;
    for h in 0..config.handles {
        let word = rows.word(1 + h as usize);
        desk.put_word(Handle { n: h }, word);
        let version = rows.word(first + h as usize);
        desk.stamp(Handle { n: h }, version);
    }
}

/// Puts a memory word where 0 stands. A 0 is left alone, so that pages of memory with no other word
/// are never touched.
#[inline]
fn put_memory(desk: &mut PlainDesk, place: u32, found: u64)
    requires place { place < length desk.old.memory }
    requires blank { slice_index desk.old.memory place ≡ 0 }
    ensures { desk.new ≡ record desk.old { memory = slice_set desk.old.memory place found } }
{
    if found != 0 {
        desk.store_word(place, found);
    }
}

/// Puts the memory words of all frames where 0 stands.
pub(crate) fn fill_memory(rows: &Rows, desk: &mut PlainDesk, config: &Config)
    requires accepted { IsAccepted config.now }
    requires full { IsFull rows.now.words }
    requires words { slots_len rows.now.words ≡ base config.now + 512 * config.now.frames }
    requires settings { desk.old.settings ≡ config.now }
    requires sized { IsSized desk.old }
    requires blank { (i : ℕ) → slice_index desk.old.memory i ≡ 0 }
    ensures { desk.new ≡ record desk.old {
      memory = window (slots_items rows.now.words) (base config.now) (512 * config.now.frames);
    } }
{
    let first = 1 + 2 * config.handles as usize;
    for place in 0..512 * config.frames {
        let found = rows.word(first + place as usize);
        put_memory(desk, place, found);
    }
}

/// Takes the far state out of its slot, and gives the memory of the table back.
pub(crate) fn take_far(rows: Rows) -> Far
    requires full { IsFull rows.slots }
    requires one { slots_len rows.slots ≡ 1 }
    requires home { (far : FarState) × (get_elem? (slots_items rows.slots) 0 ≡ some (Some far)) }
    ensures { get_elem? (slots_items rows.slots) 0 ≡ some (Some result) }
{
    let mut rows = rows;
    let slot = rows.take(0);
    rows.free();
    match slot {
        Some(boxed) => boxed.into_far(),
        None => unreachable!(),
    }
}
