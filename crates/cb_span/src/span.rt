//! A span: a run of slots of one class.

ghost use Rattle.std.specs.Prelude.{◌≡◌, ℕ, ◌^◌, ◌<◌, ◌↔◌, IfNone, IfOk, IfSome, IsTrue, None, count_by, false, is_none, is_some, length, position, slice_index_or};
ghost use Rattle.cb_class.specs.Class.{IsClass, slots_of};
ghost use Rattle.cb_span.specs.Contents.{IsSpan, handle_at, least_empty, live_count, new_span, span_of, with_cleared, with_placed};

use crate::temp::Temp;
use cb_class::{Class, slots};
use cb_member::NoMemory;
use std::alloc::Global;
use std::marker::Model;

/// A span of one size class: each slot is empty or has the handle of the object that lies there.
#[derive(Drop)]
pub struct Span {
    class: Class,
    temp: Temp,
    slots: Vec<Option<u32>>,
    // The count of taken slots.
    live: u32,
    // Every slot below this one is taken.
    taken_below: u32,
}

impl Model for Span {
    ghost use Rattle.std.specs.Prelude.{ℕ};
    ghost use Rattle.cb_span.specs.Contents.{Contents, span_of};
    ghost use Rattle.cb_span.specs.Kept.{IsKept};

    ghost Value = { Contents };

    ghost view = { λ a. span_of a.class a.temp a.slots.items };

    ghost invariant = { λ a. IsKept (span_of a.class a.temp a.slots.items) a.live a.taken_below };
}

impl Span {
    /// A span of the class and temperature, all of whose slots are empty.
    pub fn new(alloc: Global, class: Class, temp: Temp) -> Result<Span, NoMemory>
        requires { IsClass class }
        ensures fresh { IfOk result (λ span. span ≡ new_span class temp) }
        ensures valid { IfOk result IsSpan }
    {
        Ok(Span {
            class,
            temp,
            slots: vec![in alloc; None; slots(class) as usize]?,
            live: 0,
            taken_below: 0,
        })
    }

    /// A span of the class and temperature whose slots are a copy of these, which are as many as
    /// the class has.
    pub fn from_slots(
        alloc: Global,
        class: Class,
        temp: Temp,
        slots: &[Option<u32>],
    ) -> Result<Span, NoMemory>
        requires class { IsClass class }
        requires sized { length slots.now ≡ slots_of class }
        ensures slots { IfOk result (λ span. span ≡ span_of class temp slots.now) }
        ensures valid { IfOk result IsSpan }
    {
        let live = taken_count(slots);
        Ok(Span {
            class,
            temp,
            slots: Vec::from_slice(alloc, slots)?,
            live,
            taken_below: 0,
        })
    }

    /// Puts the handle into the least slot that is empty, and None exactly where all are taken.
    /// Takes no memory.
    pub fn place(&mut self, handle: u32) -> Option<u32>
        ensures least { result ≡ least_empty self.old }
        ensures placed { IfSome result (λ slot. self.new ≡ with_placed self.old slot handle) }
        ensures full { IfNone result (self.new ≡ self.old) }
        ensures in_range { IfSome result (λ slot. slot < length self.old.slots) }
        ensures sized { length self.new.slots ≡ length self.old.slots }
        ensures valid { IsSpan self.new }
    {
        if self.is_full() {
            return None;
        }
        let slot = least_none(self.slots.as_slice(), self.taken_below as usize)?;
        self.slots[slot] = Some(handle);
        self.live += 1;
        self.taken_below = slot as u32 + 1;
        Some(slot as u32)
    }

    /// Empties a slot, whether it is taken or not. Takes no memory.
    pub fn clear(&mut self, slot: u32)
        requires { slot < length self.old.slots }
        ensures cleared { self.new ≡ with_cleared self.old slot }
        ensures sized { length self.new.slots ≡ length self.old.slots }
        ensures valid { IsSpan self.new }
    {
        let place = slot as usize;
        if self.slots[place].is_none() {
            return;
        }
        self.slots[place] = None;
        self.live -= 1;
        self.taken_below = self.taken_below.min(slot);
    }

    /// The handle in a slot, and None where the slot is empty.
    pub fn at(&self, slot: u32) -> Option<u32>
        requires { slot < length self.now.slots }
        ensures { result ≡ handle_at self.now slot }
    {
        self.slots[slot as usize]
    }

    /// The slot table: the handle in each slot, and None where the slot is empty.
    pub fn slots(&self) -> &[Option<u32>]
        ensures slots { result.now ≡ self.now.slots }
        ensures valid { IsSpan self.now }
    {
        self.slots.as_slice()
    }

    /// The count of taken slots. Constant time.
    pub fn live(&self) -> u32
        ensures { result ≡ live_count self.now }
    {
        self.live
    }

    /// The class that the span was made with.
    pub fn class(&self) -> Class
        ensures class { result ≡ self.now.class }
        ensures valid { IsSpan self.now }
    {
        self.class
    }

    /// The temperature that the span was made with.
    pub fn temp(&self) -> Temp
        ensures { result ≡ self.now.temp }
    {
        self.temp
    }

    /// Whether no slot is taken. Constant time.
    pub fn is_empty(&self) -> bool
        ensures { IsTrue result ↔ (live_count self.now ≡ 0) }
    {
        self.live == 0
    }

    /// Whether no slot is empty. Constant time.
    pub fn is_full(&self) -> bool
        ensures { IsTrue result ↔ (live_count self.now ≡ length self.now.slots) }
    {
        self.live as usize == self.slots.len()
    }
}

/// How many slots are taken.
fn taken_count(slots: &[Option<u32>]) -> u32
    requires { length slots.now < 2 ^ 32 }
    ensures { result ≡ count_by is_some slots.now }
{
    slots.iter().filter(|slot| slot.is_some()).count() as u32
}

/// The least slot that is empty, looked for from a slot below which all are taken.
fn least_none(slots: &[Option<u32>], from: usize) -> Option<usize>
    requires { (k : ℕ) → k < from → is_none (slice_index_or slots.now k None) ≡ false }
    ensures { result ≡ position is_none slots.now }
{
    for i in from..slots.len() {
        if slots[i].is_none() {
            return Some(i);
        }
    }
    None
}
