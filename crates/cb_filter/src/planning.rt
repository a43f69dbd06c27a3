//! Where a claimed object goes.

ghost use Rattle.std.specs.Prelude.{◌≡◌, ◌≢◌, ◌^◌, ◌≤◌, true, false, length, Some, IfOk, OnErr};
ghost use Rattle.cb_ptr.specs.Word.{hot_of, place_of};
ghost use Rattle.cb_world.specs.LocalSound.{AreFrames};
ghost use Rattle.cb_filter.specs.Seats.{Seat, temp_for};
ghost use Rattle.cb_filter.specs.Plans.{LiesAtPlace, Plans, Wants};

use cb_class::Class;
use cb_ptr::unpack;
use cb_span::{Temp, place_frame};
use cb_types::NoMemory;
use cb_world::{Far, place_object};

/// What becomes of a claimed object.
#[derive(Clone, Copy)]
pub(crate) enum Plan {
    /// Its span has its temperature.
    Same,
    /// There is neither a slot in a span of its temperature nor a run of free frames for a new
    /// one.
    NoSlot,
    /// It has a slot in a span of its temperature too; the place of this slot.
    Move { place: u32 },
}

/// The temperature of the spans in which an object belongs, by its hot bit.
fn temp_for(hot: bool) -> Temp
    ensures { result ≡ temp_for hot }
{
    if hot { Temp::Hot } else { Temp::Cold }
}

/// Whether two temperatures are the same.
fn is_same(one: Temp, other: Temp) -> bool
    ensures same { result ≡ true → one ≡ other }
    ensures other { result ≡ false → one ≢ other }
{
    match (one, other) {
        (Temp::Hot, Temp::Hot) => true,
        (Temp::Cold, Temp::Cold) => true,
        _ => false,
    }
}

/// The class and the temperature of a span.
#[derive(Clone, Copy)]
struct Kind {
    class: Class,
    temp: Temp,
}

/// The class and the temperature of the span in which a place lies, where there is one.
fn kind_at(far: &Far, place: u32) -> Option<Kind>
    ensures { (seat : Seat) → LiesAtPlace far.now place seat
        → result ≡ Some (record { class = seat.span.class; temp = seat.span.temp }) }
{
    let Some(frame) = far.spans.holder(place_frame(place)) else {
        return None;
    };
    match far.spans.get(frame) {
        Some(span) => Some(Kind {
            class: span.class(),
            temp: span.temp(),
        }),
        None => None,
    }
}

/// Plans what becomes of the object that was claimed at this word, and takes its new slot where it
/// gets one. Takes the memory of a new span alone.
pub(crate) fn plan_move(far: &mut Far, handle: u32, word: u64) -> Result<Plan, NoMemory>
    requires frames { AreFrames far.old }
    requires numbered { length far.old.frames ≤ 2 ^ 15 }
    requires seat { (seat : Seat) × LiesAtPlace far.old (place_of word) seat }
    ensures plan { IfOk result (λ plan. (seat : Seat) → LiesAtPlace far.old (place_of word) seat
        → Plans far.old far.new (temp_for (hot_of word)) handle seat plan) }
    ensures far { OnErr result (far.new ≡ far.old) }
    ensures error { OnErr result ((seat : Seat) → LiesAtPlace far.old (place_of word) seat
        → Wants far.old (temp_for (hot_of word)) seat) }
{
    let fields = unpack(word);
    let temp = temp_for(fields.hot);
    let Some(kind) = kind_at(far, fields.place) else {
        return Ok(Plan::Same);
    };
    if is_same(kind.temp, temp) {
        return Ok(Plan::Same);
    }
    let Some(place) = place_object(far, handle, kind.class, temp)? else {
        return Ok(Plan::NoSlot);
    };
    Ok(Plan::Move { place })
}
