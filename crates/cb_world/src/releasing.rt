//! A slot is emptied.

ghost use Rattle.std.specs.Prelude.{◌≡◌, ℕ};
ghost use Rattle.cb_span.specs.Contents.{Contents};
ghost use Rattle.cb_world.specs.Released.{IsSlotAt, spans_without, frames_without};

use crate::spans::Spans;
use cb_class::pages;
use cb_frame::Frames;
use cb_span::{place_frame, place_slot};

/// Empties the slot at a place, whose object was freed or moved away. A span whose last object goes
/// gives its frames back at once. Takes no memory.
pub fn release(spans: &mut Spans, frames: &mut Frames, place: u32)
    requires slot { (f slot : ℕ) × (span : Contents)
        × IsSlotAt frames.old spans.old place f slot span }
    ensures spans { (f slot : ℕ) (span : Contents)
        → IsSlotAt frames.old spans.old place f slot span
        → spans.new ≡ spans_without spans.old f slot span }
    ensures frames { (f slot : ℕ) (span : Contents)
        → IsSlotAt frames.old spans.old place f slot span
        → frames.new ≡ frames_without frames.old f slot span }
{
    let Some(frame) = spans.holder(place_frame(place)) else {
        return;
    };
    let Some(class) = spans.class(frame) else {
        return;
    };
    if spans.clear(frame, place_slot(class, frame, place)) {
        spans.close(frame);
        frames.give_run(frame, pages(class));
    }
}
