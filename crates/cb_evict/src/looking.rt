//! Whether all objects of a span can be claimed, by one look at each.

ghost use Rattle.std.specs.Prelude.{◌≡◌, ◌+◌, ◌<◌, ◌≤◌, ◌≢◌, ℕ, [], All, IfSome, Some, length};
ghost use Rattle.std.specs.List.{AllPairs};
ghost use Rattle.std.specs.Prelude.{vec_len, vec_capacity};
ghost use Rattle.cb_span.specs.Contents.{Contents, handle_at};
ghost use Rattle.cb_world.specs.FarState.{span_in};
ghost use Rattle.cb_evict.specs.Candidates.{AreUnique};
ghost use Rattle.cb_evict.specs.Looking.{SpanHas, LooksAtSlot, LooksAtSpan, LooksAtFrame, LooksOver};

use cb_span::Span;
use cb_types::Handle;
use cb_world::{Desk, Spans, is_free};

/// Whether the object in a slot can be claimed, by one look; so it is where there is none.
fn is_slot_loose<D: Desk>(desk: &mut D, slot: Option<u32>) -> bool
    requires handle { IfSome slot (λ h. h < (D.settings desk.old).handles) }
    ensures { LooksAtSlot (λ es. D.run desk.old es desk.new) slot result }
{
    match slot {
        Some(n) => is_free(desk.word(Handle { n })),
        None => true,
    }
}

/// Whether each object of the span can be claimed, by one look at each.
fn is_loose<D: Desk>(desk: &mut D, span: &Span) -> bool
    requires handles { (h : ℕ) → SpanHas span.now h → h < (D.settings desk.old).handles }
    requires apart { (i j h : ℕ) → handle_at span.now i ≡ Some h → handle_at span.now j ≡ Some h → i ≡ j }
    ensures { LooksAtSpan (λ es. D.run desk.old es desk.new) span.now result }
{
    let mut loose = true;
    for slot in span.slots() {
        loose &= is_slot_loose(desk, *slot);
    }
    loose
}

/// Looks at each object of the span in a frame, and adds the frame to the loose ones if each of
/// them can be claimed.
fn look_at<D: Desk>(desk: &mut D, spans: &Spans, frame: u32, loose: &mut Vec<u32>)
    requires there { (span : Contents) × (span_in spans.now frame ≡ Some span) }
    requires unique { AreUnique spans.now (D.settings desk.old).handles }
    requires room { vec_len loose.old < vec_capacity loose.old }
    ensures looks { LooksAtFrame (λ es. D.run desk.old es desk.new) spans.now frame
        loose.old.items loose.new.items }
    ensures capacity { vec_capacity loose.old ≤ vec_capacity loose.new }
    ensures more { vec_len loose.new ≤ vec_len loose.old + 1 }
{
    let span = spans.get(frame).unwrap();
    if is_loose(desk, span) {
        loose.push(frame).unwrap();
    }
}

/// Finds which of the spans in these frames are loose, in order: each of their objects is looked at
/// once. `loose` is empty before, and has room for as many frames.
pub(crate) fn find_loose<D: Desk>(desk: &mut D, spans: &Spans, frames: &[u32], loose: &mut Vec<u32>)
    requires there { All (λ f. (span : Contents) × (span_in spans.now f ≡ Some span)) frames.now }
    requires unique { AreUnique spans.now (D.settings desk.old).handles }
    requires apart { AllPairs (λ f g. f ≢ g) frames.now }
    requires empty { loose.old.items ≡ [] }
    requires room { length frames.now ≤ vec_capacity loose.old }
    ensures looks { LooksOver (λ es. D.run desk.old es desk.new) spans.now frames.now
        loose.new.items }
    ensures few { length loose.new.items ≤ length frames.now }
{
    for frame in frames {
        look_at(desk, spans, *frame, loose);
    }
}
