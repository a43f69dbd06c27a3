//! Spans that left are taken out of local memory.

ghost use Rattle.std.specs.Prelude.{◌≡◌, ◌≢◌, ℕ, ◌+◌, ◌^◌, ◌<◌, ◌≤◌, All, None, Some, length, slice_set};
ghost use Rattle.std.specs.List.{AllPairs};
ghost use Rattle.cb_frame.specs.FreeFrames.{IsFreeFrame, with_run_given};
ghost use Rattle.cb_span.specs.Contents.{Contents};
ghost use Rattle.cb_world.specs.FarState.{pages_at, span_in};
ghost use Rattle.cb_world.specs.LocalSound.{AreFrames};
ghost use Rattle.cb_evict.specs.Candidates.{AreUnique};
ghost use Rattle.cb_world.specs.Reserved.{table_of};
ghost use Rattle.cb_world.specs.Homes.{HasHomes};
ghost use Rattle.cb_evict.specs.Closing.{HaveHomes, ClosesSpan, with_homes};

use cb_class::pages;
use cb_frame::Frames;
use cb_world::{Far, Homes, Spans, put_homes};

/// Gives the objects of the span at a frame their homes at a position of the set, takes the span
/// out and gives its frames back.
fn take_out(
    homes: &mut Homes,
    spans: &mut Spans,
    free: &mut Frames,
    set: u64,
    position: u32,
    frame: u32,
)
    requires there { (span : Contents) × (span_in spans.old frame ≡ Some span) }
    requires unique { AreUnique spans.old (length homes.old) }
    requires busy { (g : ℕ) → frame ≤ g → g < frame + pages_at spans.old frame
        → ¬ (IsFreeFrame free.old g) }
    requires within { (frame + pages_at spans.old frame ≤ length free.old)
        × (frame < length spans.old) }
    ensures homes { HasHomes (table_of (span_in spans.old frame)) set position homes.old homes.new }
    ensures spans { spans.new ≡ slice_set spans.old frame None }
    ensures free { free.new ≡ with_run_given free.old frame (pages_at spans.old frame) }
{
    let span = spans.get(frame).unwrap();
    let count = pages(span.class());
    put_homes(homes, span.slots(), set, position);
    spans.close(frame);
    free.give_run(frame, count);
}

/// Takes the span at a frame out of local memory: its objects have their homes at a position of the
/// set, and its frames are free. Takes no memory.
fn close_span(far: &mut Far, set: u64, position: u32, frame: u32)
    requires there { (span : Contents) × (span_in far.old.spans frame ≡ Some span) }
    requires unique { AreUnique far.old.spans (length far.old.homes) }
    requires busy { (g : ℕ) → frame ≤ g → g < frame + pages_at far.old.spans frame
        → ¬ (IsFreeFrame far.old.frames g) }
    requires within { (frame + pages_at far.old.spans frame ≤ length far.old.frames)
        × (frame < length far.old.spans) }
    ensures { ClosesSpan far.old far.new set position frame }
{
    take_out(
        &mut far.homes,
        &mut far.spans,
        &mut far.frames,
        set,
        position,
        frame,
    );
}

/// Takes the spans at these frames out of local memory, once their objects are away: the objects of
/// the p-th one have their homes at position p of the set, and the frames of all are free. Takes no
/// memory.
pub(crate) fn close_spans(far: &mut Far, set: u64, frames: &[u32])
    requires there { All (λ f. (span : Contents) × (span_in far.old.spans f ≡ Some span)) frames.now }
    requires unique { AreUnique far.old.spans (length far.old.homes) }
    requires apart { AllPairs (λ f g. f ≢ g) frames.now }
    requires owned { AreFrames far.old }
    requires few { length frames.now < 2 ^ 32 }
    ensures state { far.new ≡ with_homes far.old frames.now far.new.homes }
    ensures homes { HaveHomes far.old.spans frames.now set far.old.homes far.new.homes }
{
    for (p, frame) in frames.iter().enumerate() {
        close_span(far, set, p as u32, *frame);
    }
}
