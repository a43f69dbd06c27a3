//! How many spans have each length.

ghost use Rattle.std.specs.Prelude.{◌≡◌, ◌<◌, ◌^◌, All, Some, length};
ghost use Rattle.cb_span.specs.Contents.{Contents};
ghost use Rattle.cb_world.specs.FarState.{pages_at, span_in};
ghost use Rattle.cb_evict.specs.Lengths.{AreFew, AreLengthCounts, has_pages, most_of, with_span};

use cb_class::pages;
use cb_world::Spans;

/// How many of some spans have four pages, two and one.
#[derive(Clone, Copy)]
pub(crate) struct LengthCounts {
    pub fours: usize,
    pub twos: usize,
    pub ones: usize,
}

impl LengthCounts {
    /// The counts, where one more span has so many pages.
    fn with_span(self, pages: u32) -> LengthCounts
        requires { AreFew (2 ^ 32) self }
        ensures { result ≡ with_span self pages }
    {
        LengthCounts {
            fours: self.fours + usize::from(pages == 4),
            twos: self.twos + usize::from(pages == 2),
            ones: self.ones + usize::from(pages == 1),
        }
    }

    /// The most spans of one length.
    pub(crate) fn most(self) -> usize
        ensures { result ≡ most_of self }
    {
        self.fours.max(self.twos.max(self.ones))
    }
}

/// The pages of the span in a frame.
fn pages_in(spans: &Spans, frame: u32) -> u32
    requires there { (span : Contents) × (span_in spans.now frame ≡ Some span) }
    ensures { result ≡ pages_at spans.now frame }
{
    pages(spans.get(frame).unwrap().class())
}

/// Whether the span in a frame has so many pages.
pub(crate) fn has_pages(spans: &Spans, frame: u32, count: u32) -> bool
    requires there { (span : Contents) × (span_in spans.now frame ≡ Some span) }
    ensures { result ≡ has_pages spans.now count frame }
{
    pages_in(spans, frame) == count
}

/// How many of the spans in these frames have each length. Walks over them once.
pub(crate) fn count_lengths(spans: &Spans, frames: &[u32]) -> LengthCounts
    requires there { All (λ f. (span : Contents) × (span_in spans.now f ≡ Some span)) frames.now }
    requires few { length frames.now < 2 ^ 32 }
    ensures { AreLengthCounts spans.now frames.now result }
{
    let mut counts = LengthCounts {
        fours: 0,
        twos: 0,
        ones: 0,
    };
    for frame in frames {
        counts = counts.with_span(pages_in(spans, *frame));
    }
    counts
}
