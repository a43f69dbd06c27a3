//! The objects of a span are claimed one by one, or given back.

ghost use Rattle.std.specs.Prelude.{◌≡◌, ◌+◌, ◌*◌, ◌<◌, ◌≤◌, ◌≢◌, ℕ, [], All, IfSome, Some, drop, length, take, vec_len, vec_capacity};
ghost use Rattle.std.specs.List.{AllPairs};
ghost use Rattle.cb_span.specs.Contents.{Contents, IsSpan, handle_at};
ghost use Rattle.cb_world.specs.declared.shown.Shown.{Shown};
ghost use Rattle.cb_world.specs.FarState.{FarState, span_in};
ghost use Rattle.cb_world.specs.LocalSound.{LocalSound};
ghost use Rattle.cb_evict.specs.Candidates.{AreUnique};
ghost use Rattle.cb_evict.specs.Looking.{SpanHas};
ghost use Rattle.cb_evict.specs.Claims.{IsHeldAt, AreApart};
ghost use Rattle.cb_evict.specs.Claiming.{GivesBack, ClaimsSlot, ClaimsSpan, ClaimsFrame, ClaimsSpans};

use crate::lengths::has_pages;
use crate::restoring::restore;
use cb_span::Span;
use cb_types::Handle;
use cb_world::{Desk, Former, Grasp, Spans, try_claim};

/// Settles claimed objects at the words at which they were claimed.
pub(crate) fn give_back<D: Desk>(desk: &mut D, formers: &[Former])
    requires handles { All (λ former. former.handle < (D.settings desk.old).handles) formers.now }
    requires apart { AreApart formers.now }
    requires held { (s : Shown) × D.shows desk.old s
        × ((far : FarState) × LocalSound s far × All (IsHeldAt s) formers.now) }
    ensures { GivesBack (λ es. D.run desk.old es desk.new) (λ s. D.shows desk.old s) formers.now }
{
    restore(desk, formers);
}

/// Claims an object and notes its word. Answers whether it could.
fn claim_object<D: Desk>(desk: &mut D, n: u32, formers: &mut Vec<Former>) -> bool
    requires handle { n < (D.settings desk.old).handles }
    requires room { vec_len formers.old < vec_capacity formers.old }
    requires sound { (s : Shown) × D.shows desk.old s × ((far : FarState) × LocalSound s far) }
    ensures claims { ClaimsSlot (λ es. D.run desk.old es desk.new) (λ s. D.shows desk.old s)
        (Some n) result formers.old.items formers.new.items }
    ensures capacity { vec_capacity formers.old ≤ vec_capacity formers.new }
    ensures more { vec_len formers.new ≤ vec_len formers.old + 1 }
{
    match try_claim(desk, Handle { n }) {
        Grasp::Claimed { word } => {
            formers.push(Former { handle: n, word }).unwrap();
            true
        }
        Grasp::Left { .. } => false,
    }
}

/// Claims the object in a slot, if there is one, and notes its word. Answers whether it could.
fn claim_slot<D: Desk>(desk: &mut D, slot: Option<u32>, formers: &mut Vec<Former>) -> bool
    requires handle { IfSome slot (λ h. h < (D.settings desk.old).handles) }
    requires room { vec_len formers.old < vec_capacity formers.old }
    requires sound { (s : Shown) × D.shows desk.old s × ((far : FarState) × LocalSound s far) }
    ensures claims { ClaimsSlot (λ es. D.run desk.old es desk.new) (λ s. D.shows desk.old s)
        slot result formers.old.items formers.new.items }
    ensures capacity { vec_capacity formers.old ≤ vec_capacity formers.new }
    ensures more { vec_len formers.new ≤ vec_len formers.old + 1 }
{
    match slot {
        Some(n) => claim_object(desk, n, formers),
        None => true,
    }
}

/// Gives the objects back that were noted from the place `start` on.
fn undo<D: Desk>(desk: &mut D, formers: &mut Vec<Former>, start: usize)
    requires handles { All (λ former. former.handle < (D.settings desk.old).handles)
        (drop start formers.old.items) }
    requires apart { AreApart (drop start formers.old.items) }
    requires within { start ≤ length formers.old.items }
    requires held { (s : Shown) × D.shows desk.old s
        × ((far : FarState) × LocalSound s far × All (IsHeldAt s) (drop start formers.old.items)) }
    ensures back { GivesBack (λ es. D.run desk.old es desk.new) (λ s. D.shows desk.old s)
        (drop start formers.old.items) }
    ensures formers { formers.new.items ≡ take start formers.old.items }
    ensures capacity { vec_capacity formers.new ≡ vec_capacity formers.old }
    ensures fewer { vec_len formers.new ≤ start }
{
    give_back(desk, &formers[start..]);
    formers.truncate(start);
}

/// Claims all objects of the span, or none: where one is pinned or claimed by another, those that
/// were claimed are given back. Answers whether they are claimed; their words are noted then.
pub(crate) fn claim_span<D: Desk>(desk: &mut D, span: &Span, formers: &mut Vec<Former>) -> bool
    requires handles { (h : ℕ) → SpanHas span.now h → h < (D.settings desk.old).handles }
    requires apart { (i j h : ℕ) → handle_at span.now i ≡ Some h → handle_at span.now j ≡ Some h → i ≡ j }
    requires room { vec_len formers.old + length span.now.slots ≤ vec_capacity formers.old }
    requires sound { (s : Shown) × D.shows desk.old s × ((far : FarState) × LocalSound s far) }
    ensures claims { ClaimsSpan (λ es. D.run desk.old es desk.new) (λ s. D.shows desk.old s)
        span.now result formers.old.items formers.new.items }
    ensures capacity { vec_capacity formers.old ≤ vec_capacity formers.new }
    ensures more { vec_len formers.new ≤ vec_len formers.old + length span.now.slots }
{
    let start = formers.len();
    for slot in span.slots() {
        if !claim_slot(desk, *slot, formers) {
            undo(desk, formers, start);
            return false;
        }
    }
    true
}

/// Claims the span in a frame, and adds the frame if its objects are claimed.
fn claim_frame<D: Desk>(
    desk: &mut D,
    spans: &Spans,
    frame: u32,
    frames: &mut Vec<u32>,
    formers: &mut Vec<Former>,
)
    requires there { (span : Contents) × (span_in spans.now frame ≡ Some span)
        × IsSpan span }
    requires enough { vec_len formers.old + 256 ≤ vec_capacity formers.old }
    requires unique { AreUnique spans.now (D.settings desk.old).handles }
    requires room { vec_len frames.old < vec_capacity frames.old }
    requires sound { (s : Shown) × D.shows desk.old s × ((far : FarState) × LocalSound s far) }
    ensures claims { ClaimsFrame (λ es. D.run desk.old es desk.new) (λ s. D.shows desk.old s)
        spans.now frame frames.old.items frames.new.items formers.old.items formers.new.items }
    ensures capacity { vec_capacity formers.old ≤ vec_capacity formers.new }
    ensures room { vec_capacity frames.old ≤ vec_capacity frames.new }
    ensures count { length frames.new.items ≤ length frames.old.items + 1 }
    ensures more { length formers.new.items + 256 * length frames.old.items
        ≤ length formers.old.items + 256 * length frames.new.items }
{
    let span = spans.get(frame).unwrap();
    if claim_span(desk, span, formers) {
        frames.push(frame).unwrap();
    }
}

/// Claims the spans in these frames that have so many pages, in order, until `k` of them are
/// claimed. A span of which an object is pinned or claimed by another is left as it was. `frames`
/// and `formers` are empty before, and have room for k frames and for 256 objects of each.
pub(crate) fn claim_spans<D: Desk>(
    desk: &mut D,
    spans: &Spans,
    loose: &[u32],
    pages: u32,
    k: usize,
    frames: &mut Vec<u32>,
    formers: &mut Vec<Former>,
)
    requires there { All (λ f. (span : Contents) × (span_in spans.now f ≡ Some span) × IsSpan span)
        loose.now }
    requires unique { AreUnique spans.now (D.settings desk.old).handles }
    requires apart { AllPairs (λ f g. f ≢ g) loose.now }
    requires empty { (frames.old.items ≡ []) × (formers.old.items ≡ []) }
    requires room { (k ≤ vec_capacity frames.old) × (256 * k ≤ vec_capacity formers.old) }
    requires sound { (s : Shown) × D.shows desk.old s × ((far : FarState) × LocalSound s far) }
    ensures claims { ClaimsSpans (λ es. D.run desk.old es desk.new) (λ s. D.shows desk.old s)
        spans.now loose.now pages k frames.new.items formers.new.items }
    ensures room { (vec_capacity frames.old ≤ vec_capacity frames.new)
        × (vec_capacity formers.old ≤ vec_capacity formers.new) }
{
    for frame in loose {
        if frames.len() == k {
            return;
        }
        if !has_pages(spans, *frame, pages) {
            continue;
        }
        claim_frame(desk, spans, *frame, frames, formers);
    }
}
