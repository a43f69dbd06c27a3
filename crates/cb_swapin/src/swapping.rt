//! A position of a set comes back into local memory.

ghost use Rattle.std.specs.Prelude.{◌≡◌, ℕ, true, false, ◌+◌, ◌^◌, ◌<◌, ◌≤◌, None, Some, IfNone, IfOk, OnOk, OnErr, length, slice_set};
ghost use Rattle.cb_types.specs.Config.{IsAccepted};
ghost use Rattle.cb_class.specs.Class.{pages_of};
ghost use Rattle.cb_frame.specs.FreeFrames.{with_run_taken};
ghost use Rattle.cb_frame.specs.Runs.{IsRunLength, least_run};
ghost use Rattle.cb_set.specs.SetState.{SetState, dead_position, live_at, position_of, with_position};
ghost use Rattle.cb_world.specs.declared.shown.Shown.{Shown};
ghost use Rattle.cb_world.specs.Desks.{IsReadyDesk, Operates};
ghost use Rattle.cb_world.specs.Sets.{set_in};
ghost use Rattle.cb_world.specs.SetWord.{is_broken};
ghost use Rattle.cb_world.specs.FarSound.{AwaySound};
ghost use Rattle.cb_world.specs.Stored.{AreThere};
ghost use Rattle.cb_set.specs.Lost.{NodesAreMembers};
ghost use Rattle.cb_world.specs.LeftOver.{with_left};
ghost use Rattle.cb_swapin.specs.Fetching.{BringsRow, IsRowOf, IsSpanOf, far_given, losses_told, rows_lacked, rows_taken};
ghost use Rattle.cb_swapin.specs.SwapRule.{BringsRule, SwapRule};
ghost use Rattle.cb_swapin.specs.SwapEffect.{BringsEffect, SwapEffect};

use crate::bringing::bring_span;
use cb_class::{class_of_span, pages};
use cb_member::Losses;
use cb_set::is_lost;
use cb_span::{Span, Temp};
use cb_types::{NoMemory, Reply, SetId};
use cb_world::{Desk, Far, kill_position, solved};

/// Swaps the span of a live position of a committed set in. Takes all memory before anything is
/// changed; where there is none, at most k rows were given out and nothing else has changed.
///
/// Refuses with Unavailable where the set has lost more shards than it has parities, and then with
/// NoFrame where no free frames are adjacent that its spans fit. Else the least such run has the
/// span, hot and with the slots of the position: their objects are here, not hot, at the version
/// that they had. The row is the position's own where its shard is not lost (one row is given
/// out), else the one that the k least other positions make whose shards are not lost (k rows are
/// given out). The position is dead then, and a set with no live position goes with all its rows.
pub fn swap_in<D: Desk>(
    desk: &mut D,
    far: &mut Far,
    id: SetId,
    position: u32,
) -> Result<Reply, NoMemory>
    requires config { IsAccepted (D.settings desk.old) }
    requires live { (set : SetState) × (set_in far.old.sets id.n ≡ Some set)
        × (live_at set position ≡ true) }
    requires sound { IsReadyDesk D.shows desk.old far.old }
    requires given { far.old.nodes.given + 16 < 2 ^ 64 }
    ensures swap { IfOk result (λ reply. Operates D.run D.shows desk.old far.old desk.new far.new
        (SwapRule id.n position far.old far.new reply)
        (SwapEffect id.n position far.old far.new reply)) }
    ensures desk { OnErr result (desk.new ≡ desk.old) }
    ensures far { OnErr result ((set : SetState) → set_in far.old.sets id.n ≡ Some set → (n : ℕ)
        × (n ≤ length set.positions) × (far.new ≡ far_given far.old n)) }
{
    bring_in(desk, far, id, position, None)
}

/// Swaps the span of a live position of a committed set in, with the row at hand where there is one.
/// Then no row is given out; else as many as a swap-in gives. Where there is no memory, nothing else
/// has changed.
pub(crate) fn bring_in<D: Desk>(
    desk: &mut D,
    far: &mut Far,
    id: SetId,
    position: u32,
    given: Option<&[u8]>,
) -> Result<Reply, NoMemory>
    requires config { IsAccepted (D.settings desk.old) }
    requires live { (set : SetState) × (set_in far.old.sets id.n ≡ Some set)
        × (live_at set position ≡ true) }
    requires sound { IsReadyDesk D.shows desk.old far.old }
    requires row { IsRowOf given far.old id.n position }
    requires given { IfNone given (far.old.nodes.given + 16 < 2 ^ 64) }
    ensures swap { IfOk result (λ reply. Operates D.run D.shows desk.old far.old desk.new far.new
        (BringsRule (λ set. rows_taken given.entry far.old set position) id.n position far.old far.new reply)
        (BringsEffect given.entry id.n position far.old far.new reply)) }
    ensures desk { OnErr result (desk.new ≡ desk.old) }
    ensures far { OnErr result ((set : SetState) → set_in far.old.sets id.n ≡ Some set → (n : ℕ)
        × (n ≤ rows_lacked given.entry set) × (far.new ≡ far_given far.old n)) }
{
    if let Some(lost) = losses(far, id)? {
        return Ok(Reply::Unavailable { set: id, lost });
    }
    let pages = set_pages(far, id, position);
    let Some(frame) = far.frames.least_run(pages) else {
        return Ok(Reply::NoFrame);
    };
    let span = span_at(far, id, position)?;
    bring_row(desk, far, id, position, frame, &span, given)?;
    keep_span(far, id, position, frame, span);
    Ok(Reply::Swapped { frame })
}

/// What a committed set has lost, where it has lost more shards than it has parities.
pub(crate) fn losses(far: &Far, id: SetId) -> Result<Option<Losses>, NoMemory>
    requires sound { (s : Shown) × AwaySound s far.now }
    requires there { (set : SetState) × (set_in far.now.sets id.n ≡ Some set) }
    ensures { IfOk result (λ lost. (set : SetState) → set_in far.now.sets id.n ≡ Some set
        → lost ≡ losses_told far.now set) }
{
    let set = far.sets.committed(id.n).unwrap();
    if set.lost_count(&far.members) <= set.r() {
        return Ok(None);
    }
    Ok(Some(set.lost(far.alloc, &far.members)?))
}

/// The pages of each span of a committed set with a live position.
fn set_pages(far: &Far, id: SetId, position: u32) -> u32
    requires sound { (s : Shown) × AwaySound s far.now }
    requires live { (set : SetState) × (set_in far.now.sets id.n ≡ Some set)
        × (live_at set position ≡ true) }
    ensures pages { (set : SetState) → set_in far.now.sets id.n ≡ Some set → result ≡ set.pages }
    ensures known { IsRunLength result }
{
    far.sets.committed(id.n).unwrap().pages()
}

/// The span of a live position of a committed set: hot, with the slots of the position. Takes the
/// memory of its slots.
fn span_at(far: &Far, id: SetId, position: u32) -> Result<Span, NoMemory>
    requires sound { (s : Shown) × AwaySound s far.now }
    requires live { (set : SetState) × (set_in far.now.sets id.n ≡ Some set)
        × (live_at set position ≡ true) }
    ensures { IfOk result (λ span. (set : SetState) → set_in far.now.sets id.n ≡ Some set
        → IsSpanOf set position span) }
{
    let set = far.sets.committed(id.n).unwrap();
    let slots = set.slots(position);
    let class = class_of_span(set.pages(), slots.len() as u32).unwrap();
    Ok(Span::from_slots(far.alloc, class, Temp::Hot, slots)?)
}

/// Brings the span of a live position of a committed set into the least run that it fits: with the
/// row at hand where there is one, else with its own.
fn bring_row<D: Desk>(
    desk: &mut D,
    far: &mut Far,
    id: SetId,
    position: u32,
    frame: u32,
    span: &Span,
    given: Option<&[u8]>,
) -> Result<(), NoMemory>
    requires config { IsAccepted (D.settings desk.old) }
    requires least { least_run far.old.frames (pages_of span.now.class) ≡ Some frame }
    requires frames { frame + pages_of span.now.class ≤ (D.settings desk.old).frames }
    requires live { (set : SetState) × (set_in far.old.sets id.n ≡ Some set)
        × (live_at set position ≡ true) × (is_broken far.old.members set ≡ false) }
    requires span { (set : SetState) → set_in far.old.sets id.n ≡ Some set
        → IsSpanOf set position span.now }
    requires sound { IsReadyDesk D.shows desk.old far.old }
    requires row { IsRowOf given far.old id.n position }
    requires given { IfNone given (far.old.nodes.given + 16 < 2 ^ 64) }
    ensures row { OnOk result ((set : SetState) → set_in far.old.sets id.n ≡ Some set
        → BringsRow (λ es. D.run desk.old es desk.new) (λ s. D.shows desk.old s)
        far.old far.new set position frame span.now given.entry) }
    ensures desk { OnErr result (desk.new ≡ desk.old) }
    ensures far { OnErr result ((set : SetState) → set_in far.old.sets id.n ≡ Some set → (n : ℕ)
        × (n ≤ rows_lacked given.entry set) × (far.new ≡ far_given far.old n)) }
{
    let Some(row) = given else {
        return bring_own_row(desk, far, id, position, frame, span);
    };
    bring_span(desk, &mut far.homes, frame, span, row);
    Ok(())
}

/// Brings the span of a live position of a committed set into the least run that it fits. Where the
/// position's shard is not lost, its row is stored from where it stands at its node; else the row
/// that k others make is. Where there is no memory for that one, at most k rows were given out and
/// nothing else has changed.
fn bring_own_row<D: Desk>(
    desk: &mut D,
    far: &mut Far,
    id: SetId,
    position: u32,
    frame: u32,
    span: &Span,
) -> Result<(), NoMemory>
    requires config { IsAccepted (D.settings desk.old) }
    requires least { least_run far.old.frames (pages_of span.now.class) ≡ Some frame }
    requires frames { frame + pages_of span.now.class ≤ (D.settings desk.old).frames }
    requires live { (set : SetState) × (set_in far.old.sets id.n ≡ Some set)
        × (live_at set position ≡ true) × (is_broken far.old.members set ≡ false) }
    requires span { (set : SetState) → set_in far.old.sets id.n ≡ Some set
        → IsSpanOf set position span.now }
    requires sound { IsReadyDesk D.shows desk.old far.old }
    requires given { far.old.nodes.given + 16 < 2 ^ 64 }
    ensures row { OnOk result ((set : SetState) → set_in far.old.sets id.n ≡ Some set
        → BringsRow (λ es. D.run desk.old es desk.new) (λ s. D.shows desk.old s)
        far.old far.new set position frame span.now None) }
    ensures desk { OnErr result (desk.new ≡ desk.old) }
    ensures far { OnErr result ((set : SetState) → set_in far.old.sets id.n ≡ Some set → (n : ℕ)
        × (n ≤ length set.positions) × (far.new ≡ far_given far.old n)) }
{
    let set = far.sets.committed(id.n).unwrap();
    let shard = set.shard(position);
    if is_lost(&far.members, shard) {
        let rows = solved(far.alloc, &mut far.nodes, &far.members, set)?;
        bring_span(desk, &mut far.homes, frame, span, rows.row(position));
    } else {
        let row = far.nodes.lend_row(shard.node, shard.key);
        bring_span(desk, &mut far.homes, frame, span, row);
    }
    Ok(())
}

/// Puts the span that was brought in into the least run that it fits. Its position is dead then,
/// and a set with no live position goes with all its rows.
fn keep_span(far: &mut Far, id: SetId, position: u32, frame: u32, span: Span)
    requires frame { least_run far.old.frames (pages_of span.class) ≡ Some frame }
    requires within { frame < length far.old.spans }
    requires set { (set : SetState) × (set_in far.old.sets id.n ≡ Some set)
        × (position < length set.positions) × AreThere far.old.nodes set.shards
        × NodesAreMembers far.old.members set.shards }
    ensures { (set : SetState) → set_in far.old.sets id.n ≡ Some set
        → far.new ≡ record (with_left far.old id.n (with_position set position dead_position)) {
          frames = with_run_taken far.old.frames frame (pages_of span.class);
          spans = slice_set far.old.spans frame (Some span);
        } }
{
    far.frames.take_run(pages(span.class()));
    far.spans.put(frame, span);
    kill_position(far, id.n, position);
}
