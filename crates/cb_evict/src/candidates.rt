//! Which spans may leave.

ghost use Rattle.std.specs.Prelude.{◌≡◌, ◌^◌, ◌<◌, ◌++◌, true, IfOk, OnOk, filter, length, slice_set};
ghost use Rattle.std.specs.List.{range_with_len};
ghost use Rattle.cb_evict.specs.Candidates.{AreFlags, same_temp, may_leave_by, candidates};

use cb_span::{Span, Temp};
use cb_types::NoMemory;
use cb_world::{Far, Spans, leaving_frames};
use std::alloc::Global;

/// Sets the flag of a frame, if it has one.
fn set_flag(flags: &mut Vec<bool>, frame: u32)
    ensures { flags.new.items ≡ slice_set flags.old.items frame true }
{
    if (frame as usize) < flags.len() {
        flags[frame as usize] = true;
    }
}

/// For each of so many frames whether it is one of these.
fn flag_frames(alloc: Global, count: u32, frames: &[u32]) -> Result<Vec<bool>, NoMemory>
    ensures flags { IfOk result (λ flags. AreFlags frames.now count flags.items) }
{
    let mut flags = vec![in alloc; false; count as usize]?;
    for frame in frames {
        set_flag(&mut flags, *frame);
    }
    Ok(flags)
}

/// Whether both are hot or both are cold.
fn same_temp(a: Temp, b: Temp) -> bool
    ensures { result ≡ same_temp a b }
{
    matches!((a, b), (Temp::Hot, Temp::Hot) | (Temp::Cold, Temp::Cold))
}

/// Whether the frame holds a span of this temperature and has no flag that it is leaving.
fn may_leave(spans: &Spans, leaving: &[bool], temp: Temp, frame: u32) -> bool
    requires within { frame < length leaving.now }
    ensures { result ≡ may_leave_by spans.now leaving.now temp frame }
{
    match spans.get(frame) {
        Some(span) => same_temp(temp, span.temp()) && !leaving[frame as usize],
        None => false,
    }
}

/// Adds the frames whose spans have this temperature and are not leaving, by number.
fn push_frames(
    spans: &Spans,
    leaving: &[bool],
    temp: Temp,
    into: &mut Vec<u32>,
) -> Result<(), NoMemory>
    requires count { length spans.now < 2 ^ 32 }
    requires flags { length leaving.now ≡ length spans.now }
    ensures ok { OnOk result (into.new.items ≡ into.old.items
        ++ filter (may_leave_by spans.now leaving.now temp) (range_with_len 0 (length spans.now))) }
{
    for frame in 0..spans.count() {
        if may_leave(spans, leaving, temp, frame) {
            into.push(frame)?;
        }
    }
    Ok(())
}

/// The frames whose spans may leave, in the order in which they are taken: the cold ones by number,
/// and then the hot ones. The spans of a batch that is leaving are not among them.
pub(crate) fn candidates(far: &Far) -> Result<Vec<u32>, NoMemory>
    requires count { length far.now.spans < 2 ^ 32 }
    ensures frames { IfOk result (λ frames. frames.items ≡ candidates far.now) }
{
    let leaving = flag_frames(far.alloc, far.spans.count(), leaving_frames(&far.leaving))?;
    let mut frames = Vec::new(far.alloc);
    push_frames(&far.spans, &leaving, Temp::Cold, &mut frames)?;
    push_frames(&far.spans, &leaving, Temp::Hot, &mut frames)?;
    Ok(frames)
}
