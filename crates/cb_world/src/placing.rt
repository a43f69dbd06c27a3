//! A place for an object.

ghost use Rattle.std.specs.Prelude.{◌≡◌, ℕ, ◌^◌, ◌≤◌, ◌<◌, length, None, Some, true, false, IfSome, IfNone, IfOk, OnErr};
ghost use Rattle.cb_class.specs.Class.{IsClass, pages_of};
ghost use Rattle.cb_frame.specs.Runs.{least_run};
ghost use Rattle.cb_world.specs.LocalSound.{AreFrames};
ghost use Rattle.cb_world.specs.Placed.{HasRoom, NeedsSpan, Places, leaving_frames};

use crate::far::Far;
use crate::leaving::Leaving;
use cb_class::{Class, pages};
use cb_member::NoMemory;
use cb_span::{Span, Temp, slot_place};

/// The frames of the batch that is leaving, and none where no batch is.
pub fn leaving_frames(leaving: &Option<Leaving>) -> &[u32]
    ensures { result.now ≡ leaving_frames leaving.now }
{
    match leaving {
        Some(batch) => batch.frames.as_slice(),
        None => &[],
    }
}

/// The least frame whose span has the class, the temperature and an empty slot, and is not leaving.
fn least_room(far: &Far, class: Class, temp: Temp) -> Option<u32>
    requires { IsClass class }
    ensures found { IfSome result (λ f. HasRoom far.now class temp f) }
    ensures least { IfSome result (λ f. (g : ℕ) → g < f → ¬ (HasRoom far.now class temp g)) }
    ensures none { IfNone result ((f : ℕ) → ¬ (HasRoom far.now class temp f)) }
    ensures in_range { IfSome result (λ f. f < length far.now.spans) }
{
    far.spans
        .least_open(class, temp, leaving_frames(&far.leaving))
}

/// Places an object of the class in local memory, and answers the place of its slot: the least
/// empty slot in the least frame whose span has the class and temperature and is not leaving; else
/// the first slot of a new span in the least run of free frames that it fits. None exactly where
/// there is neither.
///
/// Takes the memory of a new span alone, before anything changes.
pub fn place_object(
    far: &mut Far,
    handle: u32,
    class: Class,
    temp: Temp,
) -> Result<Option<u32>, NoMemory>
    requires class { IsClass class }
    requires frames { AreFrames far.old }
    requires numbered { length far.old.frames ≤ 2 ^ 15 }
    ensures placed { IfOk result (λ place. Places far.old class temp handle far.new place) }
    ensures error { OnErr result ((far.new ≡ far.old) × NeedsSpan far.old class temp) }
{
    let Some(frame) = least_room(far, class, temp) else {
        return open_span(far, handle, class, temp);
    };
    let Some(slot) = far.spans.place(frame, handle) else {
        return Ok(None);
    };
    Ok(Some(slot_place(class, frame, slot)))
}

/// Whether no run of free frames is long enough for a new span of the class.
fn no_run_fits(far: &Far, class: Class) -> bool
    requires { IsClass class }
    ensures none { result ≡ true → least_run far.now.frames (pages_of class) ≡ None }
    ensures some { result ≡ false
        → (f : ℕ) × (least_run far.now.frames (pages_of class) ≡ Some f) }
{
    match far.frames.least_run(pages(class)) {
        Some(_) => false,
        None => true,
    }
}

/// Places the object in the first slot of a new span, in the least run of free frames that it fits.
fn open_span(far: &mut Far, handle: u32, class: Class, temp: Temp) -> Result<Option<u32>, NoMemory>
    requires class { IsClass class }
    requires frames { AreFrames far.old }
    requires numbered { length far.old.frames ≤ 2 ^ 15 }
    requires full { (f : ℕ) → ¬ (HasRoom far.old class temp f) }
    ensures placed { IfOk result (λ place. Places far.old class temp handle far.new place) }
    ensures error { OnErr result ((far.new ≡ far.old) × NeedsSpan far.old class temp) }
{
    if no_run_fits(far, class) {
        return Ok(None);
    }
    let mut span = Span::new(far.alloc, class, temp)?;
    let Some(frame) = far.frames.take_run(pages(class)) else {
        return Ok(None);
    };
    span.place(handle);
    far.spans.put(frame, span);
    Ok(Some(slot_place(class, frame, 0)))
}
