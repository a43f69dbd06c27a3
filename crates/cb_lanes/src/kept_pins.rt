//! The pins that a lane keeps beside its pass, the newest one first.
ghost use Rattle.std.specs.Prelude.{◌≡◌, ◌<◌, ◌∷◌, length, IfSome, IfNone};
ghost use Rattle.cb_lanes.specs.Passing.{HasNoMark, IsNewestAt, marks_of};

use arrayvec::ArrayVec;
use cb_shared::Pin;

/// The most pins that a lane may have.
pub(crate) const MOST_PINS: usize = 16;

/// The pins of a lane.
pub(crate) type KeptPins = ArrayVec<Pin, MOST_PINS>;

/// Keeps a pin that was just taken.
pub(crate) fn keep_pin(pins: &mut KeptPins, pin: Pin)
    requires room { length pins.old.items < 16 }
    ensures kept { pins.new.items ≡ pin ∷ pins.old.items }
{
    pins.insert(0, pin);
}

/// The place of the newest pin on an object, None where there is none.
pub(crate) fn newest_pin(pins: &[Pin], h: u32) -> Option<usize>
    ensures some { IfSome result (λ at. IsNewestAt h (marks_of pins.now) at) }
    ensures none { IfNone result (HasNoMark h (marks_of pins.now)) }
{
    for at in 0..pins.len() {
        if pins[at].handle().n == h {
            return Some(at);
        }
    }
    None
}
