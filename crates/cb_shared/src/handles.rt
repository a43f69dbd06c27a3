//! The handles that a pass has pinned.
ghost use Rattle.std.specs.Prelude.{◌≡◌, ◌<◌, ◌≤◌, ℕ, List, [], ◌∷◌, length, IfSome, IfNone};
ghost use Rattle.crossbeam_utils.specs.Padded.{padded_value};
ghost use Rattle.cb_shared.specs.Handles.{IsFirstAt};

use arrayvec::ArrayVec;
use crossbeam_utils::CachePadded;

/// The most pins that a pass may have.
pub const MOST_PINS: usize = 16;

/// The handles of the pins, the newest first, on cache lines of their own.
pub(crate) type Pins = CachePadded<ArrayVec<u32, MOST_PINS>>;

/// No pins.
pub(crate) fn no_pins() -> Pins
    ensures { (padded_value result).items ≡ [] }
{
    CachePadded::new(ArrayVec::new())
}

/// How many pins there are.
pub(crate) fn count_pins(pins: &Pins) -> usize
    ensures count { result ≡ length (padded_value pins.now).items }
    ensures few { length (padded_value pins.now).items ≤ 16 }
{
    pins.len()
}

/// The place of the newest pin on an object.
pub(crate) fn newest(pins: &[u32], h: u32) -> usize
    requires { (at : ℕ) × IsFirstAt pins.now h at }
    ensures { IsFirstAt pins.now h result }
{
    for at in 0..pins.len() {
        if pins[at] == h {
            return at;
        }
    }
    unreachable!()
}

/// The handle of the newest pin, None where there is none.
pub(crate) fn first_handle(pins: &Pins) -> Option<u32>
    ensures some { IfSome result (λ h. (rest : List ℕ)
        × ((padded_value pins.now).items ≡ h ∷ rest)) }
    ensures none { IfNone result ((padded_value pins.now).items ≡ []) }
{
    match pins.as_slice() {
        [] => None,
        [first, ..] => Some(*first),
    }
}
