//! Pins that the tests take.
ghost use Rattle.cb_shared.specs.Passes.{IsPinOf};
ghost use Rattle.cb_world_tests.specs.Callers.{IsCaller, IsKnownAmong};

use crate::told::{Plain, Told};
use cb_shared::{Pass, Pin, PinAnswer, Shared};
use cb_types::Handle;

/// What the words under a pin tell.
pub(crate) fn words_under(shared: &Shared, objects: &[Handle], pass: &mut Pass, pin: &Pin) -> Told
    requires caller { IsCaller shared.now objects.now pass.old }
    requires pin { IsPinOf pin.now pass.old.seat.me.0 }
    ensures caller { IsCaller shared.now objects.now pass.new }
    ensures pin { IsPinOf pin.now pass.new.seat.me.0 }
{
    let mut any = 0u64;
    let mut every = u64::MAX;
    for index in 0..pin.len().div_ceil(8) {
        let word = shared.peek(pass, pin, index);
        any |= word;
        every &= word;
    }
    told_pin(pin, any, every)
}

/// What a pin tells whose words are so, joined bit by bit: by or, and by and.
fn told_pin(pin: &Pin, any: u64, every: u64) -> Told {
    if any != every {
        return Told::Just(Plain::Torn);
    }
    Told::Bytes {
        version: pin.version(),
        len: pin.len() as usize,
        word: any,
    }
}

/// Pins an object and looks at it, and gives the pin back where it is not to be kept.
pub(crate) fn look(
    shared: &Shared,
    objects: &[Handle],
    pass: &mut Pass,
    h: Handle,
    is_kept: bool,
) -> Told
    requires caller { IsCaller shared.now objects.now pass.old }
    requires among { IsKnownAmong h objects.now }
    ensures caller { IsCaller shared.now objects.now pass.new }
{
    match shared.pin(pass, h) {
        PinAnswer::Pinned(pin) => {
            let told = words_under(shared, objects, pass, &pin);
            if is_kept {
                return told;
            }
            shared.unpin(pass, pin);
            told
        }
        PinAnswer::Freed => Told::Just(Plain::Freed),
        PinAnswer::ScopeFull => Told::Just(Plain::Full),
        PinAnswer::NotHere => Told::Just(Plain::Other),
        PinAnswer::Moving | PinAnswer::Crowded | PinAnswer::Raced { .. } => Told::Just(
            Plain::Later,
        ),
    }
}
