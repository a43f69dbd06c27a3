//! What the atomic steps add to a pointer word.

ghost use Rattle.std.specs.Prelude.{◌≡◌, ◌^◌, ◌<◌, ◌≤◌};
ghost use Rattle.cb_ptr.specs.declared.word.State.TheVariants.{Here, Moving};
ghost use Rattle.cb_ptr.specs.Word.{pins_of, state_of};
ghost use Rattle.cb_ptr.specs.Steps.{Claims, GivesPin, IsFarWord, Settles, TakesPin};

use crate::word::{PtrWord, State, pack, unpack};

/// One pin, as what it adds to a word.
const PIN: u64 = 1 << 3;

/// The bit that says hot.
const HOT: u64 = 1 << 2;

/// The word with one pin more, and hot: what a pin exchanges in.
pub fn pinned(w: u64) -> u64
    requires here { state_of w ≡ Here }
    requires room { pins_of w < 1023 }
    ensures { TakesPin w result }
{
    (w + PIN) | HOT
}

/// The word with one pin less: what is left where an unpin subtracts 8.
pub fn unpinned(w: u64) -> u64
    requires { 1 ≤ pins_of w }
    ensures { GivesPin w result }
{
    w - PIN
}

/// The word as Moving: what a claim exchanges in.
pub fn claimed(w: u64) -> u64
    requires here { state_of w ≡ Here }
    requires no_pins { pins_of w ≡ 0 }
    ensures { Claims w result }
{
    w + 1
}

/// The word as Here at `place`, an index of a memory word, hot or not: what the claimer stores.
pub fn settled(w: u64, place: u32, hot: bool) -> u64
    requires moving { state_of w ≡ Moving }
    requires within { place < 2 ^ 24 }
    ensures { Settles w place hot result }
{
    pack(&PtrWord {
        state: State::Here,
        hot,
        place,
        ..unpack(w)
    })
}

/// The word of a Far object of so many bytes, below 65,536: what leaving stores.
pub fn far_word(len: u32) -> u64
    requires { len < 2 ^ 16 }
    ensures { IsFarWord len result }
{
    pack(&PtrWord {
        state: State::Far,
        hot: false,
        pins: 0,
        len,
        place: 0,
    })
}
