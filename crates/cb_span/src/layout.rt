//! Where the slots of a span lie.

ghost use Rattle.std.specs.Prelude.{◌≡◌, ◌+◌, ◌*◌, ◌^◌, ◌<◌, ◌≤◌};
ghost use Rattle.cb_class.specs.Class.{IsClass, pages_of, slots_of, words_of};
ghost use Rattle.cb_span.specs.Places.{frame_of, slot_in, slot_place};

use cb_class::{Class, FRAME_WORDS, slot_words};

/// The place of a slot of the span whose first frame this is: the index of its first memory word.
/// Frames follow one another, each of `FRAME_WORDS` words, and from the first word of a span's
/// frames on its slots do, each of the words of its class.
pub fn slot_place(class: Class, frame: u32, slot: u32) -> u32
    requires class { IsClass class }
    requires frame { frame + pages_of class ≤ 2 ^ 15 }
    requires slot { slot < slots_of class }
    ensures place { result ≡ slot_place class frame slot }
    ensures within { result + words_of class ≤ 512 * (frame + pages_of class) }
    ensures fits { result < 2 ^ 24 }
{
    FRAME_WORDS * frame + slot * slot_words(class)
}

/// The frame in which a memory word lies.
pub fn place_frame(place: u32) -> u32
    ensures { result ≡ frame_of place }
{
    place / FRAME_WORDS
}

/// The slot in which a memory word lies, of the span of that class whose first frame this is.
pub fn place_slot(class: Class, frame: u32, place: u32) -> u32
    requires class { IsClass class }
    requires behind { 512 * frame ≤ place }
    ensures { result ≡ slot_in class frame place }
{
    (place - FRAME_WORDS * frame) / slot_words(class)
}
