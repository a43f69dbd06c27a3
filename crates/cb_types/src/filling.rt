//! Bytes of an object, filled word by word.
ghost use Rattle.std.specs.Prelude.{◌≡◌, ◌⊎◌, ℕ, ◌+◌, ◌*◌, ◌<◌, ◌≤◌, length, slice_index};
ghost use Rattle.std.specs.Int.{to_le_bytes, w64};

use crate::bytes::Bytes;

/// Puts the first bytes of a word into the room, as many as it has place for, as word `i` of it.
/// Takes no memory.
#[inline(always)]
pub fn put_word(room: &mut Bytes, i: usize, word: u64)
    requires within { 8 * i < length room.old }
    ensures inside { (j : ℕ) → j < 8 → 8 * i + j < length room.old
        → slice_index room.new (8 * i + j) ≡ slice_index (to_le_bytes w64 word) j }
    ensures outside { (p : ℕ) → (p < 8 * i) ⊎ (8 * i + 8 ≤ p)
        → slice_index room.new p ≡ slice_index room.old p }
    ensures sized { length room.new ≡ length room.old }
{
    let count = room.len();
    let at = 8 * i;
    if count - at < 8 {
        put_last_bytes(room, at, word);
    } else {
        put_whole_word(room, at, word);
    }
}

/// Puts all eight bytes of a word into the room, from the byte `at` on: a copy of a fixed size is
/// one store.
#[inline(always)]
fn put_whole_word(room: &mut Bytes, at: usize, word: u64)
    requires within { at + 8 ≤ length room.old }
    ensures inside { (j : ℕ) → j < 8
        → slice_index room.new (at + j) ≡ slice_index (to_le_bytes w64 word) j }
    ensures outside { (p : ℕ) → (p < at) ⊎ (at + 8 ≤ p)
        → slice_index room.new p ≡ slice_index room.old p }
    ensures sized { length room.new ≡ length room.old }
{
    let bytes = word.to_le_bytes();
    room.overwrite(at, &bytes);
}

/// Puts the first bytes of a word into the room from the byte `at` on, where fewer than eight have
/// place.
fn put_last_bytes(room: &mut Bytes, at: usize, word: u64)
    requires within { at ≤ length room.old }
    requires last { length room.old < at + 8 }
    ensures inside { (j : ℕ) → at + j < length room.old
        → slice_index room.new (at + j) ≡ slice_index (to_le_bytes w64 word) j }
    ensures outside { (p : ℕ) → p < at → slice_index room.new p ≡ slice_index room.old p }
    ensures sized { length room.new ≡ length room.old }
{
    let bytes = word.to_le_bytes();
    let end = room.len() - at;
    room.overwrite(at, &bytes[..end]);
}
