//! Room for the bytes of an object, as a slice, filled word by word.
ghost use Rattle.std.specs.Prelude.{◌≡◌, ◌⊎◌, ℕ, ◌+◌, ◌*◌, ◌<◌, ◌≤◌, ◌++◌, length, take, drop};
ghost use Rattle.std.specs.Prelude.{slice_index};
ghost use Rattle.std.specs.Int.{to_le_bytes, w64};

/// Puts all eight bytes of a word into the room, as word `i` of it: a copy of a fixed size is one
/// store.
#[inline(always)]
pub(crate) fn put_whole_word(room: &mut [u8], i: usize, word: u64)
    requires within { 8 * i + 8 ≤ length room.old }
    ensures inside { (j : ℕ) → j < 8
        → slice_index room.new (8 * i + j) ≡ slice_index (to_le_bytes w64 word) j }
    ensures outside { (p : ℕ) → (p < 8 * i) ⊎ (8 * i + 8 ≤ p)
        → slice_index room.new p ≡ slice_index room.old p }
    ensures sized { length room.new ≡ length room.old }
{
    let bytes = word.to_le_bytes();
    put_bytes(room, 8 * i, &bytes);
}

/// Puts the first bytes of a word into the room as word `i` of it, where fewer than eight have
/// place.
pub(crate) fn put_last_bytes(room: &mut [u8], i: usize, word: u64)
    requires within { 8 * i ≤ length room.old }
    requires last { length room.old < 8 * i + 8 }
    ensures inside { (j : ℕ) → 8 * i + j < length room.old
        → slice_index room.new (8 * i + j) ≡ slice_index (to_le_bytes w64 word) j }
    ensures outside { (p : ℕ) → (p < 8 * i) ⊎ (8 * i + 8 ≤ p)
        → slice_index room.new p ≡ slice_index room.old p }
    ensures sized { length room.new ≡ length room.old }
{
    let bytes = word.to_le_bytes();
    let count = room.len() - 8 * i;
    put_bytes(room, 8 * i, &bytes[..count]);
}

/// Puts bytes in place of as many from the place `at` on.
#[inline(always)]
fn put_bytes(room: &mut [u8], at: usize, bytes: &[u8])
    requires within { at + length bytes.now ≤ length room.old }
    ensures value { room.new ≡ take at room.old ++ bytes.now
        ++ drop (at + length bytes.now) room.old }
{
    room[at..at + bytes.len()].copy_from_slice(bytes);
}
