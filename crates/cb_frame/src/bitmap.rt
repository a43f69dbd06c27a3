//! Bitmaps of 64-bit words, and their least set bit.

ghost use Rattle.std.specs.Prelude.{◌≡◌, ℕ, ◌+◌, ◌*◌, ◌-◌, ◌/◌, ◌%◌, ◌^◌, ◌<◌, ◌≤◌, false, IfOk, length, MatchOption, min, nat_eq, replicate, slice_index, true};
ghost use Rattle.std.specs.Prelude.{◌⊎◌};
ghost use Rattle.std.specs.Int.{bit_at};
ghost use Rattle.cb_frame.specs.Bitmap.{ChangesBit, IsFull, IsLeastSet, NoneSet, bit_in};
ghost use Rattle.cb_frame.specs.Runs.{IsLeastRun, IsRunLength, NoRun, run_in};

use std::alloc::{AllocError, Global};

/// The bits of a word.
pub const WORD_BITS: usize = 64;

/// A word whose lowest `n` bits are set, or all where it has no more.
fn low_ones(n: usize) -> u64
    ensures { result ≡ 2 ^ min n 64 - 1 }
{
    if n < WORD_BITS {
        (1 << n) - 1
    } else {
        u64::MAX
    }
}

/// A bitmap whose bits below `count` are set, in just the words for them.
pub fn full(alloc: Global, count: usize) -> Result<Vec<u64>, AllocError>
    ensures { IfOk result (λ words. IsFull words.items count) }
{
    let len = count.div_ceil(WORD_BITS);
    let mut words = Vec::with_capacity(alloc, len)?;
    for i in 0..len {
        words.push(low_ones(count - WORD_BITS * i))?;
    }
    Ok(words)
}

/// A bitmap with no bit set, in just the words for `count` bits.
pub fn empty(alloc: Global, count: u32) -> Result<Vec<u64>, AllocError>
    ensures { IfOk result (λ words. words.items ≡ replicate ((count + 63) / 64) 0) }
{
    let len = (count as usize).div_ceil(WORD_BITS);
    Ok(vec![in alloc; 0; len]?)
}

/// Whether the bit is set.
pub fn is_set(words: &[u64], n: usize) -> bool
    ensures { result ≡ bit_in words.now n }
{
    let place = n / WORD_BITS;
    place < words.len() && (words[place] >> (n % WORD_BITS)) & 1 == 1
}

/// The least bit from `start` on that is set, and None where none is: word by word, 64 bits at a
/// time.
pub fn least_set(words: &[u64], start: usize) -> Option<usize>
    requires { 64 * length words.now < 2 ^ 64 }
    ensures { MatchOption result (NoneSet words.now start) (IsLeastSet words.now start) }
{
    let first = start / WORD_BITS;
    if first >= words.len() {
        return None;
    }
    let rest = words[first] >> (start % WORD_BITS);
    if rest != 0 {
        return Some(start + rest.trailing_zeros() as usize);
    }
    least_in_words(words, start, first + 1)
}

/// The least bit that is set, looked for from the word `first` on, where none is from `start` to
/// that word.
fn least_in_words(words: &[u64], start: usize, first: usize) -> Option<usize>
    requires small { 64 * length words.now < 2 ^ 64 }
    requires start { start ≤ 64 * first }
    requires clear { (k : ℕ) → start ≤ k → k < 64 * first → bit_in words.now k ≡ false }
    ensures { MatchOption result (NoneSet words.now start) (IsLeastSet words.now start) }
{
    for i in first..words.len() {
        if words[i] != 0 {
            return Some(WORD_BITS * i + words[i].trailing_zeros() as usize);
        }
    }
    None
}

/// Sets one bit.
pub fn set(words: &mut [u64], n: usize)
    requires { n / 64 < length words.old }
    ensures { ChangesBit words.old words.new n true }
{
    words[n / WORD_BITS] |= 1 << (n % WORD_BITS);
}

/// Clears one bit.
pub fn clear(words: &mut [u64], n: usize)
    requires { n / 64 < length words.old }
    ensures { ChangesBit words.old words.new n false }
{
    words[n / WORD_BITS] &= !(1 << (n % WORD_BITS));
}

/// The word of a number, and 0 after the last one.
fn word_or_zero(words: &[u64], i: usize) -> u64
    ensures { slice_index words.now i ≡ result }
{
    if i < words.len() { words[i] } else { 0 }
}

/// A word and the next one, which stands above it; 0 after the last word.
fn two_words(words: &[u64], i: usize) -> u128
    requires { i < length words.now }
    ensures { (j : ℕ) → j < 128 → nat_eq (bit_at result j) 1 ≡ bit_in words.now (64 * i + j) }
{
    let next = word_or_zero(words, i + 1) as u128;
    next * 18_446_744_073_709_551_616 + words[i] as u128
}

/// The lowest 64 bits.
fn low_word(bits: u128) -> u64
    ensures { result ≡ bits % 2 ^ 64 }
{
    (bits % 18_446_744_073_709_551_616) as u64
}

/// The places of a word from which so many bits, 2 or 4, are set: a bit and those above it, also in
/// the next word.
fn starts(words: &[u64], i: usize, pages: u32) -> u64
    requires within { i < length words.now }
    requires pages { (pages ≡ 2) ⊎ (pages ≡ 4) }
    ensures { (j : ℕ) → j < 64 → nat_eq (bit_at result j) 1 ≡ run_in words.now (64 * i + j) pages }
{
    let bits = two_words(words, i);
    let pairs = bits & (bits >> 1);
    if pages == 2 {
        return low_word(pairs);
    }
    low_word(pairs & (pairs >> 2))
}

/// The least place from which so many bits, 1, 2 or 4, are set, and None where there is none: word by
/// word, 64 places at a time, also over a word's border.
pub fn least_run(words: &[u64], pages: u32) -> Option<usize>
    requires small { 64 * length words.now < 2 ^ 64 }
    requires pages { IsRunLength pages }
    ensures { MatchOption result (NoRun words.now pages) (IsLeastRun words.now pages) }
{
    if pages == 1 {
        return least_set(words, 0);
    }
    for i in 0..words.len() {
        let found = starts(words, i, pages);
        if found != 0 {
            return Some(WORD_BITS * i + found.trailing_zeros() as usize);
        }
    }
    None
}
