//! The words of local memory, touched frame by frame.

ghost use Rattle.std.specs.Prelude.{◌≡◌, ◌<◌, ◌≤◌, ◌+◌, ◌*◌, ◌^◌, All, length, slice_index, slice_set, replicate, vec_len, vec_capacity, IfOk};
ghost use Rattle.cb_world.specs.LocalMemory.{padded};
ghost use Rattle.cb_world.specs.Memory.{put, window};
ghost use Rattle.cb_world.specs.RowWords.{row_of, words_in};

use byteorder::{ByteOrder, LittleEndian};
use cb_types::NoMemory;
use std::alloc::Global;
use std::marker::Model;

/// How many words of memory a frame has.
pub const FRAME_WORDS: usize = 512;

/// The words of local memory. A frame's words are touched when one of them is stored, so that a
/// large memory of which little is used costs its addresses alone.
#[derive(Drop)]
pub(crate) struct LocalMemory {
    // The words up to the last frame that was stored to; all after them are 0.
    front: Vec<u64>,
    count: usize,
}

impl Model for LocalMemory {
    ghost use Rattle.std.specs.Prelude.{◌≤◌, ℕ, List, length, vec_capacity};
    ghost use Rattle.cb_world.specs.LocalMemory.{padded};

    ghost Value = { List ℕ };

    ghost view = { λ m. padded m.front.items m.count };

    ghost invariant = { λ m. (length m.front.items ≤ m.count)
        × (m.count ≤ vec_capacity m.front) };
}

/// Lengthens the words by zeros to the end of the frame of a place. There is room, so this takes no
/// memory.
#[cold]
fn lengthen(front: &mut Vec<u64>, count: usize, place: usize)
    requires room { count ≤ vec_capacity front.old }
    requires place { place < count }
    requires behind { vec_len front.old ≤ place }
    ensures words { padded front.new.items count ≡ padded front.old.items count }
    ensures reached { place < vec_len front.new }
    ensures within { vec_len front.new ≤ count }
    ensures room { count ≤ vec_capacity front.new }
{
    let end = count.min((place / FRAME_WORDS + 1) * FRAME_WORDS);
    front.resize(end, 0).unwrap();
}

/// Has the words reach a place, by zeros after them. Takes no memory.
#[inline(always)]
fn reach(front: &mut Vec<u64>, count: usize, place: usize)
    requires room { count ≤ vec_capacity front.old }
    requires within { vec_len front.old ≤ count }
    requires place { place < count }
    ensures words { padded front.new.items count ≡ padded front.old.items count }
    ensures reached { place < vec_len front.new }
    ensures within { vec_len front.new ≤ count }
    ensures room { count ≤ vec_capacity front.new }
{
    if front.len() <= place {
        lengthen(front, count, place);
    }
}

/// The 512 words from a place on, as the bytes of a row.
fn copy_words(words: &Vec<u64>, first: usize, row: &mut [u8])
    requires within { first + 512 ≤ length words.now.items }
    requires row { length row.old ≡ 4096 }
    ensures row { row.new ≡ row_of (window words.now.items first 512) }
    ensures small { All (λ w. w < 2 ^ 64) (window words.now.items first 512) }
{
    let words = words.as_slice();
    LittleEndian::write_u64_into(&words[first..first + FRAME_WORDS], row);
}

/// Puts the 512 words of a row in the place of those from a place on.
fn put_words(words: &mut Vec<u64>, first: usize, row: &[u8])
    requires within { first + 512 ≤ length words.old.items }
    requires row { length row.now ≡ 4096 }
    ensures words { words.new.items ≡ put words.old.items first (words_in row.now) }
    ensures room { vec_capacity words.new ≡ vec_capacity words.old }
{
    LittleEndian::read_u64_into(row, &mut words[first..first + FRAME_WORDS]);
}

impl LocalMemory {
    /// So many words, each 0. Takes the memory of all of them.
    pub fn new(alloc: Global, count: usize) -> Result<LocalMemory, NoMemory>
        ensures { IfOk result (λ memory. memory ≡ replicate count 0) }
    {
        let front = Vec::with_capacity(alloc, count)?;
        Ok(LocalMemory { front, count })
    }

    /// The word at a place.
    #[inline(always)]
    pub fn load(&self, place: u32) -> u64
        requires { place < length self.now }
        ensures { slice_index self.now place ≡ result }
    {
        let place = place as usize;
        if place < self.front.len() {
            self.front[place]
        } else {
            0
        }
    }

    /// Stores a word at a place. Takes no memory.
    #[inline(always)]
    pub fn store(&mut self, place: u32, word: u64)
        requires { place < length self.old }
        ensures { self.new ≡ slice_set self.old place word }
    {
        let place = place as usize;
        reach(&mut self.front, self.count, place);
        self.front[place] = word;
    }

    /// The words of a frame in a row of 4,096 bytes. Takes no memory.
    pub fn load_frame(&mut self, frame: u32, row: &mut [u8])
        requires frame { 512 * frame + 512 ≤ length self.old }
        requires row { length row.old ≡ 4096 }
        ensures unchanged { self.new ≡ self.old }
        ensures row { row.new ≡ row_of (window self.old (512 * frame) 512) }
        ensures small { All (λ w. w < 2 ^ 64) (window self.old (512 * frame) 512) }
    {
        let first = FRAME_WORDS * frame as usize;
        reach(&mut self.front, self.count, first + (FRAME_WORDS - 1));
        copy_words(&self.front, first, row);
    }

    /// Stores the words of a row of 4,096 bytes in a frame. Takes no memory.
    pub fn store_frame(&mut self, frame: u32, row: &[u8])
        requires frame { 512 * frame + 512 ≤ length self.old }
        requires row { length row.now ≡ 4096 }
        ensures { self.new ≡ put self.old (512 * frame) (words_in row.now) }
    {
        let first = FRAME_WORDS * frame as usize;
        reach(&mut self.front, self.count, first + (FRAME_WORDS - 1));
        put_words(&mut self.front, first, row);
    }
}
