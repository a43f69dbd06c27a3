//! A set of frames, one bit a frame.

ghost use Rattle.std.specs.Prelude.{◌≡◌, ◌+◌, ◌^◌, ◌<◌, ◌≤◌, IfOk, IfSome, length};
ghost use Rattle.cb_frame.specs.Runs.{IsRunLength, least_run};
ghost use Rattle.cb_frame.specs.FrameSet.{all_frames, contains, least, least_from, no_frames, with_inserted, with_removed};

use crate::bitmap;
use cb_member::NoMemory;
use std::alloc::Global;
use std::marker::Model;

/// A set of frames, of those numbered from 0 to a count: one bit a frame, 64 frames a word.
#[derive(Drop)]
pub struct FrameSet {
    words: Vec<u64>,
    count: u32,
}

impl Model for FrameSet {
    ghost use Rattle.std.specs.Prelude.{Bool, List};
    ghost use Rattle.cb_frame.specs.Bitmap.{IsBitmap, flags};

    ghost Value = { List Bool };

    ghost view = { λ a. flags a.words.items a.count };

    ghost invariant = { λ a. IsBitmap a.words.items a.count };
}

impl FrameSet {
    /// The set of none of so many frames.
    pub fn empty(alloc: Global, count: u32) -> Result<FrameSet, NoMemory>
        ensures { IfOk result (λ frames. frames ≡ no_frames count) }
    {
        let words = bitmap::empty(alloc, count)?;
        Ok(FrameSet { words, count })
    }

    /// The set of all of so many frames.
    pub fn full(alloc: Global, count: u32) -> Result<FrameSet, NoMemory>
        ensures { IfOk result (λ frames. frames ≡ all_frames count) }
    {
        let words = bitmap::full(alloc, count as usize)?;
        Ok(FrameSet { words, count })
    }

    /// Puts the frame into the set, in which it may be already. Takes no memory.
    pub fn insert(&mut self, f: u32)
        requires { f < length self.old }
        ensures inserted { self.new ≡ with_inserted self.old f }
        ensures count { length self.new ≡ length self.old }
        ensures numbered { length self.new < 2 ^ 32 }
    {
        bitmap::set(&mut self.words, f as usize);
    }

    /// Takes the frame out of the set, in which it need not be. Takes no memory.
    pub fn remove(&mut self, f: u32)
        requires { f < length self.old }
        ensures removed { self.new ≡ with_removed self.old f }
        ensures count { length self.new ≡ length self.old }
    {
        bitmap::clear(&mut self.words, f as usize);
    }

    /// Whether the frame is in the set; one past the count is not.
    pub fn contains(&self, f: u32) -> bool
        ensures { result ≡ contains self.now f }
    {
        bitmap::is_set(&self.words, f as usize)
    }

    /// The least frame in the set, and None where there is none. Looks at 64 frames at a time.
    pub fn least(&self) -> Option<u32>
        ensures least { result ≡ least self.now }
        ensures in_range { IfSome result (λ f. f < length self.now) }
    {
        self.least_from(0)
    }

    /// The least frame in the set that is `start` or a greater one, and None where there is none.
    /// Looks at 64 frames at a time.
    pub fn least_from(&self, start: u32) -> Option<u32>
        ensures least { result ≡ least_from self.now start }
        ensures in_range { IfSome result (λ f. f < length self.now) }
    {
        let f = bitmap::least_set(&self.words, start as usize)?;
        Some(f as u32)
    }

    /// The least frame from which so many adjacent ones, 1, 2 or 4, are in the set, and None where
    /// there is none. Looks at 64 frames at a time, also over the border of a word.
    pub fn least_run(&self, pages: u32) -> Option<u32>
        requires { IsRunLength pages }
        ensures least { result ≡ least_run self.now pages }
        ensures in_range { IfSome result (λ f. f + pages ≤ length self.now) }
    {
        let f = bitmap::least_run(&self.words, pages)?;
        Some(f as u32)
    }

    /// How many frames there are, in the set or not.
    pub fn count(&self) -> u32
        ensures { result ≡ length self.now }
    {
        self.count
    }
}
