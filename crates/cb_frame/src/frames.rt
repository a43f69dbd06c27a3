//! Which frames are free.

ghost use Rattle.std.specs.Prelude.{◌≡◌, ℕ, ◌+◌, ◌^◌, ◌<◌, ◌≤◌, IfNone, IfOk, IfSome, false, length, true};
ghost use Rattle.cb_frame.specs.FrameSet.{contains};
ghost use Rattle.cb_frame.specs.Runs.{IsRunLength, least_run, with_run};
ghost use Rattle.cb_frame.specs.FreeFrames.{IsFreeFrame, all_free, free_count, least_free, with_given, with_run_given, with_run_taken, with_taken};

use crate::frame_set::FrameSet;
use cb_member::NoMemory;
use std::alloc::Global;
use std::marker::Model;

/// Which of a count of frames are free: the set of those, and a counter. Frames are numbered
/// from 0.
#[derive(Drop)]
pub struct Frames {
    set: FrameSet,
    // The count of free frames.
    free: u32,
}

impl Model for Frames {
    ghost use Rattle.std.specs.Prelude.{◌≡◌, Bool, List};
    ghost use Rattle.cb_frame.specs.FreeFrames.{free_count};

    ghost Value = { List Bool };

    ghost view = { λ a. a.set };

    ghost invariant = { λ a. a.free ≡ free_count a.set };
}

impl Frames {
    /// So many frames, all free.
    pub fn new(alloc: Global, count: u32) -> Result<Frames, NoMemory>
        ensures { IfOk result (λ frames. frames ≡ all_free count) }
    {
        Ok(Frames {
            set: FrameSet::full(alloc, count)?,
            free: count,
        })
    }

    /// Takes the least free frame, and None exactly where none is free. Takes no memory.
    pub fn take(&mut self) -> Option<u32>
        ensures least { result ≡ least_free self.old }
        ensures taken { IfSome result (λ f. self.new ≡ with_taken self.old f) }
        ensures none { IfNone result (self.new ≡ self.old) }
        ensures in_range { IfSome result (λ f. f < length self.old) }
        ensures count { length self.new ≡ length self.old }
    {
        let f = self.set.least()?;
        self.set.remove(f);
        self.free -= 1;
        Some(f)
    }

    /// Gives a taken frame back. Takes no memory.
    pub fn give(&mut self, f: u32)
        requires in_range { f < length self.old }
        requires taken { ¬ (IsFreeFrame self.old f) }
        ensures given { self.new ≡ with_given self.old f }
        ensures count { length self.new ≡ length self.old }
    {
        self.set.insert(f);
        self.free += 1;
    }

    /// The least frame from which so many adjacent ones, 1, 2 or 4, are free, and None exactly where
    /// there is none. Looks at 64 frames at a time, also over the border of a word.
    pub fn least_run(&self, pages: u32) -> Option<u32>
        requires { IsRunLength pages }
        ensures least { result ≡ least_run self.now pages }
        ensures in_range { IfSome result (λ f. f + pages ≤ length self.now) }
    {
        self.set.least_run(pages)
    }

    /// Takes so many adjacent frames, 1, 2 or 4, from the least one from which they are free, and
    /// answers that one; None exactly where there is none, and nothing is taken. Takes no memory.
    pub fn take_run(&mut self, pages: u32) -> Option<u32>
        requires { IsRunLength pages }
        ensures least { result ≡ least_run self.old pages }
        ensures taken { IfSome result (λ f. self.new ≡ with_run_taken self.old f pages) }
        ensures none { IfNone result (self.new ≡ self.old) }
        ensures in_range { IfSome result (λ f. f + pages ≤ length self.old) }
        ensures count { length self.new ≡ length self.old }
    {
        // A proof reads here that the frames are a number of 32 bits.
        let _ = self.set.count();
        let f = self.set.least_run(pages)?;
        remove_run(&mut self.set, f, pages);
        self.free -= pages;
        Some(f)
    }

    /// Gives so many adjacent taken frames back, from this one on. Takes no memory.
    pub fn give_run(&mut self, f: u32, pages: u32)
        requires in_range { f + pages ≤ length self.old }
        requires taken { (g : ℕ) → f ≤ g → g < f + pages → ¬ (IsFreeFrame self.old g) }
        ensures given { self.new ≡ with_run_given self.old f pages }
        ensures count { length self.new ≡ length self.old }
    {
        // A proof reads here that the frames are a number of 32 bits.
        let _ = self.set.count();
        insert_run(&mut self.set, f, pages);
        self.free += pages;
    }

    /// The count of free frames. Constant time.
    pub fn free(&self) -> u32
        ensures { result ≡ free_count self.now }
    {
        self.free
    }

    /// Whether the frame is free; one past the count is not.
    pub fn is_free(&self, f: u32) -> bool
        ensures { result ≡ contains self.now f }
    {
        self.set.contains(f)
    }

    /// How many frames there are, free or not.
    pub fn count(&self) -> u32
        ensures { result ≡ length self.now }
    {
        self.set.count()
    }

    /// The set of the free frames.
    pub fn free_set(&self) -> &FrameSet
        ensures { result.now ≡ self.now }
    {
        &self.set
    }
}

/// Takes so many adjacent frames out of the set, from this one on.
fn remove_run(set: &mut FrameSet, f: u32, pages: u32)
    requires within { f + pages ≤ length set.old }
    requires numbered { f + pages < 2 ^ 32 }
    ensures { set.new ≡ with_run set.old f pages false }
{
    for d in 0..pages {
        set.remove(f + d);
    }
}

/// Puts so many adjacent frames into the set, from this one on.
fn insert_run(set: &mut FrameSet, f: u32, pages: u32)
    requires within { f + pages ≤ length set.old }
    requires numbered { f + pages < 2 ^ 32 }
    ensures { set.new ≡ with_run set.old f pages true }
{
    for d in 0..pages {
        set.insert(f + d);
    }
}
