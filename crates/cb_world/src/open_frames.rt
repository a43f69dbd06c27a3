//! Which frames have an empty slot, by class and temperature.

ghost use Rattle.std.specs.Prelude.{◌≡◌, ℕ, ◌<◌, List, length, replicate, IfOk, IfSome, Some};
ghost use Rattle.cb_frame.specs.FrameSet.{least_from, no_frames};
ghost use Rattle.cb_world.specs.OpenSpans.{frames_of, kinds, retold};

use cb_class::CLASSES;
use cb_frame::FrameSet;
use cb_member::NoMemory;
use std::alloc::Global;
use std::marker::Model;

/// How many classes there are, each hot and cold.
pub const KINDS: u32 = 2 * CLASSES as u32;

/// A set of frames for each class and temperature.
#[derive(Drop)]
pub struct OpenFrames {
    sets: Vec<FrameSet>,
}

impl Model for OpenFrames {
    ghost use Rattle.std.specs.Prelude.{Bool, List};

    ghost Value = { List (List Bool) };

    ghost view = { λ a. a.sets.items };
}

impl OpenFrames {
    /// The sets of none of so many frames.
    pub fn new(alloc: Global, count: u32) -> Result<OpenFrames, NoMemory>
        ensures { IfOk result (λ sets. sets ≡ replicate kinds (no_frames count)) }
    {
        let mut sets = Vec::with_capacity(alloc, KINDS as usize)?;
        for _ in 0..KINDS {
            sets.push(FrameSet::empty(alloc, count)?)?;
        }
        Ok(OpenFrames { sets })
    }

    /// Takes the frame out of the set of the kind that it was of, and puts it into that of the kind
    /// that it is of now. Takes no memory.
    pub fn retell(&mut self, frame: u32, before: Option<u32>, after: Option<u32>)
        requires before { IfSome before (λ k. k < length self.old) }
        requires after { IfSome after (λ k. k < length self.old) }
        requires sized { (k : ℕ) → k < length self.old → frame < length (frames_of self.old k) }
        ensures retold { self.new ≡ retold self.old frame before after }
    {
        if let Some(kind) = before {
            self.sets[kind as usize].remove(frame);
        }
        if let Some(kind) = after {
            self.sets[kind as usize].insert(frame);
        }
    }

    /// How many frames there are, in the set of a kind or not.
    pub fn count(&self, kind: u32) -> u32
        requires { kind < length self.now }
        ensures { result ≡ length (frames_of self.now kind) }
    {
        self.sets[kind as usize].count()
    }

    /// The least frame in the set of a kind that is `start` or a greater one.
    pub fn least_from(&self, kind: u32, start: u32) -> Option<u32>
        requires { kind < length self.now }
        ensures least { result ≡ least_from (frames_of self.now kind) start }
        ensures in_range { IfSome result (λ f. f < length (frames_of self.now kind)) }
    {
        self.sets[kind as usize].least_from(start)
    }
}
