//! The still desk, whose words no one else changes.

ghost use Rattle.std.specs.Prelude.{◌≡◌, ◌+◌, ◌*◌, ◌^◌, ◌<◌, ◌≤◌, length, slice_index, slice_set, replicate, IfOk};
ghost use Rattle.cb_types.specs.Config.{IsAccepted};
ghost use Rattle.cb_ptr.specs.declared.word.State.TheVariants as state;
ghost use Rattle.cb_ptr.specs.Word.{len_of, pins_of, place_of, state_of};
ghost use Rattle.cb_world.specs.Memory.{window, words_for};
ghost use Rattle.cb_world.specs.OpenSteps.{IsClaimed, IsSettled};
ghost use Rattle.cb_world.specs.Pinned.{IsPinned, IsUnpinned};

use crate::desk::{Claim, Desk};
use crate::local_memory::{FRAME_WORDS, LocalMemory};
use cb_ptr::{claimed, pinned, settled, unpack, unpinned};
use cb_types::{Config, Handle, NoMemory};
use std::alloc::Global;
use std::marker::Model;

/// The still desk: pointer words, version words and memory words that no one else changes.
#[derive(Drop)]
pub struct PlainDesk {
    config: Config,
    words: Vec<u64>,
    versions: Vec<u64>,
    memory: LocalMemory,
}

impl Model for PlainDesk {
    ghost use Rattle.cb_world.specs.Plain.{Words, IsSized};

    ghost Value = { Words };

    ghost view = { λ d. record {
      settings = d.config;
      words = d.words.items;
      versions = d.versions.items;
      memory = d.memory;
    } };

    ghost invariant = { λ d. IsSized (record {
      settings = d.config;
      words = d.words.items;
      versions = d.versions.items;
      memory = d.memory;
    }) };
}

impl PlainDesk {
    /// A desk with no objects: every word is 0. Takes the memory of all pointer words, version
    /// words and frames.
    pub fn new(alloc: Global, config: Config) -> Result<PlainDesk, NoMemory>
        requires { IsAccepted config }
        ensures empty { IfOk result (λ desk. desk ≡ record {
          settings = config;
          words = replicate config.handles 0;
          versions = replicate config.handles 0;
          memory = replicate (512 * config.frames) 0;
        }) }
    {
        Ok(PlainDesk {
            config,
            words: vec![in alloc; 0; config.handles as usize]?,
            versions: vec![in alloc; 0; config.handles as usize]?,
            memory: LocalMemory::new(alloc, FRAME_WORDS * config.frames as usize)?,
        })
    }

    /// The pointer word of an object.
    pub fn look(&self, h: Handle) -> u64
        requires { h.n < self.now.settings.handles }
        ensures { slice_index self.now.words h.n ≡ result }
    {
        self.words[h.n as usize]
    }

    /// The version word of an object.
    pub fn tell(&self, h: Handle) -> u64
        requires { h.n < self.now.settings.handles }
        ensures { slice_index self.now.versions h.n ≡ result }
    {
        self.versions[h.n as usize]
    }

    /// Puts the pointer word of an object as it is given.
    pub fn put_word(&mut self, h: Handle, word: u64)
        requires { h.n < self.old.settings.handles }
        ensures { self.new ≡ record self.old { words = slice_set self.old.words h.n word } }
    {
        self.words[h.n as usize] = word;
    }

    /// Puts one pin more on an object that is here and has fewer than 1,023.
    pub fn pin(&mut self, h: Handle)
        requires handle { h.n < self.old.settings.handles }
        requires here { state_of (slice_index self.old.words h.n) ≡ state.Here }
        requires room { pins_of (slice_index self.old.words h.n) < 1023 }
        ensures { IsPinned self.old h.n self.new }
    {
        let word = self.look(h);
        self.words[h.n as usize] = pinned(word);
    }

    /// Takes one pin off an object.
    pub fn unpin(&mut self, h: Handle)
        requires handle { h.n < self.old.settings.handles }
        requires pinned { 1 ≤ pins_of (slice_index self.old.words h.n) }
        ensures { IsUnpinned self.old h.n self.new }
    {
        let word = self.look(h);
        self.words[h.n as usize] = unpinned(word);
    }

    /// Claims an object that is here and has no pins: it is Moving until it is settled.
    pub fn claim_here(&mut self, h: Handle)
        requires handle { h.n < self.old.settings.handles }
        requires here { state_of (slice_index self.old.words h.n) ≡ state.Here }
        requires no_pins { pins_of (slice_index self.old.words h.n) ≡ 0 }
        ensures { IsClaimed self.old h.n self.new }
    {
        let word = self.look(h);
        self.words[h.n as usize] = claimed(word);
    }

    /// Settles a claimed object: it is here again at its place, and hot.
    pub fn settle_here(&mut self, h: Handle)
        requires handle { h.n < self.old.settings.handles }
        requires moving { state_of (slice_index self.old.words h.n) ≡ state.Moving }
        ensures { IsSettled self.old h.n self.new }
    {
        let word = self.look(h);
        self.words[h.n as usize] = settled(word, unpack(word).place, true);
    }

    /// The memory word at a place.
    pub fn load_word(&self, place: u32) -> u64
        requires { place < length self.now.memory }
        ensures { slice_index self.now.memory place ≡ result }
    {
        self.memory.load(place)
    }

    /// Stores a memory word at a place.
    pub fn store_word(&mut self, place: u32, word: u64)
        requires { place < length self.old.memory }
        ensures { self.new ≡ record self.old { memory = slice_set self.old.memory place word } }
    {
        self.memory.store(place, word);
    }

    /// Stores the version word of an object.
    pub fn stamp(&mut self, h: Handle, version: u64)
        requires { h.n < self.old.settings.handles }
        ensures { self.new
            ≡ record self.old { versions = slice_set self.old.versions h.n version } }
    {
        self.versions[h.n as usize] = version;
    }

    /// The memory words of an object in local memory. Takes the memory of a copy of them.
    pub fn contents(&self, alloc: Global, h: Handle) -> Result<Vec<u64>, NoMemory>
        requires handle { h.n < self.now.settings.handles }
        requires within { place_of (slice_index self.now.words h.n)
            + words_for (len_of (slice_index self.now.words h.n)) ≤ length self.now.memory }
        ensures { IfOk result (λ words. words.items ≡ window self.now.memory
            (place_of (slice_index self.now.words h.n))
            (words_for (len_of (slice_index self.now.words h.n)))) }
    {
        let fields = unpack(self.look(h));
        copy_words(alloc, &self.memory, fields.place, fields.len.div_ceil(8))
    }
}

/// So many words from a place on.
fn copy_words(
    alloc: Global,
    memory: &LocalMemory,
    place: u32,
    count: u32,
) -> Result<Vec<u64>, NoMemory>
    requires within { place + count ≤ length memory.now }
    requires small { (place < 2 ^ 24) × (count < 2 ^ 24) }
    ensures { IfOk result (λ words. words.items ≡ window memory.now place count) }
{
    let mut words = Vec::new(alloc);
    for i in 0..count {
        words.push(memory.load(place + i))?;
    }
    Ok(words)
}

impl Desk for PlainDesk {
    ghost use Rattle.std.proofs.Common.{refl};
    ghost use Rattle.cb_world.specs.Plain.{Words, Plain, Shows, IsSized};
    ghost use Rattle.cb_world.specs.StillDesk.{plain_more, plain_stays, plain_follows, plain_sized};

    ghost settings = { λ d. d.settings };

    ghost shows = { λ d s. IsSized d × Shows d s };

    ghost run = { λ d es e. Plain d es e × (IsSized d → IsSized e) };

    fn config(&self) -> Config {
        self.config
    }

    fn word(&mut self, h: Handle) -> u64 {
        self.words[h.n as usize]
    }

    fn version(&mut self, h: Handle) -> u64 {
        self.versions[h.n as usize]
    }

    fn load(&mut self, place: u32) -> u64 {
        self.memory.load(place)
    }

    fn load_frame(&mut self, frame: u32, row: &mut [u8]) {
        self.memory.load_frame(frame, row);
    }

    fn claim(&mut self, h: Handle, saw: u64) -> Claim {
        let found = self.look(h);
        if found == saw {
            self.words[h.n as usize] = claimed(saw);
            Claim::Claimed
        } else {
            Claim::Raced { found }
        }
    }

    fn store(&mut self, place: u32, word: u64) {
        self.memory.store(place, word);
    }

    fn store_frame(&mut self, frame: u32, row: &[u8]) {
        self.memory.store_frame(frame, row);
    }

    fn store_version(&mut self, h: Handle, version: u64) {
        self.versions[h.n as usize] = version;
    }

    fn settle(&mut self, h: Handle, word: u64) {
        self.words[h.n as usize] = word;
    }

    ghost none = { λ d. (refl, λ i. i) };

    ghost more = { λ d e f es fs a b. (plain_more d e f es fs a.0 b.0, λ i. b.1 (a.1 i)) };

    ghost stays = { λ d e es a. plain_stays d e es a.0 };

    ghost follows = { λ d e es s a b.
        let next = plain_follows es d e s a.0 b.1 in (next.0, (a.1 b.0, next.1)) };

    ghost sized = { λ d s a. plain_sized d s a.0 a.1 };
}
