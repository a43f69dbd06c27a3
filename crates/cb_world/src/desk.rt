//! The desk: the words at which the holder of the far lock works.

ghost use Rattle.std.specs.Prelude.{◌≡◌, ◌≢◌, ℕ, ◌+◌, ◌*◌, ◌<◌, List, [], ◌∷◌, ◌++◌, length};
ghost use Rattle.cb_types.specs.declared.config.Config.{Config};
ghost use Rattle.cb_ptr.specs.declared.word.State.TheVariants as word;
ghost use Rattle.cb_ptr.specs.Word.{state_of, pins_of};
ghost use Rattle.cb_world.specs.declared.access.Access.{Access};
ghost use Rattle.cb_world.specs.declared.access.Access.TheVariants.{Looked, Claimed, Told, Loaded, Stored, Stamped, Settled};
ghost use Rattle.cb_world.specs.declared.desk.Claim.TheVariants as answer;
ghost use Rattle.cb_world.specs.declared.shown.Shown.{Shown};
ghost use Rattle.cb_world.specs.Shown.{Owns, IsHeld, object_at};
ghost use Rattle.cb_world.specs.Settling.{MaySettle};
ghost use Rattle.cb_world.specs.Played.{Agree, played};
ghost use Rattle.cb_world.specs.RowWords.{words_in};
ghost use Rattle.cb_world.specs.FrameWords.{OwnsWords, ReadsFrame, stores_from};

use cb_types::{Config, Handle};

/// What a claim answers.
#[derive(Clone, Copy)]
pub enum Claim {
    /// The object is the caller's to change, until it settles its word.
    Claimed,
    /// The word was another one.
    Raced { found: u64 },
}

/// The words at which the holder of the far lock works: alone, or while others pin, unpin and
/// write.
///
/// A call is told by its events. What the holder knows is plain data, which each event changes; so
/// an operation is stated and proved once, over every desk. Where no one else changes the words,
/// what was found is what was there, and the statement is exact. No call takes memory.
pub trait Desk {
    // How many handles and frames there are.
    ghost settings: { Self → Config };

    // All that the desk tells is as this says.
    ghost shows: { Self → Shown → Type 0 };

    // These events lead from one desk to the other.
    ghost run: { Self → List Access → Self → Type 0 };

    /// The configuration.
    fn config(&self) -> Config
        ensures { result ≡ settings self.now };

    /// The pointer word of an object.
    fn word(&mut self, h: Handle) -> u64
        requires { h.n < (settings self.old).handles }
        ensures { run self.old (Looked h.n result ∷ []) self.new };

    /// The version word of an object.
    fn version(&mut self, h: Handle) -> u64
        requires { h.n < (settings self.old).handles }
        ensures { run self.old (Told h.n result ∷ []) self.new };

    /// A memory word.
    fn load(&mut self, place: u32) -> u64
        requires { place < 512 * (settings self.old).frames }
        ensures { run self.old (Loaded place result ∷ []) self.new };

    /// Loads the words of a frame into a row of 4,096 bytes, each once and in order: eight bytes a
    /// word, the first one lowest.
    fn load_frame(&mut self, frame: u32, row: &mut [u8])
        requires frame { frame < (settings self.old).frames }
        requires row { length row.old ≡ 4096 }
        ensures { ReadsFrame (λ es. run self.old es self.new) frame row.new };

    /// Claims the object, Raced exactly where its word is another than `saw`. The word `saw` is
    /// here and has no pins.
    fn claim(&mut self, h: Handle, saw: u64) -> Claim
        requires handle { h.n < (settings self.old).handles }
        requires here { state_of saw ≡ word.Here }
        requires no_pins { pins_of saw ≡ 0 }
        ensures won { result ≡ answer.Claimed → (v : ℕ) × (words : List ℕ)
            × run self.old (Claimed h.n saw v words ∷ []) self.new }
        ensures raced { (found : ℕ) → result ≡ answer.Raced found
            → (found ≢ saw) × run self.old (Looked h.n found ∷ []) self.new };

    /// Stores a memory word at a place that the caller owns.
    fn store(&mut self, place: u32, word: u64)
        requires place { place < 512 * (settings self.old).frames }
        requires owned { (s : Shown) × shows self.old s × Owns s place }
        ensures { run self.old (Stored place word ∷ []) self.new };

    /// Stores the words of a row of 4,096 bytes in a frame whose words the caller owns, each once
    /// and in order.
    fn store_frame(&mut self, frame: u32, row: &[u8])
        requires frame { frame < (settings self.old).frames }
        requires row { length row.now ≡ 4096 }
        requires owned { (s : Shown) × shows self.old s × OwnsWords s frame }
        ensures { run self.old (stores_from (512 * frame) (words_in row.now)) self.new };

    /// Stores the version word of an object that the caller claims, or that is empty or far.
    fn store_version(&mut self, h: Handle, version: u64)
        requires handle { h.n < (settings self.old).handles }
        requires held { (s : Shown) × shows self.old s × IsHeld (object_at s h.n) }
        ensures { run self.old (Stamped h.n version ∷ []) self.new };

    /// Stores the pointer word of an object that the caller claims, or that is empty or far.
    fn settle(&mut self, h: Handle, word: u64)
        requires handle { h.n < (settings self.old).handles }
        requires may { (s : Shown) × shows self.old s × MaySettle s h.n word }
        ensures { run self.old (Settled h.n word ∷ []) self.new };

    // No events lead nowhere.
    ghost none: { (d : Self) → run d [] d };

    // Events and then more events lead on.
    ghost more: { (d e f : Self) (es fs : List Access) → run d es e → run e fs f → run d (es ++ fs) f };

    // The configuration stays.
    ghost stays: { (d e : Self) (es : List Access) → run d es e → settings e ≡ settings d };

    // What events tell agrees with what was known, and what is known afterwards is what they make
    // of it.
    ghost follows: { (d e : Self) (es : List Access) (s : Shown) → run d es e → shows d s
        → Agree s es × shows e (played es s) };

    // What is known has as many objects and words as the configuration says; a frame has 512 words.
    ghost sized: { (d : Self) (s : Shown) → shows d s
        → (length s.objects ≡ (settings d).handles) × (length s.hots ≡ (settings d).handles)
        × (length s.versions ≡ (settings d).handles)
        × (length s.memory ≡ 512 * (settings d).frames) };
}
