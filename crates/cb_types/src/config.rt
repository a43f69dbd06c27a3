//! The sizes with which a runtime is set up.

ghost use Rattle.std.specs.Prelude.{◌≡◌, MatchResult};
ghost use Rattle.cb_types.specs.Config.{IsAccepted, IsFirstOutOfRange};

/// The most bytes of an object.
pub const MOST_BYTES: u32 = 4096;

/// The sizes with which a runtime is set up. `check` says which are accepted.
#[derive(Clone, Copy, Debug, PartialEq, Eq)]
pub struct Config {
    /// Data positions of a span-set: 1 to 16.
    pub k: u32,
    /// Parity positions of a span-set, and so the crashes that it survives: 1 to 4.
    pub r: u32,
    /// Memory nodes: k + r to 64.
    pub nodes: u32,
    /// Frames of local memory, 4,096 bytes each: 1 to 4,096.
    pub frames: u32,
    /// Rows that a node holds at the most: 1 to 4,096.
    pub room: u32,
    /// Objects that can be made: 1 to 65,536.
    pub handles: u32,
    /// Turns that each worker makes: 0 to 2,500.
    pub turns: u32,
}

/// A field of the configuration.
#[derive(Clone, Copy, Debug, PartialEq, Eq)]
pub enum Field {
    K,
    R,
    Nodes,
    Frames,
    Room,
    Handles,
    Turns,
}

impl Config {
    /// Answers Ok exactly where every field is in its range, and otherwise the first field, in the
    /// order of `Field`, that is not.
    pub fn check(&self) -> Result<(), Field>
        ensures { MatchResult result (λ _. IsAccepted self.now) (λ field. IsFirstOutOfRange self.now field) }
    {
        if self.k < 1 || self.k > 16 {
            return Err(Field::K);
        }
        if self.r < 1 || self.r > 4 {
            return Err(Field::R);
        }
        if self.nodes < self.k + self.r || self.nodes > 64 {
            return Err(Field::Nodes);
        }
        if self.frames < 1 || self.frames > 4096 {
            return Err(Field::Frames);
        }
        if self.room < 1 || self.room > 4096 {
            return Err(Field::Room);
        }
        if self.handles < 1 || self.handles > 65536 {
            return Err(Field::Handles);
        }
        if self.turns > 2500 {
            return Err(Field::Turns);
        }
        Ok(())
    }
}
