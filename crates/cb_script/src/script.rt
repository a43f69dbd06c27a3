//! A script that was read.

ghost use Rattle.std.specs.Prelude.{◌≡◌, [], ◌∷◌, ◌++◌, OnOk, OnErr};

use cb_types::{Config, Lane, NoMemory, Request};
use std::alloc::Global;
use std::marker::Model;

/// How a script is run, and so which lines it may have.
#[derive(Clone, Copy, PartialEq, Eq)]
pub enum Mode {
    /// On one thread, line after line.
    Seq,
    /// Each lane on a thread of its own, beside workers, which make the steps of evictions and
    /// compactions: no line may ask for one.
    Threads,
}

/// A line of a script after its header, which is line 1.
#[derive(Drop)]
pub struct Line {
    pub lane: Lane,
    pub line: u32,
    pub request: Request,
}

/// A script that was read: the header's configuration, and the lines after the header.
#[derive(Drop)]
pub struct Script {
    pub config: Config,
    pub lines: Lines,
}

/// Lines, in order. Contracts see them as a list.
#[derive(Drop)]
pub struct Lines {
    items: Vec<Line>,
}

impl Model for Lines {
    ghost use Rattle.std.specs.Prelude.{List};
    ghost use Rattle.cb_script.specs.declared.script.Line.{Line};

    ghost Value = { List Line };

    ghost view = { λ a. a.items.items };
}

impl Lines {
    /// No lines; takes no memory.
    pub fn new(alloc: Global) -> Lines
        ensures empty { result ≡ [] }
    {
        Lines {
            items: Vec::new(alloc),
        }
    }

    /// The lines, the first one first.
    pub fn as_slice(&self) -> &[Line]
        ensures items { result.now ≡ self.now }
    {
        self.items.as_slice()
    }

    /// Adds a line at the end. Running out of memory leaves the list as it was.
    pub fn push(&mut self, item: Line) -> Result<(), NoMemory>
        ensures ok { OnOk result (self.new ≡ self.old ++ item ∷ []) }
        ensures err { OnErr result (self.new ≡ self.old) }
    {
        self.items.push(item)?;
        Ok(())
    }

    /// Gives the lines' own memory back as a vector; takes none.
    pub fn into_vec(self) -> Vec<Line>
        ensures items { result.items ≡ self }
    {
        self.items
    }
}

impl From<Vec<Line>> for Lines {
    ghost from_gives = { λ v lines. lines ≡ v.items };

    /// Keeps the vector's own memory; takes none.
    fn from(items: Vec<Line>) -> Lines {
        Lines { items }
    }
}
