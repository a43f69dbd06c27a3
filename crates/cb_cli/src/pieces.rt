//! A text in pieces, which are not copied into one.

ghost use Rattle.std.specs.Prelude.{◌≡◌, ◌++◌, OnErr, OnOk};
ghost use Rattle.cb_cli.specs.Pieces.{joined_pieces};

use cb_types::{Bytes, NoMemory};
use std::alloc::Global;
use std::marker::Model;

/// A text in pieces, one after the other. Contracts see it as the list of all its bytes.
#[derive(Drop)]
pub struct Pieces {
    first: Bytes,
    rest: Vec<Bytes>,
}

impl Model for Pieces {
    ghost use Rattle.std.specs.Prelude.{List, ℕ, ◌++◌};
    ghost use Rattle.cb_cli.specs.Pieces.{joined_pieces};

    ghost Value = { List ℕ };

    ghost view = { λ a. a.first ++ joined_pieces a.rest.items };
}

impl Pieces {
    /// A text of one piece; takes no memory.
    pub fn one(alloc: Global, first: Bytes) -> Pieces
        ensures text { result ≡ first }
    {
        Pieces {
            first,
            rest: Vec::new(alloc),
        }
    }

    /// Adds another text at the end, of which it copies nothing. Where there was no memory, the text
    /// is as it was.
    pub fn append(&mut self, more: Pieces) -> Result<(), NoMemory>
        ensures text { OnOk result (self.new ≡ self.old ++ more) }
        ensures stopped { OnErr result (self.new ≡ self.old) }
    {
        let Pieces { first, mut rest } = more;
        rest.insert(0, first)?;
        self.rest.append(&mut rest)?;
        Ok(())
    }

    /// The first piece, and those after it.
    pub fn parts(&self) -> (&[u8], &[Bytes])
        ensures text { result.0.now ++ joined_pieces result.1.now ≡ self.now }
    {
        (self.first.as_slice(), self.rest.as_slice())
    }
}
