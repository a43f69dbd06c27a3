//! The answers of a run.

ghost use Rattle.std.specs.Prelude.{◌≡◌, [], ◌∷◌, ◌++◌, OnOk, OnErr};

use crate::answer::Answer;
use cb_member::NoMemory;
use std::alloc::Global;
use std::marker::Model;

/// The answers of a run, in order. Contracts see them as a list.
#[derive(Drop)]
pub struct Answers {
    items: Vec<Answer>,
}

impl Model for Answers {
    ghost use Rattle.std.specs.Prelude.{List};
    ghost use Rattle.cb_types.specs.declared.answer.Answer.{Answer};

    ghost Value = { List Answer };

    ghost view = { λ a. a.items.items };
}

impl Answers {
    /// No answers; takes no memory.
    pub fn new(alloc: Global) -> Answers
        ensures empty { result ≡ [] }
    {
        Answers {
            items: Vec::new(alloc),
        }
    }

    /// The answers, the first one first.
    pub fn as_slice(&self) -> &[Answer]
        ensures items { result.now ≡ self.now }
    {
        self.items.as_slice()
    }

    /// Adds an answer at the end. Running out of memory leaves the list as it was.
    pub fn push(&mut self, item: Answer) -> Result<(), NoMemory>
        ensures ok { OnOk result (self.new ≡ self.old ++ item ∷ []) }
        ensures err { OnErr result (self.new ≡ self.old) }
    {
        self.items.push(item)?;
        Ok(())
    }

    /// Gives the list's own memory back as a vector; takes none.
    pub fn into_vec(self) -> Vec<Answer>
        ensures items { result.items ≡ self }
    {
        self.items
    }
}

impl From<Vec<Answer>> for Answers {
    ghost from_gives = { λ v answers. answers ≡ v.items };

    /// Keeps the vector's own memory; takes none.
    fn from(items: Vec<Answer>) -> Answers {
        Answers { items }
    }
}
