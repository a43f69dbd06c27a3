//! Replies to events, in order.

ghost use Rattle.std.specs.Prelude.{◌≡◌, [], ◌∷◌, ◌++◌, OnOk, OnErr};

use cb_types::{NoMemory, Reply};
use std::alloc::Global;
use std::marker::Model;

/// The replies to events, in order. Contracts see them as a list.
#[derive(Drop)]
pub struct Replies {
    items: Vec<Reply>,
}

impl Model for Replies {
    ghost use Rattle.std.specs.Prelude.{List};
    ghost use Rattle.cb_types.specs.declared.reply.Reply.{Reply};

    ghost Value = { List Reply };

    ghost view = { λ a. a.items.items };
}

impl Replies {
    /// No replies; takes no memory.
    pub fn new(alloc: Global) -> Replies
        ensures empty { result ≡ [] }
    {
        Replies {
            items: Vec::new(alloc),
        }
    }

    /// The replies, the first one first.
    pub fn as_slice(&self) -> &[Reply]
        ensures items { result.now ≡ self.now }
    {
        self.items.as_slice()
    }

    /// Adds a reply at the end. Running out of memory leaves the list as it was.
    pub fn push(&mut self, item: Reply) -> Result<(), NoMemory>
        ensures ok { OnOk result (self.new ≡ self.old ++ item ∷ []) }
        ensures err { OnErr result (self.new ≡ self.old) }
    {
        self.items.push(item)?;
        Ok(())
    }
}
