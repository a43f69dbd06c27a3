//! Commands on an array and a map, and what is said to them.

ghost use Rattle.std.specs.Prelude.{◌≡◌, [], ◌∷◌, ◌++◌, OnOk, OnErr};

use cb_types::{NoMemory, Reply};
use std::alloc::Global;
use std::marker::Model;

/// A command on one array and one map of numbers.
#[derive(Clone, Copy)]
pub enum FarCommand {
    /// Puts a number at the end of the array.
    Push { x: u64 },
    /// Puts a number in the place of the one with this index.
    Set { i: u32, x: u64 },
    /// Asks for the number with this index.
    Get { i: u32 },
    /// Takes the last number of the array away.
    Pop,
    /// Puts a number under a key of the map.
    Put { key: u64, x: u64 },
    /// Asks for the number under a key.
    Look { key: u64 },
    /// Takes a key and its number out of the map.
    Drop { key: u64 },
}

/// What is said to a command.
#[derive(Drop)]
pub enum FarAnswer {
    /// It is done, and there is nothing to tell.
    Done,
    /// The number that was asked for, was taken away, or stood under the key before.
    Number { n: u64 },
    /// There is no such number: the array is empty, or the key is not in the map.
    Nothing,
    /// The index is not below the array's length, which is told.
    Outside { len: u32 },
    /// A call of the runtime was refused by this reply, and the array and the map are as they were.
    Refused { reply: Reply },
}

/// Commands, in order. Contracts see them as a list.
#[derive(Drop)]
pub struct FarCommands {
    items: Vec<FarCommand>,
}

impl Model for FarCommands {
    ghost use Rattle.std.specs.Prelude.{List};
    ghost use Rattle.cb_map_text.specs.declared.command.FarCommand.{FarCommand};

    ghost Value = { List FarCommand };

    ghost view = { λ a. a.items.items };
}

impl FarCommands {
    /// No commands; takes no memory.
    pub fn new(alloc: Global) -> FarCommands
        ensures empty { result ≡ [] }
    {
        FarCommands {
            items: Vec::new(alloc),
        }
    }

    /// The commands, the first one first.
    pub fn as_slice(&self) -> &[FarCommand]
        ensures items { result.now ≡ self.now }
    {
        self.items.as_slice()
    }

    /// Adds a command at the end. Running out of memory leaves the list as it was.
    pub fn push(&mut self, item: FarCommand) -> Result<(), NoMemory>
        ensures ok { OnOk result (self.new ≡ self.old ++ item ∷ []) }
        ensures err { OnErr result (self.new ≡ self.old) }
    {
        self.items.push(item)?;
        Ok(())
    }
}
