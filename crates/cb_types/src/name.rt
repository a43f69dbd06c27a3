//! The name that a script gives an object.

ghost use Rattle.std.specs.Prelude.{◌≡◌, IfOk};

use cb_member::NoMemory;
use std::alloc::Global;
use std::marker::Model;

/// The name that a script gives an object: 1 to 16 lower-case letters and digits, where a script
/// was read. Contracts see it as the list of its bytes.
#[derive(Drop)]
pub struct Name {
    items: Vec<u8>,
}

impl Model for Name {
    ghost use Rattle.std.specs.Prelude.{List, ℕ};

    ghost Value = { List ℕ };

    ghost view = { λ a. a.items.items };
}

impl Name {
    /// A copy of the name.
    pub fn copy_of(alloc: Global, items: &[u8]) -> Result<Name, NoMemory>
        ensures items { IfOk result (λ copy. copy ≡ items.now) }
    {
        let items = Vec::from_slice(alloc, items)?;
        Ok(Name { items })
    }

    /// A copy of these bytes.
    pub fn copy(&self, alloc: Global) -> Result<Name, NoMemory>
        ensures items { IfOk result (λ copy. copy ≡ self.now) }
    {
        Name::copy_of(alloc, self.items.as_slice())
    }

    /// The bytes of the name, in order.
    pub fn as_slice(&self) -> &[u8]
        ensures items { result.now ≡ self.now }
    {
        self.items.as_slice()
    }

    /// Gives the name's own memory back as a vector; takes none.
    pub fn into_vec(self) -> Vec<u8>
        ensures items { result.items ≡ self }
    {
        self.items
    }
}

impl From<Vec<u8>> for Name {
    ghost from_gives = { λ v name. name ≡ v.items };

    /// Keeps the vector's own memory; takes none.
    fn from(items: Vec<u8>) -> Name {
        Name { items }
    }
}
