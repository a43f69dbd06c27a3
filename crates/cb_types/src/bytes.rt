//! The bytes of an object or a text.

ghost use Rattle.std.specs.Prelude.{◌≡◌, ◌≤◌, ◌+◌, ◌++◌, length, take, drop, IfOk};

use cb_member::NoMemory;
use std::alloc::Global;
use std::marker::Model;

/// The bytes of an object, or of a text. Contracts see them as a list.
#[derive(Drop)]
pub struct Bytes {
    items: Vec<u8>,
}

impl Model for Bytes {
    ghost use Rattle.std.specs.Prelude.{List, ℕ};

    ghost Value = { List ℕ };

    ghost view = { λ a. a.items.items };
}

impl Bytes {
    /// A copy of the bytes.
    pub fn copy_of(alloc: Global, items: &[u8]) -> Result<Bytes, NoMemory>
        ensures items { IfOk result (λ copy. copy ≡ items.now) }
    {
        let items = Vec::from_slice(alloc, items)?;
        Ok(Bytes { items })
    }

    /// A copy of these bytes.
    pub fn copy(&self, alloc: Global) -> Result<Bytes, NoMemory>
        ensures items { IfOk result (λ copy. copy ≡ self.now) }
    {
        Bytes::copy_of(alloc, self.items.as_slice())
    }

    /// The bytes, in order.
    pub fn as_slice(&self) -> &[u8]
        ensures items { result.now ≡ self.now }
    {
        self.items.as_slice()
    }

    /// How many bytes there are.
    pub fn len(&self) -> usize
        ensures { result ≡ length self.now }
    {
        self.items.len()
    }

    /// Puts bytes in place of as many from the place `at` on, which are within; takes no memory.
    pub fn overwrite(&mut self, at: usize, bytes: &[u8])
        requires within { at + length bytes.now ≤ length self.old }
        ensures value { self.new ≡ take at self.old ++ bytes.now ++ drop (at + length bytes.now) self.old }
    {
        self.items[at..at + bytes.len()].copy_from_slice(bytes);
    }

    /// Gives the bytes' own memory back as a vector; takes none.
    pub fn into_vec(self) -> Vec<u8>
        ensures items { result.items ≡ self }
    {
        self.items
    }
}

impl From<Vec<u8>> for Bytes {
    ghost from_gives = { λ v bytes. bytes ≡ v.items };

    /// Keeps the vector's own memory; takes none.
    fn from(items: Vec<u8>) -> Bytes {
        Bytes { items }
    }
}
