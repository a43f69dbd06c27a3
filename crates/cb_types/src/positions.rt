//! Positions of a set.

ghost use Rattle.std.specs.Prelude.{◌≡◌, ◌≤◌, length};

use arrayvec::ArrayVec;
use std::marker::Model;

/// The most positions that a span-set has.
const MOST_POSITIONS: usize = 20;

/// Positions of a span-set, at most 20. Contracts see them as a list.
#[derive(Drop)]
pub struct Positions {
    items: ArrayVec<u8, MOST_POSITIONS>,
}

impl Model for Positions {
    ghost use Rattle.std.specs.Prelude.{List, ℕ};

    ghost Value = { List ℕ };

    ghost view = { λ a. a.items.items };
}

impl Positions {
    /// A copy of these positions, at most 20. Takes no memory.
    pub fn copy_of(items: &[u8]) -> Positions
        requires few { length items.now ≤ 20 }
        ensures items { result ≡ items.now }
    {
        let mut copy = ArrayVec::new();
        for item in items {
            copy.push(*item);
        }
        Positions { items: copy }
    }

    /// The positions, in order.
    pub fn as_slice(&self) -> &[u8]
        ensures items { result.now ≡ self.now }
        ensures few { length result.now ≤ 20 }
    {
        self.items.as_slice()
    }
}
