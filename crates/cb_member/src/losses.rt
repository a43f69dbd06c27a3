//! Crashed nodes, each with the epoch of its crash.

ghost use Rattle.std.specs.Prelude.{◌≡◌, IfOk};
ghost use lib.Pointwise.{pointwise};
ghost use Rattle.std.specs.Cmp.Lexicographic.{lists_per, lists_equiv};
ghost use Rattle.cb_member.specs.contracts.names.LossPartialEq.TheImpl.Laws.{laws-law as loss_per};
ghost use Rattle.cb_member.specs.contracts.names.LossEq.TheImpl.Laws.{laws-law as loss_equiv};

use crate::names::Loss;
use crate::no_memory::NoMemory;
use std::alloc::Global;
use std::marker::Model;

/// A list of crashed nodes, each with the epoch of its crash. Contracts see it as that list.
#[derive(Drop)]
pub struct Losses {
    items: Vec<Loss>,
}

impl Model for Losses {
    ghost use Rattle.std.specs.Prelude.{List};
    ghost use Rattle.cb_member.specs.declared.names.Loss.{Loss};

    ghost Value = { List Loss };

    ghost view = { λ a. a.items.items };
}

impl Losses {
    /// A copy of the list.
    pub fn copy_of(alloc: Global, items: &[Loss]) -> Result<Losses, NoMemory>
        ensures items { IfOk result (λ copy. copy ≡ items.now) }
    {
        let items = Vec::from_slice(alloc, items)?;
        Ok(Losses { items })
    }

    /// The losses in order.
    pub fn as_slice(&self) -> &[Loss]
        ensures items { result.now ≡ self.now }
    {
        self.items.as_slice()
    }

    /// Gives the list's own memory back as a vector; takes none.
    pub fn into_vec(self) -> Vec<Loss>
        ensures items { result.items ≡ self }
    {
        self.items
    }
}

impl From<Vec<Loss>> for Losses {
    ghost from_gives = { λ v losses. losses ≡ v.items };

    /// Keeps the vector's own memory; takes none.
    fn from(items: Vec<Loss>) -> Losses {
        Losses { items }
    }
}

impl PartialEq for Losses {
    ghost eq = { pointwise ⟦<Loss as PartialEq>⟧.eq };

    ghost laws = { lists_per loss_per };

    fn eq(&self, other: &Losses) -> bool {
        self.items == other.items
    }
}

impl Eq for Losses {
    ghost laws = { lists_equiv loss_equiv };
}
