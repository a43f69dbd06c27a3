//! The table of atomic words, with its rule.

use crate::boxed_far::BoxedFar;
use crate::setup::Setup;
use atomic_table::{Seat, Table, TableRule};
use cb_rule::View;
use std::alloc::Global;

/// The rule that holds between any two steps at the table. Its words are, in order: that of the far
/// lock, the pointer words, the version words, and the memory words. Its one slot has the far
/// state.
pub struct Words;

impl TableRule<Option<BoxedFar>, View, Setup> for Words {
    ghost use Rattle.cb_rule.specs.Locking.{Locked};
    ghost use Rattle.cb_rule.specs.Ruled.{Ruled};
    ghost use Rattle.cb_rule.specs.Steps.{opener};
    ghost use Rattle.cb_shared.specs.Turning.{Did};

    ghost holds = { λ k s. Ruled (Locked Did) k.first k.config s };

    ghost first = { λ k. opener k.config };
}

/// The table of the words, with its memory.
pub type Board = Table<Option<BoxedFar>, View, Setup, Words, Global>;

/// The steps of the table, each through a shared reference.
pub type Top = atomic_table::Shared<Option<BoxedFar>, View, Setup, Words>;

/// A seat at the table: what one caller knows. It has no bytes.
pub type SeatAt = Seat<Option<BoxedFar>, View>;
