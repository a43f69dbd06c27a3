//! A data position of a set.

use std::marker::Model;

/// A data position: whether it is live, and the slot table of its span.
#[derive(Drop)]
pub struct Position {
    pub live: bool,
    pub slots: Vec<Option<u32>>,
}

impl Model for Position {
    ghost use Rattle.cb_set.specs.SetState.{PositionState};

    ghost Value = { PositionState };

    ghost view = { λ a. record { live = a.live; slots = a.slots.items } };
}
