//! What stands under a seal.

ghost use Rattle.std.specs.Borrow.{ftrue};
ghost use Rattle.std.specs.Coded.{codes};
ghost use Rattle.cb_world.specs.World.{WorldState};
ghost use Rattle.cb_world.specs.contracts.world.World as world;
ghost use Rattle.cb_rule.specs.contracts.view.View as view;
ghost use Rattle.cb_rule.specs.declared.view.View.{View};

use std::marker::Model;

/// What stands under a seal. No value of it is made, and its parts are of contracts alone: a
/// function that names a seal then names none of their types.
pub struct Sealed {
    pub ghost world: { WorldState } by { Prim.hlevel (codes, world.the_row.coded) },
    pub ghost view: { View } by { Prim.hlevel (codes, view.the_row.coded) },
}

impl Model for Sealed {
    ghost also_owns = { λ _. ftrue };
}
