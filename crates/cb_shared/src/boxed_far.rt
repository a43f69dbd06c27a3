//! The far state in a block of its own.

ghost use Rattle.std.specs.Prelude.{◌≡◌, IfOk};

use cb_member::NoMemory;
use cb_world::Far;
use std::alloc::Global;
use std::marker::Model;
use std::mem;

/// The far state in a block of its own, as it lies in the table's slot: to contracts it is the far
/// state. What takes it out of the slot and puts it back moves one pointer, and a function that
/// names the table names none of the far state's types.
pub struct BoxedFar {
    pub(crate) state: Box<Far>,
}

impl Model for BoxedFar {
    ghost use Rattle.std.specs.Coded.{codes};
    ghost use Rattle.cb_world.specs.FarState.{FarState};
    ghost use Rattle.cb_world.specs.contracts.far.Far as far;

    ghost Value = { FarState };

    ghost coded = { Prim.hlevel (codes, far.the_row.coded) };

    ghost view = { λ b. b.state.value };
}

impl BoxedFar {
    /// Takes the memory of the block.
    pub(crate) fn new(alloc: Global, far: Far) -> Result<BoxedFar, NoMemory>
        ensures { IfOk result (λ boxed. boxed ≡ far) }
    {
        let state = Box::new(alloc, far)?;
        Ok(BoxedFar { state })
    }

    /// The far state, whose block is given back.
    pub(crate) fn into_far(self) -> Far
        ensures { result ≡ self }
    {
        let BoxedFar { state } = self;
        Box::into_inner(state)
    }
}

/// Written out, so that who drops a table, in whatever crate, does not drop the far state's parts
/// one by one.
impl Drop for BoxedFar {
    fn drop(self) {
        let BoxedFar { state } = self;
        mem::drop(state);
    }
}
