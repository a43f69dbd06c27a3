//! The whole world on one thread.

ghost use Rattle.std.specs.Prelude.{◌≡◌, IfOk};
ghost use Rattle.cb_types.specs.Config.{IsAccepted};
ghost use Rattle.cb_world.specs.World.{empty_world};

use crate::far::Far;
use crate::plain_desk::PlainDesk;
use crate::seats::Seats;
use cb_member::NoMemory;
use cb_types::Config;
use std::alloc::Global;
use std::marker::Model;

/// The whole world on one thread: the words of local memory at the still desk, the far state, and
/// the seats from which callers act.
#[derive(Drop)]
pub struct World {
    pub desk: PlainDesk,
    pub far: Far,
    pub seats: Seats,
}

impl Model for World {
    ghost use Rattle.cb_world.specs.World.{WorldState};
    ghost use Rattle.std.specs.Coded.{codes};
    ghost use Rattle.cb_node.specs.NodesState.{nodes_code};
    ghost use Rattle.cb_world.specs.Sets.{sets_code};

    ghost Value = { WorldState };

    ghost coded = { Prim.hlevel (codes, sets_code, nodes_code) };

    ghost view = { λ a. record { desk = a.desk; far = a.far; seats = a.seats } };
}

impl World {
    /// The empty world of a configuration: no object was made, all frames are free, all nodes are
    /// up without rows, and all seats are idle. Takes the memory of all frames, pointer words and
    /// version words.
    pub fn new(alloc: Global, config: Config) -> Result<World, NoMemory>
        requires { IsAccepted config }
        ensures empty { IfOk result (λ world. world ≡ empty_world config) }
    {
        // (the largest last: each `?` drops what was made before it)
        let seats = Seats::new(alloc)?;
        let desk = PlainDesk::new(alloc, config)?;
        let far = Far::new(alloc, 1, config)?;
        Ok(World { desk, far, seats })
    }

    /// Gives all of its memory back.
    pub fn end(self) {}
}
