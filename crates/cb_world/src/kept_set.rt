//! A set as it is kept, committed or leaving.

ghost use Rattle.std.specs.Prelude.{◌≡◌, ◌<◌, true, length};
ghost use Rattle.cb_set.specs.SetState.{dead_position, position_of, with_position, with_shard, without_object};

use cb_member::Shard;
use cb_set::SpanSet;
use std::marker::Model;

/// A set, and whether it is committed. The set of a batch that is leaving is kept before its
/// commit.
#[derive(Drop)]
pub struct KeptSet {
    pub set: SpanSet,
    pub committed: bool,
}

impl Model for KeptSet {
    ghost use Rattle.cb_world.specs.Sets.{Kept};

    ghost Value = { Kept };

    ghost view = { λ a. record { set = a.set; committed = a.committed } };
}

impl KeptSet {
    /// Makes a data position of the set dead. Takes no memory.
    pub(crate) fn kill(&mut self, position: u32)
        requires { position < length self.old.set.positions }
        ensures { self.new ≡ record self.old {
          set = with_position self.old.set position dead_position;
        } }
    {
        self.set.kill(position);
    }

    /// Takes the object out of a slot of the set. A position that names no handle then is dead.
    /// Takes no memory.
    pub(crate) fn take_out(&mut self, position: u32, slot: u32)
        requires { position < length self.old.set.positions }
        ensures { self.new ≡ record self.old {
          set = with_position self.old.set position
              (without_object (position_of self.old.set position) slot);
        } }
    {
        self.set.take_out(position, slot);
    }

    /// Puts another shard in place of the position's. Takes no memory.
    pub(crate) fn set_shard(&mut self, position: u32, shard: Shard)
        requires { position < length self.old.set.shards }
        ensures { self.new ≡ record self.old { set = with_shard self.old.set position shard } }
    {
        self.set.set_shard(position, shard);
    }

    /// Marks the set as committed. Takes no memory.
    pub(crate) fn commit(&mut self)
        ensures { self.new ≡ record self.old { committed = true } }
    {
        self.committed = true;
    }
}
