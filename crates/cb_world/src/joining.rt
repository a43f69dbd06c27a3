//! The pair of sets that is joining.

use cb_member::Shard;
use std::marker::Model;

/// The pair of span-sets that is joining: their numbers and their shards at the begin, the
/// positions taken from b, and by position the shard of the step that was done, where one was.
#[derive(Drop)]
pub struct Joining {
    pub a: u64,
    pub b: u64,
    pub shards_a: Vec<Shard>,
    pub shards_b: Vec<Shard>,
    pub taken: Vec<u32>,
    pub steps: Vec<Option<Shard>>,
}

impl Model for Joining {
    ghost use Rattle.cb_world.specs.Joining.{JoiningState};

    ghost Value = { JoiningState };

    ghost view = { λ pair. record {
      a = pair.a;
      b = pair.b;
      shards_a = pair.shards_a.items;
      shards_b = pair.shards_b.items;
      taken = pair.taken.items;
      steps = pair.steps.items;
    } };
}
