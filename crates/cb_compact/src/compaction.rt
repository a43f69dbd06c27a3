//! What the begin of a compaction ends in.

ghost use Rattle.std.specs.Prelude.{◌≡◌, ◌+◌, ◌^◌, ◌<◌, ◌≤◌, Some, length, slice_get};
ghost use Rattle.cb_member.specs.declared.names.Shard.{Shard};
ghost use Rattle.cb_set.specs.SetState.{SetState};
ghost use Rattle.cb_world.specs.Joining.{JoiningState};
ghost use Rattle.cb_world.specs.JoinSteps.{with_step};
ghost use Rattle.cb_compact.specs.Compaction.{reply_of};
ghost use Rattle.cb_compact.specs.PartStep.{IsFreshPair};
ghost use Rattle.cb_compact.specs.PatchStep.{is_undone, shard_beside};

use crate::steps::{is_undone, set_step};
use cb_member::Shard;
use cb_set::SpanSet;
use cb_types::{Reply, SetId};
use cb_world::Far;

/// What the begin of a compaction ends in; sets by their numbers. Its calls are those by which one
/// turn goes through with the pair that is joining then: `compact_now` with rows that the nodes
/// make, and `cb_local` with rows that the compute side makes.
#[derive(Clone, Copy)]
pub enum Compaction {
    /// A pair is joining already.
    Joining { a: u64, b: u64 },
    /// No two sets can be joined.
    NoPair,
    /// These two are joining from here.
    Pair { a: u64, b: u64 },
}

impl Compaction {
    /// What is answered.
    pub(crate) fn reply(self) -> Reply
        ensures { result ≡ reply_of self }
    {
        match self {
            Compaction::Joining { a, b } => Reply::Joining {
                a: SetId { n: a },
                b: SetId { n: b },
            },
            Compaction::NoPair => Reply::NoPair,
            Compaction::Pair { a, b } => Reply::Pair {
                a: SetId { n: a },
                b: SetId { n: b },
            },
        }
    }

    /// The first set of the joining pair, of whose code and length both are.
    pub fn first_set(far: &Far) -> &SpanSet
        requires fresh { (pair : JoiningState) × (a b : SetState) × IsFreshPair far.now pair a b }
        ensures { (pair : JoiningState) (a b : SetState) → IsFreshPair far.now pair a b
            → result.now ≡ a }
    {
        let pair = far.joining.as_ref().unwrap();
        far.sets.committed(pair.a).unwrap()
    }

    /// How many positions the sets of the joining pair have.
    pub fn step_count(far: &Far) -> u32
        requires { (pair : JoiningState) × (far.now.joining ≡ Some pair)
            × (length pair.steps ≤ 20) }
        ensures { (pair : JoiningState) → far.now.joining ≡ Some pair → result ≡ length pair.steps }
    {
        far.joining.as_ref().unwrap().steps.len() as u32
    }

    /// Whether the step of a position of the joining pair is still to be done.
    pub fn undone_at(far: &Far, position: u32) -> bool
        requires fresh { (pair : JoiningState) × (a : SetState) × (b : SetState)
            × IsFreshPair far.now pair a b × (position < length pair.steps) }
        ensures { (pair : JoiningState) (a b : SetState) → IsFreshPair far.now pair a b
            → result ≡ is_undone pair (length a.positions) position }
    {
        let pair = far.joining.as_ref().unwrap();
        is_undone(pair, Compaction::first_set(far).k(), position)
    }

    /// The shard for a new row beside a's of the position: on its node and of its incarnation,
    /// under the next key.
    pub fn new_shard(far: &Far, position: u32) -> Shard
        requires there { (pair : JoiningState) × (far.now.joining ≡ Some pair)
            × (position < length pair.shards_a) }
        ensures { (pair : JoiningState) → far.now.joining ≡ Some pair → (old : Shard)
            × (slice_get pair.shards_a position ≡ Some old) × (result ≡ shard_beside far.now old) }
    {
        let pair = far.joining.as_ref().unwrap();
        let old = pair.shards_a[position as usize];
        Shard {
            node: old.node,
            incarnation: old.incarnation,
            key: far.counts.keys,
        }
    }

    /// The count of the keys that were drawn.
    pub fn drawn_keys(far: &Far) -> u64
        ensures { result ≡ far.now.counts.keys }
    {
        far.counts.keys
    }

    /// Notes the shard of a step of the joining pair, whose key is drawn. Takes no memory.
    pub fn note_step(far: &mut Far, position: u32, shard: Shard)
        requires there { (pair : JoiningState) × (far.old.joining ≡ Some pair)
            × (position < length pair.steps) }
        requires keys { far.old.counts.keys < 2 ^ 62 }
        ensures { (pair : JoiningState) → far.old.joining ≡ Some pair → far.new ≡ record far.old {
          joining = Some (with_step pair position shard);
          counts = record far.old.counts { keys = far.old.counts.keys + 1 };
        } }
    {
        far.counts.keys += 1;
        if let Some(pair) = &mut far.joining {
            set_step(pair, position, shard);
        }
    }
}
