//! Two sets joined in one turn.

ghost use Rattle.std.specs.Prelude.{◌≡◌, ℕ, ◌+◌, ◌^◌, ◌<◌, false, IfOk, OnErr, length};
ghost use Rattle.cb_set.specs.SetState.{SetState};
ghost use Rattle.cb_world.specs.declared.shown.Shown.{Shown};
ghost use Rattle.cb_world.specs.Desks.{IsReadyDesk};
ghost use Rattle.cb_world.specs.Joining.{JoiningState};
ghost use Rattle.cb_world.specs.Now.{now};
ghost use Rattle.cb_world.specs.Pairs.{HoldsNoPair};
ghost use Rattle.cb_world.specs.Sound.{Sound};
ghost use Rattle.cb_compact.specs.NowGoing.{EndsFrom, GoesTo, HasGone, IsUndone, TriesStep, without_pair};
ghost use Rattle.cb_compact.specs.CompactStep.{CompactStep};
ghost use Rattle.cb_compact.specs.PartStep.{IsFreshPair};
ghost use Rattle.cb_compact.specs.PatchStep.{is_undone};

use crate::compaction::Compaction;
use crate::stepping::take_step;
use cb_member::NodeId;
use cb_types::{NoMemory, Reply, SetId};
use cb_world::{Desk, Far};

/// Takes the step of a position of the joining pair, if it is to be done; answers a's node there
/// where it is full.
fn try_step(far: &mut Far, position: u32) -> Result<Option<NodeId>, NoMemory>
    requires sound { (s : Shown) × Sound s far.old }
    requires fresh { (pair : JoiningState) × (a : SetState) × (b : SetState)
        × IsFreshPair far.old pair a b × (position < length pair.steps)
        × ((q : ℕ) → q < position → is_undone pair (length a.positions) q ≡ false) }
    requires keys { far.old.counts.keys < 2 ^ 62 }
    ensures step { IfOk result (λ full. (pair : JoiningState) (a b : SetState)
        → IsFreshPair far.old pair a b → position < length pair.steps
        → ((q : ℕ) → q < position → is_undone pair (length a.positions) q ≡ false)
        → TriesStep far.old pair a b position far.new full) }
    ensures error { OnErr result (far.new ≡ far.old) }
{
    if !Compaction::undone_at(far, position) {
        return Ok(None);
    }
    take_step(far, position)
}

/// Takes all steps of the joining pair, in order of position, up to the first node that is full,
/// which is answered.
fn take_steps(far: &mut Far) -> Result<Option<NodeId>, NoMemory>
    requires sound { (s : Shown) × Sound s far.old }
    requires fresh { (pair : JoiningState) × (a : SetState) × (b : SetState)
        × IsFreshPair far.old pair a b × IsUndone pair }
    requires keys { far.old.counts.keys + 20 < 2 ^ 62 }
    ensures gone { IfOk result (λ full. GoesTo far.old far.new full) }
    ensures error { OnErr result ((n : ℕ) × HasGone far.old far.new n) }
{
    for position in 0..Compaction::step_count(far) {
        if let Some(node) = try_step(far, position)? {
            return Ok(Some(node));
        }
    }
    Ok(None)
}

/// Takes all steps of the joining pair and makes one set of it; where a node is full, gives it up.
fn finish(far: &mut Far) -> Result<Reply, NoMemory>
    requires sound { (s : Shown) × Sound s far.old }
    requires fresh { (pair : JoiningState) × (a : SetState) × (b : SetState)
        × IsFreshPair far.old pair a b × IsUndone pair }
    requires keys { far.old.counts.keys + 20 < 2 ^ 62 }
    requires sets { far.old.counts.sets < 2 ^ 62 }
    ensures ends { IfOk result (λ reply. EndsFrom far.old far.new reply) }
    ensures error { OnErr result ((n : ℕ) × HasGone far.old far.new n) }
{
    match take_steps(far)? {
        Some(node) => {
            Compaction::give_up(far);
            Ok(Reply::NodeFull { node })
        }
        None => Compaction::merge(far),
    }
}

/// Goes through with a pair that has begun to join. Where there is no memory, the pair is given up
/// with all that was done for it.
fn go_through(far: &mut Far) -> Result<Reply, NoMemory>
    requires sound { (s : Shown) × Sound s far.old }
    requires fresh { (pair : JoiningState) × (a : SetState) × (b : SetState)
        × IsFreshPair far.old pair a b × IsUndone pair }
    requires keys { far.old.counts.keys + 20 < 2 ^ 62 }
    requires sets { far.old.counts.sets < 2 ^ 62 }
    ensures ends { IfOk result (λ reply. EndsFrom far.old far.new reply) }
    ensures error { OnErr result (far.new ≡ without_pair far.old) }
{
    let keys = Compaction::drawn_keys(far);
    match finish(far) {
        Ok(reply) => Ok(reply),
        Err(NoMemory) => {
            Compaction::undo(far, keys);
            Err(NoMemory)
        }
    }
}

/// Joins two sets in one turn: the pair of `compact_begin`, whose steps are all taken in order of
/// position, and which is committed then. A key is drawn for each step, and the merged set's number
/// at the end.
///
/// Answers Joining where a pair is joining already, and nothing changes then; and NoPair where no
/// two sets can be joined, and notes that alone. Answers NodeFull with the first node, in the order
/// of the steps, that has no room: the pair is given up and its new rows are dropped, so only the
/// count of drawn keys may differ. Answers else Merged with the count of the taken positions, all
/// of which are live. No row is given out. Where there is no memory, nothing has changed, the count
/// of drawn keys included.
pub fn compact_now<D: Desk>(desk: &mut D, far: &mut Far) -> Result<Reply, NoMemory>
    requires sound { IsReadyDesk D.shows desk.old far.old }
    requires note { HoldsNoPair far.old }
    requires keys { far.old.counts.keys + 20 < 2 ^ 62 }
    requires sets { far.old.counts.sets < 2 ^ 62 }
    ensures desk { desk.new ≡ desk.old }
    ensures step { IfOk result (λ reply. CompactStep far.old far.new reply) }
    ensures error { OnErr result (far.new ≡ far.old) }
    ensures sound { (s : Shown) → Sound s far.old → Sound s far.new }
    ensures now { (s : Shown) (h : ℕ) → Sound s far.old → now s far.new h ≡ now s far.old h }
    ensures given { far.new.nodes.given ≡ far.old.nodes.given }
{
    match Compaction::begin(far)? {
        Compaction::Joining { a, b } => Ok(Reply::Joining {
            a: SetId { n: a },
            b: SetId { n: b },
        }),
        Compaction::NoPair => Ok(Reply::NoPair),
        Compaction::Pair { .. } => go_through(far),
    }
}
