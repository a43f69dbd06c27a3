//! One step of the joining pair.

ghost use Rattle.std.specs.Prelude.{◌≡◌, ℕ, ◌+◌, ◌^◌, ◌<◌, ◌≤◌, IfNone, IfOk, IfSome, OnErr, length};
ghost use Rattle.cb_member.specs.declared.names.Shard.{Shard};
ghost use Rattle.cb_set.specs.SetState.{SetState};
ghost use Rattle.cb_world.specs.declared.shown.Shown.{Shown};
ghost use Rattle.cb_world.specs.Desks.{IsReadyDesk};
ghost use Rattle.cb_world.specs.Joining.{JoiningState};
ghost use Rattle.cb_world.specs.Now.{now};
ghost use Rattle.cb_world.specs.FarSound.{FarSound};
ghost use Rattle.cb_world.specs.Sound.{Sound};
ghost use Rattle.cb_compact.specs.PartStep.{IsFreshPair};
ghost use Rattle.cb_compact.specs.Deltas.{IsReadyToPut, PutsMerged};
ghost use Rattle.cb_compact.specs.Stepping.{TakesOne, step_reply};
ghost use Rattle.cb_compact.specs.PatchStep.{AreDone, IsNext, PatchStep, TakesStep};

use crate::compaction::Compaction;
use crate::deltas::put_merged;
use crate::looking::{PairStanding, how_it_stands};
use crate::steps::next_step;
use cb_member::{NodeId, Shard};
use cb_node::PutAnswer;
use cb_types::{NoMemory, Reply, SetId};
use cb_world::{Desk, Far};

/// The least position of the joining pair whose step is not done; None where all are.
pub(crate) fn next_position(far: &Far) -> Option<u32>
    requires fresh { (pair : JoiningState) × (a : SetState) × (b : SetState)
        × IsFreshPair far.now pair a b × (length pair.steps ≤ 20) }
    ensures next { (pair : JoiningState) (a b : SetState) → IsFreshPair far.now pair a b
        → IfSome result (IsNext pair (length a.positions)) }
    ensures none { (pair : JoiningState) (a b : SetState) → IsFreshPair far.now pair a b
        → IfNone result (AreDone pair (length a.positions)) }
{
    let pair = far.joining.as_ref().unwrap();
    next_step(pair, Compaction::first_set(far).k())
}

/// Puts the row of a position in the merged word of the joining pair under a shard. A full node is
/// answered with its count.
fn put_step(far: &mut Far, position: u32, shard: Shard) -> Result<PutAnswer, NoMemory>
    requires ready { (s : Shown) × (pair : JoiningState) × (a : SetState) × (b : SetState)
        × IsReadyToPut s far.old pair a b position shard }
    ensures put { IfOk result (λ answer. (pair : JoiningState) (a b : SetState)
        → IsFreshPair far.old pair a b
        → PutsMerged far.old pair a b position shard answer far.new.nodes) }
    ensures nodes { far.new ≡ record far.old { nodes = far.new.nodes } }
    ensures error { OnErr result (far.new ≡ far.old) }
{
    let a = Compaction::first_set(far);
    let k = a.k();
    let r = a.r();
    let pair = far.joining.as_ref().unwrap();
    put_merged(&mut far.nodes, pair, k, r, position, shard)
}

/// Takes the step of a position of the joining pair, or answers a's node there, which is full.
pub(crate) fn take_step(far: &mut Far, position: u32) -> Result<Option<NodeId>, NoMemory>
    requires sound { (s : Shown) × FarSound s far.old }
    requires next { (pair : JoiningState) × (a : SetState) × (b : SetState)
        × IsFreshPair far.old pair a b × IsNext pair (length a.positions) position }
    requires keys { far.old.counts.keys < 2 ^ 62 }
    ensures step { IfOk result (λ full. (pair : JoiningState) (a b : SetState)
        → IsFreshPair far.old pair a b → IsNext pair (length a.positions) position
        → TakesOne far.old pair a b position far.new full) }
    ensures error { OnErr result (far.new ≡ far.old) }
{
    let shard = Compaction::new_shard(far, position);
    match put_step(far, position, shard)? {
        PutAnswer::Stored => {
            Compaction::note_step(far, position, shard);
            Ok(None)
        }
        PutAnswer::Full { .. } => Ok(Some(shard.node)),
    }
}

/// What is answered when the step of a position was tried.
fn reply_of(position: u32, full: Option<NodeId>) -> Reply
    ensures { result ≡ step_reply position full }
{
    match full {
        Some(node) => Reply::NodeFull { node },
        None => Reply::Stepped { position },
    }
}

/// Takes the next step of the joining pair, whose sets stand as they did at the begin.
fn step_on(far: &mut Far) -> Result<Reply, NoMemory>
    requires sound { (s : Shown) × FarSound s far.old }
    requires fresh { (pair : JoiningState) × (a : SetState) × (b : SetState)
        × IsFreshPair far.old pair a b }
    requires keys { far.old.counts.keys < 2 ^ 62 }
    ensures step { IfOk result (λ reply. (pair : JoiningState) (a b : SetState)
        → IsFreshPair far.old pair a b → TakesStep far.old pair a b far.new reply) }
    ensures error { OnErr result (far.new ≡ far.old) }
{
    let Some(position) = next_position(far) else {
        return Ok(Reply::AllStepped);
    };
    let full = take_step(far, position)?;
    Ok(reply_of(position, full))
}

/// Takes the next step of the joining pair: the row of the least position that has a step which is
/// not done is put beside a's row of that position, on the same node under a new key. For a data
/// position that b gives it is a copy of b's row, and for a parity a copy of a's, to which the
/// nodes add the deltas of all taken positions. The old row stays.
///
/// Answers NoJoin exactly where no pair is joining. Answers Changed exactly where a set of the
/// pair, a before b, is gone, has lost a shard or has other shards than at the begin, as after a
/// rebuild: the pair is given up then. Answers AllStepped where every step is done, NodeFull where
/// a's node of the position has no room, and else Stepped. No row is given out. Where there is no
/// memory, nothing has changed.
pub fn compact_step<D: Desk>(desk: &mut D, far: &mut Far) -> Result<Reply, NoMemory>
    requires sound { IsReadyDesk D.shows desk.old far.old }
    requires keys { far.old.counts.keys < 2 ^ 62 }
    ensures desk { desk.new ≡ desk.old }
    ensures step { IfOk result (λ reply. PatchStep far.old far.new reply) }
    ensures error { OnErr result (far.new ≡ far.old) }
    ensures sound { (s : Shown) → Sound s far.old → Sound s far.new }
    ensures now { (s : Shown) (h : ℕ) → Sound s far.old → now s far.new h ≡ now s far.old h }
    ensures given { far.new.nodes.given ≡ far.old.nodes.given }
{
    match how_it_stands(far) {
        PairStanding::NoPair => Ok(Reply::NoJoin),
        PairStanding::Changed { id } => {
            Compaction::give_up(far);
            Ok(Reply::Changed {
                set: SetId { n: id },
            })
        }
        PairStanding::Fresh => step_on(far),
    }
}
