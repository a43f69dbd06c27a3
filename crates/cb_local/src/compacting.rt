//! Two sets joined in one turn, by rows that are fetched.

ghost use Rattle.std.specs.Prelude.{◌≡◌, ℕ, ◌+◌, ◌^◌, ◌<◌, ◌≤◌, IfOk, OnErr, OnOk, Some, length};
ghost use Rattle.cb_set.specs.SetState.{SetState};
ghost use Rattle.cb_types.specs.declared.reply.Reply.{Reply};
ghost use Rattle.cb_world.specs.declared.shown.Shown.{Shown};
ghost use Rattle.cb_world.specs.Desks.{IsReadyDesk};
ghost use Rattle.cb_world.specs.FarState.{FarState};
ghost use Rattle.cb_world.specs.Joining.{JoiningState};
ghost use Rattle.cb_world.specs.Now.{now};
ghost use Rattle.cb_world.specs.Pairs.{HoldsNoPair};
ghost use Rattle.cb_world.specs.Sound.{Sound};
ghost use Rattle.cb_compact.specs.CompactStep.{CompactStep};
ghost use Rattle.cb_compact.specs.PartStep.{IsFreshPair};
ghost use Rattle.cb_local.specs.Delta.{DoneState};
ghost use Rattle.cb_local.specs.Fetching.{far_given};
ghost use Rattle.cb_local.specs.LocalGoing.{EndsHere, HasGoneGiving, IsBegunPair, IsJoinStopped};
ghost use Rattle.cb_local.specs.LocalStep.{IsBesideNodes, LocalStep};
ghost use Rattle.cb_local.specs.Putting.{ArePut};
ghost use Rattle.cb_local.specs.Rooms.{AllHaveRoom};

use crate::fetching::run_pair;
use crate::putting::put_rows;
use crate::rooms::full_node;
use cb_compact::Compaction;
use cb_types::{NoMemory, Reply, SetId};
use cb_world::{Desk, Far};
use std::alloc::Global;

/// Fetches the rows of the joining pair, makes the merged set's parities and puts its new rows.
fn take_steps(alloc: Global, far: &mut Far) -> Result<(), NoMemory>
    requires begun { (s : Shown) × (pair : JoiningState) × (a : SetState) × (b : SetState)
        × IsBegunPair s far.old pair a b × AllHaveRoom far.old pair a }
    ensures put { OnOk result ((s : Shown) (pair : JoiningState) (a b : SetState)
        → IsBegunPair s far.old pair a b → AllHaveRoom far.old pair a
        → (done : DoneState) × ArePut done s far.old pair a b far.new (length pair.steps)) }
    ensures error { OnErr result (HasGoneGiving far.old far.new) }
{
    let done = run_pair(alloc, far)?;
    put_rows(far, &done)
}

/// Takes all steps of the joining pair and makes one set of it. All of a's nodes have room.
fn finish(alloc: Global, far: &mut Far) -> Result<Reply, NoMemory>
    requires begun { (s : Shown) × (pair : JoiningState) × (a : SetState) × (b : SetState)
        × IsBegunPair s far.old pair a b × AllHaveRoom far.old pair a }
    ensures ends { IfOk result (λ reply. (pair : JoiningState) (a b : SetState)
        → IsFreshPair far.old pair a b → EndsHere far.old far.new pair a reply) }
    ensures error { OnErr result (HasGoneGiving far.old far.new) }
{
    take_steps(alloc, far)?;
    Compaction::merge(far)
}

/// Goes through with a joining pair for which all of a's nodes have room. Where there is no memory,
/// the pair is given up with all that was done for it, but that rows may have been given out.
fn finish_or_undo(alloc: Global, far: &mut Far) -> Result<Reply, NoMemory>
    requires begun { (s : Shown) × (pair : JoiningState) × (a : SetState) × (b : SetState)
        × IsBegunPair s far.old pair a b × AllHaveRoom far.old pair a }
    ensures ends { IfOk result (λ reply. (pair : JoiningState) (a b : SetState)
        → IsFreshPair far.old pair a b → EndsHere far.old far.new pair a reply) }
    ensures error { OnErr result (IsJoinStopped far.old far.new) }
{
    let keys = Compaction::drawn_keys(far);
    match finish(alloc, far) {
        Ok(reply) => Ok(reply),
        Err(NoMemory) => {
            Compaction::undo(far, keys);
            Err(NoMemory)
        }
    }
}

/// Goes through with a pair that has begun to join. All of a's nodes are looked at first: where one
/// is full, the pair is given up.
fn go_through(alloc: Global, far: &mut Far) -> Result<Reply, NoMemory>
    requires begun { (s : Shown) × (pair : JoiningState) × (a : SetState) × (b : SetState)
        × IsBegunPair s far.old pair a b }
    ensures ends { IfOk result (λ reply. (pair : JoiningState) (a b : SetState)
        → IsFreshPair far.old pair a b → EndsHere far.old far.new pair a reply) }
    ensures error { OnErr result (IsJoinStopped far.old far.new) }
{
    match full_node(far) {
        Some(node) => {
            Compaction::give_up(far);
            Ok(Reply::NodeFull { node })
        }
        None => finish_or_undo(alloc, far),
    }
}

/// Joins two sets in one turn, as `compact_now` of cb_compact does, but that the compute side makes
/// the parities: it is given both rows at each position that is taken from the second set and the
/// parities of the first, and puts the new rows.
///
/// From any sound world the reply is that of `compact_now`. Where the sets are merged, the far
/// state is the same but for the count of rows given, which rises by two for each taken position
/// and one for each parity, and there by none. Else no row is given, and the far state is the same
/// but for the count of drawn keys, which stays here where a node is full: all nodes are looked at
/// before a row is given or put.
///
/// Where there is no memory, the far state is as before, but that at most 36 rows were given.
pub fn compact_local<D: Desk>(alloc: Global, desk: &mut D, far: &mut Far) -> Result<Reply, NoMemory>
    requires sound { IsReadyDesk D.shows desk.old far.old }
    requires note { HoldsNoPair far.old }
    requires keys { far.old.counts.keys + 20 < 2 ^ 62 }
    requires sets { far.old.counts.sets < 2 ^ 62 }
    requires given { far.old.nodes.given + 36 < 2 ^ 64 }
    ensures desk { desk.new ≡ desk.old }
    ensures step { IfOk result (λ reply. LocalStep far.old far.new reply) }
    ensures same { IfOk result (λ reply. (s : Shown) (mid : FarState) (other : Reply)
        → Sound s far.old → CompactStep far.old mid other
        → (reply ≡ other) × IsBesideNodes far.old mid far.new reply) }
    ensures error { OnErr result ((rows : ℕ) × (rows ≤ 36)
        × (far.new ≡ far_given far.old rows)) }
    ensures sound { (s : Shown) → Sound s far.old → Sound s far.new }
    ensures now { (s : Shown) (h : ℕ) → Sound s far.old → now s far.new h ≡ now s far.old h }
{
    match Compaction::begin(far)? {
        Compaction::Joining { a, b } => Ok(Reply::Joining {
            a: SetId { n: a },
            b: SetId { n: b },
        }),
        Compaction::NoPair => Ok(Reply::NoPair),
        Compaction::Pair { .. } => go_through(alloc, far),
    }
}
