//! A joining pair is given up.

ghost use Rattle.std.specs.Prelude.{◌≡◌, ℕ, ◌<◌, IfOk, IsOk, None, Some, length};
ghost use Rattle.cb_member.specs.declared.names.Shard.{Shard};
ghost use Rattle.cb_node.specs.NodesState.{with_dropped};
ghost use Rattle.cb_world.specs.declared.shown.Shown.{Shown};
ghost use Rattle.cb_world.specs.Desks.{IsReadyDesk};
ghost use Rattle.cb_world.specs.Joining.{JoiningState};
ghost use Rattle.cb_world.specs.Now.{now};
ghost use Rattle.cb_world.specs.Reserved.{put_shards};
ghost use Rattle.cb_world.specs.Sound.{Sound};
ghost use Rattle.cb_world.specs.Stored.{AreThere, all_dropped};
ghost use Rattle.cb_compact.specs.NowGoing.{with_keys};
ghost use Rattle.cb_compact.specs.PartStep.{PartStep, with_parted};

use crate::compaction::Compaction;
use cb_member::Shard;
use cb_node::Nodes;
use cb_types::{NoMemory, Reply};
use cb_world::{Desk, Far};

/// Gives the joining pair up: both sets stay as they are, and the new rows are dropped.
///
/// Answers NoJoin exactly where no pair is joining, and else Done. Takes no memory, and no row is
/// given out.
pub fn compact_part<D: Desk>(desk: &mut D, far: &mut Far) -> Result<Reply, NoMemory>
    requires sound { IsReadyDesk D.shows desk.old far.old }
    ensures memory { IsOk result }
    ensures desk { desk.new ≡ desk.old }
    ensures step { IfOk result (λ reply. PartStep far.old far.new reply) }
    ensures sound { (s : Shown) → Sound s far.old → Sound s far.new }
    ensures now { (s : Shown) (h : ℕ) → Sound s far.old → now s far.new h ≡ now s far.old h }
    ensures given { far.new.nodes.given ≡ far.old.nodes.given }
{
    if far.joining.is_none() {
        return Ok(Reply::NoJoin);
    }
    Compaction::give_up(far);
    Ok(Reply::Done)
}

impl Compaction {
    /// Gives the joining pair up, and drops its new rows. Takes no memory.
    pub fn give_up(far: &mut Far)
        requires there { (pair : JoiningState) × (far.old.joining ≡ Some pair)
            × AreThere far.old.nodes (put_shards pair.steps) }
        ensures { (pair : JoiningState) → far.old.joining ≡ Some pair
            → far.new ≡ with_parted far.old pair }
    {
        if let Some(pair) = far.joining.take() {
            drop_steps(&mut far.nodes, &pair.steps);
        }
    }

    /// Gives the joining pair up, and the keys back that were drawn for its rows since there were
    /// so many. Takes no memory.
    pub fn undo(far: &mut Far, keys: u64)
        requires there { (pair : JoiningState) × (far.old.joining ≡ Some pair)
            × AreThere far.old.nodes (put_shards pair.steps) }
        ensures { (pair : JoiningState) → far.old.joining ≡ Some pair
            → far.new ≡ with_keys (with_parted far.old pair) keys }
    {
        Compaction::give_up(far);
        set_keys(far, keys);
    }
}

/// Gives the keys back that were drawn since there were so many.
fn set_keys(far: &mut Far, keys: u64)
    ensures { far.new ≡ with_keys far.old keys }
{
    far.counts.keys = keys;
}

/// Drops the rows of the steps that were done.
fn drop_steps(nodes: &mut Nodes, steps: &[Option<Shard>])
    requires there { AreThere nodes.old (put_shards steps.now) }
    ensures dropped { nodes.new ≡ all_dropped nodes.old (put_shards steps.now) }
{
    for step in steps {
        drop_step(nodes, *step);
    }
}

/// Drops the row of a step, if it was done.
fn drop_step(nodes: &mut Nodes, step: Option<Shard>)
    requires there { (s : Shard) → step ≡ Some s → s.node.n < length nodes.old.nodes }
    ensures put { (s : Shard) → step ≡ Some s
        → nodes.new ≡ with_dropped nodes.old s.node s.key }
    ensures none { step ≡ None → nodes.new ≡ nodes.old }
    ensures count { length nodes.new.nodes ≡ length nodes.old.nodes }
{
    if let Some(shard) = step {
        nodes.drop_row(shard.node, shard.key);
    }
}
