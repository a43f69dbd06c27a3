//! One lost row is put on a spare node.

ghost use Rattle.std.specs.Prelude.{◌≡◌, ℕ, ◌+◌, ◌^◌, ◌<◌, ◌≤◌, IfOk, OnErr, Some, length};
ghost use Rattle.cb_types.specs.Config.{IsAccepted};
ghost use Rattle.cb_set.specs.SetState.{SetState};
ghost use Rattle.cb_world.specs.declared.shown.Shown.{Shown};
ghost use Rattle.cb_world.specs.Desks.{IsReadyDesk};
ghost use Rattle.cb_world.specs.World.{IsConfigured};
ghost use Rattle.cb_world.specs.FarSound.{AwaySound};
ghost use Rattle.cb_world.specs.Sound.{Sound};
ghost use Rattle.cb_world.specs.Now.{now};
ghost use Rattle.cb_rebuild.specs.RebuildStep.{IsFirstWeak, KeepWords, RebuildStep, Restores, far_given, surveyed};

use crate::choosing::{lost_position, spare_node};
use crate::finding::{Found, find_weak, keep_found};
use crate::restoring::{name_shard, put_again};
use cb_types::{NoMemory, Reply, SetId};
use cb_world::{Desk, Far, next_shard};

/// Puts the least lost row of the first set that is weak on a spare node.
fn restore(far: &mut Far, id: u64) -> Result<Reply, NoMemory>
    requires sound { (s : Shown) × AwaySound s far.old }
    requires first { (set : SetState) × IsFirstWeak far.old id set }
    requires few { length far.old.nodes.nodes ≤ 256 }
    requires given { far.old.nodes.given + 16 < 2 ^ 64 }
    requires keys { far.old.counts.keys < 2 ^ 62 }
    ensures step { IfOk result (λ reply. (set : SetState) → IsFirstWeak far.old id set
        → Restores far.old id set far.new reply) }
    ensures error { OnErr result ((set : SetState) → IsFirstWeak far.old id set → (n : ℕ)
        × (n ≤ length set.positions) × (far.new ≡ far_given far.old n)) }
{
    let position = lost_position(far, id);
    let Some(node) = spare_node(far, id, position)? else {
        return Ok(Reply::Stuck {
            set: SetId { n: id },
        });
    };
    let shard = next_shard(far, node);
    put_again(far, id, position, shard)?;
    name_shard(far, id, position, shard);
    Ok(Reply::Rebuilt {
        set: SetId { n: id },
        position,
        node,
    })
}

/// Puts one lost row on a spare node: that of the least lost position of the first committed set,
/// by number, that has lost shards and no more than it has parities. Its k least rows that stand
/// are given out, and the row that they make is put, under a key of its own, at the node with the
/// fewest rows of those that are alive, have room and are named by no other position of the set.
/// Then the set's shard at that position is the new one. Positions whose objects are gone are
/// restored too. No word of local memory is looked at.
///
/// Answers Whole where no set is so, with the count of those that have lost more than they have
/// parities; and Stuck where there is no such node. Goes on from what earlier calls found: between
/// two crashes each set is looked at once, and the one that is weak again by each call. Where there
/// is no memory, at most k rows were given out, the sets before that one were looked at, and
/// nothing else has changed.
pub fn rebuild_next<D: Desk>(desk: &mut D, far: &mut Far) -> Result<Reply, NoMemory>
    requires config { IsAccepted (D.settings desk.old) }
    requires configured { IsConfigured (D.settings desk.old) far.old }
    requires sound { IsReadyDesk D.shows desk.old far.old }
    requires given { far.old.nodes.given + 16 < 2 ^ 64 }
    requires keys { far.old.counts.keys < 2 ^ 62 }
    ensures desk { desk.new ≡ desk.old }
    ensures step { IfOk result (λ reply. RebuildStep far.old far.new reply) }
    ensures error { OnErr result ((id : ℕ) × (set : SetState) × (n : ℕ)
        × IsFirstWeak far.old id set × (n ≤ length set.positions)
        × (far.new ≡ far_given (surveyed far.old id) n)) }
    ensures sound { (s : Shown) → Sound s far.old → Sound s far.new }
    ensures now { (s : Shown) (h : ℕ) → Sound s far.old → now s far.new h ≡ now s far.old h }
    ensures words { (s : Shown) → Sound s far.old → KeepWords far.old far.new }
{
    let found = find_weak(far);
    keep_found(far, found);
    match found {
        Found::Whole { gone } => Ok(Reply::Whole { gone }),
        Found::Weak { id, .. } => restore(far, id),
    }
}
