//! The scrub of the next set.

ghost use Rattle.std.specs.Prelude.{◌≡◌, ◌+◌, ◌^◌, ◌<◌, ◌≤◌, All, IfOk, IsSome, OnErr, Some, length};
ghost use Rattle.cb_gf256.specs.InRange.{IsInRange};
ghost use Rattle.cb_set.specs.Lost.{NodesAreMembers, lost};
ghost use Rattle.cb_set.specs.Nodes.{OnDistinctNodes};
ghost use Rattle.cb_set.specs.SetState.{SetState, parities};
ghost use Rattle.cb_world.specs.Sets.{set_in};
ghost use Rattle.cb_world.specs.Sound.{Sound};
ghost use Rattle.cb_world.specs.declared.shown.Shown.{Shown};
ghost use Rattle.cb_scrub_world.specs.Standing.{RowStands, rows_of};
ghost use Rattle.cb_scrub_world.specs.Scrub.{IsExamined, MakesRight, MayScrub, Scrubs, KeepsWord};
ghost use Rattle.cb_scrub_world.specs.Scrub.{with_nodes};
ghost use Rattle.cb_scrub_world.specs.Spoilt.{IsSoundAgain, RestoresWorld};

use crate::choosing::next_committed;
use crate::mending::examine_set;
use crate::scrubbed::Scrubbed;
use cb_scrub::Found;
use cb_types::{NoMemory, SetId};
use cb_world::Far;
use std::alloc::Global;

/// Scrubs the least committed set above this one, or the least of all. Where shards of it are lost
/// it is skipped; else all its rows are given out and examined, and where one row alone is wrong,
/// that row is made right at its node. The world need not be sound: rows may be wrong. Running out
/// of memory changes nothing.
pub fn scrub_next(alloc: Global, far: &mut Far, after: Option<SetId>) -> Result<Scrubbed, NoMemory>
    requires { MayScrub far.old }
    ensures scrubs { IfOk result (λ scrubbed. Scrubs after far.old scrubbed far.new) }
    ensures word { IfOk result (λ scrubbed. KeepsWord far.old scrubbed far.new) }
    ensures error { OnErr result (far.new ≡ far.old) }
    // What a caller needs for the next scrub, whatever the answer.
    ensures again { far.new.nodes.given < 2 ^ 62 → MayScrub far.new }
    ensures given { far.new.nodes.given ≤ far.old.nodes.given + 20 }
    // A sound world stays so, and is so again where one row of the set that was examined was wrong.
    ensures sound { (s : Shown) → Sound s far.old → IsSoundAgain s far.old far.new }
    ensures restored { IfOk result (λ scrubbed. RestoresWorld far.old scrubbed far.new) }
{
    scrub_least(alloc, far, after)
}

fn scrub_least(alloc: Global, far: &mut Far, after: Option<SetId>) -> Result<Scrubbed, NoMemory>
    requires { MayScrub far.old }
    ensures scrubs { IfOk result (λ scrubbed. Scrubs after far.old scrubbed far.new) }
    ensures word { IfOk result (λ scrubbed. KeepsWord far.old scrubbed far.new) }
    ensures error { OnErr result (far.new ≡ far.old) }
{
    let Some(id) = next_committed(far, after) else {
        return Ok(Scrubbed::Done);
    };
    let set = SetId { n: id };
    let lost = lost_shards(far, id);
    if lost > 0 {
        return Ok(Scrubbed::Skipped { set, lost });
    }
    let found = scrub_set(alloc, far, id)?;
    Ok(Scrubbed::Set { set, found })
}

/// How many shards of a committed set are lost.
fn lost_shards(far: &Far, id: u64) -> u32
    requires committed { IsSome (set_in far.now.sets id) }
    requires members { (set : SetState) → set_in far.now.sets id ≡ Some set
        → NodesAreMembers far.now.members set.shards }
    ensures { (set : SetState) → set_in far.now.sets id ≡ Some set
        → result ≡ length (lost far.now.members set.shards) }
{
    let set = far.sets.committed(id).unwrap();
    set.lost_count(&far.members)
}

/// Examines a committed set of which nothing is lost.
fn scrub_set(alloc: Global, far: &mut Far, id: u64) -> Result<Found, NoMemory>
    requires committed { IsSome (set_in far.old.sets id) }
    requires set { (set : SetState) → set_in far.old.sets id ≡ Some set
        → IsInRange (length set.positions) (parities set)
        × All (RowStands far.old.nodes set.pages) set.shards }
    requires given { far.old.nodes.given < 2 ^ 62 }
    ensures examined { IfOk result (λ found. (set : SetState) → set_in far.old.sets id ≡ Some set
        → IsExamined far.old.nodes set found far.new.nodes) }
    ensures right { IfOk result (λ found. (set : SetState) → set_in far.old.sets id ≡ Some set
        → OnDistinctNodes set.shards → MakesRight (parities set)
        (rows_of far.old.nodes set.shards) found (rows_of far.new.nodes set.shards)) }
    ensures others { far.new ≡ with_nodes far.old far.new.nodes }
    ensures error { OnErr result (far.new ≡ far.old) }
{
    let set = far.sets.committed(id).unwrap();
    examine_set(alloc, &mut far.nodes, set)
}
