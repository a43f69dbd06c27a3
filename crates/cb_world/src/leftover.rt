//! Positions that die, and objects that leave their set.

ghost use Rattle.std.specs.Prelude.{◌≡◌, ◌<◌, Some, length, if◌then◌else◌};
ghost use Rattle.cb_set.specs.SetState.{SetState, dead_position, is_live, with_position};
ghost use Rattle.cb_set.specs.Lost.{NodesAreMembers};
ghost use Rattle.cb_world.specs.Sets.{set_in};
ghost use Rattle.cb_world.specs.SetWord.{is_broken};
ghost use Rattle.cb_world.specs.Stored.{AreThere, all_dropped};
ghost use Rattle.cb_world.specs.declared.homes.Home.{Home};
ghost use Rattle.cb_world.specs.LeftOver.{LiesIn, set_without, with_left, with_set_dropped, without_far};

use crate::far::Far;
use crate::homes::Home;
use cb_member::{Members, Shard};
use cb_node::Nodes;
use cb_set::SpanSet;

/// Makes a data position of a committed set dead, whose objects were brought in. A set with no live
/// position goes, with all its rows at the nodes, and is counted no more among those that are gone.
/// Looks at the set's positions, and drops its rows one by one; takes no memory.
pub fn kill_position(far: &mut Far, id: u64, position: u32)
    requires set { (set : SetState) × (set_in far.old.sets id ≡ Some set)
        × (position < length set.positions) × AreThere far.old.nodes set.shards
        × NodesAreMembers far.old.members set.shards }
    ensures { (set : SetState) → set_in far.old.sets id ≡ Some set
        → far.new ≡ with_left far.old id (with_position set position dead_position) }
{
    far.sets.kill(id, position);
    drop_if_dead(far, id);
}

/// Takes a far object out of its set, when it is freed: it has no home, and its slot is empty. A
/// position that names no object then is dead, and a set with no live position goes, with all its
/// rows at the nodes, and is counted no more among those that are gone. No row is read; takes no
/// memory.
pub fn remove_far(far: &mut Far, handle: u32)
    requires home { (home : Home) × (set : SetState) × LiesIn far.old handle home set
        × (home.position < length set.positions) × AreThere far.old.nodes set.shards
        × NodesAreMembers far.old.members set.shards }
    requires within { handle < length far.old.homes }
    ensures { (home : Home) (set : SetState) → LiesIn far.old handle home set
        → far.new ≡ without_far far.old handle home set }
{
    let home = far.homes.at(handle).unwrap();
    far.homes.clear(handle);
    remove_object(far, home);
}

/// Takes the object of a home out of its committed set. A position that names no object then is
/// dead, and a set with no live position goes, with its rows.
fn remove_object(far: &mut Far, home: Home)
    requires set { (set : SetState) × (set_in far.old.sets home.set ≡ Some set)
        × (home.position < length set.positions) × AreThere far.old.nodes set.shards
        × NodesAreMembers far.old.members set.shards }
    ensures { (set : SetState) → set_in far.old.sets home.set ≡ Some set
        → far.new ≡ with_left far.old home.set (set_without set home) }
{
    far.sets.take_out(home.set, home.position, home.slot);
    drop_if_dead(far, home.set);
}

/// Whether the set has lost more shards than it has parities.
fn is_broken(set: &SpanSet, members: &Members) -> bool
    requires nodes { NodesAreMembers members.now set.now.shards }
    ensures { result ≡ is_broken members.now set.now }
{
    set.r() < set.lost_count(members)
}

/// Takes out a committed set that has no live position, and drops its rows.
fn drop_if_dead(far: &mut Far, id: u64)
    requires set { (set : SetState) × (set_in far.old.sets id ≡ Some set)
        × AreThere far.old.nodes set.shards × NodesAreMembers far.old.members set.shards }
    ensures { (set : SetState) → set_in far.old.sets id ≡ Some set
        → far.new ≡ (if is_live set then far.old else with_set_dropped far.old id set) }
{
    let Some(set) = far.sets.committed(id) else {
        return;
    };
    if set.is_live() {
        return;
    }
    far.survey = far.survey.without(id, is_broken(set, &far.members));
    drop_rows(&mut far.nodes, set.shards());
    far.sets.remove(id);
}

/// Drops the rows of these shards.
pub fn drop_rows(nodes: &mut Nodes, shards: &[Shard])
    requires there { AreThere nodes.old shards.now }
    ensures dropped { nodes.new ≡ all_dropped nodes.old shards.now }
{
    for shard in shards {
        nodes.drop_row(shard.node, shard.key);
    }
}
