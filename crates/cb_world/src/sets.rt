//! The sets by their numbers, with what is known of matching ones.

ghost use Rattle.std.specs.Prelude.{◌≡◌, ℕ, ◌<◌, ◌≤◌, true, IfNone, IfSome, IsSome, None, Some, OnOk, OnErr, length};
ghost use Rattle.std.specs.Option.{option_map};
ghost use Rattle.std.specs.FinMap as map;
ghost use Rattle.cb_set.specs.SetState.{SetState, dead_position, position_of, with_position, with_shard, without_object};
ghost use Rattle.cb_world.specs.declared.groups.Group.{Group};
ghost use Rattle.cb_world.specs.Groups.{AreGrouped, IsAmong, NoGroupsMatch, NoSetsMatch, group_of};
ghost use Rattle.cb_world.specs.Sets.{Kept, set_in};
ghost use Rattle.cb_world.specs.SetsFrom.{AreFrom};

use crate::groups::{Group, Groups, add_group, group_of};
use crate::kept_set::KeptSet;
use crate::set_table::SetTable;
use cb_member::{NoMemory, Shard};
use cb_set::SpanSet;
use std::alloc::Global;
use std::collections::btree_map::Range;
use std::marker::Model;

/// Puts the group of the committed set of a number, if there is one, to others of which no two
/// match; false where it matches one of them, or where there is no memory.
fn add_set(table: &SetTable, groups: &mut Vec<Group>, id: u64) -> bool
    requires none { NoGroupsMatch groups.old.items }
    ensures none { NoGroupsMatch groups.new.items }
    ensures keeps { (g : Group) → IsAmong g groups.old.items → IsAmong g groups.new.items }
    ensures among { result ≡ true → (set : SetState) → set_in table.now id ≡ Some set
        → IsAmong (group_of set) groups.new.items }
{
    let Some(set) = table.committed(id) else {
        return true;
    };
    if set.k() > 32 {
        return false;
    }
    add_group(groups, group_of(set))
}

/// Puts the groups of the committed sets of these numbers to others of which no two match; false
/// where one of them matches another, or where there is no memory, and some may be there then.
fn add_sets(table: &SetTable, groups: &mut Vec<Group>, changed: &[u64]) -> bool
    requires none { NoGroupsMatch groups.old.items }
    ensures none { NoGroupsMatch groups.new.items }
    ensures keeps { (g : Group) → IsAmong g groups.old.items → IsAmong g groups.new.items }
    ensures among { result ≡ true → (id : ℕ) (set : SetState) → IsAmong id changed.now
        → set_in table.now id ≡ Some set → IsAmong (group_of set) groups.new.items }
{
    for at in 0..changed.len() {
        if !add_set(table, groups, changed[at]) {
            return false;
        }
    }
    true
}

/// The span-sets by their numbers. Each call costs the logarithm of their count. Beside them stands
/// which groups of the committed ones are known of which no two match.
#[derive(Drop)]
pub struct Sets {
    table: SetTable,
    groups: Groups,
}

impl Model for Sets {
    ghost use Rattle.std.specs.Prelude.{◌≡◌, true};
    ghost use Rattle.cb_world.specs.Sets.{SetMap, sets_code};

    ghost Value = { SetMap };

    ghost coded = { sets_code };

    ghost use Rattle.cb_world.specs.Groups.{AreGrouped};

    ghost view = { λ a. a.table };

    ghost invariant = { λ a. a.groups.known ≡ true
        → AreGrouped a.table a.groups.list.items a.groups.changed.items };
}

impl Sets {
    /// No sets; takes no memory.
    pub fn new(alloc: Global) -> Sets
        ensures { result ≡ map.empty }
    {
        Sets {
            table: SetTable::new(alloc),
            groups: Groups::new(alloc),
        }
    }

    /// The set of that number.
    pub fn get(&self, id: u64) -> Option<&KeptSet>
        ensures { option_map (λ kept. kept.now) result ≡ map.get self.now id }
    {
        self.table.get(id)
    }

    /// The committed set of that number.
    pub fn committed(&self, id: u64) -> Option<&SpanSet>
        ensures { option_map (λ set. set.now) result ≡ set_in self.now id }
    {
        self.table.committed(id)
    }

    /// The least number of a set from this one on, committed or not; None exactly where there is
    /// none.
    pub fn next(&self, from: u64) -> Option<u64>
        ensures found { IfSome result (λ id. (from ≤ id) × IsSome (map.get self.now id)) }
        ensures least { IfSome result (λ id. (j : ℕ) → from ≤ j → j < id
            → map.get self.now j ≡ None) }
        ensures none { IfNone result ((j : ℕ) → from ≤ j → map.get self.now j ≡ None) }
    {
        self.table.next(from)
    }

    /// The sets with a number from this one on, in the order of their numbers: the first one costs
    /// the logarithm of their count, and each further one a step.
    pub fn range_from(&self, from: u64) -> Range<'_, u64, KeptSet>
        ensures { AreFrom self.now from result }
    {
        self.table.range_from(from)
    }

    /// Keeps the set under its number.
    pub fn put(&mut self, id: u64, kept: KeptSet) -> Result<(), NoMemory>
        ensures ok { OnOk result (self.new ≡ map.insert self.old id kept) }
        ensures err { OnErr result (self.new ≡ self.old) }
    {
        self.groups.note(id);
        self.table.put(id, kept)
    }

    /// Makes a data position of the set of that number dead, in place; where there is no such set
    /// nothing changes. Takes no memory.
    pub fn kill(&mut self, id: u64, position: u32)
        requires { IfSome (map.get self.old id)
            (λ kept. position < length kept.set.positions) }
        ensures killed { (kept : Kept) → map.get self.old id ≡ Some kept → self.new
            ≡ map.insert self.old id (record kept {
              set = with_position kept.set position dead_position;
            }) }
        ensures none { map.get self.old id ≡ None → self.new ≡ self.old }
    {
        self.groups.note(id);
        self.table.kill(id, position);
    }

    /// Takes the object out of a slot of the set of that number, in place. A position that names no
    /// handle then is dead. Where there is no such set nothing changes. Takes no memory.
    pub fn take_out(&mut self, id: u64, position: u32, slot: u32)
        requires { IfSome (map.get self.old id)
            (λ kept. position < length kept.set.positions) }
        ensures taken { (kept : Kept) → map.get self.old id ≡ Some kept → self.new
            ≡ map.insert self.old id (record kept {
              set = with_position kept.set position
                  (without_object (position_of kept.set position) slot);
            }) }
        ensures none { map.get self.old id ≡ None → self.new ≡ self.old }
    {
        self.groups.note(id);
        self.table.take_out(id, position, slot);
    }

    /// Puts another shard in place of that of a position of the set of that number, in place. Where
    /// there is no such set nothing changes. Takes no memory.
    pub fn set_shard(&mut self, id: u64, position: u32, shard: Shard)
        requires { IfSome (map.get self.old id)
            (λ kept. position < length kept.set.shards) }
        ensures renamed { (kept : Kept) → map.get self.old id ≡ Some kept → self.new
            ≡ map.insert self.old id (record kept { set = with_shard kept.set position shard }) }
        ensures none { map.get self.old id ≡ None → self.new ≡ self.old }
    {
        self.groups.note(id);
        self.table.set_shard(id, position, shard);
    }

    /// Marks the set of that number as committed, in place; where there is no such set nothing
    /// changes. Takes no memory.
    pub fn commit(&mut self, id: u64)
        ensures committed { (kept : Kept) → map.get self.old id ≡ Some kept → self.new
            ≡ map.insert self.old id (record kept { committed = true }) }
        ensures none { map.get self.old id ≡ None → self.new ≡ self.old }
    {
        self.groups.note(id);
        self.table.commit(id);
    }

    /// Takes the set of that number out.
    pub fn remove(&mut self, id: u64)
        ensures { self.new ≡ map.remove self.old id }
    {
        self.groups.note(id);
        self.table.remove(id);
    }

    /// Whether it is known that no two committed sets match, as those that have changed match none
    /// of the others: each of them is compared with the groups, and no other set is looked at.
    /// False says nothing. The memory of new groups is taken where there is some.
    pub fn none_match(&mut self) -> bool
        ensures same { self.new ≡ self.old }
        ensures none { result ≡ true → NoSetsMatch self.old }
    {
        if !self.groups.known {
            return false;
        }
        let changed = self.groups.changed.as_slice();
        if !add_sets(&self.table, &mut self.groups.list, changed) {
            return false;
        }
        self.groups.changed.clear();
        true
    }

    /// Keeps groups of which no two match, one of each committed set but for those of these
    /// numbers. The groups of these are added; where they match others, or there is no memory for
    /// them, nothing is known.
    pub fn learn(&mut self, groups: Vec<Group>, others: &[u64])
        requires { AreGrouped self.old groups.items others.now }
        ensures { self.new ≡ self.old }
    {
        self.groups.replace(groups);
        self.groups.known = add_sets(&self.table, &mut self.groups.list, others);
    }
}
