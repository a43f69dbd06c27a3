//! The sets by their numbers.

ghost use Rattle.std.specs.Prelude.{◌≡◌, ℕ, ◌<◌, ◌≤◌, true, IfNone, IfSome, IsSome, Some, OnOk, OnErr, length};
ghost use Rattle.std.specs.Option.{option_map};
ghost use Rattle.std.specs.FinMap as map;
ghost use Rattle.cb_set.specs.SetState.{dead_position, position_of, with_position, with_shard, without_object};
ghost use Rattle.cb_world.specs.Sets.{Kept, set_in};
ghost use Rattle.cb_world.specs.SetsFrom.{AreFrom};

use crate::kept_set::KeptSet;
use cb_member::{NoMemory, Shard};
use cb_set::SpanSet;
use std::alloc::Global;
use std::collections::BTreeMap;
use std::collections::btree_map::Range;
use std::marker::Model;

/// The span-sets by their numbers, and nothing beside them. Each call costs the logarithm of their
/// count.
#[derive(Drop)]
pub struct SetTable {
    sets: BTreeMap<u64, KeptSet>,
}

impl Model for SetTable {
    ghost use Rattle.std.specs.FinMap as map;
    ghost use Rattle.cb_world.specs.Sets.{SetMap, sets_code};

    ghost Value = { SetMap };

    ghost coded = { sets_code };

    ghost view = { λ a. map.from_entries a.sets.entries };
}

impl SetTable {
    /// No sets; takes no memory.
    pub(crate) fn new(alloc: Global) -> SetTable
        ensures { result ≡ map.empty }
    {
        SetTable {
            sets: BTreeMap::new(alloc),
        }
    }

    /// The set of that number.
    pub(crate) fn get(&self, id: u64) -> Option<&KeptSet>
        ensures { option_map (λ kept. kept.now) result ≡ map.get self.now id }
    {
        self.sets.get(&id)
    }

    /// The committed set of that number.
    pub(crate) fn committed(&self, id: u64) -> Option<&SpanSet>
        ensures { option_map (λ set. set.now) result ≡ set_in self.now id }
    {
        match self.get(id) {
            Some(kept) if kept.committed => Some(&kept.set),
            _ => None,
        }
    }

    /// The least number of a set from this one on, committed or not; None exactly where there is
    /// none.
    pub(crate) fn next(&self, from: u64) -> Option<u64>
        ensures found { IfSome result (λ id. (from ≤ id) × IsSome (map.get self.now id)) }
        ensures least { IfSome result (λ id. (j : ℕ) → from ≤ j → j < id
            → map.get self.now j ≡ None) }
        ensures none { IfNone result ((j : ℕ) → from ≤ j → map.get self.now j ≡ None) }
    {
        let (id, _) = self.sets.range(from..).next()?;
        Some(*id)
    }

    /// The sets with a number from this one on, in the order of their numbers: the first one costs
    /// the logarithm of their count, and each further one a step.
    pub(crate) fn range_from(&self, from: u64) -> Range<'_, u64, KeptSet>
        ensures { AreFrom self.now from result }
    {
        self.sets.range(from..)
    }

    /// Keeps the set under its number.
    pub(crate) fn put(&mut self, id: u64, kept: KeptSet) -> Result<(), NoMemory>
        ensures ok { OnOk result (self.new ≡ map.insert self.old id kept) }
        ensures err { OnErr result (self.new ≡ self.old) }
    {
        self.sets.insert(id, kept)?;
        Ok(())
    }

    /// Makes a data position of the set of that number dead, in place; where there is no such set
    /// nothing changes. Takes no memory.
    pub(crate) fn kill(&mut self, id: u64, position: u32)
        requires { IfSome (map.get self.old id)
            (λ kept. position < length kept.set.positions) }
        ensures killed { (kept : Kept) → map.get self.old id ≡ Some kept → self.new
            ≡ map.insert self.old id (record kept {
              set = with_position kept.set position dead_position;
            }) }
        ensures none { map.get self.old id ≡ None → self.new ≡ self.old }
    {
        if let Some(kept) = self.sets.get_mut(&id) {
            kept.kill(position);
        }
    }

    /// Takes the object out of a slot of the set of that number, in place. A position that names no
    /// handle then is dead. Where there is no such set nothing changes. Takes no memory.
    pub(crate) fn take_out(&mut self, id: u64, position: u32, slot: u32)
        requires { IfSome (map.get self.old id)
            (λ kept. position < length kept.set.positions) }
        ensures taken { (kept : Kept) → map.get self.old id ≡ Some kept → self.new
            ≡ map.insert self.old id (record kept {
              set = with_position kept.set position
                  (without_object (position_of kept.set position) slot);
            }) }
        ensures none { map.get self.old id ≡ None → self.new ≡ self.old }
    {
        if let Some(kept) = self.sets.get_mut(&id) {
            kept.take_out(position, slot);
        }
    }

    /// Puts another shard in place of that of a position of the set of that number, in place. Where
    /// there is no such set nothing changes. Takes no memory.
    pub(crate) fn set_shard(&mut self, id: u64, position: u32, shard: Shard)
        requires { IfSome (map.get self.old id)
            (λ kept. position < length kept.set.shards) }
        ensures renamed { (kept : Kept) → map.get self.old id ≡ Some kept → self.new
            ≡ map.insert self.old id (record kept { set = with_shard kept.set position shard }) }
        ensures none { map.get self.old id ≡ None → self.new ≡ self.old }
    {
        if let Some(kept) = self.sets.get_mut(&id) {
            kept.set_shard(position, shard);
        }
    }

    /// Marks the set of that number as committed, in place; where there is no such set nothing
    /// changes. Takes no memory.
    pub(crate) fn commit(&mut self, id: u64)
        ensures committed { (kept : Kept) → map.get self.old id ≡ Some kept → self.new
            ≡ map.insert self.old id (record kept { committed = true }) }
        ensures none { map.get self.old id ≡ None → self.new ≡ self.old }
    {
        if let Some(kept) = self.sets.get_mut(&id) {
            kept.commit();
        }
    }

    /// Takes the set of that number out.
    pub(crate) fn remove(&mut self, id: u64)
        ensures { self.new ≡ map.remove self.old id }
    {
        self.sets.remove(&id);
    }
}
