//! A map of numbers in buckets of objects of 64 pairs each.
ghost use Rattle.std.specs.Prelude.{◌≡◌, ◌<◌, ◌≤◌, IfOk, OnErr};
ghost use Rattle.std.specs.FinMap as finite;
ghost use Rattle.cb_shared.specs.Passes.{IsPassOf, record_of};
ghost use Rattle.cb_shared.specs.Recalls.{first_version_of};
ghost use Rattle.cb_rule.specs.declared.view.View.{View};
ghost use Rattle.cb_farmap.specs.BucketChanges.{added_by, removed_by};
ghost use Rattle.cb_farmap.specs.Buckets.{bucket_in};
ghost use Rattle.cb_farmap.specs.Calls.{trouble};
ghost use Rattle.cb_farmap.specs.MapChanges.{IsDropped, IsLooked, IsPut, KeepsMap, StaysMap};
ghost use Rattle.cb_farmap.specs.Maps.{IsMapOf, map_of, no_map};
ghost use Rattle.cb_farmap.specs.Plans.{drop_plan, look_plan, put_plan};

use crate::array::noted;
use crate::buckets::Buckets;
use crate::kept::{Cannot, Stop};
use cb_shared::{Pass, Shared};
use cb_types::NoMemory;
use std::alloc::Global;
use std::sync::Wait;

/// A map of numbers: each key belongs to one of a fixed number of buckets, the pairs of a bucket
/// stand one after the other in objects of 1,024 bytes, 64 pairs to an object, each the key and
/// then its value, 8 bytes each with the lowest first. The map keeps of each object its handle and
/// the version at which it wrote it last. All calls of one map are made on the one pass that made
/// its objects, which may be split and joined meanwhile. An object that gets empty is kept, and
/// filled again before one is made; none is freed. A bucket of n pairs costs up to n / 64 reads a
/// call, so choose the number of buckets by the pairs that are expected.
#[derive(Drop)]
pub struct FarMap {
    buckets: Buckets,
    len: u32,
    stop: Option<Stop>,
}

impl FarMap {
    /// An empty map with so many buckets. Takes memory for the buckets alone, and none in the
    /// runtime.
    pub fn new(alloc: Global, buckets: u32) -> Result<FarMap, NoMemory>
        requires some { 1 ≤ buckets }
        requires most { buckets ≤ 4096 }
        ensures empty { IfOk result (λ map. map ≡ no_map buckets) }
        ensures map { IfOk result (λ map. (v : View) → IsMapOf v map
            × (map_of v map ≡ finite.empty)) }
    {
        let buckets = Buckets::new(alloc, buckets)?;
        Ok(FarMap {
            buckets,
            len: 0,
            stop: None,
        })
    }

    /// How many keys there are.
    pub fn len(&self) -> u32
        ensures len { result ≡ self.now.len }
        ensures keys { (v : View) → IsMapOf v self.now → result ≡ finite.len (map_of v self.now) }
    {
        self.len
    }

    /// The value of a key, None where it has none: by reads of the objects of its bucket that hold
    /// pairs, in order, up to the one that has the key. Refused by any reply of such a read but the
    /// bytes of the kept version, Foreign where they are those of another version. The first
    /// Foreign, and the first Refused with Freed, is given again to every later call but `len`.
    pub fn look<R: Wait>(
        &mut self,
        rt: &R,
        alloc: Global,
        shared: &Shared,
        pass: &mut Pass,
        key: u64,
    ) -> Result<Option<u64>, Cannot>
        requires of { IsPassOf shared.now pass.old }
        requires map { IsMapOf (record_of pass.old) self.old }
        ensures of { IsPassOf shared.now pass.new }
        ensures ok { IfOk result (λ o. IsLooked key o (record_of pass.old) self.old
            (record_of pass.new) self.new) }
        ensures stays { OnErr result (StaysMap (trouble result) (record_of pass.old) self.old
            (record_of pass.new) self.new) }
        ensures keeps { KeepsMap shared.now.config (first_version_of shared.now)
            (look_plan (record_of pass.old).written (bucket_in self.old.buckets key) key)
            (trouble result) (record_of pass.old) self.old (record_of pass.new) self.new }
    {
        if let Some(stop) = self.stop {
            return Err(Cannot::from(stop));
        }
        let value = self.buckets.look(rt, alloc, shared, pass, key);
        noted(&mut self.stop, value)
    }

    /// Puts a value at a key and gives its old value, None where it had none: by the reads of
    /// `look`, and then one write of the pair, in the place of the key or after the bucket's last
    /// pair, or, where the key is new and all objects of the bucket are full, a make of one with
    /// the pair. Takes the memory for the object's place before the make. Refused by any other
    /// reply than the success of such a call, Foreign by a read of another version than the kept
    /// one, or by a write that is answered another one than the one above it; both leave the map as
    /// it was, and so does running out of memory.
    pub fn put<R: Wait>(
        &mut self,
        rt: &R,
        alloc: Global,
        shared: &Shared,
        pass: &mut Pass,
        key: u64,
        x: u64,
    ) -> Result<Option<u64>, Cannot>
        requires of { IsPassOf shared.now pass.old }
        requires map { IsMapOf (record_of pass.old) self.old }
        requires room { self.old.len < 1000000000 }
        ensures of { IsPassOf shared.now pass.new }
        ensures ok { IfOk result (λ o. IsPut (key, x) o (record_of pass.old) self.old
            (record_of pass.new) self.new) }
        ensures stays { OnErr result (StaysMap (trouble result) (record_of pass.old) self.old
            (record_of pass.new) self.new) }
        ensures keeps { KeepsMap shared.now.config (first_version_of shared.now)
            (put_plan (record_of pass.old).written (bucket_in self.old.buckets key) (key, x))
            (trouble result) (record_of pass.old) self.old (record_of pass.new) self.new }
    {
        if let Some(stop) = self.stop {
            return Err(Cannot::from(stop));
        }
        let old = self.buckets.put(rt, alloc, shared, pass, key, x);
        self.len += added(&old);
        noted(&mut self.stop, old)
    }

    /// Drops a key and gives its value, None where it had none: by the reads of `look`, and then,
    /// where its pair is not the last of the bucket, one write that puts the last pair into its
    /// place, behind a read of the last pair's object where that is another one. Refused and
    /// Foreign as in `put`; both leave the map as it was, and so does running out of memory.
    pub fn drop_key<R: Wait>(
        &mut self,
        rt: &R,
        alloc: Global,
        shared: &Shared,
        pass: &mut Pass,
        key: u64,
    ) -> Result<Option<u64>, Cannot>
        requires of { IsPassOf shared.now pass.old }
        requires map { IsMapOf (record_of pass.old) self.old }
        ensures of { IsPassOf shared.now pass.new }
        ensures ok { IfOk result (λ o. IsDropped key o (record_of pass.old) self.old
            (record_of pass.new) self.new) }
        ensures stays { OnErr result (StaysMap (trouble result) (record_of pass.old) self.old
            (record_of pass.new) self.new) }
        ensures keeps { KeepsMap shared.now.config (first_version_of shared.now)
            (drop_plan (record_of pass.old).written (bucket_in self.old.buckets key) key)
            (trouble result) (record_of pass.old) self.old (record_of pass.new) self.new }
    {
        if let Some(stop) = self.stop {
            return Err(Cannot::from(stop));
        }
        let old = self.buckets.drop_key(rt, alloc, shared, pass, key);
        self.len -= removed(&old);
        noted(&mut self.stop, old)
    }
}

/// How many keys a put that was answered so added.
fn added(put: &Result<Option<u64>, Cannot>) -> u32
    ensures { result ≡ added_by put.now }
{
    match put {
        Ok(None) => 1,
        _ => 0,
    }
}

/// How many keys a drop that was answered so took away.
fn removed(dropped: &Result<Option<u64>, Cannot>) -> u32
    ensures { result ≡ removed_by dropped.now }
{
    match dropped {
        Ok(Some(_)) => 1,
        _ => 0,
    }
}
