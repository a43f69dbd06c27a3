//! The buckets of a far map.
ghost use Rattle.std.specs.Prelude.{◌≡◌, ◌<◌, ◌≤◌, length, replicate, IfOk, OnErr, OnOk};
ghost use Rattle.cb_shared.specs.Passes.{IsPassOf, record_of};
ghost use Rattle.cb_shared.specs.Recalls.{first_version_of};
ghost use Rattle.cb_farmap.specs.BucketChanges.{Becomes, dropped_in, put_in, value_of};
ghost use Rattle.cb_farmap.specs.Buckets.{IsBucket, bucket_in, no_bucket, with_bucket};
ghost use Rattle.cb_farmap.specs.Calls.{Goes, trouble};
ghost use Rattle.cb_farmap.specs.Changes.{AreLoose, AreSole, IsCalm};
ghost use Rattle.cb_farmap.specs.Plans.{drop_plan, look_plan, put_plan};

use crate::bucket::Bucket;
use crate::kept::Cannot;
use cb_shared::{Pass, Shared};
use cb_types::NoMemory;
use std::alloc::Global;
use std::marker::Model;
use std::sync::Wait;

/// Buckets, of which each key has one: that with its number modulo how many there are. Contracts
/// see them as a list.
#[derive(Drop)]
pub struct Buckets {
    items: Vec<Bucket>,
}

impl Model for Buckets {
    ghost use Rattle.std.specs.Prelude.{List};
    ghost use Rattle.cb_farmap.specs.declared.bucket.Bucket.{Bucket};

    ghost Value = { List Bucket };

    ghost view = { λ a. a.items.items };
}

impl Buckets {
    /// So many buckets without objects.
    pub(crate) fn new(alloc: Global, many: u32) -> Result<Buckets, NoMemory>
        ensures empty { IfOk result (λ all. all ≡ replicate many no_bucket) }
    {
        let mut items = Vec::new(alloc);
        for _ in 0..many {
            items.push(Bucket::empty(alloc))?;
        }
        Ok(Buckets { items })
    }

    /// The value of a key in its bucket.
    pub(crate) fn look<R: Wait>(
        &self,
        rt: &R,
        alloc: Global,
        shared: &Shared,
        pass: &mut Pass,
        key: u64,
    ) -> Result<Option<u64>, Cannot>
        requires some { 1 ≤ length self.now }
        requires of { IsPassOf shared.now pass.old }
        requires bucket { IsBucket (record_of pass.old).written (bucket_in self.now key) }
        ensures of { IsPassOf shared.now pass.new }
        ensures value { IfOk result (λ o. o
            ≡ value_of (record_of pass.old).written (bucket_in self.now key) key) }
        ensures goes { Goes shared.now.config (first_version_of shared.now)
            (look_plan (record_of pass.old).written (bucket_in self.now key) key) (trouble result)
            (record_of pass.old) (record_of pass.new) }
        ensures calm { AreSole (record_of pass.old) (bucket_in self.now key).kept
            → AreLoose (record_of pass.old) (bucket_in self.now key).kept
            → IsCalm (trouble result) }
    {
        let i = key % self.items.len() as u64;
        let bucket = &self.items[i as usize];
        bucket.look(rt, alloc, shared, pass, key)
    }

    /// Puts a pair into the bucket of its key, and gives the key's old value.
    pub(crate) fn put<R: Wait>(
        &mut self,
        rt: &R,
        alloc: Global,
        shared: &Shared,
        pass: &mut Pass,
        key: u64,
        x: u64,
    ) -> Result<Option<u64>, Cannot>
        requires some { 1 ≤ length self.old }
        requires of { IsPassOf shared.now pass.old }
        requires bucket { IsBucket (record_of pass.old).written (bucket_in self.old key) }
        requires room { (bucket_in self.old key).count < 1000000000 }
        ensures of { IsPassOf shared.now pass.new }
        ensures value { IfOk result (λ o. o
            ≡ value_of (record_of pass.old).written (bucket_in self.old key) key) }
        ensures put { OnOk result (Becomes (record_of pass.old).written (bucket_in self.old key)
            (bucket_in self.new key) (put_in (record_of pass.old).written (bucket_in self.old key)
            (key, x)) (record_of pass.new).written) }
        ensures one { self.new ≡ with_bucket self.old key (bucket_in self.new key) }
        ensures stays { OnErr result (self.new ≡ self.old) }
        ensures goes { Goes shared.now.config (first_version_of shared.now)
            (put_plan (record_of pass.old).written (bucket_in self.old key) (key, x))
            (trouble result) (record_of pass.old) (record_of pass.new) }
        ensures calm { AreSole (record_of pass.old) (bucket_in self.old key).kept
            → AreLoose (record_of pass.old) (bucket_in self.old key).kept
            → IsCalm (trouble result) }
    {
        let i = key % self.items.len() as u64;
        let bucket = &mut self.items[i as usize];
        bucket.put(rt, alloc, shared, pass, key, x)
    }

    /// Drops a key from its bucket, and gives its value.
    pub(crate) fn drop_key<R: Wait>(
        &mut self,
        rt: &R,
        alloc: Global,
        shared: &Shared,
        pass: &mut Pass,
        key: u64,
    ) -> Result<Option<u64>, Cannot>
        requires some { 1 ≤ length self.old }
        requires of { IsPassOf shared.now pass.old }
        requires bucket { IsBucket (record_of pass.old).written (bucket_in self.old key) }
        ensures of { IsPassOf shared.now pass.new }
        ensures value { IfOk result (λ o. o
            ≡ value_of (record_of pass.old).written (bucket_in self.old key) key) }
        ensures dropped { OnOk result (Becomes (record_of pass.old).written (bucket_in self.old key)
            (bucket_in self.new key) (dropped_in (record_of pass.old).written
            (bucket_in self.old key) key) (record_of pass.new).written) }
        ensures one { self.new ≡ with_bucket self.old key (bucket_in self.new key) }
        ensures stays { OnErr result (self.new ≡ self.old) }
        ensures goes { Goes shared.now.config (first_version_of shared.now)
            (drop_plan (record_of pass.old).written (bucket_in self.old key) key)
            (trouble result) (record_of pass.old) (record_of pass.new) }
        ensures calm { AreSole (record_of pass.old) (bucket_in self.old key).kept
            → AreLoose (record_of pass.old) (bucket_in self.old key).kept
            → IsCalm (trouble result) }
    {
        let i = key % self.items.len() as u64;
        let bucket = &mut self.items[i as usize];
        bucket.drop_key(rt, alloc, shared, pass, key)
    }
}
