//! The search of a bucket, which a look, a put and a drop of a key share.
ghost use Rattle.std.specs.Prelude.{◌≡◌, ◌*◌, ◌+◌, ◌%◌, ◌<◌, ◌∷◌, [], length, IfOk};
ghost use Rattle.cb_shared.specs.Passes.{IsPassOf, record_of};
ghost use Rattle.cb_shared.specs.Recalls.{first_version_of};
ghost use Rattle.cb_farmap.specs.BucketChanges.{FindsAt};
ghost use Rattle.cb_farmap.specs.Buckets.{IsBucket};
ghost use Rattle.cb_farmap.specs.Calls.{AskRead, Goes, trouble};
ghost use Rattle.cb_farmap.specs.Changes.{AreLoose, AreSole, IsCalm, IsLoose, IsSole};
ghost use Rattle.cb_farmap.specs.Numbers.{pair_at};
ghost use Rattle.cb_farmap.specs.Objects.{object_at};
ghost use Rattle.cb_farmap.specs.Plans.{look_plan};
ghost use Rattle.cb_farmap.specs.Searching.{SeeksIn};

use crate::bucket::Bucket;
use crate::kept::Cannot;
use crate::object::read_kept;
use crate::pairs::{pair_of, seek};
use cb_shared::{Pass, Shared};
use cb_types::Bytes;
use std::alloc::Global;
use std::sync::Wait;

/// Where a key was found: the index of its pair in the bucket, and the bytes of the object that has
/// it.
#[derive(Drop)]
pub struct Found {
    pub(crate) place: usize,
    pub(crate) bytes: Bytes,
}

impl Found {
    /// The value of the key.
    pub(crate) fn value(&self) -> u64
        requires long { length self.now.bytes ≡ 1024 }
        ensures { result ≡ (pair_at self.now.bytes (self.now.place % 64)).1 }
    {
        pair_of(self.bytes.as_slice(), self.place % 64).1
    }
}

impl Bucket {
    /// The first pair with the key. Reads the objects that hold pairs, in order, up to the one that
    /// has it.
    pub(crate) fn find<R: Wait>(
        &self,
        rt: &R,
        alloc: Global,
        shared: &Shared,
        pass: &mut Pass,
        key: u64,
    ) -> Result<Option<Found>, Cannot>
        requires of { IsPassOf shared.now pass.old }
        requires bucket { IsBucket (record_of pass.old).written self.now }
        ensures of { IsPassOf shared.now pass.new }
        ensures found { IfOk result (FindsAt (record_of pass.old).written self.now key) }
        ensures goes { Goes shared.now.config (first_version_of shared.now)
            (look_plan (record_of pass.old).written self.now key) (trouble result)
            (record_of pass.old) (record_of pass.new) }
        ensures calm { AreSole (record_of pass.old) self.now.kept
            → AreLoose (record_of pass.old) self.now.kept → IsCalm (trouble result) }
    {
        for o in 0..(self.count as usize).div_ceil(64) {
            if let Some(found) = self.find_in(rt, alloc, shared, pass, o, key)? {
                return Ok(Some(found));
            }
        }
        Ok(None)
    }

    /// The first pair with the key among those of one object.
    fn find_in<R: Wait>(
        &self,
        rt: &R,
        alloc: Global,
        shared: &Shared,
        pass: &mut Pass,
        o: usize,
        key: u64,
    ) -> Result<Option<Found>, Cannot>
        requires of { IsPassOf shared.now pass.old }
        requires bucket { IsBucket (record_of pass.old).written self.now }
        requires some { 64 * o < self.now.count }
        ensures of { IsPassOf shared.now pass.new }
        ensures sought { IfOk result (SeeksIn (record_of pass.old).written self.now o key) }
        ensures goes { Goes shared.now.config (first_version_of shared.now)
            (AskRead (object_at self.now.kept o) ∷ []) (trouble result) (record_of pass.old)
            (record_of pass.new) }
        ensures calm { IsSole (record_of pass.old) (object_at self.now.kept o)
            → IsLoose (record_of pass.old) (object_at self.now.kept o) → IsCalm (trouble result) }
    {
        let few = (self.count as usize - 64 * o).min(64);
        let bytes = read_kept(rt, alloc, shared, pass, self.kept.at(o))?;
        match seek(bytes.as_slice(), few, key) {
            Some(i) => Ok(Some(Found {
                place: 64 * o + i,
                bytes,
            })),
            None => Ok(None),
        }
    }
}
