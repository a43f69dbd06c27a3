//! A bucket of a far map: pairs in the objects that it keeps, one after the other.
ghost use Rattle.std.specs.Prelude.{◌≡◌, ◌*◌, ◌+◌, ◌-◌, ◌/◌, ◌<◌, ◌≤◌, ◌∷◌, [], ◌==◌, length, IfOk, OnErr, OnOk, Some, None};
ghost use Rattle.std.specs.List.{AllByRecursion};
ghost use Rattle.cb_shared.specs.Passes.{IsPassOf, record_of};
ghost use Rattle.cb_shared.specs.Recalls.{first_version_of};
ghost use Rattle.cb_farmap.specs.BucketChanges.{AddsPair, Becomes, FillsGap, IsFound, WritesPair, dropped_in, put_at, put_in, value_in, value_of};
ghost use Rattle.cb_farmap.specs.Buckets.{IsBucket, all_pairs, no_bucket, pairs_in};
ghost use Rattle.cb_farmap.specs.Calls.{Goes, trouble};
ghost use Rattle.cb_farmap.specs.Changes.{AreLoose, AreSole, IsCalm};
ghost use Rattle.cb_farmap.specs.Numbers.{pair_at};
ghost use Rattle.cb_farmap.specs.Objects.{IsObject, bytes_at, object_at};
ghost use Rattle.cb_farmap.specs.Pairs.{dropped, pair_of};
ghost use Rattle.cb_farmap.specs.Plans.{add_ask, drop_plan, is_filled, last_asks, look_plan, move_asks, put_ask, put_plan, write_at};

use crate::find::Found;
use crate::kept::{Cannot, Objects};
use crate::object::{make_kept, read_kept, write_kept};
use crate::pairs::{object_bytes, pair_bytes, pair_of};
use cb_shared::{Pass, Shared};
use cb_types::Bytes;
use std::alloc::Global;
use std::sync::Wait;

/// The objects of a bucket, and how many pairs stand in them.
#[derive(Drop)]
pub struct Bucket {
    pub(crate) kept: Objects,
    pub(crate) count: u32,
}

impl Bucket {
    /// A bucket without objects; takes no memory.
    pub(crate) fn empty(alloc: Global) -> Bucket
        ensures { result ≡ no_bucket }
    {
        Bucket {
            kept: Objects::new(alloc),
            count: 0,
        }
    }

    /// The value of a key, by a search.
    pub(crate) fn look<R: Wait>(
        &self,
        rt: &R,
        alloc: Global,
        shared: &Shared,
        pass: &mut Pass,
        key: u64,
    ) -> Result<Option<u64>, Cannot>
        requires of { IsPassOf shared.now pass.old }
        requires bucket { IsBucket (record_of pass.old).written self.now }
        ensures of { IsPassOf shared.now pass.new }
        ensures value { IfOk result (λ o. o ≡ value_of (record_of pass.old).written self.now key) }
        ensures goes { Goes shared.now.config (first_version_of shared.now)
            (look_plan (record_of pass.old).written self.now key) (trouble result)
            (record_of pass.old) (record_of pass.new) }
        ensures calm { AreSole (record_of pass.old) self.now.kept
            → AreLoose (record_of pass.old) self.now.kept → IsCalm (trouble result) }
    {
        let found = self.find(rt, alloc, shared, pass, key)?;
        match found {
            Some(found) => Ok(Some(found.value())),
            None => Ok(None),
        }
    }

    /// Puts a pair in the place of its key, or after the others, and gives the key's old value.
    pub(crate) fn put<R: Wait>(
        &mut self,
        rt: &R,
        alloc: Global,
        shared: &Shared,
        pass: &mut Pass,
        key: u64,
        x: u64,
    ) -> Result<Option<u64>, Cannot>
        requires of { IsPassOf shared.now pass.old }
        requires bucket { IsBucket (record_of pass.old).written self.old }
        requires room { self.old.count < 1000000000 }
        ensures of { IsPassOf shared.now pass.new }
        ensures value { IfOk result (λ o. o ≡ value_of (record_of pass.old).written self.old key) }
        ensures put { OnOk result (Becomes (record_of pass.old).written self.old self.new
            (put_in (record_of pass.old).written self.old (key, x)) (record_of pass.new).written) }
        ensures stays { OnErr result (self.new ≡ self.old) }
        ensures goes { Goes shared.now.config (first_version_of shared.now)
            (put_plan (record_of pass.old).written self.old (key, x)) (trouble result)
            (record_of pass.old) (record_of pass.new) }
        ensures calm { AreSole (record_of pass.old) self.old.kept
            → AreLoose (record_of pass.old) self.old.kept → IsCalm (trouble result) }
    {
        let found = self.find(rt, alloc, shared, pass, key)?;
        match found {
            Some(found) => self.put_over(rt, alloc, shared, pass, &found, key, x),
            None => self.put_new(rt, alloc, shared, pass, key, x),
        }
    }

    /// Puts a pair in the place of its key, which was found.
    fn put_over<R: Wait>(
        &mut self,
        rt: &R,
        alloc: Global,
        shared: &Shared,
        pass: &mut Pass,
        found: &Found,
        key: u64,
        x: u64,
    ) -> Result<Option<u64>, Cannot>
        requires of { IsPassOf shared.now pass.old }
        requires bucket { IsBucket (record_of pass.old).written self.old }
        requires found { IsFound (record_of pass.old).written self.old found.now }
        ensures of { IsPassOf shared.now pass.new }
        ensures value { IfOk result (λ o. o
            ≡ value_in (pairs_in (record_of pass.old).written self.old) (Some found.now.place)) }
        ensures put { OnOk result (Becomes (record_of pass.old).written self.old self.new
            (put_at (pairs_in (record_of pass.old).written self.old) (key, x)
            (Some found.now.place)) (record_of pass.new).written) }
        ensures stays { OnErr result (self.new ≡ self.old) }
        ensures goes { Goes shared.now.config (first_version_of shared.now)
            (put_ask self.old (key, x) (Some found.now.place) ∷ []) (trouble result)
            (record_of pass.old) (record_of pass.new) }
        ensures calm { AreSole (record_of pass.old) self.old.kept
            → AreLoose (record_of pass.old) self.old.kept → IsCalm (trouble result) }
    {
        let old = found.value();
        write_pair(rt, alloc, shared, pass, &mut self.kept, found.place, key, x)?;
        Ok(Some(old))
    }

    /// Puts a pair with a new key after the others.
    fn put_new<R: Wait>(
        &mut self,
        rt: &R,
        alloc: Global,
        shared: &Shared,
        pass: &mut Pass,
        key: u64,
        x: u64,
    ) -> Result<Option<u64>, Cannot>
        requires of { IsPassOf shared.now pass.old }
        requires bucket { IsBucket (record_of pass.old).written self.old }
        requires room { self.old.count < 1000000000 }
        ensures of { IsPassOf shared.now pass.new }
        ensures value { IfOk result (λ o. o ≡ None) }
        ensures put { OnOk result (Becomes (record_of pass.old).written self.old self.new
            (put_at (pairs_in (record_of pass.old).written self.old) (key, x) None)
            (record_of pass.new).written) }
        ensures stays { OnErr result (self.new ≡ self.old) }
        ensures goes { Goes shared.now.config (first_version_of shared.now)
            (put_ask self.old (key, x) None ∷ []) (trouble result) (record_of pass.old)
            (record_of pass.new) }
        ensures calm { AreSole (record_of pass.old) self.old.kept
            → AreLoose (record_of pass.old) self.old.kept → IsCalm (trouble result) }
    {
        add_pair(rt, alloc, shared, pass, &mut self.kept, self.count, key, x)?;
        self.count += 1;
        Ok(None)
    }

    /// Drops a key: its pair's place gets the last pair. Gives the key's value.
    pub(crate) fn drop_key<R: Wait>(
        &mut self,
        rt: &R,
        alloc: Global,
        shared: &Shared,
        pass: &mut Pass,
        key: u64,
    ) -> Result<Option<u64>, Cannot>
        requires of { IsPassOf shared.now pass.old }
        requires bucket { IsBucket (record_of pass.old).written self.old }
        ensures of { IsPassOf shared.now pass.new }
        ensures value { IfOk result (λ o. o ≡ value_of (record_of pass.old).written self.old key) }
        ensures dropped { OnOk result (Becomes (record_of pass.old).written self.old self.new
            (dropped_in (record_of pass.old).written self.old key) (record_of pass.new).written) }
        ensures stays { OnErr result (self.new ≡ self.old) }
        ensures goes { Goes shared.now.config (first_version_of shared.now)
            (drop_plan (record_of pass.old).written self.old key) (trouble result)
            (record_of pass.old) (record_of pass.new) }
        ensures calm { AreSole (record_of pass.old) self.old.kept
            → AreLoose (record_of pass.old) self.old.kept → IsCalm (trouble result) }
    {
        let found = self.find(rt, alloc, shared, pass, key)?;
        match found {
            Some(found) => self.drop_found(rt, alloc, shared, pass, &found),
            None => Ok(None),
        }
    }

    /// Drops a pair that was found.
    fn drop_found<R: Wait>(
        &mut self,
        rt: &R,
        alloc: Global,
        shared: &Shared,
        pass: &mut Pass,
        found: &Found,
    ) -> Result<Option<u64>, Cannot>
        requires of { IsPassOf shared.now pass.old }
        requires bucket { IsBucket (record_of pass.old).written self.old }
        requires found { IsFound (record_of pass.old).written self.old found.now }
        ensures of { IsPassOf shared.now pass.new }
        ensures value { IfOk result (λ o. o
            ≡ value_in (pairs_in (record_of pass.old).written self.old) (Some found.now.place)) }
        ensures dropped { OnOk result (Becomes (record_of pass.old).written self.old self.new
            (dropped (pairs_in (record_of pass.old).written self.old) found.now.place)
            (record_of pass.new).written) }
        ensures stays { OnErr result (self.new ≡ self.old) }
        ensures goes { Goes shared.now.config (first_version_of shared.now)
            (move_asks (record_of pass.old).written self.old.kept found.now.place
            (self.old.count - 1)) (trouble result) (record_of pass.old) (record_of pass.new) }
        ensures calm { AreSole (record_of pass.old) self.old.kept
            → AreLoose (record_of pass.old) self.old.kept → IsCalm (trouble result) }
    {
        let last = self.count as usize - 1;
        fill_gap(rt, alloc, shared, pass, &mut self.kept, found, last)?;
        self.count -= 1;
        Ok(Some(found.value()))
    }
}

/// Writes a pair into the place with this index.
fn write_pair<R: Wait>(
    rt: &R,
    alloc: Global,
    shared: &Shared,
    pass: &mut Pass,
    kept: &mut Objects,
    place: usize,
    key: u64,
    x: u64,
) -> Result<(), Cannot>
    requires of { IsPassOf shared.now pass.old }
    requires within { place < 64 * length kept.old }
    requires objects { AllByRecursion (IsObject (record_of pass.old).written) kept.old }
    ensures of { IsPassOf shared.now pass.new }
    ensures wrote { OnOk result (WritesPair (record_of pass.old).written kept.old place (key, x)
        kept.new (record_of pass.new).written) }
    ensures stays { OnErr result (kept.new ≡ kept.old) }
    ensures goes { Goes shared.now.config (first_version_of shared.now)
        (write_at kept.old place (key, x) ∷ []) (trouble result) (record_of pass.old)
        (record_of pass.new) }
    ensures calm { AreSole (record_of pass.old) kept.old → AreLoose (record_of pass.old) kept.old
        → IsCalm (trouble result) }
{
    let bytes = pair_bytes((key, x));
    let o = place / 64;
    let at = 16 * (place % 64) as u32;
    write_kept(rt, alloc, shared, pass, kept, o, at, &bytes)
}

/// Puts a pair after so many: writes it into the next place, or makes an object where all are full.
fn add_pair<R: Wait>(
    rt: &R,
    alloc: Global,
    shared: &Shared,
    pass: &mut Pass,
    kept: &mut Objects,
    count: u32,
    key: u64,
    x: u64,
) -> Result<(), Cannot>
    requires of { IsPassOf shared.now pass.old }
    requires within { count ≤ 64 * length kept.old }
    requires objects { AllByRecursion (IsObject (record_of pass.old).written) kept.old }
    ensures of { IsPassOf shared.now pass.new }
    ensures added { OnOk result (AddsPair (is_filled kept.old count) (record_of pass.old).written
        kept.old count (key, x) kept.new (record_of pass.new).written) }
    ensures stays { OnErr result (kept.new ≡ kept.old) }
    ensures goes { Goes shared.now.config (first_version_of shared.now)
        (add_ask kept.old count (key, x) ∷ []) (trouble result) (record_of pass.old)
        (record_of pass.new) }
    ensures calm { AreSole (record_of pass.old) kept.old → AreLoose (record_of pass.old) kept.old
        → IsCalm (trouble result) }
{
    if count as usize / 64 == kept.len() {
        make_kept(rt, alloc, shared, pass, kept, &object_bytes((key, x)))
    } else {
        write_pair(rt, alloc, shared, pass, kept, count as usize, key, x)
    }
}

/// Puts the last pair, which has this index, into the place of the one that was found; nothing is
/// done where that is the last.
fn fill_gap<R: Wait>(
    rt: &R,
    alloc: Global,
    shared: &Shared,
    pass: &mut Pass,
    kept: &mut Objects,
    found: &Found,
    last: usize,
) -> Result<(), Cannot>
    requires of { IsPassOf shared.now pass.old }
    requires within { last < 64 * length kept.old }
    requires before { found.now.place ≤ last }
    requires objects { AllByRecursion (IsObject (record_of pass.old).written) kept.old }
    requires bytes { found.now.bytes ≡ bytes_at (record_of pass.old).written
        (object_at kept.old (found.now.place / 64)) }
    ensures of { IsPassOf shared.now pass.new }
    ensures filled { OnOk result (FillsGap (found.now.place == last) (record_of pass.old).written
        kept.old found.now.place (pair_of (all_pairs (record_of pass.old).written kept.old) last)
        kept.new (record_of pass.new).written) }
    ensures stays { OnErr result (kept.new ≡ kept.old) }
    ensures goes { Goes shared.now.config (first_version_of shared.now)
        (move_asks (record_of pass.old).written kept.old found.now.place last) (trouble result)
        (record_of pass.old) (record_of pass.new) }
    ensures calm { AreSole (record_of pass.old) kept.old → AreLoose (record_of pass.old) kept.old
        → IsCalm (trouble result) }
{
    if found.place == last {
        return Ok(());
    }
    let pair = last_pair(rt, alloc, shared, pass, kept, found, last)?;
    write_pair(rt, alloc, shared, pass, kept, found.place, pair.0, pair.1)
}

/// The last pair, which has this index: of the object that was searched last, or by a read of its
/// own object.
fn last_pair<R: Wait>(
    rt: &R,
    alloc: Global,
    shared: &Shared,
    pass: &mut Pass,
    kept: &Objects,
    found: &Found,
    last: usize,
) -> Result<(u64, u64), Cannot>
    requires of { IsPassOf shared.now pass.old }
    requires within { last < 64 * length kept.now }
    requires objects { AllByRecursion (IsObject (record_of pass.old).written) kept.now }
    requires bytes { found.now.bytes ≡ bytes_at (record_of pass.old).written
        (object_at kept.now (found.now.place / 64)) }
    ensures of { IsPassOf shared.now pass.new }
    ensures pair { IfOk result (λ p. p
        ≡ pair_of (all_pairs (record_of pass.old).written kept.now) last) }
    ensures goes { Goes shared.now.config (first_version_of shared.now)
        (last_asks kept.now found.now.place last) (trouble result) (record_of pass.old)
        (record_of pass.new) }
    ensures calm { AreSole (record_of pass.old) kept.now → AreLoose (record_of pass.old) kept.now
        → IsCalm (trouble result) }
{
    if last / 64 == found.place / 64 {
        return Ok(pair_of(found.bytes.as_slice(), last % 64));
    }
    let bytes = read_kept(rt, alloc, shared, pass, kept.at(last / 64));
    pair_in(bytes, last % 64)
}

/// The pair with this index among the bytes of an object that was read.
fn pair_in(bytes: Result<Bytes, Cannot>, i: usize) -> Result<(u64, u64), Cannot>
    requires long { IfOk bytes (λ b. length b ≡ 1024) }
    requires within { i < 64 }
    ensures same { trouble result ≡ trouble bytes }
    ensures pair { IfOk result (λ p. IfOk bytes (λ b. p ≡ pair_at b i)) }
{
    match bytes {
        Ok(bytes) => Ok(pair_of(bytes.as_slice(), i)),
        Err(cannot) => Err(cannot),
    }
}
