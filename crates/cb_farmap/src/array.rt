//! A list of numbers in objects of 128 each.
ghost use Rattle.std.specs.Prelude.{◌≡◌, ◌*◌, ◌/◌, ◌%◌, ◌<◌, ◌≤◌, [], length, IfOk, OnErr};
ghost use Rattle.std.specs.List.{AllByRecursion};
ghost use Rattle.cb_rule.specs.declared.view.View.{View};
ghost use Rattle.cb_shared.specs.Passes.{IsPassOf, record_of};
ghost use Rattle.cb_shared.specs.Recalls.{first_version_of};
ghost use Rattle.cb_farmap.specs.Arrays.{IsArrayOf, IsGot, IsPopped, IsPushed, IsSet, Keeps, PutsNumber, Stays, WritesNumber, bytes_with, get_plan, is_full, list_of, make_plan, no_array, pop_plan, push_plan, set_plan};
ghost use Rattle.cb_farmap.specs.Calls.{Goes, trouble};
ghost use Rattle.cb_farmap.specs.Changes.{AreLoose, AreSole, IsCalm, IsLoose, IsSole, Makes};
ghost use Rattle.cb_farmap.specs.Numbers.{number_at};
ghost use Rattle.cb_farmap.specs.Objects.{IsObject, bytes_at, object_at};
ghost use Rattle.cb_farmap.specs.Stops.{stop_behind};

use crate::kept::{Cannot, KeptObject, Objects, Stop};
use crate::object::{make_kept, read_kept, write_kept};
use byteorder::{ByteOrder, LittleEndian};
use cb_shared::{Pass, Shared};
use cb_types::Bytes;
use std::alloc::Global;
use std::sync::Wait;

/// A list of numbers in objects of 1,024 bytes, 128 numbers to an object, each of 8 bytes with the
/// lowest first. The array keeps of each object its handle and the version at which it wrote it
/// last. All calls of one array are made on the one pass that made its objects, which may be split
/// and joined meanwhile. An object that gets empty is kept, and filled again before one is made;
/// none is freed.
#[derive(Drop)]
pub struct FarArray {
    kept: Objects,
    len: u32,
    stop: Option<Stop>,
}

impl FarArray {
    /// An empty array, which is one of every pass; takes no memory, here and in the runtime.
    pub fn new(alloc: Global) -> FarArray
        ensures empty { result ≡ no_array }
        ensures array { (v : View) → IsArrayOf v result × (list_of v result ≡ []) }
    {
        FarArray {
            kept: Objects::new(alloc),
            len: 0,
            stop: None,
        }
    }

    /// How many numbers there are.
    pub fn len(&self) -> u32
        ensures { result ≡ self.now.len }
    {
        self.len
    }

    /// The object of the number with this index, as it was written last.
    pub fn object_of(&self, i: u32) -> KeptObject
        requires within { i / 128 < length self.now.kept }
        ensures { result ≡ object_at self.now.kept (i / 128) }
    {
        self.kept.at((i / 128) as usize)
    }

    /// The number with this index, by one read of its object. Refused by any reply of that read but
    /// the bytes of the kept version, Foreign where they are those of another version. The first
    /// Foreign, and the first Refused with Freed, is given again to every later call but `len`.
    pub fn get<R: Wait>(
        &mut self,
        rt: &R,
        alloc: Global,
        shared: &Shared,
        pass: &mut Pass,
        i: u32,
    ) -> Result<u64, Cannot>
        requires of { IsPassOf shared.now pass.old }
        requires array { IsArrayOf (record_of pass.old) self.old }
        requires within { i < self.old.len }
        ensures of { IsPassOf shared.now pass.new }
        ensures ok { IfOk result (λ x. IsGot i x (record_of pass.old) self.old
            (record_of pass.new) self.new) }
        ensures stays { OnErr result (Stays (trouble result) (record_of pass.old) self.old
            (record_of pass.new) self.new) }
        ensures keeps { Keeps shared.now.config (first_version_of shared.now)
            (get_plan self.old.kept i) (trouble result) (record_of pass.old) self.old
            (record_of pass.new) self.new }
    {
        if let Some(stop) = self.stop {
            return Err(Cannot::from(stop));
        }
        match number_kept(rt, alloc, shared, pass, &self.kept, i) {
            Ok(x) => Ok(x),
            Err(cannot) => {
                self.stop = cannot.stop();
                Err(cannot)
            }
        }
    }

    /// Puts a number in the place of the one with this index, by one write into its object, which
    /// is not read. Refused by any reply of that write but a version, Foreign where that is another
    /// one than the one above the kept version; both leave the numbers as they were, and so does
    /// running out of memory.
    pub fn set<R: Wait>(
        &mut self,
        rt: &R,
        alloc: Global,
        shared: &Shared,
        pass: &mut Pass,
        i: u32,
        x: u64,
    ) -> Result<(), Cannot>
        requires of { IsPassOf shared.now pass.old }
        requires array { IsArrayOf (record_of pass.old) self.old }
        requires within { i < self.old.len }
        ensures of { IsPassOf shared.now pass.new }
        ensures ok { IfOk result (λ _. IsSet i x (record_of pass.old) self.old
            (record_of pass.new) self.new) }
        ensures stays { OnErr result (Stays (trouble result) (record_of pass.old) self.old
            (record_of pass.new) self.new) }
        ensures keeps { Keeps shared.now.config (first_version_of shared.now)
            (set_plan self.old.kept i x) (trouble result) (record_of pass.old) self.old
            (record_of pass.new) self.new }
    {
        if let Some(stop) = self.stop {
            return Err(Cannot::from(stop));
        }
        match write_number(rt, alloc, shared, pass, &mut self.kept, i, x) {
            Ok(()) => Ok(()),
            Err(cannot) => {
                self.stop = cannot.stop();
                Err(cannot)
            }
        }
    }

    /// Puts a number after the last one: by one write into its object, which is not read, or, where
    /// all objects are full, by a make of one with this number. Takes the memory for the object's
    /// place before the make. Refused by any other reply than the success of that call, Foreign as
    /// in `set`; both leave the numbers as they were, and so does running out of memory.
    pub fn push<R: Wait>(
        &mut self,
        rt: &R,
        alloc: Global,
        shared: &Shared,
        pass: &mut Pass,
        x: u64,
    ) -> Result<(), Cannot>
        requires of { IsPassOf shared.now pass.old }
        requires array { IsArrayOf (record_of pass.old) self.old }
        requires room { self.old.len < 1000000000 }
        ensures of { IsPassOf shared.now pass.new }
        ensures ok { IfOk result (λ _. IsPushed x (record_of pass.old) self.old
            (record_of pass.new) self.new) }
        ensures stays { OnErr result (Stays (trouble result) (record_of pass.old) self.old
            (record_of pass.new) self.new) }
        ensures keeps { Keeps shared.now.config (first_version_of shared.now)
            (push_plan self.old.kept self.old.len x) (trouble result) (record_of pass.old) self.old
            (record_of pass.new) self.new }
    {
        if let Some(stop) = self.stop {
            return Err(Cannot::from(stop));
        }
        match put_number(rt, alloc, shared, pass, &mut self.kept, self.len, x) {
            Ok(()) => {
                self.len += 1;
                Ok(())
            }
            Err(cannot) => {
                self.stop = cannot.stop();
                Err(cannot)
            }
        }
    }

    /// Takes the last number away and gives it, by one read of its object; None without a call
    /// where there is none. Refused and Foreign as in `get`, and both leave the numbers as they
    /// were.
    pub fn pop<R: Wait>(
        &mut self,
        rt: &R,
        alloc: Global,
        shared: &Shared,
        pass: &mut Pass,
    ) -> Result<Option<u64>, Cannot>
        requires of { IsPassOf shared.now pass.old }
        requires array { IsArrayOf (record_of pass.old) self.old }
        ensures of { IsPassOf shared.now pass.new }
        ensures ok { IfOk result (λ o. IsPopped o (record_of pass.old) self.old
            (record_of pass.new) self.new) }
        ensures stays { OnErr result (Stays (trouble result) (record_of pass.old) self.old
            (record_of pass.new) self.new) }
        ensures keeps { Keeps shared.now.config (first_version_of shared.now)
            (pop_plan self.old.kept self.old.len) (trouble result) (record_of pass.old) self.old
            (record_of pass.new) self.new }
    {
        if let Some(stop) = self.stop {
            return Err(Cannot::from(stop));
        }
        if self.len == 0 {
            return Ok(None);
        }
        match number_kept(rt, alloc, shared, pass, &self.kept, self.len - 1) {
            Ok(x) => {
                self.len -= 1;
                Ok(Some(x))
            }
            Err(cannot) => {
                self.stop = cannot.stop();
                Err(cannot)
            }
        }
    }
}

/// The answer, which the value notes where it is to be given for good.
pub(crate) fn noted<T>(stop: &mut Option<Stop>, answer: Result<T, Cannot>) -> Result<T, Cannot>
    ensures same { result ≡ answer }
    ensures stop { stop.new ≡ stop_behind stop.old (trouble answer) }
{
    if let Err(cannot) = &answer {
        if stop.is_none() {
            *stop = cannot.stop();
        }
    }
    answer
}

/// The number with this index among objects of 128 each, by a read of its object.
fn number_kept<R: Wait>(
    rt: &R,
    alloc: Global,
    shared: &Shared,
    pass: &mut Pass,
    kept: &Objects,
    i: u32,
) -> Result<u64, Cannot>
    requires of { IsPassOf shared.now pass.old }
    requires within { i / 128 < length kept.now }
    requires object { IsObject (record_of pass.old).written (object_at kept.now (i / 128)) }
    ensures of { IsPassOf shared.now pass.new }
    ensures goes { Goes shared.now.config (first_version_of shared.now)
        (get_plan kept.now i) (trouble result) (record_of pass.old) (record_of pass.new) }
    ensures number { IfOk result (λ x. x ≡ number_at
        (bytes_at (record_of pass.old).written (object_at kept.now (i / 128))) (i % 128)) }
    ensures calm { IsSole (record_of pass.old) (object_at kept.now (i / 128))
        → IsLoose (record_of pass.old) (object_at kept.now (i / 128)) → IsCalm (trouble result) }
{
    let bytes = read_kept(rt, alloc, shared, pass, kept.at((i / 128) as usize));
    number_in(bytes, (i % 128) as usize)
}

/// The number with this index among the bytes of an object that was read.
fn number_in(bytes: Result<Bytes, Cannot>, j: usize) -> Result<u64, Cannot>
    requires long { IfOk bytes (λ b. length b ≡ 1024) }
    requires within { j < 128 }
    ensures same { trouble result ≡ trouble bytes }
    ensures number { IfOk result (λ x. IfOk bytes (λ b. x ≡ number_at b j)) }
{
    match bytes {
        Ok(bytes) => Ok(number_of(bytes.as_slice(), j)),
        Err(cannot) => Err(cannot),
    }
}

/// Writes a number in the place of the one with this index.
#[inline(always)]
fn write_number<R: Wait>(
    rt: &R,
    alloc: Global,
    shared: &Shared,
    pass: &mut Pass,
    kept: &mut Objects,
    i: u32,
    x: u64,
) -> Result<(), Cannot>
    requires of { IsPassOf shared.now pass.old }
    requires within { i / 128 < length kept.old }
    requires object { IsObject (record_of pass.old).written (object_at kept.old (i / 128)) }
    ensures of { IsPassOf shared.now pass.new }
    ensures goes { Goes shared.now.config (first_version_of shared.now)
        (set_plan kept.old i x) (trouble result) (record_of pass.old) (record_of pass.new) }
    ensures wrote { IfOk result (λ _. WritesNumber kept.old i x kept.new (record_of pass.old)
        (record_of pass.new)) }
    ensures stays { OnErr result (kept.new ≡ kept.old) }
    ensures calm { IsSole (record_of pass.old) (object_at kept.old (i / 128))
        → IsLoose (record_of pass.old) (object_at kept.old (i / 128)) → IsCalm (trouble result) }
{
    let mut bytes = [0u8; 8];
    LittleEndian::write_u64(&mut bytes, x);
    let o = (i / 128) as usize;
    write_kept(rt, alloc, shared, pass, kept, o, 8 * (i % 128), &bytes)
}

/// Makes an object of this number and zeros after the others.
#[inline(never)]
fn make_number<R: Wait>(
    rt: &R,
    alloc: Global,
    shared: &Shared,
    pass: &mut Pass,
    kept: &mut Objects,
    x: u64,
) -> Result<(), Cannot>
    requires of { IsPassOf shared.now pass.old }
    ensures of { IsPassOf shared.now pass.new }
    ensures goes { Goes shared.now.config (first_version_of shared.now)
        (make_plan x) (trouble result) (record_of pass.old) (record_of pass.new) }
    ensures made { IfOk result (λ _. Makes (record_of pass.old).written kept.old kept.new
        (bytes_with x) (record_of pass.new).written) }
    ensures stays { OnErr result (kept.new ≡ kept.old) }
    ensures calm { IsCalm (trouble result) }
{
    let mut bytes = [0u8; 1024];
    LittleEndian::write_u64(&mut bytes, x);
    make_kept(rt, alloc, shared, pass, kept, &bytes)
}

/// Puts a number after so many in objects of 128 each.
fn put_number<R: Wait>(
    rt: &R,
    alloc: Global,
    shared: &Shared,
    pass: &mut Pass,
    kept: &mut Objects,
    len: u32,
    x: u64,
) -> Result<(), Cannot>
    requires of { IsPassOf shared.now pass.old }
    requires objects { AllByRecursion (IsObject (record_of pass.old).written) kept.old }
    requires within { len ≤ 128 * length kept.old }
    ensures of { IsPassOf shared.now pass.new }
    ensures goes { Goes shared.now.config (first_version_of shared.now)
        (push_plan kept.old len x) (trouble result) (record_of pass.old) (record_of pass.new) }
    ensures put { IfOk result (λ _. PutsNumber (is_full kept.old len) kept.old len x kept.new
        (record_of pass.old) (record_of pass.new)) }
    ensures stays { OnErr result (kept.new ≡ kept.old) }
    ensures calm { AreSole (record_of pass.old) kept.old → AreLoose (record_of pass.old) kept.old
        → IsCalm (trouble result) }
{
    if len as usize / 128 == kept.len() {
        make_number(rt, alloc, shared, pass, kept, x)
    } else {
        write_number(rt, alloc, shared, pass, kept, len, x)
    }
}

/// The number with this index among the bytes of an object.
pub(crate) fn number_of(bytes: &[u8], j: usize) -> u64
    requires long { length bytes.now ≡ 1024 }
    requires within { j < 128 }
    ensures { result ≡ number_at bytes.now j }
{
    LittleEndian::read_u64(&bytes[8 * j..])
}
