//! The plain map.

ghost use Rattle.std.specs.Prelude.{◌≡◌, ◌<◌, [], IsOkAnd, IfOk, OnErr};
ghost use Rattle.cb_model.specs.Map.{IsPossible, Replies};

use crate::call::{Call, MapReply};
use crate::object::Object;
use cb_types::{Bytes, Handle, NoMemory};
use std::alloc::Global;
use std::marker::Model;

/// The map, with the number of handles that it can give. Handles count up from 0, so the object of
/// a handle stands at that place.
#[derive(Drop)]
pub struct MapState {
    handles: u32,
    objects: Vec<Object>,
}

impl Model for MapState {
    ghost use Rattle.std.specs.Prelude.{◌≤◌, vec_len, All};
    ghost use Rattle.cb_model.specs.Map.{Map, IsSmall};

    ghost Value = { Map };

    ghost view = { λ a. record { handles = a.handles; objects = a.objects.items } };

    ghost invariant = { λ a. (vec_len a.objects ≤ a.handles) × All IsSmall a.objects.items };
}

impl MapState {
    /// The empty map. Takes no memory.
    pub fn new(alloc: Global, handles: u32) -> Result<MapState, NoMemory>
        ensures empty { IsOkAnd result (λ map. map ≡ record { handles = handles; objects = [] }) }
    {
        Ok(MapState {
            handles,
            objects: Vec::new(alloc),
        })
    }

    /// Answers a call. A handle is below the number of handles, and what is written or freed has a
    /// version above its own. A make is answered Full where as many objects were made. A call on a
    /// handle is answered Unmade where it was never made, Freed where the object was freed, and a
    /// write past the object's end Range. Running out of memory leaves the map as it was.
    pub fn apply(&mut self, alloc: Global, call: &Call) -> Result<MapReply, NoMemory>
        requires possible { IsPossible self.old call.now }
        ensures reply { IfOk result (λ reply. Replies self.old call.now reply self.new) }
        ensures err { OnErr result (self.new ≡ self.old) }
    {
        match call {
            Call::Make { bytes } => self.make(alloc, bytes.as_slice()),
            Call::Read { handle } => self.read(alloc, *handle),
            Call::Write { handle, at, bytes } => Ok(self.write(*handle, *at, bytes.as_slice())),
            Call::Free { handle } => Ok(self.free(*handle)),
        }
    }

    /// Answers a make of an object with these bytes. There is no memory for one of 4 GiB or more.
    pub fn make(&mut self, alloc: Global, bytes: &[u8]) -> Result<MapReply, NoMemory>
        ensures reply { IfOk result (λ reply. Replies self.old (Call.Make bytes.now) reply self.new) }
        ensures err { OnErr result (self.new ≡ self.old) }
    {
        if self.objects.len() >= self.handles as usize {
            return Ok(MapReply::Full {
                handles: self.handles,
            });
        }
        if bytes.len() > u32::MAX as usize {
            return Err(NoMemory);
        }
        let handle = Handle {
            n: self.objects.len() as u32,
        };
        let bytes = Bytes::copy_of(alloc, bytes)?;
        self.objects.push(Object::Held { version: 1, bytes })?;
        Ok(MapReply::Made { handle, version: 1 })
    }

    /// Answers a read.
    pub fn read(&self, alloc: Global, handle: Handle) -> Result<MapReply, NoMemory>
        ensures reply { IfOk result (λ reply. Replies self.now (Call.Read handle) reply self.now) }
    {
        match self.objects.get(handle.n as usize) {
            None => Ok(MapReply::Unmade),
            Some(object) => object.read(alloc),
        }
    }

    /// Answers a write of these bytes from the byte number `at` on. Takes no memory.
    pub fn write(&mut self, handle: Handle, at: u32, bytes: &[u8]) -> MapReply
        requires possible { IsPossible self.old (Call.Write handle at bytes.now) }
        ensures reply { Replies self.old (Call.Write handle at bytes.now) result self.new }
    {
        match self.objects.get_mut(handle.n as usize) {
            None => MapReply::Unmade,
            Some(object) => object.write(at, bytes),
        }
    }

    /// Answers a free. Takes no memory.
    pub fn free(&mut self, handle: Handle) -> MapReply
        requires possible { IsPossible self.old (Call.Free handle) }
        ensures reply { Replies self.old (Call.Free handle) result self.new }
    {
        match self.objects.get_mut(handle.n as usize) {
            None => MapReply::Unmade,
            Some(object) => object.free(),
        }
    }
}
