//! An object of the plain map: its versions, or freed.

ghost use Rattle.std.specs.Prelude.{◌≡◌, Some, IfOk};
ghost use Rattle.cb_model.specs.Map.{IsSmall, HasNext, read_event, write_event, free_event, object_after};
ghost use Rattle.cb_model.specs.Replies.{ObjectReplies};

use crate::call::MapReply;
use cb_types::{Bytes, NoMemory};
use std::alloc::Global;

/// What the map has at a handle that was made.
#[derive(Drop)]
pub enum Object {
    /// The object has these bytes at this version.
    Held { version: u64, bytes: Bytes },
    /// The object was freed, at this version. Nothing of its bytes is kept.
    Freed { version: u64 },
}

impl Object {
    /// Answers a read.
    pub(crate) fn read(&self, alloc: Global) -> Result<MapReply, NoMemory>
        ensures reply { IfOk result (λ reply. ObjectReplies (Some self.now) (read_event reply)) }
        ensures effect { IfOk result (λ reply. object_after self.now (read_event reply) ≡ self.now) }
    {
        match self {
            Object::Freed { .. } => Ok(MapReply::Freed),
            Object::Held { version, bytes } => Ok(MapReply::Bytes {
                version: *version,
                bytes: bytes.copy(alloc)?,
            }),
        }
    }

    /// Answers a write of these bytes from the byte number `at` on. Takes no memory.
    pub(crate) fn write(&mut self, at: u32, bytes: &[u8]) -> MapReply
        requires small { IsSmall self.old }
        requires next { HasNext (Some self.old) }
        ensures reply { ObjectReplies (Some self.old) (write_event at bytes.now result) }
        ensures effect { self.new ≡ object_after self.old (write_event at bytes.now result) }
    {
        match self {
            Object::Freed { .. } => MapReply::Freed,
            Object::Held {
                version,
                bytes: held,
            } => {
                if at as usize + bytes.len() > held.len() {
                    return MapReply::Range {
                        len: held.len() as u32,
                    };
                }
                held.overwrite(at as usize, bytes);
                *version += 1;
                MapReply::Version { version: *version }
            }
        }
    }

    /// Answers a free. Takes no memory.
    pub(crate) fn free(&mut self) -> MapReply
        requires next { HasNext (Some self.old) }
        ensures reply { ObjectReplies (Some self.old) (free_event result) }
        ensures effect { self.new ≡ object_after self.old (free_event result) }
    {
        match self {
            Object::Freed { .. } => MapReply::Freed,
            Object::Held { version, .. } => {
                let version = *version + 1;
                *self = Object::Freed { version };
                MapReply::Version { version }
            }
        }
    }
}
