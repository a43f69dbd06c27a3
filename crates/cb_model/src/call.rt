//! Calls on the plain map, and its replies.

use cb_types::{Bytes, Handle, Reply};

/// A call on the map.
#[derive(Drop)]
pub enum Call {
    /// A new object with these bytes.
    Make {
        bytes: Bytes,
    },
    /// The bytes of an object.
    Read {
        handle: Handle,
    },
    /// These bytes in place of those from the byte number `at` on, within the object.
    Write {
        handle: Handle,
        at: u32,
        bytes: Bytes,
    },
    /// The end of an object.
    Free {
        handle: Handle,
    },
}

/// What the map replies.
#[derive(Drop)]
pub enum MapReply {
    /// The object was made: its handle, and its first version.
    Made { handle: Handle, version: u64 },
    /// The object's version, and its bytes.
    Bytes { version: u64, bytes: Bytes },
    /// The version of the object since this write or free.
    Version { version: u64 },
    /// The object was freed.
    Freed,
    /// The write goes past the object's end; its length in bytes.
    Range { len: u32 },
    /// The handle was never made.
    Unmade,
    /// As many objects as there are handles were made; their number.
    Full { handles: u32 },
}

impl From<MapReply> for Reply {
    ghost use Rattle.std.specs.Prelude.{◌≡◌};
    ghost use Rattle.cb_model.specs.Map.{line_reply};

    ghost from_gives = { λ reply line. line ≡ line_reply reply };

    /// The map's reply as that of a line. Takes no memory.
    fn from(reply: MapReply) -> Reply {
        match reply {
            MapReply::Made { handle, version } => Reply::Made { handle, version },
            MapReply::Bytes { version, bytes } => Reply::Bytes { version, bytes },
            MapReply::Version { version } => Reply::Version { version },
            MapReply::Freed => Reply::Freed,
            MapReply::Range { len } => Reply::Range { len },
            MapReply::Unmade => Reply::Unmade,
            MapReply::Full { handles } => Reply::Full { handles },
        }
    }
}
