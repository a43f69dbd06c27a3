//! A read of the plain map.

ghost use Rattle.std.specs.Prelude.{◌<◌};

use cb_model::{Call, MapReply, MapState};
use cb_types::{Handle, NoMemory};
use std::alloc::Global;

/// Whether a read of the plain map shows the first version of two bytes.
fn reads(alloc: Global, map: &mut MapState, handle: Handle) -> Result<bool, NoMemory>
    requires { handle.n < map.old.handles }
{
    match map.apply(alloc, &Call::Read { handle })? {
        MapReply::Bytes { version, bytes } => {
            Ok(version == 1 && bytes.as_slice() == [10, 11].as_slice())
        }
        _ => Ok(false),
    }
}

/// Whether a read of the plain map shows what was made.
fn read_shows_what_was_made(alloc: Global) -> Result<bool, NoMemory> {
    let mut map = MapState::new(alloc, 16)?;
    match map.make(alloc, &[10, 11])? {
        MapReply::Made { handle, version: 1 } => reads(alloc, &mut map, handle),
        _ => Ok(false),
    }
}

#[test]
fn a_read_shows_what_was_made(rt: HostRuntime) {
    assert!(rt; matches!(read_shows_what_was_made(rt.alloc()), Ok(true)));
}
