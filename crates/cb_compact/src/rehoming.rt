//! Objects of the merged set get their homes there.

ghost use Rattle.std.specs.Prelude.{◌<◌, length};
ghost use Rattle.cb_set.specs.SetState.{position_of};
ghost use Rattle.cb_world.specs.Homes.{HasHomes};
ghost use Rattle.cb_compact.specs.Rehoming.{AreNamedOnce, AreRehomed};

use cb_set::SpanSet;
use cb_world::{Homes, put_homes};

/// Gives the objects that a set names at a position their homes there.
fn rehome_position(homes: &mut Homes, id: u64, set: &SpanSet, position: u32)
    requires within { position < length set.now.positions }
    requires named { AreNamedOnce set.now (length homes.old) }
    ensures { HasHomes (position_of set.now position).slots id position homes.old homes.new }
{
    if set.live_at(position) {
        put_homes(homes, set.slots(position), id, position);
    }
}

/// Gives each object that a set names its home there, one slot after another. Takes no memory.
pub(crate) fn rehome(homes: &mut Homes, id: u64, set: &SpanSet)
    requires named { AreNamedOnce set.now (length homes.old) }
    ensures { AreRehomed id set.now homes.old homes.new }
{
    for position in 0..set.k() {
        rehome_position(homes, id, set, position);
    }
}
