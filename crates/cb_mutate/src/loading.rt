//! The bytes of an object are loaded.

ghost use Rattle.std.specs.Prelude.{◌≡◌, ◌+◌, ◌*◌, ◌≤◌, length};
ghost use Rattle.cb_types.specs.Config.{IsAccepted};
ghost use Rattle.cb_world.specs.Memory.{words_for};
ghost use Rattle.cb_world.specs.Claimed.{OwnsAll};
ghost use Rattle.cb_mutate.specs.Loads.{Loads};

use cb_types::{Bytes, put_word};
use cb_world::Desk;

/// Reads the words of an object of `len` bytes at this place, and puts the bytes of each straight
/// into the room for the object's bytes. Takes no memory.
pub(crate) fn load_into<D: Desk>(desk: &mut D, place: u32, len: u32, room: &mut Bytes)
    requires memory { place + words_for len ≤ 512 * (D.settings desk.old).frames }
    requires config { IsAccepted (D.settings desk.old) }
    requires room { length room.old ≡ len }
    ensures { Loads (λ es. D.run desk.old es desk.new)
        (λ s. D.shows desk.old s × OwnsAll s place len) place len room.new }
{
    for i in 0..len.div_ceil(8) {
        let word = desk.load(place + i);
        put_word(room, i as usize, word);
    }
}
