//! The words of a claimed object are written over.

ghost use Rattle.std.specs.Prelude.{◌≡◌, ℕ, ◌+◌, ◌*◌, ◌<◌, ◌≤◌, List, length};
ghost use Rattle.cb_types.specs.Config.{IsAccepted, most_bytes};
ghost use Rattle.cb_world.specs.declared.shown.Shown.{Shown};
ghost use Rattle.cb_world.specs.Memory.{words_for};
ghost use Rattle.cb_world.specs.Claimed.{OwnsAll};
ghost use Rattle.cb_mutate.specs.Overwrites.{Overwrites};

use crate::merge::merged;
use cb_world::Desk;

/// Writes over a part of the object of `len` bytes at this place, whose words the caller owns:
/// `bytes` from the byte number `at` on. Each word that has one of them is loaded and stored once.
pub(crate) fn overwrite<D: Desk>(desk: &mut D, place: u32, len: u32, at: u32, bytes: &[u8])
    requires inside { at + length bytes.now ≤ len }
    requires size { len ≤ most_bytes }
    requires memory { place + words_for len ≤ 512 * (D.settings desk.old).frames }
    requires config { IsAccepted (D.settings desk.old) }
    requires owned { (s : Shown) × D.shows desk.old s × OwnsAll s place len }
    ensures { Overwrites (λ es. D.run desk.old es desk.new)
        (λ s. D.shows desk.old s × OwnsAll s place len) place len at bytes.now }
{
    let end = at + bytes.len() as u32;
    for i in at / 8..end.div_ceil(8) {
        let old = desk.load(place + i);
        desk.store(place + i, merged(old, 8 * i, at, bytes));
    }
}
