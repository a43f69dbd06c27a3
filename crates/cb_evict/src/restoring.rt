//! Claimed objects are settled as they were.

ghost use Rattle.std.specs.Prelude.{◌<◌, All};
ghost use Rattle.cb_world.specs.declared.shown.Shown.{Shown};
ghost use Rattle.cb_world.specs.FarState.{FarState};
ghost use Rattle.cb_world.specs.LocalSound.{LocalSound};
ghost use Rattle.cb_evict.specs.Claims.{AreApart};
ghost use Rattle.cb_evict.specs.Restoring.{IsClaimedFrom, RestoresClaims};

use cb_types::Handle;
use cb_world::{Desk, Former};

/// Settles claimed objects at the words that are noted: each is here again, as hot as its word
/// says.
pub(crate) fn restore<D: Desk>(desk: &mut D, formers: &[Former])
    requires handles { All (λ former. former.handle < (D.settings desk.old).handles) formers.now }
    requires apart { AreApart formers.now }
    requires claimed { (s : Shown) × D.shows desk.old s
        × ((far : FarState) × LocalSound s far × All (IsClaimedFrom s) formers.now) }
    ensures { RestoresClaims (λ es. D.run desk.old es desk.new) (λ s. D.shows desk.old s)
        formers.now }
{
    for former in formers {
        desk.settle(Handle { n: former.handle }, former.word);
    }
}
