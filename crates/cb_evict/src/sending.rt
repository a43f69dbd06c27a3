//! Claimed objects are settled as away.

ghost use Rattle.std.specs.Prelude.{◌<◌, All};
ghost use Rattle.cb_world.specs.declared.shown.Shown.{Shown};
ghost use Rattle.cb_evict.specs.Claims.{AreApart};
ghost use Rattle.cb_evict.specs.Sending.{IsFormerTold, Sends};

use cb_ptr::{far_word, unpack};
use cb_types::Handle;
use cb_world::{Desk, Former};

/// Settles claimed objects as away, each by the word at which it was claimed.
pub(crate) fn send<D: Desk>(desk: &mut D, formers: &[Former])
    requires handles { All (λ former. former.handle < (D.settings desk.old).handles) formers.now }
    requires apart { AreApart formers.now }
    requires told { (s : Shown) × D.shows desk.old s × All (IsFormerTold s) formers.now }
    ensures { Sends (λ es. D.run desk.old es desk.new) (λ s. D.shows desk.old s) formers.now }
{
    for former in formers {
        desk.settle(
            Handle { n: former.handle },
            far_word(unpack(former.word).len),
        );
    }
}
