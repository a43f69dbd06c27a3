//! A try to claim an object.

ghost use Rattle.std.specs.Prelude.{◌≡◌, ◌<◌, List, true, false};
ghost use Rattle.cb_world.specs.declared.access.Access.{Access};
ghost use Rattle.cb_world.specs.declared.shown.Shown.{Shown};
ghost use Rattle.cb_world.specs.Grasped.{Grasps, IsFree};

use crate::desk::{Claim, Desk};
use cb_ptr::{State, unpack};
use cb_types::Handle;

/// What a try to claim an object comes to.
#[derive(Clone, Copy)]
pub enum Grasp {
    /// It is claimed; this was its word.
    Claimed { word: u64 },
    /// It is not; this word was found, which can't be claimed.
    Left { word: u64 },
}

/// Whether a word is here without pins, and so can be claimed.
pub fn is_free(word: u64) -> bool
    ensures free { result ≡ true → IsFree word }
    ensures other { result ≡ false → ¬ (IsFree word) }
{
    let fields = unpack(word);
    fields.pins == 0 && fields.state == State::Here
}

/// Claims the object where its word is here without pins. A claim that is raced by a word of that
/// kind is made once more, and the second one decides: such words differ in the hot bit alone, and
/// others only set it.
pub fn try_claim<D: Desk>(desk: &mut D, h: Handle) -> Grasp
    requires handle { h.n < (D.settings desk.old).handles }
    requires shown { (s : Shown) × D.shows desk.old s }
    ensures { (es : List Access) × D.run desk.old es desk.new × Grasps h.n es result }
{
    let saw = desk.word(h);
    if !is_free(saw) {
        return Grasp::Left { word: saw };
    }
    let Claim::Raced { found } = desk.claim(h, saw) else {
        return Grasp::Claimed { word: saw };
    };
    if !is_free(found) {
        return Grasp::Left { word: found };
    }
    match desk.claim(h, found) {
        Claim::Claimed => Grasp::Claimed { word: found },
        Claim::Raced { found: last } => Grasp::Left { word: last },
    }
}
