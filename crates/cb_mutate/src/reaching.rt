//! A try to claim an object, with room for its bytes.

ghost use Rattle.std.specs.Prelude.{◌≡◌, ℕ, ◌<◌, List, [], ◌∷◌, length, IfOk, OnErr};
ghost use Rattle.cb_ptr.specs.declared.word.State.TheVariants as state;
ghost use Rattle.cb_ptr.specs.Word.{state_of, len_of};
ghost use Rattle.cb_world.specs.declared.access.Access.{Access};
ghost use Rattle.cb_world.specs.declared.access.Access.TheVariants.{Looked};
ghost use Rattle.cb_world.specs.declared.shown.Shown.{Shown};
ghost use Rattle.cb_world.specs.Grasped.{Grasps};
ghost use Rattle.cb_mutate.specs.Reaches.{HasReadRoom, grasp_of, room_of};

use cb_ptr::{State, unpack};
use cb_types::{Bytes, Handle, NoMemory};
use cb_world::{Desk, Grasp, try_claim};
use std::alloc::Global;

/// What a try to claim an object came to, with room for its bytes where it is here: it is claimed
/// at this word, or this word was found, which can't be claimed.
#[derive(Drop)]
pub(crate) enum Reached {
    Claimed { word: u64, room: Bytes },
    Left { word: u64, room: Bytes },
}

/// Room for the bytes of an object at this word, and none where it is not here.
fn room_for(alloc: Global, word: u64) -> Result<Bytes, NoMemory>
    ensures room { IfOk result (λ room. state_of word ≡ state.Here → length room ≡ len_of word) }
    ensures error { OnErr result (state_of word ≡ state.Here) }
{
    let fields = unpack(word);
    match fields.state {
        State::Here => Ok(Bytes::from(vec![in alloc; 0; fields.len as usize]?)),
        _ => Ok(Bytes::from(Vec::new(alloc))),
    }
}

/// Looks at an object, and where it is here takes memory for its bytes and then tries to claim it.
/// An object has one length as long as it lives, so the bytes fit into the room that the first look
/// asked for. Where there is no memory, the object was found here and nothing was changed.
pub(crate) fn reach<D: Desk>(alloc: Global, desk: &mut D, h: Handle) -> Result<Reached, NoMemory>
    requires handle { h.n < (D.settings desk.old).handles }
    requires shown { (s : Shown) × D.shows desk.old s }
    ensures reached { IfOk result (λ reached. (es : List Access) × D.run desk.old es desk.new
        × Grasps h.n es (grasp_of reached)) }
    ensures room { IfOk result (λ reached. HasReadRoom (grasp_of reached) (room_of reached)) }
    ensures error { OnErr result ((w : ℕ) × D.run desk.old (Looked h.n w ∷ []) desk.new
        × (state_of w ≡ state.Here)) }
{
    let saw = desk.word(h);
    let room = room_for(alloc, saw)?;
    match unpack(saw).state {
        State::Here => Ok(claim_with(desk, h, room)),
        _ => Ok(Reached::Left { word: saw, room }),
    }
}

/// The try to claim an object, with this room for its bytes.
fn claim_with<D: Desk>(desk: &mut D, h: Handle, room: Bytes) -> Reached
    requires handle { h.n < (D.settings desk.old).handles }
    requires shown { (s : Shown) × D.shows desk.old s }
    ensures reached { (es : List Access) × D.run desk.old es desk.new × Grasps h.n es (grasp_of result) }
    ensures room { room_of result ≡ room }
{
    match try_claim(desk, h) {
        Grasp::Claimed { word } => Reached::Claimed { word, room },
        Grasp::Left { word } => Reached::Left { word, room },
    }
}
