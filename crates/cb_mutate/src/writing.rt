//! A write of an object in local memory.

ghost use Rattle.std.specs.Prelude.{◌≡◌, ℕ, ◌+◌, ◌<◌, List, IsOk, IfOk};
ghost use Rattle.cb_types.specs.Config.{IsAccepted};
ghost use Rattle.cb_ptr.specs.Word.{state_of, len_of, place_of};
ghost use Rattle.cb_world.specs.declared.access.Access.{Access};
ghost use Rattle.cb_types.specs.declared.reply.Reply.TheVariants as answer;
ghost use Rattle.cb_world.specs.declared.object.Object.TheVariants as is;
ghost use Rattle.cb_world.specs.declared.shown.Shown.{Shown};
ghost use Rattle.cb_world.specs.Desks.{IsReadyDesk, Operates};
ghost use Rattle.cb_world.specs.Shown.{object_at};
ghost use Rattle.cb_world.specs.Grasped.{IsFree};
ghost use Rattle.cb_world.specs.Reads.{AreReads};
ghost use Rattle.cb_world.specs.Touches.{Touches};
ghost use Rattle.cb_world.specs.Claimed.{IsClaimedAt};
ghost use Rattle.cb_world.specs.Finishes.{Finishes};
ghost use Rattle.cb_mutate.specs.Answered.{AnsweredAs};
ghost use Rattle.cb_mutate.specs.WriteRule.{WriteHere, WriteRule, WriteEffect};
ghost use Rattle.cb_mutate.specs.WriteEnds.{WriteEnds};

use crate::overwriting::overwrite;
use crate::refusing::absent;
use cb_ptr::{State, claimed, settled, unpack};
use cb_types::{Handle, NoMemory, Reply};
use cb_world::{Desk, Far, Grasp, try_claim};

/// Writes over a part of an object in local memory: `bytes` from the byte number `at` on. Takes no
/// memory, and never answers that there is none.
///
/// Refuses with Unmade, Freed, Moving or NotHere where the object is not here, with Range past its
/// end, with Pinned where it has pins, and with Worn where its version has no next one. NotHere is
/// answered only where it is far.
pub fn write<D: Desk>(
    desk: &mut D,
    far: &mut Far,
    h: Handle,
    at: u32,
    bytes: &[u8],
) -> Result<Reply, NoMemory>
    requires handle { h.n < (D.settings desk.old).handles }
    requires config { IsAccepted (D.settings desk.old) }
    requires sound { IsReadyDesk D.shows desk.old far.old }
    ensures memory { IsOk result }
    ensures far { far.new ≡ far.old }
    ensures write { IfOk result (λ reply. Operates D.run D.shows desk.old far.old desk.new far.new
        (WriteRule h.n at bytes.now reply)
        (WriteEffect h.n at bytes.now reply)) }
    ensures away { IfOk result (λ reply. reply ≡ answer.NotHere → (s : Shown) → D.shows desk.old s
        → (len v : ℕ) × (words : List ℕ) × (object_at s h.n ≡ is.Far len v words)) }
{
    Ok(written(desk, far, h, at, bytes))
}

/// The write, which always answers.
fn written<D: Desk>(desk: &mut D, far: &Far, h: Handle, at: u32, bytes: &[u8]) -> Reply
    requires handle { h.n < (D.settings desk.old).handles }
    requires config { IsAccepted (D.settings desk.old) }
    requires sound { IsReadyDesk D.shows desk.old far.now }
    ensures write { Operates D.run D.shows desk.old far.now desk.new far.now
        (WriteRule h.n at bytes.now result)
        (WriteEffect h.n at bytes.now result) }
    ensures away { result ≡ answer.NotHere → (s : Shown) → D.shows desk.old s
        → (len v : ℕ) × (words : List ℕ) × (object_at s h.n ≡ is.Far len v words) }
{
    let _far = far;
    match try_claim(desk, h) {
        Grasp::Claimed { word } => write_claimed(desk, h, word, at, bytes),
        Grasp::Left { word } => refuse_write(desk, h, word, at, bytes),
    }
}

/// Why a write is refused by a word that can't be claimed.
fn refuse_write<D: Desk>(desk: &mut D, h: Handle, word: u64, at: u32, bytes: &[u8]) -> Reply
    requires handle { h.n < (D.settings desk.old).handles }
    requires left { ¬ (IsFree word) }
    ensures { (es : List Access) × D.run desk.old es desk.new × AreReads h.n es
        × Touches h.n (place_of word) (len_of word) es
        × AnsweredAs (state_of word) (WriteHere h.n at bytes.now es result) word h.n es result }
{
    let fields = unpack(word);
    match fields.state {
        State::Here if at as usize + bytes.len() > fields.len as usize => {
            Reply::Range { len: fields.len }
        }
        State::Here => Reply::Pinned { count: fields.pins },
        _ => absent(desk, h, word),
    }
}

/// The write of a claimed object, and its settling.
fn write_claimed<D: Desk>(desk: &mut D, h: Handle, word: u64, at: u32, bytes: &[u8]) -> Reply
    requires handle { h.n < (D.settings desk.old).handles }
    requires config { IsAccepted (D.settings desk.old) }
    requires claimed { (s : Shown) × D.shows desk.old s
        × ((v : ℕ) × (words : List ℕ) × IsClaimedAt s h.n word v words) }
    ensures ends { Finishes (λ es. D.run desk.old es desk.new)
        (λ s v words. D.shows desk.old s × IsClaimedAt s h.n word v words) h.n word
        (WriteEnds h.n word at bytes.now result) }
    ensures here { result ≡ answer.NotHere → ⊥ }
{
    let fields = unpack(word);
    if at as usize + bytes.len() > fields.len as usize {
        desk.settle(h, word);
        return Reply::Range { len: fields.len };
    }
    let version = desk.version(h);
    if version == u64::MAX {
        desk.settle(h, word);
        return Reply::Worn;
    }
    overwrite(desk, fields.place, fields.len, at, bytes);
    desk.store_version(h, version + 1);
    desk.settle(h, settled(claimed(word), fields.place, true));
    Reply::Version {
        version: version + 1,
    }
}
