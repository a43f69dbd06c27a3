//! Why a line on an object that is not here is refused.

ghost use Rattle.std.specs.Prelude.{◌≡◌, ℕ, ◌<◌, length, List};
ghost use Rattle.cb_types.specs.declared.reply.Reply.TheVariants as answer;
ghost use Rattle.cb_world.specs.declared.object.Object.TheVariants as is;
ghost use Rattle.cb_world.specs.declared.shown.Shown.{Shown};
ghost use Rattle.cb_world.specs.Desks.{IsReadyDesk};
ghost use Rattle.cb_world.specs.Shown.{object_at};
ghost use Rattle.cb_world.specs.Now.{is_gone};
ghost use Rattle.cb_world.specs.FarSound.{AwaySound};
ghost use Rattle.cb_core.specs.Turned.{Declines, FindsWhere};

use cb_ptr::{State, unpack};
use cb_types::{Handle, Reply};
use cb_world::{Desk, Far};

/// Where an object is: Stays where it is here, NotHere where it is far, Moving, Freed or Unmade. It
/// is looked at, and nothing else.
pub(crate) fn find<D: Desk>(desk: &mut D, far: &Far, h: Handle) -> Reply
    requires handle { h.n < (D.settings desk.old).handles }
    requires sound { IsReadyDesk D.shows desk.old far.now }
    ensures away { result ≡ answer.NotHere → (s : Shown) → D.shows desk.old s
        → (len v : ℕ) × (words : List ℕ) × (object_at s h.n ≡ is.Far len v words) }
    ensures finds { FindsWhere D.run D.shows h.n
        (record { desk = desk.old; far = far.now }) result
        (record { desk = desk.new; far = far.now }) }
{
    let _far = far;
    match unpack(desk.word(h)).state {
        State::Here => Reply::Stays,
        State::Far => Reply::NotHere,
        State::Moving => Reply::Moving,
        State::Empty if desk.version(h) == 0 => Reply::Unmade,
        State::Empty => Reply::Freed,
    }
}

/// Why a write of these bytes from the byte number `at` on to a far object is declined before the
/// object is brought in: Range past its end, then Worn where its version has no next one. Where its
/// set has lost more shards than it has parities nothing is looked at.
pub(crate) fn decline<D: Desk>(
    desk: &mut D,
    far: &Far,
    h: Handle,
    at: u32,
    bytes: &[u8],
) -> Option<Reply>
    requires handle { h.n < (D.settings desk.old).handles }
    requires homes { h.n < length far.now.homes }
    requires sound { IsReadyDesk D.shows desk.old far.now }
    requires away { (s : Shown) × D.shows desk.old s
        × ((len v : ℕ) × (words : List ℕ) × (object_at s h.n ≡ is.Far len v words)) }
    ensures declines { Declines D.run D.shows h.n at
        (length bytes.now) (record { desk = desk.old; far = far.now }) result
        (record { desk = desk.new; far = far.now }) }
{
    if is_gone(far, h) {
        return None;
    }
    let len = unpack(desk.word(h)).len;
    let version = desk.version(h);
    if at as usize + bytes.len() > len as usize {
        return Some(Reply::Range { len });
    }
    if version == u64::MAX {
        return Some(Reply::Worn);
    }
    None
}

/// Whether the set of the object's home has lost more shards than it has parities.
fn is_gone(far: &Far, h: Handle) -> bool
    requires homes { h.n < length far.now.homes }
    requires sound { (s : Shown) × AwaySound s far.now }
    ensures { result ≡ is_gone far.now h.n }
{
    let Some(home) = far.homes.at(h.n) else {
        return false;
    };
    let Some(set) = far.sets.committed(home.set) else {
        return false;
    };
    set.lost_count(&far.members) > set.r()
}
