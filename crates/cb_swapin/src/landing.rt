//! A position comes back by a row that was made outside the lock.

ghost use Rattle.std.specs.Prelude.{◌≡◌, IfOk, OnErr};
ghost use Rattle.cb_types.specs.Config.{IsAccepted};
ghost use Rattle.cb_world.specs.declared.shown.Shown.{Shown};
ghost use Rattle.cb_world.specs.Desks.{Operates};
ghost use Rattle.cb_world.specs.FarSound.{AwaySound};
ghost use Rattle.cb_world.specs.Orders.{KeepsOrder};
ghost use Rattle.cb_world.specs.Sound.{Sound};
ghost use Rattle.cb_swapin.specs.LandEffect.{LandEffect};
ghost use Rattle.cb_swapin.specs.LandRule.{LandRule, done_order, live_in};

use crate::swapping::bring_in;
use cb_orders::DecodeDone;
use cb_types::{NoMemory, Reply, SetId};
use cb_world::{Desk, Far};

/// Swaps a position in with the row that an order made, which was kept until now. Takes all memory
/// before anything is changed, and gives no row out.
///
/// Refuses with NoOrder where there is none, and then with Changed where the order's set is gone or
/// its position is not live. Else the answers are those of `swap_in`, and the span is brought in as
/// there, but with the order's row. What is refused, and running out of memory, changes nothing.
pub fn land<D: Desk>(
    desk: &mut D,
    far: &mut Far,
    done: Option<&DecodeDone>,
) -> Result<Reply, NoMemory>
    requires config { IsAccepted (D.settings desk.old) }
    requires kept { (s : Shown) × D.shows desk.old s × Sound s far.old
        × KeepsOrder s far.old (done_order done) }
    ensures land { IfOk result (λ reply. Operates D.run D.shows desk.old far.old desk.new far.new
        (LandRule (done_order done.entry) far.old far.new reply)
        (LandEffect (done_order done.entry) far.old far.new reply)) }
    ensures desk { OnErr result (desk.new ≡ desk.old) }
    ensures far { OnErr result (far.new ≡ far.old) }
{
    let Some(done) = done else {
        return Ok(Reply::NoOrder);
    };
    let id = SetId {
        n: done.order().set,
    };
    let position = done.order().position;
    if !is_live_in(far, id, position) {
        return Ok(Reply::Changed { set: id });
    }
    bring_in(desk, far, id, position, Some(done.row()))
}

/// Whether a committed set has this number and this position of it is live.
fn is_live_in(far: &Far, id: SetId, position: u32) -> bool
    requires sound { (s : Shown) × AwaySound s far.now }
    ensures { result ≡ live_in far.now id.n position }
{
    match far.sets.committed(id.n) {
        Some(set) => position < set.k() && set.live_at(position),
        None => false,
    }
}
