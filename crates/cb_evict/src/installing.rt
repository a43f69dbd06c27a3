//! Parities that were made outside are given to the batch that waits for them.

ghost use Rattle.std.specs.Prelude.{◌≡◌, ◌*◌, None, Some, length};
ghost use Rattle.cb_gf256.specs.Rows.{HaveLength};
ghost use Rattle.cb_types.specs.declared.order.Kept.TheVariants.{Encode};
ghost use Rattle.cb_world.specs.declared.shown.Shown.{Shown};
ghost use Rattle.cb_world.specs.FarState.{FarState};
ghost use Rattle.cb_world.specs.Leaving.{LeavingState};
ghost use Rattle.cb_world.specs.Orders.{IsEncodeKept, KeepsOrder};
ghost use Rattle.cb_world.specs.Sound.{Sound};
ghost use Rattle.cb_evict.specs.InstallRule.{Installs, InstallStep, kept_behind, order_done, with_made, with_parities};

use crate::beginning::leaving_set;
use cb_orders::EncodeDone;
use cb_types::{Reply, Rows, SetId};
use cb_world::{Far, Leaving};

/// Gives the batch that is leaving the parities of an order that was run, in the memory that the
/// gather took.
///
/// Answers NoOrder where there is no order; NoBatch where no batch is leaving; Changed with the
/// order's set where the batch that is leaving has another number; and else Done. A refusal changes
/// nothing. Where a ship has made the parities already they stay the same, since data rows have one
/// list of parities. Looks at no object; takes no memory.
pub fn install(far: &mut Far, done: Option<&EncodeDone>) -> Reply
    requires kept { (s : Shown) × Sound s far.old × KeepsOrder s far.old (order_done done) }
    ensures installed { InstallStep far.old far.new result (order_done done.entry)
        (kept_behind result (order_done done.entry)) }
    ensures sound { (s : Shown) → Sound s far.old → KeepsOrder s far.old (order_done done.entry)
        → Sound s far.new }
{
    match done {
        Some(done) => install_done(far, done),
        None => Reply::NoOrder,
    }
}

/// Gives the batch that is leaving these parities, in the room that it has.
fn set_parities(batch: &mut Leaving, parities: &Rows)
    requires count { length parities.now ≡ length batch.old.parities }
    requires lengths { HaveLength (4096 * batch.old.pages) parities.now }
    ensures { batch.new ≡ with_parities batch.old parities.now }
{
    batch.parities.install(parities);
}

/// The same, where a batch is leaving.
fn give_parities(far: &mut Far, parities: &Rows)
    requires fit { (batch : LeavingState) × (far.old.leaving ≡ Some batch)
        × (length parities.now ≡ length batch.parities)
        × HaveLength (4096 * batch.pages) parities.now }
    ensures { (batch : LeavingState) → far.old.leaving ≡ Some batch
        → far.new ≡ with_made far.old batch parities.now }
{
    if let Some(batch) = &mut far.leaving {
        set_parities(batch, parities);
    }
}

/// Gives the batch that is leaving the parities of an order that was run, where it is the order's.
fn install_done(far: &mut Far, done: &EncodeDone) -> Reply
    requires kept { (s : Shown) × Sound s far.old × IsEncodeKept s far.old done.now.order }
    ensures installed { Installs far.old far.new result done.now.order
        (kept_behind result (Some (Encode done.now.order))) }
    ensures sound { (s : Shown) → Sound s far.old → IsEncodeKept s far.old done.now.order
        → Sound s far.new }
{
    let order = done.order();
    let set = order.set;
    let Some(leaving) = leaving_set(&far.leaving) else {
        return Reply::NoBatch;
    };
    if leaving.n != set {
        return Reply::Changed {
            set: SetId { n: set },
        };
    }
    let parities = done.parities();
    // That all rows hold bytes is what a proof reads here.
    let _ = order.rows.row_len();
    let _ = parities.row_len();
    give_parities(far, parities);
    Reply::Done
}
