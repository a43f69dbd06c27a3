//! An order is run: its parities are patched by the deltas of its rows.

ghost use Rattle.std.specs.Prelude.{◌≡◌, ◌<◌, All, IfErr, IfOk, length};
ghost use Rattle.cb_gf256.specs.Rows.{HaveLength};
ghost use Rattle.cb_code.specs.Coefficients.{AreCoefficients};
ghost use Rattle.cb_local.specs.Delta.{ArePatched, HasItsParities, IsOrder, width};
ghost use Rattle.cb_local.specs.Adding.{IsDeltaAdded};
ghost use Rattle.cb_local.specs.Words.{AreMergedParities};

use crate::order::{DeltaDone, DeltaOrder};
use cb_code::{Coeffs, coefficient_laws, coefficients};
use cb_delta::{delta, patch};
use cb_gf256::{NoMemory, Rows};
use std::alloc::Global;

/// Adds to each parity the delta of the data row at a position, times its coefficient there.
fn add_delta(parities: &mut Rows, table: &Coeffs, position: u32, delta: &[u8])
    requires count { length parities.old ≡ length table.now }
    requires wide { HaveLength (length delta.now) parities.old }
    requires position { All (λ row. position < length row) table.now }
    ensures { IsDeltaAdded table.now position delta.now parities.old parities.new }
{
    for parity in 0..parities.count() {
        patch(parities.row_mut(parity), table.at(parity, position), delta);
    }
}

/// Adds the deltas of all taken positions to the order's parities, each of which is made in
/// `change`.
fn add_deltas(parities: &mut Rows, table: &Coeffs, order: &DeltaOrder, change: &mut [u8])
    requires order { IsOrder order.now }
    requires table { AreCoefficients order.now.k order.now.r table.now }
    requires parities { parities.old ≡ order.now.parities }
    requires room { length change.old ≡ width order.now }
    ensures { ArePatched table.now order.now parities.new }
{
    let taken = order.taken.as_slice();
    for i in 0..taken.len() {
        delta(order.old.row(i as u32), order.new.row(i as u32), change);
        add_delta(parities, table, u32::from(taken[i]), change);
    }
}

/// The order's parities with all deltas added. The only error is out of memory.
fn patched(alloc: Global, order: &DeltaOrder) -> Result<Rows, NoMemory>
    requires { IsOrder order.now }
    ensures done { IfOk result (HasItsParities order.now) }
    ensures merged { IfOk result (AreMergedParities order.now) }
{
    coefficient_laws();
    let table = coefficients(order.k, order.r);
    let mut change = Rows::new(alloc, 1, order.parities.row_len())?;
    let mut parities = order.parities.copy(alloc)?;
    add_deltas(&mut parities, &table, order, change.row_mut(0));
    Ok(parities)
}

/// Runs an order: its parities are patched by the deltas of all taken positions, each the sum of
/// the old and the new row there. Where the order's rows are those of two sets, the patched
/// parities are those of the merged set. Where there is no memory, the order is handed back.
pub fn run_delta(alloc: Global, order: DeltaOrder) -> Result<DeltaDone, DeltaOrder>
    requires { IsOrder order }
    ensures order { IfOk result (λ done. done.order ≡ order) }
    ensures done { IfOk result (λ done. HasItsParities order done.parities) }
    ensures merged { IfOk result (λ done. AreMergedParities order done.parities) }
    ensures back { IfErr result (λ kept. kept ≡ order) }
{
    match patched(alloc, &order) {
        Ok(parities) => Ok(DeltaDone::of(order, parities)),
        Err(NoMemory) => Err(order),
    }
}
