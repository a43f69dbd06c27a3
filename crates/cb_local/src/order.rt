//! The order to patch parities, and the same when it was run.

ghost use Rattle.std.specs.Prelude.{◌≡◌};
ghost use Rattle.cb_local.specs.Delta.{HasItsParities};

use cb_gf256::Rows;
use cb_types::Positions;
use std::marker::Model;

/// The parities of a span-set that are still to be patched, where other rows take the places of
/// some of its data rows.
#[derive(Drop)]
pub struct DeltaOrder {
    /// The number of the set.
    pub set: u64,
    /// The data positions where other rows are taken, in order.
    pub taken: Positions,
    /// The set's rows there, one for each of these positions.
    pub old: Rows,
    /// The rows that take their places.
    pub new: Rows,
    /// The set's parities.
    pub parities: Rows,
    /// How many data rows the set has.
    pub k: u32,
    /// How many parities.
    pub r: u32,
}

/// An order that was run, with the patched parities. No other parities stand beside an order.
#[derive(Drop)]
pub struct DeltaDone {
    order: DeltaOrder,
    parities: Rows,
}

impl Model for DeltaDone {
    ghost use Rattle.cb_local.specs.Delta.{DoneState, HasItsParities};

    ghost Value = { DoneState };

    ghost view = { λ d. record { order = d.order; parities = d.parities } };

    ghost invariant = { λ d. HasItsParities d.order d.parities };
}

impl DeltaDone {
    /// The order and its patched parities.
    pub(crate) fn of(order: DeltaOrder, parities: Rows) -> DeltaDone
        requires { HasItsParities order parities }
        ensures { result ≡ record { order = order; parities = parities } }
    {
        DeltaDone { order, parities }
    }

    /// The order that was run.
    pub fn order(&self) -> &DeltaOrder
        ensures { result.now ≡ self.now.order }
    {
        &self.order
    }

    /// The parities of the set with the new rows in their places.
    pub fn parities(&self) -> &Rows
        ensures rows { result.now ≡ self.now.parities }
        ensures done { HasItsParities self.now.order result.now }
    {
        &self.parities
    }
}
