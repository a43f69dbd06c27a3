//! Orders that were run, with the rows that they made.

ghost use Rattle.std.specs.Prelude.{◌≡◌, length};
ghost use Rattle.cb_gf256.specs.Rows.{row_at};
ghost use Rattle.cb_orders.specs.Done.{IsDecoded, IsEncoded, IsOfWord};

use cb_gf256::Rows;
use cb_types::{DecodeOrder, EncodeOrder};
use std::marker::Model;

/// An encode order that was run, with its parities. No other rows stand beside an order.
#[derive(Drop)]
pub struct EncodeDone {
    order: EncodeOrder,
    parities: Rows,
}

impl Model for EncodeDone {
    ghost use Rattle.cb_orders.specs.Done.{EncodeDoneState, IsEncoded};

    ghost Value = { EncodeDoneState };

    ghost view = { λ d. record { order = d.order; parities = d.parities } };

    ghost invariant = { λ d. IsEncoded d.order d.parities };
}

impl EncodeDone {
    /// The order and its parities.
    pub(crate) fn of(order: EncodeOrder, parities: Rows) -> EncodeDone
        requires { IsEncoded order parities }
        ensures { result ≡ record { order = order; parities = parities } }
    {
        EncodeDone { order, parities }
    }

    /// The order that was run.
    pub fn order(&self) -> &EncodeOrder
        ensures { result.now ≡ self.now.order }
    {
        &self.order
    }

    /// The parities of the order's rows, as many as its code has and as long as its rows.
    pub fn parities(&self) -> &Rows
        ensures rows { result.now ≡ self.now.parities }
        ensures done { IsEncoded self.now.order result.now }
    {
        &self.parities
    }

    /// The order alone, as it was before it was run.
    pub fn into_order(self) -> EncodeOrder
        ensures { result ≡ self.order }
    {
        let EncodeDone { order, .. } = self;
        order
    }
}

/// A decode order that was run, with its row. No other row stands beside an order.
#[derive(Drop)]
pub struct DecodeDone {
    order: DecodeOrder,
    // One row, the one at the order's position.
    made: Rows,
}

impl Model for DecodeDone {
    ghost use Rattle.std.specs.Prelude.{◌≡◌, length};
    ghost use Rattle.cb_gf256.specs.Rows.{row_at};
    ghost use Rattle.cb_orders.specs.Done.{DecodeDoneState, IsDecoded, IsOfWord};

    ghost Value = { DecodeDoneState };

    ghost view = { λ d. record { order = d.order; row = row_at d.made 0 } };

    ghost invariant = { λ d. (length d.made ≡ 1) × IsDecoded d.order (row_at d.made 0)
        × IsOfWord d.order (row_at d.made 0) };
}

impl DecodeDone {
    /// The order and its row, the only one of a table.
    pub(crate) fn of(order: DecodeOrder, made: Rows) -> DecodeDone
        requires count { length made ≡ 1 }
        requires row { IsDecoded order (row_at made 0) }
        requires word { IsOfWord order (row_at made 0) }
        ensures { result ≡ record { order = order; row = row_at made 0 } }
    {
        DecodeDone { order, made }
    }

    /// The order that was run.
    pub fn order(&self) -> &DecodeOrder
        ensures { result.now ≡ self.now.order }
    {
        &self.order
    }

    /// The row at the order's position, of the one code word that agrees with the order's rows.
    pub fn row(&self) -> &[u8]
        ensures row { result.now ≡ self.now.row }
        ensures done { IsDecoded self.now.order result.now }
        ensures word { IsOfWord self.now.order result.now }
    {
        self.made.row(0)
    }

    /// The order alone, as it was before it was run.
    pub fn into_order(self) -> DecodeOrder
        ensures { result ≡ self.order }
    {
        let DecodeDone { order, .. } = self;
        order
    }
}
