//! An order to make parities is run.

ghost use Rattle.std.specs.Prelude.{◌≡◌, ℕ, List, IfErr, IfOk};
ghost use Rattle.cb_gf256.specs.Rows.{HoldBytes};
ghost use Rattle.cb_orders.specs.Done.{IsEncoded};
ghost use Rattle.cb_types.specs.Orders.{IsEncodable};

use crate::done::EncodeDone;
use cb_code::{coefficients, encode};
use cb_gf256::{NoMemory, Rows};
use cb_types::EncodeOrder;
use std::alloc::Global;

/// The parities of an order's rows. The only error is out of memory.
fn encoded(alloc: Global, order: &EncodeOrder) -> Result<Rows, NoMemory>
    requires { IsEncodable order.now }
    ensures done { IfOk result (IsEncoded order.now) }
    ensures only { IfOk result (λ parities. (others : List (List ℕ)) → HoldBytes others
        → IsEncoded order.now others → others ≡ parities) }
{
    encode(alloc, &coefficients(order.k, order.r), &order.rows)
}

/// Runs an order: makes the parities that are a code word after its rows, the only ones that are.
/// It takes memory for these, r rows; where there is none, the order is handed back as it was.
pub fn run_encode(alloc: Global, order: EncodeOrder) -> Result<EncodeDone, EncodeOrder>
    requires { IsEncodable order }
    ensures order { IfOk result (λ done. done.order ≡ order) }
    ensures done { IfOk result (λ done. IsEncoded order done.parities) }
    ensures only { IfOk result (λ done. (others : List (List ℕ)) → HoldBytes others
        → IsEncoded order others → others ≡ done.parities) }
    ensures back { IfErr result (λ kept. kept ≡ order) }
{
    match encoded(alloc, &order) {
        Ok(parities) => Ok(EncodeDone::of(order, parities)),
        Err(NoMemory) => Err(order),
    }
}
