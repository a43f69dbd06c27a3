//! Lagrange's factors of a row in another one.

ghost use Rattle.std.specs.Prelude.{◌<◌, length, All, slice_index};
ghost use Rattle.std.specs.Prelude.{◌≡◌};
ghost use Rattle.std.specs.List.Sorted.{IsStrictlyIncreasing};
ghost use Rattle.cb_gf256.specs.Product.{◌⊗◌};
ghost use Rattle.cb_gf256.specs.Power.{power};
ghost use Rattle.cb_gf256.specs.Lagrange.{differences, points, IsLagrangeFactor};

use crate::field::{add, inv, mul};
use crate::tables::power_of_two;

/// The inverse of what each factor in the row at `lost[e]` is divided by: of the product, over the
/// other lost positions m, of 2^lost[e] - 2^m.
pub fn own_inverse(lost: &[u8], e: usize) -> u8
    requires ascending { IsStrictlyIncreasing lost.now }
    requires below { All (λ m. m < 255) lost.now }
    requires within { e < length lost.now }
    ensures { differences (length lost.now) (points (λ m. slice_index lost.now m)) e
        (power 2 (slice_index lost.now e)) ⊗ result ≡ 1 }
{
    inv(product_of_differences(lost, e, power_of_two(usize::from(lost[e]))))
}

/// The factor of the row at position `p` in the row at `lost[e]`, where the rows at the positions
/// `lost` are restored from all others, by the inverse that all factors in that row share.
/// It is Lagrange's: the product, over the other lost positions m, of (2^p - 2^m) / (2^lost[e] -
/// 2^m).
pub fn factor_by(lost: &[u8], e: usize, own_inverse: u8, p: u8) -> u8
    requires inverse { differences (length lost.now) (points (λ m. slice_index lost.now m)) e
        (power 2 (slice_index lost.now e)) ⊗ own_inverse ≡ 1 }
    ensures { IsLagrangeFactor (length lost.now) (λ m. slice_index lost.now m) e p result }
{
    let here = product_of_differences(lost, e, power_of_two(usize::from(p)));
    mul(here, own_inverse)
}

/// The product of `x` less the points 2^m, over all lost positions m but `lost[e]`.
fn product_of_differences(lost: &[u8], e: usize, x: u8) -> u8
    ensures { result ≡ differences (length lost.now) (points (λ m. slice_index lost.now m)) e x }
{
    let mut product = 1;
    for (m, position) in lost.iter().enumerate() {
        if m != e {
            product = mul(product, add(x, power_of_two(usize::from(*position))));
        }
    }
    product
}
