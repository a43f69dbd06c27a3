//! Sum, product, inverse and power in the field.

ghost use Rattle.std.specs.Prelude.{◌≡◌, ◌<◌};
ghost use Rattle.cb_gf256.specs.Sum.{◌⊕◌};
ghost use Rattle.cb_gf256.specs.Product.{◌⊗◌};
ghost use Rattle.cb_gf256.specs.Power.{power};

use crate::tables::{logarithm, power_of_two, power_of_two_times};

/// The sum of two elements. Each element is its own negative, so this is their difference too.
pub fn add(a: u8, b: u8) -> u8
    ensures { result ≡ a ⊕ b }
{
    a ^ b
}

/// The product of two elements.
pub fn mul(a: u8, b: u8) -> u8
    ensures { result ≡ a ⊗ b }
{
    if a == 0 {
        return 0;
    }
    power_of_two_times(logarithm(a), b)
}

/// The one element whose product with `a` is 1.
pub fn inv(a: u8) -> u8
    requires { 0 < a }
    ensures { a ⊗ result ≡ 1 }
{
    power_of_two(255 - logarithm(a))
}

/// `a` to the power `n`, and 1 where `n` is 0.
pub fn pow(a: u8, n: u32) -> u8
    ensures { result ≡ power a n }
{
    if n == 0 {
        return 1;
    }
    if a == 0 {
        return 0;
    }
    power_of_two(logarithm(a) * n as usize % 255)
}
