//! Products of one constant with many bytes at once.
ghost use Rattle.std.specs.Prelude.{◌≡◌, ℕ, slice_index};
ghost use Rattle.cb_gf256.specs.Product.{◌⊗◌};
ghost use Rattle.cb_gf256.specs.Lanes.{AreLanes, HasLanes};

use crate::lanes::{
    add_blocks, add_halves, at_high_halves, at_low_halves, doubled, masked, table_at,
};
use std::marker::Model;
use std::simd::prelude::*;

/// A constant, kept as its products with the sixteen low halves of a byte, 0 to 15, and with the
/// sixteen high halves, 0 to 240. Its product with a byte is the sum of two of them.
#[derive(Clone, Copy, Debug)]
pub struct Products {
    halves: [u8; 32],
}

impl Model for Products {
    ghost use Rattle.std.specs.Prelude.{ℕ, slice_index};
    ghost use Rattle.std.proofs.Common.{sym};
    ghost use Rattle.cb_gf256.specs.Halves.{AreHalfProducts, half_products};

    ghost Value = { ℕ };

    ghost view = { λ p. slice_index p.halves 1 };

    ghost invariant = { λ p. AreHalfProducts (slice_index p.halves 1) p.halves };

    ghost inverse = { λ c. record { halves = half_products c } };

    ghost inverse_ok = { λ a h. λ i. record { halves = sym h.products i } };
}

/// The values of a byte's low half, and then those of its high half.
const HALVES: [u8; 32] = [
    0, 1, 2, 3, 4, 5, 6, 7, 8, 9, 10, 11, 12, 13, 14, 15, 0, 16, 32, 48, 64, 80, 96, 112, 128, 144,
    160, 176, 192, 208, 224, 240,
];

impl Products {
    /// The constant `c`. Its products are made over lanes, by doublings.
    pub fn of(c: u8) -> Products
        ensures { result ≡ c }
    {
        let halves = multiplied(c, u8x32::from_array(HALVES)).to_array();
        Products { halves }
    }

    /// The constant.
    pub fn factor(&self) -> u8
        ensures { result ≡ self.now }
    {
        self.halves[1]
    }

    /// The constant times the byte `x`: two look-ups.
    pub fn times(&self, x: u8) -> u8
        ensures { result ≡ self.now ⊗ x }
    {
        self.halves[(x & 15) as usize] ^ self.halves[16 + (x >> 4) as usize]
    }

    /// The constant times each byte of a block: two look-ups for all of them.
    #[inline(always)]
    pub fn times_block(&self, block: u8x64) -> u8x64
        ensures { HasLanes result (λ l. self.now ⊗ slice_index block l) }
    {
        let low = table_at(&self.halves, 0);
        let high = table_at(&self.halves, 16);
        add_blocks(at_low_halves(low, block), at_high_halves(high, block))
    }
}

/// `c` times each byte of a list of 32: the sum of the doublings that the bits of `c` name.
fn multiplied(c: u8, bytes: u8x32) -> u8x32
    ensures { AreLanes 32 result (λ l. c ⊗ slice_index bytes l) }
{
    let mut sum = u8x32::splat(0);
    let mut doubling = bytes;
    for bit in 0..8u32 {
        let mask = ((c >> bit) & 1) * 255;
        sum = add_halves(sum, masked(doubling, mask));
        doubling = doubled(doubling);
    }
    sum
}
