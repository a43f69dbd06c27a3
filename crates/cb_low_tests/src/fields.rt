//! The field against the long product, and rows and nodes.

ghost use Rattle.std.specs.Prelude.{◌≤◌};

use cb_delta::{delta, patch};
use cb_gf256::{NoMemory, Rows, add, axpy_row, inv, mul, pow};
use cb_kernel::{axpy, xor};
use std::alloc::Global;

/// The product by its definition: the plain product bit by bit, then reduced from bit 14 down to
/// bit 8.
fn long_product(a: u8, b: u8) -> u32 {
    let mut product = 0u32;
    for i in 0..8u32 {
        if (b >> i) & 1 == 1 {
            product ^= u32::from(a) << i;
        }
    }
    for i in (8..15u32).rev() {
        if (product >> i) & 1 == 1 {
            product ^= 0x11D << (i - 8);
        }
    }
    product
}

#[test]
fn each_product_is_the_long_one(rt: HostRuntime) {
    for a in 0..=255u8 {
        for b in 0..=255u8 {
            assert!(rt; u32::from(mul(a, b)) == long_product(a, b));
        }
    }
}

// The powers are those that QR codes use (ISO/IEC 18004).
#[test]
fn elements_are_those_of_the_standard(rt: HostRuntime) {
    for (a, n, power) in [
        (2, 0, 0x01),
        (2, 8, 0x1D),
        (2, 9, 0x3A),
        (2, 10, 0x74),
        (2, 12, 0xCD),
        (2, 25, 0x03),
        (2, 50, 0x05),
        (2, 254, 0x8E),
        (2, 255, 0x01),
        (2, 4_294_967_295, 0x01),
        (0, 0, 1),
        (0, 1, 0),
        (0, 255, 0),
        (0xFF, 0, 1),
        (3, 2, 5),
    ] {
        assert!(rt; pow(a, n) == power, "{a} to the power {n}");
    }
    for (a, inverse) in [(0x01, 0x01), (0x02, 0x8E), (0x03, 0xF4)] {
        assert!(rt; inv(a) == inverse, "the inverse of {a}");
    }
    assert!(rt; add(0x0E, 0x08) == 0x06);
}

/// Whether one row of two is what was written to it, and the other is zero.
#[tactic(auto, using(cb_gf256::proofs::PublicLaws::written_rows))]
fn row_is_written(alloc: Global) -> Result<bool, NoMemory> {
    let mut rows = Rows::new(alloc, 2, 2)?;
    axpy_row(rows.row_mut(1), 0x02, &[0x80, 0x01]);
    Ok(rows.row(0) == [0, 0].as_slice() && rows.row(1) == [0x1D, 0x02].as_slice())
}

#[test]
fn rows_are_zero_until_written(rt: HostRuntime) {
    assert!(rt; matches!(row_is_written(rt.alloc()), Ok(true)));
}

// The code with two data rows and two parities, by hand: row 1 becomes 01 where it was 00, so the
// parities C8 and C9 of the rows 01 and 00 become C8 + 8F = 47 and C9 + 8E = 47.
#[test]
fn patched_parities_are_those_of_the_new_rows(rt: HostRuntime) {
    let mut change = [0xFFu8; 33];
    delta(&[0x00; 33], &[0x01; 33], &mut change);
    assert!(rt; change == [0x01; 33]);
    let mut parity = [0xC8u8; 33];
    patch(&mut parity, 0x8F, &change);
    assert!(rt; parity == [0x47; 33]);
    let mut other = [0xC9u8; 33];
    patch(&mut other, 0x8E, &change);
    assert!(rt; other == [0x47; 33]);
}

/// The next number of a sequence that looks random (Marsaglia 2003).
fn next_drawn(seed: u64) -> u64 {
    let a = seed ^ (seed << 13);
    let b = a ^ (a >> 7);
    b ^ (b << 17)
}

/// Bytes that look random.
fn varied_bytes() -> [u8; 4301] {
    let mut bytes = [0; 4301];
    let mut seed = 88_172_645_463_325_252u64;
    for byte in bytes.iter_mut() {
        seed = next_drawn(seed);
        *byte = (seed >> 56) as u8;
    }
    bytes
}

/// Whether each byte of a row is the plain sum of two others, the second one times the factor.
fn is_plain_sum(sum: &[u8], start: &[u8], factor: u8, src: &[u8]) -> bool {
    for ((total, x), y) in sum.iter().zip(start.iter()).zip(src.iter()) {
        if *total != *x ^ mul(factor, *y) {
            return false;
        }
    }
    true
}

/// Whether the sums of two rows that begin at odd places of these bytes are the plain ones: the
/// second row comes to the first c times, and then once more.
fn sums_are_plain(bytes: &[u8; 4301], c: u8, len: usize) -> bool
    requires { len ≤ 4097 }
{
    let src = &bytes[1..1 + len];
    let start = &bytes[131..131 + len];
    let mut buffer = *bytes;
    let dst = &mut buffer[131..131 + len];
    axpy(dst, c, src);
    let is_first_plain = is_plain_sum(dst, start, c, src);
    xor(dst, src);
    is_first_plain && is_plain_sum(dst, start, c ^ 1, src)
}

#[test]
fn sums_are_the_plain_ones_for_each_length(rt: HostRuntime) {
    let bytes = varied_bytes();
    for len in 0..=100usize {
        assert!(rt; sums_are_plain(&bytes, len as u8, len), "{len}");
    }
    for len in 4095..=4097usize {
        assert!(rt; sums_are_plain(&bytes, 0xC8, len), "{len}");
    }
}
