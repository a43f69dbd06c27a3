//! Hexadecimal digits.

ghost use Rattle.std.specs.Prelude.{◌≡◌, ◌<◌, ◌%◌, length, slice_index, All, IfOk, MatchOption};
ghost use Rattle.hex.specs.Hex.{encode_lower, lower_digits};
ghost use Rattle.cb_script.specs.Hexadecimal.{IsLowerDigit};

use cb_types::{Bytes, NoMemory};
use std::alloc::Global;

/// The value of each lower-case hexadecimal digit, at the place of its byte. It is 16 for the other
/// bytes.
static VALUES: [u8; 256] = [
    16, 16, 16, 16, 16, 16, 16, 16, 16, 16, 16, 16, 16, 16, 16, 16, 16, 16, 16, 16, 16, 16, 16, 16,
    16, 16, 16, 16, 16, 16, 16, 16, 16, 16, 16, 16, 16, 16, 16, 16, 16, 16, 16, 16, 16, 16, 16, 16,
    0, 1, 2, 3, 4, 5, 6, 7, 8, 9, 16, 16, 16, 16, 16, 16, 16, 16, 16, 16, 16, 16, 16, 16, 16, 16,
    16, 16, 16, 16, 16, 16, 16, 16, 16, 16, 16, 16, 16, 16, 16, 16, 16, 16, 16, 16, 16, 16, 16, 10,
    11, 12, 13, 14, 15, 16, 16, 16, 16, 16, 16, 16, 16, 16, 16, 16, 16, 16, 16, 16, 16, 16, 16, 16,
    16, 16, 16, 16, 16, 16, 16, 16, 16, 16, 16, 16, 16, 16, 16, 16, 16, 16, 16, 16, 16, 16, 16, 16,
    16, 16, 16, 16, 16, 16, 16, 16, 16, 16, 16, 16, 16, 16, 16, 16, 16, 16, 16, 16, 16, 16, 16, 16,
    16, 16, 16, 16, 16, 16, 16, 16, 16, 16, 16, 16, 16, 16, 16, 16, 16, 16, 16, 16, 16, 16, 16, 16,
    16, 16, 16, 16, 16, 16, 16, 16, 16, 16, 16, 16, 16, 16, 16, 16, 16, 16, 16, 16, 16, 16, 16, 16,
    16, 16, 16, 16, 16, 16, 16, 16, 16, 16, 16, 16, 16, 16, 16, 16, 16, 16, 16, 16, 16, 16, 16, 16,
    16, 16, 16, 16, 16, 16, 16, 16, 16, 16, 16, 16, 16, 16,
];

/// The bytes that an even number of lower-case hexadecimal digits spell, and None where one of the
/// bytes of the text is no such digit.
pub fn spelled_bytes(alloc: Global, text: &[u8]) -> Result<Option<Bytes>, NoMemory>
    requires even { length text.now % 2 ≡ 0 }
    ensures { IfOk result (λ found. MatchOption found (All IsLowerDigit text.now → ⊥)
        (λ bytes. All (λ b. b < 256) bytes × (text.now ≡ encode_lower bytes))) }
{
    let count = text.len() / 2;
    let mut bytes = Vec::with_capacity(alloc, count)?;
    for i in 0..count {
        let high = value_of(text[2 * i]);
        let low = value_of(text[2 * i + 1]);
        if high > 15 || low > 15 {
            return Ok(None);
        }
        bytes.push(high * 16 + low)?;
    }
    Ok(Some(Bytes::from(bytes)))
}

/// The value of a lower-case hexadecimal digit, and more than 15 for every other byte.
fn value_of(digit: u8) -> u8
    ensures digit { result < 16 → slice_index lower_digits result ≡ digit }
    ensures value { IsLowerDigit digit → result < 16 }
{
    VALUES[digit as usize]
}
