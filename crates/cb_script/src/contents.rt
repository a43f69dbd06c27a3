//! The bytes of a make and of a write, from their hexadecimal digits.

ghost use Rattle.std.specs.Prelude.{◌≡◌, ◌↔◌, ◌*◌, ◌≤◌, ◌⊎◌, codes, length, IsTrue};
ghost use Rattle.hex.specs.Hex.{encode_lower};
ghost use Rattle.cb_types.specs.Config.{most_bytes};
ghost use Rattle.cb_script.specs.Form.{IsChange, IsContents};
ghost use Rattle.cb_script.specs.Hexadecimal.{IsLowerDigit, IsHexadecimal};
ghost use Rattle.cb_script.specs.Phrase.{change_text};
ghost use Rattle.cb_script.specs.Reading.{ReadsAs, HexFault};

use crate::digits::spelled_bytes;
use crate::fault::{Reason, Refusal};
use crate::verb::is_word;
use cb_types::{Bytes, MOST_BYTES};
use std::alloc::Global;

/// The longest contents have so many digits: two for each of its bytes.
const MOST_DIGITS: usize = 2 * MOST_BYTES as usize;

/// The bytes of a make: 1 to `MOST_BYTES` of them, in lower-case hexadecimal.
pub(crate) fn contents_of(alloc: Global, text: &[u8]) -> Result<Bytes, Refusal>
    ensures { ReadsAs result
        (λ bytes. IsContents bytes × (text.now ≡ encode_lower bytes))
        (HexFault (IsHexadecimal text.now) (length text.now ≤ 2 * most_bytes)) }
{
    if text.len() > MOST_DIGITS {
        // That one of them is no digit is told before that there are too many.
        if is_hexadecimal(text) {
            return Err(Refusal::Broken(Reason::Length));
        }
        return Err(Refusal::Broken(Reason::Hex));
    }
    if text.is_empty() || text.len() % 2 != 0 {
        return Err(Refusal::Broken(Reason::Hex));
    }
    match spelled_bytes(alloc, text)? {
        Some(bytes) => Ok(bytes),
        None => Err(Refusal::Broken(Reason::Hex)),
    }
}

/// The bytes of a write: 0 to `MOST_BYTES` of them, in lower-case hexadecimal, and `-` for none.
pub(crate) fn change_of(alloc: Global, text: &[u8]) -> Result<Bytes, Refusal>
    ensures { ReadsAs result
        (λ bytes. IsChange bytes × (text.now ≡ change_text bytes))
        (HexFault (IsHexadecimal text.now ⊎ (text.now ≡ codes "-")) (length text.now ≤ 2 * most_bytes)) }
{
    if is_word(text, b"-") {
        return Ok(Bytes::from(Vec::new(alloc)));
    }
    contents_of(alloc, text)
}

/// Whether the text is an even number of lower-case hexadecimal digits, at least two.
fn is_hexadecimal(text: &[u8]) -> bool
    ensures { IsTrue result ↔ IsHexadecimal text.now }
{
    !text.is_empty() && text.len() % 2 == 0 && text.iter().all(is_lower_digit)
}

fn is_lower_digit(byte: &u8) -> bool
    ensures { IsTrue result ↔ IsLowerDigit byte.now }
{
    matches!(byte, b'0'..=b'9' | b'a'..=b'f')
}
