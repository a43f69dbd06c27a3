//! Words and numbers, each after a space.

ghost use Rattle.std.specs.Prelude.{◌≡◌, ◌≤◌, ◌++◌, OnOk, decimal, length};
ghost use Rattle.std.specs.Io.{StartsWith};
ghost use Rattle.hex.specs.Hex.{encode_lower};
ghost use Rattle.cb_text.specs.Line.{spaced, word_and_number, version_text};

use cb_types::NoMemory;
use itoa::Buffer;

/// Adds a space and a word at the end.
pub fn push_word(text: &mut Vec<u8>, word: &[u8]) -> Result<(), NoMemory>
    ensures text { OnOk result (text.new.items ≡ text.old.items ++ spaced word.now) }
    ensures kept { StartsWith text.new.items text.old.items }
{
    text.push(b' ')?;
    text.extend_from_slice(word)?;
    Ok(())
}

/// Adds a space and a number at the end. Where memory lacks the text still begins with what it was.
pub fn push_number(text: &mut Vec<u8>, number: u64) -> Result<(), NoMemory>
    ensures text { OnOk result (text.new.items ≡ text.old.items ++ spaced (decimal number)) }
    ensures kept { StartsWith text.new.items text.old.items }
{
    push_word(text, Buffer::new().format(number).as_bytes())
}

/// Adds a word and a number at the end, each after a space.
pub fn push_counted(text: &mut Vec<u8>, word: &[u8], number: u64) -> Result<(), NoMemory>
    ensures text { OnOk result
        (text.new.items ≡ text.old.items ++ word_and_number word.now number) }
    ensures kept { StartsWith text.new.items text.old.items }
{
    push_word(text, word)?;
    push_number(text, number)
}

/// Adds a space and a version at the end.
pub fn push_version(text: &mut Vec<u8>, version: u64) -> Result<(), NoMemory>
    ensures text { OnOk result (text.new.items ≡ text.old.items ++ spaced (version_text version)) }
    ensures kept { StartsWith text.new.items text.old.items }
{
    text.extend_from_slice(b" v")?;
    text.extend_from_slice(Buffer::new().format(version).as_bytes())?;
    Ok(())
}

/// Adds a space and bytes in lower-case hexadecimal at the end. Where memory lacks the text still
/// begins with what it was.
pub fn push_hexadecimal(text: &mut Vec<u8>, bytes: &[u8]) -> Result<(), NoMemory>
    ensures text { OnOk result (text.new.items
        ≡ text.old.items ++ spaced (encode_lower bytes.now)) }
    ensures kept { StartsWith text.new.items text.old.items }
{
    text.push(b' ')?;
    push_digits(text, bytes)
}

/// So many bytes get their digits at once.
const PIECE: usize = 64;

/// Adds two digits for each byte, the high one first.
fn push_digits(text: &mut Vec<u8>, bytes: &[u8]) -> Result<(), NoMemory>
    ensures text { OnOk result (text.new.items ≡ text.old.items ++ encode_lower bytes.now) }
    ensures kept { StartsWith text.new.items text.old.items }
{
    let mut rest = bytes;
    while !rest.is_empty() {
        let (piece, behind) = rest.split_at(PIECE.min(rest.len()));
        push_piece(text, piece)?;
        rest = behind;
    }
    Ok(())
}

/// Adds two digits for each byte of a piece.
fn push_piece(text: &mut Vec<u8>, piece: &[u8]) -> Result<(), NoMemory>
    requires { length piece.now ≤ PIECE }
    ensures text { OnOk result (text.new.items ≡ text.old.items ++ encode_lower piece.now) }
    ensures kept { StartsWith text.new.items text.old.items }
{
    let mut places = [0; 2 * PIECE];
    let digits = &mut places[..2 * piece.len()];
    // There is just the room, so it never fails.
    let _filled = hex::encode_to_slice(piece, digits);
    text.extend_from_slice(digits)?;
    Ok(())
}
