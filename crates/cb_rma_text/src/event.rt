//! An event from the words of its line.

ghost use Rattle.std.specs.Prelude.{◌≡◌, ◌↔◌, ◌<◌, ◌∷◌, [], IfOk, IsTrue};
ghost use Rattle.hex.specs.Hex.{encode_lower};
ghost use Rattle.cb_script.specs.Cut.{texts};
ghost use Rattle.cb_script.specs.Found.{Finds};
ghost use Rattle.cb_rma_text.specs.Form.{IsRow, IsInForm};
ghost use Rattle.cb_rma_text.specs.Reading.{HasRowLength};
ghost use Rattle.cb_rma_text.specs.Spelling.{step_words, step_line};

use crate::verb::{numbered, verb_of};
use cb_rma::{Order, Step};
use cb_script::{is_word, number_of, spelled_bytes, words_into};
use cb_types::{Bytes, NoMemory};
use std::alloc::Global;

/// An event's line has at the most so many words.
const MOST_WORDS: usize = 4;

/// The longest row has so many digits: two for each of 4,096 bytes.
const MOST_DIGITS: usize = 8192;

/// The event that a line of this text is, where it is one.
pub(crate) fn event_of(alloc: Global, text: &[u8]) -> Result<Option<Step>, NoMemory>
    ensures { IfOk result (λ found. Finds found (λ event.
        IsInForm event × (text.now ≡ step_line event))) }
{
    let mut places = [b"".as_slice(); MOST_WORDS];
    match words_into(text, &mut places) {
        Some(count) => event_of_words(alloc, &places[..count]),
        None => Ok(None),
    }
}

/// The event that these words spell.
fn event_of_words(alloc: Global, words: &[&[u8]]) -> Result<Option<Step>, NoMemory>
    ensures { IfOk result (λ found. Finds found (λ event.
        IsInForm event × (texts words.now ≡ step_words event))) }
{
    match words {
        [verb] => Ok(alone(verb)),
        [verb, number] => Ok(with_number(verb, number)),
        [verb, key, row] => with_row(alloc, verb, key, row),
        [verb, key, c, row] => with_scaled_row(alloc, verb, key, c, row),
        _ => Ok(None),
    }
}

/// The event of a verb that stands alone.
fn alone(verb: &[u8]) -> Option<Step>
    ensures { Finds result (λ event. IsInForm event × (verb.now ∷ [] ≡ step_words event)) }
{
    if is_word(verb, b"restart") {
        return Some(Step::Restart);
    }
    None
}

/// The event of a verb and a number.
fn with_number(verb: &[u8], number: &[u8]) -> Option<Step>
    ensures { Finds result (λ event.
        IsInForm event × (verb.now ∷ number.now ∷ [] ≡ step_words event)) }
{
    let verb = verb_of(verb)?;
    let number = number_of(number)?;
    Some(numbered(verb, u64::from(number)))
}

/// The event of a verb, a key and a row.
fn with_row(alloc: Global, verb: &[u8], key: &[u8], row: &[u8]) -> Result<Option<Step>, NoMemory>
    ensures { IfOk result (λ found. Finds found (λ event.
        IsInForm event × (verb.now ∷ key.now ∷ row.now ∷ [] ≡ step_words event))) }
{
    if !is_word(verb, b"put") {
        return Ok(None);
    }
    let Some(key) = number_of(key) else {
        return Ok(None);
    };
    let Some(row) = row_of(alloc, row)? else {
        return Ok(None);
    };
    let key = u64::from(key);
    Ok(Some(Step::Submit {
        order: Order::Put { key, row },
    }))
}

/// The event of a verb, a key, a factor and a row.
fn with_scaled_row(
    alloc: Global,
    verb: &[u8],
    key: &[u8],
    c: &[u8],
    row: &[u8],
) -> Result<Option<Step>, NoMemory>
    ensures { IfOk result (λ found. Finds found (λ event.
        IsInForm event × (verb.now ∷ key.now ∷ c.now ∷ row.now ∷ [] ≡ step_words event))) }
{
    if !is_word(verb, b"add") {
        return Ok(None);
    }
    let Some(key) = number_of(key) else {
        return Ok(None);
    };
    let Some(c) = factor_of(alloc, c)? else {
        return Ok(None);
    };
    let Some(row) = row_of(alloc, row)? else {
        return Ok(None);
    };
    let key = u64::from(key);
    Ok(Some(Step::Submit {
        order: Order::Add { key, c, row },
    }))
}

/// The byte that two digits spell.
fn factor_of(alloc: Global, text: &[u8]) -> Result<Option<u8>, NoMemory>
    ensures { IfOk result (λ found. Finds found (λ c.
        (c < 256) × (text.now ≡ encode_lower (c ∷ [])))) }
{
    if text.len() != 2 {
        return Ok(None);
    }
    match spelled_bytes(alloc, text)? {
        Some(bytes) => Ok(Some(bytes.as_slice()[0])),
        None => Ok(None),
    }
}

/// The row of 1 to 4,096 bytes that these digits spell.
fn row_of(alloc: Global, text: &[u8]) -> Result<Option<Bytes>, NoMemory>
    ensures { IfOk result (λ found. Finds found (λ row.
        IsRow row × (text.now ≡ encode_lower row))) }
{
    if !has_row_length(text) {
        return Ok(None);
    }
    spelled_bytes(alloc, text)
}

/// Whether a row may have so many digits.
fn has_row_length(text: &[u8]) -> bool
    ensures { IsTrue result ↔ HasRowLength text.now }
{
    !text.is_empty() && text.len() <= MOST_DIGITS && text.len() % 2 == 0
}
