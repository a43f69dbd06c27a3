//! The header of a schedule.

ghost use Rattle.std.specs.Prelude.{◌≡◌, ◌↔◌, codes, IsTrue};
ghost use Rattle.cb_script.specs.Cut.{texts};
ghost use Rattle.cb_script.specs.Found.{Finds};
ghost use Rattle.cb_script.specs.Spelling.{setting};
ghost use Rattle.cb_rma_text.specs.Form.{IsWindow};
ghost use Rattle.cb_rma_text.specs.Spelling.{window_words, window_line};

use cb_script::{is_word, setting_of, words_into};

/// A header has so many words.
const HEADER_WORDS: usize = 3;

/// No window has room for more orders.
const MOST_WAITING: u32 = 64;

/// The window that a header of this text sets.
pub(crate) fn window_of(text: &[u8]) -> Option<u32>
    ensures { Finds result (λ window. IsWindow window × (text.now ≡ window_line window)) }
{
    let mut places = [b"".as_slice(); HEADER_WORDS];
    let count = words_into(text, &mut places)?;
    window_of_words(&places[..count])
}

/// The window that the words of a header set.
fn window_of_words(words: &[&[u8]]) -> Option<u32>
    ensures { Finds result (λ window.
        IsWindow window × (texts words.now ≡ window_words window)) }
{
    let [rma, version, window] = words else {
        return None;
    };
    if !is_word(rma, b"rma") || !is_word(version, b"1") {
        return None;
    }
    window_set(window)
}

/// The window that this word sets.
fn window_set(word: &[u8]) -> Option<u32>
    ensures { Finds result (λ window.
        IsWindow window × (word.now ≡ setting (codes "window") window)) }
{
    let window = setting_of(word, b"window")?;
    if !is_window(window) {
        return None;
    }
    Some(window)
}

/// Whether a window may have room for so many orders.
fn is_window(window: u32) -> bool
    ensures { IsTrue result ↔ IsWindow window }
{
    window >= 1 && window <= MOST_WAITING
}
