//! The header of an input to scrub.

ghost use Rattle.std.specs.Prelude.{◌≡◌, ◌<◌, ◌≤◌, ◌^◌};
ghost use Rattle.cb_script.specs.Cut.{texts};
ghost use Rattle.cb_script.specs.Found.{Finds};
ghost use Rattle.cb_script.specs.Spelling.{setting};
ghost use Rattle.cb_scrub_text.specs.Form.{AreSizes, header_words, header_line};

use cb_script::{is_word, setting_of, words_into};

/// A header has so many words.
const HEADER_WORDS: usize = 4;

/// The greatest number of data rows.
const MOST_DATA: u32 = 16;

/// The greatest number of parities.
const MOST_PARITIES: u32 = 4;

/// How many rows a header tells.
#[derive(Clone, Copy)]
pub(crate) struct Sizes {
    /// Data rows.
    pub(crate) k: u32,
    /// Parities.
    pub(crate) r: u32,
}

/// The sizes that a header of this text tells, where they are in their ranges.
pub(crate) fn header_of(text: &[u8]) -> Option<Sizes>
    ensures { Finds result (λ s. AreSizes s.k s.r × (text.now ≡ header_line s.k s.r)) }
{
    let mut places = [b"".as_slice(); HEADER_WORDS];
    let count = words_into(text, &mut places)?;
    sizes_of(&places[..count])
}

/// The sizes that the words of a header tell.
fn sizes_of(words: &[&[u8]]) -> Option<Sizes>
    ensures { Finds result (λ s. AreSizes s.k s.r × (texts words.now ≡ header_words s.k s.r)) }
{
    let [scrub, version, k, r] = words else {
        return None;
    };
    if !is_word(scrub, b"scrub") {
        return None;
    }
    if !is_word(version, b"1") {
        return None;
    }
    let k = size_of(k, b"k", MOST_DATA)?;
    let r = size_of(r, b"r", MOST_PARITIES)?;
    Some(Sizes { k, r })
}

/// The number from 1 to the greatest one that is set under this name.
fn size_of(word: &[u8], name: &[u8], most: u32) -> Option<u32>
    requires { most < 10 ^ 9 }
    ensures { Finds result (λ n. (1 ≤ n) × (n ≤ most) × (word.now ≡ setting name.now n)) }
{
    let n = setting_of(word, name)?;
    if n < 1 {
        return None;
    }
    if n > most {
        return None;
    }
    Some(n)
}
