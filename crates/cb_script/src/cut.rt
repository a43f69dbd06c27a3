//! A text is cut at a byte.

ghost use Rattle.std.specs.Prelude.{◌≡◌, ◌==◌, ◌+◌, ◌<◌, ◌≤◌, ◌∷◌, [], drop, length, take, IfSome, MatchOption};
ghost use Rattle.std.specs.List.{slice_split};
ghost use Rattle.cb_script.specs.Cut.{texts};
ghost use Rattle.cb_script.specs.Spelling.{lines_of, words_of};

use memchr::memchr;

/// Where the first of this value is, where there is one.
fn place_in(bytes: &[u8], separator: u8) -> Option<usize>
    ensures cut { MatchOption result
        (slice_split (λ b. b == separator) bytes.now ≡ bytes.now ∷ [])
        (λ i. slice_split (λ b. b == separator) bytes.now
        ≡ take i bytes.now ∷ slice_split (λ b. b == separator) (drop (i + 1) bytes.now)) }
    ensures within { IfSome result (λ i. i < length bytes.now) }
{
    memchr(separator, bytes)
}

/// The bytes before the first of this value and those after it, where there is one.
pub(crate) fn cut_at(bytes: &[u8], separator: u8) -> Option<(&[u8], &[u8])>
    ensures cut { MatchOption result
        (slice_split (λ b. b == separator) bytes.now ≡ bytes.now ∷ [])
        (λ parts. slice_split (λ b. b == separator) bytes.now
        ≡ parts.0.now ∷ slice_split (λ b. b == separator) parts.1.now) }
    ensures shorter { IfSome result (λ parts. length parts.1.now < length bytes.now) }
{
    let end = place_in(bytes, separator)?;
    Some((&bytes[..end], &bytes[end + 1..]))
}

/// The first line of a text that is not empty, and the text after its line feed.
pub fn first_line(text: &[u8]) -> (&[u8], &[u8])
    requires { 0 < length text.now }
    ensures lines { lines_of text.now ≡ result.0.now ∷ lines_of result.1.now }
    ensures shorter { length result.1.now < length text.now }
{
    match cut_at(text, b'\n') {
        Some(parts) => parts,
        None => (text, &text[text.len()..]),
    }
}

/// Puts the words of a line into these places. Answers how many there are, and None where there
/// are more than places.
pub fn words_into<'a>(text: &'a [u8], words: &mut [&'a [u8]]) -> Option<usize>
    ensures cut { MatchOption result
        (length words.old < length (words_of text.entry.now))
        (λ count. texts (take count words.new) ≡ words_of text.entry.now) }
    ensures within { IfSome result (λ count. count ≤ length words.old) }
{
    let mut rest = text;
    for (i, place) in words.iter_mut().enumerate() {
        match cut_at(rest, b' ') {
            Some((word, behind)) => {
                *place = word;
                rest = behind;
            }
            None => {
                *place = rest;
                return Some(i + 1);
            }
        }
    }
    None
}
