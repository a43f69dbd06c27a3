//! A line of a script, cut into words.

ghost use Rattle.std.specs.Prelude.{◌≡◌, ◌+◌, ◌<◌, ◌∷◌, ◌++◌, [], List, length, IfOk, MatchBool};
ghost use Rattle.std.specs.List.{AllByRecursion};
ghost use Rattle.cb_script.specs.declared.script.Line.{Line};
ghost use Rattle.cb_script.specs.Cut.{texts, phrase};
ghost use Rattle.cb_script.specs.Reading.{ReadsAs, ComesNext, HasNames, IsLeastLane, line_place};
ghost use Rattle.cb_script.specs.Rules.{IsLeast, RuleHolds};

use crate::cut::words_into;
use crate::fault::{Reason, Refusal};
use crate::known::Names;
use crate::number::lane_of;
use crate::phrase::phrase_of;
use crate::request::{Limits, request_of};
use crate::script::Line;
use std::alloc::Global;

/// A line has at the most so many words.
const MOST_WORDS: usize = 5;

/// The line of this text and number, where it may stand after the lines before it: its lane is not
/// below the least. The names are those that were made on the lines before, and then on this line
/// too.
pub(crate) fn line_of<'a>(
    alloc: Global,
    names: &mut Names,
    limits: Limits,
    least_lane: u8,
    number: u32,
    text: &'a [u8],
) -> Result<Line, Refusal>
    ensures line { (before : List Line) → HasNames names.old before → IsLeastLane before least_lane
        → number ≡ length before + 2 → length before < 20000 → ReadsAs result
        (ComesNext (line_place limits before) text.entry.now)
        (IsLeast (RuleHolds (line_place limits before) text.entry.now)) }
    ensures names { (before : List Line) → HasNames names.old before
        → IfOk result (λ l. HasNames names.new (before ++ l ∷ [])) }
{
    let mut places = [b"".as_slice(); MOST_WORDS];
    let Some(count) = words_into(text, &mut places) else {
        return Err(Refusal::Broken(Reason::Shape));
    };
    let words = &places[..count];
    if has_empty(words) {
        return Err(Refusal::Broken(Reason::Shape));
    }
    let Some((lane, words)) = words.split_first() else {
        return Err(Refusal::Broken(Reason::Shape));
    };
    let Some(words) = phrase_of(words) else {
        return Err(Refusal::Broken(Reason::Shape));
    };
    let Some(lane) = lane_of(lane, least_lane) else {
        return Err(Refusal::Broken(Reason::Lane));
    };
    let request = request_of(alloc, names, limits, lane, words)?;
    Ok(Line {
        lane,
        line: number,
        request,
    })
}

/// Whether one of the words is empty.
fn has_empty(words: &[&[u8]]) -> bool
    ensures { MatchBool result
        (AllByRecursion (λ word. 0 < length word) (texts words.now) → ⊥)
        (AllByRecursion (λ word. 0 < length word) (texts words.now)) }
{
    words.iter().any(|word| word.is_empty())
}
