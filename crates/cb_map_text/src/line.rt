//! A command from the words of its line.

ghost use Rattle.std.specs.Prelude.{◌≡◌, ◌∷◌, []};
ghost use Rattle.cb_script.specs.Cut.{texts};
ghost use Rattle.cb_script.specs.Found.{Finds};
ghost use Rattle.cb_map_text.specs.Form.{IsInForm};
ghost use Rattle.cb_map_text.specs.Spelling.{command_words, command_line};

use crate::command::FarCommand;
use crate::verb::{numbered, pair_verb_of, paired, verb_of};
use cb_script::{is_word, number_of, words_into};

/// A command's line has at the most so many words.
const MOST_WORDS: usize = 3;

/// The command that a line of this text is, where it is one.
pub(crate) fn command_of(text: &[u8]) -> Option<FarCommand>
    ensures { Finds result (λ command. IsInForm command × (text.now ≡ command_line command)) }
{
    let mut places = [b"".as_slice(); MOST_WORDS];
    let count = words_into(text, &mut places)?;
    command_of_words(&places[..count])
}

/// The command that these words spell.
fn command_of_words(words: &[&[u8]]) -> Option<FarCommand>
    ensures { Finds result (λ command.
        IsInForm command × (texts words.now ≡ command_words command)) }
{
    match words {
        [verb] => alone(verb),
        [verb, number] => with_number(verb, number),
        [verb, first, second] => with_numbers(verb, first, second),
        _ => None,
    }
}

/// The command of a verb that stands alone.
fn alone(verb: &[u8]) -> Option<FarCommand>
    ensures { Finds result (λ command.
        IsInForm command × (verb.now ∷ [] ≡ command_words command)) }
{
    if is_word(verb, b"pop") {
        return Some(FarCommand::Pop);
    }
    None
}

/// The command of a verb and a number.
fn with_number(verb: &[u8], number: &[u8]) -> Option<FarCommand>
    ensures { Finds result (λ command.
        IsInForm command × (verb.now ∷ number.now ∷ [] ≡ command_words command)) }
{
    let verb = verb_of(verb)?;
    let number = number_of(number)?;
    Some(numbered(verb, number))
}

/// The command of a verb and two numbers.
fn with_numbers(verb: &[u8], first: &[u8], second: &[u8]) -> Option<FarCommand>
    ensures { Finds result (λ command.
        IsInForm command × (verb.now ∷ first.now ∷ second.now ∷ [] ≡ command_words command)) }
{
    let verb = pair_verb_of(verb)?;
    let first = number_of(first)?;
    let second = number_of(second)?;
    Some(paired(verb, first, second))
}
