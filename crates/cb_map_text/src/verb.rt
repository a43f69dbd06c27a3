//! The verbs of commands.

ghost use Rattle.std.specs.Prelude.{◌≡◌};
ghost use Rattle.cb_script.specs.Found.{Finds};
ghost use Rattle.cb_map_text.specs.Verbs.{verb_word, pair_verb_word, numbered, paired};

use crate::command::FarCommand;
use cb_script::is_word;

/// A verb in front of one number.
#[derive(Clone, Copy)]
pub(crate) enum Verb {
    Push,
    Get,
    Look,
    Drop,
}

/// A verb in front of two numbers.
#[derive(Clone, Copy)]
pub(crate) enum PairVerb {
    Set,
    Put,
}

/// The verb that the word is, in front of a number.
pub(crate) fn verb_of(word: &[u8]) -> Option<Verb>
    ensures { Finds result (λ verb. word.now ≡ verb_word verb) }
{
    if is_word(word, b"push") {
        return Some(Verb::Push);
    }
    if is_word(word, b"get") {
        return Some(Verb::Get);
    }
    if is_word(word, b"look") {
        return Some(Verb::Look);
    }
    if is_word(word, b"drop") {
        return Some(Verb::Drop);
    }
    None
}

/// The verb that the word is, in front of two numbers.
pub(crate) fn pair_verb_of(word: &[u8]) -> Option<PairVerb>
    ensures { Finds result (λ verb. word.now ≡ pair_verb_word verb) }
{
    if is_word(word, b"set") {
        return Some(PairVerb::Set);
    }
    if is_word(word, b"put") {
        return Some(PairVerb::Put);
    }
    None
}

/// The command of a verb and its number.
pub(crate) fn numbered(verb: Verb, n: u32) -> FarCommand
    ensures { result ≡ numbered verb n }
{
    match verb {
        Verb::Push => FarCommand::Push { x: u64::from(n) },
        Verb::Get => FarCommand::Get { i: n },
        Verb::Look => FarCommand::Look { key: u64::from(n) },
        Verb::Drop => FarCommand::Drop { key: u64::from(n) },
    }
}

/// The command of a verb and its two numbers.
pub(crate) fn paired(verb: PairVerb, first: u32, second: u32) -> FarCommand
    ensures { result ≡ paired verb first second }
{
    match verb {
        PairVerb::Set => FarCommand::Set {
            i: first,
            x: u64::from(second),
        },
        PairVerb::Put => FarCommand::Put {
            key: u64::from(first),
            x: u64::from(second),
        },
    }
}
