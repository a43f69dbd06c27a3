//! The verbs of events.

ghost use Rattle.std.specs.Prelude.{◌≡◌};
ghost use Rattle.cb_script.specs.Found.{Finds};
ghost use Rattle.cb_rma_text.specs.Verbs.{verb_word, numbered};

use cb_rma::{Order, Step};
use cb_script::is_word;

/// A verb in front of one number.
#[derive(Clone, Copy)]
pub(crate) enum Verb {
    Drop,
    Send,
    Ask,
    Ack,
    Show,
}

/// The verb that the word is, in front of a number.
pub(crate) fn verb_of(word: &[u8]) -> Option<Verb>
    ensures { Finds result (λ verb. word.now ≡ verb_word verb) }
{
    if is_word(word, b"drop") {
        return Some(Verb::Drop);
    }
    if is_word(word, b"send") {
        return Some(Verb::Send);
    }
    if is_word(word, b"ask") {
        return Some(Verb::Ask);
    }
    if is_word(word, b"ack") {
        return Some(Verb::Ack);
    }
    if is_word(word, b"show") {
        return Some(Verb::Show);
    }
    None
}

/// The event of a verb and its number.
pub(crate) fn numbered(verb: Verb, n: u64) -> Step
    ensures { result ≡ numbered verb n }
{
    match verb {
        Verb::Drop => Step::Submit {
            order: Order::Drop { key: n },
        },
        Verb::Send => Step::Send { number: n },
        Verb::Ask => Step::Ask { packet: n },
        Verb::Ack => Step::Ack { packet: n },
        Verb::Show => Step::Show { key: n },
    }
}
