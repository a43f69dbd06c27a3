//! The verbs of lines.

ghost use Rattle.std.specs.Prelude.{◌≡◌, ◌↔◌, IsTrue};
ghost use Rattle.cb_script.specs.Found.{Finds};
ghost use Rattle.cb_script.specs.Phrase.{name_verb, node_verb, bare_verb};

/// A verb in front of a name.
#[derive(Clone, Copy)]
pub(crate) enum NameVerb {
    Read,
    Free,
    Pin,
    Peek,
    Unpin,
    Filter,
}

/// A verb in front of a node.
#[derive(Clone, Copy)]
pub(crate) enum NodeVerb {
    Crash,
    Join,
}

/// A verb that stands alone.
#[derive(Clone, Copy)]
pub(crate) enum BareVerb {
    Leave,
    Evict,
    Begin,
    Ship,
    Commit,
    Abort,
    Pair,
    Patch,
    Merge,
    Part,
    Compact,
    Rebuild,
}

/// The verb that the word is, in front of a name.
pub(crate) fn name_verb_of(word: &[u8]) -> Option<NameVerb>
    ensures { Finds result (λ verb. word.now ≡ name_verb verb) }
{
    if is_word(word, b"read") {
        return Some(NameVerb::Read);
    }
    if is_word(word, b"free") {
        return Some(NameVerb::Free);
    }
    if is_word(word, b"pin") {
        return Some(NameVerb::Pin);
    }
    if is_word(word, b"peek") {
        return Some(NameVerb::Peek);
    }
    if is_word(word, b"unpin") {
        return Some(NameVerb::Unpin);
    }
    if is_word(word, b"filter") {
        return Some(NameVerb::Filter);
    }
    None
}

/// The verb that the word is, in front of a node.
pub(crate) fn node_verb_of(word: &[u8]) -> Option<NodeVerb>
    ensures { Finds result (λ verb. word.now ≡ node_verb verb) }
{
    if is_word(word, b"crash") {
        return Some(NodeVerb::Crash);
    }
    if is_word(word, b"join") {
        return Some(NodeVerb::Join);
    }
    None
}

/// The verb that the word is, where it stands alone.
pub(crate) fn bare_verb_of(word: &[u8]) -> Option<BareVerb>
    ensures { Finds result (λ verb. word.now ≡ bare_verb verb) }
{
    if is_word(word, b"leave") {
        return Some(BareVerb::Leave);
    }
    if is_word(word, b"evict") {
        return Some(BareVerb::Evict);
    }
    if is_word(word, b"begin") {
        return Some(BareVerb::Begin);
    }
    if is_word(word, b"ship") {
        return Some(BareVerb::Ship);
    }
    if is_word(word, b"commit") {
        return Some(BareVerb::Commit);
    }
    if is_word(word, b"abort") {
        return Some(BareVerb::Abort);
    }
    if is_word(word, b"pair") {
        return Some(BareVerb::Pair);
    }
    if is_word(word, b"patch") {
        return Some(BareVerb::Patch);
    }
    if is_word(word, b"merge") {
        return Some(BareVerb::Merge);
    }
    if is_word(word, b"part") {
        return Some(BareVerb::Part);
    }
    if is_word(word, b"compact") {
        return Some(BareVerb::Compact);
    }
    if is_word(word, b"rebuild") {
        return Some(BareVerb::Rebuild);
    }
    None
}

/// Whether the word is this one.
pub fn is_word(word: &[u8], wanted: &[u8]) -> bool
    ensures { IsTrue result ↔ (word.now ≡ wanted.now) }
{
    word == wanted
}
