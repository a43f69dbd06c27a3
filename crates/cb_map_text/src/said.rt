//! What is said to commands, as text.

ghost use Rattle.std.specs.Prelude.{◌≡◌, ◌∷◌, ◌++◌, [], decimal, IfOk, OnOk};
ghost use Rattle.cb_map_text.specs.Texts.{refusal_text, reply_words, said_line, said_text};

use crate::command::FarAnswer;
use cb_text::reply::push_reply;
use cb_text::word::push_number;
use cb_types::{Bytes, NoMemory, Reply};
use itoa::Buffer;
use std::alloc::Global;

/// The text of what was said to commands, a line each. It takes the memory of the text.
pub fn saids_text(alloc: Global, saids: &[FarAnswer]) -> Result<Bytes, NoMemory>
    ensures text { IfOk result (λ text. text ≡ said_text saids.now) }
{
    let mut text = Vec::new(alloc);
    for said in saids {
        push_line(&mut text, said)?;
    }
    Ok(Bytes::from(text))
}

/// The text that tells which line is outside the form. It takes the memory of the text.
pub fn line_refused_text(alloc: Global, line: u32) -> Result<Bytes, NoMemory>
    ensures text { IfOk result (λ text. text ≡ refusal_text line) }
{
    let text = format!(in alloc; "map line {line} refused\n")?;
    Ok(Bytes::from(text.into_bytes()))
}

/// Adds what was said and a line feed at the end.
fn push_line(text: &mut Vec<u8>, said: &FarAnswer) -> Result<(), NoMemory>
    ensures { OnOk result (text.new.items
        ≡ text.old.items ++ (said_line said.now ++ 10 ∷ [])) }
{
    push_said(text, said)?;
    text.push(b'\n')?;
    Ok(())
}

/// Adds what was said at the end.
fn push_said(text: &mut Vec<u8>, said: &FarAnswer) -> Result<(), NoMemory>
    ensures { OnOk result (text.new.items ≡ text.old.items ++ said_line said.now) }
{
    match said {
        FarAnswer::Done => push_text(text, b"ok"),
        FarAnswer::Number { n } => push_digits(text, *n),
        FarAnswer::Nothing => push_text(text, b"none"),
        FarAnswer::Outside { len } => push_outside(text, *len),
        FarAnswer::Refused { reply } => push_refused(text, reply),
    }
}

/// Adds that an index is outside an array of this length.
fn push_outside(text: &mut Vec<u8>, len: u32) -> Result<(), NoMemory>
    ensures { OnOk result (text.new.items ≡ text.old.items ++ said_line (FarAnswer.Outside len)) }
{
    push_text(text, b"outside")?;
    push_number(text, u64::from(len))
}

/// Adds the words of a reply, with no space in front of the first.
fn push_refused(text: &mut Vec<u8>, reply: &Reply) -> Result<(), NoMemory>
    ensures { OnOk result (text.new.items ≡ text.old.items ++ reply_words reply.now) }
{
    let before = text.len();
    push_reply(text, reply)?;
    text.remove(before);
    Ok(())
}

/// Adds a number at the end.
fn push_digits(text: &mut Vec<u8>, n: u64) -> Result<(), NoMemory>
    ensures { OnOk result (text.new.items ≡ text.old.items ++ decimal n) }
{
    push_text(text, Buffer::new().format(n).as_bytes())
}

/// Adds a word at the end.
fn push_text(text: &mut Vec<u8>, word: &[u8]) -> Result<(), NoMemory>
    ensures { OnOk result (text.new.items ≡ text.old.items ++ word.now) }
{
    text.extend_from_slice(word)?;
    Ok(())
}
