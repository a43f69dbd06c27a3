//! What is said to events, as text.

ghost use Rattle.std.specs.Prelude.{◌≡◌, ◌∷◌, ◌++◌, [], IfOk, OnOk};
ghost use Rattle.cb_rma_text.specs.Texts.{word_then_number, handled_line, heard_line, row_line, said_line, said_text, submitted_line, refusal_text};

use cb_rma::{Handled, Heard, Said, Submitted};
use cb_text::word::{push_hexadecimal, push_number};
use cb_types::{Bytes, NoMemory};
use std::alloc::Global;

/// The text of what was said, a line each.
pub(crate) fn saids_text(alloc: Global, saids: &[Said]) -> Result<Bytes, NoMemory>
    ensures { IfOk result (λ text. text ≡ said_text saids.now) }
{
    let mut text = Vec::new(alloc);
    for said in saids {
        push_line(&mut text, said)?;
    }
    Ok(Bytes::from(text))
}

/// The text that tells which line is outside the form.
pub(crate) fn line_refused_text(alloc: Global, line: u32) -> Result<Bytes, NoMemory>
    ensures { IfOk result (λ text. text ≡ refusal_text line) }
{
    let text = format!(in alloc; "rma line {line} refused\n")?;
    Ok(Bytes::from(text.into_bytes()))
}

/// Adds what was said and a line feed at the end.
fn push_line(text: &mut Vec<u8>, said: &Said) -> Result<(), NoMemory>
    ensures { OnOk result (text.new.items
        ≡ text.old.items ++ (said_line said.now ++ 10 ∷ [])) }
{
    push_said(text, said)?;
    text.push(b'\n')?;
    Ok(())
}

/// Adds what was said at the end.
fn push_said(text: &mut Vec<u8>, said: &Said) -> Result<(), NoMemory>
    ensures { OnOk result (text.new.items ≡ text.old.items ++ said_line said.now) }
{
    match said {
        Said::Submitted(answer) => push_submitted(text, *answer),
        Said::Sent { packet } => push_told(text, b"sent", *packet),
        Said::Nothing => push_text(text, b"nothing"),
        Said::Handled(answer) => push_handled(text, *answer),
        Said::Heard(answer) => push_heard(text, *answer),
        Said::NoPacket => push_text(text, b"nopacket"),
        Said::Incarnation { n } => push_told(text, b"incarnation", *n),
        Said::Row { row } => push_row(text, row.as_slice()),
        Said::NoRow => push_text(text, b"none"),
    }
}

/// Adds what is said to an order that was submitted.
fn push_submitted(text: &mut Vec<u8>, answer: Submitted) -> Result<(), NoMemory>
    ensures { OnOk result (text.new.items ≡ text.old.items ++ submitted_line answer) }
{
    match answer {
        Submitted::Taken { number } => push_told(text, b"taken", number),
        Submitted::Window { waiting } => push_told(text, b"window", u64::from(waiting)),
    }
}

/// Adds what is said to an ask that came.
fn push_handled(text: &mut Vec<u8>, answer: Handled) -> Result<(), NoMemory>
    ensures { OnOk result (text.new.items ≡ text.old.items ++ handled_line answer) }
{
    match answer {
        Handled::Applied(ack) => push_told(text, b"applied", ack.count),
        Handled::Repeated(ack) => push_told(text, b"repeated", ack.count),
        Handled::Ahead(ack) => push_told(text, b"ahead", ack.count),
        Handled::Other { incarnation } => push_told(text, b"other", incarnation),
    }
}

/// Adds what is said to an acknowledgement that came.
fn push_heard(text: &mut Vec<u8>, answer: Heard) -> Result<(), NoMemory>
    ensures { OnOk result (text.new.items ≡ text.old.items ++ heard_line answer) }
{
    match answer {
        Heard::Fresh { count } => push_told(text, b"fresh", count),
        Heard::Old { count } => push_told(text, b"old", count),
        Heard::Beyond { count } => push_told(text, b"beyond", count),
        Heard::Other { incarnation } => push_told(text, b"other", incarnation),
    }
}

/// Adds a row in lower-case hexadecimal at the end.
fn push_row(text: &mut Vec<u8>, row: &[u8]) -> Result<(), NoMemory>
    ensures { OnOk result (text.new.items ≡ text.old.items ++ row_line row.now) }
{
    push_text(text, b"row")?;
    push_hexadecimal(text, row)
}

/// Adds a word and a number at the end, with a space between them.
fn push_told(text: &mut Vec<u8>, word: &[u8], n: u64) -> Result<(), NoMemory>
    ensures { OnOk result (text.new.items ≡ text.old.items ++ word_then_number word.now n) }
{
    push_text(text, word)?;
    push_number(text, n)
}

/// Adds a word at the end.
fn push_text(text: &mut Vec<u8>, word: &[u8]) -> Result<(), NoMemory>
    ensures { OnOk result (text.new.items ≡ text.old.items ++ word.now) }
{
    text.extend_from_slice(word)?;
    Ok(())
}
