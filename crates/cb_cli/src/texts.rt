//! The texts of answers and of refusals, a line each.

ghost use Rattle.std.specs.Prelude.{◌≡◌, ◌++◌, IfOk};
ghost use Rattle.std.specs.List.{AllByRecursion};
ghost use Rattle.cb_types.specs.Table.{IsReplyOf};
ghost use Rattle.cb_text.specs.Line.{text_of};
ghost use Rattle.cb_cli.specs.Texts.{fault_text, check_text, given_line};

use crate::lanes::different_lanes;
use cb_script::{Reason, Script};
use cb_text::push_line;
use cb_types::{Answer, Answers, Bytes, NoMemory, Reply};
use std::alloc::Global;

/// What is put where the words of the command line are refused.
pub const WORDS_REFUSED: &[u8] = b"words refused\n";

/// So many bytes are enough for most lines, beside the bytes that they show.
const LINE: usize = 64;

/// The text of answers, a line each. Each reply is one that its line may have.
pub fn answers_text(alloc: Global, answers: &Answers) -> Result<Bytes, NoMemory>
    requires { AllByRecursion (λ a. IsReplyOf a.request a.reply) answers.now }
    ensures { IfOk result (λ text. text ≡ text_of answers.now) }
{
    Ok(Bytes::from(lines_text(alloc, answers.as_slice())?))
}

fn lines_text(alloc: Global, answers: &[Answer]) -> Result<Vec<u8>, NoMemory>
    requires { AllByRecursion (λ a. IsReplyOf a.request a.reply) answers.now }
    ensures { IfOk result (λ text. text.items ≡ text_of answers.now) }
{
    let mut text = Vec::with_capacity(alloc, room_for(answers))?;
    for answer in answers {
        push_line(&mut text, answer.lane, &answer.request, &answer.reply)?;
    }
    Ok(text)
}

/// About how many bytes the lines of these answers have, so that their memory is asked for at once.
fn room_for(answers: &[Answer]) -> usize {
    let mut room: usize = 0;
    for answer in answers {
        let shown = match &answer.reply {
            Reply::Bytes { bytes, .. } => bytes.len(),
            _ => 0,
        };
        room = room
            .saturating_add(LINE)
            .saturating_add(shown.saturating_mul(2));
    }
    room
}

/// The text, and after it a line that tells how many rows the nodes gave out.
pub fn with_given(alloc: Global, text: Bytes, given: u64) -> Result<Bytes, NoMemory>
    ensures { IfOk result (λ longer. longer ≡ text ++ given_line given) }
{
    let line = format!(in alloc; "given {given}\n")?;
    let mut longer = text.into_vec();
    longer.extend_from_slice(line.as_bytes())?;
    Ok(Bytes::from(longer))
}

/// The text that tells what is wrong with a script.
pub fn script_fault_text(alloc: Global, line: u32, reason: Reason) -> Result<Bytes, NoMemory>
    ensures { IfOk result (λ text. text ≡ fault_text line reason) }
{
    let number = reason.number();
    let word = reason.word();
    let text = format!(in alloc; "script line {line} reason {number} {word}\n")?;
    Ok(Bytes::from(text.into_bytes()))
}

/// The text that tells that a script was read, and how many lines and lanes it has.
pub fn script_ok_text(alloc: Global, script: &Script) -> Result<Bytes, NoMemory>
    ensures { IfOk result (λ text. text ≡ check_text script.now) }
{
    let lines = script.lines.as_slice();
    let count = lines.len();
    let lanes = different_lanes(lines);
    let text = format!(in alloc; "script ok lines {count} lanes {lanes}\n")?;
    Ok(Bytes::from(text.into_bytes()))
}
