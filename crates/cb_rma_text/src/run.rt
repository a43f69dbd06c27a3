//! A schedule from its bytes to the text of what is said.

ghost use Rattle.std.specs.Prelude.{◌≡◌, ◌≤◌, ◌⊎◌, ℕ, List, length, Ok, IfOk, IsErr};
ghost use Rattle.cb_rma.specs.Schedule.{start, replies};
ghost use Rattle.cb_rma_text.specs.Form.{IsWindow};
ghost use Rattle.cb_rma_text.specs.Texts.{said_text};
ghost use Rattle.cb_rma_text.specs.Verdicts.{IsVerdict, Refuses, Yields};

use crate::read::{Fault, Schedule, schedule_of};
use crate::said::{line_refused_text, saids_text};
use cb_cli::{Pieces, Verdict};
use cb_rma::run_schedule;
use cb_types::{Bytes, NoMemory};
use std::alloc::Global;

/// What is made of bytes: the text of all that is said to the schedule that they spell, or the text
/// that tells the first line outside the form. It takes memory for the schedule, for its messages
/// and rows, and for the text. The only error is out of memory.
pub fn rma_bytes(alloc: Global, bytes: &[u8]) -> Result<Verdict, NoMemory>
    ensures verdict { IfOk result (IsVerdict bytes.now) }
    ensures yields { (text : List ℕ) → Yields bytes.now text
        → (result ≡ Ok (Verdict.Done text)) ⊎ IsErr result }
    ensures refused { (text : List ℕ) → Refuses bytes.now text
        → (result ≡ Ok (Verdict.Refused text)) ⊎ IsErr result }
{
    judge(alloc, bytes)
}

fn judge(alloc: Global, bytes: &[u8]) -> Result<Verdict, NoMemory>
    ensures { IfOk result (IsVerdict bytes.now) }
{
    match schedule_of(alloc, bytes) {
        Ok(schedule) => {
            let text = answers_text(alloc, &schedule)?;
            Ok(Verdict::Done(Pieces::one(alloc, text)))
        }
        Err(Fault::Line { line }) => Ok(Verdict::Refused(line_refused_text(alloc, line)?)),
        Err(Fault::NoMemory) => Err(NoMemory),
    }
}

/// The text of what is said to each event of a schedule.
fn answers_text(alloc: Global, schedule: &Schedule) -> Result<Bytes, NoMemory>
    requires window { IsWindow schedule.now.window }
    requires few { length schedule.now.events.items ≤ 20000 }
    ensures { IfOk result (λ text. text
        ≡ said_text (replies (start schedule.now.window) schedule.now.events.items)) }
{
    let ended = run_schedule(alloc, schedule.window, schedule.events.as_slice())?;
    saids_text(alloc, ended.said.as_slice())
}
