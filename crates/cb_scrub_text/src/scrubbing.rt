//! Rows from their bytes to the text of what was found.

ghost use Rattle.std.specs.Prelude.{◌≡◌, ◌⊎◌, ℕ, List, Ok, IsErr, IfOk};
ghost use Rattle.cb_scrub_text.specs.Verdicts.{IsVerdict, Yields, Refuses};

use crate::reading::{Reading, reading_of};
use crate::telling::{refusal_text, told_of};
use cb_cli::{Pieces, Verdict};
use cb_types::NoMemory;
use std::alloc::Global;

/// Examines the rows that the bytes spell, and tells what was found: that they are a code word, the
/// one row that was wrong and all rows with that one made right, or the first syndrome that is not
/// 0. Other bytes are refused, with the first line that is outside the form. The only error is out
/// of memory.
pub fn scrub_bytes(alloc: Global, bytes: &[u8]) -> Result<Verdict, NoMemory>
    ensures verdict { IfOk result (IsVerdict bytes.now) }
    ensures yields { (text : List ℕ) → Yields bytes.now text
        → (result ≡ Ok (Verdict.Done text)) ⊎ IsErr result }
    ensures refused { (text : List ℕ) → Refuses bytes.now text
        → (result ≡ Ok (Verdict.Refused text)) ⊎ IsErr result }
{
    judge(alloc, bytes)
}

fn judge(alloc: Global, bytes: &[u8]) -> Result<Verdict, NoMemory>
    ensures { IfOk result (IsVerdict bytes.now) }
{
    match reading_of(alloc, bytes)? {
        Reading::Read(asked) => {
            let text = told_of(alloc, asked)?;
            Ok(Verdict::Done(Pieces::one(alloc, text)))
        }
        Reading::Bad { line } => Ok(Verdict::Refused(refusal_text(alloc, line)?)),
    }
}
