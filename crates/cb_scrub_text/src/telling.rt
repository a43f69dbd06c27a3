//! The texts that tell what was found.
ghost use Rattle.std.specs.Prelude.{◌≡◌, ◌∷◌, ◌++◌, [], IfOk, OnOk};
ghost use Rattle.hex.specs.Hex.{encode_lower};
ghost use Rattle.cb_scrub_text.specs.Form.{IsAsked};
ghost use Rattle.cb_scrub_text.specs.Verdicts.{FindsAndTells, mended_text, many_text, refusal_text};

use crate::asked::Asked;
use cb_gf256::Rows;
use cb_scrub::{Found, examine, mend};
use cb_types::{Bytes, NoMemory};
use std::alloc::Global;

/// The text that tells what the rows are, with all rows where one of them was made right.
pub(crate) fn told_of(alloc: Global, asked: Asked) -> Result<Bytes, NoMemory>
    requires { IsAsked asked }
    ensures { IfOk result (FindsAndTells asked) }
{
    let Asked { k: _, r, mut rows } = asked;
    match examine(r, &rows) {
        Found::Clean => Ok(Bytes::from(Vec::from_slice(alloc, b"clean\n")?)),
        Found::One { position } => {
            mend(&mut rows, position);
            mended_text(alloc, position, &rows)
        }
        Found::Many { power, column, sum } => many_text(alloc, power, column, sum),
    }
}

/// Tells that the row at the position was made right, and all rows.
fn mended_text(alloc: Global, position: u32, rows: &Rows) -> Result<Bytes, NoMemory>
    ensures { IfOk result (λ text. text ≡ mended_text position rows.now) }
{
    let mut text = format!(in alloc; "mended {position}\n")?.into_bytes();
    for i in 0..rows.count() {
        push_row(alloc, &mut text, rows.row(i))?;
    }
    Ok(Bytes::from(text))
}

/// Adds a row in lower-case hexadecimal and a line feed at the end.
fn push_row(alloc: Global, text: &mut Vec<u8>, row: &[u8]) -> Result<(), NoMemory>
    ensures { OnOk result (text.new.items ≡ text.old.items ++ (encode_lower row.now ++ 10 ∷ [])) }
{
    text.extend_from_slice(hex::encode(alloc, row)?.as_bytes())?;
    text.push(b'\n')?;
    Ok(())
}

/// Tells the first syndrome that is not 0, where no one row can be told to be wrong.
fn many_text(alloc: Global, power: u32, column: u32, sum: u8) -> Result<Bytes, NoMemory>
    ensures { IfOk result (λ text. text ≡ many_text power column sum) }
{
    let mut text = format!(in alloc; "many {power} {column} ")?.into_bytes();
    push_row(alloc, &mut text, &[sum])?;
    Ok(Bytes::from(text))
}

/// The text that refuses an input, with its first line that is outside the form.
pub(crate) fn refusal_text(alloc: Global, line: u32) -> Result<Bytes, NoMemory>
    ensures { IfOk result (λ text. text ≡ refusal_text line) }
{
    let text = format!(in alloc; "scrub line {line} refused\n")?;
    Ok(Bytes::from(text.into_bytes()))
}
