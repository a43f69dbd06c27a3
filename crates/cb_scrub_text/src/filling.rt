//! Rows that are read from lines, one after the other.
ghost use Rattle.std.specs.Prelude.{◌≡◌, ℕ, ◌<◌, ◌≤◌, length, IfOk};
ghost use Rattle.cb_gf256.specs.Rows.{HaveLength, HoldBytes};
ghost use Rattle.cb_script.specs.Spelling.{lines_of};
ghost use Rattle.cb_scrub_text.specs.Reading.{AreRowsFilled, IsReadInto};

use cb_gf256::Rows;
use cb_script::{first_line, spelled_bytes};
use cb_types::NoMemory;
use std::alloc::Global;

/// Reads all rows from the lines of a text, which has no other lines. Else it answers at which row
/// it stopped: its line is missing or spells no row of as many bytes, or there is a line after the
/// last row.
pub(crate) fn fill_rows(
    alloc: Global,
    rows: &mut Rows,
    text: &[u8],
) -> Result<Option<u32>, NoMemory>
    requires { length rows.old ≤ 20 }
    ensures { (len : ℕ) → HaveLength len rows.old → HoldBytes rows.old → IfOk result
        (AreRowsFilled len (length rows.old) (lines_of text.now) rows.new) }
{
    let count = rows.count();
    let mut rest = text;
    for i in 0..count {
        if rest.is_empty() {
            return Ok(Some(i));
        }
        let (line, behind) = first_line(rest);
        if !read_row(alloc, rows, i, line)? {
            return Ok(Some(i));
        }
        rest = behind;
    }
    if rest.is_empty() {
        return Ok(None);
    }
    Ok(Some(count))
}

/// Reads a row from its text, in lower-case hexadecimal. Answers whether the text spells a row of
/// as many bytes.
fn read_row(alloc: Global, rows: &mut Rows, i: u32, text: &[u8]) -> Result<bool, NoMemory>
    requires { i < length rows.old }
    ensures count { length rows.new ≡ length rows.old }
    ensures read { (len : ℕ) → HaveLength len rows.old → IfOk result
        (IsReadInto len rows.old i text.now rows.new) }
{
    let len = rows.row_len() as usize;
    if text.len() != 2 * len {
        return Ok(false);
    }
    match spelled_bytes(alloc, text)? {
        Some(bytes) => {
            rows.row_mut(i).copy_from_slice(bytes.as_slice());
            Ok(true)
        }
        None => Ok(false),
    }
}
