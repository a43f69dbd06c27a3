//! An input to scrub is read.

ghost use Rattle.std.specs.Prelude.{IfOk};
ghost use Rattle.cb_script.specs.Spelling.{lines_of};
ghost use Rattle.cb_scrub_text.specs.Form.{AreSizes};
ghost use Rattle.cb_scrub_text.specs.Reading.{IsReading, AreRowsRead};

use crate::asked::Asked;
use crate::filling::fill_rows;
use crate::header::{Sizes, header_of};
use cb_gf256::Rows;
use cb_script::first_line;
use cb_types::NoMemory;
use std::alloc::Global;

/// The longest input has so many bytes.
const LONGEST_INPUT: usize = 1_048_576;

/// The longest row has so many bytes.
const LONGEST_ROW: usize = 4096;

/// What was read of bytes.
#[derive(Drop)]
pub(crate) enum Reading {
    /// They spell this.
    Read(Asked),
    /// They are outside the form, and this is their first line that is. It is 0 where there are too
    /// many bytes.
    Bad { line: u32 },
}

/// Reads what the bytes spell, or tells the first line that is outside the form.
pub(crate) fn reading_of(alloc: Global, bytes: &[u8]) -> Result<Reading, NoMemory>
    ensures { IfOk result (IsReading bytes.now) }
{
    if bytes.len() > LONGEST_INPUT {
        return Ok(Reading::Bad { line: 0 });
    }
    if bytes.is_empty() {
        return Ok(Reading::Bad { line: 1 });
    }
    let (header, text) = first_line(bytes);
    match header_of(header) {
        Some(sizes) => rows_behind(alloc, sizes, text),
        None => Ok(Reading::Bad { line: 1 }),
    }
}

/// Reads the rows of a text after a header of these sizes.
fn rows_behind(alloc: Global, sizes: Sizes, text: &[u8]) -> Result<Reading, NoMemory>
    requires { AreSizes sizes.k sizes.r }
    ensures { IfOk result (AreRowsRead sizes.k sizes.r (lines_of text.now)) }
{
    if text.is_empty() {
        return Ok(Reading::Bad { line: 2 });
    }
    let (first, _) = first_line(text);
    let len = first.len() / 2;
    if len < 1 {
        return Ok(Reading::Bad { line: 2 });
    }
    if len > LONGEST_ROW {
        return Ok(Reading::Bad { line: 2 });
    }
    let Ok(mut rows) = Rows::new(alloc, sizes.k + sizes.r, len as u32) else {
        return Err(NoMemory);
    };
    match fill_rows(alloc, &mut rows, text)? {
        Some(row) => Ok(Reading::Bad { line: row + 2 }),
        None => Ok(Reading::Read(Asked {
            k: sizes.k,
            r: sizes.r,
            rows,
        })),
    }
}
