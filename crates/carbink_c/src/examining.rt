//! Rows in a buffer are examined for one wrong row.

ghost use Rattle.std.specs.Prelude.{◌≡◌, ◌+◌, ◌*◌, ◌<◌, length, IfOk};
ghost use Rattle.cb_gf256.specs.Block.{cut_rows};
ghost use Rattle.cb_gf256.specs.InRange.{IsInRange};
ghost use Rattle.carbink_c.specs.Status.{Ends, IsNumberOf};
ghost use Rattle.carbink_c.specs.Found.{IsOnlyFinding, TellsFound, told_found};

use crate::buffers::{rows_of, size_of_rows};
use crate::status::{Status, refused_shape};
use crate::testing::are_word;
use cb_gf256::NoMemory;
use cb_scrub::{Found, examine};
use std::alloc::Global;

/// What an examination found, as C sees it: what is not told of its kind is 0.
#[repr(C)]
#[derive(Drop)]
pub struct CarbinkFound {
    /// 0: the rows are a code word. 1: the row at `position` alone is wrong. 2: the rows are no
    /// code word, and no one row can be told to be wrong.
    pub kind: u32,
    /// Of kind 1: the wrong row.
    pub position: u32,
    /// Of kind 2: the power of the first syndrome that is not 0, in the least column.
    pub power: u32,
    /// Of kind 2: that column.
    pub column: u32,
    /// Of kind 2: that syndrome.
    pub sum: u32,
}

/// Tells what `k + r` rows of `len` bytes are, data rows and then parities: a code word, or one but
/// for one row, or neither. Where the answer is not Done, `found` stays as it is.
#[unsafe(no_mangle)]
pub extern "C" fn carbink_examine(
    alloc: Global,
    k: u32,
    r: u32,
    len: u32,
    rows: &[u8],
    found: &mut CarbinkFound,
) -> u32
    ensures { IsNumberOf (Ends k r len (length rows.now ≡ (k + r) * len) Unit
        (found.new ≡ found.old) (TellsFound r (cut_rows (k + r) len rows.now) found.new)) result }
{
    examined(alloc, k, r, len, rows, found).number()
}

fn examined(
    alloc: Global,
    k: u32,
    r: u32,
    len: u32,
    rows: &[u8],
    found: &mut CarbinkFound,
) -> Status
    ensures { Ends k r len (length rows.now ≡ (k + r) * len) Unit
        (found.new ≡ found.old) (TellsFound r (cut_rows (k + r) len rows.now) found.new) result }
{
    if let Some(refused) = refused_shape(k, r, len) {
        return refused;
    }
    if rows.len() != size_of_rows(k + r, len) {
        return Status::BadBuffer;
    }
    match finding(alloc, k, r, len, rows) {
        Ok(finding) => {
            *found = told(&finding);
            Status::Done
        }
        Err(NoMemory) => Status::NoMemory,
    }
}

/// What the rows of a buffer are. Rows that are a code word are told where they lie; others are
/// copied first. The only error is out of memory.
fn finding(alloc: Global, k: u32, r: u32, len: u32, rows: &[u8]) -> Result<Found, NoMemory>
    requires in_range { IsInRange k r }
    requires some { 0 < len }
    requires size { length rows.now ≡ (k + r) * len }
    ensures { IfOk result (IsOnlyFinding r (cut_rows (k + r) len rows.now)) }
{
    if are_word(alloc, k, r, len, rows)? {
        return Ok(Found::Clean);
    }
    let copied = rows_of(alloc, k + r, len, rows)?;
    Ok(examine(r, &copied))
}

/// A finding as C sees it.
fn told(found: &Found) -> CarbinkFound
    ensures { result ≡ told_found found.now }
{
    match found {
        Found::Clean => CarbinkFound {
            kind: 0,
            position: 0,
            power: 0,
            column: 0,
            sum: 0,
        },
        Found::One { position } => CarbinkFound {
            kind: 1,
            position: *position,
            power: 0,
            column: 0,
            sum: 0,
        },
        Found::Many { power, column, sum } => CarbinkFound {
            kind: 2,
            position: 0,
            power: *power,
            column: *column,
            sum: u32::from(*sum),
        },
    }
}
