//! One wrong row in a buffer is made right.

ghost use Rattle.std.specs.Prelude.{◌≡◌, ◌+◌, ◌*◌, ◌<◌, length, OnOk, OnErr};
ghost use Rattle.cb_gf256.specs.Block.{cut_rows};
ghost use Rattle.cb_gf256.specs.InRange.{IsInRange};
ghost use Rattle.carbink_c.specs.Status.{Ends, IsNumberOf};
ghost use Rattle.carbink_c.specs.Made.{IsMendedAt};

use crate::buffers::{put_rows, rows_of, size_of_rows};
use crate::status::{Status, refused_shape};
use cb_gf256::NoMemory;
use cb_scrub::mend;
use std::alloc::Global;

/// Replaces the row at `position`, of `k + r` rows of `len` bytes, by the sum of all others. Where
/// that row alone is wrong, the rows are a code word then. Where the answer is not Done, `rows`
/// stays as it is.
#[unsafe(no_mangle)]
pub extern "C" fn carbink_mend(
    alloc: Global,
    k: u32,
    r: u32,
    len: u32,
    rows: &mut [u8],
    position: u32,
) -> u32
    ensures { IsNumberOf (Ends k r len (length rows.old ≡ (k + r) * len) (position < k + r)
        (rows.new ≡ rows.old) (IsMendedAt r (cut_rows (k + r) len rows.old) position
        (cut_rows (k + r) len rows.new))) result }
{
    mended(alloc, k, r, len, rows, position).number()
}

fn mended(alloc: Global, k: u32, r: u32, len: u32, rows: &mut [u8], position: u32) -> Status
    ensures { Ends k r len (length rows.old ≡ (k + r) * len) (position < k + r)
        (rows.new ≡ rows.old) (IsMendedAt r (cut_rows (k + r) len rows.old) position
        (cut_rows (k + r) len rows.new)) result }
{
    if let Some(refused) = refused_shape(k, r, len) {
        return refused;
    }
    if rows.len() != size_of_rows(k + r, len) {
        return Status::BadBuffer;
    }
    if position >= k + r {
        return Status::BadPositions;
    }
    match put_mended(alloc, k, r, len, rows, position) {
        Ok(()) => Status::Done,
        Err(NoMemory) => Status::NoMemory,
    }
}

/// Mends a row of a buffer. The only error is out of memory, which leaves all as it was.
fn put_mended(
    alloc: Global,
    k: u32,
    r: u32,
    len: u32,
    rows: &mut [u8],
    position: u32,
) -> Result<(), NoMemory>
    requires in_range { IsInRange k r }
    requires some { 0 < len }
    requires size { length rows.old ≡ (k + r) * len }
    requires position { position < k + r }
    ensures made { OnOk result (IsMendedAt r (cut_rows (k + r) len rows.old) position
        (cut_rows (k + r) len rows.new)) }
    ensures error { OnErr result (rows.new ≡ rows.old) }
{
    let mut mending = rows_of(alloc, k + r, len, rows)?;
    mend(&mut mending, position);
    put_rows(&mending, len, rows);
    Ok(())
}
