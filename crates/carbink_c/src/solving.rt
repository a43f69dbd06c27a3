//! Lost rows in a buffer are restored from k others.

ghost use Rattle.std.specs.Prelude.{◌≡◌, ◌+◌, ◌*◌, ◌<◌, ◌↔◌, length, All, OnOk, OnErr, IsTrue};
ghost use Rattle.std.specs.List.Sorted.{IsStrictlyIncreasing};
ghost use Rattle.cb_gf256.specs.Block.{cut_rows};
ghost use Rattle.cb_gf256.specs.InRange.{IsInRange};
ghost use Rattle.cb_gf256.specs.Positions.{ArePositions};
ghost use Rattle.cb_gf256.specs.Rows.{rows_at};
ghost use Rattle.carbink_c.specs.Status.{Ends, IsNumberOf};
ghost use Rattle.carbink_c.specs.Made.{IsOnlySolution};

use crate::buffers::{put_others, size_of_rows};
use crate::status::{Status, refused_shape};
use cb_erase::solve_borrowed;
use cb_gf256::{NoMemory, RowsRef};
use std::alloc::Global;

/// Makes the rows again that are lost: `rows` has `k + r` rows of `len` bytes, of which those at
/// the `k` positions `present` are there, ascending and below `k + r`; what the others hold does
/// not matter. They are the one code word then that agrees with the present rows. Where the answer
/// is not Done, `rows` stays as it is.
#[unsafe(no_mangle)]
pub extern "C" fn carbink_solve(
    alloc: Global,
    k: u32,
    r: u32,
    len: u32,
    rows: &mut [u8],
    present: &[u8],
) -> u32
    ensures { IsNumberOf (Ends k r len (length rows.old ≡ (k + r) * len)
        (ArePositions (k + r) k present.now) (rows.new ≡ rows.old)
        (IsOnlySolution k r present.now (rows_at (cut_rows (k + r) len rows.old) present.now)
        (cut_rows (k + r) len rows.new))) result }
{
    solved(alloc, k, r, len, rows, present).number()
}

fn solved(alloc: Global, k: u32, r: u32, len: u32, rows: &mut [u8], present: &[u8]) -> Status
    ensures { Ends k r len (length rows.old ≡ (k + r) * len)
        (ArePositions (k + r) k present.now) (rows.new ≡ rows.old)
        (IsOnlySolution k r present.now (rows_at (cut_rows (k + r) len rows.old) present.now)
        (cut_rows (k + r) len rows.new)) result }
{
    if let Some(refused) = refused_shape(k, r, len) {
        return refused;
    }
    if rows.len() != size_of_rows(k + r, len) {
        return Status::BadBuffer;
    }
    if !are_positions(k + r, k, present) {
        return Status::BadPositions;
    }
    match put_word(alloc, k, r, len, rows, present) {
        Ok(()) => Status::Done,
        Err(NoMemory) => Status::NoMemory,
    }
}

/// Whether these are `k` different positions below `n`, in ascending order.
fn are_positions(n: u32, k: u32, positions: &[u8]) -> bool
    ensures { IsTrue result ↔ ArePositions n k positions.now }
{
    positions.len() == k as usize && ascend(positions) && are_below(n, positions)
}

/// Whether each number is below the next.
fn ascend(numbers: &[u8]) -> bool
    ensures { IsTrue result ↔ IsStrictlyIncreasing numbers.now }
{
    for i in 1..numbers.len() {
        if numbers[i - 1] >= numbers[i] {
            return false;
        }
    }
    true
}

/// Whether all numbers are below `n`.
fn are_below(n: u32, numbers: &[u8]) -> bool
    ensures { IsTrue result ↔ All (λ x. x < n) numbers.now }
{
    for number in numbers {
        if u32::from(*number) >= n {
            return false;
        }
    }
    true
}

/// Puts the code word over the rows of a buffer. The only error is out of memory, which leaves all
/// as it was.
fn put_word(
    alloc: Global,
    k: u32,
    r: u32,
    len: u32,
    rows: &mut [u8],
    present: &[u8],
) -> Result<(), NoMemory>
    requires in_range { IsInRange k r }
    requires some { 0 < len }
    requires size { length rows.old ≡ (k + r) * len }
    requires positions { ArePositions (k + r) k present.now }
    ensures made { OnOk result (IsOnlySolution k r present.now
        (rows_at (cut_rows (k + r) len rows.old) present.now) (cut_rows (k + r) len rows.new)) }
    ensures error { OnErr result (rows.new ≡ rows.old) }
{
    let shown = RowsRef::of(k + r, len, rows);
    let word = solve_borrowed(alloc, k, r, &shown, present)?;
    put_others(&word, len, present, rows);
    Ok(())
}
