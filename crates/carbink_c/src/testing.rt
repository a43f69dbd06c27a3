//! Whether the rows of a buffer are a code word.

ghost use Rattle.std.specs.Prelude.{◌≡◌, ◌+◌, ◌*◌, ◌<◌, ◌↔◌, length, IfOk, IsTrue};
ghost use Rattle.cb_gf256.specs.Block.{cut_rows};
ghost use Rattle.cb_gf256.specs.CodeWord.{IsCodeWord};
ghost use Rattle.cb_gf256.specs.InRange.{IsInRange};
ghost use Rattle.carbink_c.specs.Status.{Ends, IsNumberOf};
ghost use Rattle.carbink_c.specs.Made.{TellsWord};

use crate::buffers::{same_rows, size_of_rows};
use crate::status::{Status, refused_shape};
use cb_code::{coefficients, encode_borrowed};
use cb_gf256::{NoMemory, RowsRef};
use cb_scrub::is_code_word;
use std::alloc::Global;

/// Tells whether `k + r` rows of `len` bytes, data rows and then parities, are a code word: sets
/// `is_word` to 1 where they are, and to 0 where they are none. Where the answer is not Done,
/// `is_word` stays as it is.
#[unsafe(no_mangle)]
pub extern "C" fn carbink_is_word(
    alloc: Global,
    k: u32,
    r: u32,
    len: u32,
    rows: &[u8],
    is_word: &mut u32,
) -> u32
    ensures { IsNumberOf (Ends k r len (length rows.now ≡ (k + r) * len) Unit
        (is_word.new ≡ is_word.old) (TellsWord k r (cut_rows (k + r) len rows.now) is_word.new))
        result }
{
    told(alloc, k, r, len, rows, is_word).number()
}

fn told(alloc: Global, k: u32, r: u32, len: u32, rows: &[u8], is_word: &mut u32) -> Status
    ensures { Ends k r len (length rows.now ≡ (k + r) * len) Unit
        (is_word.new ≡ is_word.old) (TellsWord k r (cut_rows (k + r) len rows.now) is_word.new)
        result }
{
    if let Some(refused) = refused_shape(k, r, len) {
        return refused;
    }
    if rows.len() != size_of_rows(k + r, len) {
        return Status::BadBuffer;
    }
    match are_word(alloc, k, r, len, rows) {
        Ok(are) => {
            *is_word = u32::from(are);
            Status::Done
        }
        Err(NoMemory) => Status::NoMemory,
    }
}

/// Rows of at most so many bytes cost less by their syndromes than by parities, whose table is made
/// for each call.
const SHORT: u32 = 1_024;

/// Whether the rows of a buffer are a code word, told in the way that takes less time. The only
/// error is out of memory.
pub(crate) fn are_word(
    alloc: Global,
    k: u32,
    r: u32,
    len: u32,
    rows: &[u8],
) -> Result<bool, NoMemory>
    requires in_range { IsInRange k r }
    requires some { 0 < len }
    requires size { length rows.now ≡ (k + r) * len }
    ensures { IfOk result (λ are. IsTrue are ↔ IsCodeWord k r (cut_rows (k + r) len rows.now)) }
{
    if r <= 2 || len <= SHORT {
        Ok(syndromes_are_zero(k, r, len, rows))
    } else {
        have_parities(alloc, k, r, len, rows)
    }
}

/// The same by the syndromes of the rows where they lie.
fn syndromes_are_zero(k: u32, r: u32, len: u32, rows: &[u8]) -> bool
    requires in_range { IsInRange k r }
    requires size { length rows.now ≡ (k + r) * len }
    ensures { IsTrue result ↔ IsCodeWord k r (cut_rows (k + r) len rows.now) }
{
    let given = RowsRef::of(k + r, len, rows);
    is_code_word(r, &given)
}

/// The same by parities made anew: whether the last `r` rows are those of the others.
fn have_parities(alloc: Global, k: u32, r: u32, len: u32, rows: &[u8]) -> Result<bool, NoMemory>
    requires in_range { IsInRange k r }
    requires some { 0 < len }
    requires size { length rows.now ≡ (k + r) * len }
    ensures { IfOk result (λ are. IsTrue are ↔ IsCodeWord k r (cut_rows (k + r) len rows.now)) }
{
    let (front, behind) = rows.split_at(size_of_rows(k, len));
    let given = RowsRef::of(k, len, front);
    let parities = encode_borrowed(alloc, &coefficients(k, r), &given)?;
    Ok(same_rows(&parities, len, behind))
}
