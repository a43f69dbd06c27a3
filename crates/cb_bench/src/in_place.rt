//! Calls on rows that are there: one block has k data rows and r parities, one after another, and
//! another one has room for r rows. False where the block has not as many rows.
ghost use Rattle.std.specs.Prelude.{◌≡◌, ◌*◌};
ghost use Rattle.cb_gf256.specs.InRange.{IsInRange};
ghost use Rattle.cb_gf256.specs.Rows.{HaveLength};

use crate::{ROW_BYTES, fill};
use cb_code::{Coeffs, encode_into};
use cb_gf256::RowsRef;
use cb_scrub::is_code_word;
use std::alloc::{AllocError, Global};

/// How many bytes so many rows have.
fn size_of(rows: u32) -> usize
    ensures { result ≡ rows * 4096 }
{
    rows as usize * ROW_BYTES as usize
}

/// A block of so many rows, of bytes that vary.
pub(crate) fn varied_block(alloc: Global, rows: u32) -> Result<Vec<u8>, AllocError> {
    let mut block = vec![in alloc; 0u8; size_of(rows)]?;
    fill(block.as_mut_slice(), 88_172_645_463_325_252);
    Ok(block)
}

/// Puts the parities of the data rows where there is room for them.
fn put(code: &Coeffs, k: u32, given: &[u8], parities: &mut [u8]) -> bool
    requires { HaveLength k code.now }
{
    if given.len() != size_of(k) {
        return false;
    }
    let rows = RowsRef::of(k, ROW_BYTES, given);
    if rows.count() != k || k == 0 {
        return false;
    }
    if parities.len() != code.parities() as usize * rows.row_len() as usize {
        return false;
    }
    encode_into(code, &rows, parities);
    true
}

/// Makes a block the code word of its data rows.
pub(crate) fn encode_block(code: &Coeffs, k: u32, block: &mut [u8]) -> bool
    requires { HaveLength k code.now }
{
    if block.len() < size_of(k) {
        return false;
    }
    let (given, parities) = block.split_at_mut(size_of(k));
    put(code, k, given, parities)
}

/// Whether a block is a code word, by parities that are made again and compared.
pub(crate) fn has_parities(code: &Coeffs, k: u32, block: &[u8], room: &mut [u8]) -> bool
    requires { HaveLength k code.now }
{
    if block.len() < size_of(k) {
        return false;
    }
    let (given, parities) = block.split_at(size_of(k));
    put(code, k, given, room) && parities == &*room
}

/// Whether a block is a code word, by its syndromes.
pub(crate) fn is_word(k: u32, r: u32, block: &[u8]) -> bool
    requires { IsInRange k r }
{
    if block.len() != size_of(k + r) {
        return false;
    }
    let rows = RowsRef::of(k + r, ROW_BYTES, block);
    if rows.count() != k + r {
        return false;
    }
    is_code_word(r, &rows)
}
