//! Rows in a buffer of the caller, one after another.
ghost use Rattle.std.specs.Prelude.{◌≡◌, ℕ, ◌*◌, ◌<◌, ◌≤◌, ◌↔◌, length, Contains, IfOk, IsTrue};
ghost use Rattle.cb_gf256.specs.Block.{cut_rows};
ghost use Rattle.cb_gf256.specs.Rows.{row_at, HaveLength, HoldBytes};

use cb_gf256::{NoMemory, Rows};
use std::alloc::Global;

/// How many bytes so many rows of `len` bytes have.
pub(crate) fn size_of_rows(count: u32, len: u32) -> usize
    ensures { result ≡ count * len }
{
    count as usize * len as usize
}

/// A copy of the rows of a buffer. The only error is out of memory.
pub(crate) fn rows_of(alloc: Global, count: u32, len: u32, buffer: &[u8]) -> Result<Rows, NoMemory>
    requires { length buffer.now ≡ count * len }
    ensures value { IfOk result (λ rows. rows ≡ cut_rows count len buffer.now) }
    ensures bytes { IfOk result HoldBytes }
{
    let mut rows = Rows::new(alloc, count, len)?;
    let len = len as usize;
    for i in 0..count {
        let start = i as usize * len;
        rows.row_mut(i).copy_from_slice(&buffer[start..start + len]);
    }
    Ok(rows)
}

/// Writes the rows over a buffer of as many.
pub(crate) fn put_rows(rows: &Rows, len: u32, buffer: &mut [u8])
    requires lengths { HaveLength len rows.now }
    requires size { length buffer.old ≡ length rows.now * len }
    ensures { cut_rows (length rows.now) len buffer.new ≡ rows.now }
{
    let written = rows.count();
    let len = len as usize;
    for i in 0..written {
        let start = i as usize * len;
        buffer[start..start + len].copy_from_slice(rows.row(i));
    }
}

/// Writes those rows over a buffer that are at none of these positions; the others stand in it.
pub(crate) fn put_others(rows: &Rows, len: u32, positions: &[u8], buffer: &mut [u8])
    requires few { length rows.now ≤ 255 }
    requires lengths { HaveLength len rows.now }
    requires size { length buffer.old ≡ length rows.now * len }
    requires stand { (i : ℕ) → i < length rows.now → Contains positions.now i
        → row_at (cut_rows (length rows.now) len buffer.old) i ≡ row_at rows.now i }
    ensures { cut_rows (length rows.now) len buffer.new ≡ rows.now }
{
    let count = rows.count();
    let len = len as usize;
    for i in 0..count {
        let start = i as usize * len;
        if !positions.contains(&(i as u8)) {
            buffer[start..start + len].copy_from_slice(rows.row(i));
        }
    }
}

/// Whether a buffer of as many has these rows.
pub(crate) fn same_rows(rows: &Rows, len: u32, buffer: &[u8]) -> bool
    requires lengths { HaveLength len rows.now }
    requires size { length buffer.now ≡ length rows.now * len }
    ensures { IsTrue result ↔ cut_rows (length rows.now) len buffer.now ≡ rows.now }
{
    let height = rows.count();
    let len = len as usize;
    for i in 0..height {
        let start = i as usize * len;
        if rows.row(i) != &buffer[start..start + len] {
            return false;
        }
    }
    true
}
