//! Rows of equal length, in a block of their own or of somebody else.

ghost use Rattle.std.specs.Prelude.{◌≡◌, ◌*◌, ◌<◌, length, replicate, IfOk};
ghost use Rattle.cb_gf256.specs.Block.{cut_rows};
ghost use Rattle.std.specs.Borrow.{sem};
ghost use Rattle.cb_gf256.specs.Rows.{row_at, HaveLength, AreRows};
ghost use Rattle.cb_gf256.specs.Lends.{LendsRow};

use crate::NoMemory;
use std::alloc::Global;
use std::marker::Model;

/// A list of rows of bytes of equal length. The rows lie one after another in one block.
#[derive(Drop)]
pub struct Rows {
    pub(crate) block: Vec<u8>,
    pub(crate) count: u32,
    len: u32,
}

impl Model for Rows {
    ghost use Rattle.std.specs.Prelude.{◌≡◌, ◌*◌, ℕ, List, length};
    ghost use Rattle.cb_gf256.specs.Block.{cut_rows};

    ghost Value = { List (List ℕ) };

    ghost view = { λ r. cut_rows r.count r.len r.block.items };

    ghost invariant = { λ r. length r.block.items ≡ r.count * r.len };
}

/// Rows of bytes of equal length, one after another in a block that somebody else has.
#[derive(Drop)]
pub struct RowsRef<'a> {
    block: &'a [u8],
    count: u32,
    len: u32,
}

impl<'a> Model for RowsRef<'a> {
    ghost use Rattle.std.specs.Prelude.{◌≡◌, ◌*◌, ℕ, List, length};
    ghost use Rattle.cb_gf256.specs.Block.{cut_rows};

    ghost Value = { List (List ℕ) };

    ghost view = { λ r. cut_rows r.count r.len r.block.now };

    ghost invariant = { λ r. length r.block.now ≡ r.count * r.len };
}

impl<'a> RowsRef<'a> {
    /// The `count` rows of `len` bytes that are cut from a block.
    pub fn of(count: u32, len: u32, block: &'a [u8]) -> RowsRef<'a>
        requires { length block.now ≡ count * len }
        ensures { result ≡ cut_rows count len block.now }
    {
        RowsRef { block, count, len }
    }

    /// How many rows there are.
    pub fn count(&self) -> u32
        ensures { result ≡ length self.now }
    {
        self.count
    }

    /// How many bytes each row has. The rows are bytes, all as long as the first.
    pub fn row_len(&self) -> u32
        requires { 0 < length self.now }
        ensures length { HaveLength result self.now }
        ensures rows { AreRows self.now }
    {
        // What the first row shows of all rows is what a proof reads here.
        let _ = self.row(0);
        self.len
    }

    /// The row at position `i`.
    #[inline(always)]
    pub fn row(&self, i: u32) -> &[u8]
        requires { i < length self.now }
        ensures value { result.now ≡ row_at self.now i }
        ensures rows { AreRows self.now }
    {
        row_in(self.block, self.count, self.len, i)
    }
}

/// Row `i` of the `count` rows of `len` bytes that are cut from a block.
#[inline(always)]
fn row_in(block: &[u8], count: u32, len: u32, i: u32) -> &[u8]
    requires size { length block.now ≡ count * len }
    requires inside { i < count }
    ensures value { result.now ≡ row_at (cut_rows count len block.now) i }
    ensures rows { AreRows (cut_rows count len block.now) }
{
    let len = len as usize;
    let start = i as usize * len;
    &block[start..start + len]
}

impl Rows {
    /// `count` rows of `len` bytes, all zero. The only error is out of memory.
    pub fn new(alloc: Global, count: u32, len: u32) -> Result<Rows, NoMemory>
        ensures { IfOk result (λ rows. rows ≡ replicate count (replicate len 0)) }
    {
        let block = Vec::from_elem(alloc, 0, count as usize * len as usize)?;
        Ok(Rows { block, count, len })
    }

    /// A copy of these rows. The only error is out of memory.
    pub fn copy(&self, alloc: Global) -> Result<Rows, NoMemory>
        ensures value { IfOk result (λ rows. rows ≡ self.now) }
        ensures rows { IfOk result (λ _. AreRows self.now) }
    {
        let items = self.block.as_slice();
        let block = Vec::from_slice(alloc, &items[..])?;
        Ok(Rows {
            block,
            count: self.count,
            len: self.len,
        })
    }

    /// How many rows there are.
    pub fn count(&self) -> u32
        ensures { result ≡ length self.now }
    {
        self.count
    }

    /// These rows, borrowed.
    #[inline(always)]
    pub fn borrowed(&self) -> RowsRef<'_>
        ensures { result ≡ self.now }
    {
        RowsRef {
            block: self.block.as_slice(),
            count: self.count,
            len: self.len,
        }
    }

    /// How many bytes each row has. The rows are bytes, all as long as the first.
    pub fn row_len(&self) -> u32
        requires { 0 < length self.now }
        ensures length { HaveLength result self.now }
        ensures rows { AreRows self.now }
    {
        // What the first row shows of all rows is what a proof reads here.
        let _ = self.row(0);
        self.len
    }

    /// The row at position `i`.
    #[inline(always)]
    pub fn row(&self, i: u32) -> &[u8]
        requires { i < length self.now }
        ensures value { result.now ≡ row_at self.now i }
        ensures rows { AreRows self.now }
    {
        let len = self.len as usize;
        let start = i as usize * len;
        let block = self.block.as_slice();
        &block[start..start + len]
    }

    /// The row at position `i`, to be written to.
    #[inline(always)]
    pub fn row_mut(&mut self, i: u32) -> &mut [u8]
        requires { i < length self.old }
        ensures* writes_back { sem 𝓛 (LendsRow self.entry i result) }
        ensures value { result.now ≡ row_at self.old i }
    {
        let len = self.len as usize;
        let start = i as usize * len;
        self.block.slice_mut(start..start + len)
    }
}
