//! Blocks of dropped rows, to be used again.

ghost use Rattle.std.specs.Prelude.{◌≡◌, ◌<◌, length, IfOk};
ghost use Rattle.cb_gf256.specs.Rows.{HaveLength};

use crate::row::Row;
use cb_gf256::Rows;
use cb_member::NoMemory;
use std::alloc::Global;

/// How many blocks are kept at the most.
const MOST: usize = 256;

/// The blocks of rows that were dropped, to be used by rows that are put later, and a table of rows that
/// are to be coded together.
#[derive(Drop)]
pub struct Spare {
    rows: Vec<Row>,
    table: Option<Rows>,
}

impl Spare {
    /// No blocks, with room for as many as are kept.
    pub fn new(alloc: Global) -> Result<Spare, NoMemory> {
        let rows = Vec::with_capacity(alloc, MOST)?;
        Ok(Spare { rows, table: None })
    }

    /// A copy of these bytes, in the block that was kept last, where it has that length.
    pub fn copy_of(&mut self, bytes: &[u8]) -> Result<Row, NoMemory>
        ensures { IfOk result (λ row. row ≡ bytes.now) }
    {
        match self.rows.pop() {
            Some(row) => filled(row, bytes),
            None => Row::copy_of(*self.rows.allocator(), bytes),
        }
    }

    /// Keeps the block of a row, if there is one and there is room; else it is freed. Takes no memory.
    pub fn keep(&mut self, row: Option<Row>) {
        if let Some(row) = row {
            self.keep_block(row);
        }
    }

    /// A table of rows of this shape, with any bytes: the one that was kept, where it has that shape.
    pub fn table(&mut self, count: u32, len: u32) -> Result<Rows, NoMemory>
        requires { 0 < count }
        ensures count { IfOk result (λ rows. length rows ≡ count) }
        ensures lengths { IfOk result (λ rows. HaveLength len rows) }
    {
        match self.table.take() {
            Some(table) => shaped(*self.rows.allocator(), table, count, len),
            None => blank(*self.rows.allocator(), count, len),
        }
    }

    /// Keeps a table of rows, in place of the one that was kept before. Takes no memory.
    pub fn keep_table(&mut self, table: Rows) {
        self.table = Some(table);
    }

    /// Keeps the block of a row where there is room.
    fn keep_block(&mut self, row: Row) {
        if self.rows.len() < self.rows.capacity() {
            self.rows.push_reserved(row);
        }
    }
}

/// A copy of these bytes, in the block of the row where that has their length.
fn filled(row: Row, bytes: &[u8]) -> Result<Row, NoMemory>
    ensures { IfOk result (λ copy. copy ≡ bytes.now) }
{
    if row.bytes().len() != bytes.len() {
        return Row::copy_of(row.allocator(), bytes);
    }
    let mut copy = row;
    copy.replace(bytes);
    Ok(copy)
}

/// The table, where it has this shape, else another one.
fn shaped(alloc: Global, table: Rows, count: u32, len: u32) -> Result<Rows, NoMemory>
    requires { 0 < count }
    ensures count { IfOk result (λ rows. length rows ≡ count) }
    ensures lengths { IfOk result (λ rows. HaveLength len rows) }
{
    if table.count() != count {
        return blank(alloc, count, len);
    }
    if table.row_len() != len {
        return blank(alloc, count, len);
    }
    Ok(table)
}

/// A table of so many rows of so many bytes.
fn blank(alloc: Global, count: u32, len: u32) -> Result<Rows, NoMemory>
    ensures count { IfOk result (λ rows. length rows ≡ count) }
    ensures lengths { IfOk result (λ rows. HaveLength len rows) }
{
    match Rows::new(alloc, count, len) {
        Ok(rows) => Ok(rows),
        Err(_) => Err(NoMemory),
    }
}
