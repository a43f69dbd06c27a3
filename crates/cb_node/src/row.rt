//! A row in a block of its own.

ghost use Rattle.std.specs.Prelude.{◌≡◌, ◌<◌, [], length, slice_index, slice_set, IfOk};
ghost use Rattle.cb_gf256.specs.Sum.{◌⊕◌};
ghost use Rattle.cb_gf256.specs.Row.{row_sum, scaled_row};

use cb_gf256::{add, axpy_row, mul};
use cb_member::NoMemory;
use std::alloc::Global;
use std::marker::Model;

/// A row of bytes in a block of its own. Contracts see it as the list of its bytes.
#[derive(Drop)]
pub struct Row {
    bytes: Vec<u8>,
}

impl Model for Row {
    ghost use Rattle.std.specs.Prelude.{ℕ, List};

    ghost Value = { List ℕ };

    ghost view = { λ a. a.bytes.items };
}

impl Row {
    /// The row of no bytes; takes no memory.
    pub fn empty(alloc: Global) -> Row
        ensures { result ≡ [] }
    {
        Row {
            bytes: Vec::new(alloc),
        }
    }

    /// A copy of these bytes.
    pub fn copy_of(alloc: Global, bytes: &[u8]) -> Result<Row, NoMemory>
        ensures { IfOk result (λ row. row ≡ bytes.now) }
    {
        let bytes = Vec::from_slice(alloc, bytes)?;
        Ok(Row { bytes })
    }

    /// Adds `c` times the other row, byte by byte.
    pub fn add_scaled(&mut self, c: u8, other: &[u8])
        requires { length self.old ≡ length other.now }
        ensures { self.new ≡ row_sum self.old (scaled_row c other.now) }
    {
        axpy_row(self.bytes.as_mut_slice(), c, other);
    }

    /// Adds `c` times the sum of this row and the other, byte by byte.
    pub fn add_own_change(&mut self, c: u8, other: &[u8])
        requires { length self.old ≡ length other.now }
        ensures { self.new ≡ row_sum self.old (scaled_row c (row_sum self.old other.now)) }
    {
        add_change(self.bytes.as_mut_slice(), c, other);
    }

    /// Adds `with` to the byte at a place.
    pub fn add_at(&mut self, at: usize, with: u8)
        requires { at < length self.old }
        ensures { self.new ≡ slice_set self.old at (slice_index self.old at ⊕ with) }
    {
        add_byte(self.bytes.as_mut_slice(), at, with);
    }

    /// Replaces the bytes by as many others.
    pub fn replace(&mut self, bytes: &[u8])
        requires { length self.old ≡ length bytes.now }
        ensures { self.new ≡ bytes.now }
    {
        self.bytes.as_mut_slice().copy_from_slice(bytes);
    }

    /// From where the block was taken.
    pub fn allocator(&self) -> Global {
        *self.bytes.allocator()
    }

    /// The bytes of the row, in order.
    pub fn bytes(&self) -> &[u8]
        ensures { result.now ≡ self.now }
    {
        self.bytes.as_slice()
    }
}

/// Adds to each byte `c` times the sum of it and the other row's byte.
fn add_change(row: &mut [u8], c: u8, other: &[u8])
    requires { length row.old ≡ length other.now }
    ensures { row.new ≡ row_sum row.old (scaled_row c (row_sum row.old other.now)) }
{
    for (i, x) in other.iter().enumerate() {
        let byte = row[i];
        row[i] = add(byte, mul(c, add(byte, *x)));
    }
}

/// Adds `with` to the byte at a place.
fn add_byte(row: &mut [u8], at: usize, with: u8)
    requires { at < length row.old }
    ensures { row.new ≡ slice_set row.old at (slice_index row.old at ⊕ with) }
{
    row[at] = add(row[at], with);
}
