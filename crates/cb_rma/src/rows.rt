//! Rows by their keys.

ghost use Rattle.std.specs.Prelude.{◌≡◌, length, OnOk, OnErr};
ghost use Rattle.std.specs.Option.{option_map};
ghost use Rattle.std.specs.FinMap as map;
ghost use Rattle.cb_gf256.specs.Row.{row_sum, scaled_row};
ghost use Rattle.cb_rma.specs.Rows.{with_order, with_added, sum_where_alike};

use crate::order::Order;
use cb_kernel::axpy;
use cb_member::NoMemory;
use cb_types::Bytes;
use std::alloc::Global;
use std::collections::BTreeMap;
use std::marker::Model;
use std::mem;

/// Rows by their keys, in an ordered map. Contracts see the finite map.
#[derive(Drop)]
pub(crate) struct Rows {
    alloc: Global,
    by_key: BTreeMap<u64, Bytes>,
}

impl Model for Rows {
    ghost use Rattle.std.specs.FinMap as map;
    ghost use Rattle.cb_node.specs.Rows.{RowsByKey, rows_code};

    ghost Value = { RowsByKey };

    ghost coded = { rows_code };

    ghost view = { λ a. map.from_entries a.by_key.entries };
}

impl Rows {
    /// No row; takes no memory.
    pub(crate) fn new(alloc: Global) -> Rows
        ensures { result ≡ map.empty }
    {
        Rows {
            alloc,
            by_key: BTreeMap::new(alloc),
        }
    }

    /// The row at the key, by a search of the ordered map.
    pub(crate) fn get(&self, key: u64) -> Option<&Bytes>
        ensures { option_map (λ row. row.now) result ≡ map.get self.now key }
    {
        self.by_key.get(&key)
    }

    /// Does what the order says. Running out of memory changes nothing.
    pub(crate) fn apply(&mut self, order: &Order) -> Result<(), NoMemory>
        ensures ok { OnOk result (self.new ≡ with_order self.old order.now) }
        ensures err { OnErr result (self.new ≡ self.old) }
    {
        match order {
            Order::Put { key, row } => self.put(*key, row),
            Order::Add { key, c, row } => {
                self.add(*key, *c, row.as_slice());
                Ok(())
            }
            Order::Drop { key } => {
                self.remove(*key);
                Ok(())
            }
        }
    }

    /// Puts a copy of the row at the key. Running out of memory changes nothing.
    fn put(&mut self, key: u64, row: &Bytes) -> Result<(), NoMemory>
        ensures ok { OnOk result (self.new ≡ map.insert self.old key row.now) }
        ensures err { OnErr result (self.new ≡ self.old) }
    {
        let row = row.copy(self.alloc)?;
        self.by_key.insert(key, row)?;
        Ok(())
    }

    /// Adds `c` times the row to the row at the key, in place, where one of that length is there.
    fn add(&mut self, key: u64, c: u8, row: &[u8])
        ensures { self.new ≡ with_added self.old key c row.now }
    {
        if let Some(kept) = self.by_key.get_mut(&key) {
            add_where_alike(self.alloc, kept, c, row);
        }
    }

    /// Takes the row at the key away.
    fn remove(&mut self, key: u64)
        ensures { self.new ≡ map.remove self.old key }
    {
        self.by_key.remove(&key);
    }
}

/// Adds `c` times the row to the kept one where they have one length.
fn add_where_alike(alloc: Global, kept: &mut Bytes, c: u8, row: &[u8])
    ensures { kept.new ≡ sum_where_alike kept.old c row.now }
{
    if kept.len() == row.len() {
        add_scaled(alloc, kept, c, row);
    }
}

/// Adds `c` times the row to the kept one, in its own memory; takes none.
fn add_scaled(alloc: Global, kept: &mut Bytes, c: u8, row: &[u8])
    requires { length kept.old ≡ length row.now }
    ensures { kept.new ≡ row_sum kept.old (scaled_row c row.now) }
{
    let mut bytes = mem::replace(kept, Bytes::from(Vec::new(alloc))).into_vec();
    axpy(bytes.as_mut_slice(), c, row);
    *kept = Bytes::from(bytes);
}
