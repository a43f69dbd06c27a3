//! The rows of one node, by their keys.

ghost use Rattle.std.specs.Prelude.{◌≡◌, IsSome, OnOk, OnErr, Some};
ghost use Rattle.std.specs.Option.{option_map};
ghost use Rattle.std.specs.FinMap as map;

use crate::row::Row;
use cb_member::NoMemory;
use std::alloc::Global;
use std::collections::BTreeMap;
use std::marker::Model;
use std::mem;

/// The rows of one node. Contracts see it as the finite map from keys to rows.
#[derive(Drop)]
pub struct Node {
    rows: BTreeMap<u64, Row>,
}

impl Model for Node {
    ghost use Rattle.std.specs.FinMap as map;
    ghost use Rattle.cb_node.specs.Rows.{RowsByKey, rows_code};

    ghost Value = { RowsByKey };

    ghost coded = { rows_code };

    ghost view = { λ a. map.from_entries a.rows.entries };
}

impl Node {
    /// A node with no row; takes no memory.
    pub fn new(alloc: Global) -> Node
        ensures { result ≡ map.empty }
    {
        Node {
            rows: BTreeMap::new(alloc),
        }
    }

    /// How many rows there are: a counter of the map.
    pub fn len(&self) -> usize
        ensures { result ≡ map.len self.now }
    {
        self.rows.len()
    }

    /// Whether there is a row under the key.
    pub fn has(&self, key: u64) -> bool
        ensures { result ≡ map.contains_key self.now key }
    {
        self.rows.contains_key(&key)
    }

    /// The row under the key, by a search of the ordered map.
    pub fn row(&self, key: u64) -> Option<&Row>
        ensures { option_map (λ row. row.now) result ≡ map.get self.now key }
    {
        self.rows.get(&key)
    }

    /// Puts the row under the key. Running out of memory changes nothing.
    pub fn insert(&mut self, key: u64, row: Row) -> Result<(), NoMemory>
        ensures ok { OnOk result (self.new ≡ map.insert self.old key row) }
        ensures err { OnErr result (self.new ≡ self.old) }
    {
        self.rows.insert(key, row)?;
        Ok(())
    }

    /// Takes out the row under the key, and answers it, if there is one.
    pub fn remove(&mut self, key: u64) -> Option<Row>
        ensures { self.new ≡ map.remove self.old key }
    {
        self.rows.remove(&key)
    }

    /// Drops all rows.
    pub fn clear(&mut self)
        ensures { self.new ≡ map.empty }
    {
        self.rows.clear();
    }

    /// Exchanges the row under the key for another; takes no memory.
    pub fn swap_row(&mut self, key: u64, row: &mut Row)
        requires { IsSome (map.get self.old key) }
        ensures after { self.new ≡ map.insert self.old key row.old }
        ensures row { map.get self.old key ≡ Some row.new }
    {
        if let Some(kept) = self.rows.get_mut(&key) {
            mem::swap(kept, row);
        }
    }
}
