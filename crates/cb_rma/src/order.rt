//! Orders, asks and acknowledgements.

ghost use Rattle.std.specs.Prelude.{◌≡◌, IfOk};

use cb_member::NoMemory;
use cb_types::Bytes;
use std::alloc::Global;

/// A change of the rows that a keeper has by their keys.
#[derive(Drop)]
pub enum Order {
    /// The row replaces the one at the key, if there is one.
    Put { key: u64, row: Bytes },
    /// `c` times the row is added, in the field of 256 elements, to the row at the key where one of
    /// that length is there. Else nothing changes.
    Add { key: u64, c: u8, row: Bytes },
    /// The row at the key is taken away.
    Drop { key: u64 },
}

/// An order on its way to the keeper: the order of this number in this incarnation of the sender.
#[derive(Drop)]
pub struct Ask {
    pub incarnation: u64,
    pub number: u64,
    pub order: Order,
}

/// What a keeper of this incarnation tells: how many orders it applied.
#[derive(Clone, Copy, Debug, PartialEq, Eq)]
pub struct Ack {
    pub incarnation: u64,
    pub count: u64,
}

impl Order {
    /// A copy of the order.
    pub fn copy(&self, alloc: Global) -> Result<Order, NoMemory>
        ensures { IfOk result (λ copy. copy ≡ self.now) }
    {
        match self {
            Order::Put { key, row } => put(alloc, *key, row),
            Order::Add { key, c, row } => add(alloc, *key, *c, row),
            Order::Drop { key } => Ok(Order::Drop { key: *key }),
        }
    }
}

/// The order that puts a copy of the row at the key.
fn put(alloc: Global, key: u64, row: &Bytes) -> Result<Order, NoMemory>
    ensures { IfOk result (λ order. order ≡ Order.Put key row.now) }
{
    let row = row.copy(alloc)?;
    Ok(Order::Put { key, row })
}

/// The order that adds `c` times a copy of the row at the key.
fn add(alloc: Global, key: u64, c: u8, row: &Bytes) -> Result<Order, NoMemory>
    ensures { IfOk result (λ order. order ≡ Order.Add key c row.now) }
{
    let row = row.copy(alloc)?;
    Ok(Order::Add { key, c, row })
}
