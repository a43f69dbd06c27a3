//! The keeper of rows, which applies each order once.

ghost use Rattle.std.specs.Prelude.{◌≡◌, ◌<◌, ◌^◌, IfOk, OnErr};
ghost use Rattle.std.specs.Option.{option_map};
ghost use Rattle.std.specs.FinMap as map;
ghost use Rattle.cb_rma.specs.Keeping.{new_keeper, handles, after_handled};

use crate::order::{Ack, Ask};
use crate::rows::Rows;
use cb_member::NoMemory;
use std::alloc::Global;
use std::marker::Model;

/// What a keeper answers where an order comes. Each acknowledgement has the count afterwards.
#[derive(Clone, Copy, Debug, PartialEq, Eq)]
pub enum Handled {
    /// The order was the next one, and was applied.
    Applied(Ack),
    /// The order was applied before: nothing changes.
    Repeated(Ack),
    /// An order before this one was not applied yet: nothing changes.
    Ahead(Ack),
    /// The message is of this other incarnation: nothing changes, and no acknowledgement is sent.
    Other { incarnation: u64 },
}

/// The keeper of rows: it applies each order once, in the order of their numbers.
#[derive(Drop)]
pub struct Keeper {
    incarnation: u64,
    count: u64,
    rows: Rows,
}

impl Model for Keeper {
    ghost use Rattle.cb_rma.specs.Keeping.{KeeperState, keeper_code, keeper_of};

    ghost Value = { KeeperState };

    ghost coded = { keeper_code };

    ghost view = { λ a. keeper_of a.incarnation a.count a.rows };
}

impl Keeper {
    /// A keeper of this incarnation with no row; takes no memory.
    pub fn new(alloc: Global, incarnation: u64) -> Keeper
        ensures { result ≡ new_keeper incarnation }
    {
        Keeper {
            incarnation,
            count: 0,
            rows: Rows::new(alloc),
        }
    }

    /// Applies the order where it is the next one. Running out of memory changes nothing.
    pub fn on_ask(&mut self, ask: &Ask) -> Result<Handled, NoMemory>
        requires { self.old.count < 2 ^ 40 }
        ensures answer { IfOk result (λ answer. answer ≡ handles self.old ask.now) }
        ensures after { IfOk result
            (λ answer. self.new ≡ after_handled self.old ask.now.order answer) }
        ensures err { OnErr result (self.new ≡ self.old) }
    {
        if ask.incarnation != self.incarnation {
            return Ok(Handled::Other {
                incarnation: ask.incarnation,
            });
        }
        let ack = self.ack();
        if ask.number < self.count {
            return Ok(Handled::Repeated(ack));
        }
        if ask.number > self.count {
            return Ok(Handled::Ahead(ack));
        }
        self.rows.apply(&ask.order)?;
        self.count += 1;
        Ok(Handled::Applied(self.ack()))
    }

    /// The row at the key, where there is one.
    pub fn row(&self, key: u64) -> Option<&[u8]>
        ensures { option_map (λ row. row.now) result ≡ map.get self.now.rows key }
    {
        let row = self.rows.get(key)?;
        Some(row.as_slice())
    }

    /// How many orders were applied.
    pub fn count(&self) -> u64
        ensures { result ≡ self.now.count }
    {
        self.count
    }

    /// Its incarnation.
    pub fn incarnation(&self) -> u64
        ensures { result ≡ self.now.incarnation }
    {
        self.incarnation
    }

    /// What the keeper tells now.
    fn ack(&self) -> Ack
        ensures incarnation { result.incarnation ≡ self.now.incarnation }
        ensures count { result.count ≡ self.now.count }
    {
        Ack {
            incarnation: self.incarnation,
            count: self.count,
        }
    }
}
