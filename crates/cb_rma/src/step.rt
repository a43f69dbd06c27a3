//! The events of a schedule, and what is said to them.

ghost use Rattle.std.specs.Prelude.{◌≡◌, [], ◌∷◌, ◌++◌, OnOk, OnErr};

use crate::keeper::Handled;
use crate::order::Order;
use crate::sender::{Heard, Submitted};
use cb_member::NoMemory;
use cb_types::Bytes;
use std::alloc::Global;
use std::marker::Model;

/// An event of a schedule. Asks and acknowledgements are numbered from 0 each, in the order in which
/// they were sent, across restarts.
#[derive(Drop)]
pub enum Step {
    /// An order is submitted.
    Submit { order: Order },
    /// The order of this number is sent, where it is not acknowledged.
    Send { number: u64 },
    /// The ask of this number comes to the keeper, for the first time or again.
    Ask { packet: u64 },
    /// The acknowledgement of this number comes to the sender, for the first time or again.
    Ack { packet: u64 },
    /// The next incarnation begins, with an empty keeper and an empty sender.
    Restart,
    /// The row at the key is looked at.
    Show { key: u64 },
}

/// What is said to an event.
#[derive(Drop)]
pub enum Said {
    /// To an order that was submitted.
    Submitted(Submitted),
    /// The order was sent, as the ask of this number.
    Sent { packet: u64 },
    /// The order is not among those that wait for an acknowledgement: nothing was sent.
    Nothing,
    /// To an ask that came.
    Handled(Handled),
    /// To an acknowledgement that came.
    Heard(Heard),
    /// No such ask, or no such acknowledgement, was sent.
    NoPacket,
    /// This incarnation began.
    Incarnation { n: u64 },
    /// The row at the key.
    Row { row: Bytes },
    /// There is no row at the key.
    NoRow,
}

/// What was said to each event, in order. Contracts see it as a list.
#[derive(Drop)]
pub struct Saids {
    items: Vec<Said>,
}

impl Model for Saids {
    ghost use Rattle.std.specs.Prelude.{List};
    ghost use Rattle.cb_rma.specs.declared.step.Said.{Said};

    ghost Value = { List Said };

    ghost view = { λ a. a.items.items };
}

impl Saids {
    /// Nothing said; takes no memory.
    pub fn new(alloc: Global) -> Saids
        ensures empty { result ≡ [] }
    {
        Saids {
            items: Vec::new(alloc),
        }
    }

    /// What was said, to the first event first.
    pub fn as_slice(&self) -> &[Said]
        ensures items { result.now ≡ self.now }
    {
        self.items.as_slice()
    }

    /// Adds what is said to the next event. Running out of memory leaves the list as it was.
    pub fn push(&mut self, item: Said) -> Result<(), NoMemory>
        ensures ok { OnOk result (self.new ≡ self.old ++ item ∷ []) }
        ensures err { OnErr result (self.new ≡ self.old) }
    {
        self.items.push(item)?;
        Ok(())
    }

    /// Gives the list's own memory back as a vector; takes none.
    pub fn into_vec(self) -> Vec<Said>
        ensures items { result.items ≡ self }
    {
        self.items
    }
}

impl From<Vec<Said>> for Saids {
    ghost from_gives = { λ v saids. saids ≡ v.items };

    /// Keeps the vector's own memory; takes none.
    fn from(items: Vec<Said>) -> Saids {
        Saids { items }
    }
}
