//! The sender of orders, with its window.

ghost use Rattle.std.specs.Prelude.{◌≡◌, ◌+◌, ◌-◌, ◌<◌, ◌≤◌, ◌^◌, drop, length, Some, IfOk, OnErr};
ghost use Rattle.cb_rma.specs.Sending.{IsSender, new_sender, submitted, answer_to_order, after_order, ask_of, hears, after_heard, message};

use crate::order::{Ack, Ask, Order};
use cb_member::NoMemory;
use std::alloc::Global;
use std::collections::VecDeque;
use std::marker::Model;

/// What a sender answers where an order is submitted.
#[derive(Clone, Copy, Debug, PartialEq, Eq)]
pub enum Submitted {
    /// The order was taken, under this number.
    Taken { number: u64 },
    /// So many orders wait for an acknowledgement, which is all that the window has room for.
    Window { waiting: u32 },
}

/// What a sender answers to an acknowledgement. The counts are the message's.
#[derive(Clone, Copy, Debug, PartialEq, Eq)]
pub enum Heard {
    /// So many orders are acknowledged now.
    Fresh { count: u64 },
    /// No more than were heard of before: nothing changes.
    Old { count: u64 },
    /// More than were submitted: nothing changes.
    Beyond { count: u64 },
    /// The message is of this other incarnation: nothing changes.
    Other { incarnation: u64 },
}

/// The sender of orders: it keeps those that are not acknowledged yet, as many as its window has
/// room for, in a queue.
#[derive(Drop)]
pub struct Sender {
    alloc: Global,
    incarnation: u64,
    window: u32,
    acknowledged: u64,
    waiting: VecDeque<Order>,
}

impl Model for Sender {
    ghost use Rattle.cb_rma.specs.Sending.{SenderState, IsSender, sender_of};

    ghost Value = { SenderState };

    ghost view = { λ a. sender_of a.incarnation a.window a.acknowledged a.waiting.items };

    ghost invariant = { λ a.
        IsSender (sender_of a.incarnation a.window a.acknowledged a.waiting.items) };
}

impl Sender {
    /// A sender of this incarnation that took no order yet; takes no memory.
    pub fn new(alloc: Global, incarnation: u64, window: u32) -> Sender
        requires some { 1 ≤ window }
        requires few { window ≤ 64 }
        ensures { result ≡ new_sender incarnation window }
    {
        Sender {
            alloc,
            incarnation,
            window,
            acknowledged: 0,
            waiting: VecDeque::new(alloc),
        }
    }

    /// How many orders may wait for an acknowledgement.
    pub fn window(&self) -> u32
        ensures window { result ≡ self.now.window }
        ensures valid { IsSender self.now }
    {
        self.window
    }

    /// Takes the order, under the next number, where fewer orders than the window wait for an
    /// acknowledgement. Running out of memory changes nothing and does not come from a full window.
    pub fn submit(&mut self, order: &Order) -> Result<Submitted, NoMemory>
        requires { submitted self.old < 2 ^ 40 }
        ensures answer { IfOk result (λ answer. answer ≡ answer_to_order self.old) }
        ensures after { IfOk result (λ answer. self.new ≡ after_order self.old order.now answer) }
        ensures err { OnErr result (self.new ≡ self.old) }
        ensures err_only_with_room { OnErr result (length self.old.waiting < self.old.window) }
    {
        let waiting = self.waiting.len();
        if waiting == self.window as usize {
            return Ok(Submitted::Window {
                waiting: self.window,
            });
        }
        let number = self.acknowledged + waiting as u64;
        let order = order.copy(self.alloc)?;
        self.waiting.push_back(order)?;
        Ok(Submitted::Taken { number })
    }

    /// The message with the order of this number, and None exactly where no such order waits for an
    /// acknowledgement.
    pub fn ask(&self, alloc: Global, number: u64) -> Result<Option<Ask>, NoMemory>
        ensures { IfOk result (λ ask. ask ≡ ask_of self.now number) }
    {
        if number < self.acknowledged {
            return Ok(None);
        }
        let place = (number - self.acknowledged) as usize;
        match self.waiting.get(place) {
            Some(order) => message(alloc, self.incarnation, number, order),
            None => Ok(None),
        }
    }

    /// Hears what a keeper tells: the orders that it applied need not be kept any more. Takes no
    /// memory.
    pub fn heard(&mut self, ack: &Ack) -> Heard
        ensures answer { result ≡ hears self.old ack.now }
        ensures after { self.new ≡ after_heard self.old result }
    {
        let count = ack.count;
        if ack.incarnation != self.incarnation {
            return Heard::Other {
                incarnation: ack.incarnation,
            };
        }
        if count > self.acknowledged + self.waiting.len() as u64 {
            return Heard::Beyond { count };
        }
        if count <= self.acknowledged {
            return Heard::Old { count };
        }
        drop_front(&mut self.waiting, (count - self.acknowledged) as usize);
        self.acknowledged = count;
        Heard::Fresh { count }
    }
}

/// The message with a copy of the order, which is of this number.
fn message(
    alloc: Global,
    incarnation: u64,
    number: u64,
    order: &Order,
) -> Result<Option<Ask>, NoMemory>
    ensures { IfOk result (λ ask. ask ≡ Some (message incarnation number order.now)) }
{
    let order = order.copy(alloc)?;
    Ok(Some(Ask {
        incarnation,
        number,
        order,
    }))
}

/// Drops so many orders from the front of the queue, which has them.
fn drop_front(waiting: &mut VecDeque<Order>, count: usize)
    ensures { waiting.new.items ≡ drop count waiting.old.items }
{
    for _ in 0..count {
        waiting.pop_front();
    }
}
