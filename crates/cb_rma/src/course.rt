//! A schedule on its way: both sides and all messages that were sent.

ghost use Rattle.std.specs.Prelude.{◌≡◌, ◌∷◌, [], ◌++◌, ◌<◌, ◌^◌, ◌-◌, length, IfOk, OnOk};
ghost use Rattle.cb_rma.specs.Sending.{submitted};
ghost use Rattle.cb_rma.specs.Keeping.{acks_of};
ghost use Rattle.cb_rma.specs.Course.{CourseMoves, HasRoomForEvent};
ghost use Rattle.cb_rma.specs.declared.step.Step.TheVariants as event;

use crate::keeper::{Handled, Keeper};
use crate::order::{Ack, Ask, Order};
use crate::sender::Sender;
use crate::step::{Said, Step};
use cb_member::NoMemory;
use cb_types::Bytes;
use std::alloc::Global;

/// A schedule on its way: both sides, and all messages that were ever sent, by their numbers.
#[derive(Drop)]
pub(crate) struct Course {
    pub(crate) alloc: Global,
    pub(crate) sender: Sender,
    pub(crate) keeper: Keeper,
    pub(crate) asks: Vec<Ask>,
    pub(crate) acks: Vec<Ack>,
}

impl Course {
    /// Does what the event says. After running out of memory the course is not gone on with.
    pub(crate) fn step(&mut self, event: &Step) -> Result<Said, NoMemory>
        requires { HasRoomForEvent self.old }
        ensures { IfOk result (λ said. CourseMoves self.old event.now said self.new) }
    {
        match event {
            Step::Submit { order } => self.submit(order),
            Step::Send { number } => self.send(*number),
            Step::Ask { packet } => self.bring_ask(*packet),
            Step::Ack { packet } => Ok(self.bring_ack(*packet)),
            Step::Restart => Ok(self.restart()),
            Step::Show { key } => self.show(*key),
        }
    }

    fn submit(&mut self, order: &Order) -> Result<Said, NoMemory>
        requires { submitted self.old.sender < 2 ^ 40 }
        ensures { IfOk result
            (λ said. CourseMoves self.old (event.Submit order.now) said self.new) }
    {
        let answer = self.sender.submit(order)?;
        Ok(Said::Submitted(answer))
    }

    fn send(&mut self, number: u64) -> Result<Said, NoMemory>
        ensures { IfOk result (λ said. CourseMoves self.old (event.Send number) said self.new) }
    {
        match self.sender.ask(self.alloc, number)? {
            Some(ask) => send_ask(&mut self.asks, ask),
            None => Ok(Said::Nothing),
        }
    }

    fn bring_ask(&mut self, packet: u64) -> Result<Said, NoMemory>
        requires { self.old.keeper.count < 2 ^ 40 }
        ensures { IfOk result (λ said. CourseMoves self.old (event.Ask packet) said self.new) }
    {
        let Some(ask) = self.asks.get(packet as usize) else {
            return Ok(Said::NoPacket);
        };
        let answer = self.keeper.on_ask(ask)?;
        send_ack(&mut self.acks, &answer)?;
        Ok(Said::Handled(answer))
    }

    fn bring_ack(&mut self, packet: u64) -> Said
        ensures { CourseMoves self.old (event.Ack packet) result self.new }
    {
        match self.acks.get(packet as usize) {
            Some(ack) => Said::Heard(self.sender.heard(ack)),
            None => Said::NoPacket,
        }
    }

    fn restart(&mut self) -> Said
        requires { self.old.keeper.incarnation < 2 ^ 64 - 1 }
        ensures { CourseMoves self.old event.Restart result self.new }
    {
        let n = self.keeper.incarnation() + 1;
        self.sender = Sender::new(self.alloc, n, self.sender.window());
        self.keeper = Keeper::new(self.alloc, n);
        Said::Incarnation { n }
    }

    fn show(&self, key: u64) -> Result<Said, NoMemory>
        ensures { IfOk result (λ said. CourseMoves self.now (event.Show key) said self.now) }
    {
        match self.keeper.row(key) {
            Some(row) => {
                let row = Bytes::copy_of(self.alloc, row)?;
                Ok(Said::Row { row })
            }
            None => Ok(Said::NoRow),
        }
    }
}

/// Sends the message, under the next number.
fn send_ask(asks: &mut Vec<Ask>, ask: Ask) -> Result<Said, NoMemory>
    ensures said { IfOk result (λ said. said ≡ Said.Sent (length asks.old.items)) }
    ensures sent { OnOk result (asks.new.items ≡ asks.old.items ++ ask ∷ []) }
{
    let packet = asks.len() as u64;
    asks.push(ask)?;
    Ok(Said::Sent { packet })
}

/// Sends the acknowledgement of an answer, where it has one.
fn send_ack(acks: &mut Vec<Ack>, answer: &Handled) -> Result<(), NoMemory>
    ensures { OnOk result (acks.new.items ≡ acks.old.items ++ acks_of answer.now) }
{
    match answer {
        Handled::Applied(ack) | Handled::Repeated(ack) | Handled::Ahead(ack) => {
            acks.push(*ack)?;
            Ok(())
        }
        Handled::Other { .. } => Ok(()),
    }
}
