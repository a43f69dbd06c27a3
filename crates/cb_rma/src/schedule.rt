//! A schedule from its begin to its end.

ghost use Rattle.std.specs.Prelude.{◌<◌, ◌≤◌, ◌^◌, count_by, IfOk};
ghost use Rattle.cb_rma.specs.Schedule.{is_submit};
ghost use Rattle.cb_rma.specs.Ends.{Ends};

use crate::course::Course;
use crate::keeper::Keeper;
use crate::sender::Sender;
use crate::step::{Saids, Step};
use cb_member::NoMemory;
use std::alloc::Global;

/// Where a schedule ends: both sides, and what was said to each event.
#[derive(Drop)]
pub struct Ended {
    pub sender: Sender,
    pub keeper: Keeper,
    pub said: Saids,
}

/// Runs a schedule from incarnation 0 on, with an empty keeper and an empty sender, whose window has
/// room for so many orders. It takes memory for the messages that were sent and what was said alone.
pub fn run_schedule(alloc: Global, window: u32, events: &[Step]) -> Result<Ended, NoMemory>
    requires some { 1 ≤ window }
    requires few { window ≤ 64 }
    requires small { count_by is_submit events.now < 2 ^ 40 }
    ensures { IfOk result (Ends window events.now) }
{
    let mut course = Course {
        alloc,
        sender: Sender::new(alloc, 0, window),
        keeper: Keeper::new(alloc, 0),
        asks: Vec::new(alloc),
        acks: Vec::new(alloc),
    };
    let mut said = Saids::new(alloc);
    for event in events {
        said.push(course.step(event)?)?;
    }
    Ok(Ended {
        sender: course.sender,
        keeper: course.keeper,
        said,
    })
}
