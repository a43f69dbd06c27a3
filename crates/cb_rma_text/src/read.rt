//! A text of a schedule is read.

ghost use Rattle.std.specs.Prelude.{◌≡◌, ◌+◌, ◌≤◌, MatchResult, IfOk};
ghost use Rattle.cb_script.specs.Spelling.{lines_of};
ghost use Rattle.cb_rma_text.specs.First.{First};
ghost use Rattle.cb_rma_text.specs.Form.{Spells};
ghost use Rattle.cb_rma_text.specs.Reading.{AreTheEvents, FaultIs, HasBadLine, IsPushed};
ghost use Rattle.cb_rma_text.specs.declared.read.Fault.TheVariants.{Line, NoMemory as OutOfMemory};

use crate::event::event_of;
use crate::header::window_of;
use cb_rma::Step;
use cb_script::first_line;
use cb_types::NoMemory;
use std::alloc::Global;

/// The longest text of a schedule has so many bytes.
const LONGEST_TEXT: usize = 1_048_576;

/// The longest schedule has so many events.
const MOST_EVENTS: usize = 20_000;

/// A schedule that was read.
#[derive(Drop)]
pub(crate) struct Schedule {
    /// How many orders may wait for an acknowledgement.
    pub(crate) window: u32,
    /// The events, in order.
    pub(crate) events: Vec<Step>,
}

/// Why no schedule was read.
#[derive(Clone, Copy)]
pub(crate) enum Fault {
    /// The first line that is outside the form. It is 0 where there are too many bytes, and the
    /// header is line 1.
    Line { line: u32 },
    /// There was no memory for what was read.
    NoMemory,
}

impl From<NoMemory> for Fault {
    ghost from_gives = { λ _ fault. fault ≡ OutOfMemory };

    fn from(_refused: NoMemory) -> Fault {
        Fault::NoMemory
    }
}

/// The schedule that the bytes spell, or the first line that is outside the form.
pub(crate) fn schedule_of(alloc: Global, bytes: &[u8]) -> Result<Schedule, Fault>
    ensures { MatchResult result
        (λ schedule. Spells bytes.now schedule.window schedule.events.items)
        (λ fault. FaultIs fault (First bytes.now)) }
{
    if bytes.len() > LONGEST_TEXT {
        return Err(Fault::Line { line: 0 });
    }
    if bytes.is_empty() {
        return Err(Fault::Line { line: 1 });
    }
    let (header, text) = first_line(bytes);
    let Some(window) = window_of(header) else {
        return Err(Fault::Line { line: 1 });
    };
    let events = events_of(alloc, text)?;
    Ok(Schedule { window, events })
}

/// The events of a text after a header, or the first line that is none, or is one too many.
fn events_of(alloc: Global, text: &[u8]) -> Result<Vec<Step>, Fault>
    ensures { MatchResult result
        (λ events. AreTheEvents (lines_of text.now) events.items)
        (λ fault. FaultIs fault (HasBadLine (lines_of text.now))) }
{
    let mut events = Vec::new(alloc);
    let mut rest = text;
    while !rest.is_empty() {
        let (line, behind) = first_line(rest);
        let before = events.len();
        if before >= MOST_EVENTS {
            return Err(fault_behind(before));
        }
        if !push_event(alloc, &mut events, line)? {
            return Err(fault_behind(before));
        }
        rest = behind;
    }
    Ok(events)
}

/// That the line after the header and so many events is outside the form.
fn fault_behind(events: usize) -> Fault
    requires { events ≤ 20000 }
    ensures { result ≡ Line (events + 2) }
{
    Fault::Line {
        line: events as u32 + 2,
    }
}

/// Adds the event that a line of this text is at the end, and tells whether it is one.
fn push_event(alloc: Global, events: &mut Vec<Step>, text: &[u8]) -> Result<bool, NoMemory>
    ensures { IfOk result (IsPushed events.old.items events.new.items text.now) }
{
    let Some(event) = event_of(alloc, text)? else {
        return Ok(false);
    };
    events.push(event)?;
    Ok(true)
}
