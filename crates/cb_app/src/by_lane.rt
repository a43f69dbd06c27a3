//! The lines of one lane, and the names that lane 0 made.
ghost use Rattle.std.specs.Prelude.{◌≡◌, ◌<◌, ◌++◌, ℕ, IfOk, get_or, false};
ghost use Rattle.cb_app.specs.ByLane.{has_lines, of_lane};
ghost use Rattle.cb_app.specs.Crew.{handle_told, name_made, names_in};

use cb_lanes::{Named, Names};
use cb_script::{Line, Lines};
use cb_types::{Answer, Answers, Handle, Lane, NoMemory, Reply, Request};
use std::alloc::Global;

/// How many lanes a byte can name.
const NAMED_LANES: usize = 256;

/// Which lanes the lines have. Takes no memory.
pub(crate) fn used_lanes(lines: &[Line]) -> [bool; NAMED_LANES]
    ensures { (lane : ℕ) → lane < 256 → get_or result lane false ≡ has_lines lane lines.now }
{
    let mut used = [false; NAMED_LANES];
    for line in lines {
        used[usize::from(line.lane.n)] = true;
    }
    used
}

/// A copy of the lines of one lane, in order.
pub(crate) fn of_lane(alloc: Global, lines: &[Line], lane: Lane) -> Result<Lines, NoMemory>
    ensures { IfOk result (λ own. own ≡ of_lane lane.n lines.now) }
{
    let mut own = Lines::new(alloc);
    for line in lines {
        if line.lane.n == lane.n {
            own.push(copy_of(alloc, line)?)?;
        }
    }
    Ok(own)
}

fn copy_of(alloc: Global, line: &Line) -> Result<Line, NoMemory>
    ensures { IfOk result (λ copy. copy ≡ line.now) }
{
    Ok(Line {
        lane: line.lane,
        line: line.line,
        request: line.request.copy(alloc)?,
    })
}

/// The names that were made, each with its handle, in the order of the makes.
pub(crate) fn names_of(alloc: Global, answers: &Answers) -> Result<Names, NoMemory>
    ensures { IfOk result (λ names. names ≡ names_in answers.now) }
{
    let mut names = Names::new(alloc);
    for answer in answers.as_slice() {
        add_name(alloc, &mut names, answer)?;
    }
    Ok(names)
}

/// Adds the name that an answered line made, where it made one.
fn add_name(alloc: Global, names: &mut Names, answer: &Answer) -> Result<(), NoMemory>
    ensures { IfOk result (λ _. names.new
        ≡ names.old ++ name_made answer.now.request answer.now.reply) }
{
    if let Request::Make { name, .. } = &answer.request {
        names.push(Named {
            name: name.copy(alloc)?,
            handle: handle_told(&answer.reply),
        })?;
    }
    Ok(())
}

/// The handle that a make was answered, unless it was refused.
fn handle_told(reply: &Reply) -> Option<Handle>
    ensures { result ≡ handle_told reply.now }
{
    match reply {
        Reply::Made { handle, .. } => Some(*handle),
        _ => None,
    }
}
