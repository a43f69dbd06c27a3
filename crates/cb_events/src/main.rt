//! Answers a list of events, for `tests/events`: it reads a configuration and the events after it
//! as bytes, lets them come one after another from the empty world, and writes a line for each
//! reply and one that tells how many bytes it did not read.
#![tactic(auto)]

pub mod answering;
mod reading;
mod telling;

use answering::answer_all;
use cb_cli::{Due, status};
use cb_types::{StdSink, StdSource};
use std::process::ExitCode;

/// The exit status: 0 done, 3 reading failed, 4 writing failed, 5 out of memory.
fn main(rt: HostRuntime) -> ExitCode {
    let mut source = StdSource::new(rt.stdin());
    let mut sink = StdSink::new(rt.stdout());
    match answer_all(rt.alloc(), &mut source, &mut sink) {
        Ok(()) => ExitCode::from(status(Ok(Due::Done))),
        Err(failure) => ExitCode::from(status(Err(failure))),
    }
}
