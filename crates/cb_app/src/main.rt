//! The program `carbink`: reads or draws a script, answers or checks it, and writes what it has to
//! tell; or answers commands on a far array and a far map.
#![tactic(auto)]

mod by_lane;
pub mod commands;
pub mod crew;
mod drawn;
pub mod ending;
#[cfg(test)]
mod gates;
mod mapping;
pub mod over;
pub mod run;
pub mod threads;
pub mod top;

use cb_types::{StdSink, StdSource};
use ending::Ending;
use over::carbink_over;
use std::io::ErrorKind;
use std::process::ExitCode;
use std::rt::Env;
use std::{env, io, mem};

/// The words after the program's name.
fn argument_words<R: Env + AllocGlobal>(rt: &R) -> io::Result<Vec<String>> {
    let mut words = Vec::new(rt.alloc());
    for word in env::args(rt)?.skip(1) {
        words.push(word)?;
    }
    Ok(words)
}

/// The words after the program's name, or the exit status where there is no memory for them.
/// A word that is not UTF-8 makes the words be of no form, as an empty list is.
fn words_or_status<R: Env + AllocGlobal>(rt: &R) -> Result<Vec<String>, u8> {
    match argument_words(rt) {
        Ok(words) => Ok(words),
        Err(error) if error.kind() == ErrorKind::OutOfMemory => Err(5),
        Err(_) => Ok(Vec::new(rt.alloc())),
    }
}

fn main(rt: HostRuntime) -> ExitCode {
    let words = match words_or_status(&rt) {
        Ok(words) => words,
        Err(status) => return ExitCode::from(status),
    };
    let alloc = rt.alloc();
    let mut source = StdSource::new(rt.stdin());
    let mut sink = StdSink::new(rt.stdout());
    let mut end = Ending::new(alloc);
    let status = carbink_over(
        &rt,
        alloc,
        words.as_slice(),
        &mut source,
        &mut sink,
        &mut end,
    );
    // The system takes all memory back at once, faster than piece by piece.
    mem::forget(end);
    ExitCode::from(status)
}
