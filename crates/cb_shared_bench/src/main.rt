//! Times calls of the shared runtime for `bench/pins`. The words are what is timed (`pin`, `look`,
//! `peek`, `write8`, `write1024`, `read`, `far`, `turn`, `stepread` and `stepfar` for the same
//! reads in a still world, for `bench/waiting` `waiting`, reads of an object whose batch is
//! leaving, and is given up only after 100 milliseconds, and for `bench/farmap` `write`, `get`,
//! `set`, `push`, `pop`, `maplook` and `mapput`), how many threads make these calls (of an array
//! and of a map one), and how many slices are timed. It prints the least time of a call in
//! picoseconds, over that many slices, or 0 where no slice is asked for.
//!
//! `begin`, `gather`, `swap` and `fetch` are rounds of turns on one thread. Those of its turns are
//! timed that have coding work in them, or leave it to be done under no lock: a batch that begins
//! to leave, and as many far reads as a set has parities, each of an object whose shard is lost.
//! With `beside` before them one thread makes so many of these rounds, and another one turns that
//! find nothing to do until the first is done: it prints how many these were, and the time of all
//! rounds in nanoseconds. A fourth word is how many data positions a set has; it has as many
//! parities, at most four.
#![tactic(auto)]

mod beside;
mod calls;
mod crew;
mod deeds;
mod far;
mod objects;
mod replies;
mod rounds;
mod still;
mod timing;

use crate::deeds::{Deed, calls_of, deed_of};
use std::alloc::Global;
use std::process::ExitCode;
use std::rt::Env;
use std::sync::Wait;
use std::thread::Threads;
use std::time::Clock;
use std::{env, io};

/// The most threads, and the most data positions.
const MOST_THREADS: u32 = 16;

const MOST_POSITIONS: u32 = 16;

/// The time of one slice in nanoseconds; None where a call was refused.
fn slice<R: Clock + Threads + Wait + Sync>(
    rt: &R,
    alloc: Global,
    deed: Deed,
    threads: u32,
    k: u32,
) -> Option<u64> {
    match deed {
        Deed::StepRead => still::slice(rt, alloc, calls_of(deed), false),
        Deed::StepFar => still::slice(rt, alloc, calls_of(deed), true),
        Deed::Get | Deed::Set | Deed::Push | Deed::Pop | Deed::MapLook | Deed::MapPut => {
            far::slice(rt, alloc, deed)
        }
        _ => crew::slice(rt, alloc, deed, threads, k),
    }
}

/// The least time of a call in picoseconds.
fn least<R: Clock + Threads + Wait + Sync>(
    rt: &R,
    alloc: Global,
    deed: Deed,
    threads: u32,
    slices: u32,
    k: u32,
) -> Option<u64> {
    if slices == 0 {
        return Some(0);
    }
    let mut least = u64::MAX;
    for _ in 0..slices {
        least = least.min(slice(rt, alloc, deed, threads, k)?);
    }
    Some(least.saturating_mul(1000) / u64::from(calls_of(deed).max(1)))
}

/// The word at a place of the command line, as a number.
fn number_at<R: Env + AllocGlobal>(rt: &R, place: usize) -> io::Result<u32> {
    match env::args(rt)?.nth(place) {
        Some(word) => Ok(word.as_str().parse::<u32>().unwrap_or(0)),
        None => Ok(0),
    }
}

fn main(rt: HostRuntime) -> io::Result<ExitCode> {
    let deed = match env::args(&rt)?.nth(1) {
        Some(word) => deed_of(word.as_str()),
        None => None,
    };
    let threads = number_at(&rt, 2)?.clamp(1, MOST_THREADS);
    let slices = number_at(&rt, 3)?;
    let k = number_at(&rt, 4)?.clamp(1, MOST_POSITIONS);
    let Some(deed) = deed else {
        return Ok(ExitCode::FAILURE);
    };
    if let Deed::Beside(_) = deed {
        return match crew::beside(&rt, rt.alloc(), deed, k) {
            Some((turns, took)) => {
                println!(rt; "{turns} {took}")?;
                Ok(ExitCode::SUCCESS)
            }
            None => Ok(ExitCode::FAILURE),
        };
    }
    match least(&rt, rt.alloc(), deed, threads, slices, k) {
        Some(least) => {
            println!(rt; "{least}")?;
            Ok(ExitCode::SUCCESS)
        }
        None => Ok(ExitCode::FAILURE),
    }
}
