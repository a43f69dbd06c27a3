//! The clock. None is answered where there is none.
use std::thread;
use std::time::{Clock, Duration, Instant};

/// How long a batch is held, in milliseconds.
const HELD: u64 = 100;

/// Sleeps as long as a batch is held.
pub(crate) fn hold<R: Clock>(rt: &R) {
    thread::sleep(rt, Duration::from_millis(HELD));
}

pub(crate) fn now<R: Clock>(rt: &R) -> Option<Instant> {
    Instant::now(rt).ok()
}

/// The nanoseconds since then.
pub(crate) fn since<R: Clock>(rt: &R, start: Instant) -> Option<u64> {
    match start.elapsed(rt) {
        Ok(elapsed) => u64::try_from(elapsed.as_nanos()).ok(),
        Err(_) => None,
    }
}

/// The nanoseconds since then, and those before.
pub(crate) fn more<R: Clock>(rt: &R, before: Option<u64>, start: Option<Instant>) -> Option<u64> {
    Some(before?.saturating_add(since(rt, start?)?))
}
