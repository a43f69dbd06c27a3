//! How a call waits for others before it looks again.
ghost use Rattle.std.specs.Prelude.{◌≡◌, ◌+◌, ◌≤◌, ◌||◌, false, if◌then◌else◌, min, Some};
ghost use Rattle.cb_shared.specs.Fetching.{brings, finds_here};

use crate::runtime::Shared;
use cb_types::Reply;
use std::sync::Wait;
use std::time::Duration;
use std::{hint, thread};

/// So many waits spin, and so many more yield the processor; those after them sleep.
const SPINS: u32 = 32;

const YIELDS: u32 = 8;

/// The shortest sleep in microseconds, and how often it doubles: to a millisecond.
const SHORTEST_SLEEP: u64 = 16;

const DOUBLINGS: u32 = 6;

/// How long a call has waited for others, and whether a turn of its own brought its object in.
#[derive(Drop)]
pub struct Patience {
    waits: u32,
    brought: bool,
}

impl Patience {
    /// A call that has not waited yet.
    pub fn new() -> Patience
        ensures brought { result.brought ≡ false }
        ensures waits { result.waits ≡ 0 }
    {
        Patience {
            waits: 0,
            brought: false,
        }
    }

    /// Whether a turn of the call brought its object in.
    pub(crate) fn has_brought(&self) -> bool
        ensures { result ≡ self.now.brought }
    {
        self.brought
    }
}

impl Shared {
    /// Waits a little for whoever stands in the way of a call, the longer the more often it was
    /// asked: it spins, then yields, and then sleeps, up to a millisecond. So a wait that goes on
    /// costs a processor almost nothing, and a sleep holds nobody up. Waits for nothing else.
    pub fn wait<R: Wait>(&self, rt: &R, patience: &mut Patience)
        ensures brought { patience.new.brought ≡ patience.old.brought }
        ensures waits { patience.new.waits ≡ min (patience.old.waits + 1) 46 }
    {
        let waits = patience.waits;
        if waits < SPINS {
            patience.waits = waits + 1;
            hint::spin_loop();
        } else if waits < SPINS + YIELDS {
            patience.waits = waits + 1;
            thread::yield_now();
        } else {
            patience.waits = waits.min(SPINS + YIELDS + DOUBLINGS - 1) + 1;
            self.sleep(rt, (waits - SPINS - YIELDS).min(DOUBLINGS));
        }
    }

    /// Waits after a turn that did not answer its call, unless it brought the object in, or found
    /// it here, where another pass brought it in: then the next look comes at once.
    pub fn wait_behind<R: Wait>(&self, rt: &R, reply: &Reply, patience: &mut Patience)
        ensures brought { patience.new.brought
            ≡ (brings (Some reply.now) || patience.old.brought) }
        ensures waits { patience.new.waits ≡ (if finds_here (Some reply.now)
            then patience.old.waits else min (patience.old.waits + 1) 46) }
    {
        if !finds_here(reply) {
            self.wait(rt, patience);
        }
        patience.brought = brings(reply) | patience.brought;
    }

    /// Sleeps 16 microseconds, doubled so often, 6 times at most. It sleeps on the last word of the
    /// table, on which nobody is woken.
    fn sleep<R: Wait>(&self, rt: &R, doublings: u32)
        requires { doublings ≤ 6 }
    {
        let last = 2 * self.config.handles as usize + 512 * self.config.frames as usize;
        let word = self.board.shared.peek(last);
        let length = Duration::from_micros(SHORTEST_SLEEP << doublings);
        self.board
            .shared
            .park_timeout(rt, last, (word & 0xffff_ffff) as u32, length);
    }
}

/// Whether a turn with this reply brought its object in.
fn brings(reply: &Reply) -> bool
    ensures { result ≡ brings (Some reply.now) }
{
    match reply {
        Reply::Swapped { .. } => true,
        _ => false,
    }
}

/// Whether it did, or found the object here.
fn finds_here(reply: &Reply) -> bool
    ensures { result ≡ finds_here (Some reply.now) }
{
    match reply {
        Reply::Stays | Reply::Swapped { .. } => true,
        _ => false,
    }
}
