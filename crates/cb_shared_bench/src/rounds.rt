//! Rounds of turns on spans that leave and come back, with their coding work under the far lock and
//! outside of it. None is answered where a turn was not answered so.
ghost use Rattle.std.specs.Prelude.{◌≡◌, true, Some};
ghost use Rattle.cb_types.specs.declared.order.Kept.TheVariants.{Encode, Decode};
ghost use Rattle.cb_shared.specs.Passes.{record_of};
ghost use Rattle.cb_shared_bench.specs.Callers.{IsCaller, IsPlain};

use crate::calls::turn;
use crate::deeds::Round;
use crate::objects::SLOTS;
use crate::timing::{more, now, since};
use cb_core::{Fetching, Gathered};
use cb_orders::{DecodeDone, EncodeDone, run_decode, run_encode};
use cb_shared::{Pass, Shared};
use cb_types::{Config, Handle, Job, NodeId, Reply};
use std::alloc::Global;
use std::sync::Wait;
use std::time::Clock;

/// How long a slice takes, in nanoseconds.
const WINDOW: u64 = 50_000_000;

/// As the time of how many rounds it is told.
const ROUNDS: u64 = 1_000;

/// More rounds than a slice has.
const MOST: u32 = 100_000_000;

/// The batch of the order that was run gets its parities; the time of that, and the time before.
fn install<R: Clock + Wait>(
    rt: &R,
    shared: &Shared,
    pass: &mut Pass,
    h: Handle,
    done: EncodeDone,
    before: Option<u64>,
) -> Option<u64>
    requires caller { IsCaller shared.now h pass.old }
    requires kept { (record_of pass.old).order ≡ Some (Encode done.order) }
    ensures caller { IsCaller shared.now h pass.new }
{
    let _h = h;
    let start = now(rt);
    match shared.install(rt, pass, done) {
        Reply::Done => more(rt, before, start),
        _ => None,
    }
}

/// A batch begins to leave, and gets the parities that are made under no lock; the time of both
/// turns.
fn gather<R: Clock + Wait>(
    rt: &R,
    alloc: Global,
    shared: &Shared,
    pass: &mut Pass,
    h: Handle,
) -> Option<u64>
    requires caller { IsCaller shared.now h pass.old }
    ensures caller { IsCaller shared.now h pass.new }
{
    let start = now(rt)?;
    match shared.gather(rt, alloc, pass) {
        Ok(Gathered::Order(order)) => {
            let took = since(rt, start);
            match run_encode(alloc, order) {
                Ok(done) => install(rt, shared, pass, h, done, took),
                Err(_) => None,
            }
        }
        _ => None,
    }
}

/// The span whose row was made comes in; the time of that, and the time before.
fn land<R: Clock + Wait>(
    rt: &R,
    alloc: Global,
    shared: &Shared,
    pass: &mut Pass,
    h: Handle,
    done: DecodeDone,
    before: Option<u64>,
) -> Option<u64>
    requires caller { IsCaller shared.now h pass.old }
    requires kept { (record_of pass.old).order ≡ Some (Decode done.order) }
    ensures caller { IsCaller shared.now h pass.new }
{
    let _h = h;
    let start = now(rt);
    match shared.land(rt, alloc, pass, done) {
        Ok(Reply::Swapped { .. }) => more(rt, before, start),
        _ => None,
    }
}

/// The rows of a far object's set are handed out, its own is made under no lock, and it comes in;
/// the time of both turns.
fn fetch<R: Clock + Wait>(
    rt: &R,
    alloc: Global,
    shared: &Shared,
    pass: &mut Pass,
    h: Handle,
    far: Handle,
) -> Option<u64>
    requires caller { IsCaller shared.now h pass.old }
    ensures caller { IsCaller shared.now h pass.new }
{
    if far.n >= shared.config().handles {
        return None;
    }
    let start = now(rt)?;
    match shared.fetch(rt, alloc, pass, far) {
        Ok(Fetching::Order(order)) => {
            let took = since(rt, start);
            match run_decode(alloc, order) {
                Ok(done) => land(rt, alloc, shared, pass, h, done, took),
                Err(_) => None,
            }
        }
        _ => None,
    }
}

/// Whether a job is about no object, or about a span or a node that there is.
pub(crate) fn is_plain(config: &Config, job: &Job) -> bool
    ensures { result ≡ true → IsPlain config.now job.now }
{
    match job {
        Job::Begin | Job::Abort | Job::Evict => true,
        Job::Swap { handle } => handle.n < config.handles,
        Job::Crash { node } | Job::Join { node } => u32::from(node.n) < config.nodes,
        _ => false,
    }
}

/// A turn, and its time.
fn time_turn<R: Clock + Wait>(
    rt: &R,
    alloc: Global,
    shared: &Shared,
    pass: &mut Pass,
    h: Handle,
    job: &Job,
) -> Option<u64>
    requires caller { IsCaller shared.now h pass.old }
    ensures caller { IsCaller shared.now h pass.new }
{
    if !is_plain(&shared.config(), job) {
        return None;
    }
    let start = now(rt)?;
    if turn(rt, alloc, shared, pass, h, job) {
        since(rt, start)
    } else {
        None
    }
}

/// A turn of this job, with the one that takes its order, if it hands one out; their time.
fn time_job<R: Clock + Wait>(
    rt: &R,
    alloc: Global,
    shared: &Shared,
    pass: &mut Pass,
    h: Handle,
    job: &Job,
) -> Option<u64>
    requires caller { IsCaller shared.now h pass.old }
    ensures caller { IsCaller shared.now h pass.new }
{
    match job {
        Job::Gather => gather(rt, alloc, shared, pass, h),
        Job::Fetch { handle } => fetch(rt, alloc, shared, pass, h, *handle),
        _ => time_turn(rt, alloc, shared, pass, h, job),
    }
}

/// The node of this number.
fn node(n: u32) -> NodeId {
    NodeId {
        n: u8::try_from(n).unwrap_or(u8::MAX),
    }
}

/// The first object of a span.
fn first_in(span: u32) -> Handle {
    Handle {
        n: SLOTS.saturating_mul(span),
    }
}

/// The job at a place of a round in which all spans leave, the first r of them lose their shards
/// and come in, by swaps or by orders, and then the others come in.
fn reading_at(round: Round, r: u32, place: u32) -> Job {
    let n = place.saturating_sub(1);
    if place == 0 {
        Job::Evict
    } else if n < r {
        Job::Crash { node: node(n) }
    } else if n - r < r {
        let handle = first_in(n - r);
        match round {
            Round::Fetch => Job::Fetch { handle },
            _ => Job::Swap { handle },
        }
    } else if n - r - r < r {
        Job::Join {
            node: node(n - r - r),
        }
    } else {
        Job::Swap {
            handle: first_in(n - r - r),
        }
    }
}

/// The job at a place of a round.
fn job_at(round: Round, r: u32, place: u32) -> Job {
    match round {
        Round::Begin if place == 0 => Job::Begin,
        Round::Gather if place == 0 => Job::Gather,
        Round::Begin | Round::Gather => Job::Abort,
        _ => reading_at(round, r, place),
    }
}

/// Whether the turns at a place of a round are those that are timed: the begin, or the reads of
/// objects that lost their shards.
fn is_timed(round: Round, r: u32, place: u32) -> bool {
    match round {
        Round::Begin | Round::Gather => place == 0,
        _ => place > r && place - r <= r,
    }
}

/// How many places a round has.
fn length(round: Round, config: &Config) -> u32 {
    match round {
        Round::Begin | Round::Gather => 2,
        _ => 1 + 2 * config.r.min(4) + config.k.min(16),
    }
}

/// A round; the time of the turns in it that are timed.
pub(crate) fn time_round<R: Clock + Wait>(
    rt: &R,
    alloc: Global,
    shared: &Shared,
    pass: &mut Pass,
    h: Handle,
    round: Round,
) -> Option<u64>
    requires caller { IsCaller shared.now h pass.old }
    ensures caller { IsCaller shared.now h pass.new }
{
    let config = shared.config();
    let mut sum = 0u64;
    for place in 0..length(round, &config) {
        let job = job_at(round, config.r, place);
        let took = time_job(rt, alloc, shared, pass, h, &job)?;
        if is_timed(round, config.r, place) {
            sum = sum.saturating_add(took);
        }
    }
    Some(sum)
}

/// As many rounds as there is time for in a slice; the time of so many of them as a slice is said
/// to have.
pub(crate) fn time_window<R: Clock + Wait>(
    rt: &R,
    alloc: Global,
    shared: &Shared,
    pass: &mut Pass,
    h: Handle,
    round: Round,
) -> Option<u64>
    requires caller { IsCaller shared.now h pass.old }
{
    let start = now(rt)?;
    let mut timed = 0u64;
    for count in 1..MOST {
        timed = timed.saturating_add(time_round(rt, alloc, shared, pass, h, round)?);
        if since(rt, start)? >= WINDOW {
            return Some(timed.saturating_mul(ROUNDS) / u64::from(count));
        }
    }
    None
}
