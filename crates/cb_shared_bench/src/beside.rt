//! Turns that find nothing to do, beside a thread that makes a fixed number of rounds. That thread
//! lets a node crash after its last round; the other one asks again and again that this node joins,
//! which finds it up until then.
ghost use Rattle.cb_shared_bench.specs.Callers.{IsCaller, IsPlain};

use crate::calls::{turn, turn_finds_up};
use crate::deeds::Round;
use crate::rounds::{is_plain, time_round};
use crate::timing::{now, since};
use cb_shared::{Pass, Shared};
use cb_types::{Config, Handle, Job, NodeId};
use std::alloc::Global;
use std::sync::Wait;
use std::time::Clock;

/// More turns than there are beside all rounds.
const MOST: u64 = 1_000_000_000;

/// How many rounds are made.
fn rounds_of(round: Round) -> u32 {
    match round {
        Round::Begin | Round::Gather => 200,
        Round::Swap | Round::Fetch => 10,
    }
}

/// The last node. Rounds let others crash.
fn last_node(config: &Config) -> NodeId {
    NodeId {
        n: u8::try_from(config.nodes.saturating_sub(1)).unwrap_or(u8::MAX),
    }
}

/// All rounds; their time.
fn rounds<R: Clock + Wait>(
    rt: &R,
    alloc: Global,
    shared: &Shared,
    pass: &mut Pass,
    h: Handle,
    round: Round,
) -> Option<u64>
    requires caller { IsCaller shared.now h pass.old }
    ensures caller { IsCaller shared.now h pass.new }
{
    let start = now(rt)?;
    for _ in 0..rounds_of(round) {
        time_round(rt, alloc, shared, pass, h, round)?;
    }
    since(rt, start)
}

/// All rounds, and the crash that tells of their end, also where one of them was refused; the time
/// of the rounds.
pub(crate) fn time_rounds<R: Clock + Wait>(
    rt: &R,
    alloc: Global,
    shared: &Shared,
    pass: &mut Pass,
    h: Handle,
    round: Round,
) -> Option<u64>
    requires caller { IsCaller shared.now h pass.old }
{
    let took = rounds(rt, alloc, shared, pass, h, round);
    let config = shared.config();
    let job = Job::Crash {
        node: last_node(&config),
    };
    if is_plain(&config, &job) && turn(rt, alloc, shared, pass, h, &job) {
        took
    } else {
        None
    }
}

/// Turns until the node has crashed; how many there were.
pub(crate) fn count_turns<R: Wait>(
    rt: &R,
    alloc: Global,
    shared: &Shared,
    pass: &mut Pass,
    h: Handle,
) -> Option<u64>
    requires caller { IsCaller shared.now h pass.old }
{
    let config = shared.config();
    let job = Job::Join {
        node: last_node(&config),
    };
    if is_plain(&config, &job) {
        count_while_up(rt, alloc, shared, pass, h, &job)
    } else {
        None
    }
}

/// Turns of a job until it finds its node down; how many there were before that.
fn count_while_up<R: Wait>(
    rt: &R,
    alloc: Global,
    shared: &Shared,
    pass: &mut Pass,
    h: Handle,
    job: &Job,
) -> Option<u64>
    requires caller { IsCaller shared.now h pass.old }
    requires plain { IsPlain shared.now.config job.now }
{
    for count in 0..MOST {
        if !turn_finds_up(rt, alloc, shared, pass, h, job) {
            return Some(count);
        }
    }
    None
}
