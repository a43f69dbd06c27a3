//! Events read from a source are answered, one after another.

ghost use Rattle.std.specs.Prelude.{◌≡◌, ◌≢◌, ◌≤◌, ℕ, List, length, Err, IsErr, IfOk, MatchOption};
ghost use Rattle.std.specs.Io.KnownBytes.{Appends};
ghost use Rattle.std.specs.List.{AllByRecursion};
ghost use Rattle.cb_types.specs.Config.{IsAccepted};
ghost use Rattle.cb_types.specs.Faults.{Rose};
ghost use Rattle.cb_core.specs.Events.{IsEvent};
ghost use Rattle.cb_cli.specs.Taken.{AreBytesTaken};
ghost use Rattle.cb_events.specs.Listing.{AreListed, NoneListed, config_in};
ghost use Rattle.cb_events.specs.Told.{IsTextTold, LeadFromEmpty, TellsReplies};

use crate::reading::{behind_event, event_at, number_at};
use crate::telling::{refusal_text, replies_text};
use cb_cli::{Failure, put_all, take_all};
use cb_core::{Event, Replies, run};
use cb_types::{Config, NoMemory, Sink, Source};
use cb_world::World;
use std::alloc::Global;

/// The bytes of a configuration.
const CONFIG_BYTES: usize = 14;

/// The events that stand at the front of some bytes, and how many bytes stand after them.
#[derive(Drop)]
struct Listed {
    events: Vec<Event>,
    left: usize,
}

/// Reads the bytes of a source to its end, or as many as a script may have and one more, and writes
/// what is told of them: the replies to the events that they list.
pub fn answer_all<S: Source, K: Sink>(
    alloc: Global,
    source: &mut S,
    sink: &mut K,
) -> Result<(), Failure>
    ensures told { IfOk result (λ _. (bytes text : List ℕ)
        × AreBytesTaken (S.left source.old) (S.left source.new) bytes × IsTextTold bytes text
        × Appends (K.held sink.old) (K.held sink.new) text) }
    ensures reading { result ≡ Err Failure.Read → Rose (S.faults source.old) (S.faults source.new) }
    ensures writing { result ≡ Err Failure.Write → Rose (K.faults sink.old) (K.faults sink.new) }
    ensures unput { result ≢ Err Failure.Write → IsErr result → sink.new ≡ sink.old }
{
    let bytes = take_all(alloc, source)?;
    let text = told_text(alloc, bytes.as_slice())?;
    put_all(sink, text.as_slice())?;
    Ok(())
}

/// What is told of these bytes.
fn told_text(alloc: Global, bytes: &[u8]) -> Result<Vec<u8>, NoMemory>
    ensures told { IfOk result (λ text. IsTextTold bytes.now text.items) }
{
    match config_of(bytes) {
        Some(config) => answer_events(alloc, config, &bytes[CONFIG_BYTES..]),
        None => refusal_text(alloc),
    }
}

/// The configuration at the front of the bytes, where there is one that is accepted.
fn config_of(bytes: &[u8]) -> Option<Config>
    ensures { MatchOption result
        (14 ≤ length bytes.now → IsAccepted (config_in bytes.now) → ⊥)
        (λ config. (14 ≤ length bytes.now) × (config ≡ config_in bytes.now)
        × IsAccepted (config_in bytes.now)) }
{
    if bytes.len() < CONFIG_BYTES {
        return None;
    }
    let config = Config {
        k: number_at(bytes, 0),
        r: number_at(bytes, 2),
        nodes: number_at(bytes, 4),
        frames: number_at(bytes, 6),
        room: number_at(bytes, 8),
        handles: number_at(bytes, 10),
        turns: number_at(bytes, 12),
    };
    match config.check() {
        Ok(()) => Some(config),
        Err(_) => None,
    }
}

/// Lets the events of the bytes come one after another, from the empty world of a configuration, and
/// tells their replies.
fn answer_events(alloc: Global, config: Config, bytes: &[u8]) -> Result<Vec<u8>, NoMemory>
    requires { IsAccepted config }
    ensures { IfOk result (λ text. TellsReplies config bytes.now text.items) }
{
    let listed = events_in(alloc, config, bytes)?;
    let replies = replies_of(alloc, config, listed.events.as_slice())?;
    replies_text(alloc, replies.as_slice(), listed.left)
}

/// The replies to these events from the empty world of a configuration.
fn replies_of(alloc: Global, config: Config, events: &[Event]) -> Result<Replies, NoMemory>
    requires accepted { IsAccepted config }
    requires events { AllByRecursion (IsEvent config) events.now }
    ensures { IfOk result (λ replies. LeadFromEmpty config events.now replies) }
{
    let mut world = World::new(alloc, config)?;
    let replies = run(alloc, &mut world, events);
    world.end();
    replies
}

/// All events that stand at the front of the bytes, up to the first place where none stands that may
/// come.
fn events_in(alloc: Global, config: Config, bytes: &[u8]) -> Result<Listed, NoMemory>
    ensures { IfOk result (λ found. (rest : List ℕ)
        × AreListed config bytes.now found.events.items rest × NoneListed config rest
        × (found.left ≡ length rest)) }
{
    let mut events = Vec::new(alloc);
    let mut rest = bytes;
    'events: while let Some(event) = event_at(alloc, config, rest)? {
        rest = behind_event(rest);
        events.push(event)?;
    }
    let left = rest.len();
    Ok(Listed { events, left })
}
