//! What one thread does: calls on one object, again and again. None is answered where a call was
//! refused.
ghost use Rattle.std.specs.Prelude.{◌<◌};
ghost use Rattle.cb_world.specs.Memory.{words_for};
ghost use Rattle.cb_shared.specs.Passes.{IsPinOf};
ghost use Rattle.cb_shared_bench.specs.Callers.{IfPinned, IsCaller, IsPlain};

use crate::beside::{count_turns, time_rounds};
use crate::deeds::{Deed, calls_of};
use crate::objects::{BYTES, WORDS};
use crate::replies::{finds_up, is_right};
use crate::rounds::time_window;
use crate::timing::{hold, now, since};
use cb_shared::{Pass, Pin, PinAnswer, Shared, WriteAnswer};
use cb_types::{Handle, Job, NoMemory, Reply};
use std::alloc::Global;
use std::sync::Wait;
use std::time::Clock;

/// Pins the object.
fn take(shared: &Shared, pass: &mut Pass, h: Handle) -> PinAnswer
    requires caller { IsCaller shared.now h pass.old }
    ensures caller { IsCaller shared.now h pass.new }
    ensures pin { IfPinned result (λ p. IsPinOf p pass.new.seat.me.0) }
{
    shared.pin(pass, h)
}

/// Gives a pin back.
fn give(shared: &Shared, pass: &mut Pass, h: Handle, pin: Pin)
    requires caller { IsCaller shared.now h pass.old }
    requires pin { IsPinOf pin pass.old.seat.me.0 }
    ensures caller { IsCaller shared.now h pass.new }
{
    let _h = h;
    shared.unpin(pass, pin);
}

/// Loads a word of a pinned object; 0 after its last one.
fn peek(shared: &Shared, pass: &mut Pass, h: Handle, pin: &Pin, index: u32) -> u64
    requires caller { IsCaller shared.now h pass.old }
    requires pin { IsPinOf pin.now pass.old.seat.me.0 }
    requires index { index < words_for pin.now.len }
    ensures caller { IsCaller shared.now h pass.new }
    ensures pin { IsPinOf pin.now pass.new.seat.me.0 }
{
    let _h = h;
    shared.peek(pass, pin, index)
}

/// Pins the object, loads so many of its words, the first ones, and gives the pin back.
fn look(shared: &Shared, pass: &mut Pass, h: Handle, words: u32) -> bool
    requires caller { IsCaller shared.now h pass.old }
    ensures caller { IsCaller shared.now h pass.new }
{
    match take(shared, pass, h) {
        PinAnswer::Pinned(pin) => {
            peek_first(shared, pass, h, &pin, words);
            give(shared, pass, h, pin);
            true
        }
        _ => false,
    }
}

/// Loads so many words of a pinned object, the first ones; their sum.
fn peek_first(shared: &Shared, pass: &mut Pass, h: Handle, pin: &Pin, words: u32) -> u64
    requires caller { IsCaller shared.now h pass.old }
    requires pin { IsPinOf pin.now pass.old.seat.me.0 }
    ensures caller { IsCaller shared.now h pass.new }
    ensures pin { IsPinOf pin.now pass.new.seat.me.0 }
{
    let mut sum = 0u64;
    for index in 0..words.min(pin.len().div_ceil(8)) {
        sum = sum.wrapping_add(peek(shared, pass, h, pin, index));
    }
    sum
}

/// Whether a write in place was made.
fn is_written(answer: WriteAnswer) -> bool {
    matches!(answer, WriteAnswer::Ok { .. })
}

/// Writes the object from its first byte on.
fn write(shared: &Shared, pass: &mut Pass, h: Handle, bytes: &[u8]) -> bool
    requires caller { IsCaller shared.now h pass.old }
    ensures caller { IsCaller shared.now h pass.new }
{
    let answer = shared.write_here(pass, h, 0, bytes);
    is_written(answer)
}

/// Reads the object.
fn read<R: Wait>(rt: &R, alloc: Global, shared: &Shared, pass: &mut Pass, h: Handle) -> bool
    requires caller { IsCaller shared.now h pass.old }
    ensures caller { IsCaller shared.now h pass.new }
{
    let reply = shared.read(rt, alloc, pass, h);
    is_right(&reply)
}

/// Writes the object from its first byte on, by the call that tries again.
fn write_again<R: Wait>(
    rt: &R,
    alloc: Global,
    shared: &Shared,
    pass: &mut Pass,
    h: Handle,
    bytes: &[u8],
) -> bool
    requires caller { IsCaller shared.now h pass.old }
    ensures caller { IsCaller shared.now h pass.new }
{
    let reply = shared.write(rt, alloc, pass, h, 0, bytes);
    is_right(&reply)
}

/// What a turn is answered of a job that the pass needs to know no object for.
fn asked<R: Wait>(
    rt: &R,
    alloc: Global,
    shared: &Shared,
    pass: &mut Pass,
    h: Handle,
    job: &Job,
) -> Result<Reply, NoMemory>
    requires caller { IsCaller shared.now h pass.old }
    requires plain { IsPlain shared.now.config job.now }
    ensures caller { IsCaller shared.now h pass.new }
{
    let _h = h;
    let reply = shared.turn(rt, alloc, pass, job);
    reply
}

/// Such a turn, and whether its reply is one that is waited for.
pub(crate) fn turn<R: Wait>(
    rt: &R,
    alloc: Global,
    shared: &Shared,
    pass: &mut Pass,
    h: Handle,
    job: &Job,
) -> bool
    requires caller { IsCaller shared.now h pass.old }
    requires plain { IsPlain shared.now.config job.now }
    ensures caller { IsCaller shared.now h pass.new }
{
    is_right(&asked(rt, alloc, shared, pass, h, job))
}

/// Such a turn, and whether it finds a node up.
pub(crate) fn turn_finds_up<R: Wait>(
    rt: &R,
    alloc: Global,
    shared: &Shared,
    pass: &mut Pass,
    h: Handle,
    job: &Job,
) -> bool
    requires caller { IsCaller shared.now h pass.old }
    requires plain { IsPlain shared.now.config job.now }
    ensures caller { IsCaller shared.now h pass.new }
{
    finds_up(&asked(rt, alloc, shared, pass, h, job))
}

/// One call.
fn call<R: Wait>(
    rt: &R,
    alloc: Global,
    shared: &Shared,
    pass: &mut Pass,
    h: Handle,
    deed: Deed,
    bytes: &[u8],
) -> bool
    requires caller { IsCaller shared.now h pass.old }
    ensures caller { IsCaller shared.now h pass.new }
{
    match deed {
        Deed::Pin => look(shared, pass, h, 0),
        Deed::Look => look(shared, pass, h, 1),
        Deed::WriteShort => write(shared, pass, h, bytes.get(..8).unwrap_or(bytes)),
        Deed::WriteLong => write(shared, pass, h, bytes),
        Deed::Write => {
            let few = bytes.get(..8).unwrap_or(bytes);
            write_again(rt, alloc, shared, pass, h, few)
        }
        Deed::Read | Deed::Await => read(rt, alloc, shared, pass, h),
        _ => turn(rt, alloc, shared, pass, h, &Job::Rebuild),
    }
}

/// All calls of a slice, and their time.
fn time_calls<R: Clock + Wait>(
    rt: &R,
    alloc: Global,
    shared: &Shared,
    pass: &mut Pass,
    h: Handle,
    deed: Deed,
    bytes: &[u8],
) -> Option<u64>
    requires caller { IsCaller shared.now h pass.old }
{
    let start = now(rt)?;
    for _ in 0..calls_of(deed) {
        if !call(rt, alloc, shared, pass, h, deed, bytes) {
            return None;
        }
    }
    since(rt, start)
}

/// Loads the words of a pinned object in so many rounds; their sum.
fn peek_rounds(shared: &Shared, pass: &mut Pass, h: Handle, pin: &Pin, rounds: u32) -> u64
    requires caller { IsCaller shared.now h pass.old }
    requires pin { IsPinOf pin.now pass.old.seat.me.0 }
{
    let mut sum = 0u64;
    for _ in 0..rounds {
        sum = sum.wrapping_add(peek_first(shared, pass, h, pin, WORDS));
    }
    sum
}

/// All peeks of a slice under one pin, and their time.
fn time_peeks<R: Clock>(rt: &R, shared: &Shared, pass: &mut Pass, h: Handle) -> Option<u64>
    requires caller { IsCaller shared.now h pass.old }
{
    match take(shared, pass, h) {
        PinAnswer::Pinned(pin) => {
            let start = now(rt)?;
            match peek_rounds(shared, pass, h, &pin, calls_of(Deed::Peek) / WORDS) {
                0 => None,
                _ => since(rt, start),
            }
        }
        _ => None,
    }
}

/// Lets the object leave, and reads it; the time of the read.
fn time_far_read<R: Clock + Wait>(
    rt: &R,
    alloc: Global,
    shared: &Shared,
    pass: &mut Pass,
    h: Handle,
) -> Option<u64>
    requires caller { IsCaller shared.now h pass.old }
    ensures caller { IsCaller shared.now h pass.new }
{
    if !turn(rt, alloc, shared, pass, h, &Job::Evict) {
        return None;
    }
    let start = now(rt)?;
    if !read(rt, alloc, shared, pass, h) {
        return None;
    }
    since(rt, start)
}

/// All reads of a far object in a slice, and their time.
fn time_far_reads<R: Clock + Wait>(
    rt: &R,
    alloc: Global,
    shared: &Shared,
    pass: &mut Pass,
    h: Handle,
) -> Option<u64>
    requires caller { IsCaller shared.now h pass.old }
{
    let mut sum = 0u64;
    for _ in 0..calls_of(Deed::ReadFar) {
        sum = sum.saturating_add(time_far_read(rt, alloc, shared, pass, h)?);
    }
    Some(sum)
}

/// Holds the batch for a while and gives it up; the time of both.
fn time_hold<R: Clock + Wait>(
    rt: &R,
    alloc: Global,
    shared: &Shared,
    pass: &mut Pass,
    h: Handle,
) -> Option<u64>
    requires caller { IsCaller shared.now h pass.old }
{
    let start = now(rt)?;
    hold(rt);
    if !turn(rt, alloc, shared, pass, h, &Job::Abort) {
        return None;
    }
    since(rt, start)
}

/// The time of a slice's calls in nanoseconds; of turns beside rounds, how many there were.
pub(crate) fn time<R: Clock + Wait>(
    rt: &R,
    alloc: Global,
    shared: &Shared,
    pass: &mut Pass,
    h: Handle,
    deed: Deed,
    seed: u8,
) -> Option<u64>
    requires caller { IsCaller shared.now h pass.old }
{
    match deed {
        Deed::Peek => time_peeks(rt, shared, pass, h),
        Deed::ReadFar => time_far_reads(rt, alloc, shared, pass, h),
        Deed::Hold => time_hold(rt, alloc, shared, pass, h),
        Deed::Alone(round) => time_window(rt, alloc, shared, pass, h, round),
        Deed::Rounds(round) => time_rounds(rt, alloc, shared, pass, h, round),
        Deed::Idle => count_turns(rt, alloc, shared, pass, h),
        _ => time_calls(rt, alloc, shared, pass, h, deed, &[seed; BYTES]),
    }
}
