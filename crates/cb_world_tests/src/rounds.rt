//! What one thread does: calls on objects in rounds, and notes of what they told.
ghost use Rattle.std.specs.Prelude.{IfOk};
ghost use Rattle.cb_world_tests.specs.Callers.{IsCaller};

use crate::asking::{Asks, By, Call, Deed};
use crate::bodies::{MOST, Work, len_shared};
use crate::called::Caller;
use crate::notes::{FREED, MORTAL, Note, take_note};
use byteorder::{ByteOrder, LittleEndian};
use cb_shared::{Pass, Shared};
use cb_types::{Handle, NoMemory};
use std::alloc::Global;
use std::sync::Wait;

/// How many threads there are.
pub(crate) const THREADS: u64 = 4;

/// How many rounds each makes.
const ROUNDS: u64 = 200;

/// What a thread is given.
#[derive(Drop)]
pub(crate) struct Part {
    pub(crate) pass: Pass,
    pub(crate) thread: u64,
    pub(crate) work: Work,
}

/// What it ends in: its pass, what it noted, and whether no answer was wrong.
#[derive(Drop)]
pub(crate) struct End {
    pub(crate) pass: Pass,
    pub(crate) notes: Vec<Note>,
    pub(crate) is_right: bool,
}

/// The bytes of the longest object, all of whose words are alike.
fn alike(word: u64) -> [u8; MOST] {
    let words = [word; MOST / 8];
    let mut bytes = [0u8; MOST];
    LittleEndian::write_u64_into(&words, &mut bytes);
    bytes
}

/// A node crashes once, and joins again; at other turns a thread does something else.
fn deed_at(node: u8, turn: u64, other: Deed) -> Deed {
    match turn {
        10 => Deed::Crash(node),
        30 => Deed::Join(node),
        _ => other,
    }
}

/// The turns of a thread. Two nodes crash, so that no set loses more shards than it has parities.
fn deed_of(thread: u64, turn: u64) -> Deed {
    match thread {
        0 => deed_at(0, turn, Deed::Evict),
        1 => deed_at(1, turn, Deed::Rebuild),
        2 => Deed::Filter,
        _ => Deed::Evict,
    }
}

/// The call of a thread in a round, where objects are pinned and written.
fn call_here(round: u64) -> (By, Call) {
    match round % 2 {
        0 => (By::Second, Call::Look),
        _ => (By::Itself, Call::WriteHere),
    }
}

/// The call of a thread in a round, where objects are moved.
fn call_far(thread: u64, round: u64) -> Call {
    match round % 4 {
        0 => Call::Read,
        1 => Call::Write,
        2 => Call::Turn(deed_of(thread, round / 4)),
        _ if round > 150 => Call::Free,
        _ => Call::Read,
    }
}

/// The call of a thread in a round.
fn call_of(work: Work, thread: u64, round: u64) -> (By, Call) {
    match work {
        Work::Here => call_here(round),
        Work::Far => (By::Itself, call_far(thread, round)),
    }
}

/// The object of a thread in a round.
fn object_of(call: Call, thread: u64, round: u64) -> usize {
    match call {
        Call::Free => MORTAL,
        _ => ((thread % THREADS + round / 2) % 4) as usize,
    }
}

/// The word that a call leaves.
fn word_of(call: Call, word: u64) -> u64 {
    match call {
        Call::Free => FREED,
        _ => word,
    }
}

/// A call that is noted; whether its answer was not wrong.
pub(crate) fn noted_call<A: Asks>(
    asked: &mut A,
    i: usize,
    by: By,
    call: Call,
    word: u64,
    notes: &mut Vec<Note>,
) -> Result<bool, NoMemory>
    requires { A.keeps asked.old asked.old }
    ensures { A.keeps asked.old asked.new }
{
    let bytes = alike(word);
    let bytes = bytes.get(..len_shared(i)).unwrap_or(&bytes);
    let told = asked.ask(i, by, call, bytes)?;
    take_note(notes, i, word_of(call, word), told)
}

/// The rounds of a thread, each with a word that no other one writes.
fn all_rounds<A: Asks>(
    asked: &mut A,
    thread: u64,
    work: Work,
    notes: &mut Vec<Note>,
) -> Result<bool, NoMemory>
    requires { A.keeps asked.old asked.old }
    ensures { A.keeps asked.old asked.new }
{
    let mut is_right = true;
    for round in 0..ROUNDS {
        let (by, call) = call_of(work, thread, round);
        let i = object_of(call, thread, round);
        let word = 1 + round * THREADS + thread % THREADS;
        is_right &= noted_call(asked, i, by, call, word, notes)?;
    }
    Ok(is_right)
}

/// What a thread does.
pub(crate) fn work_through<R: Wait>(
    rt: &R,
    alloc: Global,
    shared: &Shared,
    objects: &[Handle],
    part: Part,
) -> Result<End, NoMemory>
    requires caller { IsCaller shared.now objects.now part.pass }
    ensures caller { IfOk result (λ e. IsCaller shared.now objects.now e.pass) }
{
    let Part {
        mut pass,
        thread,
        work,
    } = part;
    let mut notes = Vec::new(alloc);
    let mut caller = Caller {
        rt,
        alloc,
        shared,
        objects,
        pass: &mut pass,
    };
    let is_right = all_rounds(&mut caller, thread, work, &mut notes);
    let Caller {
        rt: _,
        alloc: _,
        shared: _,
        objects: _,
        pass: _,
    } = caller;
    let is_right = is_right?;
    Ok(End {
        pass,
        notes,
        is_right,
    })
}
