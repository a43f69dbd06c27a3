//! Tests of threads, by gates that hold a lane or note what they are told, and of the program over
//! bytes in memory. A program can't be called from a crate of tests, so they stand here.

use crate::ending::Ending;
use crate::over::carbink_over;
use crate::threads::run_threads;
use cb_cli::answers_text;
use cb_script::{Mode, read_script};
use cb_types::{Bytes, Gate, Lane, NoMemory, StdSink, StdSource};
use std::alloc::Global;
use std::array;
use std::sync::Wait;
use std::sync::atomic::{AtomicU64, Ordering};
use std::test::Fail;
use std::thread::Threads;

/// A pin is held while the other lane is answered.
const HELD: &[u8] = b"carbink 1 k=2 r=2 nodes=6 frames=8 room=64 handles=16 turns=0\n1 make a 0a\n\
1 pin a\n1 peek a\n1 unpin a\n2 evict\n";

/// What is printed of the lane that pins, and the front of the other lane's line.
const HELD_TEXT: &[u8] = b"1 make a v1\n1 pin a v1\n1 peek a v1 0a\n1 unpin a ok\n2 evict ";

/// How often a lane that is held looks whether it may go on.
const MOST_LOOKS: u64 = 1_000_000_000;

/// Holds lane 1 after line 3 until lane 2 was answered line 6.
#[derive(Drop)]
struct HoldingGate {
    /// 1 after that answer.
    answered: AtomicU64,
    /// 1 where the hold ended by it.
    ended: AtomicU64,
}

impl HoldingGate {
    fn new() -> HoldingGate {
        HoldingGate {
            answered: AtomicU64::new(0),
            ended: AtomicU64::new(0),
        }
    }

    fn hold(&self) {
        for _ in 0..MOST_LOOKS {
            if self.answered.load(Ordering::SeqCst) == 1 {
                self.ended.store(1, Ordering::SeqCst);
                return;
            }
        }
    }
}

impl Gate for HoldingGate {
    fn after(&self, lane: Lane, line: u32) {
        match (lane.n, line) {
            (1, 3) => self.hold(),
            (2, 6) => self.answered.store(1, Ordering::SeqCst),
            _ => {}
        }
    }
}

/// Lanes that leave the one object alone, beside workers, one of which has begun a batch at its
/// end.
const NOTED: &[u8] = b"carbink 1 k=1 r=1 nodes=2 frames=8 room=64 handles=16 turns=2\n0 make s 00\n\
1 leave\n2 leave\n1 leave\n15 leave\n";

/// What is noted then: after a 1 the digits of the lane's lines, or of the worker's turns.
const NOTES: [u64; 20] = [
    0x12, 0x135, 0x14, 1, 1, 1, 1, 1, 1, 1, 1, 1, 1, 1, 1, 0x16, 0x101, 0x1012, 0x101, 0x101,
];

/// Notes each line of each lane and each turn of each worker, in the order in which it is told.
#[derive(Drop)]
struct NotingGate {
    notes: [AtomicU64; 20],
}

impl NotingGate {
    fn new() -> NotingGate {
        NotingGate {
            notes: array::from_fn(|_| AtomicU64::new(1)),
        }
    }

    fn are(&self, wanted: &[u64; 20]) -> bool {
        let mut all = true;
        for i in 0..20 {
            all &= self.notes[i].load(Ordering::SeqCst) == wanted[i];
        }
        all
    }
}

impl Gate for NotingGate {
    fn after(&self, lane: Lane, line: u32) {
        if let Some(notes) = self.notes.get(lane.n as usize) {
            let before = notes.load(Ordering::SeqCst);
            notes.store(before << 4 | u64::from(line), Ordering::SeqCst);
        }
    }
}

/// The text of what threads answer to a script beside a gate.
fn threads_text<R: Threads + Wait + Sync, G: Gate>(
    rt: &R,
    alloc: Global,
    script: &[u8],
    gate: &G,
) -> Result<Bytes, NoMemory> {
    match read_script(alloc, script, Mode::Threads) {
        Ok(script) => {
            let end = run_threads(rt, alloc, &script, gate)?;
            answers_text(alloc, &end.answers)
        }
        Err(_fault) => Err(NoMemory),
    }
}

/// Whether a lane that is held goes on by the answer of another, and tells what it pinned.
fn goes_on<R: Threads + Wait + Sync>(rt: &R, alloc: Global) -> Result<bool, NoMemory> {
    let gate = HoldingGate::new();
    let text = threads_text(rt, alloc, HELD, &gate)?;
    Ok(gate.ended.load(Ordering::SeqCst) == 1 && text.as_slice().starts_with(HELD_TEXT))
}

/// Whether each line and each turn is told to the gate, once and in order.
fn is_noted<R: Threads + Wait + Sync>(rt: &R, alloc: Global) -> Result<bool, NoMemory> {
    let gate = NotingGate::new();
    let _text = threads_text(rt, alloc, NOTED, &gate)?;
    Ok(gate.are(&NOTES))
}

/// A script, and what `seq` tells of it.
const SHORT: &[u8] = b"carbink 1 k=2 r=2 nodes=6 frames=8 room=64 handles=16 turns=0\n\
0 make a 0a\n0 read a\n";

const SHORT_TEXT: &[u8] = b"0 make a v1\n0 read a v1 0a\n";

/// Whether the program, over a slice and a `Vec`, tells what `seq` is to tell.
fn over_bytes<R: Threads + Wait + Sync>(rt: &R, alloc: Global) -> Result<bool, NoMemory> {
    let mut words = Vec::new(alloc);
    words.push(format!(in alloc; "seq")?)?;
    let mut source = StdSource::new(SHORT);
    let mut sink = StdSink::new(Vec::new(alloc));
    let mut end = Ending::new(alloc);
    let status = carbink_over(
        rt,
        alloc,
        words.as_slice(),
        &mut source,
        &mut sink,
        &mut end,
    );
    Ok(status == 0 && sink.into_writer().as_slice() == SHORT_TEXT)
}

#[test]
fn a_lane_is_answered_while_another_one_is_held(rt: HostRuntime) -> Result<(), Fail> {
    assert!(rt; matches!(goes_on(&rt, rt.alloc()), Ok(true)));
    Ok(())
}

#[test]
fn the_gate_is_told_of_each_line_and_each_turn_once(rt: HostRuntime) -> Result<(), Fail> {
    assert!(rt; matches!(is_noted(&rt, rt.alloc()), Ok(true)));
    Ok(())
}

#[test]
fn a_script_in_memory_is_answered_into_memory(rt: HostRuntime) -> Result<(), Fail> {
    assert!(rt; matches!(over_bytes(&rt, rt.alloc()), Ok(true)));
    Ok(())
}
