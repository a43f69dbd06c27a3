//! Takes and puts that fail.

use cb_cli::{TakeError, put_all, take_all};
use cb_types::{MemSink, MemSource, NoMemory};
use std::alloc::Global;

/// A script in which two span-sets become one in steps, and two nodes crash.
static SCRIPT: &[u8] = b"carbink 1 k=2 r=2 nodes=6 frames=8 room=64 handles=16 turns=0\n\
    1 make a 01\n1 make b 02\n1 filter a\n1 evict\n1 make c 03\n1 make d 04\n1 filter c\n\
    1 evict\n1 read b\n1 read c\n1 pair\n1 pair\n1 merge\n1 patch\n1 patch\n1 patch\n1 patch\n\
    1 merge\n1 crash 0\n1 crash 1\n1 read a\n1 read d\n1 read b\n1 read c\n";

/// What is printed to it.
static TEXT: &[u8] = b"1 make a v1\n1 make b v1\n1 filter a moved\n1 evict set 0\n1 make c v1\n\
    1 make d v1\n1 filter c moved\n1 evict set 1\n1 read b v1 02\n1 read c v1 03\n\
    1 pair pair 0 1\n1 pair joining 0 1\n1 merge unfinished 1 2 3\n1 patch stepped 1\n\
    1 patch stepped 2\n1 patch stepped 3\n1 patch allstepped\n1 merge set 2 moved 1\n\
    1 crash 0 epoch 1\n1 crash 1 epoch 2\n1 read a v1 01\n1 read d v1 04\n1 read b v1 02\n\
    1 read c v1 03\n";

/// Whether taking the script fails where the take of this number does, and each takes 16 bytes.
fn take_fails(alloc: Global, number: u8) -> Result<bool, NoMemory> {
    let bytes = Vec::from_slice(alloc, SCRIPT)?;
    let failing = Vec::from_slice(alloc, &[u64::from(number)])?;
    let mut source = MemSource::new(bytes, 16, failing);
    Ok(matches!(take_all(alloc, &mut source), Err(TakeError::Failed)))
}

/// Whether putting the text fails as is told, and leaves the puts before that of this number, which
/// fails; each puts 5 bytes.
fn puts(alloc: Global, number: u8, fails: bool) -> Result<bool, NoMemory> {
    let failing = Vec::from_slice(alloc, &[u64::from(number)])?;
    let mut sink = MemSink::new(alloc, 5, failing);
    let failed = put_all(&mut sink, TEXT).is_err();
    let front = TEXT.len().min(5 * usize::from(number));
    Ok(failed == fails && sink.held() == &TEXT[..front])
}

/// The script has 284 bytes, so that the take of number 18 is that of its end.
#[test]
fn each_failing_take_is_told(rt: HostRuntime) {
    for number in 0..19 {
        assert!(rt;
            matches!(take_fails(rt.alloc(), number), Ok(true)),
            "{number}"
        );
    }
}

/// The text has 391 bytes, so that the put of number 78 is the last one.
#[test]
fn each_failing_put_leaves_what_was_put_before_it(rt: HostRuntime) {
    for number in 0..79 {
        assert!(rt;
            matches!(puts(rt.alloc(), number, true), Ok(true)),
            "{number}"
        );
    }
    assert!(rt; matches!(puts(rt.alloc(), 79, false), Ok(true)));
}
