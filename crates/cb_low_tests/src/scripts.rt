//! The faults of scripts.

use cb_script::{Mode, Script, ScriptFault, print_script, read_script};
use cb_types::NoMemory;
use std::alloc::Global;

/// After the header a line, and the lane of another one.
const FRONT: &[u8] = b"carbink 1 k=2 r=2 nodes=6 frames=8 room=64 handles=16 turns=0\n1 evict\n1 ";

/// The number of the first fault of a script whose lines are read for threads, and 0 where there is
/// none.
fn fault_of(alloc: Global, text: &[u8]) -> Result<u32, NoMemory> {
    match read_script(alloc, text, Mode::Threads) {
        Ok(_) => Ok(0),
        Err(ScriptFault::Bad { reason, .. }) => Ok(reason.number()),
        Err(ScriptFault::NoMemory) => Err(NoMemory),
    }
}

/// The number of the first fault of a script with this verb on its third line.
fn fault_of_verb(alloc: Global, verb: &[u8]) -> Result<u32, NoMemory> {
    let mut text = Vec::from_slice(alloc, FRONT)?;
    text.extend_from_slice(verb)?;
    fault_of(alloc, text.as_slice())
}

#[test]
fn tells_verbs_that_threads_have_not(rt: HostRuntime) {
    let verbs: [&[u8]; 8] = [
        b"begin", b"ship", b"commit", b"abort", b"pair", b"patch", b"merge", b"part",
    ];
    for verb in verbs {
        assert!(rt;
            matches!(fault_of_verb(rt.alloc(), verb), Ok(12)),
            "{verb:?}"
        );
    }
    assert!(rt; matches!(fault_of_verb(rt.alloc(), b"compact"), Ok(0)));
}

/// A script whose last line has no feed.
const TEXT: &str = "carbink 1 k=2 r=2 nodes=6 frames=8 room=64 handles=16 turns=0\n0 make a 00\n\
    2 write a 7 -\n2 write a 0 ff\n2 free a\n3 pin a\n15 crash 5\n15 join 0\n1 begin\n1 compact";

/// Whether the script is printed as the text from which it was read, with the feed.
fn is_printed_whole(alloc: Global, script: &Script) -> Result<bool, NoMemory> {
    let printed = print_script(alloc, script)?;
    Ok(printed.as_slice().strip_suffix(b"\n") == Some(TEXT.as_bytes()))
}

#[test]
fn prints_what_it_read(rt: HostRuntime) {
    let Ok(script) = read_script(rt.alloc(), TEXT.as_bytes(), Mode::Seq) else {
        panic!(rt);
    };
    assert!(rt; matches!(is_printed_whole(rt.alloc(), &script), Ok(true)));
}
