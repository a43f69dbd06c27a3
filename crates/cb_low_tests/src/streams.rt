//! Readers and writers that halt.

use cb_types::{
    MemSink, MemSource, NoMemory, PlainSink, PlainSource, Sent, Sink, Source, StdSink, StdSource,
    Took,
};
use std::alloc::Global;
use std::io;
use std::io::{ErrorKind, Read, Write};

/// A reader and writer whose calls fail so often, each for this reason, before one gets through. It
/// reads sevens without end, and writes nowhere.
#[derive(Drop)]
struct Halting {
    failures: u32,
    reason: ErrorKind,
}

impl Halting {
    fn halt(&mut self) -> io::Result<()> {
        if self.failures == 0 {
            return Ok(());
        }
        self.failures -= 1;
        Err(io::Error::from(self.reason))
    }
}

impl Read for Halting {
    fn read(&mut self, buf: &mut [u8]) -> io::Result<usize> {
        self.halt()?;
        buf.fill(7);
        Ok(buf.len())
    }
}

impl Write for Halting {
    fn write(&mut self, buf: &[u8]) -> io::Result<usize> {
        self.halt()?;
        Ok(buf.len())
    }

    fn flush(&mut self) -> io::Result<()> {
        Ok(())
    }
}

/// Whether a take of two bytes gives this and counts so many faults, where calls fail so often,
/// each for this reason.
fn takes(failures: u32, reason: ErrorKind, wanted: Took, faults: u64) -> bool {
    let mut source = StdSource::new(Halting { failures, reason });
    let mut piece = [0u8; 2];
    let took = source.take(&mut piece);
    took == wanted && source.faults() == faults && (faults == 1 || piece == [7, 7])
}

/// Whether a put of three bytes gives this and counts so many faults, where calls fail so.
fn puts(failures: u32, reason: ErrorKind, wanted: Sent, faults: u64) -> bool {
    let mut sink = StdSink::new(Halting { failures, reason });
    let sent = sink.put(&[7, 8, 9]);
    sent == wanted && sink.faults() == faults
}

#[test]
fn an_interrupted_call_is_made_again_and_another_fault_is_counted(rt: HostRuntime) {
    for failures in [0, 1, 5] {
        let reason = ErrorKind::Interrupted;
        let goes_on = takes(failures, reason, Took::Got(2), 0)
            && puts(failures, reason, Sent::Sent(3), 0);
        assert!(rt; goes_on, "{failures}");
    }
    let reason = ErrorKind::BrokenPipe;
    assert!(rt; takes(1, reason, Took::Failed, 1) && puts(1, reason, Sent::Failed, 1));
}

/// Whether three takes of two bytes from three bytes in memory give pieces, but for the second one,
/// which is to fail.
fn memory_gives_pieces(alloc: Global) -> Result<bool, NoMemory> {
    let bytes = Vec::from_slice(alloc, &[1, 2, 3])?;
    let failing = Vec::from_slice(alloc, &[1])?;
    let mut source = MemSource::new(bytes, 2, failing);
    let mut piece = [0u8; 2];
    Ok(
        source.take(&mut piece) == Took::Got(2)
            && source.take(&mut piece) == Took::Failed
            && source.take(&mut piece) == Took::Got(1),
    )
}

/// Whether two puts into memory take a piece, and fail as is told.
fn memory_takes_a_piece(alloc: Global) -> Result<bool, NoMemory> {
    let failing = Vec::from_slice(alloc, &[1])?;
    let mut sink = MemSink::new(alloc, 2, failing);
    Ok(sink.put(&[1, 2, 3]) == Sent::Sent(2) && sink.put(&[3]) == Sent::Failed)
}

/// Whether plain streams give a piece and take all.
fn plain_streams_pass_on() -> bool {
    let mut piece = [0u8; 2];
    PlainSource::new(&[1, 2, 3]).take(&mut piece) == Took::Got(2)
        && piece == [1, 2]
        && PlainSink::new().put(&[1, 2, 3]) == Sent::Sent(3)
}

#[test]
fn streams_in_memory_give_and_take_pieces(rt: HostRuntime) {
    assert!(rt; matches!(memory_gives_pieces(rt.alloc()), Ok(true)));
    assert!(rt; matches!(memory_takes_a_piece(rt.alloc()), Ok(true)));
    assert!(rt; plain_streams_pass_on());
}
