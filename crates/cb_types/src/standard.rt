//! A source and a sink over a reader and a writer of std.

ghost use Rattle.std.specs.Prelude.{◌≡◌, ◌<◌, ◌≤◌, ◌+◌, ◌-◌, ◌^◌, min, length, take, IfSome, IfNone};
ghost use Rattle.std.specs.Io.KnownBytes.{Appends, Consumes, Keeps, IsAtEnd};
ghost use Rattle.cb_types.specs.Faults.{Rose};
ghost use Rattle.cb_types.specs.Source.{IfGot, OnTakeFailed};
ghost use Rattle.cb_types.specs.Sink.{IfSent, OnPutFailed};

use crate::sink::{Sent, Sink};
use crate::source::{Source, Took};
use std::io::{ErrorKind, Read, Write};

/// A source over a reader of std. It tells the bytes that are left where its reader does: a slice
/// tells them, and what a file, a pipe or a terminal gives is trusted. A read that the system
/// interrupted is tried again.
#[derive(Drop)]
pub struct StdSource<R> {
    reader: R,
    faults: u64,
}

impl<R: Read> StdSource<R> {
    /// A source over this reader.
    pub fn new(reader: R) -> StdSource<R>
        ensures { result ≡ record { reader = reader; faults = 0 } }
    {
        StdSource { reader, faults: 0 }
    }

    /// How often a take has failed, at the most 2^64 - 1.
    pub fn faults(&self) -> u64
        ensures { result ≡ self.now.faults }
    {
        self.faults
    }
}

impl<R: Read> Source for StdSource<R> {
    ghost left = { λ s. R.remaining s.reader };

    ghost faults = { λ s. s.faults };

    fn take(&mut self, buf: &mut [u8]) -> Took
        requires { 0 < length buf.old }
        ensures room { IfGot result (λ n. n ≤ length buf.new) }
        ensures bytes { IfGot result (λ n. Consumes (R.remaining self.old.reader) (R.remaining self.new.reader) (take n buf.new)) }
        ensures end { IfGot result (λ n. n ≡ 0 → IsAtEnd (R.remaining self.new.reader)) }
        ensures no_fault { IfGot result (λ _. self.new.faults ≡ self.old.faults) }
        ensures fault { OnTakeFailed result (Rose self.old.faults self.new.faults) }
        ensures kept { OnTakeFailed result (Keeps (R.remaining self.old.reader) (R.remaining self.new.reader)) }

        ensures fault_counted { OnTakeFailed result (self.new.faults ≡ min (self.old.faults + 1) (2 ^ 64 - 1)) }
    {
        match read_retrying(&mut self.reader, buf) {
            Some(count) => Took::Got(count),
            None => {
                self.faults = self.faults.saturating_add(1);
                Took::Failed
            }
        }
    }
}

/// A sink over a writer of std. It tells the bytes that it holds where its writer does: a `Vec`
/// tells them, and what a file, a pipe or a terminal makes of them is trusted. A write that the
/// system interrupted is tried again.
#[derive(Drop)]
pub struct StdSink<W> {
    writer: W,
    faults: u64,
}

impl<W: Write> StdSink<W> {
    /// A sink over this writer.
    pub fn new(writer: W) -> StdSink<W>
        ensures { result ≡ record { writer = writer; faults = 0 } }
    {
        StdSink { writer, faults: 0 }
    }

    /// How often a put has failed, at the most 2^64 - 1.
    pub fn faults(&self) -> u64
        ensures { result ≡ self.now.faults }
    {
        self.faults
    }

    /// The writer, with what it was given.
    pub fn into_writer(self) -> W
        ensures { result ≡ self.writer }
    {
        self.writer
    }
}

impl<W: Write> Sink for StdSink<W> {
    ghost held = { λ s. W.contents s.writer };

    ghost faults = { λ s. s.faults };

    /// A write that takes nothing counts as failed.
    fn put(&mut self, bytes: &[u8]) -> Sent
        requires { 0 < length bytes.now }
        ensures some { IfSent result (λ n. 1 ≤ n) }
        ensures room { IfSent result (λ n. n ≤ length bytes.now) }
        ensures bytes { IfSent result (λ n. Appends (W.contents self.old.writer) (W.contents self.new.writer) (take n bytes.now)) }
        ensures no_fault { IfSent result (λ _. self.new.faults ≡ self.old.faults) }
        ensures fault { OnPutFailed result (Rose self.old.faults self.new.faults) }
        ensures kept { OnPutFailed result (Keeps (W.contents self.old.writer) (W.contents self.new.writer)) }

        ensures fault_counted { OnPutFailed result (self.new.faults ≡ min (self.old.faults + 1) (2 ^ 64 - 1)) }
    {
        match write_retrying(&mut self.writer, bytes) {
            Some(count) => Sent::Sent(count),
            None => {
                self.faults = self.faults.saturating_add(1);
                Sent::Failed
            }
        }
    }
}

/// How often a read or a write is tried that the system interrupts each time: for good, in effect.
const MOST_TRIES: u64 = u64::MAX;

/// One read, tried again where the system interrupts it: so many bytes, or None where it failed.
fn read_retrying<R: Read>(reader: &mut R, buf: &mut [u8]) -> Option<usize>
    ensures room { IfSome result (λ n. n ≤ length buf.new) }
    ensures bytes { IfSome result (λ n. Consumes (R.remaining reader.old) (R.remaining reader.new) (take n buf.new)) }
    ensures end { IfSome result (λ n. n ≡ 0 → 0 < length buf.old → IsAtEnd (R.remaining reader.new)) }
    ensures kept { IfNone result (Keeps (R.remaining reader.old) (R.remaining reader.new)) }
{
    for _ in 0..MOST_TRIES {
        match reader.read(buf) {
            Ok(count) => return Some(count),
            Err(error) => {
                if error.kind() != ErrorKind::Interrupted {
                    return None;
                }
            }
        }
    }
    None
}

/// One write, tried again where the system interrupts it: so many bytes, at least one, or None where
/// it failed or took nothing.
fn write_retrying<W: Write>(writer: &mut W, bytes: &[u8]) -> Option<usize>
    ensures some { IfSome result (λ n. 1 ≤ n) }
    ensures room { IfSome result (λ n. n ≤ length bytes.now) }
    ensures bytes { IfSome result (λ n. Appends (W.contents writer.old) (W.contents writer.new) (take n bytes.now)) }
    ensures kept { IfNone result (Keeps (W.contents writer.old) (W.contents writer.new)) }
{
    for _ in 0..MOST_TRIES {
        match writer.write(bytes) {
            Ok(0) => return None,
            Ok(count) => return Some(count),
            Err(error) => {
                if error.kind() != ErrorKind::Interrupted {
                    return None;
                }
            }
        }
    }
    None
}
