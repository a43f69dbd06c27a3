//! A source and a sink over bytes in memory.

ghost use Rattle.std.specs.Prelude.{◌≡◌, ◌<◌, ◌≤◌, ◌+◌, ◌-◌, ◌^◌, min, length, take, [], Some, Contains};
ghost use Rattle.std.specs.Io.KnownBytes.{Appends, Consumes, Keeps, IsAtEnd};
ghost use Rattle.cb_types.specs.Faults.{Rose};
ghost use Rattle.cb_types.specs.Source.{IfGot, OnTakeFailed};
ghost use Rattle.cb_types.specs.Sink.{IfSent, OnPutFailed};

use crate::sink::{Sent, Sink};
use crate::source::{Source, Took};
use std::alloc::Global;
use std::marker::Model;

/// A source over bytes in memory. It gives at the most `piece` bytes a call, and fails at the calls
/// that it is told, numbered from 0.
#[derive(Drop)]
pub struct MemSource {
    bytes: Vec<u8>,
    at: usize,
    piece: usize,
    failing: Vec<u64>,
    calls: u64,
    faults: u64,
}

impl Model for MemSource {
    ghost use Rattle.std.specs.Prelude.{◌<◌, ◌≤◌, drop, vec_len};
    ghost use Rattle.cb_types.specs.Memory.{MemInput};

    ghost Value = { MemInput };

    ghost view = { λ s. record { left = drop s.at s.bytes.items; piece = s.piece; failing = s.failing.items; calls = s.calls; faults = s.faults } };

    ghost invariant = { λ s. (s.at ≤ vec_len s.bytes) × (0 < s.piece) };
}

impl MemSource {
    /// A source that gives these bytes.
    pub fn new(bytes: Vec<u8>, piece: usize, failing: Vec<u64>) -> MemSource
        requires { 0 < piece }
        ensures { result ≡ record { left = bytes.items; piece = piece; failing = failing.items; calls = 0; faults = 0 } }
    {
        MemSource {
            bytes,
            at: 0,
            piece,
            failing,
            calls: 0,
            faults: 0,
        }
    }

    /// How often a take has failed.
    pub fn faults(&self) -> u64
        ensures { result ≡ self.now.faults }
    {
        self.faults
    }
}

impl Source for MemSource {
    ghost left = { λ s. Some s.left };

    ghost faults = { λ s. s.faults };

    fn take(&mut self, buf: &mut [u8]) -> Took
        requires { 0 < length buf.old }
        ensures room { IfGot result (λ n. n ≤ length buf.new) }
        ensures bytes { IfGot result (λ n. Consumes (Some self.old.left) (Some self.new.left) (take n buf.new)) }
        ensures end { IfGot result (λ n. n ≡ 0 → IsAtEnd (Some self.new.left)) }
        ensures no_fault { IfGot result (λ _. self.new.faults ≡ self.old.faults) }
        ensures fault { OnTakeFailed result (Rose self.old.faults self.new.faults) }
        ensures kept { OnTakeFailed result (Keeps (Some self.old.left) (Some self.new.left)) }

        ensures told { Contains self.old.failing self.old.calls → result ≡ Took.Failed }
        ensures only_told { OnTakeFailed result (Contains self.old.failing self.old.calls) }
        ensures fault_counted { OnTakeFailed result (self.new.faults ≡ min (self.old.faults + 1) (2 ^ 64 - 1)) }
        ensures most { IfGot result (λ n. n ≡ min (min self.old.piece (length buf.old)) (length self.old.left)) }
        ensures others { (self.new.piece ≡ self.old.piece) × (self.new.failing ≡ self.old.failing) }
        ensures counted { self.new.calls ≡ min (self.old.calls + 1) (2 ^ 64 - 1) }
    {
        let fails = self.failing.contains(&self.calls);
        self.calls = self.calls.saturating_add(1);
        if fails {
            self.faults = self.faults.saturating_add(1);
            return Took::Failed;
        }
        let rest = self.bytes.len() - self.at;
        let count = self.piece.min(buf.len()).min(rest);
        buf[..count].copy_from_slice(&self.bytes[self.at..self.at + count]);
        self.at += count;
        Took::Got(count)
    }
}

/// A sink that keeps its bytes in memory. It takes at the most `piece` bytes a call, and fails at
/// the calls that it is told, numbered from 0, and where there is no memory to keep the bytes.
#[derive(Drop)]
pub struct MemSink {
    bytes: Vec<u8>,
    piece: usize,
    failing: Vec<u64>,
    calls: u64,
    faults: u64,
}

impl Model for MemSink {
    ghost use Rattle.std.specs.Prelude.{◌<◌};
    ghost use Rattle.cb_types.specs.Memory.{MemOutput};

    ghost Value = { MemOutput };

    ghost view = { λ s. record { held = s.bytes.items; piece = s.piece; failing = s.failing.items; calls = s.calls; faults = s.faults } };

    ghost invariant = { λ s. 0 < s.piece };
}

impl MemSink {
    /// A sink that holds nothing.
    pub fn new(alloc: Global, piece: usize, failing: Vec<u64>) -> MemSink
        requires { 0 < piece }
        ensures { result ≡ record { held = []; piece = piece; failing = failing.items; calls = 0; faults = 0 } }
    {
        MemSink {
            bytes: Vec::new(alloc),
            piece,
            failing,
            calls: 0,
            faults: 0,
        }
    }

    /// The bytes that it holds.
    pub fn held(&self) -> &[u8]
        ensures { result.now ≡ self.now.held }
    {
        self.bytes.as_slice()
    }

    /// How often a put has failed.
    pub fn faults(&self) -> u64
        ensures { result ≡ self.now.faults }
    {
        self.faults
    }
}

impl Sink for MemSink {
    ghost held = { λ s. Some s.held };

    ghost faults = { λ s. s.faults };

    fn put(&mut self, bytes: &[u8]) -> Sent
        requires { 0 < length bytes.now }
        ensures some { IfSent result (λ n. 1 ≤ n) }
        ensures room { IfSent result (λ n. n ≤ length bytes.now) }
        ensures bytes { IfSent result (λ n. Appends (Some self.old.held) (Some self.new.held) (take n bytes.now)) }
        ensures no_fault { IfSent result (λ _. self.new.faults ≡ self.old.faults) }
        ensures fault { OnPutFailed result (Rose self.old.faults self.new.faults) }
        ensures kept { OnPutFailed result (Keeps (Some self.old.held) (Some self.new.held)) }

        ensures told { Contains self.old.failing self.old.calls → result ≡ Sent.Failed }
        ensures fault_counted { OnPutFailed result (self.new.faults ≡ min (self.old.faults + 1) (2 ^ 64 - 1)) }
        ensures most { IfSent result (λ n. n ≡ min self.old.piece (length bytes.now)) }
        ensures others { (self.new.piece ≡ self.old.piece) × (self.new.failing ≡ self.old.failing) }
        ensures counted { self.new.calls ≡ min (self.old.calls + 1) (2 ^ 64 - 1) }
    {
        let fails = self.failing.contains(&self.calls);
        self.calls = self.calls.saturating_add(1);
        let count = self.piece.min(bytes.len());
        if fails || self.bytes.extend_from_slice(&bytes[..count]).is_err() {
            self.faults = self.faults.saturating_add(1);
            return Sent::Failed;
        }
        Sent::Sent(count)
    }
}
