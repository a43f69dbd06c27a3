//! A source and a sink over borrowed bytes.

ghost use Rattle.std.specs.Prelude.{◌≡◌, ◌<◌, ◌≤◌, ◌+◌, ◌-◌, ◌^◌, min, length, take, None, Some};
ghost use Rattle.std.specs.Io.KnownBytes.{Appends, Consumes, Keeps, IsAtEnd};
ghost use Rattle.cb_types.specs.Faults.{Rose, never};
ghost use Rattle.cb_types.specs.Source.{IfGot, OnTakeFailed};
ghost use Rattle.cb_types.specs.Sink.{IfSent, OnPutFailed};

use crate::sink::{Sent, Sink};
use crate::source::{Source, Took};
use std::marker::Model;

/// A source over borrowed bytes. It never fails.
#[derive(Drop)]
pub struct PlainSource<'a> {
    rest: &'a [u8],
}

impl<'a> Model for PlainSource<'a> {
    ghost use Rattle.std.specs.Prelude.{List, ℕ};

    ghost Value = { List ℕ };

    ghost view = { λ s. s.rest.now };
}

impl<'a> PlainSource<'a> {
    /// A source that gives these bytes.
    pub fn new(bytes: &'a [u8]) -> PlainSource<'a>
        ensures { result ≡ bytes.entry.now }
    {
        PlainSource { rest: bytes }
    }
}

impl<'a> Source for PlainSource<'a> {
    ghost left = { λ s. Some s };

    ghost faults = { λ _. never };

    fn take(&mut self, buf: &mut [u8]) -> Took
        requires { 0 < length buf.old }
        ensures room { IfGot result (λ n. n ≤ length buf.new) }
        ensures bytes { IfGot result (λ n. Consumes (Some self.old) (Some self.new) (take n buf.new)) }
        ensures end { IfGot result (λ n. n ≡ 0 → IsAtEnd (Some self.new)) }
        ensures no_fault { IfGot result (λ _. never ≡ never) }
        ensures fault { OnTakeFailed result (Rose never never) }
        ensures kept { OnTakeFailed result (Keeps (Some self.old) (Some self.new)) }

        ensures most { result ≡ Took.Got (min (length buf.old) (length self.old)) }
    {
        let count = buf.len().min(self.rest.len());
        let (front, rest) = self.rest.split_at(count);
        buf[..count].copy_from_slice(front);
        self.rest = rest;
        Took::Got(count)
    }
}

/// A sink that keeps no bytes, but their number. It never fails.
#[derive(Clone, Copy, Debug, PartialEq, Eq)]
pub struct PlainSink {
    /// How many bytes were put, at the most 2^64 - 1.
    pub count: u64,
}

impl PlainSink {
    /// A sink into which nothing was put.
    pub fn new() -> PlainSink
        ensures { result.count ≡ 0 }
    {
        PlainSink { count: 0 }
    }
}

impl Sink for PlainSink {
    ghost held = { λ _. None };

    ghost faults = { λ _. never };

    fn put(&mut self, bytes: &[u8]) -> Sent
        requires { 0 < length bytes.now }
        ensures some { IfSent result (λ n. 1 ≤ n) }
        ensures room { IfSent result (λ n. n ≤ length bytes.now) }
        ensures bytes { IfSent result (λ n. Appends None None (take n bytes.now)) }
        ensures no_fault { IfSent result (λ _. never ≡ never) }
        ensures fault { OnPutFailed result (Rose never never) }
        ensures kept { OnPutFailed result (Keeps None None) }

        ensures all { result ≡ Sent.Sent (length bytes.now) }
        ensures counted { self.new.count ≡ min (self.old.count + length bytes.now) (2 ^ 64 - 1) }
    {
        self.count = self.count.saturating_add(bytes.len() as u64);
        Sent::Sent(bytes.len())
    }
}
