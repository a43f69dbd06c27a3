//! Where a program's bytes go.

ghost use Rattle.std.specs.Prelude.{◌≡◌, ℕ, ◌<◌, ◌≤◌, List, length, take, Option};
ghost use Rattle.std.specs.Io.KnownBytes.{Appends, Keeps};
ghost use Rattle.cb_types.specs.Faults.{Rose};
ghost use Rattle.cb_types.specs.Sink.{IfSent, OnPutFailed};

/// What a put answers: that so many bytes were taken, or that writing failed.
#[derive(Clone, Copy, Debug, PartialEq, Eq)]
pub enum Sent {
    Sent(usize),
    Failed,
}

/// Where a program's bytes go.
pub trait Sink {
    /// The bytes that it holds, where the sink tells them.
    ghost held: { Self → Option (List ℕ) };
    /// How often writing has failed. The count never falls.
    ghost faults: { Self → ℕ };

    /// Appends bytes from the front of these, at least one. A put that failed appends nothing.
    fn put(&mut self, bytes: &[u8]) -> Sent
        requires { 0 < length bytes.now }
        ensures some { IfSent result (λ n. 1 ≤ n) }
        ensures room { IfSent result (λ n. n ≤ length bytes.now) }
        ensures bytes { IfSent result (λ n. Appends (held self.old) (held self.new) (take n bytes.now)) }
        ensures no_fault { IfSent result (λ _. faults self.new ≡ faults self.old) }
        ensures fault { OnPutFailed result (Rose (faults self.old) (faults self.new)) }
        ensures kept { OnPutFailed result (Keeps (held self.old) (held self.new)) };
}
