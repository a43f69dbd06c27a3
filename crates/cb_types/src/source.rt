//! Where a program's bytes come from.

ghost use Rattle.std.specs.Prelude.{◌≡◌, ℕ, ◌<◌, ◌≤◌, List, length, take, Option};
ghost use Rattle.std.specs.Io.KnownBytes.{Consumes, Keeps, IsAtEnd};
ghost use Rattle.cb_types.specs.Faults.{Rose};
ghost use Rattle.cb_types.specs.Source.{IfGot, OnTakeFailed};

/// What a take answers: so many bytes, 0 at the end of the input, or that reading failed.
#[derive(Clone, Copy, Debug, PartialEq, Eq)]
pub enum Took {
    Got(usize),
    Failed,
}

/// Where a program's bytes come from.
pub trait Source {
    /// The bytes that are left, where the source tells them.
    ghost left: { Self → Option (List ℕ) };
    /// How often reading has failed. The count never falls.
    ghost faults: { Self → ℕ };

    /// Takes the next bytes, at the most as many as the buffer has room for, and puts them at the
    /// front of the buffer. It may take fewer, but takes none only where none is left.
    fn take(&mut self, buf: &mut [u8]) -> Took
        requires { 0 < length buf.old }
        ensures room { IfGot result (λ n. n ≤ length buf.new) }
        ensures bytes { IfGot result (λ n. Consumes (left self.old) (left self.new) (take n buf.new)) }
        ensures end { IfGot result (λ n. n ≡ 0 → IsAtEnd (left self.new)) }
        ensures no_fault { IfGot result (λ _. faults self.new ≡ faults self.old) }
        ensures fault { OnTakeFailed result (Rose (faults self.old) (faults self.new)) }
        ensures kept { OnTakeFailed result (Keeps (left self.old) (left self.new)) };
}
