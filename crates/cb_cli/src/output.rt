//! A text is put to its end, in pieces that end with a line.

ghost use Rattle.std.specs.Prelude.{◌≡◌, ◌<◌, length, OnOk, OnErr};
ghost use Rattle.std.specs.Io.KnownBytes.{Appends};
ghost use Rattle.cb_types.specs.Faults.{Rose};
ghost use Rattle.cb_cli.specs.Fronts.{GetsFront};
ghost use Rattle.cb_cli.specs.Pieces.{joined_pieces};
ghost use Rattle.cb_cli.specs.Puts.{IsPutEnd};

use crate::pieces::Pieces;
use cb_types::{Bytes, Sent, Sink};
use memchr::memrchr;

/// The most bytes of a put, so many that a pipe takes all of them or none.
const MOST_PUT: usize = 4096;

/// Writing failed.
#[derive(Clone, Copy, Debug, PartialEq, Eq)]
pub struct PutFailed;

/// Where the next put ends: after the last line that ends within it, so that who is killed while a
/// pipe is full leaves no part of a line; where none does, at its most.
fn put_end(bytes: &[u8], done: usize) -> usize
    requires { done < length bytes.now }
    ensures end { IsPutEnd bytes.now done result }
{
    let most = done + MOST_PUT.min(bytes.len() - done);
    match memrchr(b'\n', &bytes[done..most]) {
        Some(last) => done + last + 1,
        None => most,
    }
}

/// Puts all the bytes. Where a put takes a part, it goes on with the rest. After a failed put the
/// sink has a front of them.
pub fn put_all<K: Sink>(sink: &mut K, bytes: &[u8]) -> Result<(), PutFailed>
    ensures ok { OnOk result (Appends (K.held sink.old) (K.held sink.new) bytes.now) }
    ensures no_fault { OnOk result (K.faults sink.new ≡ K.faults sink.old) }
    ensures front { OnErr result (GetsFront (K.held sink.old) (K.held sink.new) bytes.now) }
    ensures fault { OnErr result (Rose (K.faults sink.old) (K.faults sink.new)) }
{
    let mut done = 0;
    'puts: while done < bytes.len() {
        let end = put_end(bytes, done);
        match sink.put(&bytes[done..end]) {
            Sent::Sent(count) => done += count,
            Sent::Failed => return Err(PutFailed),
        }
    }
    Ok(())
}

/// Puts all the bytes of a text, piece by piece. After a failed put the sink has a front of them.
pub fn put_pieces<K: Sink>(sink: &mut K, text: &Pieces) -> Result<(), PutFailed>
    ensures ok { OnOk result (Appends (K.held sink.old) (K.held sink.new) text.now) }
    ensures no_fault { OnOk result (K.faults sink.new ≡ K.faults sink.old) }
    ensures front { OnErr result (GetsFront (K.held sink.old) (K.held sink.new) text.now) }
    ensures fault { OnErr result (Rose (K.faults sink.old) (K.faults sink.new)) }
{
    let (first, rest) = text.parts();
    put_all(sink, first)?;
    put_each(sink, rest)
}

/// Puts each of these pieces.
fn put_each<K: Sink>(sink: &mut K, pieces: &[Bytes]) -> Result<(), PutFailed>
    ensures ok { OnOk result
        (Appends (K.held sink.old) (K.held sink.new) (joined_pieces pieces.now)) }
    ensures no_fault { OnOk result (K.faults sink.new ≡ K.faults sink.old) }
    ensures front { OnErr result (GetsFront (K.held sink.old) (K.held sink.new)
        (joined_pieces pieces.now)) }
    ensures fault { OnErr result (Rose (K.faults sink.old) (K.faults sink.new)) }
{
    for piece in pieces {
        put_all(sink, piece.as_slice())?;
    }
    Ok(())
}
