//! A source is taken to its end, or to one byte more than a script may have.

ghost use Rattle.std.specs.Prelude.{◌≡◌, ◌≢◌, ◌≤◌, List, ℕ, length, Err, IfOk};
ghost use Rattle.std.specs.Io.KnownBytes.{Consumes};
ghost use Rattle.cb_types.specs.Faults.{Rose};
ghost use Rattle.cb_cli.specs.Taken.{AreBytesTaken};

use cb_types::{Source, Took};
use std::alloc::{AllocError, Global};

/// How many bytes of a source are taken at the most: one more than a script may have.
const MOST_TAKEN: usize = 1_048_577;

/// How many bytes one call asks for at the most.
const PIECE: usize = 65_536;

/// Why a source was not taken to its end.
#[derive(Clone, Copy, Debug, PartialEq, Eq)]
pub enum TakeError {
    /// Reading failed.
    Failed,
    /// There was no memory for the bytes.
    NoMemory,
}

impl From<AllocError> for TakeError {
    ghost use Rattle.std.specs.Prelude.{◌≡◌};
    ghost use Rattle.cb_cli.specs.declared.input.TakeError.TheVariants.{NoMemory};

    ghost from_gives = { λ _ e. e ≡ NoMemory };

    fn from(_refused: AllocError) -> TakeError {
        TakeError::NoMemory
    }
}

/// Takes bytes up to the end of the input, or as many as may be taken.
pub fn take_all<S: Source>(alloc: Global, source: &mut S) -> Result<Vec<u8>, TakeError>
    ensures taken { IfOk result (λ bytes. AreBytesTaken (S.left source.old) (S.left source.new) bytes.items) }
    ensures fault { result ≡ Err TakeError.Failed → Rose (S.faults source.old) (S.faults source.new) }
    ensures no_fault { result ≢ Err TakeError.Failed → S.faults source.new ≡ S.faults source.old }
    ensures most { (bytes : List ℕ) × Consumes (S.left source.old) (S.left source.new) bytes × (length bytes ≤ MOST_TAKEN) }
{
    let mut bytes = Vec::new(alloc);
    let mut piece = [0u8; PIECE];
    'takes: while bytes.len() < MOST_TAKEN {
        let most = PIECE.min(MOST_TAKEN - bytes.len());
        match source.take(&mut piece[..most]) {
            Took::Got(0) => return Ok(bytes),
            Took::Got(count) => bytes.extend_from_slice(&piece[..count])?,
            Took::Failed => return Err(TakeError::Failed),
        }
    }
    Ok(bytes)
}
