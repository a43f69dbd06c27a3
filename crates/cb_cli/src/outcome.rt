//! How a run ends, as an exit status.

ghost use Rattle.std.specs.Prelude.{◌≡◌};
ghost use Rattle.cb_cli.specs.Status.{status_of};

use crate::input::TakeError;
use crate::output::PutFailed;
use cb_types::NoMemory;

/// What a run that did not fail was due to end with.
#[derive(Clone, Copy)]
pub enum Due {
    /// The script was answered.
    Done,
    /// The words of the command line are of no form.
    WordsRefused,
    /// The bytes are no script.
    ScriptRefused,
}

/// Why a run did not end as it was due to.
#[derive(Clone, Copy)]
pub enum Failure {
    /// Reading failed.
    Read,
    /// Writing failed.
    Write,
    /// There was no memory.
    NoMemory,
}

impl From<TakeError> for Failure {
    ghost use Rattle.cb_cli.specs.Failing.{from_take};

    ghost from_gives = { from_take };

    fn from(error: TakeError) -> Failure {
        match error {
            TakeError::Failed => Failure::Read,
            TakeError::NoMemory => Failure::NoMemory,
        }
    }
}

impl From<PutFailed> for Failure {
    ghost use Rattle.std.specs.Prelude.{◌≡◌};
    ghost use Rattle.cb_cli.specs.declared.outcome.Failure.TheVariants.{Write};

    ghost from_gives = { λ _ failure. failure ≡ Write };

    fn from(_failed: PutFailed) -> Failure {
        Failure::Write
    }
}

impl From<NoMemory> for Failure {
    ghost use Rattle.std.specs.Prelude.{◌≡◌};
    ghost use Rattle.cb_cli.specs.declared.outcome.Failure.TheVariants as failures;

    ghost from_gives = { λ _ failure. failure ≡ failures.NoMemory };

    fn from(_refused: NoMemory) -> Failure {
        Failure::NoMemory
    }
}

/// The exit status of an outcome.
pub fn status(outcome: Result<Due, Failure>) -> u8
    ensures { result ≡ status_of outcome }
{
    match outcome {
        Ok(Due::Done) => 0,
        Ok(Due::WordsRefused) => 1,
        Ok(Due::ScriptRefused) => 2,
        Err(Failure::Read) => 3,
        Err(Failure::Write) => 4,
        Err(Failure::NoMemory) => 5,
    }
}
