//! What each error of this crate is as an `io::Error`, to which `?` takes it: its kind, and the text that
//! it has itself. A future that it had is dropped.
ghost use Rattle.std.specs.Prelude.{◌≡◌};
ghost use Rattle.std.specs.IoError.{error_kind};
ghost use Rattle.std.specs.declared.io.ErrorKind.TheVariants as ErrorKind;
ghost use Rattle.executor_core.specs.ErrorKinds.{runner_kind};
ghost use Rattle.async_executor.specs.RunError.{run_cause};

use crate::runner::RunError;
use crate::scheduler::SpawnMany;
use crate::task::Cancelled;
use executor_core::queue::RunnerError;
use std::io::{Error, ErrorKind};

impl From<Cancelled> for Error {
    ghost from_gives = { λ _ e. error_kind e ≡ ErrorKind.Other };

    fn from(_error: Cancelled) -> Error {
        // Not `Interrupted`, which code that reads takes as a reason to try again.
        Error::new(ErrorKind::Other, "the task was cancelled")
    }
}

impl<G: Drop> From<RunError<G>> for Error {
    ghost from_gives = { λ error e. error_kind e ≡ runner_kind (run_cause error) };

    fn from(error: RunError<G>) -> Error {
        match error {
            RunError::OutOfMemory(_) => Error::from(RunnerError::OutOfMemory),
            RunError::Exhausted(_) => Error::from(RunnerError::Exhausted),
        }
    }
}

// Its own text counts the tasks that were spawned, which an error that owns no memory cannot.
impl<F: Drop> From<SpawnMany<F>> for Error {
    ghost from_gives = { λ error e. error_kind e ≡ runner_kind error.cause };

    fn from(error: SpawnMany<F>) -> Error {
        match error.cause {
            RunnerError::OutOfMemory => Error::from(ErrorKind::OutOfMemory),
            RunnerError::Exhausted => Error::new(ErrorKind::Other, "task numbers are exhausted"),
        }
    }
}
