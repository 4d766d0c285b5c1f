//! What each error of this crate is as an `io::Error`, to which `?` takes it: its kind, and the text that
//! it has itself. A future that it had is dropped.
ghost use Rattle.std.specs.Prelude.{◌≡◌};
ghost use Rattle.std.specs.IoError.{error_kind};
ghost use Rattle.std.specs.declared.io.ErrorKind.TheVariants as ErrorKind;
ghost use Rattle.executor_core.specs.ErrorKinds.{spawn_kind, runner_kind, new_kind};

use crate::limits::NewError;
use crate::queue::RunnerError;
use crate::task::{OutOfMemory, SpawnError};
use std::io::{Error, ErrorKind};

impl From<OutOfMemory> for Error {
    ghost from_gives = { λ _ e. error_kind e ≡ ErrorKind.OutOfMemory };

    fn from(_error: OutOfMemory) -> Error {
        Error::from(ErrorKind::OutOfMemory)
    }
}

impl<P: Drop> From<SpawnError<P>> for Error {
    ghost from_gives = { λ error e. error_kind e ≡ spawn_kind error };

    fn from(error: SpawnError<P>) -> Error {
        match error {
            SpawnError::OutOfMemory(_) => Error::from(ErrorKind::OutOfMemory),
            SpawnError::Exhausted(_) => Error::new(ErrorKind::Other, "task numbers are exhausted"),
        }
    }
}

impl From<RunnerError> for Error {
    ghost from_gives = { λ error e. error_kind e ≡ runner_kind error };

    fn from(error: RunnerError) -> Error {
        match error {
            RunnerError::OutOfMemory => Error::from(ErrorKind::OutOfMemory),
            RunnerError::Exhausted => Error::new(ErrorKind::Other, "runner numbers are exhausted"),
        }
    }
}

impl From<NewError> for Error {
    ghost from_gives = { λ error e. error_kind e ≡ new_kind error };

    fn from(error: NewError) -> Error {
        match error {
            NewError::BadLimits => Error::new(
                ErrorKind::InvalidInput,
                "a limit is not in its range",
            ),
            NewError::OutOfMemory => Error::from(ErrorKind::OutOfMemory),
        }
    }
}
