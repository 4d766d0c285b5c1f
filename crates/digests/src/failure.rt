//! Why the program stops before all files are digested, and its exit status then.
ghost use Rattle.std.specs.Prelude.{◌≡◌, ◌<◌};
ghost use Rattle.digests.specs.Failures.{pool_failure, run_failure, timer_failure};
ghost use Rattle.digests.specs.Statuses.{status_of};
ghost use Rattle.digests.specs.declared.failure.Failure.TheVariants as Failure;

use crate::cause::Cause;
use async_executor::{Cancelled, OutOfMemory, RunError, SpawnError};
use async_utilities::{PoolError, TimerError, TimerFailed};
use std::alloc::{AllocError, AllocFailed};
use std::io;
use thiserror::Error;

/// Why the program stops.
#[derive(Debug, Drop, Error)]
pub enum Failure {
    /// An option that there is not, in quotes if it needs them.
    #[error("unknown option {0}")]
    UnknownOption(String),
    /// What stands in the place of a number of threads, in quotes if it needs them.
    #[error("-j {0}: no number from 1 to 256")]
    BadNumber(String),
    /// `-j` is the last argument.
    #[error("-j: a number from 1 to 256 is missing")]
    NoNumber,
    /// Standard output takes no more.
    #[error("write error: {0}")]
    Output(Cause),
    /// A request for memory was refused.
    #[error("memory exhausted")]
    OutOfMemory,
    /// The system starts no more threads.
    #[error("cannot start a thread")]
    NoThread,
    /// The clock cannot be read.
    #[error("clock: {0}")]
    Clock(Cause),
    /// Task numbers or runner numbers are exhausted.
    #[error("numbers are exhausted")]
    Exhausted,
    /// A task gave no answer.
    #[error("a task was cancelled")]
    Cancelled,
}

impl Failure {
    /// The exit status: none that a program has which went through all files.
    pub fn status(&self) -> u8
        ensures value { result ≡ status_of self.now }
        ensures distinct { 1 < result }
    {
        match self {
            Failure::UnknownOption(_) | Failure::BadNumber(_) | Failure::NoNumber => 2,
            Failure::Output(_) => 3,
            Failure::OutOfMemory => 4,
            Failure::NoThread => 5,
            Failure::Clock(_) | Failure::Exhausted | Failure::Cancelled => 6,
        }
    }
}

impl From<AllocError> for Failure {
    ghost from_gives = { λ _ failure. failure ≡ Failure.OutOfMemory };

    fn from(_error: AllocError) -> Failure {
        Failure::OutOfMemory
    }
}

impl<T: Drop> From<AllocFailed<T>> for Failure {
    ghost from_gives = { λ _ failure. failure ≡ Failure.OutOfMemory };

    fn from(_error: AllocFailed<T>) -> Failure {
        Failure::OutOfMemory
    }
}

impl From<OutOfMemory> for Failure {
    ghost from_gives = { λ _ failure. failure ≡ Failure.OutOfMemory };

    fn from(_error: OutOfMemory) -> Failure {
        Failure::OutOfMemory
    }
}

impl From<PoolError> for Failure {
    ghost from_gives = { λ error failure. failure ≡ pool_failure error };

    fn from(error: PoolError) -> Failure {
        match error {
            PoolError::OutOfMemory => Failure::OutOfMemory,
            PoolError::Exhausted => Failure::Exhausted,
            PoolError::NoThread => Failure::NoThread,
        }
    }
}

impl From<TimerError> for Failure {
    ghost from_gives = { λ error failure. failure ≡ timer_failure error };

    fn from(error: TimerError) -> Failure {
        match error {
            TimerError::OutOfMemory => Failure::OutOfMemory,
            TimerError::Clock(error) => Failure::Clock(Cause(error)),
        }
    }
}

impl<G: Drop> From<TimerFailed<G>> for Failure {
    ghost from_gives = { λ failed failure. failure ≡ timer_failure failed.error };

    fn from(failed: TimerFailed<G>) -> Failure {
        Failure::from(failed.error)
    }
}

impl<G: Drop> From<RunError<G>> for Failure {
    ghost from_gives = { λ error failure. failure ≡ run_failure error };

    fn from(error: RunError<G>) -> Failure {
        match error {
            RunError::OutOfMemory(_) => Failure::OutOfMemory,
            RunError::Exhausted(_) => Failure::Exhausted,
        }
    }
}

impl<G: Drop> From<SpawnError<G>> for Failure {
    fn from(error: SpawnError<G>) -> Failure
        ensures memory { (future : G) → error ≡ SpawnError.OutOfMemory future
            → result ≡ Failure.OutOfMemory }
        ensures numbers { (future : G) → error ≡ SpawnError.Exhausted future
            → result ≡ Failure.Exhausted }
    {
        match error {
            SpawnError::OutOfMemory(_) => Failure::OutOfMemory,
            SpawnError::Exhausted(_) => Failure::Exhausted,
        }
    }
}

impl From<Cancelled> for Failure {
    ghost from_gives = { λ _ failure. failure ≡ Failure.Cancelled };

    fn from(_error: Cancelled) -> Failure {
        Failure::Cancelled
    }
}
