//! Why there is no picture, with a message and an exit status for each cause.
use crate::arguments::BadArguments;
use async_executor::{RunError, SpawnError};
use async_utilities::PoolError;
use std::alloc::{AllocError, AllocFailed};
use thiserror::Error;

/// Why there is no picture, or only a part of it.
#[derive(Debug, Clone, Copy, Error)]
pub enum Failure {
    /// The arguments are bad.
    #[error("{0}\nusage: mandelbrot WIDTH HEIGHT [-j THREADS] [--progress]")]
    Arguments(BadArguments),
    /// Standard output is closed or full.
    #[error("the picture cannot be written to standard output")]
    Output,
    /// Memory was refused.
    #[error("out of memory")]
    OutOfMemory,
    /// A thread could not be started.
    #[error("cannot start a thread")]
    NoThread,
    /// The executor gave up a band, or has no numbers left.
    #[error("the executor stopped before the picture was drawn")]
    Stopped,
}

impl Failure {
    /// The exit status if there is no picture, or only a part of it.
    pub fn status(self) -> u8 {
        match self {
            Failure::Arguments(_) => 2,
            Failure::Output => 3,
            Failure::OutOfMemory => 4,
            Failure::NoThread => 5,
            Failure::Stopped => 6,
        }
    }
}

impl From<AllocError> for Failure {
    fn from(_error: AllocError) -> Failure {
        Failure::OutOfMemory
    }
}

impl<T: Drop> From<AllocFailed<T>> for Failure {
    fn from(_error: AllocFailed<T>) -> Failure {
        Failure::OutOfMemory
    }
}

impl<F: Drop> From<SpawnError<F>> for Failure {
    fn from(error: SpawnError<F>) -> Failure {
        match error {
            SpawnError::OutOfMemory(_) => Failure::OutOfMemory,
            SpawnError::Exhausted(_) => Failure::Stopped,
        }
    }
}

impl<G: Drop> From<RunError<G>> for Failure {
    fn from(error: RunError<G>) -> Failure {
        match error {
            RunError::OutOfMemory(_) => Failure::OutOfMemory,
            RunError::Exhausted(_) => Failure::Stopped,
        }
    }
}

impl From<PoolError> for Failure {
    fn from(error: PoolError) -> Failure {
        match error {
            PoolError::OutOfMemory => Failure::OutOfMemory,
            PoolError::NoThread => Failure::NoThread,
            PoolError::Exhausted => Failure::Stopped,
        }
    }
}
