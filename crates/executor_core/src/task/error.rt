//! Why a call gave up, with what it was handed.
ghost use Rattle.std.specs.Prelude.{◌≡◌};
ghost use Rattle.executor_core.specs.SpawnError.{refused_future};

use std::alloc::AllocError;
use thiserror::Error;

/// A growth of memory was refused. Nothing else changed.
///
/// Example: `uses::ticks`, at `Executor::tick`, where `?` makes an `io::Error` of it.
#[derive(Debug, Clone, Copy, PartialEq, Eq, Error)]
#[error("out of memory")]
pub struct OutOfMemory;

impl From<AllocError> for OutOfMemory {
    fn from(_error: AllocError) -> OutOfMemory {
        OutOfMemory
    }
}

/// Why no task was spawned, with its future. Nothing else changed.
///
/// Example: `uses::gives_back`.
///
/// ```text
/// match executor.spawn(future) {
///     Ok(task) => Ok(task),
///     Err(refused) => Err(refused.into_inner()),
/// }
/// ```
#[derive(Debug, PartialEq, Eq, Drop, Error)]
pub enum SpawnError<P> {
    /// A growth of memory was refused.
    #[error("out of memory")]
    OutOfMemory(P),
    /// Every task number was given.
    // No error type of its own: this too gives the future back.
    #[error("task numbers are exhausted")]
    Exhausted(P),
}

impl<P> SpawnError<P> {
    /// The future of this `SpawnError`, which was refused.
    ///
    /// Example: `uses::gives_back`, at `SpawnError`.
    pub fn into_inner(self) -> P
        ensures { result ≡ refused_future self }
    {
        match self {
            SpawnError::OutOfMemory(future) | SpawnError::Exhausted(future) => future,
        }
    }
}
