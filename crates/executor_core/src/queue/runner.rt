//! The key of a runner, and why there is none.
ghost use Rattle.std.specs.Prelude.{◌≡◌};
ghost use Rattle.executor_core.specs.declared.queue.runner.RunnerError.TheVariants.{OutOfMemory};

use std::alloc::AllocError;
use thiserror::Error;

/// Names a runner: one who has a queue of its own, or will have one.
///
/// `Cells::reserve_runner` alone makes one, each with a number that no other has.
#[derive(Debug, Clone, Copy, PartialEq, Eq)]
pub struct RunnerKey {
    pub(crate) number: u64,
}

impl RunnerKey {
    /// The number of the runner: 0 for the first one of its `Cells`, and then one more each.
    pub fn number(self) -> u64
        ensures { result ≡ self.number }
    {
        self.number
    }
}

/// Why no place was reserved for a runner. Nothing else changed.
#[derive(Debug, Clone, Copy, PartialEq, Eq, Error)]
pub enum RunnerError {
    /// A growth of memory was refused.
    #[error("out of memory")]
    OutOfMemory,
    /// Every runner number was given.
    #[error("runner numbers are exhausted")]
    Exhausted,
}

impl From<AllocError> for RunnerError {
    ghost from_gives = { λ _ e. e ≡ OutOfMemory };

    fn from(_error: AllocError) -> RunnerError {
        RunnerError::OutOfMemory
    }
}
