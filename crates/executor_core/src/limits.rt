//! The limits of an executor, which its caller may hand in.
ghost use Rattle.std.specs.Prelude.{◌≡◌};
ghost use Rattle.executor_core.specs.Limits.{is_lawful, default_limits};
ghost use Rattle.executor_core.specs.declared.limits.NewError.TheVariants as NewError;

use crate::task::error::OutOfMemory;
use std::alloc::AllocError;
use thiserror::Error;

// The limits of an executor whose caller hands in none.
const LOCAL: usize = 512;

const TURN: u32 = 200;

const FAIR: u32 = 64;

// For how many tasks the queue of a run may have room at most.
const MOST_LOCAL: usize = 65_536;

/// The limits of an executor. Its runs keep them. The fields are public, so that a caller writes down those
/// that differ from `Limits::default()`; whether they are lawful is asked when an executor is made.
///
/// Example: `uses::limits_turns`, at `Executor::new_with`.
#[derive(Debug, Clone, Copy, PartialEq, Eq)]
pub struct Limits {
    /// For how many tasks a run's own queue has room: 1 to 65,536.
    pub local: usize,
    /// How many tasks a run runs in a turn, after which it lets others of its thread go on: at
    /// least 1.
    pub turn: u32,
    /// A run takes its share of the global queue with every `fair`-th task that it finds: at least 1.
    pub fair: u32,
}

impl Limits {
    /// Whether each of the limits is in its range.
    pub fn is_lawful(&self) -> bool
        ensures { result ≡ is_lawful self.now }
    {
        0 < self.local && self.local <= MOST_LOCAL && 0 < self.turn && 0 < self.fair
    }
}

impl Default for Limits {
    /// Room for 512 tasks, turns of 200 tasks, and a fair part with each 64th task.
    ///
    /// Example: `uses::limits_turns`, at `Executor::new_with`.
    fn default() -> Limits
        ensures { result ≡ default_limits }
    {
        Limits {
            local: LOCAL,
            turn: TURN,
            fair: FAIR,
        }
    }
}

/// Why nothing was made.
///
/// Example: `uses::limits_turns`, at `Executor::new_with`, where `?` makes an `io::Error` of it.
#[derive(Debug, Clone, Copy, PartialEq, Eq, Error)]
pub enum NewError {
    /// A limit is not in its range. No memory was asked for.
    #[error("a limit is not in its range")]
    BadLimits,
    /// A growth of memory was refused.
    #[error("out of memory")]
    OutOfMemory,
}

impl From<OutOfMemory> for NewError {
    ghost from_gives = { λ _ e. e ≡ NewError.OutOfMemory };

    fn from(_error: OutOfMemory) -> NewError {
        NewError::OutOfMemory
    }
}

impl From<AllocError> for NewError {
    ghost from_gives = { λ _ e. e ≡ NewError.OutOfMemory };

    fn from(_error: AllocError) -> NewError {
        NewError::OutOfMemory
    }
}
