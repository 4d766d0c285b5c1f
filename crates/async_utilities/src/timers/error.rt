//! What a timer says if it does not do what it was asked for.
use async_executor::OutOfMemory;
use std::alloc::AllocError;
use std::fmt::{self, Debug, Formatter, Write};
use std::io;
use thiserror::Error;

/// Why a timer did not do what it was asked for.
///
/// Example: `uses::waits_a_while`, at `Timer`, where `?` makes an `io::Error` of it.
#[derive(Debug, Clone, Copy, Error)]
pub enum TimerError {
    /// Memory was refused.
    #[error("out of memory")]
    OutOfMemory,
    /// The clock could not be read.
    #[error("{0}")]
    Clock(io::Error),
}

impl From<AllocError> for TimerError {
    fn from(_error: AllocError) -> TimerError {
        TimerError::OutOfMemory
    }
}

impl From<OutOfMemory> for TimerError {
    fn from(_error: OutOfMemory) -> TimerError {
        TimerError::OutOfMemory
    }
}

impl From<io::Error> for TimerError {
    fn from(error: io::Error) -> TimerError {
        TimerError::Clock(error)
    }
}

/// Why a timer did not do what it was asked for, with the future that it was handed.
///
/// Example: `uses::waits_a_while`, at `Timer`, where `?` makes an `io::Error` of it.
#[derive(Drop, Error)]
#[error("{error}")]
pub struct TimerFailed<G> {
    /// The future.
    pub value: G,
    /// Why.
    pub error: TimerError,
}

// Of any future, so that a test can give the error on.
impl<G> Debug for TimerFailed<G> {
    fn fmt<O: Write>(&self, f: &mut Formatter<O>) -> fmt::Result {
        f.write_str("TimerFailed { .. }")
    }
}
