//! Why there is no count, and the exit status then.
use std::io;
use thiserror::Error;

/// Why there is no count.
#[derive(Debug, Clone, Copy, Error)]
pub enum Failure {
    /// The arguments are bad.
    #[error("the arguments are LIMIT [THREADS], at most 100000000 and at most 64")]
    Arguments,
    /// What a call answered: each error of the executors goes into an `io::Error` by `?`.
    #[error("{0}")]
    Refused(io::Error),
}

impl From<io::Error> for Failure {
    fn from(error: io::Error) -> Failure {
        Failure::Refused(error)
    }
}

impl Failure {
    /// The exit status if there is no count of primes.
    pub fn status(self) -> u8 {
        match self {
            Failure::Refused(_) => 1,
            Failure::Arguments => 2,
        }
    }
}
