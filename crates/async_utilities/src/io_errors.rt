//! What each error of this crate is as an `io::Error`, to which `?` takes it: its kind, and the text that
//! it has itself. A future or a message that it had is dropped.
ghost use Rattle.std.specs.Prelude.{◌≡◌};
ghost use Rattle.std.specs.IoError.{error_kind};
ghost use Rattle.std.specs.declared.io.ErrorKind.TheVariants as ErrorKind;
ghost use Rattle.async_utilities.specs.ErrorKinds.{pool_kind, timer_kind, unsent_kind, no_message_kind, unavailable_kind};

use crate::blocking::BlockOnError;
use crate::channels::{NoMessage, Unsent};
use crate::locks::{TooManyPermits, Unavailable};
use crate::pooling::PoolError;
use crate::timers::{TimedOut, TimerError, TimerFailed};
use std::io::{Error, ErrorKind};

impl From<PoolError> for Error {
    ghost from_gives = { λ error e. error_kind e ≡ pool_kind error };

    fn from(error: PoolError) -> Error {
        match error {
            PoolError::OutOfMemory => Error::from(ErrorKind::OutOfMemory),
            PoolError::Exhausted => Error::new(ErrorKind::Other, "runner numbers are exhausted"),
            PoolError::NoThread => Error::new(ErrorKind::WouldBlock, "cannot start a thread"),
        }
    }
}

impl<G: Drop> From<BlockOnError<G>> for Error {
    ghost from_gives = { λ _ e. error_kind e ≡ ErrorKind.OutOfMemory };

    fn from(_error: BlockOnError<G>) -> Error {
        Error::from(ErrorKind::OutOfMemory)
    }
}

// An error of the clock stays what it is.
impl From<TimerError> for Error {
    ghost from_gives = { λ error e. error_kind e ≡ timer_kind error };

    fn from(error: TimerError) -> Error {
        match error {
            TimerError::OutOfMemory => Error::from(ErrorKind::OutOfMemory),
            TimerError::Clock(error) => error,
        }
    }
}

impl<G: Drop> From<TimerFailed<G>> for Error {
    ghost from_gives = { λ failed e. error_kind e ≡ timer_kind failed.error };

    fn from(failed: TimerFailed<G>) -> Error {
        Error::from(failed.error)
    }
}

impl<G: Drop> From<TimedOut<G>> for Error {
    ghost from_gives = { λ _ e. error_kind e ≡ ErrorKind.TimedOut };

    fn from(_error: TimedOut<G>) -> Error {
        Error::from(ErrorKind::TimedOut)
    }
}

impl<T: Drop> From<Unsent<T>> for Error {
    ghost from_gives = { λ unsent e. error_kind e ≡ unsent_kind unsent };

    fn from(unsent: Unsent<T>) -> Error {
        match unsent {
            Unsent::Full(_) => Error::new(ErrorKind::WouldBlock, "the channel is full"),
            Unsent::Closed(_) => Error::new(ErrorKind::BrokenPipe, "the channel is closed"),
            Unsent::Refused(_) => Error::from(ErrorKind::OutOfMemory),
        }
    }
}

impl From<NoMessage> for Error {
    ghost from_gives = { λ error e. error_kind e ≡ no_message_kind error };

    fn from(error: NoMessage) -> Error {
        match error {
            NoMessage::Empty => Error::new(ErrorKind::WouldBlock, "the channel is empty"),
            NoMessage::Closed => Error::new(ErrorKind::UnexpectedEof, "the channel is closed"),
        }
    }
}

impl From<Unavailable> for Error {
    ghost from_gives = { λ error e. error_kind e ≡ unavailable_kind error };

    fn from(error: Unavailable) -> Error {
        match error {
            Unavailable::Taken => Error::new(
                ErrorKind::WouldBlock,
                "others have it, or wait for it",
            ),
            Unavailable::OutOfMemory => Error::from(ErrorKind::OutOfMemory),
        }
    }
}

impl From<TooManyPermits> for Error {
    ghost from_gives = { λ _ e. error_kind e ≡ ErrorKind.InvalidInput };

    fn from(_error: TooManyPermits) -> Error {
        Error::new(ErrorKind::InvalidInput, "more permits than can be counted")
    }
}
