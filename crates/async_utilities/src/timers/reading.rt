//! Times of a clock.
ghost use Rattle.std.specs.Prelude.{◌≡◌, ◌<◌, ◌+◌, ◌*◌, ◌^◌, ◌↔◌, max, IsSome, IfSome};
ghost use Rattle.std.specs.Duration.{as_nanos, FitsDuration};
ghost use Rattle.async_utilities.specs.Times.{time_of};

use std::io;
use std::time::{Clock, Duration};

/// A time that a clock was read at, or one so much later, counted from the clock's start, which is
/// arbitrary. There is none but those that begin with what a clock gave.
///
/// Example: `uses::looks_ahead`.
///
/// ```text
/// let now = Reading::now(clock)?;
/// let Some(later) = now.checked_add(Duration::from_millis(2)) else {
///     return Ok(None);
/// };
/// // Some(2ms)
/// Ok(later.since_start().checked_sub(now.since_start()))
/// ```
#[derive(Clone, Copy, Debug, PartialEq, Eq)]
pub struct Reading {
    since_start: Duration,
}

impl Reading {
    /// The `Reading` of this clock now.
    ///
    /// # Errors
    ///
    /// That of the clock.
    ///
    /// Example: `uses::looks_ahead`, at `Reading`.
    pub fn now(clock: &impl Clock) -> io::Result<Reading> {
        Ok(Reading {
            since_start: clock.monotonic()?,
        })
    }

    /// The time that is so much later, unless a `Duration` cannot count it.
    ///
    /// Example: `uses::looks_ahead`, at `Reading`.
    pub fn checked_add(self, duration: Duration) -> Option<Reading>
        ensures variant { IsSome result ↔ FitsDuration (time_of self + as_nanos duration) }
        ensures later { IfSome result (λ later. time_of later ≡ time_of self + as_nanos duration) }
    {
        Some(Reading {
            since_start: self.since_start.checked_add(duration)?,
        })
    }

    /// The time since the start of the clock.
    ///
    /// Example: `uses::looks_ahead`, at `Reading`.
    pub fn since_start(self) -> Duration
        ensures { result ≡ self.since_start }
    {
        self.since_start
    }

    /// The time since the start of the clock in nanoseconds.
    ///
    /// Example: `uses::rests`.
    pub fn nanos(self) -> u128
        ensures nanos { result ≡ as_nanos self.since_start }
        ensures small { result < 2 ^ 64 * 1_000_000_000 }
    {
        self.since_start.as_nanos()
    }

    /// The later one of both readings.
    pub(crate) fn later(self, other: Reading) -> Reading
        ensures { time_of result ≡ max (time_of self) (time_of other) }
    {
        if self.nanos() < other.nanos() {
            other
        } else {
            self
        }
    }
}
