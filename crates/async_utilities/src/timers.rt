//! Futures that are ready once a clock has reached a time.
//!
//! A timer keeps its deadlines under a lock, in order of time, each with the waker that its future left
//! there: a deadline is set at the first poll of its future that has to wait. Whoever drives the timer
//! has a `Driver`. It reads the clock and takes the deadlines that are reached, one after another, and
//! wakes the waker of each once the lock is given up. A deadline that comes before all others tells
//! each driver, which looks again. So no deadline is early, and none waits for a later one. It is as
//! late as whoever drives the timer is, and if nobody does, it never comes.
ghost use Rattle.std.specs.Prelude.{◌≡◌, false, IsSome, IfSome, IfOk, IfErr};
ghost use Rattle.std.specs.Arc.{arc_value};
ghost use Rattle.async_utilities.specs.TimerErrors.{is_clock};
ghost use Rattle.async_utilities.specs.Times.{IsAt, Lasts, time_of};

pub(crate) mod after;
pub(crate) mod deadlines;
pub(crate) mod driver;
pub(crate) mod drivers;
pub(crate) mod error;
pub(crate) mod interval;
pub(crate) mod reading;
pub(crate) mod shared;
pub(crate) mod timeout;

use crate::blocking::ThreadWaker;
use crate::timers::shared::Shared;
pub use after::After;
use async_executor::{Future, OutOfMemory, Wake};
pub use driver::{Driver, Firing};
pub use error::{TimerError, TimerFailed};
pub use interval::{Interval, Next};
pub use reading::Reading;
use std::alloc::{AllocError, Global};
use std::sync::{Arc, Wait};
use std::time::{Clock, Duration};
pub use timeout::{TimedOut, Timeout};

/// Gives futures that are ready once its clock has reached a time. W is the waker that they are polled
/// with, C the clock, and R the right to wait for the lock. Somebody has to drive it, by `block_on` or
/// by a `driver`.
///
/// Example: `uses::waits_a_while`.
///
/// ```text
/// let timer: Timer<ThreadWaker, R, R> = Timer::new(rt.clone()?, rt.clone()?, alloc)?;
/// let before = Reading::now(rt)?;
/// let now = timer.block_on(timer.after(Duration::from_millis(2))?)?;
/// // Some(2ms), or more
/// Ok(now.since_start().checked_sub(before.since_start()))
/// ```
#[derive(Drop)]
pub struct Timer<W: Wake, C: Clock + Drop, R: Wait + Drop> {
    shared: Arc<Shared<W, R>>,
    clock: C,
}

impl<W: Wake, C: Clock + Drop, R: Wait + Drop> Timer<W, C, R> {
    /// A timer that goes by this clock.
    ///
    /// # Errors
    ///
    /// `TimerError`, if memory for it is refused or the clock cannot be read.
    ///
    /// Example: `uses::waits_a_while`, at `Timer`.
    pub fn new(rt: R, clock: C, alloc: Global) -> Result<Timer<W, C, R>, TimerError>
        ensures { IfOk result (λ timer. timer.clock ≡ clock) }
    {
        let now = Reading::now(&clock)?;
        match Arc::new(alloc, Shared::new(rt, alloc, now)) {
            Ok(shared) => Ok(Timer { shared, clock }),
            Err(_) => Err(TimerError::OutOfMemory),
        }
    }

    /// The same timer, for another holder.
    ///
    /// # Errors
    ///
    /// `AllocError` if another holder cannot be counted, or the clock cannot be cloned.
    ///
    /// Example: `uses::rests`.
    pub fn copy(&self) -> Result<Timer<W, C, R>, AllocError>
    where
        C: Clone,
        ensures same { IfOk result (λ copy. arc_value copy.shared ≡ arc_value self.now.shared) }
    {
        let clock = self.clock.clone()?;
        let shared = Arc::try_clone(&self.shared)?;
        Ok(Timer { shared, clock })
    }

    /// A future of this timer, ready once the clock has reached this time. It takes no memory until it is
    /// polled and has to wait.
    ///
    /// # Errors
    ///
    /// `OutOfMemory` if another holder of the timer cannot be counted.
    ///
    /// Example: `uses::postpones`, at `After`.
    pub fn at(&self, time: Reading) -> Result<After<W, R>, OutOfMemory>
        ensures time { IfOk result (λ after. IsAt after.nanos (time_of time)) }
        ensures same { IfOk result (λ after. arc_value after.shared ≡ arc_value self.now.shared) }
    {
        After::new(&self.shared, time.nanos())
    }

    /// A future of this timer, ready once so much time has passed, from the time that the clock is read at
    /// here on. If that is too long to be counted, it never is.
    ///
    /// # Errors
    ///
    /// `TimerError`, if another holder of the timer cannot be counted or the clock cannot be read.
    ///
    /// Example: `uses::waits_a_while`, at `Timer`.
    pub fn after(&self, duration: Duration) -> Result<After<W, R>, TimerError>
        ensures long { IfOk result (λ after. Lasts after.nanos duration) }
        ensures same { IfOk result (λ after. arc_value after.shared ≡ arc_value self.now.shared) }
    {
        let now = self.shared.latest(Reading::now(&self.clock)?);
        let nanos = now.nanos() + duration.as_nanos();
        Ok(After::new(&self.shared, nanos)?)
    }

    /// An interval of this timer, which comes once so much time has passed, and then again and again, each
    /// time so much later.
    ///
    /// # Errors
    ///
    /// `TimerError`, if another holder of the timer cannot be counted or the clock cannot be read.
    ///
    /// Example: `uses::comes_twice`, at `Interval`.
    pub fn interval(&self, period: Duration) -> Result<Interval<W, R>, TimerError>
        ensures first { IfOk result (λ made. Lasts made.after.nanos period) }
        ensures period { IfOk result (λ interval. interval.period ≡ period) }
    {
        Ok(Interval::new(self.after(period)?, period))
    }

    /// An interval of this timer, which comes at this time, and then again and again, each time so much
    /// later.
    ///
    /// # Errors
    ///
    /// `OutOfMemory` if another holder of the timer cannot be counted.
    ///
    /// Example: `uses::beats`.
    pub fn interval_at(
        &self,
        first: Reading,
        period: Duration,
    ) -> Result<Interval<W, R>, OutOfMemory>
        ensures first { IfOk result (λ made. IsAt made.after.nanos (time_of first)) }
        ensures period { IfOk result (λ interval. interval.period ≡ period) }
    {
        Ok(Interval::new(self.at(first)?, period))
    }

    /// A timeout of this timer, which gives the output of the future, or `TimedOut` with the future if so
    /// much time passes before it is ready.
    ///
    /// # Errors
    ///
    /// `TimerFailed` with the future, if another holder of the timer cannot be counted or the clock
    /// cannot be read.
    ///
    /// Example: `uses::is_too_late`, at `Timeout`.
    pub fn timeout<G>(
        &self,
        duration: Duration,
        future: G,
    ) -> Result<Timeout<G, W, R>, TimerFailed<G>>
        ensures ok { IfOk result (λ timeout. IfSome timeout.inner (λ inner. inner.0 ≡ future)) }
        ensures long { IfOk result (λ made. IfSome made.inner (λ i. Lasts i.1.nanos duration)) }
        ensures begun { IfOk result (λ timeout. IsSome timeout.inner) }
        ensures refused { IfErr result (λ failed. failed.value ≡ future) }
    {
        match self.after(duration) {
            Ok(after) => Ok(Timeout::new(future, after)),
            Err(error) => Err(TimerFailed {
                value: future,
                error,
            }),
        }
    }

    /// A driver of this timer from now on, for as long as the driver is there.
    ///
    /// # Errors
    ///
    /// `OutOfMemory` if memory for its waker or for its place is refused.
    ///
    /// Example: `uses::rest`, at `Driver`.
    pub fn driver(&self) -> Result<Driver<'_, W, C, R>, OutOfMemory>
        ensures same { IfOk result (λ driver. driver.timer.now ≡ self.now) }
    {
        Driver::new(self)
    }

    /// `Driver::block_on` of a driver for this one call: polls the future on this thread until it is ready,
    /// gives its output, and drives the timer meanwhile.
    ///
    /// # Errors
    ///
    /// `TimerFailed` with the future, if memory for the driver is refused or the clock is not to be
    /// read.
    ///
    /// Example: `uses::waits_a_while`, at `Timer`.
    pub fn block_on<G: Future<ThreadWaker>>(&self, future: G) -> Result<G::Output, TimerFailed<G>>
        ensures refused { IfErr result (λ e. is_clock e.error ≡ false → e.value ≡ future) }
    {
        match self.driver() {
            Ok(driver) => driver.block_on(future),
            Err(_) => Err(TimerFailed {
                value: future,
                error: TimerError::OutOfMemory,
            }),
        }
    }
}
