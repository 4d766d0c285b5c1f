//! Who drives a timer.
ghost use Rattle.std.specs.Prelude.{◌≡◌, ◌<◌, ◌^◌, true, IfErr, IfOk, IfSome};
ghost use Rattle.std.specs.Duration.{as_nanos};
ghost use Rattle.async_utilities.specs.TimerErrors.{is_clock};

use crate::blocking::ThreadWaker;
use crate::timers::Timer;
use crate::timers::error::{TimerError, TimerFailed};
use crate::timers::reading::Reading;
use crate::timers::shared::until;
use async_executor::{Future, OutOfMemory, Poll, Wake};
use std::io;
use std::sync::Wait;
use std::time::{Clock, Duration};

/// What came of a firing.
///
/// Example: `uses::simulates`.
#[derive(Debug, Clone, Copy, PartialEq, Eq)]
pub struct Firing {
    /// Whether a waker was woken. Who was woken may set a nearer deadline than the first one that is
    /// left.
    pub has_woken: bool,
    /// The time until the first deadline that is left, if there is one: less than 2^64 nanoseconds.
    pub left: Option<Duration>,
}

/// Drives a timer, and is told of each deadline that comes before all others, so that whoever has it
/// never sleeps past one. It has a waker of its own for that: poll with it what this thread waits for,
/// and `rest` between the polls.
///
/// One thread at a time may rest. Several may each have one.
///
/// Example: `uses::rest`, which `uses::rests` calls.
///
/// ```text
/// let driver = timer.driver().ok()?;
/// let mut after = timer.after(duration).ok()?;
/// for _ in rt.forever() {
///     if let Poll::Ready(now) = after.poll(driver.waker()) {
///         return Some(now);
///     }
///     driver.rest().ok()?;
/// }
/// None
/// ```
pub struct Driver<'a, W: Wake, C: Clock + Drop, R: Wait + Drop> {
    timer: &'a Timer<W, C, R>,
    place: usize,
    waker: ThreadWaker,
}

impl<'a, W: Wake, C: Clock + Drop, R: Wait + Drop> Driver<'a, W, C, R> {
    // One more driver of this timer.
    pub(crate) fn new(timer: &'a Timer<W, C, R>) -> Result<Driver<'a, W, C, R>, OutOfMemory>
        ensures same { IfOk result (λ driver. driver.timer.now ≡ timer.now) }
    {
        // For as long as it drives: nobody fires who is not told of a nearer deadline, and no place is
        // left behind. One that never parks pays for it too.
        let waker = ThreadWaker::new(timer.shared.alloc)?;
        let copy = waker.copy()?;
        let place = timer.shared.drivers.join(&timer.shared.rt, copy)?;
        Ok(Driver {
            timer,
            place,
            waker,
        })
    }

    /// The waker of this driver, which is told of nearer deadlines. To wake it ends a rest.
    ///
    /// Example: `uses::rest`, at `Driver`.
    pub fn waker(&self) -> &ThreadWaker
        ensures { result.now ≡ self.now.waker }
    {
        &self.waker
    }

    /// Reads the clock, and wakes each waker that was left at a deadline that is reached, once. Says
    /// whether there was one, and how much time is left until the next.
    ///
    /// # Errors
    ///
    /// That of the clock. Nobody is woken then.
    ///
    /// Example: `uses::simulates`.
    pub fn fire(&self) -> io::Result<Firing>
        ensures counted { IfOk result (λ f. IfSome f.left (λ left. as_nanos left < 2 ^ 64)) }
    {
        let now = Reading::now(&self.timer.clock)?;
        let (has_woken, next) = self.timer.shared.fire(now);
        let left = match next {
            Some(nanos) => Some(until(now, nanos)),
            None => None,
        };
        Ok(Firing { has_woken, left })
    }

    /// Fires, and parks this thread until the first deadline that is left, until a nearer one is set,
    /// or until the waker is woken. It may return before.
    ///
    /// # Errors
    ///
    /// That of the clock. Nobody is woken then, and it does not park.
    ///
    /// Example: `uses::rest`, at `Driver`.
    pub fn rest(&self) -> io::Result<()> {
        let rt = &self.timer.shared.rt;
        match self.fire()?.left {
            Some(left) => self.waker.park_timeout(rt, left),
            None => self.waker.park(rt),
        }
        Ok(())
    }

    /// With this driver: polls the future on this thread until it is ready, gives its output, and rests
    /// between the polls. With the run of an executor it is the one thread of a program; with a `Waiting`
    /// it is the timer's own.
    ///
    /// # Errors
    ///
    /// `TimerFailed` with the future, if the clock cannot be read.
    ///
    /// Example: `uses::beats`.
    pub fn block_on<G: Future<ThreadWaker>>(&self, future: G) -> Result<G::Output, TimerFailed<G>>
        ensures clock { IfErr result (λ failed. is_clock failed.error ≡ true) }
    {
        let mut future = future;
        for _ in self.timer.shared.rt.forever() {
            if let Poll::Ready(output) = future.poll(&self.waker) {
                return Ok(output);
            }
            if let Err(error) = self.rest() {
                return Err(TimerFailed {
                    value: future,
                    error: TimerError::Clock(error),
                });
            }
        }
        unreachable!()
    }
}

impl<W: Wake, C: Clock + Drop, R: Wait + Drop> Drop for Driver<'_, W, C, R> {
    fn drop(self) {
        let Driver {
            timer,
            place,
            waker,
        } = self;
        timer.shared.drivers.part(&timer.shared.rt, place);
        drop(waker);
    }
}
