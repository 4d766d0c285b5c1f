//! A time that comes again and again.
ghost use Rattle.std.specs.Prelude.{◌≡◌};
ghost use Rattle.executor_core.specs.declared.task.future.Poll.TheVariants.{Pending as waits};
ghost use Rattle.async_utilities.specs.Polls.{IfReady};
ghost use Rattle.async_utilities.specs.Times.{ComesAgain, IsReached, time_of};

use crate::timers::after::After;
use crate::timers::reading::Reading;
use async_executor::{Future, Poll, Wake};
use std::sync::Wait;
use std::time::Duration;

/// Comes again and again, so much time after the time that it was to come at, and not after the one
/// that it came at. So it does not drift: one that comes late is followed the sooner, at once if its
/// time has passed, until it has caught up. With a period of no time it is ready at each poll.
///
/// Example: `uses::comes_twice`.
///
/// ```text
/// let timer: Timer<ThreadWaker, R, R> = Timer::new(rt.clone()?, rt.clone()?, alloc)?;
/// let before = Reading::now(rt)?;
/// let mut interval = timer.interval(Duration::from_millis(2))?;
/// timer.block_on(interval.next())?;
/// let second = timer.block_on(interval.next())?;
/// // Some(4ms), or more
/// Ok(second.since_start().checked_sub(before.since_start()))
/// ```
#[derive(Drop)]
pub struct Interval<W: Wake, R: Wait + Drop> {
    after: After<W, R>,
    period: Duration,
}

impl<W: Wake, R: Wait + Drop> Interval<W, R> {
    // An interval of this `After`: comes at its time, and then again and again.
    pub(crate) fn new(after: After<W, R>, period: Duration) -> Interval<W, R>
        ensures first { result.after ≡ after }
        ensures period { result.period ≡ period }
    {
        Interval { after, period }
    }

    /// Ready once it comes, with a time that the clock was read at by then. It is then pending until
    /// it comes again.
    ///
    /// Example: `uses::repeats`.
    pub fn poll_next(&mut self, w: &W) -> Poll<Reading>
        ensures never_early { IfReady result (λ now. IsReached self.old.after.nanos (time_of now)) }
        ensures next { ComesAgain result self.old.after.nanos self.old.period self.new.after.nanos }
        ensures waits { result ≡ waits → self.new.after.nanos ≡ self.old.after.nanos }
        ensures period { self.new.period ≡ self.old.period }
    {
        let answer = self.after.poll(w);
        if let Poll::Ready(_) = &answer {
            self.after.put_off(self.period);
        }
        answer
    }

    /// A future of the next time that this `Interval` comes.
    ///
    /// Example: `uses::comes_twice`, at `Interval`.
    pub fn next(&mut self) -> Next<'_, W, R>
        ensures { result.interval.now ≡ self.old }
    {
        Next { interval: self }
    }
}

/// Ready once its interval comes, with a time that the clock was read at by then. Polled again, it
/// waits for the time after that.
///
/// Example: `uses::comes_twice`, at `Interval`.
#[derive(Drop)]
pub struct Next<'a, W: Wake, R: Wait + Drop> {
    interval: &'a mut Interval<W, R>,
}

impl<W: Wake, R: Wait + Drop> Future<W> for Next<'_, W, R> {
    type Output = Reading;

    fn poll(&mut self, w: &W) -> Poll<Reading>
        ensures never_early { IfReady result
            (λ now. IsReached self.old.interval.now.after.nanos (time_of now)) }
    {
        self.interval.poll_next(w)
    }
}
