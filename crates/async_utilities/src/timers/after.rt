//! A future of one time.
ghost use Rattle.std.specs.Prelude.{◌≡◌, ◌≤◌, None, Some, IfOk, IfSome};
ghost use Rattle.std.specs.Arc.{arc_value};
ghost use Rattle.std.specs.Duration.{as_nanos};
ghost use Rattle.async_utilities.specs.Polls.{IfReady};
ghost use Rattle.async_utilities.specs.Times.{IsAt, IsLater, IsReached, time_of};

use crate::due::wake_unless_kept;
use crate::timers::deadlines::{Deadline, News};
use crate::timers::reading::Reading;
use crate::timers::shared::Shared;
use async_executor::{Future, OutOfMemory, Poll, Wake};
use std::sync::{Arc, Wait};
use std::time::Duration;

/// Ready once its time is reached, and from then on, with a time that the clock was read at by then.
/// While it is not, a copy of the waker of its last poll is kept, and is woken when the time is
/// reached. If the copy or memory for it is refused, the waker itself is woken and nothing more is
/// kept. Its drop takes the deadline away, and drops the copy unwoken.
///
/// It is never ready if its time is 2^64 nanoseconds, some 584 years, after the start of the clock or
/// later. It is pending then, and keeps and wakes nobody.
///
/// Example: `uses::postpones`.
///
/// ```text
/// let timer: Timer<ThreadWaker, R, R> = Timer::new(
///     rt.clone().ok()?,
///     rt.clone().ok()?,
///     alloc,
/// ).ok()?;
/// let before = Reading::now(rt).ok()?;
/// let mut after = timer.at(before.checked_add(Duration::from_secs(60))?).ok()?;
/// after.reset(before.checked_add(Duration::from_millis(PERIOD))?);
/// let now = timer.block_on(after).ok()?;
/// now.since_start().checked_sub(before.since_start())
/// ```
pub struct After<W: Wake, R: Wait + Drop> {
    shared: Arc<Shared<W, R>>,
    // Its time, in nanoseconds since the start of the clock, if that is ever reached.
    nanos: Option<u64>,
    // The deadline at which its waker was left.
    place: Option<Deadline>,
}

// The time of an `After`, if 64 bits hold it. No other one is ever reached.
fn counted(nanos: u128) -> Option<u64>
    ensures { IsAt result nanos }
{
    u64::try_from(nanos).ok()
}

impl<W: Wake, R: Wait + Drop> After<W, R> {
    // An `After` that is ready at this time, in nanoseconds since the start of the clock.
    pub(crate) fn new(shared: &Arc<Shared<W, R>>, nanos: u128) -> Result<After<W, R>, OutOfMemory>
        ensures time { IfOk result (λ after. IsAt after.nanos nanos) }
        ensures same { IfOk result (λ after. arc_value after.shared ≡ arc_value shared.now) }
    {
        Ok(After {
            shared: Arc::try_clone(shared)?,
            nanos: counted(nanos),
            place: None,
        })
    }

    /// Has the `After` be ready at this time, in place of its own. What its last poll left there is woken
    /// at this one, unless it was woken already; or at once, if memory for that is refused.
    ///
    /// Example: `uses::postpones`, at `After`.
    pub fn reset(&mut self, time: Reading)
        ensures time { IsAt self.new.nanos (as_nanos time.since_start) }
        ensures same { arc_value self.new.shared ≡ arc_value self.old.shared }
    {
        self.move_to(counted(time.nanos()));
    }

    // Has the `After` be ready so much later than it was to be.
    pub(crate) fn put_off(&mut self, duration: Duration)
        ensures time { IsLater self.old.nanos (as_nanos duration) self.new.nanos }
        ensures same { arc_value self.new.shared ≡ arc_value self.old.shared }
    {
        if let Some(nanos) = self.nanos {
            self.move_to(counted(u128::from(nanos) + duration.as_nanos()));
        }
    }

    // Has the `After` be ready at this time, with the waker that it left.
    fn move_to(&mut self, nanos: Option<u64>)
        ensures time { self.new.nanos ≡ nanos }
        ensures same { arc_value self.new.shared ≡ arc_value self.old.shared }
    {
        self.nanos = nanos;
        let Some(place) = self.place.take() else {
            return;
        };
        let mut deadlines = self.shared.deadlines();
        let left = deadlines.remove(place);
        let (Some(nanos), Some(waker)) = (nanos, left) else {
            return;
        };
        let set = deadlines.set(nanos, waker);
        drop(deadlines);
        self.settle(set);
    }

    // Keeps the place that the `After` was given, and tells who drives the timer; or wakes the waker that
    // found none.
    fn settle(&mut self, set: Result<(Deadline, News), W>)
        ensures time { self.new.nanos ≡ self.old.nanos }
        ensures same { arc_value self.new.shared ≡ arc_value self.old.shared }
    {
        match set {
            Ok((place, news)) => {
                self.place = Some(place);
                self.shared.drivers.tell(&self.shared.rt, news);
            }
            Err(waker) => waker.wake(),
        }
    }

    // The poll of an `After`: the latest time, if it has reached this one. The place is given back then.
    fn reached(&mut self, nanos: u64) -> Option<Reading>
        ensures reached { IfSome result (λ now. nanos ≤ as_nanos now.since_start) }
        ensures time { self.new.nanos ≡ self.old.nanos }
        ensures same { arc_value self.new.shared ≡ arc_value self.old.shared }
    {
        let mut deadlines = self.shared.deadlines();
        let now = deadlines.reached(nanos)?;
        let left = match self.place.take() {
            Some(place) => deadlines.remove(place),
            None => None,
        };
        drop(deadlines);
        drop(left);
        Some(now)
    }

    // The poll of an `After`: waits for this time with a copy of a waker, unless it was reached meanwhile.
    fn wait(&mut self, nanos: u64, copy: W) -> Poll<Reading>
        ensures reached { IfReady result (λ now. nanos ≤ as_nanos now.since_start) }
        ensures time { self.new.nanos ≡ self.old.nanos }
        ensures same { arc_value self.new.shared ≡ arc_value self.old.shared }
    {
        let mut deadlines = self.shared.deadlines();
        if let Some(now) = deadlines.reached(nanos) {
            drop(deadlines);
            drop(copy);
            return Poll::Ready(now);
        }
        if let Some(place) = self.place {
            let left = deadlines.leave(place, copy);
            drop(deadlines);
            wake_unless_kept(left.map(Some));
        } else {
            // Not before a poll has to wait: a future that is ready at once costs nothing.
            let set = deadlines.set(nanos, copy);
            drop(deadlines);
            self.settle(set);
        }
        Poll::Pending
    }
}

impl<W: Wake, R: Wait + Drop> Future<W> for After<W, R> {
    type Output = Reading;

    fn poll(&mut self, w: &W) -> Poll<Reading>
        ensures never_early { IfReady result (λ now. IsReached self.old.nanos (time_of now)) }
        ensures time { self.new.nanos ≡ self.old.nanos }
        ensures same { arc_value self.new.shared ≡ arc_value self.old.shared }
    {
        let Some(nanos) = self.nanos else {
            return Poll::Pending;
        };
        if let Some(now) = self.reached(nanos) {
            return Poll::Ready(now);
        }
        match w.copy() {
            Ok(copy) => self.wait(nanos, copy),
            Err(_) => {
                w.wake();
                Poll::Pending
            }
        }
    }
}

impl<W: Wake, R: Wait + Drop> Drop for After<W, R> {
    fn drop(self) {
        let After {
            shared,
            nanos: _,
            place,
        } = self;
        if let Some(place) = place {
            let left = shared.deadlines().remove(place);
            drop(left);
        }
    }
}
