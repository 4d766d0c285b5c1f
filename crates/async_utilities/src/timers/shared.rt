//! What a timer, its futures and those who drive it share.
ghost use Rattle.std.specs.Prelude.{◌≡◌, ◌≤◌, ◌-◌};
ghost use Rattle.std.specs.Duration.{as_nanos};

use crate::locked::lock;
use crate::timers::deadlines::{Deadlines, Fired};
use crate::timers::drivers::Drivers;
use crate::timers::reading::Reading;
use async_executor::Wake;
use std::alloc::Global;
use std::sync::{Mutex, MutexGuard, Wait};
use std::time::Duration;

pub(crate) struct Shared<W: Wake, R: Wait + Drop> {
    deadlines: Mutex<Deadlines<W>>,
    pub(crate) drivers: Drivers,
    pub(crate) alloc: Global,
    pub(crate) rt: R,
}

impl<W: Wake, R: Wait + Drop> Drop for Shared<W, R> {
    // Not derived: the proof of each crate that drops a timer would go through all that stands here.
    fn drop(self) {
        let Shared {
            deadlines,
            drivers,
            alloc: _,
            rt,
        } = self;
        drop(deadlines);
        drop(drivers);
        drop(rt);
    }
}

impl<W: Wake, R: Wait + Drop> Shared<W, R> {
    /// What a new timer shares: no deadline, at this time.
    pub(crate) fn new(rt: R, alloc: Global, now: Reading) -> Shared<W, R> {
        Shared {
            deadlines: Mutex::new(Deadlines::new(alloc, now)),
            drivers: Drivers::new(alloc),
            alloc,
            rt,
        }
    }

    #[inline(always)]
    pub(crate) fn deadlines(&self) -> MutexGuard<'_, Deadlines<W>> {
        lock!(self.deadlines, &self.rt)
    }

    /// `Deadlines::advance`, with its lock: the latest time that the clock was read at, which is this one
    /// if none was later.
    pub(crate) fn latest(&self, now: Reading) -> Reading
        ensures { as_nanos now.since_start ≤ as_nanos result.since_start }
    {
        self.deadlines().advance(now)
    }

    /// `Driver::fire` on what a timer shares: wakes what was left at each deadline that is reached at this
    /// time. Says whether there was one, and gives the first one that is left.
    pub(crate) fn fire(&self, now: Reading) -> (bool, Option<u64>) {
        self.latest(now);
        let mut has_woken = false;
        for _ in self.rt.forever() {
            // One in each hold: so a firing takes no memory, and one that is dropped meanwhile is not
            // woken.
            let fired = self.deadlines().fire();
            match fired {
                Fired::One(due) => {
                    has_woken = true;
                    due.wake();
                }
                Fired::Rest(next) => return (has_woken, next),
            }
        }
        unreachable!()
    }
}

/// From a time to a deadline.
pub(crate) fn until(now: Reading, deadline: u64) -> Duration
    ensures { as_nanos result ≡ deadline - as_nanos now.since_start }
{
    match u64::try_from(now.nanos()) {
        Ok(nanos) => Duration::from_nanos(deadline.saturating_sub(nanos)),
        Err(_) => Duration::ZERO,
    }
}
