//! What a mutex has under its lock: its value, unless a guard has it, and who waits for it.
//!
//! The laws stand in the type. If the value is there and somebody waits, one is notified; and one is
//! notified only if the value is there. It is kept for that one, and nobody who comes later takes it.
ghost use Rattle.std.specs.Prelude.{◌≡◌, ◌≤◌, [], Some};
ghost use Rattle.async_utilities.specs.Values.{there_of};
ghost use Rattle.async_utilities.specs.WaitQueue.{IsServed};

use crate::due::{Due, Left};
use crate::wait_queue::WaitQueue;
use async_executor::Wake;
use std::alloc::Global;
use std::mem::replace;

#[derive(Drop)]
pub(crate) struct State<T, W> {
    pub(crate) value: Option<T>,
    pub(crate) waiters: WaitQueue<W>,
    ghost served: { IsServed (there_of value) waiters },
    ghost kept: { waiters.notified ≤ there_of value },
}

/// What comes of a value that is given back: whom to wake. It cannot be dropped.
pub(crate) struct GaveBack<T, W> {
    /// One that was there before, which no guard leaves.
    pub(crate) earlier: Option<T>,
    pub(crate) due: Due<W>,
}

impl<T: Drop, W: Drop> State<T, W> {
    ghost use Rattle.async_utilities.specs.Mutexes.{Gives, Goes, Takes, Waits, is_due};

    /// The state of a mutex whose value is there, and nobody waits.
    pub(crate) fn new(alloc: Global, value: T) -> State<T, W>
        ensures value { result.value ≡ Some value }
        ensures nobody { result.waiters.waiting ≡ [] }
    {
        State {
            value: Some(value),
            waiters: WaitQueue::new(alloc),
        }
    }

    // Under the mutex's lock: how many may have the value now.
    fn there(&self) -> usize
        ensures { result ≡ there_of self.now.value }
    {
        if self.value.is_some() { 1 } else { 0 }
    }

    // Under the mutex's lock: whether one has its turn at this place, or can have one without.
    fn is_due(&self, place: Option<usize>) -> bool
        ensures { result ≡ is_due self.now place }
    {
        match place {
            Some(place) => self.waiters.is_notified(place),
            None => self.waiters.notified() < self.there(),
        }
    }

    /// Under the mutex's lock: takes the value for one that was notified at this place, or without a place
    /// if it is kept for nobody.
    pub(crate) fn take(&mut self, place: Option<usize>) -> Option<T>
        ensures { Takes self.old place result self.new }
    {
        if !self.is_due(place) {
            return None;
        }
        if let Some(place) = place {
            drop(self.waiters.leave(place));
        }
        self.value.take()
    }

    /// Under the mutex's lock: has one wait for the value: behind all others, or where it waits already. If
    /// it could have it, or there is no memory for its place, the waker comes back, and is to be woken.
    pub(crate) fn wait(&mut self, place: Option<usize>, waker: W) -> Result<(usize, Option<W>), W>
        ensures { Waits self.old place waker result self.new }
    {
        let may_wait = match place {
            Some(place) => self.waiters.waiting_at(place).is_some(),
            None => !self.is_due(None),
        };
        if !may_wait {
            return Err(waker);
        }
        self.waiters.enter(place, waker)
    }

    /// Under the mutex's lock: puts the value back, for the first one that waits.
    pub(crate) fn give(&mut self, value: T) -> GaveBack<T, W>
        ensures { Gives self.old value result self.new }
    {
        let earlier = replace(&mut self.value, Some(value));
        let due = self.waiters.notify(1);
        GaveBack { earlier, due }
    }

    /// Under the mutex's lock: has one wait no longer. If the value was kept for it, the next one has its
    /// turn.
    pub(crate) fn leave(&mut self, place: Option<usize>) -> Left<W>
        ensures { Goes self.old place result self.new }
    {
        let there = self.there();
        self.waiters.pass(place, there)
    }
}
