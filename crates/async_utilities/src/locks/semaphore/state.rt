//! What a semaphore has under its lock: the permits that nobody has, and who waits for some.
//!
//! One that is notified has its permits: they are not counted here any more. So nobody who comes later
//! takes them, and if it goes without they are given back. The law stands in the type (`IsShort`): if
//! somebody waits, there are fewer permits than the first one wants.
ghost use Rattle.std.specs.Prelude.{◌≡◌, ◌+◌, ◌<◌, [], false, true};
ghost use Rattle.async_utilities.specs.Wishes.{IsShort};

use crate::due::Due;
use crate::locks::semaphore::given::{Given, Gone, waker_in};
use crate::locks::semaphore::wish::Wish;
use crate::wait_queue::WaitQueue;
use std::alloc::Global;

/// The permits that nobody has, how many there are in all, and who waits.
#[derive(Drop)]
pub(crate) struct State<W> {
    pub(crate) permits: usize,
    pub(crate) total: usize,
    pub(crate) waiters: WaitQueue<Wish<W>>,
    ghost short: { IsShort permits waiters },
}

impl<W: Drop> State<W> {
    ghost use Rattle.async_utilities.specs.Semaphores.{GivesMore, Goes, Takes, Waits, had_at, is_due};

    /// The state of a semaphore with so many permits, and nobody waits.
    pub(crate) fn new(alloc: Global, permits: usize) -> State<W>
        ensures permits { (result.permits ≡ permits) × (result.total ≡ permits) }
        ensures nobody { result.waiters.waiting ≡ [] }
    {
        State {
            permits,
            total: permits,
            waiters: WaitQueue::new(alloc),
        }
    }

    // Under the semaphore's lock: whether one has its permits at this place, or can have so many without
    // one.
    fn is_due(&self, place: Option<usize>, wanted: usize) -> bool
        ensures { result ≡ is_due self.now place wanted }
    {
        match place {
            Some(place) => self.waiters.is_notified(place),
            None => wanted == 0 || (self.waiters.peek().is_none() && wanted <= self.permits),
        }
    }

    // Under the semaphore's lock: how many permits one that waits for so many has at this place.
    fn had_at(&self, place: usize, wanted: usize) -> usize
        ensures { result ≡ had_at self.now place wanted }
    {
        if self.waiters.is_notified(place) {
            wanted
        } else {
            0
        }
    }

    /// Under the semaphore's lock: takes so many permits, those of one that was notified at this place, or
    /// without a place those that nobody waits for. Says whether it did.
    pub(crate) fn take(&mut self, place: Option<usize>, wanted: usize) -> bool
        ensures { Takes self.old place wanted result self.new }
    {
        if !self.is_due(place, wanted) {
            return false;
        }
        match place {
            Some(place) => drop(self.waiters.leave(place)),
            None if wanted == 0 => {}
            None => self.permits -= wanted,
        }
        true
    }

    // Under the semaphore's lock: has one wait on where it waits, for what it waits for there.
    fn wait_on(&mut self, place: usize, waker: W) -> Result<(usize, Option<W>), W>
        ensures { Waits self.old (Some place) 0 waker result self.new }
    {
        let Some(wish) = self.waiters.waiting_at(place) else {
            return Err(waker);
        };
        let permits = wish.permits;
        let unused = self.waiters.wait(place, Wish { waker, permits });
        Ok((place, waker_in(unused)))
    }

    // Under the semaphore's lock: has one begin to wait for so many permits.
    fn wait_anew(&mut self, wanted: usize, waker: W) -> Result<(usize, Option<W>), W>
        ensures { Waits self.old None wanted waker result self.new }
    {
        if self.is_due(None, wanted) || wanted == 0 {
            return Err(waker);
        }
        let wish = Wish {
            waker,
            permits: wanted,
        };
        match self.waiters.enter(None, wish) {
            Ok((place, unused)) => Ok((place, waker_in(unused))),
            Err(Wish { waker, permits: _ }) => Err(waker),
        }
    }

    /// Under the semaphore's lock: has one wait for so many permits: behind all others, or where it waits
    /// already, with what it waits for there. If they are there, or there is no memory for its place, the
    /// waker comes back, and is to be woken.
    pub(crate) fn wait(
        &mut self,
        place: Option<usize>,
        wanted: usize,
        waker: W,
    ) -> Result<(usize, Option<W>), W>
        ensures { Waits self.old place wanted waker result self.new }
    {
        match place {
            Some(place) => self.wait_on(place, waker),
            None => self.wait_anew(wanted, waker),
        }
    }

    /// Under the semaphore's lock: gives so many permits, of which the first one that waits has its share.
    pub(crate) fn give(&mut self, more: usize) -> Given<W>
        ensures gives { GivesMore self.old more result self.new }
        ensures total { self.new.total ≡ self.old.total }
        ensures fewer { 0 < more → result.left < more }
    {
        Given::to_first(&mut self.permits, &mut self.waiters, more)
    }

    /// Under the semaphore's lock: counts so many permits more in all, if that many can be counted.
    pub(crate) fn count(&mut self, more: usize) -> bool
        ensures counted { result ≡ true → self.new.total ≡ self.old.total + more }
        ensures many { result ≡ false → usize.MAX < self.old.total + more }
        ensures refused { result ≡ false → self.new.total ≡ self.old.total }
        ensures permits { self.new.permits ≡ self.old.permits }
        ensures waiters { self.new.waiters ≡ self.old.waiters }
    {
        match self.total.checked_add(more) {
            Some(total) => {
                self.total = total;
                true
            }
            None => false,
        }
    }

    /// Under the semaphore's lock: has one wait for so many permits no longer. If it has them, they are
    /// given back.
    pub(crate) fn leave(&mut self, place: Option<usize>, wanted: usize) -> Gone<W>
        ensures { Goes self.old place wanted result self.new }
    {
        let Some(place) = place else {
            let given = Given {
                due: Due::Nobody,
                left: 0,
            };
            return Gone { waker: None, given };
        };
        let more = self.had_at(place, wanted);
        let waker = waker_in(self.waiters.leave(place));
        let given = Given::to_first(&mut self.permits, &mut self.waiters, more);
        Gone { waker, given }
    }
}
