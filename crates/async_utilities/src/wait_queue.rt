//! Those who wait at one thing, in the order in which they came.
//!
//! Whoever waits has a place of its own. It takes one with `join`, leaves its waker there with `wait`,
//! and gives the place back with `leave`. `first` takes the waker of the first one that waits, which is
//! notified from then on: it is to come and take what it waited for. It stays so until it comes, and
//! either leaves or waits again, behind all others.
//!
//! Each call is of constant time, whatever waits beside it. The places of those who wait are linked
//! (`links`), so one in the middle goes as easily as the first. `join` and `reserve` alone take memory.
//! The steps are inlined: as calls, whose answers go through memory, they cost a message to another task and
//! back a third more.
//!
//! A thing that is waited for has the queue under its lock, beside what it counts. After each change it
//! calls `notify` with how much there is to come for, and so keeps this law (`IsServed`): if somebody
//! waits, at least as many are notified as there is something to come for. So nothing lies beside one
//! that sleeps. And `notify` wakes nobody if that many are notified already, so nobody is woken in vain
//! but by another that came first.
ghost use Rattle.std.specs.Prelude.{◌≡◌, ◌==◌, ◌+◌, ◌≤◌, ◌<◌, ◌-◌, ◌∷◌, ◌++◌, [], ℕ, None, Some, IfOk, IfErr, OnOk, OnErr, IsOk, length, option_copied};
ghost use Rattle.async_utilities.specs.Links.{without};
ghost use Rattle.async_utilities.specs.WaitQueue.{Comes, Enters, IsServed, KeepsOrder, Leaves, Moves, Notifies, Stays, Steps, Takes, WaitsAt, first_due, first_waker, is_notified, place_at, waker_of};

pub(crate) mod links;
pub(crate) mod rounds;

use crate::due::{Due, Left};
use crate::wait_queue::links::Links;
use async_executor::Wake;
use slab::Slab;
use std::alloc::{AllocError, Global};
use std::marker::Model;
use std::mem::replace;

/// What is at a place that is taken.
#[derive(Drop)]
pub(crate) enum Place<W> {
    /// Nobody has waited here yet.
    Idle,
    /// One waits, and this wakes it.
    Waiting(W),
    /// It was told to come, and has not come yet.
    Notified,
}

/// Who waits, first to last, each at its place.
///
/// A contract sees it as `Waiters`: what is at each place, the places of those who wait, first to last,
/// how many are notified, and how many more places need no memory.
#[derive(Drop)]
pub(crate) struct WaitQueue<W> {
    places: Slab<Place<W>>,
    order: Links,
    notified: usize,
}

impl<W> Model for WaitQueue<W> {
    ghost use Rattle.async_utilities.specs.WaitQueue.{Waiters, waiters_code};

    ghost Value = { Waiters W };

    ghost coded = { waiters_code W.code };

    ghost use Rattle.async_utilities.specs.WaitQueue.{waiters_of, IsQueue};

    ghost view = { λ s. waiters_of s.places s.order s.notified };

    ghost invariant = { λ s. IsQueue s.places s.order s.notified };
}

impl<W> WaitQueue<W> {
    /// A wait queue in which nobody waits, and no place is taken.
    pub(crate) fn new(alloc: Global) -> Self
        ensures { result ≡ record { places = []; waiting = []; notified = 0; room = 0 } }
    {
        WaitQueue {
            places: Slab::new(alloc),
            order: Links::new(alloc),
            notified: 0,
        }
    }

    /// Whether nobody waits in the wait queue.
    pub(crate) fn is_empty(&self) -> bool
        ensures { result ≡ (length self.now.waiting == 0) }
    {
        self.order.is_empty()
    }

    /// How many of the queue were notified, and have not come yet.
    pub(crate) fn notified(&self) -> usize
        ensures { result ≡ self.now.notified }
    {
        self.notified
    }

    /// Whether the one at this place was notified, and has not come yet.
    pub(crate) fn is_notified(&self, place: usize) -> bool
        ensures { result ≡ is_notified (place_at self.now place) }
    {
        matches!(self.places.get(place), Some(Place::Notified))
    }

    /// The waker of the one that waits at this place, if it does.
    pub(crate) fn waiting_at(&self, place: usize) -> Option<&W>
        ensures { option_copied result ≡ waker_of (place_at self.now place) }
    {
        match self.places.get(place) {
            Some(Place::Waiting(waker)) => Some(waker),
            _ => None,
        }
    }

    /// The waker of the first one that waits.
    pub(crate) fn peek(&self) -> Option<&W>
        ensures { option_copied result ≡ first_waker self.now }
    {
        match self.order.first() {
            Some(place) => self.waiting_at(place),
            None => None,
        }
    }
}

impl<W: Drop> WaitQueue<W> {
    /// Makes room for so many more places, so that as many calls of `join` are not refused.
    pub(crate) fn reserve(&mut self, places: usize) -> Result<(), AllocError>
        ensures room { OnOk result (places ≤ self.new.room) }
        ensures stays { Stays self.old self.new }
    {
        self.places.reserve(places)?;
        match self.places.capacity().checked_sub(1) {
            Some(last) => self.order.reserve(last),
            None => Ok(()),
        }
    }

    /// Takes a place of the wait queue, at which nobody waits yet.
    pub(crate) fn join(&mut self) -> Result<usize, AllocError>
        ensures joined { IfOk result (λ place. Takes self.old place self.new) }
        ensures refused { OnErr result (Stays self.old self.new) }
        ensures succeeds { 0 < self.old.room → IsOk result }
    {
        let Ok(place) = self.places.insert(Place::Idle) else {
            return Err(AllocError);
        };
        match self.order.reserve(place) {
            Ok(()) => Ok(place),
            Err(failed) => {
                drop(self.places.try_remove(place));
                Err(failed)
            }
        }
    }

    /// Has one wait in the wait queue at its place with this waker, and gives what is not kept. If it
    /// waited already, its turn stays, and the earlier waker comes out. Otherwise it stands behind all
    /// others. If the place is not taken, nothing changes, and the waker comes back.
    #[inline(always)]
    pub(crate) fn wait(&mut self, place: usize, waker: W) -> Option<W>
        ensures { WaitsAt self.old place waker result self.new }
    {
        let Some(kept) = self.places.get_mut(place) else {
            return Some(waker);
        };
        match replace(kept, Place::Waiting(waker)) {
            Place::Waiting(earlier) => Some(earlier),
            Place::Idle => {
                self.order.push(place);
                None
            }
            Place::Notified => {
                self.order.push(place);
                self.notified -= 1;
                None
            }
        }
    }

    /// Takes the waker of the first one that waits, which is notified from then on.
    #[inline(always)]
    pub(crate) fn first(&mut self) -> Due<W>
        ensures first { result ≡ first_due self.old }
        ensures steps { Steps self.old self.new self.old.waiting }
    {
        let Some(place) = self.order.first() else {
            return Due::Nobody;
        };
        self.order.remove(place);
        prove!(self.notified < self.places.len());
        self.notified += 1;
        match replace(&mut self.places[place], Place::Notified) {
            Place::Waiting(waker) => Due::One(waker),
            Place::Idle | Place::Notified => unreachable!(),
        }
    }

    /// Has the first one that waits be woken, if there is more to come for than are notified.
    #[inline(always)]
    pub(crate) fn notify(&mut self, there: usize) -> Due<W>
        ensures notifies { Notifies self.old there result self.new }
        ensures served { IsServed (there - 1) self.old → IsServed there self.new }
    {
        if self.notified < there {
            self.first()
        } else {
            Due::Nobody
        }
    }

    /// Gives a place of the wait queue back, with the waker of one that waited there.
    #[inline(always)]
    pub(crate) fn leave(&mut self, place: usize) -> Option<W>
        ensures waker { result ≡ waker_of (place_at self.old place) }
        ensures leaves { Moves self.old self.new place None (without place self.old.waiting) }
        ensures stays { KeepsOrder self.old place self.new }
    {
        match self.places.try_remove(place) {
            Some(Place::Waiting(waker)) => {
                self.order.remove(place);
                Some(waker)
            }
            Some(Place::Notified) => {
                self.notified -= 1;
                None
            }
            Some(Place::Idle) => None,
            None => None,
        }
    }

    /// Has one in the wait queue wait no longer, which keeps its place, and gives the waker that it left
    /// there.
    pub(crate) fn come(&mut self, place: usize) -> Option<W>
        ensures waker { result ≡ waker_of (place_at self.old place) }
        ensures comes { Comes self.old place self.new }
        ensures served { (there : ℕ) → IsServed (there + 1) self.old → IsServed there self.new }
        ensures nobody { self.old.waiting ≡ [] → self.new.waiting ≡ [] }
    {
        let Some(kept) = self.places.get_mut(place) else {
            return None;
        };
        match replace(kept, Place::Idle) {
            Place::Waiting(waker) => {
                self.order.remove(place);
                Some(waker)
            }
            Place::Notified => {
                self.notified -= 1;
                None
            }
            Place::Idle => None,
        }
    }

    /// Has one wait in the wait queue with this waker, at its place if it has one, else at a new one. Gives
    /// the place, and an earlier waker. If there is no memory for a place, the waker comes back.
    #[inline(always)]
    pub(crate) fn enter(&mut self, place: Option<usize>, waker: W) -> Result<(usize, Option<W>), W>
        ensures waits { IfOk result (λ kept. Enters self.old place waker kept self.new) }
        ensures refused { IfErr result (λ back. (place ≡ None) × (back ≡ waker)) }
        ensures stays { OnErr result (Stays self.old self.new) }
    {
        let place = match place {
            Some(place) => place,
            None => match self.join() {
                Ok(place) => place,
                Err(_) => return Err(waker),
            },
        };
        let unused = self.wait(place, waker);
        Ok((place, unused))
    }

    /// Gives a place of the wait queue back, if there is one. If it was notified of what it did not take,
    /// of which so much is there, the next one is due.
    #[inline(always)]
    pub(crate) fn pass(&mut self, place: Option<usize>, there: usize) -> Left<W>
        ensures leaves { Leaves self.old place there (result.waker, result.due) self.new }
        ensures served { IsServed there self.old → IsServed there self.new }
        ensures nobody { self.old.waiting ≡ [] → self.new.waiting ≡ [] }
    {
        let Some(place) = place else {
            return Left {
                waker: None,
                due: Due::Nobody,
            };
        };
        let waker = self.leave(place);
        let due = self.notify(there);
        Left { waker, due }
    }
}

/// All who waited at a thing, each of whom is to be woken once no lock is held, the first one first.
/// It cannot be dropped: `wake` is its one end.
pub(crate) struct AllDue<W> {
    pub(crate) waiters: WaitQueue<W>,
}

impl<W: Wake> AllDue<W> {
    /// Wakes all that are due, each once.
    pub(crate) fn wake(self) {
        let AllDue { mut waiters } = self;
        while !waiters.is_empty() {
            waiters.first().wake();
        }
    }
}

/// Notes where one waits from now on, and drops the waker that it left there before. If it could not
/// wait, its waker is woken.
#[inline(always)]
pub(crate) fn keep<W: Wake>(place: &mut Option<usize>, kept: Result<(usize, Option<W>), W>)
    ensures kept { IfOk kept (λ at. place.new ≡ Some at.0) }
    ensures refused { OnErr kept (place.new ≡ place.old) }
{
    match kept {
        Ok((at, earlier)) => {
            *place = Some(at);
            drop(earlier);
        }
        Err(waker) => waker.wake(),
    }
}
