//! A semaphore: permits that are taken, waited for in order, and given back.
ghost use Rattle.std.specs.Prelude.{◌≡◌, None, Some, IfOk, true};
ghost use Rattle.std.specs.Arc.{arc_value};
ghost use Rattle.async_utilities.specs.Polls.{IfReady};
ghost use Rattle.async_utilities.specs.Values.{IsHeld};
ghost use Rattle.executor_core.specs.declared.task.future.Poll.TheVariants.{Pending as waits};

pub(crate) mod given;
pub(crate) mod state;
pub(crate) mod wish;

use crate::locked::Locked;
use crate::locks::Unavailable;
use crate::locks::semaphore::given::{Given, Gone};
use crate::locks::semaphore::state::State;
use crate::wait_queue::keep;
use async_executor::{Future, OutOfMemory, Poll, Wake};
use std::alloc::Global;
use std::sync::{Arc, Wait};

/// Permits, of which each holder has one or more. Who waits for permits gets them in the order in which
/// it began to wait, however many it waits for: nobody who comes later takes them before. W is the waker
/// that waits, and R the right to wait for the lock.
///
/// Example: `uses::acquires`.
///
/// ```text
/// let right = rt.clone().ok()?;
/// let semaphore: Semaphore<ThreadWaker, R> = Semaphore::new(right, alloc, 2).ok()?;
/// let one = semaphore.try_acquire().ok()?;
/// let left = semaphore.permits();
/// drop(one);
/// let _both = block_on(rt, alloc, semaphore.acquire_many(2).ok()?).ok()?;
/// // [1, 0]
/// Some([left, semaphore.permits()])
/// ```
#[derive(Drop)]
pub struct Semaphore<W: Wake, R: Wait + Drop> {
    shared: Arc<Shared<W, R>>,
}

// What its handles, futures and guards share.
type Shared<W, R> = Locked<State<W>, R>;

/// More permits than a `usize` counts would be there in all.
///
/// Example: `uses::takes_permits`.
#[derive(Debug, Clone, Copy, PartialEq, Eq)]
pub struct TooManyPermits;

impl<W: Wake, R: Wait + Drop> Shared<W, R> {
    // Gives so many permits of the semaphore, those who wait first, each without the lock.
    fn give(&self, permits: usize) {
        if permits > 0 {
            let given = self.state().give(permits);
            self.end(given);
        }
    }

    // For a `Semaphore`: wakes who is due, and gives the permits that are left to those behind it.
    fn end(&self, given: Given<W>) {
        let Given { due, mut left } = given;
        due.wake();
        while left > 0 {
            let Given { due, left: rest } = self.state().give(left);
            left = rest;
            due.wake();
        }
    }

    // The poll of an `Acquire`: takes so many permits, or has one wait for them at this place. Says whether
    // it took them.
    fn poll(&self, w: &W, place: &mut Option<usize>, permits: usize) -> bool
        ensures taken { result ≡ true → place.new ≡ None }
    {
        if self.state().take(*place, permits) {
            *place = None;
            return true;
        }
        let Ok(waker) = w.copy() else {
            w.wake();
            return false;
        };
        let mut state = self.state();
        if state.take(*place, permits) {
            drop(state);
            drop(waker);
            *place = None;
            return true;
        }
        let kept = state.wait(*place, permits, waker);
        drop(state);
        keep(place, kept);
        false
    }

    // The drop of an `Acquire`: has it wait no longer, and gives back what it was given.
    fn leave(&self, place: Option<usize>, permits: usize) {
        if place.is_some() {
            let Gone { waker, given } = self.state().leave(place, permits);
            drop(waker);
            self.end(given);
        }
    }
}

impl<W: Wake, R: Wait + Drop> Semaphore<W, R> {
    /// A semaphore with so many permits.
    ///
    /// # Errors
    ///
    /// `OutOfMemory` if memory for it is refused.
    ///
    /// Example: `uses::acquires`, at `Semaphore`.
    pub fn new(rt: R, alloc: Global, permits: usize) -> Result<Semaphore<W, R>, OutOfMemory> {
        let shared = Locked::share(rt, alloc, State::new(alloc, permits))?;
        Ok(Semaphore { shared })
    }

    /// The same semaphore, for another holder.
    ///
    /// # Errors
    ///
    /// `OutOfMemory` if another holder cannot be counted.
    ///
    /// Example: `uses::takes_permits`.
    pub fn copy(&self) -> Result<Semaphore<W, R>, OutOfMemory>
        ensures same { IfOk result (λ copy. arc_value copy.shared ≡ arc_value self.now.shared) }
    {
        let shared = Arc::try_clone(&self.shared)?;
        Ok(Semaphore { shared })
    }

    /// How many permits of the semaphore nobody has.
    ///
    /// Example: `uses::acquires`, at `Semaphore`.
    pub fn permits(&self) -> usize {
        self.shared.state().permits
    }

    /// Takes a permit, if there is one and nobody waits for it.
    ///
    /// # Errors
    ///
    /// `Unavailable::Taken` if there is none, or somebody waits; `Unavailable::OutOfMemory` if another
    /// holder cannot be counted. Nothing is taken then.
    ///
    /// Example: `uses::acquires`, at `Semaphore`.
    pub fn try_acquire(&self) -> Result<SemaphoreGuard<W, R>, Unavailable>
        ensures same { IfOk result (λ guard. arc_value guard.shared ≡ arc_value self.now.shared) }
        ensures one { IfOk result (λ guard. guard.permits ≡ 1) }
    {
        self.try_acquire_many(1)
    }

    /// Takes so many permits at once, if they are there and nobody waits. None at all are always there.
    ///
    /// # Errors
    ///
    /// As `try_acquire`.
    ///
    /// Example: `uses::takes_permits`.
    pub fn try_acquire_many(&self, permits: usize) -> Result<SemaphoreGuard<W, R>, Unavailable>
        ensures same { IfOk result (λ guard. arc_value guard.shared ≡ arc_value self.now.shared) }
        ensures many { IfOk result (λ guard. guard.permits ≡ permits) }
    {
        let Ok(shared) = Arc::try_clone(&self.shared) else {
            return Err(Unavailable::OutOfMemory);
        };
        if !shared.state().take(None, permits) {
            return Err(Unavailable::Taken);
        }
        Ok(SemaphoreGuard { shared, permits })
    }

    /// A future of a permit.
    ///
    /// # Errors
    ///
    /// `OutOfMemory` if another holder cannot be counted.
    ///
    /// Example: `uses::takes_permits`.
    pub fn acquire(&self) -> Result<Acquire<W, R>, OutOfMemory>
        ensures same { IfOk result (λ acquire. IsHeld acquire.shared (arc_value self.now.shared)) }
        ensures one { IfOk result (λ a. (a.permits ≡ 1) × (a.place ≡ None)) }
    {
        self.acquire_many(1)
    }

    /// A future of so many permits at once. One that wants more than there are in all waits until so many
    /// are added, and those behind it wait with it. One that wants none never waits.
    ///
    /// # Errors
    ///
    /// As `acquire`.
    ///
    /// Example: `uses::acquires`, at `Semaphore`.
    pub fn acquire_many(&self, permits: usize) -> Result<Acquire<W, R>, OutOfMemory>
        ensures same { IfOk result (λ acquire. IsHeld acquire.shared (arc_value self.now.shared)) }
        ensures many { IfOk result (λ a. (a.permits ≡ permits) × (a.place ≡ None)) }
    {
        let shared = Arc::try_clone(&self.shared)?;
        Ok(Acquire {
            shared: Some(shared),
            permits,
            place: None,
        })
    }

    /// Adds so many permits, which those who wait get first, in order.
    ///
    /// # Errors
    ///
    /// `TooManyPermits` if there would be more in all than a `usize` counts. Nothing is added then.
    ///
    /// Example: `uses::takes_permits`.
    pub fn add_permits(&self, permits: usize) -> Result<(), TooManyPermits> {
        if !self.shared.state().count(permits) {
            return Err(TooManyPermits);
        }
        self.shared.give(permits);
        Ok(())
    }
}

/// Permits of a semaphore, which are given back by its drop. Those who wait get them first, in order.
///
/// Example: `uses::acquires`, at `Semaphore`.
pub struct SemaphoreGuard<W: Wake, R: Wait + Drop> {
    shared: Arc<Shared<W, R>>,
    permits: usize,
}

impl<W: Wake, R: Wait + Drop> SemaphoreGuard<W, R> {
    /// How many permits it has.
    ///
    /// Example: `uses::takes_permits`.
    pub fn permits(&self) -> usize
        ensures { result ≡ self.now.permits }
    {
        self.permits
    }
}

impl<W: Wake, R: Wait + Drop> Drop for SemaphoreGuard<W, R> {
    fn drop(self) {
        let SemaphoreGuard { shared, permits } = self;
        shared.give(permits);
    }
}

/// A future of permits. While it is pending, a copy of the waker of its last poll is kept, and is woken
/// once it has its permits. If the copy or a place among those who wait is refused, the waker itself is
/// woken, and nothing more is kept. Its drop takes none, and gives back what it was given. Once it gave
/// its permits it is pending, and wakes nobody.
///
/// Example: `uses::acquires`, at `Semaphore`.
pub struct Acquire<W: Wake, R: Wait + Drop> {
    // Moves into the permits.
    shared: Option<Arc<Shared<W, R>>>,
    permits: usize,
    place: Option<usize>,
}

impl<W: Wake, R: Wait + Drop> Future<W> for Acquire<W, R> {
    type Output = SemaphoreGuard<W, R>;

    fn poll(&mut self, w: &W) -> Poll<SemaphoreGuard<W, R>>
        ensures same { IfReady result (λ guard. self.old.shared ≡ Some guard.shared) }
        ensures many { IfReady result (λ guard. guard.permits ≡ self.old.permits) }
        ensures ended { IfReady result (λ _. (self.new.shared ≡ None) × (self.new.place ≡ None)) }
        ensures waits { result ≡ waits → self.new.shared ≡ self.old.shared }
        ensures wanted { self.new.permits ≡ self.old.permits }
    {
        let Some(shared) = &self.shared else {
            return Poll::Pending;
        };
        if !shared.poll(w, &mut self.place, self.permits) {
            return Poll::Pending;
        }
        match self.shared.take() {
            Some(shared) => Poll::Ready(SemaphoreGuard {
                shared,
                permits: self.permits,
            }),
            None => Poll::Pending,
        }
    }
}

impl<W: Wake, R: Wait + Drop> Drop for Acquire<W, R> {
    fn drop(self) {
        let Acquire {
            shared,
            permits,
            place,
        } = self;
        if let Some(shared) = shared {
            shared.leave(place, permits);
        }
    }
}
