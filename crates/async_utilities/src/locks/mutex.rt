//! A value that one holder at a time may use, and that tasks wait for in order.
ghost use Rattle.std.specs.Prelude.{◌≡◌, None, Some, IfOk, OnSome};
ghost use Rattle.std.specs.Arc.{arc_value};
ghost use Rattle.async_utilities.specs.Polls.{IfReady};
ghost use Rattle.async_utilities.specs.Values.{IsHeld};
ghost use Rattle.executor_core.specs.declared.task.future.Poll.TheVariants.{Pending as waits};

pub(crate) mod state;

use crate::locked::Locked;
use crate::locks::Unavailable;
use crate::locks::mutex::state::{GaveBack, State};
use crate::wait_queue::keep;
use async_executor::{Future, OutOfMemory, Poll, Wake};
use std::alloc::Global;
use std::ops::{Deref, DerefMut};
use std::sync::{Arc, Wait};

/// A value that one holder at a time may use, also between polls. The value moves into the guard, and
/// back as the guard is dropped. Who waits for it gets it in the order in which it began to wait. W is
/// the waker that waits, and R the right to wait for the lock.
///
/// Example: `uses::locks`, and on two threads `uses::takes_turns`.
///
/// ```text
/// let mutex: Mutex<u64, ThreadWaker, R> = Mutex::new(rt.clone().ok()?, alloc, 1).ok()?;
/// let mut guard = block_on(rt, alloc, mutex.lock().ok()?).ok()?;
/// *guard = 7;
/// let unavailable = mutex.try_lock().err()?;
/// drop(guard);
/// let guard = mutex.try_lock().ok()?;
/// // (Taken, 7)
/// Some((unavailable, *guard))
/// ```
#[derive(Drop)]
pub struct Mutex<T: Drop, W: Wake, R: Wait + Drop> {
    shared: Arc<Shared<T, W, R>>,
}

// What its handles, futures and guards share.
type Shared<T, W, R> = Locked<State<T, W>, R>;

impl<T: Drop, W: Wake, R: Wait + Drop> Shared<T, W, R> {
    // The poll of a `Lock`: takes the mutex's value, or has one wait for it at this place.
    fn poll(&self, w: &W, place: &mut Option<usize>) -> Option<T>
        ensures taken { OnSome result (place.new ≡ None) }
    {
        let taken = self.state().take(*place);
        if taken.is_some() {
            *place = None;
            return taken;
        }
        let Ok(waker) = w.copy() else {
            w.wake();
            return None;
        };
        let mut state = self.state();
        let taken = state.take(*place);
        if taken.is_some() {
            drop(state);
            drop(waker);
            *place = None;
            return taken;
        }
        let kept = state.wait(*place, waker);
        drop(state);
        keep(place, kept);
        None
    }

    // The drop of a `MutexGuard`: puts the value back, and wakes the first one that waits.
    fn give(&self, value: T) {
        let GaveBack { earlier, due } = self.state().give(value);
        drop(earlier);
        due.wake();
    }

    // The drop of a `Lock`: has it wait no longer, and the next one have its turn.
    fn leave(&self, place: Option<usize>) {
        if place.is_some() {
            let left = self.state().leave(place);
            left.end();
        }
    }
}

impl<T: Drop, W: Wake, R: Wait + Drop> Mutex<T, W, R> {
    /// A mutex with this value, which nobody holds.
    ///
    /// # Errors
    ///
    /// `OutOfMemory` if memory for it is refused.
    ///
    /// Example: `uses::locks`, at `Mutex`.
    pub fn new(rt: R, alloc: Global, value: T) -> Result<Mutex<T, W, R>, OutOfMemory> {
        let shared = Locked::share(rt, alloc, State::new(alloc, value))?;
        Ok(Mutex { shared })
    }

    /// The same mutex, for another holder.
    ///
    /// # Errors
    ///
    /// `OutOfMemory` if another holder cannot be counted.
    ///
    /// Example: `uses::takes_turns`.
    pub fn copy(&self) -> Result<Mutex<T, W, R>, OutOfMemory>
        ensures same { IfOk result (λ copy. arc_value copy.shared ≡ arc_value self.now.shared) }
    {
        let shared = Arc::try_clone(&self.shared)?;
        Ok(Mutex { shared })
    }

    /// Takes the mutex's value, if it is there and nobody waits for it.
    ///
    /// # Errors
    ///
    /// `Unavailable::Taken` if a guard has it, or somebody waits; `Unavailable::OutOfMemory` if another
    /// holder cannot be counted.
    ///
    /// Example: `uses::locks`, at `Mutex`.
    pub fn try_lock(&self) -> Result<MutexGuard<T, W, R>, Unavailable>
        ensures same { IfOk result (λ guard. arc_value guard.shared ≡ arc_value self.now.shared) }
    {
        let Ok(shared) = Arc::try_clone(&self.shared) else {
            return Err(Unavailable::OutOfMemory);
        };
        let taken = shared.state().take(None);
        match taken {
            Some(value) => Ok(MutexGuard { shared, value }),
            None => Err(Unavailable::Taken),
        }
    }

    /// A future of the value, in a guard.
    ///
    /// # Errors
    ///
    /// `OutOfMemory` if another holder cannot be counted.
    ///
    /// Example: `uses::locks`, at `Mutex`.
    pub fn lock(&self) -> Result<Lock<T, W, R>, OutOfMemory>
        ensures same { IfOk result (λ lock. IsHeld lock.shared (arc_value self.now.shared)) }
        ensures fresh { IfOk result (λ lock. lock.place ≡ None) }
    {
        let shared = Arc::try_clone(&self.shared)?;
        Ok(Lock {
            shared: Some(shared),
            place: None,
        })
    }
}

/// Holds the value of a mutex. Its drop puts the value back, and the first one that waits has its turn.
///
/// Example: `uses::locks`, at `Mutex`.
pub struct MutexGuard<T: Drop, W: Wake, R: Wait + Drop> {
    shared: Arc<Shared<T, W, R>>,
    value: T,
}

impl<T: Drop, W: Wake, R: Wait + Drop> Deref for MutexGuard<T, W, R> {
    type Target = T;

    ghost deref_gives = { λ guard value. value ≡ guard.value };

    fn deref(&self) -> &T {
        &self.value
    }
}

impl<T: Drop, W: Wake, R: Wait + Drop> DerefMut for MutexGuard<T, W, R> {
    ghost deref_mut_gives = { λ guard value. value ≡ guard.value };

    fn deref_mut(&mut self) -> &mut T {
        &mut self.value
    }
}

impl<T: Drop, W: Wake, R: Wait + Drop> Drop for MutexGuard<T, W, R> {
    fn drop(self) {
        let MutexGuard { shared, value } = self;
        shared.give(value);
    }
}

/// A future of the value of a mutex, in a guard. While it is pending, a copy of the waker of its last
/// poll is kept, and is woken once it is its turn. If the copy or a place among those who wait is
/// refused, the waker itself is woken, and nothing more is kept. Its drop takes nothing, and the next one
/// has its turn. Once it gave the value it is pending, and wakes nobody.
///
/// Example: `uses::locks`, at `Mutex`.
pub struct Lock<T: Drop, W: Wake, R: Wait + Drop> {
    // Moves into the guard.
    shared: Option<Arc<Shared<T, W, R>>>,
    place: Option<usize>,
}

impl<T: Drop, W: Wake, R: Wait + Drop> Future<W> for Lock<T, W, R> {
    type Output = MutexGuard<T, W, R>;

    fn poll(&mut self, w: &W) -> Poll<MutexGuard<T, W, R>>
        ensures same { IfReady result (λ guard. self.old.shared ≡ Some guard.shared) }
        ensures ended { IfReady result (λ _. (self.new.shared ≡ None) × (self.new.place ≡ None)) }
        ensures waits { result ≡ waits → self.new.shared ≡ self.old.shared }
    {
        let Some(shared) = self.shared.take() else {
            return Poll::Pending;
        };
        match shared.poll(w, &mut self.place) {
            Some(value) => Poll::Ready(MutexGuard { shared, value }),
            None => {
                self.shared = Some(shared);
                Poll::Pending
            }
        }
    }
}

impl<T: Drop, W: Wake, R: Wait + Drop> Drop for Lock<T, W, R> {
    fn drop(self) {
        let Lock { shared, place } = self;
        if let Some(shared) = shared {
            shared.leave(place);
        }
    }
}
