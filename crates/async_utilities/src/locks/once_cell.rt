//! A cell that is written once, and that any number of tasks wait for.
ghost use Rattle.std.specs.Prelude.{◌≡◌, None, Some, IfErr, IfOk, IfSome, IsSome, false};
ghost use Rattle.std.specs.Arc.{arc_value};
ghost use Rattle.async_utilities.specs.Polls.{IfReady};
ghost use Rattle.executor_core.specs.declared.task.future.Poll.TheVariants.{Ready as ready};

use crate::locks::semaphore::{Acquire, Semaphore, SemaphoreGuard};
use crate::signals::{Signal, Waiting};
use async_executor::{Future, OutOfMemory, Poll, Wake};
use std::alloc::{AllocFailed, Global};
use std::sync::{Arc, OnceLock, Wait};

/// A cell that is written once. Any number of futures await that, and of those that would make its value
/// one at a time tries. W is the waker that waits, and R the right to wait for a lock.
///
/// Example: `uses::makes_once`.
///
/// ```text
/// let cell: OnceCell<u64, ThreadWaker, R> = OnceCell::new(rt, alloc).ok()?;
/// let was_set = cell.is_initialized();
/// let is_own = block_on(rt, alloc, cell.get_or_init(Ready::new(1)).ok()?).ok()?;
/// let other = cell.copy().ok()?;
/// let back = other.set(2).err()?;
/// block_on(rt, alloc, cell.wait().ok()?).ok()?;
/// let value = *cell.get()?;
/// // (1, [false, true], 2)
/// Some((value, [was_set, is_own], back))
/// ```
#[derive(Drop)]
pub struct OnceCell<T: Drop, W: Wake, R: Wait + Drop> {
    shared: Arc<Shared<T, W, R>>,
}

#[derive(Drop)]
struct Shared<T: Drop, W: Wake, R: Wait + Drop> {
    value: OnceLock<T>,
    // Set once the value is there.
    is_there: Signal<W, R>,
    // Who makes the value has its one permit.
    makers: Semaphore<W, R>,
    rt: R,
}

impl<T: Drop, W: Wake, R: Wait + Drop> Shared<T, W, R> {
    // Writes the value, and wakes who waits for it, unless it was written before.
    fn set(&self, value: T) -> Result<(), T>
        ensures back { IfErr result (λ back. back ≡ value) }
    {
        match self.value.set(&self.rt, value) {
            Ok(token) => {
                drop(token);
                self.is_there.set();
                Ok(())
            }
            Err(back) => Err(back),
        }
    }

    fn is_set(&self) -> bool {
        self.value.get().is_some()
    }
}

impl<T: Drop, W: Wake, R: Wait + Clone + Drop> OnceCell<T, W, R> {
    /// A cell without a value.
    ///
    /// # Errors
    ///
    /// `OutOfMemory` if memory for it is refused.
    ///
    /// Example: `uses::makes_once`, at `OnceCell`.
    pub fn new(rt: &R, alloc: Global) -> Result<OnceCell<T, W, R>, OutOfMemory> {
        let is_there = Signal::new(rt.clone()?, alloc)?;
        let makers = Semaphore::new(rt.clone()?, alloc, 1)?;
        let shared = Shared {
            value: OnceLock::new(),
            is_there,
            makers,
            rt: rt.clone()?,
        };
        match Arc::new(alloc, shared) {
            Ok(shared) => Ok(OnceCell { shared }),
            Err(_) => Err(OutOfMemory),
        }
    }
}

impl<T: Drop, W: Wake, R: Wait + Drop> OnceCell<T, W, R> {
    /// The same cell, for another holder.
    ///
    /// # Errors
    ///
    /// `OutOfMemory` if another holder cannot be counted.
    ///
    /// Example: `uses::makes_once`, at `OnceCell`.
    pub fn copy(&self) -> Result<OnceCell<T, W, R>, OutOfMemory>
        ensures same { IfOk result (λ copy. arc_value copy.shared ≡ arc_value self.now.shared) }
    {
        let shared = Arc::try_clone(&self.shared)?;
        Ok(OnceCell { shared })
    }

    /// The value of the `OnceCell`, if there is one.
    ///
    /// Example: `uses::makes_once`, at `OnceCell`.
    pub fn get(&self) -> Option<&T> {
        self.shared.value.get()
    }

    /// Whether there is a value.
    ///
    /// Example: `uses::makes_once`, at `OnceCell`.
    pub fn is_initialized(&self) -> bool {
        self.shared.is_set()
    }

    /// Writes the value, and wakes who waits for it. It does not wait for one that makes a value.
    ///
    /// # Errors
    ///
    /// The value, if there was one before, which stays.
    ///
    /// Example: `uses::makes_once`, at `OnceCell`.
    pub fn set(&self, value: T) -> Result<(), T>
        ensures back { IfErr result (λ back. back ≡ value) }
    {
        self.shared.set(value)
    }

    /// A future that is ready once there is a value.
    ///
    /// # Errors
    ///
    /// `OutOfMemory` if memory for its place is refused.
    ///
    /// Example: `uses::makes_once`, at `OnceCell`.
    pub fn wait(&self) -> Result<Waiting<W, R>, OutOfMemory>
        ensures same { IfOk result
            (λ w. arc_value w.shared ≡ arc_value (arc_value self.now.shared).is_there.shared) }
    {
        self.shared.is_there.waiting()
    }

    /// A future that is ready once there is a value, for which it polls this future if nobody else makes
    /// one. If one that makes it is dropped, the next one does.
    ///
    /// # Errors
    ///
    /// The future, if another holder cannot be counted.
    ///
    /// Example: `uses::makes_once`, at `OnceCell`.
    pub fn get_or_init<G>(&self, future: G) -> Result<OnceInit<G, T, W, R>, AllocFailed<G>>
        ensures same { IfOk result (λ init. arc_value init.shared ≡ arc_value self.now.shared) }
        ensures future { IfOk result (λ init. IfSome init.making (λ m. m.future ≡ future)) }
        ensures begun { IfOk result (λ init. IsSome init.making) }
        ensures refused { IfErr result (λ failed. failed.value ≡ future) }
    {
        let Ok(shared) = Arc::try_clone(&self.shared) else {
            return Err(AllocFailed { value: future });
        };
        let Ok(turn) = shared.makers.acquire() else {
            return Err(AllocFailed { value: future });
        };
        Ok(OnceInit {
            making: Some(Making {
                turn,
                permit: None,
                future,
            }),
            shared,
        })
    }
}

// One that would make the value: it waits for its turn, and then has it.
#[derive(Drop)]
struct Making<G, W: Wake, R: Wait + Drop> {
    future: G,
    turn: Acquire<W, R>,
    permit: Option<SemaphoreGuard<W, R>>,
}

impl<G, W: Wake, R: Wait + Drop> Making<G, W, R> {
    // Whether it has its turn to make the value of a `OnceCell`.
    fn has_turn(&mut self, w: &W) -> bool {
        if self.permit.is_none() {
            if let Poll::Ready(permit) = self.turn.poll(w) {
                self.permit = Some(permit);
            }
        }
        self.permit.is_some()
    }
}

/// Ready once its cell has a value, and from then on: true if its own future gave it. While another one
/// makes the value, it waits for its turn, and its future is not polled. Once it is ready, its future is
/// dropped.
///
/// Example: `uses::makes_once`, at `OnceCell`.
#[derive(Drop)]
pub struct OnceInit<G, T: Drop, W: Wake, R: Wait + Drop> {
    // Goes before the cell.
    making: Option<Making<G, W, R>>,
    shared: Arc<Shared<T, W, R>>,
}

impl<G, T, W, R> Future<W> for OnceInit<G, T, W, R>
where
    T: Drop,
    W: Wake,
    R: Wait + Drop,
    G: Future<W, Output = T>,
{
    type Output = bool;

    fn poll(&mut self, w: &W) -> Poll<bool>
        ensures ended { IfReady result (λ _. self.new.making ≡ None) }
        ensures again { self.old.making ≡ None → result ≡ ready false }
        ensures same { arc_value self.new.shared ≡ arc_value self.old.shared }
    {
        let Some(making) = &mut self.making else {
            return Poll::Ready(false);
        };
        let is_set = self.shared.is_set();
        if !is_set && !making.has_turn(w) {
            return Poll::Pending;
        }
        if is_set || self.shared.is_set() {
            self.making = None;
            return Poll::Ready(false);
        }
        let Poll::Ready(value) = making.future.poll(w) else {
            return Poll::Pending;
        };
        let is_own = self.shared.set(value).is_ok();
        self.making = None;
        Poll::Ready(is_own)
    }
}
