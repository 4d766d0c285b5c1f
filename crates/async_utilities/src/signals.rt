//! A signal that is set once, and that any number of futures await.
ghost use Rattle.std.specs.Prelude.{◌≡◌, ◌+◌, [], true, false, None, Some, IsOk, IsSome, IfOk, OnErr};
ghost use Rattle.std.specs.Arc.{arc_value};
ghost use Rattle.async_utilities.specs.Polls.{IfReady};
ghost use Rattle.async_utilities.specs.WaitQueue.{Parts, Stays, place_at, waker_of};
ghost use Rattle.executor_core.specs.declared.task.future.Poll.TheVariants.{Pending as waits, Ready as ready};

use crate::locked::Locked;
use crate::wait_queue::{AllDue, WaitQueue};
use async_executor::{Future, OutOfMemory, Poll, Wake};
use std::alloc::Global;
use std::mem::replace;
use std::sync::{Arc, Wait};

/// A signal that is set once, and stays set. Any number of futures await it, each by a `Waiting` of
/// its own, as runs that are to stop together. Nothing sets it but `set`: if its last holder is dropped
/// before, they are pending for ever. W is the waker that they are polled with, and R the right to wait
/// for the lock.
///
/// Example: `uses::tells`, and of threads that run tasks `uses::pools`.
///
/// ```text
/// let told: Signal<ThreadWaker, R> = Signal::new(rt.clone()?, alloc)?;
/// let other = told.copy()?;
/// let waiting = told.waiting()?;
/// let was_set = told.is_set();
/// let (_, waited) = thread::join(
///     rt,
///     move || other.set(),
///     move || block_on(rt, alloc, waiting),
/// );
/// waited?;
/// // (false, true)
/// Ok((was_set, told.is_set()))
/// ```
#[derive(Drop)]
pub struct Signal<W: Wake, R: Wait + Drop> {
    shared: Arc<Locked<State<W>, R>>,
}

/// Whether a signal is set, and who waits for it. Once it is set, nobody does.
#[derive(Drop)]
pub(crate) struct State<W> {
    is_set: bool,
    waiters: WaitQueue<W>,
    alloc: Global,
    ghost nobody_waits: { is_set ≡ true → waiters.waiting ≡ [] },
}

impl<W: Drop> State<W> {
    ghost use Rattle.async_utilities.specs.Signals.{Joins, Sets, Waits};

    // Nobody waits, and the signal is not set.
    fn new(alloc: Global) -> State<W>
        ensures { result.is_set ≡ false }
    {
        State {
            is_set: false,
            waiters: WaitQueue::new(alloc),
            alloc,
        }
    }

    // Takes a place. Once the signal is set nobody needs one, and any number will do.
    fn join(&mut self) -> Result<usize, OutOfMemory>
        ensures joined { IfOk result (λ place. Joins self.old place self.new) }
        ensures refused { OnErr result (Stays self.old.waiters self.new.waiters) }
        ensures set { self.old.is_set ≡ true → IsOk result }
        ensures stays { self.new.is_set ≡ self.old.is_set }
    {
        if self.is_set {
            return Ok(0);
        }
        Ok(self.waiters.join()?)
    }

    // Has one wait for the signal at its place with this waker, and gives what is not kept: an earlier
    // waker, or this one if the signal is set.
    fn wait(&mut self, place: usize, waker: W) -> Option<W>
        ensures { Waits self.old place waker result self.new }
    {
        if self.is_set {
            return Some(waker);
        }
        self.waiters.wait(place, waker)
    }

    // Gives a place at the signal back, with the waker that was left there.
    fn leave(&mut self, place: usize) -> Option<W>
        ensures waker { result ≡ waker_of (place_at self.old.waiters place) }
        ensures leaves { Parts self.old.waiters place self.new.waiters }
        ensures stays { self.new.is_set ≡ self.old.is_set }
    {
        self.waiters.leave(place)
    }

    // Sets the signal, and gives all who wait for it. There are none if it was set before.
    fn set(&mut self) -> Option<AllDue<W>>
        ensures { Sets self.old result self.new }
    {
        if self.is_set {
            return None;
        }
        self.is_set = true;
        // Taken out, so that all are woken in order without the lock.
        let waiters = replace(&mut self.waiters, WaitQueue::new(self.alloc));
        Some(AllDue { waiters })
    }
}

impl<W: Wake, R: Wait + Drop> Signal<W, R> {
    /// A signal that is not set.
    ///
    /// # Errors
    ///
    /// `OutOfMemory` if memory for it is refused.
    ///
    /// Example: `uses::tells`, at `Signal`.
    pub fn new(rt: R, alloc: Global) -> Result<Signal<W, R>, OutOfMemory> {
        let shared = Locked::share(rt, alloc, State::new(alloc))?;
        Ok(Signal { shared })
    }

    /// The same signal, for another holder.
    ///
    /// # Errors
    ///
    /// `OutOfMemory` if another holder cannot be counted.
    ///
    /// Example: `uses::tells`, at `Signal`.
    pub fn copy(&self) -> Result<Signal<W, R>, OutOfMemory>
        ensures same { IfOk result (λ copy. arc_value copy.shared ≡ arc_value self.now.shared) }
    {
        let shared = Arc::try_clone(&self.shared)?;
        Ok(Signal { shared })
    }

    /// Sets the signal, and wakes each waker that waits for it, once, in the order in which they began
    /// to wait. If it was set before, nothing happens. No lock is held while a waker is woken.
    ///
    /// Example: `uses::tells`, at `Signal`.
    pub fn set(&self) {
        let all = self.shared.state().set();
        if let Some(all) = all {
            all.wake();
        }
    }

    /// Whether the signal is set.
    ///
    /// Example: `uses::tells`, at `Signal`.
    pub fn is_set(&self) -> bool {
        self.shared.state().is_set
    }

    /// A future that is ready once the signal is set. Its place is reserved here, so its polls take no
    /// memory beside the copy of the waker.
    ///
    /// # Errors
    ///
    /// `OutOfMemory` if memory for the place is refused.
    ///
    /// Example: `uses::tells`, at `Signal`.
    pub fn waiting(&self) -> Result<Waiting<W, R>, OutOfMemory>
        ensures same { IfOk result (λ one. arc_value one.shared ≡ arc_value self.now.shared) }
        ensures open { IfOk result (λ one. IsSome one.place) }
    {
        let shared = Arc::try_clone(&self.shared)?;
        let place = Some(shared.state().join()?);
        Ok(Waiting { shared, place })
    }
}

/// Ready once its signal is set, and from then on. While it is not, a copy of the waker of its last
/// poll is kept, and is woken when the signal is set. If the copy is refused, the waker itself is
/// woken and nothing more is kept. Its drop gives its place back, and drops the copy unwoken.
///
/// Example: `uses::tells`, at `Signal`.
pub struct Waiting<W: Wake, R: Wait + Drop> {
    shared: Arc<Locked<State<W>, R>>,
    // None once it was ready: no place is left then, and no lock is taken for it.
    place: Option<usize>,
}

impl<W: Wake, R: Wait + Drop> Future<W> for Waiting<W, R> {
    type Output = ();

    fn poll(&mut self, w: &W) -> Poll<()>
        ensures waits { result ≡ waits → self.new.place ≡ self.old.place }
        ensures ended { IfReady result (λ _. self.new.place ≡ None) }
        ensures again { self.old.place ≡ None → result ≡ ready tt }
        ensures same { arc_value self.new.shared ≡ arc_value self.old.shared }
    {
        let Some(place) = self.place else {
            return Poll::Ready(());
        };
        if self.shared.state().is_set {
            self.place = None;
            return Poll::Ready(());
        }
        let Ok(copy) = w.copy() else {
            w.wake();
            return Poll::Pending;
        };
        let mut state = self.shared.state();
        let unused = state.wait(place, copy);
        let is_set = state.is_set;
        drop(state);
        drop(unused);
        if is_set {
            self.place = None;
            Poll::Ready(())
        } else {
            Poll::Pending
        }
    }
}

impl<W: Wake, R: Wait + Drop> Drop for Waiting<W, R> {
    fn drop(self) {
        let Waiting { shared, place } = self;
        if let Some(place) = place {
            let left = shared.state().leave(place);
            drop(left);
        }
    }
}
