//! A barrier, at which so many wait until the last of them has come, again and again.
ghost use Rattle.std.specs.Prelude.{◌≡◌, ◌<◌, None, Some, IfOk, true};
ghost use Rattle.std.specs.Arc.{arc_value};
ghost use Rattle.async_utilities.specs.Barriers.{Answers, KeepsPlace};
ghost use Rattle.async_utilities.specs.Polls.{IfReady};
ghost use Rattle.executor_core.specs.declared.task.future.Poll.TheVariants.{Pending as waits};

pub(crate) mod state;

use crate::locked::Locked;
use crate::locks::barrier::state::{Arrival, State};
use crate::wait_queue::rounds::Told;
use async_executor::{Future, OutOfMemory, Poll, Wake};
use std::alloc::Global;
use std::sync::{Arc, Wait};

/// A barrier for so many. Each waits there until the last of a round has come, and then a new round
/// begins. W is the waker that waits, and R the right to wait for the lock.
///
/// Example: `uses::meets`.
///
/// ```text
/// let barrier: Barrier<ThreadWaker, R> = Barrier::new(rt.clone().ok()?, alloc, 2).ok()?;
/// let other = barrier.copy().ok()?;
/// let (here, there) = (barrier.wait().ok()?, other.wait().ok()?);
/// let (one, two) = thread::join(
///     rt,
///     move || block_on(rt, alloc, here).ok(),
///     move || block_on(rt, alloc, there).ok(),
/// );
/// // [false, true] or [true, false]
/// Some([one?.is_leader(), two?.is_leader()])
/// ```
#[derive(Drop)]
pub struct Barrier<W: Wake, R: Wait + Drop> {
    shared: Arc<Shared<W, R>>,
}

// What its handles and futures share.
type Shared<W, R> = Locked<State<W>, R>;

/// What one learns that waited at a barrier.
///
/// Example: `uses::meets`, at `Barrier`.
#[derive(Debug, Clone, Copy, PartialEq, Eq)]
pub struct BarrierWaitResult {
    is_leader: bool,
}

impl BarrierWaitResult {
    /// Whether it was the last that came. One of each round was.
    ///
    /// Example: `uses::meets`, at `Barrier`.
    pub fn is_leader(&self) -> bool
        ensures { result ≡ self.now.is_leader }
    {
        self.is_leader
    }
}

impl<W: Wake, R: Wait + Drop> Shared<W, R> {
    // Wakes all at the barrier whose round is over, the first one first, each without the lock.
    fn wake_all(&self) {
        for _ in self.rt.forever() {
            let next = self.state().waiters.tell();
            match next {
                Told::One(due) => due.wake(),
                Told::Nobody => return,
            }
        }
    }

    // The first poll of a `BarrierWait`: one comes, and waits unless it is the last.
    fn come(&self, w: &W, arrival: &mut Option<Arrival>) -> bool
        ensures last { result ≡ true → arrival.new ≡ arrival.old }
    {
        let is_last = self.state().complete();
        if is_last {
            self.wake_all();
            return true;
        }
        let Ok(waker) = w.copy() else {
            w.wake();
            return false;
        };
        let mut state = self.state();
        if state.complete() {
            drop(state);
            drop(waker);
            self.wake_all();
            return true;
        }
        let come = state.arrive(waker);
        drop(state);
        match come {
            Ok(come) => *arrival = Some(come),
            Err(waker) => waker.wake(),
        }
        false
    }

    // A later poll of a `BarrierWait`: whether the round is over in which one came. If it is not, it waits
    // on with this waker.
    fn go_on(&self, w: &W, arrival: Arrival) -> bool {
        if self.state().is_over(arrival) {
            return true;
        }
        let Ok(waker) = w.copy() else {
            w.wake();
            return false;
        };
        let mut state = self.state();
        let is_over = state.is_over(arrival);
        let unused = if is_over {
            Some(waker)
        } else {
            state.wait(arrival.place, waker)
        };
        drop(state);
        drop(unused);
        is_over
    }

    // A `BarrierWait` gives its place back.
    fn leave(&self, arrival: Option<Arrival>) {
        if let Some(arrival) = arrival {
            let waker = self.state().leave(arrival);
            drop(waker);
        }
    }
}

impl<W: Wake, R: Wait + Drop> Barrier<W, R> {
    /// A barrier for so many.
    ///
    /// # Errors
    ///
    /// `OutOfMemory` if memory for it is refused.
    ///
    /// Example: `uses::meets`, at `Barrier`.
    pub fn new(rt: R, alloc: Global, size: usize) -> Result<Barrier<W, R>, OutOfMemory>
        requires { 0 < size }
    {
        let shared = Locked::share(rt, alloc, State::new(alloc, size))?;
        Ok(Barrier { shared })
    }

    /// The same barrier, for another holder.
    ///
    /// # Errors
    ///
    /// `OutOfMemory` if another holder cannot be counted.
    ///
    /// Example: `uses::meets`, at `Barrier`.
    pub fn copy(&self) -> Result<Barrier<W, R>, OutOfMemory>
        ensures same { IfOk result (λ copy. arc_value copy.shared ≡ arc_value self.now.shared) }
    {
        let shared = Arc::try_clone(&self.shared)?;
        Ok(Barrier { shared })
    }

    /// A future that comes at its first poll, and is ready once the last of its round has come.
    ///
    /// # Errors
    ///
    /// `OutOfMemory` if another holder cannot be counted.
    ///
    /// Example: `uses::meets`, at `Barrier`.
    pub fn wait(&self) -> Result<BarrierWait<W, R>, OutOfMemory>
        ensures same { IfOk result (λ wait. arc_value wait.shared ≡ arc_value self.now.shared) }
        ensures open { IfOk result (λ wait. (wait.arrival ≡ None) × (wait.answer ≡ None)) }
    {
        let shared = Arc::try_clone(&self.shared)?;
        Ok(BarrierWait {
            shared,
            arrival: None,
            answer: None,
        })
    }
}

/// Ready once the last of its round has come, and from then on. It comes at its first poll. While it is
/// pending, a copy of the waker of its last poll is kept, and is woken once the round is over. If the
/// copy or a place among those who wait is refused, the waker itself is woken, and nothing more is kept.
/// If it is dropped before its round is over, it has not come.
///
/// Example: `uses::meets`, at `Barrier`.
pub struct BarrierWait<W: Wake, R: Wait + Drop> {
    shared: Arc<Shared<W, R>>,
    arrival: Option<Arrival>,
    answer: Option<BarrierWaitResult>,
}

impl<W: Wake, R: Wait + Drop> Future<W> for BarrierWait<W, R> {
    type Output = BarrierWaitResult;

    fn poll(&mut self, w: &W) -> Poll<BarrierWaitResult>
        ensures answers { Answers self.old.answer self.old.arrival result }
        ensures kept { IfReady result (λ answer. self.new.answer ≡ Some answer) }
        ensures left { IfReady result (λ _. self.old.answer ≡ None → self.new.arrival ≡ None) }
        ensures waits { result ≡ waits → self.new.answer ≡ None }
        ensures came { result ≡ waits → KeepsPlace self.old.arrival self.new.arrival }
        ensures same { arc_value self.new.shared ≡ arc_value self.old.shared }
    {
        if let Some(answer) = self.answer {
            return Poll::Ready(answer);
        }
        let is_leader = self.arrival.is_none();
        let is_over = match self.arrival {
            None => self.shared.come(w, &mut self.arrival),
            Some(arrival) => self.shared.go_on(w, arrival),
        };
        if !is_over {
            return Poll::Pending;
        }
        self.shared.leave(self.arrival);
        self.arrival = None;
        let answer = BarrierWaitResult { is_leader };
        self.answer = Some(answer);
        Poll::Ready(answer)
    }
}

impl<W: Wake, R: Wait + Drop> Drop for BarrierWait<W, R> {
    fn drop(self) {
        let BarrierWait {
            shared,
            arrival,
            answer: _,
        } = self;
        shared.leave(arrival);
    }
}
