//! The future that goes the steps of a tick.
ghost use Rattle.std.specs.Prelude.{◌≡◌, true, false, Some, None, IfOk, IsTrue};
ghost use Rattle.async_executor.specs.Answers.{is_ready};

use crate::futures::Storage;
use crate::machine::{TickMachine, TickRest};
use crate::scheduler::ExecutorIn;
use crate::sleeping::{Slept, announce_found, leave, sleep};
use crate::state::cells;
use executor_core::task::{Future, OutOfMemory, Poll, Wake};
use std::sync::Wait;

/// A tick of an executor, which it borrows. It keeps nothing else between its polls but its rest.
pub struct TickIn<'a, S: Storage> {
    executor: &'a ExecutorIn<S>,
    rest: TickRest,
}

impl<S: Storage> ExecutorIn<S> {
    /// `Executor::tick`, for both kinds of storage: a future that runs one task, for which a sleeper's place
    /// is reserved here.
    pub(crate) fn tick(&self) -> Result<TickIn<'_, S>, OutOfMemory>
        ensures { IfOk result (λ tick. tick.rest ≡ record { number = 0; ended = false }) }
    {
        self.storage.state().reserve_sleeper()?;
        Ok(TickIn::new(self))
    }
}

impl<'a, S: Storage> TickIn<'a, S> {
    // A `TickIn` that was never polled. It has a reserved place among the sleepers.
    fn new(executor: &'a ExecutorIn<S>) -> TickIn<'a, S>
        ensures { result.rest ≡ record { number = 0; ended = false } }
    {
        TickIn {
            executor,
            rest: TickMachine::new(),
        }
    }
}

impl<S: Storage> Future<S::Waker> for TickIn<'_, S> {
    type Output = ();

    /// Runs the task that was scheduled first, and is ready then. If none is scheduled, a copy
    /// of the waker is kept, in place of an earlier one, and is woken once there may be one. If
    /// the copy is refused, the waker itself is woken and nothing is kept. A tick that was ready
    /// stays so, and does nothing more.
    fn poll(&mut self, w: &S::Waker) -> Poll<()>
        ensures ended { self.new.rest.ended ≡ is_ready result }
        ensures again { IsTrue self.old.rest.ended → self.new.rest ≡ self.old.rest }
    {
        if self.rest.is_ended() {
            return Poll::Ready(());
        }
        let executor = self.executor;
        let state = executor.storage.state();
        let mut searching = self.rest.begin();
        let mut again = None;
        let mut is_listed = false;
        for _ in state.rt().forever() {
            let found = cells!(state).take_global(again);
            if let Some((taken, notice)) = found {
                let (taken, departed) = announce_found(state, searching.found(taken, notice)).run();
                executor.run_task(taken);
                self.rest = departed.end();
                state.release_sleeper();
                return Poll::Ready(());
            }
            match sleep(state, searching.empty(), w, is_listed) {
                // A task that was queued before the waker stood in the list woke nobody for it.
                Slept::Again(next, change) => {
                    searching = next;
                    again = Some(change);
                    is_listed = true;
                }
                Slept::Rested(rested) => {
                    self.rest = rested.keep();
                    return Poll::Pending;
                }
            }
        }
        unreachable!()
    }
}

impl<S: Storage> Drop for TickIn<'_, S> {
    fn drop(self) {
        let TickIn { executor, rest } = self;
        if rest.is_ended() {
            return;
        }
        leave(executor.storage.state(), rest.depart()).end();
        executor.storage.state().release_sleeper();
    }
}
