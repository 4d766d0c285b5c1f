//! Runs tasks of any queue, one after another, for who has no queue of its own.
//!
//! As in a run, the end of each task and the take of the next one are one change.
ghost use Rattle.async_executor.specs.Deferred.{IsHeldRight};

use crate::futures::transactions::{self, AnyTask, EndThenSearch};
use crate::futures::{OutIn, OutputIn, Storage};
use crate::poller::poll_taken;
use crate::scheduler::ExecutorIn;
use crate::state::{announce, cells};
use executor_core::task::{Ran, TaskId};

impl<S: Storage> ExecutorIn<S> {
    /// Runs a taken task of this `ExecutorIn`, and then up to so many more of any queue. No lock may be held. Not
    /// inline, so that who finds no task clears no room for one.
    #[inline(never)]
    pub(crate) fn run_on(&self, first: AnyTask, more: u32) {
        let mut out = transactions::take(&self.storage, first.0.id());
        let mut next = first;
        for _ in 0..more {
            let (id, ran) = self.poll_next(next, &mut out);
            match self.end_then_take_any(id, ran, &mut out) {
                Some(found) => next = found,
                None => return,
            }
        }
        // The last one is ended alone: none is taken that would have to wait.
        let (id, ran) = self.poll_next(next, &mut out);
        self.end(id, ran, &mut out);
    }

    // Polls the future of a taken task, which is out, or drops it if the task was cancelled.
    fn poll_next(&self, next: AnyTask, out: &mut OutIn<S>) -> (TaskId, Ran<(), OutputIn<S>>)
        ensures { IsHeldRight result.1 }
    {
        let (taken, notice) = next;
        // Before the task is run, which may take long: somebody else may go on with the queue.
        announce!(self.storage.state(), notice);
        (taken.id(), poll_taken(taken, out))
    }

    // Ends a task that was run, and takes the next one of any queue, and its future out.
    fn end_then_take_any(
        &self,
        id: TaskId,
        ran: Ran<(), OutputIn<S>>,
        out: &mut OutIn<S>,
    ) -> Option<AnyTask>
        requires { IsHeldRight ran }
    {
        match transactions::end_then_take_any(&self.storage, id, ran, out) {
            EndThenSearch::Searched(None, found) => found,
            EndThenSearch::Searched(Some(notice), found) => {
                announce!(self.storage.state(), notice);
                found
            }
            EndThenSearch::InVain(awaiter) => {
                awaiter.wake();
                None
            }
            EndThenSearch::Unfinished(deferred) => {
                *out = None;
                self.finish(id, deferred);
                self.take_any(out)
            }
        }
    }

    // Takes a task of any queue, and its future out.
    fn take_any(&self, out: &mut OutIn<S>) -> Option<AnyTask> {
        let found = cells!(self.storage.state()).take_any(None);
        if let Some((taken, _)) = &found {
            *out = transactions::take(&self.storage, taken.id());
        }
        found
    }
}
