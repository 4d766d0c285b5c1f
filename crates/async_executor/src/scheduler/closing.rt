//! Drops what is left of an executor's tasks.
ghost use Rattle.async_executor.specs.Deferred.{IsHeldRight};

use crate::dropper::TaskDropper;
use crate::futures::{OutIn, OutputIn, Storage, transactions};
use crate::scheduler::ExecutorIn;
use crate::state::announce;
use executor_core::task::{Ran, Taken, run_taken};
use std::sync::Wait;

impl<S: Storage> ExecutorIn<S> {
    /// Cancels every task, and drops the futures of all. No future may be out to be polled, and no
    /// lock may be held.
    ///
    /// What other parties queue meanwhile is dropped too. It takes no memory.
    pub(crate) fn close(&self) {
        let state = self.storage.state();
        let closed = state.cells().close();
        // Before the first future is dropped, which may take long.
        if let Some(notice) = closed {
            announce!(state, notice);
        }
        for _ in state.rt().forever() {
            // The loop has no measure: no contract says what others do to the table between two holds of
            // its lock.
            let drained = state.cells().drain_next();
            let Some(taken) = drained else {
                return;
            };
            self.drop_task(taken);
        }
    }

    // As an executor closes, drops the future of a taken task, and ends the task. No lock may be held.
    fn drop_task(&self, taken: Taken<()>) {
        let id = taken.id();
        let mut out = transactions::take(&self.storage, id);
        match drop_taken::<S>(taken, &mut out) {
            Ran::Dropped(held) => self.end_dropped(held),
            // No other is left: every task was cancelled as the table was closed.
            Ran::Pending(held, ()) | Ran::Ready(held, _) => self.end_pending(id, held),
        }
    }
}

// As an executor closes, drops the future of a taken task that was cancelled. No lock may be held.
fn drop_taken<S: Storage>(taken: Taken<()>, out: &mut OutIn<S>) -> Ran<(), OutputIn<S>>
    ensures { IsHeldRight result }
{
    let mut dropper = TaskDropper::new(out);
    run_taken(taken, &mut dropper)
}
