//! Spawns tasks and runs them.
//!
//! A task that is run goes this way: its id is taken from the table and its future from the futures'
//! table, and the future is polled or dropped with no lock held. A future that is not ready goes back
//! there, and then its task is ended in the table. A task with an output is ended in the table first, and
//! the output goes to the futures if a handle wants it. What neither keeps is dropped after that.
ghost use Rattle.std.specs.Prelude.{◌≡◌, ◌↔◌, true, false, is_some, IfOk, IfErr, IsErr};
ghost use Rattle.executor_core.specs.Limits.{is_lawful};
ghost use Rattle.executor_core.specs.SpawnError.{refused_future};
ghost use Rattle.executor_core.specs.declared.limits.NewError.TheVariants as NewError;
ghost use Rattle.async_executor.specs.Deferred.{IsHeldFor, IsHeldRight, IsDeferredRight};

mod closing;
mod helping;
mod many;

use crate::futures::transactions::{self, AnyTask, BeforeEnd, Deferred};
use crate::futures::{OutIn, OutputIn, Shareable, Storage};
use crate::poller::poll_taken;
use crate::state::{announce, cells};
use crate::task::TaskIn;
use executor_core::limits::{Limits, NewError};
use executor_core::task::{
    EndPending, Future, Held, OutOfMemory, Ran, SpawnError, Taken, TaskId, Wake, Wakeup,
};
pub(crate) use many::Handle;
pub use many::SpawnMany;
use std::alloc::Global;

/// `Executor::spawn`, for both kinds of storage: schedules the future as a new task, behind all that are
/// scheduled, and gives its `TaskIn`. A macro, for the same reason as `cells!`.
macro_rules! spawn {
    ($executor:expr, $future:expr) => {{
        let executor = $executor;
        let Ok(storage) = executor.storage.share() else {
            return Err(SpawnError::OutOfMemory($future));
        };
        let (id, notice) = transactions::spawn(&executor.storage, $future)?;
        announce!(executor.storage.state(), notice);
        TaskIn::new(storage, id)
    }};
}

pub(crate) use spawn;

/// `Executor::try_tick` and `Executor::try_tick_any`, for both kinds of storage: runs the task that this
/// take finds, and says whether there was one. No lock may be held. A macro, for the same reason as
/// `cells!`.
macro_rules! take_and_run {
    ($executor:expr, $take:ident) => {{
        let executor = $executor;
        let state = executor.storage.state();
        let mut cells = cells!(state);
        let Some((taken, notice)) = cells.$take(None) else {
            return false;
        };
        drop(cells);
        // Before the task is run, which may take long: somebody else may go on with the queue.
        announce!(state, notice);
        executor.run_task(taken);
        true
    }};
}

pub(crate) use take_and_run;

// Drops the output of a task that has ended, before its awaiter is woken.
fn drop_and_wake<T: Drop, W: Wake>(unwanted: Option<T>, awaiter: Option<Wakeup<W>>) {
    drop(unwanted);
    if let Some(awaiter) = awaiter {
        awaiter.wake();
    }
}

/// A share of an executor, which spawns tasks and runs them.
#[derive(Drop)]
pub struct ExecutorIn<S: Storage> {
    pub(crate) storage: S,
    pub(crate) limits: Limits,
    ghost lawful: { is_lawful limits ≡ true },
}

impl<S: Shareable> ExecutorIn<S> {
    /// `Executor::new_with`, for both kinds of storage: an executor without tasks, with these limits, if they
    /// are lawful.
    pub(crate) fn new_with(
        rt: S::Runtime,
        alloc: Global,
        limits: Limits,
    ) -> Result<ExecutorIn<S>, NewError>
        ensures ok { IfOk result (λ executor. executor.limits ≡ limits) }
        ensures cause { IfErr result
            (λ error. (error ≡ NewError.BadLimits) ↔ (is_lawful limits ≡ false)) }
        ensures bad { is_lawful limits ≡ false → IsErr result }
    {
        if !limits.is_lawful() {
            return Err(NewError::BadLimits);
        }
        match S::new(rt, alloc) {
            Ok(storage) => Ok(ExecutorIn { storage, limits }),
            Err(OutOfMemory) => Err(NewError::OutOfMemory),
        }
    }

    /// Schedules the future as a new task of this `ExecutorIn`, as `spawn!` does.
    pub(crate) fn spawn(&self, future: S::Future) -> Result<TaskIn<S>, SpawnError<S::Future>>
        ensures ok { IfOk result (λ task. task.answered ≡ false) }
        ensures refused { IfErr result (λ e. refused_future e ≡ future) }
    {
        Ok(spawn!(self, future))
    }
}

impl<S: Storage> ExecutorIn<S> {
    /// `Executor::is_empty`, for both kinds of storage: whether the future of every task was dropped.
    pub(crate) fn is_empty(&self) -> bool {
        self.storage.state().cells().is_empty()
    }

    /// Wakes every task of this `ExecutorIn`, and spends the notice of those that were queued.
    pub(crate) fn wake_all(&self) {
        let state = self.storage.state();
        let woken = state.cells().wake_all();
        if let Some(notice) = woken {
            announce!(state, notice);
        }
    }

    /// Runs a task of this `ExecutorIn` that was found, and says whether there was one. No lock may be held.
    #[inline(always)]
    pub(crate) fn run_found(&self, found: Option<AnyTask>) -> bool
        ensures { result ≡ is_some found }
    {
        let Some((taken, notice)) = found else {
            return false;
        };
        // Before the task is run, which may take long: somebody else may go on with the queue.
        announce!(self.storage.state(), notice);
        self.run_task(taken);
        true
    }

    /// Runs a taken task of this `ExecutorIn`: polls its future once, or drops it if the task was cancelled,
    /// and ends the task. No lock may be held.
    pub(crate) fn run_task(&self, taken: Taken<()>) {
        let id = taken.id();
        let mut out = transactions::take(&self.storage, id);
        let ran = poll_taken(taken, &mut out);
        self.end(id, ran, &mut out);
    }

    /// Ends a task of this `ExecutorIn` that was run. No lock may be held.
    #[inline(always)]
    pub(crate) fn end(&self, id: TaskId, ran: Ran<(), OutputIn<S>>, out: &mut OutIn<S>)
        requires { IsHeldRight ran }
    {
        match ran {
            Ran::Pending(held, ()) => {
                match transactions::end_pending(&self.storage, id, held, out) {
                    Ok(None) => {}
                    Ok(Some(notice)) => announce!(self.storage.state(), notice),
                    Err(deferred) => {
                        *out = None;
                        self.finish(id, deferred);
                    }
                }
            }
            Ran::Ready(held, output) => {
                let (unwanted, awaiter) = transactions::end_ready(&self.storage, id, held, output);
                drop_and_wake(unwanted, awaiter);
            }
            Ran::Dropped(held) => self.end_dropped(held),
        }
    }

    /// Does what the end of a task of this `ExecutorIn` has left to do. A future that was refused is dropped.
    /// No lock may be held.
    pub(crate) fn finish(&self, id: TaskId, deferred: Deferred<S::Waker, OutputIn<S>>)
        requires { IsDeferredRight deferred }
    {
        match deferred {
            Deferred::Finished(unwanted, awaiter) => drop_and_wake(unwanted, awaiter),
            Deferred::Unended(held, before) => self.end_held(id, held, before),
        }
    }

    // Ends a task of this `ExecutorIn` that is still held, after what is to be done before.
    #[cold]
    #[inline(never)]
    fn end_held(&self, id: TaskId, held: Held, before: BeforeEnd)
        requires { IsHeldFor before held }
    {
        match before {
            BeforeEnd::ToDrop => self.drop_pending(id, held),
            BeforeEnd::Refused => self.end_pending(id, held),
            BeforeEnd::Woken(notice) => {
                // A held task gives none. What the type says may be there is spent all the same.
                announce!(self.storage.state(), notice);
                self.end_pending(id, held);
            }
        }
    }

    // Drops a future of this `ExecutorIn` that was put back, whose task was cancelled while it was polled.
    fn drop_pending(&self, id: TaskId, held: Held)
        requires { held.to_drop ≡ true }
    {
        drop(transactions::take(&self.storage, id));
        self.end_dropped(held);
    }

    // Ends a task of this `ExecutorIn` that is pending, with nothing to put back.
    #[cold]
    #[inline(never)]
    fn end_pending(&self, id: TaskId, held: Held)
        requires { held.to_drop ≡ false }
    {
        let ended = self.storage.state().cells().end_pending(held, ());
        match ended {
            EndPending::Back(None) => {}
            EndPending::Back(Some(notice)) => announce!(self.storage.state(), notice),
            EndPending::Drop((), held) => self.drop_pending(id, held),
        }
    }

    // Ends a task of this `ExecutorIn` whose future was dropped.
    #[inline(always)]
    fn end_dropped(&self, held: Held)
        requires { held.to_drop ≡ true }
    {
        let awaiter = cells!(self.storage.state()).end_dropped(held);
        if let Some(awaiter) = awaiter {
            awaiter.wake();
        }
    }
}
