//! What the handles of an executor's tasks are made of.
//!
//! What a handle does to a task that has ended is one change of the futures and of the table, since
//! the task may have to leave its slot and its place to a new one. What it does before is a change
//! of the table alone.
ghost use Rattle.std.specs.Prelude.{◌≡◌, true, false, IsTrue};
ghost use Rattle.async_executor.specs.Answers.{is_ready, IsReadyErr, IsReadyNone};

use crate::futures::transactions::{await_handle, take_ended, wait_and_take_ended};
use crate::futures::{OutputIn, Storage};
use crate::state::{announce, cells};
use executor_core::task::{Future, Poll, TaskId, Wake};
use thiserror::Error;

/// A task has no output to give: it was cancelled, or its handle has answered before.
///
/// Example: `uses::asks_again`.
///
/// ```text
/// let first = task.poll(w);
/// let second = task.poll(w);
/// (first, second)
/// ```
#[derive(Debug, Clone, Copy, PartialEq, Eq, Error)]
#[error("the task was cancelled")]
pub struct Cancelled;

/// A share of an executor, and one of its tasks. Its drop cancels the task if it has not answered.
pub struct TaskIn<S: Storage> {
    storage: S,
    id: TaskId,
    answered: bool,
}

impl<S: Storage> TaskIn<S> {
    /// The `TaskIn` of a new task.
    pub(crate) fn new(storage: S, id: TaskId) -> TaskIn<S>
        ensures { result.answered ≡ false }
    {
        TaskIn {
            storage,
            id,
            answered: false,
        }
    }

    /// `Task::detach`, for both kinds of storage: lets the task run on without a handle.
    pub(crate) fn detach(self) {
        let TaskIn {
            storage,
            id,
            answered,
        } = self;
        if answered {
            return;
        }
        let mut cells = cells!(storage.state());
        if cells.is_ended(id) {
            drop(cells);
            detach_ended(&storage, id);
            return;
        }
        let (_, awaiter) = cells.detach(id);
        drop(cells);
        drop(awaiter);
    }

    /// `Task::cancel`, for both kinds of storage. The task is scheduled at once, and its future is dropped in
    /// place of its next poll.
    pub(crate) fn cancel(&self) {
        let state = self.storage.state();
        let notice = cells!(state).cancel(self.id);
        if let Some(notice) = notice {
            announce!(state, notice);
        }
    }

    /// `Task::is_finished`, for both kinds of storage: whether the task has ended or was cancelled, or this
    /// handle has answered.
    pub(crate) fn is_finished(&self) -> bool
        ensures { IsTrue self.now.answered → IsTrue result }
    {
        self.answered || cells!(self.storage.state()).is_finished(self.id)
    }

    // Answers for a `TaskIn` whose task ended while the handle was polled. It is inline around the call, so
    // that the room of what that gives is cleared on this path alone.
    #[inline(always)]
    fn answer_late(&mut self) -> Poll<Result<OutputIn<S>, Cancelled>>
        ensures answered { self.new.answered ≡ true }
        ensures ready { is_ready result ≡ true }
    {
        self.answered = true;
        let (output, _) = wait_and_take_ended(&self.storage, self.id);
        Poll::Ready(output.ok_or(Cancelled))
    }
}

// Detaches a `TaskIn` whose task has ended.
#[cold]
#[inline(never)]
fn detach_ended<S: Storage>(storage: &S, id: TaskId) {
    drop(wait_and_take_ended(storage, id));
}

impl<S: Storage> Future<S::Waker> for TaskIn<S> {
    type Output = Result<OutputIn<S>, Cancelled>;

    /// Gives the output once, or leaves a copy of the waker.
    #[inline(always)]
    fn poll(&mut self, w: &S::Waker) -> Poll<Result<OutputIn<S>, Cancelled>>
        ensures answered { self.new.answered ≡ is_ready result }
        ensures again { IsTrue self.old.answered → IsReadyErr result }
    {
        if self.answered {
            return Poll::Ready(Err(Cancelled));
        }
        let cells = cells!(self.storage.state());
        if cells.is_ended(self.id) {
            self.answered = true;
            let (output, _) = take_ended(&self.storage, cells, self.id);
            return Poll::Ready(output.ok_or(Cancelled));
        }
        drop(cells);
        // Only now: an answer needs no copy, which may be refused. No lock is held.
        let Ok(waker) = w.copy() else {
            w.wake();
            return Poll::Pending;
        };
        match await_handle(&self.storage, self.id, waker) {
            Ok(_) => Poll::Pending,
            // It has ended since.
            Err(_) => self.answer_late(),
        }
    }
}

impl<S: Storage> Drop for TaskIn<S> {
    #[inline(always)]
    fn drop(self) {
        let TaskIn {
            storage,
            id,
            answered,
        } = self;
        if !answered {
            drop_unanswered(&storage, id);
        }
    }
}

// Cancels the task of a `TaskIn` that has not answered, and ends the handle.
#[inline(never)]
fn drop_unanswered<S: Storage>(storage: &S, id: TaskId) {
    let state = storage.state();
    let mut cells = cells!(state);
    if cells.is_ended(id) {
        drop(cells);
        detach_ended(storage, id);
        return;
    }
    let (notice, _, awaiter) = cells.drop_handle(id);
    // With the lock given up: a sleeper that is woken, or the awaiter's drop, may use the executor.
    drop(cells);
    if let Some(notice) = notice {
        announce!(state, notice);
    }
    drop(awaiter);
}

/// `Ok(x)` becomes `Some(x)`, and `Cancelled` becomes `None`.
pub(crate) fn some_if_ok<T: Drop>(answer: Poll<Result<T, Cancelled>>) -> Poll<Option<T>>
    ensures ready { is_ready result ≡ is_ready answer }
    ensures none { IsReadyErr answer → IsReadyNone result }
    ensures some { (output : T) → answer ≡ Poll.Ready (Ok output)
        → result ≡ Poll.Ready (Some output) }
{
    match answer {
        Poll::Ready(output) => Poll::Ready(output.ok()),
        Poll::Pending => Poll::Pending,
    }
}
