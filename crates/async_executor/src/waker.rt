//! The wakers of tasks.
//!
//! A poll is lent a waker, which cannot be kept: what is kept is a copy. A copy that is woken
//! schedules its task at once.

use crate::state::{ExecutorState, announce, cells};
use executor_core::task::{OutOfMemory, TaskId, Wake};
use std::sync::atomic::{AtomicBool, Ordering};
use std::sync::{Arc, Wait};

/// Schedules one task of an executor for another poll.
///
/// It may be kept and sent on: it outlives the task and the executor, and then wakes nothing. It
/// stands for the `std::task::Waker` that the Rust crate hands to its futures, and as it is a
/// `Wake`, an executor may be driven from within a task of another one.
///
/// Example: `uses::receives`, whose copy `uses::send` wakes.
#[derive(Drop)]
pub struct TaskWaker<W, R> {
    pub(crate) state: Arc<ExecutorState<W, R>>,
    pub(crate) id: TaskId,
    // Whether the waker was woken, if it is lent. Other threads may wake it by reference.
    pub(crate) mark: Option<AtomicBool>,
}

impl<W: Wake, R: Wait + Drop> Wake for TaskWaker<W, R> {
    /// Schedules the task if it waits for a wake. If it is being polled, it is scheduled once
    /// that poll ends.
    ///
    /// Example: `uses::send`, at `Wake`.
    #[inline(always)]
    fn wake(&self) {
        if let Some(mark) = &self.mark {
            // No caller can tell: until its poll has ended the task is held, and only that end looks at a
            // wake of it. A copy may be kept beyond the poll, so it has no mark.
            mark.store(true, Ordering::SeqCst);
            return;
        }
        let mut cells = cells!(&self.state);
        if let Some(notice) = cells.wake(self.id) {
            drop(cells);
            announce!(self.state, notice);
        }
    }

    /// Another waker of the same task.
    ///
    /// # Errors
    ///
    /// `OutOfMemory` if another share of the state is refused.
    ///
    /// Example: `uses::receives`, whose copy `uses::send` wakes.
    fn copy(&self) -> Result<Self, OutOfMemory> {
        let state = Arc::try_clone(&self.state)?;
        Ok(TaskWaker {
            state,
            id: self.id,
            mark: None,
        })
    }
}
