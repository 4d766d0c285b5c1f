//! What is asked of a task through its handle.
//!
//! A handle is there from the spawn until it was detached or dropped, or until a poll of it gave
//! its last answer. A call finds the cell by number and slot, so the id of a task whose cell is
//! gone never reaches the task that has the slot now.
ghost use Rattle.std.specs.Prelude.{◌≡◌, is_some, not};
ghost use Rattle.executor_core.specs.Cells.Calls.{after_cancel, cancel_queues, after_detach, detach_answer, after_poll_handle, poll_answer, finished_in, undropped_in, cell_at};

use crate::task::cell::{
    TaskId, await_cell, cancel_cell, detach_cell, has_future, is_finished_cell, output_of_ended,
};
use crate::task::table::Cells;
use crate::task::values::Notice;

/// What a poll of a handle answers.
#[derive(Drop)]
pub enum PollHandle<T, W> {
    /// The output, and the waker that was passed. The handle ends.
    Output(T, W),
    /// There is no output and there will be none. The waker comes back, and the handle ends.
    Cancelled(W),
    /// Not yet: the waker is kept. The one that was kept before comes out.
    Pending(Option<W>),
}

impl<P, T, W> Cells<P, T, W> {
    /// Asks the handle of a task for its output. It takes no memory.
    ///
    /// If the future is not dropped yet, the waker is kept in the place of the one before. A handle
    /// that is there no more answers `Cancelled`.
    pub fn poll_handle(&mut self, id: TaskId, waker: W) -> PollHandle<T, W>
        ensures table { self.new ≡ after_poll_handle self.old id waker }
        ensures answer { result ≡ poll_answer waker (cell_at self.old id) }
    {
        if !self.has_handle(id) {
            return PollHandle::Cancelled(waker);
        }
        if has_future(self.queues.cell(id)) {
            let before = await_cell(self.queues.cell_mut(id), waker);
            return PollHandle::Pending(before);
        }
        let cell = self.queues.remove(id);
        match output_of_ended(cell) {
            Some(output) => PollHandle::Output(output, waker),
            None => PollHandle::Cancelled(waker),
        }
    }

    /// Marks a task cancelled, so that its future is dropped and not polled again, and schedules an
    /// idle one at the global end. It stands for `async_task::Task::cancel`, whose answer comes
    /// here from later polls of the handle.
    ///
    /// The notice is there exactly if the task was idle. A task whose future was dropped stays as
    /// it was, and so does one whose handle is there no more. It takes no memory.
    pub fn cancel(&mut self, id: TaskId) -> Option<Notice>
        ensures table { self.new ≡ after_cancel self.old id }
        ensures notice { is_some result ≡ cancel_queues self.old id }
    {
        if !self.has_handle(id) {
            return None;
        }
        if !cancel_cell(self.queues.cell_mut(id)) {
            return None;
        }
        Some(self.queues.push(id))
    }

    /// Ends the handle of a task, which runs on without it. It stands for
    /// `async_task::Task::detach`.
    ///
    /// The output of a finished task comes out, whose cell is removed, and so does the waker that a
    /// poll of the handle left. If the handle is there no more, nothing changes and nothing comes
    /// out. It takes no memory.
    pub fn detach(&mut self, id: TaskId) -> (Option<T>, Option<W>)
        ensures table { self.new ≡ after_detach self.old id }
        ensures answer { result ≡ detach_answer (cell_at self.old id) }
    {
        if !self.has_handle(id) {
            return (None, None);
        }
        if has_future(self.queues.cell(id)) {
            let awaiter = detach_cell(self.queues.cell_mut(id));
            return (None, awaiter);
        }
        let cell = self.queues.remove(id);
        (output_of_ended(cell), None)
    }

    /// Cancels a task and then ends its handle. It stands for the drop of an `async_task::Task`.
    ///
    /// The answers are those of `cancel` and then of `detach`. It takes no memory.
    pub fn drop_handle(&mut self, id: TaskId) -> (Option<Notice>, Option<T>, Option<W>)
        ensures table { self.new ≡ after_detach (after_cancel self.old id) id }
        ensures notice { is_some result.0 ≡ cancel_queues self.old id }
        ensures answer { (result.1, result.2) ≡ detach_answer (cell_at self.old id) }
    {
        let notice = self.cancel(id);
        let (output, awaiter) = self.detach(id);
        (notice, output, awaiter)
    }

    /// For a handle: whether the task's future was dropped, or is to be dropped since the task was
    /// cancelled. It stands for `async_task::Task::is_finished`.
    ///
    /// It looks at the cell and not at the handle. Of a task without a cell it is true.
    pub fn is_finished(&self, id: TaskId) -> bool
        ensures { result ≡ finished_in (cell_at self.now id) }
    {
        self.cell_at(id).is_none_or(is_finished_cell)
    }

    /// Whether the task's future was dropped, so that its handle has its last answer. A task that
    /// was cancelled has not ended while its future is there.
    ///
    /// It looks at the cell and not at the handle. Of a task without a cell it is true.
    pub fn is_ended(&self, id: TaskId) -> bool
        ensures { result ≡ not (undropped_in (cell_at self.now id)) }
    {
        // `is_finished` would not do: it is true of a cancelled task whose future is still there.
        !self.is_undropped(id)
    }
}
