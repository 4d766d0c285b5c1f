//! The table of task cells.
ghost use Rattle.std.specs.Prelude.{◌≡◌, ◌+◌, ◌-◌, ◌<◌, true, false, IsErr, IsTrue, ◌↔◌, [], None, slice_index_or, IfOk, IfErr, IfSome, IfNone, OnErr, OnOk, is_ok, is_some, option_copied};
ghost use Rattle.executor_core.specs.Cells.Calls.{wakes, after_wake, after_end_pending, EndsPending, undropped_in, cancelled_in, future_in, empty_table, after_spawn, IsFree, AllDropped, undropped_count, cell_at, held_in, handle_in, takes_back_in, after_end_ready, ready_answer, after_end_dropped, dropped_answer, after_take, TakesFront, after_take_any, TakesAny, after_search, search_in, TakesFound, after_drain_next, draining};
ghost use Rattle.executor_core.specs.SpawnError.{last_number, Refuses};
ghost use Rattle.executor_core.specs.Cells.Law.{LockLaw, queued_of};
ghost use Rattle.executor_core.specs.Cells.View.{scheduled_slot, TakesOut};
ghost use Rattle.executor_core.specs.Slots.{HasCell};

use crate::queue::queues::Queues;
use crate::queue::runner::RunnerKey;
use crate::task::cell::{
    Cell, TaskId, awaiter_of_held, dispose_cell, has_future, is_held, keeps_future, pend_cell,
    ready_cell, reschedule_cell, take_cell, takes_back, wake_cell,
};
use crate::task::error::{OutOfMemory, SpawnError};
use crate::task::polling::{Held, Taken};
use crate::task::values::{Again, Notice, Wakeup};
use std::alloc::Global;
use std::marker::Model;

/// What the end of a poll that gave an output leaves to do.
pub struct EndReady<T, W> {
    /// Whoever polled the handle in vain, to be woken.
    pub awaiter: Option<Wakeup<W>>,
    /// The output, if no handle is to give it.
    pub unwanted: Option<T>,
}

/// What becomes of a future whose poll ended pending.
pub enum EndPending<P> {
    /// It is in its cell again. The notice is there if the task was woken during the poll.
    Back(Option<Notice>),
    /// It is to be dropped: the task was cancelled, or it is none of these cells'.
    Drop(P, Held),
}

/// The cells of the tasks by number, and the global queue of the scheduled ones.
///
/// A contract sees it as a `Table`: a finite map from task numbers to cells, and lists of numbers.
/// Its law, which every call keeps: a number stands once in the queues if its cell is scheduled,
/// and otherwise in none.
#[derive(Drop)]
pub struct Cells<P, T, W> {
    pub(crate) queues: Queues<P, T, W>,
    pub(crate) next: u64,
    // At most `next`, as the invariant says: so it never overflows, nor does the count of the queued
    // ones.
    pub(crate) undropped: usize,
    // `drain_next` alone acts by it, so it costs no other call anything: wakes and spawns queue as before.
    pub(crate) closed: bool,
}

impl<P, T, W> Model for Cells<P, T, W> {
    ghost use Rattle.executor_core.specs.Cells.{Table};
    ghost use Rattle.executor_core.specs.Cells.Coding.{table_code};

    ghost Value = { Table P T W };

    ghost coded = { table_code P.code T.code W.code };

    ghost use Rattle.executor_core.specs.Cells.View.{table_of, IsSound};
    ghost use Rattle.executor_core.specs.Queues.{all_entries};

    ghost view = { λ a. table_of a.next a.queues.slots a.queues.state a.closed };

    ghost invariant = { λ a. IsSound a.next a.queues.slots
        (all_entries a.queues.state.lists) a.undropped };
}

impl<P, T, W> Cells<P, T, W> {
    /// A table without tasks, in which there was none before.
    ///
    /// # Errors
    ///
    /// None: nothing is reserved here.
    pub fn new(alloc: Global) -> Result<Self, OutOfMemory>
        ensures { IfOk result (λ cells. cells ≡ empty_table 0) }
    {
        // Nothing is refused here. The `Result` is what callers have always had.
        Self::first_number(alloc, 0)
    }

    /// As `Cells::new`, with this number for the first task.
    pub fn first_number(alloc: Global, first: u64) -> Result<Self, OutOfMemory>
        ensures { IfOk result (λ cells. cells ≡ empty_table first) }
    {
        Ok(Cells {
            queues: Queues::new(alloc),
            next: first,
            undropped: 0,
            closed: false,
        })
    }

    /// Makes room in the table for this many tasks more, so that their spawns need not ask for it. The
    /// table stays as it is.
    ///
    /// # Errors
    ///
    /// `OutOfMemory` if a growth was refused. The spawns then ask for their room.
    pub fn reserve(&mut self, tasks: usize) -> Result<(), OutOfMemory>
        ensures { self.new ≡ self.old }
    {
        self.queues.reserve(tasks)?;
        Ok(())
    }

    /// Makes a cell of a new task, scheduled at the global end, with its handle there.
    ///
    /// # Errors
    ///
    /// `Exhausted` exactly if every number was given, and `OutOfMemory` if a growth was refused.
    /// The future comes back, and nothing else changed.
    #[inline(always)]
    pub fn spawn(&mut self, future: P) -> Result<(TaskId, Notice), SpawnError<P>>
        ensures ok { IfOk result (λ r. self.new ≡ after_spawn self.old r.0.slot future) }
        ensures id { IfOk result (λ r. r.0.number ≡ self.old.next) }
        ensures free { IfOk result (λ r. IsFree self.old r.0.slot) }
        ensures refused { OnErr result (self.new ≡ self.old) }
        ensures cause { IfErr result (Refuses self.old.next future) }
        ensures exhausted { self.old.next ≡ last_number → IsErr result }
    {
        if self.next == u64::MAX {
            return Err(SpawnError::Exhausted(future));
        }
        let (id, notice) = match self.queues.insert(self.next, future) {
            Ok(made) => made,
            Err(future) => return Err(SpawnError::OutOfMemory(future)),
        };
        self.next += 1;
        self.undropped += 1;
        Ok((id, notice))
    }

    /// Schedules an idle task at the global end, and marks one whose future is out.
    ///
    /// The notice is there exactly if the task was idle. It takes no memory.
    pub fn wake(&mut self, id: TaskId) -> Option<Notice>
        ensures table { self.new ≡ after_wake self.old id }
        ensures notice { is_some result ≡ wakes self.old id }
    {
        if !self.has_cell(id) {
            return None;
        }
        if !wake_cell(self.queues.cell_mut(id)) {
            return None;
        }
        Some(self.queues.push(id))
    }

    /// Takes a task from the cells: that at the global front, or none if the queue is empty. It takes no
    /// memory.
    ///
    /// The notice says that there may be more to take.
    pub fn take_global(&mut self, again: Option<Again>) -> Option<(Taken<P>, Notice)>
        ensures table { self.new ≡ after_take self.old }
        ensures none { IfNone result (self.old.global ≡ []) }
        ensures some { IfSome result (λ r. TakesFront self.old self.new.global r.0) }
    {
        if let Some(again) = again {
            again.spend();
        }
        let Some(id) = self.queues.take_front() else {
            return None;
        };
        let taken = take_out(&mut self.queues, id);
        Some((taken, Notice { unspent: () }))
    }

    /// Takes a task from the cells: that at the global front, else the one at the front of the first
    /// runner's queue that has one, in order of registration. It gives none exactly if no task stands in
    /// any queue. It steals nothing, and takes no memory.
    ///
    /// The notice says that there may be more to take.
    pub fn take_any(&mut self, again: Option<Again>) -> Option<(Taken<P>, Notice)>
        ensures table { self.new ≡ after_take_any self.old }
        ensures none { IfNone result (queued_of self.old ≡ []) }
        ensures some { IfSome result (λ r. TakesAny self.old r.0) }
    {
        if let Some(again) = again {
            again.spend();
        }
        let Some(id) = self.queues.take_any() else {
            return None;
        };
        let taken = take_out(&mut self.queues, id);
        Some((taken, Notice { unspent: () }))
    }

    /// Takes the task at the global front once the cells were closed. None before, and none if the
    /// queue is empty. It takes no memory.
    ///
    /// Nobody else is to hear of it, so there is no notice.
    pub fn drain_next(&mut self) -> Option<Taken<P>>
        ensures table { self.new ≡ after_drain_next self.old }
        ensures none { IfNone result (draining self.old ≡ []) }
        ensures some { IfSome result
            (λ task. (self.old.closed ≡ true) × TakesFront self.old self.new.global task) }
    {
        if !self.closed {
            return None;
        }
        let (taken, notice) = self.take_global(None)?;
        notice.keep();
        Some(taken)
    }

    /// Takes a task from the cells for a runner, with a word that says where the walk over the other
    /// queues starts: the front of its own queue, else the global front with half of what is left, else
    /// the front half of the first other queue that has one. None if all are empty, or its own has no
    /// room.
    ///
    /// A runner that is not registered takes the global front. It takes no memory, and visits each
    /// other queue once at most.
    #[inline(always)]
    pub fn search(
        &mut self,
        key: RunnerKey,
        word: u64,
        again: Option<Again>,
    ) -> Option<(Taken<P>, Notice)>
        ensures table { self.new ≡ after_search self.old key.number word }
        ensures none { IfNone result ((search_in self.old key.number word).0 ≡ None) }
        ensures some { IfSome result (λ r. TakesFound self.old key.number word r.0) }
    {
        if let Some(again) = again {
            again.spend();
        }
        let Some(id) = self.queues.search(key, word) else {
            return None;
        };
        let taken = take_out(&mut self.queues, id);
        Some((taken, Notice { unspent: () }))
    }

    /// The end of a poll that was pending, for the table: the future goes back, or is to be dropped.
    ///
    /// It takes no memory.
    pub fn end_pending(&mut self, held: Held, future: P) -> EndPending<P>
        requires { held.to_drop ≡ false }
        ensures table { self.new ≡ after_end_pending self.old held.id future }
        ensures answer { EndsPending self.old held future result }
    {
        let Held { id, to_drop: _ } = held;
        if !self.takes_back(id) {
            return EndPending::Drop(future, Held { id, to_drop: true });
        }
        if !pend_cell(self.queues.cell_mut(id), future) {
            return EndPending::Back(None);
        }
        EndPending::Back(Some(self.queues.push(id)))
    }

    /// The wake of a task in its poll, which was pending, and the end of that poll: the future goes back,
    /// and the task is scheduled at the global end. Both find its cell by one look.
    ///
    /// It takes no memory.
    ///
    /// # Errors
    ///
    /// Both come back exactly if the task was cancelled, or is none of these cells', and nothing changes.
    #[inline(always)]
    pub fn end_woken(&mut self, held: Held, future: P) -> Result<Notice, (Held, P)>
        requires { held.to_drop ≡ false }
        ensures ok { OnOk result
            (self.new ≡ after_end_pending (after_wake self.old held.id) held.id future) }
        ensures refused { IfErr result (λ back. (back ≡ (held, future)) × (self.new ≡ self.old)) }
        ensures cause { is_ok result ≡ takes_back_in (cell_at self.old held.id) }
    {
        if !self.takes_back(held.id) {
            return Err((held, future));
        }
        let Held { id, to_drop: _ } = held;
        reschedule_cell(self.queues.cell_mut(id), future);
        Ok(self.queues.push(id))
    }

    /// The end of a poll that gave an output, for the table: the task's future was dropped.
    ///
    /// The output waits for the handle, or comes back if no handle will give it. It takes no
    /// memory.
    #[inline(always)]
    pub fn end_ready(&mut self, held: Held, output: T) -> EndReady<T, W>
        requires { held.to_drop ≡ false }
        ensures table { self.new ≡ after_end_ready self.old held.id output }
        ensures answer { result ≡ ready_answer output (cell_at self.old held.id) }
    {
        let Held { id, to_drop: _ } = held;
        if !self.is_held(id) {
            return EndReady {
                awaiter: None,
                unwanted: Some(output),
            };
        }
        self.undropped -= 1;
        if self.queues.cell(id).has_handle {
            let (awaiter, unwanted) = ready_cell(self.queues.cell_mut(id), output);
            return EndReady { awaiter, unwanted };
        }
        let cell = self.queues.remove(id);
        EndReady {
            awaiter: awaiter_of_held(cell),
            unwanted: Some(output),
        }
    }

    /// The end, for the table, of a task that was cancelled, whose future was dropped unfinished.
    ///
    /// It asks for the `Held` of a disposal, or the one that `end_pending` gave back with the
    /// future. Whoever polled the handle in vain comes out, to be woken. A `Held` of other cells
    /// changes nothing, and gives nothing. It takes no memory.
    pub fn end_dropped(&mut self, held: Held) -> Option<Wakeup<W>>
        requires { held.to_drop ≡ true }
        ensures table { self.new ≡ after_end_dropped self.old held.id }
        ensures answer { result ≡ dropped_answer (cell_at self.old held.id) }
    {
        let Held { id, to_drop: _ } = held;
        if !self.is_held(id) {
            return None;
        }
        self.undropped -= 1;
        if self.queues.cell(id).has_handle {
            return dispose_cell(self.queues.cell_mut(id));
        }
        let cell = self.queues.remove(id);
        awaiter_of_held(cell)
    }

    /// Whether every future that was spawned in the table was dropped. It stands for `Executor::is_empty`.
    pub fn is_empty(&self) -> bool
        ensures { IsTrue result ↔ AllDropped self.now }
    {
        self.undropped == 0
    }

    /// How many of the futures that were spawned in the table are not dropped.
    pub fn undropped(&self) -> usize
        ensures { result ≡ undropped_count self.now }
    {
        self.undropped
    }

    /// Whether the table has the task's future in its cell: neither out nor dropped.
    pub fn keeps(&self, id: TaskId) -> bool
        ensures { result ≡ future_in (cell_at self.now id) }
    {
        self.cell_at(id).is_some_and(keeps_future)
    }

    // Whether the table has the task's cell, and its future is not dropped.
    pub(crate) fn is_undropped(&self, id: TaskId) -> bool
        ensures { result ≡ undropped_in (cell_at self.now id) }
    {
        self.cell_at(id).is_some_and(has_future)
    }

    // Whether the table has the task's cell, and the task is cancelled.
    pub(crate) fn is_cancelled(&self, id: TaskId) -> bool
        ensures { result ≡ cancelled_in (cell_at self.now id) }
    {
        self.cell_at(id).is_some_and(|cell| cell.cancelled)
    }

    // Whether the table has the task's cell, and its handle is there.
    pub(crate) fn has_handle(&self, id: TaskId) -> bool
        ensures { result ≡ handle_in (cell_at self.now id) }
    {
        self.cell_at(id).is_some_and(|cell| cell.has_handle)
    }

    // Whether the table has the task's cell.
    fn has_cell(&self, id: TaskId) -> bool
        ensures { result ≡ is_some (cell_at self.now id) }
    {
        self.cell_at(id).is_some()
    }

    // Whether the table has the task's cell, and its future is out.
    fn is_held(&self, id: TaskId) -> bool
        ensures { result ≡ held_in (cell_at self.now id) }
    {
        self.cell_at(id).is_some_and(is_held)
    }

    // Whether the table has the task's cell, its future is out, and the task was not cancelled.
    fn takes_back(&self, id: TaskId) -> bool
        ensures { result ≡ takes_back_in (cell_at self.now id) }
    {
        self.cell_at(id).is_some_and(takes_back)
    }

    // The table's cell of the task's number, if it is in the task's slot.
    pub(crate) fn cell_at(&self, id: TaskId) -> Option<&Cell<P, T, W>>
        ensures { option_copied result ≡ cell_at self.now id }
    {
        match self.queues.get(id.slot) {
            Some(entry) if entry.number == id.number => Some(&entry.cell),
            _ => None,
        }
    }

    /// The law of the table's queues, which every call keeps: a number stands once in all of them
    /// together if its cell is scheduled, and otherwise in none. It does nothing.
    pub fn law_holds(&self)
        ensures { LockLaw self.now }
    {
        // For a caller that holds the table and makes no other call to learn the law from.
        let _ = &self.next;
    }
}

// For each take: takes the task out of its cell, which is scheduled.
fn take_out<P, T, W>(queues: &mut Queues<P, T, W>, id: TaskId) -> Taken<P>
    requires there { HasCell queues.old.slots id }
    requires scheduled { scheduled_slot (slice_index_or queues.old.slots id.slot None) ≡ true }
    ensures slots { TakesOut queues.old.slots queues.new.slots id result }
    ensures state { queues.new.state ≡ queues.old.state }
{
    let (future, cancelled) = take_cell(queues.cell_mut(id));
    Taken {
        id,
        future,
        cancelled,
    }
}
