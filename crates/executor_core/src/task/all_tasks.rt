//! The calls that change every task at once.
//!
//! Each is one change of the table. It visits the slots once, and takes no memory.
ghost use Rattle.std.specs.Prelude.{◌≡◌, ◌<◌, ◌^◌, ◌++◌, nat_lt, length, map, is_some, slice_index_or, slice_set, None};
ghost use Rattle.executor_core.specs.Queues.State.{with_lists, pushed_all};
ghost use Rattle.executor_core.specs.Slots.{IsQueue};
ghost use Rattle.executor_core.specs.Cells.View.{change_by, changed_slot, idle_id, idle_ids};
ghost use Rattle.executor_core.specs.Cells.Calls.{SlotsDiffer, after_wake_all, wake_all_queues, after_close, close_queues};

use crate::queue::queues::Queues;
use crate::task::cell::{TaskId, cancel_cell, wake_cell};
use crate::task::table::Cells;
use crate::task::values::Notice;

impl<P, T, W> Cells<P, T, W> {
    /// Wakes every task, by rising slot: an idle one is scheduled at the global end, and one whose
    /// future is out is marked. It stands for what `Executor::leak` does to each task.
    ///
    /// The notice is there exactly if a task was idle. No two tasks have one slot, so this is one
    /// order. It takes no memory.
    pub fn wake_all(&mut self) -> Option<Notice>
        ensures table { self.new ≡ after_wake_all self.old }
        ensures notice { is_some result ≡ wake_all_queues self.old }
        // For a caller with another model of the tasks: without it, the order by rising slot is not one
        // order.
        ensures slots { SlotsDiffer self.old }
    {
        let idle = change_all(&mut self.queues, false);
        Notice::of(idle)
    }

    /// Closes the cells: every task whose future is not dropped is cancelled, whether its handle is
    /// there or not. The idle ones are scheduled at the global end, by rising slot, and then all that
    /// stands in the runners' queues goes there, in order of registration. These queues stay, empty.
    /// From now on `drain_next` takes. It stands for what the drop of an `Executor` does to each task.
    ///
    /// The notice is there exactly if the global queue grew. No two tasks have one slot, so this is
    /// one order. It takes no memory.
    pub fn close(&mut self) -> Option<Notice>
        ensures table { self.new ≡ after_close self.old }
        ensures notice { is_some result ≡ close_queues self.old }
        ensures slots { SlotsDiffer self.old }
    {
        self.closed = true;
        let idle = change_all(&mut self.queues, true);
        let moved = self.queues.gather();
        Notice::of(idle | moved)
    }

    // Whether `Cells::close` closed the cells.
    pub(crate) fn is_closed(&self) -> bool
        ensures { result ≡ self.now.closed }
    {
        self.closed
    }
}

// Cancels or wakes each task, by rising slot: an idle one goes to the end of the global queue.
// Says whether one was idle.
fn change_all<P, T, W>(queues: &mut Queues<P, T, W>, cancels: bool) -> bool
    requires queue { IsQueue queues.old.slots
        (queues.old.state.lists.global ++ idle_ids 0 queues.old.slots) }
    requires counted { length (queues.old.state.lists.global ++ idle_ids 0 queues.old.slots)
        < 2 ^ 64 }
    ensures slots { queues.new.slots ≡ map (changed_slot (change_by cancels)) queues.old.slots }
    ensures state { queues.new.state
        ≡ with_lists
        (pushed_all (idle_ids 0 queues.old.slots) queues.old.state.lists) queues.old.state }
    ensures idle { result ≡ nat_lt 0 (length (idle_ids 0 queues.old.slots)) }
{
    let mut idle = false;
    // One walk for a wake and for a close, so that their order is proved once. It goes by slots up to the
    // capacity, since a slab has no mutable iterator.
    for slot in 0..queues.capacity() {
        if let Some(id) = change_slot(queues, slot, cancels) {
            queues.push(id).keep();
            idle = true;
        }
    }
    idle
}

// For the change of all tasks: cancels the one in this slot, or wakes it. Gives its id if it was idle.
fn change_slot<P, T, W>(queues: &mut Queues<P, T, W>, slot: usize, cancels: bool) -> Option<TaskId>
    ensures slots { queues.new.slots
        ≡ slice_set queues.old.slots slot
        (changed_slot (change_by cancels) (slice_index_or queues.old.slots slot None)) }
    ensures state { queues.new.state ≡ queues.old.state }
    ensures idle { result ≡ idle_id slot (slice_index_or queues.old.slots slot None) }
{
    let number = queues.get(slot)?.number;
    let id = TaskId { number, slot };
    let cell = queues.cell_mut(id);
    // Whether the handle is there or not: else the future of a detached task would be left by a close.
    let idle = if cancels {
        cancel_cell(cell)
    } else {
        wake_cell(cell)
    };
    if !idle {
        return None;
    }
    Some(id)
}
