//! The steps of the one who drops the executor, or leaks it. Before a drop it is closed, and then its
//! tasks are drained; at a leak every task is woken.
ghost use Rattle.std.specs.Prelude.{◌≡◌, ◌≢◌, ◌+◌, ◌≤◌, ◌&&◌, ◌++◌, true, map, length, None, slice_index_or};
ghost use Rattle.std.specs.List.{filter_map};
ghost use Rattle.std.specs.Vec.{vec_capacity};
ghost use Rattle.executor_core.specs.Cell.{is_undropped};
ghost use Rattle.executor_core.specs.Cells.Calls.{rising};
ghost use Rattle.executor_core.specs.Cells.View.{undropped_number};
ghost use Rattle.executor_core.specs.World.Steps.{row, may_close, ByRisingSlot, close_row, drain_row, leak_row, mark_event};

use crate::interleave::World;
use crate::interleave::event::Event;
use crate::interleave::reply::{Reply, reply_of_notice};
use crate::interleave::steps::notices::keep_notice;
use crate::interleave::steps::polls::put_out;
use crate::interleave::ticker::forget_all;
use crate::queue::queues::Queues;
use crate::task::Cells;
use crate::task::cell::has_future;

impl<P: Drop, T: Copy> World<P, T> {
    pub(crate) fn close(&mut self) -> Reply<T>
        requires room { self.old.accepted ≢ self.old.limit }
        requires enabled { may_close self.old ≡ true }
        ensures { ByRisingSlot close_row self.old result self.new }
    {
        self.accepted += 1;
        self.core.cells.log_undropped(true, &mut self.log);
        let notice = self.core.close();
        forget_all(&mut self.tickers);
        reply_of_notice(keep_notice(&mut self.notices, notice))
    }

    pub(crate) fn drain(&mut self) -> Reply<T>
        requires room { self.old.accepted ≢ self.old.limit }
        requires enabled { self.old.closed ≡ true }
        ensures { row (drain_row self.old.global self.old) result self.new }
    {
        self.accepted += 1;
        match self.core.drain_next() {
            Some(taken) => put_out(&mut self.entries, &mut self.log, taken),
            None => Reply::NoTask,
        }
    }

    pub(crate) fn leak(&mut self) -> Reply<T>
        requires room { self.old.accepted ≢ self.old.limit }
        requires enabled { may_close self.old ≡ true }
        ensures { ByRisingSlot leak_row self.old result self.new }
    {
        self.accepted += 1;
        self.core.cells.log_undropped(false, &mut self.log);
        let notice = self.core.wake_all();
        self.leaked = true;
        forget_all(&mut self.tickers);
        reply_of_notice(keep_notice(&mut self.notices, notice))
    }
}

impl<P, T: Copy> Cells<P, T, ()> {
    // Logs for a close, or a leak, that each task whose future is not dropped is cancelled, or woken, by
    // rising slot.
    fn log_undropped(&self, cancels: bool, log: &mut Vec<Event<T>>)
        requires room { length log.old.items + self.now.next ≤ vec_capacity log.old }
        ensures log { log.new.items
            ≡ log.old.items
            ++ map (mark_event cancels) (rising (λ c. is_undropped c.state) self.now.cells) }
        ensures few { length log.new.items ≤ length log.old.items + self.now.next }
        ensures capacity { vec_capacity log.new ≡ vec_capacity log.old }
    {
        log_each(&self.queues, cancels, log);
    }
}

// Logs the same for a close, or a leak, slot by slot.
fn log_each<P, T: Copy, W>(queues: &Queues<P, T, W>, cancels: bool, log: &mut Vec<Event<T>>)
    requires { length log.old.items + length (filter_map undropped_number queues.now.slots)
        ≤ vec_capacity log.old }
    ensures log { log.new.items
        ≡ log.old.items ++ map (mark_event cancels) (filter_map undropped_number queues.now.slots) }
    ensures capacity { vec_capacity log.new ≡ vec_capacity log.old }
{
    for slot in 0..queues.capacity() {
        if let Some(number) = undropped_in(queues, slot) {
            log.push_reserved(mark_event(cancels, number));
        }
    }
}

// The event of a task that a close cancels, or a leak wakes.
fn mark_event<T>(cancels: bool, number: u64) -> Event<T>
    ensures { result ≡ mark_event cancels number }
{
    if cancels {
        Event::Cancelled(number)
    } else {
        Event::Woken(number)
    }
}

// What a close or a leak logs of this slot: the number of its task, if the future is not dropped.
fn undropped_in<P, T, W>(queues: &Queues<P, T, W>, slot: usize) -> Option<u64>
    ensures { result ≡ undropped_number (slice_index_or queues.now.slots slot None) }
{
    let entry = queues.get(slot)?;
    if has_future(&entry.cell) {
        Some(entry.number)
    } else {
        None
    }
}
