//! The steps of those who take tasks and poll them.
ghost use Rattle.std.specs.Prelude.{◌≡◌, ◌≢◌, ◌<◌, ◌&&◌, ◌++◌, ◌∷◌, [], not, true, Some, length, slice_get, slice_set};
ghost use Rattle.std.specs.Vec.{vec_capacity};
ghost use Rattle.executor_core.specs.World.Entries.{out_entry};
ghost use Rattle.executor_core.specs.Queues.{search_any};
ghost use Rattle.executor_core.specs.World.Log.{held};
ghost use Rattle.executor_core.specs.World.Promises.{queues};
ghost use Rattle.executor_core.specs.World.Steps.{info, purpose_of, take_reply, row, take_row, take_any_row, pend_row, ready_row, dropped_row};

use crate::interleave::World;
use crate::interleave::entry::{FutureOut, TaskEntry, set_entry, take_unpolled};
use crate::interleave::event::{Event, Purpose, log_if};
use crate::interleave::reply::{Reply, has_awaiter, reply_of, reply_of_return, reply_of_take};
use crate::interleave::script::{drop_future, poll_pending, poll_ready};
use crate::interleave::steps::begin;
use crate::interleave::steps::notices::keep_notice;
use crate::task::{EndPending, Held, Taken};

// For a step that takes a task: logs the take, and keeps the task's future as one that is out.
pub(crate) fn put_out<P: Drop, T: Copy>(
    entries: &mut Vec<TaskEntry<P>>,
    log: &mut Vec<Event<T>>,
    taken: Taken<P>,
) -> Reply<T>
    requires spawned { taken.id.number < length entries.old.items }
    requires room { length log.old.items < vec_capacity log.old }
    ensures entries { (e : TaskEntry P) → slice_get entries.old.items taken.id.number ≡ Some e
        → entries.new.items ≡ slice_set entries.old.items taken.id.number (out_entry e taken) }
    ensures log { log.new.items
        ≡ log.old.items ++ Event.Took taken.id.number (purpose_of taken.cancelled) ∷ [] }
    ensures capacity { vec_capacity log.new ≡ vec_capacity log.old }
    ensures reply { result ≡ take_reply taken.id.number taken.cancelled }
{
    let Taken {
        id,
        future,
        cancelled,
    } = taken;
    let n = id.number;
    let info = entries[n as usize].info.with_to_drop(cancelled);
    let out = Some(FutureOut::Unpolled(future));
    set_entry(entries, n, TaskEntry { info, out });
    log.push_reserved(Event::Took(n, Purpose::of(cancelled)));
    reply_of_take(n, cancelled)
}

impl<P: Drop, T: Copy> World<P, T> {
    pub(crate) fn try_tick(&mut self) -> Reply<T>
        requires room { self.old.accepted ≢ self.old.limit }
        ensures { row (take_row self.old.global self.old) result self.new }
    {
        self.accepted += 1;
        let Some((taken, notice)) = self.core.take_global(None) else {
            return Reply::NoTask;
        };
        keep_notice(&mut self.notices, Some(notice));
        put_out(&mut self.entries, &mut self.log, taken)
    }

    pub(crate) fn try_any(&mut self) -> Reply<T>
        requires room { self.old.accepted ≢ self.old.limit }
        requires enabled { not self.old.closed ≡ true }
        ensures { row (take_any_row (search_any (queues self.old)) self.old) result self.new }
    {
        self.accepted += 1;
        let Some((taken, notice)) = self.core.take_any(None) else {
            return Reply::NoTask;
        };
        keep_notice(&mut self.notices, Some(notice));
        put_out(&mut self.entries, &mut self.log, taken)
    }

    pub(crate) fn pend(&mut self, n: u64) -> Reply<T>
        requires room { self.old.accepted ≢ self.old.limit }
        requires enabled { (held n self.old.log && not (info n self.old).to_drop) ≡ true }
        ensures { row (pend_row n self.old) result self.new }
    {
        let info = begin(&mut self.accepted, &self.entries, n);
        let future = take_unpolled(&mut self.entries, n, info);
        let (held, future) = poll_pending::<P, T>(info.id(n), future);
        match self.core.end_pending(held, future) {
            EndPending::Back(notice) => {
                self.log.push_reserved(Event::Returned(n));
                reply_of_return(n, keep_notice(&mut self.notices, notice))
            }
            EndPending::Drop(future, held) => {
                let Held { id: _, to_drop: _ } = held;
                let info = info.with_to_drop(true);
                let out = Some(FutureOut::Polled(future));
                set_entry(&mut self.entries, n, TaskEntry { info, out });
                Reply::Drop(n)
            }
        }
    }

    pub(crate) fn ready(&mut self, n: u64, output: T) -> Reply<T>
        requires room { self.old.accepted ≢ self.old.limit }
        requires enabled { (held n self.old.log && not (info n self.old).to_drop) ≡ true }
        ensures { row (ready_row n output self.old) result self.new }
    {
        let info = begin(&mut self.accepted, &self.entries, n);
        let id = info.id(n);
        let future = take_unpolled(&mut self.entries, n, info.with_awaited(false));
        let (held, output) = poll_ready(id, future, output);
        let cancelled = self.core.cells.is_cancelled(id);
        log_if(&mut self.log, !cancelled, Event::Finished(n, output));
        let ended = self.core.end_ready(held, output);
        self.log.push_reserved(Event::Dropped(n));
        reply_of(ended)
    }

    pub(crate) fn dropped(&mut self, n: u64) -> Reply<T>
        requires room { self.old.accepted ≢ self.old.limit }
        requires enabled { (held n self.old.log && (info n self.old).to_drop) ≡ true }
        ensures { row (dropped_row n self.old) result self.new }
    {
        let info = begin(&mut self.accepted, &self.entries, n);
        let entry = TaskEntry {
            info: info.with_awaited(false),
            out: None,
        };
        let Some(out) = set_entry(&mut self.entries, n, entry) else {
            unreachable!()
        };
        let held = drop_future::<P, T>(info.id(n), out);
        let awaiter = self.core.end_dropped(held);
        self.log.push_reserved(Event::Dropped(n));
        Reply::Gone {
            awaiter: has_awaiter(awaiter),
        }
    }
}
