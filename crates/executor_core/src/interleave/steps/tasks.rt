//! The steps of those who spawn tasks, and of those who have a waker.
ghost use Rattle.std.specs.Prelude.{◌≡◌, ◌≢◌, true, false};
ghost use Rattle.executor_core.specs.World.Log.{spawned};
ghost use Rattle.executor_core.specs.World.Steps.{Spawns, row, wake_row};

use crate::interleave::World;
use crate::interleave::entry::TaskEntry;
use crate::interleave::event::{Event, log_if};
use crate::interleave::reply::{Reply, reply_of_notice};
use crate::interleave::steps::begin;
use crate::interleave::steps::notices::keep_notice;
use crate::task::SpawnError;

impl<P: Drop, T: Copy> World<P, T> {
    pub(crate) fn spawn(&mut self, future: P) -> Reply<T>
        requires room { self.old.accepted ≢ self.old.limit }
        requires unclosed { self.old.closed ≡ false }
        ensures { Spawns self.old result self.new }
    {
        if self.entries.try_reserve(1).is_err() {
            return Reply::OutOfMemory;
        }
        let (id, notice) = match self.core.spawn(future) {
            Ok(spawned) => spawned,
            Err(SpawnError::OutOfMemory(_)) => return Reply::OutOfMemory,
            // The next number is the number of tasks, which the limit bounds.
            Err(SpawnError::Exhausted(_)) => unreachable!(),
        };
        self.accepted += 1;
        keep_notice(&mut self.notices, Some(notice));
        self.entries.push_reserved(TaskEntry::new(id.slot));
        self.log.push_reserved(Event::Spawned(id.number));
        Reply::Task(id.number)
    }

    pub(crate) fn wake(&mut self, n: u64) -> Reply<T>
        requires room { self.old.accepted ≢ self.old.limit }
        requires enabled { spawned n self.old.log ≡ true }
        ensures { row (wake_row n self.old) result self.new }
    {
        let id = begin(&mut self.accepted, &self.entries, n).id(n);
        let undropped = self.core.cells.is_undropped(id);
        log_if(&mut self.log, undropped, Event::Woken(n));
        let notice = self.core.wake(id);
        reply_of_notice(keep_notice(&mut self.notices, notice))
    }
}
