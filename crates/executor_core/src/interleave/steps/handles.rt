//! The steps of those who have a handle.
ghost use Rattle.std.specs.Prelude.{◌≡◌, ◌≢◌, true};
ghost use Rattle.executor_core.specs.World.Steps.{info, row, handle_row, cancel_row, detach_row, drop_handle_row};

use crate::interleave::World;
use crate::interleave::entry::set_info;
use crate::interleave::event::{Event, log_if};
use crate::interleave::reply::{Reply, reply_of_end, reply_of_notice, reply_of_output};
use crate::interleave::steps::begin;
use crate::interleave::steps::notices::keep_notice;
use crate::task::PollHandle;

impl<P: Drop, T: Copy> World<P, T> {
    pub(crate) fn poll_handle(&mut self, n: u64) -> Reply<T>
        requires room { self.old.accepted ≢ self.old.limit }
        requires enabled { (info n self.old).has_handle ≡ true }
        ensures { row (handle_row n self.old) result self.new }
    {
        let info = begin(&mut self.accepted, &self.entries, n);
        match self.core.poll_handle(info.id(n), ()) {
            PollHandle::Output(output, _) => {
                self.log.push_reserved(Event::Got(n, output));
                set_info(&mut self.entries, n, info.without_handle());
                Reply::Output(output)
            }
            PollHandle::Cancelled(_) => {
                set_info(&mut self.entries, n, info.without_handle());
                Reply::Cancelled
            }
            PollHandle::Pending(_) => {
                set_info(&mut self.entries, n, info.with_awaited(true));
                Reply::Pending
            }
        }
    }

    pub(crate) fn cancel(&mut self, n: u64) -> Reply<T>
        requires room { self.old.accepted ≢ self.old.limit }
        requires enabled { (info n self.old).has_handle ≡ true }
        ensures { row (cancel_row n self.old) result self.new }
    {
        let id = begin(&mut self.accepted, &self.entries, n).id(n);
        let undropped = self.core.cells.is_undropped(id);
        log_if(&mut self.log, undropped, Event::Cancelled(n));
        let notice = self.core.cancel(id);
        reply_of_notice(keep_notice(&mut self.notices, notice))
    }

    pub(crate) fn detach(&mut self, n: u64) -> Reply<T>
        requires room { self.old.accepted ≢ self.old.limit }
        requires enabled { (info n self.old).has_handle ≡ true }
        ensures { row (detach_row n self.old) result self.new }
    {
        let info = begin(&mut self.accepted, &self.entries, n);
        set_info(&mut self.entries, n, info.detached());
        let (output, _) = self.core.detach(info.id(n));
        reply_of_output(output)
    }

    pub(crate) fn drop_handle(&mut self, n: u64) -> Reply<T>
        requires room { self.old.accepted ≢ self.old.limit }
        requires enabled { (info n self.old).has_handle ≡ true }
        ensures { row (drop_handle_row n self.old) result self.new }
    {
        let info = begin(&mut self.accepted, &self.entries, n);
        set_info(&mut self.entries, n, info.detached());
        let id = info.id(n);
        let undropped = self.core.cells.is_undropped(id);
        log_if(&mut self.log, undropped, Event::Cancelled(n));
        let (notice, output, _) = self.core.drop_handle(id);
        reply_of_end(keep_notice(&mut self.notices, notice), output)
    }
}
