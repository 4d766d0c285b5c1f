//! What the owner, the servers and all spawners share under their lock: the jobs that wait, who may hand in
//! more, and which servers wait.
//!
//! Its laws stand in the type. If a server waits, at least as many servers are notified as jobs wait, and no
//! server waits once all is done.
ghost use Rattle.std.specs.Prelude.{◌≡◌, ◌≤◌, ◌+◌, [], IfOk, false, length, true};
ghost use Rattle.async_utilities.specs.Jobs.{IsDone, most};
ghost use Rattle.async_utilities.specs.WaitQueue.{IsServed};

use crate::channels::Unsent;
use crate::due::{Due, Left};
use crate::wait_queue::{AllDue, WaitQueue};
use std::alloc::{AllocError, Global};
use std::collections::VecDeque;
use std::mem::replace;

/// The jobs that wait, first to last, and who takes them. W is the waker of a server.
#[derive(Drop)]
pub(crate) struct JobQueue<J, W> {
    jobs: VecDeque<J>,
    room: usize,
    // How many may hand in jobs beside those that wait: the owner, and each server that has a job.
    givers: usize,
    servers: usize,
    waiters: WaitQueue<W>,
    ghost fits: { length jobs.items ≤ room },
    ghost countable: { length jobs.items + givers ≤ most },
    ghost told: { IsServed (length jobs.items) waiters },
    ghost nobody_waits: { IsDone jobs.items givers → waiters.waiting ≡ [] },
}

impl<J: Drop, W: Drop> JobQueue<J, W> {
    ghost use Rattle.async_utilities.specs.JobSteps.{Ends, EndsOne, Gives, Joins, Parts, Rests, Takes, is_last, room_of};

    /// No job, and nobody but the owner may hand one in. There is memory for the places of so many servers,
    /// and for as many jobs as have room. `None` is as many as there is memory for.
    pub(crate) fn new(
        alloc: Global,
        servers: usize,
        room: Option<usize>,
    ) -> Result<Self, AllocError>
        ensures none { IfOk result (λ queue. queue.jobs.items ≡ []) }
        ensures owner { IfOk result (λ queue. queue.givers ≡ 1) }
        ensures servers { IfOk result (λ queue. queue.servers ≡ servers) }
        ensures room { IfOk result (λ queue. queue.room ≡ room_of room) }
    {
        let mut waiters = WaitQueue::new(alloc);
        waiters.reserve(servers)?;
        Ok(JobQueue {
            jobs: VecDeque::with_capacity(alloc, room.unwrap_or(0))?,
            room: room.unwrap_or(usize::MAX),
            givers: 1,
            servers,
            waiters,
        })
    }

    /// Under the lock of the jobs: the place of a server, at which it does not wait yet.
    pub(crate) fn join(&mut self) -> Result<usize, AllocError>
        ensures { Joins self.old result self.new }
    {
        self.waiters.join()
    }

    /// Under the lock of the jobs: puts one behind the others, and has the first server that waits be
    /// woken. Else the job comes back, and nothing changes.
    pub(crate) fn give(&mut self, job: J) -> Result<Due<W>, Unsent<J>>
        ensures { Gives self.old job result self.new }
    {
        if self.servers == 0 || self.is_last(false) {
            return Err(Unsent::Closed(job));
        }
        if self.jobs.len() >= self.room {
            return Err(Unsent::Full(job));
        }
        if self.givers >= usize::MAX - self.jobs.len() {
            return Err(Unsent::Refused(job));
        }
        if self.jobs.reserve(1).is_err() {
            return Err(Unsent::Refused(job));
        }
        self.jobs.push_back_reserved(job);
        Ok(self.waiters.notify(self.jobs.len()))
    }

    /// Under the lock of the jobs: takes the first, if there is one, for the server of this place. It is
    /// counted from now on, and waits no longer: the waker that it left comes out.
    pub(crate) fn take(&mut self, is_counted: bool, place: usize) -> Option<(J, Option<W>)>
        ensures { Takes self.old is_counted place result self.new }
    {
        let job = self.jobs.pop_front()?;
        // One that is counted is among the givers.
        if !is_counted || self.givers == 0 {
            self.givers += 1;
        }
        Some((job, self.waiters.come(place)))
    }

    /// Under the lock of the jobs: whether none is left, and nobody may hand in one but the asker, if it is
    /// counted.
    pub(crate) fn is_last(&self, is_counted: bool) -> bool
        ensures { result ≡ is_last self.now is_counted }
    {
        self.jobs.is_empty() && (self.givers == 0 || (is_counted && self.givers == 1))
    }

    /// Under the lock of the jobs: has the server of this place wait for a job with this waker. It is
    /// counted no longer, and an earlier waker comes out.
    pub(crate) fn rest(&mut self, is_counted: bool, place: usize, waker: W) -> Option<W>
        requires empty { self.old.jobs.items ≡ [] }
        requires open { is_last self.old is_counted ≡ false }
        ensures { Rests self.old is_counted place waker result self.new }
    {
        if is_counted {
            self.givers -= 1;
        }
        self.waiters.wait(place, waker)
    }

    /// Under the lock of the jobs: counts one server less, and gives its place back. If it was told of a
    /// job that it did not take, the next one is.
    pub(crate) fn part(&mut self, place: usize) -> Left<W>
        ensures { Parts self.old place result self.new }
    {
        self.servers = self.servers.saturating_sub(1);
        let there = self.jobs.len();
        self.waiters.pass(Some(place), there)
    }

    /// Under the lock of the jobs: one that is counted hands in no more jobs. If all is done then, all
    /// servers that wait come out.
    pub(crate) fn end_one(&mut self, alloc: Global) -> Option<AllDue<W>>
        ensures { EndsOne self.old result self.new }
    {
        if self.is_last(true) {
            return Some(self.end_last(alloc));
        }
        self.givers = self.givers.saturating_sub(1);
        None
    }

    /// Under the lock of the jobs: the last one that was counted hands in no more jobs, and all servers
    /// that wait come out.
    pub(crate) fn end_last(&mut self, alloc: Global) -> AllDue<W>
        requires { is_last self.old true ≡ true }
        ensures { Ends self.old result self.new }
    {
        self.givers = 0;
        AllDue {
            waiters: replace(&mut self.waiters, WaitQueue::new(alloc)),
        }
    }
}
