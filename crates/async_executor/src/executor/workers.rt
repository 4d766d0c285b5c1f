//! What serves several executors at once: it runs tasks without sleeping, and sleeps without running
//! tasks.
ghost use Rattle.std.specs.Prelude.{◌≡◌, false, None, is_some, IfOk, MatchResult};
ghost use Rattle.async_executor.specs.Runs.{has_ended};
ghost use Rattle.async_executor.specs.Runs.Fixed.{fixed};

use crate::executor::Executor;
use crate::futures::SharedStorage;
use crate::runner::WorkerIn;
use crate::sleeper::SleeperIn;
use crate::waker::TaskWaker;
use executor_core::queue::RunnerError;
use executor_core::task::{Future, OutOfMemory, Wake};
use std::sync::Wait;

impl<F, W, R> Executor<F, W, R>
where
    F: Future<TaskWaker<W, R>>,
    W: Wake,
    R: Wait + Drop,
{
    /// A worker, which runs tasks as a run does, and never sleeps. Its queue is made here, and its place
    /// among the runners is reserved, and given back once it is dropped.
    ///
    /// The Rust crate has no such call.
    ///
    /// # Errors
    ///
    /// `OutOfMemory` if memory is refused, `Exhausted` if runner numbers are exhausted. All is as
    /// before.
    ///
    /// Example: `uses::works`.
    ///
    /// ```text
    /// let executor: Executor<Ready<u64>, NoopWaker, R> = Executor::new(rt.clone()?, alloc)?;
    /// executor.spawn(Ready::new(7))?.detach();
    /// let mut worker = executor.worker()?;
    /// let is_over = worker.turn();
    /// // [false, false]
    /// Ok([is_over, !executor.is_empty()])
    /// ```
    pub fn worker(&self) -> Result<Worker<'_, F, W, R>, RunnerError> {
        match self.inner.worker() {
            Ok(inner) => Ok(Worker { inner }),
            Err(error) => Err(error),
        }
    }

    /// A sleeper, which is awake. Its place among the sleepers is reserved here, and given back once it
    /// is dropped.
    ///
    /// The Rust crate has no such call.
    ///
    /// # Errors
    ///
    /// `OutOfMemory` if memory for that place is refused. All is as before.
    ///
    /// Example: `uses::sleeps_and_leaves`.
    ///
    /// ```text
    /// let executor = Executor::new(rt.clone()?, alloc)?;
    /// let mut sleeper = executor.sleeper()?;
    /// let is_asleep = sleeper.sleep(&NoopWaker)?;
    /// executor.spawn(Ready::new(7))?.detach();
    /// let was_notified = sleeper.leave();
    /// // [true, true, true]
    /// Ok([is_asleep, was_notified, sleeper.try_tick_any()])
    /// ```
    pub fn sleeper(&self) -> Result<Sleeper<'_, F, W, R>, OutOfMemory>
        ensures awake { IfOk result (λ sleeper. sleeper.inner.number ≡ None) }
        ensures own { IfOk result (λ sleeper. sleeper.inner.executor.now ≡ self.now.inner) }
    {
        let inner = self.inner.sleeper()?;
        Ok(Sleeper { inner })
    }
}

/// Runs the tasks of an executor as a run does, with a queue of its own, but that its caller decides
/// when to sleep.
///
/// When it is dropped, its tasks go to the queue that all share.
///
/// Example: `uses::works`, at `Executor::worker`.
pub struct Worker<'a, F, W, R>
where
    F: Future<TaskWaker<W, R>>,
    W: Wake,
    R: Wait + Drop,
{
    pub(crate) inner: WorkerIn<'a, SharedStorage<F, W, R>>,
    ghost goes_on: { has_ended inner.rest ≡ false },
}

impl<F, W, R> Worker<'_, F, W, R>
where
    F: Future<TaskWaker<W, R>>,
    W: Wake,
    R: Wait + Drop,
{
    /// This `Worker` runs tasks until none is found, or until a whole turn was run since the last one that
    /// was over. True says that the turn is over, so that there may be more tasks. False says that none was
    /// found, or that the last one had no successor when it ended.
    ///
    /// Example: `uses::works`, at `Executor::worker`.
    #[inline(always)]
    pub fn turn(&mut self) -> bool
        ensures { fixed self.new.inner.rest.runner ≡ fixed self.old.inner.rest.runner }
    {
        self.inner.turn()
    }
}

impl<F, W, R> Drop for Worker<'_, F, W, R>
where
    F: Future<TaskWaker<W, R>>,
    W: Wake,
    R: Wait + Drop,
{
    fn drop(self) {
        let Worker { inner } = self;
        drop(inner);
    }
}

/// A place among the sleepers of an executor, for one who runs no task while it has that place.
///
/// Who waits for several executors has a sleeper of each: it puts all of them to sleep, and once its
/// waker was woken, all of them leave before it searches for a task and runs it. So no executor's notice
/// waits for the poll of a task of another one.
///
/// Whatever a sleeper was notified of is spent by its next search, or passed on to another sleeper when it
/// is dropped.
///
/// Example: `uses::sleeps_and_leaves`, at `Executor::sleeper`, and of two executors
/// `uses::serves_two`.
pub struct Sleeper<'a, F, W, R>
where
    F: Future<TaskWaker<W, R>>,
    W: Wake,
    R: Wait + Drop,
{
    pub(crate) inner: SleeperIn<'a, SharedStorage<F, W, R>>,
}

impl<F, W, R> Sleeper<'_, F, W, R>
where
    F: Future<TaskWaker<W, R>>,
    W: Wake,
    R: Wait + Drop,
{
    /// Puts this `Sleeper` to sleep: a copy of the waker is put at the end of the list of sleepers, in place
    /// of an earlier one, and is woken once there may be a task. Then all queues are looked at. `Ok(true)`
    /// says that no task stood in any, and that it sleeps. `Ok(false)` says that one did: it runs none, and
    /// is awake.
    ///
    /// # Errors
    ///
    /// `OutOfMemory` if the copy of the waker is refused. It is awake then, and no number is in use.
    ///
    /// Example: `uses::sleeps_and_leaves`, at `Executor::sleeper`.
    pub fn sleep(&mut self, w: &W) -> Result<bool, OutOfMemory>
        ensures { MatchResult result
            (λ asleep. is_some self.new.inner.number ≡ asleep) (λ _. self.new.inner.number ≡ None) }
    {
        self.inner.sleep(w)
    }

    /// This `Sleeper` leaves the sleepers, and says whether a search is owed: it was notified, or saw a task,
    /// and has not searched since. One that is awake already stays so.
    ///
    /// Example: `uses::sleeps_and_leaves`, at `Executor::sleeper`.
    pub fn leave(&mut self) -> bool
        ensures awake { self.new.inner.number ≡ None }
        ensures told { result ≡ is_some self.new.inner.notice }
    {
        self.inner.leave()
    }

    /// This `Sleeper` leaves the sleepers, and says whether a task stands in any queue, which it leaves
    /// there: then a search is owed. If none does, this was the search that was owed.
    ///
    /// Example: `uses::looks`.
    ///
    /// ```text
    /// let executor: Executor<Ready<u64>, NoopWaker, R> = Executor::new(rt.clone()?, alloc)?;
    /// executor.spawn(Ready::new(7))?.detach();
    /// let mut sleeper = executor.sleeper()?;
    /// let has_seen = sleeper.look();
    /// sleeper.pass_on();
    /// // [true, true]
    /// Ok([has_seen, executor.try_tick()])
    /// ```
    pub fn look(&mut self) -> bool
        ensures awake { self.new.inner.number ≡ None }
        ensures told { result ≡ is_some self.new.inner.notice }
    {
        self.inner.look()
    }

    /// This `Sleeper` leaves the sleepers, and passes on what it was notified of, or the task that it saw:
    /// another sleeper may be woken in its place. Then it owes no search.
    ///
    /// Example: `uses::looks`, at `Sleeper::look`.
    pub fn pass_on(&mut self)
        ensures awake { self.new.inner.number ≡ None }
        ensures spent { self.new.inner.notice ≡ None }
    {
        self.inner.pass_on();
    }

    /// This `Sleeper` leaves the sleepers, and runs a task as `try_tick_any` of the executor does: it answers
    /// false exactly if no task stood in any queue. That is the search which it owed.
    ///
    /// Example: `uses::sleeps_and_leaves`, at `Executor::sleeper`.
    pub fn try_tick_any(&mut self) -> bool
        ensures awake { self.new.inner.number ≡ None }
        ensures spent { self.new.inner.notice ≡ None }
    {
        self.inner.try_tick_any()
    }

    /// As `try_tick_any`, and if it ran a task, it runs up to this many more, one after another. Each of these
    /// is taken as the one before it is ended, under fewer locks.
    ///
    /// Example: `uses::helps`.
    ///
    /// ```text
    /// let executor: Executor<Ready<u64>, NoopWaker, R> = Executor::new(rt.clone()?, alloc)?;
    /// for number in 0..3 {
    ///     executor.spawn(Ready::new(number))?.detach();
    /// }
    /// let mut sleeper = executor.sleeper()?;
    /// // [true, true, false]
    /// Ok([sleeper.help(1), sleeper.help(5), sleeper.help(5)])
    /// ```
    pub fn help(&mut self, more: u32) -> bool
        ensures awake { self.new.inner.number ≡ None }
        ensures spent { self.new.inner.notice ≡ None }
    {
        self.inner.help(more)
    }
}

impl<F, W, R> Drop for Sleeper<'_, F, W, R>
where
    F: Future<TaskWaker<W, R>>,
    W: Wake,
    R: Wait + Drop,
{
    fn drop(self) {
        let Sleeper { inner } = self;
        drop(inner);
    }
}
