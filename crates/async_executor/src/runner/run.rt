//! The future that goes the steps of a run.
//!
//! No lock is held while a future is polled or dropped, or a waker is copied, woken or dropped. One
//! poll of a task takes each lock once: the task that was polled is ended and the next one is taken
//! in one change. If the end leaves something to drop or to wake, that is done first, and the
//! search is a change of its own, unless no task was scheduled then.
ghost use Rattle.std.specs.Prelude.{◌≡◌, [], true, false, Some, None, IsTrue, IfOk, IfErr, MatchResult};
ghost use Rattle.executor_core.specs.Limits.{is_lawful};
ghost use Rattle.async_executor.specs.RunError.{run_cause, run_future};
ghost use Rattle.async_executor.specs.Answers.{is_ready};
ghost use Rattle.async_executor.specs.Runs.{has_ended, ids_in, new_rest, IsNewRun};
ghost use Rattle.async_executor.specs.Runs.Fixed.{fixed, runner_worked};
ghost use Rattle.async_executor.specs.Deferred.{IsHeldRight, IsDeferredRight};

mod worker;

use crate::futures::transactions::{self, Deferred, EndThenSearch};
use crate::futures::{OutIn, OutputIn, Storage, futures};
use crate::machine::{
    Begun, Dropped, GoingToSleep, NextTask, NotRegistered, OwnPolled, PollingOwn, RandomGenerator,
    Registering, RunMachine, RunRest, Runner, Running, Search, Searching, Started, TurnOver,
    Unregistering,
};
use crate::poller::poll_taken;
use crate::scheduler::ExecutorIn;
use crate::sleeping::{Slept, announce_found, leave, sleep};
use crate::state::{ExecutorState, announce, cells};
use executor_core::limits::Limits;
use executor_core::queue::{Ring, RunnerError, RunnerKey};
use executor_core::task::{Again, Cells, Future, Poll, Ran, TaskId, Wake};
use std::sync::{MutexGuard, Wait};
use thiserror::Error;
pub(crate) use worker::WorkerIn;

/// Why there is no run, with the future that it was to run. Nothing else changed.
///
/// Example: `uses::helped`, which `uses::winds_up` calls.
///
/// ```text
/// match run_until(rt, alloc, executor, task) {
///     Ok(output) => output.ok(),
///     Err(refused) => {
///         refused.into_inner().detach();
///         None
///     }
/// }
/// ```
#[derive(Debug, PartialEq, Eq, Drop, Error)]
pub enum RunError<G> {
    /// A growth of memory was refused.
    #[error("out of memory")]
    OutOfMemory(G),
    /// Every runner number was given.
    #[error("runner numbers are exhausted")]
    Exhausted(G),
}

impl<G> RunError<G> {
    // The `RunError` that says why no place was reserved, with the future.
    pub(crate) fn of(error: RunnerError, future: G) -> RunError<G>
        ensures future { run_future result ≡ future }
        ensures cause { run_cause result ≡ error }
    {
        match error {
            RunnerError::OutOfMemory => RunError::OutOfMemory(future),
            RunnerError::Exhausted => RunError::Exhausted(future),
        }
    }

    /// The future of the run that was refused.
    ///
    /// Example: `uses::helped`, at `RunError`.
    pub fn into_inner(self) -> G
        ensures { result ≡ run_future self }
    {
        match self {
            RunError::OutOfMemory(future) | RunError::Exhausted(future) => future,
        }
    }
}

/// A run of an executor, which it borrows. Between its polls it keeps its rest and what is its own.
pub struct RunIn<'a, S: Storage, G: Future<S::Waker>> {
    executor: &'a ExecutorIn<S>,
    rest: RunRest,
    own: Own<G>,
}

// The future beside which a run runs tasks, until it has ended; the queue of its runner, until that
// is registered; and the random numbers of its searches.
#[derive(Drop)]
struct Own<G> {
    future: Option<G>,
    ring: Option<Ring>,
    random: RandomGenerator,
    ghost empty: { ids_in ring ≡ [] },
}

impl<S: Storage> ExecutorIn<S> {
    /// `Executor::run`, for both kinds of storage: a future that runs tasks beside this one. The queue of its
    /// runner is made here, and a sleeper's and a runner's place are reserved. What was made before a refusal
    /// is given back.
    pub(crate) fn run<G: Future<S::Waker>>(&self, future: G) -> Result<RunIn<'_, S, G>, RunError<G>>
        ensures ok { IfOk result (λ run. has_ended run.rest ≡ false) }
        ensures limits { IfOk result (λ run. IsNewRun self.now.limits run.rest run.own.ring) }
        ensures refused { IfErr result (λ e. run_future e ≡ future) }
    {
        let state = self.storage.state();
        let Ok(ring) = Ring::new(state.alloc(), self.limits.local) else {
            return Err(RunError::OutOfMemory(future));
        };
        // Before the runner's place: no number is given twice, so one that is refused later is lost.
        if state.reserve_sleeper().is_err() {
            return Err(RunError::OutOfMemory(future));
        }
        let reserved = state.cells().reserve_runner();
        match reserved {
            Ok(key) => Ok(RunIn::new(self, key, self.limits, ring, future)),
            Err(error) => {
                state.release_sleeper();
                Err(RunError::of(error, future))
            }
        }
    }
}

impl<'a, S: Storage, G: Future<S::Waker>> RunIn<'a, S, G> {
    // A `RunIn` that was never polled, with these limits. It has reserved places among the sleepers and the
    // runners, and the empty queue of its runner.
    fn new(
        executor: &'a ExecutorIn<S>,
        key: RunnerKey,
        limits: Limits,
        ring: Ring,
        future: G,
    ) -> RunIn<'a, S, G>
        requires empty { ring.ids ≡ [] }
        requires lawful { is_lawful limits ≡ true }
        ensures rest { result.rest ≡ new_rest key limits }
        ensures ring { result.own.ring ≡ Some ring }
    {
        let own = Own {
            future: Some(future),
            ring: Some(ring),
            random: RandomGenerator::new(key.number()),
        };
        RunIn {
            executor,
            rest: RunMachine::new_with(key, limits),
            own,
        }
    }
}

// What a poll of a run works with, and the future of a task that was found.
#[derive(Drop)]
struct Driver<'x, 'y, S: Storage, G: Drop> {
    executor: &'x ExecutorIn<S>,
    // The executor's state, kept here to save an indirection.
    state: &'x ExecutorState<S::Waker, S::Runtime>,
    search: Search,
    own: &'y mut Own<G>,
    out: OutIn<S>,
}

impl<'x, 'y, S: Storage, G: Drop> Driver<'x, 'y, S, G> {
    // Searches for a task of a run, and takes its future out. Each search takes one word. One in vain does
    // not ask for the futures.
    #[inline(always)]
    fn search(&mut self, again: Option<Again>) -> Option<NextTask> {
        let own = &mut *self.own;
        // The table's lock alone: that of the futures is taken once there is a task.
        let word = own.random.next();
        let found = self.search.make(&mut *cells!(self.state), word, again);
        if let Some(next) = &found {
            // Nobody else takes the future of a task that was taken, and no other one is out.
            let mut futures = futures!(&self.executor.storage);
            self.out = futures.get().take(next.id());
        }
        found
    }

    // Runs the task that a run found, and those after it, until none is found or the turn is over. It is
    // asked whether a search follows before a task is ended, so that both are one change.
    fn run_tasks(&mut self, running: Running<Runner>) -> Result<GoingToSleep<Runner>, TurnOver>
        ensures { fixed (runner_worked result) ≡ fixed running.actor }
    {
        let mut running = running;
        for _ in self.state.rt().forever() {
            let (under_way, taken) = match running.start() {
                Started::Run(under_way, taken) => (under_way, taken),
                Started::Share(sharing) => {
                    let mut cells = cells_for_a_share(self.executor);
                    sharing.make(&mut cells)
                }
            };
            let id = taken.id();
            let ran = poll_taken(taken, &mut self.out);
            let searching = match under_way.ran() {
                Ok(searching) => searching,
                // The task is ended, and none is taken that would wait until the next poll.
                Err(over) => {
                    self.end_last(id, ran);
                    return Err(over);
                }
            };
            match self.end_then_search(id, ran) {
                None => return Ok(searching.empty()),
                Some(next) => {
                    running = announce_found(self.state, searching.found_next(next));
                }
            }
        }
        unreachable!()
    }

    // Ends the last task of a run's turn.
    #[cold]
    #[inline(never)]
    fn end_last(&mut self, id: TaskId, ran: Ran<(), OutputIn<S>>)
        requires { IsHeldRight ran }
    {
        self.executor.end(id, ran, &mut self.out);
    }

    // Ends a run's task, and searches for the next one.
    #[inline(always)]
    fn end_then_search(&mut self, id: TaskId, ran: Ran<(), OutputIn<S>>) -> Option<NextTask>
        requires { IsHeldRight ran }
    {
        let own = &mut *self.own;
        let (storage, out, random) = (&self.executor.storage, &mut self.out, &mut own.random);
        match transactions::end_then_search(
            storage,
            self.state,
            id,
            ran,
            out,
            &self.search,
            random,
        ) {
            EndThenSearch::Searched(None, found) => found,
            EndThenSearch::Searched(Some(notice), found) => {
                announce!(self.state, notice);
                found
            }
            // What it schedules is found once the run's waker stands in the list.
            EndThenSearch::InVain(awaiter) => {
                awaiter.wake();
                None
            }
            EndThenSearch::Unfinished(deferred) => self.finish_then_search(id, deferred),
        }
    }

    // Does what the end of a task has left to do, and searches for the next one of the run. It is inline
    // around its calls, so that the room of what they are handed and give is cleared on this path alone.
    #[inline(always)]
    fn finish_then_search(
        &mut self,
        id: TaskId,
        deferred: Deferred<S::Waker, OutputIn<S>>,
    ) -> Option<NextTask>
        requires { IsDeferredRight deferred }
    {
        // Its drop and its wake come before the search: they may queue something for it, and while they run
        // others can still steal what it would take.
        self.finish(id, deferred);
        self.search_anew()
    }

    // Does what the end of a run's task has left to do.
    #[cold]
    #[inline(never)]
    fn finish(&mut self, id: TaskId, deferred: Deferred<S::Waker, OutputIn<S>>)
        requires { IsDeferredRight deferred }
    {
        self.out = None;
        self.executor.finish(id, deferred);
    }

    // Searches for a task, which a run seldom does apart from the end of the last one.
    #[cold]
    #[inline(never)]
    fn search_anew(&mut self) -> Option<NextTask> {
        self.search(None)
    }
}

// The table, for the fair part that a run takes, which is seldom due.
#[cold]
#[inline(never)]
fn cells_for_a_share<S: Storage>(
    executor: &ExecutorIn<S>,
) -> MutexGuard<'_, Cells<(), (), S::Waker>> {
    cells!(executor.storage.state())
}

// Runs tasks until none is found and the run sleeps, or its turn is over.
fn work<S: Storage, G: Drop>(
    executor: &ExecutorIn<S>,
    search: Search,
    own: &mut Own<G>,
    searching: Searching<Runner>,
    w: &S::Waker,
) -> RunRest
    ensures fixed { fixed result.runner ≡ fixed searching.actor }
    ensures goes_on { has_ended result ≡ false }
{
    let state = executor.storage.state();
    let mut driver = Driver {
        executor,
        state,
        search,
        own,
        out: None,
    };
    let mut searching = searching;
    let mut again = None;
    let mut is_listed = false;
    for _ in state.rt().forever() {
        let going = match driver.search(again) {
            None => searching.empty(),
            Some(next) => {
                let running = announce_found(state, searching.found_next(next));
                match driver.run_tasks(running) {
                    Ok(going) => going,
                    Err(over) => return over.wake(w),
                }
            }
        };
        match sleep(state, going, w, is_listed) {
            // A task that was queued before the waker stood in the list woke nobody for it.
            Slept::Again(next, change) => {
                searching = next;
                again = Some(change);
                is_listed = true;
            }
            Slept::Rested(rested) => return rested.keep(),
        }
    }
    unreachable!()
}

// Makes the run's queue that of its runner. A queue that is refused is kept.
fn register<S: Storage, G: Drop>(
    executor: &ExecutorIn<S>,
    own: &mut Own<G>,
    registering: Registering,
) -> Result<PollingOwn, NotRegistered>
    ensures { MatchResult result (λ polling. polling.runner ≡ registering.runner)
        (λ refused. refused.runner ≡ registering.runner) }
{
    let Some(ring) = own.ring.take() else {
        return Err(registering.refused());
    };
    let mut cells = executor.storage.state().cells();
    match registering.make(&mut cells, ring) {
        Ok(polling) => Ok(polling),
        Err((refused, ring)) => {
            own.ring = Some(ring);
            Err(refused)
        }
    }
}

// Ends a run and the queue of its runner, passes on what stood in it and what the run was notified of, and
// gives its places back. The own future was dropped before.
fn end<S: Storage>(executor: &ExecutorIn<S>, unregistering: Unregistering) -> RunRest
    ensures runner { result.runner ≡ unregistering.runner }
    ensures ended { has_ended result ≡ true }
{
    let state = executor.storage.state();
    let mut cells = state.cells();
    let (notice, left) = unregistering.make(&mut cells);
    drop(cells);
    if let Some(notice) = notice {
        announce!(state, notice);
    }
    // After that notice, which may notify this very run: what it was notified of goes on to another.
    let departed = leave(state, left.depart());
    state.release_sleeper();
    departed.end()
}

impl<S: Storage, G: Future<S::Waker>> RunIn<'_, S, G> {
    // Polls a run that has not ended.
    fn poll_once(&mut self, w: &S::Waker) -> Poll<G::Output>
        requires { has_ended self.old.rest ≡ false }
        ensures fixed { fixed self.new.rest.runner ≡ fixed self.old.rest.runner }
        ensures ended { has_ended self.new.rest ≡ is_ready result }
    {
        let executor = self.executor;
        let own = &mut self.own;
        let search = self.rest.search();
        let polling = match self.rest.begin() {
            Begun::PollOwn(polling) => polling,
            Begun::Register(registering) => match register(executor, own, registering) {
                Ok(polling) => polling,
                Err(refused) => {
                    self.rest = refused.wake(w);
                    return Poll::Pending;
                }
            },
        };
        match polling.poll(&mut own.future, w) {
            OwnPolled::Ready(output, unregistering) => {
                self.unregister(unregistering);
                Poll::Ready(output)
            }
            OwnPolled::Pending(searching) => {
                self.rest = work(executor, search, own, searching, w);
                Poll::Pending
            }
        }
    }

    // Ends a run whose own future was ready. It is inline around the call, so that the room of what that
    // is handed and gives is cleared on this path alone.
    #[inline(always)]
    fn unregister(&mut self, unregistering: Unregistering)
        ensures runner { self.new.rest.runner ≡ unregistering.runner }
        ensures ended { has_ended self.new.rest ≡ true }
    {
        self.rest = end(self.executor, unregistering);
    }
}

impl<S: Storage, G: Future<S::Waker>> Future<S::Waker> for RunIn<'_, S, G> {
    type Output = G::Output;

    /// Polls the own future, and if that is ready, is ready with its output. Otherwise runs tasks until
    /// none is left, or a whole turn was run since it yielded last. If none is left, a copy of the
    /// waker is kept, in place of an earlier one, and is woken once there may be a task. After a
    /// turn, or if the copy is refused, the waker itself is woken. A run that was ready wakes it
    /// and is pending, and does nothing more.
    fn poll(&mut self, w: &S::Waker) -> Poll<G::Output>
        ensures fixed { fixed self.new.rest.runner ≡ fixed self.old.rest.runner }
        ensures ended { has_ended self.old.rest ≡ false
            → has_ended self.new.rest ≡ is_ready result }
        ensures again { IsTrue (has_ended self.old.rest)
            → (self.new.rest ≡ self.old.rest) × (is_ready result ≡ false) }
    {
        // One that has ended has no second output to give.
        if self.rest.is_ended() {
            w.wake();
            return Poll::Pending;
        }
        self.poll_once(w)
    }
}

impl<S: Storage, G: Future<S::Waker>> Drop for RunIn<'_, S, G> {
    fn drop(self) {
        let RunIn {
            executor,
            rest,
            mut own,
        } = self;
        if rest.is_ended() {
            return;
        }
        // Before its queue ends: it may hold handles, whose tasks are queued as they are cancelled.
        own.future = None;
        match rest.depart() {
            Dropped::Unregister(unregistering) => {
                end(executor, unregistering);
            }
            Dropped::Release(releasing) => {
                let state = executor.storage.state();
                let mut cells = state.cells();
                let departed = releasing.make(&mut cells);
                drop(cells);
                departed.end();
                state.release_sleeper();
            }
        }
    }
}
