//! A worker: what a run does between two polls of its own future, for one who decides by itself when it
//! sleeps.
//!
//! It takes the steps of a run, but that it polls no own future and never stands among the sleepers:
//! where a run would go to sleep or yield, it tells its caller which of both.
ghost use Rattle.std.specs.Prelude.{◌≡◌, true, false, [], IfOk};
ghost use Rattle.executor_core.specs.Limits.{is_lawful};
ghost use Rattle.async_executor.specs.Runs.{has_ended, new_rest};
ghost use Rattle.async_executor.specs.Runs.Fixed.{fixed};

use crate::futures::Storage;
use crate::machine::{
    Begun, Dropped, RandomGenerator, RunMachine, RunRest, Runner, Search, Searching, Unregistering,
};
use crate::runner::run::{Driver, Own, register};
use crate::scheduler::ExecutorIn;
use crate::sleeping::{announce_found, leave};
use crate::state::announce;
use executor_core::limits::Limits;
use executor_core::queue::{Ring, RunnerError, RunnerKey};

/// A worker of an executor, which it borrows. Between its turns it keeps its rest and what is its own.
pub struct WorkerIn<'a, S: Storage> {
    executor: &'a ExecutorIn<S>,
    rest: RunRest,
    own: Own<()>,
}

impl<S: Storage> ExecutorIn<S> {
    /// `Executor::worker`, for both kinds of storage: makes its queue, and reserves a runner's place.
    pub(crate) fn worker(&self) -> Result<WorkerIn<'_, S>, RunnerError>
        ensures { IfOk result (λ worker. has_ended worker.rest ≡ false) }
    {
        let state = self.storage.state();
        let Ok(ring) = Ring::new(state.alloc(), self.limits.local) else {
            return Err(RunnerError::OutOfMemory);
        };
        let reserved = state.cells().reserve_runner();
        match reserved {
            Ok(key) => Ok(WorkerIn::new(self, key, self.limits, ring)),
            Err(error) => Err(error),
        }
    }
}

impl<'a, S: Storage> WorkerIn<'a, S> {
    // A worker that had no turn yet, with these limits. It has a reserved place among the runners, and
    // the empty queue of its runner.
    fn new(
        executor: &'a ExecutorIn<S>,
        key: RunnerKey,
        limits: Limits,
        ring: Ring,
    ) -> WorkerIn<'a, S>
        requires empty { ring.ids ≡ [] }
        requires lawful { is_lawful limits ≡ true }
        ensures { result.rest ≡ new_rest key limits }
    {
        let own = Own {
            future: None,
            ring: Some(ring),
            random: RandomGenerator::new(key.number()),
        };
        WorkerIn {
            executor,
            rest: RunMachine::new_with(key, limits),
            own,
        }
    }
}

// Runs tasks of a worker until none is found or the turn is over, and says whether it is.
fn run_turn<S: Storage>(
    executor: &ExecutorIn<S>,
    search: Search,
    own: &mut Own<()>,
    searching: Searching<Runner>,
) -> (RunRest, bool)
    ensures fixed { fixed result.0.runner ≡ fixed searching.actor }
    ensures goes_on { has_ended result.0 ≡ false }
{
    let state = executor.storage.state();
    let mut driver = Driver {
        executor,
        state,
        search,
        own,
        out: None,
    };
    let Some(next) = driver.search(None) else {
        return (searching.empty().stay_awake(), false);
    };
    let running = announce_found(state, searching.found_next(next));
    match driver.run_tasks(running) {
        Ok(going) => (going.stay_awake(), false),
        Err(over) => (over.stay_awake(), true),
    }
}

// Ends the queue of a worker, which never slept, and passes on what stood in it.
fn end<S: Storage>(executor: &ExecutorIn<S>, unregistering: Unregistering) {
    let state = executor.storage.state();
    let mut cells = state.cells();
    let (notice, left) = unregistering.make(&mut cells);
    drop(cells);
    if let Some(notice) = notice {
        announce!(state, notice);
    }
    leave(state, left.depart()).end();
}

impl<S: Storage> WorkerIn<'_, S> {
    /// `Worker::turn`, for both kinds of storage: runs tasks until none is found or a turn is over, and says
    /// whether it is.
    pub(crate) fn turn(&mut self) -> bool
        requires { has_ended self.old.rest ≡ false }
        ensures fixed { fixed self.new.rest.runner ≡ fixed self.old.rest.runner }
        ensures goes_on { has_ended self.new.rest ≡ false }
    {
        let executor = self.executor;
        let own = &mut self.own;
        let search = self.rest.search();
        let polling = match self.rest.begin() {
            Begun::PollOwn(polling) => polling,
            Begun::Register(registering) => match register(executor, own, registering) {
                Ok(polling) => polling,
                Err(refused) => {
                    self.rest = refused.keep();
                    return false;
                }
            },
        };
        let (rest, is_over) = run_turn(executor, search, own, polling.go_on());
        self.rest = rest;
        is_over
    }
}

impl<S: Storage> Drop for WorkerIn<'_, S> {
    fn drop(self) {
        let WorkerIn {
            executor,
            rest,
            own: _,
        } = self;
        if rest.is_ended() {
            return;
        }
        match rest.depart() {
            Dropped::Unregister(unregistering) => end(executor, unregistering),
            Dropped::Release(releasing) => {
                let mut cells = executor.storage.state().cells();
                releasing.make(&mut cells).end();
            }
        }
    }
}
