//! Threads that run the tasks of one executor until they are told to stop.
ghost use Rattle.std.specs.Prelude.{◌≡◌, ◌≢◌, IfOk, IfErr, vec_len};
ghost use Rattle.std.specs.Arc.{arc_value};
ghost use Rattle.executor_core.specs.Limits.{default_limits};
ghost use Rattle.async_executor.specs.RunError.{run_cause};
ghost use Rattle.async_utilities.specs.ErrorKinds.{run_refusal};
ghost use Rattle.async_utilities.specs.declared.pooling.PoolError.TheVariants.{OutOfMemory, NoThread};

pub(crate) mod beginning;
pub(crate) mod threads;

use crate::blocking::ThreadWaker;
use crate::signals::Waiting;
use async_executor::{Executor, Future, OutOfMemory, RunError, TaskWaker};
pub use beginning::{Done, PoolThread};
use std::alloc::{AllocError, Global};
use std::sync::Wait;
use std::thread::Threads;
use thiserror::Error;
pub use threads::{Driven, PoolOf};

/// Why there is no pool, or why one of its threads ended before it was told to.
///
/// Example: `uses::drives_in_turns`, at `PoolOf`, where `?` makes an `io::Error` of it.
#[derive(Debug, Clone, Copy, PartialEq, Eq, Error)]
pub enum PoolError {
    /// Memory was refused.
    #[error("out of memory")]
    OutOfMemory,
    /// Every runner number was given.
    #[error("runner numbers are exhausted")]
    Exhausted,
    /// A thread cannot be started.
    #[error("cannot start a thread")]
    NoThread,
}

impl From<AllocError> for PoolError {
    ghost from_gives = { λ _ e. e ≡ OutOfMemory };

    fn from(_error: AllocError) -> PoolError {
        PoolError::OutOfMemory
    }
}

impl From<OutOfMemory> for PoolError {
    ghost from_gives = { λ _ e. e ≡ OutOfMemory };

    fn from(_error: OutOfMemory) -> PoolError {
        PoolError::OutOfMemory
    }
}

impl<G: Drop> From<RunError<G>> for PoolError {
    ghost from_gives = { λ error e. e ≡ run_refusal (run_cause error) };

    fn from(error: RunError<G>) -> PoolError {
        match error {
            RunError::OutOfMemory(_) => PoolError::OutOfMemory,
            RunError::Exhausted(_) => PoolError::Exhausted,
        }
    }
}

/// Threads that each drive a run of one executor, and park while it has nothing to do, until the pool
/// is joined or dropped. Its drop tells them to stop, and waits for them: a task that never returns
/// from a poll keeps it waiting. Tasks that are left then are dropped with the executor.
///
/// Example: `uses::joins`.
///
/// ```text
/// let pool: Pool<Ready<u64>, R> = Pool::new(rt.clone()?, alloc, 4)?;
/// let mut tasks = Vec::new(alloc);
/// let futures = (1..1_001).map(|number| Ready::new(number));
/// pool.executor().spawn_many(futures, &mut tasks)?;
/// let all = JoinAll::new(alloc, tasks)?;
/// let mut total = 0u64;
/// for output in block_on(rt, alloc, all)? {
///     total = total.saturating_add(output?);
/// }
/// // 500,500
/// Ok(total)
/// ```
#[derive(Drop)]
pub struct Pool<F, R>
where
    F: Future<TaskWaker<ThreadWaker, R>> + Send + 'static,
    F::Output: Send + 'static,
    R: Wait + Threads + Clone + Drop + Send + Sync + 'static,
{
    pub(crate) inner: PoolOf<Executor<F, ThreadWaker, R>, R>,
}

impl<F, R> Driven<R> for Executor<F, ThreadWaker, R>
where
    F: Future<TaskWaker<ThreadWaker, R>>,
    R: Wait + Drop,
{
    fn drive(
        &self,
        _number: usize,
        stopped: Waiting<ThreadWaker, R>,
        thread: PoolThread<'_, R>,
    ) -> Result<Done, PoolError>
        ensures refused { IfErr result (λ error. error ≢ NoThread) }
    {
        match self.run(stopped) {
            Ok(run) => thread.until_ready(run),
            Err(refused) => Err(PoolError::from(refused)),
        }
    }
}

impl<F, R> Pool<F, R>
where
    F: Future<TaskWaker<ThreadWaker, R>> + Send + 'static,
    F::Output: Send + 'static,
    R: Wait + Threads + Clone + Drop + Send + Sync + 'static,
{
    /// A `Pool`: a new `Executor`, and so many threads that run its tasks. It waits until each thread has
    /// the memory that it needs, so none of them ends before it is told to.
    ///
    /// # Errors
    ///
    /// `PoolError`. The threads that were started are stopped again.
    ///
    /// Example: `uses::joins`, at `Pool`.
    pub fn new(rt: R, alloc: Global, count: usize) -> Result<Pool<F, R>, PoolError>
        ensures count { IfOk result (λ pool. vec_len pool.inner.started.threads ≡ count) }
        ensures limits { IfOk result
            (λ pool. (arc_value pool.inner.executor).inner.limits ≡ default_limits) }
    {
        let executor = Executor::new(rt.clone()?, alloc)?;
        let inner = PoolOf::new(rt, alloc, count, executor)?;
        Ok(Pool { inner })
    }

    /// The `Executor` of this `Pool`, to spawn tasks on.
    ///
    /// Example: `uses::joins`, at `Pool`.
    pub fn executor(&self) -> &Executor<F, ThreadWaker, R>
        ensures { result.now ≡ arc_value self.now.inner.executor }
    {
        self.inner.executor()
    }

    /// Tells the threads of this `Pool` to stop, waits for them, and says what came of each, in the order
    /// in which they were started. Each began with all that it needs, so it is `Ok`.
    ///
    /// Example: `uses::winds_up`.
    pub fn join(self) -> Vec<Result<(), PoolError>>
        ensures { vec_len result ≡ vec_len self.inner.started.threads }
    {
        let Pool { inner } = self;
        inner.join()
    }
}
