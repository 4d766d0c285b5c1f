//! Threads that run the tasks of all levels of urgency.
ghost use Rattle.std.specs.Prelude.{◌≡◌, ◌≢◌, IfErr};
ghost use Rattle.async_utilities.specs.declared.pooling.PoolError.TheVariants.{NoThread};

use async_executor::{Future, TaskWaker};
use async_utilities::{Done, Driven, PoolError, PoolOf, PoolThread, ThreadWaker, Waiting};
use priority_executor::PriorityExecutor;
use std::ops::Deref;
use std::sync::Wait;

/// Threads that each drive a run of all levels of a `PriorityExecutor`: each task that they run is of the
/// lowest level that has one scheduled then. They park while none has, until the pool is joined or dropped.
///
/// Its drop tells them to stop, and waits for them: a task that never returns from a poll keeps it waiting.
/// Tasks that are left then are dropped with the executor.
///
/// N has to be a number where the pool is made, and no parameter, which the threads cannot be given.
///
/// Example: `uses::serves_by_levels`.
///
/// ```text
/// let levels = Levels::new(PriorityExecutor::new(rt.clone()?, alloc)?);
/// let pool: PriorityPool<Ready<u64>, R, 2> = PoolOf::new(rt.clone()?, alloc, 2, levels)?;
/// let mut tasks = Vec::new(alloc);
/// for request in 0..20 {
///     let level = if request % 5 == 0 { 0 } else { 1 };
///     tasks.push(pool.executor().spawn(level, Ready::new(request))?)?;
/// }
/// let mut total = 0u64;
/// for answer in block_on(rt, alloc, JoinAll::new(alloc, tasks)?)? {
///     total = total.saturating_add(answer?);
/// }
/// // 190
/// Ok(total)
/// ```
pub type PriorityPool<F, R, const N: usize> = PoolOf<Levels<F, R, N>, R>;

/// What the threads of a `PriorityPool` drive. It derefs to the executor, to spawn tasks on.
///
/// Example: `uses::serves_by_levels`, at `PriorityPool`.
#[derive(Drop)]
pub struct Levels<F, R, const N: usize>
where
    F: Future<TaskWaker<ThreadWaker, R>>,
    R: Wait + Drop,
{
    executor: PriorityExecutor<F, ThreadWaker, R, N>,
}

impl<F, R, const N: usize> Levels<F, R, N>
where
    F: Future<TaskWaker<ThreadWaker, R>>,
    R: Wait + Drop,
{
    /// What a `PriorityPool` drives: the levels of this executor.
    ///
    /// Example: `uses::serves_by_levels`, at `PriorityPool`.
    pub fn new(executor: PriorityExecutor<F, ThreadWaker, R, N>) -> Levels<F, R, N>
        ensures { result.executor ≡ executor }
    {
        Levels { executor }
    }
}

impl<F, R, const N: usize> Deref for Levels<F, R, N>
where
    F: Future<TaskWaker<ThreadWaker, R>>,
    R: Wait + Drop,
{
    type Target = PriorityExecutor<F, ThreadWaker, R, N>;

    ghost deref_gives = { λ levels executor. executor ≡ levels.executor };

    fn deref(&self) -> &PriorityExecutor<F, ThreadWaker, R, N> {
        &self.executor
    }
}

impl<F, R, const N: usize> Driven<R> for Levels<F, R, N>
where
    F: Future<TaskWaker<ThreadWaker, R>>,
    R: Wait + Drop,
{
    fn drive(
        &self,
        _number: usize,
        stopped: Waiting<ThreadWaker, R>,
        thread: PoolThread<'_, R>,
    ) -> Result<Done, PoolError>
        ensures refused { IfErr result (λ error. error ≢ NoThread) }
    {
        thread.until_ready(self.executor.run(stopped)?)
    }
}
