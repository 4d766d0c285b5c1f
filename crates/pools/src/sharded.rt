//! Threads that each run the tasks of one shard, and help the others.
ghost use Rattle.std.specs.Prelude.{◌≡◌, ◌≢◌, ◌<◌, IfOk, IfErr, vec_len};
ghost use Rattle.std.specs.Arc.{arc_value};
ghost use Rattle.async_utilities.specs.declared.pooling.PoolError.TheVariants.{NoThread};

use async_executor::{Future, TaskWaker};
use async_utilities::{Done, Driven, PoolError, PoolOf, PoolThread, ThreadWaker, Waiting};
use sharded_executor::ShardedExecutor;
use std::alloc::Global;
use std::sync::Wait;
use std::thread::Threads;

/// As many threads as a `ShardedExecutor` has shards, each of which drives a run of its own shard, helps the
/// others if that has nothing left, and parks while none has, until the pool is joined or dropped.
///
/// Its drop tells them to stop, and waits for them: a task that never returns from a poll keeps it waiting.
/// Tasks that are left then are dropped with the executor.
///
/// Example: `uses::sums_on_shards`.
///
/// ```text
/// let pool: ShardedPool<Ready<u64>, R> = ShardedPool::new(rt.clone()?, alloc, 4)?;
/// let mut tasks = Vec::new(alloc);
/// for number in 1..1_001 {
///     tasks.push(pool.executor().spawn(Ready::new(number))?)?;
/// }
/// let total = total_of(rt, alloc, tasks)?;
/// for ended in pool.join() {
///     ended?;
/// }
/// // 500,500
/// Ok(total)
/// ```
#[derive(Drop)]
pub struct ShardedPool<F, R>
where
    F: Future<TaskWaker<ThreadWaker, R>> + Send + 'static,
    F::Output: Send + 'static,
    R: Wait + Threads + Clone + Drop + Send + Sync + 'static,
{
    inner: PoolOf<Shards<F, R>, R>,
}

// What the threads drive: thread i a run of shard i.
#[derive(Drop)]
struct Shards<F, R>
where
    F: Future<TaskWaker<ThreadWaker, R>>,
    R: Wait + Drop,
{
    executor: ShardedExecutor<F, ThreadWaker, R>,
}

impl<F, R> Driven<R> for Shards<F, R>
where
    F: Future<TaskWaker<ThreadWaker, R>>,
    R: Wait + Drop,
{
    fn drive(
        &self,
        number: usize,
        stopped: Waiting<ThreadWaker, R>,
        thread: PoolThread<'_, R>,
    ) -> Result<Done, PoolError>
        ensures refused { IfErr result (λ error. error ≢ NoThread) }
    {
        let shard = number % self.executor.shards();
        thread.until_ready(self.executor.run(shard, stopped)?)
    }
}

impl<F, R> ShardedPool<F, R>
where
    F: Future<TaskWaker<ThreadWaker, R>> + Send + 'static,
    F::Output: Send + 'static,
    R: Wait + Threads + Clone + Drop + Send + Sync + 'static,
{
    /// A new executor of so many shards, and as many threads that run its tasks. It waits until each thread
    /// has the memory that it needs, so none of them ends before it is told to.
    ///
    /// # Errors
    ///
    /// `PoolError`. The threads that were started are stopped again.
    ///
    /// Example: `uses::sums_on_shards`, at `ShardedPool`.
    pub fn new(rt: R, alloc: Global, count: usize) -> Result<ShardedPool<F, R>, PoolError>
        requires { 0 < count }
        ensures threads { IfOk result (λ pool. vec_len pool.inner.started.threads ≡ count) }
        ensures shards { IfOk result
            (λ pool. vec_len (arc_value pool.inner.executor).executor.shards ≡ count) }
    {
        let executor = ShardedExecutor::new(rt.clone()?, alloc, count)?;
        let inner = PoolOf::new(rt, alloc, count, Shards { executor })?;
        Ok(ShardedPool { inner })
    }

    /// The sharded executor, to spawn tasks on.
    ///
    /// Example: `uses::sums_on_shards`, at `ShardedPool`.
    pub fn executor(&self) -> &ShardedExecutor<F, ThreadWaker, R>
        ensures { result.now ≡ (arc_value self.now.inner.executor).executor }
    {
        &self.inner.executor().executor
    }

    /// Tells the threads of a `ShardedPool` to stop, waits for them, and says what came of each, in the order
    /// in which they were started. Each began with all that it needs, so it is `Ok`.
    ///
    /// Example: `uses::sums_on_shards`, at `ShardedPool`.
    pub fn join(self) -> Vec<Result<(), PoolError>>
        ensures { vec_len result ≡ vec_len self.inner.started.threads }
    {
        let ShardedPool { inner } = self;
        inner.join()
    }
}
