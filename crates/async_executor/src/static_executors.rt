//! Executors for as long as a program lives: their drop cancels nothing.
//!
//! Each holds an executor and lends it: every call but the drop and the text is that of the executor.
ghost use Rattle.std.specs.Prelude.{◌≡◌, ◌↔◌, false, IfOk, IfErr, IsErr};
ghost use Rattle.executor_core.specs.Limits.{is_lawful, default_limits};
ghost use Rattle.executor_core.specs.declared.limits.NewError.TheVariants as NewError;

use crate::executor::Executor;
use crate::local_executor::LocalExecutor;
use crate::waker::TaskWaker;
use executor_core::limits::{Limits, NewError};
use executor_core::task::{Future, OutOfMemory, Wake};
use std::alloc::Global;
use std::ops::Deref;
use std::sync::Wait;

/// An `Executor` for as long as the program lives: a borrow of it may be lent to threads, and its drop
/// cancels nothing. It stands for the `StaticExecutor` of the Rust crate.
///
/// If it is dropped, no task runs any more, and those that are left are not cancelled: their handles
/// stay pending. What is left of them is let go with the last handle.
///
/// Example: `uses::outlasts`.
///
/// ```text
/// let server = StaticExecutor::new(rt.clone()?, alloc)?;
/// let mut task = server.spawn(Ready::new(7))?;
/// drop(server);
/// // Pending
/// Ok(task.poll(&NoopWaker))
/// ```
pub struct StaticExecutor<F, W, R>
where
    F: Future<TaskWaker<W, R>>,
    W: Wake,
    R: Wait + Drop,
{
    pub(crate) executor: Executor<F, W, R>,
}

impl<F, W, R> Executor<F, W, R>
where
    F: Future<TaskWaker<W, R>>,
    W: Wake,
    R: Wait + Drop,
{
    /// The same executor, for as long as the program lives: its drop cancels nothing. Every task is
    /// woken, and the idle ones are scheduled by rising slot, behind all that are. Otherwise all goes on as
    /// it was: the queues and the numbers, and the handles and the wakers that were made before. It
    /// takes no memory.
    ///
    /// Example: `uses::leaks`, and on several threads `uses::serves`.
    ///
    /// ```text
    /// let executor: Executor<Ready<u64>, NoopWaker, R> = Executor::new(rt.clone()?, alloc)?;
    /// executor.spawn(Ready::new(1))?.detach();
    /// let server = executor.leak();
    /// server.spawn(Ready::new(2))?.detach();
    /// // [true, true]
    /// Ok([server.try_tick(), server.try_tick()])
    /// ```
    pub fn leak(self) -> StaticExecutor<F, W, R>
        ensures { result.executor ≡ self }
    {
        self.inner.wake_all();
        StaticExecutor { executor: self }
    }
}

impl<F, W, R> StaticExecutor<F, W, R>
where
    F: Future<TaskWaker<W, R>> + Send,
    F::Output: Send,
    W: Wake + Send,
    R: Wait + Drop + Send + Sync,
{
    /// A `StaticExecutor`, made as by `Executor::new`.
    ///
    /// # Errors
    ///
    /// `OutOfMemory` if memory for what the executor shares is refused.
    ///
    /// Example: `uses::outlasts`, at `StaticExecutor`.
    pub fn new(rt: R, alloc: Global) -> Result<Self, OutOfMemory>
        ensures { IfOk result (λ server. server.executor.inner.limits ≡ default_limits) }
    {
        let executor = Executor::new(rt, alloc)?;
        Ok(StaticExecutor { executor })
    }

    /// A `StaticExecutor`, made as by `Executor::new_with`.
    ///
    /// # Errors
    ///
    /// `BadLimits` exactly if a limit is not in its range, before memory is asked for. Else
    /// `OutOfMemory`, if memory for what the executor shares is refused.
    ///
    /// Example: `uses::limits_for_good`.
    ///
    /// ```text
    /// let limits = Limits {
    ///     turn: 1,
    ///     ..Limits::default()
    /// };
    /// let server = StaticExecutor::new_with(rt.clone()?, alloc, limits)?;
    /// server.spawn(Ready::new(7))?.detach();
    /// let mut run = server.run(Never::<()>::new())?;
    /// run.poll(&NoopWaker);
    /// // true
    /// Ok(server.is_empty())
    /// ```
    pub fn new_with(rt: R, alloc: Global, limits: Limits) -> Result<Self, NewError>
        ensures ok { IfOk result (λ server. server.executor.inner.limits ≡ limits) }
        ensures cause { IfErr result
            (λ error. (error ≡ NewError.BadLimits) ↔ (is_lawful limits ≡ false)) }
        ensures bad { is_lawful limits ≡ false → IsErr result }
    {
        match Executor::new_with(rt, alloc, limits) {
            Ok(executor) => Ok(StaticExecutor { executor }),
            Err(error) => Err(error),
        }
    }
}

impl<F, W, R> Deref for StaticExecutor<F, W, R>
where
    F: Future<TaskWaker<W, R>>,
    W: Wake,
    R: Wait + Drop,
{
    type Target = Executor<F, W, R>;

    ghost deref_gives = { λ server executor. executor ≡ server.executor };

    #[inline(always)]
    fn deref(&self) -> &Executor<F, W, R> {
        &self.executor
    }
}

impl<F, W, R> Drop for StaticExecutor<F, W, R>
where
    F: Future<TaskWaker<W, R>>,
    W: Wake,
    R: Wait + Drop,
{
    // The drop of the executor itself would cancel every task.
    fn drop(self) {
        let StaticExecutor { executor } = self;
        executor.let_go();
    }
}

/// A `LocalExecutor` for as long as the program lives. It stays on its thread, and its drop is that of
/// `StaticExecutor`. It stands for the `StaticLocalExecutor` of the Rust crate.
///
/// Example: `uses::outlasts_locally`.
///
/// ```text
/// let server = StaticLocalExecutor::new(rt.clone()?, alloc)?;
/// let mut task = server.spawn(Ready::new(7))?;
/// drop(server);
/// // Pending
/// Ok(task.poll(&NoopWaker))
/// ```
pub struct StaticLocalExecutor<F, W, R>
where
    F: Future<TaskWaker<W, R>>,
    W: Wake,
    R: Wait + Drop,
{
    pub(crate) executor: LocalExecutor<F, W, R>,
}

impl<F, W, R> LocalExecutor<F, W, R>
where
    F: Future<TaskWaker<W, R>>,
    W: Wake,
    R: Wait + Drop,
{
    /// As `Executor::leak`: a `StaticLocalExecutor`.
    ///
    /// Example: `uses::leaks_locally`.
    ///
    /// ```text
    /// let executor: LocalExecutor<Ready<u64>, NoopWaker, R> = LocalExecutor::new(rt.clone()?, alloc)?;
    /// executor.spawn(Ready::new(1))?.detach();
    /// let server = executor.leak();
    /// server.spawn(Ready::new(2))?.detach();
    /// // [true, true]
    /// Ok([server.try_tick(), server.try_tick()])
    /// ```
    pub fn leak(self) -> StaticLocalExecutor<F, W, R>
        ensures { result.executor ≡ self }
    {
        self.inner.wake_all();
        StaticLocalExecutor { executor: self }
    }
}

impl<F, W, R> StaticLocalExecutor<F, W, R>
where
    F: Future<TaskWaker<W, R>>,
    W: Wake,
    R: Wait + Drop,
{
    /// A `StaticLocalExecutor`, made as by `LocalExecutor::new`.
    ///
    /// # Errors
    ///
    /// `OutOfMemory` if memory for what the executor shares is refused.
    ///
    /// Example: `uses::outlasts_locally`, at `StaticLocalExecutor`.
    pub fn new(rt: R, alloc: Global) -> Result<Self, OutOfMemory>
        ensures { IfOk result (λ server. server.executor.inner.limits ≡ default_limits) }
    {
        let executor = LocalExecutor::new(rt, alloc)?;
        Ok(StaticLocalExecutor { executor })
    }

    /// A `StaticLocalExecutor`, made as by `LocalExecutor::new_with`.
    ///
    /// # Errors
    ///
    /// `BadLimits` exactly if a limit is not in its range, before memory is asked for. Else
    /// `OutOfMemory`, if memory for what the executor shares is refused.
    ///
    /// Example: `uses::limits_locally_for_good`.
    ///
    /// ```text
    /// let limits = Limits {
    ///     turn: 1,
    ///     ..Limits::default()
    /// };
    /// let server = StaticLocalExecutor::new_with(rt.clone()?, alloc, limits)?;
    /// server.spawn(Ready::new(7))?.detach();
    /// let mut run = server.run(Never::<()>::new())?;
    /// run.poll(&NoopWaker);
    /// // true
    /// Ok(server.is_empty())
    /// ```
    pub fn new_with(rt: R, alloc: Global, limits: Limits) -> Result<Self, NewError>
        ensures ok { IfOk result (λ server. server.executor.inner.limits ≡ limits) }
        ensures cause { IfErr result
            (λ error. (error ≡ NewError.BadLimits) ↔ (is_lawful limits ≡ false)) }
        ensures bad { is_lawful limits ≡ false → IsErr result }
    {
        match LocalExecutor::new_with(rt, alloc, limits) {
            Ok(executor) => Ok(StaticLocalExecutor { executor }),
            Err(error) => Err(error),
        }
    }
}

impl<F, W, R> Deref for StaticLocalExecutor<F, W, R>
where
    F: Future<TaskWaker<W, R>>,
    W: Wake,
    R: Wait + Drop,
{
    type Target = LocalExecutor<F, W, R>;

    ghost deref_gives = { λ server executor. executor ≡ server.executor };

    #[inline(always)]
    fn deref(&self) -> &LocalExecutor<F, W, R> {
        &self.executor
    }
}

impl<F, W, R> Drop for StaticLocalExecutor<F, W, R>
where
    F: Future<TaskWaker<W, R>>,
    W: Wake,
    R: Wait + Drop,
{
    // As that of `StaticExecutor`.
    fn drop(self) {
        let StaticLocalExecutor { executor } = self;
        executor.let_go();
    }
}
