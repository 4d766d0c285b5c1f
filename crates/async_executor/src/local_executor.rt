//! The executor that stays on the thread that made it, with its handles, ticks and runs.
//!
//! Each of them has what is written once for both kinds of storage, of the local kind. It is a type of its own,
//! for the reason that the shared ones are. The examples stand in `uses/src/local_calls.rs`.
ghost use Rattle.std.specs.Prelude.{◌≡◌, ◌↔◌, false, IfOk, IfErr, IsErr, IfNone, vec_len, vec_capacity};
ghost use Rattle.std.specs.Iterator.{IsFinite};
ghost use Rattle.executor_core.specs.Limits.{is_lawful, default_limits};
ghost use Rattle.executor_core.specs.SpawnError.{refused_future};
ghost use Rattle.async_executor.specs.RunError.{run_future};
ghost use Rattle.async_executor.specs.Runs.{has_ended, IsNewRun};
ghost use Rattle.executor_core.specs.declared.limits.NewError.TheVariants as NewError;
ghost use Rattle.async_executor.specs.SpawnMany.{spawned, SpawnsInTurn, AddsHandles, HasPlace};

mod handles;
mod tickers;

use crate::futures::{LocalStorage, Shareable, Storage, transactions};
use crate::runner::RunError;
use crate::scheduler::{ExecutorIn, SpawnMany, spawn, take_and_run};
use crate::state::{announce, cells};
use crate::task::TaskIn;
use crate::waker::TaskWaker;
use executor_core::limits::{Limits, NewError};
use executor_core::task::{Future, OutOfMemory, SpawnError, Wake};
pub use handles::{LocalCancel, LocalFallibleTask, LocalTask};
use std::alloc::Global;
use std::sync::Wait;
pub use tickers::{LocalRun, LocalTick};

/// An executor that stays on its thread, as do its handles, its ticks and its runs: none of them is
/// `Send` or `Sync`. So F, its output and W need not be `Send`, and no lock is taken for what it keeps
/// of its tasks.
///
/// The wakers of its tasks may go to other threads if W is `Send`, and R both `Send` and `Sync`. A wake
/// there schedules the task for this thread. It stands for the `LocalExecutor` of the Rust crate. Its
/// drop is that of `Executor`.
///
/// Example: `uses::runs_locally`, with tasks that share an `Rc` `uses::stays`, and of the drop
/// `uses::gathers`.
///
/// ```text
/// let executor = LocalExecutor::new(rt.clone()?, alloc)?;
/// let task = executor.spawn(Ready::new(7))?;
/// let mut run = executor.run(task)?;
/// let first = run.poll(&NoopWaker);
/// // [Pending, Ready(Ok(7))]
/// Ok([first, run.poll(&NoopWaker)])
/// ```
pub struct LocalExecutor<F, W, R>
where
    F: Future<TaskWaker<W, R>>,
    W: Wake,
    R: Wait + Drop,
{
    pub(crate) inner: ExecutorIn<LocalStorage<F, W, R>>,
}

impl<F, W, R> LocalExecutor<F, W, R>
where
    F: Future<TaskWaker<W, R>>,
    W: Wake,
    R: Wait + Drop,
{
    /// As `Executor::new`, for tasks that stay on this thread.
    ///
    /// # Errors
    ///
    /// `OutOfMemory` if memory for what the executor shares is refused.
    ///
    /// Example: `uses::runs_locally`, at `LocalExecutor`.
    pub fn new(rt: R, alloc: Global) -> Result<Self, OutOfMemory>
        ensures { IfOk result (λ executor. executor.inner.limits ≡ default_limits) }
    {
        match Self::new_with(rt, alloc, Limits::default()) {
            Ok(executor) => Ok(executor),
            // The default limits are lawful.
            Err(_) => Err(OutOfMemory),
        }
    }

    /// As `Executor::new_with`, for tasks that stay on this thread.
    ///
    /// # Errors
    ///
    /// `BadLimits` exactly if a limit is not in its range, before memory is asked for. Else
    /// `OutOfMemory`, if memory for what the executor shares is refused.
    ///
    /// Example: `uses::limits_locally`.
    ///
    /// ```text
    /// let limits = Limits {
    ///     turn: 1,
    ///     ..Limits::default()
    /// };
    /// let executor = LocalExecutor::new_with(rt.clone()?, alloc, limits)?;
    /// executor.spawn(Ready::new(1))?.detach();
    /// executor.spawn(Ready::new(2))?.detach();
    /// let mut run = executor.run(Never::<()>::new())?;
    /// run.poll(&NoopWaker);
    /// let after_one = executor.is_empty();
    /// // [true, true, true]: a turn leaves the second task
    /// Ok([!after_one, executor.try_tick_any(), executor.is_empty()])
    /// ```
    pub fn new_with(rt: R, alloc: Global, limits: Limits) -> Result<Self, NewError>
        ensures ok { IfOk result (λ executor. executor.inner.limits ≡ limits) }
        ensures cause { IfErr result
            (λ error. (error ≡ NewError.BadLimits) ↔ (is_lawful limits ≡ false)) }
        ensures bad { is_lawful limits ≡ false → IsErr result }
    {
        match ExecutorIn::new_with(rt, alloc, limits) {
            Ok(inner) => Ok(LocalExecutor { inner }),
            Err(error) => Err(error),
        }
    }

    /// As `Executor::spawn`.
    ///
    /// # Errors
    ///
    /// If memory is refused, or task numbers are exhausted, the future is given back and all is as
    /// before.
    ///
    /// Example: `uses::runs_locally`, at `LocalExecutor`.
    pub fn spawn(&self, future: F) -> Result<LocalTask<F, W, R>, SpawnError<F>>
        ensures ok { IfOk result (λ task. task.inner.answered ≡ false) }
        ensures refused { IfErr result (λ e. refused_future e ≡ future) }
    {
        let inner = spawn!(&self.inner, future);
        Ok(LocalTask { inner })
    }

    /// As `Executor::spawn_many`.
    ///
    /// # Errors
    ///
    /// If memory is refused, or task numbers are exhausted. Those that were spawned before stay, with
    /// their handles in the Vec. The future that was refused is given back; there is none if the place
    /// of its handle was refused, since the Vec was full.
    ///
    /// Example: `uses::spawns_locally`.
    ///
    /// ```text
    /// let executor: LocalExecutor<Ready<u64>, NoopWaker, R> = LocalExecutor::new(rt.clone()?, alloc)?;
    /// let mut tasks = Vec::new(alloc);
    /// let futures = (0..2).map(|number| Ready::new(number));
    /// let spawned = executor.spawn_many(futures, &mut tasks)?;
    /// let both = executor.try_tick() && executor.try_tick();
    /// // (2, true)
    /// Ok((spawned, both && executor.is_empty()))
    /// ```
    pub fn spawn_many<I: Iterator<Item = F>>(
        &self,
        futures: I,
        handles: &mut Vec<LocalTask<F, W, R>>,
    ) -> Result<usize, SpawnMany<F>>
        requires can { I.can_next futures }
        requires ends { IsFinite (I.remaining futures) }
        ensures futures { SpawnsInTurn I.next_gives futures result }
        ensures handles { AddsHandles
            (λ task. task.inner.answered) handles.old.items (spawned result) handles.new.items }
        ensures room { IfErr result
            (λ e. IfNone e.refused (vec_len handles.new ≡ vec_capacity handles.new)) }
        ensures place { HasPlace (vec_len handles.new) (vec_capacity handles.new) result }
    {
        self.inner.spawn_many(futures, handles)
    }

    /// As `Executor::is_empty`.
    ///
    /// Example: `uses::spawns_locally`, at `LocalExecutor::spawn_many`.
    #[inline(always)]
    pub fn is_empty(&self) -> bool {
        self.inner.is_empty()
    }

    /// As `Executor::try_tick`.
    ///
    /// Example: `uses::spawns_locally`, at `LocalExecutor::spawn_many`.
    pub fn try_tick(&self) -> bool {
        take_and_run!(&self.inner, take_global)
    }

    /// As `Executor::try_tick_any`.
    ///
    /// Example: `uses::limits_locally`, at `LocalExecutor::new_with`.
    pub fn try_tick_any(&self) -> bool {
        take_and_run!(&self.inner, take_any)
    }

    /// As `Executor::tick`.
    ///
    /// # Errors
    ///
    /// `OutOfMemory` if memory for the place in which it sleeps is refused. All is as before.
    ///
    /// Example: `uses::ticks_locally`.
    ///
    /// ```text
    /// let executor = LocalExecutor::new(rt.clone()?, alloc)?;
    /// let mut tick = executor.tick()?;
    /// let asleep = tick.poll(&NoopWaker);
    /// executor.spawn(Ready::new(7))?.detach();
    /// // [Pending, Ready(())]
    /// Ok([asleep, tick.poll(&NoopWaker)])
    /// ```
    #[inline(always)]
    pub fn tick(&self) -> Result<LocalTick<'_, F, W, R>, OutOfMemory>
        ensures { IfOk result (λ tick. tick.inner.rest ≡ record { number = 0; ended = false }) }
    {
        let inner = self.inner.tick()?;
        Ok(LocalTick { inner })
    }

    /// As `Executor::run`.
    ///
    /// # Errors
    ///
    /// If memory is refused, or runner numbers are exhausted, the future is given back and all is
    /// as before.
    ///
    /// Example: `uses::runs_locally`, at `LocalExecutor`.
    pub fn run<G: Future<W>>(&self, future: G) -> Result<LocalRun<'_, F, W, R, G>, RunError<G>>
        ensures ok { IfOk result (λ run. has_ended run.inner.rest ≡ false) }
        ensures limits { IfOk result
            (λ run. IsNewRun self.now.inner.limits run.inner.rest run.inner.own.ring) }
        ensures refused { IfErr result (λ e. run_future e ≡ future) }
    {
        match self.inner.run(future) {
            Ok(inner) => Ok(LocalRun { inner }),
            Err(error) => Err(error),
        }
    }

    /// Lets a `LocalExecutor` go, and cancels nothing.
    pub(crate) fn let_go(self) {
        let LocalExecutor { inner } = self;
        drop(inner);
    }
}

impl<F, W, R> Drop for LocalExecutor<F, W, R>
where
    F: Future<TaskWaker<W, R>>,
    W: Wake,
    R: Wait + Drop,
{
    fn drop(self) {
        let LocalExecutor { inner } = self;
        inner.close();
        drop(inner);
    }
}
