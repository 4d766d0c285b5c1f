//! The executor whose tasks any thread may run, with its handles, ticks and runs.
//!
//! Each of them has what is written once for both kinds of storage, of the shared kind. It is a type of its own,
//! so that a caller meets the bounds of its future, its waker and its right to wait, and no storage.
//!
//! An example at a type or a call is the whole body of a caller in `uses/src/executor_calls.rs` or
//! `handle_calls.rs`. There rt is the right to wait and alloc the allocator, as `main` hands them on.
ghost use Rattle.std.specs.Prelude.{◌≡◌, ◌↔◌, false, IfOk, IfErr, IsErr, IfNone, vec_len, vec_capacity};
ghost use Rattle.std.specs.Iterator.{IsFinite};
ghost use Rattle.executor_core.specs.Limits.{is_lawful, default_limits};
ghost use Rattle.executor_core.specs.SpawnError.{refused_future};
ghost use Rattle.async_executor.specs.RunError.{run_future};
ghost use Rattle.async_executor.specs.Runs.{has_ended, IsNewRun};
ghost use Rattle.executor_core.specs.declared.limits.NewError.TheVariants as NewError;
ghost use Rattle.async_executor.specs.SpawnMany.{spawned, SpawnsInTurn, AddsHandles, HasPlace};

mod handles;
mod tickers;
mod workers;

use crate::futures::{Shareable, SharedStorage, Storage, transactions};
pub use crate::runner::RunError;
pub use crate::scheduler::SpawnMany;
use crate::scheduler::{ExecutorIn, spawn, take_and_run};
use crate::state::{announce, cells};
pub use crate::task::Cancelled;
use crate::task::TaskIn;
pub use crate::waker::TaskWaker;
pub use executor_core::limits::{Limits, NewError};
pub use executor_core::queue::RunnerError;
use executor_core::task::{Future, OutOfMemory, SpawnError, Wake};
pub use handles::{Cancel, FallibleTask, Task};
use std::alloc::Global;
use std::sync::Wait;
pub use tickers::{Run, Tick};
pub use workers::{Sleeper, Worker};

/// An executor of futures of the type F, whose handles are awaited by wakers of the type W, and
/// which waits for its locks by the right R.
///
/// It is `Send` and `Sync`: making one requires F, its output and W to be `Send`, and R to be both. It
/// stands for the `Executor` of the Rust crate.
///
/// Its drop cancels every task and drops every future that is left, one after another, with no lock
/// held. Nothing is being polled at that point: ticks and runs borrow the executor. A handle gives an
/// output that was there before, and otherwise says that its task was cancelled.
///
/// Example: `uses::awaits_seven`, on several threads `uses::pools`, and of the drop `uses::closes`.
///
/// ```text
/// let executor = Executor::new(rt.clone()?, alloc)?;
/// let task = executor.spawn(Ready::new(7))?;
/// // 7
/// Ok(run_until(rt, alloc, &executor, task)??)
/// ```
pub struct Executor<F, W, R>
where
    F: Future<TaskWaker<W, R>>,
    W: Wake,
    R: Wait + Drop,
{
    pub(crate) inner: ExecutorIn<SharedStorage<F, W, R>>,
}

// `Send` and `Sync` are asked where an executor is made and where it spawns. Without an executor there is
// no handle, tick or run, so their calls do not ask again.
impl<F, W, R> Executor<F, W, R>
where
    F: Future<TaskWaker<W, R>> + Send,
    F::Output: Send,
    W: Wake + Send,
    R: Wait + Drop + Send + Sync,
{
    /// An executor without tasks. It keeps the right to wait for its locks, and the allocator.
    ///
    /// # Errors
    ///
    /// `OutOfMemory` if memory for what the executor shares is refused.
    ///
    /// Example: `uses::awaits_seven`, at `Executor`.
    pub fn new(rt: R, alloc: Global) -> Result<Self, OutOfMemory>
        ensures { IfOk result (λ executor. executor.inner.limits ≡ default_limits) }
    {
        match Self::new_with(rt, alloc, Limits::default()) {
            Ok(executor) => Ok(executor),
            // The default limits are lawful.
            Err(_) => Err(OutOfMemory),
        }
    }

    /// As `new`, with these limits: how much room the queues of its runs have, how long their turns
    /// are, and how often they take a fair part. Runs keep them as they are made.
    ///
    /// # Errors
    ///
    /// `BadLimits` exactly if a limit is not in its range, before memory is asked for. Else
    /// `OutOfMemory`, if memory for what the executor shares is refused.
    ///
    /// Example: `uses::limits_turns`.
    ///
    /// ```text
    /// let limits = Limits {
    ///     turn: 1,
    ///     ..Limits::default()
    /// };
    /// let executor = Executor::new_with(rt.clone()?, alloc, limits)?;
    /// executor.spawn(Ready::new(1))?.detach();
    /// executor.spawn(Ready::new(2))?.detach();
    /// let mut run = executor.run(Never::<()>::new())?;
    /// run.poll(&NoopWaker);
    /// let after_one = executor.is_empty();
    /// run.poll(&NoopWaker);
    /// // [true, false]: a turn for each task
    /// Ok([!after_one, !executor.is_empty()])
    /// ```
    pub fn new_with(rt: R, alloc: Global, limits: Limits) -> Result<Self, NewError>
        ensures ok { IfOk result (λ executor. executor.inner.limits ≡ limits) }
        ensures cause { IfErr result
            (λ error. (error ≡ NewError.BadLimits) ↔ (is_lawful limits ≡ false)) }
        ensures bad { is_lawful limits ≡ false → IsErr result }
    {
        match ExecutorIn::new_with(rt, alloc, limits) {
            Ok(inner) => Ok(Executor { inner }),
            Err(error) => Err(error),
        }
    }

    /// Schedules the future as a new task, behind all that are scheduled.
    ///
    /// # Errors
    ///
    /// If memory is refused, or task numbers are exhausted, the future is given back and all
    /// is as before.
    ///
    /// Example: `uses::spawns`, and with a refused future `uses::gives_back`.
    ///
    /// ```text
    /// let executor = Executor::new(rt.clone()?, alloc)?;
    /// let mut task = executor.spawn(Ready::new(7))?;
    /// let before = task.poll(&NoopWaker);
    /// executor.try_tick();
    /// // [Pending, Ready(Ok(7))]
    /// Ok([before, task.poll(&NoopWaker)])
    /// ```
    pub fn spawn(&self, future: F) -> Result<Task<F, W, R>, SpawnError<F>>
        ensures ok { IfOk result (λ task. task.inner.answered ≡ false) }
        ensures refused { IfErr result (λ e. refused_future e ≡ future) }
    {
        let inner = spawn!(&self.inner, future);
        Ok(Task { inner })
    }

    /// As `spawn`, unless another thread spawns, takes or ends a task of this executor just now: then the
    /// future is given back at once, so that who has another place for it need not wait.
    ///
    /// The Rust crate has no such call.
    ///
    /// # Errors
    ///
    /// The future, if such a thread is at work. `Ok` has what `spawn` gives, its errors too. All is as before
    /// if the future is given back.
    ///
    /// Example: `uses::spawns_at_once`.
    ///
    /// ```text
    /// let executor = Executor::new(rt.clone()?, alloc)?;
    /// let mut task = match executor.try_spawn(Ready::new(7)) {
    ///     Ok(spawned) => spawned?,
    ///     Err(future) => executor.spawn(future)?,
    /// };
    /// executor.try_tick();
    /// // Ready(Ok(7))
    /// Ok(task.poll(&NoopWaker))
    /// ```
    pub fn try_spawn(&self, future: F) -> Result<Result<Task<F, W, R>, SpawnError<F>>, F>
        ensures ok { IfOk result (λ spawned. IfOk spawned (λ task. task.inner.answered ≡ false)) }
        ensures refused { IfOk result (λ spawned. IfErr spawned (λ e. refused_future e ≡ future)) }
        ensures taken { IfErr result (λ back. back ≡ future) }
    {
        match transactions::try_spawn(&self.inner.storage, future) {
            Ok(Ok((storage, id, notice))) => {
                announce!(self.inner.storage.state(), notice);
                let inner = TaskIn::new(storage, id);
                Ok(Ok(Task { inner }))
            }
            Ok(Err(error)) => Ok(Err(error)),
            Err(future) => Err(future),
        }
    }

    /// Schedules each future that the iterator gives as a new task, in turn, and puts its handle at
    /// the end of the Vec. For each of them the place of its handle is reserved first, then the
    /// iterator is asked, and then it is spawned as by `spawn`: no lock is held while the iterator is
    /// asked, so it may use the executor, and a sleeper is notified once a task is queued. It answers
    /// how many were spawned.
    ///
    /// # Errors
    ///
    /// If memory is refused, or task numbers are exhausted. Those that were spawned before
    /// stay, with their handles in the Vec. The future that was refused is given back; there is none
    /// if the place of its handle was refused, since the Vec was full.
    ///
    /// Example: `uses::spawns_three`.
    ///
    /// ```text
    /// let executor: Executor<Ready<u64>, NoopWaker, R> = Executor::new(rt.clone()?, alloc)?;
    /// let mut tasks = Vec::new(alloc);
    /// let futures = (0..3).map(|number| Ready::new(number));
    /// let spawned = executor.spawn_many(futures, &mut tasks)?;
    /// // (3, 3)
    /// Ok((spawned, tasks.len()))
    /// ```
    pub fn spawn_many<I: Iterator<Item = F>>(
        &self,
        futures: I,
        handles: &mut Vec<Task<F, W, R>>,
    ) -> Result<usize, SpawnMany<F>>
        requires can { I.can_next futures }
        requires ends { IsFinite (I.remaining futures) }
        ensures futures { SpawnsInTurn I.next_gives futures result }
        ensures handles { AddsHandles
            (λ task. task.inner.answered) handles.old.items (spawned result) handles.new.items }
        ensures room { IfErr result
            (λ e. IfNone e.refused (vec_len handles.new ≡ vec_capacity handles.new)) }
        ensures place { HasPlace (vec_len handles.new) (vec_capacity handles.new) result }
    {
        self.inner.spawn_many(futures, handles)
    }
}

impl<F, W, R> Executor<F, W, R>
where
    F: Future<TaskWaker<W, R>>,
    W: Wake,
    R: Wait + Drop,
{
    /// Whether the future of every task was dropped. A task that was cancelled counts until then.
    ///
    /// Example: `uses::empties_again`.
    ///
    /// ```text
    /// let executor: Executor<Ready<u64>, NoopWaker, R> = Executor::new(rt.clone()?, alloc)?;
    /// let before = executor.is_empty();
    /// executor.spawn(Ready::new(7))?.detach();
    /// let spawned = executor.is_empty();
    /// executor.try_tick();
    /// // [true, false, true]
    /// Ok([before, spawned, executor.is_empty()])
    /// ```
    #[inline(always)]
    pub fn is_empty(&self) -> bool {
        self.inner.is_empty()
    }

    /// Runs the task that was scheduled first, and says whether there was one: its future is polled
    /// once, or dropped if the task was cancelled. It looks at the queue that all share alone:
    /// what a run has in a queue of its own is left to it, or to `try_tick_any`.
    ///
    /// Example: `uses::tries_ticks`.
    ///
    /// ```text
    /// let executor: Executor<Ready<u64>, NoopWaker, R> = Executor::new(rt.clone()?, alloc)?;
    /// let before = executor.try_tick();
    /// executor.spawn(Ready::new(7))?.detach();
    /// // [false, true, false]
    /// Ok([before, executor.try_tick(), executor.try_tick()])
    /// ```
    pub fn try_tick(&self) -> bool {
        take_and_run!(&self.inner, take_global)
    }

    /// As `try_tick`, and if no task stands in the queue that all share, it runs the first one of the
    /// first run's queue that has one, in order of registration. So it answers false exactly if no
    /// task stood in any queue, and it runs also what a run that nobody polls has in its own. It
    /// takes no memory, and moves nothing from one queue to another.
    ///
    /// The Rust crate has no such call.
    ///
    /// Example: `uses::tries_any_tick`.
    ///
    /// ```text
    /// let turn_of_one = Limits {
    ///     turn: 1,
    ///     ..Limits::default()
    /// };
    /// let executor = Executor::new_with(rt.clone()?, alloc, turn_of_one)?;
    /// for number in 0..3 {
    ///     executor.spawn(Ready::new(number))?.detach();
    /// }
    /// let mut run = executor.run(Never::<()>::new())?;
    /// run.poll(&NoopWaker);
    /// let global = executor.try_tick();
    /// // [true, false, true]: the third task stood in the queue of the run
    /// Ok([global, executor.try_tick(), executor.try_tick_any()])
    /// ```
    pub fn try_tick_any(&self) -> bool {
        take_and_run!(&self.inner, take_any)
    }

    /// A future that runs one task, and sleeps while none is scheduled. The place in which it
    /// sleeps is reserved here, and given back once it has ended or was dropped.
    ///
    /// # Errors
    ///
    /// `OutOfMemory` if memory for that place is refused. All is as before.
    ///
    /// Example: `uses::ticks`.
    ///
    /// ```text
    /// let executor = Executor::new(rt.clone()?, alloc)?;
    /// let mut tick = executor.tick()?;
    /// let asleep = tick.poll(&NoopWaker);
    /// executor.spawn(Ready::new(7))?.detach();
    /// // [Pending, Ready(())]
    /// Ok([asleep, tick.poll(&NoopWaker)])
    /// ```
    #[inline(always)]
    pub fn tick(&self) -> Result<Tick<'_, F, W, R>, OutOfMemory>
        ensures { IfOk result (λ tick. tick.inner.rest ≡ record { number = 0; ended = false }) }
    {
        let inner = self.inner.tick()?;
        Ok(Tick { inner })
    }

    /// A future that runs tasks of the executor beside this one, and ends with its output. Each poll
    /// first polls this future, and then runs tasks until none is left or the turn ends; a turn can
    /// span several polls.
    ///
    /// Its places among the sleepers and the runners and its queue are reserved here, and given back
    /// once it has ended or was dropped.
    ///
    /// # Errors
    ///
    /// If memory is refused, or runner numbers are exhausted, the future is given back and
    /// all is as before.
    ///
    /// Example: `uses::runs_beside`, and on several threads `uses::pools`.
    ///
    /// ```text
    /// let executor = Executor::new(rt.clone()?, alloc)?;
    /// let task = executor.spawn(Ready::new(7))?;
    /// let mut run = executor.run(task)?;
    /// let first = run.poll(&NoopWaker);
    /// // [Pending, Ready(Ok(7))]
    /// Ok([first, run.poll(&NoopWaker)])
    /// ```
    pub fn run<G: Future<W>>(&self, future: G) -> Result<Run<'_, F, W, R, G>, RunError<G>>
        ensures ok { IfOk result (λ run. has_ended run.inner.rest ≡ false) }
        ensures limits { IfOk result
            (λ run. IsNewRun self.now.inner.limits run.inner.rest run.inner.own.ring) }
        ensures refused { IfErr result (λ e. run_future e ≡ future) }
    {
        match self.inner.run(future) {
            Ok(inner) => Ok(Run { inner }),
            Err(error) => Err(error),
        }
    }

    /// Lets an `Executor` go, and cancels nothing.
    pub(crate) fn let_go(self) {
        let Executor { inner } = self;
        drop(inner);
    }
}

impl<F, W, R> Drop for Executor<F, W, R>
where
    F: Future<TaskWaker<W, R>>,
    W: Wake,
    R: Wait + Drop,
{
    fn drop(self) {
        let Executor { inner } = self;
        inner.close();
        drop(inner);
    }
}
