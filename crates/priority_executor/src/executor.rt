//! An executor for each level of urgency.
ghost use Rattle.std.specs.Prelude.{◌≡◌, ◌<◌, ◌-◌, ◌^◌, None, false, IfOk, IfErr, IsSomeAnd, All, length, map, vec_len};
ghost use Rattle.executor_core.specs.SpawnError.{refused_future};
ghost use Rattle.async_executor.specs.declared.runner.run.RunError.TheVariants as RunError;

use crate::answers::Answers;
use crate::asker::{Asker, choose};
use crate::run::{Going, PriorityRun};
use crate::tick::{LevelSleepers, PriorityTick};
use async_executor::{
    Executor, Future, OutOfMemory, RunError, Sleeper, SpawnError, Task, TaskWaker, Wake,
};
use std::alloc::Global;
use std::sync::Wait;

/// An executor that runs the tasks of lower levels first, of which it has N, named 0 to N - 1.
///
/// Each level is an `Executor` of its own, so tasks of one level are run in the order in which they
/// were scheduled, and a task stays in its level. While a task of a level is scheduled, none of a
/// higher level is run: tasks that wake themselves again and again starve all above them.
///
/// It has no Debug. The Rust crate has no such type: there, a program writes its own.
///
/// Example: `uses::goes_first`, and past a thousand others `uses::overtakes`.
///
/// ```text
/// let executor: Levels<R> = PriorityExecutor::new(rt.clone()?, alloc)?;
/// let mut later = executor.spawn(1, Ready::new(1))?;
/// let mut urgent = executor.spawn(0, Ready::new(2))?;
/// executor.try_tick();
/// // [Ready(Ok(2)), Pending]
/// Ok([urgent.poll(&NoopWaker), later.poll(&NoopWaker)])
/// ```
#[derive(Drop)]
pub struct PriorityExecutor<F, W, R, const N: usize>
where
    F: Future<TaskWaker<W, R>>,
    W: Wake,
    R: Wait + Drop,
{
    levels: Vec<Executor<F, W, R>>,
    ghost count: { vec_len levels ≡ N },
    ghost some: { 0 < N },
    ghost few: { N < 2 ^ 32 },
}

impl<F, W, R, const N: usize> PriorityExecutor<F, W, R, N>
where
    F: Future<TaskWaker<W, R>> + Send,
    F::Output: Send,
    W: Wake + Send,
    R: Wait + Clone + Drop + Send + Sync,
{
    /// An executor without tasks, each level of which keeps a copy of the right to wait.
    ///
    /// # Errors
    ///
    /// `OutOfMemory` if memory for a level is refused.
    ///
    /// Example: `uses::goes_first`, at `PriorityExecutor`.
    pub fn new(rt: R, alloc: Global) -> Result<Self, OutOfMemory>
        requires some { 0 < N }
        requires few { N < 2 ^ 32 }
    {
        let mut levels = Vec::with_capacity(alloc, N)?;
        for made in 0..N {
            levels.push_reserved(Executor::new(rt.clone()?, alloc)?);
        }
        Ok(PriorityExecutor { levels })
    }

    /// Schedules the future as a new task of this level, behind all of that level that are scheduled.
    ///
    /// # Errors
    ///
    /// If memory is refused, or task numbers are exhausted, the future is given back and all is
    /// as before.
    ///
    /// Example: `uses::goes_first`, at `PriorityExecutor`.
    pub fn spawn(&self, level: usize, future: F) -> Result<Task<F, W, R>, SpawnError<F>>
        requires { level < N }
        ensures ok { IfOk result (λ task. task.inner.answered ≡ false) }
        ensures refused { IfErr result (λ e. refused_future e ≡ future) }
    {
        self.levels[level].spawn(future)
    }
}

impl<F, W, R, const N: usize> PriorityExecutor<F, W, R, N>
where
    F: Future<TaskWaker<W, R>>,
    W: Wake,
    R: Wait + Drop,
{
    /// Whether the future of every task was dropped: the levels are asked in order, each once, until
    /// one has a task.
    ///
    /// Example: `uses::overtakes`.
    pub fn is_empty(&self) -> bool {
        // No choice: it asks for no task, and stops by itself.
        self.levels.iter().all(|level| level.is_empty())
    }

    /// Runs the task that was scheduled first in the lowest level that has one scheduled, and says
    /// whether there was one.
    ///
    /// Example: `uses::goes_first`, at `PriorityExecutor`.
    pub fn try_tick(&self) -> bool {
        let mut ticks = TryTicks {
            levels: &self.levels,
            answers: Answers::<N>::new(),
        };
        choose(&mut ticks, N).is_some()
    }

    /// A future that runs one task, of the lowest level that has one scheduled, and sleeps while there
    /// is none. It has a sleeper of each level, whose places are reserved here.
    ///
    /// # Errors
    ///
    /// `OutOfMemory` if memory for a sleeper is refused. Those that were made are dropped, and all is as
    /// before.
    ///
    /// Example: `uses::ticks_any_level`, at `PriorityTick`.
    pub fn tick(&self) -> Result<PriorityTick<'_, F, W, R, N>, OutOfMemory>
        ensures awake { IfOk result
            (λ tick. IsSomeAnd tick.sleepers
            (λ own. All (λ s. s.inner.number ≡ None) own.levels.items)) }
        ensures own { IfOk result (λ tick. IsSomeAnd tick.sleepers (λ own.
            map (λ s. s.inner.executor.now) own.levels.items
            ≡ map (λ level. level.inner) self.now.levels.items)) }
    {
        let sleepers = self.sleepers()?;
        Ok(PriorityTick {
            sleepers: Some(sleepers),
        })
    }

    /// A future that runs tasks beside this one, each of the lowest level that has one scheduled then, and
    /// ends with its output. It has a sleeper of each level, whose places are reserved here, and given back
    /// once it has ended or was dropped.
    ///
    /// # Errors
    ///
    /// `OutOfMemory` with the future, if memory for a sleeper is refused. All is as before.
    ///
    /// Example: `uses::runs_levels`, at `PriorityRun`.
    pub fn run<G: Future<W>>(
        &self,
        future: G,
    ) -> Result<PriorityRun<'_, F, W, R, G, N>, RunError<G>>
        ensures ok { IfOk result
            (λ run. IsSomeAnd run.going
            (λ g. All (λ s. s.inner.number ≡ None) g.sleepers.levels.items)) }
        ensures future { IfOk result (λ run. IsSomeAnd run.going (λ g. g.own ≡ future)) }
        ensures own { IfOk result (λ run. IsSomeAnd run.going (λ g.
            map (λ s. s.inner.executor.now) g.sleepers.levels.items
            ≡ map (λ level. level.inner) self.now.levels.items)) }
        ensures refused { IfErr result (λ e. e ≡ RunError.OutOfMemory future) }
    {
        match self.sleepers() {
            Ok(sleepers) => Ok(PriorityRun {
                going: Some(Going {
                    own: future,
                    sleepers,
                    is_asleep: false,
                    levels: &self.levels,
                }),
            }),
            Err(OutOfMemory) => Err(RunError::OutOfMemory(future)),
        }
    }

    // A sleeper of each level, which is awake.
    fn sleepers(&self) -> Result<LevelSleepers<Sleeper<'_, F, W, R>, N>, OutOfMemory>
        ensures awake { IfOk result (λ own. All (λ s. s.inner.number ≡ None) own.levels.items) }
        ensures own { IfOk result (λ own.
            map (λ s. s.inner.executor.now) own.levels.items
            ≡ map (λ level. level.inner) self.now.levels.items) }
    {
        let mut levels = Vec::with_capacity(*self.levels.allocator(), N)?;
        for level in &self.levels {
            let sleeper = level.sleeper()?;
            levels.push_reserved(sleeper);
        }
        Ok(LevelSleepers { levels })
    }
}

// A level is asked to run a task.
#[derive(Drop)]
struct TryTicks<'a, F, W, R, const N: usize>
where
    F: Future<TaskWaker<W, R>>,
    W: Wake,
    R: Wait + Drop,
{
    levels: &'a Vec<Executor<F, W, R>>,
    answers: Answers<N>,
}

impl<F, W, R, const N: usize> Asker for TryTicks<'_, F, W, R, N>
where
    F: Future<TaskWaker<W, R>>,
    W: Wake,
    R: Wait + Drop,
{
    ghost answers = { λ s. s.answers };

    ghost places = { λ s. N - length s.answers };

    fn ask(&mut self, level: usize) -> bool {
        // A level that is not there says no: the condition of `ask` speaks of the room in the list alone.
        let has_run = match self.levels.get(level) {
            Some(executor) => executor.try_tick(),
            None => false,
        };
        self.answers.push(level, has_run);
        has_run
    }
}
