//! The shards.
ghost use Rattle.std.specs.Prelude.{◌≡◌, ◌↔◌, ◌<◌, ◌≤◌, ◌^◌, ◌%◌, ◌/◌, All, false, IfOk, IfErr, IsErr, vec_len};
ghost use Rattle.executor_core.specs.Limits.{is_lawful, default_limits};
ghost use Rattle.executor_core.specs.SpawnError.{refused_future};
ghost use Rattle.async_executor.specs.RunError.{run_future};
ghost use Rattle.executor_core.specs.declared.limits.NewError.TheVariants as NewError;

use crate::progress::Count;
use crate::run::ShardedRun;
use crate::spreading::{Spread, counts};
use async_executor::{
    Executor, Future, Limits, NewError, OutOfMemory, RunError, SpawnError, Task, TaskWaker, Wake,
};
use std::alloc::Global;
use std::fmt::{self, Debug, Formatter, Write};
use std::sync::Wait;

/// So many words lie unused before and behind what each shard allocates as it is made, so that no two shards
/// have parts on neighbouring cache lines.
const UNUSED: usize = 512;

/// An executor of N shards, each of which is an `Executor`.
///
/// A run of it serves one shard, and helps the others if that has nothing left. So as many threads as
/// there are shards, each of which drives a run of its own shard, share the work, and meet at a lock only
/// if one of them has nothing of its own to do. A task stays in its shard.
///
/// It is `Send` and `Sync` as an `Executor` is. Its drop closes all shards. The Rust crate has no such type.
///
/// Example: `uses::spreads`, and on two threads `uses::shards`.
///
/// ```text
/// let executor: ShardedExecutor<Ready<u64>, NoopWaker, R> = ShardedExecutor::new(
///     rt.clone()?,
///     alloc,
///     2,
/// )?;
/// executor.spawn(Ready::new(1))?.detach();
/// executor.spawn(Ready::new(2))?.detach();
/// let (first, second) = (executor.shard(0).try_tick(), executor.shard(1).try_tick());
/// // [true, true, true]
/// Ok([first, second, executor.is_empty()])
/// ```
#[derive(Drop)]
pub struct ShardedExecutor<F, W, R>
where
    F: Future<TaskWaker<W, R>>,
    W: Wake,
    R: Wait + Drop,
{
    // With the caller's own waker: with one that refuses its copies, runs would need no sleepers, but its
    // type would stand in each future and each handle.
    shards: Vec<Executor<F, W, R>>,
    unused: Vec<Vec<u64>>,
    // How many turns the runs of each shard had.
    turns: Vec<Count>,
    spread: Spread,
    alloc: Global,
    ghost some: { 0 < vec_len shards },
    ghost counted: { vec_len turns ≡ vec_len shards },
    ghost spawned: { vec_len spread.missed ≡ vec_len shards },
}

impl<F, W, R> ShardedExecutor<F, W, R>
where
    F: Future<TaskWaker<W, R>> + Send,
    F::Output: Send,
    W: Wake + Send,
    R: Wait + Clone + Drop + Send + Sync,
{
    /// An executor of so many shards, without tasks.
    ///
    /// # Errors
    ///
    /// `OutOfMemory` if memory for a shard is refused.
    ///
    /// Example: `uses::spreads`, at `ShardedExecutor`.
    pub fn new(rt: R, alloc: Global, count: usize) -> Result<Self, OutOfMemory>
        requires { 0 < count }
        ensures count { IfOk result (λ executor. vec_len executor.shards ≡ count) }
        ensures limits { IfOk result
            (λ executor. All (λ shard. shard.inner.limits ≡ default_limits) executor.shards.items) }
    {
        match Self::new_with(rt, alloc, count, Limits::default()) {
            Ok(executor) => Ok(executor),
            // The default limits are lawful.
            Err(_) => Err(OutOfMemory),
        }
    }

    /// As `new`, and each shard has these limits.
    ///
    /// # Errors
    ///
    /// `BadLimits` exactly if a limit is not in its range, before memory is asked for. Else
    /// `OutOfMemory`, if memory for a shard is refused.
    ///
    /// Example: `uses::empties_shards`.
    pub fn new_with(rt: R, alloc: Global, count: usize, limits: Limits) -> Result<Self, NewError>
        requires { 0 < count }
        ensures count { IfOk result (λ executor. vec_len executor.shards ≡ count) }
        ensures limits { IfOk result
            (λ executor. All (λ shard. shard.inner.limits ≡ limits) executor.shards.items) }
        ensures cause { IfErr result
            (λ error. (error ≡ NewError.BadLimits) ↔ (is_lawful limits ≡ false)) }
        ensures bad { is_lawful limits ≡ false → IsErr result }
    {
        if !limits.is_lawful() {
            return Err(NewError::BadLimits);
        }
        let turns = counts(alloc, count)?;
        let spread = Spread::new(alloc, count)?;
        match shards(rt, alloc, count, limits) {
            Ok((shards, unused)) => Ok(ShardedExecutor {
                shards,
                unused,
                turns,
                spread,
                alloc,
            }),
            Err(OutOfMemory) => Err(NewError::OutOfMemory),
        }
    }

    /// Schedules the future as a new task of a shard, behind all of that shard that are scheduled. The
    /// first sixteen tasks of each shard go to the shards in turn, so that few tasks are spread; after
    /// that sixteen in a row go to each shard in turn, so that many cost less. If another thread spawns,
    /// takes or ends a task of that shard just now, the next shard has this one instead, and the first
    /// makes up for it at a later turn of that one. No shard misses more than sixteen. It takes no lock
    /// to find the shard: threads that spawn at once meet at one atomic count. One that has a shard of
    /// its own spawns there, by `shard`.
    ///
    /// # Errors
    ///
    /// If memory is refused, or task numbers are exhausted, the future is given back and all is as
    /// before, but that it was the turn of that shard.
    ///
    /// Example: `uses::spreads`, at `ShardedExecutor`.
    pub fn spawn(&self, future: F) -> Result<Task<F, W, R>, SpawnError<F>>
        ensures ok { IfOk result (λ task. task.inner.answered ≡ false) }
        ensures refused { IfErr result (λ e. refused_future e ≡ future) }
    {
        let count = self.shards.len();
        if count == 1 {
            return self.shards[0].spawn(future);
        }
        let turn = self.spread.next();
        let before = if turn > 0 { turn - 1 } else { count - 1 };
        let future = match self.make_up(before, future) {
            Ok(spawned) => return spawned,
            Err(future) => future,
        };
        let future = match self.shards[turn].try_spawn(future) {
            Ok(spawned) => return spawned,
            Err(future) => future,
        };
        let next = if turn + 1 < count { turn + 1 } else { 0 };
        let shard = if self.spread.misses(turn) { next } else { turn };
        self.shards[shard].spawn(future)
    }

    // Schedules the future as a new task of this shard, if that has missed a spawn and nobody is at work
    // there. Else the future is given back.
    fn make_up(&self, shard: usize, future: F) -> Result<Result<Task<F, W, R>, SpawnError<F>>, F>
        requires { shard < vec_len self.now.shards }
        ensures ok { IfOk result (λ spawned. IfOk spawned (λ task. task.inner.answered ≡ false)) }
        ensures refused { IfOk result (λ spawned. IfErr spawned (λ e. refused_future e ≡ future)) }
        ensures back { IfErr result (λ back. back ≡ future) }
    {
        if !self.spread.owes(shard) {
            return Err(future);
        }
        let spawned = self.shards[shard].try_spawn(future);
        if spawned.is_ok() {
            self.spread.makes_up(shard);
        }
        spawned
    }
}

// Allocates what lies between two shards.
fn add_unused(alloc: Global, unused: &mut Vec<Vec<u64>>) -> Result<(), OutOfMemory> {
    if unused.push(Vec::with_capacity(alloc, UNUSED)?).is_err() {
        return Err(OutOfMemory);
    }
    Ok(())
}

// So many executors with these limits, which are lawful, and the unused memory between them.
fn shards<F, W, R>(
    rt: R,
    alloc: Global,
    count: usize,
    limits: Limits,
) -> Result<(Vec<Executor<F, W, R>>, Vec<Vec<u64>>), OutOfMemory>
where
    F: Future<TaskWaker<W, R>> + Send,
    F::Output: Send,
    W: Wake + Send,
    R: Wait + Clone + Drop + Send + Sync,
    ensures count { IfOk result (λ made. vec_len made.0 ≡ count) }
    ensures limits { IfOk result (λ made. All (λ shard. shard.inner.limits ≡ limits) made.0.items) }
{
    let mut shards = Vec::with_capacity(alloc, count)?;
    let mut unused = Vec::new(alloc);
    add_unused(alloc, &mut unused)?;
    for made in 0..count {
        let Ok(shard) = Executor::new_with(rt.clone()?, alloc, limits) else {
            return Err(OutOfMemory);
        };
        shards.push_reserved(shard);
        add_unused(alloc, &mut unused)?;
    }
    Ok((shards, unused))
}

impl<F, W, R> ShardedExecutor<F, W, R>
where
    F: Future<TaskWaker<W, R>>,
    W: Wake,
    R: Wait + Drop,
{
    /// How many shards there are.
    ///
    /// Example: `uses::shards`.
    pub fn shards(&self) -> usize
        ensures count { result ≡ vec_len self.now.shards }
        ensures some { 0 < result }
    {
        self.shards.len()
    }

    /// The shard of this number, for who keeps tasks together, or spawns from a thread that drives its
    /// run.
    ///
    /// Example: `uses::spreads`, at `ShardedExecutor`.
    pub fn shard(&self, number: usize) -> &Executor<F, W, R>
        requires { number < vec_len self.now.shards }
    {
        &self.shards[number]
    }

    /// Whether the future of every task was dropped: the shards are asked in order, each once, until one
    /// has a task. They are not asked all at one moment.
    ///
    /// Example: `uses::spreads`, at `ShardedExecutor`.
    pub fn is_empty(&self) -> bool {
        self.shards.iter().all(|shard| shard.is_empty())
    }

    /// Runs a task of the first shard that has one in any queue, as `try_tick_any` of an `Executor` does,
    /// and says whether there was one. The shards are asked in order, each once.
    ///
    /// Example: `uses::empties_shards`.
    pub fn try_tick_any(&self) -> bool {
        self.shards.iter().any(|shard| shard.try_tick_any())
    }

    /// A future that runs tasks beside this one, first those of the shard of this number, and ends with
    /// its output. Its places in every shard are reserved here, and given back once it has ended or was
    /// dropped.
    ///
    /// # Errors
    ///
    /// If memory is refused, or runner numbers are exhausted, the future is given back and all is as
    /// before.
    ///
    /// Example: `uses::runs_shards`, at `ShardedRun`.
    pub fn run<G: Future<W>>(
        &self,
        number: usize,
        future: G,
    ) -> Result<ShardedRun<'_, F, W, R, G>, RunError<G>>
        requires { number < vec_len self.now.shards }
        ensures refused { IfErr result (λ e. run_future e ≡ future) }
    {
        ShardedRun::new(&self.shards, &self.turns, self.alloc, number, future)
    }
}

impl<F, W, R> Debug for ShardedExecutor<F, W, R>
where
    F: Future<TaskWaker<W, R>>,
    W: Wake,
    R: Wait + Drop,
{
    /// The counts of each shard, in order.
    fn fmt<O: Write>(&self, f: &mut Formatter<O>) -> fmt::Result {
        f.write_str("ShardedExecutor ")?;
        let mut list = f.debug_list();
        for shard in &self.shards {
            list.entry(shard);
        }
        list.finish()
    }
}
