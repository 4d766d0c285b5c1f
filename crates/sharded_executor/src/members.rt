//! What a run has in each shard.
ghost use Rattle.std.specs.Prelude.{◌≡◌, ◌∷◌, ◌++◌, ◌+◌, ◌-◌, ◌<◌, ◌≤◌, [], false, true, None, All, IfSome, IfNone, IsTrue, is_some, OnOk, length, vec_len, vec_capacity};
ghost use Rattle.sharded_executor.specs.Notices.{OwesOnly};
ghost use Rattle.sharded_executor.specs.Order.{asked_around, false_from, true_after};

use crate::progress::Count;
use async_executor::{
    Executor, Future, OutOfMemory, RunnerError, Sleeper, TaskWaker, Wake, Worker,
};
use std::alloc::Global;
use std::sync::Wait;
use std::sync::atomic::Ordering;

/// How many tasks a run takes of another shard, one after another, before it looks at its own again.
const HANDFUL: u32 = 16;

/// A worker of its own shard, and a sleeper of each: of its own one at 0, and then of those that follow it
/// in order. What each shard answered to the last search stands in a list.
#[derive(Drop)]
pub(crate) struct Members<'a, F, W, R>
where
    F: Future<TaskWaker<W, R>>,
    W: Wake,
    R: Wait + Drop,
{
    pub(crate) worker: Worker<'a, F, W, R>,
    pub(crate) sleepers: Vec<Sleeper<'a, F, W, R>>,
    // The promise of the order speaks of this list. A look around after a turn is in no list.
    pub(crate) answers: Vec<(usize, bool)>,
    // How many turns the runs of each shard had: of those from the own one on, and of those before it.
    turns: (&'a [Count], &'a [Count]),
    ghost some: { 0 < vec_len sleepers },
    ghost counted: { length turns.0.now + length turns.1.now ≡ vec_len sleepers },
    ghost own: { 0 < length turns.0.now },
    ghost room: { vec_len sleepers ≤ vec_capacity answers },
}

// Puts a sleeper of each shard at the end.
fn add_sleepers<'a, F, W, R>(
    shards: &'a [Executor<F, W, R>],
    sleepers: &mut Vec<Sleeper<'a, F, W, R>>,
) -> Result<(), RunnerError>
where
    F: Future<TaskWaker<W, R>>,
    W: Wake,
    R: Wait + Drop,
    requires room { vec_len sleepers.old + length shards.now ≤ vec_capacity sleepers.old }
    ensures room { vec_capacity sleepers.new ≡ vec_capacity sleepers.old }
    ensures count { OnOk result (vec_len sleepers.new ≡ vec_len sleepers.old + length shards.now) }
{
    for shard in shards {
        match shard.sleeper() {
            Ok(sleeper) => sleepers.push_reserved(sleeper),
            Err(OutOfMemory) => return Err(RunnerError::OutOfMemory),
        }
    }
    Ok(())
}

impl<'a, F, W, R> Members<'a, F, W, R>
where
    F: Future<TaskWaker<W, R>>,
    W: Wake,
    R: Wait + Drop,
{
    /// The members of a run of the shard of this number. All sleepers are awake.
    pub(crate) fn new(
        shards: &'a Vec<Executor<F, W, R>>,
        turns: &'a [Count],
        alloc: Global,
        number: usize,
    ) -> Result<Members<'a, F, W, R>, RunnerError>
        requires inside { number < vec_len shards.now }
        requires counted { length turns.now ≡ vec_len shards.now }
    {
        let count = shards.len();
        // One in every shard: a task of a shard that no sleeper chose would wait for a run that is busy.
        let mut sleepers = Vec::with_capacity(alloc, count)?;
        let answers = Vec::with_capacity(alloc, count)?;
        add_sleepers(&shards[number..], &mut sleepers)?;
        add_sleepers(&shards[..number], &mut sleepers)?;
        // Last, since a runner's number that was given is not given again.
        let worker = shards[number].worker()?;
        Ok(Members {
            worker,
            sleepers,
            answers,
            turns: (&turns[number..], &turns[..number]),
        })
    }
}

impl<F, W, R> Members<'_, F, W, R>
where
    F: Future<TaskWaker<W, R>>,
    W: Wake,
    R: Wait + Drop,
{
    /// How many shards there are, each with a sleeper of this run.
    pub(crate) fn count(&self) -> usize
        ensures count { result ≡ vec_len self.now.sleepers }
        ensures some { 0 < result }
    {
        self.sleepers.len()
    }

    /// Leaves the sleepers of every shard. What it was notified of in one of them is still to be searched
    /// for there, and that shard is the answer. If it was notified in more, it passes on what the others
    /// had.
    pub(crate) fn leave(&mut self) -> Option<usize>
        ensures awake { All (λ s. s.inner.number ≡ None) self.new.sleepers.items }
        ensures count { vec_len self.new.sleepers ≡ vec_len self.old.sleepers }
        ensures inside { IfSome result (λ at. at < vec_len self.new.sleepers) }
        ensures owes { OwesOnly
            (λ s. s.inner.notice) result self.new.sleepers.items (vec_len self.new.sleepers) }
        ensures answers { self.new.answers ≡ self.old.answers }
    {
        let mut owes = None;
        for at in 0..self.sleepers.len() {
            let sleeper = &mut self.sleepers[at];
            if !sleeper.leave() {
                continue;
            }
            if owes.is_none() {
                owes = Some(at);
            } else {
                sleeper.pass_on();
            }
        }
        owes
    }

    /// Has the member at this place run tasks of its shard, and says whether it has more, or had one.
    fn ask(&mut self, at: usize) -> bool
        requires at { at < vec_len self.old.sleepers }
        requires room { vec_len self.old.answers < vec_capacity self.old.answers }
        ensures listed { self.new.answers.items ≡ self.old.answers.items ++ (at, result) ∷ [] }
        ensures room { vec_capacity self.new.answers ≡ vec_capacity self.old.answers }
        ensures count { vec_len self.new.sleepers ≡ vec_len self.old.sleepers }
    {
        let has_task = if at == 0 {
            self.turns.0[0].count.fetch_add(1, Ordering::SeqCst);
            self.worker.turn()
        } else {
            self.help(at)
        };
        self.answers.push_reserved((at, has_task));
        has_task
    }

    /// Has the member at this place run a handful of tasks of its shard, and says whether there was one. Of the
    /// own shard it runs one alone: the worker takes each of the others under fewer locks.
    pub(crate) fn help(&mut self, at: usize) -> bool
        requires { at < vec_len self.old.sleepers }
        ensures count { vec_len self.new.sleepers ≡ vec_len self.old.sleepers }
        ensures answers { self.new.answers ≡ self.old.answers }
    {
        let sleeper = &mut self.sleepers[at];
        if at == 0 {
            return sleeper.try_tick_any();
        }
        // With no queue of its own in another shard, which would take memory.
        sleeper.help(HANDFUL - 1)
    }

    /// How many turns the runs of the shard of the member at this place had, modulo 2^64.
    pub(crate) fn turns_at(&self, at: usize) -> u64
        requires { at < vec_len self.now.sleepers }
    {
        let (from_own, before) = self.turns;
        match from_own.get(at) {
            Some(turns) => turns.count.load(Ordering::SeqCst),
            None => before[at - from_own.len()].count.load(Ordering::SeqCst),
        }
    }

    /// Has the member at this place run one task of its shard, if that has one.
    pub(crate) fn run_one(&mut self, at: usize)
        requires { at < vec_len self.old.sleepers }
    {
        self.sleepers[at].try_tick_any();
    }

    /// Asks the members for tasks of their shards, the own one first, and then each other once, from this one
    /// on, up to the first that has a task, which it runs. `None` says that none had any.
    pub(crate) fn search(&mut self, first: usize) -> Option<usize>
        requires low { 0 < first }
        requires high { first ≤ vec_len self.old.sleepers }
        ensures asked { self.new.answers.items
            ≡ asked_around first (vec_len self.old.sleepers) result }
        ensures count { vec_len self.new.sleepers ≡ vec_len self.old.sleepers }
    {
        self.answers.clear();
        if self.ask(0) {
            return Some(0);
        }
        let count = self.count();
        match self.search_between(first, count) {
            Some(at) => Some(at),
            None => self.search_between(1, first),
        }
    }

    // Asks the members between these places in order, up to the first whose shard has a task.
    fn search_between(&mut self, from: usize, to: usize) -> Option<usize>
        requires order { from ≤ to }
        requires inside { to ≤ vec_len self.old.sleepers }
        requires room { vec_len self.old.answers + (to - from) ≤ vec_capacity self.old.answers }
        ensures none { IfNone result
            (self.new.answers.items ≡ self.old.answers.items ++ false_from from (to - from)) }
        ensures some { IfSome result
            (λ at. self.new.answers.items ≡ self.old.answers.items ++ true_after from at) }
        ensures length { IfNone result
            (vec_len self.new.answers ≡ vec_len self.old.answers + (to - from)) }
        ensures inside { IfSome result (λ at. (from ≤ at) × (at < to)) }
        ensures room { vec_capacity self.new.answers ≡ vec_capacity self.old.answers }
        ensures count { vec_len self.new.sleepers ≡ vec_len self.old.sleepers }
    {
        for at in from..to {
            if self.ask(at) {
                return Some(at);
            }
        }
        None
    }

    /// Goes to sleep in every shard, and says whether it sleeps: no shard had a task, and no copy of the
    /// waker was refused. If it says no, it is awake in every shard.
    pub(crate) fn sleep(&mut self, w: &W) -> bool
        ensures asleep { IsTrue result
            → All (λ s. is_some s.inner.number ≡ true) self.new.sleepers.items }
        ensures awake { result ≡ false → All (λ s. s.inner.number ≡ None) self.new.sleepers.items }
        ensures answers { self.new.answers ≡ self.old.answers }
        ensures count { vec_len self.new.sleepers ≡ vec_len self.old.sleepers }
    {
        for at in 0..self.sleepers.len() {
            match self.sleepers[at].sleep(w) {
                Ok(true) => {}
                Ok(false) | Err(OutOfMemory) => {
                    // What it owes in one of them is searched for in the next poll.
                    self.leave();
                    return false;
                }
            }
        }
        true
    }
}
