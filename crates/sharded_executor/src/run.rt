//! The run of a sharded executor.
ghost use Rattle.std.specs.Prelude.{◌≡◌, ◌<◌, ◌≤◌, None, IfOk, IfErr, IfSome, false, true, is_none, is_some, length, vec_len};
ghost use Rattle.async_executor.specs.Answers.{is_ready};
ghost use Rattle.async_executor.specs.RunError.{run_future};
ghost use Rattle.sharded_executor.specs.Order.{IsServed};

use crate::members::Members;
use crate::progress::Count;
use async_executor::runner::RandomGenerator;
use async_executor::{Executor, Future, Poll, RunError, RunnerError, TaskWaker, Wake};
use std::alloc::Global;
use std::sync::Wait;

/// After so many turns of its own shard a run looks at another one.
const TURNS: u32 = 4;

/// A future that runs tasks of a sharded executor beside the future G, and ends with the output of G.
///
/// It runs the tasks of its own shard, a turn in each poll. If none is left there, it helps another: it
/// asks the other shards, from one at random on, each once, and runs a handful of tasks of the first that
/// has one. It sleeps only if none has any. After every fourth turn it looks at another shard, and takes one
/// task there if no run of that shard had a turn since it last looked. So no shard waits for ever for who is
/// never idle, and those that are busy leave one another alone.
///
/// If it is dropped asleep, it leaves the sleepers of every shard, and if it was notified in one, another
/// sleeper of that shard is woken in its place.
///
/// Example: `uses::runs_shards`.
///
/// ```text
/// let executor = ShardedExecutor::new(rt.clone()?, alloc, 2)?;
/// let one = executor.spawn(Ready::new(1))?;
/// let two = executor.spawn(Ready::new(2))?;
/// let run = executor.run(0, Zip::new(one, two))?;
/// let (first, second) = block_on(rt, alloc, run)?;
/// // (1, 2)
/// Ok((first?, second?))
/// ```
#[derive(Drop)]
pub struct ShardedRun<'a, F, W, R, G>
where
    F: Future<TaskWaker<W, R>>,
    W: Wake,
    R: Wait + Drop,
    G: Future<W>,
{
    going: Option<Going<'a, F, W, R, G>>,
}

// A run that has not ended. Its own future is dropped first: it may hold handles, whose tasks are queued as
// they are cancelled.
#[derive(Drop)]
struct Going<'a, F, W, R, G>
where
    F: Future<TaskWaker<W, R>>,
    W: Wake,
    R: Wait + Drop,
    G: Future<W>,
{
    own: G,
    members: Members<'a, F, W, R>,
    random: RandomGenerator,
    turns: u32,
    // The place of a shard that it looks at next, and how many turns the runs there had had.
    watched: usize,
    had: u64,
    // Whether the last poll left it among the sleepers of every shard.
    is_asleep: bool,
    ghost few: { turns < 4 },
}

impl<'a, F, W, R, G> ShardedRun<'a, F, W, R, G>
where
    F: Future<TaskWaker<W, R>>,
    W: Wake,
    R: Wait + Drop,
    G: Future<W>,
{
    /// A run of the shard of this number, which was never polled.
    pub(crate) fn new(
        shards: &'a Vec<Executor<F, W, R>>,
        turns: &'a [Count],
        alloc: Global,
        number: usize,
        own: G,
    ) -> Result<ShardedRun<'a, F, W, R, G>, RunError<G>>
        requires inside { number < vec_len shards.now }
        requires counted { length turns.now ≡ vec_len shards.now }
        ensures ok { IfOk result (λ run. is_some run.going ≡ true) }
        ensures refused { IfErr result (λ e. run_future e ≡ own) }
    {
        match Members::new(shards, turns, alloc, number) {
            Ok(members) => Ok(ShardedRun {
                going: Some(Going {
                    own,
                    members,
                    random: RandomGenerator::new(number as u64),
                    turns: 0,
                    watched: 0,
                    had: 0,
                    is_asleep: false,
                }),
            }),
            Err(RunnerError::OutOfMemory) => Err(RunError::OutOfMemory(own)),
            Err(RunnerError::Exhausted) => Err(RunError::Exhausted(own)),
        }
    }
}

impl<F, W, R, G> Going<'_, F, W, R, G>
where
    F: Future<TaskWaker<W, R>>,
    W: Wake,
    R: Wait + Drop,
    G: Future<W>,
{
    // Answers what it was notified of, and runs tasks of the first shard that has one, or sleeps if none has.
    fn serve(&mut self, w: &W)
        ensures { IsServed (λ s. s.inner.number) self.new.is_asleep self.new.members.sleepers.items
            self.new.members.answers.items }
    {
        if let Some(at) = self.members.leave() {
            self.members.help(at);
        }
        let first = self.another();
        match self.members.search(first) {
            None => self.is_asleep = self.members.sleep(w),
            Some(at) => {
                if at == 0 {
                    self.look_around();
                }
                self.is_asleep = false;
            }
        }
    }

    // Polls the own future, and unless that is ready serves the shards, and wakes the waker if it does not
    // sleep.
    fn poll(&mut self, w: &W) -> Poll<G::Output>
        ensures { is_ready result ≡ false
            → IsServed (λ s. s.inner.number) self.new.is_asleep self.new.members.sleepers.items
            self.new.members.answers.items }
    {
        if let Poll::Ready(output) = self.own.poll(w) {
            return Poll::Ready(output);
        }
        self.serve(w);
        if !self.is_asleep {
            w.wake();
        }
        Poll::Pending
    }

    // The place of a shard at random, other than the own one if there is another.
    fn another(&mut self) -> usize
        ensures low { 0 < result }
        ensures high { result ≤ vec_len self.new.members.sleepers }
        ensures count { self.new.members.sleepers ≡ self.old.members.sleepers }
    {
        let others = self.members.count() - 1;
        if others == 0 {
            return 1;
        }
        1 + (self.random.next() % others as u64) as usize
    }

    // Looks at another shard after so many turns of the own one, and takes a task there if nobody had a turn
    // since. To take one of a shard that is busy would cost both threads what lies in their caches.
    fn look_around(&mut self) {
        self.turns += 1;
        if self.turns < TURNS {
            return;
        }
        self.turns = 0;
        let watched = self.watched;
        if 0 < watched
            && watched < self.members.count()
            && self.members.turns_at(watched) == self.had
        {
            self.members.run_one(watched);
        }
        let next = self.another();
        if next < self.members.count() {
            self.had = self.members.turns_at(next);
        }
        self.watched = next;
    }
}

impl<F, W, R, G> Future<W> for ShardedRun<'_, F, W, R, G>
where
    F: Future<TaskWaker<W, R>>,
    W: Wake,
    R: Wait + Drop,
    G: Future<W>,
{
    type Output = G::Output;

    /// Polls the own future, and if that is ready, is ready with its output: all places are given back.
    /// Else it leaves the sleepers of every shard, searches for what it was notified of, and runs tasks of
    /// the first shard that has one, its own being the first. If none has any, a copy of the waker is kept
    /// in every shard, and is woken once there may be a task in one. If a task was run, or seen, or a copy
    /// is refused, the waker itself is woken. A run that was ready wakes it and is pending, and does
    /// nothing more.
    ///
    /// Example: `uses::runs_shards`, at `ShardedRun`.
    fn poll(&mut self, w: &W) -> Poll<G::Output>
        ensures ended { is_some self.old.going ≡ true → is_none self.new.going ≡ is_ready result }
        ensures again { self.old.going ≡ None
            → (self.new.going ≡ None) × (is_ready result ≡ false) }
        ensures served { is_ready result ≡ false
            → IfSome self.new.going
            (λ g. IsServed
            (λ s. s.inner.number) g.is_asleep g.members.sleepers.items g.members.answers.items) }
    {
        let polled = match &mut self.going {
            Some(going) => going.poll(w),
            None => {
                w.wake();
                return Poll::Pending;
            }
        };
        if matches!(&polled, Poll::Ready(_)) {
            self.going = None;
        }
        polled
    }
}
