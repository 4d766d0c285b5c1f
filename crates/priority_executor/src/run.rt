//! A run of all levels.
ghost use Rattle.std.specs.Prelude.{◌≡◌, true, false, None, All, IfSome, IsTrue, is_none, is_some};
ghost use Rattle.async_executor.specs.Answers.{is_ready};

use crate::tick::LevelSleepers;
use async_executor::{Executor, Future, Poll, Sleeper, TaskWaker, Wake};
use std::sync::Wait;

/// A poll of a run runs so many tasks at most: then it polls its own future again.
const TURN: u32 = 64;

/// A future that runs tasks of an executor with N levels beside the future G, and ends with the output of G.
///
/// It looks at the levels before each task, as a `PriorityTick` does, and has no queue of its own: so a task
/// that is scheduled goes before all of higher levels, and waits for no turn. It sleeps only if no level has
/// a task.
///
/// If it is dropped asleep, it leaves the sleepers of each level, and if it was notified in one, another
/// sleeper of that level is woken in its place.
///
/// Example: `uses::runs_levels`.
///
/// ```text
/// let executor: TwoLevels<R> = PriorityExecutor::new(rt.clone()?, alloc)?;
/// let later = executor.spawn(1, Ready::new(1))?;
/// let urgent = executor.spawn(0, Ready::new(2))?;
/// let run = executor.run(Zip::new(later, urgent))?;
/// let (one, two) = block_on(rt, alloc, run)?;
/// // 3
/// Ok(one?.saturating_add(two?))
/// ```
#[derive(Drop)]
pub struct PriorityRun<'a, F, W, R, G, const N: usize>
where
    F: Future<TaskWaker<W, R>>,
    W: Wake,
    R: Wait + Drop,
    G: Future<W>,
{
    pub(crate) going: Option<Going<'a, F, W, R, G, N>>,
}

/// A run that has not ended. Its own future is dropped first: it may hold handles, whose tasks are queued as
/// they are cancelled.
#[derive(Drop)]
pub(crate) struct Going<'a, F, W, R, G, const N: usize>
where
    F: Future<TaskWaker<W, R>>,
    W: Wake,
    R: Wait + Drop,
    G: Future<W>,
{
    pub(crate) own: G,
    pub(crate) sleepers: LevelSleepers<Sleeper<'a, F, W, R>, N>,
    // Whether the last poll left it among the sleepers of every level.
    pub(crate) is_asleep: bool,
    // A caller is proved only if what it borrows stands outside of a list, too.
    pub(crate) levels: &'a Vec<Executor<F, W, R>>,
}

impl<F, W, R, G, const N: usize> Going<'_, F, W, R, G, N>
where
    F: Future<TaskWaker<W, R>>,
    W: Wake,
    R: Wait + Drop,
    G: Future<W>,
{
    // Polls the own future, and unless that is ready runs the tasks of a turn, of any level, and goes to
    // sleep if there are fewer. If it does not sleep, it wakes the waker.
    fn poll(&mut self, w: &W) -> Poll<G::Output>
        ensures asleep { is_ready result ≡ false → self.new.is_asleep ≡ true
            → All (λ s. is_some s.inner.number ≡ true) self.new.sleepers.levels.items }
        ensures awake { is_ready result ≡ false → self.new.is_asleep ≡ false
            → All (λ s. s.inner.number ≡ None) self.new.sleepers.levels.items }
    {
        if let Poll::Ready(output) = self.own.poll(w) {
            return Poll::Ready(output);
        }
        self.is_asleep = !self.ran_a_turn() && self.sleepers.sleep(w);
        if !self.is_asleep {
            w.wake();
        }
        Poll::Pending
    }

    // Runs tasks, and says whether there were as many as a turn has. Then it is awake in each level.
    fn ran_a_turn(&mut self) -> bool
        ensures awake { IsTrue result
            → All (λ s. s.inner.number ≡ None) self.new.sleepers.levels.items }
    {
        for _ in 0..TURN {
            if !self.sleepers.run_first() {
                return false;
            }
        }
        self.sleepers.leave();
        true
    }
}

impl<F, W, R, G, const N: usize> Future<W> for PriorityRun<'_, F, W, R, G, N>
where
    F: Future<TaskWaker<W, R>>,
    W: Wake,
    R: Wait + Drop,
    G: Future<W>,
{
    type Output = G::Output;

    /// Polls the own future, and if that is ready, is ready with its output: all places are given back.
    /// Else it leaves the sleepers of each level, and runs one task after another, each of the lowest level
    /// that has one then, until none has any or a turn is over. If none has any, a copy of the waker is
    /// kept in each level, and is woken once there may be a task in one. If the turn is over, if a task
    /// comes meanwhile, or if a copy is refused, the waker itself is woken. A run that was ready wakes it
    /// and is pending, and does nothing more.
    ///
    /// Example: `uses::runs_levels`, at `PriorityRun`.
    fn poll(&mut self, w: &W) -> Poll<G::Output>
        ensures ended { is_some self.old.going ≡ true → is_none self.new.going ≡ is_ready result }
        ensures again { self.old.going ≡ None
            → (self.new.going ≡ None) × (is_ready result ≡ false) }
        ensures asleep { IfSome self.new.going
            (λ g. g.is_asleep ≡ true
            → All (λ s. is_some s.inner.number ≡ true) g.sleepers.levels.items) }
        ensures awake { IfSome self.new.going
            (λ g. g.is_asleep ≡ false → All (λ s. s.inner.number ≡ None) g.sleepers.levels.items) }
    {
        let polled = match &mut self.going {
            Some(going) => going.poll(w),
            None => {
                w.wake();
                return Poll::Pending;
            }
        };
        if matches!(&polled, Poll::Ready(_)) {
            self.going = None;
        }
        polled
    }
}
