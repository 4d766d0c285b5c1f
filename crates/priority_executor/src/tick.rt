//! A tick of all levels.
ghost use Rattle.std.specs.Prelude.{◌≡◌, ◌+◌, ◌-◌, ◌<◌, ◌≤◌, ◌^◌, false, true, None, All, IfSome, IsTrue, is_none, is_some, length, vec_len};
ghost use Rattle.async_executor.specs.Answers.{is_ready};

use crate::answers::Answers;
use crate::asker::{Asker, choose};
use async_executor::{Future, OutOfMemory, Poll, Sleeper, TaskWaker, Wake};
use std::sync::Wait;

/// A future that runs one task of an executor with N levels, and sleeps while none is scheduled.
///
/// It leaves the sleepers of every level before it runs a task, and passes on what it was notified of in
/// the levels above: so an urgent task that is scheduled meanwhile wakes another tick, and waits for no
/// poll of a task of a higher level.
///
/// If it is dropped asleep, it leaves the sleepers of each level, and if it was notified in one, another
/// sleeper of that level is woken in its place.
///
/// Example: `uses::ticks_any_level`, and of an accept loop `uses::accepts`.
///
/// ```text
/// let executor: Levels<R> = PriorityExecutor::new(rt.clone()?, alloc)?;
/// let mut tick = executor.tick()?;
/// let asleep = tick.poll(&NoopWaker);
/// executor.spawn(1, Ready::new(7))?.detach();
/// // [Pending, Ready(())]
/// Ok([asleep, tick.poll(&NoopWaker)])
/// ```
#[derive(Drop)]
pub struct PriorityTick<'a, F, W, R, const N: usize>
where
    F: Future<TaskWaker<W, R>>,
    W: Wake,
    R: Wait + Drop,
{
    // Sleepers and no ticks: one that ran a task of a level would stand among the sleepers of the levels
    // below meanwhile, and an urgent task would wait for that poll.
    pub(crate) sleepers: Option<LevelSleepers<Sleeper<'a, F, W, R>, N>>,
}

/// What T is of each level, which is its sleeper. There are none once a task was run.
#[derive(Drop)]
pub(crate) struct LevelSleepers<T, const N: usize> {
    pub(crate) levels: Vec<T>,
    ghost count: { vec_len levels ≡ N },
    ghost few: { N < 2 ^ 32 },
}

impl<F, W, R, const N: usize> Future<W> for PriorityTick<'_, F, W, R, N>
where
    F: Future<TaskWaker<W, R>>,
    W: Wake,
    R: Wait + Drop,
{
    type Output = ();

    /// Leaves the sleepers of each level, looks at the levels in order until one has a task, runs that
    /// task, and is ready then. If none has, a copy of the waker is kept in each level, and is woken once
    /// there may be a task in one. If a task comes meanwhile, or a copy is refused, the waker itself is
    /// woken. One that was ready stays so, and does nothing more.
    ///
    /// Example: `uses::ticks_any_level`, at `PriorityTick`.
    fn poll(&mut self, w: &W) -> Poll<()>
        ensures ended { is_ready result ≡ is_none self.new.sleepers }
        ensures again { self.old.sleepers ≡ None → self.new.sleepers ≡ None }
    {
        let Some(sleepers) = &mut self.sleepers else {
            return Poll::Ready(());
        };
        if sleepers.run_first() {
            self.sleepers = None;
            return Poll::Ready(());
        }
        if !sleepers.sleep(w) {
            w.wake();
        }
        Poll::Pending
    }
}

impl<T: Level, const N: usize> LevelSleepers<T, N> {
    // Looks at the levels in order, up to the first that has a task.
    fn first_with_task(&mut self) -> Option<usize>
        ensures { IfSome result (λ level. level < N) }
    {
        let mut looks = Looks {
            sleepers: self,
            answers: Answers::<N>::new(),
        };
        choose(&mut looks, N)
    }
}

impl<F, W, R, const N: usize> LevelSleepers<Sleeper<'_, F, W, R>, N>
where
    F: Future<TaskWaker<W, R>>,
    W: Wake,
    R: Wait + Drop,
{
    /// Leaves the sleepers of the levels that it looks at and of those above, and runs a task of the first
    /// that has one. It says whether it ran one.
    pub(crate) fn run_first(&mut self) -> bool {
        // A look before the take: only now it is known which levels are above, whose notices are passed
        // on before the task is run.
        let Some(level) = self.first_with_task() else {
            return false;
        };
        for above in level + 1..N {
            self.levels[above].pass_on();
        }
        self.levels[level].try_tick_any()
    }

    /// Goes to sleep in each level, and says whether it sleeps: none had a task, and no copy was refused. If
    /// it says no, it is awake in each.
    pub(crate) fn sleep(&mut self, w: &W) -> bool
        ensures asleep { IsTrue result
            → All (λ s. is_some s.inner.number ≡ true) self.new.levels.items }
        ensures awake { result ≡ false → All (λ s. s.inner.number ≡ None) self.new.levels.items }
    {
        for level in 0..N {
            match self.levels[level].sleep(w) {
                Ok(true) => {}
                Ok(false) | Err(OutOfMemory) => {
                    self.leave();
                    return false;
                }
            }
        }
        true
    }

    /// Leaves the sleepers of each level. What it owes is searched for in the next poll.
    pub(crate) fn leave(&mut self)
        ensures { All (λ s. s.inner.number ≡ None) self.new.levels.items }
    {
        for level in 0..N {
            self.levels[level].leave();
        }
    }
}

// What a choice asks of a level.
trait Level {
    // Leaves the sleepers of this level, and says whether it has a task.
    fn has_task(&mut self) -> bool;
}

impl<F, W, R> Level for Sleeper<'_, F, W, R>
where
    F: Future<TaskWaker<W, R>>,
    W: Wake,
    R: Wait + Drop,
{
    fn has_task(&mut self) -> bool {
        self.look()
    }
}

// A level is asked by a look at its queues.
#[derive(Drop)]
struct Looks<'a, T, const N: usize> {
    sleepers: &'a mut LevelSleepers<T, N>,
    answers: Answers<N>,
}

impl<T: Level, const N: usize> Asker for Looks<'_, T, N> {
    ghost answers = { λ s. s.answers };

    ghost places = { λ s. N - length s.answers };

    fn ask(&mut self, level: usize) -> bool {
        let sleepers = &mut *self.sleepers;
        let has_task = match sleepers.levels.get_mut(level) {
            Some(sleeper) => sleeper.has_task(),
            None => false,
        };
        self.answers.push(level, has_task);
        has_task
    }
}
