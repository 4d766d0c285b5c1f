//! The futures that run the tasks of an executor.
ghost use Rattle.std.specs.Prelude.{◌≡◌, false, IsTrue};
ghost use Rattle.async_executor.specs.Answers.{is_ready};
ghost use Rattle.async_executor.specs.Runs.{has_ended};
ghost use Rattle.async_executor.specs.Runs.Fixed.{fixed};

use crate::futures::SharedStorage;
use crate::runner::RunIn;
use crate::ticker::TickIn;
use crate::waker::TaskWaker;
use executor_core::task::{Future, Poll, Wake};
use std::sync::Wait;

/// A future that runs one task of an executor, and sleeps while none is scheduled.
///
/// If it is dropped asleep, it leaves the sleepers, and if it was notified, another sleeper is
/// woken in its place. It stands for the future that `Executor::tick` of the Rust crate gives.
///
/// Example: `uses::ticks`, at `Executor::tick`, and on threads that park `uses::parks`.
pub struct Tick<'a, F, W, R>
where
    F: Future<TaskWaker<W, R>>,
    W: Wake,
    R: Wait + Drop,
{
    pub(crate) inner: TickIn<'a, SharedStorage<F, W, R>>,
}

impl<F, W, R> Future<W> for Tick<'_, F, W, R>
where
    F: Future<TaskWaker<W, R>>,
    W: Wake,
    R: Wait + Drop,
{
    type Output = ();

    /// Runs the task that was scheduled first, and is ready then. If none is scheduled, a copy
    /// of the waker is kept, in place of an earlier one, and is woken once there may be one. If
    /// the copy is refused, the waker itself is woken and nothing is kept. A tick that was ready
    /// stays so, and does nothing more.
    #[inline(always)]
    fn poll(&mut self, w: &W) -> Poll<()>
        ensures ended { self.new.inner.rest.ended ≡ is_ready result }
        ensures again { IsTrue self.old.inner.rest.ended
            → self.new.inner.rest ≡ self.old.inner.rest }
    {
        self.inner.poll(w)
    }
}

// By hand, as that of a run: it borrows its executor, and the borrow checker does not cover a derived
// drop of such a type in another crate.
impl<F, W, R> Drop for Tick<'_, F, W, R>
where
    F: Future<TaskWaker<W, R>>,
    W: Wake,
    R: Wait + Drop,
{
    fn drop(self) {
        let Tick { inner } = self;
        drop(inner);
    }
}

/// A future that runs tasks of an executor beside the future G, and ends with the output of G.
///
/// Each thread that polls one takes part in the work: a run has a queue of its own, and steals from
/// the others. When it is dropped, its tasks go to the queue that all share, and if it was
/// notified, another sleeper is woken in its place. It stands for the future that `Executor::run` of
/// the Rust crate gives.
///
/// Example: `uses::runs_beside`, at `Executor::run`, and on several threads `uses::pools`.
pub struct Run<'a, F, W, R, G>
where
    F: Future<TaskWaker<W, R>>,
    W: Wake,
    R: Wait + Drop,
    G: Future<W>,
{
    pub(crate) inner: RunIn<'a, SharedStorage<F, W, R>, G>,
}

impl<F, W, R, G> Future<W> for Run<'_, F, W, R, G>
where
    F: Future<TaskWaker<W, R>>,
    W: Wake,
    R: Wait + Drop,
    G: Future<W>,
{
    type Output = G::Output;

    /// Polls the own future, and if that is ready, is ready with its output. Otherwise runs tasks until
    /// none is left, or a whole turn was run since it yielded last. If none is left, a copy of the
    /// waker is kept, in place of an earlier one, and is woken once there may be a task. After a
    /// turn, or if the copy is refused, the waker itself is woken. A run that was ready wakes it
    /// and is pending, and does nothing more.
    #[inline(always)]
    fn poll(&mut self, w: &W) -> Poll<G::Output>
        ensures fixed { fixed self.new.inner.rest.runner ≡ fixed self.old.inner.rest.runner }
        ensures ended { has_ended self.old.inner.rest ≡ false
            → has_ended self.new.inner.rest ≡ is_ready result }
        ensures again { IsTrue (has_ended self.old.inner.rest)
            → (self.new.inner.rest ≡ self.old.inner.rest) × (is_ready result ≡ false) }
    {
        self.inner.poll(w)
    }
}

impl<F, W, R, G> Drop for Run<'_, F, W, R, G>
where
    F: Future<TaskWaker<W, R>>,
    W: Wake,
    R: Wait + Drop,
    G: Future<W>,
{
    fn drop(self) {
        let Run { inner } = self;
        drop(inner);
    }
}
