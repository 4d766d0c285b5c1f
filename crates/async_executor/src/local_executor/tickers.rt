//! The futures that run the tasks of a local executor.
ghost use Rattle.std.specs.Prelude.{◌≡◌, false, IsTrue};
ghost use Rattle.async_executor.specs.Answers.{is_ready};
ghost use Rattle.async_executor.specs.Runs.{has_ended};
ghost use Rattle.async_executor.specs.Runs.Fixed.{fixed};

use crate::futures::LocalStorage;
use crate::runner::RunIn;
use crate::ticker::TickIn;
use crate::waker::TaskWaker;
use executor_core::task::{Future, Poll, Wake};
use std::sync::Wait;

/// As `Tick`, of an executor that stays on its thread, as this does.
///
/// Example: `uses::ticks_locally`, at `LocalExecutor::tick`.
pub struct LocalTick<'a, F, W, R>
where
    F: Future<TaskWaker<W, R>>,
    W: Wake,
    R: Wait + Drop,
{
    pub(crate) inner: TickIn<'a, LocalStorage<F, W, R>>,
}

impl<F, W, R> Future<W> for LocalTick<'_, F, W, R>
where
    F: Future<TaskWaker<W, R>>,
    W: Wake,
    R: Wait + Drop,
{
    type Output = ();

    /// As the poll of `Tick`.
    #[inline(always)]
    fn poll(&mut self, w: &W) -> Poll<()>
        ensures ended { self.new.inner.rest.ended ≡ is_ready result }
        ensures again { IsTrue self.old.inner.rest.ended
            → self.new.inner.rest ≡ self.old.inner.rest }
    {
        self.inner.poll(w)
    }
}

impl<F, W, R> Drop for LocalTick<'_, F, W, R>
where
    F: Future<TaskWaker<W, R>>,
    W: Wake,
    R: Wait + Drop,
{
    fn drop(self) {
        let LocalTick { inner } = self;
        drop(inner);
    }
}

/// As `Run`, of an executor that stays on its thread, as this does.
///
/// Example: `uses::runs_locally`, at `LocalExecutor`.
pub struct LocalRun<'a, F, W, R, G>
where
    F: Future<TaskWaker<W, R>>,
    W: Wake,
    R: Wait + Drop,
    G: Future<W>,
{
    pub(crate) inner: RunIn<'a, LocalStorage<F, W, R>, G>,
}

impl<F, W, R, G> Future<W> for LocalRun<'_, F, W, R, G>
where
    F: Future<TaskWaker<W, R>>,
    W: Wake,
    R: Wait + Drop,
    G: Future<W>,
{
    type Output = G::Output;

    /// As the poll of `Run`.
    #[inline(always)]
    fn poll(&mut self, w: &W) -> Poll<G::Output>
        ensures fixed { fixed self.new.inner.rest.runner ≡ fixed self.old.inner.rest.runner }
        ensures ended { has_ended self.old.inner.rest ≡ false
            → has_ended self.new.inner.rest ≡ is_ready result }
        ensures again { IsTrue (has_ended self.old.inner.rest)
            → (self.new.inner.rest ≡ self.old.inner.rest) × (is_ready result ≡ false) }
    {
        self.inner.poll(w)
    }
}

impl<F, W, R, G> Drop for LocalRun<'_, F, W, R, G>
where
    F: Future<TaskWaker<W, R>>,
    W: Wake,
    R: Wait + Drop,
    G: Future<W>,
{
    fn drop(self) {
        let LocalRun { inner } = self;
        drop(inner);
    }
}
