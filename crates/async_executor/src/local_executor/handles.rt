//! The handles of a local executor's tasks.
ghost use Rattle.std.specs.Prelude.{◌≡◌, IsTrue};
ghost use Rattle.async_executor.specs.Answers.{is_ready, IsReadyErr, IsReadyNone};

use crate::futures::LocalStorage;
use crate::scheduler::Handle;
use crate::task::{Cancelled, TaskIn, some_if_ok};
use crate::waker::TaskWaker;
use executor_core::task::{Future, Poll, Wake};
use std::sync::Wait;

/// As `Task`, of a task that stays on the thread of its executor, as its handle does.
///
/// Example: `uses::finishes_locally`.
///
/// ```text
/// let executor = LocalExecutor::new(rt.clone()?, alloc)?;
/// let mut task = executor.spawn(Ready::new(7))?;
/// let before = task.is_finished();
/// executor.try_tick();
/// // (false, true, Ready(Ok(7)))
/// Ok((before, task.is_finished(), task.poll(&NoopWaker)))
/// ```
#[derive(Drop)]
pub struct LocalTask<F, W, R>
where
    F: Future<TaskWaker<W, R>>,
    W: Wake,
    R: Wait + Drop,
{
    pub(crate) inner: TaskIn<LocalStorage<F, W, R>>,
}

impl<F, W, R> LocalTask<F, W, R>
where
    F: Future<TaskWaker<W, R>>,
    W: Wake,
    R: Wait + Drop,
{
    /// As `Task::detach`, for a `LocalTask`.
    ///
    /// Example: `uses::limits_locally`, at `LocalExecutor::new_with`.
    #[inline(always)]
    pub fn detach(self) {
        let LocalTask { inner } = self;
        inner.detach();
    }

    /// As `Task::cancel`, for a `LocalTask`.
    ///
    /// Example: `uses::cancels_locally`.
    ///
    /// ```text
    /// let executor = LocalExecutor::new(rt.clone()?, alloc)?;
    /// let mut cancel = executor.spawn(Ready::new(7))?.cancel();
    /// let before = cancel.poll(&NoopWaker);
    /// executor.try_tick();
    /// // [Pending, Ready(None)]
    /// Ok([before, cancel.poll(&NoopWaker)])
    /// ```
    #[inline(always)]
    pub fn cancel(self) -> LocalCancel<F, W, R>
        ensures { result.task.inner.answered ≡ self.inner.answered }
    {
        self.inner.cancel();
        LocalCancel { task: self }
    }

    /// As `Task::fallible`, for a `LocalTask`.
    ///
    /// Example: `uses::has_no_local_output`.
    ///
    /// ```text
    /// let executor = LocalExecutor::new(rt.clone()?, alloc)?;
    /// let mut task = executor.spawn(Ready::new(7))?.fallible();
    /// drop(executor);
    /// // (true, Ready(None))
    /// Ok((task.is_finished(), task.poll(&NoopWaker)))
    /// ```
    pub fn fallible(self) -> LocalFallibleTask<F, W, R>
        ensures { result.task.inner.answered ≡ self.inner.answered }
    {
        LocalFallibleTask { task: self }
    }

    /// As `Task::is_finished`, for a `LocalTask`.
    ///
    /// Example: `uses::finishes_locally`, at `LocalTask`.
    pub fn is_finished(&self) -> bool
        ensures { IsTrue self.now.inner.answered → IsTrue result }
    {
        self.inner.is_finished()
    }
}

impl<F, W, R> Handle<LocalStorage<F, W, R>> for LocalTask<F, W, R>
where
    F: Future<TaskWaker<W, R>>,
    W: Wake,
    R: Wait + Drop,
{
    ghost answered = { λ task. task.inner.answered };

    fn of(inner: TaskIn<LocalStorage<F, W, R>>) -> Self
        ensures { result.inner.answered ≡ inner.answered }
    {
        LocalTask { inner }
    }
}

impl<F, W, R> Future<W> for LocalTask<F, W, R>
where
    F: Future<TaskWaker<W, R>>,
    W: Wake,
    R: Wait + Drop,
{
    type Output = Result<F::Output, Cancelled>;

    /// As the poll of `Task`.
    #[inline(always)]
    fn poll(&mut self, w: &W) -> Poll<Result<F::Output, Cancelled>>
        ensures answered { self.new.inner.answered ≡ is_ready result }
        ensures again { IsTrue self.old.inner.answered → IsReadyErr result }
    {
        self.inner.poll(w)
    }
}

/// As `Cancel`, of a task that stays on its thread.
///
/// Example: `uses::cancels_locally`, at `LocalTask::cancel`.
#[derive(Drop)]
pub struct LocalCancel<F, W, R>
where
    F: Future<TaskWaker<W, R>>,
    W: Wake,
    R: Wait + Drop,
{
    task: LocalTask<F, W, R>,
}

impl<F, W, R> Future<W> for LocalCancel<F, W, R>
where
    F: Future<TaskWaker<W, R>>,
    W: Wake,
    R: Wait + Drop,
{
    type Output = Option<F::Output>;

    /// As the poll of `Cancel`.
    #[inline(always)]
    fn poll(&mut self, w: &W) -> Poll<Option<F::Output>>
        ensures answered { self.new.task.inner.answered ≡ is_ready result }
        ensures again { IsTrue self.old.task.inner.answered → IsReadyNone result }
    {
        some_if_ok(self.task.poll(w))
    }
}

/// As `FallibleTask`, of a task that stays on its thread.
///
/// Example: `uses::has_no_local_output`, at `LocalTask::fallible`.
#[derive(Drop)]
pub struct LocalFallibleTask<F, W, R>
where
    F: Future<TaskWaker<W, R>>,
    W: Wake,
    R: Wait + Drop,
{
    task: LocalTask<F, W, R>,
}

impl<F, W, R> LocalFallibleTask<F, W, R>
where
    F: Future<TaskWaker<W, R>>,
    W: Wake,
    R: Wait + Drop,
{
    /// As `FallibleTask::detach`, for a `LocalFallibleTask`.
    ///
    /// Example: `uses::ends_locally`.
    ///
    /// ```text
    /// let executor = LocalExecutor::new(rt.clone()?, alloc)?;
    /// executor.spawn(Ready::new(1))?.fallible().detach();
    /// let mut cancel = executor.spawn(Ready::new(2))?.fallible().cancel();
    /// executor.try_tick();
    /// executor.try_tick();
    /// // (true, Ready(None))
    /// Ok((executor.is_empty(), cancel.poll(&NoopWaker)))
    /// ```
    pub fn detach(self) {
        let LocalFallibleTask { task } = self;
        task.detach();
    }

    /// As `FallibleTask::cancel`, for a `LocalFallibleTask`.
    ///
    /// Example: `uses::ends_locally`, at `LocalFallibleTask::detach`.
    pub fn cancel(self) -> LocalCancel<F, W, R>
        ensures { result.task.inner.answered ≡ self.task.inner.answered }
    {
        let LocalFallibleTask { task } = self;
        task.cancel()
    }

    /// As `FallibleTask::is_finished`, for a `LocalFallibleTask`.
    ///
    /// Example: `uses::has_no_local_output`, at `LocalTask::fallible`.
    pub fn is_finished(&self) -> bool
        ensures { IsTrue self.now.task.inner.answered → IsTrue result }
    {
        self.task.is_finished()
    }
}

impl<F, W, R> Future<W> for LocalFallibleTask<F, W, R>
where
    F: Future<TaskWaker<W, R>>,
    W: Wake,
    R: Wait + Drop,
{
    type Output = Option<F::Output>;

    /// As the poll of `FallibleTask`.
    fn poll(&mut self, w: &W) -> Poll<Option<F::Output>>
        ensures answered { self.new.task.inner.answered ≡ is_ready result }
        ensures again { IsTrue self.old.task.inner.answered → IsReadyNone result }
    {
        some_if_ok(self.task.poll(w))
    }
}
