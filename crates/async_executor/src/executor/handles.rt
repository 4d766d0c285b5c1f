//! The handles of an executor's tasks.
ghost use Rattle.std.specs.Prelude.{◌≡◌, IsTrue};
ghost use Rattle.async_executor.specs.Answers.{is_ready, IsReadyErr, IsReadyNone};

use crate::futures::SharedStorage;
use crate::scheduler::Handle;
use crate::task::{Cancelled, TaskIn, some_if_ok};
use crate::waker::TaskWaker;
use executor_core::task::{Future, Poll, Wake};
use std::sync::Wait;

/// The handle of a task that was spawned: a future of its output, or of `Cancelled`.
///
/// If it is dropped before it has answered, the task is cancelled: its future is dropped in
/// place of its next poll, and an output that is there is dropped with the handle. It stands for
/// the `Task` of the Rust crate.
///
/// Example: `uses::drops_handle`.
///
/// ```text
/// let executor: Executor<Ready<u64>, NoopWaker, R> = Executor::new(rt.clone()?, alloc)?;
/// let task = executor.spawn(Ready::new(7))?;
/// drop(task);
/// // [true, true]
/// Ok([executor.try_tick(), executor.is_empty()])
/// ```
#[derive(Drop)]
pub struct Task<F, W, R>
where
    F: Future<TaskWaker<W, R>>,
    W: Wake,
    R: Wait + Drop,
{
    pub(crate) inner: TaskIn<SharedStorage<F, W, R>>,
}

impl<F, W, R> Task<F, W, R>
where
    F: Future<TaskWaker<W, R>>,
    W: Wake,
    R: Wait + Drop,
{
    /// Lets the task run on without a handle. Its output is dropped once it is there.
    ///
    /// Example: `uses::lets_run_on`.
    ///
    /// ```text
    /// let executor: Executor<Ready<u64>, NoopWaker, R> = Executor::new(rt.clone()?, alloc)?;
    /// let task = executor.spawn(Ready::new(7))?;
    /// task.detach();
    /// // [true, true]
    /// Ok([executor.try_tick(), executor.is_empty()])
    /// ```
    #[inline(always)]
    pub fn detach(self) {
        let Task { inner } = self;
        inner.detach();
    }

    /// Cancels the task at once: it is scheduled, and its future is dropped in place of its next
    /// poll. What is given is a future that ends once the future of the task was dropped.
    ///
    /// Example: `uses::cancels_and_awaits`.
    ///
    /// ```text
    /// let executor = Executor::new(rt.clone()?, alloc)?;
    /// let mut cancel = executor.spawn(Ready::new(7))?.cancel();
    /// let before = cancel.poll(&NoopWaker);
    /// executor.try_tick();
    /// // [Pending, Ready(None)]
    /// Ok([before, cancel.poll(&NoopWaker)])
    /// ```
    #[inline(always)]
    pub fn cancel(self) -> Cancel<F, W, R>
        ensures { result.task.inner.answered ≡ self.inner.answered }
    {
        self.inner.cancel();
        Cancel { task: self }
    }

    /// The same task, with `None` in place of `Cancelled`.
    ///
    /// Example: `uses::has_no_output`.
    ///
    /// ```text
    /// let executor = Executor::new(rt.clone()?, alloc)?;
    /// let mut task = executor.spawn(Ready::new(7))?.fallible();
    /// drop(executor);
    /// // Ready(None)
    /// Ok(task.poll(&NoopWaker))
    /// ```
    pub fn fallible(self) -> FallibleTask<F, W, R>
        ensures { result.task.inner.answered ≡ self.inner.answered }
    {
        FallibleTask { task: self }
    }

    /// Whether the task has ended or was cancelled, or this handle has answered.
    ///
    /// Example: `uses::finishes`.
    ///
    /// ```text
    /// let executor: Executor<Ready<u64>, NoopWaker, R> = Executor::new(rt.clone()?, alloc)?;
    /// let task = executor.spawn(Ready::new(7))?;
    /// let before = task.is_finished();
    /// executor.try_tick();
    /// // [false, true]
    /// Ok([before, task.is_finished()])
    /// ```
    pub fn is_finished(&self) -> bool
        ensures { IsTrue self.now.inner.answered → IsTrue result }
    {
        self.inner.is_finished()
    }
}

impl<F, W, R> Handle<SharedStorage<F, W, R>> for Task<F, W, R>
where
    F: Future<TaskWaker<W, R>>,
    W: Wake,
    R: Wait + Drop,
{
    ghost answered = { λ task. task.inner.answered };

    fn of(inner: TaskIn<SharedStorage<F, W, R>>) -> Self
        ensures { result.inner.answered ≡ inner.answered }
    {
        Task { inner }
    }
}

impl<F, W, R> Future<W> for Task<F, W, R>
where
    F: Future<TaskWaker<W, R>>,
    W: Wake,
    R: Wait + Drop,
{
    type Output = Result<F::Output, Cancelled>;

    /// Gives the output, which goes out once: a handle that has answered answers `Cancelled` from
    /// then on. While there is no answer, a copy of the waker is kept, in place of an earlier one,
    /// and is woken once there is one. If the copy is refused, the waker itself is woken and
    /// nothing is kept.
    ///
    /// Example: `uses::asks_twice`.
    ///
    /// ```text
    /// let executor = Executor::new(rt.clone()?, alloc)?;
    /// let mut task = executor.spawn(Ready::new(7))?;
    /// executor.try_tick();
    /// let first = task.poll(&NoopWaker);
    /// // [Ready(Ok(7)), Ready(Err(Cancelled))]
    /// Ok([first, task.poll(&NoopWaker)])
    /// ```
    #[inline(always)]
    fn poll(&mut self, w: &W) -> Poll<Result<F::Output, Cancelled>>
        ensures answered { self.new.inner.answered ≡ is_ready result }
        ensures again { IsTrue self.old.inner.answered → IsReadyErr result }
    {
        self.inner.poll(w)
    }
}

/// The handle of a task that was cancelled: a future that ends once the future of the task was
/// dropped.
///
/// It gives the output if the task had ended before it was cancelled. When it is dropped, the
/// task is let go. It stands for the future that `Task::cancel` of the Rust crate gives.
///
/// Example: `uses::cancels_and_awaits`, at `Task::cancel`.
#[derive(Drop)]
pub struct Cancel<F, W, R>
where
    F: Future<TaskWaker<W, R>>,
    W: Wake,
    R: Wait + Drop,
{
    task: Task<F, W, R>,
}

impl<F, W, R> Future<W> for Cancel<F, W, R>
where
    F: Future<TaskWaker<W, R>>,
    W: Wake,
    R: Wait + Drop,
{
    type Output = Option<F::Output>;

    /// As the poll of `Task`, with `None` in place of `Cancelled`.
    #[inline(always)]
    fn poll(&mut self, w: &W) -> Poll<Option<F::Output>>
        ensures answered { self.new.task.inner.answered ≡ is_ready result }
        ensures again { IsTrue self.old.task.inner.answered → IsReadyNone result }
    {
        some_if_ok(self.task.poll(w))
    }
}

/// The handle of a task: a future of its output, or of `None` if the task was cancelled.
///
/// Its drop is that of `Task`. It stands for the `FallibleTask` of the Rust crate.
///
/// Example: `uses::has_no_output`, at `Task::fallible`.
#[derive(Drop)]
pub struct FallibleTask<F, W, R>
where
    F: Future<TaskWaker<W, R>>,
    W: Wake,
    R: Wait + Drop,
{
    task: Task<F, W, R>,
}

impl<F, W, R> FallibleTask<F, W, R>
where
    F: Future<TaskWaker<W, R>>,
    W: Wake,
    R: Wait + Drop,
{
    /// As `Task::detach`, for a `FallibleTask`.
    ///
    /// Example: `uses::ends_fallibly`.
    ///
    /// ```text
    /// let executor = Executor::new(rt.clone()?, alloc)?;
    /// executor.spawn(Ready::new(1))?.fallible().detach();
    /// let mut cancel = executor.spawn(Ready::new(2))?.fallible().cancel();
    /// executor.try_tick();
    /// executor.try_tick();
    /// // (true, Ready(None))
    /// Ok((executor.is_empty(), cancel.poll(&NoopWaker)))
    /// ```
    pub fn detach(self) {
        let FallibleTask { task } = self;
        task.detach();
    }

    /// As `Task::cancel`, for a `FallibleTask`.
    ///
    /// Example: `uses::ends_fallibly`, at `FallibleTask::detach`.
    pub fn cancel(self) -> Cancel<F, W, R>
        ensures { result.task.inner.answered ≡ self.task.inner.answered }
    {
        let FallibleTask { task } = self;
        task.cancel()
    }

    /// As `Task::is_finished`, for a `FallibleTask`.
    ///
    /// Example: `uses::finishes_fallibly`.
    ///
    /// ```text
    /// let executor: Executor<Ready<u64>, NoopWaker, R> = Executor::new(rt.clone()?, alloc)?;
    /// let task = executor.spawn(Ready::new(7))?.fallible();
    /// let before = task.is_finished();
    /// executor.try_tick();
    /// // [false, true]
    /// Ok([before, task.is_finished()])
    /// ```
    pub fn is_finished(&self) -> bool
        ensures { IsTrue self.now.task.inner.answered → IsTrue result }
    {
        self.task.is_finished()
    }
}

impl<F, W, R> Future<W> for FallibleTask<F, W, R>
where
    F: Future<TaskWaker<W, R>>,
    W: Wake,
    R: Wait + Drop,
{
    type Output = Option<F::Output>;

    /// As the poll of `Task`, with `None` in place of `Cancelled`.
    fn poll(&mut self, w: &W) -> Poll<Option<F::Output>>
        ensures answered { self.new.task.inner.answered ≡ is_ready result }
        ensures again { IsTrue self.old.task.inner.answered → IsReadyNone result }
    {
        some_if_ok(self.task.poll(w))
    }
}
