//! What futures and wakers are.
use crate::task::error::OutOfMemory;

/// Asks whoever polls for another poll. It stands for `std::task::Waker`.
///
/// Example: `uses::send`, which `uses::receives` calls.
///
/// ```text
/// let mut channel = sender.lock(rt);
/// channel.number = Some(number);
/// let waker = channel.waker.take();
/// drop(channel);
/// if let Some(waker) = waker {
///     waker.wake();
/// }
/// ```
pub trait Wake: Drop {
    /// Asks for another poll of the future.
    fn wake(&self);

    /// A second waker for the same poll of the future.
    ///
    /// # Errors
    ///
    /// `OutOfMemory` if memory for it is refused.
    fn copy(&self) -> Result<Self, OutOfMemory>;
}

/// The answer of a poll. It stands for `std::task::Poll`.
///
/// Example: `uses::polls_by_hand`, at `Future`.
#[derive(Debug, PartialEq, Eq, Drop)]
pub enum Poll<T> {
    /// The future gave this, and is not to be polled again.
    Ready(T),
    /// Not yet: the waker that was passed is woken once another poll is worth making.
    Pending,
}

/// What is polled to its end, by wakers of the type W. It stands for `std::future::Future`.
///
/// Example: `uses::polls_by_hand`, of a `Twice`, and of two kinds in one type `uses::mixes`.
///
/// ```text
/// let mut twice = Twice { polls: 0 };
/// let first = twice.poll(&NoopWaker);
/// // [Pending, Ready(2)]
/// [first, twice.poll(&NoopWaker)]
/// ```
pub trait Future<W>: Drop {
    /// What it gives in the end.
    type Output: Drop;

    /// Polls the future: it goes on as far as it can, and has the waker woken once it can go on.
    fn poll(&mut self, w: &W) -> Poll<Self::Output>;
}

/// A future on the heap is polled there, and only its address is moved.
///
/// Example: `uses::runs_a_box`.
///
/// ```text
/// let executor = Executor::new(rt.clone()?, alloc)?;
/// let future = Box::new(alloc, Ready::new(7))?;
/// let task = executor.spawn(future)?;
/// // 7
/// Ok(run_until(rt, alloc, &executor, task)??)
/// ```
impl<W, F: Future<W>> Future<W> for Box<F> {
    type Output = F::Output;

    fn poll(&mut self, w: &W) -> Poll<F::Output> {
        (**self).poll(w)
    }
}
