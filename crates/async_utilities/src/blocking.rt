//! A thread that polls a future, and parks while it is not ready.
ghost use Rattle.std.specs.Prelude.{◌≡◌, IfErr};
ghost use Rattle.async_executor.specs.RunError.{run_future};
ghost use Rattle.async_utilities.specs.Polls.{Gives};

use crate::token::Token;
use async_executor::{Executor, Future, OutOfMemory, Poll, RunError, TaskWaker, Wake};
use std::alloc::{AllocError, Global};
use std::fmt::{self, Debug, Formatter, Write};
use std::sync::{Arc, Wait};
use std::time::Duration;
use thiserror::Error;

/// Wakes one thread, which parks while it waits. No wake is lost: the thread does not park if one
/// came before.
///
/// One thread at a time may park on it and on its copies.
///
/// Example: `uses::reuses`.
///
/// ```text
/// let waker = ThreadWaker::new(alloc)?;
/// let first = waker.block_on(rt, Ready::new(1u64));
/// waker.block_on(rt, YieldNow::new());
/// let second = waker.block_on(rt, Ready::new(2u64));
/// // 3
/// Ok(first.saturating_add(second))
/// ```
#[derive(Drop)]
pub struct ThreadWaker {
    token: Arc<Token>,
}

impl ThreadWaker {
    /// A `ThreadWaker` that has not been woken.
    ///
    /// # Errors
    ///
    /// `AllocError` if memory for it is refused.
    ///
    /// Example: `uses::reuses`, at `ThreadWaker`.
    pub fn new(alloc: Global) -> Result<ThreadWaker, AllocError> {
        Ok(ThreadWaker {
            token: Arc::new(alloc, Token::new())?,
        })
    }

    /// Parks this thread until the waker, or a copy of it, is woken. It returns at once if that
    /// happened since the last time. Before the thread sleeps it spins for some microseconds, since a wake
    /// often comes sooner than a thread could fall asleep.
    ///
    /// Example: `uses::parks`.
    pub fn park<R: Wait>(&self, rt: &R) {
        self.token.park(rt);
    }

    /// Parks this thread as `park` does, but no longer than this. It may return before.
    ///
    /// Example: `uses::dozes`.
    pub fn park_timeout<R: Wait>(&self, rt: &R, duration: Duration) {
        self.token.park_timeout(rt, duration);
    }

    /// Polls the future on this thread until it is ready, and gives its output. The thread parks while
    /// the future is not ready. It is `block_on` with a waker that is kept, so nothing is refused, and
    /// a thread that awaits one future after another takes no memory for that.
    ///
    /// Example: `uses::reuses`, at `ThreadWaker`.
    pub fn block_on<G: Future<ThreadWaker>>(&self, rt: &impl Wait, future: G) -> G::Output {
        let mut future = future;
        poll_until_ready(rt, self, |w| future.poll(w))
    }
}

impl Wake for ThreadWaker {
    fn wake(&self) {
        self.token.unpark();
    }

    fn copy(&self) -> Result<Self, OutOfMemory> {
        let token = Arc::try_clone(&self.token)?;
        Ok(ThreadWaker { token })
    }
}

/// Why a thread did not wait for a future: memory for its waker was refused. It has the future,
/// unpolled.
///
/// Example: `uses::awaited`, which `uses::winds_up` calls.
///
/// ```text
/// match block_on(rt, alloc, task) {
///     Ok(output) => output.ok(),
///     Err(refused) => {
///         refused.into_inner().detach();
///         None
///     }
/// }
/// ```
#[derive(PartialEq, Eq, Drop, Error)]
#[error("out of memory")]
pub struct BlockOnError<G> {
    future: G,
}

// Of any future, so that a test can give the error on.
impl<G> Debug for BlockOnError<G> {
    fn fmt<O: Write>(&self, f: &mut Formatter<O>) -> fmt::Result {
        f.write_str("BlockOnError { .. }")
    }
}

impl<G> BlockOnError<G> {
    /// The future that `block_on` did not wait for.
    ///
    /// Example: `uses::awaited`, at `BlockOnError`.
    pub fn into_inner(self) -> G
        ensures { result ≡ self.future }
    {
        let BlockOnError { future } = self;
        future
    }
}

/// Polls the future on this thread until it is ready, and gives its output. The thread parks while
/// the future is not ready.
///
/// # Errors
///
/// `BlockOnError` with the future, if memory for the thread's waker is refused.
///
/// Example: `uses::blocks_twice`, and of tasks that other threads run `uses::joins`.
///
/// ```text
/// let one = block_on(rt, alloc, Ready::new(1u64))?;
/// let two = block_on(rt, alloc, Ready::new(2u64))?;
/// // 3
/// Ok(one.saturating_add(two))
/// ```
pub fn block_on<G: Future<ThreadWaker>>(
    rt: &impl Wait,
    alloc: Global,
    future: G,
) -> Result<G::Output, BlockOnError<G>>
    ensures refused { IfErr result (λ error. error.future ≡ future) }
{
    match ThreadWaker::new(alloc) {
        Ok(waker) => Ok(waker.block_on(rt, future)),
        Err(_) => Err(BlockOnError { future }),
    }
}

/// Polls the future on this thread until it is ready, gives its output, and runs tasks of the executor
/// meanwhile: it is `block_on` of a run. The thread parks while the future is not ready and no task is
/// scheduled.
///
/// # Errors
///
/// `RunError` with the future, if memory for the run or for the thread's waker is refused, or runner
/// numbers are exhausted.
///
/// Example: `uses::runs_two`.
///
/// ```text
/// let executor = Executor::new(rt.clone()?, alloc)?;
/// let one = executor.spawn(Ready::new(1))?;
/// let two = executor.spawn(Ready::new(2))?;
/// let (first, second) = run_until(rt, alloc, &executor, Zip::new(one, two))?;
/// // (1, 2)
/// Ok((first?, second?))
/// ```
pub fn run_until<F, G, R>(
    rt: &R,
    alloc: Global,
    executor: &Executor<F, ThreadWaker, R>,
    future: G,
) -> Result<G::Output, RunError<G>>
where
    F: Future<TaskWaker<ThreadWaker, R>>,
    G: Future<ThreadWaker>,
    R: Wait + Drop,
    ensures refused { IfErr result (λ error. run_future error ≡ future) }
{
    let Ok(waker) = ThreadWaker::new(alloc) else {
        return Err(RunError::OutOfMemory(future));
    };
    let mut run = executor.run(future)?;
    Ok(poll_until_ready(rt, &waker, |w| run.poll(w)))
}

/// Calls the poll on this thread, with this waker, until it is ready, and gives what it gave. The
/// thread parks while it is pending. What is known of the poll says what comes out.
///
/// Example: `uses::polls_in_turn`.
///
/// ```text
/// let waker = ThreadWaker::new(alloc)?;
/// let (mut pause, mut number) = (YieldNow::new(), Ready::new(7));
/// let output = poll_until_ready(rt, &waker, |w| match pause.poll(w) {
///     Poll::Ready(()) => number.poll(w),
///     Poll::Pending => Poll::Pending,
/// });
/// // 7
/// Ok(output)
/// ```
pub fn poll_until_ready<T, P: FnMut(&ThreadWaker) -> Poll<T>>(
    rt: &impl Wait,
    waker: &ThreadWaker,
    mut poll: P,
) -> T
    requires { P.IsAlwaysCallable poll }
    ensures { Gives P.step poll result }
{
    for _ in rt.forever() {
        if let Poll::Ready(output) = poll(waker) {
            return output;
        }
        waker.park(rt);
    }
    unreachable!()
}
