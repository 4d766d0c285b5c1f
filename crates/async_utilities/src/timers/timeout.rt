//! A future that is given a time.
ghost use Rattle.std.specs.Prelude.{◌≡◌, None, Some, IsSome, IfSome, is_none};
ghost use Rattle.executor_core.specs.declared.task.future.Poll.TheVariants.{Pending as waits};
ghost use Rattle.async_executor.specs.Answers.{is_ready};
ghost use Rattle.async_utilities.specs.Polls.{IfGoesOn};
ghost use Rattle.async_utilities.specs.Times.{IsTimedOut};

use crate::timers::after::After;
use crate::timers::reading::Reading;
use async_executor::{Future, Poll, Wake};
use std::fmt::{self, Debug, Formatter, Write};
use std::sync::Wait;
use thiserror::Error;

/// So much time has passed and a future was not ready. It has the future, which may be polled on.
///
/// Example: `uses::is_too_late`, at `Timeout`.
#[derive(Clone, Copy, PartialEq, Eq, Drop, Error)]
#[error("timed out")]
pub struct TimedOut<G> {
    /// A time that the clock was read at by then.
    pub now: Reading,
    /// The future.
    pub future: G,
}

// Of any future, so that a test can give the error on.
impl<G> Debug for TimedOut<G> {
    fn fmt<O: Write>(&self, f: &mut Formatter<O>) -> fmt::Result {
        f.write_str("TimedOut { .. }")
    }
}

/// Gives the output of a future, or `TimedOut` with the future if its time passes before. If both are
/// so at one poll, it is the output. It has let the future go then, is pending from then on, and wakes
/// nobody.
///
/// Example: `uses::is_too_late`.
///
/// ```text
/// let timer: Timer<ThreadWaker, R, R> = Timer::new(rt.clone()?, rt.clone()?, alloc)?;
/// let wanted = timer.timeout(Duration::from_millis(2), Never::<u64>::new())?;
/// // true
/// Ok(timer.block_on(wanted)?.is_err())
/// ```
#[derive(Drop)]
pub struct Timeout<G, W: Wake, R: Wait + Drop> {
    inner: Option<(G, After<W, R>)>,
}

impl<G, W: Wake, R: Wait + Drop> Timeout<G, W, R> {
    // Gives the future the time that is left until this one.
    pub(crate) fn new(future: G, after: After<W, R>) -> Timeout<G, W, R>
        ensures { result.inner ≡ Some (future, after) }
    {
        Timeout {
            inner: Some((future, after)),
        }
    }
}

impl<G: Future<W>, W: Wake, R: Wait + Drop> Future<W> for Timeout<G, W, R> {
    type Output = Result<G::Output, TimedOut<G>>;

    fn poll(&mut self, w: &W) -> Poll<Result<G::Output, TimedOut<G>>>
        ensures ended { IsSome self.old.inner → is_none self.new.inner ≡ is_ready result }
        ensures again { self.old.inner ≡ None → (result ≡ waits) × (self.new.inner ≡ None) }
        ensures never_early { IfSome self.old.inner (λ inner. IsTimedOut inner.1.nanos result) }
        ensures time { IfGoesOn self.old.inner self.new.inner (λ a b. b.1.nanos ≡ a.1.nanos) }
    {
        let Some((future, after)) = &mut self.inner else {
            return Poll::Pending;
        };
        if let Poll::Ready(output) = future.poll(w) {
            self.inner = None;
            return Poll::Ready(Ok(output));
        }
        let Poll::Ready(now) = after.poll(w) else {
            return Poll::Pending;
        };
        match self.inner.take() {
            Some((future, _)) => Poll::Ready(Err(TimedOut { now, future })),
            None => unreachable!(),
        }
    }
}
