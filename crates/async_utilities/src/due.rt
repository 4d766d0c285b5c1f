//! Wakers that are to be woken.
use async_executor::Wake;

/// Whom a change has to wake, once no lock is held. It cannot be dropped: `wake` is its one end.
pub(crate) enum Due<W> {
    Nobody,
    One(W),
}

impl<W: Wake> Due<W> {
    /// Wakes the one that is due, if there is one.
    #[inline(always)]
    pub(crate) fn wake(self) {
        match self {
            Due::Nobody => {}
            Due::One(waker) => waker.wake(),
        }
    }
}

/// What is left of one that gave its place back: its waker, which is dropped, and whom to wake in its
/// stead. It cannot be dropped.
pub(crate) struct Left<W> {
    pub(crate) waker: Option<W>,
    pub(crate) due: Due<W>,
}

impl<W: Wake> Left<W> {
    /// Drops the waker that is left, and wakes the one that is due.
    #[inline(always)]
    pub(crate) fn end(self) {
        let Left { waker, due } = self;
        drop(waker);
        due.wake();
    }
}

/// Wakes a waker that could not be kept, and drops one that was kept before.
pub(crate) fn wake_unless_kept<W: Wake>(unused: Result<Option<W>, W>) {
    match unused {
        Ok(earlier) => drop(earlier),
        Err(waker) => waker.wake(),
    }
}
