//! Futures that wait for nobody: one that is ready, one that never is, and one that lets others go
//! first.
ghost use Rattle.std.specs.Prelude.{◌≡◌, Some, None, true, false, if◌then◌else◌};
ghost use Rattle.executor_core.specs.declared.task.future.Poll.TheVariants.{Ready as gave, Pending as waits};
ghost use Rattle.async_utilities.specs.Polls.{answer_of};

use async_executor::{Future, Poll, Wake};
use std::marker::PhantomData;

/// Ready at its first poll, with the value that it was made of. It is pending from then on, and wakes
/// nobody, since it has no second output.
///
/// Example: `uses::is_ready_once`.
///
/// ```text
/// let mut ready = Ready::new(7);
/// let first = ready.poll(&NoopWaker);
/// // [Ready(7), Pending]
/// [first, ready.poll(&NoopWaker)]
/// ```
#[derive(Drop)]
pub struct Ready<T> {
    value: Option<T>,
}

impl<T> Ready<T> {
    /// A `Ready`: gives this value.
    ///
    /// Example: `uses::is_ready_once`, at `Ready`.
    pub fn new(value: T) -> Ready<T>
        ensures { result.value ≡ Some value }
    {
        Ready { value: Some(value) }
    }
}

impl<W, T: Drop> Future<W> for Ready<T> {
    type Output = T;

    fn poll(&mut self, _w: &W) -> Poll<T>
        ensures answer { result ≡ answer_of self.old.value }
        ensures once { self.new.value ≡ None }
    {
        match self.value.take() {
            Some(value) => Poll::Ready(value),
            None => Poll::Pending,
        }
    }
}

/// Never ready, and wakes nobody.
///
/// Example: `uses::takes_the_first`, at `Or`.
#[derive(Drop)]
pub struct Never<T> {
    output: PhantomData<T>,
}

impl<T> Never<T> {
    /// Never gives a value of the type T.
    ///
    /// Example: `uses::takes_the_first`, at `Or`.
    pub fn new() -> Never<T> {
        Never {
            output: PhantomData,
        }
    }
}

impl<W, T: Drop> Future<W> for Never<T> {
    type Output = T;

    fn poll(&mut self, _w: &W) -> Poll<T>
        ensures { result ≡ waits }
    {
        Poll::Pending
    }
}

/// Pending at its first poll, and ready from then on. At its first poll it asks for the second, so
/// that whatever is scheduled already goes first.
///
/// Example: `uses::yields_once`.
///
/// ```text
/// let mut pause = YieldNow::new();
/// let first = pause.poll(&NoopWaker);
/// // [Pending, Ready(())]
/// [first, pause.poll(&NoopWaker)]
/// ```
#[derive(Drop)]
pub struct YieldNow {
    is_polled: bool,
}

impl YieldNow {
    /// A `YieldNow` that was not polled yet.
    ///
    /// Example: `uses::yields_once`, at `YieldNow`.
    pub fn new() -> YieldNow
        ensures { result.is_polled ≡ false }
    {
        YieldNow { is_polled: false }
    }
}

impl<W: Wake> Future<W> for YieldNow {
    type Output = ();

    fn poll(&mut self, w: &W) -> Poll<()>
        ensures answer { result ≡ (if self.old.is_polled then gave tt else waits) }
        ensures polled { self.new.is_polled ≡ true }
    {
        if self.is_polled {
            return Poll::Ready(());
        }
        self.is_polled = true;
        w.wake();
        Poll::Pending
    }
}
