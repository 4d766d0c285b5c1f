//! An event that comes again and again, and that any number of tasks listen for.
ghost use Rattle.std.specs.Prelude.{◌≡◌, ◌≤◌, None, IfOk, IsSome};
ghost use Rattle.std.specs.Arc.{arc_value};
ghost use Rattle.async_utilities.specs.Polls.{IfReady};
ghost use Rattle.executor_core.specs.declared.task.future.Poll.TheVariants.{Pending as waits, Ready as ready};

pub(crate) mod state;

use crate::locked::Locked;
use crate::locks::event::state::State;
use crate::wait_queue::rounds::Told;
use async_executor::{Future, OutOfMemory, Poll, Wake};
use std::alloc::Global;
use std::sync::{Arc, Wait};

/// An event. Who listens for it is told by a `notify` that comes later, also if it was not polled yet:
/// so one listens first, looks then whether there is something to wait for, and awaits the listener.
/// W is the waker that listeners are polled with, and R the right to wait for the lock.
///
/// Example: `uses::hears`.
///
/// ```text
/// let event: Event<ThreadWaker, R> = Event::new(rt.clone().ok()?, alloc).ok()?;
/// let other = event.copy().ok()?;
/// let (first, second) = (event.listen().ok()?, event.listen().ok()?);
/// let third = event.listen().ok()?;
/// let one = other.notify(1);
/// let more = other.notify_additional(1);
/// let all = other.notify_all();
/// block_on(rt, alloc, first).ok()?;
/// block_on(rt, alloc, second).ok()?;
/// block_on(rt, alloc, third).ok()?;
/// // [1, 1, 1]
/// Some([one, more, all])
/// ```
#[derive(Drop)]
pub struct Event<W: Wake, R: Wait + Drop> {
    shared: Arc<Shared<W, R>>,
}

// What its handles and futures share.
type Shared<W, R> = Locked<State<W>, R>;

impl<W: Wake, R: Wait + Drop> Shared<W, R> {
    // Tells so many of those who listen now, the first one first, each without the lock. Says how many.
    fn tell(&self, count: usize, counts_told: bool) -> usize
        ensures { result ≤ count }
    {
        let most = self.state().begin(count, counts_told);
        for told in 0..most {
            let next = self.state().listeners.tell();
            match next {
                Told::One(due) => due.wake(),
                Told::Nobody => return told,
            }
        }
        most
    }
}

impl<W: Wake, R: Wait + Drop> Event<W, R> {
    /// An event for which nobody listens.
    ///
    /// # Errors
    ///
    /// `OutOfMemory` if memory for it is refused.
    ///
    /// Example: `uses::hears`, at `Event`.
    pub fn new(rt: R, alloc: Global) -> Result<Event<W, R>, OutOfMemory> {
        let shared = Locked::share(rt, alloc, State::new(alloc))?;
        Ok(Event { shared })
    }

    /// The same event, for another holder.
    ///
    /// # Errors
    ///
    /// `OutOfMemory` if another holder cannot be counted.
    ///
    /// Example: `uses::hears`, at `Event`.
    pub fn copy(&self) -> Result<Event<W, R>, OutOfMemory>
        ensures same { IfOk result (λ copy. arc_value copy.shared ≡ arc_value self.now.shared) }
    {
        let shared = Arc::try_clone(&self.shared)?;
        Ok(Event { shared })
    }

    /// A listener of the event from now on: behind those who listen already. Its place is reserved here, so
    /// its polls take no memory beside the copy of the waker.
    ///
    /// # Errors
    ///
    /// `OutOfMemory` if memory for the place is refused.
    ///
    /// Example: `uses::hears`, at `Event`.
    pub fn listen(&self) -> Result<EventListener<W, R>, OutOfMemory>
        ensures same { IfOk result (λ one. arc_value one.shared ≡ arc_value self.now.shared) }
        ensures listens { IfOk result (λ listener. IsSome listener.place) }
    {
        let shared = Arc::try_clone(&self.shared)?;
        let place = shared.state().listen()?;
        Ok(EventListener {
            shared,
            place: Some(place),
        })
    }

    /// Tells those who listen, the first one first, until so many are told. Those who were told before
    /// and did not come count too, so a second call does not tell further ones before the first came.
    /// Gives how many it told. No lock is held while one is woken.
    ///
    /// Example: `uses::hears`, at `Event`.
    pub fn notify(&self, count: usize) -> usize
        ensures { result ≤ count }
    {
        self.shared.tell(count, true)
    }

    /// Tells so many more of those who listen, whoever was told before. Gives how many it told.
    ///
    /// Example: `uses::hears`, at `Event`.
    pub fn notify_additional(&self, count: usize) -> usize
        ensures { result ≤ count }
    {
        self.shared.tell(count, false)
    }

    /// Tells all who listen now. Gives how many it told.
    ///
    /// Example: `uses::hears`, at `Event`.
    pub fn notify_all(&self) -> usize {
        self.shared.tell(usize::MAX, false)
    }
}

/// Ready once it was told, and from then on. While it is not, a copy of the waker of its last poll is
/// kept, and is woken as it is told. If the copy is refused, the waker itself is woken, and nothing more
/// is kept. If it was told and is dropped before a poll answered so, the next one is told.
///
/// Example: `uses::hears`, at `Event`.
pub struct EventListener<W: Wake, R: Wait + Drop> {
    shared: Arc<Shared<W, R>>,
    // None once it heard.
    place: Option<usize>,
}

impl<W: Wake, R: Wait + Drop> Future<W> for EventListener<W, R> {
    type Output = ();

    fn poll(&mut self, w: &W) -> Poll<()>
        ensures heard { IfReady result (λ _. self.new.place ≡ None) }
        ensures again { self.old.place ≡ None → result ≡ ready tt }
        ensures waits { result ≡ waits → self.new.place ≡ self.old.place }
        ensures same { arc_value self.new.shared ≡ arc_value self.old.shared }
    {
        let Some(place) = self.place else {
            return Poll::Ready(());
        };
        if self.shared.state().hear(place) {
            self.place = None;
            return Poll::Ready(());
        }
        let Ok(waker) = w.copy() else {
            w.wake();
            return Poll::Pending;
        };
        let mut state = self.shared.state();
        if state.hear(place) {
            drop(state);
            drop(waker);
            self.place = None;
            return Poll::Ready(());
        }
        let unused = state.listeners.wait(place, waker);
        drop(state);
        drop(unused);
        Poll::Pending
    }
}

impl<W: Wake, R: Wait + Drop> Drop for EventListener<W, R> {
    fn drop(self) {
        let EventListener { shared, place } = self;
        if let Some(place) = place {
            let left = shared.state().leave(place);
            left.end();
        }
    }
}
