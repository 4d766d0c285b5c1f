//! Senders, and the futures that send.
ghost use Rattle.std.specs.Prelude.{◌≡◌, None, Some, IfErr, IfOk};
ghost use Rattle.std.specs.Arc.{arc_value};
ghost use Rattle.async_utilities.specs.Unsent.{unsent};
ghost use Rattle.async_utilities.specs.Polls.{GivesBack, IfReady};
ghost use Rattle.executor_core.specs.declared.task.future.Poll.TheVariants.{Pending as waits};

use crate::channels::Channel;
use crate::channels::state::{Sent, State};
use crate::due::Due;
use crate::wait_queue::keep;
use async_executor::{Future, OutOfMemory, Poll, Wake};
use std::sync::{Arc, MutexGuard, Wait};

/// Why a message was not sent, with the message.
///
/// Example: `uses::tries`.
///
/// ```text
/// let right = rt.clone().ok()?;
/// let (sender, first) = bounded::<u32, ThreadWaker, ThreadWaker, R>(right, alloc, 1).ok()?;
/// let second = first.copy().ok()?;
/// sender.try_send(1).ok()?;
/// let unsent = sender.try_send(2).err()?;
/// let message = first.try_receive().ok()?;
/// let none = second.try_receive().err()?;
/// // (Full(2), 1, Empty)
/// Some((unsent, message, none))
/// ```
#[derive(Debug, PartialEq, Eq, Drop)]
pub enum Unsent<T> {
    /// There is no room.
    Full(T),
    /// The channel is closed.
    Closed(T),
    /// Memory for it was refused. An unbounded channel alone answers this.
    Refused(T),
}

/// Sends messages. A channel whose senders are all dropped is closed: what is inside still comes out.
///
/// Example: `uses::waits_for_room`, and in a task `uses::requests_tasks`.
///
/// ```text
/// let right = rt.clone().ok()?;
/// let (mut sender, receiver) = bounded::<u32, NoopWaker, NoopWaker, R>(right, alloc, 1).ok()?;
/// sender.try_send(1).ok()?;
/// let mut message = Some(2);
/// let full = sender.poll_send(&NoopWaker, &mut message);
/// receiver.try_receive().ok()?;
/// // [Pending, Ready(Ok(()))]
/// Some([full, sender.poll_send(&NoopWaker, &mut message)])
/// ```
pub struct Sender<T: Drop, S: Wake, V: Wake, R: Wait + Drop> {
    pub(crate) channel: Arc<Channel<T, S, V, R>>,
    // Where `poll_send` waits.
    pub(crate) place: Option<usize>,
}

impl<T: Drop, S: Wake, V: Wake, R: Wait + Drop> Channel<T, S, V, R> {
    // For a `Sender`: sends a message, if there is room. One that waited at this place does so no longer.
    #[inline(always)]
    fn send_from(&self, message: T, place: &mut Option<usize>) -> Result<(), Unsent<T>>
        ensures back { IfErr result (λ failed. unsent failed ≡ message) }
    {
        let mut state = self.state();
        match state.send(message) {
            Sent::Kept(due) => {
                wake_after_send(state, place, due);
                Ok(())
            }
            Sent::Full(message) => Err(Unsent::Full(message)),
            Sent::Closed(message) => Err(Unsent::Closed(message)),
            Sent::Refused(message) => Err(Unsent::Refused(message)),
        }
    }

    // Sends the message that is there, or waits at this place.
    fn poll_send(
        &self,
        w: &S,
        message: &mut Option<T>,
        place: &mut Option<usize>,
    ) -> Poll<Result<(), T>>
        ensures waits { result ≡ waits → message.new ≡ message.old }
        ensures taken { IfReady result (λ _. message.new ≡ None) }
        ensures back { GivesBack result message.old }
    {
        let Some(first) = message.take() else {
            return Poll::Ready(Ok(()));
        };
        let unsent = match self.send_from(first, place) {
            Ok(()) => return Poll::Ready(Ok(())),
            Err(Unsent::Closed(unsent)) => return Poll::Ready(Err(unsent)),
            Err(Unsent::Refused(unsent)) => return Poll::Ready(Err(unsent)),
            Err(Unsent::Full(unsent)) => unsent,
        };
        let Ok(waker) = w.copy() else {
            *message = Some(unsent);
            w.wake();
            return Poll::Pending;
        };
        self.send_or_wait(waker, unsent, message, place)
    }

    // A sender's poll, after it found no room: sends this message, or waits with this waker and puts the
    // message there.
    fn send_or_wait(
        &self,
        waker: S,
        unsent: T,
        message: &mut Option<T>,
        place: &mut Option<usize>,
    ) -> Poll<Result<(), T>>
        requires { message.old ≡ None }
        ensures waits { result ≡ waits → message.new ≡ Some unsent }
        ensures taken { IfReady result (λ _. message.new ≡ None) }
        ensures back { IfReady result (λ answer. IfErr answer (λ failed. unsent ≡ failed)) }
    {
        let mut state = self.state();
        let answer = match state.send(unsent) {
            Sent::Full(unsent) => {
                let kept = state.wait_to_send(*place, waker);
                drop(state);
                *message = Some(unsent);
                keep(place, kept);
                return Poll::Pending;
            }
            Sent::Kept(due) => {
                wake_after_send(state, place, due);
                Ok(())
            }
            Sent::Closed(unsent) | Sent::Refused(unsent) => {
                drop(state);
                Err(unsent)
            }
        };
        drop(waker);
        Poll::Ready(answer)
    }

    // The drop of a `Send`: has the sender wait no longer, and the next one be told of room that it does
    // not use.
    fn leave_senders(&self, place: Option<usize>) {
        if place.is_some() {
            let left = self.state().leave_senders(place);
            left.end();
        }
    }
}

// Gives the lock up once a message is in the channel, and wakes the receiver that is due. If the message
// was that of one that waited at this place, it does so no longer.
#[inline(always)]
fn wake_after_send<T: Drop, S: Wake, V: Wake>(
    state: MutexGuard<'_, State<T, S, V>>,
    place: &mut Option<usize>,
    due: Due<V>,
)
    ensures { place.new ≡ None }
{
    let mut state = state;
    let Some(at) = place.take() else {
        drop(state);
        due.wake();
        return;
    };
    let left = state.leave_senders(Some(at));
    drop(state);
    due.wake();
    left.end();
}

impl<T: Drop, S: Wake, V: Wake, R: Wait + Drop> Sender<T, S, V, R> {
    /// What this sender shares with the other ends.
    ///
    /// Example: `uses::looks_inside`, at `Channel`.
    pub fn channel(&self) -> &Channel<T, S, V, R>
        ensures { result.now ≡ arc_value self.now.channel }
    {
        &self.channel
    }

    /// Another sender of the same channel.
    ///
    /// # Errors
    ///
    /// `OutOfMemory` if memory for its place among those that wait is refused.
    ///
    /// Example: `uses::requests_tasks`.
    pub fn copy(&self) -> Result<Sender<T, S, V, R>, OutOfMemory>
        ensures same { IfOk result (λ copy. arc_value copy.channel ≡ arc_value self.now.channel) }
    {
        let channel = Arc::try_clone(&self.channel)?;
        channel.state().senders.join()?;
        Ok(Sender {
            channel,
            place: None,
        })
    }

    /// Sends a message, if there is room. It is not behind those who wait for room.
    ///
    /// # Errors
    ///
    /// `Unsent`, with the message.
    ///
    /// Example: `uses::tries`, at `Unsent`.
    pub fn try_send(&self, message: T) -> Result<(), Unsent<T>>
        ensures back { IfErr result (λ failed. unsent failed ≡ message) }
    {
        self.channel.send_from(message, &mut None)
    }

    /// Sends the message that is there, once there is room, or gives it back if the channel is closed, or
    /// unbounded and memory is refused. If there is no message, it is ready, and nothing was sent.
    /// While it is pending, the message stays where it is, and a copy of the waker is woken once there
    /// is room. If the copy or a place among those who wait is refused, the waker itself is woken, and
    /// nothing more is kept.
    ///
    /// Who stops polling before it is ready drops the sender, or polls a `Send` and drops that.
    ///
    /// Example: `uses::waits_for_room`, at `Sender`.
    pub fn poll_send(&mut self, w: &S, message: &mut Option<T>) -> Poll<Result<(), T>>
        ensures waits { result ≡ waits → message.new ≡ message.old }
        ensures taken { IfReady result (λ _. message.new ≡ None) }
        ensures back { GivesBack result message.old }
        ensures same { arc_value self.new.channel ≡ arc_value self.old.channel }
    {
        self.channel.poll_send(w, message, &mut self.place)
    }

    /// A future that sends this message, or gives it back as `poll_send` does. One sender may have any
    /// number of them.
    ///
    /// Example: `uses::sends_and_receives`, at `bounded`.
    pub fn send(&self, message: T) -> Send<'_, T, S, V, R>
        ensures message { result.message ≡ Some message }
        ensures same { (result.sender.now ≡ self.now) × (result.place ≡ None) }
    {
        Send {
            sender: self,
            message: Some(message),
            place: None,
        }
    }
}

impl<T: Drop, S: Wake, V: Wake, R: Wait + Drop> Drop for Sender<T, S, V, R> {
    fn drop(self) {
        let Sender { channel, place } = self;
        let mut state = channel.state();
        let left = state.leave_senders(place);
        let closing = if state.senders.part() {
            state.close(channel.alloc())
        } else {
            None
        };
        drop(state);
        left.end();
        if let Some(closing) = closing {
            closing.wake();
        }
    }
}

/// A future that sends a message. Its drop leaves the message unsent, and another sender is told of
/// the room that this one was told of.
///
/// Example: `uses::gives_up`.
///
/// ```text
/// let right = rt.clone().ok()?;
/// let (sender, _receiver) = bounded::<u32, NoopWaker, NoopWaker, R>(right, alloc, 1).ok()?;
/// sender.try_send(1).ok()?;
/// let mut send = sender.send(2);
/// if send.poll(&NoopWaker) != Poll::Pending {
///     return None;
/// }
/// // 2
/// let message = send.into_message();
/// message
/// ```
pub struct Send<'a, T: Drop, S: Wake, V: Wake, R: Wait + Drop> {
    sender: &'a Sender<T, S, V, R>,
    message: Option<T>,
    place: Option<usize>,
}

impl<T: Drop, S: Wake, V: Wake, R: Wait + Drop> Send<'_, T, S, V, R> {
    /// Gives the send up, and its message back. There is none if it was sent, or given back before.
    ///
    /// Example: `uses::gives_up`, at `Send`.
    pub fn into_message(self) -> Option<T>
        ensures { result ≡ self.entry.message }
    {
        let mut send = self;
        send.message.take()
    }
}

impl<T: Drop, S: Wake, V: Wake, R: Wait + Drop> Future<S> for Send<'_, T, S, V, R> {
    type Output = Result<(), T>;

    fn poll(&mut self, w: &S) -> Poll<Result<(), T>>
        ensures waits { result ≡ waits → self.new.message ≡ self.old.message }
        ensures taken { IfReady result (λ _. self.new.message ≡ None) }
        ensures back { GivesBack result self.old.message }
        ensures same { self.new.sender.now ≡ self.old.sender.now }
    {
        self.sender
            .channel
            .poll_send(w, &mut self.message, &mut self.place)
    }
}

impl<T: Drop, S: Wake, V: Wake, R: Wait + Drop> Drop for Send<'_, T, S, V, R> {
    fn drop(self) {
        let Send {
            sender,
            message,
            place,
        } = self;
        sender.channel.leave_senders(place);
        drop(message);
    }
}
