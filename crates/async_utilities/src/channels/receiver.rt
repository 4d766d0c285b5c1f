//! Receivers, and the futures of messages.
ghost use Rattle.std.specs.Prelude.{◌≡◌, ◌≤◌, ◌+◌, IfOk, None, OnErr, OnOk, OnSome, take, vec_capacity, vec_len};
ghost use Rattle.std.specs.Arc.{arc_value};
ghost use Rattle.async_utilities.specs.Polls.{IfReady};

use crate::channels::Channel;
use crate::channels::state::{Batch, NoMessage, Received, State};
use crate::due::Due;
use crate::wait_queue::keep;
use async_executor::{Future, OutOfMemory, Poll, Wake};
use std::sync::{Arc, MutexGuard, Wait};

/// Receives messages, in the order in which they were sent. A channel whose receivers are all dropped
/// is closed: no message is taken any more.
///
/// Example: `uses::waits_for_a_message`, and in a task `uses::sends_to_a_task`.
///
/// ```text
/// let right = rt.clone().ok()?;
/// let (sender, mut receiver) = bounded::<u32, NoopWaker, NoopWaker, R>(right, alloc, 1).ok()?;
/// let empty = receiver.poll_receive(&NoopWaker);
/// sender.try_send(7).ok()?;
/// // [Pending, Ready(Some(7))]
/// Some([empty, receiver.poll_receive(&NoopWaker)])
/// ```
pub struct Receiver<T: Drop, S: Wake, V: Wake, R: Wait + Drop> {
    pub(crate) channel: Arc<Channel<T, S, V, R>>,
    // Where `poll_receive` waits.
    pub(crate) place: Option<usize>,
}

impl<T: Drop, S: Wake, V: Wake, R: Wait + Drop> Channel<T, S, V, R> {
    // For a `Receiver`: takes the first message, if there is one. One that waited at this place does so no
    // longer.
    #[inline(always)]
    fn receive_from(&self, place: &mut Option<usize>) -> Result<T, NoMessage>
        ensures taken { OnOk result (place.new ≡ None) }
        ensures none { OnErr result (place.new ≡ place.old) }
    {
        let mut state = self.state();
        match state.receive() {
            Received::Message(message, due) => {
                wake_after_receive(state, place, due);
                Ok(message)
            }
            Received::Empty => Err(NoMessage::Empty),
            Received::Closed => Err(NoMessage::Closed),
        }
    }

    // For `Receiver::try_receive_many`: takes so many messages at most, under one lock unless senders are
    // to be woken between them.
    fn receive_many(&self, messages: &mut Vec<T>, most: usize) -> Result<usize, NoMessage>
        requires { vec_len messages.old + most ≤ vec_capacity messages.old }
        ensures most { IfOk result (λ n. n ≤ most) }
        ensures count { IfOk result (λ n. vec_len messages.new ≡ vec_len messages.old + n) }
        ensures front { take (vec_len messages.old) messages.new.items ≡ messages.old.items }
        ensures none { OnErr result (messages.new.items ≡ messages.old.items) }
        ensures room { vec_capacity messages.new ≡ vec_capacity messages.old }
    {
        let mut taken = 0;
        for _ in 0..most {
            let mut state = self.state();
            let Batch { count, due } = state.receive_many(messages, most - taken);
            let none = state.no_message();
            drop(state);
            taken += count;
            let is_over = matches!(&due, Due::Nobody);
            due.wake();
            if is_over {
                return if taken > 0 { Ok(taken) } else { Err(none) };
            }
        }
        Ok(taken)
    }

    // Gives the first message, or waits at this place.
    fn poll_receive(&self, w: &V, place: &mut Option<usize>) -> Poll<Option<T>>
        ensures taken { IfReady result (λ message. OnSome message (place.new ≡ None)) }
    {
        match self.receive_from(place) {
            Ok(message) => return Poll::Ready(Some(message)),
            Err(NoMessage::Closed) => return Poll::Ready(None),
            Err(NoMessage::Empty) => {}
        }
        let Ok(waker) = w.copy() else {
            w.wake();
            return Poll::Pending;
        };
        self.receive_or_wait(waker, place)
    }

    // A receiver's poll, after it found no message: gives the first one, or waits with this waker.
    fn receive_or_wait(&self, waker: V, place: &mut Option<usize>) -> Poll<Option<T>>
        ensures taken { IfReady result (λ message. OnSome message (place.new ≡ None)) }
    {
        let mut state = self.state();
        let message = match state.receive() {
            Received::Empty => {
                let kept = state.wait_to_receive(*place, waker);
                drop(state);
                keep(place, kept);
                return Poll::Pending;
            }
            Received::Message(message, due) => {
                wake_after_receive(state, place, due);
                Some(message)
            }
            Received::Closed => {
                drop(state);
                None
            }
        };
        drop(waker);
        Poll::Ready(message)
    }

    // The receiving half of a `Channel`: a `Receive` that is dropped waits no longer, and the next one is told
    // of a message that it does not take.
    fn leave_receivers(&self, place: Option<usize>) {
        if place.is_some() {
            let left = self.state().leave_receivers(place);
            left.end();
        }
    }
}

// Gives the lock up once a message was taken, and wakes the sender that is due. If it went to one that
// waited at this place, that does so no longer.
#[inline(always)]
fn wake_after_receive<T: Drop, S: Wake, V: Wake>(
    state: MutexGuard<'_, State<T, S, V>>,
    place: &mut Option<usize>,
    due: Due<S>,
)
    ensures { place.new ≡ None }
{
    let mut state = state;
    let Some(at) = place.take() else {
        drop(state);
        due.wake();
        return;
    };
    let left = state.leave_receivers(Some(at));
    drop(state);
    due.wake();
    left.end();
}

impl<T: Drop, S: Wake, V: Wake, R: Wait + Drop> Receiver<T, S, V, R> {
    /// What this receiver shares with the other ends.
    ///
    /// Example: `uses::closes_a_channel`.
    pub fn channel(&self) -> &Channel<T, S, V, R>
        ensures { result.now ≡ arc_value self.now.channel }
    {
        &self.channel
    }

    /// Another receiver of the same channel. Each message goes to one of them.
    ///
    /// # Errors
    ///
    /// `OutOfMemory` if memory for its place among those that wait is refused.
    ///
    /// Example: `uses::tries`, at `Unsent`.
    pub fn copy(&self) -> Result<Receiver<T, S, V, R>, OutOfMemory>
        ensures same { IfOk result (λ copy. arc_value copy.channel ≡ arc_value self.now.channel) }
    {
        let channel = Arc::try_clone(&self.channel)?;
        channel.state().receivers.join()?;
        Ok(Receiver {
            channel,
            place: None,
        })
    }

    /// Takes the first message, if there is one. It is not behind those who wait for a message.
    ///
    /// # Errors
    ///
    /// `NoMessage`.
    ///
    /// Example: `uses::tries`, at `Unsent`.
    pub fn try_receive(&self) -> Result<T, NoMessage> {
        self.channel.receive_from(&mut None)
    }

    /// Takes so many messages at most, the first one first, and puts them behind those that `messages`
    /// has. It takes no memory: what there is no room for in `messages` stays in the channel. Gives how
    /// many it took, which is 0 if it was to take none. It is not behind those who wait for a message,
    /// and takes one lock for all, and one more for each sender that it wakes.
    ///
    /// # Errors
    ///
    /// `NoMessage`. `messages` is as it was then.
    ///
    /// Example: `uses::takes_many`.
    pub fn try_receive_many(&self, messages: &mut Vec<T>, limit: usize) -> Result<usize, NoMessage>
        ensures limit { IfOk result (λ n. n ≤ limit) }
        ensures count { IfOk result (λ n. vec_len messages.new ≡ vec_len messages.old + n) }
        ensures front { take (vec_len messages.old) messages.new.items ≡ messages.old.items }
        ensures none { OnErr result (messages.new.items ≡ messages.old.items) }
        ensures room { vec_capacity messages.new ≡ vec_capacity messages.old }
    {
        let room = messages.capacity() - messages.len();
        self.channel.receive_many(messages, limit.min(room))
    }

    /// Gives the first message, once there is one, or None if there is none and the channel is closed.
    /// While it is pending, a copy of the waker is woken once there is a message. If the copy or a place
    /// among those who wait is refused, the waker itself is woken, and nothing more is kept.
    ///
    /// Who stops polling before it is ready drops the receiver, or polls a `Receive` and drops that.
    ///
    /// Example: `uses::waits_for_a_message`, at `Receiver`.
    pub fn poll_receive(&mut self, w: &V) -> Poll<Option<T>>
        ensures taken { IfReady result (λ message. OnSome message (self.new.place ≡ None)) }
        ensures same { arc_value self.new.channel ≡ arc_value self.old.channel }
    {
        self.channel.poll_receive(w, &mut self.place)
    }

    /// A future of the next message, or of None if there is none and the channel is closed. One receiver
    /// may have any number of them.
    ///
    /// Example: `uses::sends_and_receives`, at `bounded`.
    pub fn receive(&self) -> Receive<'_, T, S, V, R>
        ensures { (result.receiver.now ≡ self.now) × (result.place ≡ None) }
    {
        Receive {
            receiver: self,
            place: None,
        }
    }
}

impl<T: Drop, S: Wake, V: Wake, R: Wait + Drop> Drop for Receiver<T, S, V, R> {
    fn drop(self) {
        let Receiver { channel, place } = self;
        let mut state = channel.state();
        let left = state.leave_receivers(place);
        let closing = if state.receivers.part() {
            state.close(channel.alloc())
        } else {
            None
        };
        drop(state);
        left.end();
        if let Some(closing) = closing {
            closing.wake();
        }
    }
}

/// A future of the next message. Its drop takes none, and another receiver is told of the message that
/// this one was told of.
///
/// Example: `uses::sends_and_receives`, at `bounded`.
pub struct Receive<'a, T: Drop, S: Wake, V: Wake, R: Wait + Drop> {
    receiver: &'a Receiver<T, S, V, R>,
    place: Option<usize>,
}

impl<T: Drop, S: Wake, V: Wake, R: Wait + Drop> Future<V> for Receive<'_, T, S, V, R> {
    type Output = Option<T>;

    fn poll(&mut self, w: &V) -> Poll<Option<T>>
        ensures taken { IfReady result (λ message. OnSome message (self.new.place ≡ None)) }
        ensures same { self.new.receiver.now ≡ self.old.receiver.now }
    {
        self.receiver.channel.poll_receive(w, &mut self.place)
    }
}

impl<T: Drop, S: Wake, V: Wake, R: Wait + Drop> Drop for Receive<'_, T, S, V, R> {
    fn drop(self) {
        let Receive { receiver, place } = self;
        receiver.channel.leave_receivers(place);
    }
}
