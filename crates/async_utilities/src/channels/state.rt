//! What the ends of a channel share under their lock: its messages, and the ends of both sides.
//!
//! The law of each side stands in the type. If a receiver waits, at least as many receivers are
//! notified as there are messages, and if a sender waits, at least as many senders as there is room.
ghost use Rattle.std.specs.Prelude.{◌≡◌, ◌≤◌, ◌<◌, ◌-◌, ◌==◌, [], None, Some, IfOk, false, if◌then◌else◌, length, true, vec_capacity, vec_len, ◌+◌};
ghost use Rattle.std.specs.VecDeque.{deque_capacity};
ghost use Rattle.async_utilities.specs.Channels.{AreGone};
ghost use Rattle.async_utilities.specs.WaitQueue.{IsServed};
ghost use Rattle.async_utilities.specs.declared.channels.state.NoMessage.TheVariants as none;

use crate::channels::side::Side;
use crate::due::{Due, Left};
use crate::wait_queue::AllDue;
use async_executor::Wake;
use std::alloc::{AllocError, Global};
use std::collections::VecDeque;

/// Why no message was received.
///
/// Example: `uses::tries`, at `Unsent`.
#[derive(Debug, Clone, Copy, PartialEq, Eq)]
pub enum NoMessage {
    /// There is none yet.
    Empty,
    /// There is none, and the channel is closed.
    Closed,
}

/// What came of a message. V is the waker of a receiver.
pub(crate) enum Sent<T, V> {
    /// It is in the channel, and this receiver is to be woken.
    Kept(Due<V>),
    /// There is no room for it.
    Full(T),
    /// The channel is closed.
    Closed(T),
    /// There is no memory for it.
    Refused(T),
}

/// What a receiver got. S is the waker of a sender.
pub(crate) enum Received<T, S> {
    /// A message, and this sender is to be woken.
    Message(T, Due<S>),
    /// There is no message yet.
    Empty,
    /// There is no message, and the channel is closed.
    Closed,
}

/// What a receiver got of many messages. S is the waker of a sender.
pub(crate) struct Batch<S> {
    /// How many it took.
    pub(crate) count: usize,
    /// The sender that is to be woken. No more are taken until it is.
    pub(crate) due: Due<S>,
}

/// Who waited at a channel that was closed.
pub(crate) struct Closing<S, V> {
    pub(crate) senders: AllDue<S>,
    pub(crate) receivers: AllDue<V>,
}

impl<S: Wake, V: Wake> Closing<S, V> {
    /// Wakes all who waited at a channel that was closed, each once.
    pub(crate) fn wake(self) {
        let Closing { senders, receivers } = self;
        senders.wake();
        receivers.wake();
    }
}

#[derive(Drop)]
pub(crate) struct State<T, S, V> {
    pub(crate) messages: VecDeque<T>,
    pub(crate) capacity: usize,
    pub(crate) is_closed: bool,
    pub(crate) senders: Side<S>,
    pub(crate) receivers: Side<V>,
    ghost fits: { length messages.items ≤ capacity },
    ghost room_is_told: { IsServed (capacity - length messages.items) senders.waiters },
    ghost messages_are_told: { IsServed (length messages.items) receivers.waiters },
    ghost nobody_waits: { is_closed ≡ true → AreGone senders.waiters receivers.waiters },
}

impl<T: Drop, S: Drop, V: Drop> State<T, S, V> {
    ghost use Rattle.async_utilities.specs.ChannelSteps.{Closes, LeavesReceivers, LeavesSenders, Receives, ReceivesMany, Sends};
    ghost use Rattle.async_utilities.specs.ChannelSteps.{WaitsToReceive, WaitsToSend};

    /// The state of a channel with a sender and a receiver, that takes so many messages, and has memory for
    /// these from the first.
    pub(crate) fn new(alloc: Global, capacity: usize, reserved: usize) -> Result<Self, AllocError>
        ensures none { IfOk result (λ state. state.messages.items ≡ []) }
        ensures capacity { IfOk result (λ state. state.capacity ≡ capacity) }
        ensures reserved { IfOk result (λ state. reserved ≤ deque_capacity state.messages) }
        ensures open { IfOk result (λ state. state.is_closed ≡ false) }
        ensures sender { IfOk result (λ state. state.senders.ends ≡ 1) }
        ensures receiver { IfOk result (λ state. state.receivers.ends ≡ 1) }
    {
        Ok(State {
            messages: VecDeque::with_capacity(alloc, reserved)?,
            capacity,
            is_closed: false,
            senders: Side::new(alloc)?,
            receivers: Side::new(alloc)?,
        })
    }

    /// Under the channel's lock: puts a message at the end, and has the first receiver that waits be woken.
    /// Else the message comes back, and nothing changes.
    #[inline(always)]
    pub(crate) fn send(&mut self, message: T) -> Sent<T, V>
        ensures { Sends self.old message result self.new }
    {
        if self.is_closed {
            return Sent::Closed(message);
        }
        if self.messages.len() >= self.capacity {
            return Sent::Full(message);
        }
        match self.messages.push_back(message) {
            Ok(()) => Sent::Kept(self.receivers.waiters.notify(self.messages.len())),
            Err(failed) => Sent::Refused(failed.value),
        }
    }

    /// Under the channel's lock: takes the first message, if there is one, and has the first sender that
    /// waits be woken.
    #[inline(always)]
    pub(crate) fn receive(&mut self) -> Received<T, S>
        ensures { Receives self.old result self.new }
    {
        match self.messages.pop_front() {
            Some(message) => {
                let room = self.capacity - self.messages.len();
                Received::Message(message, self.senders.waiters.notify(room))
            }
            None if self.is_closed => Received::Closed,
            None => Received::Empty,
        }
    }

    /// Under the channel's lock: takes so many messages at most, the first one first, until there is none
    /// or a sender is to be woken, and puts them behind those of the list, which has room for all.
    pub(crate) fn receive_many(&mut self, list: &mut Vec<T>, most: usize) -> Batch<S>
        requires { vec_len list.old + most ≤ vec_capacity list.old }
        ensures taken { ReceivesMany self.old list.old.items most result list.new.items self.new }
        ensures room { vec_capacity list.new ≡ vec_capacity list.old }
    {
        for count in 0..most {
            let due = match self.receive() {
                Received::Message(message, due) => {
                    list.push_reserved(message);
                    due
                }
                Received::Empty | Received::Closed => {
                    let due = Due::Nobody;
                    return Batch { count, due };
                }
            };
            match due {
                Due::Nobody => {}
                Due::One(waker) => {
                    return Batch {
                        count: count + 1,
                        due: Due::One(waker),
                    };
                }
            }
        }
        Batch {
            count: most,
            due: Due::Nobody,
        }
    }

    /// Under the channel's lock: why there is no message, if there is none.
    pub(crate) fn no_message(&self) -> NoMessage
        ensures { result ≡ (if self.now.is_closed then none.Closed else none.Empty) }
    {
        if self.is_closed {
            NoMessage::Closed
        } else {
            NoMessage::Empty
        }
    }

    /// Under the channel's lock: has a sender wait for room. If there is some, or the channel is closed, or
    /// there is no memory for its place, the waker comes back, and is to be woken.
    #[inline(always)]
    pub(crate) fn wait_to_send(
        &mut self,
        place: Option<usize>,
        waker: S,
    ) -> Result<(usize, Option<S>), S>
        ensures { WaitsToSend self.old place waker result self.new }
    {
        if self.is_closed || self.messages.len() < self.capacity {
            return Err(waker);
        }
        self.senders.waiters.enter(place, waker)
    }

    /// Under the channel's lock: has a receiver wait for a message. If there is one, or the channel is
    /// closed, or there is no memory for its place, the waker comes back, and is to be woken.
    #[inline(always)]
    pub(crate) fn wait_to_receive(
        &mut self,
        place: Option<usize>,
        waker: V,
    ) -> Result<(usize, Option<V>), V>
        ensures { WaitsToReceive self.old place waker result self.new }
    {
        if self.is_closed || !self.messages.is_empty() {
            return Err(waker);
        }
        self.receivers.waiters.enter(place, waker)
    }

    /// Under the channel's lock: has a sender wait no longer. If it was told of room that it did not use,
    /// the next one is.
    #[inline(always)]
    pub(crate) fn leave_senders(&mut self, place: Option<usize>) -> Left<S>
        ensures { LeavesSenders self.old place result self.new }
    {
        let room = self.capacity - self.messages.len();
        self.senders.waiters.pass(place, room)
    }

    /// Under the channel's lock: has a receiver wait no longer. If it was told of a message that it did not
    /// take, the next one is.
    #[inline(always)]
    pub(crate) fn leave_receivers(&mut self, place: Option<usize>) -> Left<V>
        ensures { LeavesReceivers self.old place result self.new }
    {
        let there = self.messages.len();
        self.receivers.waiters.pass(place, there)
    }

    /// Under the channel's lock: closes the channel, and gives all who wait. What is inside stays. Nothing
    /// changes if it was closed before.
    pub(crate) fn close(&mut self, alloc: Global) -> Option<Closing<S, V>>
        ensures { Closes self.old result self.new }
    {
        if self.is_closed {
            return None;
        }
        self.is_closed = true;
        Some(Closing {
            senders: self.senders.take_all(alloc),
            receivers: self.receivers.take_all(alloc),
        })
    }
}
