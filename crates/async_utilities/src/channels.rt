//! A channel with many senders and many receivers, of bounded room or of as much as there is memory.
//!
//! What its ends share stands under one lock: the messages, in the order in which they were sent, and
//! who waits at either side. A sender waits while there is no room, and a receiver while there is no
//! message. Each message that comes tells the first receiver that waits, and each that goes the first
//! sender. One that was told and goes away has the next one told, so nothing is lost by that. One that
//! was told and takes what it came for tells nobody. `state` has the laws of both sides in its type.
//!
//! A place among those who wait belongs to the future that waits, so any number of futures of one end
//! wait at once. It is taken by the first poll that has to wait.
//! Nobody is woken, and no waker is copied or dropped, while the lock is held.
ghost use Rattle.std.specs.Prelude.{◌≡◌, ◌<◌, IfOk, None};
ghost use Rattle.std.specs.Arc.{arc_value};

pub(crate) mod receiver;
pub(crate) mod sender;
pub(crate) mod side;
pub(crate) mod state;

use crate::channels::state::State;
use crate::locked::lock;
use async_executor::{OutOfMemory, Wake};
pub use receiver::{Receive, Receiver};
pub use sender::{Send, Sender, Unsent};
pub use state::NoMessage;
use std::alloc::Global;
use std::sync::{Arc, Mutex, MutexGuard, Wait};

/// What the ends of a channel share. Each end lends it by `channel`.
///
/// Example: `uses::looks_inside`.
///
/// ```text
/// let right = rt.clone().ok()?;
/// let (sender, receiver) = bounded::<u32, NoopWaker, NoopWaker, R>(right, alloc, 2).ok()?;
/// let _other = receiver.copy().ok()?;
/// sender.try_send(1).ok()?;
/// let channel = sender.channel();
/// let (senders, receivers) = (channel.sender_count(), channel.receiver_count());
/// // [1, 2, 1, 2]
/// Some([channel.len(), channel.capacity(), senders, receivers])
/// ```
#[derive(Drop)]
pub struct Channel<T: Drop, S: Wake, V: Wake, R: Wait + Drop> {
    state: Mutex<State<T, S, V>>,
    capacity: usize,
    alloc: Global,
    rt: R,
}

/// A new channel with room for so many messages, with its first sender and its first receiver. S is
/// the waker that sends are polled with, V that of receives, and R the right to wait for the lock.
/// Memory for all messages is taken here.
///
/// # Errors
///
/// `OutOfMemory` if memory for it is refused.
///
/// Example: `uses::sends_and_receives`, and to a task `uses::sends_to_a_task`.
///
/// ```text
/// let right = rt.clone().ok()?;
/// let (sender, receiver) = bounded::<u32, ThreadWaker, ThreadWaker, R>(right, alloc, 4).ok()?;
/// block_on(rt, alloc, sender.send(7)).ok()?.ok()?;
/// drop(sender);
/// let message = block_on(rt, alloc, receiver.receive()).ok()?;
/// // [Some(7), None]
/// Some([message, block_on(rt, alloc, receiver.receive()).ok()?])
/// ```
pub fn bounded<T: Drop, S: Wake, V: Wake, R: Wait + Drop>(
    rt: R,
    alloc: Global,
    capacity: usize,
) -> Result<(Sender<T, S, V, R>, Receiver<T, S, V, R>), OutOfMemory>
    requires { 0 < capacity }
    ensures joined { IfOk result (λ ends. arc_value ends.0.channel ≡ arc_value ends.1.channel) }
    ensures room { IfOk result (λ ends. (arc_value ends.0.channel).capacity ≡ capacity) }
{
    let state = State::new(alloc, capacity, capacity)?;
    ends_of(rt, alloc, capacity, state)
}

/// A new channel with room for as many messages as there is memory for, with its first sender and its
/// first receiver. No sender waits: a send is ready at once, and gives its message back if memory for
/// it is refused. No receive and no wake takes memory.
///
/// # Errors
///
/// `OutOfMemory` if memory for it is refused.
///
/// Example: `uses::sends_too_late`.
///
/// ```text
/// let right = rt.clone().ok()?;
/// let (sender, receiver) = unbounded::<u32, NoopWaker, NoopWaker, R>(right, alloc).ok()?;
/// sender.try_send(1).ok()?;
/// sender.channel().close();
/// let unsent = sender.try_send(2).err()?;
/// // (Closed(2), Ok(1))
/// Some((unsent, receiver.try_receive()))
/// ```
pub fn unbounded<T: Drop, S: Wake, V: Wake, R: Wait + Drop>(
    rt: R,
    alloc: Global,
) -> Result<(Sender<T, S, V, R>, Receiver<T, S, V, R>), OutOfMemory>
    ensures joined { IfOk result (λ ends. arc_value ends.0.channel ≡ arc_value ends.1.channel) }
    ensures room { IfOk result (λ ends. (arc_value ends.0.channel).capacity ≡ usize.MAX) }
{
    let state = State::new(alloc, usize::MAX, 0)?;
    ends_of(rt, alloc, usize::MAX, state)
}

// For `bounded` and `unbounded`: the first two ends of a channel with this state.
fn ends_of<T: Drop, S: Wake, V: Wake, R: Wait + Drop>(
    rt: R,
    alloc: Global,
    capacity: usize,
    state: State<T, S, V>,
) -> Result<(Sender<T, S, V, R>, Receiver<T, S, V, R>), OutOfMemory>
    ensures joined { IfOk result (λ ends. arc_value ends.0.channel ≡ arc_value ends.1.channel) }
    ensures room { IfOk result (λ ends. (arc_value ends.0.channel).capacity ≡ capacity) }
{
    let Ok(channel) = Arc::new(alloc, Channel::new(rt, alloc, capacity, state)) else {
        return Err(OutOfMemory);
    };
    let receiver = Receiver {
        channel: Arc::try_clone(&channel)?,
        place: None,
    };
    let sender = Sender {
        channel,
        place: None,
    };
    Ok((sender, receiver))
}

impl<T: Drop, S: Wake, V: Wake, R: Wait + Drop> Channel<T, S, V, R> {
    fn new(rt: R, alloc: Global, capacity: usize, state: State<T, S, V>) -> Self
        ensures { result.capacity ≡ capacity }
    {
        Channel {
            state: Mutex::new(state),
            capacity,
            alloc,
            rt,
        }
    }

    #[inline(always)]
    pub(crate) fn state(&self) -> MutexGuard<'_, State<T, S, V>> {
        lock!(self.state, &self.rt)
    }

    pub(crate) fn alloc(&self) -> Global {
        self.alloc
    }

    /// Closes the channel, and says whether it was open. No message is taken any more, and what is
    /// inside still comes out. All who wait are woken. A channel is closed too once its last sender or
    /// its last receiver is dropped.
    ///
    /// Example: `uses::sends_too_late`, at `unbounded`.
    pub fn close(&self) -> bool {
        let closing = self.state().close(self.alloc);
        match closing {
            Some(closing) => {
                closing.wake();
                true
            }
            None => false,
        }
    }

    /// Whether the channel is closed.
    ///
    /// Example: `uses::closes_a_channel`.
    pub fn is_closed(&self) -> bool {
        self.state().is_closed
    }

    /// How many messages are inside this `Channel`.
    ///
    /// Example: `uses::looks_inside`, at `Channel`.
    pub fn len(&self) -> usize {
        self.state().messages.len()
    }

    /// Whether no message is inside this `Channel`.
    ///
    /// Example: `uses::closes_a_channel`.
    pub fn is_empty(&self) -> bool {
        self.len() == 0
    }

    /// Whether this `Channel` has no room for a message.
    ///
    /// Example: `uses::closes_a_channel`.
    pub fn is_full(&self) -> bool {
        self.len() >= self.capacity
    }

    /// For how many messages this `Channel` has room. An unbounded one has `usize::MAX`.
    ///
    /// Example: `uses::looks_inside`, at `Channel`.
    pub fn capacity(&self) -> usize
        ensures { result ≡ self.now.capacity }
    {
        self.capacity
    }

    /// How many senders there are.
    ///
    /// Example: `uses::looks_inside`, at `Channel`.
    pub fn sender_count(&self) -> usize {
        self.state().senders.ends
    }

    /// How many receivers there are.
    ///
    /// Example: `uses::looks_inside`, at `Channel`.
    pub fn receiver_count(&self) -> usize {
        self.state().receivers.ends
    }
}
