//! Who sleeps while there is no task to take, and the flag that says whether one is to be notified.
//!
//! A sleeper has found no task, and asks to be woken once there may be one. It has a number, which
//! it keeps until it has a task or gives up, and its waker stands in a list, in the order in which
//! the sleepers went to sleep. A number in use that does not stand there is *notified*: its waker
//! was taken, to be woken. At most one is. While it is, no other waker is taken; it ends by that
//! sleeper's answer, which is to sleep again or to be removed.
//!
//! The list stands under a lock. Whoever queues a task does not take that lock each time, for a
//! flag beside it repeats what the list said last:
//!
//! | flag | the list said |
//! |---|---|
//! | true | nobody sleeps, or one is notified: there is nobody to notify |
//! | false | there are sleepers, and none is notified |
//!
//! A task that is queued leaves a `Notice`. `Flag::exchange` spends it and sets the flag, and if
//! the flag was false it gives the `Pick`. Under the lock `Sleepers::notify` spends the pick: it
//! takes the waker of the one who went to sleep last, unless one is notified already. That waker is
//! woken by `Wakeup::wake`, which comes after the lock was given up.
//!
//! A change of the list, by `insert`, `update` or `remove`, makes the flag out of date. So the call
//! gives a `Change`, which carries what the flag is to say, and the list is *open* until
//! `Flag::store` spends the change and closes it. The other calls that change the list ask for a
//! closed one. `ClosedSleepers` is what the lock keeps: with it, the lock is not given up in
//! between.
//!
//! What else a change carries comes out of it at the store, and not before:
//!
//! - Going to sleep gives an `Again`, which asks for one more search. While the flag was still
//!   true, a task may have been queued after the search that found none; its notice gave no pick.
//! - A removal gives the `Notice` of a notified number. One that has a task, or gives up, does not
//!   act on what it was woken for, so the notice goes on to the flag.
//!
//! A number needs a place, which is reserved before: room for its pair in the list, and for itself
//! among the numbers that were given back. So no call but `reserve` takes memory.

pub mod closed;
pub mod list;
pub mod shared_flag;

pub use closed::ClosedSleepers;
pub use list::{Removed, Sleepers, Update};
pub use shared_flag::Flag;
