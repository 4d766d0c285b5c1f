//! A tick: a future that runs one task, and sleeps while there is none.
//!
//! What it does next is decided in `machine`. A `Tick` goes the steps that are made there, each of
//! which is one step on what is shared. Between its polls it keeps a `TickRest`, which holds nothing
//! that must be spent.
//!
//! A tick is *awake* at first. If its search finds no task, it goes to sleep: its waker stands in
//! the list of sleepers, under a number that the tick keeps from then on. Then it searches once
//! more, since a task may have been queued before its waker stood there, and only after that does
//! it wait for a wake.
//!
//! ```text
//!            search ── found ── remove the number ── store ── spend the notice ── run ── return
//!              │  ▲               (one that is asleep)
//!            empty └────────────────────────┐
//!              │                            │
//!          go to sleep ── changed the list ── store
//!              │
//!              └── was asleep, unnotified ── park
//! ```
//!
//! One that has found a task, or is dropped, does not act on what it was woken for. So if its
//! number was notified, the notice that comes of the removal is spent on the flag, and another
//! sleeper may be woken in its place.

mod tick;

pub use crate::machine::{TickAction, TickEnd, TickMachine, TickNext, TickReply, TickRest};
pub(crate) use tick::TickIn;
