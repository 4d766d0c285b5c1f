//! What ticks and runs do next.
//!
//! It is decided by *steps*: small values, each of which says what its holder does next. Only this
//! module makes them. A step can be neither copied nor dropped, and it leads on by its own calls
//! alone. So a run whose turn is over has nothing with which to search on, and one that owes its
//! queue a fair part has no task to run before it took that. A step that changes the list of
//! sleepers or the table makes its call itself, on the list or the table that it is handed.
//!
//! A `TickMachine` or a `RunMachine` is the step that waits for the reply to its last action, for
//! callers who drive a core of their own: it is told what came of that, goes on by the same calls,
//! and answers with the next action. Running ticks and runs hold steps: a reply is a large value, which
//! would be built only to be taken apart.

mod run;
mod run_steps;
mod steps;
mod tick;
mod waiting;
mod worker_steps;

pub use run::{RunAction, RunMachine, RunNext, RunReply};
pub use run_steps::{RandomGenerator, RunRest};
pub(crate) use run_steps::{
    Begun, Dropped, NextTask, NotRegistered, OwnPolled, PollingOwn, Registering, Runner, Search,
    Started, TurnOver, Unregistering,
};
pub(crate) use steps::{
    Departed, Departing, Found, GoingToSleep, Rested, Running, Searching, Went,
};
pub use tick::{TickMachine, TickNext, TickRest};
pub use waiting::{TickAction, TickEnd, TickReply};
