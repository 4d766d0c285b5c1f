//! A run: a future that runs the tasks of an executor beside a future of the caller's.
//!
//! A run has a runner, with a queue of its own for tasks. It searches there first, then takes half
//! of what all runners share, then half of another runner's queue. So threads that each drive a run
//! share the work.
//!
//! ```text
//!              ┌────────────── yield, after a turn ───────────────┐
//!              ▼                                                  │
//! register ── poll the own future ── search ── found ── run the task
//!              │        ▲              │  ▲                │
//!              │        │            empty └── search again ┘
//!              │        └─ woken ─ sleep
//!              │
//!              └── ready, or the run is dropped ── unregister ── leave the sleepers ── return
//! ```
//!
//! What it does next is decided in `machine`. Between two polls of its own future a run goes the
//! steps of one tick after another, but that its searches are those of a runner. With each so
//! many-th task it takes its part of the shared queue before it runs the task, so that tasks there
//! are not left behind its own. After a turn of so many tasks it lets others of its thread go on. The
//! limits of its executor say how many that are.

mod run;

pub use crate::machine::{RandomGenerator, RunAction, RunMachine, RunNext, RunReply, RunRest};
pub use run::RunError;
pub(crate) use run::{RunIn, WorkerIn};
