//! Executors for futures that are written by hand.
//!
//! An executor, its handles and the wakers of its tasks share one `ExecutorState`: the table of tasks
//! of `executor_core` behind a lock, and the right to wait for that lock. The table holds no futures.
//! The futures and the outputs of the tasks stand in a `FutureTable`, each under the number of its task.
//! There are two tables since a waker has a share of the state, and a future may keep its waker: a
//! table with futures in it would be a part of itself.
//!
//! A `Storage` keeps that table, behind a lock or in a cell. `ExecutorIn`, `TaskIn`, `TickIn` and `RunIn`
//! are written once for both. Each public type has one of them, of one storage.
//!
//! If both are locked, the futures are locked first and the table second. Neither is locked while a
//! future is polled or dropped, an output is dropped, or a waker is copied, woken or dropped.
#![tactic(auto)]

pub(crate) mod debug;
pub(crate) mod dropper;
pub mod executor;
pub(crate) mod futures;
pub(crate) mod io_errors;
pub mod local_executor;
pub(crate) mod lock;
pub(crate) mod machine;
pub(crate) mod poller;
pub mod runner;
pub(crate) mod scheduler;
pub(crate) mod sleeper;
pub(crate) mod sleeping;
pub(crate) mod state;
pub mod static_executors;
pub(crate) mod task;
pub mod ticker;
pub(crate) mod waker;

pub use executor::{
    Cancel, Cancelled, Executor, FallibleTask, Limits, NewError, Run, RunError, RunnerError,
    Sleeper, SpawnMany, Task, TaskWaker, Tick, Worker,
};
pub use executor_core::task::{Future, OutOfMemory, Poll, SpawnError, Wake};
pub use local_executor::{
    LocalCancel, LocalExecutor, LocalFallibleTask, LocalRun, LocalTask, LocalTick,
};
pub use static_executors::{StaticExecutor, StaticLocalExecutor};
