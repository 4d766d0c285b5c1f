//! What programs need beside an executor: a thread that waits for a future, a waker that does nothing,
//! small futures, joins, a signal, a channel, locks, timers, a pool of threads, and work on it that
//! blocks.
//!
//! It stands on what `async_executor` makes public. Its futures are for wakers of any type, and its
//! wakers serve any future.
//!
//! An example is the whole body of a caller of `uses/src`. There rt is the right to wait and alloc the
//! allocator, as `main` hands them on.
#![tactic(auto)]

pub mod blocking;
pub mod channels;
pub mod combining;
pub(crate) mod due;
pub mod immediate;
pub(crate) mod io_errors;
pub mod joining;
pub(crate) mod locked;
pub mod locks;
pub mod noop;
pub mod pooling;
pub mod signals;
pub mod spawning;
pub mod timers;
pub(crate) mod token;
pub mod unblocking;
pub(crate) mod wait_queue;

pub use blocking::{BlockOnError, ThreadWaker, block_on, poll_until_ready, run_until};
pub use channels::{
    Channel, NoMessage, Receive, Receiver, Send, Sender, Unsent, bounded, unbounded,
};
pub use combining::{Change, Either, Map, Or, Race, Then, Zip};
pub use immediate::{Never, Ready, YieldNow};
pub use joining::{AnyOf, First, JoinAll};
pub use locks::{
    Acquire, Barrier, BarrierWait, BarrierWaitResult, Event, EventListener, Lock, Mutex,
    MutexGuard, OnceCell, OnceInit, Semaphore, SemaphoreGuard, TooManyPermits, Unavailable,
};
pub use noop::NoopWaker;
pub use pooling::{Done, Driven, Pool, PoolError, PoolOf, PoolThread};
pub use signals::{Signal, Waiting};
pub use spawning::{JobLimits, Jobs, MakeTask, Server, Spawner, servers};
pub use timers::{
    After, Driver, Firing, Interval, Next, Reading, TimedOut, Timeout, Timer, TimerError,
    TimerFailed,
};
pub use unblocking::{Answer, Job, Work};
