//! What tasks and threads await each other by: a semaphore, a mutex, an event, a barrier and a cell that
//! is written once.
//!
//! Each stands under one lock, beside those who wait at it (`wait_queue`). Nobody is woken, and no waker
//! is copied or dropped, while that lock is held. Who waits is served in the order in which it came: one
//! that is told has what it waited for, and nobody takes it before. If it goes without, the next one is
//! told. A place belongs to the future that waits, and is taken by its first poll that has to.

pub(crate) mod barrier;
pub(crate) mod event;
pub(crate) mod mutex;
pub(crate) mod once_cell;
pub(crate) mod semaphore;

pub use barrier::{Barrier, BarrierWait, BarrierWaitResult};
pub use event::{Event, EventListener};
pub use mutex::{Lock, Mutex, MutexGuard};
pub use once_cell::{OnceCell, OnceInit};
pub use semaphore::{Acquire, Semaphore, SemaphoreGuard, TooManyPermits};

/// Why a try took nothing.
///
/// Example: `uses::locks`, at `Mutex`.
#[derive(Debug, Clone, Copy, PartialEq, Eq)]
pub enum Unavailable {
    /// Others have it, or wait for it.
    Taken,
    /// One holder more cannot be counted.
    OutOfMemory,
}
