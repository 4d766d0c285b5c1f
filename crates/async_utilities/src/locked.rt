//! What stands behind a lock that is usually free: it is tried once inline, and only then waited for.
//!
//! A hold is short beside the sleep of a thread and the call that ends it. So the lock is tried again for a
//! while before the thread sleeps, each time after twice as long a pause, up to the longest.
use async_executor::OutOfMemory;
use std::alloc::Global;
use std::cmp::min;
use std::hint::spin_loop;
use std::sync::{Arc, Mutex, MutexGuard, Wait};

/// Waits for a lock. It is no function, since each call that may wait costs its caller a test.
macro_rules! lock {
    ($mutex:expr, $rt:expr) => {{
        let mutex = &$mutex;
        match mutex.try_lock() {
            Some(guard) => guard,
            None => crate::locked::wait_for(mutex, $rt),
        }
    }};
}

pub(crate) use lock;

/// A state behind a lock, which handles, futures and guards share, and the right to wait for that lock.
#[derive(Drop)]
pub(crate) struct Locked<S, R> {
    state: Mutex<S>,
    pub(crate) rt: R,
}

impl<S: Drop, R: Wait + Drop> Locked<S, R> {
    /// A state behind its lock, with its first holder.
    pub(crate) fn share(rt: R, alloc: Global, state: S) -> Result<Arc<Locked<S, R>>, OutOfMemory> {
        let state = Mutex::new(state);
        match Arc::new(alloc, Locked { state, rt }) {
            Ok(shared) => Ok(shared),
            Err(_) => Err(OutOfMemory),
        }
    }

    /// Waits for the lock of this `Locked`, and gives its state.
    #[inline(always)]
    pub(crate) fn state(&self) -> MutexGuard<'_, S> {
        lock!(self.state, &self.rt)
    }
}

// How often a thread tries again before it sleeps.
const TRIES: u32 = 9;

// Its first pause and its longest, in spins of the processor. A spin takes 12 cycles on some processors and
// 140 on others, and all pauses together have 5,088. A thread that tries sooner takes the line of the lock
// from the one that holds it.
const SHORTEST: u32 = 32;

const LONGEST: u32 = 1024;

/// Waits for a lock of `async_utilities` that was not free. Apart, so that one that is free takes a few
/// instructions.
#[cold]
#[inline(never)]
pub(crate) fn wait_for<'a, T, R: Wait>(mutex: &'a Mutex<T>, rt: &R) -> MutexGuard<'a, T> {
    let mut pause = SHORTEST;
    for _ in 0..TRIES {
        for _ in 0..pause {
            spin_loop();
        }
        if let Some(guard) = mutex.try_lock() {
            return guard;
        }
        pause = min(pause.saturating_mul(2), LONGEST);
    }
    mutex.lock(rt)
}
