//! How the threads of a new pool tell that they have all that they need.
ghost use Rattle.std.specs.Prelude.{◌≡◌, ◌-◌, cond, is_ok, IfErr};
ghost use Rattle.async_utilities.specs.declared.pooling.PoolError.TheVariants.{OutOfMemory};

use crate::blocking::{ThreadWaker, poll_until_ready};
use crate::pooling::PoolError;
use async_executor::{Future, Wake};
use std::alloc::{AllocError, Global};
use std::sync::{Mutex, Wait};

/// What came of a thread.
pub(crate) type Ended = Result<(), PoolError>;

/// What the threads of a new pool tell the one who makes it, who parks until all have told.
#[derive(Drop)]
pub(crate) struct Beginning {
    told: Mutex<Told>,
    waker: ThreadWaker,
}

/// How many threads have not told yet whether they have all that they need, and the first refusal.
#[derive(Drop)]
struct Told {
    pending: usize,
    ended: Ended,
}

impl Told {
    // One thread more has told how it begins.
    fn add(&mut self, told: Ended)
        ensures pending { self.new.pending ≡ self.old.pending - 1 }
        ensures first { self.new.ended ≡ cond (is_ok self.old.ended) told self.old.ended }
    {
        self.pending = self.pending.saturating_sub(1);
        if self.ended.is_ok() {
            self.ended = told;
        }
    }
}

impl Beginning {
    /// The beginning of so many threads.
    pub(crate) fn new(alloc: Global, threads: usize) -> Result<Beginning, AllocError> {
        let told = Told {
            pending: threads,
            ended: Ok(()),
        };
        Ok(Beginning {
            told: Mutex::new(told),
            waker: ThreadWaker::new(alloc)?,
        })
    }

    /// One thread more has all that it needs, or was refused it.
    pub(crate) fn tell(&self, rt: &impl Wait, told: Ended) {
        self.told.lock(rt).add(told);
        self.waker.wake();
    }

    /// Waits until all threads have told how they begin, and gives the first refusal.
    pub(crate) fn wait(&self, rt: &impl Wait) -> Ended {
        for _ in rt.forever() {
            let told = self.told.lock(rt);
            if told.pending == 0 {
                return told.ended;
            }
            drop(told);
            self.waker.park(rt);
        }
        unreachable!()
    }
}

/// A thread of a pool that has still to begin.
///
/// Example: `uses::drives_in_turns`, at `PoolOf`.
#[derive(Drop)]
pub struct PoolThread<'a, R: Wait> {
    pub(crate) rt: &'a R,
    pub(crate) alloc: Global,
    pub(crate) beginning: &'a Beginning,
}

/// Says that a thread of a pool polled a future until it was ready. `PoolThread::until_ready` alone makes it.
///
/// Example: `uses::drives_in_turns`, at `PoolOf`.
#[derive(Drop)]
pub struct Done(());

impl<R: Wait> PoolThread<'_, R> {
    /// Tells the pool that this thread has all that it needs, and polls the future until it is ready. The
    /// thread parks while it is not.
    ///
    /// # Errors
    ///
    /// `OutOfMemory` if memory for the thread's waker is refused. The future was not polled then.
    ///
    /// Example: `uses::drives_in_turns`, at `PoolOf`.
    pub fn until_ready<G: Future<ThreadWaker>>(self, future: G) -> Result<Done, PoolError>
        ensures { IfErr result (λ error. error ≡ OutOfMemory) }
    {
        let PoolThread {
            rt,
            alloc,
            beginning,
        } = self;
        let waker = ThreadWaker::new(alloc)?;
        let mut future = future;
        let mut has_told = false;
        poll_until_ready(rt, &waker, |w| {
            if !has_told {
                has_told = true;
                beginning.tell(rt, Ok(()));
            }
            future.poll(w)
        });
        Ok(Done(()))
    }
}
