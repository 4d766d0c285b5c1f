//! The threads of a pool: how they are started, stopped and joined, written once for every executor.
ghost use Rattle.std.specs.Prelude.{◌≡◌, ◌≢◌, ◌+◌, ◌≤◌, ◌<◌, IfOk, IfErr, OnOk, vec_len, vec_capacity};
ghost use Rattle.std.specs.Arc.{arc_value};
ghost use Rattle.async_utilities.specs.declared.pooling.PoolError.TheVariants.{NoThread};

use crate::blocking::ThreadWaker;
use crate::pooling::PoolError;
use crate::pooling::beginning::{Beginning, Done, Ended, PoolThread};
use crate::signals::{Signal, Waiting};
use std::alloc::{AllocError, Global};
use std::sync::{Arc, Wait};
use std::thread::{self, JoinHandle, Threads};

/// An executor that the threads of a pool drive.
///
/// Example: `uses::drives_in_turns`, at `PoolOf`, of a `Limited`.
pub trait Driven<R: Wait + Drop>: Drop {
    /// Runs the tasks of a `Driven` executor on this thread, the one of this number, until that future is
    /// ready.
    ///
    /// # Errors
    ///
    /// `OutOfMemory` or `Exhausted` if the thread is refused what it needs. It has run no task then.
    ///
    /// Example: `uses::drives_in_turns`, at `PoolOf`, of a `Limited`.
    fn drive(
        &self,
        number: usize,
        stopped: Waiting<ThreadWaker, R>,
        thread: PoolThread<'_, R>,
    ) -> Result<Done, PoolError>
        ensures refused { IfErr result (λ error. error ≢ NoThread) };
}

/// Threads that each drive one executor, and park while it has nothing to do, until the pool is joined or
/// dropped. `Pool` has one of an `Executor`, and a pool of another executor has one, too.
///
/// Its drop tells the threads to stop, and waits for them. Then the executor is dropped.
///
/// Example: `uses::drives_in_turns`.
///
/// ```text
/// let limits = Limits {
///     turn: 8,
///     ..Limits::default()
/// };
/// let executor = Executor::new_with(rt.clone()?, alloc, limits)?;
/// let pool = PoolOf::new(rt.clone()?, alloc, 2, Limited { executor })?;
/// let task = pool.executor().executor.spawn(Ready::new(7))?;
/// let number = block_on(rt, alloc, task)??;
/// for ended in pool.join() {
///     ended?;
/// }
/// // 7
/// Ok(number)
/// ```
pub struct PoolOf<E, R>
where
    E: Driven<R> + Send + Sync + 'static,
    R: Wait + Threads + Clone + Drop + Send + Sync + 'static,
{
    executor: Arc<E>,
    stop: Signal<ThreadWaker, R>,
    started: Started,
    pub(crate) alloc: Global,
    pub(crate) rt: R,
}

// A thread that was started. It cannot be dropped: `join` is its one end.
struct Worker {
    thread: JoinHandle<Ended>,
}

impl Worker {
    // Waits for the end of the thread, and says what came of it.
    fn join<R: Threads>(self, rt: &R) -> Ended {
        let Worker { thread } = self;
        thread.join(rt)
    }
}

// The threads that were started, with room for what comes of each.
struct Started {
    threads: Vec<Worker>,
    ended: Vec<Ended>,
    ghost none_ended: { vec_len ended ≡ 0 },
    ghost room: { vec_len threads ≤ vec_capacity ended },
}

impl Started {
    // The threads of a `PoolOf`, of which there is none yet.
    fn new(alloc: Global) -> Started
        ensures { vec_len result.threads ≡ 0 }
    {
        Started {
            threads: Vec::new(alloc),
            ended: Vec::new(alloc),
        }
    }

    // Makes room for one thread more.
    fn reserve(&mut self) -> Result<(), AllocError>
        ensures room { OnOk result (vec_len self.new.threads < vec_capacity self.new.threads) }
        ensures ended { OnOk result (vec_len self.new.threads < vec_capacity self.new.ended) }
        ensures threads { vec_len self.new.threads ≡ vec_len self.old.threads }
    {
        self.threads.try_reserve(1)?;
        self.ended.try_reserve(self.threads.len() + 1)?;
        Ok(())
    }

    // One thread more of a `PoolOf`.
    fn add(&mut self, thread: Worker)
        requires room { vec_len self.old.threads < vec_capacity self.old.threads }
        requires ended { vec_len self.old.threads < vec_capacity self.old.ended }
        ensures { vec_len self.new.threads ≡ vec_len self.old.threads + 1 }
    {
        self.threads.push_reserved(thread);
    }

    // Waits for all threads, and says what came of each, in order.
    fn join<R: Threads>(self, rt: &R) -> Vec<Ended>
        ensures { vec_len result ≡ vec_len self.threads }
    {
        let Started { threads, ended } = self;
        let (mut threads, mut ended) = (threads.into_iter(), ended);
        while let Some(thread) = threads.next() {
            ended.push_reserved(thread.join(rt));
        }
        threads.destroy_empty();
        ended
    }
}

impl<E, R> PoolOf<E, R>
where
    E: Driven<R> + Send + Sync + 'static,
    R: Wait + Threads + Clone + Drop + Send + Sync + 'static,
{
    /// A `PoolOf`: so many threads that drive this executor. It waits until each thread has the memory that
    /// it needs, so none of them ends before it is told to.
    ///
    /// # Errors
    ///
    /// `PoolError`. The threads that were started are stopped again and joined, and the executor is dropped.
    ///
    /// Example: `uses::drives_in_turns`, at `PoolOf`.
    pub fn new(rt: R, alloc: Global, count: usize, executor: E) -> Result<PoolOf<E, R>, PoolError>
        ensures count { IfOk result (λ pool. vec_len pool.started.threads ≡ count) }
        ensures executor { IfOk result (λ pool. arc_value pool.executor ≡ executor) }
    {
        let Ok(executor) = Arc::new(alloc, executor) else {
            return Err(PoolError::OutOfMemory);
        };
        let mut pool = PoolOf {
            executor,
            stop: Signal::new(rt.clone()?, alloc)?,
            started: Started::new(alloc),
            alloc,
            rt,
        };
        let Ok(beginning) = Arc::new(alloc, Beginning::new(alloc, count)?) else {
            return Err(PoolError::OutOfMemory);
        };
        pool.start_all(count, &beginning)?;
        // Each thread makes what it polls, which borrows the executor it has a share of. One that was
        // refused its memory would leave its tasks to nobody.
        beginning.wait(&pool.rt)?;
        Ok(pool)
    }

    // Starts so many threads.
    fn start_all(&mut self, count: usize, beginning: &Arc<Beginning>) -> Result<(), PoolError>
        requires { vec_len self.old.started.threads ≡ 0 }
        ensures count { OnOk result (vec_len self.new.started.threads ≡ count) }
        ensures executor { self.new.executor ≡ self.old.executor }
    {
        for number in 0..count {
            self.start(number, beginning)?;
        }
        Ok(())
    }

    // Starts the thread of this number, which tells how it begins.
    fn start(&mut self, number: usize, beginning: &Arc<Beginning>) -> Result<(), PoolError>
        ensures count { OnOk result
            (vec_len self.new.started.threads ≡ vec_len self.old.started.threads + 1) }
        ensures executor { self.new.executor ≡ self.old.executor }
    {
        self.started.reserve()?;
        let executor = Arc::try_clone(&self.executor)?;
        let stopped = self.stop.waiting()?;
        let beginning = Arc::try_clone(beginning)?;
        let (rt, alloc) = (self.rt.clone()?, self.alloc);
        let work = move || {
            let thread = PoolThread {
                rt: &rt,
                alloc,
                beginning: &beginning,
            };
            match executor.drive(number, stopped, thread) {
                Ok(_) => Ok(()),
                Err(error) => {
                    beginning.tell(&rt, Err(error));
                    Err(error)
                }
            }
        };
        match thread::spawn(&self.rt, work) {
            Ok(thread) => {
                self.started.add(Worker { thread });
                Ok(())
            }
            Err(_) => Err(PoolError::NoThread),
        }
    }

    /// The executor of this `PoolOf`, to spawn tasks on.
    ///
    /// Example: `uses::drives_in_turns`, at `PoolOf`.
    pub fn executor(&self) -> &E
        ensures { result.now ≡ arc_value self.now.executor }
    {
        &self.executor
    }

    /// Tells the threads of this `PoolOf` to stop, waits for them, and says what came of each, in the order
    /// in which they were started. Each began with all that it needs, so it is `Ok`.
    ///
    /// Example: `uses::drives_in_turns`, at `PoolOf`.
    pub fn join(self) -> Vec<Result<(), PoolError>>
        ensures { vec_len result ≡ vec_len self.started.threads }
    {
        let mut pool = self;
        pool.stop.set();
        let started = std::mem::replace(&mut pool.started, Started::new(pool.alloc));
        started.join(&pool.rt)
    }
}

impl<E, R> Drop for PoolOf<E, R>
where
    E: Driven<R> + Send + Sync + 'static,
    R: Wait + Threads + Clone + Drop + Send + Sync + 'static,
{
    fn drop(self) {
        let PoolOf {
            executor,
            stop,
            started,
            alloc: _,
            rt,
        } = self;
        stop.set();
        drop(started.join(&rt));
        drop(executor);
    }
}
