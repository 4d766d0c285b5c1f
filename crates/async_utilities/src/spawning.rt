//! Tasks that want tasks: jobs, of each of which a task is made, and a spawner that goes into these tasks.
//!
//! A job is a plain value, so neither the type of a task nor that of a spawner contains itself. So many
//! servers are tasks of an executor: each takes a job, makes the task of it, polls that until it is ready,
//! and takes the next. All is done once no job is left and nobody may hand one in: the owner may until its
//! `Jobs` is dropped, and so may each task until it is ready. Then each server ends.
//!
//! What they share stands under one lock (`job_queue`), which a job takes twice: as it is handed in, and as
//! a server takes it. The end of a task is counted in the hold in which its server takes the next job, or
//! waits for one. No lock is held while a task is made, polled or dropped, or a waker woken or dropped.
ghost use Rattle.std.specs.Prelude.{◌≡◌, ◌↔◌, ◌<◌, None, Some, IfErr, IfOk, IfSome, IsSome, IsTrue, is_some, vec_len};
ghost use Rattle.std.specs.Arc.{arc_value};
ghost use Rattle.executor_core.specs.declared.task.future.Poll.TheVariants.{Ready as gave};
ghost use Rattle.async_utilities.specs.Polls.{IfReady};
ghost use Rattle.async_utilities.specs.Unsent.{unsent};
ghost use Rattle.async_utilities.specs.declared.spawning.Begun.TheVariants as Begun;

pub(crate) mod job_queue;

use crate::blocking::ThreadWaker;
use crate::channels::Unsent;
use crate::locked::lock;
use crate::spawning::job_queue::JobQueue;
use async_executor::{Future, OutOfMemory, Poll, TaskWaker, Wake};
use std::alloc::Global;
use std::sync::{Arc, Mutex, MutexGuard, Wait};

// A poll of a server ends so many tasks at most: then it lets others of its thread go on.
const TURN: usize = 16;

// The waker of all servers.
type PoolWaker<R> = TaskWaker<ThreadWaker, R>;

/// Makes the task of a job. It stands in the place of a closure, of which no field can say that it may be
/// called.
///
/// Example: `uses::hands_in_jobs`, at `servers`, of `Numbers`.
pub trait MakeTask<J: Drop, R: Wait + Drop>: Drop {
    /// The task. What it gives is dropped.
    type Task: Future<TaskWaker<ThreadWaker, R>>;

    /// Makes the task of a job. A job of which there is no memory for a task comes back, and is handed in
    /// again later.
    ///
    /// Example: `uses::hands_in_jobs`, at `servers`, of `Numbers`.
    fn make(&self, job: J, spawner: &Spawner<J, R>) -> Result<Self::Task, J>
        ensures back { IfErr result (λ failed. failed ≡ job) };
}

// The jobs that are under a lock.
type LockedJobs<'a, J, R> = MutexGuard<'a, JobQueue<J, PoolWaker<R>>>;

// What the owner, the servers and all spawners share.
#[derive(Drop)]
struct Desk<J: Drop, R: Wait + Drop> {
    jobs: Mutex<JobQueue<J, PoolWaker<R>>>,
    alloc: Global,
    rt: R,
}

// Waits for the jobs of a desk, which are locked until the guard is dropped. A macro, for the same reason as
// `lock!`.
macro_rules! jobs {
    ($desk:expr) => {{
        let desk = $desk;
        lock!(desk.jobs, &desk.rt)
    }};
}

impl<J: Drop, R: Wait + Drop> Desk<J, R> {
    // Locks the jobs, and takes the first one for the server of this place. If there is none, the server is
    // counted no longer, and waits with a copy of this waker; or all is done. It is the waker of a task, so
    // no code of a caller's runs where it is copied.
    fn take(&self, is_counted: &mut bool, place: usize, w: &PoolWaker<R>) -> Poll<Option<J>>
        ensures counted { IfReady result (λ job. is_counted.new ≡ is_some job) }
    {
        let mut jobs = jobs!(self);
        if let Some((job, waker)) = jobs.take(*is_counted, place) {
            drop(jobs);
            drop(waker);
            *is_counted = true;
            return Poll::Ready(Some(job));
        }
        if jobs.is_last(*is_counted) {
            end_one(jobs, self.alloc);
            *is_counted = false;
            return Poll::Ready(None);
        }
        let Ok(waker) = w.copy() else {
            drop(jobs);
            w.wake();
            return Poll::Pending;
        };
        let earlier = jobs.rest(*is_counted, place, waker);
        drop(jobs);
        drop(earlier);
        *is_counted = false;
        Poll::Pending
    }

    // Locks the jobs, and gives a new `Server` its place.
    fn join(&self) -> Result<usize, OutOfMemory> {
        Ok(jobs!(self).join()?)
    }

    // The drop of a `Server`: that of this place is gone.
    fn part(&self, is_counted: bool, place: usize) {
        if is_counted {
            self.end_one();
        }
        let left = jobs!(self).part(place);
        left.end();
    }

    // Locks the jobs: one that is counted hands in no more.
    fn end_one(&self) {
        end_one(jobs!(self), self.alloc);
    }
}

// `JobQueue::end_one`, with the wakes that it leaves: if all is done then, the servers that wait are woken.
// Apart, since a server does so once.
#[cold]
#[inline(never)]
fn end_one<J: Drop, R: Wait + Drop>(jobs: LockedJobs<'_, J, R>, alloc: Global) {
    let mut jobs = jobs;
    let ended = jobs.end_one(alloc);
    drop(jobs);
    if let Some(all) = ended {
        all.wake();
    }
}

/// Hands in jobs. A task may have a copy, and so may a thread.
///
/// Example: `uses::fans_out`.
#[derive(Drop)]
pub struct Spawner<J: Drop, R: Wait + Drop> {
    desk: Arc<Desk<J, R>>,
}

impl<J: Drop, R: Wait + Drop> Spawner<J, R> {
    /// The same spawner, for another holder. It takes no memory.
    ///
    /// # Errors
    ///
    /// `OutOfMemory` if another holder cannot be counted.
    ///
    /// Example: `uses::fans_out`.
    pub fn copy(&self) -> Result<Spawner<J, R>, OutOfMemory>
        ensures same { IfOk result (λ copy. arc_value copy.desk ≡ arc_value self.now.desk) }
    {
        let desk = Arc::try_clone(&self.desk)?;
        Ok(Spawner { desk })
    }

    /// Hands in a job, behind those that were handed in before. The next server that is free makes a task
    /// of it.
    ///
    /// # Errors
    ///
    /// `Unsent` with the job: `Full` if there is no room, `Refused` if memory is refused, and `Closed` if
    /// the servers are gone, or all jobs were done once the owner's `Jobs` was dropped.
    ///
    /// Example: `uses::hands_in_jobs`, at `servers`.
    pub fn spawn(&self, job: J) -> Result<(), Unsent<J>>
        ensures back { IfErr result (λ failed. unsent failed ≡ job) }
    {
        // Not in the head of the match, which would keep the lock while a server is woken.
        let given = jobs!(&self.desk).give(job);
        match given {
            Ok(due) => {
                due.wake();
                Ok(())
            }
            Err(unsent) => Err(unsent),
        }
    }
}

/// Makes a task of each job that it takes, and polls that until it is ready, one after another. It gives
/// how many it did, once all jobs are done. It is a task itself, of a `Pool` or of another executor whose
/// threads park.
///
/// Example: `uses::hands_in_jobs`, at `servers`.
#[derive(Drop)]
pub struct Server<J, M, R>
where
    J: Drop,
    M: MakeTask<J, R>,
    R: Wait + Drop,
{
    // In a box: an executor moves each future that it polls, and a task may be large.
    serving: Box<Serving<J, M, R>>,
}

// What a server has, and does.
struct Serving<J, M, R>
where
    J: Drop,
    M: MakeTask<J, R>,
    R: Wait + Drop,
{
    spawner: Spawner<J, R>,
    maker: Arc<M>,
    // Whether it is counted as one that may hand in jobs.
    is_counted: bool,
    unmade: Option<J>,
    // Polled here: its job takes no place in the table of tasks, and no memory but that of the queue.
    task: Option<M::Task>,
    // Where it waits, which is its own.
    place: usize,
    done: u64,
}

// What a server that had no task has then.
#[derive(Clone, Copy)]
enum Begun {
    Task,
    Nothing,
    Over,
}

impl<J, M, R> Server<J, M, R>
where
    J: Drop,
    M: MakeTask<J, R>,
    R: Wait + Drop,
{
    // A server that has no job yet.
    fn new(spawner: &Spawner<J, R>, maker: &Arc<M>) -> Result<Server<J, M, R>, OutOfMemory> {
        let serving = Serving {
            spawner: spawner.copy()?,
            maker: Arc::try_clone(maker)?,
            is_counted: false,
            unmade: None,
            task: None,
            place: spawner.desk.join()?,
            done: 0,
        };
        match Box::new(spawner.desk.alloc, serving) {
            Ok(serving) => Ok(Server { serving }),
            Err(_) => Err(OutOfMemory),
        }
    }
}

impl<J, M, R> Serving<J, M, R>
where
    J: Drop,
    M: MakeTask<J, R>,
    R: Wait + Drop,
{
    // Takes the next job, unless one is left of which no task was made.
    fn take_job(&mut self, w: &PoolWaker<R>) -> Poll<Option<J>>
        ensures left { IfSome self.old.unmade (λ job. result ≡ gave (Some job)) }
        ensures taken { self.new.unmade ≡ None }
        ensures task { self.new.task ≡ self.old.task }
        ensures counted { self.old.unmade ≡ None
            → IfReady result (λ job. self.new.is_counted ≡ is_some job) }
    {
        if let Some(job) = self.unmade.take() {
            return Poll::Ready(Some(job));
        }
        self.spawner.desk.take(&mut self.is_counted, self.place, w)
    }

    // Makes a task of the next job. If it is refused one, it keeps the job, and asks for another poll.
    fn begin(&mut self, w: &PoolWaker<R>) -> Begun
        requires { self.old.task ≡ None }
        ensures task { result ≡ Begun.Task ↔ IsSome self.new.task }
        ensures job { IfSome self.old.unmade
            (λ job. self.new.task ≡ None → self.new.unmade ≡ Some job) }
        ensures over { result ≡ Begun.Over → self.new.unmade ≡ None }
    {
        let job = match self.take_job(w) {
            Poll::Ready(Some(job)) => job,
            Poll::Ready(None) => return Begun::Over,
            Poll::Pending => return Begun::Nothing,
        };
        match self.maker.make(job, &self.spawner) {
            Ok(task) => {
                self.task = Some(task);
                Begun::Task
            }
            Err(job) => {
                // Taken before all that wait, so jobs go in order.
                self.unmade = Some(job);
                w.wake();
                Begun::Nothing
            }
        }
    }

    // Polls the task that the server has under way, and says whether it ended. It is counted on until the
    // server takes the next job, or waits for one.
    fn poll_task(&mut self, w: &PoolWaker<R>) -> bool
        ensures ended { IsTrue result → self.new.task ≡ None }
        ensures job { self.new.unmade ≡ self.old.unmade }
    {
        let Some(task) = &mut self.task else {
            return false;
        };
        let Poll::Ready(_) = task.poll(w) else {
            return false;
        };
        self.task = None;
        self.done = self.done.saturating_add(1);
        true
    }

    // Makes tasks and polls them, one after another, for one turn. It is ready once all is done.
    fn serve(&mut self, w: &PoolWaker<R>) -> Poll<u64>
        ensures { IfReady result (λ _. (self.new.task ≡ None) × (self.new.unmade ≡ None)) }
    {
        for _ in 0..TURN {
            if self.task.is_none() {
                match self.begin(w) {
                    Begun::Task => {}
                    Begun::Nothing => return Poll::Pending,
                    Begun::Over => return Poll::Ready(self.done),
                }
            }
            if !self.poll_task(w) {
                return Poll::Pending;
            }
        }
        w.wake();
        Poll::Pending
    }
}

impl<J, M, R> Future<TaskWaker<ThreadWaker, R>> for Server<J, M, R>
where
    J: Drop,
    M: MakeTask<J, R>,
    R: Wait + Drop,
{
    type Output = u64;

    fn poll(&mut self, w: &TaskWaker<ThreadWaker, R>) -> Poll<u64>
        ensures task { IfReady result (λ _. self.new.serving.value.task ≡ None) }
        ensures unmade { IfReady result (λ _. self.new.serving.value.unmade ≡ None) }
    {
        self.serving.serve(w)
    }
}

impl<J, M, R> Drop for Serving<J, M, R>
where
    J: Drop,
    M: MakeTask<J, R>,
    R: Wait + Drop,
{
    fn drop(self) {
        let Serving {
            spawner,
            maker: _,
            is_counted,
            unmade,
            task,
            place,
            done: _,
        } = self;
        // First, since a task may hand in jobs until it is gone.
        drop(task);
        drop(unmade);
        spawner.desk.part(is_counted, place);
    }
}

/// How much is done at once.
///
/// Example: `uses::hands_in_jobs`, at `servers`.
#[derive(Debug, Clone, Copy, PartialEq, Eq)]
pub struct JobLimits {
    /// How many tasks run at once: the other jobs wait, in order.
    pub tasks: usize,
    /// For how many jobs that wait there is room. `None` is as many as there is memory for.
    pub room: Option<usize>,
}

/// The owner's end. Its drop says that the owner hands in no more jobs: once those that are left are done,
/// and no task that runs hands in more, each server ends.
///
/// Example: `uses::hands_in_jobs`, at `servers`.
pub struct Jobs<J: Drop, R: Wait + Drop> {
    spawner: Spawner<J, R>,
}

impl<J: Drop, R: Wait + Drop> Jobs<J, R> {
    /// The spawner of these jobs.
    ///
    /// Example: `uses::hands_in_jobs`, at `servers`.
    pub fn spawner(&self) -> &Spawner<J, R>
        ensures { result.now ≡ self.now.spawner }
    {
        &self.spawner
    }
}

impl<J: Drop, R: Wait + Drop> Drop for Jobs<J, R> {
    fn drop(self) {
        let Jobs { spawner } = self;
        spawner.desk.end_one();
    }
}

/// An end for the owner, and as many servers as tasks may run at once, which this maker serves: each of them
/// is to be spawned.
///
/// # Errors
///
/// `OutOfMemory` if memory is refused.
///
/// Example: `uses::hands_in_jobs`, and of jobs that hand in jobs `uses::fans_out`.
///
/// ```text
/// let limits = JobLimits {
///     tasks: 1,
///     room: None,
/// };
/// let (jobs, servers) = servers(rt.clone()?, alloc, limits, Numbers)?;
/// jobs.spawner().spawn(7)?;
/// jobs.spawner().spawn(8)?;
/// drop(jobs);
/// let executor = Executor::new(rt.clone()?, alloc)?;
/// let mut tasks = Vec::new(alloc);
/// executor.spawn_many(servers.into_iter(), &mut tasks)?;
/// // [Ok(2)]
/// Ok(run_until(rt, alloc, &executor, JoinAll::new(alloc, tasks)?)?)
/// ```
pub fn servers<J, M, R>(
    rt: R,
    alloc: Global,
    limits: JobLimits,
    // Made by the caller, and no pool is made here: the borrow checker does not know that a bound on a
    // type parameter holds on another thread.
    maker: M,
) -> Result<(Jobs<J, R>, Vec<Server<J, M, R>>), OutOfMemory>
where
    J: Drop,
    M: MakeTask<J, R>,
    R: Wait + Drop,
    requires tasks { 0 < limits.tasks }
    requires room { IfSome limits.room (λ room. 0 < room) }
    ensures count { IfOk result (λ made. vec_len made.1 ≡ limits.tasks) }
{
    let jobs = Mutex::new(JobQueue::new(alloc, limits.tasks, limits.room)?);
    let Ok(desk) = Arc::new(alloc, Desk { jobs, alloc, rt }) else {
        return Err(OutOfMemory);
    };
    let Ok(maker) = Arc::new(alloc, maker) else {
        return Err(OutOfMemory);
    };
    let jobs = Jobs {
        spawner: Spawner { desk },
    };
    let mut servers = Vec::with_capacity(alloc, limits.tasks)?;
    for made in 0..limits.tasks {
        servers.push_reserved(Server::new(&jobs.spawner, &maker)?);
    }
    Ok((jobs, servers))
}
