//! Work that blocks, which the threads of a pool do for futures.
ghost use Rattle.std.specs.Prelude.{◌≡◌, Some, None, IsSome, IfErr};
ghost use Rattle.std.specs.Arc.{arc_value};
ghost use Rattle.executor_core.specs.declared.task.future.Poll.TheVariants.{Pending as waits, Ready as ready};

use crate::channels::{Receiver, Sender, bounded};
use crate::noop::NoopWaker;
use crate::pooling::Pool;
use async_executor::{Cancelled, Future, Poll, Wake};
use std::alloc::AllocFailed;
use std::sync::Wait;
use std::thread::Threads;

/// Work that is done by one call, which may block. It stands in the place of a closure, of which no
/// field can say that it may be called.
///
/// Example: `uses::unblocks`, of a `Slow`.
///
/// ```text
/// let jobs: Jobs<R> = Pool::new(rt.clone()?, alloc, 1)?;
/// let executor: Tasks<R> = Executor::new(rt.clone()?, alloc)?;
/// let answer = jobs.unblock(Slow { number: 7 })?;
/// let task = executor.spawn(answer)?;
/// // 7
/// Ok(run_until(rt, alloc, &executor, task)???)
/// ```
pub trait Job: Drop {
    /// What it gives.
    type Output: Drop;

    /// Does the job, which may block.
    fn run(self) -> Self::Output;
}

/// A job as a task, which its first poll does from beginning to end. It is pending from then on, and
/// wakes nobody.
///
/// Example: `uses::unblocks`, at `Job`.
#[derive(Drop)]
pub struct Work<J: Job, V: Wake, R: Wait + Drop> {
    job: Option<J>,
    answers: Sender<J::Output, NoopWaker, V, R>,
}

impl<J: Job, V: Wake, R: Wait + Drop> Work<J, V, R> {
    // The job of a `Work`, which was not begun.
    fn into_job(self) -> J
        requires { IsSome self.job }
        ensures { self.job ≡ Some result }
    {
        let Work { job, answers } = self;
        drop(answers);
        match job {
            Some(job) => job,
            None => unreachable!(),
        }
    }

    // Does the job, and gives what that gives, which comes back if nobody wants it any more.
    fn finish(&mut self, job: J) -> Poll<()>
        ensures ended { result ≡ ready tt }
        ensures kept { self.new.job ≡ self.old.job }
        ensures same { arc_value self.new.answers.channel ≡ arc_value self.old.answers.channel }
    {
        let _ = self.answers.try_send(job.run());
        Poll::Ready(())
    }
}

impl<W, J: Job, V: Wake, R: Wait + Drop> Future<W> for Work<J, V, R> {
    type Output = ();

    fn poll(&mut self, _w: &W) -> Poll<()>
        ensures done { self.new.job ≡ None }
        ensures ended { IsSome self.old.job → result ≡ ready tt }
        ensures again { self.old.job ≡ None → result ≡ waits }
        ensures same { arc_value self.new.answers.channel ≡ arc_value self.old.answers.channel }
    {
        let Some(job) = self.job.take() else {
            return Poll::Pending;
        };
        self.finish(job)
    }
}

/// Gives what a job gave, or `Cancelled` if its pool went before the job was begun. Polled again, it
/// is `Cancelled`. If it is dropped, the job is done nevertheless, and what it gives is dropped.
///
/// Example: `uses::unblocks`, at `Job`.
#[derive(Drop)]
pub struct Answer<T: Drop, V: Wake, R: Wait + Drop> {
    answers: Receiver<T, NoopWaker, V, R>,
}

impl<T: Drop, V: Wake, R: Wait + Drop> Future<V> for Answer<T, V, R> {
    type Output = Result<T, Cancelled>;

    fn poll(&mut self, w: &V) -> Poll<Result<T, Cancelled>>
        ensures same { arc_value self.new.answers.channel ≡ arc_value self.old.answers.channel }
    {
        match self.answers.poll_receive(w) {
            Poll::Ready(Some(output)) => Poll::Ready(Ok(output)),
            Poll::Ready(None) => Poll::Ready(Err(Cancelled)),
            Poll::Pending => Poll::Pending,
        }
    }
}

impl<J, V, R> Pool<Work<J, V, R>, R>
where
    J: Job + Send + 'static,
    J::Output: Send + 'static,
    V: Wake + Send + 'static,
    R: Wait + Threads + Clone + Drop + Send + Sync + 'static,
{
    /// Has a thread of the pool do this job, and gives a future of what it gives, for wakers of any
    /// type: so a task awaits what blocks, and its own thread goes on. As many jobs are done at a time
    /// as the pool has threads; the others wait in the order in which they came.
    ///
    /// # Errors
    ///
    /// `AllocFailed` with the job, if memory for it is refused.
    ///
    /// Example: `uses::unblocks`, at `Job`.
    pub fn unblock(&self, job: J) -> Result<Answer<J::Output, V, R>, AllocFailed<J>>
        ensures refused { IfErr result (λ failed. failed.value ≡ job) }
    {
        let Ok(rt) = self.inner.rt.clone() else {
            return Err(AllocFailed { value: job });
        };
        // A channel, so that wakers of any type await it: those who await a handle are the threads'
        // wakers.
        let Ok((sender, answers)) = bounded(rt, self.inner.alloc, 1) else {
            return Err(AllocFailed { value: job });
        };
        let work = Work {
            job: Some(job),
            answers: sender,
        };
        match self.executor().spawn(work) {
            Ok(task) => task.detach(),
            Err(refused) => return Err(AllocFailed {
                value: refused.into_inner().into_job(),
            }),
        }
        Ok(Answer { answers })
    }
}
