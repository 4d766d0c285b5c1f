//! The line of progress.
use crate::failure::Failure;
use crate::file_digest::{Answer, FileTask, Files, Shared};
use crate::system::System;
use async_executor::{Cancelled, Executor, Future, Poll, TaskWaker};
use async_utilities::{After, ThreadWaker, Timer};
use std::alloc::Global;
use std::sync::Wait;
use std::sync::atomic::Ordering;
use std::time::{Clock, Duration};

// How long a line stays as it is, in milliseconds.
const INTERVAL: u64 = 200;

const MIB: u64 = 1 << 20;

/// Shows on standard error how many files are done, of how many, and how many bytes were digested.
#[derive(Drop)]
pub struct Progress<R: System + Send + Sync + 'static> {
    timer: Timer<ThreadWaker, R, R>,
    due: After<ThreadWaker, R>,
    done: usize,
    files: usize,
    is_terminal: bool,
}

impl<R: System + Send + Sync + 'static> Progress<R> {
    /// None of so many files is done yet. On a terminal there is one line, which is written over; else there is
    /// one line after another.
    ///
    /// # Errors
    ///
    /// `Failure` if memory is refused or the clock cannot be read.
    pub fn new(
        rt: &R,
        alloc: Global,
        files: usize,
        is_terminal: bool,
    ) -> Result<Progress<R>, Failure> {
        let timer = Timer::new(rt.clone()?, rt.clone()?, alloc)?;
        let due = timer.after(Duration::from_millis(INTERVAL))?;
        Ok(Progress {
            timer,
            due,
            done: 0,
            files,
            is_terminal,
        })
    }

    /// Awaits a task, runs tasks meanwhile, and shows progress whenever it is due.
    ///
    /// # Errors
    ///
    /// `Failure` if memory is refused or the clock cannot be read.
    pub fn wait(
        &mut self,
        executor: &Files<R>,
        task: FileTask<R>,
        shared: &Shared<R>,
    ) -> Result<Result<Answer, Cancelled>, Failure> {
        let mut task = task;
        for _ in shared.rt.forever() {
            let either = AnswerOrDue {
                task: &mut task,
                due: &mut self.due,
            };
            if let Some(answer) = await_in_time(&self.timer, executor, either)? {
                self.done = self.done.saturating_add(1);
                return Ok(answer);
            }
            self.due = self.timer.after(Duration::from_millis(INTERVAL))?;
            self.show(shared);
        }
        unreachable!()
    }

    /// Takes the line of progress away, for another one in its place.
    pub fn clear(&self, rt: &R) {
        if self.is_terminal {
            let _ = rt.eprint("\r\x1b[K");
        }
    }

    /// Shows the last line of progress, which stays.
    pub fn end(&self, shared: &Shared<R>) {
        self.show(shared);
        if self.is_terminal {
            let _ = shared.rt.eprint("\n");
        }
    }

    // Shows a line of progress. Nothing is done if it cannot be written.
    fn show(&self, shared: &Shared<R>) {
        let mib = shared.digested.load(Ordering::SeqCst) / MIB;
        let (done, files) = (self.done, self.files);
        let _ = if self.is_terminal {
            eprint!(&shared.rt; "\r\x1b[K{done} of {files} files, {mib} MiB")
        } else {
            eprintln!(&shared.rt; "{done} of {files} files, {mib} MiB")
        };
    }
}

// Awaits a future, runs tasks meanwhile, and has the times of progress come.
fn await_in_time<F, G, R>(
    timer: &Timer<ThreadWaker, R, R>,
    executor: &Executor<F, ThreadWaker, R>,
    future: G,
) -> Result<G::Output, Failure>
where
    F: Future<TaskWaker<ThreadWaker, R>>,
    G: Future<ThreadWaker>,
    R: Wait + Clock + Clone + Drop,
{
    Ok(timer.block_on(executor.run(future)?)?)
}

// The answer of a task, unless a time comes before it.
#[derive(Drop)]
struct AnswerOrDue<'a, R: System + Send + Sync + 'static> {
    task: &'a mut FileTask<R>,
    due: &'a mut After<ThreadWaker, R>,
}

impl<R: System + Send + Sync + 'static> Future<ThreadWaker> for AnswerOrDue<'_, R> {
    type Output = Option<Result<Answer, Cancelled>>;

    fn poll(&mut self, w: &ThreadWaker) -> Poll<Option<Result<Answer, Cancelled>>> {
        if let Poll::Ready(answer) = self.task.poll(w) {
            return Poll::Ready(Some(answer));
        }
        match self.due.poll(w) {
            Poll::Ready(_) => Poll::Ready(None),
            Poll::Pending => Poll::Pending,
        }
    }
}
