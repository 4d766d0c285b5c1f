//! The tasks that are under way, in the order of the files.
ghost use Rattle.std.specs.Prelude.{◌≡◌, ◌==◌, if◌then◌else◌, nat_lt};
ghost use Rattle.std.specs.VecDeque.{deque_len};
ghost use Rattle.digests.specs.Words.{is_input};

use crate::failure::Failure;
use crate::file_digest::{Answer, FileDigest, FileTask, Files, Shared};
use crate::progress::Progress;
use crate::source::{Source, is_input};
use crate::system::System;
use async_utilities::{ThreadWaker, run_until};
use std::alloc::Global;
use std::collections::VecDeque;
use std::io;
use std::io::Stdin;
use std::sync::Arc;

/// How many tasks are under way at most.
pub const WINDOW: usize = 64;

/// The tasks that are under way, the first one first. There is room for 64.
#[derive(Drop)]
pub struct Window<'a, R: System + Send + Sync + 'static> {
    executor: &'a Files<R>,
    shared: Arc<Shared<R>>,
    tasks: VecDeque<FileTask<R>>,
    alloc: Global,
    input: io::Result<Stdin>,
}

impl<'a, R: System + Send + Sync + 'static> Window<'a, R> {
    /// A window without a task.
    ///
    /// # Errors
    ///
    /// `Failure` if memory is refused.
    pub fn new(
        alloc: Global,
        input: io::Result<Stdin>,
        executor: &'a Files<R>,
        shared: Arc<Shared<R>>,
    ) -> Result<Window<'a, R>, Failure> {
        Ok(Window {
            executor,
            shared,
            tasks: VecDeque::with_capacity(alloc, WINDOW)?,
            alloc,
            input,
        })
    }

    /// Whether there is room for the task of this file. That of standard input comes alone: a thread that
    /// reads it may wait for long, and all lines before it are to be written then.
    pub fn has_room(&self, name: &[u8]) -> bool
        ensures { let count = deque_len self.now.tasks in
            result ≡ (if is_input name.now then count == 0 else nat_lt count WINDOW) }
    {
        if is_input(name) {
            self.tasks.is_empty()
        } else {
            self.tasks.len() < WINDOW
        }
    }

    /// Opens this file, and spawns its task behind all others.
    ///
    /// # Errors
    ///
    /// `Failure` if memory is refused.
    pub fn spawn(&mut self, name: Vec<u8>) -> Result<(), Failure> {
        // By the thread of `main`, so at most 64 are open. A poll has nothing to ask for but its block.
        let source = Source::open(&self.shared.rt, self.input, &name);
        let digest = FileDigest::new(name, source, Arc::try_clone(&self.shared)?);
        let task = self.executor.spawn(digest)?;
        self.tasks.push_back(task)?;
        Ok(())
    }

    /// Awaits the first task, and runs tasks meanwhile.
    ///
    /// # Errors
    ///
    /// `Failure` if memory is refused.
    pub fn next(&mut self, progress: &mut Option<Progress<R>>) -> Result<Option<Answer>, Failure> {
        let Some(task) = self.tasks.pop_front() else {
            return Ok(None);
        };
        let answer = match progress {
            Some(progress) => progress.wait(self.executor, task, &self.shared)?,
            None => run_until(&self.shared.rt, self.alloc, self.executor, task)?,
        };
        Ok(Some(answer?))
    }
}
