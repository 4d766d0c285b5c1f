//! The text of an executor: how many tasks it has, how many stand in each queue, and how many sleep.
//!
//! It waits for no lock and takes no memory: what is behind a lock that is taken is said to be locked.
//! The counts are copied first, so no lock is held while the text is written, which may run code of
//! the caller's. The lengths of the runners' queues are copied so many at a time, and those that
//! follow once the ones before are written.
ghost use Rattle.std.specs.Prelude.{◌≡◌, length, map, take};
ghost use Rattle.executor_core.specs.Cells.Calls.{undropped_count};

mod queue_lens;

use crate::executor::{Executor, TaskWaker};
use crate::futures::Storage;
use crate::local_executor::LocalExecutor;
use crate::scheduler::ExecutorIn;
use crate::state::ExecutorState;
use crate::static_executors::{StaticExecutor, StaticLocalExecutor};
use executor_core::task::{Cells, Future, Wake};
use queue_lens::{AT_A_TIME, QueueLens};
use std::fmt::{self, Debug, Formatter, Write};
use std::sync::Wait;

// A value, or that it is behind a lock that is taken.
#[derive(Drop)]
struct Shown<T> {
    value: Option<T>,
}

impl<T: Debug> Debug for Shown<T> {
    fn fmt<O: Write>(&self, f: &mut Formatter<O>) -> fmt::Result {
        match &self.value {
            Some(value) => value.fmt(f),
            None => f.write_str("<locked>"),
        }
    }
}

// What is counted behind the lock of the table.
#[derive(Drop)]
struct TaskCounts {
    // How many futures are not dropped.
    active: usize,
    global_tasks: usize,
    runners: usize,
    // The lengths of the first runners' queues.
    first_lens: QueueLens,
}

impl TaskCounts {
    fn of<W>(cells: &Cells<(), (), W>) -> TaskCounts
        ensures active { result.active ≡ undropped_count cells.now }
        ensures global { result.global_tasks ≡ length cells.now.global }
        ensures runners { result.runners ≡ length cells.now.locals }
        ensures local { result.first_lens ≡ map (λ q. length q.entries) (take 64 cells.now.locals) }
    {
        TaskCounts {
            active: cells.undropped(),
            global_tasks: cells.global_len(),
            runners: cells.runners(),
            first_lens: QueueLens::of(cells, 0),
        }
    }
}

// The lengths of the queues of all runners: the first ones, and where the others are looked up.
#[derive(Drop)]
struct LocalRunners<'a, W: Wake, R: Wait + Drop> {
    counts: &'a TaskCounts,
    state: &'a ExecutorState<W, R>,
}

impl<W: Wake, R: Wait + Drop> Debug for LocalRunners<'_, W, R> {
    fn fmt<O: Write>(&self, f: &mut Formatter<O>) -> fmt::Result {
        let mut list = f.debug_list();
        list.slice(self.counts.first_lens.as_slice());
        for first in (AT_A_TIME..self.counts.runners).step_by(AT_A_TIME) {
            let lens = match self.state.try_cells() {
                Some(cells) => Some(QueueLens::of(&cells, first)),
                None => None,
            };
            match lens {
                Some(lens) => list.slice(lens.as_slice()),
                None => list.entry(&Shown::<usize> { value: None }),
            };
        }
        list.finish()
    }
}

// Whether the text counts the futures that are not dropped, or always says 0.
#[derive(Clone, Copy)]
enum Active {
    Counted,
    Zero,
}

impl<S: Storage> ExecutorIn<S> {
    fn write_text<O: Write>(
        &self,
        name: &str,
        active: Active,
        f: &mut Formatter<O>,
    ) -> fmt::Result {
        let state = self.storage.state();
        let counts = match state.try_cells() {
            Some(cells) => Some(TaskCounts::of(&cells)),
            None => None,
        };
        let sleepers = state.sleepers_in_use();
        let active = match active {
            Active::Counted => counts.as_ref().map(|counts| counts.active),
            Active::Zero => Some(0),
        };
        f.debug_struct(name)
            .field("active", &Shown { value: active })
            .field(
                "global_tasks",
                &Shown {
                    value: counts.as_ref().map(|counts| counts.global_tasks),
                },
            )
            .field(
                "local_runners",
                &Shown {
                    value: counts.as_ref().map(|counts| LocalRunners { counts, state }),
                },
            )
            .field("sleepers", &Shown { value: sleepers })
            .finish()
    }
}

impl<F, W, R> Debug for Executor<F, W, R>
where
    F: Future<TaskWaker<W, R>>,
    W: Wake,
    R: Wait + Drop,
{
    fn fmt<O: Write>(&self, f: &mut Formatter<O>) -> fmt::Result {
        self.inner.write_text("Executor", Active::Counted, f)
    }
}

impl<F, W, R> Debug for LocalExecutor<F, W, R>
where
    F: Future<TaskWaker<W, R>>,
    W: Wake,
    R: Wait + Drop,
{
    fn fmt<O: Write>(&self, f: &mut Formatter<O>) -> fmt::Result {
        self.inner.write_text("LocalExecutor", Active::Counted, f)
    }
}

impl<F, W, R> Debug for StaticExecutor<F, W, R>
where
    F: Future<TaskWaker<W, R>>,
    W: Wake,
    R: Wait + Drop,
{
    fn fmt<O: Write>(&self, f: &mut Formatter<O>) -> fmt::Result {
        self.executor
            .inner
            .write_text("StaticExecutor", Active::Zero, f)
    }
}

impl<F, W, R> Debug for StaticLocalExecutor<F, W, R>
where
    F: Future<TaskWaker<W, R>>,
    W: Wake,
    R: Wait + Drop,
{
    fn fmt<O: Write>(&self, f: &mut Formatter<O>) -> fmt::Result {
        self.executor
            .inner
            .write_text("StaticLocalExecutor", Active::Zero, f)
    }
}
