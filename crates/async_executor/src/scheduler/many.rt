//! Spawns the futures that an iterator gives.
ghost use Rattle.std.specs.Prelude.{◌≡◌, ◌<◌, ◌+◌, Bool, false, Some, IfErr, IfNone, vec_len, vec_capacity};
ghost use Rattle.std.specs.Iterator.{IsFinite};
ghost use Rattle.executor_core.specs.SpawnError.{refused_future};
ghost use Rattle.async_executor.specs.SpawnMany.{spawn_cause, spawned, SpawnsInTurn, AddsHandle, AddsHandles, HasPlace};

use crate::futures::{Shareable, Storage, transactions};
use crate::scheduler::ExecutorIn;
use crate::task::TaskIn;
use executor_core::queue::RunnerError;
use executor_core::task::SpawnError;
use thiserror::Error;

/// Why not every future was spawned. Those that were stay, and their handles are in the Vec.
///
/// Example: `uses::spawn_two`, which `uses::winds_up` calls.
///
/// ```text
/// let sums = (1..3).map(|number| Sum::of(number, number));
/// match executor.spawn_many(sums, tasks) {
///     Ok(_) => Ok(()),
///     Err(refused) => Err(refused.into_inner()),
/// }
/// ```
#[derive(Debug, PartialEq, Eq, Drop, Error)]
#[error("no more than {spawned} tasks were spawned")]
pub struct SpawnMany<F> {
    /// How many were spawned.
    pub spawned: usize,
    /// The future that was refused. `None` if its handle got no place: the iterator is asked only
    /// once there is one.
    pub refused: Option<F>,
    /// What there was none of: memory, or a number for the task.
    pub cause: RunnerError,
}

impl<F> SpawnMany<F> {
    // The `SpawnMany` for a future that was refused after so many were spawned.
    fn of(error: SpawnError<F>, spawned: usize) -> SpawnMany<F>
        ensures spawned { result.spawned ≡ spawned }
        ensures refused { result.refused ≡ Some (refused_future error) }
        ensures cause { result.cause ≡ spawn_cause error }
    {
        let cause = match &error {
            SpawnError::OutOfMemory(_) => RunnerError::OutOfMemory,
            SpawnError::Exhausted(_) => RunnerError::Exhausted,
        };
        SpawnMany {
            spawned,
            refused: Some(error.into_inner()),
            cause,
        }
    }

    /// The future that `spawn_many` could not spawn. `None` if its handle got no place.
    ///
    /// Example: `uses::spawn_two`, at `SpawnMany`.
    pub fn into_inner(self) -> Option<F>
        ensures { result ≡ self.refused }
    {
        let SpawnMany { refused, .. } = self;
        refused
    }
}

/// A handle that callers see, which is made of what is written once for both kinds of storage.
pub trait Handle<S: Storage>: Drop {
    ghost answered: { Self → Bool };

    /// The handle of this task, as `spawn_many` gives it.
    fn of(task: TaskIn<S>) -> Self
        ensures { answered result ≡ task.answered };
}

// Makes room for as many handles as the iterator is sure to give, if there is memory for it, and says
// how many these are.
fn expect_handles<T, I: Iterator>(handles: &mut Vec<T>, futures: &I) -> usize
    ensures items { handles.new.items ≡ handles.old.items }
    ensures len { vec_len handles.new ≡ vec_len handles.old }
{
    let (tasks, _) = futures.size_hint();
    let _room = handles.try_reserve(tasks);
    tasks
}

// Puts the handle of a task at the end of the Vec, which has a place for it.
#[inline(always)]
fn add_handle<S: Storage, T: Handle<S>>(handles: &mut Vec<T>, task: TaskIn<S>)
    requires place { vec_len handles.old < vec_capacity handles.old }
    requires unanswered { task.answered ≡ false }
    ensures added { AddsHandle T.answered handles.old.items handles.new.items }
    ensures len { vec_len handles.new ≡ vec_len handles.old + 1 }
{
    handles.push_reserved(T::of(task));
}

impl<S: Shareable> ExecutorIn<S> {
    /// `Executor::spawn_many`, for both kinds of storage: schedules each future that the iterator gives as a
    /// new task, and puts its handle at the end of the Vec. No lock is held while the iterator is asked.
    pub(crate) fn spawn_many<T: Handle<S>, I: Iterator<Item = S::Future>>(
        &self,
        mut futures: I,
        handles: &mut Vec<T>,
    ) -> Result<usize, SpawnMany<S::Future>>
        requires can { I.can_next futures }
        requires ends { IsFinite (I.remaining futures) }
        ensures futures { SpawnsInTurn I.next_gives futures result }
        ensures handles { AddsHandles T.answered handles.old.items
            (spawned result) handles.new.items }
        ensures room { IfErr result
            (λ e. IfNone e.refused (vec_len handles.new ≡ vec_capacity handles.new)) }
        ensures place { HasPlace (vec_len handles.new) (vec_capacity handles.new) result }
    {
        // No table is then copied as it grows. If this is refused, each spawn makes its own room.
        let tasks = expect_handles(handles, &futures);
        transactions::reserve(&self.storage, tasks);
        let before = handles.len();
        // One `spawn` each: a hold of the locks over several would keep others out, and the iterator
        // could not use the executor.
        loop {
            let spawned = handles.len() - before;
            // Before the iterator is asked, so no future is taken out for which there is no place.
            if handles.try_reserve(1).is_err() {
                return Err(SpawnMany {
                    spawned,
                    refused: None,
                    cause: RunnerError::OutOfMemory,
                });
            }
            let Some(future) = futures.next() else {
                return Ok(spawned);
            };
            match self.spawn(future) {
                Ok(task) => add_handle(handles, task),
                Err(error) => return Err(SpawnMany::of(error, spawned)),
            }
        }
    }
}
