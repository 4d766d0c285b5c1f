//! The queues of the cells: the tasks that are scheduled, in the order in which they were.
//!
//! A task is queued at the end of the global queue. A runner has a queue of its own besides, a
//! `Ring`. It searches there first; if that is empty, it takes the front of the global queue and
//! steals half of what is left; if that is empty too, it steals half of another runner's queue. So
//! most searches touch one queue, and no runner is idle beside a task that another has queued. A
//! steal moves the front half, so that the order is kept.
ghost use Rattle.std.specs.Prelude.{◌≡◌, ◌↔◌, is_some, option_map, [], true, IfOk, IfErr, IsErr, IsOk, OnOk, OnErr, length, slice_get};
ghost use Rattle.executor_core.specs.SpawnError.{last_number};
ghost use Rattle.executor_core.specs.Queues.{entries_at, fair_count, is_registered};
ghost use Rattle.executor_core.specs.Cells.Law.{queues_of};
ghost use Rattle.executor_core.specs.Cells.Calls.{after_fair, after_reserve_runner, after_release_runner, may_register, after_register, after_unregister, unregister_queues};

pub(crate) mod looking;
pub(crate) mod places;
pub(crate) mod queues;
pub(crate) mod runner;

use crate::task::slots::QueuedNumbers;
use crate::task::table::Cells;
use crate::task::values::Notice;
pub use queues::{Ring, steal};
pub use runner::{RunnerError, RunnerKey};

impl<P, T, W> Cells<P, T, W> {
    /// A runner's call on the cells: moves half of the global queue to its own, as far as there is room,
    /// and says how many tasks that are: 0 for a runner that is not registered. It takes no memory.
    pub fn fair(&mut self, key: RunnerKey) -> usize
        ensures table { self.new ≡ after_fair self.old key.number }
        ensures count { result ≡ fair_count key.number (queues_of self.old) }
    {
        self.queues.fair(key)
    }

    /// Reserves a place in the cells for a runner, and gives the key of a new one. No number is given
    /// twice.
    ///
    /// # Errors
    ///
    /// `Exhausted` exactly if every runner number was given, and `OutOfMemory` if a growth was
    /// refused. Nothing else changed then.
    pub fn reserve_runner(&mut self) -> Result<RunnerKey, RunnerError>
        ensures ok { OnOk result (self.new ≡ after_reserve_runner self.old) }
        ensures key { IfOk result (λ key. key.number ≡ self.old.next_runner) }
        ensures refused { OnErr result (self.new ≡ self.old) }
        ensures cause { IfErr result
            (λ error. (error ≡ RunnerError.Exhausted) ↔ (self.old.next_runner ≡ last_number)) }
        ensures exhausted { self.old.next_runner ≡ last_number → IsErr result }
    {
        self.queues.reserve_runner()
    }

    /// Gives a free place in the cells back, unless there is none or the runner is registered.
    pub fn release_runner(&mut self, key: RunnerKey)
        ensures { self.new ≡ after_release_runner self.old key.number }
    {
        self.queues.release_runner(key)
    }

    /// Registers a runner in the cells: the empty ring becomes its queue, the last in order of
    /// registration. It takes no memory.
    ///
    /// # Errors
    ///
    /// The ring comes back, and nothing changes, exactly if the runner is registered or none of the
    /// reserved places is free.
    pub fn register(&mut self, key: RunnerKey, ring: Ring) -> Result<(), Ring>
        requires { ring.ids ≡ [] }
        ensures variant { IsOk result ↔ (may_register self.old key.number ≡ true) }
        ensures ok { OnOk result (self.new ≡ after_register self.old key.number ring.capacity) }
        ensures refused { IfErr result (λ back. (back ≡ ring) × (self.new ≡ self.old)) }
    {
        self.queues.register(key, ring)
    }

    /// Unregisters a runner from the cells: its queue and its place end. What stood there goes to the
    /// global end in order, with a notice exactly if there was something. A runner that is not
    /// registered changes nothing. It takes no memory.
    pub fn unregister(&mut self, key: RunnerKey) -> Option<Notice>
        ensures table { self.new ≡ after_unregister self.old key.number }
        ensures notice { is_some result ≡ unregister_queues self.old key.number }
    {
        self.queues.unregister(key)
    }

    // Whether the runner is registered in the cells.
    pub(crate) fn is_registered(&self, key: RunnerKey) -> bool
        ensures { result ≡ is_registered key.number self.now.locals }
    {
        self.queues.is_registered(key)
    }

    /// How many tasks stand in the cells' global queue.
    pub fn global_len(&self) -> usize
        ensures { result ≡ length self.now.global }
    {
        self.queues.global_len()
    }

    /// The number of the task at this place of the cells' global queue, the front being 0. It makes a
    /// step for each task before it: `global_numbers` is for the whole queue.
    pub fn global_at(&self, i: usize) -> Option<u64>
        ensures { result ≡ slice_get self.now.global i }
    {
        self.queues.global_at(i)
    }

    /// The numbers of the tasks in the cells' global queue, from the front on. It takes no memory, and
    /// makes one step for each number.
    pub fn global_numbers(&self) -> QueuedNumbers<'_, P, T, W>
        ensures { result ≡ self.now.global }
    {
        self.queues.global_numbers()
    }

    /// How many runners are registered in the cells.
    pub fn runners(&self) -> usize
        ensures { result ≡ length self.now.locals }
    {
        self.queues.runners()
    }

    /// How many tasks of the cells stand in the queue of the runner at this position in order of
    /// registration.
    pub fn local_len(&self, r: usize) -> Option<usize>
        ensures { result ≡ option_map (λ q. length q.entries) (slice_get self.now.locals r) }
    {
        self.queues.local_len(r)
    }

    /// The number of the cells' task at this place of that runner's queue, the front being 0.
    pub fn local_at(&self, r: usize, i: usize) -> Option<u64>
        ensures { result ≡ slice_get (entries_at r self.now.locals) i }
    {
        self.queues.local_at(r, i)
    }
}
