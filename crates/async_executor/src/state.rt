//! What an executor, its handles and the wakers of its tasks share.
ghost use Rattle.std.specs.Prelude.{◌≡◌, false};
ghost use Rattle.std.specs.Sync.Mutex.{mutex_guard_value};
ghost use Rattle.executor_core.specs.Cells.Law.{LockLaw};
ghost use Rattle.executor_core.specs.Sleepers.{SleeperLaw};
ghost use Rattle.executor_core.specs.Sleepers.Calls.{closed};

use crate::lock::{APART, BORDER, Border, CacheLine, Lock};
use executor_core::sleepers::{ClosedSleepers, Flag, Sleepers};
use executor_core::task::{Cells, Change, Notice, OutOfMemory, Pick, Wake, Wakeup};
use std::alloc::Global;
use std::sync::{MutexGuard, Wait};

/// Spends the notice of a task that was queued or taken: if somebody sleeps and nobody was
/// notified since, a sleeper is woken. No lock may be held. It stands for `State::notify` of the
/// Rust crate. A macro, for the same reason as `cells!`.
macro_rules! announce {
    ($state:expr, $notice:expr) => {
        if let Some(pick) = $state.exchange($notice) {
            $state.notify(pick);
        }
    };
}

pub(crate) use announce;

/// Waits for the table of tasks of a state, which is locked until the guard is dropped. It is no function,
/// since each call that may wait costs its caller a test.
macro_rules! cells {
    ($state:expr) => {{
        let state = $state;
        match state.try_cells() {
            Some(cells) => cells,
            None => state.wait_for_cells(),
        }
    }};
}

pub(crate) use cells;

/// Waits for the sleepers of a state, which are locked until the guard is dropped. They come with
/// their law. A macro, for the same reason as `cells!`.
macro_rules! sleepers {
    ($state:expr) => {{
        let state = $state;
        let guard = match state.try_sleepers() {
            Some(guard) => guard,
            None => state.wait_for_sleepers(),
        };
        // Its contract has the law.
        guard.sleepers.is_notified();
        guard
    }};
}

pub(crate) use sleepers;

/// The table of tasks and the sleepers, each behind a lock, the flag beside them, and the right to
/// wait for the locks.
///
/// No two of its locks are ever held together, and none while a waker is woken. What different
/// threads write stands on cache lines of its own: the counts of the shares before the state, the
/// flag, the cells with their lock, and the sleepers with theirs. The locks lie apart from what other
/// executors have, too.
///
/// What is large stands in a box: the drop of an `Arc` clears room for all that it may be the last to
/// hold, and each task drops a share of this as it ends.
pub struct ExecutorState<W, R> {
    before_flag: CacheLine,
    flag: Flag,
    parts: Box<Parts<W, R>>,
}

impl<W: Drop, R: Drop> Drop for ExecutorState<W, R> {
    // Not derived: the proof of each crate that drops a waker would go through all that stands here.
    fn drop(self) {
        let ExecutorState {
            before_flag: _,
            flag,
            parts,
        } = self;
        drop(flag);
        drop(parts);
    }
}

#[derive(Drop)]
struct Parts<W, R> {
    before_all: Border,
    cells: Lock<Cells<(), (), W>>,
    before_sleepers: CacheLine,
    sleepers: Lock<ClosedSleepers<W>>,
    rt: R,
    alloc: Global,
    after_all: Border,
}

// Never blocks, so it needs no `Wait` bound, and its callers pay no check.
impl<W, R> ExecutorState<W, R> {
    /// The right to wait that this `ExecutorState` keeps.
    pub(crate) fn rt(&self) -> &R {
        &self.parts.rt
    }

    /// The allocator that this `ExecutorState` keeps.
    pub(crate) fn alloc(&self) -> Global {
        self.parts.alloc
    }

    /// Exchanges the flag of this `ExecutorState`: spends the notice of a task that was queued or taken. If
    /// somebody sleeps and nobody was notified since, a sleeper is to be notified. It takes no lock.
    pub(crate) fn exchange(&self, notice: Notice) -> Option<Pick> {
        self.flag.exchange(notice)
    }

    /// Stores the flag of this `ExecutorState` for a change of the list of sleepers, under the lock under
    /// which it was changed, and gives what else the change carries.
    pub(crate) fn store<X>(&self, change: Change<X>, sleepers: &mut Sleepers<W>) -> X
        ensures list { sleepers.new ≡ closed sleepers.old }
        ensures carried { result ≡ change.carried }
    {
        self.flag.store(change, sleepers)
    }

    /// The table of tasks of this `ExecutorState`, if nobody has it.
    #[inline(always)]
    pub(crate) fn try_cells(&self) -> Option<MutexGuard<'_, Cells<(), (), W>>> {
        self.parts.cells.mutex.try_lock()
    }

    /// The sleepers of this `ExecutorState`, if nobody has them.
    #[inline(always)]
    pub(crate) fn try_sleepers(&self) -> Option<MutexGuard<'_, ClosedSleepers<W>>> {
        self.parts.sleepers.mutex.try_lock()
    }

    /// How many sleepers of this `ExecutorState` sleep. `None` if the lock is taken, for which it does not
    /// wait.
    pub(crate) fn sleepers_in_use(&self) -> Option<usize> {
        let guard = self.try_sleepers()?;
        Some(guard.sleepers.numbers())
    }
}

impl<W: Wake, R: Wait + Drop> ExecutorState<W, R> {
    /// The `ExecutorState` of an executor that has no tasks.
    pub(crate) fn new(rt: R, alloc: Global) -> Result<ExecutorState<W, R>, OutOfMemory> {
        let parts = Parts {
            before_all: BORDER,
            cells: Lock::new(Cells::new(alloc)?),
            before_sleepers: APART,
            sleepers: Lock::new(ClosedSleepers::new(alloc)),
            rt,
            alloc,
            after_all: BORDER,
        };
        match Box::new(alloc, parts) {
            Ok(parts) => Ok(ExecutorState {
                before_flag: APART,
                flag: Flag::new(),
                parts,
            }),
            Err(_) => Err(OutOfMemory),
        }
    }

    /// Waits for the table of tasks of this `ExecutorState`, which somebody has.
    #[cold]
    #[inline(never)]
    pub(crate) fn wait_for_cells(&self) -> MutexGuard<'_, Cells<(), (), W>> {
        self.parts.cells.wait_for(self.rt(), None)
    }

    /// Waits for the sleepers of this `ExecutorState`, which somebody has.
    #[cold]
    #[inline(never)]
    pub(crate) fn wait_for_sleepers(&self) -> MutexGuard<'_, ClosedSleepers<W>> {
        self.parts.sleepers.wait_for(self.rt(), None)
    }

    /// Waits for the table of tasks of this `ExecutorState`, which is locked until the guard is dropped. It
    /// comes with its law: a task stands once in the queues if it is scheduled, and otherwise in none.
    #[inline(always)]
    pub(crate) fn cells(&self) -> MutexGuard<'_, Cells<(), (), W>>
        ensures { LockLaw (mutex_guard_value result) }
    {
        let cells = cells!(self);
        // A reader that does nothing, whose contract is the law.
        cells.law_holds();
        cells
    }

    /// Waits for the sleepers of this `ExecutorState`, which are locked until the guard is dropped. They come
    /// with their law, and the flag was stored for each change of their list.
    pub(crate) fn sleepers(&self) -> MutexGuard<'_, ClosedSleepers<W>>
        ensures closed { (mutex_guard_value result).sleepers.is_open ≡ false }
        ensures law { SleeperLaw (mutex_guard_value result).sleepers }
    {
        sleepers!(self)
    }

    /// Takes the waker of the sleeper of this `ExecutorState` that is to be notified.
    pub(crate) fn notify_sleeper(&self, pick: Pick) -> Option<Wakeup<W>> {
        self.sleepers().sleepers.notify(pick)
    }

    /// Wakes the sleeper of this `ExecutorState` that is to be notified, once the lock is given up. No lock
    /// may be held.
    #[cold]
    #[inline(never)]
    pub(crate) fn notify(&self, pick: Pick) {
        if let Some(wakeup) = self.notify_sleeper(pick) {
            wakeup.wake();
        }
    }

    /// Reserves the place of one sleeper of this `ExecutorState`.
    pub(crate) fn reserve_sleeper(&self) -> Result<(), OutOfMemory> {
        self.sleepers().sleepers.reserve()
    }

    /// Gives back the place of one sleeper of this `ExecutorState`.
    pub(crate) fn release_sleeper(&self) {
        self.sleepers().sleepers.release();
    }
}
