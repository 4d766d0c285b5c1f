//! The shared state as plain values, for one thread.
//!
//! What the running executor shares stands behind two locks and in an atomic: the cells of the
//! tasks, the sleepers, and the flag between them. `Core` has the same three as plain values, and
//! one method for each step that a party may take on them. Such a step is one call on the cells,
//! one change of the list of sleepers, one exchange or one store of the flag, or one notification;
//! in between, any other party may take its own. Each contract is one equation: the state with the
//! part that the step is about changed.
ghost use Rattle.std.specs.Prelude.{◌≡◌, ◌↔◌, [], None, true, false, not, is_some, IsErr, IsOk, IfOk, IfErr, OnOk, OnErr, IfNone, IfSome};
ghost use Rattle.executor_core.specs.Cells.Calls.{empty_table, after_spawn, IsFree, wakes, after_wake, after_cancel, cancel_queues, after_detach, detach_answer, after_poll_handle, poll_answer, after_end_pending, EndsPending, after_end_ready, ready_answer, after_end_dropped, dropped_answer, after_take, TakesFront, after_take_any, TakesAny, cell_at, after_search, search_in, TakesFound, after_fair, after_reserve_runner, after_release_runner, may_register, after_register, after_unregister, unregister_queues, SlotsDiffer, after_wake_all, wake_all_queues, after_close, close_queues, after_drain_next, draining};
ghost use Rattle.executor_core.specs.Cells.Law.{queues_of, queued_of};
ghost use Rattle.executor_core.specs.Queues.{fair_count};
ghost use Rattle.executor_core.specs.SpawnError.{last_number, Refuses};
ghost use Rattle.executor_core.specs.Sleepers.Calls.{no_sleepers, closed, after_reserve, after_release, after_insert, insert_answer, after_update, update_answer, after_remove, remove_answer, after_notify, notify_answer};

mod flag_value;

use crate::queue::{Ring, RunnerError, RunnerKey};
use crate::sleepers::{Removed, Sleepers, Update};
use crate::task::{
    Again, Cells, Change, EndPending, EndReady, Held, Notice, OutOfMemory, Pick, PollHandle,
    SpawnError, Taken, TaskId, Wakeup,
};
pub use flag_value::FlagValue;
use std::alloc::Global;

/// The plain twin of what a running executor shares: the cells of its tasks, its sleepers, and the
/// flag between them.
///
/// Futures are of type P, outputs of type T and wakers of type W. Each method is one shared step:
/// it has the name and the answer of the one call that it makes, and leaves the other parts as they
/// were. A contract names the parts.
#[derive(Drop)]
pub struct Core<P, T, W> {
    pub(crate) cells: Cells<P, T, W>,
    pub(crate) flag: FlagValue,
    pub(crate) sleepers: Sleepers<W>,
}

impl<P, T, W> Core<P, T, W> {
    /// A core with no task and no sleeper; its flag is true.
    ///
    /// # Errors
    ///
    /// `OutOfMemory` if the cells could not be made.
    pub fn new(alloc: Global) -> Result<Self, OutOfMemory>
        ensures { IfOk result
            (λ core. core ≡ record { cells = empty_table 0; flag = true; sleepers = no_sleepers }) }
    {
        let cells = Cells::new(alloc)?;
        Ok(Core {
            cells,
            flag: FlagValue::new(),
            sleepers: Sleepers::new(alloc),
        })
    }

    /// The core's cells, for reading.
    pub fn cells(&self) -> &Cells<P, T, W>
        ensures { result.now ≡ self.now.cells }
    {
        &self.cells
    }

    /// The core's flag, for reading.
    pub fn flag(&self) -> &FlagValue
        ensures { result.now ≡ self.now.flag }
    {
        &self.flag
    }

    /// The core's sleepers, for reading.
    pub fn sleepers(&self) -> &Sleepers<W>
        ensures { result.now ≡ self.now.sleepers }
    {
        &self.sleepers
    }

    /// `Cells::spawn`, with its answer and its refusals.
    pub fn spawn(&mut self, future: P) -> Result<(TaskId, Notice), SpawnError<P>>
        ensures ok { IfOk result
            (λ r. self.new
            ≡ record self.old { cells = after_spawn self.old.cells r.0.slot future }) }
        ensures id { IfOk result (λ r. r.0.number ≡ self.old.cells.next) }
        ensures free { IfOk result (λ r. IsFree self.old.cells r.0.slot) }
        ensures refused { OnErr result (self.new ≡ self.old) }
        ensures cause { IfErr result (Refuses self.old.cells.next future) }
        ensures exhausted { self.old.cells.next ≡ last_number → IsErr result }
    {
        self.cells.spawn(future)
    }

    /// `Cells::wake`, with its answer.
    pub fn wake(&mut self, id: TaskId) -> Option<Notice>
        ensures state { self.new ≡ record self.old { cells = after_wake self.old.cells id } }
        ensures notice { is_some result ≡ wakes self.old.cells id }
    {
        self.cells.wake(id)
    }

    /// `Cells::wake_all`, with its answer.
    pub fn wake_all(&mut self) -> Option<Notice>
        ensures state { self.new ≡ record self.old { cells = after_wake_all self.old.cells } }
        ensures notice { is_some result ≡ wake_all_queues self.old.cells }
        ensures slots { SlotsDiffer self.old.cells }
    {
        self.cells.wake_all()
    }

    /// `Cells::close`, with its answer.
    pub fn close(&mut self) -> Option<Notice>
        ensures state { self.new ≡ record self.old { cells = after_close self.old.cells } }
        ensures notice { is_some result ≡ close_queues self.old.cells }
        ensures slots { SlotsDiffer self.old.cells }
    {
        self.cells.close()
    }

    /// `Cells::cancel`, with its answer.
    pub fn cancel(&mut self, id: TaskId) -> Option<Notice>
        ensures state { self.new ≡ record self.old { cells = after_cancel self.old.cells id } }
        ensures notice { is_some result ≡ cancel_queues self.old.cells id }
    {
        self.cells.cancel(id)
    }

    /// `Cells::detach`, with its answer.
    pub fn detach(&mut self, id: TaskId) -> (Option<T>, Option<W>)
        ensures state { self.new ≡ record self.old { cells = after_detach self.old.cells id } }
        ensures answer { result ≡ detach_answer (cell_at self.old.cells id) }
    {
        self.cells.detach(id)
    }

    /// `Cells::drop_handle`, with its answers.
    pub fn drop_handle(&mut self, id: TaskId) -> (Option<Notice>, Option<T>, Option<W>)
        ensures state { self.new
            ≡ record self.old { cells = after_detach (after_cancel self.old.cells id) id } }
        ensures notice { is_some result.0 ≡ cancel_queues self.old.cells id }
        ensures answer { (result.1, result.2) ≡ detach_answer (cell_at self.old.cells id) }
    {
        self.cells.drop_handle(id)
    }

    /// `Cells::poll_handle`, with its answer.
    pub fn poll_handle(&mut self, id: TaskId, waker: W) -> PollHandle<T, W>
        ensures state { self.new
            ≡ record self.old { cells = after_poll_handle self.old.cells id waker } }
        ensures answer { result ≡ poll_answer waker (cell_at self.old.cells id) }
    {
        self.cells.poll_handle(id, waker)
    }

    /// `Cells::end_pending`, with its answer.
    pub fn end_pending(&mut self, held: Held, future: P) -> EndPending<P>
        requires { held.to_drop ≡ false }
        ensures state { self.new
            ≡ record self.old { cells = after_end_pending self.old.cells held.id future } }
        ensures answer { EndsPending self.old.cells held future result }
    {
        self.cells.end_pending(held, future)
    }

    /// `Cells::end_ready`, with its answer.
    pub fn end_ready(&mut self, held: Held, output: T) -> EndReady<T, W>
        requires { held.to_drop ≡ false }
        ensures state { self.new
            ≡ record self.old { cells = after_end_ready self.old.cells held.id output } }
        ensures answer { result ≡ ready_answer output (cell_at self.old.cells held.id) }
    {
        self.cells.end_ready(held, output)
    }

    /// `Cells::end_dropped`, with its answer.
    pub fn end_dropped(&mut self, held: Held) -> Option<Wakeup<W>>
        requires { held.to_drop ≡ true }
        ensures state { self.new
            ≡ record self.old { cells = after_end_dropped self.old.cells held.id } }
        ensures answer { result ≡ dropped_answer (cell_at self.old.cells held.id) }
    {
        self.cells.end_dropped(held)
    }

    /// `Cells::take_global`, with its answer.
    pub fn take_global(&mut self, again: Option<Again>) -> Option<(Taken<P>, Notice)>
        ensures state { self.new ≡ record self.old { cells = after_take self.old.cells } }
        ensures none { IfNone result (self.old.cells.global ≡ []) }
        ensures some { IfSome result (λ r. TakesFront self.old.cells self.new.cells.global r.0) }
    {
        self.cells.take_global(again)
    }

    /// `Cells::take_any`, with its answer.
    pub fn take_any(&mut self, again: Option<Again>) -> Option<(Taken<P>, Notice)>
        ensures state { self.new ≡ record self.old { cells = after_take_any self.old.cells } }
        ensures none { IfNone result (queued_of self.old.cells ≡ []) }
        ensures some { IfSome result (λ r. TakesAny self.old.cells r.0) }
    {
        self.cells.take_any(again)
    }

    /// `Cells::drain_next`, with its answer.
    pub fn drain_next(&mut self) -> Option<Taken<P>>
        ensures state { self.new ≡ record self.old { cells = after_drain_next self.old.cells } }
        ensures none { IfNone result (draining self.old.cells ≡ []) }
        ensures some { IfSome result
            (λ task. (self.old.cells.closed ≡ true)
            × TakesFront self.old.cells self.new.cells.global task) }
    {
        self.cells.drain_next()
    }

    /// `Cells::search`, with its answer.
    pub fn search(
        &mut self,
        key: RunnerKey,
        word: u64,
        again: Option<Again>,
    ) -> Option<(Taken<P>, Notice)>
        ensures state { self.new
            ≡ record self.old { cells = after_search self.old.cells key.number word } }
        ensures none { IfNone result ((search_in self.old.cells key.number word).0 ≡ None) }
        ensures some { IfSome result (λ r. TakesFound self.old.cells key.number word r.0) }
    {
        self.cells.search(key, word, again)
    }

    /// `Cells::fair`, with its answer.
    pub fn fair(&mut self, key: RunnerKey) -> usize
        ensures state { self.new
            ≡ record self.old { cells = after_fair self.old.cells key.number } }
        ensures count { result ≡ fair_count key.number (queues_of self.old.cells) }
    {
        self.cells.fair(key)
    }

    /// `Cells::reserve_runner`, with its answer and its refusals.
    pub fn reserve_runner(&mut self) -> Result<RunnerKey, RunnerError>
        ensures ok { OnOk result
            (self.new ≡ record self.old { cells = after_reserve_runner self.old.cells }) }
        ensures key { IfOk result (λ key. key.number ≡ self.old.cells.next_runner) }
        ensures refused { OnErr result (self.new ≡ self.old) }
        ensures cause { IfErr result
            (λ error. (error ≡ RunnerError.Exhausted)
            ↔ (self.old.cells.next_runner ≡ last_number)) }
        ensures exhausted { self.old.cells.next_runner ≡ last_number → IsErr result }
    {
        self.cells.reserve_runner()
    }

    /// `Cells::release_runner`.
    pub fn release_runner(&mut self, key: RunnerKey)
        ensures { self.new
            ≡ record self.old { cells = after_release_runner self.old.cells key.number } }
    {
        self.cells.release_runner(key)
    }

    /// `Cells::register`, with its refusal.
    pub fn register(&mut self, key: RunnerKey, ring: Ring) -> Result<(), Ring>
        requires { ring.ids ≡ [] }
        ensures variant { IsOk result ↔ (may_register self.old.cells key.number ≡ true) }
        ensures ok { OnOk result
            (self.new
            ≡ record self.old { cells = after_register self.old.cells key.number ring.capacity }) }
        ensures refused { IfErr result (λ back. (back ≡ ring) × (self.new ≡ self.old)) }
    {
        self.cells.register(key, ring)
    }

    /// `Cells::unregister`, with its answer.
    pub fn unregister(&mut self, key: RunnerKey) -> Option<Notice>
        ensures state { self.new
            ≡ record self.old { cells = after_unregister self.old.cells key.number } }
        ensures notice { is_some result ≡ unregister_queues self.old.cells key.number }
    {
        self.cells.unregister(key)
    }

    /// `FlagValue::exchange` of the core's flag, with its answer.
    pub fn exchange(&mut self, notice: Notice) -> Option<Pick>
        ensures state { self.new ≡ record self.old { flag = true } }
        ensures pick { is_some result ≡ not self.old.flag }
    {
        self.flag.exchange(notice)
    }

    /// `FlagValue::store` of the core's flag, with its answer: it closes the list of sleepers too.
    pub fn store<X>(&mut self, change: Change<X>) -> X
        ensures state { self.new
            ≡ record self.old { flag = change.notified; sleepers = closed self.old.sleepers } }
        ensures carried { result ≡ change.carried }
    {
        self.flag.store(change, &mut self.sleepers)
    }

    /// `Sleepers::reserve`, with its refusal.
    pub fn reserve(&mut self) -> Result<(), OutOfMemory>
        ensures ok { OnOk result
            (self.new ≡ record self.old { sleepers = after_reserve self.old.sleepers }) }
        ensures refused { OnErr result (self.new ≡ self.old) }
    {
        self.sleepers.reserve()
    }

    /// `Sleepers::release`.
    pub fn release(&mut self)
        ensures { self.new ≡ record self.old { sleepers = after_release self.old.sleepers } }
    {
        self.sleepers.release()
    }

    /// `Sleepers::insert`, with its answer and its refusal.
    pub fn insert(&mut self, waker: W) -> Result<(usize, Change<Again>), W>
        requires { self.old.sleepers.is_open ≡ false }
        ensures state { self.new
            ≡ record self.old { sleepers = after_insert self.old.sleepers waker } }
        ensures answer { result ≡ insert_answer self.old.sleepers waker }
    {
        self.sleepers.insert(waker)
    }

    /// `Sleepers::update`, with its answer.
    pub fn update(&mut self, id: usize, waker: W) -> Update<W>
        requires { self.old.sleepers.is_open ≡ false }
        ensures state { self.new
            ≡ record self.old { sleepers = after_update self.old.sleepers id waker } }
        ensures answer { result ≡ update_answer self.old.sleepers id waker }
    {
        self.sleepers.update(id, waker)
    }

    /// `Sleepers::remove`, with its answer.
    pub fn remove(&mut self, id: usize) -> Change<Removed<W>>
        requires { self.old.sleepers.is_open ≡ false }
        ensures state { self.new
            ≡ record self.old { sleepers = after_remove self.old.sleepers id } }
        ensures answer { result ≡ remove_answer self.old.sleepers id }
    {
        self.sleepers.remove(id)
    }

    /// `Sleepers::notify`, with its answer.
    pub fn notify(&mut self, pick: Pick) -> Option<Wakeup<W>>
        requires { self.old.sleepers.is_open ≡ false }
        ensures state { self.new ≡ record self.old { sleepers = after_notify self.old.sleepers } }
        ensures answer { result ≡ notify_answer self.old.sleepers }
    {
        self.sleepers.notify(pick)
    }
}
