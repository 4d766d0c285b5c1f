//! Transactions on a storage: each changes the futures under their lock and, where needed, the table under
//! its own lock inside. A call on the table alone takes that lock alone.
//!
//! A transaction polls nothing, drops nothing of a task's and wakes nobody: what is to be dropped or
//! woken is part of its answer. No guard outlives it.
ghost use Rattle.std.specs.Prelude.{◌≡◌, false, IfErr, IfOk};
ghost use Rattle.executor_core.specs.SpawnError.{refused_future};
ghost use Rattle.async_executor.specs.Deferred.{IsHeldRight, IsDeferredRight, IsEndRight};

use crate::futures::{FutureTable, OutIn, OutputIn, Shareable, Storage, futures};
use crate::machine::{NextTask, RandomGenerator, Search};
use crate::poller::{LentWake, Out};
use crate::state::{ExecutorState, cells};
use crate::waker::TaskWaker;
use executor_core::task::{
    Cells, EndPending, EndReady, Held, Notice, PollHandle, Ran, SpawnError, Taken, TaskId, Wakeup,
};
use std::sync::{Arc, MutexGuard};

/// What the end of a task leaves to do.
pub enum Deferred<W, T> {
    /// The task is still held. This is to be done, and then it is to be ended.
    Unended(Held, BeforeEnd),
    /// The output is to be dropped, and the awaiter to be woken.
    Finished(Option<T>, Option<Wakeup<W>>),
}

/// What is to be done before the end of a task that is held.
pub enum BeforeEnd {
    /// The future has no place. It is to be dropped.
    Refused,
    /// The task was woken during its poll, and the notice of that is to be spent.
    Woken(Notice),
    /// The task was cancelled meanwhile. The future is to be dropped.
    ToDrop,
}

/// What came of the end of a task and of a search after it for a next task N, made as one change.
pub enum EndThenSearch<W, T, N> {
    /// The task was ended, with a notice if it was queued. This is what the search found.
    Searched(Option<Notice>, Option<N>),
    /// The task was ended, and the search was in vain. The awaiter is to be woken.
    InVain(Wakeup<W>),
    /// The end leaves something to do first, so nothing was searched.
    Unfinished(Deferred<W, T>),
}

/// A task that was taken of any queue, with the notice of its take.
pub type AnyTask = (Taken<()>, Notice);

/// Makes a task of this future, which holds this share of the state, and keeps the future under this guard of
/// the futures. A macro, since by a function, even an inline one, each spawn takes some instructions more.
macro_rules! insert {
    ($guard:expr, $state:expr, $future:expr) => {{
        if !$guard.get().has_room() {
            $guard.make_room($state.alloc());
        }
        let futures = $guard.get();
        if !futures.has_room() {
            Err(SpawnError::OutOfMemory($future))
        } else {
            let spawned = cells!(&$state).spawn(());
            match spawned {
                Ok((id, notice)) => {
                    futures.insert(id, $future, $state);
                    Ok((id, notice))
                }
                Err(SpawnError::OutOfMemory(())) => Err(SpawnError::OutOfMemory($future)),
                Err(SpawnError::Exhausted(())) => Err(SpawnError::Exhausted($future)),
            }
        }
    }};
}

/// Makes a task of this future and keeps the future. Its place is made before the task is queued.
/// If that is refused, all is as before.
#[inline(always)]
pub(crate) fn spawn<S: Shareable>(
    storage: &S,
    future: S::Future,
) -> Result<(TaskId, Notice), SpawnError<S::Future>>
    ensures { IfErr result (λ e. refused_future e ≡ future) }
{
    let Ok(state) = storage.share_state() else {
        return Err(SpawnError::OutOfMemory(future));
    };
    let mut guard = futures!(storage);
    insert!(guard, state, future)
}

/// As `spawn`, with another share of the storage, unless somebody has the futures: then this one is given
/// back.
#[inline(always)]
pub(crate) fn try_spawn<S: Shareable>(
    storage: &S,
    future: S::Future,
) -> Result<Result<(S, TaskId, Notice), SpawnError<S::Future>>, S::Future>
    ensures refused { IfOk result (λ spawned. IfErr spawned (λ e. refused_future e ≡ future)) }
    ensures taken { IfErr result (λ back. back ≡ future) }
{
    let Some(guard) = storage.try_futures() else {
        return Err(future);
    };
    let mut guard = guard;
    let (Ok(share), Ok(state)) = (storage.share(), storage.share_state()) else {
        return Ok(Err(SpawnError::OutOfMemory(future)));
    };
    let inserted = insert!(guard, state, future);
    drop(guard);
    match inserted {
        Ok((id, notice)) => Ok(Ok((share, id, notice))),
        Err(error) => Ok(Err(error)),
    }
}

/// Makes room in both tables for so many tasks more, if there is memory for it: else each spawn makes its
/// own.
pub(crate) fn reserve<S: Storage>(storage: &S, tasks: usize) {
    let mut futures = futures!(storage);
    let _places = futures.get().reserve_places(tasks);
    let _cells = cells!(storage.state()).reserve(tasks);
}

/// Takes the future of the task out of the storage, with the waker to poll it with.
#[inline(always)]
pub(crate) fn take<S: Storage>(storage: &S, id: TaskId) -> OutIn<S> {
    let mut futures = futures!(storage);
    futures.get().take(id)
}

/// Ends a task whose poll was pending, and keeps its future. There is a notice if the task was queued.
#[inline(always)]
pub(crate) fn end_pending<S: Storage>(
    storage: &S,
    id: TaskId,
    held: Held,
    out: &mut OutIn<S>,
) -> Result<Option<Notice>, Deferred<S::Waker, OutputIn<S>>>
    requires { held.to_drop ≡ false }
    ensures { IfErr result (λ deferred. IsDeferredRight deferred) }
{
    let mut futures = futures!(storage);
    let mut cells = cells!(storage.state());
    // The locks are given up on each path, so that the room of what the other gives is not cleared on this
    // one.
    match futures.get().end_pending(&mut cells, id, held, out) {
        Ok(notice) => {
            drop(cells);
            drop(futures);
            Ok(notice)
        }
        Err(deferred) => {
            drop(cells);
            drop(futures);
            Err(deferred)
        }
    }
}

/// Ends a task that gave this output, and keeps it if the handle wants it. What is to be dropped comes out,
/// and whom to wake.
#[inline(always)]
pub(crate) fn end_ready<S: Storage>(
    storage: &S,
    id: TaskId,
    held: Held,
    output: OutputIn<S>,
) -> (Option<OutputIn<S>>, Option<Wakeup<S::Waker>>)
    requires { held.to_drop ≡ false }
{
    let mut futures = futures!(storage);
    let mut cells = cells!(storage.state());
    futures.get().end_ready(&mut cells, id, held, output)
}

/// Ends a task that was run, and takes the next one for a runner, and its future out. The search takes
/// one word. The state is that of the storage.
#[inline(always)]
pub(crate) fn end_then_search<'a, S: Storage>(
    storage: &'a S,
    state: &'a ExecutorState<S::Waker, S::Runtime>,
    id: TaskId,
    ran: Ran<(), OutputIn<S>>,
    out: &mut OutIn<S>,
    search: &Search,
    random: &mut RandomGenerator,
) -> EndThenSearch<S::Waker, OutputIn<S>, NextTask>
    requires { IsHeldRight ran }
    ensures { IsEndRight result }
{
    let mut futures = futures!(storage, Some(search.runner()));
    let mut cells = cells!(state);
    let table = futures.get();
    let notice = match table.end_before_search(&mut cells, id, ran, out) {
        Ok(notice) => notice,
        Err(ended) => return ended,
    };
    // After the end, which may have queued this very task: no search before it would find that.
    let found = search.make(&mut cells, random.next(), None);
    if let Some(next) = &found {
        // The last one is not out any more. Before the table is given up, which waits for what was asked
        // of memory: its cell and its place come from there together.
        *out = table.take(next.id());
    }
    drop(cells);
    EndThenSearch::Searched(notice, found)
}

/// Ends a task that was run, and takes the next one of any queue, and its future out.
pub(crate) fn end_then_take_any<S: Storage>(
    storage: &S,
    id: TaskId,
    ran: Ran<(), OutputIn<S>>,
    out: &mut OutIn<S>,
) -> EndThenSearch<S::Waker, OutputIn<S>, AnyTask>
    requires { IsHeldRight ran }
    ensures { IsEndRight result }
{
    let mut futures = futures!(storage);
    let mut cells = cells!(storage.state());
    let table = futures.get();
    let notice = match table.end_before_search(&mut cells, id, ran, out) {
        Ok(notice) => notice,
        Err(ended) => return ended,
    };
    // After the end, as a run does.
    let found = cells.take_any(None);
    if let Some((taken, _)) = &found {
        *out = table.take(taken.id());
    }
    drop(cells);
    EndThenSearch::Searched(notice, found)
}

// What is left to do of a task that has ended.
#[inline(always)]
fn finished<W, T>(
    unwanted: Option<T>,
    awaiter: Option<Wakeup<W>>,
) -> Result<Option<Notice>, Deferred<W, T>>
    ensures { IfErr result (λ deferred. IsDeferredRight deferred) }
{
    match (unwanted, awaiter) {
        (None, None) => Ok(None),
        (unwanted, awaiter) => Err(Deferred::Finished(unwanted, awaiter)),
    }
}

// Whether no queue has a task, so that the search of `end_then_search` is in vain.
#[inline(always)]
fn is_unscheduled<W>(cells: &Cells<(), (), W>) -> bool {
    if cells.global_len() > 0 {
        return false;
    }
    for position in 0..cells.runners() {
        if cells.local_len(position) != Some(0) {
            return false;
        }
    }
    true
}

/// Ends the handle of a task that has ended, as the table says. The output comes out, if there is one, and a
/// waker that was left.
#[inline(always)]
pub(crate) fn take_ended<S: Storage>(
    storage: &S,
    cells: MutexGuard<'_, Cells<(), (), S::Waker>>,
    id: TaskId,
) -> (Option<OutputIn<S>>, Option<S::Waker>) {
    let mut cells = cells;
    // Others wait for the table while they have the futures, so nobody waits for those here.
    if let Some(mut futures) = storage.try_futures() {
        return futures.get().take_ended(&mut cells, id);
    }
    give_up_and_take_ended(storage, cells, id)
}

// Gives the table up, and ends the handle once the futures are free. It is inline around the call, so that
// the room of what that gives is cleared on this path alone.
#[inline(always)]
fn give_up_and_take_ended<S: Storage>(
    storage: &S,
    cells: MutexGuard<'_, Cells<(), (), S::Waker>>,
    id: TaskId,
) -> (Option<OutputIn<S>>, Option<S::Waker>) {
    drop(cells);
    wait_and_take_ended(storage, id)
}

/// As `take_ended` for a task that has ended, but waits for the futures.
#[cold]
#[inline(never)]
pub(crate) fn wait_and_take_ended<S: Storage>(
    storage: &S,
    id: TaskId,
) -> (Option<OutputIn<S>>, Option<S::Waker>) {
    let mut futures = futures!(storage);
    let mut cells = cells!(storage.state());
    futures.get().take_ended(&mut cells, id)
}

/// Leaves this waker at the handle of a task, in place of an earlier one, which comes out. If the
/// handle has an answer, this one comes back.
#[inline(always)]
pub(crate) fn await_handle<S: Storage>(
    storage: &S,
    id: TaskId,
    waker: S::Waker,
) -> Result<Option<S::Waker>, S::Waker> {
    let mut cells = cells!(storage.state());
    if cells.is_ended(id) {
        return Err(waker);
    }
    match cells.poll_handle(id, waker) {
        PollHandle::Pending(before) => Ok(before),
        PollHandle::Cancelled(waker) => Err(waker),
        PollHandle::Output((), _) => unreachable!(),
    }
}

// Never blocks, so it needs no `Wait` bound, and its callers pay no check.
impl<F: Drop, W: Drop, R: Drop, T: Drop> FutureTable<F, Arc<ExecutorState<W, R>>, T> {
    #[inline(always)]
    pub(crate) fn take(&mut self, id: TaskId) -> Out<F, W, R> {
        let (future, state) = self.take_future(id)?;
        Some((future, TaskWaker::lent(state, id)))
    }

    // Ends the handle of a task that has ended. Its output comes out, and a waker that was left.
    #[inline(always)]
    fn take_ended(&mut self, cells: &mut Cells<(), (), W>, id: TaskId) -> (Option<T>, Option<W>) {
        match cells.detach(id) {
            (Some(()), awaiter) => (self.take_output(id), awaiter),
            (None, awaiter) => (None, awaiter),
        }
    }

    // Ends a task that was run, before a search for the next one. An error says what comes in place of that
    // search.
    #[inline(always)]
    fn end_before_search<N>(
        &mut self,
        cells: &mut Cells<(), (), W>,
        id: TaskId,
        ran: Ran<(), T>,
        out: &mut Out<F, W, R>,
    ) -> Result<Option<Notice>, EndThenSearch<W, T, N>>
        requires { IsHeldRight ran }
        ensures { IfErr result (λ ended. IsEndRight ended) }
    {
        let ended = match ran {
            Ran::Pending(held, ()) => self.end_pending(cells, id, held, out),
            Ran::Ready(held, output) => match self.end_ready(cells, id, held, output) {
                // No task is taken before the awaiter of the last one is woken, which may take long. If
                // there is none, that wake need not come first: what it queues is found as the run goes
                // to sleep.
                (None, Some(awaiter)) if is_unscheduled(cells) => {
                    return Err(EndThenSearch::InVain(awaiter));
                }
                (unwanted, awaiter) => finished(unwanted, awaiter),
            },
            Ran::Dropped(held) => finished(None, cells.end_dropped(held)),
        };
        match ended {
            Ok(notice) => Ok(notice),
            Err(deferred) => Err(EndThenSearch::Unfinished(deferred)),
        }
    }

    // With both tables locked, ends a task whose poll was pending, and keeps its future.
    #[inline(always)]
    fn end_pending(
        &mut self,
        cells: &mut Cells<(), (), W>,
        id: TaskId,
        held: Held,
        out: &mut Out<F, W, R>,
    ) -> Result<Option<Notice>, Deferred<W, T>>
        requires { held.to_drop ≡ false }
        ensures { IfErr result (λ deferred. IsDeferredRight deferred) }
    {
        // The wake comes before the end, which queues the task again if it was woken meanwhile.
        let wake = match self.put_back(id, out) {
            Ok(wake) => wake,
            Err(wake) => {
                return Err(match wake.make(id, cells) {
                    Some(notice) => Deferred::Unended(held, BeforeEnd::Woken(notice)),
                    None => Deferred::Unended(held, BeforeEnd::Refused),
                });
            }
        };
        // A task that woke itself is found once for both, unless it was cancelled.
        let (held, wake) = match wake.end(held, cells) {
            Ok(notice) => return Ok(Some(notice)),
            Err(unended) => unended,
        };
        if let Some(notice) = wake.make(id, cells) {
            return Err(Deferred::Unended(held, BeforeEnd::Woken(notice)));
        }
        match cells.end_pending(held, ()) {
            EndPending::Back(notice) => Ok(notice),
            EndPending::Drop((), held) => Err(Deferred::Unended(held, BeforeEnd::ToDrop)),
        }
    }

    // With both tables locked, ends a task that gave this output, and keeps it if the handle wants it. What
    // is to be dropped comes out, and whom to wake.
    #[inline(always)]
    fn end_ready(
        &mut self,
        cells: &mut Cells<(), (), W>,
        id: TaskId,
        held: Held,
        output: T,
    ) -> (Option<T>, Option<Wakeup<W>>)
        requires { held.to_drop ≡ false }
    {
        // The table says whether a handle wants the output. Nobody else sees it before both agree: the
        // futures are locked.
        let EndReady { awaiter, unwanted } = cells.end_ready(held, ());
        let unwanted = match unwanted {
            Some(()) => Some(output),
            None => self.keep_output(id, output),
        };
        (unwanted, awaiter)
    }

    // Puts a future that was out back. An error says that it has no place, and is still out. The wake
    // of the waker that it was lent comes out in both cases.
    #[inline(always)]
    fn put_back(&mut self, id: TaskId, out: &mut Out<F, W, R>) -> Result<LentWake, LentWake> {
        let Some((future, waker)) = out.take() else {
            return Ok(LentWake::none());
        };
        let (state, wake) = waker.into_parts();
        match self.keep_future(id, future, state) {
            None => Ok(wake),
            Some((future, state)) => {
                *out = Some((future, TaskWaker::lent(state, id)));
                Err(wake)
            }
        }
    }
}
