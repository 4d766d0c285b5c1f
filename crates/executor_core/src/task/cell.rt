//! The cell of one task, its id, and what each call makes of it.
//!
//! Each function here reads one cell, changes it in its place, or ends a removed one, and gives
//! what comes out of it.
ghost use Rattle.std.specs.Prelude.{◌≡◌, ◌||◌, true, false, Some, None, cond};
ghost use Rattle.executor_core.specs.Cell.{is_idle, is_scheduled, is_held, is_undropped};
ghost use Rattle.executor_core.specs.Cell.Changes.{new_cell, state_woken, woken, takes_back, taken, pended, readied, awaited, cancelled_cell, detached, disposed, wakeup_of, output_of, is_finished_state};

use crate::task::values::Wakeup;
use core::mem::replace;

/// Names a task: its number, which no other task of the same cells ever has, and the slot of its
/// cell.
#[derive(Debug, Clone, Copy, PartialEq, Eq)]
pub struct TaskId {
    pub(crate) number: u64,
    pub(crate) slot: usize,
}

impl TaskId {
    /// The id's number: tasks are numbered from 0 in order of spawning.
    pub fn number(self) -> u64
        ensures { result ≡ self.number }
    {
        self.number
    }

    /// The id's slot, which another task may have once this one's cell was removed.
    pub fn slot(self) -> usize
        ensures { result ≡ self.slot }
    {
        self.slot
    }
}

/// Where a task stands.
#[derive(Drop)]
pub(crate) enum CellState<P, T> {
    /// The future is in the cell, and nothing is asked of it.
    Idle(P),
    /// The future is in the cell, and the task stands in a queue.
    Scheduled(P),
    /// The future is out, with the one who took the task.
    Held,
    /// The future was dropped, and its output waits for the handle.
    Finished(T),
    /// The future was dropped, and there is no output.
    Gone,
}

/// What is kept of a task, beside its number.
#[derive(Drop)]
pub(crate) struct Cell<P, T, W> {
    pub(crate) state: CellState<P, T>,
    pub(crate) cancelled: bool,
    /// A wake came while the future was out.
    pub(crate) woken: bool,
    pub(crate) has_handle: bool,
    /// The waker of whoever polled the handle last.
    pub(crate) awaiter: Option<W>,
}

/// What a slot of the table has: a cell, under its task's number.
#[derive(Drop)]
pub(crate) struct Numbered<C> {
    pub(crate) number: u64,
    pub(crate) cell: C,
}

// The cell of a new task.
pub(crate) fn new_cell<P, T, W>(future: P) -> Cell<P, T, W>
    ensures { result ≡ new_cell future }
{
    Cell {
        state: CellState::Scheduled(future),
        cancelled: false,
        woken: false,
        has_handle: true,
        awaiter: None,
    }
}

// Whether a cell's future is in it or out, and not dropped.
pub(crate) fn has_future<P, T, W>(cell: &Cell<P, T, W>) -> bool
    ensures { result ≡ is_undropped cell.now.state }
{
    match &cell.state {
        CellState::Idle(_) | CellState::Scheduled(_) | CellState::Held => true,
        CellState::Finished(_) | CellState::Gone => false,
    }
}

// Whether a cell has its future in it.
pub(crate) fn keeps_future<P, T, W>(cell: &Cell<P, T, W>) -> bool
    ensures { result ≡ (is_idle cell.now.state || is_scheduled cell.now.state) }
{
    matches!(&cell.state, CellState::Idle(_) | CellState::Scheduled(_))
}

// Whether a cell's future is out.
pub(crate) fn is_held<P, T, W>(cell: &Cell<P, T, W>) -> bool
    ensures { result ≡ is_held cell.now.state }
{
    matches!(&cell.state, CellState::Held)
}

// Whether a cell's future is out, and the task was not cancelled.
pub(crate) fn takes_back<P, T, W>(cell: &Cell<P, T, W>) -> bool
    ensures { result ≡ takes_back cell.now }
{
    is_held(cell) && !cell.cancelled
}

// The state of a cell whose future is out has nothing in it.
fn end_held<P, T>(state: CellState<P, T>)
    requires { is_held state ≡ true }
{
    match state {
        CellState::Held => {}
        _ => unreachable!(),
    }
}

// Schedules the task of a cell if it is idle, and says whether it was.
fn schedule<P, T>(state: &mut CellState<P, T>) -> bool
    ensures state { state.new ≡ state_woken state.old }
    ensures queued { result ≡ is_idle state.old }
{
    if !matches!(state, CellState::Idle(_)) {
        return false;
    }
    let before = replace(state, CellState::Held);
    let CellState::Idle(future) = before else {
        unreachable!()
    };
    end_held(replace(state, CellState::Scheduled(future)));
    true
}

// A wake: says whether the task is to be queued.
pub(crate) fn wake_cell<P, T, W>(cell: &mut Cell<P, T, W>) -> bool
    ensures cell { cell.new ≡ woken cell.old }
    ensures queued { result ≡ is_idle cell.old.state }
{
    if is_held(cell) {
        cell.woken = true;
        return false;
    }
    schedule(&mut cell.state)
}

// A take: gives the future and the cancel mark.
pub(crate) fn take_cell<P, T, W>(cell: &mut Cell<P, T, W>) -> (P, bool)
    requires { is_scheduled cell.old.state ≡ true }
    ensures cell { cell.new ≡ taken cell.old }
    ensures future { cell.old.state ≡ CellState.Scheduled result.0 }
    ensures cancelled { result.1 ≡ cell.old.cancelled }
{
    let before = replace(&mut cell.state, CellState::Held);
    let CellState::Scheduled(future) = before else {
        unreachable!()
    };
    cell.woken = false;
    (future, cell.cancelled)
}

// The end of a pending poll: says whether the task is to be queued.
pub(crate) fn pend_cell<P, T, W>(cell: &mut Cell<P, T, W>, future: P) -> bool
    requires { is_held cell.old.state ≡ true }
    ensures cell { cell.new ≡ pended cell.old future }
    ensures queued { result ≡ cell.old.woken }
{
    let state = if cell.woken {
        CellState::Scheduled(future)
    } else {
        CellState::Idle(future)
    };
    end_held(replace(&mut cell.state, state));
    cell.woken
}

// The wake of a task in its poll, which was pending, and the end of that poll: the task is to be queued.
pub(crate) fn reschedule_cell<P, T, W>(cell: &mut Cell<P, T, W>, future: P)
    requires { is_held cell.old.state ≡ true }
    ensures { cell.new ≡ pended (woken cell.old) future }
{
    end_held(replace(&mut cell.state, CellState::Scheduled(future)));
    cell.woken = true;
}

// What a change of a cell gives of its awaiter: a waker that is to be woken.
fn wakeup<W>(awaiter: Option<W>) -> Option<Wakeup<W>>
    ensures { result ≡ wakeup_of awaiter }
{
    match awaiter {
        Some(waker) => Some(Wakeup { waker }),
        None => None,
    }
}

// The end of a poll that gave an output, for one cell: gives the awaiter, and the output if nobody wants it.
pub(crate) fn ready_cell<P, T, W>(
    cell: &mut Cell<P, T, W>,
    output: T,
) -> (Option<Wakeup<W>>, Option<T>)
    requires { is_held cell.old.state ≡ true }
    ensures cell { cell.new ≡ readied cell.old output }
    ensures answer { result
        ≡ (wakeup_of cell.old.awaiter, cond cell.old.cancelled (Some output) None) }
{
    let (state, unwanted) = if cell.cancelled {
        (CellState::Gone, Some(output))
    } else {
        (CellState::Finished(output), None)
    };
    end_held(replace(&mut cell.state, state));
    (wakeup(replace(&mut cell.awaiter, None)), unwanted)
}

// The end of a task whose future was dropped without an output: gives the awaiter.
pub(crate) fn dispose_cell<P, T, W>(cell: &mut Cell<P, T, W>) -> Option<Wakeup<W>>
    requires { is_held cell.old.state ≡ true }
    ensures cell { cell.new ≡ disposed cell.old }
    ensures awaiter { result ≡ wakeup_of cell.old.awaiter }
{
    end_held(replace(&mut cell.state, CellState::Gone));
    wakeup(replace(&mut cell.awaiter, None))
}

// A cell whose handle is polled in vain: keeps the awaiter, and gives the one before.
pub(crate) fn await_cell<P, T, W>(cell: &mut Cell<P, T, W>, waker: W) -> Option<W>
    ensures cell { cell.new ≡ awaited cell.old waker }
    ensures before { result ≡ cell.old.awaiter }
{
    replace(&mut cell.awaiter, Some(waker))
}

// A cancel: says whether the task is to be queued.
pub(crate) fn cancel_cell<P, T, W>(cell: &mut Cell<P, T, W>) -> bool
    ensures cell { cell.new ≡ cancelled_cell cell.old }
    ensures queued { result ≡ is_idle cell.old.state }
{
    if has_future(cell) {
        cell.cancelled = true;
    }
    schedule(&mut cell.state)
}

// The end of the handle: gives the awaiter.
pub(crate) fn detach_cell<P, T, W>(cell: &mut Cell<P, T, W>) -> Option<W>
    ensures cell { cell.new ≡ detached cell.old }
    ensures awaiter { result ≡ cell.old.awaiter }
{
    cell.has_handle = false;
    replace(&mut cell.awaiter, None)
}

// The awaiter of a removed cell whose future was out.
pub(crate) fn awaiter_of_held<P, T, W>(cell: Cell<P, T, W>) -> Option<Wakeup<W>>
    requires { is_held cell.state ≡ true }
    ensures { result ≡ wakeup_of cell.awaiter }
{
    let Cell {
        state,
        cancelled: _,
        woken: _,
        has_handle: _,
        awaiter,
    } = cell;
    end_held(state);
    wakeup(awaiter)
}

// The output of a removed cell whose future was dropped.
pub(crate) fn output_of_ended<P, T, W>(cell: Cell<P, T, W>) -> Option<T>
    requires dropped { is_undropped cell.state ≡ false }
    requires alone { cell.awaiter ≡ None }
    ensures { result ≡ output_of cell.state }
{
    let Cell {
        state,
        cancelled: _,
        woken: _,
        has_handle: _,
        awaiter,
    } = cell;
    match awaiter {
        None => {}
        Some(_) => unreachable!(),
    }
    match state {
        CellState::Finished(output) => Some(output),
        CellState::Gone => None,
        _ => unreachable!(),
    }
}

// Whether the future was dropped, or nobody will poll it again.
pub(crate) fn is_finished_cell<P, T, W>(cell: &Cell<P, T, W>) -> bool
    ensures { result ≡ is_finished_state cell.now.cancelled cell.now.state }
{
    match &cell.state {
        CellState::Idle(_) => false,
        CellState::Scheduled(_) | CellState::Held => cell.cancelled,
        CellState::Finished(_) | CellState::Gone => true,
    }
}
