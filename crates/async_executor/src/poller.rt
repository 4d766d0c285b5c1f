//! Polls the future of a taken task, with a waker that is lent.
//!
//! A waker that is lent is only marked as it is woken, which takes no lock. Its task is woken when the
//! poll has ended, in the change that ends it.
ghost use Rattle.std.specs.Prelude.{◌≡◌, ◌&&◌, true, false, is_ok, is_some, cond, OnOk, IfErr};
ghost use Rattle.executor_core.specs.Cells.Calls.{after_wake, after_end_pending, cell_at, takes_back_in};
ghost use Rattle.async_executor.specs.Deferred.{IsHeldRight};
ghost use Rattle.async_executor.specs.Poller.{AnswersOwn, DisposesOwn};

use crate::state::ExecutorState;
use crate::waker::TaskWaker;
use executor_core::task::{
    Cells, Future, Held, Notice, Poll, Polled, Poller, Ran, Taken, TaskId, run_taken,
};
use std::sync::Arc;
use std::sync::atomic::AtomicBool;

/// The future of a task while it is out, with the waker that it is polled with.
pub type Out<F, W, R> = Option<(F, TaskWaker<W, R>)>;

impl<W, R> TaskWaker<W, R> {
    /// The waker that is lent to a poll of the task of this id.
    pub(crate) fn lent(state: Arc<ExecutorState<W, R>>, id: TaskId) -> TaskWaker<W, R>
        ensures state { result.state ≡ state }
        ensures id { result.id ≡ id }
        ensures lent { is_some result.mark ≡ true }
    {
        let mark = Some(AtomicBool::new(false));
        TaskWaker { state, id, mark }
    }

    /// The share of the state that the waker was made of, and the wake that it owes its task if it is
    /// lent.
    pub(crate) fn into_parts(self) -> (Arc<ExecutorState<W, R>>, LentWake)
        ensures state { result.0 ≡ self.state }
        ensures copy { is_some self.mark ≡ false → result.1.is_woken ≡ false }
    {
        let TaskWaker { state, id: _, mark } = self;
        let is_woken = match mark {
            Some(mark) => mark.into_inner(),
            None => false,
        };
        (state, LentWake { is_woken })
    }
}

/// Whether the waker that a poll was lent was woken: then its task is still to be woken. It can be
/// neither copied nor dropped.
pub(crate) struct LentWake {
    is_woken: bool,
}

impl LentWake {
    /// The `LentWake` of a poll that was lent no waker.
    #[inline(always)]
    pub(crate) fn none() -> LentWake
        ensures { result.is_woken ≡ false }
    {
        LentWake { is_woken: false }
    }

    /// Wakes the task that is held, which is that of the poll, and ends the poll, if the waker that was lent
    /// was woken. If it was not, or the table does not take the future back, all come back and nothing
    /// changes.
    #[inline(always)]
    pub(crate) fn end<W>(
        self,
        held: Held,
        cells: &mut Cells<(), (), W>,
    ) -> Result<Notice, (Held, LentWake)>
        requires { held.to_drop ≡ false }
        ensures ok { OnOk result
            (cells.new ≡ after_end_pending (after_wake cells.old held.id) held.id tt) }
        ensures refused { IfErr result
            (λ back. (back ≡ (held, self)) × (cells.new ≡ cells.old)) }
        ensures cause { is_ok result
            ≡ (self.is_woken && takes_back_in (cell_at cells.old held.id)) }
    {
        if !self.is_woken {
            return Err((held, self));
        }
        match cells.end_woken(held, ()) {
            Ok(notice) => {
                let LentWake { is_woken: _ } = self;
                Ok(notice)
            }
            Err((held, ())) => Err((held, self)),
        }
    }

    /// Wakes the task of this id, which is that of the poll, if the waker that was lent was woken.
    #[inline(always)]
    pub(crate) fn make<W>(self, id: TaskId, cells: &mut Cells<(), (), W>) -> Option<Notice>
        ensures { cells.new ≡ cond self.is_woken (after_wake cells.old id) cells.old }
    {
        let LentWake { is_woken } = self;
        if is_woken {
            return cells.wake(id);
        }
        None
    }
}

/// Borrows the future of one task while it is out, and the waker that it is polled with. It answers
/// for this task alone, and counts the polls and the disposals that it is asked for.
#[derive(Drop)]
pub(crate) struct TaskPoller<'a, F: Future<TaskWaker<W, R>>, W: Drop, R: Drop> {
    id: TaskId,
    out: &'a mut Out<F, W, R>,
    polls: u64,
    disposals: u64,
}

impl<'a, F: Future<TaskWaker<W, R>>, W: Drop, R: Drop> TaskPoller<'a, F, W, R> {
    /// The poller of the task of this id.
    pub(crate) fn new(id: TaskId, out: &'a mut Out<F, W, R>) -> TaskPoller<'a, F, W, R>
        ensures { result ≡ record { id = id; out = out.entry; polls = 0; disposals = 0 } }
    {
        TaskPoller {
            id,
            out,
            polls: 0,
            disposals: 0,
        }
    }
}

impl<F: Future<TaskWaker<W, R>>, W: Drop, R: Drop> Poller<(), F::Output>
    for TaskPoller<'_, F, W, R> {
    ghost polls = { λ p. p.polls };

    ghost disposals = { λ p. p.disposals };

    ghost answers = { λ p id _ answer. AnswersOwn p id answer };

    ghost disposed = { λ p id _ after. DisposesOwn p id after };

    /// Polls the future once, and drops it if it is ready. Another task's future is not there,
    /// and so it is not ready.
    #[inline(always)]
    fn poll(&mut self, id: TaskId, _future: ()) -> Polled<(), F::Output> {
        self.polls += 1;
        // The future stays where it is until it is put back: a large one is not moved through the
        // answers.
        let Some((future, waker)) = &mut *self.out else {
            return Polled::Pending(());
        };
        if id != self.id {
            return Polled::Pending(());
        }
        match future.poll(waker) {
            Poll::Pending => Polled::Pending(()),
            Poll::Ready(output) => {
                *self.out = None;
                Polled::Ready(output)
            }
        }
    }

    /// Drops the future, if it is that of this task.
    fn dispose(&mut self, id: TaskId, _future: ()) {
        self.disposals += 1;
        if id == self.id {
            *self.out = None;
        }
    }
}

/// Polls the future of a taken task once, or drops it if the task was cancelled. No lock may be held.
#[inline(always)]
pub(crate) fn poll_taken<F: Future<TaskWaker<W, R>>, W: Drop, R: Drop>(
    taken: Taken<()>,
    out: &mut Out<F, W, R>,
) -> Ran<(), F::Output>
    ensures { IsHeldRight result }
{
    let mut poller = TaskPoller::new(taken.id(), out);
    run_taken(taken, &mut poller)
}
