//! Drops the future of a taken task.
//!
//! An executor that is dropped has code of its own for that. If it ran the tasks that are left, each
//! program would have two places that poll a future, and neither poll would be inlined.
ghost use Rattle.std.specs.Prelude.{◌≡◌, None};
ghost use Rattle.async_executor.specs.Poller.{Unanswered};

use executor_core::task::{Polled, Poller, TaskId};

/// Borrows what is out of one task. It never polls, and counts the disposals that it is asked for.
#[derive(Drop)]
pub(crate) struct TaskDropper<'a, X> {
    out: &'a mut Option<X>,
    polls: u64,
    disposals: u64,
}

impl<'a, X> TaskDropper<'a, X> {
    /// The dropper of what is out.
    pub(crate) fn new(out: &'a mut Option<X>) -> TaskDropper<'a, X>
        ensures { result ≡ record { out = out.entry; polls = 0; disposals = 0 } }
    {
        TaskDropper {
            out,
            polls: 0,
            disposals: 0,
        }
    }
}

impl<X: Drop, T> Poller<(), T> for TaskDropper<'_, X> {
    ghost polls = { λ p. p.polls };

    ghost disposals = { λ p. p.disposals };

    ghost answers = { λ _ _ _ answer. Unanswered answer };

    ghost disposed = { λ _ _ _ after. after.out.now ≡ None };

    /// Leaves the future where it is.
    fn poll(&mut self, _id: TaskId, _future: ()) -> Polled<(), T> {
        self.polls += 1;
        Polled::Pending(())
    }

    /// Drops the future.
    fn dispose(&mut self, _id: TaskId, _future: ()) {
        self.disposals += 1;
        *self.out = None;
    }
}
