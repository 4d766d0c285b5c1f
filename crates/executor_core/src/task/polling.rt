//! The one poll, or the one drop, of a taken task.
ghost use Rattle.std.specs.Prelude.{◌≡◌, ℕ, ◌+◌, ◌<◌, ◌^◌, true, cond};
ghost use Rattle.executor_core.specs.Polling.{RanFrom, AnsweredBy};
ghost use Rattle.executor_core.specs.declared.task.cell.TaskId.{TaskId};
ghost use Rattle.executor_core.specs.declared.task.polling.Polled.{Polled};

use crate::task::cell::TaskId;

/// A task that was taken: its future is out of its cell. Its `Held` is made as it is run.
pub struct Taken<P> {
    pub(crate) id: TaskId,
    pub(crate) future: P,
    pub(crate) cancelled: bool,
}

impl<P> Taken<P> {
    /// The id in a `Taken`: which task was taken.
    pub fn id(&self) -> TaskId
        ensures { result ≡ self.now.id }
    {
        self.id
    }

    /// Whether the task of a `Taken` is cancelled, so that its future is to be dropped and not polled.
    pub fn cancelled(&self) -> bool
        ensures { result ≡ self.now.cancelled }
    {
        self.cancelled
    }
}

/// The task was polled, or is to be disposed of, by its one holder.
pub struct Held {
    pub(crate) id: TaskId,
    pub(crate) to_drop: bool,
}

/// What a poll answers.
pub enum Polled<P, T> {
    /// The future is not ready, and comes back.
    Pending(P),
    /// The future gave its output, and was dropped.
    Ready(T),
}

/// Polls futures, or drops them. Its meaning is how often it did each, what a poll of a task
/// answers, and what the drop of a task's future makes of the poller.
pub trait Poller<P, T> {
    ghost polls: { Self → ℕ };

    ghost disposals: { Self → ℕ };

    ghost answers: { Self → TaskId → P → Polled P T → Type 0 };

    ghost disposed: { Self → TaskId → P → Self → Type 0 };

    /// Polls the future of the task once, for `run_taken`.
    fn poll(&mut self, id: TaskId, future: P) -> Polled<P, T>
        requires room { polls self.old + 1 < 2 ^ 64 }
        ensures polls { polls self.new ≡ polls self.old + 1 }
        ensures disposals { disposals self.new ≡ disposals self.old }
        ensures answer { answers self.old id future result };

    /// Drops the future of the task, for `run_taken`.
    fn dispose(&mut self, id: TaskId, future: P)
        requires room { disposals self.old + 1 < 2 ^ 64 }
        ensures polls { polls self.new ≡ polls self.old }
        ensures disposals { disposals self.new ≡ disposals self.old + 1 }
        ensures disposed { disposed self.old id future self.new };
}

/// What became of a taken task.
pub enum Ran<P, T> {
    /// It was polled and is not ready: its future came back.
    Pending(Held, P),
    /// It was polled and gave its output: its future was dropped.
    Ready(Held, T),
    /// It was cancelled: its future was dropped and not polled.
    Dropped(Held),
}

/// Polls the future of a taken task once, or drops it if the task is cancelled.
///
/// The `Held` that comes back is the taken task's own: only from here does anyone get it.
#[inline(always)]
pub fn run_taken<P, T, Q: Poller<P, T>>(taken: Taken<P>, poller: &mut Q) -> Ran<P, T>
    requires polls { Q.polls poller.old + 1 < 2 ^ 64 }
    requires disposals { Q.disposals poller.old + 1 < 2 ^ 64 }
    ensures polls { Q.polls poller.new ≡ Q.polls poller.old + cond taken.cancelled 0 1 }
    ensures disposals { Q.disposals poller.new ≡ Q.disposals poller.old + cond taken.cancelled 1 0 }
    ensures ran { RanFrom taken result }
    ensures answered { AnsweredBy (Q.answers poller.old taken.id taken.future) result }
    ensures disposed { taken.cancelled ≡ true
        → Q.disposed poller.old taken.id taken.future poller.new }
{
    let Taken {
        id,
        future,
        cancelled,
    } = taken;
    if cancelled {
        poller.dispose(id, future);
        return Ran::Dropped(Held { id, to_drop: true });
    }
    let polled = poller.poll(id, future);
    // Made here and not in `Taken`: what a search answers, and a run moves several times, has the id
    // once.
    let held = Held { id, to_drop: false };
    match polled {
        Polled::Pending(future) => Ran::Pending(held, future),
        Polled::Ready(output) => Ran::Ready(held, output),
    }
}
