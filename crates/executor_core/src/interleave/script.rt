//! Polls that answer as a step says.
ghost use Rattle.std.specs.Prelude.{◌≡◌, false, true};
ghost use Rattle.executor_core.specs.Polling.{polled_output};

use crate::interleave::entry::FutureOut;
use crate::task::{Held, Polled, Poller, Ran, Taken, TaskId, run_taken};

/// Answers each poll with this output, or pending if there is none.
#[derive(Drop)]
struct Script<T> {
    output: Option<T>,
    polls: u64,
    disposals: u64,
}

impl<P: Drop, T: Copy> Poller<P, T> for Script<T> {
    ghost polls = { λ s. s.polls };

    ghost disposals = { λ s. s.disposals };

    ghost answers = { λ s _ _ r. polled_output r ≡ s.output };

    ghost disposed = { λ s _ _ after. after.output ≡ s.output };

    fn poll(&mut self, _id: TaskId, future: P) -> Polled<P, T> {
        self.polls += 1;
        match self.output {
            Some(output) => Polled::Ready(output),
            None => Polled::Pending(future),
        }
    }

    fn dispose(&mut self, _id: TaskId, _future: P) {
        self.disposals += 1;
    }
}

// The task of a script as it was taken, to be polled, or cancelled.
fn taken<P>(id: TaskId, future: P, cancelled: bool) -> Taken<P>
    ensures id { result.id ≡ id }
    ensures cancelled { result.cancelled ≡ cancelled }
{
    Taken {
        id,
        future,
        cancelled,
    }
}

// A script that answers each poll with this output, or pending if there is none.
fn answering<T>(output: Option<T>) -> Script<T>
    ensures { result ≡ record { output = output; polls = 0; disposals = 0 } }
{
    Script {
        output,
        polls: 0,
        disposals: 0,
    }
}

// One poll of the task by a script, which answers pending.
pub(crate) fn poll_pending<P: Drop, T: Copy>(id: TaskId, future: P) -> (Held, P)
    ensures { result.0 ≡ record { id = id; to_drop = false } }
{
    let mut script = answering::<T>(None);
    match run_taken(taken(id, future, false), &mut script) {
        Ran::Pending(held, future) => (held, future),
        _ => unreachable!(),
    }
}

// One poll of the task by a script, which answers this output.
pub(crate) fn poll_ready<P: Drop, T: Copy>(id: TaskId, future: P, output: T) -> (Held, T)
    ensures { result ≡ (record { id = id; to_drop = false }, output) }
{
    let mut script = answering(Some(output));
    match run_taken(taken(id, future, false), &mut script) {
        Ran::Ready(held, output) => (held, output),
        _ => unreachable!(),
    }
}

// The drop, by a script, of the future of a task that was taken cancelled.
fn dispose<P: Drop, T: Copy>(id: TaskId, future: P) -> Held
    ensures { result ≡ record { id = id; to_drop = true } }
{
    let mut script = answering::<T>(None);
    match run_taken(taken(id, future, true), &mut script) {
        Ran::Dropped(held) => held,
        _ => unreachable!(),
    }
}

// The drop, by a script, of the future of a cancelled task. One whose poll ended pending came back from
// its end, and is let go here.
pub(crate) fn drop_future<P: Drop, T: Copy>(id: TaskId, future: FutureOut<P>) -> Held
    ensures { result ≡ record { id = id; to_drop = true } }
{
    match future {
        FutureOut::Unpolled(future) => dispose::<P, T>(id, future),
        FutureOut::Polled(_) => Held { id, to_drop: true },
    }
}
