//! What a world answers to a step.
ghost use Rattle.std.specs.Prelude.{◌≡◌, ⊤, is_some};
ghost use Rattle.executor_core.specs.World.Steps.{notice_reply, take_reply, return_reply, ready_reply, output_reply, end_reply, pick_reply, sleeper_reply, removed_reply};

use crate::task::{EndReady, Wakeup};
use std::alloc::AllocError;

/// What a step answers.
#[derive(Debug, Copy, PartialEq)]
pub enum Reply<T> {
    /// The task of this number was spawned.
    Task(u64),
    /// Something was queued.
    Notice,
    /// Nothing came of it.
    Nothing,
    /// This task was taken to be polled.
    Poll(u64),
    /// This task's future is out, to be dropped.
    Drop(u64),
    /// There was no task to take.
    NoTask,
    /// The future of this task is in its cell, and the task is idle.
    Idle(u64),
    /// The future of this task is in its cell, and the task is queued.
    Queued(u64),
    /// The output is kept for the handle; and whether an awaiter came out.
    Finished { awaiter: bool },
    /// No handle will give this output; and whether an awaiter came out.
    Unwanted { output: T, awaiter: bool },
    /// This output came out, and the handle ended: a poll of the handle gave it, or, if the handle
    /// was detached or dropped, nobody asked for it.
    Output(T),
    /// The future was dropped and gave no output; and whether an awaiter came out.
    Gone { awaiter: bool },
    /// The handle will give no output, and ended.
    Cancelled,
    /// The handle is to be polled again.
    Pending,
    /// The exchange turned the flag from false to true, and a pick is out.
    Pick,
    /// The sleeper of this number was notified.
    Sleeper(u64),
    /// Nobody was notified.
    Nobody,
    /// The ticker of this number was made.
    Ticker(usize),
    /// It was done.
    Done,
    /// The ticker went to sleep under this number.
    Number(usize),
    /// The ticker, which was notified, went to sleep again.
    Again,
    /// The ticker sleeps on, as nobody notified it.
    Parked,
    /// The ticker's number was removed, and it was notified.
    Notified,
    /// The ticker's number was removed, and it was not notified.
    Unnotified,
    /// The flag has this value from now on.
    Stored(bool),
    /// So many tasks were moved to the queue of the run.
    Moved(usize),
    /// The ticker that was dropped had no number.
    Awake,
    /// Refused: the world took as many steps as it may.
    LogFull,
    /// Refused: the step is not enabled.
    NotNow,
    /// Refused: a growth of memory was.
    OutOfMemory,
}

impl<T: Copy> Clone for Reply<T> {
    ghost is_clone = { λ x y. y ≡ x };

    ghost is_infallible = { λ _. ⊤ };

    fn clone(&self) -> Result<Reply<T>, AllocError> {
        // By a copy, so that T need not be `Clone`.
        Ok(*self)
    }
}

// For a reply: whether an awaiter came out. A world's wakers are units, and there is nothing more to wake.
pub(crate) fn has_awaiter(awaiter: Option<Wakeup<()>>) -> bool
    ensures { result ≡ is_some awaiter }
{
    match awaiter {
        Some(wakeup) => {
            wakeup.keep();
            true
        }
        None => false,
    }
}

// The reply that says what the end of a poll that gave an output left to do.
pub(crate) fn reply_of<T>(ended: EndReady<T, ()>) -> Reply<T>
    ensures { result ≡ ready_reply (is_some ended.awaiter) ended.unwanted }
{
    let EndReady { awaiter, unwanted } = ended;
    let awaiter = has_awaiter(awaiter);
    match unwanted {
        Some(output) => Reply::Unwanted { output, awaiter },
        None => Reply::Finished { awaiter },
    }
}

// The reply that says what the end of a handle gave.
pub(crate) fn reply_of_output<T>(output: Option<T>) -> Reply<T>
    ensures { result ≡ output_reply output }
{
    match output {
        Some(output) => Reply::Output(output),
        None => Reply::Nothing,
    }
}

// The reply to the end of a handle that may leave a notice, by whether it did, and by what the
// handle gave.
pub(crate) fn reply_of_end<T: Copy>(noticed: bool, output: Option<T>) -> Reply<T>
    ensures { result ≡ end_reply noticed output }
{
    if noticed {
        return Reply::Notice;
    }
    reply_of_output(output)
}

// The reply that says whether a task was queued.
pub(crate) fn reply_of_notice<T>(noticed: bool) -> Reply<T>
    ensures { result ≡ notice_reply noticed }
{
    if noticed {
        Reply::Notice
    } else {
        Reply::Nothing
    }
}

// The reply that says for what this task was taken.
pub(crate) fn reply_of_take<T>(n: u64, cancelled: bool) -> Reply<T>
    ensures { result ≡ take_reply n cancelled }
{
    if cancelled {
        Reply::Drop(n)
    } else {
        Reply::Poll(n)
    }
}

// The reply that says where this task's future went back, by whether it was queued.
pub(crate) fn reply_of_return<T>(n: u64, noticed: bool) -> Reply<T>
    ensures { result ≡ return_reply n noticed }
{
    if noticed {
        Reply::Queued(n)
    } else {
        Reply::Idle(n)
    }
}

// The reply that says whether a pick is out.
pub(crate) fn reply_of_pick<T>(picked: bool) -> Reply<T>
    ensures { result ≡ pick_reply picked }
{
    if picked { Reply::Pick } else { Reply::Nothing }
}

// The reply that says whether the last sleeper was notified, which has this number.
pub(crate) fn reply_of_sleeper<T>(notified: bool, last: Option<usize>) -> Reply<T>
    ensures { result ≡ sleeper_reply notified last }
{
    match last {
        Some(number) if notified => Reply::Sleeper(number as u64),
        _ => Reply::Nobody,
    }
}

// The reply that says whether a number that was removed was notified.
pub(crate) fn reply_of_removal<T>(notified: bool) -> Reply<T>
    ensures { result ≡ removed_reply notified }
{
    if notified {
        Reply::Notified
    } else {
        Reply::Unnotified
    }
}
