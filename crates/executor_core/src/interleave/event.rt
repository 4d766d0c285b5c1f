//! What happened to the tasks of a world, and the log of it.
ghost use Rattle.std.specs.Prelude.{◌≡◌, ◌<◌, ⊤, [], ◌∷◌, ◌++◌, length, cond};
ghost use Rattle.std.specs.Vec.{vec_capacity};
ghost use Rattle.executor_core.specs.World.Steps.{purpose_of};

use std::alloc::AllocError;

/// What a task was taken for.
#[derive(Debug, Clone, Copy, PartialEq)]
pub enum Purpose {
    /// Its future is to be polled.
    ToPoll,
    /// The task is cancelled: its future is to be dropped.
    ToDrop,
}

impl Purpose {
    // The purpose in the event of a take, by whether the task is cancelled.
    pub(crate) fn of(cancelled: bool) -> Purpose
        ensures { result ≡ purpose_of cancelled }
    {
        if cancelled {
            Purpose::ToDrop
        } else {
            Purpose::ToPoll
        }
    }
}

/// What happened to the task of this number.
#[derive(Debug, Copy, PartialEq)]
pub enum Event<T> {
    /// It was spawned.
    Spawned(u64),
    /// It was woken, its future not being dropped.
    Woken(u64),
    /// It was cancelled, its future not being dropped.
    Cancelled(u64),
    /// It was taken from a queue.
    Took(u64, Purpose),
    /// Its future went back into its cell after a poll.
    Returned(u64),
    /// Its future gave this output, not being cancelled.
    Finished(u64, T),
    /// Its future was dropped.
    Dropped(u64),
    /// Its handle gave this output.
    Got(u64, T),
}

impl<T: Copy> Clone for Event<T> {
    ghost is_clone = { λ x y. y ≡ x };

    ghost is_infallible = { λ _. ⊤ };

    fn clone(&self) -> Result<Event<T>, AllocError> {
        // By a copy, so that T need not be `Clone`.
        Ok(*self)
    }
}

// Logs the event if it happened.
pub(crate) fn log_if<T: Copy>(log: &mut Vec<Event<T>>, happened: bool, event: Event<T>)
    requires { length log.old.items < vec_capacity log.old }
    ensures items { log.new.items ≡ cond happened (log.old.items ++ event ∷ []) log.old.items }
    ensures capacity { vec_capacity log.new ≡ vec_capacity log.old }
{
    if happened {
        log.push_reserved(event);
    }
}
