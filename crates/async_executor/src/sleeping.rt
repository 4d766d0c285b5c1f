//! How a tick or a run goes to sleep, leaves the sleepers, and announces what it found.
//!
//! No lock is held while a waker is copied, woken or dropped, or a task is run. So the waker of who
//! polls is copied before the list of sleepers is locked, and a waker that comes out of the list is
//! dropped after that.
ghost use Rattle.std.specs.Prelude.{◌≡◌};
ghost use Rattle.async_executor.specs.Steps.{actor_departing, actor_found, actor_going, actor_slept};

use crate::machine::{Departed, Departing, Found, GoingToSleep, Rested, Running, Searching, Went};
use crate::state::{ExecutorState, announce, sleepers};
use executor_core::sleepers::{ClosedSleepers, Removed};
use executor_core::task::{Again, Notice, Wake};
use std::sync::{MutexGuard, Wait};

/// Spends the notice of a task that was found, and that of the number, if one sleeps, which is removed
/// before. Then the task is run.
#[inline(always)]
pub(crate) fn announce_found<A, W: Wake, R: Wait + Drop>(
    state: &ExecutorState<W, R>,
    found: Found<A>,
) -> Running<A>
    ensures { result.actor ≡ actor_found found }
{
    let (announcing, notice) = match found {
        Found::Awake(announcing, notice) => (announcing, notice),
        Found::Asleep(removing) => {
            let mut guard = sleepers!(state);
            let sleepers = &mut guard.sleepers;
            let (storing, change) = removing.make(sleepers);
            let removed = state.store(change, sleepers);
            storing.stored(unlock(guard, removed))
        }
    };
    // Before the task is run, which may take long: somebody else can go on with the queue meanwhile.
    announce!(state, notice);
    announcing.announced()
}

/// What came of going to sleep.
pub(crate) enum Slept<A> {
    /// The list was changed and the flag stored: a search comes next.
    Again(Searching<A>, Again),
    /// The poll answers pending.
    Rested(Rested<A>),
}

/// Puts a tick or a run to sleep: puts a copy of the waker into the list, in place of an earlier one, and
/// stores the flag if the list was changed. If the copy is refused, the waker itself is woken. If this poll
/// has put a copy there, one that was not notified since sleeps on by that.
#[inline(always)]
pub(crate) fn sleep<A, W: Wake, R: Wait + Drop>(
    state: &ExecutorState<W, R>,
    going: GoingToSleep<A>,
    w: &W,
    is_listed: bool,
) -> Slept<A>
    ensures { actor_slept result ≡ actor_going going }
{
    let going = match going {
        GoingToSleep::Update(updating) if is_listed => {
            let guard = sleepers!(state);
            let asleep = updating.sleep_on(&guard.sleepers);
            drop(guard);
            match asleep {
                Ok(rested) => return Slept::Rested(rested),
                Err(updating) => GoingToSleep::Update(updating),
            }
        }
        going => going,
    };
    let Ok(waker) = w.copy() else {
        return Slept::Rested(going.refused().wake(w));
    };
    // The flag is stored under the guard under which the list was changed. Otherwise somebody might
    // exchange it in between, and what it said of the new list would be overwritten.
    let mut guard = sleepers!(state);
    let sleepers = &mut guard.sleepers;
    match going.make(sleepers, waker) {
        Went::Storing(storing, change) => {
            let again = state.store(change, sleepers);
            let (searching, again) = storing.stored(again);
            Slept::Again(searching, again)
        }
        Went::Rested(rested, before) => {
            drop(guard);
            drop(before);
            Slept::Rested(rested)
        }
        Went::Yielding(yielding, refused) => {
            drop(guard);
            drop(refused);
            Slept::Rested(yielding.wake(w))
        }
    }
}

// Gives the lock of the list of sleepers up, and drops the waker of a number that was removed after that.
// There is a notice if it was notified.
#[inline(always)]
fn unlock<W: Wake>(
    guard: MutexGuard<'_, ClosedSleepers<W>>,
    removed: Removed<W>,
) -> Option<Notice> {
    let Removed { notice, waker } = removed;
    drop(guard);
    drop(waker);
    notice
}

/// A tick or a run leaves the sleepers for good. What a number was notified of is passed on.
pub(crate) fn leave<A, W: Wake, R: Wait + Drop>(
    state: &ExecutorState<W, R>,
    departing: Departing<A>,
) -> Departed<A>
    ensures { result.actor ≡ actor_departing departing }
{
    let leaving = match departing {
        Departing::Awake(departed) => return departed,
        Departing::Asleep(leaving) => leaving,
    };
    let mut guard = sleepers!(state);
    let sleepers = &mut guard.sleepers;
    let (storing, change) = leaving.make(sleepers);
    let removed = state.store(change, sleepers);
    if let Some(notice) = unlock(guard, removed) {
        announce!(state, notice);
    }
    storing.stored()
}
