//! A sleeper: one who may sleep with several executors, and runs no task while it does.
//!
//! An executor has at most one sleeper that is notified, and wakes no other until that one has searched
//! or left. So who sleeps with several executors leaves all of them before it runs a task: else what
//! happens in one executor would wait for the poll of a task of another one.
//!
//! ```text
//!           ┌──────────────────────── leave ─────────────────────────┐
//!           ▼                                                        │
//!  ──▶   awake  ── copy the waker ── insert ── store ── look ── empty: asleep
//!         ▲  │                                           │
//!         │  └── search: what it was notified of         │
//!         │      is spent by that                        │
//!         └──────────────── found: leave ────────────────┘
//! ```
//!
//! Since it leaves before it searches, what it was notified of must not get lost in between. It keeps the
//! `Notice` until its next search spends it. If it is dropped before that, it passes the notice on, and
//! another sleeper may be woken in its place. The same holds of a task that it saw and did not take. A
//! `Notice` can be neither copied nor dropped, so a path that forgets one does not compile.
ghost use Rattle.std.specs.Prelude.{◌≡◌, None, true, is_some, IfOk, MatchResult};

use crate::futures::Storage;
use crate::futures::transactions::AnyTask;
use crate::scheduler::ExecutorIn;
use crate::state::{ExecutorState, announce, cells, sleepers};
use executor_core::sleepers::Removed;
use executor_core::task::{Again, Notice, OutOfMemory, Wake};
use std::sync::Wait;

/// A sleeper of an executor, which it borrows.
pub struct SleeperIn<'a, S: Storage> {
    executor: &'a ExecutorIn<S>,
    // Under which it sleeps. One that is awake has none.
    number: Option<usize>,
    // What it was notified of, or saw, until it searches.
    notice: Option<Notice>,
}

// Takes the `SleeperIn` of this number out of the list, and stores the flag before the list's lock is given
// up. There is a notice if it was notified.
fn remove<W: Wake, R: Wait + Drop>(state: &ExecutorState<W, R>, number: usize) -> Option<Notice> {
    let mut guard = sleepers!(state);
    let sleepers = &mut guard.sleepers;
    let change = sleepers.remove(number);
    let Removed { notice, waker } = state.store(change, sleepers);
    drop(guard);
    drop(waker);
    notice
}

// Puts the waker of a `SleeperIn` at the end of the list, and stores the flag. It comes back if no reserved
// place is free.
fn insert<W: Wake, R: Wait + Drop>(
    state: &ExecutorState<W, R>,
    waker: W,
) -> Result<(usize, Again), W> {
    let mut guard = sleepers!(state);
    let sleepers = &mut guard.sleepers;
    match sleepers.insert(waker) {
        Ok((number, change)) => Ok((number, state.store(change, sleepers))),
        Err(waker) => Err(waker),
    }
}

impl<S: Storage> ExecutorIn<S> {
    /// `Executor::sleeper`, for both kinds of storage: one that is awake, whose place is reserved here.
    pub(crate) fn sleeper(&self) -> Result<SleeperIn<'_, S>, OutOfMemory>
        ensures awake { IfOk result (λ sleeper. sleeper.number ≡ None) }
        ensures own { IfOk result (λ sleeper. sleeper.executor.now ≡ self.now) }
    {
        self.storage.state().reserve_sleeper()?;
        Ok(SleeperIn::new(self))
    }
}

impl<'a, S: Storage> SleeperIn<'a, S> {
    // A `SleeperIn` that is awake. It has a reserved place among the sleepers.
    fn new(executor: &'a ExecutorIn<S>) -> SleeperIn<'a, S>
        ensures awake { result.number ≡ None }
        ensures own { result.executor.now ≡ executor.now }
    {
        SleeperIn {
            executor,
            number: None,
            notice: None,
        }
    }
}

impl<S: Storage> SleeperIn<'_, S> {
    /// `Sleeper::sleep`, for both kinds of storage: puts a copy of the waker into the list, and looks for a
    /// task after that.
    pub(crate) fn sleep(&mut self, w: &S::Waker) -> Result<bool, OutOfMemory>
        ensures asleep { MatchResult result
            (λ asleep. is_some self.new.number ≡ asleep) (λ _. self.new.number ≡ None) }
    {
        self.leave();
        let waker = w.copy()?;
        let state = self.executor.storage.state();
        let Ok((number, again)) = insert(state, waker) else {
            return Err(OutOfMemory);
        };
        self.number = Some(number);
        // What it was notified of before is looked for by this too.
        let again = match self.notice.take() {
            Some(notice) => notice.join(again.pass_on()).act_on(),
            None => again,
        };
        if !self.look_at_all(Some(again)) {
            return Ok(true);
        }
        // A task that was queued before the waker stood in the list woke nobody for it.
        self.leave();
        Ok(false)
    }

    // Looks at all queues, by which no notice is left to answer, and says whether a task stands in one: then
    // it owes a search.
    fn look_at_all(&mut self, again: Option<Again>) -> bool
        requires { self.old.notice ≡ None }
        ensures number { self.new.number ≡ self.old.number }
        ensures told { result ≡ is_some self.new.notice }
    {
        let looked = cells!(self.executor.storage.state()).look(again);
        let Some(again) = looked else {
            return false;
        };
        self.keep(again.pass_on());
        true
    }

    // What the sleeper owes a search for.
    fn take_again(&mut self) -> Option<Again>
        ensures number { self.new.number ≡ self.old.number }
        ensures spent { self.new.notice ≡ None }
    {
        match self.notice.take() {
            Some(notice) => Some(notice.act_on()),
            None => None,
        }
    }

    /// `Sleeper::look`, for both kinds of storage: leaves the sleepers, and says whether a task stands in any
    /// queue: then it owes a search.
    pub(crate) fn look(&mut self) -> bool
        ensures awake { self.new.number ≡ None }
        ensures told { result ≡ is_some self.new.notice }
    {
        self.leave();
        let again = self.take_again();
        self.look_at_all(again)
    }

    /// `Sleeper::leave`, for both kinds of storage: leaves the sleepers, and says whether it owes a search.
    pub(crate) fn leave(&mut self) -> bool
        ensures awake { self.new.number ≡ None }
        ensures told { result ≡ is_some self.new.notice }
    {
        let Some(number) = self.number.take() else {
            return self.notice.is_some();
        };
        // Not passed on at once: each would wake the next, since each leaves as soon as it is woken.
        if let Some(notice) = remove(self.executor.storage.state(), number) {
            self.keep(notice);
        }
        self.notice.is_some()
    }

    // Keeps a notice in a `SleeperIn`, with one that it has.
    fn keep(&mut self, notice: Notice)
        ensures number { self.new.number ≡ self.old.number }
        ensures kept { is_some self.new.notice ≡ true }
    {
        let kept = match self.notice.take() {
            Some(before) => before.join(notice),
            None => notice,
        };
        match self.notice.replace(kept) {
            None => {}
            Some(_) => unreachable!(),
        }
    }

    /// `Sleeper::pass_on`, for both kinds of storage: leaves the sleepers, and passes on what it was notified
    /// of, or saw.
    pub(crate) fn pass_on(&mut self)
        ensures awake { self.new.number ≡ None }
        ensures spent { self.new.notice ≡ None }
    {
        self.leave();
        if let Some(notice) = self.notice.take() {
            announce!(self.executor.storage.state(), notice);
        }
    }

    /// `Sleeper::try_tick_any`, for both kinds of storage: leaves the sleepers, and runs a task of any queue,
    /// if there is one. That is the search which it owes.
    pub(crate) fn try_tick_any(&mut self) -> bool
        ensures awake { self.new.number ≡ None }
        ensures spent { self.new.notice ≡ None }
    {
        let found = self.search();
        self.executor.run_found(found)
    }

    /// `Sleeper::help`, for both kinds of storage: the same, and if there was a task, it runs up to so many
    /// more.
    pub(crate) fn help(&mut self, more: u32) -> bool
        ensures awake { self.new.number ≡ None }
        ensures spent { self.new.notice ≡ None }
    {
        match self.search() {
            Some(first) => {
                self.executor.run_on(first, more);
                true
            }
            None => false,
        }
    }

    // Leaves the sleepers, and takes a task of any queue.
    #[inline(always)]
    fn search(&mut self) -> Option<AnyTask>
        ensures awake { self.new.number ≡ None }
        ensures spent { self.new.notice ≡ None }
    {
        self.leave();
        let again = self.take_again();
        cells!(self.executor.storage.state()).take_any(again)
    }
}

impl<S: Storage> Drop for SleeperIn<'_, S> {
    fn drop(self) {
        let SleeperIn {
            executor,
            number,
            notice,
        } = self;
        let state = executor.storage.state();
        if let Some(number) = number {
            if let Some(notice) = remove(state, number) {
                announce!(state, notice);
            }
        }
        if let Some(notice) = notice {
            announce!(state, notice);
        }
        state.release_sleeper();
    }
}
