//! The deadlines of a timer, which stand under its lock.
ghost use Rattle.std.specs.Prelude.{◌≡◌, ◌<◌, ◌≤◌, ◌↔◌, max, Some, None, IsSome, IfSome, IfOk, IfErr, OnErr, OnOk, IsOk, false};
ghost use Rattle.std.specs.BTreeMap.{get, Updates, ContainsKey, IsUnchanged, IsEmpty};
ghost use Rattle.async_utilities.specs.Deadlines.{AreAfter, IsFirst, IsFresh, IsLeft, by_time, fired};
ghost use Rattle.async_utilities.specs.Deadlines.{is_fired, is_nearer, left_by, news_of};
ghost use Rattle.async_utilities.specs.Times.{time_of};

use crate::due::Due;
use crate::timers::reading::Reading;
use std::alloc::Global;
use std::collections::BTreeMap;

/// A time, in nanoseconds since the start of the clock, and a number, which no other deadline of the
/// same timer has. The earlier one comes first, and of two at one time the one that was set first.
#[derive(Clone, Copy, Debug, PartialEq, Eq, PartialOrd, Ord, Hash)]
pub(crate) struct Deadline {
    // 584 years of them. A later time never comes, so there is no error for it.
    pub(crate) nanos: u64,
    pub(crate) number: u64,
}

/// What came of the first deadline.
pub(crate) enum Fired<W> {
    /// It was reached. It is gone, and this waker is to be woken.
    One(Due<W>),
    /// It is still to come, at this time, or there is none.
    Rest(Option<u64>),
}

/// Whether a deadline comes before all that were there. It cannot be dropped: `Drivers::tell` is its
/// one end.
pub(crate) enum News {
    Nearer,
    NoNearer,
}

impl News {
    fn of(is_nearer: bool) -> News
        ensures { result ≡ news_of is_nearer }
    {
        if is_nearer {
            News::Nearer
        } else {
            News::NoNearer
        }
    }
}

/// The deadlines that somebody waits for, each until it is fired or removed, with the waker that was
/// left there, and the latest time that the clock was read at.
#[derive(Drop)]
pub(crate) struct Deadlines<W> {
    // Setting, firing and removing are each O(log n), and its model is the list in order. A heap would
    // keep what was removed.
    waiting: BTreeMap<Deadline, W, Global>,
    // A clock may go back. A future whose deadline was fired stands here no more, and must be ready all
    // the same.
    latest: Reading,
    next_number: u64,
    ghost fresh: { IsFresh waiting next_number },
}

impl<W: Drop> Deadlines<W> {
    /// The deadlines of a new timer: none, at this time.
    pub(crate) fn new(alloc: Global, now: Reading) -> Deadlines<W>
        ensures none { IsEmpty result.waiting }
        ensures latest { result.latest ≡ now }
    {
        Deadlines {
            waiting: BTreeMap::new(alloc),
            latest: now,
            next_number: 0,
        }
    }

    /// Tells the deadlines that the clock was read at this time. A time before the latest one counts as
    /// that. Gives the latest.
    pub(crate) fn advance(&mut self, now: Reading) -> Reading
        ensures latest { time_of self.new.latest ≡ max (time_of self.old.latest) (time_of now) }
        ensures result { result ≡ self.new.latest }
        ensures waiting { self.new.waiting ≡ self.old.waiting }
    {
        self.latest = self.latest.later(now);
        self.latest
    }

    /// The latest time that the deadlines were told, if it has reached this one.
    pub(crate) fn reached(&self, nanos: u64) -> Option<Reading>
        ensures reached { IsSome result ↔ (nanos ≤ time_of self.now.latest) }
        ensures latest { IfSome result (λ now. now ≡ self.now.latest) }
    {
        if u128::from(nanos) <= self.latest.nanos() {
            Some(self.latest)
        } else {
            None
        }
    }

    // Whether a time is before all deadlines that are there.
    fn is_nearer(&self, nanos: u64) -> bool
        ensures { result ≡ is_nearer nanos self.now.waiting.entries }
    {
        match self.waiting.first_key_value() {
            Some((first, _)) => nanos < first.nanos,
            None => true,
        }
    }

    /// Sets a deadline at this time, with a waker. If memory is refused, the waker comes back.
    pub(crate) fn set(&mut self, nanos: u64, waker: W) -> Result<(Deadline, News), W>
        ensures free { IfOk result (λ set. get by_time self.old.waiting set.0 ≡ None) }
        ensures set { IfOk result (λ set. IsLeft self.old.waiting self.new.waiting set.0 waker) }
        ensures time { IfOk result (λ set. set.0.nanos ≡ nanos) }
        ensures news { IfOk result (λ s. s.1 ≡ news_of (is_nearer nanos self.old.waiting.entries)) }
        ensures refused { IfErr result (λ back. back ≡ waker) }
        ensures unchanged { OnErr result (IsUnchanged self.old.waiting self.new.waiting) }
        ensures latest { self.new.latest ≡ self.old.latest }
    {
        let number = self.next_number;
        let Some(next) = number.checked_add(1) else {
            return Err(waker);
        };
        let deadline = Deadline { nanos, number };
        let is_nearer = self.is_nearer(nanos);
        match self.waiting.insert(deadline, waker) {
            Ok(_) => {
                self.next_number = next;
                Ok((deadline, News::of(is_nearer)))
            }
            Err(failed) => Err(failed.value.1),
        }
    }

    /// Leaves a waker at a deadline, in place of the earlier one, which comes back. If the deadline is
    /// gone, this one does.
    pub(crate) fn leave(&mut self, deadline: Deadline, waker: W) -> Result<W, W>
        ensures earlier { IfOk result (λ w. get by_time self.old.waiting deadline ≡ Some w) }
        ensures left { OnOk result (IsLeft self.old.waiting self.new.waiting deadline waker) }
        ensures gone { IfErr result (λ back. back ≡ waker) }
        ensures unchanged { OnErr result (IsUnchanged self.old.waiting self.new.waiting) }
        ensures variant { IsOk result ↔ ContainsKey by_time self.old.waiting deadline }
        ensures latest { self.new.latest ≡ self.old.latest }
    {
        match self.waiting.get_mut(&deadline) {
            Some(kept) => Ok(std::mem::replace(kept, waker)),
            None => Err(waker),
        }
    }

    /// Removes a deadline, and gives the waker that was left there, if it is not gone.
    pub(crate) fn remove(&mut self, deadline: Deadline) -> Option<W>
        ensures removed { Updates by_time self.old.waiting self.new.waiting deadline None }
        ensures waker { result ≡ get by_time self.old.waiting deadline }
        ensures latest { self.new.latest ≡ self.old.latest }
    {
        self.waiting.remove(&deadline)
    }

    /// Takes the first deadline, if the latest time has reached it, with the waker that was left there.
    pub(crate) fn fire(&mut self) -> Fired<W>
        ensures answer { result ≡ fired (time_of self.old.latest) self.old.waiting.entries }
        ensures taken { self.new.waiting.entries ≡ left_by result self.old.waiting.entries }
        ensures earliest { IsFirst self.old.waiting }
        ensures rest { is_fired result ≡ false → AreAfter self.old.latest self.new.waiting }
        ensures latest { self.new.latest ≡ self.old.latest }
    {
        match self.waiting.first_key_value() {
            None => return Fired::Rest(None),
            Some((first, _)) if self.latest.nanos() < u128::from(first.nanos) => {
                return Fired::Rest(Some(first.nanos));
            }
            Some(_) => {}
        }
        match self.waiting.pop_first() {
            Some((_, waker)) => Fired::One(Due::One(waker)),
            None => unreachable!(),
        }
    }
}
