//! The form of the steps of a tick in which each waits for a reply.
//!
//! A `Waiting` is the step whose action was asked for last. It is told what came of that, and its
//! own call says what is asked next. Each action is one step on what is shared, or spends a value of
//! its own, so one that has a notice to spend goes through three: the notice, the pick that comes of
//! it, and the wakeup of that pick.
ghost use Rattle.std.specs.Prelude.{◌≡◌, ℕ, Bool, true, false, Option, is_none, IfNone, IfSome};
ghost use Rattle.async_executor.specs.Ticks.{answers, asked_of, asked_of_spending, store_after};
ghost use Rattle.async_executor.specs.Ticks.Replies.{actor_of, actor_after, departs, finds, passes_on, sleeps, spends, yields, has_left, is_last, is_ran, is_seeking, store_asked, ticker_after, EndsLast, KeepsCourse, RunsNone, Waits};
ghost use Rattle.async_executor.specs.Ticks.Rows.{IsOver, IsRowOf, IsSpent, kept_of};
ghost use Rattle.async_executor.specs.Ticks.Steps.{leads_from, may_lead_from};
ghost use Rattle.async_executor.specs.Ticks.Tickers.{ticker_of_waiting};

use crate::machine::steps;
use crate::machine::steps::{Departed, Departing, GoingToSleep, Rested, Yielding};
use Spending::{Exchanging, Notifying, Waking};
use TickAction::{Exchange, Insert, Notify, Remove, Search, Store, StoreRemoved, Update, Wake};
use TickEnd::{Park, Yield};
use TickReply::{
    Asleep, Empty, Exchanged, Found, Inserted, NoPlace, NoWaker, Notified, RemovedIt, Stored,
    StoredRemoved, Unknown, WasNotified, Woken,
};
use Waiting::{
    Announcing, Inserting, Leaving, PassingOn, Removing, Searching, Storing, StoringLeft,
    StoringRemoved, Updating,
};
use executor_core::sleepers::Removed;
use executor_core::task::{Again, Change, Notice, Pick, Taken, Wakeup};

/// What a tick asks for next. Each action is one step on what is shared, or spends a value of its
/// own.
pub enum TickAction<W> {
    /// Take the task that was scheduled first.
    Search(Option<Again>),
    /// Put a copy of the waker of who polls at the end of the list of sleepers.
    Insert,
    /// Give the sleeper of this number a copy of the waker of who polls.
    Update(usize),
    /// Store the flag: the list was changed by going to sleep.
    Store(Change<Again>),
    /// Take the sleeper of this number out of the list.
    Remove(usize),
    /// Store the flag: the list was changed by the removal.
    StoreRemoved(Change<Removed<W>>),
    /// Exchange the flag.
    Exchange(Notice),
    /// Notify a sleeper.
    Notify(Pick),
    /// Wake the sleeper that was notified.
    Wake(Wakeup<W>),
    /// Poll the future of the task once, or drop it if the task was cancelled.
    Run(Taken<()>),
}

/// What came of the action that was asked for last, or, at a rest, what is to be done.
pub enum TickReply<W> {
    /// The tick is polled.
    Begin,
    /// The tick is dropped.
    Dropped,
    /// A task was taken.
    Found(Taken<()>, Notice),
    /// No task is scheduled.
    Empty,
    /// The copy of the waker was refused.
    NoWaker,
    /// No reserved place was free.
    NoPlace,
    /// The waker stands in the list, under this number.
    Inserted(usize, Change<Again>),
    /// The sleeper was not notified, and sleeps on with the new waker.
    Asleep,
    /// The sleeper was notified, and stands in the list again.
    WasNotified(Change<Again>),
    /// No sleeper has the number.
    Unknown,
    /// The flag was stored after going to sleep.
    Stored(Again),
    /// The sleeper was taken out of the list.
    RemovedIt(Change<Removed<W>>),
    // Without the waker, whose drop runs code of the caller's: who made the removal drops it, once the
    // lock is given up.
    /// The flag was stored after the removal, which gave the notice if the sleeper was notified.
    StoredRemoved(Option<Notice>),
    /// The flag was exchanged, and gave the pick if somebody is to be notified.
    Exchanged(Option<Pick>),
    /// A sleeper was notified, if there was one to notify.
    Notified(Option<Wakeup<W>>),
    /// The sleeper was woken.
    Woken,
    /// The task was run.
    Ran,
}

/// How a poll or the drop of a tick or a run ends.
#[derive(Debug, Clone, Copy, PartialEq, Eq)]
pub enum TickEnd {
    /// The tick sleeps: the poll answers `Pending`.
    Park,
    /// The tick could not go to sleep: the waker of who polls is woken, and the poll answers
    /// `Pending`.
    Yield,
    /// The tick has ended: the poll answers `Ready`.
    Return,
}

/// The step whose action was asked for last.
pub(in crate::machine) enum Waiting<A> {
    Searching(steps::Searching<A>),
    Inserting(steps::Inserting<A>),
    Updating(steps::Updating<A>),
    Storing(steps::Storing<A>),
    Removing(steps::Removing<A>),
    StoringRemoved(steps::StoringRemoved<A>),
    Announcing(Spending, steps::Announcing<A>),
    Leaving(steps::Leaving<A>),
    StoringLeft(steps::StoringLeft<A>),
    PassingOn(Spending, Departed<A>),
}

/// How far a notice is spent: the flag has it, the list has the pick that came of it, or the wakeup
/// of that is due.
#[derive(Clone, Copy)]
pub(in crate::machine) enum Spending {
    Exchanging,
    Notifying,
    Waking,
}

/// What comes of a reply.
pub(in crate::machine) enum Came<A, W> {
    /// This action is asked for, and the step waits for its reply.
    Act(Waiting<A>, TickAction<W>),
    /// The poll answers pending.
    Rest(Rested<A>, TickEnd),
    /// A task is to be run.
    Run(steps::Running<A>),
    /// It has left the sleepers, and nothing is left to spend.
    End(Departed<A>),
}

// A task was found: the step that waits for a reply next, and its action.
#[inline(always)]
fn find<A, W>(found: steps::Found<A>) -> Came<A, W>
    ensures { result ≡ finds found }
{
    match found {
        steps::Found::Awake(announcing, notice) => {
            Came::Act(Announcing(Exchanging, announcing), Exchange(notice))
        }
        steps::Found::Asleep(removing) => {
            let number = removing.number;
            Came::Act(Removing(removing), Remove(number))
        }
    }
}

// No task was found: the step that waits for a reply next, and its action.
#[inline(always)]
fn go_to_sleep<A, W>(going: GoingToSleep<A>) -> Came<A, W>
    ensures { result ≡ sleeps going }
{
    match going {
        GoingToSleep::Insert(inserting) => Came::Act(Inserting(inserting), Insert),
        GoingToSleep::Update(updating) => {
            let number = updating.number;
            Came::Act(Updating(updating), Update(number))
        }
    }
}

// It could not go to sleep: no step waits for a reply.
#[inline(always)]
fn yield_now<A, W>(yielding: Yielding<A>) -> Came<A, W>
    ensures { result ≡ yields yielding }
{
    Came::Rest(yielding.yielded(), Yield)
}

/// It leaves the sleepers, and waits for a reply, if it has a number.
#[inline(always)]
pub(in crate::machine) fn depart<A, W>(departing: Departing<A>) -> Came<A, W>
    ensures { result ≡ departs departing }
{
    match departing {
        Departing::Awake(departed) => Came::End(departed),
        Departing::Asleep(leaving) => {
            let number = leaving.number;
            Came::Act(Leaving(leaving), Remove(number))
        }
    }
}

// It has left, and waits for replies until what it was notified of is spent.
#[inline(always)]
fn pass_on<A, W>(departed: Departed<A>, notified: Option<Notice>) -> Came<A, W>
    ensures step { result ≡ passes_on departed notified }
    ensures ends { has_left result ≡ is_none notified }
{
    match notified {
        Some(notice) => Came::Act(PassingOn(Exchanging, departed), Exchange(notice)),
        None => Came::End(departed),
    }
}

impl Spending {
    /// What a step that spends its notice asks next, or nothing once the notice is spent.
    #[inline(always)]
    pub(in crate::machine) fn next<W>(
        self,
        reply: TickReply<W>,
    ) -> Option<(Spending, TickAction<W>)>
        requires { answers (asked_of_spending self) reply ≡ true }
        ensures step { result ≡ spends reply }
        ensures row { IfSome result (λ next. IsSpent (asked_of_spending self) reply next.1) }
        ensures over { IfNone result (IsOver (asked_of_spending self) reply) }
        ensures goes_on { is_ran reply ≡ false }
        ensures ends { is_none result ≡ is_last reply }
    {
        match reply {
            Exchanged(Some(pick)) => Some((Notifying, Notify(pick))),
            Notified(Some(wakeup)) => Some((Waking, Wake(wakeup))),
            Exchanged(None) | Notified(None) | Woken => None,
            _ => unreachable!(),
        }
    }
}

impl<A> Waiting<A> {
    /// What comes after the reply that this step waits for, which has to answer the last action.
    #[inline(always)]
    pub(in crate::machine) fn next<W>(self, reply: TickReply<W>) -> Came<A, W>
        requires { answers (asked_of self) reply ≡ true }
        ensures actor { actor_after result ≡ actor_of self }
        ensures asked { Waits result }
        ensures none { RunsNone result }
        ensures goes_on { is_ran reply ≡ false }
        ensures course { KeepsCourse (is_seeking self) result }
        ensures ends { EndsLast self reply result }
        ensures store { store_asked result ≡ store_after reply }
        ensures ticker { (runner : Option ℕ) (notified : Bool)
            → ticker_after runner result
            ≡ leads_from self reply (ticker_of_waiting runner notified self) }
        ensures enabled { (runner : Option ℕ) (notified : Bool)
            → may_lead_from self reply (ticker_of_waiting runner notified self) ≡ true }
        ensures table { IsRowOf (asked_of self) (kept_of self) reply result }
    {
        match self {
            Searching(searching) => match reply {
                Found(taken, notice) => find(searching.found(taken, notice)),
                Empty => go_to_sleep(searching.empty()),
                _ => unreachable!(),
            },
            Inserting(inserting) => match reply {
                NoWaker | NoPlace => yield_now(inserting.refused()),
                Inserted(number, change) => {
                    Came::Act(Storing(inserting.inserted(number)), Store(change))
                }
                _ => unreachable!(),
            },
            Updating(updating) => match reply {
                NoWaker | Unknown => yield_now(updating.refused()),
                Asleep => Came::Rest(updating.asleep(), Park),
                WasNotified(change) => Came::Act(Storing(updating.was_notified()), Store(change)),
                _ => unreachable!(),
            },
            Storing(storing) => match reply {
                Stored(again) => {
                    let (searching, again) = storing.stored(again);
                    Came::Act(Searching(searching), Search(Some(again)))
                }
                _ => unreachable!(),
            },
            Removing(removing) => match reply {
                RemovedIt(change) => {
                    Came::Act(StoringRemoved(removing.removed()), StoreRemoved(change))
                }
                _ => unreachable!(),
            },
            StoringRemoved(storing) => match reply {
                StoredRemoved(notified) => {
                    let (announcing, notice) = storing.stored(notified);
                    Came::Act(Announcing(Exchanging, announcing), Exchange(notice))
                }
                _ => unreachable!(),
            },
            Announcing(spending, announcing) => match spending.next(reply) {
                Some((spending, action)) => Came::Act(Announcing(spending, announcing), action),
                None => Came::Run(announcing.announced()),
            },
            Leaving(leaving) => match reply {
                RemovedIt(change) => Came::Act(
                    StoringLeft(leaving.removed()),
                    StoreRemoved(change),
                ),
                _ => unreachable!(),
            },
            StoringLeft(storing) => match reply {
                StoredRemoved(notified) => pass_on(storing.stored(), notified),
                _ => unreachable!(),
            },
            PassingOn(spending, departed) => match spending.next(reply) {
                Some((spending, action)) => Came::Act(PassingOn(spending, departed), action),
                None => Came::End(departed),
            },
        }
    }
}
