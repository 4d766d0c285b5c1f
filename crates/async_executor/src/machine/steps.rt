//! The steps of a tick, each a value that must be spent.
//!
//! A run takes the same steps between two polls of its own future. A is the actor: `Alone` for a tick,
//! which ends with its task, and `Runner` for a run.
//!
//! | step | what its holder does | what comes next |
//! |---|---|---|
//! | `Searching` | searches for a task | `Found`, or `GoingToSleep` |
//! | `Removing` | removes its number, since it has found a task | `StoringRemoved` |
//! | `StoringRemoved` | stores the flag | `Announcing`, with the notice |
//! | `Announcing` | spends the notice | `Running` |
//! | `Running` | runs the task | as A says |
//! | `GoingToSleep` | puts a copy of its waker into the list | `Storing`, `Rested` or `Yielding` |
//! | `Storing` | stores the flag | `Searching`, since a task may have come before the waker was there |
//! | `Yielding` | wakes the waker of who polls | `Rested` |
//! | `Rested` | answers pending | a poll begins anew |
//! | `Leaving` | removes its number, since it is dropped | `StoringLeft` |
//! | `StoringLeft` | stores the flag | `Departed` |
//! | `Departed` | has left the sleepers | it has ended |
//!
//! The clause `world` of a step says from which phase of a `World` it leads to which, and that the
//! world enables it there. A step on the list of sleepers makes its call itself, by `make`. What it
//! decides is a call of its own beside that, which a machine makes that is told the reply.
ghost use Rattle.std.specs.Prelude.{◌≡◌, false, true};
ghost use Rattle.executor_core.specs.Sleepers.{notified_number};
ghost use Rattle.executor_core.specs.Sleepers.Calls.{after_remove, remove_answer};
ghost use Rattle.executor_core.specs.World.Phases.{in_search, in_sleep, in_store};
ghost use Rattle.executor_core.specs.World.Tickers.{dropped, rested as rest, searched, slept, stored, woke};
ghost use Rattle.async_executor.specs.Steps.{IsFound, IsGoingToSleep, actor_going, after_going, departing, removed, sleeps_on, went};
ghost use Rattle.async_executor.specs.Steps.Tickers.{Leads, LeadsBy, LeadsOn, SleepsOn, Stays, GoesToSleep, may_leave, may_wake, of_announcing, of_departed, of_found, of_going, of_inserting, of_leaving, of_removing, of_rested, of_running, of_searching, of_storing, of_storing_left, of_storing_removed, of_updating, of_yielding};

use executor_core::sleepers::{Removed, Sleepers, Update};
use executor_core::task::{Again, Change, Notice, Taken, Wake};

/// To search for a task. One that is awake has the number 0, which no sleeper has.
pub(crate) struct Searching<A> {
    pub(in crate::machine) actor: A,
    pub(in crate::machine) number: usize,
}

impl<A> Searching<A> {
    /// A tick's step after `Searching`: a task was found, with the notice of its take.
    #[inline(always)]
    pub(crate) fn found(self, taken: Taken<()>, notice: Notice) -> Found<A>
        ensures found { IsFound self taken notice result }
        ensures world { Leads in_search (searched true) (of_searching self) (of_found result) }
    {
        let Searching { actor, number } = self;
        if number == 0 {
            return Found::Awake(Announcing { actor, taken }, notice);
        }
        Found::Asleep(Removing {
            actor,
            number,
            taken,
            notice,
        })
    }

    /// A tick's step after `Searching`: no task was found.
    #[inline(always)]
    pub(crate) fn empty(self) -> GoingToSleep<A>
        ensures going { IsGoingToSleep self result }
        ensures world { Leads in_search (searched false) (of_searching self) (of_going result) }
    {
        let Searching { actor, number } = self;
        // That the search was in vain is the driver's word. A task that was found comes with its notice.
        if number == 0 {
            return GoingToSleep::Insert(Inserting { actor });
        }
        GoingToSleep::Update(Updating { actor, number })
    }
}

/// A task was found.
pub(crate) enum Found<A> {
    /// The notice of its take is to be spent.
    Awake(Announcing<A>, Notice),
    /// The number is to be removed from the list before.
    Asleep(Removing<A>),
}

/// To remove its number from the list, since it has found a task.
pub(crate) struct Removing<A> {
    pub(in crate::machine) actor: A,
    pub(in crate::machine) number: usize,
    pub(in crate::machine) taken: Taken<()>,
    pub(in crate::machine) notice: Notice,
}

impl<A> Removing<A> {
    /// Takes a tick's step `Removing`: removes its number. The change leaves its waker, or a notice if it was
    /// notified. Which of both comes out at the store alone, so `world` holds for both.
    #[inline(always)]
    pub(crate) fn make<W>(
        self,
        sleepers: &mut Sleepers<W>,
    ) -> (StoringRemoved<A>, Change<Removed<W>>)
        requires { sleepers.old.is_open ≡ false }
        ensures list { sleepers.new ≡ after_remove sleepers.old self.number }
        ensures change { result.1 ≡ remove_answer sleepers.old self.number }
        ensures step { result.0 ≡ removed self }
        ensures world { LeadsBy may_wake woke (of_removing self) (of_storing_removed result.0) }
    {
        let change = sleepers.remove(self.number);
        (self.removed(), change)
    }

    /// The number was removed.
    #[inline(always)]
    pub(in crate::machine) fn removed(self) -> StoringRemoved<A>
        ensures { result ≡ removed self }
    {
        let Removing {
            actor,
            number: _,
            taken,
            notice,
        } = self;
        StoringRemoved {
            actor,
            taken,
            notice,
        }
    }
}

/// To store the flag, since the number was removed from the list.
pub(crate) struct StoringRemoved<A> {
    pub(in crate::machine) actor: A,
    pub(in crate::machine) taken: Taken<()>,
    pub(in crate::machine) notice: Notice,
}

impl<A> StoringRemoved<A> {
    /// A tick's step after `StoringRemoved`: the flag was stored, which gave a notice if the number was
    /// notified. Its holder acts on its task, and not on what it was notified of: that is passed on.
    #[inline(always)]
    pub(crate) fn stored(self, notified: Option<Notice>) -> (Announcing<A>, Notice)
        ensures step { result ≡ (record { actor = self.actor; taken = self.taken }, self.notice) }
        ensures world { LeadsOn in_store stored (of_storing_removed self) (of_announcing result.0) }
    {
        let StoringRemoved {
            actor,
            taken,
            notice,
        } = self;
        (Announcing { actor, taken }, joined(notice, notified))
    }
}

// The notices of the task that a tick found and of its removal, as one.
#[inline(always)]
fn joined(kept: Notice, notified: Option<Notice>) -> Notice
    ensures { result ≡ kept }
{
    match notified {
        Some(notice) => kept.join(notice),
        None => kept,
    }
}

/// To spend the notice of a task before the task is run: others may be queued behind it, and its
/// poll may take long.
pub(crate) struct Announcing<A> {
    pub(in crate::machine) actor: A,
    pub(in crate::machine) taken: Taken<()>,
}

impl<A> Announcing<A> {
    /// A tick's step after `Announcing`: the notice was spent, and the pick and the wakeup that came of it.
    #[inline(always)]
    pub(crate) fn announced(self) -> Running<A>
        ensures step { result ≡ record { actor = self.actor; taken = self.taken } }
        ensures world { Stays (of_announcing self) (of_running result) }
    {
        let Announcing { actor, taken } = self;
        Running { actor, taken }
    }
}

/// To run a task.
pub(crate) struct Running<A> {
    pub(in crate::machine) actor: A,
    pub(in crate::machine) taken: Taken<()>,
}

/// No task was found: to go to sleep.
pub(crate) enum GoingToSleep<A> {
    /// A copy of the waker of who polls goes to the end of the list, under a new number.
    Insert(Inserting<A>),
    /// It takes the place of the waker that its number has.
    Update(Updating<A>),
}

/// What came of going to sleep, and the waker that is to be dropped.
pub(crate) enum Went<A, W> {
    /// The list was changed, and the flag is to be stored.
    Storing(Storing<A>, Change<Again>),
    /// It was not notified, and sleeps on by another waker than this.
    Rested(Rested<A>, W),
    /// The list refused the waker.
    Yielding(Yielding<A>, W),
}

impl<A> GoingToSleep<A> {
    /// Takes a tick's step `GoingToSleep`: puts the waker into the list.
    #[inline(always)]
    pub(crate) fn make<W>(self, sleepers: &mut Sleepers<W>, waker: W) -> Went<A, W>
        requires { sleepers.old.is_open ≡ false }
        ensures list { sleepers.new ≡ after_going self sleepers.old waker }
        ensures went { result ≡ went self sleepers.old waker }
        ensures world { GoesToSleep (of_going self) result }
    {
        match self {
            GoingToSleep::Insert(inserting) => match sleepers.insert(waker) {
                Ok((number, change)) => Went::Storing(inserting.inserted(number), change),
                Err(refused) => Went::Yielding(inserting.refused(), refused),
            },
            GoingToSleep::Update(updating) => match sleepers.update(updating.number, waker) {
                Update::WasNotified(change) => Went::Storing(updating.was_notified(), change),
                Update::Asleep(before) => Went::Rested(updating.asleep(), before),
                Update::Unknown(refused) => Went::Yielding(updating.refused(), refused),
            },
        }
    }

    /// A tick's step after `GoingToSleep`: the copy of the waker was refused.
    #[inline(always)]
    pub(crate) fn refused(self) -> Yielding<A>
        ensures actor { result.actor ≡ actor_going self }
        ensures world { Stays (of_going self) (of_yielding result) }
    {
        match self {
            GoingToSleep::Insert(inserting) => inserting.refused(),
            GoingToSleep::Update(updating) => updating.refused(),
        }
    }
}

/// To go to sleep.
pub(crate) struct Inserting<A> {
    pub(in crate::machine) actor: A,
}

impl<A> Inserting<A> {
    /// A tick's step after `Inserting`: the waker stands in the list, under this number.
    #[inline(always)]
    pub(in crate::machine) fn inserted(self, number: usize) -> Storing<A>
        ensures step { result ≡ record { actor = self.actor; number = number } }
        ensures world { Leads in_sleep (slept number) (of_inserting self) (of_storing result) }
    {
        let Inserting { actor } = self;
        Storing { actor, number }
    }

    /// The copy was refused, or no reserved place was free.
    #[inline(always)]
    pub(in crate::machine) fn refused(self) -> Yielding<A>
        ensures step { result ≡ record { actor = self.actor; number = 0 } }
        ensures world { Stays (of_inserting self) (of_yielding result) }
    {
        let Inserting { actor } = self;
        Yielding { actor, number: 0 }
    }
}

/// To sleep on.
pub(crate) struct Updating<A> {
    pub(in crate::machine) actor: A,
    pub(in crate::machine) number: usize,
}

impl<A> Updating<A> {
    /// Takes a tick's step `Updating`: sleeps on by the waker that stands in the list, unless it was
    /// notified.
    #[inline(always)]
    pub(crate) fn sleep_on<W>(self, sleepers: &Sleepers<W>) -> Result<Rested<A>, Updating<A>>
        ensures step { result ≡ sleeps_on (notified_number sleepers.now) self }
        ensures world { SleepsOn self result }
    {
        if sleepers.notified() == self.number {
            return Err(self);
        }
        Ok(self.asleep())
    }

    /// A tick's step after `Updating`: it was not notified, and sleeps on.
    #[inline(always)]
    pub(in crate::machine) fn asleep(self) -> Rested<A>
        ensures step { result ≡ record { actor = self.actor; number = self.number } }
        ensures world { Leads in_sleep rest (of_updating self) (of_rested result) }
    {
        let Updating { actor, number } = self;
        Rested { actor, number }
    }

    /// A tick's step after `Updating`: it was notified, and stands in the list again.
    #[inline(always)]
    pub(in crate::machine) fn was_notified(self) -> Storing<A>
        ensures step { result ≡ record { actor = self.actor; number = self.number } }
        ensures world { Leads in_sleep (slept self.number) (of_updating self) (of_storing result) }
    {
        let Updating { actor, number } = self;
        Storing { actor, number }
    }

    /// A tick's step after `Updating`: the copy was refused, or no sleeper has the number.
    #[inline(always)]
    pub(in crate::machine) fn refused(self) -> Yielding<A>
        ensures step { result ≡ record { actor = self.actor; number = self.number } }
        ensures world { Stays (of_updating self) (of_yielding result) }
    {
        let Updating { actor, number } = self;
        Yielding { actor, number }
    }
}

/// To store the flag, since the list was changed.
pub(crate) struct Storing<A> {
    pub(in crate::machine) actor: A,
    pub(in crate::machine) number: usize,
}

impl<A> Storing<A> {
    /// A tick's step after `Storing`: the flag was stored. A task that was queued before the waker stood in
    /// the list has woken nobody, so a search comes next.
    #[inline(always)]
    pub(crate) fn stored(self, again: Again) -> (Searching<A>, Again)
        ensures step { result ≡ (record { actor = self.actor; number = self.number }, again) }
        ensures world { Leads in_store stored (of_storing self) (of_searching result.0) }
    {
        let Storing { actor, number } = self;
        (Searching { actor, number }, again)
    }
}

/// To wake the waker of who polls, since it could not go to sleep.
pub(crate) struct Yielding<A> {
    pub(in crate::machine) actor: A,
    pub(in crate::machine) number: usize,
}

impl<A> Yielding<A> {
    /// Takes a tick's step `Yielding`: wakes the waker. No lock may be held.
    #[inline(always)]
    pub(crate) fn wake<W: Wake>(self, w: &W) -> Rested<A>
        ensures step { result ≡ record { actor = self.actor; number = self.number } }
        ensures world { Leads in_sleep rest (of_yielding self) (of_rested result) }
    {
        w.wake();
        self.yielded()
    }

    /// A tick's step after `Yielding`: the waker was woken.
    #[inline(always)]
    pub(in crate::machine) fn yielded(self) -> Rested<A>
        ensures step { result ≡ record { actor = self.actor; number = self.number } }
        ensures world { Leads in_sleep rest (of_yielding self) (of_rested result) }
    {
        let Yielding { actor, number } = self;
        Rested { actor, number }
    }
}

/// To answer pending.
pub(crate) struct Rested<A> {
    pub(in crate::machine) actor: A,
    pub(in crate::machine) number: usize,
}

/// To leave the sleepers for good.
pub(crate) enum Departing<A> {
    /// It has no number, and has left.
    Awake(Departed<A>),
    /// Its number is to be removed from the list.
    Asleep(Leaving<A>),
}

impl<A> Departing<A> {
    // A tick's step `Departing`, by its number, or 0 if it has none.
    #[inline(always)]
    pub(in crate::machine) fn of(actor: A, number: usize) -> Departing<A>
        ensures { result ≡ departing actor number }
    {
        if number == 0 {
            return Departing::Awake(Departed { actor });
        }
        Departing::Asleep(Leaving { actor, number })
    }
}

/// To remove its number from the list, since it is dropped.
pub(crate) struct Leaving<A> {
    pub(in crate::machine) actor: A,
    pub(in crate::machine) number: usize,
}

impl<A> Leaving<A> {
    /// Takes a tick's step `Leaving`: removes its number. The change leaves its waker, or a notice if it was
    /// notified.
    #[inline(always)]
    pub(crate) fn make<W>(self, sleepers: &mut Sleepers<W>) -> (StoringLeft<A>, Change<Removed<W>>)
        requires { sleepers.old.is_open ≡ false }
        ensures list { sleepers.new ≡ after_remove sleepers.old self.number }
        ensures change { result.1 ≡ remove_answer sleepers.old self.number }
        ensures step { result.0 ≡ record { actor = self.actor } }
        ensures world { LeadsBy may_leave dropped (of_leaving self) (of_storing_left result.0) }
    {
        let change = sleepers.remove(self.number);
        (self.removed(), change)
    }

    /// The number was removed.
    #[inline(always)]
    pub(in crate::machine) fn removed(self) -> StoringLeft<A>
        ensures { result ≡ record { actor = self.actor } }
    {
        let Leaving { actor, number: _ } = self;
        StoringLeft { actor }
    }
}

/// To store the flag, since the number was removed from the list.
pub(crate) struct StoringLeft<A> {
    pub(in crate::machine) actor: A,
}

impl<A> StoringLeft<A> {
    /// A tick's step after `StoringLeft`: the flag was stored. What it gave if the number was notified is
    /// passed on.
    #[inline(always)]
    pub(crate) fn stored(self) -> Departed<A>
        ensures step { result ≡ record { actor = self.actor } }
        ensures world { LeadsOn in_store stored (of_storing_left self) (of_departed result) }
    {
        let StoringLeft { actor } = self;
        Departed { actor }
    }
}

/// It has left the sleepers.
pub(crate) struct Departed<A> {
    pub(in crate::machine) actor: A,
}
