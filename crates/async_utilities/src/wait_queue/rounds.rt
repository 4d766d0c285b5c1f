//! Those who wait in rounds: a call begins a round, and tells those who came before it, one after
//! another, and nobody who comes later.
//!
//! So each of them is woken without the lock, and one that is woken and comes again at once is not told
//! by the same call. Who comes bears the number of its round. The numbers are only compared with that of
//! the round under way, so it does no harm if they begin anew.
ghost use Rattle.std.specs.Prelude.{◌≡◌, ◌+◌, ◌++◌, ◌∷◌, ◌^◌, ◌%◌, [], IfErr, IfOk, None, OnErr, Option, Some};
ghost use Rattle.async_utilities.specs.Rounds.{Comes, Tells, WaitsOn, due_first, waker_in_entry};
ghost use Rattle.async_utilities.specs.WaitQueue.{Parts, Stays, Steps, due_to, is_notified, place_at, waker_of};

use crate::due::Due;
use crate::wait_queue::WaitQueue;
use std::alloc::{AllocError, Global};

/// One that came in a round. It has no waker until it is polled.
#[derive(Drop)]
pub(crate) struct Entry<W> {
    pub(crate) round: u64,
    pub(crate) waker: Option<W>,
}

/// Who waits, first to last, and the number of the round under way.
#[derive(Drop)]
pub(crate) struct Rounds<W> {
    pub(crate) round: u64,
    pub(crate) waiters: WaitQueue<Entry<W>>,
}

/// What comes of one that is told.
pub(crate) enum Told<W> {
    /// Nobody waits who came in an earlier round.
    Nobody,
    /// One was told, and is to be woken if it has a waker.
    One(Due<W>),
}

/// What is left of one that gave its place back.
pub(crate) struct Parted<W> {
    /// Its waker, if it waited.
    pub(crate) waker: Option<W>,
    /// Whether it was told, and did not come.
    pub(crate) was_told: bool,
}

// Whom to wake of an entry of `Rounds` that was told.
fn due_of<W>(entry: Due<Entry<W>>) -> Due<W>
    ensures { (e : Option (Entry W)) → entry ≡ due_to e → result ≡ due_to (waker_in_entry e) }
{
    match entry {
        Due::Nobody => Due::Nobody,
        Due::One(Entry { round: _, waker }) => match waker {
            Some(waker) => Due::One(waker),
            None => Due::Nobody,
        },
    }
}

impl<W: Drop> Rounds<W> {
    /// Rounds in which nobody waits.
    pub(crate) fn new(alloc: Global) -> Rounds<W>
        ensures { result.waiters.waiting ≡ [] }
    {
        Rounds {
            round: 0,
            waiters: WaitQueue::new(alloc),
        }
    }

    // One comes in the round under way, behind all others, maybe with a waker.
    fn add(&mut self, waker: Option<W>) -> Result<usize, Option<W>>
        ensures came { IfOk result (λ place. Comes self.old waker place self.new) }
        ensures refused { OnErr result (Stays self.old.waiters self.new.waiters) }
        ensures back { IfErr result (λ back. back ≡ waker) }
        ensures round { self.new.round ≡ self.old.round }
    {
        let entry = Entry {
            round: self.round,
            waker,
        };
        match self.waiters.enter(None, entry) {
            Ok((place, unused)) => {
                drop(unused);
                Ok(place)
            }
            Err(Entry { round: _, waker }) => Err(waker),
        }
    }

    /// One comes in the round under way, behind all others, and has no waker yet. Gives its place.
    pub(crate) fn listen(&mut self) -> Result<usize, AllocError>
        ensures came { IfOk result (λ place. Comes self.old None place self.new) }
        ensures refused { OnErr result (Stays self.old.waiters self.new.waiters) }
        ensures round { self.new.round ≡ self.old.round }
    {
        match self.add(None) {
            Ok(place) => Ok(place),
            Err(_) => Err(AllocError),
        }
    }

    /// One comes in the round under way, behind all others, and waits with this waker. Gives its place,
    /// or the waker if there is no memory for one.
    pub(crate) fn enter(&mut self, waker: W) -> Result<usize, W>
        ensures came { IfOk result (λ place. Comes self.old (Some waker) place self.new) }
        ensures refused { OnErr result (Stays self.old.waiters self.new.waiters) }
        ensures back { IfErr result (λ back. back ≡ waker) }
        ensures round { self.new.round ≡ self.old.round }
    {
        match self.add(Some(waker)) {
            Ok(place) => Ok(place),
            Err(Some(waker)) => Err(waker),
            Err(None) => unreachable!(),
        }
    }

    /// Whether the one at this place of the rounds was told, and has not come yet.
    pub(crate) fn is_told(&self, place: usize) -> bool
        ensures { result ≡ is_notified (place_at self.now.waiters place) }
    {
        self.waiters.is_notified(place)
    }

    /// Leaves a waker at a place, whose turn and whose round stay. Gives what is not kept: an earlier
    /// waker, or this one if nobody waits there.
    pub(crate) fn wait(&mut self, place: usize, waker: W) -> Option<W>
        ensures { WaitsOn self.old place waker result self.new }
    {
        let Some(&Entry { round, waker: _ }) = self.waiters.waiting_at(place) else {
            return Some(waker);
        };
        let entry = Entry {
            round,
            waker: Some(waker),
        };
        match self.waiters.wait(place, entry) {
            Some(Entry { round: _, waker }) => waker,
            None => None,
        }
    }

    /// Begins a round.
    pub(crate) fn begin(&mut self)
        ensures round { self.new.round ≡ (self.old.round + 1) % 2 ^ 64 }
        ensures stays { self.new.waiters ≡ self.old.waiters }
    {
        self.round = self.round.wrapping_add(1);
    }

    /// Tells the first one that waits, if it came in an earlier round.
    pub(crate) fn tell(&mut self) -> Told<W>
        ensures tells { Tells self.old result self.new }
        ensures round { self.new.round ≡ self.old.round }
    {
        match self.waiters.peek() {
            Some(first) if first.round != self.round => Told::One(due_of(self.waiters.first())),
            _ => Told::Nobody,
        }
    }

    /// Tells the first one that waits, in whichever round it came.
    pub(crate) fn tell_any(&mut self) -> Due<W>
        ensures due { result ≡ due_first self.old.waiters }
        ensures steps { Steps self.old.waiters self.new.waiters self.old.waiters.waiting }
        ensures round { self.new.round ≡ self.old.round }
    {
        due_of(self.waiters.first())
    }

    /// Gives a place of the rounds back.
    pub(crate) fn leave(&mut self, place: usize) -> Parted<W>
        ensures waker { result.waker ≡ waker_in_entry (waker_of (place_at self.old.waiters place)) }
        ensures told { result.was_told ≡ is_notified (place_at self.old.waiters place) }
        ensures leaves { Parts self.old.waiters place self.new.waiters }
        ensures round { self.new.round ≡ self.old.round }
    {
        let was_told = self.is_told(place);
        let waker = match self.waiters.leave(place) {
            Some(Entry { round: _, waker }) => waker,
            None => None,
        };
        Parted { waker, was_told }
    }
}
