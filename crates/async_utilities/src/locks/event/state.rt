//! What an event has under its lock: who listens, and the round that its last call began.
ghost use Rattle.std.specs.Prelude.{◌≡◌, [], IfOk, OnErr};
ghost use Rattle.async_utilities.specs.Rounds.{Comes};
ghost use Rattle.async_utilities.specs.WaitQueue.{Stays};

use crate::due::{Due, Left};
use crate::wait_queue::rounds::{Parted, Rounds};
use std::alloc::{AllocError, Global};

#[derive(Drop)]
pub(crate) struct State<W> {
    pub(crate) listeners: Rounds<W>,
}

impl<W: Drop> State<W> {
    ghost use Rattle.async_utilities.specs.Events.{Begins, Goes, Hears};

    /// The state of an event for which nobody listens.
    pub(crate) fn new(alloc: Global) -> State<W>
        ensures { result.listeners.waiters.waiting ≡ [] }
    {
        State {
            listeners: Rounds::new(alloc),
        }
    }

    /// Under the event's lock: one listens from now on. Gives its place.
    pub(crate) fn listen(&mut self) -> Result<usize, AllocError>
        ensures came { IfOk result (λ p. Comes self.old.listeners None p self.new.listeners) }
        ensures stays { OnErr result (Stays self.old.listeners.waiters self.new.listeners.waiters) }
        ensures round { self.new.listeners.round ≡ self.old.listeners.round }
    {
        self.listeners.listen()
    }

    /// Under the event's lock: whether the one at this place was told. If so, it gives its place back.
    pub(crate) fn hear(&mut self, place: usize) -> bool
        ensures { Hears self.old place result self.new }
    {
        if !self.listeners.is_told(place) {
            return false;
        }
        let Parted { waker, was_told } = self.listeners.leave(place);
        drop(waker);
        was_told
    }

    /// Under the event's lock: begins to tell: so many that listen now, or so many that those who were told
    /// before and did not come are counted too. Gives how many are to be told at most.
    pub(crate) fn begin(&mut self, count: usize, counts_told: bool) -> usize
        ensures { Begins self.old count counts_told result self.new }
    {
        self.listeners.begin();
        if counts_told {
            count.saturating_sub(self.listeners.waiters.notified())
        } else {
            count
        }
    }

    /// Under the event's lock: has one listen no longer. If it was told and did not hear of it, the next
    /// one is told.
    pub(crate) fn leave(&mut self, place: usize) -> Left<W>
        ensures { Goes self.old place result self.new }
    {
        let Parted { waker, was_told } = self.listeners.leave(place);
        let due = if was_told {
            self.listeners.tell_any()
        } else {
            Due::Nobody
        };
        Left { waker, due }
    }
}
