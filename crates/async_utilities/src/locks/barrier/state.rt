//! What a barrier has under its lock: how many have come in the round under way, and who waits.
ghost use Rattle.std.specs.Prelude.{◌≡◌, ◌==◌, ◌<◌, [], not};

use crate::wait_queue::rounds::{Parted, Rounds};
use std::alloc::Global;

/// Where one waits at a barrier, and in which round it came.
#[derive(Clone, Copy)]
pub(crate) struct Arrival {
    pub(crate) place: usize,
    pub(crate) round: u64,
}

/// Who waits, how many have come, and how many each round has.
#[derive(Drop)]
pub(crate) struct State<W> {
    pub(crate) size: usize,
    pub(crate) come: usize,
    pub(crate) waiters: Rounds<W>,
    ghost open: { come < size },
}

impl<W: Drop> State<W> {
    ghost use Rattle.async_utilities.specs.Barriers.{Arrives, Completes, Goes, WaitsStill};

    /// The state of a barrier to which nobody has come.
    pub(crate) fn new(alloc: Global, size: usize) -> State<W>
        requires { 0 < size }
        ensures size { result.size ≡ size }
        ensures nobody { (result.come ≡ 0) × (result.waiters.waiters.waiting ≡ []) }
    {
        State {
            size,
            come: 0,
            waiters: Rounds::new(alloc),
        }
    }

    /// Under the barrier's lock: ends the round, if one more is its last, and says whether it was.
    pub(crate) fn complete(&mut self) -> bool
        ensures { Completes self.old result self.new }
    {
        if self.size - self.come > 1 {
            return false;
        }
        self.come = 0;
        self.waiters.begin();
        true
    }

    /// Under the barrier's lock: one comes, which is not the last of its round, and waits with this waker.
    /// If it is the last, or there is no memory for its place, the waker comes back, and is to be woken.
    pub(crate) fn arrive(&mut self, waker: W) -> Result<Arrival, W>
        ensures { Arrives self.old waker result self.new }
    {
        if self.size - self.come <= 1 {
            return Err(waker);
        }
        let place = self.waiters.enter(waker)?;
        self.come += 1;
        let round = self.waiters.round;
        Ok(Arrival { place, round })
    }

    /// Under the barrier's lock: has one that came wait with this waker, if its round is under way. Gives
    /// what is not kept.
    pub(crate) fn wait(&mut self, place: usize, waker: W) -> Option<W>
        ensures { WaitsStill self.old place waker result self.new }
    {
        self.waiters.wait(place, waker)
    }

    /// Under the barrier's lock: whether the round in which one came is over.
    pub(crate) fn is_over(&self, arrival: Arrival) -> bool
        ensures { result ≡ not (self.now.waiters.round == arrival.round) }
    {
        self.waiters.round != arrival.round
    }

    /// Under the barrier's lock: gives a place back, with its waker. If its round is under way, one fewer
    /// has come.
    pub(crate) fn leave(&mut self, arrival: Arrival) -> Option<W>
        ensures { Goes self.old arrival result self.new }
    {
        if !self.is_over(arrival) {
            self.come = self.come.saturating_sub(1);
        }
        let Parted { waker, was_told: _ } = self.waiters.leave(arrival.place);
        waker
    }
}
