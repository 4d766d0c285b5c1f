//! The ends of one side of a channel, and who waits there.
ghost use Rattle.std.specs.Prelude.{◌≡◌, ◌+◌, ◌-◌, ◌==◌, [], IfOk, OnErr, OnOk};
ghost use Rattle.async_utilities.specs.WaitQueue.{Stays};

use crate::wait_queue::{AllDue, WaitQueue};
use std::alloc::{AllocError, Global};
use std::mem::replace;

/// How many ends there are, and who waits.
#[derive(Drop)]
pub(crate) struct Side<W> {
    pub(crate) ends: usize,
    pub(crate) waiters: WaitQueue<W>,
}

impl<W: Drop> Side<W> {
    /// One end, and nobody waits.
    pub(crate) fn new(alloc: Global) -> Result<Self, AllocError>
        ensures ends { IfOk result (λ side. side.ends ≡ 1) }
        ensures nobody { IfOk result (λ side. side.waiters.waiting ≡ []) }
    {
        let mut waiters = WaitQueue::new(alloc);
        waiters.reserve(1)?;
        Ok(Side { ends: 1, waiters })
    }

    /// Counts one end more, for which a place is reserved.
    pub(crate) fn join(&mut self) -> Result<(), AllocError>
        ensures ends { OnOk result (self.new.ends ≡ self.old.ends + 1) }
        ensures refused { OnErr result (self.new.ends ≡ self.old.ends) }
        ensures stays { Stays self.old.waiters self.new.waiters }
    {
        let Some(ends) = self.ends.checked_add(1) else {
            return Err(AllocError);
        };
        self.waiters.reserve(ends)?;
        self.ends = ends;
        Ok(())
    }

    /// Counts one end less, and says whether none is left.
    pub(crate) fn part(&mut self) -> bool
        ensures ends { self.new.ends ≡ self.old.ends - 1 }
        ensures last { result ≡ (self.new.ends == 0) }
        ensures waiters { self.new.waiters ≡ self.old.waiters }
    {
        self.ends = self.ends.saturating_sub(1);
        self.ends == 0
    }

    /// Takes all who wait on this side, to be woken.
    pub(crate) fn take_all(&mut self, alloc: Global) -> AllDue<W>
        ensures all { result.waiters ≡ self.old.waiters }
        ensures nobody { self.new.waiters.waiting ≡ [] }
        ensures ends { self.new.ends ≡ self.old.ends }
    {
        let waiters = replace(&mut self.waiters, WaitQueue::new(alloc));
        AllDue { waiters }
    }
}
