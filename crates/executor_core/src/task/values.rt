//! The values that must be spent so that no notice is lost.
ghost use Rattle.std.specs.Prelude.{◌≡◌, is_some};

use crate::task::future::Wake;

/// A task was queued, or somebody passes such news on: an exchange of the flag has still to follow.
pub struct Notice {
    pub(crate) unspent: (),
}

impl Notice {
    /// Two notices become one, which must be spent.
    pub fn join(self, other: Notice) -> Notice {
        let Notice { unspent: () } = other;
        self
    }

    // One notice, which must be spent, of all that was queued in a call, if something was.
    pub(crate) fn of(queued: bool) -> Option<Notice>
        ensures { is_some result ≡ queued }
    {
        if queued {
            Some(Notice { unspent: () })
        } else {
            None
        }
    }

    // Spends a notice without an exchange. A world keeps its notices as a count; a call that queues many
    // tasks gives one notice, and a drain gives none.
    pub(crate) fn keep(self) {
        let Notice { unspent: () } = self;
    }
}

/// An exchange of the flag won: a notification of the sleepers has still to follow.
pub struct Pick {
    pub(crate) unspent: (),
}

/// One who goes to sleep changed the list of sleepers: a search has still to follow.
pub struct Again {
    pub(crate) unspent: (),
}

impl Again {
    // Spends an `Again`: the search is being made.
    pub(crate) fn spend(self) {
        let Again { unspent: () } = self;
    }
}

/// A list of sleepers was changed: a store of the flag has still to follow.
pub struct Change<X> {
    pub(crate) notified: bool,
    pub(crate) carried: X,
}

impl<X> Change<X> {
    /// What a `Change` is to store: whether nobody sleeps or somebody was notified, as of the change.
    pub fn is_notified(&self) -> bool
        ensures { result ≡ self.now.notified }
    {
        self.notified
    }

    // Spends a `Change` for a world, which has the open list of the sleepers in its place.
    pub(crate) fn into_carried(self) -> X
        ensures { result ≡ self.carried }
    {
        let Change {
            notified: _,
            carried,
        } = self;
        carried
    }
}

/// A waker that is still to be woken.
pub struct Wakeup<W> {
    pub(crate) waker: W,
}

impl<W: Wake> Wakeup<W> {
    /// Spends the `Wakeup`: wakes the waker, once.
    pub fn wake(self) {
        let Wakeup { waker } = self;
        waker.wake();
    }
}

impl Wakeup<()> {
    // Spends a `Wakeup` for a world, whose wakers are units, and whose replies say that one came out.
    pub(crate) fn keep(self) {
        let Wakeup { waker: () } = self;
    }
}
