//! The flag beside the lock of the sleepers.
ghost use Rattle.std.specs.Prelude.{◌≡◌};
ghost use Rattle.executor_core.specs.Sleepers.Calls.{closed};

use crate::sleepers::list::Sleepers;
use crate::task::values::{Change, Notice, Pick};
use std::sync::atomic::{AtomicBool, Ordering};

/// Whether there is nobody to notify: it is true at first. It stands for `State::notified` in the
/// Rust crate.
///
/// Its calls take no lock and wait for nobody. No contract speaks of its value, since other threads
/// may change it at any moment; `FlagValue` is the same on a plain value.
#[derive(Drop)]
pub struct Flag {
    value: AtomicBool,
}

impl Flag {
    /// A shared flag that is true.
    pub fn new() -> Self {
        Flag {
            value: AtomicBool::new(true),
        }
    }

    /// The value of the shared flag at some moment of the call.
    pub fn get(&self) -> bool {
        self.value.load(Ordering::SeqCst)
    }

    /// Spends the notice: in one atomic step the shared flag is set, and the pick is there if it was
    /// false. It stands for the first half of `State::notify` in the Rust crate.
    pub fn exchange(&self, notice: Notice) -> Option<Pick> {
        let Notice { unspent: () } = notice;
        // An exchange of a flag that is true leaves it as it is, which a load finds out without
        // taking the flag's cache line away from other threads.
        if self.get() {
            return None;
        }
        match self
            .value
            .compare_exchange(false, true, Ordering::SeqCst, Ordering::SeqCst)
        {
            Ok(_) => Some(Pick { unspent: () }),
            Err(_) => None,
        }
    }

    /// Spends the change: the shared flag gets the value that it carries, the list is closed, and what
    /// else it carries comes out.
    pub fn store<X, W>(&self, change: Change<X>, sleepers: &mut Sleepers<W>) -> X
        ensures list { sleepers.new ≡ closed sleepers.old }
        ensures carried { result ≡ change.carried }
    {
        let Change { notified, carried } = change;
        self.value.store(notified, Ordering::SeqCst);
        sleepers.close();
        carried
    }
}
