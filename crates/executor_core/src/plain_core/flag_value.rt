//! The flag as a plain value.
ghost use Rattle.std.specs.Prelude.{◌≡◌, true, not, is_some};
ghost use Rattle.executor_core.specs.Sleepers.Calls.{closed};

use crate::sleepers::Sleepers;
use crate::task::{Change, Notice, Pick};
use std::marker::Model;

/// `Flag` as a plain value, which contracts see as a `bool`. It is true at first.
#[derive(Debug, Drop)]
pub struct FlagValue {
    value: bool,
}

impl Model for FlagValue {
    ghost use Rattle.std.specs.Prelude.{Bool};

    ghost Value = { Bool };

    ghost view = { λ a. a.value };
}

impl FlagValue {
    /// A plain flag that is true.
    pub fn new() -> Self
        ensures { result ≡ true }
    {
        FlagValue { value: true }
    }

    /// `Flag::exchange` of a plain flag. It spends the notice: the flag is true afterwards, and the pick
    /// is there exactly if it was false.
    pub fn exchange(&mut self, notice: Notice) -> Option<Pick>
        ensures flag { self.new ≡ true }
        ensures pick { is_some result ≡ not self.old }
    {
        let Notice { unspent: () } = notice;
        if self.get() {
            return None;
        }
        self.value = true;
        Some(Pick { unspent: () })
    }

    /// `Flag::store` of a plain flag. It spends the change: the flag gets the value that it carries, the
    /// list is closed, and what else it carries comes out.
    pub fn store<X, W>(&mut self, change: Change<X>, sleepers: &mut Sleepers<W>) -> X
        ensures flag { self.new ≡ change.notified }
        ensures list { sleepers.new ≡ closed sleepers.old }
        ensures carried { result ≡ change.carried }
    {
        let Change { notified, carried } = change;
        self.value = notified;
        sleepers.close();
        carried
    }

    /// The value of the plain flag.
    pub fn get(&self) -> bool
        ensures { result ≡ self.now }
    {
        self.value
    }
}
