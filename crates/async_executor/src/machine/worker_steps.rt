//! The steps of a worker: those of a run that has no future of its own and never sleeps.
ghost use Rattle.std.specs.Prelude.{◌≡◌, false};
ghost use Rattle.async_executor.specs.Runs.{has_ended};
ghost use Rattle.async_executor.specs.Steps.{actor_going};

use crate::machine::run_steps::{NotRegistered, PollingOwn, RunRest, Runner, TurnOver};
use crate::machine::steps::{GoingToSleep, Searching, Yielding};

impl PollingOwn {
    /// A worker's step after `PollingOwn`: there is no own future to poll.
    #[inline(always)]
    pub(crate) fn go_on(self) -> Searching<Runner>
        ensures { result ≡ record { actor = self.runner; number = self.number } }
    {
        let PollingOwn { runner, number } = self;
        Searching {
            actor: runner,
            number,
        }
    }
}

impl NotRegistered {
    /// What a worker keeps after `NotRegistered`: it tries again at its next turn.
    pub(crate) fn keep(self) -> RunRest
        ensures runner { result.runner ≡ self.runner }
        ensures goes_on { has_ended result ≡ false }
    {
        self.rest()
    }
}

impl GoingToSleep<Runner> {
    /// No task was found. The worker says so in place of going to sleep.
    #[inline(always)]
    pub(crate) fn stay_awake(self) -> RunRest
        ensures runner { result.runner ≡ actor_going self }
        ensures goes_on { has_ended result ≡ false }
    {
        self.refused().stay_awake()
    }
}

impl Yielding<Runner> {
    // A worker found no task, and nobody is woken for that.
    #[inline(always)]
    fn stay_awake(self) -> RunRest
        ensures runner { result.runner ≡ self.actor }
        ensures goes_on { has_ended result ≡ false }
    {
        let Yielding { actor, number } = self;
        RunRest::of_joined(actor, number)
    }
}

impl TurnOver {
    /// The turn is over. The worker says so in place of waking anybody.
    #[inline(always)]
    pub(crate) fn stay_awake(self) -> RunRest
        ensures runner { result.runner ≡ self.runner }
        ensures goes_on { has_ended result ≡ false }
    {
        self.rest()
    }
}
