//! What a tick does next.
//!
//! A machine keeps the step that waits for the reply to its last action. All else that must be
//! spent goes out with the next action. So a path on which something is forgotten, as a search
//! before the store or a rest with a notice, does not compile. What the types leave open is the
//! table of `specs/Ticks/Table.antt`, keyed by the reply.
//!
//! It is awake exactly if its number is 0, which no sleeper has.
ghost use Rattle.std.specs.Prelude.{◌≡◌, ℕ, Bool, true, false, Option, None};
ghost use Rattle.executor_core.specs.World.Phases.{at_rest};
ghost use Rattle.executor_core.specs.World.Tickers.{polled};
ghost use Rattle.async_executor.specs.Steps.{IsDeparting};
ghost use Rattle.async_executor.specs.Steps.Tickers.{LeadsTick, left_awake, of_departed, of_departing, of_rested, of_running, of_searching};
ghost use Rattle.async_executor.specs.Ticks.{answers, asked, store_asked, store_after, AskStart, IsAsked};
ghost use Rattle.async_executor.specs.Ticks.Courses.{course, KeepsCourse};
ghost use Rattle.async_executor.specs.Ticks.Decisions.{decided};
ghost use Rattle.async_executor.specs.Ticks.Rows.{IsRow};
ghost use Rattle.async_executor.specs.Ticks.Replies.{decision, polls, returns};
ghost use Rattle.async_executor.specs.Ticks.Tickers.{ticker_of, ticker_after, rest_ticker};
ghost use Rattle.async_executor.specs.Ticks.Steps.{leads, may_lead};

use crate::machine::steps::{Departed, Departing, Rested, Running, Searching};
use crate::machine::waiting::{Came, TickAction, TickEnd, TickReply, Waiting, depart};
use executor_core::task::Taken;

/// What a tick keeps between its polls: its number, and whether it has ended.
#[derive(Debug, Clone, Copy, PartialEq, Eq)]
pub struct TickRest {
    number: usize,
    // So a tick keeps nothing else between polls, and one that has ended gives its place back once.
    ended: bool,
}

impl TickRest {
    /// Whether the tick of this `TickRest` has run a task or was dropped. Nothing is left for it to do then.
    pub fn is_ended(self) -> bool
        ensures { result ≡ self.ended }
    {
        self.ended
    }

    /// The `TickRest` of a tick that sleeps under this number, or is awake if the number is 0.
    pub(in crate::machine) fn at(number: usize) -> TickRest
        ensures { result ≡ record { number = number; ended = false } }
    {
        TickRest {
            number,
            ended: false,
        }
    }

    /// The number under which the tick of this `TickRest` sleeps, or 0 if it is awake.
    pub fn number(self) -> usize
        ensures { result ≡ self.number }
    {
        self.number
    }

    // The `TickRest` of a tick that has ended.
    #[inline(always)]
    fn after_the_end() -> TickRest
        ensures { result ≡ record { number = 0; ended = true } }
    {
        TickRest {
            number: 0,
            ended: true,
        }
    }

    /// The tick of this `TickRest` is polled.
    #[inline(always)]
    pub(crate) fn begin(self) -> Searching<Alone>
        requires { self.ended ≡ false }
        ensures step { result.number ≡ self.number }
        ensures world { LeadsTick at_rest polled (rest_ticker None self) (of_searching result) }
    {
        Searching {
            actor: Alone,
            number: self.number,
        }
    }

    /// The tick of this `TickRest` is dropped.
    #[inline(always)]
    pub(crate) fn depart(self) -> Departing<Alone>
        requires { self.ended ≡ false }
        ensures step { IsDeparting self.number result }
        ensures world { LeadsTick at_rest left_awake (rest_ticker None self) (of_departing result) }
    {
        Departing::of(Alone, self.number)
    }
}

/// Who goes the steps of a tick for itself: it ends with its task.
#[derive(Clone, Copy)]
pub(crate) struct Alone;

impl Running<Alone> {
    /// The task that `Alone` is to run: the last thing that the tick does.
    #[inline(always)]
    pub(crate) fn run(self) -> (Taken<()>, Departed<Alone>)
        ensures task { result.0 ≡ self.taken }
        ensures world { of_departed result.1 None ≡ of_running self None }
    {
        let Running { actor, taken } = self;
        (taken, Departed { actor })
    }
}

impl Rested<Alone> {
    /// The `TickRest` that a tick keeps until its next poll.
    #[inline(always)]
    pub(crate) fn keep(self) -> TickRest
        ensures step { result ≡ record { number = self.number; ended = false } }
        ensures world { rest_ticker None result ≡ of_rested self None }
    {
        let Rested { actor: _, number } = self;
        TickRest::at(number)
    }
}

impl Departed<Alone> {
    /// The `TickRest` that a tick keeps once it has ended.
    #[inline(always)]
    pub(crate) fn end(self) -> TickRest
        ensures step { result ≡ record { number = 0; ended = true } }
        ensures world { rest_ticker None result ≡ of_departed self None }
    {
        let Departed { actor: _ } = self;
        TickRest::after_the_end()
    }
}

/// What a machine decides.
pub enum TickNext<W> {
    /// It asks for this action, and waits for the reply.
    Act(TickMachine, TickAction<W>),
    /// The poll or the drop ends, and this is kept until the next one.
    Rest(TickRest, TickEnd),
}

// What a machine waits for: at a rest, under the number of the sleeper, to be polled or dropped; else
// the reply to its last action.
enum TickState {
    Resting(usize),
    Waiting(Waiting<Alone>),
    Running(Departed<Alone>),
}

// What a `TickMachine` asks for as its tick is polled: a search.
#[inline(always)]
fn poll<W>(number: usize) -> TickNext<W>
    ensures { result ≡ polls number }
{
    let searching = TickRest::at(number).begin();
    act(
        TickState::Waiting(Waiting::Searching(searching)),
        TickAction::Search(None),
    )
}

// How a `TickMachine` ends: its tick has run its task, or was dropped.
#[inline(always)]
fn finish<W>(departed: Departed<Alone>) -> TickNext<W>
    ensures { result ≡ returns }
{
    TickNext::Rest(departed.end(), TickEnd::Return)
}

// What a `TickMachine` makes of a reply.
#[inline(always)]
fn decide<W>(came: Came<Alone, W>) -> TickNext<W>
    ensures { result ≡ decision came }
{
    match came {
        Came::Act(waiting, action) => act(TickState::Waiting(waiting), action),
        Came::Rest(rested, end) => TickNext::Rest(rested.keep(), end),
        Came::Run(running) => {
            let (taken, departed) = running.run();
            act(TickState::Running(departed), TickAction::Run(taken))
        }
        Came::End(departed) => finish(departed),
    }
}

// Asks for an action, as a `TickMachine` in this state.
#[inline(always)]
fn act<W>(state: TickState, action: TickAction<W>) -> TickNext<W>
    ensures { result ≡ TickNext.Act (record { state = state }) action }
{
    TickNext::Act(TickMachine { state }, action)
}

/// Decides what a tick does next. It keeps the step that waits for the reply to the last action,
/// and what else must be spent goes out with its actions.
pub struct TickMachine {
    state: TickState,
}

impl TickMachine {
    /// The `TickRest` of a tick that was never polled.
    pub fn new() -> TickRest
        ensures { result ≡ record { number = 0; ended = false } }
    {
        TickRest::at(0)
    }

    /// The machine of a tick that rests. It waits for `Begin` or `Dropped`.
    #[inline(always)]
    pub fn start(rest: TickRest) -> TickMachine
        requires { rest.ended ≡ false }
        ensures machine { result ≡ record { state = TickState.Resting rest.number } }
        ensures asked { asked result ≡ AskStart }
        ensures ticker { (runner : Option ℕ) (notified : Bool)
            → ticker_of runner notified result ≡ rest_ticker runner rest }
    {
        TickMachine {
            state: TickState::Resting(rest.number),
        }
    }

    /// What a `TickMachine` does after this reply, which has to answer its last action.
    ///
    /// A change of the list is followed by its store, so both can be made while the list is locked.
    #[inline(always)]
    pub fn next<W>(self, reply: TickReply<W>) -> TickNext<W>
        requires { answers (asked self) reply ≡ true }
        ensures decided { result ≡ decided self reply }
        ensures asked { IsAsked result }
        ensures store { store_asked result ≡ store_after reply }
        ensures ticker { (runner : Option ℕ) (notified : Bool)
            → ticker_after runner result ≡ leads self.state reply (ticker_of runner notified self) }
        ensures enabled { (runner : Option ℕ) (notified : Bool)
            → may_lead self.state reply (ticker_of runner notified self) ≡ true }
        ensures table { IsRow self reply result }
        ensures course { KeepsCourse (course self) reply result }
    {
        let TickMachine { state } = self;
        match state {
            TickState::Resting(number) => match reply {
                TickReply::Begin => poll(number),
                TickReply::Dropped => decide(depart(TickRest::at(number).depart())),
                _ => unreachable!(),
            },
            TickState::Waiting(waiting) => decide(waiting.next(reply)),
            TickState::Running(departed) => match reply {
                TickReply::Ran => finish(departed),
                _ => unreachable!(),
            },
        }
    }
}
