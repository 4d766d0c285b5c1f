//! What a run does next.
//!
//! A machine keeps the step that waits for the reply to its last action. Between two polls of its
//! own future a run goes the steps of a tick, so it shares what those come to. What the types leave
//! open is the table of `specs/Runs/Table.antt`, keyed by the reply.
ghost use Rattle.std.specs.Prelude.{◌≡◌, Bool, true, false, Ok, Err};
ghost use Rattle.executor_core.specs.Limits.{is_lawful, default_limits};
ghost use Rattle.async_executor.specs.Runs.{answers, asked, has_ended, new_rest, runner_of, store_asked, store_after, AskFirst, IsAsked};
ghost use Rattle.async_executor.specs.Runs.Decisions.{decided};
ghost use Rattle.async_executor.specs.Runs.Fairs.{HasFound, FairGoesOn};
ghost use Rattle.async_executor.specs.Runs.Fixed.{IsWithin};
ghost use Rattle.async_executor.specs.Runs.Replies.{ask, begun, decision, dropped, drops, leaves, polls, runs, searches};
ghost use Rattle.async_executor.specs.Runs.Rows.{IsRow};
ghost use Rattle.async_executor.specs.Runs.Steps.{leads, may_lead};
ghost use Rattle.async_executor.specs.Runs.Tickers.{ticker_of, ticker_after, rest_ticker};
ghost use Rattle.async_executor.specs.Runs.Turns.{TurnGoesOn};
ghost use Rattle.async_executor.specs.Ticks.Replies.{actor_of};

use crate::machine::run_steps::{
    Begun, Count, Dropped, Left, PollingOwn, Registering, Releasing, RunRest, Runner, Sharing,
    Started, UnderWay, Unregistering,
};
use crate::machine::steps::Searching;
use crate::machine::waiting::Spending::{self, Exchanging};
use crate::machine::waiting::{Came, TickAction, TickEnd, TickReply, Waiting, depart};
use executor_core::limits::Limits;
use executor_core::queue::RunnerKey;
use executor_core::task::{Notice, Taken};

/// What a run asks for next. Each action is one step on what is shared, spends a value of its own,
/// or polls the run's own future.
pub enum RunAction<W> {
    /// Make the run's queue that of its runner.
    Register,
    /// Poll the run's own future.
    PollOwn,
    /// Make the action of a tick. A search is one of the runner.
    Tick(TickAction<W>),
    /// Take a fair part of the global queue.
    Fair,
    /// End the runner's queue. The own future was dropped before.
    Unregister,
    /// Give the place of a runner back that was never registered.
    Release,
}

/// What came of the action that was asked for last, or, at a rest, what is to be done.
pub enum RunReply<W> {
    /// The run is polled.
    Begin,
    /// The run is dropped, and its own future was dropped before.
    Dropped,
    /// The runner is registered.
    Registered,
    /// The runner was not registered.
    NotRegistered,
    /// The own future is pending.
    OwnPending,
    /// The own future is ready, and was dropped.
    OwnReady,
    /// What came of the action of a tick.
    Tick(TickReply<W>),
    /// The fair part was taken.
    Moved,
    /// The runner's queue has ended, with a notice if tasks stood in it.
    Unregistered(Option<Notice>),
    /// The place of the runner was given back.
    Released,
}

/// What a machine decides.
pub enum RunNext<W> {
    /// It asks for this action, and waits for the reply.
    Act(RunMachine, RunAction<W>),
    /// The poll or the drop ends, and this is kept until the next one.
    Rest(RunRest, TickEnd),
}

// What a machine waits for: at a rest to be polled or dropped, or the reply to its last action.
enum RunState {
    Resting(Begun),
    Registering(Registering),
    PollingOwn(PollingOwn),
    Waiting(Waiting<Runner>),
    Sharing(Sharing),
    Running(UnderWay),
    Unregistering(Unregistering),
    PassingOn(Spending, Left),
    Releasing(Releasing),
}

// Asks for an action, as a `RunMachine` in this state.
#[inline(always)]
fn ask<W>(state: RunState, action: RunAction<W>) -> RunNext<W>
    ensures { result ≡ ask state action }
{
    RunNext::Act(RunMachine { state }, action)
}

// What a `RunMachine` asks for as its run is polled.
#[inline(always)]
fn poll<W>(begun: Begun) -> RunNext<W>
    ensures { result ≡ polls begun }
{
    match begun {
        Begun::Register(registering) => {
            ask(RunState::Registering(registering), RunAction::Register)
        }
        Begun::PollOwn(polling) => ask(RunState::PollingOwn(polling), RunAction::PollOwn),
    }
}

// What a `RunMachine` asks for once the own future of its run was dropped.
#[inline(always)]
fn drop_it<W>(dropped: Dropped) -> RunNext<W>
    ensures { result ≡ drops dropped }
{
    match dropped {
        Dropped::Release(releasing) => ask(RunState::Releasing(releasing), RunAction::Release),
        Dropped::Unregister(unregistering) => {
            ask(
                RunState::Unregistering(unregistering),
                RunAction::Unregister,
            )
        }
    }
}

// A `RunMachine` asks for a search.
#[inline(always)]
fn search<W>(searching: Searching<Runner>) -> RunNext<W>
    ensures { result ≡ searches searching }
{
    ask(
        RunState::Waiting(Waiting::Searching(searching)),
        RunAction::Tick(TickAction::Search(None)),
    )
}

// A `RunMachine` asks for a task to be run.
#[inline(always)]
fn run<W>(under_way: UnderWay, taken: Taken<()>) -> RunNext<W>
    ensures { result ≡ runs under_way taken }
{
    ask(
        RunState::Running(under_way),
        RunAction::Tick(TickAction::Run(taken)),
    )
}

impl Waiting<Runner> {
    // The counts of a `RunMachine` that waits in a step of a tick are below their limits. It does nothing.
    #[inline(always)]
    fn counts(&self)
        ensures { IsWithin (actor_of self.now) }
    {
        match self {
            Waiting::Searching(step) => step.actor.counts(),
            Waiting::Inserting(step) => step.actor.counts(),
            Waiting::Updating(step) => step.actor.counts(),
            Waiting::Storing(step) => step.actor.counts(),
            Waiting::Removing(step) => step.actor.counts(),
            Waiting::StoringRemoved(step) => step.actor.counts(),
            Waiting::Announcing(_, step) => step.actor.counts(),
            Waiting::Leaving(step) => step.actor.counts(),
            Waiting::StoringLeft(step) => step.actor.counts(),
            Waiting::PassingOn(_, step) => step.actor.counts(),
        }
    }
}

// What a `RunMachine` makes of a reply to a step of a tick.
#[inline(always)]
fn decide<W>(came: Came<Runner, W>) -> RunNext<W>
    ensures { result ≡ decision came }
{
    match came {
        Came::Act(waiting, action) => ask(RunState::Waiting(waiting), RunAction::Tick(action)),
        Came::Rest(rested, end) => RunNext::Rest(rested.keep(), end),
        Came::Run(running) => match running.start() {
            Started::Share(sharing) => ask(RunState::Sharing(sharing), RunAction::Fair),
            Started::Run(under_way, taken) => run(under_way, taken),
        },
        Came::End(departed) => RunNext::Rest(departed.end(), TickEnd::Return),
    }
}

// A `RunMachine` leaves the sleepers: the queue of its run has ended.
#[inline(always)]
fn leave<W>(left: Left) -> RunNext<W>
    ensures { result ≡ leaves left }
{
    decide(depart(left.depart()))
}

/// Decides what a run does next. It keeps the step that waits for the reply to the last action,
/// and what else must be spent goes out with its actions.
pub struct RunMachine {
    state: RunState,
}

impl RunMachine {
    /// The `RunRest` of a run that was never polled, with the default `Limits`.
    pub fn new(key: RunnerKey) -> RunRest
        ensures { result ≡ new_rest key default_limits }
    {
        RunMachine::new_with(key, Limits::default())
    }

    /// As `RunMachine::new`, with these limits, but for the room in its queue, which is ignored here.
    pub fn new_with(key: RunnerKey, limits: Limits) -> RunRest
        requires { is_lawful limits ≡ true }
        ensures rest { result ≡ new_rest key limits }
        ensures found { HasFound limits.fair 0 result.runner }
    {
        let runner = Runner {
            key,
            count: Count::up_to(limits.turn),
            found: Count::up_to(limits.fair),
        };
        RunRest::of_new(runner)
    }

    /// The machine of a run that rests. It waits for `Begin` or `Dropped`.
    #[inline(always)]
    pub fn start(rest: RunRest) -> RunMachine
        requires { has_ended rest ≡ false }
        ensures asked { asked result ≡ AskFirst }
        ensures runner { runner_of result ≡ rest.runner }
        ensures ticker { (notified : Bool) → ticker_of notified result ≡ rest_ticker rest }
    {
        RunMachine {
            state: RunState::Resting(rest.begin()),
        }
    }

    /// What a `RunMachine` does after this reply, which has to answer its last action.
    pub fn next<W>(self, reply: RunReply<W>) -> RunNext<W>
        requires { answers (asked self) reply ≡ true }
        ensures decided { result ≡ decided self reply }
        ensures asked { IsAsked result }
        ensures store { store_asked result ≡ store_after reply }
        ensures ticker { (notified : Bool)
            → ticker_after result ≡ leads self reply (ticker_of notified self) }
        ensures enabled { (notified : Bool) → may_lead self reply (ticker_of notified self) ≡ true }
        ensures table { IsRow self reply result }
        ensures turn { TurnGoesOn self result }
        ensures fair { FairGoesOn self result }
    {
        let RunMachine { state } = self;
        match state {
            RunState::Resting(begun) => match reply {
                RunReply::Begin => poll(begun),
                RunReply::Dropped => drop_it(begun.depart()),
                _ => unreachable!(),
            },
            RunState::Registering(registering) => match reply {
                RunReply::Registered => poll(Begun::PollOwn(registering.registered())),
                RunReply::NotRegistered => {
                    RunNext::Rest(registering.refused().rest(), TickEnd::Yield)
                }
                _ => unreachable!(),
            },
            RunState::PollingOwn(polling) => match reply {
                RunReply::OwnPending => search(polling.pending()),
                RunReply::OwnReady => drop_it(Dropped::Unregister(polling.ready())),
                _ => unreachable!(),
            },
            RunState::Waiting(waiting) => match reply {
                RunReply::Tick(reply) => {
                    waiting.counts();
                    decide(waiting.next(reply))
                }
                _ => unreachable!(),
            },
            RunState::Sharing(sharing) => match reply {
                RunReply::Moved => {
                    let (under_way, taken) = sharing.shared();
                    run(under_way, taken)
                }
                _ => unreachable!(),
            },
            RunState::Running(under_way) => match reply {
                RunReply::Tick(TickReply::Ran) => match under_way.ran() {
                    Ok(searching) => search(searching),
                    Err(over) => RunNext::Rest(over.rest(), TickEnd::Yield),
                },
                _ => unreachable!(),
            },
            RunState::Unregistering(unregistering) => match reply {
                RunReply::Unregistered(notice) => match notice {
                    Some(notice) => ask(
                        RunState::PassingOn(Exchanging, unregistering.unregistered()),
                        RunAction::Tick(TickAction::Exchange(notice)),
                    ),
                    None => leave(unregistering.unregistered()),
                },
                _ => unreachable!(),
            },
            RunState::PassingOn(spending, left) => match reply {
                RunReply::Tick(reply) => match spending.next(reply) {
                    Some((spending, action)) => {
                        ask(RunState::PassingOn(spending, left), RunAction::Tick(action))
                    }
                    None => leave(left),
                },
                _ => unreachable!(),
            },
            RunState::Releasing(releasing) => match reply {
                RunReply::Released => RunNext::Rest(releasing.released().end(), TickEnd::Return),
                _ => unreachable!(),
            },
        }
    }
}
