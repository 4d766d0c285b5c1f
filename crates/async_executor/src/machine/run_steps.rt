//! The steps that a run alone goes, each a value that must be spent, and what it keeps between its polls.
//! Between these steps it goes those of a tick, with its `Runner` for A.
//!
//! | step | what the run does | what comes next |
//! |---|---|---|
//! | `Registering` | makes its ring the queue of its runner | `PollingOwn`, or `NotRegistered` |
//! | `NotRegistered` | wakes the waker of who polls | it answers pending |
//! | `PollingOwn` | polls its own future, once | `Searching`, or `Unregistering` |
//! | `Started` | takes a fair part of the global queue, if one is due | `UnderWay`, with the task |
//! | `UnderWay` | runs the task | `Searching`, or `TurnOver` |
//! | `TurnOver` | wakes the waker of who polls | it answers pending |
//! | `Unregistering` | ends the queue of its runner | `Left`, with the notice of that |
//! | `Left` | spends that notice | `Departing` |
//! | `Releasing` | gives the place of a runner back that was never registered | `Departed` |
ghost use Rattle.std.specs.Prelude.{◌≡◌, ◌<◌, not, [], false, true, Ok, Err, Some, None, cond, IfErr, IfNone, IfSome, MatchResult};
ghost use Rattle.executor_core.specs.Cells.Calls.{after_register, after_search, search_in, after_unregister, after_fair, after_release_runner, TakesFound};
ghost use Rattle.executor_core.specs.World.Phases.{at_rest, in_leaving};
ghost use Rattle.executor_core.specs.World.Tickers.{ended, left, polled};
ghost use Rattle.async_executor.specs.Runs.{has_ended};
ghost use Rattle.async_executor.specs.Runs.Counts.{CountsEach, anew, goes_on, more, up_to};
ghost use Rattle.async_executor.specs.Runs.Fixed.{IsWithin, fixed, runner_polled, runner_started, runner_turned};
ghost use Rattle.async_executor.specs.Runs.Replies.{begun, dropped, started, turned};
ghost use Rattle.async_executor.specs.Runs.Tickers.{runner_in, rest_ticker, of_begun, of_dropped, of_left, of_not_registered, of_polling, of_registered, of_registering, of_releasing, of_sharing, of_started, of_turn_over, of_under_way, of_unregistering, LeadsRun, PollsOwn, GoesOn};
ghost use Rattle.async_executor.specs.Steps.{IsFound, departing};
ghost use Rattle.async_executor.specs.Steps.Tickers.{MakesAt, left_awake, stays, of_departed, of_departing, of_rested, of_running};
ghost use Rattle.async_executor.specs.declared.machine.run_steps.Stage.TheVariants as stage;
ghost use Rattle.rand_xoshiro.specs.SplitMix64.{splitmix_seed};
ghost use Rattle.rand_xoshiro.specs.Xoshiro256.{of_seed, plus_plus};

use crate::machine::steps::{Departed, Departing, Found, Rested, Running, Searching};
use Stage::{Ended, Joined, New};
use executor_core::queue::{Ring, RunnerKey};
use executor_core::task::{Again, Cells, Future, Notice, Poll, Taken, TaskId, Wake};
use rand_xoshiro::Xoshiro256PlusPlus;
use rand_xoshiro::rand_core::SeedableRng;
use rand_xoshiro::rand_core::utils::NextWord;
use std::marker::Model;

/// What a run keeps between its polls: its runner, what it counts, and how far it is.
#[derive(Debug, Clone, Copy, PartialEq, Eq)]
pub struct RunRest {
    runner: Runner,
    stage: Stage,
}

/// The runner of a run, with how many tasks it ran in this turn, and how many it found since its last
/// fair part.
#[derive(Debug, Clone, Copy, PartialEq, Eq)]
pub(crate) struct Runner {
    pub(in crate::machine) key: RunnerKey,
    // Each keeps its limit, from when the run is made: no poll looks it up, and none changes it.
    pub(in crate::machine) count: Count,
    pub(in crate::machine) found: Count,
}

impl Runner {
    /// The key of a run's `Runner`, which its `RunRest` keeps.
    #[inline(always)]
    pub(in crate::machine) fn key(&self) -> RunnerKey
        ensures { result ≡ self.now.key }
    {
        self.key
    }

    // Both counts of a run's `Runner` are below their limits, by their type. It does nothing.
    #[inline(always)]
    pub(in crate::machine) fn counts(&self)
        ensures { IsWithin self.now }
    {
        self.count.is_below();
        self.found.is_below();
    }

    /// A run's `Runner` after one task more was run, or, if that was the last of its turn, at the start of
    /// the next one.
    #[inline(always)]
    pub(in crate::machine) fn ran(self) -> Result<Runner, Runner>
        ensures fixed { MatchResult result
            (λ runner. fixed runner ≡ fixed self) (λ runner. fixed runner ≡ fixed self) }
        ensures ran { result
            ≡ cond (goes_on self.count) (Ok (record self { count = more self.count }))
            (Err (record self { count = anew self.count })) }
    {
        let mut runner = self;
        if runner.count.one_more() {
            return Err(runner);
        }
        Ok(runner)
    }

    /// A run's `Runner` after one task more was found, and whether it takes its fair part before that runs.
    #[inline(always)]
    pub(in crate::machine) fn found(self) -> (Runner, bool)
        ensures fixed { fixed result.0 ≡ fixed self }
        ensures found { result
            ≡ cond (goes_on self.found) (record self { found = more self.found }, false)
            (record self { found = anew self.found }, true) }
    {
        let mut runner = self;
        let is_fair = runner.found.one_more();
        (runner, is_fair)
    }
}

// How far a run is that rests. One whose runner was registered has a number under which it sleeps,
// or 0.
#[derive(Debug, Clone, Copy, PartialEq, Eq)]
enum Stage {
    New,
    Joined(usize),
    Ended,
}

impl RunRest {
    /// Whether the run of this `RunRest` has ended or was dropped. Nothing is left for it to do then.
    pub fn is_ended(&self) -> bool
        ensures { result ≡ has_ended self.now }
    {
        // Borrowed, as `search` is: a `Copy` value with a `Count` in it cannot be used twice in one
        // function.
        matches!(self.stage, Ended)
    }

    /// What the run of this `RunRest` searches with in its poll.
    #[inline(always)]
    pub(crate) fn search(&self) -> Search
        ensures { result ≡ record { key = self.now.runner.key } }
    {
        Search {
            key: self.runner.key,
        }
    }

    // The `RunRest` of a run whose runner was not registered.
    pub(in crate::machine) fn of_new(runner: Runner) -> RunRest
        ensures { result ≡ record { runner = runner; stage = Stage.New } }
    {
        RunRest { runner, stage: New }
    }

    // The `RunRest` of a run whose runner is registered, and which sleeps under this number, if it is not 0.
    #[inline(always)]
    pub(in crate::machine) fn of_joined(runner: Runner, number: usize) -> RunRest
        ensures { result ≡ record { runner = runner; stage = Stage.Joined number } }
    {
        RunRest {
            runner,
            stage: Joined(number),
        }
    }

    // The `RunRest` of a run that has ended.
    pub(in crate::machine) fn of_ended(runner: Runner) -> RunRest
        ensures { result ≡ record { runner = runner; stage = Stage.Ended } }
    {
        RunRest {
            runner,
            stage: Ended,
        }
    }

    /// The run of this `RunRest` is polled.
    #[inline(always)]
    pub(crate) fn begin(self) -> Begun
        requires { has_ended self ≡ false }
        ensures step { result ≡ begun self }
        ensures world { of_begun result ≡ rest_ticker self }
    {
        let RunRest { runner, stage } = self;
        match stage {
            New => Begun::Register(Registering { runner }),
            Joined(number) => Begun::PollOwn(PollingOwn { runner, number }),
            Ended => unreachable!(),
        }
    }

    /// The run of this `RunRest` is dropped. Its own future was dropped before.
    pub(crate) fn depart(self) -> Dropped
        requires { has_ended self ≡ false }
        ensures step { result ≡ dropped (begun self) }
        ensures world { of_dropped result ≡ rest_ticker self }
    {
        self.begin().depart()
    }
}

/// A count up to a limit. The last one of so many begins it anew, so it is below that limit.
#[derive(Debug, Clone, Copy, PartialEq, Eq)]
pub(crate) struct Count {
    // 64 bits each, though both are below 2^32: two halves of a register would be packed and unpacked at
    // each task.
    counted: u64,
    limit: u64,
}

impl Model for Count {
    ghost use Rattle.std.specs.Prelude.{◌<◌};
    ghost use Rattle.async_executor.specs.Runs.Counts.{Counted, counted_code};

    ghost Value = { Counted };

    ghost coded = { counted_code };

    ghost view = { λ c. record { counted = c.counted; limit = c.limit } };

    ghost invariant = { λ c. c.counted < c.limit };

    ghost inverse = { λ d. record { counted = d.counted; limit = d.limit } };
}

impl Count {
    /// A `Count` that begins, up to this limit.
    #[inline(always)]
    pub(in crate::machine) fn up_to(limit: u32) -> Count
        requires { 0 < limit }
        ensures { result ≡ up_to limit }
    {
        Count {
            counted: 0,
            limit: u64::from(limit),
        }
    }

    /// A `Count` is below its limit, by its type. It does nothing.
    #[inline(always)]
    pub(in crate::machine) fn is_below(&self)
        ensures { self.now.counted < self.now.limit }
    {
        let _counted = self.counted;
    }

    /// Counts one more where the count stands, so that it is not packed and unpacked, and says whether
    /// that was the last of so many.
    #[inline(always)]
    pub(in crate::machine) fn one_more(&mut self) -> bool
        ensures counted { self.new ≡ cond (goes_on self.old) (more self.old) (anew self.old) }
        ensures last { result ≡ not (goes_on self.old) }
        ensures each { CountsEach self.old self.new result }
    {
        let counted = self.counted + 1;
        if counted < self.limit {
            self.counted = counted;
            return false;
        }
        self.counted = 0;
        true
    }
}

/// A poll of a run begins.
pub(crate) enum Begun {
    /// Its runner is to be registered first.
    Register(Registering),
    /// Its own future is polled first.
    PollOwn(PollingOwn),
}

/// A run is dropped. Its own future was dropped before.
pub(crate) enum Dropped {
    /// Its runner was never registered.
    Release(Releasing),
    /// Its runner was registered.
    Unregister(Unregistering),
}

impl Begun {
    /// A run's step after `Begun`: the run is dropped, and not polled. Its own future was dropped before.
    #[inline(always)]
    pub(in crate::machine) fn depart(self) -> Dropped
        ensures step { result ≡ dropped self }
        ensures world { of_dropped result ≡ of_begun self }
    {
        match self {
            Begun::Register(Registering { runner }) => Dropped::Release(Releasing { runner }),
            Begun::PollOwn(PollingOwn { runner, number }) => {
                Dropped::Unregister(Unregistering { runner, number })
            }
        }
    }
}

/// To make its ring the queue of its runner.
pub(crate) struct Registering {
    pub(in crate::machine) runner: Runner,
}

impl Registering {
    /// Takes a run's step `Registering`: makes the ring the queue of its runner. A refused ring comes back.
    pub(crate) fn make<W>(
        self,
        cells: &mut Cells<(), (), W>,
        ring: Ring,
    ) -> Result<PollingOwn, (NotRegistered, Ring)>
        requires { ring.ids ≡ [] }
        ensures runner { MatchResult result
            (λ polling. polling.runner ≡ self.runner) (λ refused. refused.0.runner ≡ self.runner) }
        ensures world { MakesAt at_rest stays (of_registering self) (of_registered result) }
        ensures cells { MatchResult result
            (λ _. cells.new ≡ after_register cells.old self.runner.key.number ring.capacity)
            (λ _. cells.new ≡ cells.old) }
        ensures refused { IfErr result (λ refused. refused.1 ≡ ring) }
    {
        match cells.register(self.runner.key(), ring) {
            Ok(()) => Ok(self.registered()),
            Err(ring) => Err((self.refused(), ring)),
        }
    }

    /// A run's step after `Registering`: the ring is the queue of its runner.
    pub(in crate::machine) fn registered(self) -> PollingOwn
        ensures step { result ≡ record { runner = self.runner; number = 0 } }
        ensures world { MakesAt at_rest stays (of_registering self) (of_polling result) }
    {
        let Registering { runner } = self;
        PollingOwn { runner, number: 0 }
    }

    /// A run's step after `Registering`: there is no ring.
    pub(crate) fn refused(self) -> NotRegistered
        ensures step { result ≡ record { runner = self.runner } }
        ensures world { of_not_registered result ≡ of_registering self }
    {
        let Registering { runner } = self;
        NotRegistered { runner }
    }
}

/// To wake the waker of who polls: the runner was not registered.
pub(crate) struct NotRegistered {
    pub(in crate::machine) runner: Runner,
}

impl NotRegistered {
    /// Takes a run's step `NotRegistered`: wakes the waker. The run tries again at its next poll. No lock may
    /// be held.
    pub(crate) fn wake<W: Wake>(self, w: &W) -> RunRest
        ensures rest { result ≡ record { runner = self.runner; stage = stage.New } }
        ensures world { rest_ticker result ≡ of_not_registered self }
    {
        w.wake();
        self.rest()
    }

    /// The rest of a run after `NotRegistered`: the waker was woken.
    pub(in crate::machine) fn rest(self) -> RunRest
        ensures { result ≡ record { runner = self.runner; stage = stage.New } }
    {
        let NotRegistered { runner } = self;
        RunRest::of_new(runner)
    }
}

/// To poll the own future of the run.
pub(crate) struct PollingOwn {
    pub(in crate::machine) runner: Runner,
    pub(in crate::machine) number: usize,
}

/// The own future was polled.
pub(crate) enum OwnPolled<T> {
    /// It is pending, and a task is to be searched for.
    Pending(Searching<Runner>),
    /// It was ready with this output, and was dropped.
    Ready(T, Unregistering),
}

// Drops the own future in a run's step `PollingOwn`. It is a function, so that the room of an empty place is
// cleared on this path alone.
#[inline(always)]
fn let_go<G: Drop>(own: &mut Option<G>) {
    *own = None;
}

impl PollingOwn {
    /// Takes a run's step `PollingOwn`: polls the own future once. One that is ready is dropped. No lock may
    /// be held.
    #[inline(always)]
    pub(crate) fn poll<W, G: Future<W>>(self, own: &mut Option<G>, w: &W) -> OwnPolled<G::Output>
        ensures runner { runner_polled result ≡ self.runner }
        ensures world { PollsOwn (of_polling self) result }
    {
        let polled = match own {
            Some(future) => future.poll(w),
            None => Poll::Pending,
        };
        match polled {
            Poll::Pending => OwnPolled::Pending(self.pending()),
            Poll::Ready(output) => {
                let_go(own);
                OwnPolled::Ready(output, self.ready())
            }
        }
    }

    /// A run's step after `PollingOwn`: the own future is pending.
    #[inline(always)]
    pub(in crate::machine) fn pending(self) -> Searching<Runner>
        ensures { result ≡ record { actor = self.runner; number = self.number } }
    {
        let PollingOwn { runner, number } = self;
        Searching {
            actor: runner,
            number,
        }
    }

    /// A run's step after `PollingOwn`: the own future was ready, and was dropped.
    #[inline(always)]
    pub(in crate::machine) fn ready(self) -> Unregistering
        ensures { result ≡ record { runner = self.runner; number = self.number } }
    {
        let PollingOwn { runner, number } = self;
        Unregistering { runner, number }
    }
}

/// A generator of random words, a `Xoshiro256PlusPlus`. Its words spread the runners, and are not secret.
#[derive(Drop)]
pub struct RandomGenerator {
    generator: Xoshiro256PlusPlus,
}

impl RandomGenerator {
    /// The `RandomGenerator` that `seed_from_u64` gives for this number.
    pub fn new(number: u64) -> RandomGenerator
        ensures { result.generator ≡ of_seed (splitmix_seed 32 number) }
    {
        RandomGenerator {
            generator: Xoshiro256PlusPlus::seed_from_u64(number),
        }
    }

    /// The next word of this `RandomGenerator`.
    #[inline(always)]
    pub fn next(&mut self) -> u64
        ensures { (result, self.new.generator) ≡ plus_plus self.old.generator }
    {
        self.generator.next_word()
    }
}

/// What a run searches with: the key of its runner, which no driver is handed.
#[derive(Clone, Copy)]
pub(crate) struct Search {
    pub(in crate::machine) key: RunnerKey,
}

impl Search {
    /// The number of the runner of this `Search`.
    pub(crate) fn runner(&self) -> u64
        ensures { result ≡ self.now.key.number }
    {
        self.key.number()
    }

    /// Makes a run's `Search` for a task, with a word that says where the walk over the other queues starts.
    #[inline(always)]
    pub(crate) fn make<W>(
        &self,
        cells: &mut Cells<(), (), W>,
        word: u64,
        again: Option<Again>,
    ) -> Option<NextTask>
        ensures table { cells.new ≡ after_search cells.old self.now.key.number word }
        ensures none { IfNone result ((search_in cells.old self.now.key.number word).0 ≡ None) }
        ensures some { IfSome result
            (λ next. TakesFound cells.old self.now.key.number word next.taken) }
    {
        let Some((taken, notice)) = cells.search(self.key, word, again) else {
            return None;
        };
        Some(NextTask { taken, notice })
    }
}

/// A task that a run found, with the notice of its take. The run has to come to it by the step that
/// searched: so it is counted before it is run.
pub(crate) struct NextTask {
    taken: Taken<()>,
    notice: Notice,
}

impl NextTask {
    /// Which task a run's search found.
    #[inline(always)]
    pub(crate) fn id(&self) -> TaskId
        ensures { result ≡ self.now.taken.id }
    {
        self.taken.id()
    }
}

impl Searching<Runner> {
    /// A run's step after `Searching`: the search found this task.
    #[inline(always)]
    pub(crate) fn found_next(self, next: NextTask) -> Found<Runner>
        ensures { IsFound self next.taken next.notice result }
    {
        let NextTask { taken, notice } = next;
        self.found(taken, notice)
    }
}

/// A task that was found is counted.
pub(crate) enum Started {
    /// The run takes its fair part before it runs the task.
    Share(Sharing),
    /// It runs the task.
    Run(UnderWay, Taken<()>),
}

impl Running<Runner> {
    /// Takes a run's step `Running`: counts the task that was found, before it is polled.
    #[inline(always)]
    pub(crate) fn start(self) -> Started
        ensures fixed { fixed (runner_started result) ≡ fixed self.actor }
        ensures found { result ≡ started self }
        ensures world { of_started result ≡ of_running self (runner_in self.actor) }
    {
        let Running { actor, taken } = self;
        let (runner, is_fair) = actor.found();
        if is_fair {
            return Started::Share(Sharing { runner, taken });
        }
        Started::Run(UnderWay { runner }, taken)
    }
}

/// To take a fair part of the global queue, so that tasks there are not left behind those of the
/// run's own queue.
pub(crate) struct Sharing {
    pub(in crate::machine) runner: Runner,
    taken: Taken<()>,
}

impl Sharing {
    /// Takes a run's step `Sharing`: takes the fair part of the global queue.
    #[inline(always)]
    pub(crate) fn make<W>(self, cells: &mut Cells<(), (), W>) -> (UnderWay, Taken<()>)
        ensures cells { cells.new ≡ after_fair cells.old self.runner.key.number }
        ensures task { result ≡ (record { runner = self.runner }, self.taken) }
        ensures world { MakesAt at_rest stays (of_sharing self) (of_under_way result.0) }
    {
        cells.fair(self.runner.key());
        self.shared()
    }

    /// A run's step after `Sharing`: the fair part was taken.
    #[inline(always)]
    pub(in crate::machine) fn shared(self) -> (UnderWay, Taken<()>)
        ensures { result ≡ (record { runner = self.runner }, self.taken) }
    {
        let Sharing { runner, taken } = self;
        (UnderWay { runner }, taken)
    }
}

/// A task is being run.
pub(crate) struct UnderWay {
    runner: Runner,
}

impl UnderWay {
    /// A run's step after `UnderWay`: the task was run. After the last one of a turn the run yields, so that
    /// others of its thread go on.
    #[inline(always)]
    pub(crate) fn ran(self) -> Result<Searching<Runner>, TurnOver>
        ensures fixed { fixed (runner_turned result) ≡ fixed self.runner }
        ensures ran { result ≡ turned self }
        ensures world { GoesOn (of_under_way self) result }
    {
        let UnderWay { runner } = self;
        match runner.ran() {
            Ok(actor) => Ok(Searching { actor, number: 0 }),
            Err(runner) => Err(TurnOver { runner }),
        }
    }
}

/// To wake the waker of who polls: its turn is over.
pub(crate) struct TurnOver {
    runner: Runner,
}

impl TurnOver {
    /// Takes a run's step `TurnOver`: wakes the waker. No lock may be held.
    #[inline(always)]
    pub(crate) fn wake<W: Wake>(self, w: &W) -> RunRest
        ensures rest { result ≡ record { runner = self.runner; stage = stage.Joined 0 } }
        ensures world { rest_ticker result ≡ of_turn_over self }
    {
        w.wake();
        self.rest()
    }

    /// The rest of a run after `TurnOver`: the waker was woken.
    #[inline(always)]
    pub(in crate::machine) fn rest(self) -> RunRest
        ensures { result ≡ record { runner = self.runner; stage = stage.Joined 0 } }
    {
        let TurnOver { runner } = self;
        RunRest::of_joined(runner, 0)
    }
}

impl Rested<Runner> {
    /// The rest of a run after `Rested`: what it keeps until its next poll.
    #[inline(always)]
    pub(crate) fn keep(self) -> RunRest
        ensures rest { result ≡ record { runner = self.actor; stage = stage.Joined self.number } }
        ensures world { rest_ticker result ≡ of_rested self (runner_in self.actor) }
    {
        let Rested { actor, number } = self;
        RunRest::of_joined(actor, number)
    }
}

/// To end the queue of the runner. The own future was dropped before.
pub(crate) struct Unregistering {
    pub(in crate::machine) runner: Runner,
    pub(in crate::machine) number: usize,
}

impl Unregistering {
    /// Takes a run's step `Unregistering`: ends the queue of its runner. There is a notice if tasks stood in
    /// it, which are queued globally now.
    pub(crate) fn make<W>(self, cells: &mut Cells<(), (), W>) -> (Option<Notice>, Left)
        ensures cells { cells.new ≡ after_unregister cells.old self.runner.key.number }
        ensures step { result.1 ≡ record { runner = self.runner; number = self.number } }
        ensures world { MakesAt at_rest left (of_unregistering self) (of_left result.1) }
    {
        let notice = cells.unregister(self.runner.key());
        (notice, self.unregistered())
    }

    /// A run's step after `Unregistering`: the queue has ended.
    pub(in crate::machine) fn unregistered(self) -> Left
        ensures { result ≡ record { runner = self.runner; number = self.number } }
    {
        let Unregistering { runner, number } = self;
        Left { runner, number }
    }
}

/// To leave the sleepers, once the notice of the queue that has ended is spent.
pub(crate) struct Left {
    pub(in crate::machine) runner: Runner,
    pub(in crate::machine) number: usize,
}

impl Left {
    /// A run's step after `Left`: the notice of its queue was spent, if there was one.
    pub(crate) fn depart(self) -> Departing<Runner>
        ensures step { result ≡ departing self.runner self.number }
        ensures world { LeadsRun self.runner in_leaving left_awake
            (of_left self) (of_departing result) }
    {
        let Left { runner, number } = self;
        Departing::of(runner, number)
    }
}

impl Departed<Runner> {
    /// The rest of a run after `Departed`: what it keeps, which has ended.
    pub(crate) fn end(self) -> RunRest
        ensures rest { result ≡ record { runner = self.actor; stage = stage.Ended } }
        ensures world { rest_ticker result ≡ of_departed self (runner_in self.actor) }
    {
        let Departed { actor } = self;
        RunRest::of_ended(actor)
    }
}

/// To give the place of a runner back that was never registered.
pub(crate) struct Releasing {
    pub(in crate::machine) runner: Runner,
}

impl Releasing {
    /// Takes a run's step `Releasing`: gives the place of its runner back.
    pub(crate) fn make<W>(self, cells: &mut Cells<(), (), W>) -> Departed<Runner>
        ensures cells { cells.new ≡ after_release_runner cells.old self.runner.key.number }
        ensures step { result ≡ record { actor = self.runner } }
        ensures world { LeadsRun self.runner at_rest ended
            (of_releasing self) (of_departed result) }
    {
        cells.release_runner(self.runner.key());
        self.released()
    }

    /// A run's step after `Releasing`: the place was given back.
    pub(in crate::machine) fn released(self) -> Departed<Runner>
        ensures { result ≡ record { actor = self.runner } }
    {
        let Releasing { runner } = self;
        Departed { actor: runner }
    }
}
