//! A world: the steps of all parties of an executor in any order, and the log of what they did.
//!
//! A party may spawn, wake, take a task, end its poll, say that its future was dropped, poll,
//! cancel, detach or drop its handle, exchange the flag, or notify a sleeper. A ticker may be made,
//! polled and dropped, and while it is polled it searches for a task, goes to sleep, removes its
//! number and stores the flag, each by a step of its own. A ticker is a tick, which looks at the
//! global queue alone, or a run, whose runner has a queue of its own while it is registered. The
//! executor may be closed once, and then its tasks are drained, each to be dropped; or it may be
//! leaked once, and then it goes on and is never closed. A `World` takes such steps in any list,
//! mixed freely: between two of one party, others may take theirs. It makes each on its `Core`, and
//! logs what happened to which task. A step that is not enabled is answered and changes nothing.
//!
//! The notices and the picks that the steps leave to be spent are kept as counts. They float: any
//! party may spend one, at any time, a notice by an exchange, a pick by a notification. A ticker
//! keeps the notice of the task that it found while it still has to remove its number; that, and
//! what stands in a change of the sleepers' list, is said by its phase.
//!
//! The lock of the sleepers is there as the *holder*: the one ticker that has changed the list and
//! has still to store the flag. While there is one, nobody else changes the list or notifies.
//!
//! The log alone says where a task stands: whether it was dropped, is held, is owed a poll or a
//! drop, or is idle is read off the events. The contracts of `World::step` and `World::run` say
//! that the queues and the futures that are out agree with the log after every list of steps, and
//! that no notice is lost: if a task is in the global queue and somebody sleeps, one is notified,
//! or a notice or a pick is out, or a ticker has still to search. If every ticker is a run, this
//! holds of all queues. They do not say that anybody ever runs. The contract of `World::run` says
//! besides that a runner which is alone takes tasks in the order in which they were queued.
ghost use Rattle.std.specs.Prelude.{◌≡◌, ◌≢◌, ◌≤◌, ◌||◌, ◌↔◌, false, true, length, slice_get, option_map, IfOk, IfErr, IsErr, OnErr};
ghost use Rattle.executor_core.specs.World.Agreement.{CellsAgree, HandlesAgree};
ghost use Rattle.executor_core.specs.Cells.Calls.{AllDropped};
ghost use Rattle.executor_core.specs.Limits.{is_lawful, default_limits};
ghost use Rattle.executor_core.specs.World.Log.{held, owed, idle, EachDropped};
ghost use Rattle.executor_core.specs.World.Order.{LoneOrder};
ghost use Rattle.executor_core.specs.World.AllPromises.{KeepsPromises};
ghost use Rattle.executor_core.specs.World.Promises.{notices_out};
ghost use Rattle.executor_core.specs.World.Steps.{StepTo, RunTo, Does, enabled, opening};
ghost use Rattle.executor_core.specs.declared.limits.NewError.TheVariants as NewError;

pub(crate) mod entry;
pub(crate) mod event;
pub(crate) mod reply;
pub(crate) mod request;
pub(crate) mod script;
pub(crate) mod steps;
pub(crate) mod ticker;

use crate::limits::{Limits, NewError};
use crate::plain_core::Core;
use crate::queue::Ring;
use crate::task::{Cells, OutOfMemory};
use entry::{TaskEntry, find_info, has_future};
pub use event::{Event, Purpose};
pub use reply::Reply;
pub use request::Step;
use std::alloc::Global;
use std::marker::Model;
use ticker::Ticker;
pub use ticker::{ListChange, Phase};

/// All parties of an executor, and the log of what they did.
///
/// Futures are of type P and outputs of type T; wakers are units. A contract sees it as an
/// `Execution`: the log, the queues, what is out to be spent, the flag and the sleepers, and what
/// the log does not say of a task and of a ticker.
///
/// Example: `uses::interleaves`.
///
/// ```text
/// let mut world: World<(), u64> = World::new(alloc, 4).ok()?;
/// world.step(Step::Spawn(()));
/// world.step(Step::TryTick);
/// world.step(Step::Wake(0));
/// Some(matches!(world.step(Step::Pend(0)), Reply::Queued(0)))
/// ```
#[derive(Drop)]
pub struct World<P, T> {
    alloc: Global,
    limit: u32,
    // For how many tasks a run's own queue has room.
    // Of the limits this one alone: turns and fair parts are steps, which may come anywhere. At least 1:
    // a run whose queue takes nothing would search in vain beside the tasks of another.
    local: usize,
    accepted: u32,
    core: Core<P, T, ()>,
    // With room for three events a step. A step logs two at most; a close or a leak, of which there is
    // one, logs one for each task, and there are no more tasks than steps.
    log: Vec<Event<T>>,
    entries: Vec<TaskEntry<P>>,
    notices: u32,
    picks: u32,
    tickers: Vec<Ticker>,
    holder: Option<usize>,
    // Whether the executor was leaked.
    leaked: bool,
    // By runner, the ring of a run that has still to register.
    rings: Vec<Option<Ring>>,
}

impl<P, T> Model for World<P, T> {
    ghost use Rattle.executor_core.specs.World.{Execution};
    ghost use Rattle.executor_core.specs.World.Coding.{execution_code};

    ghost Value = { Execution T };

    ghost coded = { execution_code T.code };

    ghost use Rattle.std.specs.Vec.{vec_capacity};
    ghost use Rattle.executor_core.specs.World.View.{execution_of, IsWorld};

    ghost view = { execution_of };

    ghost invariant = { λ a. IsWorld (execution_of a) a.core.cells a.entries.items
        a.rings.items (vec_capacity a.log) };
}

impl<P: Drop, T: Copy> World<P, T> {
    /// A world without tasks, which takes at most this many steps, with the limits of an executor to
    /// which none are handed in.
    ///
    /// # Errors
    ///
    /// `OutOfMemory` if the place of all events to come was refused.
    pub fn new(alloc: Global, limit: u32) -> Result<Self, OutOfMemory>
        requires { limit ≤ 1000000 }
        ensures { IfOk result (λ world. world ≡ opening limit default_limits.local) }
    {
        match World::new_with(alloc, limit, Limits::default()) {
            Ok(world) => Ok(world),
            Err(NewError::OutOfMemory) => Err(OutOfMemory),
            Err(NewError::BadLimits) => unreachable!(),
        }
    }

    /// As `World::new`, with these limits: the queue of each run has room for so many tasks. Turns and
    /// shares of the global queue are ignored here, since the steps may come in any order.
    ///
    /// # Errors
    ///
    /// `BadLimits` exactly if a limit is not in its range, before memory is asked for. Else
    /// `OutOfMemory` if the place of all events to come was refused.
    pub fn new_with(alloc: Global, limit: u32, limits: Limits) -> Result<Self, NewError>
        requires { limit ≤ 1000000 }
        ensures ok { IfOk result (λ world. world ≡ opening limit limits.local) }
        ensures cause { IfErr result
            (λ error. (error ≡ NewError.BadLimits) ↔ (is_lawful limits ≡ false)) }
        ensures bad { is_lawful limits ≡ false → IsErr result }
    {
        if !limits.is_lawful() {
            return Err(NewError::BadLimits);
        }
        let core = Core::new(alloc)?;
        let log = Vec::with_capacity(alloc, 3 * limit as usize)?;
        Ok(World {
            alloc,
            limit,
            local: limits.local,
            accepted: 0,
            core,
            log,
            entries: Vec::new(alloc),
            notices: 0,
            picks: 0,
            tickers: Vec::new(alloc),
            holder: None,
            leaked: false,
            rings: Vec::new(alloc),
        })
    }

    // What holds of every world. It does nothing.
    fn keeps_promises(&self)
        ensures { KeepsPromises self.now }
    {
        self.core.cells.law_holds();
    }

    fn take_step(&mut self, step: Step<P, T>) -> Reply<T>
        ensures { StepTo self.old step result self.new }
    {
        if self.accepted == self.limit {
            return Reply::LogFull;
        }
        if !self.is_enabled(&step) {
            return Reply::NotNow;
        }
        self.make_step(step)
    }

    // `World::step` for a step that is enabled, and that the log has room for.
    fn make_step(&mut self, step: Step<P, T>) -> Reply<T>
        requires room { self.old.accepted ≢ self.old.limit }
        requires enabled { enabled step self.old ≡ true }
        ensures { Does step self.old result self.new }
    {
        match step {
            Step::Spawn(future) => self.spawn(future),
            Step::Wake(n) => self.wake(n),
            Step::TryTick => self.try_tick(),
            Step::TryAny => self.try_any(),
            Step::Pend(n) => self.pend(n),
            Step::Ready(n, output) => self.ready(n, output),
            Step::PollHandle(n) => self.poll_handle(n),
            Step::Cancel(n) => self.cancel(n),
            Step::Detach(n) => self.detach(n),
            Step::DropHandle(n) => self.drop_handle(n),
            Step::Dropped(n) => self.dropped(n),
            Step::Exchange => self.exchange(),
            Step::Notify => self.notify(),
            Step::Tick => self.tick(),
            Step::Poll(k) => self.poll(k),
            Step::Run => self.make_run(),
            Step::Register(k) => self.register(k),
            Step::Search(k, word) => self.search(k, word),
            Step::Sleep(k) => self.sleep(k),
            Step::Yield(k) => self.yield_now(k),
            Step::Remove(k) => self.remove(k),
            Step::Store(k) => self.store(k),
            Step::Fair(k) => self.fair(k),
            Step::Unregister(k) => self.unregister(k),
            Step::Drop(k) => self.drop_ticker(k),
            Step::Close => self.close(),
            Step::Drain => self.drain(),
            Step::Leak => self.leak(),
        }
    }

    /// The `World` takes one step, of any party.
    ///
    /// # Errors
    ///
    /// The reply is `LogFull` exactly if the world took as many steps as it may; else `NotNow`
    /// exactly if the step is not enabled; else, at a spawn or when a ticker is made, `OutOfMemory`
    /// if a growth was refused, and then the future was dropped. Such a step changes nothing and is
    /// not counted. No other step takes memory.
    pub fn step(&mut self, step: Step<P, T>) -> Reply<T>
        ensures step { StepTo self.old step result self.new }
        ensures promises { KeepsPromises self.new }
    {
        let reply = self.take_step(step);
        self.keeps_promises();
        reply
    }

    /// The `World` takes these steps in turn, and gives their replies in order.
    ///
    /// # Errors
    ///
    /// `OutOfMemory` if the place of all replies was refused: then no step was taken, and the steps
    /// were dropped.
    pub fn run(&mut self, steps: Vec<Step<P, T>>) -> Result<Vec<Reply<T>>, OutOfMemory>
        ensures run { IfOk result (λ replies. RunTo self.old steps.items replies.items self.new) }
        ensures order { IfOk result
            (λ replies. LoneOrder self.old steps.items replies.items self.new) }
        ensures refused { OnErr result (self.new ≡ self.old) }
        ensures promises { KeepsPromises self.new }
    {
        self.keeps_promises();
        let mut replies = Vec::with_capacity(self.alloc, steps.len())?;
        for step in steps {
            replies.push_reserved(self.step(step));
        }
        self.keeps_promises();
        Ok(replies)
    }

    /// Whether the world has the task's future in its cell: the task was spawned, and is owed a poll or
    /// a drop, or is idle.
    pub fn keeps(&self, n: u64) -> bool
        ensures { result ≡ (owed n self.now.log || idle n self.now.log) }
    {
        match find_info(&self.entries, n) {
            Some(info) => self.core.cells.keeps(info.id(n)),
            None => false,
        }
    }

    /// Whether the world has the task's future out of its cell: the task is held, by one holder.
    pub fn is_out(&self, n: u64) -> bool
        ensures { result ≡ held n self.now.log }
    {
        // What the world really keeps, which shows that a held task has one holder. The model has it from
        // the log.
        has_future(&self.entries, n)
    }

    /// The cells on which the steps were made. They answer each handle that is there as the log
    /// says.
    pub fn cells(&self) -> &Cells<P, T, ()>
        ensures next { result.now.next ≡ length self.now.tasks }
        ensures global { result.now.global ≡ self.now.global }
        ensures locals { result.now.locals ≡ self.now.locals }
        ensures empty { AllDropped result.now ↔ EachDropped self.now.log }
        ensures handles { HandlesAgree result.now self.now.log self.now.tasks }
        ensures states { CellsAgree result.now self.now.log }
    {
        &self.state().cells
    }

    /// The shared state on which the steps were made. Its cells are those that `cells` lends.
    pub fn state(&self) -> &Core<P, T, ()>
        ensures next { result.now.cells.next ≡ length self.now.tasks }
        ensures global { result.now.cells.global ≡ self.now.global }
        ensures locals { result.now.cells.locals ≡ self.now.locals }
        ensures empty { AllDropped result.now.cells ↔ EachDropped self.now.log }
        ensures handles { HandlesAgree result.now.cells self.now.log self.now.tasks }
        ensures states { CellsAgree result.now.cells self.now.log }
        ensures flag { result.now.flag ≡ self.now.flag }
        ensures sleepers { result.now.sleepers ≡ self.now.sleepers }
    {
        &self.core
    }

    /// The events in the world's log, in order.
    pub fn log(&self) -> &[Event<T>]
        ensures { result.now ≡ self.now.log }
    {
        &self.log
    }

    /// How many notices of the world are out, still to be spent by an exchange of the flag: those that
    /// float, those that tickers keep, and those in the changes that they have still to store.
    pub fn notices(&self) -> u32
        ensures { result ≡ notices_out self.now }
    {
        let mut notices = self.notices;
        for ticker in &self.tickers {
            notices += ticker.phase.notices();
        }
        notices
    }

    /// The ticker of the world that holds the sleepers' lock, since it has the flag to store.
    pub fn holder(&self) -> Option<usize>
        ensures { result ≡ self.now.holder }
    {
        self.holder
    }

    /// Which step of the world's ticker comes next. `None` if it was not made.
    pub fn phase(&self, k: usize) -> Option<Phase>
        ensures { result ≡ option_map (λ t. t.phase) (slice_get self.now.tickers k) }
    {
        match self.tickers.get(k) {
            Some(ticker) => Some(ticker.phase),
            None => None,
        }
    }

    /// How many picks of the world are out, still to be spent by a notification of the sleepers.
    pub fn picks(&self) -> u32
        ensures { result ≡ self.now.picks }
    {
        self.picks
    }
}
