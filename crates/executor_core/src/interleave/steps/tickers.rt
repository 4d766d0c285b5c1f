//! The steps of the tickers.
//!
//! A ticker's step is one call on the tasks or one on the sleepers. What a change of the sleepers'
//! list carries stands in the ticker's phase until the store. The list is not changed in between,
//! since the ticker holds it, so the flag that is stored is that of the change.
ghost use Rattle.std.specs.Prelude.{◌≡◌, ◌≢◌, ◌-◌, ◌&&◌, ◌||◌, true, false, not, is_some, cond, None, IfNone, IfSome};
ghost use Rattle.executor_core.specs.Cells.Calls.{search_to};
ghost use Rattle.executor_core.specs.Cells.Law.{queues_of};
ghost use Rattle.executor_core.specs.Sleepers.{SleeperLaw, is_notified_number};
ghost use Rattle.executor_core.specs.Sleepers.Calls.{after_remove};
ghost use Rattle.executor_core.specs.World.Promises.{holds};
ghost use Rattle.executor_core.specs.World.Phases.{at_rest, in_search, in_sleep, in_wake, is_awake};
ghost use Rattle.executor_core.specs.World.Tickers.{is_new_run, may_search, may_go};
ghost use Rattle.executor_core.specs.World.Steps.{ticker, row, Makes, tick_row, found_by, poll_row, search_row, sleep_row, insert_row, update_row, yield_row, remove_row, store_row, drop_row};
ghost use Rattle.executor_core.specs.World.Takes.{TakesTask};

use crate::interleave::World;
use crate::interleave::reply::{Reply, reply_of_removal};
use crate::interleave::steps::notices::{count_if, keep_notice};
use crate::interleave::steps::polls::put_out;
use crate::interleave::ticker::{Ticker, set_ticker, ticker_at};
use crate::plain_core::Core;
use crate::queue::RunnerKey;
use crate::sleepers::{Removed, Update};
use crate::task::{Change, Notice, Taken};

// For a ticker's step: takes its number out of the sleepers, and says whether it was notified.
fn remove_number<P, T>(core: &mut Core<P, T, ()>, number: usize) -> bool
    requires { core.old.sleepers.is_open ≡ false }
    ensures state { core.new
        ≡ record core.old { sleepers = after_remove core.old.sleepers number } }
    ensures notified { result ≡ is_notified_number core.old.sleepers number }
    ensures law { SleeperLaw core.old.sleepers }
{
    core.sleepers.law_holds();
    let Removed { notice, waker: _ } = core.remove(number).into_carried();
    match notice {
        Some(notice) => {
            notice.keep();
            true
        }
        None => false,
    }
}

// The search in this ticker's step: a tick looks at the global queue, a run also at those of the runners.
fn search_of<P, T>(
    core: &mut Core<P, T, ()>,
    ticker: Ticker,
    word: u64,
) -> Option<(Taken<P>, Notice)>
    ensures state { core.new
        ≡ record core.old {
          cells = search_to
              (found_by ticker.runner word (queues_of core.old.cells)) core.old.cells;
        } }
    ensures none { IfNone result
        ((found_by ticker.runner word (queues_of core.old.cells)).0 ≡ None) }
    ensures some { IfSome result
        (λ r. TakesTask core.old.cells
        (found_by ticker.runner word (queues_of core.old.cells)).0 r.0) }
{
    match ticker.runner {
        Some(number) => core.search(RunnerKey { number }, word, None),
        None => core.take_global(None),
    }
}

// For the step that drops a ticker: gives the runner's place back if it is a new run.
fn release_place<P, T>(core: &mut Core<P, T, ()>, ticker: Ticker, is_new: bool)
    requires { is_new ≡ is_new_run core.old.cells.locals ticker }
    ensures { core.new
        ≡ record core.old {
          cells = record core.old.cells {
            free_places = cond is_new (core.old.cells.free_places - 1) core.old.cells.free_places;
          };
        } }
{
    // A running ticker does this right after its end, under the sleepers' lock. In between only a new
    // ticker and an insertion look at the places, and one that has not ended finds its own free.
    if !is_new {
        return;
    }
    let Some(number) = ticker.runner else {
        unreachable!()
    };
    core.release_runner(RunnerKey { number });
}

impl<P: Drop, T: Copy> World<P, T> {
    pub(crate) fn tick(&mut self) -> Reply<T>
        requires room { self.old.accepted ≢ self.old.limit }
        requires unclosed { self.old.closed ≡ false }
        ensures { Makes tick_row self.old result self.new }
    {
        if self.tickers.try_reserve(1).is_err() {
            return Reply::OutOfMemory;
        }
        if self.core.reserve().is_err() {
            return Reply::OutOfMemory;
        }
        let k = self.tickers.len();
        self.accepted += 1;
        self.tickers.push_reserved(Ticker::new(None));
        Reply::Ticker(k)
    }

    pub(crate) fn poll(&mut self, k: usize) -> Reply<T>
        requires room { self.old.accepted ≢ self.old.limit }
        requires enabled { (at_rest (ticker k self.old).phase
            && may_search self.old.locals (ticker k self.old)) ≡ true }
        ensures { row (poll_row k self.old) result self.new }
    {
        self.accepted += 1;
        let ticker = ticker_at(&self.tickers, k);
        set_ticker(&mut self.tickers, k, ticker.polled());
        Reply::Done
    }

    pub(crate) fn search(&mut self, k: usize, word: u64) -> Reply<T>
        requires room { self.old.accepted ≢ self.old.limit }
        requires enabled { in_search (ticker k self.old).phase ≡ true }
        ensures { row (search_row k word self.old) result self.new }
    {
        self.accepted += 1;
        let ticker = ticker_at(&self.tickers, k);
        let Some((taken, notice)) = search_of(&mut self.core, ticker, word) else {
            set_ticker(&mut self.tickers, k, ticker.searched(false));
            return Reply::NoTask;
        };
        set_ticker(&mut self.tickers, k, ticker.searched(true));
        let reply = put_out(&mut self.entries, &mut self.log, taken);
        if !ticker.is_awake() {
            // Its phase says that it keeps the notice.
            notice.keep();
            return reply;
        }
        keep_notice(&mut self.notices, Some(notice));
        if ticker.is_run() {
            return reply;
        }
        self.core.release();
        reply
    }

    pub(crate) fn sleep(&mut self, k: usize) -> Reply<T>
        requires room { self.old.accepted ≢ self.old.limit }
        requires enabled { (in_sleep (ticker k self.old).phase && not (is_some self.old.holder))
            ≡ true }
        ensures { row (sleep_row k self.old) result self.new }
    {
        if ticker_at(&self.tickers, k).is_awake() {
            self.insert(k)
        } else {
            self.update(k)
        }
    }

    fn insert(&mut self, k: usize) -> Reply<T>
        requires room { self.old.accepted ≢ self.old.limit }
        requires enabled { (in_sleep (ticker k self.old).phase && not (is_some self.old.holder))
            ≡ true }
        requires awake { is_awake (ticker k self.old) ≡ true }
        ensures { row (insert_row k self.old) result self.new }
    {
        self.accepted += 1;
        let ticker = ticker_at(&self.tickers, k);
        self.core.sleepers.law_holds();
        let Ok((number, change)) = self.core.insert(()) else {
            unreachable!()
        };
        change.into_carried().spend();
        set_ticker(&mut self.tickers, k, ticker.slept(number));
        self.holder = Some(k);
        Reply::Number(number)
    }

    fn update(&mut self, k: usize) -> Reply<T>
        requires room { self.old.accepted ≢ self.old.limit }
        requires enabled { (in_sleep (ticker k self.old).phase && not (is_some self.old.holder))
            ≡ true }
        requires asleep { is_awake (ticker k self.old) ≡ false }
        ensures { row (update_row k self.old) result self.new }
    {
        self.accepted += 1;
        let ticker = ticker_at(&self.tickers, k);
        match self.core.update(ticker.number, ()) {
            Update::Asleep(()) => {
                set_ticker(&mut self.tickers, k, ticker.rested());
                Reply::Parked
            }
            Update::WasNotified(change) => {
                change.into_carried().spend();
                set_ticker(&mut self.tickers, k, ticker.slept(ticker.number));
                self.holder = Some(k);
                Reply::Again
            }
            Update::Unknown(()) => unreachable!(),
        }
    }

    pub(crate) fn yield_now(&mut self, k: usize) -> Reply<T>
        requires room { self.old.accepted ≢ self.old.limit }
        requires enabled { in_sleep (ticker k self.old).phase ≡ true }
        ensures { row (yield_row k self.old) result self.new }
    {
        self.accepted += 1;
        let ticker = ticker_at(&self.tickers, k);
        set_ticker(&mut self.tickers, k, ticker.rested());
        Reply::Done
    }

    pub(crate) fn remove(&mut self, k: usize) -> Reply<T>
        requires room { self.old.accepted ≢ self.old.limit }
        requires enabled { (in_wake (ticker k self.old).phase && not (is_some self.old.holder))
            ≡ true }
        ensures { row (remove_row k self.old) result self.new }
    {
        self.accepted += 1;
        let ticker = ticker_at(&self.tickers, k);
        let notified = remove_number(&mut self.core, ticker.number);
        set_ticker(&mut self.tickers, k, ticker.woke(notified));
        self.holder = Some(k);
        reply_of_removal(notified)
    }

    pub(crate) fn store(&mut self, k: usize) -> Reply<T>
        requires room { self.old.accepted ≢ self.old.limit }
        requires enabled { holds k self.old.holder ≡ true }
        ensures { row (store_row k self.old) result self.new }
    {
        self.accepted += 1;
        let ticker = ticker_at(&self.tickers, k);
        let notified = self.core.sleepers.is_notified();
        let carried = ();
        self.core.store(Change { notified, carried });
        self.holder = None;
        set_ticker(&mut self.tickers, k, ticker.stored());
        count_if(&mut self.notices, ticker.phase.notices() > 0);
        if !ticker.stored().phase.has_ended() {
            return Reply::Stored(notified);
        }
        self.core.release();
        Reply::Stored(notified)
    }

    pub(crate) fn drop_ticker(&mut self, k: usize) -> Reply<T>
        requires room { self.old.accepted ≢ self.old.limit }
        requires enabled { (may_go self.old.locals (ticker k self.old)
            && (is_awake (ticker k self.old) || not (is_some self.old.holder))) ≡ true }
        ensures { row (drop_row k self.old) result self.new }
    {
        if ticker_at(&self.tickers, k).is_awake() {
            self.drop_awake(k)
        } else {
            self.drop_asleep(k)
        }
    }

    fn drop_awake(&mut self, k: usize) -> Reply<T>
        requires room { self.old.accepted ≢ self.old.limit }
        requires enabled { may_go self.old.locals (ticker k self.old) ≡ true }
        requires awake { is_awake (ticker k self.old) ≡ true }
        ensures { row (drop_row k self.old) result self.new }
    {
        let ticker = ticker_at(&self.tickers, k);
        let is_new = self.is_new_run(ticker);
        self.accepted += 1;
        release_place(&mut self.core, ticker, is_new);
        set_ticker(&mut self.tickers, k, ticker.ended());
        self.core.release();
        Reply::Awake
    }

    fn drop_asleep(&mut self, k: usize) -> Reply<T>
        requires room { self.old.accepted ≢ self.old.limit }
        requires enabled { (may_go self.old.locals (ticker k self.old)
            && not (is_some self.old.holder)) ≡ true }
        requires asleep { is_awake (ticker k self.old) ≡ false }
        ensures { row (drop_row k self.old) result self.new }
    {
        self.accepted += 1;
        let ticker = ticker_at(&self.tickers, k);
        let notified = remove_number(&mut self.core, ticker.number);
        set_ticker(&mut self.tickers, k, ticker.dropped(notified));
        self.holder = Some(k);
        reply_of_removal(notified)
    }
}
