//! The steps of runs alone.
//!
//! A run takes its ring, its sleeper's place and its runner's place as it is made. It registers its
//! runner before its first poll, and unregisters it before its drop.
ghost use Rattle.std.specs.Prelude.{◌≡◌, ◌≢◌, ◌&&◌, true, false, None, slice_index_or, slice_set};
ghost use Rattle.executor_core.specs.World.Phases.{at_rest};
ghost use Rattle.executor_core.specs.World.Tickers.{has_queue, may_register};
ghost use Rattle.executor_core.specs.World.Steps.{ticker, row, Makes, run_row, register_row, fair_row, unregister_row};

use crate::interleave::World;
use crate::interleave::reply::{Reply, reply_of_notice};
use crate::interleave::steps::notices::keep_notice;
use crate::interleave::ticker::{Ticker, set_ticker, ticker_at};
use crate::queue::{Ring, RunnerError, RunnerKey};

impl<P: Drop, T: Copy> World<P, T> {
    pub(crate) fn make_run(&mut self) -> Reply<T>
        requires room { self.old.accepted ≢ self.old.limit }
        requires unclosed { self.old.closed ≡ false }
        ensures { Makes run_row self.old result self.new }
    {
        if self.tickers.try_reserve(1).is_err() {
            return Reply::OutOfMemory;
        }
        if self.rings.try_reserve(1).is_err() {
            return Reply::OutOfMemory;
        }
        let Ok(ring) = Ring::new(self.alloc, self.local) else {
            return Reply::OutOfMemory;
        };
        if self.core.reserve().is_err() {
            return Reply::OutOfMemory;
        }
        let key = match self.core.reserve_runner() {
            Ok(key) => key,
            Err(RunnerError::Exhausted) => unreachable!(),
            Err(RunnerError::OutOfMemory) => {
                self.core.release();
                return Reply::OutOfMemory;
            }
        };
        let k = self.tickers.len();
        self.accepted += 1;
        self.rings.push_reserved(Some(ring));
        self.tickers.push_reserved(Ticker::new(Some(key.number)));
        Reply::Ticker(k)
    }

    pub(crate) fn register(&mut self, k: usize) -> Reply<T>
        requires room { self.old.accepted ≢ self.old.limit }
        requires enabled { may_register self.old.locals (ticker k self.old) ≡ true }
        ensures { row (register_row k self.old) result self.new }
    {
        self.accepted += 1;
        let Some(number) = ticker_at(&self.tickers, k).runner else {
            unreachable!()
        };
        let Some(ring) = take_ring(&mut self.rings, number) else {
            unreachable!()
        };
        let Ok(()) = self.core.register(RunnerKey { number }, ring) else {
            unreachable!()
        };
        Reply::Done
    }

    pub(crate) fn fair(&mut self, k: usize) -> Reply<T>
        requires room { self.old.accepted ≢ self.old.limit }
        requires enabled { (at_rest (ticker k self.old).phase
            && has_queue self.old.locals (ticker k self.old)) ≡ true }
        ensures { row (fair_row k self.old) result self.new }
    {
        self.accepted += 1;
        let Some(number) = ticker_at(&self.tickers, k).runner else {
            unreachable!()
        };
        Reply::Moved(self.core.fair(RunnerKey { number }))
    }

    pub(crate) fn unregister(&mut self, k: usize) -> Reply<T>
        requires room { self.old.accepted ≢ self.old.limit }
        requires enabled { (at_rest (ticker k self.old).phase
            && has_queue self.old.locals (ticker k self.old)) ≡ true }
        ensures { row (unregister_row k self.old) result self.new }
    {
        self.accepted += 1;
        let ticker = ticker_at(&self.tickers, k);
        let Some(number) = ticker.runner else {
            unreachable!()
        };
        let notice = self.core.unregister(RunnerKey { number });
        set_ticker(&mut self.tickers, k, ticker.left());
        reply_of_notice(keep_notice(&mut self.notices, notice))
    }
}

// Takes the ring of a run that has still to register this runner, if it is there.
fn take_ring(rings: &mut Vec<Option<Ring>>, runner: u64) -> Option<Ring>
    ensures ring { result ≡ slice_index_or rings.old.items runner None }
    ensures rest { rings.new.items ≡ slice_set rings.old.items runner None }
{
    match rings.get_mut(runner as usize) {
        Some(ring) => ring.take(),
        None => None,
    }
}
