//! Which steps are enabled.
ghost use Rattle.std.specs.Prelude.{◌≡◌, ◌&&◌, ◌||◌, nat_lt, not, is_some};
ghost use Rattle.executor_core.specs.World.Log.{held};
ghost use Rattle.executor_core.specs.World.Promises.{holds};
ghost use Rattle.executor_core.specs.World.Steps.{info, ticker, some_held, may_close, enabled};
ghost use Rattle.executor_core.specs.World.Phases.{at_rest, is_awake};
ghost use Rattle.executor_core.specs.World.Tickers.{has_queue, is_new_run, may_register, may_search, may_go};

use crate::interleave::World;
use crate::interleave::entry::{find_info, some_out};
use crate::interleave::request::Step;
use crate::interleave::ticker::{Phase, Ticker, some_busy, ticker_at};
use crate::queue::RunnerKey;

impl<P: Drop, T: Copy> World<P, T> {
    // Whether a poll of the task may end.
    fn may_end(&self, n: u64) -> bool
        ensures { result ≡ (held n self.now.log && not (info n self.now).to_drop) }
    {
        match find_info(&self.entries, n) {
            Some(info) => self.is_out(n) && !info.to_drop,
            None => false,
        }
    }

    // Whether the drop of the task's future may be said.
    fn may_drop(&self, n: u64) -> bool
        ensures { result ≡ (held n self.now.log && (info n self.now).to_drop) }
    {
        match find_info(&self.entries, n) {
            Some(info) => self.is_out(n) && info.to_drop,
            None => false,
        }
    }

    // Whether the steps of the task's handle are enabled: it is there.
    fn has_handle(&self, n: u64) -> bool
        ensures { result ≡ (info n self.now).has_handle }
    {
        match find_info(&self.entries, n) {
            Some(info) => info.has_handle,
            None => false,
        }
    }

    // What is kept of the ticker, by which its steps are enabled.
    fn ticker(&self, k: usize) -> Ticker
        ensures { result ≡ ticker k self.now }
    {
        // One that was never made is seen as one that has ended: no step of it is enabled.
        ticker_at(&self.tickers, k)
    }

    // Whether a step may take the sleepers' lock: nobody holds it.
    fn is_free(&self) -> bool
        ensures { result ≡ not (is_some self.now.holder) }
    {
        self.holder.is_none()
    }

    // Whether the step that notifies a sleeper is enabled.
    fn may_notify(&self) -> bool
        ensures { result ≡ (nat_lt 0 self.now.picks && not (is_some self.now.holder)) }
    {
        self.picks > 0 && self.is_free()
    }

    // Whether the step that stores the flag is enabled: the ticker holds the sleepers' lock.
    fn is_held_by(&self, k: usize) -> bool
        ensures { result ≡ holds k self.now.holder }
    {
        match self.holder {
            Some(holder) => holder == k,
            None => false,
        }
    }

    // Whether the ticker's runner is registered, on which its enabled steps depend.
    fn has_queue(&self, ticker: Ticker) -> bool
        ensures { result ≡ has_queue self.now.locals ticker }
    {
        match ticker.runner {
            Some(number) => self.core.cells.is_registered(RunnerKey { number }),
            None => false,
        }
    }

    // Whether the ticker is a run whose runner was not registered yet, at rest or forgotten.
    pub(crate) fn is_new_run(&self, ticker: Ticker) -> bool
        ensures { result ≡ is_new_run self.now.locals ticker }
    {
        let waits = matches!(ticker.phase, Phase::Rest | Phase::Forgotten);
        ticker.is_run() && waits && !self.has_queue(ticker)
    }

    // Whether the ticker may register its runner.
    fn may_register(&self, k: usize) -> bool
        ensures { result ≡ may_register self.now.locals (ticker k self.now) }
    {
        let ticker = self.ticker(k);
        matches!(ticker.phase, Phase::Rest) && self.is_new_run(ticker)
    }

    // Whether the step that polls a ticker is enabled.
    fn may_poll(&self, k: usize) -> bool
        ensures { result
            ≡ (at_rest (ticker k self.now).phase
            && may_search self.now.locals (ticker k self.now)) }
    {
        let ticker = self.ticker(k);
        matches!(ticker.phase, Phase::Rest) && (!ticker.is_run() || self.has_queue(ticker))
    }

    // Whether the run may take a fair part or unregister: it is at rest, and its runner is registered.
    fn rests_registered(&self, k: usize) -> bool
        ensures { result
            ≡ (at_rest (ticker k self.now).phase && has_queue self.now.locals (ticker k self.now)) }
    {
        let ticker = self.ticker(k);
        matches!(ticker.phase, Phase::Rest) && self.has_queue(ticker)
    }

    // Whether the ticker may be dropped. One that has a number needs the sleepers' lock.
    fn may_drop_ticker(&self, k: usize) -> bool
        ensures { result
            ≡ (may_go self.now.locals (ticker k self.now)
            && (is_awake (ticker k self.now) || not (is_some self.now.holder))) }
    {
        let ticker = self.ticker(k);
        let may_go = match ticker.phase {
            Phase::Rest => !self.has_queue(ticker),
            Phase::Leaving => true,
            _ => false,
        };
        may_go && (ticker.is_awake() || self.is_free())
    }

    // Whether the executor is closed: then a drain is enabled, and a spawn is not.
    fn is_closed(&self) -> bool
        ensures { result ≡ self.now.closed }
    {
        self.core.cells.is_closed()
    }

    // Whether a task is held, so that no close or leak is enabled.
    fn some_held(&self) -> bool
        ensures { result ≡ some_held self.now }
    {
        some_out(&self.entries)
    }

    // Whether the executor may be closed, or leaked.
    fn may_close(&self) -> bool
        ensures { result ≡ may_close self.now }
    {
        // Both take the executor from its owner, whose ticks and runs borrow it; a poll of a task is one
        // of theirs.
        !self.is_closed() && !self.leaked && !self.some_held() && !some_busy(&self.tickers)
    }

    // Whether the step is enabled.
    pub(crate) fn is_enabled(&self, step: &Step<P, T>) -> bool
        ensures { result ≡ enabled step.now self.now }
    {
        match step {
            // `TryAny` changes the queues of runners, which a closed executor has empty.
            Step::Spawn(_) | Step::TryTick | Step::TryAny | Step::Tick | Step::Run =>
                !self.is_closed(),
            Step::Wake(n) => find_info(&self.entries, *n).is_some(),
            Step::Pend(n) => self.may_end(*n),
            Step::Ready(n, _) => self.may_end(*n),
            Step::PollHandle(n) => self.has_handle(*n),
            Step::Cancel(n) => self.has_handle(*n),
            Step::Detach(n) => self.has_handle(*n),
            Step::DropHandle(n) => self.has_handle(*n),
            Step::Dropped(n) => self.may_drop(*n),
            Step::Exchange => self.notices > 0,
            Step::Notify => self.may_notify(),
            Step::Register(k) => self.may_register(*k),
            Step::Poll(k) => self.may_poll(*k),
            Step::Search(k, _) => matches!(self.ticker(*k).phase, Phase::Search),
            Step::Sleep(k) => matches!(self.ticker(*k).phase, Phase::Sleep) && self.is_free(),
            Step::Yield(k) => matches!(self.ticker(*k).phase, Phase::Sleep),
            Step::Remove(k) => matches!(self.ticker(*k).phase, Phase::Wake) && self.is_free(),
            Step::Store(k) => self.is_held_by(*k),
            Step::Fair(k) => self.rests_registered(*k),
            Step::Unregister(k) => self.rests_registered(*k),
            Step::Drop(k) => self.may_drop_ticker(*k),
            Step::Close => self.may_close(),
            Step::Drain => self.is_closed(),
            Step::Leak => self.may_close(),
        }
    }
}
