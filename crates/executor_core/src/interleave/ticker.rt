//! What a world keeps of each ticker: which of its steps comes next, and the number under which it
//! sleeps.
//!
//! A ticker searches for a task. While it finds none it goes to sleep, and searches once more
//! before it rests. If it finds one it removes its number, which it has if it slept before.
//!
//! | phase | the next step |
//! |---|---|
//! | `Rest` | a poll, or the drop of a tick; a run registers before its first poll, and may take a fair part or unregister after that |
//! | `Search` | a search |
//! | `Sleep` | going to sleep, or a yield |
//! | `Wake` | the removal of its number |
//! | `Store` | the store of the flag |
//! | `Leaving` | its drop |
//! | `Forgotten` | none |
//! | `Ended` | none |
//!
//! A ticker is a tick or a run. A tick ends once its task runs. A run is at rest then, and has the
//! queue of a runner, which it registers before its first poll and unregisters before its drop. A
//! ticker that is at rest when the executor is closed or leaked is forgotten: it keeps its number and
//! its places.

ghost use Rattle.std.specs.Prelude.{◌≡◌, ◌||◌, not, map, slice_get, slice_set};
ghost use Rattle.std.specs.List.{list_any};
ghost use Rattle.executor_core.specs.World.Phases.{at_rest, is_over, is_awake, is_run, has_ended, notices_in, ticker_or, new_ticker};
ghost use Rattle.executor_core.specs.World.Tickers.{after_task, polled, searched, slept, rested, woke, dropped, ended, stored, left, forgotten};

/// Which step of a ticker comes next.
#[derive(Debug, Clone, Copy, PartialEq)]
pub enum Phase {
    /// It waits to be polled or dropped, or to register, to take a fair part or to unregister.
    Rest,
    /// It has still to search for a task.
    Search,
    /// It found no task, and has still to go to sleep, or to yield.
    Sleep,
    /// It found a task while it has a number, and has still to remove that. It keeps the notice of
    /// the task.
    Wake,
    /// It changed the list of sleepers, and has still to store the flag.
    Store(ListChange),
    /// Its runner is unregistered, and it has still to be dropped.
    Leaving,
    /// It was at rest when the executor was closed or leaked, and takes no step any more.
    Forgotten,
    /// It is a tick that found a task and is awake, or it was dropped.
    Ended,
}

/// How a ticker changed the list of sleepers, and what it has with the change.
#[derive(Debug, Clone, Copy, PartialEq)]
pub enum ListChange {
    /// It went to sleep. The change carries an `Again`.
    // No value that must be spent: nobody else changes the list while the ticker holds the lock, so the
    // store makes the change anew. The search that an `Again` asks for is the ticker's next phase.
    Slept,
    /// It found a task, and its number is removed. It keeps the notice of the task, and the change
    /// carries another one if the number was notified.
    Woke { notified: bool },
    /// It was dropped, and its number is removed. The change carries a notice if the number was
    /// notified.
    Dropped { notified: bool },
}

/// What a world keeps of a ticker.
#[derive(Debug, Clone, Copy, PartialEq)]
pub struct Ticker {
    /// Which of its steps comes next.
    pub(crate) phase: Phase,
    /// The number under which it sleeps, or 0 if it is awake.
    pub(crate) number: usize,
    /// The number of its runner, if it is a run.
    pub(crate) runner: Option<u64>,
}

impl Phase {
    // How many notices a world's ticker keeps, with those in its change.
    pub(crate) fn notices(self) -> u32
        ensures { result ≡ notices_in self }
    {
        match self {
            Phase::Wake => 1,
            Phase::Store(ListChange::Woke { notified }) => 1 + u32::from(notified),
            Phase::Store(ListChange::Dropped { notified }) => u32::from(notified),
            _ => 0,
        }
    }

    // Whether a world's ticker has ended, and takes no step any more.
    pub(crate) fn has_ended(self) -> bool
        ensures { result ≡ has_ended self }
    {
        matches!(self, Phase::Ended)
    }
}

impl Ticker {
    // What a world keeps of a ticker that was just made: a tick, or the run of this runner.
    pub(crate) fn new(runner: Option<u64>) -> Ticker
        ensures { result ≡ new_ticker runner }
    {
        Ticker {
            phase: Phase::Rest,
            number: 0,
            runner,
        }
    }

    // Whether a world's ticker is a run.
    pub(crate) fn is_run(self) -> bool
        ensures { result ≡ is_run self }
    {
        self.runner.is_some()
    }

    // The phase of a world's ticker once its task runs.
    fn after_task(self) -> Phase
        ensures { result ≡ after_task self }
    {
        if self.is_run() {
            Phase::Rest
        } else {
            Phase::Ended
        }
    }

    // Whether a world's ticker has no number.
    pub(crate) fn is_awake(self) -> bool
        ensures { result ≡ is_awake self }
    {
        self.number == 0
    }

    // What a world keeps of the ticker after a poll.
    pub(crate) fn polled(self) -> Ticker
        ensures { result ≡ polled self }
    {
        Ticker {
            phase: Phase::Search,
            ..self
        }
    }

    // What a world keeps of the ticker after a search, by whether it found a task.
    pub(crate) fn searched(self, found: bool) -> Ticker
        ensures { result ≡ searched found self }
    {
        let phase = match (found, self.is_awake()) {
            (false, _) => Phase::Sleep,
            (true, true) => self.after_task(),
            (true, false) => Phase::Wake,
        };
        Ticker { phase, ..self }
    }

    // What a world keeps of the ticker after it went to sleep under this number.
    pub(crate) fn slept(self, number: usize) -> Ticker
        ensures { result ≡ slept number self }
    {
        Ticker {
            phase: Phase::Store(ListChange::Slept),
            number,
            ..self
        }
    }

    // What a world keeps of the ticker at rest.
    pub(crate) fn rested(self) -> Ticker
        ensures { result ≡ rested self }
    {
        Ticker {
            phase: Phase::Rest,
            ..self
        }
    }

    // What a world keeps of the ticker, awake, after its number was removed, since it found a task.
    pub(crate) fn woke(self, notified: bool) -> Ticker
        ensures { result ≡ woke notified self }
    {
        Ticker {
            phase: Phase::Store(ListChange::Woke { notified }),
            number: 0,
            ..self
        }
    }

    // What a world keeps of the ticker, awake, after its number was removed, since it is dropped.
    pub(crate) fn dropped(self, notified: bool) -> Ticker
        ensures { result ≡ dropped notified self }
    {
        Ticker {
            phase: Phase::Store(ListChange::Dropped { notified }),
            number: 0,
            ..self
        }
    }

    // What a world keeps of the ticker after it was dropped while it is awake.
    pub(crate) fn ended(self) -> Ticker
        ensures { result ≡ ended self }
    {
        Ticker {
            phase: Phase::Ended,
            ..self
        }
    }

    // What a world keeps of the ticker after the store of its change.
    pub(crate) fn stored(self) -> Ticker
        ensures { result ≡ stored self }
    {
        let phase = match self.phase {
            Phase::Store(ListChange::Slept) => Phase::Search,
            Phase::Store(ListChange::Woke { .. }) => self.after_task(),
            _ => Phase::Ended,
        };
        Ticker { phase, ..self }
    }

    // Whether a world's ticker is neither at rest nor over.
    pub(crate) fn is_busy(self) -> bool
        ensures { result ≡ not (at_rest self.phase || is_over self.phase) }
    {
        !matches!(self.phase, Phase::Rest | Phase::Forgotten | Phase::Ended)
    }

    // What a world keeps of the ticker after a close or a leak: one that is at rest is forgotten.
    pub(crate) fn forgotten(self) -> Ticker
        ensures { result ≡ forgotten self }
    {
        let phase = match self.phase {
            Phase::Rest => Phase::Forgotten,
            phase => phase,
        };
        Ticker { phase, ..self }
    }

    // What a world keeps of the ticker after its runner was unregistered.
    pub(crate) fn left(self) -> Ticker
        ensures { result ≡ left self }
    {
        Ticker {
            phase: Phase::Leaving,
            ..self
        }
    }
}

// What a world keeps of this ticker. One that was not made is as one that has ended.
pub(crate) fn ticker_at(tickers: &Vec<Ticker>, k: usize) -> Ticker
    ensures { result ≡ ticker_or (slice_get tickers.now.items k) }
{
    match tickers.get(k) {
        Some(ticker) => *ticker,
        None => Ticker {
            phase: Phase::Ended,
            number: 0,
            runner: None,
        },
    }
}

// Puts this in the place of what a world kept of the ticker.
pub(crate) fn set_ticker(tickers: &mut Vec<Ticker>, k: usize, ticker: Ticker)
    ensures { tickers.new.items ≡ slice_set tickers.old.items k ticker }
{
    if k < tickers.len() {
        tickers[k] = ticker;
    }
}

// Whether one of the tickers is neither at rest nor over.
pub(crate) fn some_busy(tickers: &Vec<Ticker>) -> bool
    ensures { result ≡ list_any (λ t. not (at_rest t.phase || is_over t.phase)) tickers.now.items }
{
    for ticker in tickers {
        if ticker.is_busy() {
            return true;
        }
    }
    false
}

// Forgets each ticker that is at rest.
pub(crate) fn forget_all(tickers: &mut Vec<Ticker>)
    ensures { tickers.new.items ≡ map forgotten tickers.old.items }
{
    for ticker in tickers.iter_mut() {
        *ticker = ticker.forgotten();
    }
}
