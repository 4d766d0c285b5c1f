//! What one who sleeps with several executors owes their queues.
//!
//! It may not take a task of one of them while it still stands among the sleepers of another. So it
//! looks whether there is a task before it takes one, and it keeps the news that it was notified of
//! until it searches or passes them on.
ghost use Rattle.std.specs.Prelude.{◌≡◌, [], is_some, IfNone};
ghost use Rattle.executor_core.specs.Cells.Calls.{any_in};
ghost use Rattle.executor_core.specs.Cells.Law.{queued_of};
ghost use Rattle.executor_core.specs.Queues.{search_any};

use crate::queue::queues::Queues;
use crate::task::table::Cells;
use crate::task::values::{Again, Notice};

impl Notice {
    /// Who was notified, and looks before it takes, acts on the news: a search has still to follow, in
    /// place of the exchange of the flag.
    pub fn act_on(self) -> Again {
        let Notice { unspent: () } = self;
        Again { unspent: () }
    }
}

impl Again {
    /// Who looked leaves the search to others, who have still to hear of it.
    pub fn pass_on(self) -> Notice {
        let Again { unspent: () } = self;
        Notice { unspent: () }
    }
}

impl<P, T, W> Cells<P, T, W> {
    /// Says whether `take_any` would find a task, and takes none. If no task stands in any queue, that
    /// was the search which still had to follow. Otherwise one has still to follow. It takes no memory.
    pub fn look(&self, again: Option<Again>) -> Option<Again>
        ensures exact { is_some result ≡ is_some (any_in self.now).0 }
        ensures none { IfNone result (queued_of self.now ≡ []) }
    {
        if let Some(again) = again {
            again.spend();
        }
        if self.queues.has_queued() {
            return Some(Again { unspent: () });
        }
        None
    }
}

impl<P, T, W> Queues<P, T, W> {
    // For a look: whether a task stands in any queue.
    fn has_queued(&self) -> bool
        ensures { result ≡ is_some (search_any self.now.state.lists).0 }
    {
        self.global_len() > 0 || self.first_occupied().is_some()
    }
}
