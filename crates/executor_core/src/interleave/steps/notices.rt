//! The steps of those who have a notice or a pick to spend, and the counts of both.
ghost use Rattle.std.specs.Prelude.{◌≡◌, ◌≢◌, ◌+◌, ◌<◌, ◌&&◌, nat_lt, not, true, cond, is_some};
ghost use Rattle.std.specs.Map.{keys_of};
ghost use Rattle.executor_core.specs.Sleepers.{SleeperLaw};
ghost use Rattle.executor_core.specs.Sleepers.Calls.{last_of};
ghost use Rattle.executor_core.specs.World.Promises.{floating_notices};
ghost use Rattle.executor_core.specs.World.Steps.{row, exchange_row, notify_row};

use crate::interleave::World;
use crate::interleave::reply::{Reply, has_awaiter, reply_of_pick, reply_of_sleeper};
use crate::sleepers::Sleepers;
use crate::task::{Notice, Pick};

// Counts one more notice of the world if this holds.
pub(crate) fn count_if(count: &mut u32, holds: bool)
    requires { count.old < u32.MAX }
    ensures { count.new ≡ cond holds (count.old + 1) count.old }
{
    if holds {
        *count += 1;
    }
}

// Counts the notice among those of the world, if there is one, and says whether there was.
pub(crate) fn keep_notice(notices: &mut u32, notice: Option<Notice>) -> bool
    requires { notices.old < u32.MAX }
    ensures counted { notices.new ≡ cond (is_some notice) (notices.old + 1) notices.old }
    ensures kept { result ≡ is_some notice }
{
    match notice {
        Some(notice) => {
            notice.keep();
            *notices += 1;
            true
        }
        None => false,
    }
}

// Counts the pick among those of the world, if there is one, and says whether there was.
fn keep_pick(picks: &mut u32, pick: Option<Pick>) -> bool
    requires { picks.old < u32.MAX }
    ensures counted { picks.new ≡ cond (is_some pick) (picks.old + 1) picks.old }
    ensures kept { result ≡ is_some pick }
{
    match pick {
        Some(pick) => {
            let Pick { unspent: () } = pick;
            *picks += 1;
            true
        }
        None => false,
    }
}

// For the step that notifies: the number of the one who went to sleep last.
fn last_number<W>(sleepers: &Sleepers<W>) -> Option<usize>
    ensures number { result ≡ last_of (keys_of sleepers.now.unnotified) }
    ensures law { SleeperLaw sleepers.now }
{
    sleepers.at(sleepers.len().saturating_sub(1))
}

impl<P: Drop, T: Copy> World<P, T> {
    pub(crate) fn exchange(&mut self) -> Reply<T>
        requires room { self.old.accepted ≢ self.old.limit }
        requires enabled { 0 < floating_notices self.old }
        ensures { row (exchange_row self.old) result self.new }
    {
        self.accepted += 1;
        self.notices -= 1;
        let pick = self.core.exchange(Notice { unspent: () });
        reply_of_pick(keep_pick(&mut self.picks, pick))
    }

    pub(crate) fn notify(&mut self) -> Reply<T>
        requires room { self.old.accepted ≢ self.old.limit }
        requires enabled { (nat_lt 0 self.old.picks && not (is_some self.old.holder)) ≡ true }
        ensures { row (notify_row self.old) result self.new }
    {
        self.accepted += 1;
        self.picks -= 1;
        let last = last_number(&self.core.sleepers);
        let notified = has_awaiter(self.core.notify(Pick { unspent: () }));
        reply_of_sleeper(notified, last)
    }
}
