//! The steps, by party, and how each begins.
ghost use Rattle.std.specs.Prelude.{◌≡◌, ◌+◌, ◌<◌, Some, length, slice_get};
ghost use Rattle.executor_core.specs.World.Entries.{infos};

pub(crate) mod closing;
pub(crate) mod enabled;
pub(crate) mod handles;
pub(crate) mod notices;
pub(crate) mod polls;
pub(crate) mod runs;
pub(crate) mod tasks;
pub(crate) mod tickers;

use crate::interleave::entry::{TaskEntry, TaskInfo};

// Begins a step of the world about this task: counts it, and gives what is known of the task.
pub(crate) fn begin<P>(accepted: &mut u32, entries: &Vec<TaskEntry<P>>, n: u64) -> TaskInfo
    requires room { accepted.old < u32.MAX }
    requires spawned { n < length entries.now.items }
    ensures counted { accepted.new ≡ accepted.old + 1 }
    ensures found { slice_get (infos entries.now.items) n ≡ Some result }
{
    *accepted += 1;
    entries[n as usize].info
}
