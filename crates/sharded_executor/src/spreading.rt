//! To which shard a spawn goes.
//!
//! The shards have their turns. If a thread spawns, takes or ends a task of a shard just as its turn comes, a
//! spawner would wait for that thread, and then that thread for the spawner. So the shard misses the task,
//! and the next one has it. At a turn of that one, the shard makes up for what it missed, if nobody is at
//! work there. No shard misses more than sixteen: so tasks that stay long are spread nearly as if none was
//! missed.
ghost use Rattle.std.specs.Prelude.{◌≡◌, ◌<◌, ◌≤◌, ◌%◌, ◌/◌, IfOk, vec_len};

use crate::progress::Count;
use async_executor::OutOfMemory;
use std::alloc::Global;
use std::sync::atomic::Ordering;

/// So many tasks a shard are spread one by one, and after that so many in a row go to each.
const IN_A_ROW: u64 = 16;

/// So many spawns a shard may have missed.
const MOST_MISSED: u64 = 16;

/// How spawns are spread over the shards, each of which is a number below their count.
#[derive(Drop)]
pub(crate) struct Spread {
    // How many spawns there were, modulo 2^64. One count for all: one for each thread would need a place
    // for it.
    spawns: Count,
    // How many spawns each shard has missed, and not made up for.
    missed: Vec<Count>,
    ghost some: { 0 < vec_len missed },
}

impl Spread {
    /// The `Spread` over so many shards, before the first spawn.
    pub(crate) fn new(alloc: Global, count: usize) -> Result<Spread, OutOfMemory>
        requires { 0 < count }
        ensures { IfOk result (λ spread. vec_len spread.missed ≡ count) }
    {
        let missed = counts(alloc, count)?;
        Ok(Spread {
            spawns: Count::new(),
            missed,
        })
    }

    /// The shard whose turn it is now.
    pub(crate) fn next(&self) -> usize
        ensures { result < vec_len self.now.missed }
    {
        let number = self.spawns.count.fetch_add(1, Ordering::SeqCst);
        shard_of(number, self.missed.len())
    }

    /// Whether the shard has missed a spawn and not made up for it.
    pub(crate) fn owes(&self, shard: usize) -> bool
        requires { shard < vec_len self.now.missed }
    {
        self.missed[shard].count.load(Ordering::SeqCst) > 0
    }

    /// Has the shard miss a spawn, unless it has missed the most that it may, and says whether it does.
    pub(crate) fn misses(&self, shard: usize) -> bool
        requires { shard < vec_len self.now.missed }
    {
        let missed = self.missed[shard].count.load(Ordering::SeqCst);
        missed < MOST_MISSED && self.replaces(shard, missed, missed + 1)
    }

    /// Says that the shard has made up for a spawn.
    pub(crate) fn makes_up(&self, shard: usize)
        requires { shard < vec_len self.now.missed }
    {
        let missed = self.missed[shard].count.load(Ordering::SeqCst);
        if missed > 0 {
            // In vain if another thread counts just now: then the shard has one task too many.
            self.replaces(shard, missed, missed - 1);
        }
    }

    // Replaces the count of missed spawns of the shard, unless another thread counts just now, and says
    // whether it did.
    fn replaces(&self, shard: usize, from: u64, to: u64) -> bool
        requires { shard < vec_len self.now.missed }
    {
        self.missed[shard]
            .count
            .compare_exchange(from, to, Ordering::SeqCst, Ordering::SeqCst)
            .is_ok()
    }
}

// The shard of the spawn of this number, of so many shards. Who spawns on another shard than before takes
// the cache lines of that shard from the thread that runs it, and gives them back.
fn shard_of(number: u64, shards: usize) -> usize
    requires { 0 < shards }
    ensures inside { result < shards }
    ensures first { number / 16 < shards → result ≡ number % shards }
    ensures later { shards ≤ number / 16 → result ≡ number / 16 % shards }
{
    let shards = shards as u64;
    let row = number / IN_A_ROW;
    let turn = if row < shards { number } else { row };
    (turn % shards) as usize
}

/// So many counts of nothing yet.
pub(crate) fn counts(alloc: Global, count: usize) -> Result<Vec<Count>, OutOfMemory>
    ensures { IfOk result (λ counts. vec_len counts ≡ count) }
{
    let mut counts = Vec::with_capacity(alloc, count)?;
    for made in 0..count {
        counts.push_reserved(Count::new());
    }
    Ok(counts)
}
