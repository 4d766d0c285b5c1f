//! An executor for all processors: as many shards as it is asked for, each an `Executor` of its own, and
//! runs, each of which serves one shard and helps the others.
//!
//! It stands on the public calls of `async_executor` alone. A task stays in its shard, so its wakes and its
//! polls take the locks of that shard and of no other.
//!
//! ```text
//!                ┌───────── a task was run, or seen: the waker is woken ─────────┐
//!                ▼                                                               │
//!  poll the own future ── leave all shards ── answer a notice ── search ── sleep in each
//!                ▲                                                               │
//!                └─────────────────────────── woken ─────────────────────────────┘
//! ```
//!
//! A run that sleeps stands among the sleepers of every shard. An executor has at most one sleeper that is
//! notified, and wakes no other until that one has searched or left: so a run leaves all shards before it
//! runs a task of one of them, and what it was notified of it searches for, or passes on.
//!
//! That no notice is lost is the promise of each shard, since a run goes by its public calls: after the
//! last of its places was taken, no queue of that shard had a task, and from then on whoever queues one
//! there notifies a sleeper of that shard, if none was notified that has still to search.
//!
//! An example is the whole body of a caller of `uses/src`. There rt is the right to wait and alloc the
//! allocator, as `main` hands them on.
#![tactic(auto)]

pub mod executor;
pub(crate) mod members;
pub(crate) mod progress;
pub mod run;
pub(crate) mod spreading;

pub use executor::ShardedExecutor;
pub use run::ShardedRun;
