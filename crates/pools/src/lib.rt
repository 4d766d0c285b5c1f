//! Pools of threads for executors of more than one queue: a `ShardedPool` for as many threads as it has
//! shards, and a `PriorityPool` for levels of urgency.
//!
//! Each has a `PoolOf` of `async_utilities`, as `Pool` has, which starts its threads, stops them and joins
//! them. They stand here since they name both that crate and an executor that knows nothing of it.
//!
//! An example is the whole body of a caller of `uses/src`. There rt is the right to wait and alloc the
//! allocator, as `main` hands them on.
#![tactic(auto)]

pub mod priority;
pub mod sharded;

pub use priority::{Levels, PriorityPool};
pub use sharded::ShardedPool;
