//! Tasks, their queues, the sleepers, and a world of all parties in any order: what the executors
//! stand on.
#![tactic(auto)]

pub mod interleave;
pub(crate) mod io_errors;
pub mod limits;
pub mod plain_core;
pub mod queue;
pub mod sleepers;
pub mod task;
