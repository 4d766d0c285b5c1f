//! Runs what is urgent first: an executor for each level of urgency, level 0 before all others.
//!
//! It stands on the public calls of `async_executor` alone. Which level a call serves is found by
//! `choose`, which asks the levels in order; what it asks is an `Asker`.
//!
//! An example is the whole body of a caller of `uses/src`. There rt is the right to wait and alloc the
//! allocator, as `main` hands them on.
#![tactic(auto)]

pub(crate) mod answers;
pub mod asker;
pub mod executor;
pub mod run;
pub mod tick;

pub use asker::{Asker, choose};
pub use executor::PriorityExecutor;
pub use run::PriorityRun;
pub use tick::PriorityTick;
