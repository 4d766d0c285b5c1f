//! How far the run of each shard has come, which busy runs look at before they help one another.

use std::sync::atomic::AtomicU64;

/// As many bytes as two cache lines have: a processor fetches the line beside the one that it needs.
type Apart = [u64; 16];

const APART: Apart = [0; 16];

/// A count, modulo 2^64, that stands alone on its cache lines.
#[derive(Drop)]
pub(crate) struct Count {
    before: Apart,
    pub(crate) count: AtomicU64,
    behind: Apart,
}

impl Count {
    /// A count on cache lines of its own: nothing was counted yet.
    pub(crate) fn new() -> Count {
        Count {
            before: APART,
            count: AtomicU64::new(0),
            behind: APART,
        }
    }
}
