//! A waker that does nothing.
ghost use Rattle.std.specs.Prelude.{IsOk};

use async_executor::{OutOfMemory, Wake};

/// Wakes nobody: it is for a caller that polls again by itself. It stands for
/// `std::task::Waker::noop`.
///
/// Example: `uses::yields_once`, at `YieldNow`.
#[derive(Debug, Clone, Copy)]
pub struct NoopWaker;

impl Wake for NoopWaker {
    fn wake(&self) {}

    /// It takes no memory, so it is not refused.
    fn copy(&self) -> Result<Self, OutOfMemory>
        ensures { IsOk result }
    {
        Ok(NoopWaker)
    }
}
