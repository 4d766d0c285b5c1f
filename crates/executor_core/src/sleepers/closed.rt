//! What the lock of the sleepers keeps.
ghost use Rattle.std.specs.Prelude.{◌≡◌, false};

use crate::sleepers::list::Sleepers;
use std::alloc::Global;

/// Sleepers whose list is closed: the flag was stored for each change of it.
///
/// A lock round this type keeps that law. Whoever has the lock borrows the sleepers once, and
/// changes them and stores the flag through that borrow. To end it between the two, and so to give
/// the lock up there, is refused, since the list is open.
#[derive(Drop)]
pub struct ClosedSleepers<W> {
    /// The sleepers, which are changed in their place.
    pub sleepers: Sleepers<W>,
    ghost closed: { sleepers.is_open ≡ false },
}

impl<W> ClosedSleepers<W> {
    ghost use Rattle.executor_core.specs.Sleepers.Calls.{no_sleepers};

    /// Closed sleepers: nobody sleeps, and no place is reserved. It takes no memory.
    pub fn new(alloc: Global) -> Self
        ensures { result.sleepers ≡ no_sleepers }
    {
        ClosedSleepers {
            sleepers: Sleepers::new(alloc),
        }
    }
}
