//! Permits that are given, and what comes of them.
ghost use Rattle.std.specs.Prelude.{◌≡◌, ◌<◌};
ghost use Rattle.async_utilities.specs.Wishes.{GivesAlso, IsShort, waker_in_wish};

use crate::due::Due;
use crate::locks::semaphore::wish::Wish;
use crate::wait_queue::WaitQueue;

/// What comes of permits that are given: whom to wake, and how many of them are left for those behind
/// it. It cannot be dropped.
pub(crate) struct Given<W> {
    pub(crate) due: Due<W>,
    pub(crate) left: usize,
}

/// What is left of one that gave its place back: its waker, which is dropped, and what comes of the
/// permits that it goes without. It cannot be dropped.
pub(crate) struct Gone<W> {
    pub(crate) waker: Option<W>,
    pub(crate) given: Given<W>,
}

/// The waker of one that waited, if it did.
pub(crate) fn waker_in<W>(wish: Option<Wish<W>>) -> Option<W>
    ensures { result ≡ waker_in_wish wish }
{
    match wish {
        Some(Wish { waker, permits: _ }) => Some(waker),
        None => None,
    }
}

impl<W: Drop> Given<W> {
    /// What is given of these permits and so many more: the first one that waits has its own, if they are
    /// enough.
    pub(crate) fn to_first(
        permits: &mut usize,
        waiters: &mut WaitQueue<Wish<W>>,
        more: usize,
    ) -> Given<W>
        ensures gives { GivesAlso permits.old more waiters.old result permits.new waiters.new }
        ensures short { IsShort permits.new waiters.new }
        ensures fewer { IsShort permits.old waiters.old → 0 < more → result.left < more }
    {
        let there = permits.saturating_add(more);
        let wanted = match waiters.peek() {
            Some(wish) if wish.permits <= there => wish.permits,
            _ => {
                *permits = there;
                return Given {
                    due: Due::Nobody,
                    left: 0,
                };
            }
        };
        *permits = 0;
        let due = match waiters.first() {
            Due::One(Wish { waker, permits: _ }) => Due::One(waker),
            Due::Nobody => Due::Nobody,
        };
        Given {
            due,
            left: there - wanted,
        }
    }
}
