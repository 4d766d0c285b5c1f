//! What ends the sleep of a thread: a token, which a wake leaves and the thread takes.
//!
//! The thread looks for it for a while before it sleeps. Who answers a thread often does so sooner than
//! the thread could fall asleep, and to wake one that is awake takes no call of the system.
//!
//! ```text
//! state       the thread                       a wake
//! EMPTY       is awake                         leaves the token
//! NOTIFIED    is awake, or wakes up            changes nothing
//! PARKED      sleeps, or is about to           leaves the token, and ends the sleep
//! ```

use std::hint::spin_loop;
use std::sync::Wait;
use std::sync::atomic::{AtomicU32, Ordering};
use std::thread::Parker;
use std::time::Duration;

const EMPTY: u32 = 0;

const NOTIFIED: u32 = 1;

const PARKED: u32 = 2;

// How often a thread looks before it sleeps, with a spin of the processor after each. A spin takes 12 cycles
// on some processors and 140 on others, so that is half a microsecond or seven.
const LOOKS: u32 = 128;

/// One token, for one thread at a time.
#[derive(Drop)]
pub(crate) struct Token {
    state: AtomicU32,
    // What the thread sleeps on. A timeout may leave a token of its own here, which ends a later sleep
    // early.
    parker: Parker,
}

impl Token {
    /// A `Token` that nobody has left.
    pub(crate) fn new() -> Token {
        Token {
            state: AtomicU32::new(EMPTY),
            parker: Parker::new(),
        }
    }

    /// Leaves this `Token`, if it is not there, and wakes the thread if it sleeps.
    pub(crate) fn unpark(&self) {
        if self.state.swap(NOTIFIED, Ordering::SeqCst) == PARKED {
            self.parker.unpark();
        }
    }

    /// Takes this `Token`. The thread sleeps until it is there.
    pub(crate) fn park<R: Wait>(&self, rt: &R) {
        for _ in 0..LOOKS {
            if self.state.load(Ordering::SeqCst) == NOTIFIED {
                break;
            }
            spin_loop();
        }
        // This changes nothing if it is there by now.
        self.exchange(EMPTY, PARKED);
        for _ in rt.forever() {
            if self.exchange(NOTIFIED, EMPTY) {
                return;
            }
            self.parker.park(rt);
        }
    }

    /// Takes this `Token`, if it is there. The thread sleeps until then, but no longer than this, and maybe
    /// not so long.
    pub(crate) fn park_timeout<R: Wait>(&self, rt: &R, duration: Duration) {
        if self.exchange(EMPTY, PARKED) {
            self.parker.park_timeout(rt, duration);
        }
        self.state.store(EMPTY, Ordering::SeqCst);
    }

    // Makes one state of another, if it is that one, and says whether it was.
    fn exchange(&self, from: u32, to: u32) -> bool {
        self.state
            .compare_exchange(from, to, Ordering::SeqCst, Ordering::SeqCst)
            .is_ok()
    }
}
