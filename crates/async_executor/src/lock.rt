//! A lock that is usually free: it is tried once inline, and only then waited for.
//!
//! A hold is short beside the sleep and the waking of a thread, so the lock is tried again for a while
//! before the thread sleeps. But what a lock guards goes from one processor to another with it, and a
//! hold then takes several times as long. While the work between two holds is shorter than that, one
//! thread alone does more than several in turn, and a waiter that tries early takes from all. If the work
//! is longer, a waiter that pauses idles.
//!
//! Only long pauses tell which it is. While pauses are long, one runner stays at work, and waits with short
//! ones. Of all others one at a time tries, each after a long pause. Who then has the lock works beside that
//! runner until it finds the lock taken, and pauses again. So nearly all of the time one thread alone works
//! with what the lock guards. How often the two meet tells how long its work is. If that is shorter than the
//! hold of the one that came, the runner that stays meets it once, and has the lock as that one comes again.
//! If it is longer, they work side by side, and meet several times or never.
//!
//! Pauses are short at first. After some waits long ones are tried, and each waiter but the one that stays
//! changes them:
//!
//! ```text
//! the runner that stays met others         the next long pause
//! once                                     a third more
//! several times                            a quarter less
//! never, and the lock was
//!     free after the pause                 a seventh less
//!     free at the second try               half more
//!     taken then too                       twice as long
//! ```
//!
//! If the next one would be short, the trial is over, and twice as many waits come before another. If the
//! longest comes after the longest, as few do as before the first.
ghost use Rattle.std.specs.Prelude.{◌≡◌, ◌+◌, ◌-◌, ◌*◌, ◌/◌, ◌<◌, ◌≤◌, min};

use std::cmp::min;
use std::hint::spin_loop;
use std::sync::atomic::{AtomicBool, AtomicU32, AtomicU64, Ordering};
use std::sync::{Mutex, MutexGuard, Wait};

/// As many bytes as a cache line has, between fields that different threads write.
pub(crate) type CacheLine = [u64; 8];

pub(crate) const APART: CacheLine = [0; 8];

/// As many bytes as two cache lines have, around what the threads of one executor write: a line is
/// fetched with its neighbour, so those of another executor would take both.
pub(crate) type Border = [u64; 16];

pub(crate) const BORDER: Border = [0; 16];

// A pause before a try, in spins of the processor: a short one, the first one of a trial, and the longest. A
// spin takes 12 cycles on some processors and 140 on others, so the longest is 80 microseconds or a
// millisecond.
const SHORT: u32 = 4;

const TRIAL: u32 = 2048;

const LONGEST: u32 = 16384;

// From here on a pause is long: there are turns, and one runner stays at work.
const LONG: u32 = 1024;

// How many waits with short pauses there are between two trials of long ones: at first, and at most.
const FEWEST: u32 = 1024;

const MOST: u32 = 65536;

// How often a thread tries before it sleeps, each time after twice as long a pause, up to the longest: if the
// first one is short, and if it is long. After as many long ones it waits for the turn no more.
const TRIES: u32 = 16;

const LONG_TRIES: u32 = 6;

// After so many waits of other runners, and none of the one that stays, another one stays.
const ABSENT: u32 = 4;

/// A mutex, and how its waiters wait. That is written by waiters alone, and stands on a cache line of
/// its own.
#[derive(Drop)]
pub(crate) struct Lock<T> {
    pub(crate) mutex: Mutex<T>,
    before_pause: CacheLine,
    // What the next waiter pauses first.
    pause: AtomicU32,
    // How many waits are left until long pauses are tried again, and how many there are in all.
    waits_left: AtomicU32,
    waits: AtomicU32,
    // Whether a waiter has the turn to try.
    is_taken: AtomicBool,
    // The runner that stays at work while pauses are long, and how many other runners waited since it did.
    staying: AtomicU64,
    absent: AtomicU32,
    // How often it found the lock taken since the pause was last changed.
    met: AtomicU32,
}

impl<T> Lock<T> {
    /// A `Lock` that nobody has.
    pub(crate) fn new(value: T) -> Lock<T> {
        Lock {
            mutex: Mutex::new(value),
            before_pause: APART,
            pause: AtomicU32::new(SHORT),
            waits_left: AtomicU32::new(FEWEST),
            waits: AtomicU32::new(FEWEST),
            is_taken: AtomicBool::new(false),
            staying: AtomicU64::new(0),
            absent: AtomicU32::new(ABSENT),
            met: AtomicU32::new(0),
        }
    }

    /// Waits for a `Lock` that was not free. A run says the number of its runner.
    #[cold]
    #[inline(never)]
    pub(crate) fn wait_for<R: Wait>(&self, rt: &R, runner: Option<u64>) -> MutexGuard<'_, T> {
        if self.stays(runner) {
            self.count_meeting();
            let (guard, _) = self.lock_after(rt, SHORT, TRIES);
            return guard;
        }
        let has_turn = self.takes_turn();
        let first = self.pause.load(Ordering::SeqCst);
        let most = if first < LONG { TRIES } else { LONG_TRIES };
        let (guard, tries) = self.lock_after(rt, first, most);
        self.learn(first, tries, has_turn);
        guard
    }

    // Locks after so long a pause, and says how often it tried in vain. It tries at most so often, each time
    // after twice as long a pause, and then sleeps.
    fn lock_after<R: Wait>(&self, rt: &R, first: u32, most: u32) -> (MutexGuard<'_, T>, u32) {
        let mut pause = first;
        for tries in 0..most {
            spin(pause);
            if let Some(guard) = self.mutex.try_lock() {
                return (guard, tries);
            }
            pause = min(pause.saturating_mul(2), LONGEST);
        }
        (self.mutex.lock(rt), most)
    }

    // Whether this waiter is the runner that stays at work. There is one only while pauses are long.
    fn stays(&self, runner: Option<u64>) -> bool {
        let Some(runner) = runner else {
            return false;
        };
        if self.pause.load(Ordering::SeqCst) < LONG {
            return false;
        }
        let absent = self.absent.load(Ordering::SeqCst);
        if self.staying.load(Ordering::SeqCst) != runner {
            if absent < ABSENT {
                self.absent.store(absent + 1, Ordering::SeqCst);
                return false;
            }
            self.staying.store(runner, Ordering::SeqCst);
        }
        self.absent.store(0, Ordering::SeqCst);
        true
    }

    // Counts that the runner that stays met another one.
    fn count_meeting(&self) {
        let met = self.met.load(Ordering::SeqCst).saturating_add(1);
        self.met.store(met, Ordering::SeqCst);
    }

    // Waits for the turn to try, for a while, and says whether this waiter has it. There are turns only
    // while pauses are long.
    fn takes_turn(&self) -> bool {
        for _ in 0..LONG_TRIES {
            let pause = self.pause.load(Ordering::SeqCst);
            if pause < LONG {
                return false;
            }
            if !self.is_taken.swap(true, Ordering::SeqCst) {
                return true;
            }
            spin(pause);
        }
        false
    }

    // Keeps what a waiter learned that paused so long first, and tried so often in vain, and ends its turn.
    fn learn(&self, first: u32, tries: u32, has_turn: bool) {
        if first < LONG {
            self.count_wait();
        } else {
            let met = self.met.swap(0, Ordering::SeqCst);
            self.change_pause(first, learned(first, tries, met));
        }
        if has_turn {
            self.is_taken.store(false, Ordering::SeqCst);
        }
    }

    // Counts a wait with short pauses. After the last one that is left, long ones are tried.
    fn count_wait(&self) {
        match self.waits_left.load(Ordering::SeqCst).checked_sub(1) {
            Some(left) => self.waits_left.store(left, Ordering::SeqCst),
            None => self.pause.store(TRIAL, Ordering::SeqCst),
        }
    }

    // Has the next waiter pause so long first, after one that paused so long, if that is long. Else the trial
    // is over.
    fn change_pause(&self, first: u32, next: u32) {
        if next < LONG {
            let waits = later(self.waits.load(Ordering::SeqCst));
            self.waits.store(waits, Ordering::SeqCst);
            self.waits_left.store(waits, Ordering::SeqCst);
            self.pause.store(SHORT, Ordering::SeqCst);
            return;
        }
        if first == LONGEST && next == LONGEST {
            self.waits.store(FEWEST, Ordering::SeqCst);
        }
        self.pause.store(next, Ordering::SeqCst);
    }
}

// Pauses for so many spins.
fn spin(pause: u32) {
    for _ in 0..pause {
        spin_loop();
    }
}

// What the next waiter pauses first, if this one paused so long first, and tried so often in vain, and the
// runner that stays met others so often.
fn learned(first: u32, tries: u32, met: u32) -> u32
    requires long { LONG ≤ first }
    ensures met { 1 < met → result ≡ min (first - first / 4) LONGEST }
    ensures met_once { met ≡ 1 → result ≡ min (first + first / 3) LONGEST }
    ensures free { met ≡ 0 → tries ≡ 0 → result ≡ min (first - first / 7) LONGEST }
    ensures once { met ≡ 0 → tries ≡ 1 → result ≡ min (first + first / 2) LONGEST }
    ensures taken { met ≡ 0 → 1 < tries → result ≡ min (2 * first) LONGEST }
{
    let next = match (met, tries) {
        (0, 0) => first - first / 7,
        (0, 1) => first.saturating_add(first / 2),
        (0, _) => first.saturating_mul(2),
        (1, _) => first.saturating_add(first / 3),
        _ => first - first / 4,
    };
    min(next, LONGEST)
}

// How many waits there are before the next trial, if there were so many before one that is over.
fn later(waits: u32) -> u32
    ensures { result ≡ min (2 * waits) MOST }
{
    min(waits.saturating_mul(2), MOST)
}
