//! The lengths of the queues of runners.
ghost use Rattle.std.specs.Prelude.{◌≡◌, ◌<◌, ◌+◌, ◌++◌, ◌∷◌, [], length, map, take};

use executor_core::task::Cells;
use std::marker::Model;

/// How many lengths are copied at a time.
pub(super) const AT_A_TIME: usize = 64;

/// The lengths of the queues of runners that follow each other in order of registration. It takes no
/// memory.
#[derive(Drop)]
pub(super) struct QueueLens {
    lens: [usize; AT_A_TIME],
    count: usize,
}

impl Model for QueueLens {
    ghost use Rattle.std.specs.Prelude.{ℕ, List, ◌≤◌, take};

    ghost Value = { List ℕ };

    ghost view = { λ q. take q.count q.lens };

    ghost invariant = { λ q. q.count ≤ 64 };
}

impl QueueLens {
    /// The lengths of the runners' queues from this position on, as many as there is room for.
    pub(super) fn of<W>(cells: &Cells<(), (), W>, first: usize) -> QueueLens
        ensures { map (λ q. length q.entries) (take first cells.now.locals) ++ result
            ≡ map (λ q. length q.entries) (take (first + 64) cells.now.locals) }
    {
        let mut lens = QueueLens {
            lens: [0; AT_A_TIME],
            count: 0,
        };
        for r in first..cells.runners().min(first.saturating_add(AT_A_TIME)) {
            if let Some(len) = cells.local_len(r) {
                lens.push(len);
            }
        }
        lens
    }

    /// The lengths of the queues, in order.
    pub(super) fn as_slice(&self) -> &[usize]
        ensures { result.now ≡ self.now }
    {
        &self.lens[..self.count]
    }

    // Puts the length of the next queue at the end.
    fn push(&mut self, len: usize)
        requires { length self.old < 64 }
        ensures { self.new ≡ self.old ++ len ∷ [] }
    {
        self.lens[self.count] = len;
        self.count += 1;
    }
}
