//! The list of what the levels were asked and answered.
ghost use Rattle.std.specs.Prelude.{◌≡◌, ◌<◌, ◌^◌, ◌++◌, ◌∷◌, [], length};

use std::marker::Model;

/// Which levels were asked, and what each answered, in order: at most N. It takes no memory.
#[derive(Drop)]
pub(crate) struct Answers<const N: usize> {
    // An array, so that a choice takes no memory. N is below 2^32, so that its size is known to fit.
    list: [(usize, bool); N],
    asked: usize,
}

impl<const N: usize> Model for Answers<N> {
    ghost use Rattle.std.specs.Prelude.{ℕ, Bool, List, ◌≤◌, take};

    ghost Value = { List (ℕ × Bool) };

    ghost view = { λ a. take a.asked a.list };

    ghost invariant = { λ a. a.asked ≤ N };
}

impl<const N: usize> Answers<N> {
    /// The list of answers before any level was asked.
    pub(crate) fn new() -> Self
        requires { N < 2 ^ 32 }
        ensures { result ≡ [] }
    {
        Answers {
            list: [(0, false); N],
            asked: 0,
        }
    }

    /// Puts what a level answered at the end.
    pub(crate) fn push(&mut self, level: usize, answer: bool)
        requires { length self.old < N }
        ensures { self.new ≡ self.old ++ (level, answer) ∷ [] }
    {
        self.list[self.asked] = (level, answer);
        self.asked += 1;
    }
}
