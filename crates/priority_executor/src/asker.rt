//! The choice of a level: each is asked in order, until one says yes. The order is proved once for whatever
//! is asked: `try_tick` asks executors, and the poll of a tick asks sleepers.
ghost use Rattle.std.specs.Prelude.{◌≡◌, ℕ, Bool, List, [], ◌∷◌, ◌++◌, ◌+◌, ◌≤◌, ◌<◌, length, IfSome};
ghost use Rattle.priority_executor.specs.Answers.{answers_until};

/// What the levels are asked, and the list of what they answered.
///
/// Example: `uses::prefers`, at `choose`, of `Doors`.
pub trait Asker {
    /// Which level was asked, and what it answered, the first one first.
    ghost answers: { Self → List (ℕ × Bool) };

    /// For how many answers more the list has room.
    ghost places: { Self → ℕ };

    /// Asks this level, and puts its answer at the end of the list.
    ///
    /// Example: `uses::prefers`, at `choose`, of `Doors`.
    fn ask(&mut self, level: usize) -> bool
        requires { 0 < places self.old }
        ensures listed { answers self.new ≡ answers self.old ++ (level, result) ∷ [] }
        ensures room { places self.new + 1 ≡ places self.old };
}

/// Asks the levels from 0 up to n, each once, until one answers true, and gives that level. `None`
/// means that each of the n levels was asked, and none answered true.
///
/// Example: `uses::prefers`.
///
/// ```text
/// let mut doors = Doors {
///     open,
///     answers: ArrayVec::new(),
/// };
/// let first = choose(&mut doors, 3);
/// (first, doors.answers.len())
/// ```
pub fn choose<A: Asker>(asker: &mut A, n: usize) -> Option<usize>
    requires { n ≤ A.places asker.old }
    ensures answers { A.answers asker.new ≡ A.answers asker.old ++ answers_until n result }
    ensures below { IfSome result (λ level. level < n) }
    ensures room { A.places asker.new + length (A.answers asker.new)
        ≡ A.places asker.old + length (A.answers asker.old) }
{
    for level in 0..n {
        if asker.ask(level) {
            return Some(level);
        }
    }
    None
}
