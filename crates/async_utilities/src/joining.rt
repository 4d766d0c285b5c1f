//! The outputs of many futures: of all, in order, or of the first that is ready.
ghost use Rattle.std.specs.Prelude.{◌≡◌, ◌+◌, ◌-◌, ◌≤◌, ◌<◌, ◌==◌, None, Some, IsSome, IfSome, IfOk, IfErr, reverse, cond, drop, take, is_none, vec_len, vec_capacity};
ghost use Rattle.executor_core.specs.declared.task.future.Poll.TheVariants.{Pending as waits};
ghost use Rattle.async_executor.specs.Answers.{is_ready};
ghost use Rattle.async_utilities.specs.Polls.{IfGoesOn, IfReady};
ghost use Rattle.async_utilities.specs.Joins.{Awaits, RestStays, SameBehind};

use async_executor::{Future, Poll};
use std::alloc::{AllocFailed, Global};

/// Gives the outputs of futures in a Vec, each at the place of its future. They are awaited one after
/// another, the first one first, so each poll goes on where the last one ended. This is for handles
/// of tasks, which run by themselves: a future that only its polls drive waits for its turn.
///
/// It is pending from then on, and wakes nobody.
///
/// Example: `uses::joins_three`.
///
/// ```text
/// let executor = Executor::new(rt.clone()?, alloc)?;
/// let mut tasks = Vec::new(alloc);
/// let futures = (0..3).map(|number| Ready::new(number));
/// executor.spawn_many(futures, &mut tasks)?;
/// let all = JoinAll::new(alloc, tasks)?;
/// // [Ok(0), Ok(1), Ok(2)]
/// Ok(run_until(rt, alloc, &executor, all)?)
/// ```
#[derive(Drop)]
pub struct JoinAll<G, T> {
    inner: Option<Joining<G, T>>,
}

// The futures that are left, the next one last, and the outputs of the others, with room for all.
#[derive(Drop)]
pub(crate) struct Joining<G, T> {
    left: Vec<G>,
    outputs: Vec<T>,
    ghost room: { vec_len outputs + vec_len left ≤ vec_capacity outputs },
}

impl<G, T> JoinAll<G, T> {
    ghost use Rattle.async_utilities.specs.Joining.{Begins};

    /// Awaits all of them.
    ///
    /// # Errors
    ///
    /// `AllocFailed` if memory for the outputs is refused, with the futures in their order.
    ///
    /// Example: `uses::joins_three`, at `JoinAll`.
    pub fn new(alloc: Global, futures: Vec<G>) -> Result<JoinAll<G, T>, AllocFailed<Vec<G>>>
        ensures ok { IfOk result (λ all. IfSome all.inner (λ inner. Begins futures.items inner)) }
        ensures begun { IfOk result (λ all. IsSome all.inner) }
        ensures refused { IfErr result (λ failed. failed.value ≡ futures) }
    {
        let Ok(outputs) = Vec::with_capacity(alloc, futures.len()) else {
            return Err(AllocFailed { value: futures });
        };
        let mut left = futures;
        left.reverse();
        Ok(JoinAll {
            inner: Some(Joining { left, outputs }),
        })
    }
}

impl<G, T> Joining<G, T> {
    ghost use Rattle.async_utilities.specs.Joining.{JoinsMore};

    // Polls in order until a future is pending. Whether none is.
    fn poll_in_order<W>(&mut self, w: &W) -> bool
    where
        G: Future<W, Output = T>,
        ensures joined { JoinsMore self.old self.new }
        ensures all { result ≡ (vec_len self.new.left == 0) }
        ensures order { Awaits self.old.left.items self.new.left.items }
    {
        // One after another: if each poll polled all, n futures would take n² polls.
        while !self.left.is_empty() {
            if !self.poll_next(w) {
                return false;
            }
        }
        true
    }

    // Polls the next future. Whether its output came.
    #[inline]
    fn poll_next<W>(&mut self, w: &W) -> bool
    where
        G: Future<W, Output = T>,
        requires { 0 < vec_len self.old.left }
        ensures joined { JoinsMore self.old self.new }
        ensures came { vec_len self.new.left + cond result 1 0 ≡ vec_len self.old.left }
        ensures rest { RestStays self.old.left.items self.new.left.items }
    {
        let Some(future) = self.left.last_mut() else {
            return false;
        };
        let Poll::Ready(output) = future.poll(w) else {
            return false;
        };
        self.left.pop();
        self.outputs.push_reserved(output);
        true
    }
}

impl<W, G: Future<W>> Future<W> for JoinAll<G, G::Output> {
    ghost use Rattle.async_utilities.specs.Joining.{AwaitsMore, JoinsAll, JoinsMore};

    type Output = Vec<G::Output>;

    fn poll(&mut self, w: &W) -> Poll<Vec<G::Output>>
        ensures ended { IsSome self.old.inner → is_none self.new.inner ≡ is_ready result }
        ensures again { self.old.inner ≡ None → (result ≡ waits) × (self.new.inner ≡ None) }
        ensures all { IfSome self.old.inner (λ old. IfReady result (λ v. JoinsAll old v.items)) }
        ensures kept { IfGoesOn self.old.inner self.new.inner JoinsMore }
        ensures left { IfSome self.new.inner (λ inner. 0 < vec_len inner.left) }
        ensures order { IfGoesOn self.old.inner self.new.inner AwaitsMore }
    {
        let Some(inner) = &mut self.inner else {
            return Poll::Pending;
        };
        if !inner.poll_in_order(w) {
            return Poll::Pending;
        }
        match self.inner.take() {
            Some(inner) => Poll::Ready(inner.outputs),
            None => unreachable!(),
        }
    }
}

/// The first of many futures that was ready.
///
/// Example: `uses::picks`, at `AnyOf`.
#[derive(Debug, PartialEq, Eq, Drop)]
pub struct First<G, T> {
    /// Its place among them.
    pub place: usize,
    /// Its output.
    pub output: T,
    /// The others, in their order.
    pub others: Vec<G>,
}

/// Gives the output of the first of many futures that is ready, its place among them, and the others,
/// which may be awaited on. If several are ready at one poll, it is the one that stands first. Each
/// poll polls them all, so it is for few; of many tasks, give each an end of a channel.
///
/// It is pending from then on, and wakes nobody.
///
/// Example: `uses::picks`.
///
/// ```text
/// let futures = vec![in alloc; Late::new(0), Late::new(1), Late::new(2)]?;
/// let first = block_on(rt, alloc, AnyOf::new(futures))?;
/// // (0, 0, 2)
/// Ok((first.place, first.output, first.others.len()))
/// ```
#[derive(Drop)]
pub struct AnyOf<G> {
    futures: Option<Vec<G>>,
}

impl<G> AnyOf<G> {
    /// An `AnyOf`: awaits the first of them. Of none there is no first: ask `is_empty` before.
    ///
    /// Example: `uses::picks`, at `AnyOf`.
    pub fn new(futures: Vec<G>) -> AnyOf<G>
        requires { 0 < vec_len futures }
        ensures { result.futures ≡ Some futures }
    {
        AnyOf {
            futures: Some(futures),
        }
    }
}

// Polls them in order until one is ready. Gives its place and its output.
fn poll_any<W, G: Future<W>>(futures: &mut Vec<G>, w: &W) -> Option<(usize, G::Output)>
    ensures all { vec_len futures.new ≡ vec_len futures.old }
    ensures place { IfSome result (λ first. first.0 < vec_len futures.old) }
    ensures others { IfSome result (λ f. SameBehind f.0 futures.old.items futures.new.items) }
{
    for place in 0..futures.len() {
        if let Poll::Ready(output) = futures[place].poll(w) {
            return Some((place, output));
        }
    }
    None
}

impl<W, G: Future<W>> Future<W> for AnyOf<G> {
    ghost use Rattle.async_utilities.specs.Joining.{IsFirstOf};

    type Output = First<G, G::Output>;

    fn poll(&mut self, w: &W) -> Poll<First<G, G::Output>>
        ensures ended { IsSome self.old.futures → is_none self.new.futures ≡ is_ready result }
        ensures again { self.old.futures ≡ None → (result ≡ waits) × (self.new.futures ≡ None) }
        ensures first { IfSome self.old.futures (λ all. IfReady result (IsFirstOf all.items)) }
        ensures all { IfGoesOn self.old.futures self.new.futures (λ a b. vec_len b ≡ vec_len a) }
    {
        let Some(futures) = &mut self.futures else {
            return Poll::Pending;
        };
        let Some((place, output)) = poll_any(futures, w) else {
            return Poll::Pending;
        };
        match self.futures.take() {
            Some(futures) => {
                let mut others = futures;
                drop(others.remove(place));
                Poll::Ready(First {
                    place,
                    output,
                    others,
                })
            }
            None => unreachable!(),
        }
    }
}
