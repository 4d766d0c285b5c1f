//! Futures made of futures: one of two kinds, one with its output changed, one after another, both of
//! two, and the first of two. Each but `Either` lets its futures go once it is ready. It is pending
//! from then on, and wakes nobody, since it has no second output.
ghost use Rattle.std.specs.Prelude.{◌≡◌, ◌||◌, Some, None, true, false, not, is_none, IsSome, IfSome};
ghost use Rattle.executor_core.specs.declared.task.future.Poll.TheVariants.{Pending as waits};
ghost use Rattle.async_executor.specs.Answers.{is_ready};
ghost use Rattle.async_utilities.specs.Polls.{IfGoesOn, IsMade, IfReady};
ghost use Rattle.async_utilities.specs.Halves.{GaveBoth, KeepBoth, Keeps, is_either_open, is_open};
ghost use Rattle.async_utilities.specs.Kinds.{is_left};
ghost use Rattle.async_utilities.specs.Stages.{StaysSecond};

use async_executor::{Future, Poll};

/// A future of one of two kinds, with one output.
///
/// Example: `uses::awaits_either`.
///
/// ```text
/// let number = if is_there {
///     Either::Left(Ready::new(7))
/// } else {
///     Either::Right(Or::new(Never::new(), Ready::new(8)))
/// };
/// // 7 if it is there, and else 8
/// Ok(block_on(rt, alloc, number)?)
/// ```
#[derive(Drop)]
pub enum Either<A, B> {
    /// The one kind.
    Left(A),
    /// The other kind.
    Right(B),
}

impl<W, A: Future<W>, B: Future<W, Output = A::Output>> Future<W> for Either<A, B> {
    type Output = A::Output;

    fn poll(&mut self, w: &W) -> Poll<A::Output>
        ensures same { is_left self.new ≡ is_left self.old }
    {
        match self {
            Either::Left(future) => future.poll(w),
            Either::Right(future) => future.poll(w),
        }
    }
}

/// What is made of an output, by one call. It stands in the place of a closure, of which no field can
/// say that it may be called.
///
/// Example: `uses::races`, at `Map`, which changes an output by a `Gives`.
pub trait Change<A>: Drop {
    /// What is made.
    type Output: Drop;

    /// What is made of an output.
    ghost makes: { Self → A → Self.Output };

    /// Applies this `Change` to an output.
    fn change(self, output: A) -> Self::Output
        ensures { result ≡ makes self output };
}

/// Gives what a `Change` makes of the output of a future.
///
/// Example: `uses::races`.
///
/// ```text
/// let mine = ThreadWaker::new(alloc)?;
/// let later = Number::Right(Map::new(YieldNow::new(), Gives { number: 1 }));
/// let there = Number::Left(Ready::new(2));
/// let mut first = Or::new(later, there);
/// // 2
/// Ok(poll_until_ready(rt, &mine, |w| first.poll(w)))
/// ```
#[derive(Drop)]
pub struct Map<G, C> {
    inner: Option<(G, C)>,
}

impl<G, C> Map<G, C> {
    /// Makes the change once the future is ready.
    ///
    /// Example: `uses::races`, at `Map`.
    pub fn new(future: G, change: C) -> Map<G, C>
        ensures { result.inner ≡ Some (future, change) }
    {
        Map {
            inner: Some((future, change)),
        }
    }
}

impl<W, G: Future<W>, C: Change<G::Output>> Future<W> for Map<G, C> {
    type Output = C::Output;

    fn poll(&mut self, w: &W) -> Poll<C::Output>
        ensures ended { IsSome self.old.inner → is_none self.new.inner ≡ is_ready result }
        ensures again { self.old.inner ≡ None → (result ≡ waits) × (self.new.inner ≡ None) }
        ensures made { IfSome self.old.inner (λ inner. IsMade C.makes inner.1 result) }
    {
        let Some((future, _)) = &mut self.inner else {
            return Poll::Pending;
        };
        let Poll::Ready(output) = future.poll(w) else {
            return Poll::Pending;
        };
        match self.inner.take() {
            Some((_, change)) => Poll::Ready(change.change(output)),
            None => unreachable!(),
        }
    }
}

// Which of the two futures of a `Then` is polled.
#[derive(Drop)]
pub(crate) enum Stage<G, C, H> {
    First(G, C),
    Second(H),
}

/// Gives the output of a second future, which a `Change` makes of the output of the first.
///
/// Example: `uses::follows`.
///
/// ```text
/// let mine = ThreadWaker::new(alloc)?;
/// let mut both = Then::new(Ready::new(2), Begins { number: 1 });
/// // (2, 1)
/// Ok(poll_until_ready(rt, &mine, |w| both.poll(w)))
/// ```
#[derive(Drop)]
pub struct Then<G, C, H> {
    stage: Option<Stage<G, C, H>>,
}

impl<G, C, H> Then<G, C, H> {
    /// Makes the second future once the first is ready.
    ///
    /// Example: `uses::follows`, at `Then`.
    pub fn new(first: G, change: C) -> Then<G, C, H>
        ensures { result.stage ≡ Some (Stage.First first change) }
    {
        Then {
            stage: Some(Stage::First(first, change)),
        }
    }

    // Polls the first future, unless it is over, and makes the second of its output. Whether it is
    // over.
    #[inline]
    fn poll_first<W>(&mut self, w: &W) -> bool
    where
        G: Future<W>,
        C: Change<G::Output, Output = H>,
        ensures same { is_none self.new.stage ≡ is_none self.old.stage }
        ensures second { IfGoesOn self.old.stage self.new.stage StaysSecond }
    {
        if let Some(Stage::First(first, _)) = &mut self.stage {
            let Poll::Ready(output) = first.poll(w) else {
                return false;
            };
            if let Some(Stage::First(_, change)) = self.stage.take() {
                self.stage = Some(Stage::Second(change.change(output)));
            }
        }
        true
    }
}

impl<W, G: Future<W>, C: Change<G::Output>> Future<W> for Then<G, C, C::Output>
where
    C::Output: Future<W>,
{
    type Output = <C::Output as Future<W>>::Output;

    fn poll(&mut self, w: &W) -> Poll<<C::Output as Future<W>>::Output>
        ensures ended { IsSome self.old.stage → is_none self.new.stage ≡ is_ready result }
        ensures again { self.old.stage ≡ None → (result ≡ waits) × (self.new.stage ≡ None) }
        ensures second { IfGoesOn self.old.stage self.new.stage StaysSecond }
    {
        if !self.poll_first(w) {
            return Poll::Pending;
        }
        let Some(Stage::Second(second)) = &mut self.stage else {
            return Poll::Pending;
        };
        let answer = second.poll(w);
        if let Poll::Ready(_) = &answer {
            self.stage = None;
        }
        answer
    }
}

// One of the two futures of a `Zip`, or its output.
#[derive(Drop)]
pub(crate) enum Half<G, T> {
    Open(G),
    Kept(T),
}

impl<G, T> Half<G, T> {
    // Polls this half of a `Zip`, unless its output is there, and keeps the output.
    fn poll<W>(&mut self, w: &W) -> bool
    where
        G: Future<W, Output = T>,
        ensures kept { Keeps self.old self.new }
        ensures open { result ≡ is_open self.new }
    {
        let Half::Open(future) = self else {
            return false;
        };
        match future.poll(w) {
            Poll::Ready(output) => {
                *self = Half::Kept(output);
                false
            }
            Poll::Pending => true,
        }
    }

    // The output that this half of a `Zip` kept.
    fn kept(self) -> T
        requires { is_open self ≡ false }
        ensures { self ≡ Half.Kept result }
    {
        match self {
            Half::Kept(output) => output,
            Half::Open(_) => unreachable!(),
        }
    }
}

/// Gives the outputs of two futures, which are polled by turns until both are ready.
///
/// Example: `uses::awaits_both`, and of tasks `uses::runs_two`.
///
/// ```text
/// let mut both = Zip::new(Ready::new(7), YieldNow::new());
/// let first = both.poll(&NoopWaker);
/// // [Pending, Ready((7, ()))]
/// [first, both.poll(&NoopWaker)]
/// ```
#[derive(Drop)]
pub struct Zip<A, X, B, Y> {
    halves: Option<(Half<A, X>, Half<B, Y>)>,
}

impl<A, X, B, Y> Zip<A, X, B, Y> {
    /// Awaits both.
    ///
    /// Example: `uses::awaits_both`, at `Zip`.
    pub fn new(left: A, right: B) -> Zip<A, X, B, Y>
        ensures { result.halves ≡ Some (Half.Open left, Half.Open right) }
    {
        Zip {
            halves: Some((Half::Open(left), Half::Open(right))),
        }
    }
}

// Polls both halves. Whether one is still to be polled.
fn poll_both<W, A: Future<W>, B: Future<W>>(
    left: &mut Half<A, A::Output>,
    right: &mut Half<B, B::Output>,
    w: &W,
) -> bool
    ensures left { Keeps left.old left.new }
    ensures right { Keeps right.old right.new }
    ensures open { result ≡ (is_open left.new || is_open right.new) }
{
    let (is_left_open, is_right_open) = (left.poll(w), right.poll(w));
    is_left_open || is_right_open
}

impl<W, A: Future<W>, B: Future<W>> Future<W> for Zip<A, A::Output, B, B::Output> {
    type Output = (A::Output, B::Output);

    fn poll(&mut self, w: &W) -> Poll<(A::Output, B::Output)>
        ensures ended { IsSome self.old.halves → is_none self.new.halves ≡ is_ready result }
        ensures again { self.old.halves ≡ None → (result ≡ waits) × (self.new.halves ≡ None) }
        ensures outputs { IfSome self.old.halves (λ halves. IfReady result (GaveBoth halves)) }
        ensures kept { IfGoesOn self.old.halves self.new.halves KeepBoth }
        ensures open { IfSome self.new.halves (λ halves. is_either_open halves ≡ true) }
    {
        let Some((left, right)) = &mut self.halves else {
            return Poll::Pending;
        };
        if poll_both(left, right, w) {
            return Poll::Pending;
        }
        match self.halves.take() {
            Some((left, right)) => Poll::Ready((left.kept(), right.kept())),
            None => unreachable!(),
        }
    }
}

/// Gives the output of the first of two futures that is ready, and the left one's if both are. The
/// other future is dropped then.
///
/// Example: `uses::takes_the_first`.
///
/// ```text
/// let mut first = Or::new(Never::new(), Ready::new(7));
/// // Ready(7)
/// first.poll(&NoopWaker)
/// ```
#[derive(Drop)]
pub struct Or<A, B> {
    both: Option<(A, B)>,
}

impl<A, B> Or<A, B> {
    /// An `Or`: awaits the first of them.
    ///
    /// Example: `uses::takes_the_first`, at `Or`.
    pub fn new(left: A, right: B) -> Or<A, B>
        ensures { result.both ≡ Some (left, right) }
    {
        Or {
            both: Some((left, right)),
        }
    }
}

impl<W, A: Future<W>, B: Future<W, Output = A::Output>> Future<W> for Or<A, B> {
    type Output = A::Output;

    fn poll(&mut self, w: &W) -> Poll<A::Output>
        ensures ended { IsSome self.old.both → is_none self.new.both ≡ is_ready result }
        ensures again { self.old.both ≡ None → (result ≡ waits) × (self.new.both ≡ None) }
    {
        let Some((left, right)) = &mut self.both else {
            return Poll::Pending;
        };
        let answer = poll_first_of(left, right, w);
        if let Poll::Ready(_) = &answer {
            self.both = None;
        }
        answer
    }
}

// Polls one, and the other one if that is pending.
fn poll_first_of<W, A: Future<W>, B: Future<W, Output = A::Output>>(
    first: &mut A,
    second: &mut B,
    w: &W,
) -> Poll<A::Output> {
    match first.poll(w) {
        Poll::Pending => second.poll(w),
        Poll::Ready(output) => Poll::Ready(output),
    }
}

/// Gives the output of the first of two futures that is ready, and is fair if both are: it polls the
/// left one first, then the right one, and so on by turns. The other future is dropped then.
///
/// Example: `uses::alternates`.
///
/// ```text
/// let mine = ThreadWaker::new(alloc)?;
/// let mut race = Race::new(Late::new(1), Late::new(2));
/// let first = race.poll(&mine);
/// // [Pending, Ready(2)]: the right one goes first at the second poll
/// Ok([first, race.poll(&mine)])
/// ```
#[derive(Drop)]
pub struct Race<A, B> {
    both: Option<(A, B)>,
    // Turns and no random number: a program runs the same way each time.
    starts_right: bool,
}

impl<A, B> Race<A, B> {
    /// A `Race`: awaits the first of them.
    ///
    /// Example: `uses::alternates`, at `Race`.
    pub fn new(left: A, right: B) -> Race<A, B>
        ensures both { result.both ≡ Some (left, right) }
        ensures turn { result.starts_right ≡ false }
    {
        Race {
            both: Some((left, right)),
            starts_right: false,
        }
    }
}

impl<W, A: Future<W>, B: Future<W, Output = A::Output>> Future<W> for Race<A, B> {
    type Output = A::Output;

    fn poll(&mut self, w: &W) -> Poll<A::Output>
        ensures ended { IsSome self.old.both → is_none self.new.both ≡ is_ready result }
        ensures again { self.old.both ≡ None → (result ≡ waits) × (self.new.both ≡ None) }
        ensures turn { IsSome self.old.both → self.new.starts_right ≡ not self.old.starts_right }
    {
        let Some((left, right)) = &mut self.both else {
            return Poll::Pending;
        };
        let starts_right = self.starts_right;
        self.starts_right = !starts_right;
        let answer = if starts_right {
            poll_first_of(right, left, w)
        } else {
            poll_first_of(left, right, w)
        };
        if let Poll::Ready(_) = &answer {
            self.both = None;
        }
        answer
    }
}
