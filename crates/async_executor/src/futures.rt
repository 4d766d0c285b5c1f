//! The futures and outputs of an executor's tasks, and where they are kept.
//!
//! A task has the place of its slot for as long as its cell has that slot, also while its future is
//! out to be polled. The place bears the number of the task, so that a later task of the same slot
//! is not taken for it.
ghost use Rattle.std.specs.Prelude.{◌≡◌, ◌↔◌, ◌<◌, [], cond, Some, None, IsTrue, is_some, option_copied, vec_len};
ghost use Rattle.async_executor.specs.FutureTable.{kept_at, is_vacant, future_in, output_in, inserted, with_place, HasRoom};

pub(crate) mod transactions;

use crate::lock::{APART, CacheLine, Lock};
use crate::poller::Out;
use crate::state::ExecutorState;
use crate::waker::TaskWaker;
use executor_core::task::{Future, OutOfMemory, TaskId, Wake};
use std::alloc::Global;
use std::cell::Cell;
use std::mem::{forget, replace};
use std::rc::Rc;
use std::sync::{Arc, MutexGuard, Wait};

/// What is kept of a task: its future with a share S of which its waker is made, or its output T.
#[derive(Drop)]
pub enum Kept<F, S, T> {
    Nothing,
    // The task's waker is made of the share as the future is taken, so no place has an id twice.
    Future(F, S),
    Output(T),
}

#[derive(Drop)]
struct Place<F, S, T> {
    number: u64,
    kept: Kept<F, S, T>,
}

/// What is kept of all tasks, each at its slot.
pub struct FutureTable<F: Drop, S: Drop, T: Drop> {
    places: Vec<Place<F, S, T>>,
}

impl<F: Drop, S: Drop, T: Drop> Drop for FutureTable<F, S, T> {
    // Not derived: the proof of each crate that drops a handle would go through all that stands here.
    fn drop(self) {
        let FutureTable { places } = self;
        drop(places);
    }
}

impl<F: Drop, S: Drop, T: Drop> FutureTable<F, S, T> {
    /// A `FutureTable` without places.
    pub(crate) fn new(alloc: Global) -> FutureTable<F, S, T>
        ensures { result.places.items ≡ [] }
    {
        FutureTable {
            places: Vec::new(alloc),
        }
    }

    /// Whether there is a place for the future of one task more.
    pub(crate) fn has_room(&self) -> bool
        ensures { IsTrue result ↔ HasRoom self.now }
    {
        self.places.len() < self.places.capacity()
    }

    /// Makes places for the futures of this many tasks more.
    pub(crate) fn reserve_places(&mut self, tasks: usize) -> Result<(), OutOfMemory>
        ensures { self.new.places.items ≡ self.old.places.items }
    {
        self.places.try_reserve(tasks)?;
        Ok(())
    }

    /// Gives the future of a new task its place: that of an earlier task, or the next one. Slots are given in
    /// order.
    pub(crate) fn insert(&mut self, id: TaskId, future: F, share: S)
        requires { HasRoom self.old }
        ensures { self.new.places.items
            ≡ inserted self.old.places.items id (Kept.Future future share) }
    {
        let slot = id.slot();
        let place = Place {
            number: id.number(),
            kept: Kept::Future(future, share),
        };
        // The table gives slots as they come. A place elsewhere would be found by no other task: it bears
        // a number.
        if slot < self.places.len() {
            self.places[slot] = place;
        } else {
            self.places.push_reserved(place);
        }
    }

    // What this `FutureTable` keeps of the task, if it has its place.
    fn kept(&self, id: TaskId) -> Option<&Kept<F, S, T>>
        ensures kept { option_copied result ≡ kept_at self.now id }
        ensures inside { IsTrue (is_some (kept_at self.now id))
            → id.slot < vec_len self.now.places }
    {
        match self.places.get(id.slot()) {
            Some(place) if place.number == id.number() => Some(&place.kept),
            _ => None,
        }
    }

    // Whether the task has its place in this `FutureTable`, and nothing is kept of it.
    fn is_vacant(&self, id: TaskId) -> bool
        ensures vacant { result ≡ is_vacant (kept_at self.now id) }
        ensures inside { IsTrue result → id.slot < vec_len self.now.places }
    {
        matches!(self.kept(id), Some(Kept::Nothing))
    }

    // Whether the future of the task is kept.
    fn has_future(&self, id: TaskId) -> bool
        ensures future { result ≡ is_some (future_in (kept_at self.now id)) }
        ensures inside { IsTrue result → id.slot < vec_len self.now.places }
    {
        matches!(self.kept(id), Some(Kept::Future(_, _)))
    }

    // Whether the output of the task is kept.
    fn has_output(&self, id: TaskId) -> bool
        ensures output { result ≡ is_some (output_in (kept_at self.now id)) }
        ensures inside { IsTrue result → id.slot < vec_len self.now.places }
    {
        matches!(self.kept(id), Some(Kept::Output(_)))
    }

    /// Takes the future of the task, with its share.
    pub(crate) fn take_future(&mut self, id: TaskId) -> Option<(F, S)>
        ensures answer { result ≡ future_in (kept_at self.old id) }
        ensures places { self.new.places.items
            ≡ cond (is_some result) (with_place self.old.places.items id Kept.Nothing)
            self.old.places.items }
    {
        if !self.has_future(id) {
            return None;
        }
        match replace(&mut self.places[id.slot()].kept, Kept::Nothing) {
            Kept::Future(future, share) => Some((future, share)),
            _ => unreachable!(),
        }
    }

    /// Takes the output of the task.
    pub(crate) fn take_output(&mut self, id: TaskId) -> Option<T>
        ensures answer { result ≡ output_in (kept_at self.old id) }
        ensures places { self.new.places.items
            ≡ cond (is_some result) (with_place self.old.places.items id Kept.Nothing)
            self.old.places.items }
    {
        if !self.has_output(id) {
            return None;
        }
        match replace(&mut self.places[id.slot()].kept, Kept::Nothing) {
            Kept::Output(output) => Some(output),
            _ => unreachable!(),
        }
    }

    /// Keeps the future of the task, with its share. If it has no place, or something is kept
    /// there, both are given back.
    pub(crate) fn keep_future(&mut self, id: TaskId, future: F, share: S) -> Option<(F, S)>
        ensures answer { result
            ≡ cond (is_vacant (kept_at self.old id)) None (Some (future, share)) }
        ensures places { self.new.places.items
            ≡ cond (is_vacant (kept_at self.old id))
            (with_place self.old.places.items id (Kept.Future future share)) self.old.places.items }
    {
        if !self.is_vacant(id) {
            return Some((future, share));
        }
        self.places[id.slot()].kept = Kept::Future(future, share);
        None
    }

    /// Keeps the output of the task. If it has no place, or something is kept there, the output
    /// is given back.
    pub(crate) fn keep_output(&mut self, id: TaskId, output: T) -> Option<T>
        ensures answer { result ≡ cond (is_vacant (kept_at self.old id)) None (Some output) }
        ensures places { self.new.places.items
            ≡ cond (is_vacant (kept_at self.old id))
            (with_place self.old.places.items id (Kept.Output output)) self.old.places.items }
    {
        if !self.is_vacant(id) {
            return Some(output);
        }
        self.places[id.slot()].kept = Kept::Output(output);
        None
    }
}

/// A share of an executor's state and of its futures.
pub trait Storage: Drop {
    type Future: Future<TaskWaker<Self::Waker, Self::Runtime>>;

    type Waker: Wake;

    type Runtime: Wait + Drop;

    /// The state in this storage, which the executor shares with the wakers of its tasks.
    fn state(&self) -> &ExecutorState<Self::Waker, Self::Runtime>;

    /// The futures in this storage, if nobody has them.
    fn try_futures(&self) -> Option<FuturesGuard<'_, FuturesIn<Self>>>;

    /// Waits for the futures in this storage, which somebody has. A run says the number of its runner.
    fn wait_for_futures(&self, runner: Option<u64>) -> FuturesGuard<'_, FuturesIn<Self>>;
}

/// Storage of which further shares are made. A call that is generic in a storage is proved, where it is
/// called, against all that its traits have, and few calls need a share: so these stand apart.
pub trait Shareable: Storage {
    /// The first share of the storage of an executor that has no tasks.
    fn new(rt: Self::Runtime, alloc: Global) -> Result<Self, OutOfMemory>;

    /// Another share of the storage.
    fn share(&self) -> Result<Self, OutOfMemory>;

    /// A share of the storage's state alone.
    fn share_state(&self) -> Result<StateIn<Self>, OutOfMemory>;
}

/// Waits for the futures of a storage, which nobody else has until the guard is dropped. A macro, for the
/// same reason as `cells!`.
macro_rules! futures {
    ($storage:expr) => {
        futures!($storage, None)
    };
    ($storage:expr, $runner:expr) => {
        match $storage.try_futures() {
            Some(futures) => futures,
            None => $storage.wait_for_futures($runner),
        }
    };
}

pub(crate) use futures;

/// A share of the state of a storage, as the wakers of its tasks have.
pub type StateIn<S> = Arc<ExecutorState<<S as Storage>::Waker, <S as Storage>::Runtime>>;

/// The futures of a storage.
pub type FuturesIn<S> = FutureTable<<S as Storage>::Future, StateIn<S>, OutputIn<S>>;

/// The futures, which nobody else has until this is dropped.
#[derive(Drop)]
// Two kinds, since an associated type can have no lifetime for a parameter. A storage makes one kind alone,
// so in the code of its calls the choice is gone.
pub enum FuturesGuard<'a, T: Drop> {
    Locked(MutexGuard<'a, T>),
    Lent(Lent<'a, T>),
}

impl<T: Drop> FuturesGuard<'_, T> {
    /// The table of futures, in this guard of a storage.
    #[inline(always)]
    pub(crate) fn get(&mut self) -> &mut T {
        match self {
            FuturesGuard::Locked(futures) => &mut **futures,
            FuturesGuard::Lent(lent) => &mut lent.futures,
        }
    }
}

impl<F: Drop, S: Drop, T: Drop> FuturesGuard<'_, FutureTable<F, S, T>> {
    /// Makes a place for the future of one task more, if there is memory for it.
    #[inline(always)]
    pub(crate) fn make_room(&mut self, alloc: Global) {
        match self {
            FuturesGuard::Locked(futures) => grow(&mut **futures),
            FuturesGuard::Lent(lent) => lent.make_room(alloc),
        }
    }
}

// Makes a place, if there is memory for it: who needs one asks again.
#[cold]
#[inline(never)]
fn grow<F: Drop, S: Drop, T: Drop>(futures: &mut FutureTable<F, S, T>)
    ensures { futures.new.places.items ≡ futures.old.places.items }
{
    let _refused = futures.reserve_places(1);
}

/// A table of futures that was taken out of its cell, and is put back when this is dropped. The cell has an
/// empty one meanwhile, which nobody asks: no change makes another change of the same storage.
pub struct Lent<'a, T: Drop> {
    cell: &'a Cell<T>,
    futures: T,
}

impl<'a, T: Drop> Lent<'a, T> {
    /// Takes the table of a storage out of its cell, and leaves this one there.
    #[inline(always)]
    pub(crate) fn of(cell: &'a Cell<T>, meanwhile: T) -> Lent<'a, T> {
        let futures = cell.replace(meanwhile);
        Lent { cell, futures }
    }
}

impl<F: Drop, S: Drop, T: Drop> Lent<'_, FutureTable<F, S, T>> {
    // Makes a place, if there is memory for it, in the cell: if the table here were handed to a function, it
    // would lie in memory, and not in registers, also where it has room.
    #[inline(always)]
    fn make_room(&mut self, alloc: Global) {
        let futures = replace(&mut self.futures, FutureTable::new(alloc));
        forget(self.cell.replace(futures));
        grow_in(self.cell, alloc);
        let grown = self.cell.replace(FutureTable::new(alloc));
        forget(replace(&mut self.futures, grown));
    }
}

#[cold]
#[inline(never)]
fn grow_in<F: Drop, S: Drop, T: Drop>(cell: &Cell<FutureTable<F, S, T>>, alloc: Global) {
    let mut lent = Lent::of(cell, FutureTable::new(alloc));
    grow(&mut lent.futures);
}

impl<T: Drop> Drop for Lent<'_, T> {
    #[inline(always)]
    fn drop(self) {
        let Lent { cell, futures } = self;
        // It is empty and has no memory.
        forget(cell.replace(futures));
    }
}

/// The future of a task of a storage while it is out, with its waker.
pub type OutIn<S> = Out<<S as Storage>::Future, <S as Storage>::Waker, <S as Storage>::Runtime>;

/// What a task gives.
pub type OutputIn<S> = <<S as Storage>::Future as Future<
    TaskWaker<<S as Storage>::Waker, <S as Storage>::Runtime>,
>>::Output;

#[derive(Drop)]
struct Shared<F: Future<TaskWaker<W, R>>, W: Wake, R: Wait + Drop> {
    state: Arc<ExecutorState<W, R>>,
    // The lock of the futures is not on the line of the counts of the shares.
    before_futures: CacheLine,
    futures: Lock<FutureTable<F, Arc<ExecutorState<W, R>>, F::Output>>,
}

/// Storage behind a lock.
#[derive(Drop)]
pub struct SharedStorage<F: Future<TaskWaker<W, R>>, W: Wake, R: Wait + Drop> {
    shared: Arc<Shared<F, W, R>>,
}

impl<F: Future<TaskWaker<W, R>>, W: Wake, R: Wait + Drop> Storage for SharedStorage<F, W, R> {
    type Future = F;

    type Waker = W;

    type Runtime = R;

    fn state(&self) -> &ExecutorState<W, R> {
        &self.shared.state
    }

    #[inline(always)]
    fn try_futures(
        &self,
    ) -> Option<FuturesGuard<'_, FutureTable<F, Arc<ExecutorState<W, R>>, F::Output>>> {
        let futures = self.shared.futures.mutex.try_lock()?;
        Some(FuturesGuard::Locked(futures))
    }

    // Inline, so that who has the guard knows of which kind it is.
    #[inline(always)]
    fn wait_for_futures(
        &self,
        runner: Option<u64>,
    ) -> FuturesGuard<'_, FutureTable<F, Arc<ExecutorState<W, R>>, F::Output>> {
        let rt = self.shared.state.rt();
        FuturesGuard::Locked(self.shared.futures.wait_for(rt, runner))
    }
}

impl<F: Future<TaskWaker<W, R>>, W: Wake, R: Wait + Drop> Shareable for SharedStorage<F, W, R> {
    fn new(rt: R, alloc: Global) -> Result<Self, OutOfMemory> {
        let Ok(state) = Arc::new(alloc, ExecutorState::new(rt, alloc)?) else {
            return Err(OutOfMemory);
        };
        let futures = Lock::new(FutureTable::new(alloc));
        let shared = Shared {
            state,
            before_futures: APART,
            futures,
        };
        match Arc::new(alloc, shared) {
            Ok(shared) => Ok(SharedStorage { shared }),
            Err(_) => Err(OutOfMemory),
        }
    }

    fn share(&self) -> Result<Self, OutOfMemory> {
        let shared = Arc::try_clone(&self.shared)?;
        Ok(SharedStorage { shared })
    }

    fn share_state(&self) -> Result<Arc<ExecutorState<W, R>>, OutOfMemory> {
        Ok(Arc::try_clone(&self.shared.state)?)
    }
}

#[derive(Drop)]
struct Local<F: Future<TaskWaker<W, R>>, W: Wake, R: Wait + Drop> {
    state: Arc<ExecutorState<W, R>>,
    futures: Cell<FutureTable<F, Arc<ExecutorState<W, R>>, F::Output>>,
}

/// Storage in a cell: no thread waits for it. The state is that of the shared one too, so the
/// wakers of its tasks may go to other threads.
#[derive(Drop)]
pub struct LocalStorage<F: Future<TaskWaker<W, R>>, W: Wake, R: Wait + Drop> {
    local: Rc<Local<F, W, R>>,
}

impl<F: Future<TaskWaker<W, R>>, W: Wake, R: Wait + Drop> Storage for LocalStorage<F, W, R> {
    type Future = F;

    type Waker = W;

    type Runtime = R;

    fn state(&self) -> &ExecutorState<W, R> {
        &self.local.state
    }

    #[inline(always)]
    fn try_futures(
        &self,
    ) -> Option<FuturesGuard<'_, FutureTable<F, Arc<ExecutorState<W, R>>, F::Output>>> {
        Some(self.wait_for_futures(None))
    }

    // Nobody else has it.
    #[inline(always)]
    fn wait_for_futures(
        &self,
        _runner: Option<u64>,
    ) -> FuturesGuard<'_, FutureTable<F, Arc<ExecutorState<W, R>>, F::Output>> {
        // Taken out, where a `RefCell` could answer that it is in use, to which there is no answer but to
        // wait. No change of a storage makes another, so nobody meets the empty table; and no two executors
        // share one, since there is no static that can be changed.
        let meanwhile = FutureTable::new(self.local.state.alloc());
        FuturesGuard::Lent(Lent::of(&self.local.futures, meanwhile))
    }
}

impl<F: Future<TaskWaker<W, R>>, W: Wake, R: Wait + Drop> Shareable for LocalStorage<F, W, R> {
    fn new(rt: R, alloc: Global) -> Result<Self, OutOfMemory> {
        let Ok(state) = Arc::new(alloc, ExecutorState::new(rt, alloc)?) else {
            return Err(OutOfMemory);
        };
        let futures = Cell::new(FutureTable::new(alloc));
        match Rc::new(alloc, Local { state, futures }) {
            Ok(local) => Ok(LocalStorage { local }),
            Err(_) => Err(OutOfMemory),
        }
    }

    fn share(&self) -> Result<Self, OutOfMemory> {
        let local = self.local.clone()?;
        Ok(LocalStorage { local })
    }

    fn share_state(&self) -> Result<Arc<ExecutorState<W, R>>, OutOfMemory> {
        Ok(Arc::try_clone(&self.local.state)?)
    }
}
