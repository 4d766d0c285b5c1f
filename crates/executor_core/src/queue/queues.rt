//! All queues of the cells: the global one, and one for each registered runner.
//!
//! The global queue is linked through the slots of the cells, which therefore stand here, and a task
//! that is queued there takes no memory. A runner's queue is a ring of its own, which the runner
//! brings when it registers; places for runners are reserved before.
//!
//! A runner finds its queue where it stood the last time: `positions` keeps that for each runner,
//! and is only a hint. If the queue stands there no more, since another runner left, it is looked
//! for.
ghost use Rattle.std.specs.Prelude.{◌≡◌, ◌≢◌, ◌+◌, ◌-◌, ◌<◌, ◌%◌, ◌≤◌, ◌^◌, ◌↔◌, ◌&&◌, ◌∷◌, ◌++◌, take, nat_lt, not, false, is_some, [], Some, None, ◌==◌, map, drop, IfOk, IfErr, IsOk, OnOk, length, option_copied, option_map, unwrap_or, slice_get, slice_index_or, slice_set};
ghost use Rattle.std.specs.List.{position, find, range_with_len};
ghost use Rattle.executor_core.specs.Queues.{position_of, is_registered, search_global, search, search_any, first_occupied, gives, victim, fair, fair_count, stolen_between, stolen_locals, global_stolen, stolen, with_entries, entries_at, capacity_at, emptied, local_entries, gathered};
ghost use Rattle.executor_core.specs.Queues.View.{local_of};
ghost use Rattle.executor_core.specs.Queues.State.{no_queues, with_lists, pushed};
ghost use Rattle.executor_core.specs.Slots.{Changes, HasCell, IsQueue, numbered, with_queue};
ghost use Rattle.executor_core.specs.Cell.Changes.{new_cell};
ghost use Rattle.std.specs.Borrow.{sem};

use crate::queue::runner::RunnerKey;
use crate::task::cell::{Cell, Numbered, TaskId};
use crate::task::error::OutOfMemory;
use crate::task::slots::{QueuedNumbers, Slots};
use crate::task::values::Notice;
use circular_buffer::HeapCircularBuffer;
use std::alloc::{AllocError, Global};
use std::cmp::min;
use std::marker::Model;

/// The ids of queued tasks, in the order in which they were queued, and room for so many.
///
/// A contract sees it as an `IdRing`: the ids from the front on, and the capacity.
#[derive(Drop)]
pub struct Ring {
    ids: HeapCircularBuffer<TaskId>,
}

impl Model for Ring {
    ghost use Rattle.executor_core.specs.Ring.{IdRing};
    ghost use Rattle.executor_core.specs.Ring.Coding.{id_ring_code};

    ghost Value = { IdRing };

    ghost coded = { id_ring_code };

    ghost view = { λ r. record { ids = r.ids.items; capacity = r.ids.capacity } };
}

impl Ring {
    /// An empty ring with room for so many ids.
    ///
    /// # Errors
    ///
    /// `OutOfMemory` if its memory was refused.
    pub fn new(alloc: Global, capacity: usize) -> Result<Self, OutOfMemory>
        ensures { IfOk result (λ ring. ring ≡ record { ids = []; capacity = capacity }) }
    {
        let ids = HeapCircularBuffer::with_capacity(alloc, capacity)?;
        Ok(Ring { ids })
    }

    /// Puts the id at the end of the ring. It takes no memory.
    ///
    /// # Errors
    ///
    /// The id comes back exactly if the ring is full, and nothing changes.
    pub fn push(&mut self, id: TaskId) -> Result<(), TaskId>
        ensures variant { IsOk result ↔ (length self.old.ids < self.old.capacity) }
        ensures ok { OnOk result (self.new ≡ record self.old { ids = self.old.ids ++ id ∷ [] }) }
        ensures full { IfErr result (λ back. (back ≡ id) × (self.new ≡ self.old)) }
    {
        self.ids.try_push_back(id)
    }

    /// Takes the id at the front, or none if the ring is empty.
    pub fn pop(&mut self) -> Option<TaskId>
        ensures front { result ≡ slice_get self.old.ids 0 }
        ensures rest { self.new ≡ record self.old { ids = drop 1 self.old.ids } }
    {
        self.ids.pop_front()
    }

    /// How many ids stand in the ring.
    pub fn len(&self) -> usize
        ensures len { result ≡ length self.now.ids }
        ensures within { result ≤ self.now.capacity }
    {
        self.ids.len()
    }

    /// Whether no id stands in the ring.
    pub fn is_empty(&self) -> bool
        ensures { result ≡ (length self.now.ids == 0) }
    {
        self.ids.is_empty()
    }

    // The number of the task at this place of the ring, the front being 0.
    pub(crate) fn number_at(&self, place: usize) -> Option<u64>
        ensures { result ≡ option_map (λ id. id.number) (slice_get self.now.ids place) }
    {
        match self.ids.get(place) {
            Some(id) => Some(id.number),
            None => None,
        }
    }

    /// For how many ids the ring has room.
    pub fn capacity(&self) -> usize
        ensures capacity { result ≡ self.now.capacity }
        ensures within { result < 2 ^ 63 }
    {
        self.ids.capacity()
    }
}

/// Moves the first half of the source, rounded up, to the end of the target, in order, as far as
/// there is room, and says how many that are.
///
/// It takes no memory. Source in the Rust crate: `steal` of `src/lib.rs`.
pub fn steal(source: &mut Ring, target: &mut Ring) -> usize
    ensures count { result ≡ stolen source.old.ids target.old.ids target.old.capacity }
    ensures source { source.new ≡ record source.old { ids = drop result source.old.ids } }
    ensures target { target.new
        ≡ record target.old { ids = target.old.ids ++ take result source.old.ids } }
{
    let free = target.capacity() - target.len();
    let count = min(source.len().div_ceil(2), free);
    move_first(source, target, count);
    count
}

// Moves so many ids from the front of the source to the end of the target, in order.
fn move_first(source: &mut Ring, target: &mut Ring, count: usize)
    requires there { count ≤ length source.old.ids }
    requires room { length target.old.ids + count ≤ target.old.capacity }
    ensures source { source.new ≡ record source.old { ids = drop count source.old.ids } }
    ensures target { target.new
        ≡ record target.old { ids = target.old.ids ++ take count source.old.ids } }
{
    for _ in 0..count {
        let Some(id) = source.pop() else {
            unreachable!()
        };
        let Ok(()) = target.push(id) else {
            unreachable!()
        };
    }
}

// Moves the first half of the linked queue, rounded up, to the end of the ring, in order, as far as
// there is room, and says how many tasks that are.
fn steal_linked<P, T, W>(slots: &mut Slots<P, T, W>, ring: &mut Ring) -> usize
    ensures count { result ≡ stolen slots.old.queue ring.old.ids ring.old.capacity }
    ensures queue { slots.new ≡ with_queue (drop result slots.old.queue) slots.old }
    ensures ring { ring.new
        ≡ record ring.old { ids = ring.old.ids ++ take result slots.old.queue } }
{
    if slots.len() == 0 {
        return 0;
    }
    let free = ring.capacity() - ring.len();
    let count = min(slots.len().div_ceil(2), free);
    move_linked(slots, ring, count);
    count
}

// Moves so many tasks from the front of the linked queue to the end of the ring, in order.
fn move_linked<P, T, W>(slots: &mut Slots<P, T, W>, ring: &mut Ring, count: usize)
    requires there { count ≤ length slots.old.queue }
    requires room { length ring.old.ids + count ≤ ring.old.capacity }
    ensures queue { slots.new ≡ with_queue (drop count slots.old.queue) slots.old }
    ensures ring { ring.new ≡ record ring.old { ids = ring.old.ids ++ take count slots.old.queue } }
{
    // The links of these are cleared one by one. Their slots are the ones that the takes go to next.
    for _ in 0..count {
        let Some(id) = slots.pop() else {
            unreachable!()
        };
        let Ok(()) = ring.push(id) else {
            unreachable!()
        };
    }
}

// Moves all that stands in the ring behind the last task of the linked queue, in order.
pub(in crate::queue) fn append<P, T, W>(slots: &mut Slots<P, T, W>, ring: &mut Ring)
    requires queue { IsQueue slots.old.slots (slots.old.queue ++ ring.old.ids) }
    requires counted { length slots.old.queue + length ring.old.ids < 2 ^ 64 }
    ensures queue { slots.new ≡ with_queue (slots.old.queue ++ ring.old.ids) slots.old }
    ensures ring { ring.new ≡ record ring.old { ids = [] } }
{
    for _ in 0..ring.len() {
        let Some(id) = ring.pop() else { unreachable!() };
        slots.push(id);
    }
}

// The queue of a registered runner, which has this number. Those of two runners share no cache line,
// nor two lines that a processor asks for together.
#[derive(Drop)]
pub(in crate::queue) struct LocalQueue {
    pub(in crate::queue) runner: u64,
    pub(in crate::queue) ring: Ring,
    pub(in crate::queue) before_next: [u64; 16],
}

/// The queues, and the places that are reserved for runners.
///
/// A contract sees it as `QueuedSlots`: what each slot has, and a `QueueState` with the queues as
/// lists of ids, the number of the next runner, and how many reserved places are free.
#[derive(Drop)]
pub(crate) struct Queues<P, T, W> {
    // A type of its own, with a model of its own: another form of the queues changes no body there.
    pub(in crate::queue) slots: Slots<P, T, W>,
    // In order of registration.
    pub(in crate::queue) locals: Vec<LocalQueue>,
    pub(in crate::queue) next_runner: u64,
    pub(in crate::queue) free_places: usize,
    // Where the queue of a runner stood the last time, by its number modulo the length, which is a power
    // of two.
    pub(in crate::queue) positions: Vec<usize>,
}

impl<P, T, W> Model for Queues<P, T, W> {
    ghost use Rattle.executor_core.specs.Queues.Slots.{QueuedSlots};
    ghost use Rattle.executor_core.specs.Queues.Slots.Coding.{queued_slots_code};

    ghost Value = { QueuedSlots P T W };

    ghost coded = { queued_slots_code P.code T.code W.code };

    ghost use Rattle.std.specs.Vec.{vec_capacity};
    ghost use Rattle.executor_core.specs.Queues.View.{state_of, IsQueues};

    ghost view = { λ q.
        record {
          slots = q.slots.slots;
          state = state_of q.slots.queue q.locals.items
              q.next_runner q.free_places;
        } };

    // One list of the ids of all queues, whatever their order: one lemma serves every move between
    // queues.
    ghost invariant = { λ q. IsQueues
        (state_of q.slots.queue q.locals.items q.next_runner q.free_places)
        (vec_capacity q.locals) };
}

// The slots and their cells.
impl<P, T, W> Queues<P, T, W> {
    ghost use Rattle.executor_core.specs.Queues.Lends.{lends_cell};

    // `Queues` without a task and without a registered runner.
    pub(crate) fn new(alloc: Global) -> Self
        ensures { result ≡ record { slots = []; state = no_queues } }
    {
        Queues {
            slots: Slots::new(alloc),
            locals: Vec::new(alloc),
            next_runner: 0,
            free_places: 0,
            positions: Vec::new(alloc),
        }
    }

    // `Slots::capacity`, for `Queues`: as many slots as there are, or more.
    pub(crate) fn capacity(&self) -> usize
        ensures { length self.now.slots ≤ result }
    {
        self.slots.capacity()
    }

    // `Slots::get`, for `Queues`: the cell in this slot, with its number.
    pub(crate) fn get(&self, slot: usize) -> Option<&Numbered<Cell<P, T, W>>>
        ensures { option_copied result ≡ slice_index_or self.now.slots slot None }
    {
        self.slots.get(slot)
    }

    // `Slots::cell`, for `Queues`: the cell of the task.
    pub(crate) fn cell(&self, id: TaskId) -> &Cell<P, T, W>
        requires { HasCell self.now.slots id }
        ensures { slice_index_or self.now.slots id.slot None ≡ Some (numbered id result.now) }
    {
        self.slots.cell(id)
    }

    // `Slots::cell_mut`, for `Queues`: the cell of the task, for a change of it.
    pub(crate) fn cell_mut(&mut self, id: TaskId) -> &mut Cell<P, T, W>
        requires { HasCell self.old.slots id }
        ensures* writes_back { sem 𝓛 (lends_cell P.row T.row W.row self.entry id result) }
        ensures value { slice_index_or self.old.slots id.slot None ≡ Some (numbered id result.now) }
    {
        self.slots.cell_mut(id)
    }

    // `Slots::reserve`, for `Queues`: room for this many cells more.
    pub(crate) fn reserve(&mut self, cells: usize) -> Result<(), AllocError>
        ensures { self.new ≡ self.old }
    {
        self.slots.reserve(cells)
    }

    // `Slots::insert`, for `Queues`: makes the cell of a new task of this future, and queues the task at
    // the global end. If a growth was refused, the future comes back. Nobody queues a task without its
    // notice, which comes from here.
    #[inline(always)]
    pub(crate) fn insert(&mut self, number: u64, future: P) -> Result<(TaskId, Notice), P>
        requires { length self.old.state.lists.global + 1 < 2 ^ 64 }
        ensures number { IfOk result (λ r. r.0.number ≡ number) }
        ensures vacant { IfOk result (λ r. slice_index_or self.old.slots r.0.slot None ≡ None) }
        ensures slots { IfOk result
            (λ r. Changes self.old.slots self.new.slots r.0.slot
            (Some (record { number = number; cell = new_cell future }))) }
        ensures state { IfOk result
            (λ r. self.new.state ≡ with_lists (pushed r.0 self.old.state.lists) self.old.state) }
        ensures refused { IfErr result (λ back. (back ≡ future) × (self.new ≡ self.old)) }
    {
        let id = self.slots.insert(number, future)?;
        Ok((id, Notice { unspent: () }))
    }

    // `Slots::remove`, for `Queues`: takes the cell of the task away, which stands in no global queue.
    pub(crate) fn remove(&mut self, id: TaskId) -> Cell<P, T, W>
        requires there { HasCell self.old.slots id }
        requires unqueued { IsQueue (slice_set self.old.slots id.slot None)
            self.old.state.lists.global }
        ensures value { slice_index_or self.old.slots id.slot None ≡ Some (numbered id result) }
        ensures slots { self.new
            ≡ record self.old { slots = slice_set self.old.slots id.slot None } }
    {
        self.slots.remove(id)
    }
}

// The global queue.
impl<P, T, W> Queues<P, T, W> {
    // `Slots::push`, for `Queues`: queues the task at the global end. Nobody queues a task without its
    // notice, which comes from here.
    pub(crate) fn push(&mut self, id: TaskId) -> Notice
        requires queue { IsQueue self.old.slots (self.old.state.lists.global ++ id ∷ []) }
        requires counted { length self.old.state.lists.global + 1 < 2 ^ 64 }
        ensures slots { self.new.slots ≡ self.old.slots }
        ensures lists { self.new.state
            ≡ with_lists (pushed id self.old.state.lists) self.old.state }
    {
        // No look whether the task is queued already: callers know that it is not, by the law of the queues.
        self.slots.push(id);
        Notice { unspent: () }
    }

    // `Slots::pop`, for `Queues`: takes the task at the global front.
    pub(crate) fn take_front(&mut self) -> Option<TaskId>
        ensures front { result ≡ (search_global self.old.state.lists).0 }
        ensures slots { self.new.slots ≡ self.old.slots }
        ensures rest { self.new.state
            ≡ with_lists (search_global self.old.state.lists).1 self.old.state }
    {
        self.slots.pop()
    }

    // `Cells::global_len`, for `Queues`: how many tasks stand in the global queue.
    pub(crate) fn global_len(&self) -> usize
        ensures { result ≡ length self.now.state.lists.global }
    {
        self.slots.len()
    }

    // `Cells::global_at`, for `Queues`: the number of the task at this place of the global queue, the
    // front being 0.
    pub(crate) fn global_at(&self, place: usize) -> Option<u64>
        ensures { result
            ≡ option_map (λ id. id.number) (slice_get self.now.state.lists.global place) }
    {
        self.slots.number_at(place)
    }

    // `Cells::global_numbers`, for `Queues`: the numbers of the tasks in the global queue, from the
    // front on.
    pub(crate) fn global_numbers(&self) -> QueuedNumbers<'_, P, T, W>
        ensures { result ≡ map (λ id. id.number) self.now.state.lists.global }
    {
        self.slots.numbers()
    }
}

// At which position the queue of the runner with this number stands.
fn position_in(locals: &[LocalQueue], runner: u64) -> Option<usize>
    ensures { result ≡ position (λ l. l.runner == runner) locals.now }
{
    locals.iter().position(|local| local.runner == runner)
}

// At which position the first queue stands in which a task is queued.
fn first_in(locals: &[LocalQueue]) -> Option<usize>
    ensures { result ≡ position (λ l. not (length l.ring.ids == 0)) locals.now }
{
    locals.iter().position(|local| !local.ring.is_empty())
}

// Whether the queue of the runner with this number stands at this position.
fn stands_at(locals: &[LocalQueue], position: usize, runner: u64) -> bool
    ensures { result
        ≡ unwrap_or (option_map (λ l. l.runner == runner) (slice_get locals.now position)) false }
{
    match locals.get(position) {
        Some(local) => local.runner == runner,
        None => false,
    }
}

// Moves half of one queue to another, both in the list of the runners' queues.
fn steal_within(locals: &mut [LocalQueue], from: usize, to: usize)
    requires from { from < length locals.old }
    requires to { to < length locals.old }
    requires apart { from ≢ to }
    ensures { map local_of locals.new ≡ stolen_locals from to (map local_of locals.old) }
{
    if from < to {
        let (low, high) = locals.split_at_mut(to);
        steal(&mut low[from].ring, &mut high[0].ring);
    } else {
        let (low, high) = locals.split_at_mut(from);
        steal(&mut high[0].ring, &mut low[to].ring);
    }
}

// Moves all that stands in these queues to the global end, one queue after another.
fn move_all<P, T, W>(locals: &mut [LocalQueue], slots: &mut Slots<P, T, W>)
    requires queue { IsQueue slots.old.slots
        (slots.old.queue ++ local_entries (map local_of locals.old)) }
    requires counted { length slots.old.queue + length (local_entries (map local_of locals.old))
        < 2 ^ 64 }
    ensures locals { map local_of locals.new ≡ map emptied (map local_of locals.old) }
    ensures queue { slots.new
        ≡ with_queue (slots.old.queue ++ local_entries (map local_of locals.old)) slots.old }
{
    for position in 0..locals.len() {
        append(slots, &mut locals[position].ring);
    }
}

// All queues as one, and where each stands.
impl<P, T, W> Queues<P, T, W> {
    // Gathers all queues in one: what stands in the runners' goes to the global end, in order of
    // registration. Says whether there was something.
    pub(crate) fn gather(&mut self) -> bool
        requires queue { IsQueue self.old.slots
            (self.old.state.lists.global ++ local_entries self.old.state.lists.locals) }
        requires counted { length
            (self.old.state.lists.global ++ local_entries self.old.state.lists.locals) < 2 ^ 64 }
        ensures slots { self.new.slots ≡ self.old.slots }
        ensures lists { self.new.state ≡ with_lists (gathered self.old.state.lists) self.old.state }
        ensures moved { result ≡ nat_lt 0 (length (local_entries self.old.state.lists.locals)) }
    {
        let before = self.slots.len();
        move_all(&mut self.locals, &mut self.slots);
        self.slots.len() > before
    }

    // At which position the runner's queue stands.
    pub(in crate::queue) fn find(&mut self, key: RunnerKey) -> Option<usize>
        ensures same { self.new ≡ self.old }
        ensures found { result ≡ position_of key.number self.old.state.lists.locals }
    {
        // The remainder by a power of two, without a division.
        let place = key.number as usize & self.positions.len().wrapping_sub(1);
        if place >= self.positions.len() {
            return self.look_for(key);
        }
        // A right hint costs the same however many runners there are. A wrong one is set again. So a key
        // is a plain number, and no contract speaks of hints.
        let hint = self.positions[place];
        if stands_at(&self.locals, hint, key.number) {
            return Some(hint);
        }
        let position = self.look_for(key)?;
        self.positions[place] = position;
        Some(position)
    }

    // At which position the runner's queue stands, if nobody knows where it stood.
    fn look_for(&self, key: RunnerKey) -> Option<usize>
        ensures { result ≡ position_of key.number self.now.state.lists.locals }
    {
        position_in(&self.locals, key.number)
    }

    // Whether one of the queues is the runner's.
    pub(crate) fn is_registered(&self, key: RunnerKey) -> bool
        ensures { result ≡ is_registered key.number self.now.state.lists.locals }
    {
        self.look_for(key).is_some()
    }
}

// At which of so many queues the walk of a search with this word starts.
fn start_of(word: u64, count: usize) -> usize
    requires { 0 < count }
    ensures { result ≡ word % count }
{
    (word % count as u64) as usize
}

// What a runner does.
impl<P, T, W> Queues<P, T, W> {
    // `Cells::search`, for `Queues`: takes the task that the runner's search with this word finds.
    #[inline(always)]
    pub(crate) fn search(&mut self, key: RunnerKey, word: u64) -> Option<TaskId>
        ensures found { result ≡ (search key.number word self.old.state.lists).0 }
        ensures slots { self.new.slots ≡ self.old.slots }
        ensures lists { self.new.state
            ≡ with_lists (search key.number word self.old.state.lists).1 self.old.state }
    {
        let Some(own) = self.find(key) else {
            return self.take_front();
        };
        if let Some(id) = self.take_local(own) {
            return Some(id);
        }
        if let Some(id) = self.take_front() {
            self.steal_global(own);
            return Some(id);
        }
        let from = self.find_victim(own, word)?;
        self.steal_between(from, own);
        self.take_local(own)
    }

    // `Cells::take_any`, for `Queues`: takes the task at the global front, or else at the front of the
    // first runner's queue that has one. Who takes here has no queue of its own to steal into, so no
    // other task is moved.
    pub(crate) fn take_any(&mut self) -> Option<TaskId>
        ensures found { result ≡ (search_any self.old.state.lists).0 }
        ensures slots { self.new.slots ≡ self.old.slots }
        ensures lists { self.new.state
            ≡ with_lists (search_any self.old.state.lists).1 self.old.state }
    {
        if let Some(id) = self.take_front() {
            return Some(id);
        }
        let own = self.first_occupied()?;
        self.take_local(own)
    }

    // The first of the runners' queues in which a task stands.
    pub(crate) fn first_occupied(&self) -> Option<usize>
        ensures { result ≡ first_occupied self.now.state.lists.locals }
    {
        first_in(&self.locals)
    }

    // Takes the task at the front of the queue at this position.
    fn take_local(&mut self, own: usize) -> Option<TaskId>
        requires { own < length self.old.state.lists.locals }
        ensures front { result ≡ slice_get (entries_at own self.old.state.lists.locals) 0 }
        ensures slots { self.new.slots ≡ self.old.slots }
        ensures rest { self.new.state
            ≡ with_lists
            (record self.old.state.lists {
              locals = with_entries own (drop 1 (entries_at own self.old.state.lists.locals))
                  self.old.state.lists.locals;
            }) self.old.state }
    {
        self.locals[own].ring.pop()
    }

    // `steal_linked`, for `Queues`: moves half of the global queue to the one at this position, and says
    // how many tasks that are.
    fn steal_global(&mut self, own: usize) -> usize
        requires { own < length self.old.state.lists.locals }
        ensures slots { self.new.slots ≡ self.old.slots }
        ensures lists { self.new.state
            ≡ with_lists (global_stolen own self.old.state.lists) self.old.state }
        ensures count { result
            ≡ stolen self.old.state.lists.global (entries_at own self.old.state.lists.locals)
            (capacity_at own self.old.state.lists.locals) }
    {
        steal_linked(&mut self.slots, &mut self.locals[own].ring)
    }

    // The first of the other queues, in the order in which a search with this word visits them, from
    // which the one at this position can steal.
    fn find_victim(&self, own: usize, word: u64) -> Option<usize>
        requires { own < length self.now.state.lists.locals }
        ensures { result ≡ victim own word self.now.state.lists.locals }
    {
        if self.locals[own].ring.capacity() == 0 {
            return None;
        }
        let count = self.locals.len();
        // A runner alone has nobody to visit.
        if count == 1 {
            return None;
        }
        let start = start_of(word, count);
        match self.find_queued(own, start, count) {
            Some(other) => Some(other),
            None => self.find_queued(own, 0, start),
        }
    }

    // The first of the other queues in which a task stands, from one position up to another.
    fn find_queued(&self, own: usize, start: usize, end: usize) -> Option<usize>
        requires { end ≤ length self.now.state.lists.locals }
        ensures { result
            ≡ find (gives own self.now.state.lists.locals) (range_with_len start (end - start)) }
    {
        for other in start..end {
            if self.gives(own, other) {
                return Some(other);
            }
        }
        None
    }

    // Whether this is the position of another queue in which a task stands.
    fn gives(&self, own: usize, other: usize) -> bool
        requires { other < length self.now.state.lists.locals }
        ensures { result ≡ gives own self.now.state.lists.locals other }
    {
        !self.locals[other].ring.is_empty() && other != own
    }

    // Moves half of the queue at one position to the queue at another.
    fn steal_between(&mut self, from: usize, to: usize)
        requires from { from < length self.old.state.lists.locals }
        requires to { to < length self.old.state.lists.locals }
        requires apart { from ≢ to }
        ensures slots { self.new.slots ≡ self.old.slots }
        ensures lists { self.new.state
            ≡ with_lists (stolen_between from to self.old.state.lists) self.old.state }
    {
        steal_within(&mut self.locals, from, to);
    }

    // `Cells::fair`, for `Queues`: moves half of the global queue to the runner's own, and says how many
    // tasks that are.
    pub(crate) fn fair(&mut self, key: RunnerKey) -> usize
        ensures slots { self.new.slots ≡ self.old.slots }
        ensures lists { self.new.state
            ≡ with_lists (fair key.number self.old.state.lists) self.old.state }
        ensures count { result ≡ fair_count key.number self.old.state.lists }
    {
        match self.find(key) {
            Some(own) => self.steal_global(own),
            None => 0,
        }
    }

    // `Cells::runners`, for `Queues`: how many runners are registered.
    pub(crate) fn runners(&self) -> usize
        ensures { result ≡ length self.now.state.lists.locals }
    {
        self.locals.len()
    }

    // `Cells::local_len`, for `Queues`: how many tasks stand in the queue at this position.
    pub(crate) fn local_len(&self, position: usize) -> Option<usize>
        ensures { result
            ≡ option_map (λ q. length q.entries) (slice_get self.now.state.lists.locals position) }
    {
        match self.locals.get(position) {
            Some(local) => Some(local.ring.len()),
            None => None,
        }
    }

    // `Cells::local_at`, for `Queues`: the number of the task at this place of the queue at this position.
    pub(crate) fn local_at(&self, position: usize, place: usize) -> Option<u64>
        ensures { result
            ≡ option_map
            (λ id. id.number) (slice_get (entries_at position self.now.state.lists.locals) place) }
    {
        match self.locals.get(position) {
            Some(local) => local.ring.number_at(place),
            None => None,
        }
    }
}
