//! The slots of the table, and the global queue, which is linked through them.
//!
//! A slot has a cell under its task's number, and a link: the slot of the task behind it in the
//! global queue. No number stands in two queues, so one link is enough, and a task is queued
//! without any memory. The slots of the first and of the last task are kept beside them, and how
//! many tasks are queued. The link of a task that is not queued is cleared.
ghost use Rattle.std.specs.Prelude.{◌≡◌, ◌+◌, ◌<◌, ◌≤◌, ◌^◌, ◌∷◌, ◌++◌, [], None, Some, drop, length, map, option_copied, option_map, slice_get, slice_index_or, slice_set, IfOk, IfErr};
ghost use Rattle.std.specs.Borrow.{sem};
ghost use Rattle.std.specs.Iterator.{YieldsFirst, item_count};
ghost use Rattle.executor_core.specs.Cell.Changes.{new_cell};
ghost use Rattle.executor_core.specs.Slots.{Changes, HasCell, IsQueue, numbered, with_queue};

use crate::task::cell::{Cell, Numbered, TaskId, new_cell};
use core::mem::replace;
use slab::Slab;
use std::alloc::{AllocError, Global};
use std::marker::Model;

// The link of a slot that none follows.
const NO_SLOT: usize = usize::MAX;

// What a slot has: a cell under its task's number, and its link.
#[derive(Drop)]
struct Slot<P, T, W> {
    entry: Numbered<Cell<P, T, W>>,
    next: usize,
}

/// The slots, and the queue that is linked through them.
///
/// A contract sees it as `LinkedSlots`: what each slot has, and the queued ids as a list.
#[derive(Drop)]
pub(crate) struct Slots<P, T, W> {
    // What each push and each take writes, close to the lock under which the table stands.
    first: usize,
    last: usize,
    len: usize,
    slots: Slab<Slot<P, T, W>>,
}

impl<P, T, W> Model for Slots<P, T, W> {
    ghost use Rattle.executor_core.specs.Slots.{LinkedSlots, linked_slots_code};

    ghost Value = { LinkedSlots P T W };

    ghost coded = { linked_slots_code P.code T.code W.code };

    ghost use Rattle.executor_core.specs.Slots.View.{slots_of, IsLinked};

    ghost view = { λ s. slots_of s.slots.slots s.first s.len };

    ghost invariant = { λ s. IsLinked s.slots.slots s.first s.last s.len };
}

// The slots and their cells.
impl<P, T, W> Slots<P, T, W> {
    ghost use Rattle.executor_core.specs.Slots.Lends.{lends_cell};

    // No slot, and so no cell.
    pub(crate) fn new(alloc: Global) -> Self
        ensures { result ≡ record { slots = []; queue = [] } }
    {
        Slots {
            first: NO_SLOT,
            last: NO_SLOT,
            len: 0,
            slots: Slab::new(alloc),
        }
    }

    // As many slots as there are, or more.
    pub(crate) fn capacity(&self) -> usize
        ensures { length self.now.slots ≤ result }
    {
        self.slots.capacity()
    }

    // The cell in this slot, with its number.
    pub(crate) fn get(&self, slot: usize) -> Option<&Numbered<Cell<P, T, W>>>
        ensures { option_copied result ≡ slice_index_or self.now.slots slot None }
    {
        match self.slots.get(slot) {
            Some(slot) => Some(&slot.entry),
            None => None,
        }
    }

    // The cell in the task's slot.
    pub(crate) fn cell(&self, id: TaskId) -> &Cell<P, T, W>
        requires { HasCell self.now.slots id }
        ensures { slice_index_or self.now.slots id.slot None ≡ Some (numbered id result.now) }
    {
        &self.slots[id.slot].entry.cell
    }

    // The cell in the task's slot, for a change of it.
    pub(crate) fn cell_mut(&mut self, id: TaskId) -> &mut Cell<P, T, W>
        requires { HasCell self.old.slots id }
        ensures* writes_back { sem 𝓛 (lends_cell P.row T.row W.row self.entry id result) }
        ensures value { slice_index_or self.old.slots id.slot None ≡ Some (numbered id result.now) }
    {
        // The cell alone is lent, for this id: no caller can write a slot's number or its link.
        let slot = &mut self.slots[id.slot];
        let entry = &mut slot.entry;
        &mut entry.cell
    }

    // Room for the slots of this many cells more.
    pub(crate) fn reserve(&mut self, cells: usize) -> Result<(), AllocError>
        ensures { self.new ≡ self.old }
    {
        self.slots.reserve(cells)
    }

    // Makes the cell of a new task of this future in a free slot, and queues the task. If a growth was
    // refused, the future comes back.
    #[inline(always)]
    pub(crate) fn insert(&mut self, number: u64, future: P) -> Result<TaskId, P>
        requires { length self.old.queue + 1 < 2 ^ 64 }
        ensures number { IfOk result (λ id. id.number ≡ number) }
        ensures vacant { IfOk result (λ id. slice_index_or self.old.slots id.slot None ≡ None) }
        ensures slots { IfOk result
            (λ id. Changes self.old.slots self.new.slots id.slot
            (Some (record { number = number; cell = new_cell future }))) }
        ensures queue { IfOk result (λ id. self.new.queue ≡ self.old.queue ++ id ∷ []) }
        ensures refused { IfErr result (λ back. (back ≡ future) × (self.new ≡ self.old)) }
    {
        if self.slots.reserve(1).is_err() {
            return Err(future);
        }
        let cell = new_cell(future);
        let slot = self.slots.insert_reserved(Slot {
            entry: Numbered { number, cell },
            next: NO_SLOT,
        });
        let id = TaskId { number, slot };
        self.push(id);
        Ok(id)
    }

    // Takes the cell of the task, which is not queued, out of its slot.
    pub(crate) fn remove(&mut self, id: TaskId) -> Cell<P, T, W>
        requires there { HasCell self.old.slots id }
        requires unqueued { IsQueue (slice_set self.old.slots id.slot None) self.old.queue }
        ensures value { slice_index_or self.old.slots id.slot None ≡ Some (numbered id result) }
        ensures slots { self.new
            ≡ record self.old { slots = slice_set self.old.slots id.slot None } }
    {
        let Slot { entry, next: _ } = self.slots.remove(id.slot);
        let Numbered { number: _, cell } = entry;
        cell
    }
}

// The queue.
impl<P, T, W> Slots<P, T, W> {
    // Queues the task: links its slot behind that of the last one.
    pub(crate) fn push(&mut self, id: TaskId)
        requires queue { IsQueue self.old.slots (self.old.queue ++ id ∷ []) }
        requires counted { length self.old.queue + 1 < 2 ^ 64 }
        ensures { self.new ≡ with_queue (self.old.queue ++ id ∷ []) self.old }
    {
        if self.len == 0 {
            self.first = id.slot;
        } else {
            self.slots[self.last].next = id.slot;
        }
        self.last = id.slot;
        self.len += 1;
    }

    // Takes the first task of the linked queue, or none if none is queued.
    pub(crate) fn pop(&mut self) -> Option<TaskId>
        ensures front { result ≡ slice_get self.old.queue 0 }
        ensures rest { self.new ≡ with_queue (drop 1 self.old.queue) self.old }
    {
        if self.len == 0 {
            return None;
        }
        let slot = &mut self.slots[self.first];
        let id = TaskId {
            number: slot.entry.number,
            slot: self.first,
        };
        self.first = replace(&mut slot.next, NO_SLOT);
        self.len -= 1;
        Some(id)
    }

    // How many tasks stand in the linked queue.
    pub(crate) fn len(&self) -> usize
        ensures { result ≡ length self.now.queue }
    {
        self.len
    }

    // The number of the task at this place of the linked queue, the front being 0.
    pub(crate) fn number_at(&self, place: usize) -> Option<u64>
        ensures { result ≡ option_map (λ id. id.number) (slice_get self.now.queue place) }
    {
        if place >= self.len {
            return None;
        }
        let mut slot = self.first;
        for _ in 0..place {
            slot = self.slots[slot].next;
        }
        Some(self.slots[slot].entry.number)
    }

    // The numbers of the tasks in the linked queue, from the front on.
    pub(crate) fn numbers(&self) -> QueuedNumbers<'_, P, T, W>
        ensures { result ≡ map (λ id. id.number) self.now.queue }
    {
        QueuedNumbers {
            slots: &self.slots,
            next: self.first,
            left: self.len,
        }
    }
}

/// The numbers of the tasks of the global queue, from the front on.
///
/// A contract sees it as the list of those that are left.
#[derive(Drop)]
pub struct QueuedNumbers<'a, P, T, W> {
    slots: &'a Slab<Slot<P, T, W>>,
    next: usize,
    left: usize,
}

impl<'a, P, T, W> Model for QueuedNumbers<'a, P, T, W> {
    ghost use Rattle.std.specs.Prelude.{ℕ, List};

    ghost Value = { List ℕ };

    ghost use Rattle.std.specs.Prelude.{◌≡◌, length};
    ghost use Rattle.executor_core.specs.Cells.View.{numbers_of};
    ghost use Rattle.executor_core.specs.Slots.View.{walk};

    ghost view = { λ r. numbers_of (walk r.slots.now.slots r.left r.next) };

    ghost invariant = { λ r. length (walk r.slots.now.slots r.left r.next) ≡ r.left };
}

impl<'a, P, T, W> Iterator for QueuedNumbers<'a, P, T, W> {
    type Item = u64;

    ghost next_gives = { YieldsFirst (λ rest. rest) };

    ghost remaining = { item_count (λ rest. rest) };

    fn next(&mut self) -> Option<u64> {
        if self.left == 0 {
            return None;
        }
        let slot = &self.slots[self.next];
        self.next = slot.next;
        self.left -= 1;
        Some(slot.entry.number)
    }

    fn size_hint(&self) -> (usize, Option<usize>) {
        (self.left, Some(self.left))
    }
}
