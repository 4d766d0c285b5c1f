//! The places of the runners: they are reserved before, and each has a queue from its registration on.
ghost use Rattle.std.specs.Prelude.{◌≡◌, ◌+◌, ◌-◌, ◌<◌, ◌^◌, ◌↔◌, ◌&&◌, ◌++◌, nat_lt, not, true, is_some, cond, [], Some, None, ◌==◌, IfOk, IfErr, IsOk, IsErr, OnOk, OnErr, length};
ghost use Rattle.executor_core.specs.SpawnError.{last_number};
ghost use Rattle.executor_core.specs.Queues.{is_registered, registered, unregistered, unregistered_at, entries_at, entries_of};
ghost use Rattle.executor_core.specs.Queues.State.{with_lists};
ghost use Rattle.executor_core.specs.Queues.Slots.{with_state};
ghost use Rattle.executor_core.specs.Slots.{IsQueue};

use crate::queue::queues::{LocalQueue, Queues, Ring, append};
use crate::queue::runner::{RunnerError, RunnerKey};
use crate::task::values::Notice;
use std::alloc::AllocError;

impl<P, T, W> Queues<P, T, W> {
    // `Cells::reserve_runner`, for `Queues`: one place more, and the key of a new runner.
    pub(crate) fn reserve_runner(&mut self) -> Result<RunnerKey, RunnerError>
        ensures slots { self.new.slots ≡ self.old.slots }
        ensures lists { self.new.state.lists ≡ self.old.state.lists }
        ensures ok { IfOk result
            (λ key. self.new
            ≡ with_state
            (record self.old.state {
              next_runner = self.old.state.next_runner + 1;
              free_places = self.old.state.free_places + 1;
            }) self.old) }
        ensures key { IfOk result (λ key. key.number ≡ self.old.state.next_runner) }
        ensures refused { OnErr result (self.new ≡ self.old) }
        ensures cause { IfErr result
            (λ error. (error ≡ RunnerError.Exhausted)
            ↔ (self.old.state.next_runner ≡ last_number)) }
        ensures exhausted { self.old.state.next_runner ≡ last_number → IsErr result }
    {
        if self.next_runner == u64::MAX {
            return Err(RunnerError::Exhausted);
        }
        self.grow_positions()?;
        // The free places have room already.
        self.locals.reserve(self.free_places + 1)?;
        let key = RunnerKey {
            number: self.next_runner,
        };
        self.next_runner += 1;
        self.free_places += 1;
        Ok(key)
    }

    // As many positions as twice the runners that may be, so that two seldom share one.
    fn grow_positions(&mut self) -> Result<(), AllocError>
        ensures { self.new ≡ self.old }
    {
        let runners = self.locals.len() + self.free_places + 1;
        let length = self.positions.len();
        if runners.saturating_mul(2) > length {
            self.positions.resize(length.saturating_mul(2).max(4), 0)?;
        }
        Ok(())
    }

    // `Cells::release_runner`, for `Queues`: gives a free place back, unless the runner is registered.
    pub(crate) fn release_runner(&mut self, key: RunnerKey)
        ensures slots { self.new.slots ≡ self.old.slots }
        ensures lists { self.new.state.lists ≡ self.old.state.lists }
        ensures places { self.new
            ≡ cond (is_registered key.number self.old.state.lists.locals) self.old
            (with_state
            (record self.old.state { free_places = self.old.state.free_places - 1 }) self.old) }
    {
        if self.find(key).is_none() && self.free_places > 0 {
            self.free_places -= 1;
        }
    }

    // `Cells::register`, for `Queues`: makes the ring the runner's queue, the last in order of
    // registration.
    pub(crate) fn register(&mut self, key: RunnerKey, ring: Ring) -> Result<(), Ring>
        requires { ring.ids ≡ [] }
        ensures variant { IsOk result
            ↔ ((nat_lt 0 self.old.state.free_places
            && not (is_registered key.number self.old.state.lists.locals)) ≡ true) }
        ensures ok { OnOk result
            (self.new
            ≡ with_state
            (record (with_lists (registered key.number ring.capacity self.old.state.lists)
            self.old.state) { free_places = self.old.state.free_places - 1 }) self.old) }
        ensures refused { IfErr result (λ back. (back ≡ ring) × (self.new ≡ self.old)) }
    {
        if self.free_places == 0 || self.find(key).is_some() {
            return Err(ring);
        }
        self.free_places -= 1;
        self.locals.push_reserved(LocalQueue {
            runner: key.number,
            ring,
            before_next: [0; 16],
        });
        Ok(())
    }

    // `Cells::unregister`, for `Queues`: takes the runner's queue and its place away. What stood there
    // goes to the global end.
    pub(crate) fn unregister(&mut self, key: RunnerKey) -> Option<Notice>
        requires queue { IsQueue self.old.slots
            (self.old.state.lists.global ++ entries_of key.number self.old.state.lists.locals) }
        requires counted { length
            (self.old.state.lists.global ++ entries_of key.number self.old.state.lists.locals)
            < 2 ^ 64 }
        ensures slots { self.new.slots ≡ self.old.slots }
        ensures lists { self.new.state
            ≡ with_lists (unregistered key.number self.old.state.lists) self.old.state }
        ensures notice { is_some result
            ≡ nat_lt 0 (length (entries_of key.number self.old.state.lists.locals)) }
    {
        let position = self.find(key)?;
        if self.remove_local(position) == 0 {
            return None;
        }
        Some(Notice { unspent: () })
    }

    // The queue at this position goes, and what stood there goes to the global end. Says how many
    // tasks that are.
    fn remove_local(&mut self, position: usize) -> usize
        requires within { position < length self.old.state.lists.locals }
        requires queue { IsQueue self.old.slots
            (self.old.state.lists.global ++ entries_at position self.old.state.lists.locals) }
        requires counted { length
            (self.old.state.lists.global ++ entries_at position self.old.state.lists.locals)
            < 2 ^ 64 }
        ensures slots { self.new.slots ≡ self.old.slots }
        ensures lists { self.new.state
            ≡ with_lists (unregistered_at (Some position) self.old.state.lists) self.old.state }
        ensures count { result ≡ length (entries_at position self.old.state.lists.locals) }
    {
        let LocalQueue {
            runner: _,
            mut ring,
            before_next: _,
        } = self.locals.remove(position);
        let count = ring.len();
        append(&mut self.slots, &mut ring);
        count
    }
}
