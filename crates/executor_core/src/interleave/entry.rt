//! What a world keeps of each task beside its log: what is known of it, and its future if it is
//! out.
ghost use Rattle.std.specs.Prelude.{◌≡◌, ◌<◌, Some, None, false, true, is_some, length, slice_get, slice_set};
ghost use Rattle.std.specs.List.{list_any};
ghost use Rattle.executor_core.specs.World.Entries.{infos, is_out, is_unpolled};

use crate::task::TaskId;
use std::mem::replace;

/// What a world knows of a task beside its log.
#[derive(Debug, Clone, Copy)]
pub struct TaskInfo {
    /// The slot that its cell has or had.
    pub(crate) slot: usize,
    /// Its handle is there.
    pub(crate) has_handle: bool,
    /// Its handle was polled in vain, and the awaiter did not come out yet.
    pub(crate) awaited: bool,
    /// If its future is out, it is to be dropped.
    pub(crate) to_drop: bool,
}

impl TaskInfo {
    // The id of a world's task: this number, and the slot that is kept of it.
    pub(crate) fn id(self, n: u64) -> TaskId
        ensures { result ≡ record { number = n; slot = self.slot } }
    {
        TaskId {
            number: n,
            slot: self.slot,
        }
    }

    // What a world keeps of a task without its handle, which answered.
    pub(crate) fn without_handle(self) -> TaskInfo
        ensures { result ≡ record self { has_handle = false } }
    {
        TaskInfo {
            has_handle: false,
            ..self
        }
    }

    // What a world keeps of a task once its handle was detached or dropped: it has no awaiter either.
    pub(crate) fn detached(self) -> TaskInfo
        ensures { result ≡ record self { has_handle = false; awaited = false } }
    {
        TaskInfo {
            has_handle: false,
            awaited: false,
            ..self
        }
    }

    // What a world keeps of a task, with whether its handle was polled in vain.
    pub(crate) fn with_awaited(self, awaited: bool) -> TaskInfo
        ensures { result ≡ record self { awaited = awaited } }
    {
        TaskInfo { awaited, ..self }
    }

    // What a world keeps of a task, with whether its future is to be dropped.
    pub(crate) fn with_to_drop(self, to_drop: bool) -> TaskInfo
        ensures { result ≡ record self { to_drop = to_drop } }
    {
        TaskInfo { to_drop, ..self }
    }
}

// A future that is out, with the one who took its task.
#[derive(Drop)]
pub(crate) enum FutureOut<P> {
    // It was not polled since its task was taken.
    Unpolled(P),
    // Its poll ended pending, and it is to be dropped, since its task was cancelled.
    Polled(P),
}

/// What a world keeps of a task beside its log.
#[derive(Drop)]
pub(crate) struct TaskEntry<P> {
    pub(crate) info: TaskInfo,
    // Its future, if it is out.
    pub(crate) out: Option<FutureOut<P>>,
}

impl<P> TaskEntry<P> {
    // The entry of a new task, whose cell has this slot.
    pub(crate) fn new(slot: usize) -> Self
        ensures { result
            ≡ record {
              info = record { slot = slot; has_handle = true; awaited = false; to_drop = false };
              out = None;
            } }
    {
        let info = TaskInfo {
            slot,
            has_handle: true,
            awaited: false,
            to_drop: false,
        };
        TaskEntry { info, out: None }
    }
}

// What a world keeps of this task beside its future, if it was spawned.
pub(crate) fn find_info<P>(entries: &Vec<TaskEntry<P>>, n: u64) -> Option<TaskInfo>
    ensures { result ≡ slice_get (infos entries.now.items) n }
{
    match entries.get(n as usize) {
        Some(entry) => Some(entry.info),
        None => None,
    }
}

// Whether the entry of this task has its future, which is out.
pub(crate) fn has_future<P>(entries: &Vec<TaskEntry<P>>, n: u64) -> bool
    ensures { result ≡ is_out (slice_get entries.now.items n) }
{
    match entries.get(n as usize) {
        Some(entry) => entry.out.is_some(),
        None => false,
    }
}

// Whether one of these entries has its future out.
pub(crate) fn some_out<P>(entries: &Vec<TaskEntry<P>>) -> bool
    ensures { result ≡ list_any (λ e. is_some e.out) entries.now.items }
{
    entries.iter().any(|entry| entry.out.is_some())
}

// Puts this into the task's entry, in place of what was known of the task.
pub(crate) fn set_info<P>(entries: &mut Vec<TaskEntry<P>>, n: u64, info: TaskInfo)
    requires { n < length entries.old.items }
    ensures { (e : TaskEntry P) → slice_get entries.old.items n ≡ Some e
        → entries.new.items ≡ slice_set entries.old.items n (record e { info = info }) }
{
    entries[n as usize].info = info;
}

// Puts this in the place of the task's entry, and gives its future if it was out.
pub(crate) fn set_entry<P: Drop>(
    entries: &mut Vec<TaskEntry<P>>,
    n: u64,
    entry: TaskEntry<P>,
) -> Option<FutureOut<P>>
    requires { n < length entries.old.items }
    ensures items { entries.new.items ≡ slice_set entries.old.items n entry }
    ensures before { is_some result ≡ is_out (slice_get entries.old.items n) }
{
    let before = replace(&mut entries[n as usize], entry);
    before.out
}

// Takes the task's future out of its entry, to be polled, and puts this in the place of what was
// known of the task.
pub(crate) fn take_unpolled<P: Drop>(entries: &mut Vec<TaskEntry<P>>, n: u64, info: TaskInfo) -> P
    requires { is_unpolled (slice_get entries.old.items n) ≡ true }
    ensures { entries.new.items
        ≡ slice_set entries.old.items n (record { info = info; out = None }) }
{
    let entry = TaskEntry { info, out: None };
    match replace(&mut entries[n as usize], entry).out {
        Some(FutureOut::Unpolled(future)) => future,
        Some(FutureOut::Polled(_)) => unreachable!(),
        None => unreachable!(),
    }
}
