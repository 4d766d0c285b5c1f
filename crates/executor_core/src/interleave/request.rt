//! What a party asks of a world.

/// What a party asks for.
#[derive(Debug, Drop)]
pub enum Step<P, T> {
    /// A task of this future is spawned.
    Spawn(P),
    /// The task of this number is woken.
    Wake(u64),
    /// The task at the front of the global queue is taken.
    TryTick,
    /// The task at the front of the global queue is taken, or else that of the first runner's queue that
    /// has one.
    TryAny,
    /// The poll of this task ends pending.
    Pend(u64),
    /// The poll of this task ends with this output.
    Ready(u64, T),
    /// The handle of this task is polled.
    PollHandle(u64),
    /// The task of this number is cancelled through its handle.
    Cancel(u64),
    /// The handle of this task ends, and the task runs on.
    Detach(u64),
    /// The handle of this task is dropped: the task is cancelled, and the handle ends.
    DropHandle(u64),
    /// The future of this task, which was out to be dropped, was dropped.
    Dropped(u64),
    /// A notice is spent: the flag is exchanged.
    Exchange,
    /// A pick is spent: a sleeper is notified.
    Notify,
    /// A tick is made, which is at rest.
    Tick,
    /// A run is made, which is at rest.
    Run,
    /// The runner of this run gets a queue of its own.
    Register(usize),
    /// This ticker is polled.
    Poll(usize),
    /// This ticker searches for a task. The word says where the walk of a run over the queues of
    /// the other runners starts; a tick does not use it.
    Search(usize, u64),
    /// This ticker goes to sleep.
    Sleep(usize),
    /// This ticker found no task, and is to be polled again without going to sleep.
    Yield(usize),
    /// This ticker found a task, and its number is removed.
    Remove(usize),
    /// This ticker changed the list of sleepers, and stores the flag.
    Store(usize),
    /// Half of the global queue goes to the queue of this run.
    Fair(usize),
    /// The queue of this run ends, and what stands in it goes to the global end.
    Unregister(usize),
    /// This ticker is dropped.
    Drop(usize),
    /// The executor is closed: every task is cancelled, and is to be drained.
    Close,
    /// The next task of a closed executor is taken, to be dropped.
    Drain,
    /// The executor is leaked: every task is woken, and it is never closed.
    Leak,
}
