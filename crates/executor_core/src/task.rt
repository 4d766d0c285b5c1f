//! Task cells, and the values that a change of them leaves to be spent.
//!
//! A task is a future in a cell of a table, `Cells`. The table never polls: it is changed by short
//! calls, each of which is one atomic step under its owner's lock.
//!
//! | state | the future | the number in a queue |
//! |---|---|---|
//! | idle | in the cell | no |
//! | scheduled | in the cell | once |
//! | held | out, with the one who took it | no |
//! | finished | dropped, its output in the cell | no |
//! | gone | dropped | no |
//!
//! `spawn` and a wake of an idle task schedule it, and give a `Notice`. A take gives the task out
//! as `Taken`, which only `run_taken` opens: it polls the future once, or has it dropped if the
//! task was cancelled, and gives the `Held` that the end of the poll asks for. `end_pending` puts
//! the future back, `end_ready` keeps its output for the handle. A wake that comes while the future
//! is out is a mark in the cell, and the end of the poll schedules the task again. `end_woken` is such
//! a wake and `end_pending` in one call.
//!
//! A cancel is a mark too, and schedules an idle task. A task with this mark is not polled again
//! and gives no output: whoever takes it has its future dropped, and whoever holds it gets the
//! future back from `end_pending`, to be dropped, or the output from `end_ready`. `end_dropped` is
//! the end of a task whose future was dropped unfinished. A cell stays until its future was dropped
//! and its handle has ended. Then it is removed.
//!
//! `wake_all` wakes every task in one change of the table, and `close` cancels every task so. What
//! was closed is emptied by `drain_next`.
//!
//! What a call leaves to do is a value that can neither be copied nor dropped. Each has only the
//! ends that this table names, so a path that forgets one does not compile.
//!
//! | value | says | is spent by |
//! |---|---|---|
//! | `Taken` | a task was taken | `run_taken` |
//! | `Held` | it was polled, or its future was dropped | `end_pending`, `end_woken`, `end_ready`, `end_dropped` |
//! | `Wakeup` | a waker is to be woken | `Wakeup::wake` |
//! | `Notice` | a task was queued, and sleepers are to hear of it | the exchange of the flag, or `join` |
//! | `Pick` | a sleeper is to be notified | the notification of the sleepers |
//! | `Again` | the list of sleepers grew, and a search is to be made | the next take |
//! | `Change` | the list of sleepers changed, and the flag is to be stored | the store of the flag |

pub(crate) mod all_tasks;
pub(crate) mod cell;
pub(crate) mod error;
pub(crate) mod future;
pub(crate) mod handles;
pub(crate) mod polling;
pub(crate) mod slots;
pub(crate) mod table;
pub(crate) mod values;

pub use cell::TaskId;
pub use error::{OutOfMemory, SpawnError};
pub use future::{Future, Poll, Wake};
pub use handles::PollHandle;
pub use polling::{Held, Polled, Poller, Ran, Taken, run_taken};
pub use slots::QueuedNumbers;
pub use table::{Cells, EndPending, EndReady};
pub use values::{Again, Change, Notice, Pick, Wakeup};
