//! The text of what is answered.
ghost use Rattle.std.specs.Prelude.{◌≡◌, ◌++◌, Some};
ghost use Rattle.simulation.specs.Replies.{awaiter_text, number_text, reply_text};

use executor_core::interleave::{Reply, World};
use executor_core::task::Cells;
use std::fmt;

// The end of a reply's text if an awaiter came out.
fn awaiter_suffix(awaiter: bool) -> &'static str
    ensures { result.now ≡ awaiter_text awaiter }
{
    if awaiter { " awaiter" } else { "" }
}

/// A reply as it is printed.
#[derive(Drop)]
pub struct ReplyText(pub Reply<u64>);

// The word of a reply, the number behind it, and whether an awaiter came out.
fn parts_of(reply: Reply<u64>) -> (&'static str, Option<u64>, bool)
    ensures { reply_text reply ≡ result.0.now ++ number_text result.1 ++ awaiter_text result.2 }
{
    match reply {
        Reply::Task(n) => ("task", Some(n), false),
        Reply::Notice => ("notice", None, false),
        Reply::Nothing => ("nothing", None, false),
        Reply::Poll(n) => ("poll", Some(n), false),
        Reply::Drop(n) => ("drop", Some(n), false),
        Reply::NoTask => ("none", None, false),
        Reply::Idle(n) => ("idle", Some(n), false),
        Reply::Queued(n) => ("queued", Some(n), false),
        Reply::Finished { awaiter } => ("finished", None, awaiter),
        Reply::Unwanted { output, awaiter } => ("unwanted", Some(output), awaiter),
        Reply::Gone { awaiter } => ("gone", None, awaiter),
        Reply::Pick => ("pick", None, false),
        Reply::Sleeper(i) => ("sleeper", Some(i), false),
        Reply::Nobody => ("nobody", None, false),
        Reply::Output(output) => ("output", Some(output), false),
        Reply::Cancelled => ("cancelled", None, false),
        Reply::Pending => ("pending", None, false),
        Reply::Ticker(k) => ("ticker", Some(k as u64), false),
        Reply::Done => ("done", None, false),
        Reply::Number(i) => ("number", Some(i as u64), false),
        Reply::Again => ("again", None, false),
        Reply::Parked => ("parked", None, false),
        Reply::Notified => ("notified", None, false),
        Reply::Unnotified => ("unnotified", None, false),
        Reply::Stored(flag) => (if flag { "true" } else { "false" }, None, false),
        Reply::Moved(count) => ("moved", Some(count as u64), false),
        Reply::Awake => ("awake", None, false),
        Reply::LogFull => ("log full", None, false),
        Reply::NotNow => ("not now", None, false),
        Reply::OutOfMemory => ("out of memory", None, false),
    }
}

impl fmt::Display for ReplyText {
    ghost output = { λ reply. Some (reply_text reply.0) };

    fn fmt<W: fmt::Write>(&self, f: &mut fmt::Formatter<W>) -> fmt::Result {
        let (word, number, awaiter) = parts_of(self.0);
        let suffix = awaiter_suffix(awaiter);
        match number {
            Some(n) => write!(f, "{word} {n}{suffix}"),
            None => write!(f, "{word}{suffix}"),
        }
    }
}

/// The state of a world as `show` prints it: the global queue, those of the runners in order of
/// registration, and what is counted.
#[derive(Drop)]
pub struct StateText<'a>(pub &'a World<(), u64>);

// What a reply to `show` has between the item at this place and the one before.
fn separator(place: usize) -> &'static str {
    if place > 0 { ", " } else { "" }
}

// The global queue.
#[derive(Drop)]
struct GlobalText<'a>(&'a Cells<(), u64, ()>);

impl fmt::Display for GlobalText<'_> {
    fn fmt<W: fmt::Write>(&self, f: &mut fmt::Formatter<W>) -> fmt::Result {
        f.write_str("[")?;
        for (place, n) in self.0.global_numbers().enumerate() {
            write!(f, "{}{n}", separator(place))?;
        }
        f.write_str("]")
    }
}

// The queue of the runner at this position.
#[derive(Drop)]
struct LocalText<'a>(&'a Cells<(), u64, ()>, usize);

impl fmt::Display for LocalText<'_> {
    fn fmt<W: fmt::Write>(&self, f: &mut fmt::Formatter<W>) -> fmt::Result {
        f.write_str("[")?;
        for place in 0..self.0.local_len(self.1).unwrap_or(0) {
            if let Some(n) = self.0.local_at(self.1, place) {
                write!(f, "{}{n}", separator(place))?;
            }
        }
        f.write_str("]")
    }
}

// What is counted.
#[derive(Drop)]
struct CountsText<'a>(&'a World<(), u64>);

impl fmt::Display for CountsText<'_> {
    fn fmt<W: fmt::Write>(&self, f: &mut fmt::Formatter<W>) -> fmt::Result {
        let world = self.0;
        let state = world.state();
        let (flag, sleepers) = (state.flag().get(), state.sleepers());
        let (numbers, notified) = (sleepers.numbers(), sleepers.notified());
        let (notices, picks, undropped) = (
            world.notices(),
            world.picks(),
            world.cells().undropped(),
        );
        write!(
            f,
            "flag {flag} numbers {numbers} notified {notified} notices {notices} picks {picks} \
             undropped {undropped}"
        )
    }
}

impl fmt::Display for StateText<'_> {
    fn fmt<W: fmt::Write>(&self, f: &mut fmt::Formatter<W>) -> fmt::Result {
        let cells = self.0.cells();
        write!(f, "global {} locals [", GlobalText(cells))?;
        for runner in 0..cells.runners() {
            write!(f, "{}{}", separator(runner), LocalText(cells, runner))?;
        }
        write!(f, "] {}", CountsText(self.0))
    }
}
