//! A run over all lines of an input.
//!
//! The reader's buffer and the writer's buffer are made before the first line is read, and the world
//! once that was read and found right, since it may say for how many tasks the queue of a run has
//! room. Replies wait in the writer's buffer, which is written out at the end, however the run ends.
//! Once a write failed, nothing more is written.
ghost use Rattle.std.specs.Prelude.{◌<◌};

use crate::command::{Command, command_of, local_of};
use crate::lines::{LINE_LIMIT, Lines};
use crate::reply::{ReplyText, StateText};
use executor_core::interleave::World;
use executor_core::limits::{Limits, NewError};
use executor_core::task::OutOfMemory;
use std::alloc::Global;
use std::io::{self, BufWriter, Read, Write};

/// How many steps a run accepts.
pub const STEP_LIMIT: u32 = 100_000;

/// How a run ends, by the exit status.
#[derive(Clone, Copy)]
enum Ending {
    EndOfInput = 0,
    BadLine = 1,
    OutOfMemory = 2,
    ReadFailed = 3,
    WriteFailed = 4,
    BadLimits = 5,
}

#[derive(Drop)]
struct Simulation<R, W: Write + Drop> {
    alloc: Global,
    lines: Lines<R>,
    replies: BufWriter<W>,
}

/// Runs each line of the reader as a step of a new world, and writes a line of reply to each. The
/// first line may be `local l` in place of a step, for runs whose queues have room for l tasks.
///
/// The answer is the exit status:
///
/// - 0: the input ended.
/// - 1: line k is no step, the first line being line 1. `bad line k` is the last reply, and no
///   later line is read.
/// - 2: memory for the world or for a buffer was refused. `out of memory` is all that is written.
/// - 3: a read failed. `read failed` is the last reply.
/// - 4: a write failed, and was the last one.
/// - 5: no queue can have room for l tasks. `bad limits` is the only reply, and only the first line
///   is read.
pub fn run_lines<R: Read + Drop, W: Write + Drop>(alloc: Global, reader: R, mut writer: W) -> u8
    ensures { result < 6 }
{
    let Ok(simulation) = Simulation::new(alloc, reader, &mut writer) else {
        return refuse(&mut writer) as u8;
    };
    simulation.run() as u8
}

// Writes that there was no memory to begin the simulation with.
fn refuse<W: Write>(writer: &mut W) -> Ending {
    if writer.write_all(b"out of memory\n").is_ok() && writer.flush().is_ok() {
        Ending::OutOfMemory
    } else {
        Ending::WriteFailed
    }
}

impl<R: Read + Drop, W: Write + Drop> Simulation<R, W> {
    fn new(alloc: Global, reader: R, writer: W) -> Result<Self, OutOfMemory> {
        match (Lines::new(alloc, reader), BufWriter::new(alloc, writer)) {
            (Ok(lines), Ok(replies)) => Ok(Simulation {
                alloc,
                lines,
                replies,
            }),
            _ => Err(OutOfMemory),
        }
    }

    fn run(mut self) -> Ending {
        let ending = self.answer_and_flush();
        let Simulation { replies, .. } = self;
        // What a failed write left in the buffer isn't tried again.
        let (_, _) = replies.into_parts();
        ending
    }

    fn answer_and_flush(&mut self) -> Ending {
        match self.answer_lines() {
            Ok(ending) if self.replies.flush().is_ok() => ending,
            _ => Ending::WriteFailed,
        }
    }

    // Answers the lines in order, up to the first that is bad. An error is that of a write.
    fn answer_lines(&mut self) -> io::Result<Ending> {
        let line = match self.lines.next_line() {
            Ok(Some(line)) => line,
            Ok(None) => return Ok(Ending::EndOfInput),
            Err(_) => return end_at_failure(&mut self.replies),
        };
        let places = local_of(line);
        let first = command_within(line);
        let limits = match (places, &first) {
            (Some(places), _) => limits_of(places),
            (None, Some(_)) => Limits::default(),
            (None, None) => return end_at_bad_line(&mut self.replies, 1),
        };
        match World::new_with(self.alloc, STEP_LIMIT, limits) {
            Ok(mut world) => self.answer_in(&mut world, first),
            Err(error) => end_without_world(&mut self.replies, error),
        }
    }

    // Answers the first line of a simulation, and then the others. It is no command if it said the limits.
    fn answer_in(
        &mut self,
        world: &mut World<(), u64>,
        first: Option<Command>,
    ) -> io::Result<Ending> {
        match first {
            Some(command) => answer(world, &mut self.replies, command)?,
            None => self.replies.write_all(b"done\n")?,
        }
        self.answer_others(world)
    }

    // Answers the lines of a simulation behind the first one.
    fn answer_others(&mut self, world: &mut World<(), u64>) -> io::Result<Ending> {
        for number in 2..u64::MAX {
            let line = match self.lines.next_line() {
                Ok(Some(line)) => line,
                Ok(None) => return Ok(Ending::EndOfInput),
                // The same is said of more lines than can be counted.
                Err(_) => break,
            };
            match command_within(line) {
                Some(command) => answer(world, &mut self.replies, command)?,
                None => return end_at_bad_line(&mut self.replies, number),
            }
        }
        end_at_failure(&mut self.replies)
    }
}

// `command_of`, for a line of a simulation that is not too long.
fn command_within(line: &[u8]) -> Option<Command> {
    if line.len() > LINE_LIMIT {
        None
    } else {
        command_of(line)
    }
}

// The limits of a simulation in which the queues of runs have room for so many tasks.
fn limits_of(places: u64) -> Limits {
    Limits {
        local: places as usize,
        ..Limits::default()
    }
}

// Answers a command of the simulation: takes the step, or shows the state.
fn answer<W: Write + Drop>(
    world: &mut World<(), u64>,
    replies: &mut BufWriter<W>,
    command: Command,
) -> io::Result<()> {
    match command {
        Command::Step(step) => replies.writeln(ReplyText(world.step(step))),
        Command::Show => replies.writeln(StateText(world)),
    }
}

fn end_at_bad_line<W: Write + Drop>(replies: &mut BufWriter<W>, number: u64) -> io::Result<Ending> {
    writeln!(replies, "bad line {number}")?;
    Ok(Ending::BadLine)
}

fn end_at_failure<W: Write + Drop>(replies: &mut BufWriter<W>) -> io::Result<Ending> {
    replies.write_all(b"read failed\n")?;
    Ok(Ending::ReadFailed)
}

// Ends a simulation: says why there is no world.
fn end_without_world<W: Write + Drop>(
    replies: &mut BufWriter<W>,
    error: NewError,
) -> io::Result<Ending> {
    match error {
        NewError::BadLimits => {
            replies.write_all(b"bad limits\n")?;
            Ok(Ending::BadLimits)
        }
        NewError::OutOfMemory => {
            replies.write_all(b"out of memory\n")?;
            Ok(Ending::OutOfMemory)
        }
    }
}
