//! A run of the program: the files of the command line in, their lines out, in the same order.
ghost use Rattle.std.specs.Prelude.{◌≡◌, ◌≤◌};
ghost use Rattle.digests.specs.Statuses.{exit_status};

use crate::arguments::{MOST_THREADS, Options, Word, Words, read_argument};
use crate::failure::Failure;
use crate::file_digest::{Files, Shared};
use crate::printer::{Printer, say};
use crate::source::open_input;
use crate::system::System;
use crate::window::Window;
use async_utilities::Pool;
use std::alloc::Global;
use std::io::Stdin;
use std::sync::Arc;
use std::{io, thread};

// How many threads there are if neither the command line nor the system says how many.
const DEFAULT_THREADS: usize = 4;

/// What the program is run on.
#[derive(Clone, Copy)]
pub struct Standard {
    /// Standard input.
    pub input: Stdin,
    /// Whether standard error is a terminal.
    pub is_terminal: bool,
}

/// Digests the files of the command line, and gives the exit status.
pub fn run<R: System + Send + Sync + 'static>(rt: &R, alloc: Global, standard: Standard) -> u8 {
    let name = program_name(rt, alloc);
    let program = match &name {
        Some(name) => name.as_str(),
        None => "digests",
    };
    let mut printer = Printer::new(rt, alloc, program);
    let outcome = start(alloc, standard, &mut printer);
    if let Err(failure) = &outcome {
        say(rt, program, failure);
    }
    exit_status(&outcome)
}

// The exit status of a run, if each file was read, or not, or the program stopped before.
fn exit_status(outcome: &Result<bool, Failure>) -> u8
    ensures { result ≡ exit_status outcome.now }
{
    match outcome {
        Ok(true) => 0,
        Ok(false) => 1,
        Err(failure) => failure.status(),
    }
}

// The name that the program was called by, if it is text and there is memory for it.
fn program_name<R: System + Send + Sync + 'static>(rt: &R, alloc: Global) -> Option<String> {
    let name = read_argument(rt, alloc, 0).ok()??;
    String::from_utf8(name).ok()
}

// Does a run as the options say. Whether each file was read.
fn start<R: System + Send + Sync + 'static>(
    alloc: Global,
    standard: Standard,
    printer: &mut Printer<'_, R>,
) -> Result<bool, Failure> {
    let rt = printer.rt;
    let options = Options::read(rt, alloc)?;
    if options.help {
        printer.help()?;
        return Ok(true);
    }
    if options.progress || standard.is_terminal {
        printer.show_progress(options.files.max(1), standard.is_terminal)?;
    }
    let files = Given {
        input: input_for(&options, standard.input),
        has_files: options.files > 0,
    };
    let threads = options.threads.unwrap_or_else(|| default_threads(rt));
    let shared = Arc::new(alloc, Shared::new(rt.clone()?, alloc, threads)?)?;
    let result = digest_all(alloc, &shared, threads, files, printer);
    printer.end(&shared);
    result?;
    printer.close(files.input);
    Ok(printer.all_read)
}

// The standard input of a run, if it is read. Otherwise it is not touched: a terminal stops a background
// process that reads from it.
fn input_for(options: &Options, input: Stdin) -> io::Result<Stdin> {
    if options.reads_input() {
        // Whether it is open is asked before a file is opened: that would get the descriptor of a closed
        // one, and its bytes would be taken for those of standard input.
        open_input(input)
    } else {
        Ok(input)
    }
}

fn default_threads<R: System + Send + Sync + 'static>(rt: &R) -> usize
    ensures some { 1 ≤ result }
    ensures most { result ≤ MOST_THREADS }
{
    match thread::available_parallelism(rt) {
        Ok(count) => count.get().min(MOST_THREADS),
        Err(_) => DEFAULT_THREADS,
    }
}

// Standard input, and whether the command line names files.
#[derive(Clone, Copy)]
struct Given {
    input: io::Result<Stdin>,
    has_files: bool,
}

// Starts the threads, has all files digested, and waits for the threads. That of main is one of them,
// since it runs tasks while it awaits one: so all is done even if no other thread gets its memory.
fn digest_all<R: System + Send + Sync + 'static>(
    alloc: Global,
    shared: &Arc<Shared<R>>,
    threads: usize,
    files: Given,
    printer: &mut Printer<'_, R>,
) -> Result<(), Failure> {
    let others = threads.saturating_sub(1);
    let pool = Pool::new(shared.rt.clone()?, alloc, others)?;
    digest_by(alloc, pool.executor(), shared, files, printer)?;
    for ended in pool.join() {
        ended?;
    }
    Ok(())
}

// Has all files digested by the tasks of this executor.
fn digest_by<R: System + Send + Sync + 'static>(
    alloc: Global,
    executor: &Files<R>,
    shared: &Arc<Shared<R>>,
    files: Given,
    printer: &mut Printer<'_, R>,
) -> Result<(), Failure> {
    let mut window = Window::new(alloc, files.input, executor, Arc::try_clone(shared)?)?;
    if files.has_files {
        digest_files(alloc, &mut window, printer)?;
    } else {
        window.spawn(Vec::from_slice(alloc, b"-")?)?;
    }
    print_rest(&mut window, printer)
}

// At the end of a run, prints what came of the files that are under way.
fn print_rest<R: System + Send + Sync + 'static>(
    window: &mut Window<'_, R>,
    printer: &mut Printer<'_, R>,
) -> Result<(), Failure> {
    for _ in printer.rt.forever() {
        if !print_first(window, printer)? {
            break;
        }
    }
    Ok(())
}

// Spawns a task for each file, and prints what came of the first ones when there is no room.
fn digest_files<R: System + Send + Sync + 'static>(
    alloc: Global,
    window: &mut Window<'_, R>,
    printer: &mut Printer<'_, R>,
) -> Result<(), Failure> {
    let mut words = Words::new(printer.rt, alloc);
    for _ in 0..usize::MAX {
        match words.next()? {
            Some(Word::File(name)) => add(window, printer, name)?,
            Some(Word::Threads(_) | Word::Progress | Word::Help) => {}
            None => break,
        }
    }
    Ok(())
}

fn add<R: System + Send + Sync + 'static>(
    window: &mut Window<'_, R>,
    printer: &mut Printer<'_, R>,
    name: Vec<u8>,
) -> Result<(), Failure> {
    for _ in printer.rt.forever() {
        if window.has_room(&name) || !print_first(window, printer)? {
            break;
        }
    }
    window.spawn(name)
}

// Awaits the first file that is under way, and prints what came of it. Whether there is one.
fn print_first<R: System + Send + Sync + 'static>(
    window: &mut Window<'_, R>,
    printer: &mut Printer<'_, R>,
) -> Result<bool, Failure> {
    match window.next(&mut printer.progress)? {
        Some(answer) => {
            printer.write(&answer)?;
            Ok(true)
        }
        None => Ok(false),
    }
}
