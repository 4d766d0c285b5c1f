//! `mandelbrot WIDTH HEIGHT [-j THREADS] [--progress]` prints the Mandelbrot set as a binary PPM.
//!
//! It computes in fixed point, so the bytes are the same on every machine and for every number of
//! threads. There are as many as processors unless `-j` says another number; the main thread is one of
//! them. The picture shows the plane from -2.25 to 0.75 and from -1 to 1, whatever its size, so one of
//! three to two has square pixels.
//!
//! A line of progress goes to standard error if that is a terminal, or with `--progress`. Memory holds
//! 64 bands of 4 rows, three bytes a pixel: 12.6 million bytes at the largest width.
//!
//! | exit status | why |
//! |---|---|
//! | 0 | the picture is printed |
//! | 2 | the arguments are bad |
//! | 3 | standard output is closed or full |
//! | 4 | memory was refused |
//! | 5 | a thread could not be started |
//! | 6 | the executor stopped early |
#![tactic(auto)]

mod arguments;
mod band;
mod colours;
mod drawing;
mod failure;
mod fixed_point;
mod picture;

use arguments::{Arguments, BadArguments, MOST_THREADS};
use failure::Failure;
use picture::Picture;
use std::alloc::Global;
use std::io::{self, ErrorKind, IsTerminal};
use std::process::ExitCode;
use std::rt::Env;
use std::sync::Wait;
use std::thread::{self, Threads};

// So many threads draw if the number of processors is not to be had.
const THREADS: u32 = 4;

// As many threads as processors, up to the most that `-j` takes.
fn processors(rt: &impl Threads) -> u32 {
    match thread::available_parallelism(rt) {
        Ok(count) => u32::try_from(count.get())
            .unwrap_or(MOST_THREADS)
            .min(MOST_THREADS),
        Err(_) => THREADS,
    }
}

// The arguments of `mandelbrot`, without the name of the program.
fn read_arguments(rt: &(impl Env + AllocGlobal), alloc: Global) -> Result<Arguments, Failure> {
    let words = match std::env::args(rt) {
        Ok(words) => words,
        Err(error) if error.kind() == ErrorKind::OutOfMemory => return Err(Failure::OutOfMemory),
        Err(_) => return Err(Failure::Arguments(BadArguments::NotText)),
    };
    let mut others = Vec::new(alloc);
    for word in words.skip(1) {
        others.push(word)?;
    }
    match arguments::read(others.as_slice()) {
        Ok(arguments) => Ok(arguments),
        Err(bad) => Err(Failure::Arguments(bad)),
    }
}

// Reads the arguments, and draws what they ask for.
fn run<R>(rt: &R, alloc: Global, is_terminal: bool) -> Result<(), Failure>
where
    R: Wait + Threads + Clone + Drop + Send + Sync + Print + Eprint + Env + AllocGlobal + 'static,
{
    let arguments = read_arguments(rt, alloc)?;
    let picture = Picture {
        width: arguments.width,
        height: arguments.height,
    };
    let threads = match arguments.threads {
        Some(threads) => threads,
        None => processors(rt),
    };
    let progress = arguments.progress || is_terminal;
    drawing::draw(rt, alloc, picture, threads, progress)
}

fn main(rt: HostRuntime) -> ExitCode {
    let is_terminal = rt.stderr().is_terminal();
    match run(&rt, rt.alloc(), is_terminal) {
        Ok(()) => ExitCode::SUCCESS,
        Err(failure) => {
            let _ = eprintln!(rt; "mandelbrot: {failure}");
            ExitCode::from(failure.status())
        }
    }
}
