//! The simulation of an executor as a program: steps on standard input, replies on standard output.
#![tactic(auto)]

use simulation::run_lines;
use std::io;
use std::process::ExitCode;

fn main(rt: HostRuntime) -> ExitCode {
    ExitCode::from(run_lines(rt.alloc(), rt.reader(), io::writer(&rt)))
}
