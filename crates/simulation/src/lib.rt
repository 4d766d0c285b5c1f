//! A simulation of an executor: steps as lines in, replies as lines out.
//!
//! Each line of the input is one step of a `World`, or `show`, and has one line of reply in the
//! output. The world refuses a step that isn't enabled, so any order of steps may be tried.
//! `command` reads a line, `reply` writes what is answered, `lines` cuts the input into lines of
//! bounded length, and `simulation` runs them all.
#![tactic(auto)]

mod command;
mod lines;
mod reply;
mod simulation;

pub use simulation::run_lines;
