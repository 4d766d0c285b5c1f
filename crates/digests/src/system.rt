//! What the program asks of the system that it runs on.
use std::fs::File;
use std::rt::Runtime;
use std::sync::Wait;
use std::thread::Threads;

/// Files, standard streams, arguments, a clock, threads, and the right to wait for a lock.
pub trait System: Runtime<File = File> + Wait + Threads {}

impl<R: Runtime<File = File> + Wait + Threads> System for R {}
