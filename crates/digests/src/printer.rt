//! What is written: the lines of the digests, the messages and the progress.
ghost use Rattle.std.specs.Prelude.{◌≡◌, ◌&&◌, OnOk, IsSome, is_ok, true};

use crate::cause::Cause;
use crate::failure::Failure;
use crate::file_digest::{Answer, Shared};
use crate::lines::push_line;
use crate::progress::Progress;
use crate::quoting::push_quoted;
use crate::system::System;
use std::alloc::Global;
use std::fmt::Display;
use std::io;
use std::io::Stdin;

const HELP: &str = "\
usage: digests [-j N] [--progress] [--] [FILE..]
Prints the SHA-256 digest of each FILE, in their order. - is standard input, and so is no FILE.
  -j N         with N threads, 1 to 256; as many as there are processors if it is left out
  --progress   show progress on standard error, even if that is no terminal
  --help       show this
";

// The number of the error that a stream is closed.
const BAD_DESCRIPTOR: i32 = 9;

/// Writes a message of the program of this name on standard error. Nothing is done if it cannot be
/// written.
pub fn say<R: System + Send + Sync + 'static>(rt: &R, program: &str, message: &impl Display) {
    let _ = eprintln!(rt; "{program}: {message}");
}

/// Writes digests on standard output and messages on standard error.
#[derive(Drop)]
pub struct Printer<'a, R: System + Send + Sync + 'static> {
    /// The system.
    pub rt: &'a R,
    /// What shows progress, if anything does.
    pub progress: Option<Progress<R>>,
    /// Whether each file so far was read.
    pub all_read: bool,
    alloc: Global,
    program: &'a str,
    line: Vec<u8>,
}

impl<'a, R: System + Send + Sync + 'static> Printer<'a, R> {
    /// A printer that has written nothing yet.
    pub fn new(rt: &'a R, alloc: Global, program: &'a str) -> Printer<'a, R>
        ensures { result.all_read ≡ true }
    {
        Printer {
            rt,
            progress: None,
            all_read: true,
            alloc,
            program,
            line: Vec::new(alloc),
        }
    }

    /// The printer shows progress from now on, of so many files.
    ///
    /// # Errors
    ///
    /// `Failure` if memory is refused or the clock cannot be read.
    pub fn show_progress(&mut self, files: usize, is_terminal: bool) -> Result<(), Failure>
        ensures shown { OnOk result (IsSome self.new.progress) }
        ensures all_read { self.new.all_read ≡ self.old.all_read }
    {
        self.progress = Some(Progress::new(self.rt, self.alloc, files, is_terminal)?);
        Ok(())
    }

    /// Writes what came of a file.
    ///
    /// # Errors
    ///
    /// `Failure` if memory is refused or standard output takes no more.
    pub fn write(&mut self, answer: &Answer) -> Result<(), Failure>
        ensures { OnOk result (self.new.all_read ≡ (self.old.all_read && is_ok answer.now.digest)) }
    {
        if let Some(progress) = &self.progress {
            progress.clear(self.rt);
        }
        match &answer.digest {
            Ok(digest) => {
                self.line.clear();
                push_line(&mut self.line, &answer.name, digest)?;
                self.put(&self.line)
            }
            Err(error) => {
                self.all_read = false;
                let mut name = String::new(self.alloc);
                push_quoted(&mut name, &answer.name)?;
                let (rt, program) = (self.rt, self.program);
                let cause = Cause(*error);
                let _ = eprintln!(rt; "{program}: {name}: {cause}");
                Ok(())
            }
        }
    }

    /// Prints what the options are.
    ///
    /// # Errors
    ///
    /// `Failure` if standard output takes no more.
    pub fn help(&self) -> Result<(), Failure> {
        self.put(HELP.as_bytes())
    }

    /// The printer shows progress for the last time.
    pub fn end(&self, shared: &Shared<R>) {
        if let Some(progress) = &self.progress {
            progress.end(shared);
        }
    }

    /// Prints a message if standard input was closed before: `sha256sum` closes it in the end, and fails.
    pub fn close(&self, input: io::Result<Stdin>) {
        if let Err(error) = input {
            if error.raw_os_error() == Some(BAD_DESCRIPTOR) {
                let (rt, program) = (self.rt, self.program);
                let cause = Cause(error);
                let _ = eprintln!(rt; "{program}: standard input: {cause}");
            }
        }
    }

    fn put(&self, bytes: &[u8]) -> Result<(), Failure> {
        match self.rt.write_all(bytes) {
            Ok(()) => Ok(()),
            Err(error) => Err(Failure::Output(Cause(error))),
        }
    }
}
