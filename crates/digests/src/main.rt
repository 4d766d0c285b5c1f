//! Prints the SHA-256 digests of files, as `sha256sum` does, on many threads.
//!
//! `digests [-j N] [--progress] [--] [FILE..]` writes a line for each FILE, in their order, and on
//! standard error a message for each that cannot be read, byte for byte as `sha256sum` does. `-` is
//! standard input, and so is no FILE. N is the number of threads, 1 to 256; if it is left out, it is the
//! number of processors, or 4 if the system does not tell that. Progress, which is how many files are done
//! and how many MiB were digested, is shown if standard error is a terminal, or if `--progress` asks for it.
//!
//! Each file is a task, and at most 64 are under way. A poll reads once, at most 1 MiB, into a block
//! that it takes from a set of N, and asks for the next poll: so a large file keeps no other waiting, and
//! memory does not grow with the files, nor with their number. The thread of `main` runs tasks too, beside
//! a pool of N - 1 threads. It opens the files, so it may wait for the writer of a named pipe before it has
//! written the lines of the files before.
//!
//! | status | why | message |
//! |---|---|---|
//! | 0 | each file was read | |
//! | 1 | a file could not be read; all others are digested | that of `sha256sum` |
//! | 2 | a bad argument; no file is digested | `-j WORD: no number from 1 to 256`, `-j: a number from 1 to 256 is missing`, `unknown option WORD` |
//! | 3 | standard output takes no more | `write error: CAUSE` |
//! | 4 | memory was refused | `memory exhausted` |
//! | 5 | the system starts no more threads | `cannot start a thread` |
//! | 6 | the clock cannot be read, or numbers are exhausted | `clock: CAUSE`, `numbers are exhausted` |
//!
//! `sha256sum` has the status 1 for those from 2 to 4. It differs in this too:
//!
//! - A name that is not UTF-8 is not opened, since `std` takes names of text alone. The message says so.
//! - After a write error nothing more is digested.
//! - Names in messages are quoted as in a locale of UTF-8. A character that Unicode does not assign stands
//!   there as it is.
#![tactic(auto)]

mod arguments;
mod blocks;
mod cause;
mod digesting;
mod failure;
mod file_digest;
mod lines;
mod printer;
mod progress;
mod quoting;
mod session;
mod source;
mod system;
mod window;

use session::{Standard, run};
use std::io::IsTerminal;
use std::process::ExitCode;

fn main(rt: HostRuntime) -> ExitCode {
    let standard = Standard {
        input: rt.stdin(),
        is_terminal: rt.stderr().is_terminal(),
    };
    ExitCode::from(run(&rt, rt.alloc(), standard))
}
