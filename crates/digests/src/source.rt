//! Where the bytes of a digest come from.
ghost use Rattle.std.specs.Prelude.{◌≡◌, MatchResult, true};
ghost use Rattle.digests.specs.Words.{is_input};

use std::fs::File;
use std::io;
use std::io::{ErrorKind, Read, Stdin};
use std::rt::Files;

/// Whether the source of this name is standard input.
pub fn is_input(name: &[u8]) -> bool
    ensures { result ≡ is_input name.now }
{
    name == b"-".as_slice()
}

/// Standard input, unless it cannot be read. This is asked before a file is opened: if standard input is
/// closed, the file gets its descriptor.
///
/// # Errors
///
/// That of the system.
pub fn open_input(input: Stdin) -> io::Result<Stdin> {
    let mut reader = input;
    let mut nothing = [0u8; 0];
    match reader.read(&mut nothing) {
        Ok(_) => Ok(input),
        Err(error) => Err(error),
    }
}

/// An open file, or standard input.
#[derive(Drop)]
pub enum Source {
    /// An open file.
    File(File),
    /// Standard input.
    Input(Stdin),
}

impl Source {
    /// Opens the file of this name; `-` is this standard input.
    ///
    /// # Errors
    ///
    /// That of the system, or `InvalidInput` for a name that is not UTF-8.
    pub fn open<R: Files<File = File>>(
        rt: &R,
        input: io::Result<Stdin>,
        name: &[u8],
    ) -> io::Result<Source>
        ensures { is_input name.now ≡ true →
            MatchResult input (λ input. result ≡ Ok (Source.Input input))
            (λ error. result ≡ Err error) }
    {
        if is_input(name) {
            return Ok(Source::Input(input?));
        }
        let Ok(name) = std::str::from_utf8(name) else {
            return Err(io::Error::new(ErrorKind::InvalidInput, "the name is not UTF-8"));
        };
        Ok(Source::File(File::open(rt, name)?))
    }
}

impl Read for Source {
    fn read(&mut self, buf: &mut [u8]) -> io::Result<usize> {
        match self {
            Source::File(file) => file.read(buf),
            Source::Input(input) => input.read(buf),
        }
    }
}
