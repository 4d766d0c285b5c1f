//! The command line, word by word.
//!
//! It is gone through twice, once for the options and once for the files, and a word is read when its
//! turn comes. So no list of files is kept, however many there are.
ghost use Rattle.std.specs.Prelude.{◌≡◌, ◌≢◌, ◌<◌, ◌≤◌, ◌==◌, ◌||◌, ◌↔◌, ℕ, IfNone, IfOk, IfSome, IsOk, codes, false, length, slice_index, true};
ghost use Rattle.digests.specs.Words.{AsksForThreads, IsFile, IsLawful, IsThreadCount, is_input};

use crate::failure::Failure;
use crate::quoting::push_quoted;
use crate::source::is_input;
use crate::system::System;
use std::alloc::{AllocError, Global};
use std::env::FillError;

/// How many threads there may be at most.
pub const MOST_THREADS: usize = 256;

// For how many bytes a word has room at first.
const WORD_LEN: usize = 256;

/// What the options say.
#[derive(Clone, Copy)]
pub struct Options {
    /// How many threads there are to be, if it is said.
    pub threads: Option<usize>,
    /// Whether to show progress wherever standard error goes.
    pub progress: bool,
    /// Whether to say what the options are, and nothing else.
    pub help: bool,
    /// How many files there are.
    pub files: usize,
    /// Whether one of them is standard input.
    pub names_input: bool,
}

impl Options {
    /// Reads the whole command line: its options, and how many files there are.
    ///
    /// # Errors
    ///
    /// `Failure`, for the first word that is no option and no file, or if memory is refused.
    pub fn read<R: System>(rt: &R, alloc: Global) -> Result<Options, Failure>
        ensures { IfOk result
            (λ options. IfSome options.threads (λ count. (1 ≤ count) × (count ≤ MOST_THREADS))) }
    {
        let mut options = Options {
            threads: None,
            progress: false,
            help: false,
            files: 0,
            names_input: false,
        };
        let mut words = Words::new(rt, alloc);
        for _ in 0..usize::MAX {
            match words.next()? {
                Some(Word::File(name)) => options.add_file(&name),
                Some(Word::Threads(count)) => options.threads = Some(count),
                Some(Word::Progress) => options.progress = true,
                Some(Word::Help) => options.help = true,
                None => break,
            }
        }
        Ok(options)
    }

    /// Whether standard input is read with this command line.
    pub fn reads_input(&self) -> bool
        ensures { result ≡ (self.now.files == 0 || self.now.names_input) }
    {
        self.files == 0 || self.names_input
    }

    // Counts a file of the command line.
    fn add_file(&mut self, name: &[u8])
        ensures counted { 0 < self.new.files }
        ensures input { self.new.names_input ≡ (self.old.names_input || is_input name.now) }
        ensures others { self.new
            ≡ record self.old { files = self.new.files; names_input = self.new.names_input } }
    {
        self.files = self.files.saturating_add(1);
        self.names_input = self.names_input || is_input(name);
    }
}

/// A word of the command line, or two that belong together.
#[derive(Drop)]
pub enum Word {
    /// A file to digest; `-` is standard input.
    File(Vec<u8>),
    /// How many threads there are to be: 1 to 256.
    Threads(usize),
    /// Show progress.
    Progress,
    /// Say what the options are.
    Help,
}

// Which option a word is.
enum Kind {
    EndOfOptions,
    Threads,
    ThreadsAndNumber,
    Progress,
    Help,
    Unknown,
}

// Whether a word begins with a dash, and is more than that.
fn is_option(word: &[u8]) -> bool
    ensures { (result ≡ true) ↔ ((2 ≤ length word.now) × (slice_index word.now 0 ≡ 45)) }
{
    matches!(word, [b'-', _, ..])
}

fn kind_of(option: &[u8]) -> Kind
    ensures end { (result ≡ Kind.EndOfOptions) ↔ (option.now ≡ codes "--") }
    ensures threads { (result ≡ Kind.Threads) ↔ (option.now ≡ codes "-j") }
    ensures progress { (result ≡ Kind.Progress) ↔ (option.now ≡ codes "--progress") }
    ensures help { (result ≡ Kind.Help) ↔ (option.now ≡ codes "--help") }
    ensures number { result ≡ Kind.ThreadsAndNumber
        → (2 ≤ length option.now) × (slice_index option.now 1 ≡ 106) }
    ensures unknown { result ≡ Kind.Unknown → slice_index option.now 1 ≢ 106 }
{
    if option == b"--".as_slice() {
        Kind::EndOfOptions
    } else if option == b"-j".as_slice() {
        Kind::Threads
    } else if option == b"--progress".as_slice() {
        Kind::Progress
    } else if option == b"--help".as_slice() {
        Kind::Help
    } else if matches!(option, [_, b'j', ..]) {
        Kind::ThreadsAndNumber
    } else {
        Kind::Unknown
    }
}

/// The words of the command line that are left, first to last.
#[derive(Drop)]
pub struct Words<'a, R: System> {
    rt: &'a R,
    alloc: Global,
    index: usize,
    has_options: bool,
}

impl<'a, R: System> Words<'a, R> {
    /// All words of the command line behind the program's name.
    pub fn new(rt: &'a R, alloc: Global) -> Words<'a, R> {
        Words {
            rt,
            alloc,
            index: 1,
            has_options: true,
        }
    }

    /// The next argument of the command line, unless there is none.
    ///
    /// # Errors
    ///
    /// `Failure`, if it is no option and no file, or memory is refused.
    pub fn next(&mut self) -> Result<Option<Word>, Failure>
        ensures lawful { IfOk result (λ word. IfSome word IsLawful) }

        // Behind `--` each word is a file.
        ensures files { self.old.has_options ≡ false → IfOk result (λ word. IfSome word IsFile) }
        ensures kept { self.old.has_options ≡ false → self.new.has_options ≡ false }
    {
        let Some(word) = self.read()? else {
            return Ok(None);
        };
        if self.has_options && is_option(&word) {
            self.option(&word)
        } else {
            Ok(Some(Word::File(word)))
        }
    }

    // The word of an option, to which the word behind it may belong.
    fn option(&mut self, option: &[u8]) -> Result<Option<Word>, Failure>
        ensures lawful { IfOk result (λ word. IfSome word IsLawful) }
    {
        match kind_of(option) {
            Kind::EndOfOptions => {
                self.has_options = false;
                Ok(self.read()?.map(Word::File))
            }
            Kind::Threads => match self.read()? {
                Some(number) => self.threads(&number),
                None => Err(Failure::NoNumber),
            },
            Kind::ThreadsAndNumber => self.threads(&option[2..]),
            Kind::Progress => Ok(Some(Word::Progress)),
            Kind::Help => Ok(Some(Word::Help)),
            Kind::Unknown => Err(Failure::UnknownOption(quoted(self.alloc, option)?)),
        }
    }

    // The word of the command line for this number of threads.
    fn threads(&self, number: &[u8]) -> Result<Option<Word>, Failure>
        ensures asks { IfOk result (λ word. AsksForThreads number.now word) }
        ensures known { (count : ℕ) → IsThreadCount number.now count → IsOk result }
    {
        match number_of(number) {
            Some(count) => Ok(Some(Word::Threads(count))),
            None => Err(Failure::BadNumber(quoted(self.alloc, number)?)),
        }
    }

    // The bytes of the next word.
    fn read(&mut self) -> Result<Option<Vec<u8>>, AllocError>
        ensures { self.new.has_options ≡ self.old.has_options }
    {
        let word = read_argument(self.rt, self.alloc, self.index)?;
        self.index = self.index.saturating_add(1);
        Ok(word)
    }
}

// A number of threads, if it is one: it is written in decimal digits, and a plus may stand before them.
fn number_of(text: &[u8]) -> Option<usize>
    ensures some { IfSome result (λ count. IsThreadCount text.now count) }
    ensures none { IfNone result ((count : ℕ) → ¬ IsThreadCount text.now count) }
{
    let count: usize = std::str::from_utf8(text).ok()?.parse().ok()?;
    if 1 <= count && count <= MOST_THREADS {
        Some(count)
    } else {
        None
    }
}

fn quoted(alloc: Global, word: &[u8]) -> Result<String, AllocError> {
    let mut text = String::new(alloc);
    push_quoted(&mut text, word)?;
    Ok(text)
}

/// The argument of the command line at this place, if there is one. That at 0 is the program's name.
///
/// # Errors
///
/// `AllocError` if memory is refused.
pub fn read_argument<R: System>(
    rt: &R,
    alloc: Global,
    index: usize,
) -> Result<Option<Vec<u8>>, AllocError> {
    let mut word = Vec::new(alloc);
    let mut room = WORD_LEN;
    for _ in 0..usize::BITS {
        word.resize(room, 0u8)?;
        match rt.arg(index, word.as_mut_slice()) {
            Ok(len) => {
                word.truncate(len);
                return Ok(Some(word));
            }
            Err(FillError::NotPresent) => return Ok(None),
            Err(FillError::TooLong) => room = room.saturating_mul(2),
        }
    }
    Err(AllocError)
}
