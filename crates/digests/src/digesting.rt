//! The digest of what a reader gives, read by read.
ghost use Rattle.std.specs.Prelude.{◌≡◌, ◌<◌, ◌≤◌, ◌++◌, List, [], ℕ, Some, length, take};
ghost use Rattle.sha2.specs.Hashers.{Holds256};
ghost use Rattle.digests.specs.Digests.{Owes, EndsOr, count_of};

use sha2::{Digest, Sha256};
use std::io;
use std::io::{ErrorKind, Read};

/// What came of a read.
#[derive(Drop)]
pub enum Step {
    /// So many bytes were digested, and more may come.
    More(usize),
    /// The digest of all bytes, since no more come; or why none are to be had.
    Ended(io::Result<[u8; 32]>),
}

/// A reader, and the digest of what it has given so far.
#[derive(Drop)]
pub struct Digesting<S: Read + Drop> {
    source: S,
    hasher: Sha256,
}

impl<S: Read + Drop> Digesting<S> {
    /// Digests all that the reader has left.
    pub fn new(source: S) -> Digesting<S>
        ensures empty { Holds256 result.hasher [] }
        ensures digest { (message : List ℕ) → S.remaining source ≡ Some message
            → Owes (S.remaining result.source) result.hasher message }
    {
        Digesting {
            source,
            hasher: Sha256::new(),
        }
    }

    /// Reads once, into this block, and digests what came. A read that was interrupted brings nothing,
    /// and is not the end.
    pub fn read_once(&mut self, block: &mut [u8]) -> Step
        requires { 0 < length block.old }
        // Whatever the reader is, the digest is that of what its reads gave, in order.
        ensures reads { (message : List ℕ) → Holds256 self.old.hasher message →
            EndsOr result message
            (Holds256 self.new.hasher (message ++ take (count_of result) block.new)) }

        // If it is known what the reader has left, the digest is that of all of it.
        ensures digest { (message : List ℕ)
            → Owes (S.remaining self.old.source) self.old.hasher message
            → EndsOr result message (Owes (S.remaining self.new.source) self.new.hasher message) }

        ensures count { count_of result ≤ length block.old }
    {
        match self.source.read(block) {
            Ok(0) => Step::Ended(Ok(self.hasher.finalize_reset())),
            Ok(count) => {
                self.hasher.update(&block[..count]);
                Step::More(count)
            }
            Err(error) if error.kind() == ErrorKind::Interrupted => Step::More(0),
            Err(error) => Step::Ended(Err(error)),
        }
    }
}
