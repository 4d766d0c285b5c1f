//! The task of a file: its digest, a block a poll.
ghost use Rattle.std.specs.Prelude.{◌≡◌, ◌≤◌, ◌++◌, ℕ, List, [], None, Some, IsOk, IsSome, IfSome, IfOk, IfErr, MatchResult, false, is_none, take};
ghost use Rattle.sha2.specs.Sha256.{sha256};
ghost use Rattle.async_executor.specs.Answers.{is_ready};
ghost use Rattle.async_utilities.specs.Polls.{IfReady};
ghost use Rattle.digests.specs.Digests.{Adds, AddsAtMost, EndsByError, EndsOr, FileHolds, count_of};

use crate::blocks::{BLOCK_LEN, Block, Blocks};
use crate::digesting::{Digesting, Step};
use crate::source::Source;
use async_executor::{Executor, Future, Poll, Task, TaskWaker, Wake};
use async_utilities::ThreadWaker;
use std::alloc::{AllocError, Global};
use std::io;
use std::sync::atomic::{AtomicU64, Ordering};
use std::sync::{Arc, Wait};

/// What came of a file.
#[derive(Drop)]
pub struct Answer {
    /// Its name, as it stands on the command line.
    pub name: Vec<u8>,
    /// Its digest, or why it cannot be read.
    pub digest: io::Result<[u8; 32]>,
}

/// What all tasks share.
#[derive(Drop)]
pub struct Shared<R: Wait + Drop> {
    /// The blocks that files are read into.
    pub blocks: Blocks,
    /// How many bytes were digested.
    pub digested: AtomicU64,
    /// The system.
    pub rt: R,
}

impl<R: Wait + Drop> Shared<R> {
    /// What the tasks of files share if so many threads run them.
    ///
    /// # Errors
    ///
    /// `AllocError` if memory is refused.
    pub fn new(rt: R, alloc: Global, threads: usize) -> Result<Shared<R>, AllocError> {
        Ok(Shared {
            blocks: Blocks::new(alloc, threads)?,
            digested: AtomicU64::new(0),
            rt,
        })
    }

    // The task of a file goes on with it, by a block that nobody has. There is one for each thread that
    // polls; if there were none, nothing would be read.
    fn step(&self, file: &mut Undigested) -> Step
        ensures name { file.new.name ≡ file.old.name }
        ensures adds { (message : List ℕ) → FileHolds file.old message
            → EndsOr result message (Adds file.new message (count_of result)) }
        ensures count { count_of result ≤ BLOCK_LEN }
        ensures unopened { IfErr file.old.opened (λ error. EndsByError result error) }
    {
        let Some(mut block) = self.blocks.take(&self.rt) else {
            return Step::More(0);
        };
        let step = file.step(&mut block);
        self.blocks.put(&self.rt, block);
        step
    }
}

// A file that is not digested yet: its name, and how far it is, or why it cannot be opened.
#[derive(Drop)]
struct Undigested {
    name: Vec<u8>,
    opened: io::Result<Digesting<Source>>,
}

impl Undigested {
    // The task of a file reads once, into this block.
    fn step(&mut self, block: &mut Block) -> Step
        ensures name { self.new.name ≡ self.old.name }
        ensures reads { (message : List ℕ) → FileHolds self.old message →
            EndsOr result message
            (FileHolds self.new (message ++ take (count_of result) block.new.bytes.items)) }
        ensures count { count_of result ≤ BLOCK_LEN }
        ensures unopened { IfErr self.old.opened (λ error. result ≡ Step.Ended (Err error)) }
    {
        match &mut self.opened {
            Ok(digesting) => digesting.read_once(block.bytes.as_mut_slice()),
            Err(error) => Step::Ended(Err(*error)),
        }
    }
}

/// Digests at most a block of a file in each poll. Then it asks for the next one, so that the tasks that
/// are scheduled meanwhile go first.
///
/// It is pending once it was ready, and wakes nobody.
#[derive(Drop)]
pub struct FileDigest<R: Wait + Drop> {
    inner: Option<Undigested>,
    shared: Arc<Shared<R>>,
}

/// The executor of the tasks of files.
pub type Files<R> = Executor<FileDigest<R>, ThreadWaker, R>;

/// A task of a file.
pub type FileTask<R> = Task<FileDigest<R>, ThreadWaker, R>;

impl<R: Wait + Drop> FileDigest<R> {
    /// The digest of the file of this name, which was opened, or cannot be.
    pub fn new(name: Vec<u8>, source: io::Result<Source>, shared: Arc<Shared<R>>) -> FileDigest<R>
        ensures begun { IsSome result.inner }
        ensures name { IfSome result.inner (λ file. file.name ≡ name) }
        ensures empty { IfSome result.inner (λ file. FileHolds file []) }
        ensures opened { IfSome result.inner (λ file.
            MatchResult source (λ _. IsOk file.opened) (λ error. file.opened ≡ Err error)) }
    {
        let opened = match source {
            Ok(source) => Ok(Digesting::new(source)),
            Err(error) => Err(error),
        };
        FileDigest {
            inner: Some(Undigested { name, opened }),
            shared,
        }
    }
}

// The executor alone polls it. As a future for its wakers alone it is proved sooner.
impl<R: Wait + Drop> Future<TaskWaker<ThreadWaker, R>> for FileDigest<R> {
    type Output = Answer;

    fn poll(&mut self, w: &TaskWaker<ThreadWaker, R>) -> Poll<Answer>
        ensures ended { IsSome self.old.inner → is_none self.new.inner ≡ is_ready result }
        ensures again { self.old.inner ≡ None
            → (is_ready result ≡ false) × (self.new.inner ≡ None) }
        ensures name { IfSome self.old.inner
            (λ file. IfReady result (λ answer. answer.name ≡ file.name)) }
        ensures kept { IfSome self.old.inner
            (λ old. IfSome self.new.inner (λ new. new.name ≡ old.name)) }

        // The digest is that of what was read, in order. A poll that is pending added at most a block.
        ensures digest { IfSome self.old.inner
            (λ file. IfReady result (λ answer. (message : List ℕ) → FileHolds file message
            → IfOk answer.digest (λ digest. digest ≡ sha256 message))) }
        ensures adds { IfSome self.old.inner
            (λ old. IfSome self.new.inner (λ new. (message : List ℕ) → FileHolds old message
            → AddsAtMost new message BLOCK_LEN)) }

        // What could not be opened is answered with its error.
        ensures unopened { IfSome self.old.inner (λ file. IfErr file.opened (λ error.
            IfReady result (λ answer. answer.digest ≡ Err error))) }
    {
        let Some(mut file) = self.inner.take() else {
            return Poll::Pending;
        };
        match self.shared.step(&mut file) {
            Step::More(count) => {
                self.shared
                    .digested
                    .fetch_add(count as u64, Ordering::SeqCst);
                self.inner = Some(file);
                w.wake();
                Poll::Pending
            }
            Step::Ended(digest) => Poll::Ready(Answer {
                name: file.name,
                digest,
            }),
        }
    }
}
