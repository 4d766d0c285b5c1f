//! A set of blocks of memory, which the threads that digest share.
ghost use Rattle.std.specs.Prelude.{◌≡◌, vec_len};
ghost use Rattle.digests.specs.declared.blocks.TheConstants.{BLOCK_LEN};

use std::alloc::{AllocError, Global};
use std::sync::{Mutex, Wait};

/// The size of a block in bytes: how much a poll digests at most.
pub const BLOCK_LEN: usize = 1 << 20;

/// A block, into which a file is read.
#[derive(Drop)]
pub struct Block {
    /// Its bytes.
    pub bytes: Vec<u8>,
    ghost whole: { vec_len bytes ≡ BLOCK_LEN },
}

impl Block {
    // A block of zeros.
    fn new(alloc: Global) -> Result<Block, AllocError> {
        let mut bytes = Vec::new(alloc);
        bytes.resize(BLOCK_LEN, 0u8)?;
        Ok(Block { bytes })
    }
}

/// So many blocks, each of which one poll at a time has.
#[derive(Drop)]
pub struct Blocks {
    free: Mutex<Vec<Block>>,
}

impl Blocks {
    /// So many blocks, all of which are free.
    ///
    /// # Errors
    ///
    /// `AllocError` if memory is refused.
    pub fn new(alloc: Global, count: usize) -> Result<Blocks, AllocError> {
        let mut free = Vec::with_capacity(alloc, count)?;
        for _ in 0..count {
            free.push(Block::new(alloc)?)?;
        }
        Ok(Blocks {
            free: Mutex::new(free),
        })
    }

    /// A free block, if there is one.
    pub fn take<R: Wait>(&self, rt: &R) -> Option<Block> {
        self.free.lock(rt).pop()
    }

    /// Gives a block back. There is room for all, so none is let go.
    pub fn put<R: Wait>(&self, rt: &R, block: Block) {
        let _ = self.free.lock(rt).push(block);
    }
}
