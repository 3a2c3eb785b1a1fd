//! The bytes of a stream that wait. They take memory only while there are some.
ghost use Rattle.std.specs.Prelude.{◌≡◌, ◌<◌, ◌≤◌, ◌++◌, [], length, take, drop, IfOk, OnOk, OnErr};

use bytes::{Bytes, BytesMut};
use std::alloc::{AllocError, Global};
use std::marker::Model;

// A block, and how many bytes were taken off it. Nothing but its size depends on them.
#[derive(Debug, Drop)]
struct Block {
    bytes: BytesMut,
    passed: usize,
}

/// The bytes that wait. It is small while none do: most connections of a server are idle.
#[derive(Debug, Drop)]
pub(crate) struct Waiting {
    alloc: Global,
    block: Option<Box<Block>>,
}

impl Model for Waiting {
    ghost use Rattle.std.specs.Prelude.{ℕ, List};
    ghost use Rattle.wire_frames.specs.Blocks.{bytes_in};

    ghost Value = { List ℕ };

    ghost view = { λ w. bytes_in w.block };
}

impl Waiting {
    /// None.
    pub fn new(alloc: Global) -> Waiting
        ensures { result ≡ [] }
    {
        Waiting { alloc, block: None }
    }

    pub fn as_slice(&self) -> &[u8]
        ensures { result.now ≡ self.now }
    {
        match &self.block {
            Some(block) => block.bytes.as_slice(),
            None => &[],
        }
    }

    /// Adds bytes at the end. No bytes take no memory.
    pub fn extend_from_slice(&mut self, piece: &[u8]) -> Result<(), AllocError>
        ensures extended { OnOk result (self.new ≡ self.old ++ piece.now) }
        ensures unchanged { OnErr result (self.new ≡ self.old) }
        ensures grown { OnErr result (0 < length piece.now) }
    {
        if piece.is_empty() {
            return Ok(());
        }
        if let Some(block) = &mut self.block {
            return block.bytes.extend_from_slice(piece);
        }
        let bytes = BytesMut::copy_from_slice(self.alloc, piece)?;
        self.block = Some(Box::new(self.alloc, Block { bytes, passed: 0 })?);
        Ok(())
    }

    /// Takes so many bytes off the front, which share the block with the others.
    pub fn freeze_to(&mut self, count: usize) -> Result<Bytes, AllocError>
        requires { count ≤ length self.old }
        ensures taken { IfOk result (λ bytes. bytes ≡ take count self.old) }
        ensures left { OnOk result (self.new ≡ drop count self.old) }
        ensures unchanged { OnErr result (self.new ≡ self.old) }
    {
        match &mut self.block {
            Some(block) => block.bytes.freeze_to(count),
            None => Ok(Bytes::new()),
        }
    }

    /// Takes so many bytes off the front. Those that still wait are moved to a new block once at least as many were taken off before them. Where that
    /// allocation fails, they stay where they are.
    pub fn advance(&mut self, count: usize)
        requires { count ≤ length self.old }
        ensures { self.new ≡ drop count self.old }
    {
        if count == self.as_slice().len() {
            self.block = None;
            return;
        }
        if let Some(block) = &mut self.block {
            block.bytes.advance(count);
            block.passed = block.passed.saturating_add(count);
            fit(self.alloc, block);
        }
    }
}

// Puts the bytes into a block of their own, where that is no longer than what was taken off the old one.
fn fit(alloc: Global, block: &mut Block)
    ensures { block.new.bytes.items ≡ block.old.bytes.items }
{
    if block.passed < block.bytes.len() {
        return;
    }
    if let Ok(own) = BytesMut::copy_from_slice(alloc, block.bytes.as_slice()) {
        block.bytes = own;
        block.passed = 0;
    }
}
