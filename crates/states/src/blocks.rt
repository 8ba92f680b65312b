//! What is kept for blocks of words, beside what is kept for each word.

ghost use Rattle.std.specs.Prelude.{◌≡◌, ◌<◌, ◌≤◌, ◌==◌, ℕ, if◌then◌else◌, [], vec_len, vec_capacity, IfOk};
ghost use Rattle.std.specs.Prelude.{is_some};
ghost use Rattle.states.specs.Blocks.{block_words, no_block, block_numbered};

use crate::span::{Leaving, Together};
use std::alloc::{AllocError, Global};

/// How many words a block has.
#[tactic(auto, unfolding(crate::specs::Blocks::block_words))]
pub(crate) fn block_words() -> usize
    ensures value { result ≡ block_words }
    ensures some { 1 ≤ result }
    ensures few { result ≤ 64 }
{
    64
}

/// What is kept for a block.
#[derive(Clone, Copy)]
pub(crate) struct Block {
    /// What is known of its words together, if that was summed.
    pub sum: Option<Together>,
    /// How its words were left since they were written, if they were.
    pub left: Option<Leaving>,
}

impl Block {
    /// Nothing is kept.
    const NONE: Block = Block {
        sum: None,
        left: None,
    };
}

/// What is kept for blocks, by their numbers. The numbers are below a capacity that is set at construction. Nothing is
/// allocated later.
#[derive(Drop)]
pub(crate) struct Blocks {
    /// Nothing is kept for the blocks after the last of these.
    pub(crate) kept: Vec<Block>,
    pub(crate) room: usize,
    ghost reserved: { room ≤ vec_capacity kept },
    ghost few: { vec_len kept ≤ room },
}

impl Blocks {
    pub(crate) fn new(alloc: Global, room: usize) -> Result<Self, AllocError>
        ensures none { IfOk result (λ b. b.kept.items ≡ []) }
        ensures room { IfOk result (λ b. b.room ≡ room) }
    {
        let kept = Vec::with_capacity(alloc, room)?;
        Ok(Blocks { kept, room })
    }

    pub(crate) fn copy(&self, alloc: Global) -> Result<Self, AllocError>
        ensures kept { IfOk result (λ b. b.kept.items ≡ self.now.kept.items) }
        ensures room { IfOk result (λ b. b.room ≡ self.now.room) }
    {
        let mut kept = Vec::with_capacity(alloc, self.room)?;
        kept.extend_from_slice(&self.kept)?;
        Ok(Blocks {
            kept,
            room: self.room,
        })
    }

    /// What is kept for a block.
    pub(crate) fn get(&self, number: usize) -> Block
        ensures { result ≡ block_numbered self.now.kept.items number }
    {
        if number >= self.kept.len() {
            return Block::NONE;
        }
        self.kept[number]
    }

    /// Whether a block's words were left.
    pub(crate) fn is_left(&self, number: usize) -> bool
        ensures { result ≡ is_some (block_numbered self.now.kept.items number).left }
    {
        self.get(number).left.is_some()
    }

    /// How many blocks were left.
    pub(crate) fn left_count(&self) -> u64 {
        let mut count: u64 = 0;
        for block in &self.kept {
            if block.left.is_some() {
                count = count.saturating_add(1);
            }
        }
        count
    }

    /// Nothing is kept for any block from now on.
    pub(crate) fn clear(&mut self)
        ensures none { self.new.kept.items ≡ [] }
        ensures room { self.new.room ≡ self.old.room }
    {
        self.kept.clear();
    }

    /// Nothing is kept for a block from now on.
    pub(crate) fn forget(&mut self, number: usize)
        ensures kept { (n : ℕ) → block_numbered self.new.kept.items n
            ≡ (if n == number then no_block else block_numbered self.old.kept.items n) }
        ensures room { self.new.room ≡ self.old.room }
    {
        if number < self.kept.len() {
            self.kept[number] = Block::NONE;
        }
    }

    /// There is a place for a block, in which nothing is kept if there was none.
    fn reach(&mut self, number: usize)
        requires { number < self.old.room }
        ensures kept { (n : ℕ) → block_numbered self.new.kept.items n ≡ block_numbered self.old.kept.items n }
        ensures far { number < vec_len self.new.kept }
        ensures room { self.new.room ≡ self.old.room }
    {
        while self.kept.len() <= number {
            self.kept.push(Block::NONE).unwrap();
        }
    }

    /// This is kept for a block from now on.
    pub(crate) fn set(&mut self, number: usize, block: Block)
        requires { number < self.old.room }
        ensures kept { (n : ℕ) → block_numbered self.new.kept.items n
            ≡ (if n == number then block else block_numbered self.old.kept.items n) }
        ensures room { self.new.room ≡ self.old.room }
    {
        self.reach(number);
        self.kept[number] = block;
    }
}
