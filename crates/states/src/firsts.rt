//! When words were first changed since the state became that of a label.
#![tactic(auto)]

ghost use Rattle.std.specs.Prelude.{◌≡◌, ◌≢◌, ◌<◌, ◌≤◌, ℕ, pos, vec_len, IfOk, IsFalse};
ghost use Rattle.states.specs.Remembered.{time_of, is_by, first_since, index_changed};

use crate::blocks::block_words;
use std::alloc::{AllocError, Global};

/// So many times, each before time began.
fn no_times(alloc: Global, count: usize) -> Result<Vec<u64>, AllocError>
    ensures len { IfOk result (λ v. vec_len v ≡ count) }
    ensures none { IfOk result (λ v. (n : ℕ) → time_of v.items n ≡ 0) }
{
    vec![in alloc; 0; count]
}

/// Each of these times is before time began from now on.
fn forget(times: &mut Vec<u64>)
    ensures len { vec_len times.new ≡ vec_len times.old }
    ensures none { (n : ℕ) → time_of times.new.items n ≡ 0 }
{
    for i in 0..times.len() {
        times[i] = 0;
    }
}

/// The time at a place, or 0 if there is none.
#[inline(always)]
fn time_at(times: &[u64], at: usize) -> u64
    ensures { result ≡ time_of times.now at }
{
    if at >= times.len() {
        return 0;
    }
    times[at]
}

/// Whether a first change was made since the state became that of a label, and by a time.
#[inline(always)]
fn is_by(began: u64, time: u64, first: u64) -> bool
    ensures { result ≡ is_by began time first }
{
    began <= first && first <= time
}

/// When the first change was since the state became that of a label, once there is one now. It stays what it was if
/// there was one.
#[inline(always)]
fn first_since(began: u64, first: u64, time: u64) -> u64
    ensures { result ≡ first_since began first time }
{
    if first < began {
        return time;
    }
    first
}

/// When words were first changed since the state became that of a label. A time before that means that they were not.
#[derive(Drop)]
pub(crate) struct Firsts {
    /// For each word when it was first written by itself.
    pub words: Vec<u64>,
    /// For each block of words when these were first left.
    pub blocks: Vec<u64>,
    /// When the last of these changes was.
    pub latest: u64,
    ghost first: { (n : ℕ) → time_of words.items n ≤ latest },
    ghost left: { (n : ℕ) → time_of blocks.items n ≤ latest },
}

impl Firsts {
    /// No word was changed, of this number of words and of blocks.
    pub(crate) fn new(alloc: Global, words: usize, blocks: usize) -> Result<Self, AllocError>
        ensures words { IfOk result (λ f. vec_len f.words ≡ words) }
        ensures blocks { IfOk result (λ f. vec_len f.blocks ≡ blocks) }
        ensures latest { IfOk result (λ f. f.latest ≡ 0) }
    {
        let words = no_times(alloc, words)?;
        let blocks = no_times(alloc, blocks)?;
        Ok(Firsts {
            words,
            blocks,
            latest: 0,
        })
    }

    /// The same times again.
    pub(crate) fn copy(&self, alloc: Global) -> Result<Self, AllocError>
        ensures words { IfOk result (λ f. f.words.items ≡ self.now.words.items) }
        ensures blocks { IfOk result (λ f. f.blocks.items ≡ self.now.blocks.items) }
        ensures count { IfOk result (λ f. vec_len f.words ≡ vec_len self.now.words) }
        ensures number { IfOk result (λ f. vec_len f.blocks ≡ vec_len self.now.blocks) }
        ensures latest { IfOk result (λ f. f.latest ≡ self.now.latest) }
    {
        let words = Vec::from_slice(alloc, &self.words)?;
        let blocks = Vec::from_slice(alloc, &self.blocks)?;
        Ok(Firsts {
            words,
            blocks,
            latest: self.latest,
        })
    }

    /// Whether the word of an index was changed by a time, where the state became that of a label at another.
    pub(crate) fn was_changed(&self, began: u64, index: usize, time: u64) -> bool
        ensures { result ≡ index_changed began self.now.words.items self.now.blocks.items time (pos index) }
    {
        is_by(began, time, time_at(&self.words, index))
            || is_by(began, time, time_at(&self.blocks, index / block_words()))
    }

    /// Whether the word of an index was first changed after a time.
    #[inline(always)]
    pub(crate) fn is_changed_after(&self, index: usize, time: u64) -> bool
        ensures { IsFalse result → (began later : ℕ) → self.now.latest ≤ later
            → index_changed began self.now.words.items self.now.blocks.items later (pos index)
            ≡ index_changed began self.now.words.items self.now.blocks.items time (pos index) }
    {
        time < time_at(&self.words, index) || time < time_at(&self.blocks, index / block_words())
    }

    /// A word is written by itself now, where the state became that of a label when it began.
    pub(crate) fn write(&mut self, index: usize, began: u64, now: u64)
        requires word { index < vec_len self.old.words }
        requires later { self.old.latest ≤ now }
        ensures here { time_of self.new.words.items index
            ≡ first_since began (time_of self.old.words.items index) now }
        ensures others { (n : ℕ) → n ≢ index → time_of self.new.words.items n ≡ time_of self.old.words.items n }
        ensures len { vec_len self.new.words ≡ vec_len self.old.words }
        ensures blocks { self.new.blocks ≡ self.old.blocks }
        ensures latest { self.new.latest ≤ now }
    {
        let first = first_since(began, self.words[index], now);
        self.words[index] = first;
        self.latest = self.latest.max(first);
    }

    /// The words of a block are left now.
    pub(crate) fn leave(&mut self, number: usize, began: u64, now: u64)
        requires block { number < vec_len self.old.blocks }
        requires later { self.old.latest ≤ now }
        ensures here { time_of self.new.blocks.items number
            ≡ first_since began (time_of self.old.blocks.items number) now }
        ensures others { (n : ℕ) → n ≢ number → time_of self.new.blocks.items n ≡ time_of self.old.blocks.items n }
        ensures len { vec_len self.new.blocks ≡ vec_len self.old.blocks }
        ensures words { self.new.words ≡ self.old.words }
        ensures latest { self.new.latest ≤ now }
    {
        let first = first_since(began, self.blocks[number], now);
        self.blocks[number] = first;
        self.latest = self.latest.max(first);
    }

    /// No word was changed from now on. Where no time is later, all are forgotten.
    pub(crate) fn begin(&mut self, now: u64)
        requires { 1 ≤ now }
        ensures words { vec_len self.new.words ≡ vec_len self.old.words }
        ensures blocks { vec_len self.new.blocks ≡ vec_len self.old.blocks }
        ensures latest { self.new.latest < now }
    {
        if now <= self.latest {
            forget(&mut self.words);
            forget(&mut self.blocks);
            self.latest = 0;
        }
    }
}
