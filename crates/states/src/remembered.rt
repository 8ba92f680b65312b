//! What is remembered of comparisons with labels, and when words were last changed.
#![tactic(auto, unfolding(crate::specs::Remembered::HasTimes))]

ghost use Rattle.std.specs.Prelude.{◌≡◌, ◌<◌, ◌≤◌, ◌/◌, ◌⊎◌, ◌^◌, ℕ, vec_len, IfOk};
ghost use Rattle.states.specs.Blocks.{block_words};
ghost use Rattle.states.specs.Remembered.{never, compared_at, time_of, changes_of, leaving_since, HasTimes, HasTimes-prop};

use crate::blocks::block_words;
use crate::firsts::Firsts;
use crate::span::Leaving;
use certificate::Module;
use std::alloc::{AllocError, Global};

/// A comparison of the state with the label of a number.
#[derive(Clone, Copy)]
pub(crate) struct Compared {
    /// When it was made, or 0 if it was not.
    pub time: u64,
    /// What was paid for the loops that were entered.
    pub paid: u64,
    /// The label wants no loop.
    pub is_plain: bool,
}

impl Compared {
    /// No comparison.
    const NEVER: Compared = Compared {
        time: 0,
        paid: 0,
        is_plain: false,
    };
}

/// How the words of a block were changed.
#[derive(Clone, Copy)]
pub(crate) struct Changes {
    /// When one of them was last written by itself, or all became one fact.
    pub written: u64,
    /// How all of them were left since then, if they were: widened by a range. What was kept before the state became
    /// that of a label means nothing.
    pub left: Option<Leaving>,
}

impl Changes {
    /// Nothing is kept.
    const NONE: Changes = Changes {
        written: 0,
        left: None,
    };

    /// All words were written when time began.
    const FIRST: Changes = Changes {
        written: 1,
        left: None,
    };
}

/// So many times, each when time begins.
fn first_times(alloc: Global, count: usize) -> Result<Vec<u64>, AllocError>
    ensures len { IfOk result (λ v. vec_len v ≡ count) }
    ensures early { IfOk result (λ v. (n : ℕ) → time_of v.items n ≤ 1) }
    ensures some { IfOk result (λ v. (n : ℕ) → n < count → 1 ≤ time_of v.items n) }
{
    vec![in alloc; 1; count]
}

/// What is kept of so many blocks when time begins.
fn first_changes(alloc: Global, count: usize) -> Result<Vec<Changes>, AllocError>
    ensures len { IfOk result (λ v. vec_len v ≡ count) }
    ensures written { IfOk result (λ v. (n : ℕ) → n < count → 1 ≤ (changes_of v.items n).written) }
{
    vec![in alloc; Changes::FIRST; count]
}

/// No comparison with each of so many labels.
fn none_compared(alloc: Global, count: usize) -> Result<Vec<Compared>, AllocError>
    ensures { IfOk result (λ v. (at : ℕ) → compared_at v.items at ≡ never) }
{
    vec![in alloc; Compared::NEVER; count]
}

/// The last comparison with each label, and when words were last changed. All that it needs is
/// allocated when it is made.
#[derive(Drop)]
pub(crate) struct Remembered<'a> {
    pub module: &'a Module<'a>,
    /// For each block of words when one of them was last changed.
    pub times: Vec<u64>,
    pub firsts: Firsts,
    pub by_block: Vec<Changes>,
    /// When the last change was.
    pub time: u64,
    /// When the state became that of a label. What was compared before means nothing.
    pub began: u64,
    pub compared: Vec<Compared>,
    ghost begun: { 1 ≤ began },
    ghost order: { began ≤ time },
    ghost changed: { (n : ℕ) → time_of times.items n ≤ time },
    ghost past: { (at : ℕ) → (compared_at compared.items at).time ≤ time },
    ghost alike: { vec_len by_block ≡ vec_len times },
    ghost each: { (n : ℕ) → n < vec_len times → 1 ≤ time_of times.items n },
    ghost each_written: { (n : ℕ) → n < vec_len times → 1 ≤ (changes_of by_block.items n).written },
    ghost each_left: { vec_len firsts.blocks ≡ vec_len times },
    ghost early: { firsts.latest ≤ time },
    ghost timed: { HasTimes (vec_len firsts.words) (vec_len times) } by { HasTimes-prop (vec_len firsts.words) (vec_len times) },
}

impl<'a> Remembered<'a> {
    ghost use Rattle.states.specs.Remembering.{IsKept, IsPlaced, IsLeftSo, IsPut, IsCopy};

    /// Nothing is remembered, of a frame with this number of words.
    pub(crate) fn new(
        alloc: Global,
        module: &'a Module<'a>,
        words: usize,
    ) -> Result<Self, AllocError>
        requires { words < 2 ^ 40 }
        ensures same { IfOk result (λ r. r.«module».now ≡ «module».now) }
        ensures words { IfOk result (λ r. vec_len r.firsts.words ≡ words) }
        ensures none { IfOk result (λ r. (at : ℕ) → (compared_at r.compared.items at).time < r.began) }
        ensures began { IfOk result (λ r. r.time ≤ r.began) }
        ensures firsts { IfOk result (λ r. (n : ℕ) → time_of r.firsts.words.items n < r.began) }
        ensures lefts { IfOk result (λ r. (n : ℕ) → time_of r.firsts.blocks.items n < r.began) }
    {
        let blocks = words / block_words() + 1;
        let times = first_times(alloc, blocks)?;
        let firsts = Firsts::new(alloc, words, blocks)?;
        let by_block = first_changes(alloc, blocks)?;
        let compared = none_compared(alloc, module.tables().labels.len())?;
        Ok(Remembered {
            module,
            times,
            firsts,
            by_block,
            time: 1,
            began: 1,
            compared,
        })
    }

    /// The same again, but for the comparisons: there is none.
    pub(crate) fn copy(&self, alloc: Global) -> Result<Self, AllocError>
        ensures { IfOk result (λ r. IsCopy self.now r) }
    {
        let times = Vec::from_slice(alloc, &self.times)?;
        let firsts = self.firsts.copy(alloc)?;
        let by_block = Vec::from_slice(alloc, &self.by_block)?;
        let compared = none_compared(alloc, self.compared.len())?;
        Ok(Remembered {
            module: self.module,
            times,
            firsts,
            by_block,
            time: self.time,
            began: self.began,
            compared,
        })
    }

    /// The last comparison with the label of a number.
    pub(crate) fn at(&self, label: usize) -> Compared
        ensures { result ≡ compared_at self.now.compared.items label }
    {
        if label >= self.compared.len() {
            return Compared::NEVER;
        }
        self.compared[label]
    }

    /// When a block of words was last changed.
    pub(crate) fn time_of(&self, number: usize) -> u64
        ensures { result ≡ time_of self.now.times.items number }
    {
        if number >= self.times.len() {
            return 0;
        }
        self.times[number]
    }

    /// How the words of a block were changed.
    pub(crate) fn changes(&self, number: usize) -> Changes
        ensures { result ≡ changes_of self.now.by_block.items number }
    {
        if number >= self.by_block.len() {
            return Changes::NONE;
        }
        self.by_block[number]
    }

    /// How all words of a block were left since one was last written, and since the state became that of a label.
    pub(crate) fn range(&self, number: usize) -> Option<Leaving>
        ensures { result ≡ leaving_since self.now.began (time_of self.now.times.items number)
            (changes_of self.now.by_block.items number) }
    {
        if self.time_of(number) < self.began {
            return None;
        }
        self.changes(number).left
    }

    /// What is changed from now on is later than all comparisons. If times run out, these are forgotten.
    fn tick(&mut self)
        ensures kept { IsKept self.old self.new }
        ensures times { self.new.times ≡ self.old.times }
        ensures firsts { self.new.firsts ≡ self.old.firsts }
        ensures blocks { self.new.by_block ≡ self.old.by_block }
        ensures began { self.new.began ≡ self.old.began }
        ensures time { self.old.time ≤ self.new.time }
        ensures later { (at : ℕ) → (compared_at self.new.compared.items at).time < self.new.time }
    {
        match self.time.checked_add(1) {
            Some(time) => self.time = time,
            None => self.compared.clear(),
        }
    }

    /// The word of an index, which is one of this block, is written by itself.
    fn write(&mut self, index: usize, number: usize)
        requires word { index < vec_len self.old.firsts.words }
        requires block { number < vec_len self.old.times }
        ensures { IsPlaced index number self.old self.new }
    {
        self.tick();
        self.times[number] = self.time;
        self.firsts.write(index, self.began, self.time);
        self.by_block[number] = Changes {
            written: self.time,
            left: None,
        };
    }

    /// The word of an index is written by itself.
    pub(crate) fn place(&mut self, index: usize)
        requires { index < vec_len self.old.firsts.words }
        ensures { IsPlaced index (index / block_words) self.old self.new }
    {
        self.write(index, index / block_words());
    }

    /// All words of a block are left so.
    pub(crate) fn leave(&mut self, number: usize, leaving: Leaving)
        requires { number < vec_len self.old.times }
        ensures { IsLeftSo number leaving self.old self.new }
    {
        let left = leaving.after(self.range(number));
        let written = self.changes(number).written;
        self.tick();
        self.times[number] = self.time;
        self.firsts.leave(number, self.began, self.time);
        self.by_block[number] = if leaving.is_widening() {
            Changes {
                written,
                left: Some(left),
            }
        } else {
            Changes {
                written: self.time,
                left: None,
            }
        };
    }

    /// The state becomes that of a label: what was compared means nothing from now on.
    pub(crate) fn restart(&mut self)
        ensures kept { IsKept self.old self.new }
        ensures none { (at : ℕ) → (compared_at self.new.compared.items at).time < self.new.began }
        ensures began { self.new.time ≤ self.new.began }
        ensures firsts { (n : ℕ) → time_of self.new.firsts.words.items n < self.new.began }
        ensures lefts { (n : ℕ) → time_of self.new.firsts.blocks.items n < self.new.began }
    {
        self.tick();
        self.firsts.begin(self.time);
        self.began = self.time;
    }

    /// The state was compared with the label of a number, and this was paid.
    pub(crate) fn put(&mut self, label: usize, paid: u64, is_plain: bool)
        ensures put { IsPut label paid is_plain self.old self.new }
        ensures len { vec_len self.new.times ≡ vec_len self.old.times }
        ensures words { vec_len self.new.firsts.words ≡ vec_len self.old.firsts.words }
    {
        if label < self.compared.len() {
            self.compared[label] = Compared {
                time: self.time,
                paid,
                is_plain,
            };
        }
    }
}
