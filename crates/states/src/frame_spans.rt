//! Spans of a frame's words: what is known of them together, and what is left of each.
#![tactic(auto, unfolding(crate::specs::Blocks::HaveRoom))]

ghost use Rattle.std.specs.Prelude.{◌≡◌, ◌≤◌, ◌<◌, ◌^◌, ℕ, ℤ, pos, ◌+ℤ◌, ◌≤ℤ◌, ◌<ℤ◌, false, IfSome, IsFalse};
ghost use Rattle.states.specs.Blocks.{block_words, first_of, is_number};
ghost use Rattle.states.specs.Frames.{frame_facts, with_span, SameRoom, HasRoom, HasRoomForSpan};
ghost use Rattle.states.specs.Spans.{together, on_span};
ghost use Rattle.states.specs.State.{by_itself, changed};

use crate::blocks::{Block, block_words};
use crate::frame::Frame;
use crate::frame_sums::Piece;
use crate::known::LoopWord;
use crate::span::{Leaving, Together, is_number};
use crate::sums::Size;
use module_format::Fact;

impl Frame<'_> {
    /// The number of the block that begins at a word, if one does.
    pub(crate) fn block_from(&self, word: i64) -> Option<usize>
        ensures { IfSome result (λ number. (first_of self.now.lo number ≡ word) × (number < self.now.by_block.room)) }
    {
        let index = self.index_of(word)?;
        let size = block_words();
        if index % size != 0 || index / size >= self.by_block.room {
            return None;
        }
        Some(index / size)
    }

    /// What is known together of the words of the block that begins at a word, if one does and was summed.
    pub(crate) fn sum_from(&self, word: i64) -> Option<Together>
        ensures { IfSome result (λ sum. sum ≡ together (frame_facts self.now) word block_words) }
    {
        let number = self.block_from(word)?;
        self.by_block.get(number).sum
    }

    /// The first of `most` words from a word on: those of the longest span that begins there and was summed, or some of
    /// which the same is known, else one.
    fn piece(&self, word: i64, most: u32) -> Piece
        requires some { 1 ≤ most }
        requires near { word <ℤ pos (2 ^ 40) }
        ensures some { 1 ≤ result.count }
        ensures few { result.count ≤ most }
        ensures all { result.all ≡ together (frame_facts self.now) word result.count }
    {
        if let Some(piece) = self.summed_piece(Size::Zone, word, most) {
            return piece;
        }
        if let Some(piece) = self.summed_piece(Size::Page, word, most) {
            return piece;
        }
        let size = block_words() as u32;
        if size <= most {
            if let Some(all) = self.sum_from(word) {
                return Piece { count: size, all };
            }
        }
        if let Some(piece) = self.summed_piece(Size::Group, word, most) {
            return piece;
        }
        if let Some(piece) = self.known_piece(word, most) {
            return piece;
        }
        Piece {
            count: 1,
            all: Together::of_none().with(self.fact_at(word)),
        }
    }

    /// What is known of `count` words from `first` on together. Words that cannot be written are not looked at: nothing
    /// is known of them. A span that was summed is one step.
    pub(crate) fn together(&self, first: i32, count: u32) -> Together
        ensures { result ≡ together (frame_facts self.now) first count }
    {
        let before = words_before(first, count, i64::from(self.lo));
        let end = words_before(first, count, self.end());
        let mut all = Together::of_none().with_silent(before);
        let mut done = before;
        while done < end {
            let piece = self.piece(i64::from(first) + i64::from(done), end - done);
            all = all.joined(piece.all);
            done += piece.count;
        }
        all.with_silent(count - end)
    }

    /// The block that begins at a word is summed from now on.
    pub(crate) fn sum_block(&mut self, number: usize, word: i32)
        requires room { number < self.old.by_block.room }
        requires begins { first_of self.old.lo number ≡ word }
        ensures facts { frame_facts self.new ≡ frame_facts self.old }
        ensures room { SameRoom self.old self.new }
        ensures blocks { self.new.by_block.room ≡ self.old.by_block.room }
    {
        if self.by_block.get(number).sum.is_none() {
            let all = self.together(word, block_words() as u32);
            let left = self.by_block.get(number).left;
            let sum = Some(all);
            self.by_block.set(number, Block { sum, left });
        }
    }

    /// A block that is to be widened is summed before, so that its sum is known after that too.
    fn sum_widened(&mut self, number: usize, word: i32, leaving: Leaving)
        requires room { number < self.old.by_block.room }
        requires begins { first_of self.old.lo number ≡ word }
        ensures facts { frame_facts self.new ≡ frame_facts self.old }
        ensures room { SameRoom self.old self.new }
        ensures blocks { self.new.by_block.room ≡ self.old.by_block.room }
    {
        if let Leaving::Widen { .. } = leaving {
            self.sum_whole(number, word);
        }
    }

    /// Whether one of a block's words is a number by itself.
    fn has_number(&self, number: usize) -> bool
        requires { number < self.now.by_block.room }
        ensures { IsFalse result → (j : ℕ) → j < block_words
            → is_number (by_itself (frame_facts self.now (first_of self.now.lo number +ℤ pos j))) ≡ false }
    {
        let first = number * block_words();
        for i in 0..block_words() {
            let fact = self.fact_at(self.word_at(first + i)).by_itself();
            if is_number(fact) {
                return true;
            }
        }
        false
    }

    /// How a block that is left so is left: if all its words are known to become one fact, it is that fact.
    fn block_leaving(&self, number: usize, leaving: Leaving) -> Leaving
        requires { number < self.now.by_block.room }
        ensures { let first = first_of self.now.lo number in
            with_span first block_words result (frame_facts self.now)
            ≡ with_span first block_words leaving (frame_facts self.now) }
    {
        let Leaving::Widen { .. } = leaving else {
            return leaving;
        };
        let Block { sum, left } = self.by_block.get(number);
        if let Some(before) = left
            && let Leaving::Become(said) = before
        {
            return Leaving::Become(leaving.left_of(said));
        }
        if may_lack_numbers(sum) && !self.has_number(number) {
            return Leaving::Become(Fact::Unknown);
        }
        leaving
    }

    /// The words of a block are left so, and the others what they are.
    fn leave_block(&mut self, number: usize, leaving: Leaving)
        requires { number < self.old.by_block.room }
        ensures facts { frame_facts self.new
            ≡ with_span (first_of self.old.lo number) block_words leaving (frame_facts self.old) }
        ensures room { SameRoom self.old self.new }
    {
        let Block { sum, left } = self.by_block.get(number);
        let block = Block {
            sum: leaving.sum_left(sum),
            left: Some(leaving.after(left)),
        };
        self.by_block.set(number, block);
        self.remembered.leave(number, leaving);
        self.sums.leave(number, leaving);
    }

    /// The words of the block that begins at a word are left so, and the others what they are.
    fn leave_whole(&mut self, number: usize, word: i32, leaving: Leaving)
        requires room { number < self.old.by_block.room }
        requires begins { first_of self.old.lo number ≡ word }
        ensures facts { frame_facts self.new ≡ with_span word block_words leaving (frame_facts self.old) }
        ensures room { SameRoom self.old self.new }
    {
        self.sum_widened(number, word, leaving);
        let leaving = self.block_leaving(number, leaving);
        self.leave_block(number, leaving);
    }

    /// A word is left so, and the others what they are.
    fn leave_word(&mut self, word: i64, leaving: Leaving)
        requires { HasRoom self.old word }
        ensures facts { frame_facts self.new ≡ with_span word 1 leaving (frame_facts self.old) }
        ensures room { SameRoom self.old self.new }
    {
        let said = self.fact_at(word).by_itself();
        self.place(word, leaving.left_of(said));
    }

    /// The first of `most` words from a word on are left so, those of the block that begins there or else one, and the
    /// others stay what they are. Returns how many.
    fn leave_some(&mut self, word: i64, most: u32, leaving: Leaving) -> u32
        requires some { 1 ≤ most }
        requires room { HasRoom self.old word }
        ensures some { 1 ≤ result }
        ensures few { result ≤ most }
        ensures facts { frame_facts self.new ≡ with_span word result leaving (frame_facts self.old) }
        ensures room { SameRoom self.old self.new }
    {
        let size = block_words() as u32;
        if size <= most {
            if let Some(number) = self.block_from(word) {
                self.leave_whole(number, word as i32, leaving);
                return size;
            }
        }
        self.leave_word(word, leaving);
        1
    }

    /// Each of `count` words from `first` on is left so, and the others stay what they are. A block is one step.
    fn leave(&mut self, first: i32, count: u32, leaving: Leaving)
        requires { HasRoomForSpan self.old first count }
        ensures facts { frame_facts self.new ≡ with_span first count leaving (frame_facts self.old) }
        ensures room { SameRoom self.old self.new }
    {
        let mut done = 0;
        while done < count {
            let word = i64::from(first) + i64::from(done);
            done += self.leave_some(word, count - done, leaving);
        }
    }

    /// Each of `count` words from `first` on, at least one, is left so from now on. A loop that loses one of its words
    /// leaves what the other says by itself.
    pub(crate) fn change_span(&mut self, first: i32, count: u32, leaving: Leaving)
        requires room { HasRoomForSpan self.old first count }
        requires some { 0 < count }
        ensures facts { frame_facts self.new ≡ changed (on_span first count leaving) (frame_facts self.old) }
        ensures room { SameRoom self.old self.new }
    {
        let start = i64::from(first);
        self.part(start - 1, LoopWord::Index);
        self.part(start + i64::from(count), LoopWord::Count);
        self.leave(first, count, leaving);
    }
}

/// How many of `count` words from `first` on come before a word.
pub(crate) fn words_before(first: i32, count: u32, word: i64) -> u32
    ensures few { result ≤ count }
    ensures before { (j : ℕ) → j < result → (first +ℤ pos j) <ℤ word }
    ensures behind { (j : ℕ) → result ≤ j → j < count → word ≤ℤ (first +ℤ pos j) }
{
    let start = i64::from(first);
    if word <= start {
        return 0;
    }
    word.abs_diff(start).min(u64::from(count)) as u32
}

/// Whether there may be no number among the words of which this is known together, if they were summed.
fn may_lack_numbers(sum: Option<Together>) -> bool {
    match sum {
        Some(sum) => sum.is_unbounded(),
        None => true,
    }
}
