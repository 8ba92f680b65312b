//! The sums of spans of a frame's words, of which sums of longer ones are made.
#![tactic(auto, unfolding(crate::specs::Blocks::HaveRoom))]

ghost use Rattle.std.specs.Prelude.{◌≡◌, ◌≤◌, ◌<◌, ◌^◌, ◌<ℤ◌, pos, IfSome, IsTrue};
ghost use Rattle.states.specs.Blocks.{first_of};
ghost use Rattle.states.specs.Frames.{frame_facts, SameRoom};
ghost use Rattle.states.specs.Spans.{together};
ghost use Rattle.states.specs.Sums.{words_of};
ghost use Rattle.states.specs.declared.sums.Size.TheVariants.{Group};

use crate::blocks::block_words;
use crate::frame::Frame;
use crate::frame_spans::words_before;
use crate::span::Together;
use crate::sums::Size;

/// Some words, and what is known of them together.
#[derive(Clone, Copy)]
pub(crate) struct Piece {
    pub count: u32,
    pub all: Together,
}

/// Whether a span of a size begins at an index, and has at most `most` words.
fn begins(size: Size, index: usize, most: u32) -> bool
    ensures { IsTrue result → words_of size ≤ most }
{
    let words = size.words();
    words <= most as usize && index % words == 0
}

impl Frame<'_> {
    /// What is known together of the words of the span of a size that begins at a word, if one does and was summed.
    pub(crate) fn sum_of(&self, size: Size, word: i64) -> Option<Together>
        ensures { IfSome result (λ sum. sum ≡ together (frame_facts self.now) word (words_of size)) }
    {
        let index = self.index_of(word)?;
        let sum = self.sums.sum_at(size, index)?;
        Some(sum)
    }

    /// The words of the span of a size that begins at a word, if it has at most `most` words and was summed.
    pub(crate) fn summed_piece(&self, size: Size, word: i64, most: u32) -> Option<Piece>
        ensures some { IfSome result (λ piece. 1 ≤ piece.count) }
        ensures few { IfSome result (λ piece. piece.count ≤ most) }
        ensures all { IfSome result (λ piece. piece.all ≡ together (frame_facts self.now) word piece.count) }
    {
        let count = size.words() as u32;
        if most < count {
            return None;
        }
        let all = self.sum_of(size, word)?;
        Some(Piece { count, all })
    }

    /// The first of `most` words from a word on, or some of the first of them, of which the same is known.
    pub(crate) fn known_piece(&self, word: i64, most: u32) -> Option<Piece>
        requires some { 1 ≤ most }
        requires near { word <ℤ pos (2 ^ 40) }
        ensures some { IfSome result (λ piece. 1 ≤ piece.count) }
        ensures few { IfSome result (λ piece. piece.count ≤ most) }
        ensures all { IfSome result (λ piece. piece.all ≡ together (frame_facts self.now) word piece.count) }
    {
        let run = self.known_run(0, word, word + i64::from(most))?;
        Some(Piece {
            count: run.end.abs_diff(word) as u32,
            all: Together::of_fact(run.fact),
        })
    }

    /// The span of a size that begins at an index is summed from now on, if one does.
    fn keep_sum(&mut self, size: Size, index: usize)
        ensures facts { frame_facts self.new ≡ frame_facts self.old }
        ensures room { SameRoom self.old self.new }
        ensures blocks { self.new.by_block ≡ self.old.by_block }
    {
        if self.room() <= index || self.sums.sum_at(size, index).is_some() {
            return;
        }
        let word = self.word_at(index) as i32;
        let all = self.together(word, size.words() as u32);
        self.sums.keep(size, index, all);
    }

    /// The eighths of a block are summed from now on.
    fn sum_groups(&mut self, number: usize)
        requires { number < self.old.by_block.room }
        ensures facts { frame_facts self.new ≡ frame_facts self.old }
        ensures room { SameRoom self.old self.new }
        ensures blocks { self.new.by_block ≡ self.old.by_block }
    {
        let first = number * block_words();
        for i in 0..8 {
            self.keep_sum(Size::Group, first + 8 * i);
        }
    }

    /// The block that begins at a word is summed from now on: by its eighths, if one of its words may have been written.
    pub(crate) fn sum_whole(&mut self, number: usize, word: i32)
        requires room { number < self.old.by_block.room }
        requires begins { first_of self.old.lo number ≡ word }
        ensures facts { frame_facts self.new ≡ frame_facts self.old }
        ensures room { SameRoom self.old self.new }
        ensures blocks { self.new.by_block.room ≡ self.old.by_block.room }
    {
        if self.by_block.get(number).sum.is_none() {
            if self.overlay.is_touched(number) {
                self.sum_groups(number);
            }
            self.sum_block(number, word);
        }
    }

    /// The block that begins at an index is summed from now on, if one does.
    pub(crate) fn sum_block_at(&mut self, index: usize)
        ensures facts { frame_facts self.new ≡ frame_facts self.old }
        ensures room { SameRoom self.old self.new }
    {
        if self.room() <= index {
            return;
        }
        let word = self.word_at(index);
        if let Some(number) = self.block_from(word) {
            self.sum_whole(number, word as i32);
        }
    }

    /// The page that begins at an index is summed from now on, by its blocks.
    fn sum_page(&mut self, index: usize)
        ensures facts { frame_facts self.new ≡ frame_facts self.old }
        ensures room { SameRoom self.old self.new }
    {
        if self.room() <= index || self.sums.sum_at(Size::Page, index).is_some() {
            return;
        }
        for i in 0..8 {
            self.sum_block_at(index + block_words() * i);
        }
        self.keep_sum(Size::Page, index);
    }

    /// The zone that begins at an index is summed from now on, by its pages.
    fn sum_zone(&mut self, index: usize)
        ensures facts { frame_facts self.new ≡ frame_facts self.old }
        ensures room { SameRoom self.old self.new }
    {
        if self.room() <= index || self.sums.sum_at(Size::Zone, index).is_some() {
            return;
        }
        for i in 0..8 {
            self.sum_page(index + Size::Page.words() * i);
        }
        self.keep_sum(Size::Zone, index);
    }

    /// How many of `most` words from an index on are some of which the same is known, as far as one step tells.
    fn alike_count(&self, index: usize, most: u32) -> u32
        requires { 1 ≤ most }
        ensures { result ≤ most }
    {
        if self.room() <= index {
            return 0;
        }
        let word = self.word_at(index);
        match self.known_run(0, word, word + i64::from(most)) {
            Some(run) => run.end.abs_diff(word) as u32,
            None => 0,
        }
    }

    /// Sums the group that begins at an index from now on, if it does not begin words of which the same is known. Returns
    /// how many words these are, or those of a group.
    fn sum_group(&mut self, index: usize, most: u32) -> u32
        requires { words_of Group ≤ most }
        ensures some { 1 ≤ result }
        ensures few { result ≤ most }
        ensures facts { frame_facts self.new ≡ frame_facts self.old }
        ensures room { SameRoom self.old self.new }
    {
        let size = Size::Group.words() as u32;
        if self.sums.sum_at(Size::Group, index).is_some() {
            return size;
        }
        let alike = self.alike_count(index, most);
        if size <= alike {
            return alike;
        }
        self.keep_sum(Size::Group, index);
        size
    }

    /// Sums the longest span that begins at an index and has at most `most` words, from now on. Returns how many words
    /// it has, or one if there is none.
    fn sum_some(&mut self, index: usize, most: u32) -> u32
        requires { 1 ≤ most }
        ensures some { 1 ≤ result }
        ensures few { result ≤ most }
        ensures facts { frame_facts self.new ≡ frame_facts self.old }
        ensures room { SameRoom self.old self.new }
    {
        if begins(Size::Zone, index, most) {
            self.sum_zone(index);
            return Size::Zone.words() as u32;
        }
        if begins(Size::Page, index, most) {
            self.sum_page(index);
            return Size::Page.words() as u32;
        }
        let size = block_words();
        if size <= most as usize && index % size == 0 {
            self.sum_block_at(index);
            return size as u32;
        }
        if begins(Size::Group, index, most) {
            return self.sum_group(index, most);
        }
        1
    }

    /// The spans within `count` words from `first` on are summed from now on, the longest and those that they are made
    /// of.
    pub(crate) fn sum(&mut self, first: i32, count: u32)
        ensures facts { frame_facts self.new ≡ frame_facts self.old }
        ensures room { SameRoom self.old self.new }
    {
        let end = words_before(first, count, self.end());
        let mut done = words_before(first, count, i64::from(self.lo));
        while done < end {
            let word = i64::from(first) + i64::from(done);
            let index = word.abs_diff(i64::from(self.lo)) as usize;
            done += self.sum_some(index, end - done);
        }
    }
}
