//! What is known together of spans of words of several sizes. Blocks of words keep theirs themselves.

ghost use Rattle.std.specs.Prelude.{◌≡◌, ◌<◌, ◌≤◌, ◌≢◌, ◌==◌, ◌/◌, ◌^◌, ℕ, ℤ, pos, ◌+ℤ◌, if◌then◌else◌, []};
ghost use Rattle.std.specs.Prelude.{vec_len, vec_capacity, IfOk, IfSome, Some, None};

use crate::span::{Leaving, Together};
use std::alloc::{AllocError, Global};

/// A number of words of which spans are summed.
#[derive(Clone, Copy)]
pub(crate) enum Size {
    /// An eighth of a block.
    Group,
    /// Eight blocks.
    Page,
    /// Eight pages.
    Zone,
}

impl Size {
    ghost use Rattle.states.specs.Sums.{words_of};

    /// How many words a span of the size has.
    pub(crate) fn words(self) -> usize
        ensures value { result ≡ words_of self }
        ensures some { 1 ≤ result }
        ensures few { result ≤ 4096 }
    {
        match self {
            Size::Group => 8,
            Size::Page => 512,
            Size::Zone => 4096,
        }
    }
}

/// What is kept for the spans of a size, by their numbers. The numbers are below a capacity that is set at construction.
/// Nothing is allocated later.
#[derive(Drop)]
pub(crate) struct Layer {
    /// Nothing is kept for the spans after the last of these.
    pub(crate) kept: Vec<Option<Together>>,
    pub(crate) room: usize,
    ghost reserved: { room ≤ vec_capacity kept },
    ghost few: { vec_len kept ≤ room },
}

impl Layer {
    ghost use Rattle.states.specs.Sums.{sum_numbered, sum_after};

    fn new(alloc: Global, room: usize) -> Result<Self, AllocError>
        ensures { IfOk result (λ l. l.kept.items ≡ []) }
    {
        let kept = Vec::with_capacity(alloc, room)?;
        Ok(Layer { kept, room })
    }

    /// What is kept for a span.
    fn get(&self, number: usize) -> Option<Together>
        ensures { result ≡ sum_numbered self.now.kept.items number }
    {
        if number >= self.kept.len() {
            return None;
        }
        self.kept[number]
    }

    /// Nothing is kept for any span from now on.
    fn clear(&mut self)
        ensures { self.new.kept.items ≡ [] }
    {
        self.kept.clear();
    }

    /// Nothing is kept for a span from now on.
    fn forget(&mut self, number: usize)
        ensures { (n : ℕ) → sum_numbered self.new.kept.items n
            ≡ (if n == number then None else sum_numbered self.old.kept.items n) }
    {
        if number < self.kept.len() {
            self.kept[number] = None;
        }
    }

    /// There is a place for a span, in which nothing is kept if there was none.
    fn reach(&mut self, number: usize)
        requires { number < self.old.room }
        ensures kept { (n : ℕ) → sum_numbered self.new.kept.items n ≡ sum_numbered self.old.kept.items n }
        ensures far { number < vec_len self.new.kept }
        ensures room { self.new.room ≡ self.old.room }
    {
        while self.kept.len() <= number {
            self.kept.push(None).unwrap();
        }
    }

    /// This is kept for a span from now on.
    fn set(&mut self, number: usize, sum: Together)
        requires { number < self.old.room }
        ensures { (n : ℕ) → sum_numbered self.new.kept.items n
            ≡ (if n == number then Some sum else sum_numbered self.old.kept.items n) }
    {
        self.reach(number);
        self.kept[number] = Some(sum);
    }

    /// The words of a span are left so: what is kept for it is what follows from what was.
    fn leave(&mut self, number: usize, leaving: Leaving)
        ensures { (n : ℕ) → sum_numbered self.new.kept.items n
            ≡ (if n == number then sum_after (sum_numbered self.old.kept.items n) leaving
            else sum_numbered self.old.kept.items n) }
    {
        if number < self.kept.len()
            && let Some(sum) = self.kept[number]
        {
            self.kept[number] = leaving.sum_left(Some(sum));
        }
    }

    /// So it is of each of the eight spans of a block.
    fn leave_eight(&mut self, block: usize, leaving: Leaving)
        requires { block < 2 ^ 40 }
        ensures inside { (n : ℕ) → n / 8 ≡ block
            → sum_numbered self.new.kept.items n ≡ sum_after (sum_numbered self.old.kept.items n) leaving }
        ensures others { (n : ℕ) → n / 8 ≢ block
            → sum_numbered self.new.kept.items n ≡ sum_numbered self.old.kept.items n }
    {
        for i in 0..8 {
            self.leave(block * 8 + i, leaving);
        }
    }
}

/// The sums of spans of each size but a block's.
#[derive(Drop)]
pub(crate) struct Sums {
    pub(crate) groups: Layer,
    pub(crate) pages: Layer,
    pub(crate) zones: Layer,
}

impl Sums {
    ghost use Rattle.states.specs.Blocks.{block_words, first_of};
    ghost use Rattle.states.specs.Frames.{with_span};
    ghost use Rattle.states.specs.Spans.{together};
    ghost use Rattle.states.specs.State.{Facts};
    ghost use Rattle.states.specs.Sums.{words_of, layer_of, AreSums};

    /// No span of a frame of this number of words is summed.
    pub(crate) fn new(alloc: Global, words: usize) -> Result<Self, AllocError>
        ensures { IfOk result (λ s. (facts : Facts) (lo : ℤ) → AreSums facts lo s) }
    {
        Ok(Sums {
            groups: Layer::new(alloc, words / Size::Group.words())?,
            pages: Layer::new(alloc, words / Size::Page.words())?,
            zones: Layer::new(alloc, words / Size::Zone.words())?,
        })
    }

    /// What is kept for the spans of a size.
    fn layer(&self, size: Size) -> &Layer
        ensures { result.now ≡ layer_of size self.now }
    {
        match size {
            Size::Group => &self.groups,
            Size::Page => &self.pages,
            Size::Zone => &self.zones,
        }
    }

    /// What is known together of the words of the span of a size that begins at an index, if one does and was summed.
    pub(crate) fn sum_at(&self, size: Size, index: usize) -> Option<Together>
        ensures { IfSome result (λ sum. (facts : Facts) (lo : ℤ) → AreSums facts lo self.now
            → sum ≡ together facts (lo +ℤ pos index) (words_of size)) }
    {
        let words = size.words();
        if index % words != 0 {
            return None;
        }
        self.layer(size).get(index / words)
    }

    /// No span is summed any more.
    pub(crate) fn clear(&mut self)
        ensures { (facts : Facts) (lo : ℤ) → AreSums facts lo self.new }
    {
        self.groups.clear();
        self.pages.clear();
        self.zones.clear();
    }

    /// This is kept as the sum of the span of a size that begins at an index, if there is one.
    pub(crate) fn keep(&mut self, size: Size, index: usize, sum: Together)
        ensures { (facts : Facts) (lo : ℤ) → AreSums facts lo self.old
            → sum ≡ together facts (lo +ℤ pos index) (words_of size) → AreSums facts lo self.new }
    {
        let words = size.words();
        let number = index / words;
        if index % words != 0 || number >= self.layer(size).room {
            return;
        }
        match size {
            Size::Group => self.groups.set(number, sum),
            Size::Page => self.pages.set(number, sum),
            Size::Zone => self.zones.set(number, sum),
        }
    }

    /// The word of an index is written: no span that it is in is summed any more.
    pub(crate) fn write(&mut self, index: usize)
        ensures { (facts new : Facts) (lo : ℤ) → AreSums facts lo self.old
            → ((j : ℕ) → j ≢ index → new (lo +ℤ pos j) ≡ facts (lo +ℤ pos j)) → AreSums new lo self.new }
    {
        self.groups.forget(index / 8);
        self.pages.forget(index / 512);
        self.zones.forget(index / 4096);
    }

    /// The words of a block are left so: its groups are summed still where that follows, and no larger span that it is
    /// in.
    pub(crate) fn leave(&mut self, block: usize, leaving: Leaving)
        requires { block < 2 ^ 40 }
        ensures { (facts : Facts) (lo : ℤ) → AreSums facts lo self.old
            → AreSums (with_span (first_of lo block) block_words leaving facts) lo self.new }
    {
        self.groups.leave_eight(block, leaving);
        self.pages.forget(block / 8);
        self.zones.forget(block / 64);
    }
}
