//! What is known of the words of a frame.
#![tactic(auto, unfolding(crate::specs::Blocks::HaveRoom))]

ghost use Rattle.std.specs.Prelude.{◌≡◌, ◌≤◌, ◌<◌, ◌≢◌, ◌-◌, ◌*◌, ◌/◌, ℕ, ℤ, pos, ◌+ℤ◌, ◌-ℤ◌, ◌≤ℤ◌, ◌<ℤ◌, ◌⊎◌, ◌^◌};
ghost use Rattle.std.specs.Prelude.{IfOk, IsTrue, MatchOption, negsuc};
ghost use Rattle.std.specs.Prelude.{IsFalse, true, false, SomeIff, sum_by, length, Some, None, vec_len};
ghost use Rattle.std.specs.List.{list_all};
ghost use Rattle.module_format.specs.Contents.{procedure_of};
ghost use Rattle.module_format.specs.Order.{least_word};
ghost use Rattle.states.specs.Blocks.{block_words, HaveRoom, HaveRoom-prop, AreSummed, AreSummed-prop, facts_left};
ghost use Rattle.states.specs.Lookup.{facts_over};
ghost use Rattle.states.specs.Remembered.{HasTimes, HasTimes-prop};
ghost use Rattle.states.specs.Remembering.{AreRemembered, AreRemembered-prop};
ghost use Rattle.states.specs.Rows.{AreApart, LoopFits, IsRow};
ghost use Rattle.states.specs.State.{is_silent, entry_fact, parameter_fact};
ghost use Rattle.states.specs.Sums.{AreSums, AreSums-prop};

use crate::blocks::{Block, Blocks, block_words};
use crate::claims::Claims;
use crate::implication::{holds_constant, says};
use crate::known::{LoopWord, WordFact};
use crate::overlay::Overlay;
use crate::remembered::Remembered;
use crate::row::{row_fact, said_of};
use crate::span::Leaving;
use crate::sums::Sums;
use certificate::Module;
use module_format::{Entry, Fact, ParameterKind, ProcedureRow, Region, Step};
use std::alloc::{AllocError, Global};

/// What is known of a frame's words: what was written since the last label, over the row of that label.
#[derive(Drop)]
pub(crate) struct Frame<'a> {
    /// The word whose index is 0.
    pub(crate) lo: i32,
    pub(crate) row: &'a [Entry],
    pub(crate) overlay: Overlay,
    /// What is kept for blocks of words, so that a span is neither asked nor left word by word.
    pub(crate) by_block: Blocks,
    pub(crate) sums: Sums,
    pub(crate) remembered: Remembered<'a>,
    pub(crate) claims: Claims<'a>,
    ghost apart: { AreApart row.now },
    ghost loops: { ∥ ((k : ℤ) → LoopFits (entry_fact row.now k)) ∥₁ },
    ghost inside: { (k : ℤ) → is_silent (entry_fact row.now k) ≡ false
        → (lo ≤ℤ k) × (k <ℤ (lo +ℤ pos (vec_len overlay.places))) },
    ghost low: { least_word ≤ℤ lo },
    ghost high: { (lo +ℤ pos (vec_len overlay.places)) ≤ℤ pos (2 ^ 31) },
    ghost whole: { HaveRoom (vec_len overlay.places) by_block.room } by { HaveRoom-prop (vec_len overlay.places) by_block.room },
    ghost summed: { AreSummed (facts_left lo by_block.kept.items (facts_over lo row.now overlay.written.items)) lo
        by_block.kept.items } by { AreSummed-prop (facts_left lo by_block.kept.items
            (facts_over lo row.now overlay.written.items)) lo by_block.kept.items },
    ghost added: { AreSums (facts_left lo by_block.kept.items (facts_over lo row.now overlay.written.items)) lo sums } by { AreSums-prop (facts_left lo by_block.kept.items (facts_over lo row.now overlay.written.items)) lo sums },
    ghost timed: { HasTimes (vec_len overlay.places) (vec_len remembered.times) } by { HasTimes-prop (vec_len overlay.places) (vec_len remembered.times) },
    ghost each_timed: { vec_len remembered.firsts.words ≡ vec_len overlay.places },
    ghost compared: { AreRemembered (entry_fact row.now)
        (facts_left lo by_block.kept.items (facts_over lo row.now overlay.written.items))
        lo remembered } by { AreRemembered-prop (entry_fact row.now)
            (facts_left lo by_block.kept.items (facts_over lo row.now overlay.written.items))
            lo remembered },
    ghost alike: { claims.«module».now ≡ remembered.«module».now },
}

impl<'a> Frame<'a> {
    ghost use Rattle.std.specs.Prelude.{◌&&◌};
    ghost use Rattle.states.specs.State.{no_facts, with_fact, procedure_facts};
    ghost use Rattle.states.specs.Below.{says, words_say, entries_hold, is_whole, price};
    ghost use Rattle.states.specs.Lookup.{fact_of_index};
    ghost use Rattle.states.specs.Frames.{frame_facts, over_facts, with_alone, parted, HasRoom};
    ghost use Rattle.states.specs.Blocks.{block_numbered, first_of, leaving_at};
    ghost use Rattle.states.specs.Frames.{HasRoomForAll, SameRoom};

    /// The frame of `room` words from `lo` on, of which nothing is known. It remembers comparisons with the labels of a
    /// module.
    pub(crate) fn new(
        alloc: Global,
        module: &'a Module<'a>,
        lo: i32,
        room: usize,
    ) -> Result<Self, AllocError>
        requires { (lo +ℤ pos room) ≤ℤ pos (2 ^ 31) }
        ensures facts { IfOk result (λ f. frame_facts f ≡ no_facts) }
        ensures room { IfOk result (λ f. (f.lo ≡ lo) × (vec_len f.overlay.places ≡ room)) }
        ensures same { IfOk result (λ f. f.remembered.«module».now ≡ «module».now) }
    {
        Ok(Frame {
            lo,
            row: &[],
            overlay: Overlay::new(alloc, room)?,
            by_block: Blocks::new(alloc, room / block_words())?,
            sums: Sums::new(alloc, room)?,
            remembered: Remembered::new(alloc, module, room)?,
            claims: Claims::new(alloc, module, room / block_words() + 1)?,
        })
    }

    /// The same frame again, of which no comparison is remembered, and no sum but those of blocks.
    pub(crate) fn copy(&self, alloc: Global) -> Result<Self, AllocError>
        ensures facts { IfOk result (λ f. frame_facts f ≡ frame_facts self.now) }
        ensures room { IfOk result (SameRoom self.now) }
    {
        let module = self.remembered.module;
        let room = self.overlay.places.len();
        Ok(Frame {
            lo: self.lo,
            row: self.row,
            overlay: self.overlay.copy(alloc)?,
            by_block: self.by_block.copy(alloc)?,
            sums: Sums::new(alloc, room)?,
            remembered: self.remembered.copy(alloc)?,
            claims: Claims::new(alloc, module, room / block_words() + 1)?,
        })
    }

    /// How many words can be written.
    pub(crate) fn room(&self) -> usize
        ensures { result ≡ vec_len self.now.overlay.places }
    {
        self.overlay.places.len()
    }

    /// The index of a word, unless it comes before the frame.
    #[inline(always)]
    pub(crate) fn index_of(&self, word: i64) -> Option<usize>
        ensures { MatchOption result ((n : ℕ) × (word -ℤ self.now.lo ≡ negsuc n))
            (λ index. word -ℤ self.now.lo ≡ pos index) }
    {
        let lo = i64::from(self.lo);
        if word < lo {
            return None;
        }
        Some(word.abs_diff(lo) as usize)
    }

    /// What was written to a word since the last label.
    pub(crate) fn written(&self, word: i64) -> Option<Fact>
        ensures { result ≡ fact_of_index self.now.overlay.written.items (word -ℤ self.now.lo) }
    {
        let index = self.index_of(word)?;
        self.overlay.get(index)
    }

    /// What was written to a word, or else what the row says of it.
    fn over(&self, word: i64) -> WordFact
        ensures value { result ≡ over_facts self.now word }
        ensures fits { LoopFits result }
    {
        match self.written(word) {
            Some(fact) => WordFact::Alone(fact),
            None => row_fact(self.row, word),
        }
    }

    /// How a word's block was left since it was written, if it was.
    pub(crate) fn leaving(&self, word: i64) -> Option<Leaving>
        ensures { result ≡ leaving_at self.now.by_block.kept.items (word -ℤ self.now.lo) }
    {
        let index = self.index_of(word)?;
        self.by_block.get(index / block_words()).left
    }

    /// What is known of a word.
    #[tactic(auto, unfolding(crate::specs::Blocks::facts_left, crate::specs::Blocks::HaveRoom))]
    fn said(&self, word: i64) -> WordFact
        ensures value { result ≡ frame_facts self.now word }
        ensures fits { LoopFits result }
    {
        match self.leaving(word) {
            Some(leaving) => WordFact::Alone(leaving.left_of(self.over(word).by_itself())),
            None => self.over(word),
        }
    }

    /// What is known of a word. Something is known only of words that can be written.
    pub(crate) fn fact_at(&self, word: i64) -> WordFact
        ensures value { result ≡ frame_facts self.now word }
        ensures fits { LoopFits result }
        ensures room { is_silent result ≡ false → HasRoom self.now word }
    {
        self.said(word)
    }

    /// Each word of a block that was left is written as what is known of it. It is left so still.
    fn settle_words(&mut self, number: usize)
        requires some { (block_numbered self.old.by_block.kept.items number).left ≢ None }
        requires room { number < self.old.by_block.room }
        ensures facts { frame_facts self.new ≡ frame_facts self.old }
        ensures settled { (j : ℕ) → j < block_words → over_facts self.new (first_of self.old.lo number +ℤ pos j)
            ≡ frame_facts self.old (first_of self.old.lo number +ℤ pos j) }
        ensures blocks { self.new.by_block ≡ self.old.by_block }
        ensures room { SameRoom self.old self.new }
    {
        let first = number * block_words();
        for i in 0..block_words() {
            let index = first + i;
            let fact = self.said(self.word_at(index)).by_itself();
            self.overlay.set(index, fact);
        }
    }

    /// What was left of a block's words is written in each of them from now on.
    fn settle(&mut self, number: usize)
        ensures facts { frame_facts self.new ≡ frame_facts self.old }
        ensures none { (block_numbered self.new.by_block.kept.items number).left ≡ None }
        ensures room { SameRoom self.old self.new }
    {
        let Block { sum, left } = self.by_block.get(number);
        if left.is_some() {
            self.settle_words(number);
            self.by_block.set(number, Block { sum, left: None });
        }
    }

    /// The word has this fact from now on, and the others what they had.
    pub(crate) fn place(&mut self, word: i64, fact: Fact)
        requires { HasRoom self.old word }
        ensures facts { frame_facts self.new ≡ with_alone word fact (frame_facts self.old) }
        ensures room { SameRoom self.old self.new }
    {
        let index = word.abs_diff(i64::from(self.lo)) as usize;
        let number = index / block_words();
        self.settle(number);
        self.overlay.set(index, fact);
        self.by_block.forget(number);
        self.sums.write(index);
        self.remembered.place(index);
    }

    /// If the word is this one of a loop, it is what it says by itself from now on.
    pub(crate) fn part(&mut self, word: i64, which: LoopWord)
        ensures facts { frame_facts self.new ≡ parted which word (frame_facts self.old) }
        ensures room { SameRoom self.old self.new }
    {
        let fact = self.fact_at(word);
        if fact.is_loop_word(which) {
            self.place(word, fact.by_itself());
        }
    }

    /// The word has this fact from now on. A loop that loses one of its words leaves what the other says by
    /// itself.
    pub(crate) fn write(&mut self, word: i64, fact: Fact)
        requires { HasRoom self.old word }
        ensures facts { frame_facts self.new ≡ with_fact word fact (frame_facts self.old) }
        ensures room { SameRoom self.old self.new }
    {
        self.part(word - 1, LoopWord::Index);
        self.part(word + 1, LoopWord::Count);
        self.place(word, fact);
    }

    /// The first word after those that can be written.
    pub(crate) fn end(&self) -> i64
        ensures value { result ≡ self.now.lo +ℤ pos (vec_len self.now.overlay.places) }
    {
        i64::from(self.lo) + self.overlay.places.len() as i64
    }

    /// What a label's row says is known from now on, and nothing else.
    pub(crate) fn restart(&mut self, row: &'a [Entry])
        requires { IsRow self.old.lo (vec_len self.old.overlay.places) row.now }
        ensures facts { frame_facts self.new ≡ entry_fact row.now }
        ensures room { SameRoom self.old self.new }
    {
        self.overlay.clear();
        self.by_block.clear();
        self.sums.clear();
        self.remembered.restart();
        self.row = row;
    }

    /// What the words hold when a procedure begins is known from now on, and nothing else.
    pub(crate) fn begin(&mut self, row: &ProcedureRow)
        requires first { HasRoom self.old (pos 0) }
        requires room { HasRoomForAll self.old row.now.parameters.items }
        requires few { length row.now.parameters.items ≤ 64 }
        ensures facts { frame_facts self.new ≡ procedure_facts (procedure_of row.now) }
        ensures room { SameRoom self.old self.new }
    {
        self.restart(&[]);
        let mut rest = row.parameters.as_slice();
        while let Some((last, earlier)) = rest.split_last() {
            let number = earlier.len() as u16;
            self.place(i64::from(last.word), parameter_fact(number, last.kind));
            rest = earlier;
        }
        self.place(0, Fact::ReturnAddress);
    }

    /// The word of an index.
    pub(crate) fn word_at(&self, index: usize) -> i64
        requires { index < vec_len self.now.overlay.places }
        ensures { result ≡ self.now.lo +ℤ pos index }
    {
        i64::from(self.lo) + index as i64
    }

    /// Whether at least what an entry says is known of each of its words, tested word by word.
    pub(crate) fn entry_holds(&self, entry: &Entry) -> bool
        ensures { result ≡ words_say (frame_facts self.now) entry.now entry.now.span }
    {
        let word = i64::from(entry.word);
        for i in 0..entry.span {
            if !says(
                self.fact_at(word + i64::from(i)),
                said_of(entry.fact, i == 0),
            ) {
                return false;
            }
        }
        true
    }

    /// Whether at least what a row wants is known of each word, tested word by word.
    fn each_holds(&self, row: &[Entry]) -> bool
        ensures { result ≡ entries_hold (frame_facts self.now) row.now }
    {
        for entry in row {
            if !self.entry_holds(entry) {
                return false;
            }
        }
        true
    }

    /// Whether both words of a loop come from that loop, or neither does, if the entry is of one.
    #[inline(always)]
    pub(crate) fn is_whole_at(&self, entry: &Entry) -> bool
        ensures { result ≡ is_whole (frame_facts self.now) entry.now }
    {
        match entry.fact {
            Fact::Loop { .. } => {
                let word = i64::from(entry.word);
                self.fact_at(word).is_alone() == self.fact_at(word + 1).is_alone()
            }
            _ => true,
        }
    }

    /// Whether no loop that a row wants is half known.
    #[inline(never)]
    fn is_whole(&self, row: &[Entry]) -> bool
        ensures { result ≡ list_all (is_whole (frame_facts self.now)) row.now }
    {
        for entry in row {
            if !self.is_whole_at(entry) {
                return false;
            }
        }
        true
    }

    /// Whether at least what a row wants is known of each word, and no loop that it wants is half known, tested word by
    /// word.
    pub(crate) fn says_all(&self, row: &[Entry]) -> bool
        requires { AreApart row.now }
        ensures { result ≡ (entries_hold (frame_facts self.now) row.now
            && list_all (is_whole (frame_facts self.now)) row.now) }
    {
        self.each_holds(row) && self.is_whole(row)
    }

    /// What it costs to enter the loop that an entry wants: its weight for each turn but the first, if its words are
    /// constants. `None` if that is no number of 128 bits.
    #[inline(always)]
    pub(crate) fn price(&self, entry: &Entry) -> Option<u128>
        ensures { let paid = price (frame_facts self.now) entry.now in SomeIff result (paid < 2 ^ 128) paid }
    {
        match entry.fact {
            Fact::Loop {
                base,
                count,
                weight,
            } => {
                let word = i64::from(entry.word);
                if !holds_constant(self.fact_at(word), i64::from(base)) {
                    return Some(0);
                }
                if !holds_constant(self.fact_at(word + 1), i64::from(count)) {
                    return Some(0);
                }
                u128::from(weight).checked_mul(u128::from(count.saturating_sub(1)))
            }
            _ => Some(0),
        }
    }

    /// What is left of a number once the loops that a row wants are entered, if the number covers them.
    #[inline(never)]
    pub(crate) fn left_of(&self, number: u128, row: &[Entry]) -> Option<u128>
        ensures { let prices = sum_by (price (frame_facts self.now)) row.now in
            SomeIff result (prices ≤ number) (number - prices) }
    {
        let mut left = number;
        for entry in row {
            if let Fact::Loop { .. } = entry.fact {
                left = left.checked_sub(self.price(entry)?)?;
            }
        }
        Some(left)
    }
}

/// What the word of the parameter with this number holds when the procedure begins.
fn parameter_fact(number: u16, kind: ParameterKind) -> Fact
    ensures { result ≡ parameter_fact number kind }
{
    match kind {
        ParameterKind::Value { lo, hi } => Fact::Number { lo, hi },
        _ => Fact::Pointer {
            region: Region::Parameter(number),
            lo: 0,
            hi: 0,
            step: Step::Word,
        },
    }
}
