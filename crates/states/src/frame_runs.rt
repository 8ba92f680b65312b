//! What is known of the words of a frame, a run at a time, and whether it is what a row wants.
#![tactic(auto, unfolding(crate::specs::Blocks::HaveRoom))]

ghost use Rattle.std.specs.Prelude.{◌≡◌, ◌<◌, ◌^◌, ◌≤ℤ◌, ◌<ℤ◌, ◌+ℤ◌, ◌-ℤ◌, ℤ, pos, List, [], length, IfSome, IsTrue, true};
ghost use Rattle.std.specs.Prelude.{None, sum_by, false};
ghost use Rattle.std.specs.List.{list_all};
ghost use Rattle.module_format.specs.Rows.{Entry as Row};
ghost use Rattle.module_format.specs.Facts.{end_of};
ghost use Rattle.states.specs.Below.{implies, says, words_say, is_whole, price, entries_hold, holds_constant};
ghost use Rattle.states.specs.Blocks.{block_words, first_of, left_fact, fact_left_by, leaving_at};
ghost use Rattle.states.specs.Comparing.{loop_of};
ghost use Rattle.states.specs.Frames.{frame_facts, SameRoom};
ghost use Rattle.states.specs.Rows.{AreApart, LoopFits};
ghost use Rattle.states.specs.Runs.{IsRun, IsAlike, AreAlike, IsPaidEntry, IsPassed};
ghost use Rattle.states.specs.State.{Facts, entry_fact};
ghost use Rattle.states.specs.declared.known.WordFact.TheVariants.{Alone};

use crate::blocks::block_words;
use crate::frame::Frame;
use crate::frame_rows::weight_of;
use crate::implication::{holds_constant, implies, is_exactly, says};
use crate::known::WordFact;
use crate::row::{end_of, loop_of, start_of};
use crate::runs::{Run, run_from, run_near};
use crate::span::{Leaving, is_number};
use crate::sums::Size;
use module_format::{Entry, Fact};

/// What is left of a row that is wanted, and what was paid for the entries before.
#[derive(Clone, Copy)]
struct Passed<'a> {
    rest: &'a [Entry],
    paid: u128,
    /// A place of the label's row that is near to what is left.
    near: usize,
}

/// A block of words, and the first word after it.
#[derive(Clone, Copy)]
struct Place {
    number: usize,
    end: i64,
}

/// Words from one on of each of which this is known.
#[derive(Clone, Copy)]
pub(crate) struct Alike {
    /// The first word after them.
    pub end: i64,
    pub fact: WordFact,
}

/// Words of a block, some of which may have been written.
#[derive(Clone, Copy)]
pub(crate) struct Mixed {
    /// What the label's row says of each, if it is asked.
    pub said: Option<Fact>,
    /// How the block was left.
    pub left: Option<Leaving>,
}

/// What is left of a fact once it was left so, if it was.
fn left_fact(left: Option<Leaving>, said: Fact) -> Fact
    ensures { result ≡ left_fact left said }
{
    match left {
        Some(leaving) => leaving.left_of(said),
        None => said,
    }
}

/// The first word after those that are asked one by one: those of an eighth of a block that ends there, where it may be
/// summed.
fn asked_end(wanted: Fact, word: i64, end: i64) -> i64
    requires { word <ℤ end }
    ensures some { word <ℤ result }
    ensures few { result ≤ℤ end }
{
    let left = word.abs_diff(end) % Size::Group.words() as u64;
    if is_number(wanted) && left > 0 {
        word.saturating_add(left as i64)
    } else {
        end
    }
}

/// Whether all words of a block became one fact.
fn became_one(left: Option<Leaving>) -> bool {
    matches!(left, Some(Leaving::Become(_)))
}

impl Mixed {
    /// Whether what the label's row says is what is wanted, once the block was left so.
    fn is_said(self, wanted: Fact) -> bool
        ensures { IsTrue result → (word : WordFact) → IfSome self.said (λ said. word ≡ Alone said)
            → says (fact_left_by self.left word) (Alone wanted) ≡ true }
    {
        match self.said {
            Some(said) => implies(left_fact(self.left, said), wanted),
            None => false,
        }
    }
}

/// What is paid for an entry of whose words this is known by itself, if it says what the entry wants.
#[inline(always)]
fn paid_by(fact: Fact, entry: &Entry) -> Option<u128>
    ensures { IfSome result (λ paid. (facts : Facts) → IsAlike facts entry.now.word (end_of entry.now) fact
        → IsPaidEntry facts entry.now paid) }
{
    let Some(wanted) = loop_of(entry.fact) else {
        if !implies(fact, entry.fact) {
            return None;
        }
        return Some(0);
    };
    if entry.span != 2 || !is_exactly(fact, i64::from(wanted.base)) {
        return None;
    }
    if !is_exactly(fact, i64::from(wanted.count)) {
        return None;
    }
    let paid = weight_of(wanted)?;
    Some(paid)
}

impl Frame<'_> {
    /// The words of a block from one up to `end` (not included), or some of the first of them, of which the same is
    /// known. The label's row is asked from a place on that may be near.
    fn run_in(&self, number: usize, near: usize, word: i64, end: i64) -> Option<Run>
        requires some { word <ℤ end }
        requires low { first_of self.now.lo number ≤ℤ word }
        requires high { end ≤ℤ (first_of self.now.lo number +ℤ pos block_words) }
        ensures { IfSome result (IsRun (frame_facts self.now) word end) }
    {
        let left = self.by_block.get(number).left;
        if let Some(Leaving::Become(fact)) = left {
            return Some(Run { end, fact, near });
        }
        if self.overlay.is_touched(number) {
            return None;
        }
        let run = run_near(self.row, near, word, end)?;
        Some(Run {
            end: run.end,
            fact: left_fact(left, run.fact),
            near: run.near,
        })
    }

    /// The block of a word that can be written.
    fn block_of(&self, word: i64) -> Option<Place>
        ensures low { IfSome result (λ place. first_of self.now.lo place.number ≤ℤ word) }
        ensures high { IfSome result (λ place. word <ℤ place.end) }
        ensures end { IfSome result
            (λ place. place.end ≡ first_of self.now.lo place.number +ℤ pos block_words) }
    {
        let index = self.index_of(word)?;
        if self.room() <= index {
            return None;
        }
        let size = block_words();
        let number = index / size;
        Some(Place {
            number,
            end: i64::from(self.lo) + (number * size + size) as i64,
        })
    }

    /// The words from one up to `end` (not included), or some of the first of them in its block, of which the same is
    /// known: if no word of the block was written, those of which the label's row says the same, which is asked from a
    /// place on that may be near.
    pub(crate) fn known_run(&self, near: usize, word: i64, end: i64) -> Option<Run>
        requires { word <ℤ end }
        ensures { IfSome result (IsRun (frame_facts self.now) word end) }
    {
        let place = self.block_of(word)?;
        let run = self.run_in(place.number, near, word, end.min(place.end))?;
        Some(run)
    }

    /// The words from one up to `end` (not included), or some of the first of them, of which the same is known, if only
    /// of the first.
    fn alike_from(&self, word: i64, end: i64) -> Alike
        requires some { word <ℤ end }
        requires near { end <ℤ pos (2 ^ 40) }
        ensures alike { AreAlike (frame_facts self.now) word end result }
        ensures fits { LoopFits result.fact }
    {
        match self.known_run(0, word, end) {
            Some(run) => Alike {
                end: run.end,
                fact: WordFact::Alone(run.fact),
            },
            None => Alike {
                end: word + 1,
                fact: self.fact_at(word),
            },
        }
    }

    /// The first word after those from one on, before `end`, that each have this number. Else the word itself. These
    /// are the words of which the same is known as of the first.
    pub(crate) fn constant_until(&self, word: i64, end: i64, number: i64) -> i64
        requires some { word <ℤ end }
        requires near { end <ℤ pos (2 ^ 40) }
        ensures within { result ≤ℤ end }
        ensures each { (k : ℤ) → word ≤ℤ k → k <ℤ result → holds_constant (frame_facts self.now k) number ≡ true }
        ensures none { result ≤ℤ word → holds_constant (frame_facts self.now word) number ≡ false }
    {
        let alike = self.alike_from(word, end);
        if !holds_constant(alike.fact, number) {
            return word;
        }
        alike.end
    }

    /// Whether what is known together of the words from the first up to `end` (not included) says what is wanted of each,
    /// as it may if that is a number.
    fn together_says(&self, wanted: Fact, first: i64, end: i64) -> bool
        ensures { IsTrue result
            → (k : ℤ) → first ≤ℤ k → k <ℤ end → says (frame_facts self.now k) (Alone wanted) ≡ true }
    {
        if end <= first || !is_number(wanted) {
            return false;
        }
        let (Ok(word), Ok(count)) = (i32::try_from(first), u32::try_from(end.abs_diff(first)))
        else {
            return false;
        };
        self.together(word, count).says(wanted)
    }

    /// Whether what is known of a word says what is wanted: what was written, once its block was left so; or what the
    /// label's row says. `is_said`: that says it.
    #[inline(always)]
    fn mixed_says(&self, word: i64, mixed: Mixed, is_said: bool, wanted: Fact) -> bool
        requires left { leaving_at self.now.by_block.kept.items (word -ℤ self.now.lo) ≡ mixed.left }
        requires said { IsTrue is_said
            → says (fact_left_by mixed.left (entry_fact self.now.row.now word)) (Alone wanted) ≡ true }
        ensures { IsTrue result → says (frame_facts self.now word) (Alone wanted) ≡ true }
    {
        match self.written(word) {
            Some(fact) => implies(left_fact(mixed.left, fact), wanted),
            None => is_said,
        }
    }

    /// The first word after those from one on, before `end`, of which what is wanted is known. They are of one block.
    fn past_mixed(&self, mixed: Mixed, wanted: Fact, word: i64, end: i64) -> i64
        requires some { word <ℤ end }
        requires near { end <ℤ pos (2 ^ 40) }
        requires left { (k : ℤ) → word ≤ℤ k → k <ℤ end
            → leaving_at self.now.by_block.kept.items (k -ℤ self.now.lo) ≡ mixed.left }
        requires said { IfSome mixed.said (IsAlike (entry_fact self.now.row.now) word end) }
        ensures within { result ≤ℤ end }
        ensures each { (k : ℤ) → word ≤ℤ k → k <ℤ result → says (frame_facts self.now k) (Alone wanted) ≡ true }
    {
        let is_said = mixed.is_said(wanted);
        let mut next = word;
        while next < end {
            if !self.mixed_says(next, mixed, is_said, wanted) {
                return next;
            }
            next += 1;
        }
        next
    }

    /// The same of words of a block of which one was written. `None`: the first is one of a loop, or the block became
    /// one fact.
    fn past_touched(&self, wanted: Fact, word: i64, end: i64) -> Option<i64>
        requires some { word <ℤ end }
        requires near { end <ℤ pos (2 ^ 40) }
        ensures within { IfSome result (λ next. next ≤ℤ end) }
        ensures each { IfSome result (λ next. (k : ℤ) → word ≤ℤ k → k <ℤ next
            → says (frame_facts self.now k) (Alone wanted) ≡ true) }
    {
        let place = self.block_of(word)?;
        let left = self.by_block.get(place.number).left;
        if !self.overlay.is_touched(place.number) || became_one(left) {
            return None;
        }
        let last = end.min(asked_end(wanted, word, place.end));
        if self.written(word).is_some() {
            let mixed = Mixed { said: None, left };
            return Some(self.past_mixed(mixed, wanted, word, last));
        }
        let run = run_from(self.row, word, last)?;
        let mixed = Mixed {
            said: Some(run.fact),
            left,
        };
        Some(self.past_mixed(mixed, wanted, word, run.end))
    }

    /// The first word after the eighth of a block that begins at a word and ends before `end`, if it was summed and what is
    /// wanted of each of its words is known.
    fn past_group(&self, wanted: Fact, word: i64, end: i64) -> Option<i64>
        requires some { word <ℤ end }
        requires near { end <ℤ pos (2 ^ 40) }
        ensures within { IfSome result (λ next. next ≤ℤ end) }
        ensures each { IfSome result (λ next. (k : ℤ) → word ≤ℤ k → k <ℤ next
            → says (frame_facts self.now k) (Alone wanted) ≡ true) }
    {
        let next = word + Size::Group.words() as i64;
        if end < next {
            return None;
        }
        let all = self.sum_of(Size::Group, word)?;
        if !all.says(wanted) {
            return None;
        }
        Some(next)
    }

    /// The first word after some from one on, before `end`, of which what is wanted is known. Else the word itself.
    fn past_words(&self, wanted: Fact, word: i64, end: i64) -> i64
        requires some { word <ℤ end }
        requires near { end <ℤ pos (2 ^ 40) }
        ensures within { result ≤ℤ end }
        ensures each { (k : ℤ) → word ≤ℤ k → k <ℤ result → says (frame_facts self.now k) (Alone wanted) ≡ true }
    {
        if let Some(next) = self.past_group(wanted, word, end) {
            return next;
        }
        if let Some(next) = self.past_touched(wanted, word, end) {
            return next;
        }
        let alike = self.alike_from(word, end);
        if !says(alike.fact, WordFact::Alone(wanted)) {
            return word;
        }
        alike.end
    }

    /// Whether what is wanted is known of each word from the first up to `end` (not included), asked a run at a time.
    pub(crate) fn runs_say(&self, wanted: Fact, first: i64, end: i64) -> bool
        requires { end <ℤ pos (2 ^ 40) }
        ensures { IsTrue result
            → (k : ℤ) → first ≤ℤ k → k <ℤ end → says (frame_facts self.now k) (Alone wanted) ≡ true }
    {
        let mut word = first;
        while word < end {
            let next = self.past_words(wanted, word, end);
            if next <= word {
                return false;
            }
            word = next;
        }
        true
    }

    /// The same, asked of all of them together first.
    fn words_say(&self, wanted: Fact, first: i64, end: i64) -> bool
        requires { end <ℤ pos (2 ^ 40) }
        ensures { IsTrue result
            → (k : ℤ) → first ≤ℤ k → k <ℤ end → says (frame_facts self.now k) (Alone wanted) ≡ true }
    {
        self.together_says(wanted, first, end) || self.runs_say(wanted, first, end)
    }

    /// What is paid for an entry, if it holds.
    fn entry_cost(&self, entry: &Entry) -> Option<u128>
        ensures { IfSome result (IsPaidEntry (frame_facts self.now) entry.now) }
    {
        if let Some(wanted) = loop_of(entry.fact) {
            let paid = self.loop_paid(entry, wanted)?;
            return Some(paid);
        }
        if !self.words_say(entry.fact, start_of(entry), end_of(entry)) {
            return None;
        }
        Some(0)
    }

    /// What is left once the entries are passed with which a row begins and whose words are of a run that says what
    /// they want.
    fn past_run<'b>(&self, from: &'b [Entry], paid: u128, word: i64, run: Run) -> Passed<'b>
        requires { IsAlike (frame_facts self.now) word run.end run.fact }
        ensures { (row : List Row) → IsPassed (frame_facts self.now) row from.now paid
            → IsPassed (frame_facts self.now) row result.rest.now result.paid }
    {
        let mut rest = from;
        let mut sum = paid;
        while let Some((entry, later)) = rest.split_first() {
            if start_of(entry) < word || run.end < end_of(entry) {
                break;
            }
            let Some(cost) = paid_by(run.fact, entry) else {
                break;
            };
            let Some(next) = sum.checked_add(cost) else {
                break;
            };
            sum = next;
            rest = later;
        }
        Passed {
            rest,
            paid: sum,
            near: run.near,
        }
    }

    /// What is left once the first entry of a row is passed, or more, by the words of which the same is known as of its
    /// first one.
    fn past_known<'b>(&self, near: usize, from: &'b [Entry], paid: u128) -> Option<Passed<'b>>
        ensures passed { IfSome result (λ next.
            (row : List Row) → IsPassed (frame_facts self.now) row from.now paid
            → IsPassed (frame_facts self.now) row next.rest.now next.paid) }
        ensures shorter { IfSome result (λ next. length next.rest.now < length from.now) }
    {
        let (entry, _later) = from.split_first()?;
        let word = start_of(entry);
        let run = self.known_run(near, word, word + block_words() as i64)?;
        let next = self.past_run(from, paid, word, run);
        if next.rest.len() < from.len() {
            return Some(next);
        }
        None
    }

    /// The words of an entry are summed from now on, if it wants no loop.
    fn sum_entry(&mut self, entry: &Entry)
        ensures facts { frame_facts self.new ≡ frame_facts self.old }
        ensures room { SameRoom self.old self.new }
    {
        if loop_of(entry.fact).is_none() {
            self.sum(entry.word, entry.span);
        }
    }

    /// What is left once the first entry of a row is passed by what is known of its words.
    fn past_entry<'b>(&mut self, near: usize, from: &'b [Entry], paid: u128) -> Option<Passed<'b>>
        ensures passed { IfSome result (λ next.
            (row : List Row) → IsPassed (frame_facts self.new) row from.now paid
            → IsPassed (frame_facts self.new) row next.rest.now next.paid) }
        ensures shorter { IfSome result (λ next. length next.rest.now < length from.now) }
        ensures facts { frame_facts self.new ≡ frame_facts self.old }
        ensures room { SameRoom self.old self.new }
    {
        let (entry, later) = from.split_first()?;
        self.sum_entry(entry);
        let sum = paid.checked_add(self.entry_cost(entry)?)?;
        Some(Passed {
            rest: later,
            paid: sum,
            near,
        })
    }

    /// What is left once the first entry of a row is passed, or more.
    fn past_first<'b>(&mut self, near: usize, from: &'b [Entry], paid: u128) -> Option<Passed<'b>>
        ensures passed { IfSome result (λ next.
            (row : List Row) → IsPassed (frame_facts self.new) row from.now paid
            → IsPassed (frame_facts self.new) row next.rest.now next.paid) }
        ensures shorter { IfSome result (λ next. length next.rest.now < length from.now) }
        ensures facts { frame_facts self.new ≡ frame_facts self.old }
        ensures room { SameRoom self.old self.new }
    {
        if let Some(next) = self.past_known(near, from, paid) {
            return Some(next);
        }
        self.past_entry(near, from, paid)
    }

    /// What is paid for the loops that a row wants and that are entered, if each of its entries holds by what is known.
    fn entries_cost(&mut self, row: &[Entry]) -> Option<u128>
        ensures passed { IfSome result (IsPassed (frame_facts self.new) row.now []) }
        ensures facts { frame_facts self.new ≡ frame_facts self.old }
        ensures room { SameRoom self.old self.new }
    {
        let mut rest = row;
        let mut paid = 0;
        let mut near = 0;
        while !rest.is_empty() {
            let next = self.past_first(near, rest, paid)?;
            rest = next.rest;
            paid = next.paid;
            near = next.near;
        }
        Some(paid)
    }

    /// Whether a row is asked a run at a time: too many words were changed to seek each in the row, or more than the row
    /// has entries are in blocks that were left.
    fn asks_runs(&self, row: &[Entry]) -> bool {
        let in_blocks = self
            .by_block
            .left_count()
            .saturating_mul(block_words() as u64);
        (row.len() as u64) < in_blocks || self.asks_each(row)
    }

    /// What is paid for the loops that a row wants and that are entered. At least what the row wants is known of each
    /// word, and no loop that it wants is half known. `None`: one of these fails.
    pub(crate) fn paid(&mut self, row: &[Entry]) -> Option<u128>
        requires { AreApart row.now }
        ensures hold { IfSome result (λ _. entries_hold (frame_facts self.old) row.now ≡ true) }
        ensures whole { IfSome result (λ _. list_all (is_whole (frame_facts self.old)) row.now ≡ true) }
        ensures paid { IfSome result (λ paid. sum_by (price (frame_facts self.old)) row.now ≡ paid) }
        ensures facts { frame_facts self.new ≡ frame_facts self.old }
        ensures room { SameRoom self.old self.new }
    {
        if !self.asks_runs(row) {
            return self.paid_by_rows(row);
        }
        let paid = self.entries_cost(row)?;
        Some(paid)
    }
}
