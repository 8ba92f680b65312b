//! Whether a frame says what a row wants, by one pass over the entries of both. A pass that fails decides nothing.
#![tactic(auto, unfolding(crate::specs::Blocks::HaveRoom))]

ghost use Rattle.std.specs.Prelude.{◌≡◌, ◌-◌, ◌*◌, ◌<◌, ◌≤◌, ℕ, pos, ◌+ℤ◌, ◌<ℤ◌, ◌^◌, List, length, drop, get_or};
ghost use Rattle.std.specs.Prelude.{IsTrue, IfSome, Some, true, sum_by};
ghost use Rattle.std.specs.List.{list_all};
ghost use Rattle.module_format.specs.Rows.{Entry as Row};
ghost use Rattle.states.specs.Below.{says, entries_hold, is_whole, price};
ghost use Rattle.states.specs.Blocks.{block_words, first_of};
ghost use Rattle.states.specs.Comparing.{WrittenSaysAll, BlockSaysAll, LeftSaysAll, loop_of, IsDue, AreKept, IsOver};
ghost use Rattle.states.specs.Comparing.{EntryHolds, IsEntered, AreEntered, IsWalk, WalksOn};
ghost use Rattle.states.specs.Comparing.{IsKeptLoop, IsPair, IsConstantAt, IsInto, IsBase, SaysEntry};
ghost use Rattle.states.specs.Cutting.{AreLoopsApart};
ghost use Rattle.states.specs.Frames.{frame_facts};
ghost use Rattle.states.specs.Lookup.{lookup};
ghost use Rattle.states.specs.Rows.{AreApart, LoopFits};
ghost use Rattle.states.specs.State.{Facts, entry_fact};
ghost use Rattle.states.specs.declared.known.WordFact.TheVariants.{Alone};

use crate::blocks::block_words;
use crate::frame::Frame;
use crate::implication::{implies, is_exactly, says};
use crate::known::{Loop, WordFact};
use crate::row::{
    alone_holds, end_of, has_at_most, have_loops_apart, is_over, loop_of, past_saying, row_fact,
    start_of, steps_to_find, without_ended,
};
use module_format::{Entry, Fact};

/// What is left of the label's row and of a row that is wanted, and what was paid for the entries before.
#[derive(Clone, Copy)]
struct Walk<'a> {
    base: &'a [Entry],
    rest: &'a [Entry],
    paid: u128,
}

/// A number of loops that are entered, and what is paid then.
#[derive(Clone, Copy)]
struct Entering {
    count: usize,
    paid: u128,
}

/// What it costs to enter a loop: its weight for each turn but the first.
#[inline(always)]
pub(crate) fn weight_of(wanted: Loop) -> Option<u128>
    ensures { IfSome result (λ paid. paid ≡ wanted.weight * (wanted.count - 1)) }
{
    u128::from(wanted.weight).checked_mul(u128::from(wanted.count.saturating_sub(1)))
}

/// What is paid for a loop that is wanted, whose words say this: what it costs to enter it if they are its first
/// constants, and nothing if they are that loop's. `None`: they say less, or only one of them is a loop's.
fn due(wanted: Loop, first: WordFact, second: WordFact) -> Option<u128>
    requires first { LoopFits first }
    requires second { LoopFits second }
    ensures { IfSome result (IsDue wanted first second) }
{
    if !says(first, WordFact::Index(wanted)) {
        return None;
    }
    if !says(second, WordFact::Count(wanted)) {
        return None;
    }
    match (first, second) {
        (WordFact::Alone(_), WordFact::Alone(_)) => {
            let paid = weight_of(wanted)?;
            Some(paid)
        }
        (WordFact::Index(_), WordFact::Count(_)) => Some(0),
        _ => None,
    }
}

/// How many entries a row begins with all of whose words another entry has, which says what they want.
#[inline(never)]
fn over_count(entry: &Entry, row: &[Entry]) -> usize
    ensures few { result ≤ length row.now }
    ensures over { (i : ℕ) → i < result → (d : Row) → IsOver entry.now (get_or row.now i d) }
{
    for i in 0..row.len() {
        if !is_over(entry, &row[i]) {
            return i;
        }
    }
    row.len()
}

/// The same of the first entry of a row.
#[inline(always)]
fn first_over_count(base: &[Entry], row: &[Entry]) -> usize
    ensures few { result ≤ length row.now }
    ensures over { (i : ℕ) → i < result → (d : Row) → SaysEntry base.now (get_or row.now i d) }
{
    match base.first() {
        Some(entry) => over_count(entry, row),
        None => 0,
    }
}

/// Whether an entry is about this word alone, and says that it is this number.
#[inline(always)]
fn is_constant_at(entry: &Entry, word: i64, number: i64) -> bool
    ensures { IsTrue result → IsConstantAt entry.now word number }
{
    start_of(entry) == word && entry.span == 1 && is_exactly(entry.fact, number)
}

impl Frame<'_> {
    /// What is known of the word of an index to which this was written.
    #[inline(always)]
    fn fact_written(&self, index: usize, fact: Fact) -> Fact
        requires { lookup self.now.overlay.written.items index ≡ Some fact }
        ensures { Alone result ≡ frame_facts self.now (self.now.lo +ℤ pos index) }
    {
        match self.leaving(self.word_at(index)) {
            Some(leaving) => leaving.left_of(fact),
            None => fact,
        }
    }

    /// Whether at least what a row wants is known of each word that was written.
    fn written_holds(&self, row: &[Entry]) -> bool
        requires { AreApart row.now }
        ensures { IsTrue result
            → WrittenSaysAll self.now.overlay.written.items self.now.lo (frame_facts self.now) (entry_fact row.now) }
    {
        for written in &self.overlay.written {
            let fact = self.fact_written(written.index, written.fact);
            if !alone_holds(fact, row, self.word_at(written.index)) {
                return false;
            }
        }
        true
    }

    /// Whether at least what a row wants is known of each word of a block.
    fn block_holds(&self, number: usize, row: &[Entry]) -> bool
        requires room { number < self.now.by_block.room }
        requires apart { AreApart row.now }
        ensures { IsTrue result
            → BlockSaysAll (first_of self.now.lo number) (frame_facts self.now) (entry_fact row.now) block_words }
    {
        let first = number * block_words();
        for i in 0..block_words() {
            let word = self.word_at(first + i);
            if !says(self.fact_at(word), row_fact(row, word)) {
                return false;
            }
        }
        true
    }

    /// Whether at least what a row wants is known of each word of the blocks that were left.
    fn left_holds(&self, row: &[Entry]) -> bool
        requires { AreApart row.now }
        ensures { IsTrue result
            → LeftSaysAll self.now.by_block.kept.items self.now.lo (frame_facts self.now) (entry_fact row.now) }
    {
        for number in 0..self.by_block.kept.len() {
            if self.by_block.is_left(number) && !self.block_holds(number, row) {
                return false;
            }
        }
        true
    }

    /// Whether too many words were changed to seek each in a row, so that the row is tested word by word.
    pub(crate) fn asks_each(&self, row: &[Entry]) -> bool {
        let in_blocks = self
            .by_block
            .left_count()
            .saturating_mul(block_words() as u64);
        let changed = in_blocks.saturating_add(self.overlay.written.len() as u64);
        has_at_most(row, changed.saturating_mul(steps_to_find(row)))
    }

    /// Whether a word was neither written nor left since the label.
    #[inline(always)]
    fn is_kept(&self, word: i64) -> bool
        ensures { IsTrue result → frame_facts self.now word ≡ entry_fact self.now.row.now word }
    {
        self.written(word).is_none() && self.leaving(word).is_none()
    }

    /// Whether a word and the next one were neither written nor left since the label.
    #[inline(always)]
    fn are_kept(&self, word: i64) -> bool
        requires { word <ℤ pos (2 ^ 40) }
        ensures { IsTrue result → AreKept (entry_fact self.now.row.now) (frame_facts self.now) word }
    {
        self.is_kept(word) && self.is_kept(word + 1)
    }

    /// Whether an entry wants the loop that another one says of the same two words, which were not changed.
    #[inline(always)]
    fn is_kept_loop(&self, entry: &Entry, wanted: &Entry) -> bool
        ensures { IsTrue result
            → IsKeptLoop (entry_fact self.now.row.now) (frame_facts self.now) entry.now wanted.now }
    {
        match (loop_of(entry.fact), loop_of(wanted.fact)) {
            (Some(said), Some(other)) => {
                said == other && wanted.span == 2 && self.are_kept(start_of(wanted))
            }
            _ => false,
        }
    }

    /// Whether an entry is about the same words as another one and says what that one wants, or the same loop.
    #[inline(always)]
    fn is_pair(&self, entry: &Entry, wanted: &Entry) -> bool
        ensures { IsTrue result → IsPair (entry_fact self.now.row.now) (frame_facts self.now) entry.now wanted.now }
    {
        (entry.word == wanted.word) & (entry.span == wanted.span)
            && (implies(entry.fact, wanted.fact) || self.is_kept_loop(entry, wanted))
    }

    /// How many entries two rows begin with that are pairs, each with the one at its place in the other row.
    #[inline(never)]
    fn pair_count(&self, base: &[Entry], rest: &[Entry]) -> usize
        ensures base { result ≤ length base.now }
        ensures rest { result ≤ length rest.now }
        ensures walks { WalksOn (entry_fact self.now.row.now) (frame_facts self.now) base.now rest.now
            (drop result base.now) (drop result rest.now) }
    {
        let len = base.len().min(rest.len());
        for i in 0..len {
            if !self.is_pair(&base[i], &rest[i]) {
                return i;
            }
        }
        len
    }

    /// What is paid once a loop is entered that an entry wants, where two entries say the constants with which it
    /// begins of its words, which were not changed.
    #[inline(always)]
    fn paid_into(&self, first: &Entry, second: &Entry, wanted: &Entry, paid: u128) -> Option<u128>
        ensures { IfSome result
            (IsInto (entry_fact self.now.row.now) (frame_facts self.now) first.now second.now wanted.now paid) }
    {
        let entered = loop_of(wanted.fact)?;
        let word = start_of(wanted);
        if wanted.span != 2 || !self.are_kept(word) {
            return None;
        }
        if !is_constant_at(first, word, i64::from(entered.base)) {
            return None;
        }
        if !is_constant_at(second, word + 1, i64::from(entered.count)) {
            return None;
        }
        paid.checked_add(weight_of(entered)?)
    }

    /// The loops that are entered with which a row begins, where the other one has two entries of constants for each.
    #[inline(never)]
    fn entering(&self, base: &[Entry], rest: &[Entry], paid: u128) -> Entering
        ensures base { result.count * 2 ≤ length base.now }
        ensures rest { result.count ≤ length rest.now }
        ensures walks { (row : List Row)
            → IsWalk (entry_fact self.now.row.now) (frame_facts self.now) row base.now rest.now paid
            → IsWalk (entry_fact self.now.row.now) (frame_facts self.now) row (drop (result.count * 2) base.now)
            (drop result.count rest.now) result.paid }
    {
        let mut sum = paid;
        let len = rest.len().min(base.len() / 2);
        for i in 0..len {
            let Some(next) = self.paid_into(&base[i * 2], &base[i * 2 + 1], &rest[i], sum) else {
                return Entering {
                    count: i,
                    paid: sum,
                };
            };
            sum = next;
        }
        Entering {
            count: len,
            paid: sum,
        }
    }

    /// What is paid for the loop that an entry wants, whose words are asked by themselves.
    pub(crate) fn loop_paid(&self, entry: &Entry, wanted: Loop) -> Option<u128>
        requires { loop_of entry.now.fact ≡ Some wanted }
        ensures { IfSome result (λ paid. (said : Facts) → IsEntered said (frame_facts self.now) entry.now paid) }
    {
        if entry.span != 2 {
            return None;
        }
        let word = start_of(entry);
        let paid = due(wanted, self.fact_at(word), self.fact_at(word + 1))?;
        Some(paid)
    }

    /// Whether at least what an entry that wants no loop wants is known of each of its words: by what is left of the
    /// label's row, or else by itself.
    fn words_hold(&self, base: &[Entry], entry: &Entry) -> bool
        requires { AreApart base.now }
        ensures { IsTrue result → IsBase (entry_fact self.now.row.now) base.now entry.now.word
            → EntryHolds (entry_fact self.now.row.now) (frame_facts self.now) entry.now }
    {
        let wanted = WordFact::Alone(entry.fact);
        let end = end_of(entry);
        let mut rest = base;
        let mut word = start_of(entry);
        while word < end {
            let passed = past_saying(rest, word, end, entry.fact);
            if end <= passed.word {
                return true;
            }
            if !says(self.fact_at(passed.word), wanted) {
                return false;
            }
            rest = passed.row;
            word = passed.word + 1;
        }
        true
    }

    /// What is paid for an entry, if it holds by what is left of the label's row or by what is known of its words.
    fn entry_paid(&self, base: &[Entry], entry: &Entry) -> Option<u128>
        requires { AreApart base.now }
        ensures { IfSome result (λ paid. IsBase (entry_fact self.now.row.now) base.now entry.now.word
            → IsEntered (entry_fact self.now.row.now) (frame_facts self.now) entry.now paid) }
    {
        if let Some(wanted) = loop_of(entry.fact) {
            let paid = self.loop_paid(entry, wanted)?;
            return Some(paid);
        }
        if !self.words_hold(base, entry) {
            return None;
        }
        Some(0)
    }

    /// What is left once the first entry that is wanted is passed, or more: those that are pairs, those that one entry
    /// of the label's row covers, or the loops that are entered.
    fn past_some<'b>(&self, from: &'b [Entry], rest: &'b [Entry], paid: u128) -> Option<Walk<'b>>
        requires { AreApart from.now }
        ensures walks { IfSome result (λ next. (row : List Row)
            → IsWalk (entry_fact self.now.row.now) (frame_facts self.now) row from.now rest.now paid
            → IsWalk (entry_fact self.now.row.now) (frame_facts self.now) row next.base.now next.rest.now next.paid) }
        ensures apart { IfSome result (λ next. AreApart next.base.now) }
        ensures shorter { IfSome result (λ next. length next.rest.now < length rest.now) }
    {
        let (entry, later) = rest.split_first()?;
        let base = without_ended(from, start_of(entry));
        let pairs = self.pair_count(base, rest);
        if pairs > 0 {
            return Some(Walk {
                base: &base[pairs..],
                rest: &rest[pairs..],
                paid,
            });
        }
        let over = first_over_count(base, rest);
        if over > 0 {
            return Some(Walk {
                base,
                rest: &rest[over..],
                paid,
            });
        }
        let entered = self.entering(base, rest, paid);
        if entered.count > 0 {
            return Some(Walk {
                base: &base[entered.count * 2..],
                rest: &rest[entered.count..],
                paid: entered.paid,
            });
        }
        let paid = paid.checked_add(self.entry_paid(base, entry)?)?;
        Some(Walk {
            base,
            rest: later,
            paid,
        })
    }

    /// What is paid for the entries of a row, if each holds by the label's row or by what is known of its words.
    fn row_paid(&self, row: &[Entry]) -> Option<u128>
        requires { AreApart row.now }
        ensures { IfSome result (AreEntered (entry_fact self.now.row.now) (frame_facts self.now) row.now) }
    {
        let mut base = self.row;
        let mut rest = row;
        let mut paid = 0;
        while !rest.is_empty() {
            let next = self.past_some(base, rest, paid)?;
            base = next.base;
            rest = next.rest;
            paid = next.paid;
        }
        Some(paid)
    }

    /// What is paid for the loops that a row wants and that are entered. At least what the row wants is known of each
    /// word, and no loop that it wants is half known. `None`: one of these fails. Each word that was changed is sought
    /// in the row.
    pub(crate) fn paid_by_rows(&self, row: &[Entry]) -> Option<u128>
        requires { AreApart row.now }
        ensures hold { IfSome result (λ _. entries_hold (frame_facts self.now) row.now ≡ true) }
        ensures whole { IfSome result (λ _. list_all (is_whole (frame_facts self.now)) row.now ≡ true) }
        ensures paid { IfSome result (λ paid. sum_by (price (frame_facts self.now)) row.now ≡ paid) }
    {
        if !self.written_holds(row) {
            return None;
        }
        if !self.left_holds(row) {
            return None;
        }
        let paid = self.row_paid(row)?;
        Some(paid)
    }

    /// The same, or `None` if too many words were changed.
    pub(crate) fn paid_quickly(&self, row: &[Entry]) -> Option<u128>
        requires { AreApart row.now }
        ensures hold { IfSome result (λ _. entries_hold (frame_facts self.now) row.now ≡ true) }
        ensures whole { IfSome result (λ _. list_all (is_whole (frame_facts self.now)) row.now ≡ true) }
        ensures paid { IfSome result (λ paid. sum_by (price (frame_facts self.now)) row.now ≡ paid) }
    {
        if self.asks_each(row) {
            return None;
        }
        self.paid_by_rows(row)
    }

    /// Whether no word is one of a loop by what is known and by what a row wants. The time grows with the entries of
    /// the label's row and of this one.
    pub(crate) fn has_loops_apart(&self, row: &[Entry]) -> bool
        requires { AreApart row.now }
        ensures { IsTrue result → AreLoopsApart (frame_facts self.now) (entry_fact row.now) }
    {
        have_loops_apart(self.row, row)
    }
}
