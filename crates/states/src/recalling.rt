//! Comparisons with labels that are remembered: only words that were changed since are asked.
#![tactic(auto, unfolding(crate::specs::Blocks::HaveRoom, crate::specs::Remembered::HasTimes))]

ghost use Rattle.std.specs.Prelude.{◌≡◌, ◌<◌, ◌≤◌, ◌⊎◌, ◌*◌, ℕ, ℤ, pos, ◌+ℤ◌, ◌≤ℤ◌, ◌<ℤ◌, ◌^◌, IsTrue, IfSome, Some};
ghost use Rattle.std.specs.Prelude.{IsFalse, true, vec_len, sum_by};
ghost use Rattle.std.specs.List.{list_all};
ghost use Rattle.module_format.specs.Contents.{label_of};
ghost use Rattle.states.specs.Blocks.{block_words, first_of};
ghost use Rattle.states.specs.Comparing.{SaysAll, BlockSaysAll, loop_of};
ghost use Rattle.states.specs.Below.{says};
ghost use Rattle.states.specs.Frames.{frame_facts, IsKnown, IsLeftSince, EntryIsSaid, SameRoom};
ghost use Rattle.states.specs.Implied.{BlockImplied};
ghost use Rattle.states.specs.Remembered.{numbered_label, compared_at, time_of, changes_of, wants_no_loop};
ghost use Rattle.states.specs.Remembered.{are_loops_of_two, range_says, IsPaid, ChangedSay};
ghost use Rattle.states.specs.Remembered.{IsDueSince, AreDueSince};
ghost use Rattle.states.specs.Remembering.{was_changed, was_alone};
ghost use Rattle.states.specs.Rows.{AreApart};
ghost use Rattle.states.specs.State.{entry_fact, is_same_number, said_of};

use crate::blocks::block_words;
use crate::frame::Frame;
use crate::implication::{implies, says};
use crate::implied::{all_implied, from_word, is_row_within};
use crate::known::Loop;
use crate::remembered::Compared;
use crate::row::{end_of, entry_said, loop_of, past_saying, row_fact, start_of};
use crate::span::Leaving;
use module_format::{Entry, Fact, LabelRow};

/// Whether no entry is of a loop.
pub(crate) fn wants_no_loop(row: &[Entry]) -> bool
    ensures { result ≡ wants_no_loop row.now }
{
    row.iter().all(|entry| loop_of(entry.fact).is_none())
}

/// Whether each entry of a loop is about two words.
fn are_loops_of_two(row: &[Entry]) -> bool
    ensures { result ≡ are_loops_of_two row.now }
{
    row.iter()
        .all(|entry| loop_of(entry.fact).is_none() || entry.span == 2)
}

/// How many words are asked one by one at most of a pair of labels that is new.
const MOST_OF_NEW: u64 = 256;

/// How many words are asked one by one at most, behind a comparison or behind none.
fn most_asked(compared: Compared) -> u64 {
    if compared.time == 0 {
        MOST_OF_NEW
    } else {
        u64::MAX
    }
}

/// A comparison that tells what is paid now.
#[derive(Clone, Copy)]
struct Told {
    compared: Compared,
    paid: u64,
}

/// Whether how a block was left says what an entry wants of a word of which it was known. A block that became one fact
/// says nothing.
#[inline(always)]
fn range_says(range: Option<Leaving>, wanted: Fact) -> bool
    ensures { result ≡ range_says range wanted }
{
    match range {
        None => true,
        Some(Leaving::Widen { lo, hi }) => implies(Fact::Number { lo, hi }, wanted),
        Some(Leaving::Become(_)) => implies(Fact::Unknown, wanted),
    }
}

impl Frame<'_> {
    /// Whether a word was first changed after a time.
    #[inline(always)]
    fn is_changed_after(&self, word: i64, time: u64) -> bool
        ensures { let changed = was_changed self.now.lo self.now.remembered in
            IsFalse result → changed self.now.remembered.time word ≡ changed time word }
    {
        match self.index_of(word) {
            Some(index) => self.remembered.firsts.is_changed_after(index, time),
            None => false,
        }
    }

    /// Whether a word was changed by a time, since the state became that of a label.
    fn was_changed(&self, word: i64, time: u64) -> bool
        ensures { result ≡ was_changed self.now.lo self.now.remembered time word }
    {
        let remembered = &self.remembered;
        match self.index_of(word) {
            Some(index) => remembered.firsts.was_changed(remembered.began, index, time),
            None => false,
        }
    }

    /// Whether a word was by itself at a time: the label's row says so, or it was changed by then.
    fn was_alone(&self, word: i64, time: u64) -> bool
        ensures { result ≡ was_alone (entry_fact self.now.row.now) self.now.lo self.now.remembered time word }
    {
        row_fact(self.row, word).is_alone() || self.was_changed(word, time)
    }

    /// What is due for the loop that an entry wants, if a word of it was changed since a time: what it costs to enter
    /// it, if it was kept then and is entered now. `None`: it is half known.
    fn changed_due(&self, time: u64, entry: &Entry, wanted: Loop) -> Option<u64>
        requires { loop_of entry.now.fact ≡ Some wanted }
        ensures { let alone = was_alone (entry_fact self.now.row.now) self.now.lo self.now.remembered in
            IfSome result (IsDueSince (alone time) (alone self.now.remembered.time) entry.now) }
    {
        let word = start_of(entry);
        let now = self.remembered.time;
        let is_alone = self.was_alone(word, now);
        if is_alone != self.was_alone(word + 1, now) {
            return None;
        }
        let was_alone = self.was_alone(word, time);
        if is_alone == was_alone {
            return Some(0);
        }
        if was_alone {
            return None;
        }
        wanted
            .weight
            .checked_mul(u64::from(wanted.count.saturating_sub(1)))
    }

    /// What is due for the loop that an entry wants. Where no word of it was changed since a time, nothing is.
    #[inline(always)]
    fn loop_due(&self, time: u64, entry: &Entry, wanted: Loop) -> Option<u64>
        requires { loop_of entry.now.fact ≡ Some wanted }
        ensures { let alone = was_alone (entry_fact self.now.row.now) self.now.lo self.now.remembered in
            IfSome result (IsDueSince (alone time) (alone self.now.remembered.time) entry.now) }
    {
        let word = start_of(entry);
        if !self.is_changed_after(word, time) && !self.is_changed_after(word + 1, time) {
            return Some(0);
        }
        self.changed_due(time, entry, wanted)
    }

    /// What is due for an entry, beside what was paid at a time.
    #[inline(always)]
    fn entry_due(&self, time: u64, entry: &Entry) -> Option<u64>
        ensures { let alone = was_alone (entry_fact self.now.row.now) self.now.lo self.now.remembered in
            IfSome result (IsDueSince (alone time) (alone self.now.remembered.time) entry.now) }
    {
        match loop_of(entry.fact) {
            Some(wanted) => self.loop_due(time, entry, wanted),
            None => Some(0),
        }
    }

    /// What is due for the loops that a row wants, beside what was paid at a time.
    #[inline(never)]
    fn loops_due(&self, time: u64, row: &[Entry]) -> Option<u64>
        ensures { let alone = was_alone (entry_fact self.now.row.now) self.now.lo self.now.remembered in
            IfSome result (AreDueSince (alone time) (alone self.now.remembered.time) row.now) }
    {
        let mut due: u64 = 0;
        for entry in row {
            due = due.checked_add(self.entry_due(time, entry)?)?;
        }
        Some(due)
    }

    /// What is paid where all is known that a row wants: what was paid at a comparison, and what is due beside.
    fn paid_since(&self, row: &LabelRow, compared: Compared) -> Option<u64>
        requires apart { AreApart row.now.entries.items }
        requires known { IsKnown self.now row.now.entries.items compared }
        requires knows { SaysAll (frame_facts self.now) (entry_fact row.now.entries.items) }
        ensures { IfSome result (IsPaid (frame_facts self.now) row.now.entries.items) }
    {
        if compared.is_plain || self.remembered.firsts.latest <= compared.time {
            return Some(compared.paid);
        }
        let due = self.loops_due(compared.time, &row.entries)?;
        let paid = compared.paid.checked_add(due)?;
        Some(paid)
    }

    /// The word of an index, which need not be one that can be written.
    fn word_of(&self, index: usize) -> i64
        requires { index < 2 ^ 40 }
        ensures { result ≡ self.now.lo +ℤ pos index }
    {
        i64::from(self.lo) + index as i64
    }

    /// Whether a fact says what a row wants of each word of a block.
    fn fact_says(&self, number: usize, row: &[Entry], fact: Fact) -> bool
        requires some { number < vec_len self.now.remembered.times }
        requires apart { AreApart row.now }
        ensures { IsTrue result → BlockImplied (entry_fact row.now) (first_of self.now.lo number) fact }
    {
        let index = number * block_words();
        let first = self.word_of(index);
        let end = self.word_of(index + block_words());
        all_implied(row, first, end, fact)
    }

    /// Whether what is known of a block's words together, if they were summed, is at least what a row wants of each.
    fn sum_says(&self, number: usize, row: &[Entry]) -> bool
        requires some { number < vec_len self.now.remembered.times }
        requires apart { AreApart row.now }
        ensures { IsTrue result
            → BlockSaysAll (first_of self.now.lo number) (frame_facts self.now) (entry_fact row.now) block_words }
    {
        let first = self.word_of(number * block_words());
        let Some(sum) = self.sum_from(first) else {
            return false;
        };
        if !sum.are_numbers {
            return false;
        }
        let all = Fact::Number {
            lo: sum.lo,
            hi: sum.hi,
        };
        self.fact_says(number, row, all)
    }

    /// Whether no word of a block was changed since the state went on from a label, whose row says of each what is
    /// claimed that the label of a number wants.
    fn row_says(&self, label: usize, number: usize, row: &LabelRow) -> bool
        requires some { number < vec_len self.now.remembered.times }
        requires label { numbered_label self.now.remembered.«module».now label ≡ Some (label_of row.now) }
        ensures { IsTrue result → BlockSaysAll (first_of self.now.lo number) (frame_facts self.now)
            (entry_fact row.now.entries.items) block_words }
    {
        let time = self.remembered.time_of(number);
        if self.remembered.began <= time {
            return false;
        }
        let index = number * block_words();
        let first = self.word_of(index);
        let end = self.word_of(index + block_words());
        let Some(fact) = self.claims.fact_of(label, number, first, end) else {
            return false;
        };
        if loop_of(fact).is_some() {
            return false;
        }
        let rest = from_word(self.row, first);
        end <= past_saying(rest, first, end, fact).word
    }

    /// Whether no word of a block was written since a comparison, and the block was widened since by a range that says
    /// what the row wants of each.
    fn widened_says(&self, number: usize, row: &[Entry], compared: Compared) -> bool
        requires some { number < vec_len self.now.remembered.times }
        requires apart { AreApart row.now }
        requires known { IsKnown self.now row.now compared }
        ensures { IsTrue result
            → BlockSaysAll (first_of self.now.lo number) (frame_facts self.now) (entry_fact row.now) block_words }
    {
        if compared.time < self.remembered.changes(number).written {
            return false;
        }
        let Some(Leaving::Widen { lo, hi }) = self.remembered.range(number) else {
            return false;
        };
        self.fact_says(number, row, Fact::Number { lo, hi })
    }

    /// How all words of a block were left since a comparison. If one was written since, nothing is left of what was known
    /// of all of them.
    fn left_since(&self, number: usize, compared: Compared) -> Option<Leaving>
        ensures { IsLeftSince self.now number compared result }
    {
        if compared.time < self.remembered.changes(number).written {
            return Some(Leaving::Become(Fact::Unknown));
        }
        self.remembered.range(number)
    }

    /// Whether what an entry wants is known of each word from the first up to `end` (not included), asked one by one.
    fn each_says(&self, entry: &Entry, first: i64, end: i64) -> bool
        ensures { IsTrue result → EntryIsSaid self.now entry.now first end }
    {
        for word in first..end {
            if !says(self.fact_at(word), entry_said(entry, word)) {
                return false;
            }
        }
        true
    }

    /// The same, asked a run at a time if the entry is of no loop.
    fn entry_says(&self, entry: &Entry, first: i64, end: i64) -> bool
        requires { end <ℤ pos (2 ^ 40) }
        ensures { IsTrue result → EntryIsSaid self.now entry.now first end }
    {
        match loop_of(entry.fact) {
            Some(_) => self.each_says(entry, first, end),
            None => self.runs_say(entry.fact, first, end),
        }
    }

    /// The same, if how their block was left does not say what the entry wants. `most` words may be asked. Returns how
    /// many may be asked after that.
    fn part_says(
        &self,
        entry: &Entry,
        first: i64,
        end: i64,
        range: Option<Leaving>,
        most: u64,
    ) -> Option<u64>
        requires { end <ℤ pos (2 ^ 40) }
        ensures { IfSome result (λ _. (range_says range entry.now.fact ≡ true) ⊎ EntryIsSaid self.now entry.now first end) }
    {
        if range_says(range, entry.fact) {
            return Some(most);
        }
        let left = most.checked_sub(first.abs_diff(end))?;
        if !self.entry_says(entry, first, end) {
            return None;
        }
        Some(left)
    }

    /// Whether at least what a row wants is known of each word of a block, which need not be a whole one. `most` words
    /// may be asked. Returns how many may be asked after that.
    fn entries_say(
        &self,
        number: usize,
        row: &[Entry],
        compared: Compared,
        most: u64,
    ) -> Option<u64>
        requires some { number < vec_len self.now.remembered.times }
        requires apart { AreApart row.now }
        requires known { IsKnown self.now row.now compared }
        ensures { IfSome result (λ _. BlockSaysAll (first_of self.now.lo number) (frame_facts self.now)
            (entry_fact row.now) block_words) }
    {
        let range = self.left_since(number, compared);
        let index = number * block_words();
        let first = self.word_of(index);
        let end = self.word_of(index + block_words());
        let mut left = most;
        let mut rest = from_word(row, first);
        while let Some((entry, later)) = rest.split_first() {
            if end <= start_of(entry) {
                return Some(left);
            }
            let from = start_of(entry).max(first);
            left = self.part_says(entry, from, end_of(entry).min(end), range, left)?;
            rest = later;
        }
        Some(left)
    }

    /// Whether at least what a row wants is known of each word of a block. `most` words may be asked one by one. Returns
    /// how many may be asked after that.
    fn block_says(
        &self,
        label: usize,
        number: usize,
        row: &LabelRow,
        compared: Compared,
        most: u64,
    ) -> Option<u64>
        requires some { number < vec_len self.now.remembered.times }
        requires label { numbered_label self.now.remembered.«module».now label ≡ Some (label_of row.now) }
        requires apart { AreApart row.now.entries.items }
        requires known { IsKnown self.now row.now.entries.items compared }
        ensures { IfSome result (λ _. BlockSaysAll (first_of self.now.lo number) (frame_facts self.now)
            (entry_fact row.now.entries.items) block_words) }
    {
        if self.widened_says(number, &row.entries, compared) {
            return Some(most);
        }
        if self.row_says(label, number, row) {
            return Some(most);
        }
        if self.sum_says(number, &row.entries) {
            return Some(most);
        }
        self.entries_say(number, &row.entries, compared, most)
    }

    /// Whether at least what a row wants is known of each word of the blocks that were changed since a comparison. Where
    /// there was none, few words are asked one by one.
    fn changed_say(&self, label: usize, row: &LabelRow, compared: Compared) -> bool
        requires label { numbered_label self.now.remembered.«module».now label ≡ Some (label_of row.now) }
        requires apart { AreApart row.now.entries.items }
        requires known { IsKnown self.now row.now.entries.items compared }
        ensures { IsTrue result → ChangedSay self.now.lo self.now.remembered.times.items (frame_facts self.now)
            (entry_fact row.now.entries.items) compared.time }
    {
        let mut left = most_asked(compared);
        for number in 0..self.remembered.times.len() {
            if compared.time < self.remembered.times[number] {
                match self.block_says(label, number, row, compared, left) {
                    Some(rest) => left = rest,
                    None => return false,
                }
            }
        }
        true
    }

    /// Whether the label of a number wants no loop. Where claims were made of it, its entries are not passed.
    fn is_plain(&self, label: usize, row: &LabelRow) -> bool
        requires { numbered_label self.now.remembered.«module».now label ≡ Some (label_of row.now) }
        ensures { IsTrue result → wants_no_loop row.now.entries.items ≡ true }
    {
        if self.claims.has(label) {
            return true;
        }
        wants_no_loop(&row.entries)
    }

    /// A comparison before all changes, with a row that wants no loop, and nothing outside the frame.
    fn before_all(&self, label: usize, row: &LabelRow) -> Option<Compared>
        requires label { numbered_label self.now.remembered.«module».now label ≡ Some (label_of row.now) }
        requires apart { AreApart row.now.entries.items }
        ensures { IfSome result (IsKnown self.now row.now.entries.items) }
    {
        if !self.is_plain(label, row) {
            return None;
        }
        let end = self.word_of(self.remembered.times.len() * block_words());
        if !is_row_within(&row.entries, i64::from(self.lo), end) {
            return None;
        }
        Some(Compared {
            time: 0,
            paid: 0,
            is_plain: true,
        })
    }

    /// Whether blocks are asked where no comparison is remembered: too many words were changed to seek each in the row,
    /// or a fact is claimed of each block.
    fn asks_blocks(&self, label: usize, row: &LabelRow) -> bool {
        self.claims.has(label) || self.asks_each(&row.entries)
    }

    /// The last comparison with the label of a number, if it was made since the state went on from another label,
    /// or else the one before all changes.
    fn last(&self, label: usize, row: &LabelRow) -> Option<Compared>
        requires label { numbered_label self.now.remembered.«module».now label ≡ Some (label_of row.now) }
        requires apart { AreApart row.now.entries.items }
        ensures { IfSome result (IsKnown self.now row.now.entries.items) }
    {
        let compared = self.remembered.at(label);
        if compared.time < self.remembered.began {
            if !self.asks_blocks(label, row) {
                return None;
            }
            let first = self.before_all(label, row)?;
            return Some(first);
        }
        Some(compared)
    }

    /// Whether at least what a row wants is known of each word still.
    fn says_still(&self, label: usize, row: &LabelRow, compared: Compared) -> bool
        requires label { numbered_label self.now.remembered.«module».now label ≡ Some (label_of row.now) }
        requires apart { AreApart row.now.entries.items }
        requires known { IsKnown self.now row.now.entries.items compared }
        ensures { IsTrue result → SaysAll (frame_facts self.now) (entry_fact row.now.entries.items) }
    {
        if compared.time == self.remembered.time {
            return true;
        }
        self.changed_say(label, row, compared)
    }

    /// That comparison, if it tells what is paid now.
    fn known(&self, label: usize, row: &LabelRow) -> Option<Told>
        requires label { numbered_label self.now.remembered.«module».now label ≡ Some (label_of row.now) }
        requires apart { AreApart row.now.entries.items }
        ensures known { IfSome result (λ told. IsKnown self.now row.now.entries.items told.compared) }
        ensures paid { IfSome result (λ told. IsPaid (frame_facts self.now) row.now.entries.items told.paid) }
    {
        let compared = self.last(label, row)?;
        if !self.says_still(label, row, compared) {
            return None;
        }
        let paid = self.paid_since(row, compared)?;
        Some(Told { compared, paid })
    }

    /// It is remembered what was paid at the label of a number.
    fn put(&mut self, label: usize, row: &LabelRow, paid: u64, is_plain: bool)
        requires label { numbered_label self.old.remembered.«module».now label ≡ Some (label_of row.now) }
        requires apart { AreApart row.now.entries.items }
        requires paid { IsPaid (frame_facts self.old) row.now.entries.items paid }
        requires plain { IsTrue is_plain → wants_no_loop row.now.entries.items ≡ true }
        requires pairs { are_loops_of_two row.now.entries.items ≡ true }
        ensures facts { frame_facts self.new ≡ frame_facts self.old }
        ensures room { SameRoom self.old self.new }
    {
        self.remembered.put(label, paid, is_plain);
    }

    /// All blocks are summed.
    fn sum_all(&mut self)
        ensures facts { frame_facts self.new ≡ frame_facts self.old }
        ensures room { SameRoom self.old self.new }
    {
        let count = self.room().min(u32::MAX as usize) as u32;
        self.sum(self.lo, count);
    }

    /// The blocks are summed of which a word was written after a time.
    fn sum_written(&mut self, time: u64)
        ensures facts { frame_facts self.new ≡ frame_facts self.old }
        ensures room { SameRoom self.old self.new }
    {
        for number in 0..self.by_block.room {
            if time < self.remembered.changes(number).written {
                self.sum_block_at(number * block_words());
            }
        }
    }

    /// Sums are made that a comparison asks. Where none is remembered with a label of many entries, claims are made of
    /// it, if none were made, and all blocks are summed if too many words were changed to seek each in its row.
    fn prepare(&mut self, label: usize, row: &LabelRow)
        requires label { numbered_label self.old.remembered.«module».now label ≡ Some (label_of row.now) }
        requires apart { AreApart row.now.entries.items }
        ensures facts { frame_facts self.new ≡ frame_facts self.old }
        ensures room { SameRoom self.old self.new }
    {
        let time = self.remembered.at(label).time;
        if time >= self.remembered.began {
            self.sum_written(time);
            return;
        }
        let blocks = self.remembered.times.len();
        self.claims.claim(label, row, self.lo, blocks);
        if self.asks_each(&row.entries) {
            self.sum_all();
        }
    }

    /// What is paid at the label of a number, if a comparison with it is remembered that tells so. It is
    /// remembered from now on.
    pub(crate) fn recall(&mut self, label: usize, row: &LabelRow) -> Option<u64>
        requires label { numbered_label self.old.remembered.«module».now label ≡ Some (label_of row.now) }
        requires apart { AreApart row.now.entries.items }
        ensures paid { IfSome result (IsPaid (frame_facts self.old) row.now.entries.items) }
        ensures facts { frame_facts self.new ≡ frame_facts self.old }
        ensures room { SameRoom self.old self.new }
    {
        self.prepare(label, row);
        let Told { compared, paid } = self.known(label, row)?;
        self.put(label, row, paid, compared.is_plain);
        Some(paid)
    }

    /// A comparison with the label of a number is remembered from now on, if each loop that it wants is of two
    /// words.
    pub(crate) fn remember(&mut self, label: usize, row: &LabelRow, paid: u64)
        requires label { numbered_label self.old.remembered.«module».now label ≡ Some (label_of row.now) }
        requires apart { AreApart row.now.entries.items }
        requires paid { IsPaid (frame_facts self.old) row.now.entries.items paid }
        ensures facts { frame_facts self.new ≡ frame_facts self.old }
        ensures room { SameRoom self.old self.new }
    {
        if wants_no_loop(&row.entries) {
            self.put(label, row, paid, true);
        } else if are_loops_of_two(&row.entries) {
            self.put(label, row, paid, false);
        }
    }
}
