//! The entries of a label row.

ghost use Rattle.std.specs.Prelude.{◌≡◌, ℤ, pos, ◌≤ℤ◌, ◌<ℤ◌, ◌^◌, IsTrue, IfSome, IfNone, true};
ghost use Rattle.module_format.specs.Facts.{end_of};
ghost use Rattle.module_format.specs.declared.fact.Fact.TheVariants.{Unknown};
ghost use Rattle.states.specs.Below.{says};
ghost use Rattle.states.specs.Comparing.{IsOver, IsPast, loop_of};
ghost use Rattle.states.specs.Cutting.{AreLoopsApart, IsApartFrom};
ghost use Rattle.states.specs.Rows.{AreApart};
ghost use Rattle.states.specs.State.{is_about, is_same_number, is_alone, said_of, entry_fact};
ghost use Rattle.states.specs.declared.known.WordFact.TheVariants.{Alone};

use crate::implication::{implies, is_exactly};
use crate::known::{Loop, WordFact};
use module_format::{Entry, Fact};

/// The first word of an entry.
#[inline(always)]
pub(crate) fn start_of(entry: &Entry) -> i64
    ensures value { result ≡ entry.now.word }
    ensures near { result <ℤ pos (2 ^ 40) }
{
    i64::from(entry.word)
}

/// The first word after an entry.
#[inline(always)]
pub(crate) fn end_of(entry: &Entry) -> i64
    ensures value { result ≡ end_of entry.now }
    ensures near { result <ℤ pos (2 ^ 40) }
{
    i64::from(entry.word) + i64::from(entry.span)
}

/// Whether an entry is about a word.
fn is_about(entry: &Entry, word: i64) -> bool
    ensures { result ≡ is_about entry.now word }
{
    start_of(entry) <= word && word < end_of(entry)
}

/// The loop of a fact, if it is of one.
#[inline(always)]
pub(crate) fn loop_of(fact: Fact) -> Option<Loop>
    ensures { result ≡ loop_of fact }
{
    match fact {
        Fact::Loop {
            base,
            count,
            weight,
        } => Some(Loop {
            base,
            count,
            weight,
        }),
        _ => None,
    }
}

/// What an entry's fact says of one of its words, which is the first or another one.
pub fn said_of(fact: Fact, is_first: bool) -> WordFact
    ensures { result ≡ said_of fact is_first }
{
    match fact {
        Fact::Loop {
            base,
            count,
            weight,
        } if is_first => WordFact::Index(Loop {
            base,
            count,
            weight,
        }),
        Fact::Loop {
            base,
            count,
            weight,
        } => WordFact::Count(Loop {
            base,
            count,
            weight,
        }),
        _ => WordFact::Alone(fact),
    }
}

/// How many words there are from the first of a row's entries to the last.
fn width_of(row: &[Entry]) -> u64 {
    match (row.first(), row.last()) {
        (Some(first), Some(last)) => start_of(first).abs_diff(end_of(last)),
        _ => 0,
    }
}

/// Whether a row's entries have at most `count` words. No entries are looked at after those that have more, and none
/// besides the first and the last if these lie close enough.
pub(crate) fn has_at_most(row: &[Entry], count: u64) -> bool {
    if width_of(row) <= count {
        return true;
    }
    let mut left = count;
    for entry in row {
        let Some(rest) = left.checked_sub(u64::from(entry.span)) else {
            return false;
        };
        left = rest;
    }
    true
}

/// About how many entries of a row are looked at to find what it says of a word, at least one.
pub(crate) fn steps_to_find(row: &[Entry]) -> u64 {
    1 + u64::from(usize::BITS.saturating_sub(row.len().leading_zeros()))
}

/// The entry of a row that is about a word.
#[inline(always)]
fn entry_of<'a>(row: &'a [Entry], word: i64) -> Option<&'a Entry>
    requires { AreApart row.now }
    ensures some { IfSome result
        (λ entry. entry_fact row.now word ≡ said_of entry.now.fact (is_same_number entry.now.word word)) }
    ensures none { IfNone result (entry_fact row.now word ≡ Alone Unknown) }
{
    let mut rest = row;
    while rest.len() > 1 {
        let (front, back) = rest.split_at(rest.len() / 2);
        rest = if start_of(&back[0]) <= word {
            back
        } else {
            front
        };
    }
    if rest.is_empty() || !is_about(&rest[0], word) {
        return None;
    }
    Some(&rest[0])
}

/// What a row says of a word.
pub(crate) fn row_fact(row: &[Entry], word: i64) -> WordFact
    requires { AreApart row.now }
    ensures { result ≡ entry_fact row.now word }
{
    match entry_of(row, word) {
        Some(entry) => said_of(entry.fact, start_of(entry) == word),
        None => WordFact::Alone(Fact::Unknown),
    }
}

/// What an entry says of one of its words.
pub(crate) fn entry_said(entry: &Entry, word: i64) -> WordFact
    ensures { result ≡ said_of entry.now.fact (is_same_number entry.now.word word) }
{
    said_of(entry.fact, start_of(entry) == word)
}

/// Whether what is known of a word by itself says at least what an entry wants of its first word or of another one.
#[inline(always)]
fn says_alone(fact: Fact, wanted: Fact, is_first: bool) -> bool
    ensures { result ≡ says (Alone fact) (said_of wanted is_first) }
{
    match wanted {
        Fact::Loop { base, .. } if is_first => is_exactly(fact, i64::from(base)),
        Fact::Loop { count, .. } => is_exactly(fact, i64::from(count)),
        _ => implies(fact, wanted),
    }
}

/// Whether what is known of a word by itself says at least what a row wants of it.
#[inline(always)]
pub(crate) fn alone_holds(fact: Fact, row: &[Entry], word: i64) -> bool
    requires { AreApart row.now }
    ensures { result ≡ says (Alone fact) (entry_fact row.now word) }
{
    match entry_of(row, word) {
        Some(entry) => says_alone(fact, entry.fact, start_of(entry) == word),
        None => true,
    }
}

/// A row without the first entries that end at a word or before.
#[inline(always)]
pub(crate) fn without_ended<'a>(row: &'a [Entry], word: i64) -> &'a [Entry]
    requires { AreApart row.now }
    ensures apart { AreApart result.now }
    ensures same { (k : ℤ) → word ≤ℤ k → entry_fact result.now k ≡ entry_fact row.now k }
{
    let mut rest = row;
    while let Some((entry, later)) = rest.split_first() {
        if word < end_of(entry) {
            return rest;
        }
        rest = later;
    }
    rest
}

/// Whether an entry is about all words of another one, and says of them what that one wants.
#[inline(always)]
pub(crate) fn is_over(entry: &Entry, wanted: &Entry) -> bool
    ensures { IsTrue result → IsOver entry.now wanted.now }
{
    start_of(entry) <= start_of(wanted)
        && end_of(wanted) <= end_of(entry)
        && implies(entry.fact, wanted.fact)
}

/// What is left of a row from a word on.
#[derive(Clone, Copy)]
pub(crate) struct RowRest<'a> {
    pub row: &'a [Entry],
    pub word: i64,
}

/// What is left of a row from a word on, after the words up to `end` of which it says what is wanted. The time grows
/// with the number of entries that are passed.
pub(crate) fn past_saying<'a>(row: &'a [Entry], word: i64, end: i64, wanted: Fact) -> RowRest<'a>
    requires apart { AreApart row.now }
    requires rises { word ≤ℤ end }
    ensures { IsPast row.now word end wanted result.row.now result.word }
{
    let mut rest = without_ended(row, word);
    let mut next = word;
    while let Some((entry, later)) = rest.split_first() {
        if next < start_of(entry) || !implies(entry.fact, wanted) {
            break;
        }
        if end <= end_of(entry) {
            return RowRest {
                row: rest,
                word: end,
            };
        }
        next = end_of(entry).max(next);
        rest = later;
    }
    RowRest {
        row: rest,
        word: next,
    }
}

/// Whether no entry that begins before a word is of a loop.
fn begins_no_loop(row: &[Entry], end: i64) -> bool
    requires { AreApart row.now }
    ensures { IsTrue result → (k : ℤ) → k <ℤ end → is_alone (entry_fact row.now k) ≡ true }
{
    let mut rest = row;
    while let Some((entry, later)) = rest.split_first() {
        if end <= start_of(entry) {
            return true;
        }
        if loop_of(entry.fact).is_some() {
            return false;
        }
        rest = later;
    }
    true
}

/// What is left of a row from the first word of an entry on, if no word of this one is one of a loop by both.
fn past_apart<'a>(row: &'a [Entry], entry: &Entry) -> Option<&'a [Entry]>
    requires { AreApart row.now }
    ensures apart { IfSome result (λ left. AreApart left.now) }
    ensures same { IfSome result (λ left.
        (k : ℤ) → entry.now.word ≤ℤ k → entry_fact left.now k ≡ entry_fact row.now k) }
    ensures alone { IfSome result (λ left. IsApartFrom entry.now row.now) }
{
    if loop_of(entry.fact).is_none() {
        return Some(row);
    }
    let left = without_ended(row, start_of(entry));
    if !begins_no_loop(left, end_of(entry)) {
        return None;
    }
    Some(left)
}

/// Whether no word is one of a loop by both of two rows. The time grows with their entries.
pub(crate) fn have_loops_apart(row: &[Entry], other: &[Entry]) -> bool
    requires row { AreApart row.now }
    requires other { AreApart other.now }
    ensures { IsTrue result → AreLoopsApart (entry_fact row.now) (entry_fact other.now) }
{
    let mut rest = row;
    let mut left = other;
    while let Some((entry, later)) = rest.split_first() {
        let Some(next) = past_apart(left, entry) else {
            return false;
        };
        left = next;
        rest = later;
    }
    true
}
