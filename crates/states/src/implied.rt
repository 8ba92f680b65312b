//! Whether one fact says what a row wants of some words.

ghost use Rattle.std.specs.Prelude.{◌≡◌, ◌<◌, ◌≤◌, ◌+◌, ℤ, ◌≤ℤ◌, IsTrue, true, None, drop, length};
ghost use Rattle.states.specs.Below.{implies};
ghost use Rattle.states.specs.Comparing.{loop_of};
ghost use Rattle.states.specs.Implied.{AllImplied, WantsOnlyWithin};
ghost use Rattle.states.specs.Rows.{AreApart};
ghost use Rattle.states.specs.State.{entry_fact};

use crate::implication::implies;
use crate::row::{end_of, loop_of, start_of};
use module_format::{Entry, Fact};

/// A row without some of the entries that end at a word or before. It takes a logarithm of steps.
pub(crate) fn from_word<'a>(row: &'a [Entry], word: i64) -> &'a [Entry]
    requires { AreApart row.now }
    ensures apart { AreApart result.now }
    ensures same { (k : ℤ) → word ≤ℤ k → entry_fact result.now k ≡ entry_fact row.now k }
{
    let mut low = 0;
    let mut size = row.len();
    while size > 1 {
        let half = size / 2;
        if start_of(&row[low + half]) <= word {
            low += half;
            size -= half;
        } else {
            size = half;
        }
    }
    &row[low..]
}

/// Whether the entry that is so many places after one of a row begins at a word or before.
#[inline(always)]
fn begins_by(row: &[Entry], place: usize, step: usize, word: i64) -> bool
    requires apart { AreApart row.now }
    requires place { place ≤ length row.now }
    ensures within { IsTrue result → (place + step) < length row.now }
    ensures same { IsTrue result → (k : ℤ) → word ≤ℤ k
        → entry_fact (drop (place + step) row.now) k ≡ entry_fact row.now k }
{
    step < row.len() - place && start_of(&row[place + step]) <= word
}

/// A place of a row before which no entry is about a word or a later one, found from a place that may be near, in as many
/// steps as the logarithm of how far it is.
pub(crate) fn place_near(row: &[Entry], near: usize, word: i64) -> usize
    requires { AreApart row.now }
    ensures within { result ≤ length row.now }
    ensures same { (k : ℤ) → word ≤ℤ k → entry_fact (drop result row.now) k ≡ entry_fact row.now k }
{
    let mut place = 0;
    if begins_by(row, place, near, word) {
        place += near;
    }
    let mut step: usize = 1;
    while begins_by(row, place, step, word) {
        place += step;
        step = step.saturating_mul(2);
    }
    while step > 1 {
        step /= 2;
        if begins_by(row, place, step, word) {
            place += step;
        }
    }
    place
}

/// Whether an entry wants no loop, and a fact says what it wants.
#[inline(always)]
fn is_implied(fact: Fact, entry: &Entry) -> bool
    ensures { IsTrue result → (loop_of entry.now.fact ≡ None) × (implies fact entry.now.fact ≡ true) }
{
    loop_of(entry.fact).is_none() && implies(fact, entry.fact)
}

/// Whether a row wants no loop of the words from `first` up to `end` (not included), and a fact says what it wants.
pub(crate) fn all_implied(row: &[Entry], first: i64, end: i64, fact: Fact) -> bool
    requires { AreApart row.now }
    ensures { IsTrue result → AllImplied (entry_fact row.now) first end fact }
{
    let mut rest = from_word(row, first);
    while let Some((entry, later)) = rest.split_first() {
        if end <= start_of(entry) {
            return true;
        }
        if first < end_of(entry) && !is_implied(fact, entry) {
            return false;
        }
        rest = later;
    }
    true
}

/// Whether each entry of a row, which has one, lies within the words from `first` up to `end` (not included).
pub(crate) fn is_row_within(row: &[Entry], first: i64, end: i64) -> bool
    requires { AreApart row.now }
    ensures { IsTrue result → WantsOnlyWithin (entry_fact row.now) first end }
{
    let Some((lowest, _later)) = row.split_first() else {
        return false;
    };
    let Some((highest, _earlier)) = row.split_last() else {
        return false;
    };
    first <= start_of(lowest) && end_of(highest) <= end
}
