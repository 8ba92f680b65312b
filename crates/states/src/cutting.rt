//! The words of entries that intervals have, and those that none has, as entries.

ghost use Rattle.std.specs.Prelude.{◌≡◌, ◌++◌, ◌≤ℤ◌, ◌<ℤ◌, pos, ◌+ℤ◌, ◌∷◌, [], None, IfSome};
ghost use Rattle.module_format.specs.Facts.{end_of};
ghost use Rattle.module_format.specs.Order.{InOrder, least_word};
ghost use Rattle.module_format.specs.Pars.{IntervalKeeps, behind_interval};
ghost use Rattle.states.specs.Comparing.{loop_of};
ghost use Rattle.states.specs.Cutting.{is_on_side, AreCut, CutsOn, CutsEntry};
ghost use Rattle.states.specs.Rows.{AreApart};

use crate::intervals::{Run, run_from};
use crate::row::{end_of, loop_of, start_of};
use module_format::{Entry, Fact, Interval};

/// Which words of entries are kept.
#[derive(Clone, Copy)]
pub(crate) enum Side {
    /// Those that an interval has.
    Inside,
    /// Those that no interval has.
    Outside,
}

impl Side {
    /// Whether words are kept. Either an interval has them, or none has.
    #[inline(always)]
    fn is_on_side(self, is_among: bool) -> bool
        ensures { result ≡ is_on_side self is_among }
    {
        match self {
            Side::Inside => is_among,
            Side::Outside => !is_among,
        }
    }
}

/// Pushes one more piece, if there is capacity for it.
#[inline(always)]
fn push(pieces: &mut Vec<Entry>, piece: Entry) -> Option<()>
    ensures { IfSome result (λ _. pieces.new.items ≡ pieces.old.items ++ (piece ∷ [])) }
{
    if pieces.len() >= pieces.capacity() {
        return None;
    }
    pieces.push(piece).ok()
}

/// The entry of the words from `word` up to `end`, with this fact.
#[inline(always)]
fn piece_of(fact: Fact, word: i64, end: i64) -> Option<Entry>
    requires { word ≤ℤ end }
    ensures word { IfSome result (λ piece. piece.word ≡ word) }
    ensures end { IfSome result (λ piece. end_of piece ≡ end) }
    ensures fact { IfSome result (λ piece. piece.fact ≡ fact) }
{
    let first = i32::try_from(word).ok()?;
    let span = u32::try_from(word.abs_diff(end)).ok()?;
    Some(Entry {
        word: first,
        span,
        fact,
    })
}

/// The first words of an entry from a word on of which intervals have all or none. They are pushed to the pieces, if
/// they are kept.
#[inline(always)]
fn cut_run<'a>(
    pieces: &mut Vec<Entry>,
    side: Side,
    entry: &Entry,
    left: &'a [Interval],
    word: i64,
) -> Option<Run<'a>>
    requires order { InOrder IntervalKeeps behind_interval least_word left.now }
    requires alone { loop_of entry.now.fact ≡ None }
    requires begun { entry.now.word ≤ℤ word }
    requires some { word <ℤ end_of entry.now }
    ensures cut { IfSome result (λ run.
        CutsOn side entry.now pieces.old.items pieces.new.items left.now run.rest.now word run.end) }
    ensures order { IfSome result (λ run. InOrder IntervalKeeps behind_interval least_word run.rest.now) }
    ensures ahead { IfSome result (λ run. word <ℤ run.end) }
    ensures within { IfSome result (λ run. run.end ≤ℤ end_of entry.now) }
{
    let run = run_from(left, word, end_of(entry));
    if !side.is_on_side(run.is_among) {
        return Some(run);
    }
    let piece = piece_of(entry.fact, word, run.end)?;
    push(pieces, piece)?;
    Some(run)
}

/// What is left of the intervals after an entry of no loop, whose words that are kept are pushed to the pieces.
fn cut_words<'a>(
    pieces: &mut Vec<Entry>,
    side: Side,
    entry: &Entry,
    intervals: &'a [Interval],
) -> Option<&'a [Interval]>
    requires order { InOrder IntervalKeeps behind_interval least_word intervals.now }
    requires alone { loop_of entry.now.fact ≡ None }
    ensures cut { IfSome result (λ next.
        CutsEntry side entry.now pieces.old.items pieces.new.items intervals.now next.now) }
    ensures order { IfSome result (λ next. InOrder IntervalKeeps behind_interval least_word next.now) }
{
    let end = end_of(entry);
    let mut left = intervals;
    let mut word = start_of(entry);
    while word < end {
        let run = cut_run(pieces, side, entry, left, word)?;
        left = run.rest;
        word = run.end;
    }
    Some(left)
}

/// What is left of the intervals after an entry that has words, if they have none of these. The entry is pushed to the
/// pieces as it is, if such words are kept.
fn cut_loop<'a>(
    pieces: &mut Vec<Entry>,
    side: Side,
    entry: &Entry,
    intervals: &'a [Interval],
) -> Option<&'a [Interval]>
    requires order { InOrder IntervalKeeps behind_interval least_word intervals.now }
    ensures cut { IfSome result (λ next.
        CutsEntry side entry.now pieces.old.items pieces.new.items intervals.now next.now) }
    ensures order { IfSome result (λ next. InOrder IntervalKeeps behind_interval least_word next.now) }
{
    let start = start_of(entry);
    let end = end_of(entry);
    if end <= start {
        return None;
    }
    let run = run_from(intervals, start, end);
    if run.is_among || run.end < end {
        return None;
    }
    if !side.is_on_side(false) {
        return Some(run.rest);
    }
    push(pieces, *entry)?;
    Some(run.rest)
}

/// What is left of the intervals after an entry, whose words that are kept are pushed to the pieces.
fn cut_entry<'a>(
    pieces: &mut Vec<Entry>,
    side: Side,
    entry: &Entry,
    intervals: &'a [Interval],
) -> Option<&'a [Interval]>
    requires order { InOrder IntervalKeeps behind_interval least_word intervals.now }
    ensures cut { IfSome result (λ next.
        CutsEntry side entry.now pieces.old.items pieces.new.items intervals.now next.now) }
    ensures order { IfSome result (λ next. InOrder IntervalKeeps behind_interval least_word next.now) }
{
    match loop_of(entry.fact) {
        Some(_) => cut_loop(pieces, side, entry, intervals),
        None => cut_words(pieces, side, entry, intervals),
    }
}

/// The entries of a row in three parts.
#[derive(Clone, Copy)]
pub(crate) struct Parts<'a> {
    /// Those that end before all words of intervals.
    pub before: &'a [Entry],
    pub among: &'a [Entry],
    /// Those that begin after all words of intervals.
    pub behind: &'a [Entry],
}

/// The first word that an interval has, and the first after all of them, of intervals that rise.
fn bounds_of(intervals: &[Interval]) -> (i64, i64) {
    match (intervals.first(), intervals.last()) {
        (Some(first), Some(last)) => (i64::from(first.lo), i64::from(last.hi)),
        _ => (i64::MAX, i64::MAX),
    }
}

/// A row in parts, of which only the second one may have words of intervals that rise. It takes a logarithm of steps.
pub(crate) fn parts_of<'a>(row: &'a [Entry], intervals: &[Interval]) -> Parts<'a>
    requires { AreApart row.now }
    ensures all { row.now ≡ result.before.now ++ (result.among.now ++ result.behind.now) }
    ensures before { AreApart result.before.now }
    ensures among { AreApart result.among.now }
    ensures behind { AreApart result.behind.now }
{
    let (first, end) = bounds_of(intervals);
    let (before, rest) = row.split_at(row.partition_point(|entry| end_of(entry) <= first));
    let (among, behind) = rest.split_at(rest.partition_point(|entry| start_of(entry) < end));
    Parts {
        before,
        among,
        behind,
    }
}

/// The pieces become the words of entries that are kept, by one pass over entries and intervals. `None`: an interval
/// has a word of a loop, or there is no capacity for a piece.
pub(crate) fn cut(
    pieces: &mut Vec<Entry>,
    side: Side,
    entries: &[Entry],
    intervals: &[Interval],
) -> Option<()>
    requires apart { AreApart entries.now }
    requires order { InOrder IntervalKeeps behind_interval least_word intervals.now }
    ensures { IfSome result (λ _. AreCut side intervals.now entries.now pieces.new.items) }
{
    pieces.clear();
    let mut rest = entries;
    let mut left = intervals;
    while let Some((entry, later)) = rest.split_first() {
        left = cut_entry(pieces, side, entry, left)?;
        rest = later;
    }
    Some(())
}
