//! Words that intervals have.

ghost use Rattle.std.specs.Prelude.{◌≡◌, ℤ, ◌≤ℤ◌, ◌<ℤ◌, ◌||◌, true, false, IsTrue, IsFalse};
ghost use Rattle.module_format.specs.Order.{InOrder, least_word};
ghost use Rattle.module_format.specs.Pars.{IntervalKeeps, behind_interval};
ghost use Rattle.certificate.specs.Rights.{is_among};

use module_format::Interval;

/// Some words from a word on, of which intervals have all or none.
#[derive(Clone, Copy)]
pub(crate) struct Run<'a> {
    /// The intervals without those that end at the word or before it.
    pub rest: &'a [Interval],
    /// Whether an interval has the words.
    pub is_among: bool,
    /// The first word after them.
    pub end: i64,
}

/// The words from a word on, up to `end` at most (not included), of which intervals, which rise, have all or none.
#[inline(always)]
pub(crate) fn run_from<'a>(intervals: &'a [Interval], word: i64, end: i64) -> Run<'a>
    requires order { InOrder IntervalKeeps behind_interval least_word intervals.now }
    requires some { word <ℤ end }
    ensures later { (k : ℤ) → word ≤ℤ k → is_among result.rest.now k ≡ is_among intervals.now k }
    ensures alike { (k : ℤ) → word ≤ℤ k → k <ℤ result.end → is_among intervals.now k ≡ result.is_among }
    ensures some { word <ℤ result.end }
    ensures within { result.end ≤ℤ end }
    ensures order { InOrder IntervalKeeps behind_interval least_word result.rest.now }
{
    let mut rest = intervals;
    while let Some((first, later)) = rest.split_first() {
        if word < i64::from(first.lo) {
            return Run {
                rest,
                is_among: false,
                end: i64::from(first.lo).min(end),
            };
        }
        if word < i64::from(first.hi) {
            return Run {
                rest,
                is_among: true,
                end: i64::from(first.hi).min(end),
            };
        }
        rest = later;
    }
    Run {
        rest,
        is_among: false,
        end,
    }
}

/// Intervals from some word on.
#[derive(Clone, Copy)]
struct Stretch<'a> {
    /// The intervals without those that end at the word or before it.
    rest: &'a [Interval],
    /// The first word after those that an interval has from the word on: the word itself, if none has it.
    end: i64,
}

/// Intervals, which rise, from a word on, whose words are counted up to `end` at most (not included).
fn stretch_from<'a>(intervals: &'a [Interval], word: i64, end: i64) -> Stretch<'a>
    requires order { InOrder IntervalKeeps behind_interval least_word intervals.now }
    requires some { word <ℤ end }
    ensures later { (k : ℤ) → word ≤ℤ k → is_among result.rest.now k ≡ is_among intervals.now k }
    ensures within { (k : ℤ) → word ≤ℤ k → k <ℤ result.end → is_among intervals.now k ≡ true }
    ensures outside { result.end ≤ℤ word → is_among intervals.now word ≡ false }
    ensures order { InOrder IntervalKeeps behind_interval least_word result.rest.now }
{
    let run = run_from(intervals, word, end);
    if run.is_among {
        return Stretch {
            rest: run.rest,
            end: run.end,
        };
    }
    Stretch {
        rest: run.rest,
        end: word,
    }
}

/// Whether intervals, which rise, or others have each of the words from the first up to `end` (not included). The time
/// grows with their number.
pub(crate) fn have_words(intervals: &[Interval], others: &[Interval], first: i64, end: i64) -> bool
    requires order { InOrder IntervalKeeps behind_interval least_word intervals.now }
    requires others { InOrder IntervalKeeps behind_interval least_word others.now }
    ensures yes { IsTrue result → (k : ℤ) → first ≤ℤ k → k <ℤ end
        → is_among intervals.now k || is_among others.now k ≡ true }
    ensures no { IsFalse result → (k : ℤ) × (first ≤ℤ k) × (k <ℤ end)
        × (is_among intervals.now k || is_among others.now k ≡ false) }
{
    let mut ones = intervals;
    let mut rest = others;
    let mut word = first;
    while word < end {
        let here = stretch_from(ones, word, end);
        let there = stretch_from(rest, word, end);
        let next = here.end.max(there.end);
        if next <= word {
            return false;
        }
        ones = here.rest;
        rest = there.rest;
        word = next;
    }
    true
}
