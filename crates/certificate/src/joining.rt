//! Intervals that are joined, so that one search says whether they have some neighbouring words.

ghost use Rattle.std.specs.Prelude.{◌≡◌, ◌||◌, ◌≤ℤ◌, ℤ, IfOk};
ghost use Rattle.module_format.specs.Order.{InOrder, least_word};
ghost use Rattle.module_format.specs.Pars.{IntervalKeeps};
ghost use Rattle.certificate.specs.Rights.{is_among};
ghost use Rattle.certificate.specs.Words.{all_words, is_in_interval, beyond_interval, AreJoined, IsAdded, BeginBy};
ghost use Rattle.certificate.specs.Words.{BeginInOrder};

use module_format::Interval;
use std::alloc::{AllocError, Global};

/// Sorts intervals by their first words.
fn sort(intervals: &mut Vec<Interval>)
    ensures same { (k : ℤ) → is_among intervals.new.items k ≡ is_among intervals.old.items k }
    ensures order { BeginInOrder intervals.new.items }
{
    intervals.sort_unstable_by_key(|interval| interval.lo);
}

/// The words of an interval and of another one, which begins in it or where it ends.
fn widened(interval: Interval, other: Interval) -> Interval
    requires begins { interval.lo ≤ℤ other.lo }
    requires touches { other.lo ≤ℤ interval.hi }
    ensures words { (k : ℤ) → is_in_interval result k ≡ (is_in_interval interval k || is_in_interval other k) }
    ensures lo { result.lo ≡ interval.lo }
    ensures hi { interval.hi ≤ℤ result.hi }
{
    if interval.hi < other.hi {
        Interval {
            lo: interval.lo,
            hi: other.hi,
        }
    } else {
        interval
    }
}

/// Adds the words of an interval to joined ones, of which none begins after it.
fn add(joined: &mut Vec<Interval>, interval: Interval) -> Result<(), AllocError>
    requires apart { InOrder IntervalKeeps beyond_interval least_word joined.old.items }
    requires begun { BeginBy interval.lo joined.old.items }
    ensures { IfOk result (λ _. IsAdded joined.old.items interval joined.new.items) }
{
    if interval.hi <= interval.lo {
        return Ok(());
    }
    let Some(last) = joined.pop() else {
        joined.push(interval)?;
        return Ok(());
    };
    if interval.lo <= last.hi {
        joined.push(widened(last, interval))?;
    } else {
        joined.push(last)?;
        joined.push(interval)?;
    }
    Ok(())
}

/// The words of some intervals, as intervals that rise, of which no two touch. It takes time n log n in them.
pub(crate) fn joined(
    alloc: Global,
    mut intervals: Vec<Interval>,
) -> Result<Vec<Interval>, AllocError>
    ensures { IfOk result (λ joined. AreJoined (is_among intervals.items) joined.items) }
{
    sort(&mut intervals);
    let mut joined = Vec::new(alloc);
    let mut rest = intervals.as_slice();
    while let Some((interval, after)) = rest.split_first() {
        add(&mut joined, *interval)?;
        rest = after;
    }
    Ok(joined)
}

/// Whether joined intervals have `count` words from the first one on. It takes time logarithmic in them.
pub(crate) fn have_words(joined: &[Interval], first: i32, count: u32) -> bool
    requires { InOrder IntervalKeeps beyond_interval least_word joined.now }
    ensures { result ≡ all_words (is_among joined.now) first count }
{
    if count == 0 {
        return true;
    }
    let lo = i64::from(first);
    let hi = lo + i64::from(count);
    let index = joined.partition_point(|interval| i64::from(interval.hi) <= lo);
    match joined.get(index) {
        Some(interval) => i64::from(interval.lo) <= lo && hi <= i64::from(interval.hi),
        None => false,
    }
}
