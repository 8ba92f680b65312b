//! Sets of places as spans, in normal form: rising, with a gap between any two.

ghost use Rattle.std.specs.Prelude.{◌≡◌, ◌+◌, ◌<◌, ◌++◌, ◌&&◌, not, IfOk, nat_lt, nat_le, int_le, pos, ◌+ℤ◌};
ghost use Rattle.std.specs.Prelude.{ℕ};
ghost use Rattle.std.specs.List.{list_any, list_all};
ghost use Rattle.std.specs.List.Sorted.{IsNonDecreasingBy};
ghost use Rattle.machine_state.specs.Covering.{covered, piece};
ghost use Rattle.machine_state.specs.Holding.{covers};
ghost use Rattle.machine_state.specs.Spans.{runs, lies_in, stretches_over};
ghost use Rattle.machine_state.specs.Stretches.{stretch_view};
ghost use Rattle.machine_state.specs.declared.spans.Stretch.{Stretch as Kept};

use crate::holding::Span;
use std::alloc::{AllocError, Global};

/// Adds the places from one up to another, if there are any.
fn add(spans: &mut Vec<Span>, start: u32, end: u32) -> Result<(), AllocError>
    ensures { IfOk result (λ _. spans.new.items ≡ spans.old.items ++ piece start end) }
{
    if start < end {
        spans.push(Span { start, end })?;
    }
    Ok(())
}

/// The places below `end` that none of the spans covers, which begin one after the other.
fn gaps_in_order(alloc: Global, spans: &[Span], end: u32) -> Result<Vec<Span>, AllocError>
    requires { IsNonDecreasingBy (λ (span : Span). span.start) spans.now }
    ensures { IfOk result (λ v. v.items ≡ runs (λ place. not (covered spans.now place)) 0 end) }
{
    let mut gaps = Vec::new(alloc);
    let mut from = 0;
    for span in spans {
        if span.start < span.end && span.start < end {
            add(&mut gaps, from, span.start)?;
            from = from.max(span.end);
        }
    }
    add(&mut gaps, from, end)?;
    Ok(gaps)
}

/// The places below `end` that none of the spans covers.
fn gaps(alloc: Global, mut spans: Vec<Span>, end: u32) -> Result<Vec<Span>, AllocError>
    ensures { IfOk result (λ v. v.items ≡ runs (λ place. not (covered spans.items place)) 0 end) }
{
    spans.sort_unstable_by_key(|span| span.start);
    gaps_in_order(alloc, &spans, end)
}

/// The places below `end` that some spans cover and others do not. It takes time n log n in both.
pub fn without(
    alloc: Global,
    spans: &[Span],
    others: &[Span],
    end: u32,
) -> Result<Vec<Span>, AllocError>
    ensures { let test = λ (place : ℕ). covered spans.now place && not (covered others.now place) in
        IfOk result (λ v. v.items ≡ runs test 0 end) }
{
    let copy = Vec::from_slice(alloc, spans)?;
    let mut taken = gaps(alloc, copy, end)?;
    taken.extend_from_slice(others)?;
    gaps(alloc, taken, end)
}

/// Places from one on, which need not lie in memory.
#[derive(Clone, Copy)]
pub struct Stretch {
    /// The first of them.
    pub start: i64,
    /// How many there are.
    pub size: u64,
}

impl Stretch {
    /// Whether they lie in a memory of `end` places.
    pub fn lies_in(&self, end: u32) -> bool
        ensures { result ≡ lies_in end (stretch_view self.now) }
    {
        let end = u64::from(end);
        self.start >= 0 && self.size <= end && self.start as u64 <= end - self.size
    }

    /// Whether the place is among them.
    pub fn covers(&self, place: u64) -> bool
        ensures { result ≡ stretches_over (stretch_view self.now) place }
    {
        if self.start < 0 {
            let before = self.start.unsigned_abs();
            before < self.size && place < self.size - before
        } else {
            let start = self.start as u64;
            start <= place && place - start < self.size
        }
    }

    /// The first of them that is not before the first place, or `end`.
    fn first(&self, end: u32) -> u32
        ensures { (place : ℕ) → place < end → nat_le result place ≡ int_le self.now.start (pos place) }
    {
        if self.start <= 0 {
            0
        } else if self.start >= i64::from(end) {
            end
        } else {
            self.start as u32
        }
    }

    /// The first after them that is not before the first place, or `end`.
    fn behind(&self, end: u32) -> u32
        ensures { (place : ℕ) → place < end →
            nat_lt place result ≡ int_le (pos (place + 1)) (self.now.start +ℤ pos self.now.size) }
    {
        let last = u64::from(end);
        if self.start < 0 {
            let before = self.start.unsigned_abs();
            if self.size <= before {
                0
            } else if self.size - before >= last {
                end
            } else {
                (self.size - before) as u32
            }
        } else {
            let start = self.start as u64;
            if start >= last || self.size >= last - start {
                end
            } else {
                (start + self.size) as u32
            }
        }
    }

    /// Those of them that lie in a memory of `end` places.
    pub fn within(&self, end: u32) -> Span
        ensures { (place : ℕ) → place < end →
            covers result place ≡ stretches_over (stretch_view self.now) place }
    {
        Span {
            start: self.first(end),
            end: self.behind(end),
        }
    }
}

/// Those of the places that lie in a memory of `end` places.
pub fn places_within(
    alloc: Global,
    stretches: &[Stretch],
    end: u32,
) -> Result<Vec<Span>, AllocError>
    ensures { IfOk result (λ v. (place : ℕ) → place < end → covered v.items place
        ≡ list_any (λ (s : Kept). stretches_over (stretch_view s) place) stretches.now) }
{
    let mut spans = Vec::new(alloc);
    for stretch in stretches {
        spans.push(stretch.within(end))?;
    }
    Ok(spans)
}

/// Whether all of them lie in a memory of `end` places.
pub fn all_lie_in(stretches: &[Stretch], end: u32) -> bool
    ensures { result ≡ list_all (λ (s : Kept). lies_in end (stretch_view s)) stretches.now }
{
    stretches.iter().all(|stretch| stretch.lies_in(end))
}
