//! Ends that may be no words, before it is seen whether they fit.
ghost use Rattle.std.specs.Prelude.{◌≡◌, ◌≤ℤ◌, ℤ, unwrap_or};
ghost use Rattle.std.specs.Int.{int_min, int_max};
ghost use Rattle.std.specs.Option.{option_map};
ghost use Rattle.word_arithmetic.specs.Range.{Ends, ends_of, InRange, Computes, corners, fitting, full};

use crate::ranges::Range;

/// The range with these ends, where both are words.
pub(super) fn fitting(lo: i64, hi: i64) -> Option<Range>
    requires { lo ≤ℤ hi }
    ensures { (e : Ends) → e.lo ≡ lo → e.hi ≡ hi → option_map ends_of result ≡ fitting e }
{
    match (i32::try_from(lo), i32::try_from(hi)) {
        (Ok(lo), Ok(hi)) => Some(Range { lo, hi }),
        _ => None,
    }
}

/// The least of four results.
fn least(lo_lo: i64, lo_hi: i64, hi_lo: i64, hi_hi: i64) -> i64
    ensures { result ≡ int_min (int_min lo_lo lo_hi) (int_min hi_lo hi_hi) }
{
    lo_lo.min(lo_hi).min(hi_lo.min(hi_hi))
}

/// The greatest of four results.
fn greatest(lo_lo: i64, lo_hi: i64, hi_lo: i64, hi_hi: i64) -> i64
    ensures { result ≡ int_max (int_max lo_lo lo_hi) (int_max hi_lo hi_hi) }
{
    lo_lo.max(lo_hi).max(hi_lo.max(hi_hi))
}

impl Range {
    /// The least range that has the results of an operation on the ends of both, where its own ends are words.
    pub(super) fn corners<F: Fn(i32, i32) -> i64>(self, other: Range, result_of: F) -> Option<Range>
        requires { (x y : ℤ) → InRange (ends_of self) x → InRange (ends_of other) y → F.pre result_of x y }
        ensures { (f : ℤ → ℤ → ℤ) → Computes (F.post result_of) f
            → option_map ends_of result ≡ fitting (corners f (ends_of self) (ends_of other)) }
    {
        let lo_lo = result_of(self.lo, other.lo);
        let lo_hi = result_of(self.lo, other.hi);
        let hi_lo = result_of(self.hi, other.lo);
        let hi_hi = result_of(self.hi, other.hi);
        fitting(
            least(lo_lo, lo_hi, hi_lo, hi_hi),
            greatest(lo_lo, lo_hi, hi_lo, hi_hi),
        )
    }
}

/// The range, or all words where there is none.
pub(super) fn or_full(range: Option<Range>) -> Range
    ensures { ends_of result ≡ unwrap_or (option_map ends_of range) full }
{
    range.unwrap_or(Range::full())
}
