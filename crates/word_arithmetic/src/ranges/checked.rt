//! The ranges of the checked operations' results: `None` where some members set the error flag.
ghost use Rattle.std.specs.Prelude.{◌≡◌, ◌≢◌, pos, ◌*ℤ◌, int_div, ◌<◌, ◌≤◌, ◌^◌, ◌≤ℤ◌};
ghost use Rattle.std.specs.Option.{option_map};
ghost use Rattle.word_arithmetic.specs.Word.{checked_sum, checked_difference, checked_product, checked_quotient};
ghost use Rattle.word_arithmetic.specs.Word.{checked_remainder};
ghost use Rattle.word_arithmetic.specs.Range.{ends_of, constant, BoundsResults, BoundsExactly, sum_range};
ghost use Rattle.word_arithmetic.specs.Range.{difference_range, product_range, quotient_range, can_fail_to_divide};
ghost use Rattle.word_arithmetic.specs.Range.{greatest_size, lowest_remainder, highest_remainder, remainder_ends};
ghost use Rattle.word_arithmetic.specs.Range.{remainder_range};

use crate::ranges::Range;
use crate::ranges::wide::fitting;
use sum_ends::{Ends, sum_ends};

impl Range {
    /// The range of the sums.
    pub fn add(self, other: Range) -> Option<Range>
        ensures rule { option_map ends_of result ≡ sum_range (ends_of self) (ends_of other) }
        ensures exact { BoundsExactly checked_sum
            (ends_of self) (ends_of other) (option_map ends_of result) }
    {
        let sums = sum_ends(self.ends(), other.ends());
        fitting(sums.lo, sums.hi)
    }

    /// The ends of the range.
    fn ends(self) -> Ends<i32>
        ensures lo { result.lo ≡ self.lo }
        ensures hi { result.hi ≡ self.hi }
    {
        Ends {
            lo: self.lo,
            hi: self.hi,
        }
    }

    /// The range of the sums with one word.
    pub fn add_constant(self, word: i32) -> Option<Range>
        ensures rule { option_map ends_of result ≡ sum_range (ends_of self) (constant word) }
        ensures exact { BoundsExactly checked_sum
            (ends_of self) (constant word) (option_map ends_of result) }
    {
        self.add(Range::constant(word))
    }

    /// The range of the differences, this range's words less the other's.
    pub fn sub(self, other: Range) -> Option<Range>
        ensures rule { option_map ends_of result ≡ difference_range (ends_of self) (ends_of other) }
        ensures exact { BoundsExactly checked_difference
            (ends_of self) (ends_of other) (option_map ends_of result) }
    {
        fitting(
            i64::from(self.lo) - i64::from(other.hi),
            i64::from(self.hi) - i64::from(other.lo),
        )
    }

    /// The range of the products.
    pub fn mul(self, other: Range) -> Option<Range>
        ensures rule { option_map ends_of result ≡ product_range (ends_of self) (ends_of other) }
        ensures exact { BoundsExactly checked_product
            (ends_of self) (ends_of other) (option_map ends_of result) }
    {
        self.corners(other, product)
    }

    /// The range of the quotients, rounded towards zero.
    pub fn div(self, divisor: Range) -> Option<Range>
        ensures rule { option_map ends_of result ≡ quotient_range (ends_of self) (ends_of divisor) }
        ensures exact { BoundsExactly checked_quotient
            (ends_of self) (ends_of divisor) (option_map ends_of result) }
    {
        if divisor.contains(0) {
            return None;
        }
        self.corners(divisor, quotient)
    }

    /// The range of the remainders, which have the sign of the dividend.
    pub fn rem(self, divisor: Range) -> Option<Range>
        ensures rule { option_map ends_of result ≡ remainder_range (ends_of self) (ends_of divisor) }
        ensures bounds { BoundsResults checked_remainder
            (ends_of self) (ends_of divisor) (option_map ends_of result) }
    {
        if self.can_fail_to_divide(divisor) {
            return None;
        }
        Some(self.remainders(divisor.greatest_size()))
    }

    /// The range of the remainders by divisors of at most this size.
    fn remainders(self, size: u32) -> Range
        requires some { 0 < size }
        requires bound { size ≤ 2 ^ 31 }
        ensures { ends_of result ≡ remainder_ends (ends_of self) size }
    {
        Range {
            lo: lowest_remainder(self.lo, size),
            hi: highest_remainder(self.hi, size),
        }
    }

    /// Whether a divisor is 0, or MostNeg is divided by -1.
    fn can_fail_to_divide(self, divisor: Range) -> bool
        ensures { result ≡ can_fail_to_divide (ends_of self) (ends_of divisor) }
    {
        divisor.contains(0) || (self.contains(i32::MIN) && divisor.contains(-1))
    }

    /// The greatest size of a word in the range; of MostNeg that is 2^31.
    fn greatest_size(self) -> u32
        ensures value { result ≡ greatest_size (ends_of self) }
        ensures bound { result ≤ 2 ^ 31 }
    {
        self.lo.unsigned_abs().max(self.hi.unsigned_abs())
    }
}

fn product(left: i32, right: i32) -> i64
    ensures { result ≡ left *ℤ right }
{
    i64::from(left) * i64::from(right)
}

fn quotient(dividend: i32, divisor: i32) -> i64
    requires { divisor ≢ pos 0 }
    ensures { result ≡ int_div dividend divisor }
{
    i64::from(dividend) / i64::from(divisor)
}

/// The least remainder of dividends from `lo` on by divisors of at most this size.
fn lowest_remainder(lo: i32, size: u32) -> i32
    requires some { 0 < size }
    requires bound { size ≤ 2 ^ 31 }
    ensures value { result ≡ lowest_remainder lo size }
    ensures sign { result ≤ℤ pos 0 }
{
    if 0 <= lo {
        0
    } else {
        lo.max(-((size - 1) as i32))
    }
}

/// The greatest remainder of dividends up to `hi` by divisors of at most this size.
fn highest_remainder(hi: i32, size: u32) -> i32
    requires some { 0 < size }
    requires bound { size ≤ 2 ^ 31 }
    ensures value { result ≡ highest_remainder hi size }
    ensures sign { pos 0 ≤ℤ result }
{
    if hi <= 0 {
        0
    } else {
        hi.min((size - 1) as i32)
    }
}
