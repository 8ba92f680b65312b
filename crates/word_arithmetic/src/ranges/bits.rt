//! The ranges of results of operations on bits.
ghost use Rattle.std.specs.Prelude.{◌≡◌, ℤ, pos, ◌≤ℤ◌, ◌^◌, ◌*ℤ◌, ◌&&◌, unsigned_abs};
ghost use Rattle.std.specs.Int.{int_max};
ghost use Rattle.word_arithmetic.specs.Word.{word_and, word_or, word_xor, word_not, shifted_left, shifted_right};
ghost use Rattle.word_arithmetic.specs.Range.{ends_of, InRange, ResultsStay, is_constant, is_not_negative, zero_to};
ghost use Rattle.word_arithmetic.specs.Range.{bits_range, all_ones, not_range, and_range, or_range, xor_range};
ghost use Rattle.word_arithmetic.specs.Range.{shift_left_range, shift_right_range};

use crate::ranges::Range;
use crate::ranges::wide::{fitting, or_full};

impl Range {
    /// The range of the complements.
    pub fn not(self) -> Range
        ensures rule { ends_of result ≡ not_range (ends_of self) }
        ensures members { (x : ℤ) → InRange (ends_of self) x → InRange (ends_of result) (word_not x) }
    {
        Range {
            lo: !self.hi,
            hi: !self.lo,
        }
    }

    /// The range of the bits that both words have.
    pub fn and(self, other: Range) -> Range
        ensures rule { ends_of result ≡ and_range (ends_of self) (ends_of other) }
        ensures members { ResultsStay word_and (ends_of self) (ends_of other) (ends_of result) }
    {
        self.bits(other, self.lo & other.lo, self.hi.min(other.hi))
    }

    /// The range of the bits that one of the words has, or both.
    pub fn or(self, other: Range) -> Range
        ensures rule { ends_of result ≡ or_range (ends_of self) (ends_of other) }
        ensures members { ResultsStay word_or (ends_of self) (ends_of other) (ends_of result) }
    {
        self.either(other, self.lo | other.lo)
    }

    /// The range of the bits that exactly one of the words has.
    pub fn xor(self, other: Range) -> Range
        ensures rule { ends_of result ≡ xor_range (ends_of self) (ends_of other) }
        ensures members { ResultsStay word_xor (ends_of self) (ends_of other) (ends_of result) }
    {
        self.either(other, self.lo ^ other.lo)
    }

    /// The range of an operation that gives no bit which neither operand has.
    fn either(self, other: Range, of_constants: i32) -> Range
        ensures { (value : ℤ) → value ≡ of_constants
            → ends_of result ≡ bits_range value (all_ones (int_max self.hi other.hi)) (ends_of self) (ends_of other) }
    {
        self.bits(other, of_constants, all_ones(self.hi.max(other.hi)))
    }

    /// The range of an operation on bits: the result of two constants, or 0 to `top` where no word is negative.
    fn bits(self, other: Range, of_constants: i32, top: i32) -> Range
        requires { pos 0 ≤ℤ self.lo → pos 0 ≤ℤ other.lo → pos 0 ≤ℤ top }
        ensures { (value hi : ℤ) → value ≡ of_constants → hi ≡ top
            → ends_of result ≡ bits_range value hi (ends_of self) (ends_of other) }
    {
        if self.is_single_with(other) {
            return Range::constant(of_constants);
        }
        if self.is_not_negative_with(other) {
            return Range::zero_to(top);
        }
        Range::full()
    }

    /// The range of the words shifted left by the counts.
    pub fn shift_left(self, counts: Range) -> Range
        requires from_zero { pos 0 ≤ℤ counts.lo }
        requires below_32 { counts.hi ≤ℤ pos 31 }
        ensures rule { ends_of result ≡ shift_left_range (ends_of self) (ends_of counts) }
        ensures members { ResultsStay (λ x count. shifted_left x (unsigned_abs count))
            (ends_of self) (ends_of counts) (ends_of result) }
    {
        if !self.is_not_negative() {
            return Range::full();
        }
        or_full(fitting(0, scaled(self.hi, counts.hi)))
    }

    /// The range of the words shifted right by the counts. It is the same for all counts.
    pub fn shift_right(self, counts: Range) -> Range
        requires from_zero { pos 0 ≤ℤ counts.lo }
        requires below_32 { counts.hi ≤ℤ pos 31 }
        ensures rule { ends_of result ≡ shift_right_range (ends_of self) }
        ensures members { ResultsStay (λ x count. shifted_right x (unsigned_abs count))
            (ends_of self) (ends_of counts) (ends_of result) }
    {
        if !self.is_not_negative() {
            return Range::full();
        }
        Range::zero_to(self.hi)
    }

    /// Whether both ranges have only one word.
    fn is_single_with(self, other: Range) -> bool
        ensures { result ≡ (is_constant (ends_of self) && is_constant (ends_of other)) }
    {
        self.lo == self.hi && other.lo == other.hi
    }

    /// Whether no word of both ranges is negative.
    fn is_not_negative_with(self, other: Range) -> bool
        ensures { result ≡ (is_not_negative (ends_of self) && is_not_negative (ends_of other)) }
    {
        self.is_not_negative() && other.is_not_negative()
    }

    /// Whether no word of the range is negative.
    fn is_not_negative(self) -> bool
        ensures { result ≡ is_not_negative (ends_of self) }
    {
        0 <= self.lo
    }

    /// The words from 0 to `hi`.
    fn zero_to(hi: i32) -> Range
        requires { pos 0 ≤ℤ hi }
        ensures { ends_of result ≡ zero_to hi }
    {
        Range { lo: 0, hi }
    }
}

/// A word that isn't negative, times 2 to a power from 0 to 31.
fn scaled(word: i32, exponent: i32) -> i64
    requires sign { pos 0 ≤ℤ word }
    requires from_zero { pos 0 ≤ℤ exponent }
    requires below_32 { exponent ≤ℤ pos 31 }
    ensures value { result ≡ word *ℤ pos (2 ^ unsigned_abs exponent) }
    ensures sign { pos 0 ≤ℤ result }
{
    multiplied(word, power_of_two(exponent))
}

/// A word times a factor.
fn multiplied(word: i32, factor: u32) -> i64
    ensures { result ≡ word *ℤ pos factor }
{
    i64::from(word) * i64::from(factor)
}

/// 2 to a power from 0 to 31.
fn power_of_two(exponent: i32) -> u32
    requires from_zero { pos 0 ≤ℤ exponent }
    requires below_32 { exponent ≤ℤ pos 31 }
    ensures { result ≡ 2 ^ unsigned_abs exponent }
{
    1 << exponent as u32
}

/// The word with ones from the place of this word's highest one down.
fn all_ones(word: i32) -> i32
    ensures value { result ≡ all_ones word }
    ensures sign { pos 0 ≤ℤ word → pos 0 ≤ℤ result }
{
    (((1u64 << (32 - word.leading_zeros())) - 1) as u32).cast_signed()
}
