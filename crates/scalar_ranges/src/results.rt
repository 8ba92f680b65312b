//! What is known of the results of operators.

ghost use Rattle.std.specs.Prelude.{◌≡◌, pos, ◌≤ℤ◌, ◌<◌, option_map};
ghost use Rattle.word_arithmetic.specs.Range.{ends_of};
ghost use Rattle.scalar_ranges.specs.Values.{operation_of, counts, shifted};
ghost use Rattle.scalar_ranges.specs.Bounds.{gives, by_counts, binary_bound, arithmetic_bound};
ghost use Rattle.scalar_ranges.specs.Bounds.{not_bound, prefix_bound};
ghost use Rattle.scalar_ranges.specs.OperandViews.{before_bound, between_bound};
ghost use Rattle.scalar_ranges.specs.BoundViews.{known, all_known};
ghost use Rattle.scalar_ranges.specs.Shifts.{shifted_word, shift_range};
ghost use Rattle.scalar_ranges.specs.Steps.{and_then, both};

use crate::bounds::{Bound, converted_bound, exactly, truth_bound, within};
use crate::operands::{Before, Between};
use crate::steps::paired;
use occam_parser::{ArithmeticChain, ArithmeticPair, ChainOperator, PairOperator, PrefixOperator};
use word_arithmetic::{Binary, Range, not, shift_left, shift_right};

/// What is known of one operand with what is before it.
pub(crate) fn before_bound(before: Before, operand: Result<Bound, u8>) -> Result<Bound, u8>
    ensures { all_known result ≡ and_then (all_known operand) (before_bound before) }
{
    let operand = operand?;
    match before {
        Before::Operator(operator) => prefix_bound(operator, operand),
        Before::Conversion(to) => converted_bound(to, operand),
    }
}

fn prefix_bound(operator: PrefixOperator, operand: Bound) -> Result<Bound, u8>
    ensures { all_known result ≡ prefix_bound operator (known operand) }
{
    match operator {
        PrefixOperator::Negate => binary_bound(Binary::Subtract, Bound::Exactly(0), operand),
        PrefixOperator::BitNot => not_bound(operand),
        PrefixOperator::Not => Ok(truth_bound()),
    }
}

/// What is known of two operands with what is between them.
pub(crate) fn between_bound(
    between: Between,
    left: Result<Bound, u8>,
    right: Result<Bound, u8>,
) -> Result<Bound, u8>
    ensures { all_known result ≡ both (all_known left) (all_known right) (between_bound between) }
{
    let (left, right) = paired(left, right)?;
    match between {
        Between::Pair(PairOperator::Arithmetic(operator)) => arithmetic_bound(
            operator, left, right,
        ),
        Between::Chain(ChainOperator::Arithmetic(operator)) => {
            binary_bound(operation_of(operator), left, right)
        }
        Between::Pair(PairOperator::Comparison(_)) | Between::Chain(ChainOperator::Logic(_)) => {
            Ok(truth_bound())
        }
    }
}

/// The operation of words that an operator is.
fn operation_of(operator: ArithmeticChain) -> Binary
    ensures { result ≡ operation_of operator }
{
    match operator {
        ArithmeticChain::Add => Binary::Add,
        ArithmeticChain::Multiply => Binary::Multiply,
        ArithmeticChain::Plus => Binary::Sum,
        ArithmeticChain::Times => Binary::Product,
        ArithmeticChain::BitAnd => Binary::And,
        ArithmeticChain::BitOr => Binary::Or,
        ArithmeticChain::BitXor => Binary::ExclusiveOr,
    }
}

fn arithmetic_bound(operator: ArithmeticPair, left: Bound, right: Bound) -> Result<Bound, u8>
    ensures { all_known result ≡ arithmetic_bound operator (known left) (known right) }
{
    match operator {
        ArithmeticPair::Subtract => binary_bound(Binary::Subtract, left, right),
        ArithmeticPair::Divide => binary_bound(Binary::Divide, left, right),
        ArithmeticPair::Remainder => binary_bound(Binary::Remainder, left, right),
        ArithmeticPair::Minus => binary_bound(Binary::Difference, left, right),
        ArithmeticPair::ShiftLeft => shift_bound(Shift::Left, left, right),
        ArithmeticPair::ShiftRight => shift_bound(Shift::Right, left, right),
    }
}

fn binary_bound(operation: Binary, left: Bound, right: Bound) -> Result<Bound, u8>
    ensures { all_known result ≡ binary_bound operation (known left) (known right) }
{
    match (left, right) {
        (Bound::Exactly(left), Bound::Exactly(right)) => exactly(operation.apply(left, right)),
        _ => within(operation.range(left.range(), right.range())),
    }
}

fn not_bound(operand: Bound) -> Result<Bound, u8>
    ensures { all_known result ≡ not_bound (known operand) }
{
    match operand {
        Bound::Exactly(value) => Ok(Bound::Exactly(not(value))),
        Bound::Within(_) => Ok(Bound::Within(operand.range().not())),
    }
}

/// A shift of a word by a count of bits.
#[derive(Clone, Copy)]
pub(crate) enum Shift {
    Left,
    Right,
}

impl Shift {
    /// A word that is shifted.
    fn word(self, word: i32, count: u32) -> i32
        requires { count < 32 }
        ensures { result ≡ shifted_word self word count }
    {
        match self {
            Shift::Left => shift_left(word, count),
            Shift::Right => shift_right(word, count),
        }
    }

    /// Where the words of a range lie that are shifted.
    fn range(self, words: Range, bits: Range) -> Range
        requires from_zero { pos 0 ≤ℤ bits.lo }
        requires below_32 { bits.hi ≤ℤ pos 31 }
        ensures { ends_of result ≡ shift_range self (ends_of words) (ends_of bits) }
    {
        match self {
            Shift::Left => words.shift_left(bits),
            Shift::Right => words.shift_right(bits),
        }
    }
}

fn shift_bound(shift: Shift, words: Bound, bits: Bound) -> Result<Bound, u8>
    ensures { all_known result
        ≡ gives (shifted (shifted_word shift)) (by_counts (shift_range shift)) (known words) (known bits) }
{
    match (words, bits) {
        (Bound::Exactly(word), Bound::Exactly(bits)) => exactly(shifted(shift, word, bits)),
        _ => within(shifted_range(shift, words.range(), bits.range())),
    }
}

/// The counts of bits by which a word can be shifted.
fn counts() -> Range
    ensures { ends_of result ≡ counts }
{
    Range::new(0, 31)
}

fn shifted(shift: Shift, word: i32, bits: i32) -> Option<i32>
    ensures { result ≡ shifted (shifted_word shift) word bits }
{
    if counts().contains(bits) {
        Some(shift.word(word, bits.unsigned_abs()))
    } else {
        None
    }
}

fn shifted_range(shift: Shift, words: Range, bits: Range) -> Option<Range>
    ensures { option_map ends_of result ≡ by_counts (shift_range shift) (ends_of words) (ends_of bits) }
{
    if bits.fits_within(counts()) {
        Some(shift.range(words, bits))
    } else {
        None
    }
}
