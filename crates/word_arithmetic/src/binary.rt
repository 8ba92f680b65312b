//! The operations of two operands, one enum for all: a table of what each computes, and of the range of its results.
ghost use Rattle.std.specs.Prelude.{◌≡◌};
ghost use Rattle.std.specs.Option.{option_map};
ghost use Rattle.word_arithmetic.specs.Range.{ends_of};
ghost use Rattle.word_arithmetic.specs.Binary.{computed, result_range};

use crate::bits::{and, or, xor};
use crate::checked::{checked_add, checked_div, checked_mul, checked_rem, checked_sub};
use crate::compare::is_greater;
use crate::modular::{minus, plus, times};
use crate::ranges::Range;

/// An operation of two operands. The first is the one that a process pushes first, which is in register B at the
/// instruction, and the second is the one in A.
#[derive(Clone, Copy, Debug)]
pub enum Binary {
    /// The checked sum.
    Add,
    /// The checked difference, the first less the second.
    Subtract,
    /// The checked product.
    Multiply,
    /// The checked quotient, rounded towards zero.
    Divide,
    /// The checked remainder, with the sign of the first.
    Remainder,
    /// The sum modulo 2^32.
    Sum,
    /// The difference modulo 2^32, the first less the second.
    Difference,
    /// The product modulo 2^32.
    Product,
    /// The bits that both have.
    And,
    /// The bits that one of them has, or both.
    Or,
    /// The bits that exactly one of them has.
    ExclusiveOr,
    /// 1 if the first is greater, both signed, else 0.
    Greater,
    /// 1 if both are equal, else 0.
    Equal,
}

#[tactic(auto, unfolding(crate::specs::Binary::computed, crate::specs::Binary::result_range))]
impl Binary {
    /// The result; `None` where the T414 sets the error flag.
    pub fn apply(self, left: i32, right: i32) -> Option<i32>
        ensures { result ≡ computed self left right }
    {
        match self {
            Binary::Add => checked_add(left, right),
            Binary::Subtract => checked_sub(left, right),
            Binary::Multiply => checked_mul(left, right),
            Binary::Divide => checked_div(left, right),
            Binary::Remainder => checked_rem(left, right),
            Binary::Sum => Some(plus(left, right)),
            Binary::Difference => Some(minus(left, right)),
            Binary::Product => Some(times(left, right)),
            Binary::And => Some(and(left, right)),
            Binary::Or => Some(or(left, right)),
            Binary::ExclusiveOr => Some(xor(left, right)),
            Binary::Greater => Some(i32::from(is_greater(left, right))),
            Binary::Equal => Some(i32::from(left == right)),
        }
    }

    /// The range of the results; `None` where some members set the error flag.
    pub fn range(self, left: Range, right: Range) -> Option<Range>
        ensures { option_map ends_of result ≡ result_range self (ends_of left) (ends_of right) }
    {
        match self {
            Binary::Add => left.add(right),
            Binary::Subtract => left.sub(right),
            Binary::Multiply => left.mul(right),
            Binary::Divide => left.div(right),
            Binary::Remainder => left.rem(right),
            Binary::Sum => Some(left.plus(right)),
            Binary::Difference => Some(left.minus(right)),
            Binary::Product => Some(left.times(right)),
            Binary::And => Some(left.and(right)),
            Binary::Or => Some(left.or(right)),
            Binary::ExclusiveOr => Some(left.xor(right)),
            Binary::Greater => Some(Range::truths()),
            Binary::Equal => Some(Range::truths()),
        }
    }
}
