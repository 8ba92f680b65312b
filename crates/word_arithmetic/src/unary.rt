//! The operations of one operand, as those of two.
ghost use Rattle.std.specs.Prelude.{◌≡◌};
ghost use Rattle.std.specs.Option.{option_map};
ghost use Rattle.word_arithmetic.specs.Range.{ends_of};
ghost use Rattle.word_arithmetic.specs.Unary.{unary_computed, unary_result_range};

use crate::bits::not;
use crate::ranges::Range;

/// An operation of one operand.
#[derive(Clone, Copy, Debug)]
pub enum Unary {
    /// The bits that the operand doesn't have.
    Not,
}

#[tactic(auto, unfolding(crate::specs::Unary::unary_computed, crate::specs::Unary::unary_result_range))]
impl Unary {
    /// The result; `None` where the T414 sets the error flag.
    pub fn apply(self, operand: i32) -> Option<i32>
        ensures { result ≡ unary_computed self operand }
    {
        match self {
            Unary::Not => Some(not(operand)),
        }
    }

    /// The range of the results; `None` where some members set the error flag.
    pub fn range(self, operand: Range) -> Option<Range>
        ensures { option_map ends_of result ≡ unary_result_range self (ends_of operand) }
    {
        match self {
            Unary::Not => Some(operand.not()),
        }
    }
}
