//! What the machine may learn from a condition.

ghost use Rattle.std.specs.Prelude.{◌≡◌};
ghost use Rattle.occam_parser.specs.Views.{expression_of, term_of};
ghost use Rattle.scalar_ranges.specs.Scopes.{entries_of};
ghost use Rattle.line_pieces.specs.Actions.{may_be_word, may_show};

use crate::expressions::single;
use occam_parser::{Expr, Operand, Operation};
use scalar_ranges::{Scope, range_of, read_operand};

/// Whether the machine may know which word of the frame an operand is.
fn may_be_word(scope: &Scope, operand: &Operand) -> bool
    ensures { result ≡ may_be_word (entries_of scope.now) (term_of operand.now) }
{
    match operand {
        Operand::Element { subscript, .. } => single(range_of(scope, subscript)).is_some(),
        Operand::Integer(_)
        | Operand::Character(_)
        | Operand::Truth(_)
        | Operand::MostPos
        | Operand::MostNeg
        | Operand::Name(_)
        | Operand::Bracketed(_)
        | Operand::Converted { .. } => read_operand(scope, operand).value().is_none(),
    }
}

/// Whether a condition may show something of a word.
pub(crate) fn may_show(scope: &Scope, condition: &Expr) -> bool
    ensures { result ≡ may_show (entries_of scope.now) (expression_of condition.now) }
{
    match &*condition.operation {
        Operation::Pair { left, right, .. } => {
            let left = may_be_word(scope, left);
            let right = may_be_word(scope, right);
            left || right
        }
        Operation::Chain { .. } => false,
        Operation::Operand(_) | Operation::Prefix { .. } => true,
    }
}
