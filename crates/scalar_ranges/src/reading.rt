//! What is read of expressions: their types, and what is known of their numbers.

ghost use Rattle.std.specs.Prelude.{◌≡◌, Ok, option_map};
ghost use Rattle.occam_parser.specs.Views.{expression_of, term_of};
ghost use Rattle.scalar_ranges.specs.Scopes.{entries_of, meaning_of};
ghost use Rattle.scalar_ranges.specs.Steps.{and_then, both};
ghost use Rattle.scalar_ranges.specs.Types.{type_of, type_of_term, named_type, element_type, subscripted};
ghost use Rattle.scalar_ranges.specs.Bounds.{Exactly, bound_of, bound_of_term, named_bound, element_bound};
ghost use Rattle.scalar_ranges.specs.Bounds.{exact_value, range_found};
ghost use Rattle.scalar_ranges.specs.OperandViews.{before_type, between_type, before_bound, between_bound};
ghost use Rattle.scalar_ranges.specs.BoundViews.{all_known, all_ends};

use crate::bounds::{Bound, element_bound, named_bound, truth_bound};
use crate::operands::{Before, Between};
use crate::results::{before_bound, between_bound};
use crate::scope::{Meaning, Scope};
use crate::types::{ExprType, before_type, between_type, named_type, subscripted_type};
use occam_parser::{Expr, Operand, Operation};
use word_arithmetic::Range;

/// What is read of an expression or of a part of it.
#[derive(Clone, Copy)]
pub struct Reading {
    /// The type, or the number of a fault if there is none, as [`type_of`](crate::type_of) returns it.
    pub expr_type: Result<ExprType, u8>,
    /// What is known of the number, or the number of a fault.
    pub(crate) bound: Result<Bound, u8>,
}

/// What is read of an expression: its type, its value and its range, in one walk.
#[cycle(read)]
#[tactic(auto, unfolding(crate::proofs::Chains::chain_after))]
pub fn read(scope: &Scope, expr: &Expr) -> Reading
    ensures types { result.expr_type ≡ type_of (entries_of scope.now) (expression_of expr.now) }
    ensures bounds { all_known result.bound ≡ bound_of (entries_of scope.now) (expression_of expr.now) }
{
    match &*expr.operation {
        Operation::Operand(operand) => read_operand(scope, operand),
        Operation::Prefix { operator, operand } => {
            read_operand(scope, operand).prefixed(Before::Operator(*operator))
        }
        Operation::Pair {
            operator,
            left,
            right,
        } => {
            let left = read_operand(scope, left);
            left.combined(Between::Pair(*operator), read_operand(scope, right))
        }
        Operation::Chain {
            operator,
            first,
            second,
            others,
        } => {
            let first = read_operand(scope, first);
            let mut found = first.combined(Between::Chain(*operator), read_operand(scope, second));
            for other in others {
                found = found.combined(Between::Chain(*operator), read_operand(scope, other));
            }
            found
        }
    }
}

/// What is read of an operand, as [`read`] reads an expression.
#[cycle(read)]
pub fn read_operand(scope: &Scope, operand: &Operand) -> Reading
    ensures types { result.expr_type ≡ type_of_term (entries_of scope.now) (term_of operand.now) }
    ensures bounds { all_known result.bound ≡ bound_of_term (entries_of scope.now) (term_of operand.now) }
{
    match operand {
        Operand::Integer(value) => Reading::constant(ExprType::Int, *value),
        Operand::Character(byte) => Reading::constant(ExprType::Byte, i32::from(*byte)),
        Operand::Truth(_) => Reading {
            expr_type: Ok(ExprType::Condition),
            bound: Ok(truth_bound()),
        },
        Operand::MostPos => Reading::constant(ExprType::Int, i32::MAX),
        Operand::MostNeg => Reading::constant(ExprType::Int, i32::MIN),
        Operand::Name(name) => Reading::named(scope.meaning(name)),
        Operand::Element { name, subscript } => read(scope, subscript).element_of(scope.meaning(
            name,
        )),
        Operand::Bracketed(inner) => read(scope, inner),
        Operand::Converted { to, operand } => {
            read_operand(scope, operand).prefixed(Before::Conversion(*to))
        }
    }
}

impl Reading {
    /// The value of a constant expression; `None` if the expression is no constant or has no value.
    pub fn value(self) -> Option<i32>
        ensures { result ≡ exact_value (all_known self.bound) }
    {
        match self.bound {
            Ok(Bound::Exactly(value)) => Some(value),
            _ => None,
        }
    }

    /// Where the value lies; for a condition, the range of the truth values. The error is
    /// [`OUT_OF_RANGE`](crate::OUT_OF_RANGE) or [`OUTSIDE`](crate::OUTSIDE), the lower one of two on both sides of an
    /// operator.
    pub fn range(self) -> Result<Range, u8>
        ensures { all_ends result ≡ range_found (all_known self.bound) }
    {
        Ok(self.bound?.range())
    }

    /// A constant of this type.
    fn constant(expr_type: ExprType, value: i32) -> Reading
        ensures types { result.expr_type ≡ Ok expr_type }
        ensures bounds { all_known result.bound ≡ Ok (Exactly value) }
    {
        Reading {
            expr_type: Ok(expr_type),
            bound: Ok(Bound::Exactly(value)),
        }
    }

    /// A name without a subscript.
    fn named(meaning: Option<Meaning>) -> Reading
        ensures types { result.expr_type ≡ named_type (option_map meaning_of meaning) }
        ensures bounds { all_known result.bound ≡ named_bound (option_map meaning_of meaning) }
    {
        Reading {
            expr_type: named_type(meaning),
            bound: named_bound(meaning),
        }
    }

    /// An element of what has this meaning, by its subscript.
    fn element_of(self, array: Option<Meaning>) -> Reading
        ensures types { result.expr_type
            ≡ both (element_type (option_map meaning_of array)) self.expr_type subscripted }
        ensures bounds { all_known result.bound
            ≡ and_then (all_known self.bound) (element_bound (option_map meaning_of array)) }
    {
        Reading {
            expr_type: subscripted_type(array, self.expr_type),
            bound: element_bound(array, self.bound),
        }
    }

    /// An operand after what is before it.
    fn prefixed(self, before: Before) -> Reading
        ensures types { result.expr_type ≡ and_then self.expr_type (before_type before) }
        ensures bounds { all_known result.bound ≡ and_then (all_known self.bound) (before_bound before) }
    {
        Reading {
            expr_type: before_type(before, self.expr_type),
            bound: before_bound(before, self.bound),
        }
    }

    /// Two operands with what is between them.
    pub(crate) fn combined(self, between: Between, right: Reading) -> Reading
        ensures types { result.expr_type ≡ both self.expr_type right.expr_type (between_type between) }
        ensures bounds { all_known result.bound
            ≡ both (all_known self.bound) (all_known right.bound) (between_bound between) }
    {
        Reading {
            expr_type: between_type(between, self.expr_type, right.expr_type),
            bound: between_bound(between, self.bound, right.bound),
        }
    }
}
