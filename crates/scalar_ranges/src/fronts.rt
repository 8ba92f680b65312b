//! The constant front of a chain.

ghost use Rattle.std.specs.Prelude.{◌≡◌, ◌+◌, length, map, option_map};
ghost use Rattle.occam_parser.specs.Expressions.{Two};
ghost use Rattle.occam_parser.specs.Views.{expression_of, term_of, with_others};
ghost use Rattle.scalar_ranges.specs.BoundViews.{all_known};
ghost use Rattle.scalar_ranges.specs.Bounds.{exact_value};
ghost use Rattle.scalar_ranges.specs.Fronts.{longer, front_in, front_of};
ghost use Rattle.scalar_ranges.specs.FrontViews.{seen_front};
ghost use Rattle.scalar_ranges.specs.Scopes.{entries_of};

use crate::operands::Between;
use crate::reading::{Reading, read_operand};
use crate::scope::Scope;
use occam_parser::{ChainOperator, Expr, Operand, Operation};

/// The first operands of a chain that are together a constant with a value.
#[derive(Clone, Copy)]
pub struct Front {
    pub value: i32,
    /// How many operands it is the value of, 1 at least.
    pub operands: usize,
}

/// This number of operands, if they have a value, and otherwise the front of fewer.
fn longer(read: Reading, operands: usize, shorter: Option<Front>) -> Option<Front>
    ensures { option_map seen_front result
        ≡ longer (exact_value (all_known read.bound)) operands (option_map seen_front shorter) }
{
    match read.value() {
        Some(value) => Some(Front { value, operands }),
        None => shorter,
    }
}

/// The front of a chain with these operands.
fn front_in(
    scope: &Scope,
    operator: ChainOperator,
    first: &Operand,
    second: &Operand,
    others: &[Operand],
) -> Option<Front>
    ensures { option_map seen_front result
        ≡ front_in (entries_of scope.now) operator
        (with_others (Two (term_of first.now) (term_of second.now)) (map term_of others.now)) }
{
    let between = Between::Chain(operator);
    let begun = read_operand(scope, first);
    let mut found = begun.combined(between, read_operand(scope, second));
    let mut front = longer(found, 2, longer(begun, 1, None));
    for (place, other) in others.iter().enumerate() {
        found = found.combined(between, read_operand(scope, other));
        front = longer(found, place + 3, front);
    }
    front
}

/// The constant front of a chain: its first operands, as many as may be, that are together a constant with a value.
/// `None` if the first operand is no constant with a value, or the expression is no chain.
pub fn front_of(scope: &Scope, expr: &Expr) -> Option<Front>
    ensures { option_map seen_front result ≡ front_of (entries_of scope.now) (expression_of expr.now) }
{
    match &*expr.operation {
        Operation::Chain {
            operator,
            first,
            second,
            others,
        } => front_in(scope, *operator, first, second, others),
        Operation::Operand(_) | Operation::Prefix { .. } | Operation::Pair { .. } => None,
    }
}
