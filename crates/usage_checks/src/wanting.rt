//! The rules of expressions: O9 and O11 by their types, O16 and O17 by their bounds, and what a place requires.

ghost use Rattle.std.specs.Prelude.{◌≡◌, ◌&&◌, Ok, option_map};
ghost use Rattle.occam_parser.specs.Views.{expression_of, term_of};
ghost use Rattle.scalar_ranges.specs.Bounds.{bound_of};
ghost use Rattle.scalar_ranges.specs.Types.{type_of};
ghost use Rattle.scalar_ranges.specs.Scopes.{entries_of, meaning_of};
ghost use Rattle.program_uses.specs.Lowest.{IsLowest};
ghost use Rattle.usage_checks.specs.Wanting.{is_constant_meaning, is_constant, is_constant_term, IsUnfit, BreaksWanted};

use occam_parser::{Expr, Operand, Operation};
use program_uses::{CONSTANT_WANTED, lower, told_unless};
use scalar_ranges::{ExprType, Meaning, Scope, WRONG_TYPE, read};

/// What a place requires of the expression there.
#[derive(Clone, Copy)]
pub enum Wanted {
    /// An expression of any type.
    Anything,
    /// One of this type.
    Value(ExprType),
    /// A constant of this type.
    Constant(ExprType),
}

fn is_constant_meaning(meaning: Option<Meaning>) -> bool
    ensures { result ≡ is_constant_meaning (option_map meaning_of meaning) }
{
    match meaning {
        Some(Meaning::Constant { .. }) => true,
        _ => false,
    }
}

/// Whether both hold.
pub(crate) fn both(first: bool, second: bool) -> bool
    ensures { result ≡ (first && second) }
{
    first && second
}

/// Whether an expression is a constant one, by its operands.
#[cycle(constant)]
pub(crate) fn is_constant(scope: &Scope, expr: &Expr) -> bool
    ensures { result ≡ is_constant (entries_of scope.now) (expression_of expr.now) }
{
    match &*expr.operation {
        Operation::Operand(operand) => is_constant_operand(scope, operand),
        Operation::Prefix { operand, .. } => is_constant_operand(scope, operand),
        Operation::Pair { left, right, .. } => {
            let left = is_constant_operand(scope, left);
            both(left, is_constant_operand(scope, right))
        }
        Operation::Chain {
            first,
            second,
            others,
            ..
        } => {
            let first = is_constant_operand(scope, first);
            let mut constant = both(first, is_constant_operand(scope, second));
            for other in others {
                constant = both(constant, is_constant_operand(scope, other));
            }
            constant
        }
    }
}

#[cycle(constant)]
fn is_constant_operand(scope: &Scope, operand: &Operand) -> bool
    ensures { result ≡ is_constant_term (entries_of scope.now) (term_of operand.now) }
{
    match operand {
        Operand::Integer(_)
        | Operand::Character(_)
        | Operand::Truth(_)
        | Operand::MostPos
        | Operand::MostNeg => true,
        Operand::Name(name) => is_constant_meaning(scope.meaning(name)),
        Operand::Element { .. } => false,
        Operand::Bracketed(inner) => is_constant(scope, inner),
        Operand::Converted { operand, .. } => is_constant_operand(scope, operand),
    }
}

/// The lowest number of the rules by which an expression of this type is not what a place requires.
fn unfit(scope: &Scope, wanted: Wanted, found: ExprType, expr: &Expr) -> Option<u8>
    ensures { IsLowest
        (IsUnfit wanted (Ok found) (is_constant (entries_of scope.now) (expression_of expr.now))) result }
{
    match wanted {
        Wanted::Anything => None,
        Wanted::Value(wanted) => told_unless(found == wanted, WRONG_TYPE),
        Wanted::Constant(wanted) => lower(
            told_unless(found == wanted, WRONG_TYPE),
            told_unless(is_constant(scope, expr), CONSTANT_WANTED),
        ),
    }
}

/// The lowest number of the rules that an expression breaks where this is wanted.
pub fn fault_of(scope: &Scope, wanted: Wanted, expr: &Expr) -> Option<u8>
    ensures { IsLowest (BreaksWanted wanted (entries_of scope.now) (expression_of expr.now)) result }
{
    let reading = read(scope, expr);
    match reading.expr_type {
        Err(fault) => Some(fault),
        Ok(found) => lower(reading.range().err(), unfit(scope, wanted, found, expr)),
    }
}
