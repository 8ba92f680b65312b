//! The types of expressions.

ghost use Rattle.std.specs.Prelude.{◌≡◌, option_map};
ghost use Rattle.occam_parser.specs.Views.{expression_of};
ghost use Rattle.scalar_ranges.specs.Scopes.{entries_of, meaning_of};
ghost use Rattle.scalar_ranges.specs.Steps.{and_then, both};
ghost use Rattle.scalar_ranges.specs.Types.{type_of, type_of_values, named_type, element_type};
ghost use Rattle.scalar_ranges.specs.Types.{subscripted};
ghost use Rattle.scalar_ranges.specs.Types.{prefix_type, pair_type, chain_type, converted_type};
ghost use Rattle.scalar_ranges.specs.OperandViews.{before_type, between_type};

use crate::operands::{Before, Between};
use crate::reading::read;
use crate::scope::{Meaning, Scope};
use crate::steps::paired;
use occam_parser::{ChainOperator, Expr, PairOperator, PrefixOperator, ValueType};

/// The number of the fault that a name is unknown.
pub const UNKNOWN_NAME: u8 = 9;
/// The number of the fault that a type is wrong.
pub const WRONG_TYPE: u8 = 11;

/// The type of an expression.
#[derive(Clone, Copy, PartialEq, Eq)]
pub enum ExprType {
    Int,
    Byte,
    /// A condition: true or false.
    Condition,
}

/// The type of an expression. The error is [`UNKNOWN_NAME`] if a name in it is unknown, else [`WRONG_TYPE`] if an
/// operand has a wrong type.
pub fn type_of(scope: &Scope, expr: &Expr) -> Result<ExprType, u8>
    ensures { result ≡ type_of (entries_of scope.now) (expression_of expr.now) }
{
    read(scope, expr).expr_type
}

/// The type of the values of a declaration.
pub fn type_of_values(value_type: ValueType) -> ExprType
    ensures { result ≡ type_of_values value_type }
{
    match value_type {
        ValueType::Int => ExprType::Int,
        ValueType::Byte => ExprType::Byte,
    }
}

/// The type of a name without a subscript.
pub(crate) fn named_type(meaning: Option<Meaning>) -> Result<ExprType, u8>
    ensures { result ≡ named_type (option_map meaning_of meaning) }
{
    match meaning {
        None => Err(UNKNOWN_NAME),
        Some(Meaning::Constant { value_type, .. } | Meaning::Scalar { value_type, .. }) => {
            Ok(type_of_values(value_type))
        }
        Some(_) => Err(WRONG_TYPE),
    }
}

/// The type of the elements of a name with a subscript.
fn element_type(meaning: Option<Meaning>) -> Result<ExprType, u8>
    ensures { result ≡ element_type (option_map meaning_of meaning) }
{
    match meaning {
        None => Err(UNKNOWN_NAME),
        Some(Meaning::Array { value_type, .. }) => Ok(type_of_values(value_type)),
        Some(_) => Err(WRONG_TYPE),
    }
}

/// The type of an element, by the type of the subscript.
pub(crate) fn subscripted_type(
    array: Option<Meaning>,
    subscript: Result<ExprType, u8>,
) -> Result<ExprType, u8>
    ensures { result ≡ both (element_type (option_map meaning_of array)) subscript subscripted }
{
    let (element, subscript) = paired(element_type(array), subscript)?;
    match subscript {
        ExprType::Int => Ok(element),
        _ => Err(WRONG_TYPE),
    }
}

/// The type of one operand with what is before it.
pub(crate) fn before_type(before: Before, operand: Result<ExprType, u8>) -> Result<ExprType, u8>
    ensures { result ≡ and_then operand (before_type before) }
{
    let operand = operand?;
    match before {
        Before::Operator(operator) => prefix_type(operator, operand),
        Before::Conversion(to) => converted_type(to, operand),
    }
}

fn prefix_type(operator: PrefixOperator, operand: ExprType) -> Result<ExprType, u8>
    ensures { result ≡ prefix_type operator operand }
{
    match (operator, operand) {
        (PrefixOperator::Negate | PrefixOperator::BitNot, ExprType::Int) => Ok(ExprType::Int),
        (PrefixOperator::Not, ExprType::Condition) => Ok(ExprType::Condition),
        _ => Err(WRONG_TYPE),
    }
}

fn converted_type(to: ValueType, operand: ExprType) -> Result<ExprType, u8>
    ensures { result ≡ converted_type to operand }
{
    match operand {
        ExprType::Condition => Err(WRONG_TYPE),
        _ => Ok(type_of_values(to)),
    }
}

/// The type of two operands with what is between them.
pub(crate) fn between_type(
    between: Between,
    left: Result<ExprType, u8>,
    right: Result<ExprType, u8>,
) -> Result<ExprType, u8>
    ensures { result ≡ both left right (between_type between) }
{
    let (left, right) = paired(left, right)?;
    match between {
        Between::Pair(operator) => pair_type(operator, left, right),
        Between::Chain(operator) => chain_type(operator, left, right),
    }
}

fn pair_type(operator: PairOperator, left: ExprType, right: ExprType) -> Result<ExprType, u8>
    ensures { result ≡ pair_type operator left right }
{
    match (operator, left, right) {
        (PairOperator::Arithmetic(_), ExprType::Int, ExprType::Int) => Ok(ExprType::Int),
        (PairOperator::Comparison(_), ExprType::Int, ExprType::Int) => Ok(ExprType::Condition),
        (PairOperator::Comparison(_), ExprType::Byte, ExprType::Byte) => Ok(ExprType::Condition),
        _ => Err(WRONG_TYPE),
    }
}

fn chain_type(operator: ChainOperator, found: ExprType, next: ExprType) -> Result<ExprType, u8>
    ensures { result ≡ chain_type operator found next }
{
    match (operator, found, next) {
        (ChainOperator::Arithmetic(_), ExprType::Int, ExprType::Int) => Ok(ExprType::Int),
        (ChainOperator::Logic(_), ExprType::Condition, ExprType::Condition) => {
            Ok(ExprType::Condition)
        }
        _ => Err(WRONG_TYPE),
    }
}
