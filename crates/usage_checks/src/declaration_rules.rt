//! The rules of declarations and formals, but for their names: sizes and values of constants.

ghost use Rattle.std.specs.Prelude.{◌≡◌, map};
ghost use Rattle.occam_parser.specs.OneOrMore.{as_list, one_or_more_of};
ghost use Rattle.occam_parser.specs.Views.{expression_of};
ghost use Rattle.occam_parser.specs.LineViews.{any_of, value_of, declaration_of};
ghost use Rattle.scalar_ranges.specs.Scopes.{entries_of};
ghost use Rattle.program_uses.specs.Lowest.{IsLowest};
ghost use Rattle.usage_checks.specs.EachBroken.{BreaksEach};
ghost use Rattle.usage_checks.specs.DeclarationRules.{IsNoSize, BreaksSize, BreaksSizeIfAny, HasOtherSize, IsNoText};
ghost use Rattle.usage_checks.specs.DeclarationRules.{BreaksItem, BreaksValue, BreaksDeclaration};

use crate::wanting::{Wanted, fault_of};
use occam_parser::{ConstantValue, Declaration, Expr, OneOrMore, ValueType};
use program_uses::{lower, size_in, told_unless, value_as};
use scalar_ranges::{ExprType, OUT_OF_RANGE, Scope, WRONG_TYPE, type_of_values};

/// The number of a size that is known and is below 1.
fn no_size(size: Option<i32>) -> Option<u8>
    ensures { IsLowest (IsNoSize size) result }
{
    told_unless(1 <= size?, OUT_OF_RANGE)
}

/// The lowest number of the rules that the size of an array breaks.
fn fault_of_size(scope: &Scope, size: &Expr) -> Option<u8>
    ensures { IsLowest (BreaksSize (entries_of scope.now) (expression_of size.now)) result }
{
    lower(
        fault_of(scope, Wanted::Constant(ExprType::Int), size),
        no_size(value_as(scope, ExprType::Int, size)),
    )
}

/// The lowest number of the rules that a size breaks, if there is one.
pub(crate) fn fault_of_any_size(scope: &Scope, size: &Option<Expr>) -> Option<u8>
    ensures { IsLowest (BreaksSizeIfAny (entries_of scope.now) (any_of size.now)) result }
{
    match size {
        None => None,
        Some(size) => fault_of_size(scope, size),
    }
}

/// The number of a table that has another number of items than its size says.
fn other_size(size: Option<u32>, count: usize) -> Option<u8>
    ensures { IsLowest (HasOtherSize size count) result }
{
    told_unless(size? as usize == count, WRONG_TYPE)
}

/// The number of a text that is no table of bytes.
fn no_text(value_type: ValueType) -> Option<u8>
    ensures { IsLowest (IsNoText value_type) result }
{
    match value_type {
        ValueType::Int => Some(WRONG_TYPE),
        ValueType::Byte => None,
    }
}

/// The lowest number of the rules that an item of a table breaks, or the value of a constant that is no table.
fn fault_of_item(scope: &Scope, value_type: ValueType, item: &Expr) -> Option<u8>
    ensures { IsLowest (BreaksItem (entries_of scope.now) value_type (expression_of item.now)) result }
{
    fault_of(scope, Wanted::Constant(type_of_values(value_type)), item)
}

/// The lowest number of the rules that the items of a table break.
fn fault_of_items(scope: &Scope, value_type: ValueType, items: &OneOrMore<Expr>) -> Option<u8>
    ensures { IsLowest (BreaksEach (λ i. BreaksItem (entries_of scope.now) value_type) 0
        (as_list (one_or_more_of expression_of items.now))) result }
{
    let mut found = None;
    for item in &items.others {
        found = lower(found, fault_of_item(scope, value_type, item));
    }
    lower(fault_of_item(scope, value_type, &items.first), found)
}

/// The lowest number of the rules that the value of a constant breaks.
pub(crate) fn fault_of_value(
    scope: &Scope,
    value_type: ValueType,
    value: &ConstantValue,
) -> Option<u8>
    ensures { IsLowest (BreaksValue (entries_of scope.now) value_type (value_of value.now)) result }
{
    match value {
        ConstantValue::Scalar(value) => fault_of_item(scope, value_type, value),
        ConstantValue::Table { size, items } => {
            let counted = other_size(size_in(scope, size), 1 + items.others.len());
            lower(
                fault_of_size(scope, size),
                lower(fault_of_items(scope, value_type, items), counted),
            )
        }
        ConstantValue::Text { size, text } => {
            let counted = other_size(size_in(scope, size), text.len());
            lower(
                fault_of_size(scope, size),
                lower(no_text(value_type), counted),
            )
        }
    }
}

/// The lowest number of the rules that a declaration breaks, but for its names.
pub(crate) fn fault_of_declaration(scope: &Scope, declaration: &Declaration) -> Option<u8>
    ensures { IsLowest (BreaksDeclaration (entries_of scope.now) (declaration_of declaration.now)) result }
{
    match declaration {
        Declaration::Constant(constant) => {
            fault_of_value(scope, constant.value_type, &constant.value)
        }
        Declaration::Variables(names) | Declaration::Channels(names) => {
            fault_of_any_size(scope, &names.size)
        }
    }
}
