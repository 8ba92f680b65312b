//! What declarations declare: which words names take, and what tables have.

ghost use Rattle.std.specs.Prelude.{◌≡◌, ◌++◌, ◌∷◌, [], IfOk, map, pos, unwrap_or};
ghost use Rattle.occam_layout.specs.Kind.{bytes_of};
ghost use Rattle.occam_parser.specs.OneOrMore.{as_list, one_or_more_of};
ghost use Rattle.occam_parser.specs.Views.{expression_of};
ghost use Rattle.occam_parser.specs.LineViews.{any_of, value_of, spelling_of};
ghost use Rattle.scalar_ranges.specs.Scopes.{entries_of, blocks_of, meaning_of};
ghost use Rattle.scalar_ranges.specs.Types.{type_of_values};
ghost use Rattle.program_uses.specs.Constants.{value_as};
ghost use Rattle.program_uses.specs.Declaring.{add_all};
ghost use Rattle.line_pieces.specs.Homes.{words_for};
ghost use Rattle.line_pieces.specs.Declarations.{words_in, channels_in, item_values, home_for};
ghost use Rattle.line_pieces.specs.HomeViews.{home_seen};

use crate::home::Home;
use occam_layout::Text;
use occam_parser::{ConstantValue, Expr, OneOrMore, ValueType};
use program_uses::{add_name, size_in, value_as};
use scalar_ranges::{Meaning, Scope, type_of_values};
use std::alloc::{AllocError, Global};
use std::rc::Rc;

/// How many words the elements of an array have.
pub(crate) fn words_for(value_type: ValueType, size: u32) -> u32
    ensures { result ≡ words_for value_type size }
{
    match value_type {
        ValueType::Int => size,
        ValueType::Byte => size.div_ceil(4),
    }
}

/// How many words a variable has.
pub fn words_in(scope: &Scope, value_type: ValueType, size: &Option<Expr>) -> u32
    ensures { result ≡ words_in (entries_of scope.now) value_type (any_of size.now) }
{
    match size {
        None => 1,
        Some(size) => words_for(value_type, size_in(scope, size).unwrap_or(0)),
    }
}

/// How many words a channel has, or an array of channels.
pub fn channels_in(scope: &Scope, size: &Option<Expr>) -> u32
    ensures { result ≡ channels_in (entries_of scope.now) (any_of size.now) }
{
    match size {
        None => 1,
        Some(size) => size_in(scope, size).unwrap_or(0),
    }
}

/// The value of an item of a table: 0 if it has none.
fn item_value(scope: &Scope, value_type: ValueType, item: &Expr) -> i32
    ensures { result ≡ unwrap_or (value_as (entries_of scope.now) (type_of_values value_type)
        (expression_of item.now)) (pos 0) }
{
    value_as(scope, type_of_values(value_type), item).unwrap_or(0)
}

/// One value more, that of an item.
fn push_item(
    values: &mut Vec<i32>,
    scope: &Scope,
    value_type: ValueType,
    item: &Expr,
) -> Result<(), AllocError>
    ensures { IfOk result (λ _. values.new.items ≡ values.old.items ++ unwrap_or (value_as (entries_of scope.now)
        (type_of_values value_type) (expression_of item.now)) (pos 0) ∷ []) }
{
    values.push(item_value(scope, value_type, item))?;
    Ok(())
}

/// The values of a table.
fn item_values(
    alloc: Global,
    scope: &Scope,
    value_type: ValueType,
    items: &OneOrMore<Expr>,
) -> Result<Vec<i32>, AllocError>
    ensures { IfOk result (λ values. values.items
        ≡ item_values (entries_of scope.now) value_type (as_list (one_or_more_of expression_of items.now))) }
{
    let mut values = Vec::new(alloc);
    push_item(&mut values, scope, value_type, &items.first)?;
    for item in &items.others {
        push_item(&mut values, scope, value_type, item)?;
    }
    Ok(values)
}

/// The bytes of a text, each as a number.
fn byte_values(alloc: Global, text: Text) -> Result<Vec<i32>, AllocError>
    ensures { IfOk result (λ values. values.items ≡ map pos (bytes_of text.entry)) }
{
    let mut values = Vec::new(alloc);
    let mut rest = text;
    while let Some((byte, after)) = rest.split_first() {
        values.push(i32::from(byte))?;
        rest = after;
    }
    Ok(values)
}

/// Where a constant is.
pub fn home_for(
    alloc: Global,
    scope: &Scope,
    value_type: ValueType,
    value: &ConstantValue,
) -> Result<Home, AllocError>
    ensures { IfOk result (λ h. home_seen h ≡ home_for (entries_of scope.now) value_type (value_of value.now)) }
{
    match value {
        ConstantValue::Scalar(_) => Ok(Home::Nowhere),
        ConstantValue::Table { items, .. } => {
            let values = item_values(alloc, scope, value_type, items)?;
            Ok(Home::Table(Rc::new(alloc, values)?))
        }
        ConstantValue::Text { text, .. } => {
            let values = byte_values(alloc, *text)?;
            Ok(Home::Table(Rc::new(alloc, values)?))
        }
    }
}

/// Some names more, which mean the same.
pub fn declare_names<'a>(
    scope: &mut Scope<'a>,
    names: &OneOrMore<&'a [u8]>,
    meaning: Meaning,
) -> Result<(), AllocError>
    ensures entries { IfOk result (λ _. entries_of scope.new
        ≡ add_all (as_list (one_or_more_of spelling_of names.now)) (meaning_of meaning) (entries_of scope.old)) }
    ensures blocks { IfOk result (λ _. blocks_of scope.new ≡ blocks_of scope.old) }
{
    add_name(scope, names.first, meaning)?;
    for name in &names.others {
        add_name(scope, name, meaning)?;
    }
    Ok(())
}
