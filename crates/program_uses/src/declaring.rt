//! What declarations, formals and replicators add to a scope.

ghost use Rattle.std.specs.Prelude.{◌≡◌, None, option_map};
ghost use Rattle.word_arithmetic.specs.Range.{ends_of};
ghost use Rattle.occam_layout.specs.Kind.{bytes_of};
ghost use Rattle.occam_parser.specs.LineViews.{any_of, value_of, formal_of};
ghost use Rattle.occam_parser.specs.OneOrMore.{one_or_more_of};
ghost use Rattle.occam_parser.specs.Views.{expression_of};
ghost use Rattle.scalar_ranges.specs.declared.scope.ArrayKind.TheVariants as array;
ghost use Rattle.scalar_ranges.specs.Entries.{Constant, Array, type_range};
ghost use Rattle.scalar_ranges.specs.Types.{type_of_values};
ghost use Rattle.scalar_ranges.specs.Scopes.{entries_of, meaning_of};
ghost use Rattle.program_uses.specs.Declaring.{constant_meaning, constant_outline, variable_meaning, channel_meaning};
ghost use Rattle.program_uses.specs.Declaring.{formal_meaning};
ghost use Rattle.program_uses.specs.Constants.{value_as, size_in};
ghost use Rattle.program_uses.specs.Declaring.{passed_meaning, with_value, range_of_items, range_of_bytes, table_of};

use crate::constants::{size_in, value_as};
use occam_layout::Text;
use occam_parser::{ConstantValue, Expr, Formal, FormalKind, OneOrMore, ValueType};
use scalar_ranges::{ArrayKind, Meaning, ScalarKind, Scope, type_of_values, type_range};
use word_arithmetic::Range;

/// The least range with one value more, if all are known.
fn with_value(range: Option<Range>, value: Option<i32>) -> Option<Range>
    ensures { option_map ends_of result ≡ with_value (option_map ends_of range) value }
{
    let range = range?;
    Some(range.hull(Range::constant(value?)))
}

/// The least range with the values of all items of a table, if they have values.
fn range_of_items(scope: &Scope, value_type: ValueType, items: &OneOrMore<Expr>) -> Option<Range>
    ensures { option_map ends_of result
        ≡ range_of_items (entries_of scope.now) value_type (one_or_more_of expression_of items.now) }
{
    let wanted = type_of_values(value_type);
    let mut range = value_as(scope, wanted, &items.first).map(Range::constant);
    for item in &items.others {
        range = with_value(range, value_as(scope, wanted, item));
    }
    range
}

/// The least range with the bytes of a text, if it has one and is a table of that type.
fn range_of_bytes(value_type: ValueType, text: Text) -> Option<Range>
    ensures { option_map ends_of result ≡ range_of_bytes value_type (bytes_of text.entry) }
{
    match value_type {
        ValueType::Int => None,
        ValueType::Byte => {
            let (first, mut rest) = text.split_first()?;
            let mut range = Range::constant(i32::from(first));
            while let Some((byte, after)) = rest.split_first() {
                range = range.hull(Range::constant(i32::from(byte)));
                rest = after;
            }
            Some(range)
        }
    }
}

/// A table of `count` items, which has a size if that is the stated one and the items have values.
fn table_of(value_type: ValueType, size: Option<u32>, count: usize, range: Option<Range>) -> Meaning
    ensures { meaning_of result ≡ table_of value_type size count (option_map ends_of range) }
{
    match (size, range) {
        (Some(size), Some(range)) if size as usize == count => Meaning::Array {
            kind: ArrayKind::Table,
            value_type,
            size: Some(size),
            range,
        },
        _ => any_table(value_type),
    }
}

/// A table of which no more is known than its type.
fn any_table(value_type: ValueType) -> Meaning
    ensures { meaning_of result ≡ Array array.Table value_type None (type_range value_type) }
{
    Meaning::Array {
        kind: ArrayKind::Table,
        value_type,
        size: None,
        range: type_range(value_type),
    }
}

/// A constant that is no table.
fn constant_of(scope: &Scope, value_type: ValueType, value: &Expr) -> Meaning
    ensures { meaning_of result ≡ Constant value_type
        (value_as (entries_of scope.now) (type_of_values value_type) (expression_of value.now)) }
{
    Meaning::Constant {
        value_type,
        value: value_as(scope, type_of_values(value_type), value),
    }
}

/// What the name of a constant denotes.
pub fn constant_meaning(scope: &Scope, value_type: ValueType, value: &ConstantValue) -> Meaning
    ensures { meaning_of result ≡ constant_meaning (entries_of scope.now) value_type (value_of value.now) }
{
    match value {
        ConstantValue::Scalar(value) => constant_of(scope, value_type, value),
        ConstantValue::Table { size, items } => table_of(
            value_type,
            size_in(scope, size),
            1 + items.others.len(),
            range_of_items(scope, value_type, items),
        ),
        ConstantValue::Text { size, text } => table_of(
            value_type,
            size_in(scope, size),
            text.len(),
            range_of_bytes(value_type, *text),
        ),
    }
}

/// What the name of a constant denotes, but for the items of a table and how many there are.
pub fn constant_outline(scope: &Scope, value_type: ValueType, value: &ConstantValue) -> Meaning
    ensures { meaning_of result ≡ constant_outline (entries_of scope.now) value_type (value_of value.now) }
{
    match value {
        ConstantValue::Scalar(value) => constant_of(scope, value_type, value),
        ConstantValue::Table { .. } | ConstantValue::Text { .. } => any_table(value_type),
    }
}

/// What the name of a variable denotes.
pub fn variable_meaning(scope: &Scope, value_type: ValueType, size: &Option<Expr>) -> Meaning
    ensures { meaning_of result ≡ variable_meaning (entries_of scope.now) value_type (any_of size.now) }
{
    match size {
        None => Meaning::Scalar {
            kind: ScalarKind::Variable,
            value_type,
            range: Range::constant(0),
        },
        Some(size) => array(scope, ArrayKind::Variable, value_type, size),
    }
}

/// An array of this size, of whose elements no more is known than their type.
fn array(scope: &Scope, kind: ArrayKind, value_type: ValueType, size: &Expr) -> Meaning
    ensures { meaning_of result
        ≡ Array kind value_type (size_in (entries_of scope.now) (expression_of size.now)) (type_range value_type) }
{
    Meaning::Array {
        kind,
        value_type,
        size: size_in(scope, size),
        range: type_range(value_type),
    }
}

/// What the name of a channel denotes, or of an array of channels.
pub fn channel_meaning(scope: &Scope, value_type: ValueType, size: &Option<Expr>) -> Meaning
    ensures { meaning_of result ≡ channel_meaning (entries_of scope.now) value_type (any_of size.now) }
{
    match size {
        None => Meaning::Channel { value_type },
        Some(size) => Meaning::Channels {
            value_type,
            size: size_in(scope, size),
        },
    }
}

/// What the name of a formal denotes, with the scope around all formals.
pub fn formal_meaning(scope: &Scope, formal: &Formal) -> Meaning
    ensures { meaning_of result ≡ formal_meaning (entries_of scope.now) (formal_of formal.now) }
{
    let value_type = formal.value_type;
    match formal.kind {
        FormalKind::Value => {
            passed_meaning(
                scope,
                ScalarKind::Value,
                ArrayKind::Value,
                value_type,
                &formal.size,
            )
        }
        FormalKind::Variable => passed_meaning(
            scope,
            ScalarKind::Reference,
            ArrayKind::Variable,
            value_type,
            &formal.size,
        ),
        FormalKind::Channel => channel_meaning(scope, value_type, &formal.size),
    }
}

/// What the name of a formal denotes that is no channel, by what it is alone and as an array.
fn passed_meaning(
    scope: &Scope,
    kind: ScalarKind,
    array_kind: ArrayKind,
    value_type: ValueType,
    size: &Option<Expr>,
) -> Meaning
    ensures { meaning_of result ≡ passed_meaning (entries_of scope.now) kind array_kind value_type (any_of size.now) }
{
    match size {
        None => Meaning::Scalar {
            kind,
            value_type,
            range: type_range(value_type),
        },
        Some(size) => array(scope, array_kind, value_type, size),
    }
}
