//! Types and what else a sentence names, in words.

ghost use Rattle.std.specs.Prelude.{◌≡◌};
ghost use Rattle.usage_texts.specs.Words.{type_text, numbers_text, found_text, wanted_text, sort_text, deed_text};
ghost use Rattle.usage_texts.specs.Words.{way_text};

use occam_parser::ValueType;
use program_uses::Direction;
use scalar_ranges::ExprType;
use usage_reasons::{Deed, Sort};

/// A type as it is written.
pub(crate) fn type_text(value_type: ValueType) -> &'static str
    ensures { result.now ≡ type_text value_type }
{
    match value_type {
        ValueType::Int => "INT",
        ValueType::Byte => "BYTE",
    }
}

/// The numbers of a type.
pub(crate) fn numbers_text(value_type: ValueType) -> &'static str
    ensures { result.now ≡ numbers_text value_type }
{
    match value_type {
        ValueType::Int => "INT is -2147483648..2147483647",
        ValueType::Byte => "BYTE is 0..255",
    }
}

/// What an expression of this type is.
pub(crate) fn found_text(found: ExprType) -> &'static str
    ensures { result.now ≡ found_text found }
{
    match found {
        ExprType::Int => "of type INT",
        ExprType::Byte => "of type BYTE",
        ExprType::Condition => "a condition",
    }
}

/// What is wanted where this type is.
pub(crate) fn wanted_text(wanted: ExprType) -> &'static str
    ensures { result.now ≡ wanted_text wanted }
{
    match wanted {
        ExprType::Int => "type INT",
        ExprType::Byte => "type BYTE",
        ExprType::Condition => "a condition",
    }
}

/// What a name has to be.
pub(crate) fn sort_text(sort: Sort) -> &'static str
    ensures { result.now ≡ sort_text sort }
{
    match sort {
        Sort::Scalar => "scalar",
        Sort::Array => "array",
        Sort::Variable => "variable",
        Sort::VariableArray => "array of variables",
        Sort::Channel => "channel",
        Sort::ChannelArray => "array of channels",
        Sort::Procedure => "procedure",
    }
}

/// What a line does to a variable.
pub(crate) fn deed_text(deed: Deed) -> &'static str
    ensures { result.now ≡ deed_text deed }
{
    match deed {
        Deed::Reads => "reads",
        Deed::Changes => "changes",
    }
}

/// What a line does to a channel.
pub(crate) fn way_text(direction: Direction) -> &'static str
    ensures { result.now ≡ way_text direction }
{
    match direction {
        Direction::Input => "receives from",
        Direction::Output => "sends to",
    }
}
