//! What a name denotes, as it is declared.

ghost use Rattle.std.specs.Prelude.{◌≡◌, ◌++◌, OnOk, codes, string_bytes};
ghost use Rattle.usage_texts.specs.Words.{shape_text, size_text, type_text};

use crate::words::type_text;
use occam_parser::ValueType;
use scalar_ranges::{ArrayKind, Meaning, ScalarKind};
use std::alloc::AllocError;

/// Channels of a type, as they are declared.
fn channel_text(value_type: ValueType) -> &'static str
    ensures { result.now ≡ codes "CHAN OF " ++ type_text value_type }
{
    match value_type {
        ValueType::Int => "CHAN OF INT",
        ValueType::Byte => "CHAN OF BYTE",
    }
}

/// Appends how many elements an array has, if that is known.
pub(crate) fn push_size(text: &mut String, size: Option<u32>) -> Result<(), AllocError>
    ensures { OnOk result (string_bytes text.new ≡ string_bytes text.old ++ size_text size) }
{
    match size {
        Some(size) => write!(text, "[{size}]"),
        None => text.push_str("[?]"),
    }
}

/// Appends two words.
fn push_both(text: &mut String, first: &str, second: &str) -> Result<(), AllocError>
    ensures { OnOk result (string_bytes text.new ≡ string_bytes text.old ++ (first.now ++ second.now)) }
{
    text.push_str(first)?;
    text.push_str(second)
}

/// Appends an array: a word before its size, and what its elements are.
fn push_array(
    text: &mut String,
    before: &str,
    size: Option<u32>,
    elements: &str,
) -> Result<(), AllocError>
    ensures { OnOk result (string_bytes text.new
        ≡ string_bytes text.old ++ (before.now ++ (size_text size ++ elements.now))) }
{
    text.push_str(before)?;
    push_size(text, size)?;
    text.push_str(elements)
}

/// Appends what a name denotes, as it is declared.
pub(crate) fn push_shape(text: &mut String, meaning: Meaning) -> Result<(), AllocError>
    ensures { OnOk result (string_bytes text.new ≡ string_bytes text.old ++ shape_text meaning) }
{
    match meaning {
        Meaning::Constant { value_type, .. } => push_both(text, "VAL ", type_text(value_type)),
        Meaning::Scalar {
            kind: ScalarKind::Index,
            ..
        } => text.push_str("replicator"),
        Meaning::Scalar {
            kind: ScalarKind::Value,
            value_type,
            ..
        } => push_both(text, "VAL ", type_text(value_type)),
        Meaning::Scalar { value_type, .. } => text.push_str(type_text(value_type)),
        Meaning::Array {
            kind: ArrayKind::Variable,
            value_type,
            size,
            ..
        } => push_array(text, "", size, type_text(value_type)),
        Meaning::Array {
            value_type,
            size,
            ..
        } => push_array(text, "VAL ", size, type_text(value_type)),
        Meaning::Channel { value_type } => text.push_str(channel_text(value_type)),
        Meaning::Channels { value_type, size } => {
            push_array(text, "", size, channel_text(value_type))
        }
        Meaning::Proc(_) => text.push_str("PROC"),
    }
}
