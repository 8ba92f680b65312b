//! What the formals of a procedure take.

ghost use Rattle.std.specs.Prelude.{◌≡◌, Some, ◌&&◌, option_map};
ghost use Rattle.scalar_ranges.specs.Scopes.{meaning_of};
ghost use Rattle.scalar_ranges.specs.Types.{type_of_values};
ghost use Rattle.program_uses.specs.Constants.{is_same_type};
ghost use Rattle.usage_checks.specs.InstanceRules.{held_type, takes_scalar, agree, takes_kind, takes_array};
ghost use Rattle.usage_checks.specs.InstanceRules.{takes_channels, takes, takes_value};

use crate::place_rules::{channel_type, target_type};
use occam_parser::ValueType;
use program_uses::has_type;
use scalar_ranges::{ArrayKind, ExprType, Meaning, ScalarKind, WRONG_TYPE, type_of_values};

/// The type of a single value, or of an element of an array.
fn held_type(meaning: Meaning, subscripted: bool) -> Result<ExprType, u8>
    ensures { result ≡ held_type (meaning_of meaning) subscripted }
{
    match (meaning, subscripted) {
        (Meaning::Constant { value_type, .. } | Meaning::Scalar { value_type, .. }, false)
        | (Meaning::Array { value_type, .. }, true) => Ok(type_of_values(value_type)),
        _ => Err(WRONG_TYPE),
    }
}

/// Whether a scalar formal takes what has this meaning.
fn takes_scalar(formal: ScalarKind, wanted: ExprType, found: Meaning, subscripted: bool) -> bool
    ensures { result ≡ takes_scalar formal wanted (meaning_of found) subscripted }
{
    match formal {
        ScalarKind::Value => has_type(wanted, held_type(found, subscripted)),
        ScalarKind::Reference if !subscripted => has_type(wanted, target_type(Some(found), false)),
        _ => false,
    }
}

/// Whether two sizes that are known are the same.
fn agree(first: Option<u32>, second: Option<u32>) -> bool
    ensures { result ≡ agree first second }
{
    match (first, second) {
        (Some(first), Some(second)) => first == second,
        _ => true,
    }
}

/// Whether an array formal takes an array of this kind.
fn takes_kind(formal: ArrayKind, found: ArrayKind) -> bool
    ensures { result ≡ takes_kind formal found }
{
    match formal {
        ArrayKind::Variable => found == ArrayKind::Variable,
        ArrayKind::Table | ArrayKind::Value => true,
    }
}

/// Whether types and sizes are the same.
fn alike(wanted: ValueType, size: Option<u32>, found: ValueType, count: Option<u32>) -> bool
    ensures { result ≡ (is_same_type (type_of_values wanted) (type_of_values found) && agree size count) }
{
    type_of_values(wanted) == type_of_values(found) && agree(size, count)
}

/// Whether an array formal takes what has this meaning.
fn takes_array(
    formal: ArrayKind,
    wanted: ValueType,
    wanted_size: Option<u32>,
    found: Meaning,
    subscripted: bool,
) -> bool
    ensures { result ≡ takes_array formal wanted wanted_size (meaning_of found) subscripted }
{
    match found {
        Meaning::Array {
            kind,
            value_type,
            size,
            ..
        } if !subscripted => {
            let alike = alike(wanted, wanted_size, value_type, size);
            takes_kind(formal, kind) && alike
        }
        _ => false,
    }
}

/// Whether a formal that is an array of channels takes what has this meaning.
fn takes_channels(
    wanted: ValueType,
    wanted_size: Option<u32>,
    found: Meaning,
    subscripted: bool,
) -> bool
    ensures { result ≡ takes_channels wanted wanted_size (meaning_of found) subscripted }
{
    match found {
        Meaning::Channels { value_type, size } if !subscripted => {
            alike(wanted, wanted_size, value_type, size)
        }
        _ => false,
    }
}

/// Whether a formal takes what has this meaning, or an element of it if a subscript follows.
pub fn takes(formal: Meaning, found: Meaning, subscripted: bool) -> bool
    ensures { result ≡ takes (meaning_of formal) (meaning_of found) subscripted }
{
    match formal {
        Meaning::Scalar {
            kind,
            value_type,
            ..
        } => takes_scalar(kind, type_of_values(value_type), found, subscripted),
        Meaning::Array {
            kind,
            value_type,
            size,
            ..
        } => takes_array(kind, value_type, size, found, subscripted),
        Meaning::Channel { value_type } => has_type(
            type_of_values(value_type),
            channel_type(Some(found), subscripted),
        ),
        Meaning::Channels { value_type, size } => {
            takes_channels(value_type, size, found, subscripted)
        }
        Meaning::Constant { .. } | Meaning::Proc(_) => false,
    }
}

/// Whether a formal takes a value of this type that is no name or element.
pub fn takes_value(formal: Meaning, found: ExprType) -> bool
    ensures { result ≡ takes_value (meaning_of formal) found }
{
    match formal {
        Meaning::Scalar {
            kind: ScalarKind::Value,
            value_type,
            ..
        } => found == type_of_values(value_type),
        _ => false,
    }
}
