//! The rules of places: what something is assigned to or received into, and channels.

ghost use Rattle.std.specs.Prelude.{◌≡◌, Err, option_map};
ghost use Rattle.occam_parser.specs.Views.{expression_of};
ghost use Rattle.scalar_ranges.specs.Scopes.{entries_of, meaning_of};
ghost use Rattle.scalar_ranges.specs.Bounds.{bound_of, range_found};
ghost use Rattle.scalar_ranges.specs.BoundViews.{all_ends};
ghost use Rattle.scalar_ranges.specs.Types.{type_of};
ghost use Rattle.program_uses.specs.PlaceViews.{place_at};
ghost use Rattle.program_uses.specs.Lowest.{IsLowest};
ghost use Rattle.usage_checks.specs.PlaceRules.{target_type, channel_type, elements_in, target_at, channel_at};
ghost use Rattle.usage_checks.specs.PlaceRules.{BreaksChannel, Differ};
ghost use Rattle.usage_checks.specs.PlaceRules.{IsOutside, BreaksSubscript, BreaksPlace, BreaksTarget};

use crate::wanting::{Wanted, fault_of};
use occam_parser::Expr;
use program_uses::{PlaceRef, is_variable, lower, told_unless};
use scalar_ranges::{
    ExprType, Meaning, OUTSIDE, Scope, UNKNOWN_NAME, WRONG_TYPE, is_subscript, read, type_of_values,
};
use word_arithmetic::Range;

/// The type of a variable, or of an element of one, by what its name denotes and by whether a subscript follows.
pub(crate) fn target_type(meaning: Option<Meaning>, subscripted: bool) -> Result<ExprType, u8>
    ensures { result ≡ target_type (option_map meaning_of meaning) subscripted }
{
    match meaning {
        None => Err(UNKNOWN_NAME),
        Some(Meaning::Scalar { value_type, .. }) if !subscripted && is_variable(meaning) => {
            Ok(type_of_values(value_type))
        }
        Some(Meaning::Array { value_type, .. }) if subscripted && is_variable(meaning) => {
            Ok(type_of_values(value_type))
        }
        Some(_) => Err(WRONG_TYPE),
    }
}

/// The type of what a channel carries, by what its name denotes and by whether a subscript follows.
pub(crate) fn channel_type(meaning: Option<Meaning>, subscripted: bool) -> Result<ExprType, u8>
    ensures { result ≡ channel_type (option_map meaning_of meaning) subscripted }
{
    match (meaning, subscripted) {
        (None, _) => Err(UNKNOWN_NAME),
        (Some(Meaning::Channel { value_type }), false)
        | (Some(Meaning::Channels { value_type, .. }), true) => Ok(type_of_values(value_type)),
        (Some(_), _) => Err(WRONG_TYPE),
    }
}

/// The number of elements of what a name denotes, if it is known.
pub(crate) fn elements_in(meaning: Option<Meaning>) -> Option<u32>
    ensures { result ≡ elements_in (option_map meaning_of meaning) }
{
    match meaning {
        Some(Meaning::Array { size, .. } | Meaning::Channels { size, .. }) => size,
        _ => None,
    }
}

/// The type of the variable that a place is.
pub(crate) fn target_at(scope: &Scope, place: PlaceRef) -> Result<ExprType, u8>
    ensures { result ≡ target_at (entries_of scope.now) (place_at place.entry) }
{
    target_type(scope.meaning(place.name), place.is_subscripted())
}

/// The type of what the channel carries that a place is.
pub(crate) fn channel_at(scope: &Scope, place: PlaceRef) -> Result<ExprType, u8>
    ensures { result ≡ channel_at (entries_of scope.now) (place_at place.entry) }
{
    channel_type(scope.meaning(place.name), place.is_subscripted())
}

/// The number of a subscript of this type and range that may be outside an array.
fn outside(size: Option<u32>, found: Result<ExprType, u8>, range: Result<Range, u8>) -> Option<u8>
    ensures { IsLowest (IsOutside size found (all_ends range)) result }
{
    match (size, found, range) {
        (Some(size), Ok(ExprType::Int), Ok(range)) => told_unless(
            is_subscript(size, range),
            OUTSIDE,
        ),
        _ => None,
    }
}

/// The lowest number of the rules that a subscript breaks, if there is one.
pub(crate) fn fault_of_subscript(
    scope: &Scope,
    wanted: Wanted,
    size: Option<u32>,
    subscript: Option<&Expr>,
) -> Option<u8>
    ensures { IsLowest (BreaksSubscript wanted (entries_of scope.now) size
        (option_map (λ e. expression_of e.now) subscript.entry)) result }
{
    match subscript {
        None => None,
        Some(subscript) => {
            let reading = read(scope, subscript);
            lower(
                fault_of(scope, wanted, subscript),
                outside(size, reading.expr_type, reading.range()),
            )
        }
    }
}

/// The number of what has no type.
pub(crate) fn untyped(found: Result<ExprType, u8>) -> Option<u8>
    ensures { IsLowest (λ n. found ≡ Err n) result }
{
    match found {
        Ok(_) => None,
        Err(number) => Some(number),
    }
}

/// The lowest number of the rules that a place of this type breaks.
fn fault_of_place(
    scope: &Scope,
    wanted: Wanted,
    found: Result<ExprType, u8>,
    place: PlaceRef,
) -> Option<u8>
    ensures { IsLowest (BreaksPlace wanted (entries_of scope.now) found (place_at place.entry)) result }
{
    let size = elements_in(scope.meaning(place.name));
    lower(
        untyped(found),
        fault_of_subscript(scope, wanted, size, place.subscript),
    )
}

/// The lowest number of the rules that a place breaks that something is assigned to or received into.
pub(crate) fn fault_of_target(scope: &Scope, place: PlaceRef) -> Option<u8>
    ensures { IsLowest (BreaksTarget (entries_of scope.now) (place_at place.entry)) result }
{
    let found = target_at(scope, place);
    fault_of_place(scope, Wanted::Value(ExprType::Int), found, place)
}

/// The lowest number of the rules that a place breaks where a channel is wanted.
pub(crate) fn fault_of_channel(scope: &Scope, place: PlaceRef) -> Option<u8>
    ensures { IsLowest (BreaksChannel (entries_of scope.now) (place_at place.entry)) result }
{
    let found = channel_at(scope, place);
    fault_of_place(scope, Wanted::Constant(ExprType::Int), found, place)
}

/// The number of two types that are not the same one.
pub(crate) fn differ(first: Result<ExprType, u8>, second: Result<ExprType, u8>) -> Option<u8>
    ensures { IsLowest (Differ first second) result }
{
    match (first, second) {
        (Ok(first), Ok(second)) => told_unless(first == second, WRONG_TYPE),
        _ => None,
    }
}
