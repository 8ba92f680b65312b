//! The rules of instances: what is passed for each formal of a procedure.

ghost use Rattle.std.specs.Prelude.{◌≡◌, map, option_map};
ghost use Rattle.occam_parser.specs.Views.{expression_of};
ghost use Rattle.scalar_ranges.specs.Scopes.{entries_of, meaning_of};
ghost use Rattle.program_uses.specs.Lowest.{IsLowest};
ghost use Rattle.program_uses.specs.PlaceViews.{place_at, any_place};
ghost use Rattle.program_uses.specs.Signatures.{parameter_of, signatures_of, parameters_in};
ghost use Rattle.usage_checks.specs.InstanceRules.{IsNotTaken, subscript_for, BreaksWhole, IsNoValue, BreaksExpression};
ghost use Rattle.usage_checks.specs.InstanceRules.{BreaksActual, is_channel, are_right_ways, IsMispassed};
ghost use Rattle.usage_checks.specs.InstanceRules.{BreaksPassing, BreaksOne, BreaksActuals, IsNotCalled};
ghost use Rattle.usage_checks.specs.InstanceRules.{BreaksInstance};

use crate::channel_rules::Position;
use crate::place_rules::{elements_in, fault_of_subscript};
use crate::taking::{takes, takes_value};
use crate::wanting::{Wanted, fault_of};
use occam_parser::Expr;
use program_uses::{
    CHANNEL_USE, End, OTHER_ACTUAL, Parameter, PlaceRef, Signature, count_of_parameters, lower,
    parameter_at, place_in, told_unless,
};
use scalar_ranges::{ExprType, Meaning, Scope, UNKNOWN_NAME, WRONG_TYPE, type_of};

/// The number of a place whose name has this meaning and that a formal does not take.
fn not_taken(formal: Option<Meaning>, found: Option<Meaning>, subscripted: bool) -> Option<u8>
    ensures { IsLowest (IsNotTaken (option_map meaning_of formal) (option_map meaning_of found) subscripted) result }
{
    match (formal, found) {
        (_, None) => Some(UNKNOWN_NAME),
        (None, Some(_)) => None,
        (Some(formal), Some(found)) => told_unless(takes(formal, found, subscripted), OTHER_ACTUAL),
    }
}

/// What is wanted of the subscript of an actual that is passed to this formal.
pub fn subscript_for(formal: Option<Meaning>) -> Wanted
    ensures { result ≡ subscript_for (option_map meaning_of formal) }
{
    match formal {
        Some(Meaning::Channel { .. }) => Wanted::Constant(ExprType::Int),
        _ => Wanted::Value(ExprType::Int),
    }
}

/// The lowest number of the rules that an actual breaks that is exactly a place.
fn fault_of_whole(scope: &Scope, formal: Option<Meaning>, place: PlaceRef) -> Option<u8>
    ensures { IsLowest (BreaksWhole (entries_of scope.now) (option_map meaning_of formal) (place_at place.entry))
        result }
{
    let found = scope.meaning(place.name);
    let size = elements_in(found);
    lower(
        not_taken(formal, found, place.is_subscripted()),
        fault_of_subscript(scope, subscript_for(formal), size, place.subscript),
    )
}

/// The number of a value of this type that a formal does not take.
fn no_value(formal: Option<Meaning>, found: Result<ExprType, u8>) -> Option<u8>
    ensures { IsLowest (IsNoValue (option_map meaning_of formal) found) result }
{
    match (formal, found) {
        (Some(formal), Ok(found)) => told_unless(takes_value(formal, found), OTHER_ACTUAL),
        _ => None,
    }
}

/// The lowest number of the rules that an actual breaks that is no place.
fn fault_of_expression(scope: &Scope, formal: Option<Meaning>, actual: &Expr) -> Option<u8>
    ensures { IsLowest (BreaksExpression (entries_of scope.now) (option_map meaning_of formal)
        (expression_of actual.now)) result }
{
    lower(
        fault_of(scope, Wanted::Anything, actual),
        no_value(formal, type_of(scope, actual)),
    )
}

/// The lowest number of the rules that an actual breaks, which is exactly this place if there is one.
fn fault_of_actual(
    scope: &Scope,
    formal: Option<Meaning>,
    actual: &Expr,
    place: Option<PlaceRef>,
) -> Option<u8>
    ensures { IsLowest (BreaksActual (entries_of scope.now) (option_map meaning_of formal) (expression_of actual.now)
        (any_place place.entry)) result }
{
    match place {
        None => fault_of_expression(scope, formal, actual),
        Some(place) => fault_of_whole(scope, formal, place),
    }
}

fn is_channel(meaning: Option<Meaning>) -> bool
    ensures { result ≡ is_channel (option_map meaning_of meaning) }
{
    match meaning {
        Some(Meaning::Channel { .. } | Meaning::Channels { .. }) => true,
        _ => false,
    }
}

/// Whether a channel may be used in the directions of all these ends.
fn are_right_ways(position: Position, name: &[u8], number: usize, ends: &[End]) -> bool
    ensures { result ≡ are_right_ways position name.now number ends.now }
{
    let mut rest = ends;
    while let Some((end, after)) = rest.split_first() {
        if !position.is_right_way(name, number, end.direction) {
            return false;
        }
        rest = after;
    }
    true
}

/// The number of a channel that may not be passed here to a parameter.
fn mispassed(
    position: Position,
    parameter: &Parameter,
    found: Option<Meaning>,
    name: &[u8],
    number: Option<usize>,
) -> Option<u8>
    ensures { IsLowest (IsMispassed position (parameter_of parameter.now) (option_map meaning_of found) name.now number)
        result }
{
    let number = number?;
    if !is_channel(Some(parameter.meaning)) || !is_channel(found) {
        return None;
    }
    let inside = position.is_inside(number);
    let right = are_right_ways(position, name, number, &parameter.ends);
    told_unless(inside && right, CHANNEL_USE)
}

/// The number of a channel that may not be passed here, if a place is passed to a parameter.
fn fault_of_passing(
    position: Position,
    scope: &Scope,
    parameter: Option<&Parameter>,
    place: Option<PlaceRef>,
) -> Option<u8>
    ensures { IsLowest (BreaksPassing position (entries_of scope.now)
        (option_map (λ p. parameter_of p.now) parameter.entry) (any_place place.entry)) result }
{
    match (parameter, place) {
        (Some(parameter), Some(place)) => mispassed(
            position,
            parameter,
            scope.meaning(place.name),
            place.name,
            scope.find(place.name),
        ),
        _ => None,
    }
}

/// What the name of a parameter denotes, if there is one.
fn formal_of(parameter: Option<&Parameter>) -> Option<Meaning>
    ensures { option_map meaning_of result
        ≡ option_map (λ q. q.meaning) (option_map (λ p. parameter_of p.now) parameter.entry) }
{
    match parameter {
        None => None,
        Some(parameter) => Some(parameter.meaning),
    }
}

/// The lowest number of the rules that an actual breaks where it is passed to a parameter.
fn fault_of_one(
    position: Position,
    scope: &Scope,
    parameter: Option<&Parameter>,
    actual: &Expr,
) -> Option<u8>
    ensures { IsLowest (BreaksOne position (entries_of scope.now)
        (option_map (λ p. parameter_of p.now) parameter.entry) (expression_of actual.now)) result }
{
    let place = place_in(actual);
    lower(
        fault_of_actual(scope, formal_of(parameter), actual, place),
        fault_of_passing(position, scope, parameter, place),
    )
}

/// The number of the rule that a call of what has this meaning with `count` actuals breaks, if it breaks one.
fn not_called(signatures: &[Signature], found: Option<Meaning>, count: usize) -> Option<u8>
    ensures { IsLowest (IsNotCalled (signatures_of signatures.now) (option_map meaning_of found) count) result }
{
    match found {
        None => Some(UNKNOWN_NAME),
        Some(Meaning::Proc(_)) => {
            told_unless(
                count_of_parameters(signatures, found) == count,
                OTHER_ACTUAL,
            )
        }
        Some(_) => Some(WRONG_TYPE),
    }
}

/// The lowest number of the rules that the actuals of what has this meaning break.
fn fault_of_actuals(
    position: Position,
    scope: &Scope,
    signatures: &[Signature],
    procedure: Option<Meaning>,
    actuals: &[Expr],
) -> Option<u8>
    ensures { IsLowest (BreaksActuals position (entries_of scope.now)
        (parameters_in (signatures_of signatures.now) (option_map meaning_of procedure))
        (map expression_of actuals.now)) result }
{
    let mut found = None;
    for (place, actual) in actuals.iter().enumerate() {
        let parameter = parameter_at(signatures, procedure, place);
        found = lower(found, fault_of_one(position, scope, parameter, actual));
    }
    found
}

/// The lowest number of the rules that an instance breaks, but for what is passed twice.
pub(crate) fn fault_of_instance(
    position: Position,
    scope: &Scope,
    signatures: &[Signature],
    name: &[u8],
    actuals: &[Expr],
) -> Option<u8>
    ensures { IsLowest (BreaksInstance position (signatures_of signatures.now) (entries_of scope.now) name.now
        (map expression_of actuals.now)) result }
{
    let procedure = scope.meaning(name);
    lower(
        not_called(signatures, procedure, actuals.len()),
        fault_of_actuals(position, scope, signatures, procedure, actuals),
    )
}
