//! The ends that instances use of arrays of channels.

ghost use Rattle.std.specs.Prelude.{◌≡◌, map, option_map, option_and_then};
ghost use Rattle.occam_parser.specs.LineViews.{action_of};
ghost use Rattle.occam_parser.specs.Views.{expression_of};
ghost use Rattle.scalar_ranges.specs.Scopes.{entries_of, meaning_of};
ghost use Rattle.program_uses.specs.Instances.{place_in, array_at};
ghost use Rattle.program_uses.specs.Signatures.{parameter_of, signatures_of, passing_of, parameters_in};
ghost use Rattle.program_sizes.specs.LineSizes.{capped};
ghost use Rattle.usage_checks.specs.Sizes.{ends_of_array, ends_passed, ends_of_actual, ends_of_actuals};
ghost use Rattle.usage_checks.specs.Sizes.{ends_of_instance, is_instance};

use occam_parser::{Action, Expr};
use program_sizes::{plus, size_of_count};
use program_uses::{
    End, Parameter, Passing, Signature, array_at, parameter_at, passing_of, place_in,
};
use scalar_ranges::{Meaning, Scope};

/// The array of channels that an actual is, if it is one.
fn array_passed(scope: &Scope, actual: &Expr) -> Option<usize>
    ensures { result ≡ option_and_then (array_at (entries_of scope.now)) (place_in (expression_of actual.now)) }
{
    array_at(scope, place_in(actual)?)
}

/// How many ends these are, if there is an array that they are of.
fn ends_of_array(ends: &[End], array: Option<usize>) -> u32
    ensures { result ≡ capped (ends_of_array ends.now array) }
{
    match array {
        None => 0,
        Some(_) => size_of_count(ends.len()),
    }
}

/// How many ends of an array are used that is passed to a parameter.
fn ends_passed(scope: &Scope, parameter: &Parameter, actual: &Expr) -> u32
    ensures { result ≡ capped (ends_passed (entries_of scope.now) (passing_of (meaning_of parameter.now.meaning))
        parameter.now.ends.items (place_in (expression_of actual.now))) }
{
    match passing_of(parameter.meaning) {
        Passing::Value | Passing::Variable | Passing::Channel => 0,
        Passing::Channels => ends_of_array(&parameter.ends, array_passed(scope, actual)),
    }
}

/// How many ends of an array are used that an actual is.
fn ends_of_actual(scope: &Scope, parameter: Option<&Parameter>, actual: &Expr) -> u32
    ensures { result ≡ capped (ends_of_actual (entries_of scope.now)
        (option_map (λ p. parameter_of p.now) parameter.entry) (expression_of actual.now)) }
{
    match parameter {
        None => 0,
        Some(parameter) => ends_passed(scope, parameter, actual),
    }
}

/// How many ends of arrays are used that the actuals of an instance are.
fn ends_of_actuals(
    scope: &Scope,
    signatures: &[Signature],
    procedure: Option<Meaning>,
    actuals: &[Expr],
) -> u32
    ensures { result ≡ capped (ends_of_actuals (entries_of scope.now)
        (parameters_in (signatures_of signatures.now) (option_map meaning_of procedure)) 0
        (map expression_of actuals.now)) }
{
    let mut count = 0;
    for (place, actual) in actuals.iter().enumerate() {
        let parameter = parameter_at(signatures, procedure, place);
        count = plus(count, ends_of_actual(scope, parameter, actual));
    }
    count
}

/// How many ends an action uses of arrays that it passes whole.
pub(crate) fn ends_of_instance(scope: &Scope, signatures: &[Signature], action: &Action) -> u32
    ensures { result
        ≡ capped (ends_of_instance (signatures_of signatures.now) (entries_of scope.now) (action_of action.now)) }
{
    match action {
        Action::Instance { name, actuals } => {
            ends_of_actuals(scope, signatures, scope.meaning(name), actuals)
        }
        Action::Skip
        | Action::Stop
        | Action::Assign { .. }
        | Action::Input { .. }
        | Action::Output { .. } => 0,
    }
}

/// Whether an action is an instance.
pub(crate) fn is_instance(action: &Action) -> bool
    ensures { result ≡ is_instance (action_of action.now) }
{
    match action {
        Action::Instance { .. } => true,
        _ => false,
    }
}
