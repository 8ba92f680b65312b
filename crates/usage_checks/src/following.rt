//! What is known after an action.

ghost use Rattle.std.specs.Prelude.{◌≡◌, map, option_map};
ghost use Rattle.occam_parser.specs.Views.{expression_of};
ghost use Rattle.occam_parser.specs.LineViews.{place_of, action_of};
ghost use Rattle.scalar_ranges.specs.BoundViews.{all_ends};
ghost use Rattle.scalar_ranges.specs.Scopes.{entries_of, blocks_of, meaning_of};
ghost use Rattle.program_uses.specs.Signatures.{parameter_of, signatures_of, parameters_in};
ghost use Rattle.usage_checks.specs.Following.{receive_if, assign_if, after_assignment, after_input, passed_to};
ghost use Rattle.usage_checks.specs.Following.{after_actuals, after_action};

use occam_parser::{Action, Expr, Place};
use program_uses::{
    Parameter, Passing, Signature, parameter_at, passing_of, place_in, place_ref, variable_at,
};
use scalar_ranges::{Meaning, Scope, range_of};
use word_arithmetic::Range;

/// Something is received into a variable, if there is one.
fn receive_if(scope: &mut Scope, number: Option<usize>)
    ensures entries { entries_of scope.new ≡ receive_if number (entries_of scope.old) }
    ensures blocks { blocks_of scope.new ≡ blocks_of scope.old }
{
    if let Some(number) = number {
        scope.receive(number);
    }
}

/// A variable has the range of what is assigned to it, if there is one.
fn assign_if(scope: &mut Scope, number: Option<usize>, range: Result<Range, u8>)
    ensures entries { entries_of scope.new ≡ assign_if number (all_ends range) (entries_of scope.old) }
    ensures blocks { blocks_of scope.new ≡ blocks_of scope.old }
{
    match (number, range) {
        (None, _) => {}
        (Some(number), Ok(range)) => scope.assign(number, range),
        (Some(number), Err(_)) => scope.receive(number),
    }
}

/// What is known after an assignment.
fn after_assignment(scope: &mut Scope, target: &Place, value: &Expr)
    ensures entries { entries_of scope.new
        ≡ after_assignment (place_of target.now) (expression_of value.now) (entries_of scope.old) }
    ensures blocks { blocks_of scope.new ≡ blocks_of scope.old }
{
    let number = variable_at(scope, place_ref(target));
    let range = range_of(scope, value);
    assign_if(scope, number, range);
}

/// What is known after something was received into a variable or an element.
pub fn after_input(scope: &mut Scope, target: &Place)
    ensures entries { entries_of scope.new ≡ after_input (place_of target.now) (entries_of scope.old) }
    ensures blocks { blocks_of scope.new ≡ blocks_of scope.old }
{
    let received = variable_at(scope, place_ref(target));
    receive_if(scope, received);
}

/// The variable that is passed to a parameter as one.
fn passed_to(scope: &Scope, parameter: Option<&Parameter>, actual: &Expr) -> Option<usize>
    ensures { result ≡ passed_to (option_map (λ p. parameter_of p.now) parameter.entry) (entries_of scope.now)
        (expression_of actual.now) }
{
    match passing_of(parameter?.meaning) {
        Passing::Variable => variable_at(scope, place_in(actual)?),
        Passing::Value | Passing::Channel | Passing::Channels => None,
    }
}

/// What is known after an instance with these actuals.
fn after_actuals(
    scope: &mut Scope,
    signatures: &[Signature],
    procedure: Option<Meaning>,
    actuals: &[Expr],
)
    ensures entries { entries_of scope.new
        ≡ after_actuals (parameters_in (signatures_of signatures.now) (option_map meaning_of procedure)) 0
        (map expression_of actuals.now) (entries_of scope.old) }
    ensures blocks { blocks_of scope.new ≡ blocks_of scope.old }
{
    for (place, actual) in actuals.iter().enumerate() {
        let parameter = parameter_at(signatures, procedure, place);
        let number = passed_to(scope, parameter, actual);
        receive_if(scope, number);
    }
}

/// What is known after an action: a variable that is assigned to has the range of what is assigned, and one that is
/// received into or passed as a variable has the range of its type. `signatures` are those of the procedures before
/// this place.
pub fn after_action(scope: &mut Scope, signatures: &[Signature], action: &Action)
    ensures entries { entries_of scope.new
        ≡ after_action (signatures_of signatures.now) (action_of action.now) (entries_of scope.old) }
    ensures blocks { blocks_of scope.new ≡ blocks_of scope.old }
{
    match action {
        Action::Skip | Action::Stop | Action::Output { .. } => {}
        Action::Assign { target, value } => after_assignment(scope, target, value),
        Action::Input { target, .. } => after_input(scope, target),
        Action::Instance { name, actuals } => {
            let procedure = scope.meaning(name);
            after_actuals(scope, signatures, procedure, actuals);
        }
    }
}
