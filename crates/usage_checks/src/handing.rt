//! What an instance passes twice.

ghost use Rattle.std.specs.Prelude.{◌≡◌, IfOk, [], map, option_map};
ghost use Rattle.occam_parser.specs.Views.{expression_of};
ghost use Rattle.occam_parser.specs.LineViews.{action_of};
ghost use Rattle.scalar_ranges.specs.Scopes.{entries_of, known_of, meaning_of};
ghost use Rattle.program_uses.specs.Lowest.{IsLowest};
ghost use Rattle.program_uses.specs.PlaceViews.{place_at, any_place};
ghost use Rattle.program_uses.specs.Sets.{Adds, has};
ghost use Rattle.program_uses.specs.Signatures.{parameter_of, signatures_of, parameters_in};
ghost use Rattle.usage_checks.specs.declared.handing.Handed.TheVariants as handed;
ghost use Rattle.usage_checks.specs.Handing.{are_values, handed_if, handed_as, handed_to, handed_by, handed_all};
ghost use Rattle.usage_checks.specs.Handing.{AreAgain, PassesTwice};
ghost use Rattle.usage_checks.specs.Remembering.{remembered, is_again};
ghost use Rattle.program_uses.specs.Telling.{At};
ghost use Rattle.usage_checks.specs.Telling.{Walks};

use crate::blocks::Site;
use crate::telling::Findings;
use occam_parser::{Action, Expr};
use program_uses::{
    Direction, PASSED_TWICE, Parameter, Passing, PlaceRef, Signature, Spot, Use, Uses, array_at,
    lower, parameter_at, passing_of, place_in, spot_of, told_unless, variable_at,
};
use scalar_ranges::{ArrayKind, Meaning, Scope};
use std::alloc::{AllocError, Global};

/// What is passed by its name.
#[derive(Clone, Copy)]
pub enum Handed {
    /// What is passed by its value, or breaks another rule.
    Nothing,
    /// A variable, or an array of channels.
    Whole(usize),
    /// The values of an array.
    Values(usize),
    /// A channel, or an element of an array of channels.
    Element(Spot),
}

/// Whether a parameter is an array that is passed by its values.
fn are_values(meaning: Meaning) -> bool
    ensures { result ≡ are_values (meaning_of meaning) }
{
    match meaning {
        Meaning::Array {
            kind: ArrayKind::Value,
            ..
        } => true,
        _ => false,
    }
}

/// What is whole, if it has a number.
fn whole(number: Option<usize>) -> Handed
    ensures { result ≡ handed_if handed.Whole number }
{
    match number {
        Some(number) => Handed::Whole(number),
        None => Handed::Nothing,
    }
}

/// What a place is that is passed so.
fn handed_as(scope: &Scope, values: bool, passing: Passing, place: PlaceRef) -> Handed
    ensures { result ≡ handed_as values passing (entries_of scope.now) (place_at place.entry) }
{
    match passing {
        Passing::Value if !values => Handed::Nothing,
        Passing::Value => match variable_at(scope, place) {
            Some(number) => Handed::Values(number),
            None => Handed::Nothing,
        },
        Passing::Variable => whole(variable_at(scope, place)),
        Passing::Channel => match spot_of(scope, place) {
            Some(spot) => Handed::Element(spot),
            None => Handed::Nothing,
        },
        Passing::Channels => whole(array_at(scope, place)),
    }
}

/// What an actual is that is passed to a parameter.
pub fn handed_by(scope: &Scope, parameter: Option<&Parameter>, actual: &Expr) -> Handed
    ensures { result ≡ handed_by (entries_of scope.now) (option_map (λ p. parameter_of p.now) parameter.entry)
        (expression_of actual.now) }
{
    match (parameter, place_in(actual)) {
        (Some(parameter), Some(place)) => handed_as(
            scope,
            are_values(parameter.meaning),
            passing_of(parameter.meaning),
            place,
        ),
        _ => Handed::Nothing,
    }
}

/// Whether something was passed before that it may not be passed with.
fn is_again(before: &Uses, handed: Handed) -> bool
    ensures { result ≡ is_again (has before.now) handed }
{
    match handed {
        Handed::Nothing => false,
        Handed::Whole(number) => {
            before.contains(Use::Read(number)) || before.contains(Use::Change(number))
        }
        Handed::Values(number) => before.contains(Use::Change(number)),
        Handed::Element(Spot { channel, element }) => {
            let end = Use::Channel {
                channel,
                element,
                direction: Direction::Input,
            };
            before.contains(Use::Change(channel)) || before.contains(end)
        }
    }
}

/// Something is passed.
fn remember(before: &mut Uses, handed: Handed)
    ensures { Adds before.old before.new (remembered handed) }
{
    match handed {
        Handed::Nothing => {}
        Handed::Whole(number) => before.add(Use::Change(number)),
        Handed::Values(number) => before.add(Use::Read(number)),
        Handed::Element(Spot { channel, element }) => {
            before.add(Use::Read(channel));
            before.add(Use::Channel {
                channel,
                element,
                direction: Direction::Input,
            });
        }
    }
}

/// The number of the rule that these actuals break if something is passed twice.
fn fault_of_handing(
    alloc: Global,
    scope: &Scope,
    signatures: &[Signature],
    procedure: Option<Meaning>,
    actuals: &[Expr],
) -> Result<Option<u8>, AllocError>
    ensures { IfOk result (λ found. IsLowest (AreAgain [] (handed_all (entries_of scope.now)
        (parameters_in (signatures_of signatures.now) (option_map meaning_of procedure)) 0
        (map expression_of actuals.now))) found) }
{
    let mut before = Uses::new(alloc);
    let mut found = None;
    for (place, actual) in actuals.iter().enumerate() {
        let handed = handed_by(scope, parameter_at(signatures, procedure, place), actual);
        found = lower(found, told_unless(!is_again(&before, handed), PASSED_TWICE));
        remember(&mut before, handed);
    }
    if before.is_complete() {
        Ok(found)
    } else {
        Err(AllocError)
    }
}

/// The number of the rule that an action breaks if it passes something twice.
fn fault_of_passing_twice(
    alloc: Global,
    scope: &Scope,
    signatures: &[Signature],
    action: &Action,
) -> Result<Option<u8>, AllocError>
    ensures { IfOk result (λ found. IsLowest (PassesTwice (signatures_of signatures.now) (entries_of scope.now)
        (action_of action.now)) found) }
{
    match action {
        Action::Instance { name, actuals } => {
            fault_of_handing(alloc, scope, signatures, scope.meaning(name), actuals)
        }
        Action::Skip
        | Action::Stop
        | Action::Assign { .. }
        | Action::Input { .. }
        | Action::Output { .. } => Ok(None),
    }
}

impl Findings {
    /// What an action on this line passes twice.
    pub(crate) fn walk_passing(&mut self, site: Site, scope: &Scope, line: u32, action: &Action)
        ensures { Walks self.old self.new (known_of scope.now) (known_of scope.now)
            (At line (PassesTwice (signatures_of site.entry.around.signatures.now) (entries_of scope.now)
            (action_of action.now))) }
    {
        match fault_of_passing_twice(site.alloc, scope, site.around.signatures, action) {
            Ok(found) => self.tell(line, found),
            Err(_) => self.fail(),
        }
    }
}
