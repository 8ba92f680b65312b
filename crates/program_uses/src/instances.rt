//! What an instance of a procedure uses.

ghost use Rattle.std.specs.Prelude.{◌≡◌, option_map, map};
ghost use Rattle.occam_parser.specs.Views.{expression_of, term_of};
ghost use Rattle.scalar_ranges.specs.Scopes.{entries_of, meaning_of};
ghost use Rattle.program_uses.specs.Sets.{Adds};
ghost use Rattle.program_uses.specs.Signatures.{parameter_of, signatures_of, passing_of, parameters_in};
ghost use Rattle.program_uses.specs.PlaceViews.{place_at, any_place};
ghost use Rattle.program_uses.specs.Instances.{place_of_term, place_in, whole_name, variable_at, is_array, array_at};
ghost use Rattle.program_uses.specs.Instances.{uses_ends, of_spot, of_array, passes, uses_of_actual, uses_of_actuals};

use crate::mentions::variable;
use crate::places::{PlaceRef, Spot, spot_of};
use crate::signature::{Parameter, Passing, Signature, parameter_at, passing_of};
use crate::uses::{End, Use, Uses};
use occam_parser::{Expr, Operand, Operation};
use scalar_ranges::{Meaning, Scope};

/// The place that an expression is, if it is exactly that.
pub fn place_in<'e, 'a>(expr: &'e Expr<'a>) -> Option<PlaceRef<'e, 'a>>
    ensures { any_place result ≡ place_in (expression_of expr.now) }
{
    match &*expr.operation {
        Operation::Operand(operand) => place_of_operand(operand),
        Operation::Prefix { .. } | Operation::Pair { .. } | Operation::Chain { .. } => None,
    }
}

/// The place that an operand is, if it is exactly that.
fn place_of_operand<'e, 'a>(operand: &'e Operand<'a>) -> Option<PlaceRef<'e, 'a>>
    ensures { any_place result ≡ place_of_term (term_of operand.now) }
{
    match operand {
        Operand::Name(name) => Some(PlaceRef {
            name,
            subscript: None,
        }),
        Operand::Element { name, subscript } => Some(PlaceRef {
            name,
            subscript: Some(subscript),
        }),
        Operand::Integer(_)
        | Operand::Character(_)
        | Operand::Truth(_)
        | Operand::MostPos
        | Operand::MostNeg
        | Operand::Bracketed(_)
        | Operand::Converted { .. } => None,
    }
}

/// The variable that a place is, if it has no subscript.
pub fn variable_at(scope: &Scope, place: PlaceRef) -> Option<usize>
    ensures { result ≡ variable_at (entries_of scope.now) (place_at place.entry) }
{
    match place.subscript {
        None => variable(scope, place.name),
        Some(_) => None,
    }
}

fn is_array(meaning: Option<Meaning>) -> bool
    ensures { result ≡ is_array (option_map meaning_of meaning) }
{
    match meaning {
        Some(Meaning::Channels { .. }) => true,
        _ => false,
    }
}

/// The array of channels that a place is, if it has no subscript.
pub fn array_at(scope: &Scope, place: PlaceRef) -> Option<usize>
    ensures { result ≡ array_at (entries_of scope.now) (place_at place.entry) }
{
    let found = scope.lookup(place.name)?;
    match place.subscript {
        None if is_array(Some(found.meaning)) => Some(found.number),
        _ => None,
    }
}

impl Uses {
    /// Ends of a channel, for those that a procedure uses of its parameter: of one element, or of a whole array.
    fn use_ends(&mut self, channel: usize, element: Option<u32>, ends: &[End])
        ensures { Adds self.old self.new (uses_ends channel element ends.now) }
    {
        for end in ends {
            self.add(Use::Channel {
                channel,
                element: element.unwrap_or(end.element),
                direction: end.direction,
            });
        }
    }

    /// Ends of the channel that a place is, if it is one.
    fn use_ends_at(&mut self, spot: Option<Spot>, ends: &[End])
        ensures { Adds self.old self.new (of_spot ends.now spot) }
    {
        if let Some(Spot { channel, element }) = spot {
            self.use_ends(channel, Some(element), ends);
        }
    }

    /// Ends of the array of channels with this number, if there is one.
    fn use_ends_of(&mut self, array: Option<usize>, ends: &[End])
        ensures { Adds self.old self.new (of_array ends.now array) }
    {
        if let Some(channel) = array {
            self.use_ends(channel, None, ends);
        }
    }

    /// What is passed to a parameter, besides what is read.
    fn pass(&mut self, counted: bool, scope: &Scope, parameter: &Parameter, place: Option<PlaceRef>)
        ensures { Adds self.old self.new
            (passes counted (entries_of scope.now) (passing_of (meaning_of parameter.now.meaning))
            parameter.now.ends.items (any_place place.entry)) }
    {
        let Some(place) = place else { return };
        match passing_of(parameter.meaning) {
            Passing::Value => {}
            Passing::Variable => {
                if let Some(number) = variable_at(scope, place) {
                    self.add(Use::Change(number));
                }
            }
            Passing::Channel => self.use_ends_at(spot_of(scope, place), &parameter.ends),
            Passing::Channels => {
                if counted {
                    self.use_ends_of(array_at(scope, place), &parameter.ends);
                }
            }
        }
    }

    /// What an actual uses.
    fn pass_actual(
        &mut self,
        counted: bool,
        scope: &Scope,
        parameter: Option<&Parameter>,
        actual: &Expr,
    )
        ensures { Adds self.old self.new
            (uses_of_actual counted (entries_of scope.now) (option_map (λ p. parameter_of p.now) parameter.entry)
            (expression_of actual.now)) }
    {
        self.read(scope, actual);
        if let Some(parameter) = parameter {
            self.pass(counted, scope, parameter, place_in(actual));
        }
    }

    /// What the actuals of an instance use.
    pub(crate) fn pass_all(
        &mut self,
        counted: bool,
        scope: &Scope,
        signatures: &[Signature],
        procedure: Option<Meaning>,
        actuals: &[Expr],
    )
        ensures { Adds self.old self.new
            (uses_of_actuals counted (entries_of scope.now)
            (parameters_in (signatures_of signatures.now) (option_map meaning_of procedure))
            (map expression_of actuals.now)) }
    {
        for (place, actual) in actuals.iter().enumerate() {
            self.pass_actual(
                counted,
                scope,
                parameter_at(signatures, procedure, place),
                actual,
            );
        }
    }
}
