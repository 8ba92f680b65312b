//! What is known of procedures by those that call them.

ghost use Rattle.std.specs.Prelude.{◌≡◌, [], length, option_map, unwrap_or};
ghost use Rattle.scalar_ranges.specs.Environments.{item_at};
ghost use Rattle.scalar_ranges.specs.Scopes.{meaning_of};
ghost use Rattle.program_uses.specs.Signatures.{parameter_of, parameters_of, signatures_of, passing_of};
ghost use Rattle.program_uses.specs.Signatures.{parameters_in};

use crate::uses::End;
use scalar_ranges::{ArrayKind, Meaning, ScalarKind};

/// A parameter of a procedure.
#[derive(Drop)]
pub struct Parameter {
    /// What its name denotes in the procedure.
    pub meaning: Meaning,
    /// The ends that the procedure uses of it, if it is a channel or an array of channels.
    pub ends: Vec<End>,
}

/// What is known of a procedure by those that call it.
#[derive(Drop)]
pub struct Signature {
    pub parameters: Vec<Parameter>,
}

/// How an actual is passed to a parameter.
#[derive(Clone, Copy)]
pub enum Passing {
    /// As a value.
    Value,
    /// As a variable.
    Variable,
    /// As a channel, which may be an element of an array.
    Channel,
    /// As an array of channels.
    Channels,
}

/// How an actual is passed to a parameter that denotes this.
pub fn passing_of(meaning: Meaning) -> Passing
    ensures { result ≡ passing_of (meaning_of meaning) }
{
    match meaning {
        Meaning::Scalar {
            kind: ScalarKind::Reference,
            ..
        }
        | Meaning::Array {
            kind: ArrayKind::Variable,
            ..
        } => Passing::Variable,
        Meaning::Channel { .. } => Passing::Channel,
        Meaning::Channels { .. } => Passing::Channels,
        _ => Passing::Value,
    }
}

/// The parameter with this place of what has this meaning, if that is a procedure.
pub fn parameter_at(
    signatures: &[Signature],
    procedure: Option<Meaning>,
    place: usize,
) -> Option<&Parameter>
    ensures { option_map (λ p. parameter_of p.now) result
        ≡ item_at place (parameters_in (signatures_of signatures.now) (option_map meaning_of procedure)) }
{
    match procedure {
        Some(Meaning::Proc(number)) => {
            let signature = signatures.get(number as usize)?;
            signature.parameters.get(place)
        }
        _ => None,
    }
}

/// How many parameters what has this meaning has, if that is a procedure.
pub fn count_of_parameters(signatures: &[Signature], procedure: Option<Meaning>) -> usize
    ensures { result ≡ length (parameters_in (signatures_of signatures.now) (option_map meaning_of procedure)) }
{
    match procedure {
        Some(Meaning::Proc(number)) => match signatures.get(number as usize) {
            Some(signature) => signature.parameters.len(),
            None => 0,
        },
        _ => 0,
    }
}
