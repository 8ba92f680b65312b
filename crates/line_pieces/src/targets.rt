//! What is stored into, and what is sent from where it is.

ghost use Rattle.std.specs.Prelude.{◌≡◌};
ghost use Rattle.program_uses.specs.PlaceViews.{place_at};
ghost use Rattle.occam_parser.specs.Views.{expression_of, term_of};
ghost use Rattle.line_pieces.specs.TargetViews.{target_seen, target_in, source_of_term_in, source_in};

use crate::expressions::single;
use crate::home::Home;
use crate::setting::Setting;
use occam_parser::{Expr, Operand, Operation, ValueType};
use program_uses::PlaceRef;
use scalar_ranges::{Meaning, range_of};

/// What is stored into.
#[derive(Clone, Copy)]
pub enum Target<'e, 'a> {
    /// Nothing. No place of a checked program is so.
    Nothing,
    /// A scalar's own word.
    Word {
        value_type: ValueType,
        word: u32,
    },
    /// An element of an array, by the first word of the array and the number of the element.
    Known {
        value_type: ValueType,
        word: u32,
        number: u32,
    },
    /// An element of an array, by the first word of the array and the subscript.
    Other {
        value_type: ValueType,
        word: u32,
        subscript: &'e Expr<'a>,
    },
}

/// What a place is that is stored into. A parameter that is a variable is an array of one element.
pub fn target_of<'e, 'a>(setting: Setting, place: PlaceRef<'e, 'a>) -> Target<'e, 'a>
    ensures { target_seen setting.entry result ≡ target_in setting.entry (place_at place.entry) }
{
    let home = setting.home(place.name);
    let meaning = setting.scope.meaning(place.name);
    match (home, meaning, place.subscript) {
        (Some(Home::Word(word)), Some(Meaning::Scalar { value_type, .. }), None) => Target::Word {
            value_type,
            word: *word,
        },
        (Some(Home::Passed(word)), Some(Meaning::Scalar { value_type, .. }), None) => {
            Target::Known {
                value_type,
                word: *word,
                number: 0,
            }
        }
        (
            Some(Home::Word(word) | Home::Passed(word)),
            Some(Meaning::Array { value_type, .. }),
            Some(subscript),
        ) => {
            match single(range_of(setting.scope, subscript)) {
                Some(number) => Target::Known {
                    value_type,
                    word: *word,
                    number: number.unsigned_abs(),
                },
                None => Target::Other {
                    value_type,
                    word: *word,
                    subscript,
                },
            }
        }
        _ => Target::Nothing,
    }
}

/// Where the value of an operand is already: a variable, or an element of an array.
fn source_of_operand<'e, 'a>(setting: Setting, operand: &'e Operand<'a>) -> Target<'e, 'a>
    ensures { target_seen setting.entry result ≡ source_of_term_in setting.entry (term_of operand.now) }
{
    match operand {
        Operand::Name(name) => {
            let subscript = None;
            target_of(setting, PlaceRef { name, subscript })
        }
        Operand::Element { name, subscript } => {
            let subscript = Some(subscript);
            target_of(setting, PlaceRef { name, subscript })
        }
        Operand::Integer(_)
        | Operand::Character(_)
        | Operand::Truth(_)
        | Operand::MostPos
        | Operand::MostNeg
        | Operand::Bracketed(_)
        | Operand::Converted { .. } => Target::Nothing,
    }
}

/// Where the value of an expression is already.
pub(crate) fn source_of<'e, 'a>(setting: Setting, value: &'e Expr<'a>) -> Target<'e, 'a>
    ensures { target_seen setting.entry result ≡ source_in setting.entry (expression_of value.now) }
{
    match &*value.operation {
        Operation::Operand(operand) => source_of_operand(setting, operand),
        Operation::Prefix { .. } | Operation::Pair { .. } | Operation::Chain { .. } => {
            Target::Nothing
        }
    }
}
