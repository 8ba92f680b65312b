//! What to write in place of a line that breaks a usage rule.

ghost use Rattle.std.specs.Prelude.{◌≡◌, option_map};
ghost use Rattle.usage_texts.specs.Hints.{unknown_hint, type_hint, place_hint, sort_hint, parameter_hint, wrap_hint, range_hint, known_hint, hint};

use occam_parser::{ArithmeticChain, ArithmeticPair};
use scalar_ranges::{ArrayKind, ExprType, Meaning, ScalarKind};
use usage_reasons::{Operator, Sort, Why};

/// Where one type was found and another one was wanted.
fn type_hint(found: ExprType, wanted: ExprType) -> Option<&'static str>
    ensures { option_map (λ h. h.now) result ≡ type_hint found wanted }
{
    match (found, wanted) {
        (ExprType::Byte, ExprType::Int) => Some("INT before a BYTE makes it an INT, as INT b"),
        (ExprType::Int, ExprType::Byte) => Some(
            "BYTE before an INT of 0..255 makes it a BYTE, as BYTE x; a character is written 'a'",
        ),
        (_, ExprType::Condition) => Some("a condition is a comparison, as x <> 0"),
        (ExprType::Condition, _) => Some(
            "a truth value is no number; assign 1 or 0 in the choices of an IF",
        ),
        _ => None,
    }
}

/// Where a value or a variable has another type than the place that it is assigned or sent to, or received from.
fn place_hint(found: ExprType, wanted: ExprType) -> Option<&'static str>
    ensures { option_map (λ h. h.now) result ≡ place_hint found wanted }
{
    match (found, wanted) {
        (ExprType::Byte, ExprType::Int) => Some(
            "a BYTE is assigned or sent as INT b; an INT is received into an INT",
        ),
        (ExprType::Int, ExprType::Byte) => Some(
            "an INT of 0..255 is assigned or sent as BYTE x, a character as 'a'; a BYTE is received into a BYTE",
        ),
        _ => type_hint(found, wanted),
    }
}

/// Where a name denotes something else.
fn sort_hint(wanted: Sort) -> Option<&'static str>
    ensures { option_map (λ h. h.now) result ≡ sort_hint wanted }
{
    match wanted {
        Sort::Scalar => Some(
            "an array is used by its elements, as a[0], and a channel in inputs and outputs",
        ),
        Sort::Variable => Some(
            "constants, VAL parameters and replicators keep their value; arrays change by elements",
        ),
        Sort::VariableArray => Some(
            "only arrays have subscripts; tables and VAL parameters keep their values",
        ),
        Sort::Channel => Some("channels are declared, as CHAN OF INT c, and elements are c[0]"),
        Sort::Array | Sort::ChannelArray => Some("only arrays have subscripts"),
        Sort::Procedure => Some("an instance begins with the name of a procedure"),
    }
}

/// What a parameter takes.
fn parameter_hint(parameter: Meaning) -> Option<&'static str>
    ensures { option_map (λ h. h.now) result ≡ parameter_hint parameter }
{
    match parameter {
        Meaning::Scalar {
            kind: ScalarKind::Reference,
            ..
        } => Some(
            "a parameter without VAL takes the name of a variable of its type; assign an element to one before",
        ),
        Meaning::Scalar { .. } => Some("a VAL parameter takes an expression of its type"),
        Meaning::Array {
            kind: ArrayKind::Value,
            ..
        } => Some("it takes the name of an array or a table of this type and size"),
        Meaning::Array { .. } => Some(
            "it takes the name of an array of this type and size that is no table and no VAL parameter",
        ),
        Meaning::Channel { .. } => Some(
            "it takes a channel of this type, or an element of an array of channels",
        ),
        Meaning::Channels { .. } => Some("it takes an array of channels of this type and size"),
        _ => None,
    }
}

/// Which operator works modulo 2^32 in place of this one.
fn wrap_hint(operator: Operator) -> Option<&'static str>
    ensures { option_map (λ h. h.now) result ≡ wrap_hint operator }
{
    match operator {
        Operator::Negate => Some("0 MINUS x wraps, and never fails"),
        Operator::Pair(ArithmeticPair::Subtract) => Some("MINUS wraps, and never fails"),
        Operator::Chain(ArithmeticChain::Add) => Some("PLUS wraps, and never fails"),
        Operator::Chain(ArithmeticChain::Multiply) => Some("TIMES wraps, and never fails"),
        _ => None,
    }
}

/// What to write where something is out of range or too large.
fn range_hint(why: Why<'_>) -> Option<&'static str>
    ensures { option_map (λ h. h.now) result ≡ range_hint why.entry }
{
    match why {
        Why::Overflow { operator, .. } => wrap_hint(operator),
        Why::Division { .. } => Some(
            "of a local variable y a choice of an IF excludes other divisors, as y > 0",
        ),
        Why::ShiftCount { .. } => Some("n /\\ 31 is 0..31 where n is not negative"),
        Why::Conversion { .. } => Some(
            "of a local variable x the choices x < 0 and x < 256 of an IF leave 0..255",
        ),
        Why::Outside { .. } => Some(
            "choices of an IF, one for each end, leave a range of a local variable; AND and OR leave none",
        ),
        Why::TooLarge => Some("under a replicated PAR, IF or ALT each index is gone over"),
        _ => None,
    }
}

/// Of a name that is not known, where no other one is nearly the same.
fn unknown_hint(nearest: Option<&[u8]>) -> Option<&'static str>
    ensures { option_map (λ h. h.now) result ≡ unknown_hint nearest.entry }
{
    match nearest {
        None => Some(
            "a name is known below its declaration, and a procedure below its end; the last choice of an IF is TRUE",
        ),
        Some(_) => None,
    }
}

/// What to write in place of a line whose names are known.
fn known_hint(why: Why<'_>) -> Option<&'static str>
    ensures { option_map (λ h. h.now) result ≡ known_hint why.entry }
{
    match why {
        Why::OtherType { found, wanted } => type_hint(found, wanted),
        Why::OtherPlaceType { found, wanted, .. } => place_hint(found, wanted),
        Why::OtherTypes { .. } => Some("INT before a BYTE makes it an INT, as INT b"),
        Why::OtherSort { wanted } => sort_hint(wanted),
        Why::TextOfInts => Some("write the items, as [97, 98], or a table of BYTE"),
        Why::NoConstant => Some(
            "what VAL names, sizes, counts and subscripts of channels are constants; a loop ends early by an IF in it",
        ),
        Why::NotTaken { parameter, .. } => parameter_hint(parameter),
        Why::SharedVariable { .. } => Some(
            "what one component changes no other one uses, and an array is one variable; send it on a channel",
        ),
        Why::SharedChannel { .. } => Some(
            "one component receives from a channel and one sends to it; declare one more channel",
        ),
        Why::OutsidePar => Some("a channel is between components of a PAR below its declaration"),
        Why::OtherDirection { .. } => Some(
            "main receives from in0 to in3 and sends to out0 to out3",
        ),
        Why::PassedTwice { .. } => Some("pass another one, or a copy of a variable"),
        Why::NoMain(_) => Some(
            "the last procedure is main; its parameters are as CHAN OF BYTE in0, up to in3 and out3",
        ),
        _ => range_hint(why),
    }
}

/// What to write in place of a line.
pub(crate) fn hint(why: Why<'_>) -> Option<&'static str>
    ensures { option_map (λ h. h.now) result ≡ hint why.entry }
{
    match why {
        Why::UnknownName { nearest } => unknown_hint(nearest),
        _ => known_hint(why),
    }
}
