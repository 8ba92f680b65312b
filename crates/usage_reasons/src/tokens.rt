//! How many tokens the parts of a line are.

ghost use Rattle.std.specs.Prelude.{◌≡◌, ◌+◌, length, map, sum_by};
ghost use Rattle.occam_parser.specs.Expressions.{written, written_term};
ghost use Rattle.occam_parser.specs.Lines.{in_brackets, written_place};
ghost use Rattle.occam_parser.specs.LineViews.{any_of, place_of};
ghost use Rattle.occam_parser.specs.Views.{expression_of, term_of};
ghost use Rattle.usage_reasons.specs.Tokens.{capped, tokens_behind};

use occam_parser::{Expr, Operand, Operation, Place};

/// The sum of two counts of tokens.
pub(crate) fn plus(a: usize, b: usize) -> usize
    ensures { result ≡ capped (a + b) }
{
    a.saturating_add(b)
}

/// The sum of two counts of tokens, with a token between.
pub(crate) fn plus_between(a: usize, b: usize) -> usize
    ensures { result ≡ capped (a + (1 + b)) }
{
    plus(a, plus(1, b))
}

/// How many tokens an expression is.
#[cycle(width)]
pub(crate) fn width_of(expr: &Expr) -> usize
    ensures { result ≡ capped (length (written (expression_of expr.now))) }
{
    match &*expr.operation {
        Operation::Operand(operand) => width_of_operand(operand),
        Operation::Prefix { operand, .. } => plus(1, width_of_operand(operand)),
        Operation::Pair { left, right, .. } => {
            plus_between(width_of_operand(left), width_of_operand(right))
        }
        Operation::Chain {
            first,
            second,
            others,
            ..
        } => plus(
            plus_between(width_of_operand(first), width_of_operand(second)),
            width_of_others(others),
        ),
    }
}

/// How many tokens the further operands of a chain are, each with its operator.
#[cycle(width)]
fn width_of_others(others: &[Operand]) -> usize
    ensures { result ≡ capped (sum_by tokens_behind (map term_of others.now)) }
{
    let mut width = 0;
    for other in others {
        width = plus_between(width, width_of_operand(other));
    }
    width
}

/// How many tokens an operand is.
#[cycle(width)]
pub(crate) fn width_of_operand(operand: &Operand) -> usize
    ensures { result ≡ capped (length (written_term (term_of operand.now))) }
{
    match operand {
        Operand::Integer(_) | Operand::Character(_) | Operand::Truth(_) | Operand::Name(_) => 1,
        Operand::MostPos | Operand::MostNeg => 2,
        Operand::Element { subscript, .. } => plus(3, width_of(subscript)),
        Operand::Bracketed(inner) => plus(2, width_of(inner)),
        Operand::Converted { operand, .. } => plus(1, width_of_operand(operand)),
    }
}

/// How many tokens an expression in brackets is, if there is one.
pub(crate) fn width_in_brackets(expr: &Option<Expr>) -> usize
    ensures { result ≡ capped (length (in_brackets (any_of expr.now))) }
{
    match expr {
        None => 0,
        Some(expr) => plus(2, width_of(expr)),
    }
}

/// How many tokens a place is.
pub(crate) fn width_of_place(place: &Place) -> usize
    ensures { result ≡ capped (length (written_place (place_of place.now))) }
{
    plus(1, width_in_brackets(&place.subscript))
}
