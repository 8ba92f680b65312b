//! Expressions, within one line.

ghost use Rattle.std.specs.Prelude.{◌≡◌, ◌≤◌, ◌<◌, length, option_map, IfOk, IfSome};
ghost use Rattle.occam_parser.specs.Terminals.{terminals_of};
ghost use Rattle.occam_parser.specs.Expressions.{Expression};
ghost use Rattle.occam_parser.specs.Views.{expression_of, term_of};
ghost use Rattle.occam_parser.specs.Reading.{Gives, Finds, behind, prefix_at, operator_at};
ghost use Rattle.occam_parser.specs.Reading.{expression_at, one_operator, chain, term_at, marked, named, converted};
ghost use Rattle.occam_parser.specs.Reading.{up_to, inner_at, operand_within};
ghost use Rattle.occam_parser.specs.LineReading.{bracketed_at};
ghost use Rattle.occam_parser.specs.LineFaults.{GoesUpTo, IsMadeOf};

use crate::fault::{Fault, LineError};
use crate::front::{Operator, Read, behind, first, operator_of};
use crate::head::beside;
use crate::list::FromTokens;
use crate::tree::{ChainOperator, Expr, Operand, Operation, PrefixOperator, ValueType};
use occam_layout::{Mark, Token, TokenKind};
use std::alloc::Global;

/// The greatest number of brackets, subscripts and conversions that may be nested within an expression.
pub const MAX_NESTING: u32 = 64;

/// The tokens after a mark that has to be here.
pub(crate) fn expect<'t, 'a>(mark: Mark, tokens: &'t [Token<'a>]) -> Result<&'t [Token<'a>], Fault>
    ensures found { Finds (λ rest. terminals_of rest.now) result (behind mark (terminals_of tokens.now)) }
    ensures within { IfOk result (λ rest. length rest.now < length tokens.now) }
{
    behind(mark, tokens).ok_or(Fault::UnexpectedToken)
}

/// What was read, where this mark has to follow it, and the tokens after the mark.
pub(crate) fn up_to<'t, 'a, T: Drop>(mark: Mark, read: Read<'t, 'a, T>) -> Read<'t, 'a, T>
    ensures { GoesUpTo mark read.entry result }
{
    let (found, rest) = read?;
    let rest = expect(mark, rest)?;
    Ok((found, rest))
}

/// The operator that begins some tokens, if it may be before an operand, and the tokens after it.
#[tactic(auto, unfolding(crate::specs::Reading::prefix_at))]
fn prefix<'t, 'a>(tokens: &'t [Token<'a>]) -> Option<(PrefixOperator, &'t [Token<'a>])>
    ensures found { option_map (λ x. (x.0, terminals_of x.1.now)) result ≡ prefix_at (terminals_of tokens.now) }
    ensures within { IfSome result (λ x. length x.1.now < length tokens.now) }
{
    match first(tokens)? {
        (TokenKind::Mark(Mark::BitNot), rest) => Some((PrefixOperator::BitNot, rest)),
        (TokenKind::Mark(Mark::Not), rest) => Some((PrefixOperator::Not, rest)),
        (TokenKind::Mark(Mark::Subtract), rest) => Some((PrefixOperator::Negate, rest)),
        _ => None,
    }
}

/// The operator between operands that comes first, its mark, and the tokens after it.
#[tactic(auto, unfolding(crate::specs::Reading::operator_at))]
fn operator_at<'t, 'a>(tokens: &'t [Token<'a>]) -> Option<((Operator, Mark), &'t [Token<'a>])>
    ensures found { option_map (λ x. (x.0, terminals_of x.1.now)) result ≡ operator_at (terminals_of tokens.now) }
    ensures within { IfSome result (λ x. length x.1.now < length tokens.now) }
{
    match first(tokens)? {
        (TokenKind::Mark(mark), rest) => Some(((operator_of(mark)?, mark), rest)),
        _ => None,
    }
}

/// An expression, and the tokens after it.
impl<'a> FromTokens<'a> for Expr<'a> {
    ghost Tree = { Expression };

    ghost tree = { expression_of };

    ghost reads = { expression_at 64 };

    fn from_tokens<'t>(alloc: Global, tokens: &'t [Token<'a>]) -> Read<'t, 'a, Expr<'a>> {
        nested(alloc, MAX_NESTING, tokens)
    }
}

/// An expression in which this number of levels may still be nested.
#[cycle(expression)]
#[tactic(auto, unfolding(crate::specs::Reading::expression_at, crate::specs::Reading::expression_with))]
fn nested<'t, 'a>(alloc: Global, levels: u32, tokens: &'t [Token<'a>]) -> Read<'t, 'a, Expr<'a>>
    ensures found { Gives (λ x. (expression_of x.0, terminals_of x.1.now)) result
        (expression_at levels (terminals_of tokens.now)) }
    ensures within { IfOk result (λ x. length x.1.now ≤ length tokens.now) }
{
    let (found, rest) = one_operator(alloc, levels, tokens)?;
    if operator_at(rest).is_some() {
        return Err(LineError::Fault(Fault::Mixture));
    }
    Ok((found, rest))
}

/// The expression that has this operator and these operands, beside the tokens after it.
fn made_of<'t, 'a>(
    alloc: Global,
    operation: Operation<'a>,
    rest: &'t [Token<'a>],
) -> Read<'t, 'a, Expr<'a>>
    ensures { IsMadeOf operation.entry rest.entry result }
{
    let operation = Box::new(alloc, operation)?;
    Ok((Expr { operation }, rest))
}

/// One operator with its operands, or an operand alone, whatever follows.
#[cycle(expression)]
#[tactic(auto, unfolding(crate::specs::Reading::one_operator, crate::specs::Reading::after_first))]
fn one_operator<'t, 'a>(
    alloc: Global,
    levels: u32,
    tokens: &'t [Token<'a>],
) -> Read<'t, 'a, Expr<'a>>
    ensures found { Gives (λ x. (expression_of x.0, terminals_of x.1.now)) result
        (one_operator (term_at levels) (terminals_of tokens.now)) }
    ensures within { IfOk result (λ x. length x.1.now ≤ length tokens.now) }
{
    if let Some((operator, rest)) = prefix(tokens) {
        let (operand, rest) = operand(alloc, levels, rest)?;
        return made_of(alloc, Operation::Prefix { operator, operand }, rest);
    }
    let (left, rest) = operand(alloc, levels, tokens)?;
    match operator_at(rest) {
        Some(((Operator::Pair(operator), _), after)) => {
            let (left, (right, rest)) = beside(left, operand(alloc, levels, after))?;
            made_of(
                alloc,
                Operation::Pair {
                    operator,
                    left,
                    right,
                },
                rest,
            )
        }
        Some(((Operator::Chain(operator), mark), after)) => {
            chain(alloc, levels, operator, mark, left, after)
        }
        None => made_of(alloc, Operation::Operand(left), rest),
    }
}

/// A chain, of which the first operand and the operator after it were read, whose mark this is.
#[cycle(expression)]
#[tactic(auto, unfolding(crate::specs::Reading::chain))]
fn chain<'t, 'a>(
    alloc: Global,
    levels: u32,
    operator: ChainOperator,
    mark: Mark,
    first: Operand<'a>,
    tokens: &'t [Token<'a>],
) -> Read<'t, 'a, Expr<'a>>
    ensures found { Gives (λ x. (expression_of x.0, terminals_of x.1.now)) result
        (chain (term_at levels) operator mark (term_of first.entry) (terminals_of tokens.now)) }
    ensures within { IfOk result (λ x. length x.1.now ≤ length tokens.now) }
{
    let (second, mut rest) = operand(alloc, levels, tokens)?;
    let mut others = Vec::new(alloc);
    while let Some(after) = behind(mark, rest) {
        let (other, behind) = operand(alloc, levels, after)?;
        others.push(other)?;
        rest = behind;
    }
    let operation = Operation::Chain {
        operator,
        first,
        second,
        others,
    };
    made_of(alloc, operation, rest)
}

/// An operand: of an operator, or alone.
#[cycle(expression)]
#[tactic(auto, unfolding(crate::specs::Reading::term_at, crate::specs::Reading::term_with))]
fn operand<'t, 'a>(alloc: Global, levels: u32, tokens: &'t [Token<'a>]) -> Read<'t, 'a, Operand<'a>>
    ensures found { Gives (λ x. (term_of x.0, terminals_of x.1.now)) result (term_at levels (terminals_of tokens.now)) }
    ensures within { IfOk result (λ x. length x.1.now ≤ length tokens.now) }
{
    match first(tokens) {
        Some((TokenKind::Integer(value), rest)) => Ok((Operand::Integer(value), rest)),
        Some((TokenKind::Character(byte), rest)) => Ok((Operand::Character(byte), rest)),
        Some((TokenKind::Name(name), rest)) => named(alloc, levels, name, rest),
        Some((TokenKind::Mark(mark), rest)) => marked(alloc, levels, mark, rest),
        _ => Err(LineError::Fault(Fault::UnexpectedToken)),
    }
}

/// An operand that begins with a keyword or a sign, which was read.
#[cycle(expression)]
#[tactic(auto, unfolding(crate::specs::Reading::marked))]
fn marked<'t, 'a>(
    alloc: Global,
    levels: u32,
    mark: Mark,
    tokens: &'t [Token<'a>],
) -> Read<'t, 'a, Operand<'a>>
    ensures found { Gives (λ x. (term_of x.0, terminals_of x.1.now)) result
        (marked (inner_at levels) (operand_within levels) mark (terminals_of tokens.now)) }
    ensures within { IfOk result (λ x. length x.1.now ≤ length tokens.now) }
{
    match mark {
        Mark::True => Ok((Operand::Truth(true), tokens)),
        Mark::False => Ok((Operand::Truth(false), tokens)),
        Mark::MostPos => Ok((Operand::MostPos, expect(Mark::Int, tokens)?)),
        Mark::MostNeg => Ok((Operand::MostNeg, expect(Mark::Int, tokens)?)),
        Mark::Int => converted(alloc, levels, ValueType::Int, tokens),
        Mark::Byte => converted(alloc, levels, ValueType::Byte, tokens),
        Mark::OpenParenthesis => {
            let (inner, rest) = deeper(alloc, levels, Mark::CloseParenthesis, tokens)?;
            Ok((Operand::Bracketed(inner), rest))
        }
        Mark::Subtract | Mark::BitNot | Mark::Not => Err(LineError::Fault(Fault::Mixture)),
        _ => Err(LineError::Fault(Fault::UnexpectedToken)),
    }
}

/// A name that was read, or an element of the array of that name.
#[cycle(expression)]
#[tactic(auto, unfolding(crate::specs::Reading::named))]
fn named<'t, 'a>(
    alloc: Global,
    levels: u32,
    name: &'a [u8],
    tokens: &'t [Token<'a>],
) -> Read<'t, 'a, Operand<'a>>
    ensures found { Gives (λ x. (term_of x.0, terminals_of x.1.now)) result
        (named (inner_at levels) name.now (terminals_of tokens.now)) }
    ensures within { IfOk result (λ x. length x.1.now ≤ length tokens.now) }
{
    let Some(after) = behind(Mark::OpenBracket, tokens) else {
        return Ok((Operand::Name(name), tokens));
    };
    let (subscript, rest) = deeper(alloc, levels, Mark::CloseBracket, after)?;
    Ok((Operand::Element { name, subscript }, rest))
}

/// An operand after a type that was read.
#[cycle(expression)]
#[tactic(auto, unfolding(crate::specs::Reading::converted, crate::specs::Reading::operand_within))]
fn converted<'t, 'a>(
    alloc: Global,
    levels: u32,
    to: ValueType,
    tokens: &'t [Token<'a>],
) -> Read<'t, 'a, Operand<'a>>
    ensures found { Gives (λ x. (term_of x.0, terminals_of x.1.now)) result
        (converted (operand_within levels) to (terminals_of tokens.now)) }
    ensures within { IfOk result (λ x. length x.1.now ≤ length tokens.now) }
{
    if levels == 0 {
        return Err(LineError::Fault(Fault::Nesting));
    }
    let (inner, rest) = operand(alloc, levels - 1, tokens)?;
    let operand = Box::new(alloc, inner)?;
    Ok((Operand::Converted { to, operand }, rest))
}

/// An expression one level deeper, up to the mark that closes it.
#[cycle(expression)]
#[tactic(auto, using(crate::proofs::Levels::inner_below), unfolding(crate::specs::Reading::up_to))]
fn deeper<'t, 'a>(
    alloc: Global,
    levels: u32,
    close: Mark,
    tokens: &'t [Token<'a>],
) -> Read<'t, 'a, Expr<'a>>
    ensures found { Gives (λ x. (expression_of x.0, terminals_of x.1.now)) result
        (up_to close (inner_at levels (terminals_of tokens.now))) }
    ensures within { IfOk result (λ x. length x.1.now ≤ length tokens.now) }
{
    if levels == 0 {
        return Err(LineError::Fault(Fault::Nesting));
    }
    up_to(close, nested(alloc, levels - 1, tokens))
}

/// The expression in brackets that some tokens begin with, if they do, and the tokens after it.
#[tactic(auto, unfolding(crate::specs::LineReading::bracketed_at, crate::specs::Reading::up_to))]
pub(crate) fn in_brackets<'t, 'a>(
    alloc: Global,
    tokens: &'t [Token<'a>],
) -> Read<'t, 'a, Option<Expr<'a>>>
    ensures found { Gives (λ x. (option_map expression_of x.0, terminals_of x.1.now)) result
        (bracketed_at (terminals_of tokens.now)) }
    ensures within { IfOk result (λ x. length x.1.now ≤ length tokens.now) }
{
    let Some(after) = behind(Mark::OpenBracket, tokens) else {
        return Ok((None, tokens));
    };
    let (inner, rest) = up_to(Mark::CloseBracket, Expr::from_tokens(alloc, after))?;
    Ok((Some(inner), rest))
}
