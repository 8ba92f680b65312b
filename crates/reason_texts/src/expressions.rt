//! How far a line goes on as an expression.

ghost use Rattle.std.specs.Prelude.{◌≡◌, option_map};
ghost use Rattle.occam_parser.specs.Terminals.{terminals_of};
ghost use Rattle.reason_texts.specs.Stuck.{seen};
ghost use Rattle.reason_texts.specs.Expressions.{joint_of, joint_at, prefix_at, past_expression, past_operand};
ghost use Rattle.reason_texts.specs.Expressions.{one_operator, past_chain, past_marked, past_within, past_inner};

use crate::stuck::{Lack, Past, Wanted, behind, closed, first, lacking, past_mark};
use occam_layout::{Mark, Token, TokenKind};

/// An operator between operands.
#[derive(Clone, Copy)]
pub(crate) enum Joint {
    /// It is between two operands.
    Pair,
    /// It may be between more than two, and this is its mark.
    Chain(Mark),
}

/// What a mark is between operands, if it may be there.
fn joint_of(mark: Mark) -> Option<Joint>
    ensures { result ≡ joint_of mark }
{
    match mark {
        Mark::Subtract
        | Mark::Divide
        | Mark::Remainder
        | Mark::Minus
        | Mark::ShiftLeft
        | Mark::ShiftRight
        | Mark::Equal
        | Mark::NotEqual
        | Mark::Less
        | Mark::Greater
        | Mark::LessOrEqual
        | Mark::GreaterOrEqual => Some(Joint::Pair),
        Mark::Add
        | Mark::Multiply
        | Mark::Plus
        | Mark::Times
        | Mark::BitAnd
        | Mark::BitOr
        | Mark::BitXor
        | Mark::And
        | Mark::Or => Some(Joint::Chain(mark)),
        _ => None,
    }
}

/// The operator between operands that comes first, and the tokens after it.
#[tactic(auto, unfolding(crate::specs::Expressions::joint_at))]
fn joint_at<'t, 'a>(tokens: &'t [Token<'a>]) -> Option<(Joint, &'t [Token<'a>])>
    ensures { option_map (λ x. (x.0, terminals_of x.1.now)) result ≡ joint_at (terminals_of tokens.now) }
{
    match first(tokens) {
        Some((TokenKind::Mark(mark), rest)) => Some((joint_of(mark)?, rest)),
        _ => None,
    }
}

/// The tokens after an operator that may be before an operand, where they begin with one.
#[tactic(auto, unfolding(crate::specs::Expressions::prefix_at))]
fn prefix_at<'t, 'a>(tokens: &'t [Token<'a>]) -> Option<&'t [Token<'a>]>
    ensures { option_map (λ rest. terminals_of rest.now) result ≡ prefix_at (terminals_of tokens.now) }
{
    match first(tokens) {
        Some((TokenKind::Mark(Mark::BitNot | Mark::Not | Mark::Subtract), rest)) => Some(rest),
        _ => None,
    }
}

/// An expression has to come, in which this number of levels may be nested.
#[cycle(expression)]
#[tactic(auto, unfolding(crate::specs::Expressions::past_expression, crate::specs::Expressions::expression_with))]
pub(crate) fn past_expression<'t, 'a>(levels: u32, tokens: &'t [Token<'a>]) -> Past<'t, 'a>
    ensures { seen result ≡ past_expression levels (terminals_of tokens.now) }
{
    let rest = one_operator(levels, tokens)?;
    if joint_at(rest).is_some() {
        return lacking(Lack::Mixture, rest);
    }
    Ok(rest)
}

/// One operator with its operands has to come, or an operand alone.
#[cycle(expression)]
#[tactic(auto, unfolding(crate::specs::Expressions::one_operator, crate::specs::Expressions::after_first))]
fn one_operator<'t, 'a>(levels: u32, tokens: &'t [Token<'a>]) -> Past<'t, 'a>
    ensures { seen result ≡ one_operator (past_operand levels) (terminals_of tokens.now) }
{
    if let Some(rest) = prefix_at(tokens) {
        return past_operand(levels, rest);
    }
    let rest = past_operand(levels, tokens)?;
    match joint_at(rest) {
        None => Ok(rest),
        Some((Joint::Pair, after)) => past_operand(levels, after),
        Some((Joint::Chain(mark), after)) => past_chain(levels, mark, after),
    }
}

/// The operands of a chain have to come, of which the first and the operator after it were read. Each turn takes a
/// token at least.
#[cycle(expression)]
#[tactic(auto, using(crate::proofs::Turns::more_none, crate::proofs::Turns::more_ends, crate::proofs::Turns::more_fails, crate::proofs::Turns::more_step), unfolding(crate::specs::Expressions::past_chain))]
fn past_chain<'t, 'a>(levels: u32, mark: Mark, tokens: &'t [Token<'a>]) -> Past<'t, 'a>
    ensures { seen result ≡ past_chain (past_operand levels) mark (terminals_of tokens.now) }
{
    let mut rest = past_operand(levels, tokens)?;
    let mut turns = rest.len();
    while turns > 0 {
        let Some(after) = behind(mark, rest) else {
            return Ok(rest);
        };
        rest = past_operand(levels, after)?;
        turns -= 1;
    }
    Ok(rest)
}

/// An operand has to come: of an operator, or alone.
#[cycle(expression)]
#[tactic(auto, unfolding(crate::specs::Expressions::past_operand, crate::specs::Expressions::operand_with))]
fn past_operand<'t, 'a>(levels: u32, tokens: &'t [Token<'a>]) -> Past<'t, 'a>
    ensures { seen result ≡ past_operand levels (terminals_of tokens.now) }
{
    let Some((token, rest)) = first(tokens) else {
        return lacking(Lack::Token(Wanted::Operand), tokens);
    };
    match token {
        TokenKind::Integer(_) | TokenKind::Character(_) => Ok(rest),
        TokenKind::Name(_) => match behind(Mark::OpenBracket, rest) {
            Some(after) => past_inner(levels, Mark::CloseBracket, after),
            None => Ok(rest),
        },
        TokenKind::Mark(mark) => past_marked(levels, mark, tokens, rest),
        TokenKind::Text(_) => lacking(Lack::Token(Wanted::Operand), tokens),
    }
}

/// An operand has to come of which this mark is the first token, and these are the tokens after it.
#[cycle(expression)]
#[tactic(auto, unfolding(crate::specs::Expressions::past_marked))]
fn past_marked<'t, 'a>(
    levels: u32,
    mark: Mark,
    tokens: &'t [Token<'a>],
    rest: &'t [Token<'a>],
) -> Past<'t, 'a>
    ensures { seen result ≡ past_marked (past_inner levels) (past_within levels) mark (terminals_of tokens.now)
        (terminals_of rest.now) }
{
    match mark {
        Mark::True | Mark::False => Ok(rest),
        Mark::MostPos | Mark::MostNeg => past_mark(Mark::Int, rest),
        Mark::Int | Mark::Byte => past_within(levels, rest),
        Mark::OpenParenthesis => past_inner(levels, Mark::CloseParenthesis, rest),
        Mark::Subtract | Mark::BitNot | Mark::Not => lacking(Lack::Mixture, tokens),
        _ => lacking(Lack::Token(Wanted::Operand), tokens),
    }
}

/// An operand has to come one level deeper.
#[cycle(expression)]
#[tactic(auto, using(crate::proofs::Levels::within_none, crate::proofs::Levels::within_below))]
fn past_within<'t, 'a>(levels: u32, tokens: &'t [Token<'a>]) -> Past<'t, 'a>
    ensures { seen result ≡ past_within levels (terminals_of tokens.now) }
{
    if levels == 0 {
        return lacking(Lack::Nesting, tokens);
    }
    past_operand(levels - 1, tokens)
}

/// An expression has to come one level deeper, up to the mark that closes it.
#[cycle(expression)]
#[tactic(auto, using(crate::proofs::Levels::inner_none, crate::proofs::Levels::inner_below))]
fn past_inner<'t, 'a>(levels: u32, close: Mark, tokens: &'t [Token<'a>]) -> Past<'t, 'a>
    ensures { seen result ≡ past_inner levels close (terminals_of tokens.now) }
{
    if levels == 0 {
        return lacking(Lack::Nesting, tokens);
    }
    closed(close, past_expression(levels - 1, tokens))
}
