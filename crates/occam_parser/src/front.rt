//! The front of some tokens, and what a mark is between operands.

ghost use Rattle.std.specs.Prelude.{◌≡◌, [], ◌∷◌, option_map, length, ◌<◌, IfSome, MatchOption};
ghost use Rattle.occam_parser.specs.Terminals.{terminal_of, terminals_of};
ghost use Rattle.occam_parser.specs.Reading.{behind, operator_of};

use crate::fault::LineError;
use crate::tree::{ArithmeticChain, ArithmeticPair, ChainOperator, Logic, PairOperator};
use occam_layout::{Mark, Token, TokenKind};
use word_arithmetic::Comparison;

/// What was read from the front of some tokens, and the tokens after it.
pub(crate) type Read<'t, 'a, T> = Result<(T, &'t [Token<'a>]), LineError>;

/// An operator between operands.
#[derive(Clone, Copy)]
pub(crate) enum Operator {
    Pair(PairOperator),
    Chain(ChainOperator),
}

/// The operator that a mark is between operands, if it is one. A minus sign is one, whatever follows it.
pub(crate) fn operator_of(mark: Mark) -> Option<Operator>
    ensures { result ≡ operator_of mark }
{
    let operator = match mark {
        Mark::Subtract => Operator::Pair(PairOperator::Arithmetic(ArithmeticPair::Subtract)),
        Mark::Divide => Operator::Pair(PairOperator::Arithmetic(ArithmeticPair::Divide)),
        Mark::Remainder => Operator::Pair(PairOperator::Arithmetic(ArithmeticPair::Remainder)),
        Mark::Minus => Operator::Pair(PairOperator::Arithmetic(ArithmeticPair::Minus)),
        Mark::ShiftLeft => Operator::Pair(PairOperator::Arithmetic(ArithmeticPair::ShiftLeft)),
        Mark::ShiftRight => Operator::Pair(PairOperator::Arithmetic(ArithmeticPair::ShiftRight)),
        Mark::Equal => Operator::Pair(PairOperator::Comparison(Comparison::Equal)),
        Mark::NotEqual => Operator::Pair(PairOperator::Comparison(Comparison::NotEqual)),
        Mark::Less => Operator::Pair(PairOperator::Comparison(Comparison::Less)),
        Mark::Greater => Operator::Pair(PairOperator::Comparison(Comparison::Greater)),
        Mark::LessOrEqual => Operator::Pair(PairOperator::Comparison(Comparison::LessOrEqual)),
        Mark::GreaterOrEqual => Operator::Pair(PairOperator::Comparison(
            Comparison::GreaterOrEqual,
        )),
        Mark::Add => Operator::Chain(ChainOperator::Arithmetic(ArithmeticChain::Add)),
        Mark::Multiply => Operator::Chain(ChainOperator::Arithmetic(ArithmeticChain::Multiply)),
        Mark::Plus => Operator::Chain(ChainOperator::Arithmetic(ArithmeticChain::Plus)),
        Mark::Times => Operator::Chain(ChainOperator::Arithmetic(ArithmeticChain::Times)),
        Mark::BitAnd => Operator::Chain(ChainOperator::Arithmetic(ArithmeticChain::BitAnd)),
        Mark::BitOr => Operator::Chain(ChainOperator::Arithmetic(ArithmeticChain::BitOr)),
        Mark::BitXor => Operator::Chain(ChainOperator::Arithmetic(ArithmeticChain::BitXor)),
        Mark::And => Operator::Chain(ChainOperator::Logic(Logic::And)),
        Mark::Or => Operator::Chain(ChainOperator::Logic(Logic::Or)),
        _ => return None,
    };
    Some(operator)
}

/// The first of some tokens, and the tokens after it.
pub(crate) fn first<'t, 'a>(tokens: &'t [Token<'a>]) -> Option<(TokenKind<'a>, &'t [Token<'a>])>
    ensures first { MatchOption result (terminals_of tokens.now ≡ [])
        (λ x. terminals_of tokens.now ≡ terminal_of x.0 ∷ terminals_of x.1.now) }
    ensures shorter { IfSome result (λ x. length x.1.now < length tokens.now) }
{
    let (token, rest) = tokens.split_first()?;
    Some((token.kind, rest))
}

/// The tokens after this mark, where they begin with it.
#[tactic(auto, unfolding(crate::specs::Reading::behind))]
pub(crate) fn behind<'t, 'a>(mark: Mark, tokens: &'t [Token<'a>]) -> Option<&'t [Token<'a>]>
    ensures behind { option_map (λ rest. terminals_of rest.now) result ≡ behind mark (terminals_of tokens.now) }
    ensures shorter { IfSome result (λ rest. length rest.now < length tokens.now) }
{
    match first(tokens)? {
        (TokenKind::Mark(found), rest) if found == mark => Some(rest),
        _ => None,
    }
}
