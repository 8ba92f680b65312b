//! Lists with commas between their items, within one line.

ghost use Rattle.std.specs.Prelude.{◌≤◌, length, map, IfOk};
ghost use Rattle.occam_parser.specs.Terminals.{terminals_of};
ghost use Rattle.occam_parser.specs.OneOrMore.{one_or_more_of};
ghost use Rattle.occam_parser.specs.Reading.{Reads, Gives, list_of};
ghost use Rattle.occam_parser.specs.LineReading.{in_parentheses};

use crate::expression::up_to;
use crate::fault::LineError;
use crate::front::{Read, behind};
use crate::head::{at_end, expect_end};
use crate::tree::OneOrMore;
use occam_layout::{Mark, Token};
use std::alloc::Global;

/// What can be read from the front of some tokens.
pub(crate) trait FromTokens<'a>: Sized + Drop {
    ghost Tree: { Type 0 };

    ghost tree: { Self → Tree };

    ghost reads: { Reads Tree };

    fn from_tokens<'t>(alloc: Global, tokens: &'t [Token<'a>]) -> Read<'t, 'a, Self>
        ensures found { Gives (λ x. (tree x.0, terminals_of x.1.now)) result (reads (terminals_of tokens.now)) }
        ensures within { IfOk result (λ x. length x.1.now ≤ length tokens.now) };
}

/// Items with commas between them.
pub(crate) fn list<'t, 'a, T: FromTokens<'a>>(
    alloc: Global,
    tokens: &'t [Token<'a>],
) -> Read<'t, 'a, OneOrMore<T>>
    ensures found { Gives (λ x. (one_or_more_of T.tree x.0, terminals_of x.1.now)) result
        (list_of T.reads (terminals_of tokens.now)) }
    ensures within { IfOk result (λ x. length x.1.now ≤ length tokens.now) }
{
    let (first, mut rest) = T::from_tokens(alloc, tokens)?;
    let mut others = Vec::new(alloc);
    while let Some(after) = behind(Mark::Comma, rest) {
        let (next, behind) = T::from_tokens(alloc, after)?;
        others.push(next)?;
        rest = behind;
    }
    Ok((OneOrMore { first, others }, rest))
}

/// Items with commas between them, if any, after the parenthesis that opens and up to the one that ends the line.
#[tactic(auto, unfolding(crate::specs::LineReading::in_parentheses))]
pub(crate) fn in_parentheses<'a, T: FromTokens<'a>>(
    alloc: Global,
    tokens: &[Token<'a>],
) -> Result<Vec<T>, LineError>
    ensures { Gives (λ v. map T.tree v.items) result (in_parentheses T.reads (terminals_of tokens.now)) }
{
    if let Some(rest) = behind(Mark::CloseParenthesis, tokens) {
        expect_end(rest)?;
        return Ok(Vec::new(alloc));
    }
    let OneOrMore { first, mut others } = at_end(up_to(
        Mark::CloseParenthesis,
        list(alloc, tokens),
    ))?;
    others.insert(0, first)?;
    Ok(others)
}
