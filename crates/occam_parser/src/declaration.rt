//! Constants, declarations and the heads of procedures, within one line.

ghost use Rattle.std.specs.Prelude.{◌≤◌, ◌<◌, ℕ, List, length, map, option_map, IfOk};
ghost use Rattle.occam_parser.specs.Terminals.{terminals_of};
ghost use Rattle.occam_parser.specs.OneOrMore.{one_or_more_of};
ghost use Rattle.occam_parser.specs.Views.{expression_of};
ghost use Rattle.occam_parser.specs.LineViews.{spelling_of, value_of, constant_of, declaration_of, formal_of};
ghost use Rattle.occam_parser.specs.LineViews.{proc_head_of};
ghost use Rattle.occam_parser.specs.Lines.{Formal as FormalTree};
ghost use Rattle.occam_parser.specs.Reading.{Gives, Finds};
ghost use Rattle.occam_parser.specs.LineReading.{type_at, typed_name_at, shape_at, name_at, value_at, constant_at};
ghost use Rattle.occam_parser.specs.LineReading.{names_at, value_formal_at, formal_at, proc_head_at};
ghost use Rattle.occam_parser.specs.LineFaults.{shaped_name_at, shaped_names_at};

use crate::expression::{expect, in_brackets, up_to};
use crate::fault::{Fault, LineError};
use crate::front::{Read, behind, first};
use crate::head::{at_end, beside, name};
use crate::list::{FromTokens, in_parentheses, list};
use crate::tree::{
    Constant, ConstantValue, Declaration, Expr, Formal, FormalKind, Names, OneOrMore, ValueType,
};
use occam_layout::{Line, Mark, Token, TokenKind};
use std::alloc::Global;

/// The head of a procedure.
#[derive(Drop)]
pub(crate) struct ProcHead<'a> {
    pub(crate) name: &'a [u8],
    pub(crate) formals: Vec<Formal<'a>>,
}

/// The type at the front of some tokens, and the tokens after it.
#[tactic(auto, unfolding(crate::specs::LineReading::type_at))]
fn value_type<'t, 'a>(tokens: &'t [Token<'a>]) -> Result<(ValueType, &'t [Token<'a>]), Fault>
    ensures found { Finds (λ x. (x.0, terminals_of x.1.now)) result (type_at (terminals_of tokens.now)) }
    ensures within { IfOk result (λ x. length x.1.now ≤ length tokens.now) }
{
    if let Some(rest) = behind(Mark::Int, tokens) {
        return Ok((ValueType::Int, rest));
    }
    let rest = expect(Mark::Byte, tokens)?;
    Ok((ValueType::Byte, rest))
}

/// `type name`, and the tokens after it.
#[tactic(auto, unfolding(crate::specs::LineReading::typed_name_at))]
fn typed_name<'t, 'a>(tokens: &'t [Token<'a>]) -> Read<'t, 'a, (ValueType, &'a [u8])>
    ensures found { Gives (λ x. ((x.0.0, x.0.1.now), terminals_of x.1.now)) result
        (typed_name_at (terminals_of tokens.now)) }
    ensures within { IfOk result (λ x. length x.1.now ≤ length tokens.now) }
{
    let (value_type, rest) = value_type(tokens)?;
    let (name, rest) = name(rest)?;
    Ok(((value_type, name), rest))
}

/// `type`, or `CHAN OF type`: whether it is a channel's, the type, and the tokens after it.
#[tactic(auto, unfolding(crate::specs::LineReading::shape_at))]
fn shape<'t, 'a>(tokens: &'t [Token<'a>]) -> Result<((bool, ValueType), &'t [Token<'a>]), Fault>
    ensures found { Finds (λ x. (x.0, terminals_of x.1.now)) result (shape_at (terminals_of tokens.now)) }
    ensures within { IfOk result (λ x. length x.1.now ≤ length tokens.now) }
{
    if let Some(rest) = behind(Mark::Chan, tokens) {
        let (value_type, rest) = value_type(expect(Mark::Of, rest)?)?;
        return Ok(((true, value_type), rest));
    }
    let (value_type, rest) = value_type(tokens)?;
    Ok(((false, value_type), rest))
}

/// `type name` or `CHAN OF type name`, and the tokens after it.
#[tactic(auto, unfolding(crate::specs::LineFaults::shaped_name_at))]
fn shaped_name<'t, 'a>(tokens: &'t [Token<'a>]) -> Read<'t, 'a, ((bool, ValueType), &'a [u8])>
    ensures found { Gives (λ x. ((x.0.0, x.0.1.now), terminals_of x.1.now)) result
        (shaped_name_at (terminals_of tokens.now)) }
    ensures within { IfOk result (λ x. length x.1.now ≤ length tokens.now) }
{
    let (shape, rest) = shape(tokens)?;
    let (name, rest) = name(rest)?;
    Ok(((shape, name), rest))
}

/// A constant, after its `VAL`.
#[tactic(auto, unfolding(crate::specs::LineReading::constant_at, crate::specs::LineReading::typed_name_at, crate::specs::Reading::up_to))]
pub(crate) fn constant<'a>(
    alloc: Global,
    line: u32,
    tokens: &[Token<'a>],
) -> Result<Constant<'a>, LineError>
    ensures { Gives constant_of result (constant_at line (terminals_of tokens.now)) }
{
    let (size, rest) = in_brackets(alloc, tokens)?;
    let (size, ((value_type, name), rest)) = beside(size, up_to(Mark::Is, typed_name(rest)))?;
    let value = at_end(up_to(Mark::Colon, constant_value(alloc, size, rest)))?;
    Ok(Constant {
        line,
        value_type,
        name,
        value,
    })
}

/// What a constant denotes: a value or, where it has a size, a table of items or a string.
#[tactic(auto, unfolding(crate::specs::LineReading::value_at, crate::specs::LineReading::table_at, crate::specs::Reading::up_to))]
fn constant_value<'t, 'a>(
    alloc: Global,
    size: Option<Expr<'a>>,
    tokens: &'t [Token<'a>],
) -> Read<'t, 'a, ConstantValue<'a>>
    ensures { Gives (λ x. (value_of x.0, terminals_of x.1.now)) result
        (value_at (option_map expression_of size.entry) (terminals_of tokens.now)) }
{
    let Some(size) = size else {
        let (value, rest) = Expr::from_tokens(alloc, tokens)?;
        return Ok((ConstantValue::Scalar(value), rest));
    };
    match first(tokens) {
        Some((TokenKind::Text(text), rest)) => Ok((ConstantValue::Text { size, text }, rest)),
        Some((TokenKind::Mark(Mark::OpenBracket), rest)) => {
            let items = up_to(Mark::CloseBracket, list(alloc, rest));
            let (size, (items, rest)) = beside(size, items)?;
            Ok((ConstantValue::Table { size, items }, rest))
        }
        _ => Err(LineError::Fault(Fault::UnexpectedToken)),
    }
}

/// The declaration of variables or channels that a line is.
#[tactic(auto, unfolding(crate::specs::LineReading::names_at, crate::specs::LineFaults::shaped_names_at))]
pub(crate) fn typed_names<'a>(alloc: Global, line: &Line<'a>) -> Result<Declaration<'a>, LineError>
    ensures { Gives declaration_of result (names_at line.now.number (terminals_of line.now.tokens.items)) }
{
    let (size, rest) = in_brackets(alloc, &line.tokens)?;
    let (size, ((is_channel, value_type), names)) = beside(size, shaped_names(alloc, rest))?;
    let found = Names {
        line: line.number,
        size,
        value_type,
        names,
    };
    Ok(if is_channel {
        Declaration::Channels(found)
    } else {
        Declaration::Variables(found)
    })
}

/// A type, or `CHAN OF` and a type, and the names after it up to the colon that ends the line.
#[tactic(auto, unfolding(crate::specs::LineFaults::shaped_names_at))]
fn shaped_names<'a>(
    alloc: Global,
    tokens: &[Token<'a>],
) -> Result<((bool, ValueType), OneOrMore<&'a [u8]>), LineError>
    ensures { Gives (λ x. (x.0, one_or_more_of spelling_of x.1)) result (shaped_names_at (terminals_of tokens.now)) }
{
    let (shape, rest) = shape(tokens)?;
    let names = at_end(up_to(Mark::Colon, list(alloc, rest)))?;
    Ok((shape, names))
}

/// A name, and the tokens after it.
impl<'a> FromTokens<'a> for &'a [u8] {
    ghost Tree = { List ℕ };

    ghost tree = { spelling_of };

    ghost reads = { name_at };

    fn from_tokens<'t>(_alloc: Global, tokens: &'t [Token<'a>]) -> Read<'t, 'a, &'a [u8]> {
        Ok(name(tokens)?)
    }
}

/// The head of a procedure, after its `PROC`.
#[tactic(auto, unfolding(crate::specs::LineReading::proc_head_at))]
pub(crate) fn proc_head<'a>(alloc: Global, tokens: &[Token<'a>]) -> Result<ProcHead<'a>, LineError>
    ensures { Gives proc_head_of result (proc_head_at (terminals_of tokens.now)) }
{
    let (name, rest) = name(tokens)?;
    let rest = expect(Mark::OpenParenthesis, rest)?;
    Ok(ProcHead {
        name,
        formals: in_parentheses(alloc, rest)?,
    })
}

/// A formal parameter, and the tokens after it.
impl<'a> FromTokens<'a> for Formal<'a> {
    ghost Tree = { FormalTree };

    ghost tree = { formal_of };

    ghost reads = { formal_at };

    #[tactic(auto, unfolding(crate::specs::LineReading::formal_at, crate::specs::LineReading::formal_named, crate::specs::LineFaults::shaped_name_at))]
    fn from_tokens<'t>(alloc: Global, tokens: &'t [Token<'a>]) -> Read<'t, 'a, Formal<'a>> {
        if let Some(rest) = behind(Mark::Val, tokens) {
            return value_formal(alloc, rest);
        }
        let (size, rest) = in_brackets(alloc, tokens)?;
        let (size, (((is_channel, value_type), name), rest)) = beside(size, shaped_name(rest))?;
        let kind = if is_channel {
            FormalKind::Channel
        } else {
            FormalKind::Variable
        };
        Ok((
            Formal {
                kind,
                size,
                value_type,
                name,
            },
            rest,
        ))
    }
}

/// A formal parameter that is a value, after its `VAL`.
#[tactic(auto, unfolding(crate::specs::LineReading::formal_named, crate::specs::LineReading::typed_name_at))]
fn value_formal<'t, 'a>(alloc: Global, tokens: &'t [Token<'a>]) -> Read<'t, 'a, Formal<'a>>
    ensures found { Gives (λ x. (formal_of x.0, terminals_of x.1.now)) result
        (value_formal_at (terminals_of tokens.now)) }
    ensures within { IfOk result (λ x. length x.1.now ≤ length tokens.now) }
{
    let (size, rest) = in_brackets(alloc, tokens)?;
    let (size, ((value_type, name), rest)) = beside(size, typed_name(rest))?;
    Ok((
        Formal {
            kind: FormalKind::Value,
            size,
            value_type,
            name,
        },
        rest,
    ))
}
