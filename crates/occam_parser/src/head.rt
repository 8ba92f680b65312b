//! What one line of a process says.

ghost use Rattle.std.specs.Prelude.{◌≡◌, ◌≤◌, ◌<◌, true, false, List, Option, length, option_map, IfOk, OnOk, OnErr};
ghost use Rattle.occam_parser.specs.Terminals.{Terminal, terminals_of};
ghost use Rattle.occam_parser.specs.Expressions.{Expression};
ghost use Rattle.occam_parser.specs.Views.{expression_of};
ghost use Rattle.occam_parser.specs.LineViews.{place_of, replicator_of, action_of, guard_of, head_of};
ghost use Rattle.occam_parser.specs.Reading.{Gives, Finds};
ghost use Rattle.occam_parser.specs.LineFaults.{IsAll, IsBeside};
ghost use Rattle.occam_parser.specs.Lines.{Place as PlaceTree, Guard as GuardTree};
ghost use Rattle.occam_parser.specs.LineReading.{ended, name_at, head_at, marked_head, block_at, replicator_at};
ghost use Rattle.occam_parser.specs.LineReading.{counted_at, place_at, action_at, placed_action};
ghost use Rattle.occam_parser.specs.LineReading.{whole_at, whole_place, has_condition};
ghost use Rattle.occam_parser.specs.LineReading.{guard_at, conditioned_at, received_if, input_at};

use crate::declaration::{constant, typed_names};
use crate::expression::{expect, in_brackets, up_to};
use crate::fault::{Fault, LineError};
use crate::front::{Read, behind, first};
use crate::list::{FromTokens, in_parentheses};
use crate::tree::{Action, Declaration, Expr, Guard, Place, Replicator};
use occam_layout::{Line, Mark, Token, TokenKind};
use std::alloc::Global;

/// What a line of a process is.
#[derive(Drop)]
pub(crate) enum Head<'a> {
    Declaration(Declaration<'a>),
    Start(Start<'a>),
}

/// What a construct begins with: all of it, or the head of a block.
#[derive(Drop)]
pub(crate) enum Start<'a> {
    Action(Action<'a>),
    Block(BlockKind, Option<Replicator<'a>>),
}

/// What a block is made of.
#[derive(Clone, Copy)]
pub(crate) enum BlockKind {
    Seq,
    Par,
    If,
    Alt,
}

/// What all that is left of a line can say.
pub(crate) trait FromLine<'a>: Sized + Drop {
    ghost Tree: { Type 0 };

    ghost tree: { Self → Tree };

    ghost reads: { List Terminal → Option Tree };

    fn from_line(alloc: Global, tokens: &[Token<'a>]) -> Result<Self, LineError>
        ensures { Gives tree result (reads (terminals_of tokens.now)) };
}

/// Nothing more may be on the line.
pub(crate) fn expect_end(tokens: &[Token<'_>]) -> Result<(), Fault>
    ensures ok { OnOk result (ended (terminals_of tokens.now) ≡ true) }
    ensures err { OnErr result (ended (terminals_of tokens.now) ≡ false) }
{
    if tokens.is_empty() {
        Ok(())
    } else {
        Err(Fault::UnexpectedToken)
    }
}

/// What was read, where nothing more may be on the line.
pub(crate) fn at_end<T: Drop>(read: Result<(T, &[Token<'_>]), LineError>) -> Result<T, LineError>
    ensures { IsAll read.entry result }
{
    let (found, rest) = read?;
    expect_end(rest)?;
    Ok(found)
}

/// What was read before, beside what was read next. It carries a tree past a `?` in one call: see the notes.
pub(crate) fn beside<H: Drop, T, E>(before: H, read: Result<T, E>) -> Result<(H, T), E>
    ensures { IsBeside before read result }
{
    match read {
        Ok(found) => Ok((before, found)),
        Err(error) => Err(error),
    }
}

/// The name at the front of some tokens, and the tokens after it.
#[tactic(auto, unfolding(crate::specs::LineReading::name_at))]
pub(crate) fn name<'t, 'a>(tokens: &'t [Token<'a>]) -> Result<(&'a [u8], &'t [Token<'a>]), Fault>
    ensures found { Finds (λ x. (x.0.now, terminals_of x.1.now)) result (name_at (terminals_of tokens.now)) }
    ensures within { IfOk result (λ x. length x.1.now < length tokens.now) }
{
    match first(tokens) {
        Some((TokenKind::Name(name), rest)) => Ok((name, rest)),
        _ => Err(Fault::UnexpectedToken),
    }
}

/// What a line of a process says.
#[tactic(auto, unfolding(crate::specs::LineReading::head_at))]
pub(crate) fn head_of<'a>(alloc: Global, line: &Line<'a>) -> Result<Head<'a>, LineError>
    ensures { Gives head_of result (head_at line.now.number (terminals_of line.now.tokens.items)) }
{
    match first(&line.tokens) {
        Some((TokenKind::Name(name), rest)) => {
            Ok(Head::Start(Start::Action(named_action(alloc, name, rest)?)))
        }
        Some((TokenKind::Mark(mark), rest)) => marked_head(alloc, line, mark, rest),
        _ => Err(LineError::Fault(Fault::UnexpectedToken)),
    }
}

/// A line that begins with a keyword or a sign, which was read.
#[tactic(auto, unfolding(crate::specs::LineReading::marked_head, crate::specs::LineReading::declaration_at))]
fn marked_head<'a>(
    alloc: Global,
    line: &Line<'a>,
    mark: Mark,
    rest: &[Token<'a>],
) -> Result<Head<'a>, LineError>
    ensures { Gives head_of result (marked_head line.now.number (terminals_of line.now.tokens.items) mark
        (terminals_of rest.now)) }
{
    match mark {
        Mark::Val => Ok(Head::Declaration(Declaration::Constant(constant(
            alloc,
            line.number,
            rest,
        )?))),
        Mark::Int | Mark::Byte | Mark::Chan | Mark::OpenBracket => {
            Ok(Head::Declaration(typed_names(alloc, line)?))
        }
        Mark::Skip => {
            expect_end(rest)?;
            Ok(Head::Start(Start::Action(Action::Skip)))
        }
        Mark::Stop => {
            expect_end(rest)?;
            Ok(Head::Start(Start::Action(Action::Stop)))
        }
        Mark::Seq => block(alloc, BlockKind::Seq, rest),
        Mark::Par => block(alloc, BlockKind::Par, rest),
        Mark::If => block(alloc, BlockKind::If, rest),
        Mark::Alt => block(alloc, BlockKind::Alt, rest),
        _ => Err(LineError::Fault(Fault::UnexpectedToken)),
    }
}

/// The rest of a block's head.
#[tactic(auto, unfolding(crate::specs::LineReading::block_at))]
fn block<'a>(alloc: Global, kind: BlockKind, tokens: &[Token<'a>]) -> Result<Head<'a>, LineError>
    ensures { Gives head_of result (block_at kind (terminals_of tokens.now)) }
{
    Ok(Head::Start(Start::Block(kind, replicator(alloc, tokens)?)))
}

/// The replicator up to the end of the line, if anything is there.
#[tactic(auto, unfolding(crate::specs::LineReading::replicator_at))]
fn replicator<'a>(alloc: Global, tokens: &[Token<'a>]) -> Result<Option<Replicator<'a>>, LineError>
    ensures { Gives (option_map replicator_of) result (replicator_at (terminals_of tokens.now)) }
{
    if tokens.is_empty() {
        return Ok(None);
    }
    let (name, rest) = name(tokens)?;
    let rest = expect(Mark::Equal, rest)?;
    Ok(Some(counted(alloc, name, rest)?))
}

/// A replicator, after its name and the sign that follows.
#[tactic(auto, unfolding(crate::specs::LineReading::counted_at, crate::specs::LineReading::whole_at))]
fn counted<'a>(
    alloc: Global,
    name: &'a [u8],
    tokens: &[Token<'a>],
) -> Result<Replicator<'a>, LineError>
    ensures { Gives replicator_of result (counted_at name.now (terminals_of tokens.now)) }
{
    let (base, rest) = up_to(Mark::For, Expr::from_tokens(alloc, tokens))?;
    let (base, count) = beside(base, Expr::from_line(alloc, rest))?;
    Ok(Replicator { name, base, count })
}

/// A variable or a channel whose name was read.
#[tactic(auto, unfolding(crate::specs::LineReading::place_at))]
fn place<'t, 'a>(alloc: Global, name: &'a [u8], tokens: &'t [Token<'a>]) -> Read<'t, 'a, Place<'a>>
    ensures found { Gives (λ x. (place_of x.0, terminals_of x.1.now)) result
        (place_at name.now (terminals_of tokens.now)) }
    ensures within { IfOk result (λ x. length x.1.now ≤ length tokens.now) }
{
    let (subscript, rest) = in_brackets(alloc, tokens)?;
    Ok((Place { name, subscript }, rest))
}

/// An assignment, a communication or an instance, after its first name.
#[tactic(auto, unfolding(crate::specs::LineReading::action_at))]
fn named_action<'a>(
    alloc: Global,
    name: &'a [u8],
    tokens: &[Token<'a>],
) -> Result<Action<'a>, LineError>
    ensures { Gives action_of result (action_at name.now (terminals_of tokens.now)) }
{
    if let Some(rest) = behind(Mark::OpenParenthesis, tokens) {
        return Ok(Action::Instance {
            name,
            actuals: in_parentheses(alloc, rest)?,
        });
    }
    let (place, rest) = place(alloc, name, tokens)?;
    placed_action(alloc, place, rest)
}

/// An assignment or a communication, after the place that it begins with.
#[tactic(auto, unfolding(crate::specs::Reading::behind))]
fn placed_action<'a>(
    alloc: Global,
    place: Place<'a>,
    tokens: &[Token<'a>],
) -> Result<Action<'a>, LineError>
    ensures { Gives action_of result (placed_action (place_of place.entry) (terminals_of tokens.now)) }
{
    match first(tokens) {
        Some((TokenKind::Mark(Mark::Assign), rest)) => {
            let (target, value) = beside(place, Expr::from_line(alloc, rest))?;
            Ok(Action::Assign { target, value })
        }
        Some((TokenKind::Mark(Mark::Input), rest)) => {
            let (channel, target) = beside(place, Place::from_line(alloc, rest))?;
            Ok(Action::Input { channel, target })
        }
        Some((TokenKind::Mark(Mark::Output), rest)) => {
            let (channel, value) = beside(place, Expr::from_line(alloc, rest))?;
            Ok(Action::Output { channel, value })
        }
        _ => Err(LineError::Fault(Fault::UnexpectedToken)),
    }
}

/// An expression up to the end of the line.
impl<'a> FromLine<'a> for Expr<'a> {
    ghost Tree = { Expression };

    ghost tree = { expression_of };

    ghost reads = { whole_at };

    #[tactic(auto, unfolding(crate::specs::LineReading::whole_at))]
    fn from_line(alloc: Global, tokens: &[Token<'a>]) -> Result<Expr<'a>, LineError> {
        at_end(Expr::from_tokens(alloc, tokens))
    }
}

/// A variable up to the end of the line.
impl<'a> FromLine<'a> for Place<'a> {
    ghost Tree = { PlaceTree };

    ghost tree = { place_of };

    ghost reads = { whole_place };

    #[tactic(auto, unfolding(crate::specs::LineReading::whole_place))]
    fn from_line(alloc: Global, tokens: &[Token<'a>]) -> Result<Place<'a>, LineError> {
        let (name, rest) = name(tokens)?;
        at_end(place(alloc, name, rest))
    }
}

/// Whether a line has a condition before its guard.
#[tactic(auto, using(crate::proofs::Seen::left_is))]
fn has_condition(tokens: &[Token<'_>]) -> bool
    ensures { result ≡ has_condition (terminals_of tokens.now) }
{
    let mut next = first(tokens);
    while let Some((token, rest)) = next {
        if matches!(token, TokenKind::Mark(Mark::Guard)) {
            return true;
        }
        next = first(rest);
    }
    false
}

/// The guard that a line of an `ALT` is.
impl<'a> FromLine<'a> for Guard<'a> {
    ghost Tree = { GuardTree };

    ghost tree = { guard_of };

    ghost reads = { guard_at };

    #[tactic(auto, unfolding(crate::specs::LineReading::guard_at))]
    fn from_line(alloc: Global, tokens: &[Token<'a>]) -> Result<Guard<'a>, LineError> {
        if has_condition(tokens) {
            conditioned(alloc, tokens)
        } else {
            input_guard(alloc, None, tokens)
        }
    }
}

/// A guard with a condition.
#[tactic(auto, unfolding(crate::specs::LineReading::conditioned_at))]
fn conditioned<'a>(alloc: Global, tokens: &[Token<'a>]) -> Result<Guard<'a>, LineError>
    ensures { Gives guard_of result (conditioned_at (terminals_of tokens.now)) }
{
    let (condition, rest) = up_to(Mark::Guard, Expr::from_tokens(alloc, tokens))?;
    match behind(Mark::Skip, rest) {
        Some(rest) => {
            expect_end(rest)?;
            Ok(Guard::Skip { condition })
        }
        None => input_guard(alloc, Some(condition), rest),
    }
}

/// A guard that waits for an input, after its condition.
fn input_guard<'a>(
    alloc: Global,
    condition: Option<Expr<'a>>,
    tokens: &[Token<'a>],
) -> Result<Guard<'a>, LineError>
    ensures { Gives guard_of result (received_if (option_map expression_of condition.entry) (terminals_of tokens.now)) }
{
    let (condition, (channel, target)) = beside(condition, input(alloc, tokens))?;
    Ok(Guard::Input {
        condition,
        channel,
        target,
    })
}

/// `channel ? target` up to the end of the line.
#[tactic(auto, unfolding(crate::specs::LineReading::input_at))]
fn input<'a>(alloc: Global, tokens: &[Token<'a>]) -> Result<(Place<'a>, Place<'a>), LineError>
    ensures { Gives (λ x. (place_of x.0, place_of x.1)) result (input_at (terminals_of tokens.now)) }
{
    let (name, rest) = name(tokens)?;
    let (channel, rest) = up_to(Mark::Input, place(alloc, name, rest))?;
    beside(channel, Place::from_line(alloc, rest))
}
