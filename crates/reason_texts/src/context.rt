//! What a line has to be, by the lines above it.

ghost use Rattle.std.specs.Prelude.{◌≡◌, ◌<◌, ◌≤◌, length, option_map, IfSome, map};
ghost use Rattle.occam_parser.specs.Terminals.{terminals_of};
ghost use Rattle.occam_parser.specs.Blocks.{row_of, rows_of};
ghost use Rattle.reason_texts.specs.Contexts.{is_sought, last_that, mark_of, is_declaration, places_of};
ghost use Rattle.reason_texts.specs.Contexts.{places_below_other, places_below, only_one, context_of};

use crate::forms::Form;
use crate::stuck::first;
use occam_layout::{Line, Mark, Token, TokenKind};

/// What may be below a line.
#[derive(Clone, Copy)]
enum Places {
    /// One of this form.
    One(Form),
    /// Any number of this form.
    Any(Form),
    /// Nothing.
    None,
}

/// Which of the lines above is looked for.
#[derive(Clone, Copy)]
pub(crate) enum Sought {
    /// One at this level or less deep.
    UpTo(u32),
    /// The one with this number.
    Number(u32),
}

/// What a line may be, by the lines above it.
#[derive(Clone, Copy)]
pub enum Context {
    /// It has to be of this form.
    Wants(Form),
    /// It is below a line with this number, which nothing is below.
    NothingBelow(u32),
    /// It is below the line with the number `head`, and what may be there once begins on the line with the number `first`.
    OnlyOne { head: u32, first: u32 },
}

/// Whether a line is looked for.
fn is_sought(sought: Sought, line: &Line<'_>) -> bool
    ensures { result ≡ is_sought sought (row_of line.now) }
{
    match sought {
        Sought::UpTo(level) => line.level <= level,
        Sought::Number(number) => line.number == number,
    }
}

/// The last of some lines that is looked for, and the lines before it.
#[tactic(auto, using(crate::proofs::LinesAbove::left_is, crate::proofs::LinesAbove::left_len_is, crate::proofs::LinesAbove::is_here, crate::proofs::LinesAbove::is_before))]
pub(crate) fn last_that<'l, 'a>(
    sought: Sought,
    lines: &'l [Line<'a>],
) -> Option<(&'l Line<'a>, &'l [Line<'a>])>
    ensures found { option_map (λ x. (row_of x.0.now, rows_of x.1.now)) result
        ≡ last_that (is_sought sought) (rows_of lines.now) }
    ensures within { IfSome result (λ x. length x.1.now < length lines.now) }
{
    let mut next = lines.split_last();
    while let Some((line, before)) = next {
        if is_sought(sought, line) {
            return Some((line, before));
        }
        next = before.split_last();
    }
    None
}

/// The mark that a line begins with, if it begins with one.
fn mark_of(tokens: &[Token<'_>]) -> Option<Mark>
    ensures { result ≡ mark_of (terminals_of tokens.now) }
{
    match first(tokens) {
        Some((TokenKind::Mark(mark), _)) => Some(mark),
        _ => None,
    }
}

/// Whether a line declares something.
fn is_declaration(line: &Line<'_>) -> bool
    ensures { result ≡ is_declaration (row_of line.now) }
{
    matches!(
        mark_of(&line.tokens),
        Some(Mark::Val | Mark::Int | Mark::Byte | Mark::Chan | Mark::OpenBracket)
    )
}

/// What may be below the head of a block: any number without a replicator, and one with it.
fn places_of(form: Form, head: &Line<'_>) -> Places
    ensures { result ≡ places_of form (row_of head.now) }
{
    if head.tokens.len() > 1 {
        Places::One(form)
    } else {
        Places::Any(form)
    }
}

/// What may be below a line that begins with no word of a block: a process if it is a condition or a guard, and so below
/// an `IF` or an `ALT`.
fn places_below_other(line: &Line<'_>, above: &[Line<'_>]) -> Places
    ensures { result ≡ places_below_other (row_of line.now) (rows_of above.now) }
{
    if line.level == 0 {
        return Places::None;
    }
    match last_that(Sought::UpTo(line.level - 1), above) {
        Some((head, _)) if matches!(mark_of(&head.tokens), Some(Mark::If | Mark::Alt)) => {
            Places::One(Form::Process)
        }
        _ => Places::None,
    }
}

/// What may be below a line, which has these lines above it.
fn places_below(line: &Line<'_>, above: &[Line<'_>]) -> Places
    ensures { result ≡ places_below (row_of line.now) (rows_of above.now) }
{
    match mark_of(&line.tokens) {
        Some(Mark::Proc) => Places::One(Form::Process),
        Some(Mark::Seq | Mark::Par) => places_of(Form::Process, line),
        Some(Mark::If) => places_of(Form::Choice, line),
        Some(Mark::Alt) => places_of(Form::Guard, line),
        _ => places_below_other(line, above),
    }
}

/// What a line at this level may be, where one of this form may be below the head.
fn only_one(form: Form, head: u32, level: u32, above: &[Line<'_>]) -> Context
    ensures { result ≡ only_one form head level (rows_of above.now) }
{
    match last_that(Sought::UpTo(level), above) {
        Some((line, _)) if line.level == level && !is_declaration(line) => Context::OnlyOne {
            head,
            first: line.number,
        },
        _ => Context::Wants(form),
    }
}

/// What a line at this level may be, which has these lines above it.
#[tactic(auto, unfolding(crate::specs::Contexts::context_of))]
pub(crate) fn context_of(level: u32, above: &[Line<'_>]) -> Context
    ensures { result ≡ context_of level (rows_of above.now) }
{
    if level == 0 {
        return match last_that(Sought::UpTo(0), above) {
            Some((line, _)) if matches!(mark_of(&line.tokens), Some(Mark::Proc)) => {
                Context::Wants(Form::Colon)
            }
            _ => Context::Wants(Form::Item),
        };
    }
    let Some((head, before)) = last_that(Sought::UpTo(level - 1), above) else {
        return Context::Wants(Form::Item);
    };
    match places_below(head, before) {
        Places::One(form) => only_one(form, head.number, level, above),
        Places::Any(form) => Context::Wants(form),
        Places::None => Context::NothingBelow(head.number),
    }
}
