//! Where a line goes on in no way that its form has, and the front of some tokens.

ghost use Rattle.std.specs.Prelude.{◌≡◌, ◌<◌, [], ◌∷◌, length, option_map, IfSome, MatchOption};
ghost use Rattle.occam_parser.specs.Terminals.{terminal_of, terminals_of};
ghost use Rattle.occam_parser.specs.Reading.{behind};
ghost use Rattle.reason_texts.specs.Stuck.{seen, ◌then◌, lacking, past_mark, past_name, past_end};

use occam_layout::{Mark, Token, TokenKind};

/// What a line may have at a place.
#[derive(Clone, Copy)]
pub(crate) enum Wanted {
    /// A keyword or a sign.
    Mark(Mark),
    /// A name.
    Name,
    /// An operand of an expression.
    Operand,
    /// `INT` or `BYTE`.
    ValueType,
    /// `INT`, `BYTE` or `CHAN OF`.
    Shape,
    /// `[`, or a string.
    Table,
    /// `:=`, `?` or `!`, or one of `(` and `[` before them.
    Action,
    /// Nothing: the end of the line.
    End,
    /// `VAL` or `PROC`.
    Item,
    /// What a line of a process begins with.
    Process,
}

/// What is wrong at a place of a line.
#[derive(Clone, Copy)]
pub(crate) enum Lack {
    /// Something else is wanted there.
    Token(Wanted),
    /// Brackets, subscripts and conversions are nested too deep there.
    Nesting,
    /// An operator is beside another one there.
    Mixture,
}

/// A place of a line, and what is wrong there.
#[derive(Clone, Copy)]
pub(crate) struct Stuck {
    /// How many tokens of the line are left from the place on. 0 at the end of the line.
    pub left: usize,
    /// What is wrong.
    pub lack: Lack,
}

/// The tokens behind what a line goes on with, or where it does not.
pub(crate) type Past<'t, 'a> = Result<&'t [Token<'a>], Stuck>;

/// Something is wrong where these tokens begin.
pub(crate) fn lacking<'t, 'a>(lack: Lack, tokens: &'t [Token<'a>]) -> Past<'t, 'a>
    ensures { seen result ≡ lacking lack (terminals_of tokens.now) }
{
    Err(Stuck {
        left: tokens.len(),
        lack,
    })
}

/// The first of some tokens, and the tokens after it.
pub(crate) fn first<'t, 'a>(tokens: &'t [Token<'a>]) -> Option<(TokenKind<'a>, &'t [Token<'a>])>
    ensures first { MatchOption result (terminals_of tokens.now ≡ [])
        (λ x. terminals_of tokens.now ≡ terminal_of x.0 ∷ terminals_of x.1.now) }
    ensures shorter { IfSome result (λ x. length x.1.now < length tokens.now) }
{
    let (token, rest) = tokens.split_first()?;
    Some((token.kind, rest))
}

/// The tokens after this mark, where they begin with it.
#[tactic(auto, unfolding(occam_parser::specs::Reading::behind))]
pub(crate) fn behind<'t, 'a>(mark: Mark, tokens: &'t [Token<'a>]) -> Option<&'t [Token<'a>]>
    ensures { option_map (λ rest. terminals_of rest.now) result ≡ behind mark (terminals_of tokens.now) }
{
    match first(tokens) {
        Some((TokenKind::Mark(found), rest)) if found == mark => Some(rest),
        _ => None,
    }
}

/// A mark has to come.
#[tactic(auto, unfolding(crate::specs::Stuck::past_mark))]
pub(crate) fn past_mark<'t, 'a>(mark: Mark, tokens: &'t [Token<'a>]) -> Past<'t, 'a>
    ensures { seen result ≡ past_mark mark (terminals_of tokens.now) }
{
    match behind(mark, tokens) {
        Some(rest) => Ok(rest),
        None => lacking(Lack::Token(Wanted::Mark(mark)), tokens),
    }
}

/// The mark has to come that closes what was read.
pub(crate) fn closed<'t, 'a>(close: Mark, inside: Past<'t, 'a>) -> Past<'t, 'a>
    ensures { seen result ≡ seen inside.entry then past_mark close }
{
    past_mark(close, inside?)
}

/// A name has to come.
#[tactic(auto, unfolding(crate::specs::Stuck::past_name))]
pub(crate) fn past_name<'t, 'a>(tokens: &'t [Token<'a>]) -> Past<'t, 'a>
    ensures { seen result ≡ past_name (terminals_of tokens.now) }
{
    match first(tokens) {
        Some((TokenKind::Name(_), rest)) => Ok(rest),
        _ => lacking(Lack::Token(Wanted::Name), tokens),
    }
}

/// Nothing may come.
#[tactic(auto, unfolding(crate::specs::Stuck::past_end))]
pub(crate) fn past_end<'t, 'a>(tokens: &'t [Token<'a>]) -> Past<'t, 'a>
    ensures { seen result ≡ past_end (terminals_of tokens.now) }
{
    if tokens.is_empty() {
        Ok(tokens)
    } else {
        lacking(Lack::Token(Wanted::End), tokens)
    }
}
