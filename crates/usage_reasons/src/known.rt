//! What is known of names, each with the line that declares it.

ghost use Rattle.std.specs.Prelude.{IfSome};
ghost use Rattle.scalar_ranges.specs.Scopes.{entries_of};
ghost use Rattle.usage_reasons.specs.Causes.{Explains};

use crate::cause::{Cause, Found, meant};
use crate::reason::{KnownName, Tokens, Why};
use occam_layout::{Mark, Token, TokenKind};
use scalar_ranges::Scope;
use std::alloc::{AllocError, Global};

/// How many names a reason tells of at most.
const MAX_KNOWN: usize = 8;

/// Whether the token with this number is one of some.
fn is_among(tokens: Tokens, at: usize) -> bool {
    tokens.at <= at && at - tokens.at < tokens.len
}

/// The tokens besides those that are meant, of whose names a reason tells too: of a subscript its array, of a value the
/// place that it goes to, of an actual its procedure or the actual before it.
fn other_tokens(tokens: Tokens, why: Why) -> Tokens {
    let (at, len) = match why {
        Why::Outside { .. } => (tokens.at.saturating_sub(2), 1),
        Why::NotTaken { .. } => (0, 1),
        Why::OtherPlaceType { place, .. } => (place.at, place.len),
        Why::PassedTwice { first } => (first.at, first.len),
        _ => (0, 0),
    };
    Tokens { at, len }
}

/// The names in scope, with the line of each declaration by its number.
#[derive(Clone, Copy)]
pub(crate) struct Names<'s, 'a> {
    pub(crate) scope: &'s Scope<'a>,
    pub(crate) lines: &'s [u32],
}

impl<'a> Names<'_, 'a> {
    /// The line of a declaration.
    fn line_of(self, number: usize) -> u32 {
        self.lines.get(number).copied().unwrap_or(0)
    }

    /// What is known of a name.
    fn known(self, name: &[u8]) -> Option<KnownName<'a>> {
        self.declared(self.scope.find(name)?)
    }

    /// The declaration with this number.
    pub(crate) fn declared(self, number: usize) -> Option<KnownName<'a>> {
        let entry = self.scope.entry(number)?;
        Some(KnownName {
            name: entry.name,
            meaning: entry.meaning,
            line: self.line_of(number),
        })
    }

    /// One name more of which something is known, unless it is among them already.
    fn note(self, known: &mut Vec<KnownName<'a>>, name: &[u8]) -> Result<(), AllocError> {
        for other in known.iter() {
            if other.name == name {
                return Ok(());
            }
        }
        match self.known(name) {
            Some(name) => Ok(known.push(name)?),
            None => Ok(()),
        }
    }

    /// What is known of the names in a cause's tokens of a line, and in others that it speaks of.
    pub(crate) fn known_in(
        self,
        alloc: Global,
        line: &[Token<'a>],
        cause: Cause<'a>,
    ) -> Result<Vec<KnownName<'a>>, AllocError> {
        let tokens = cause.tokens;
        let others = other_tokens(tokens, cause.why);
        let mut known = Vec::new(alloc);
        for (at, token) in line.iter().enumerate() {
            if (is_among(tokens, at) || is_among(others, at)) && known.len() < MAX_KNOWN {
                if let TokenKind::Name(name) = token.kind {
                    self.note(&mut known, name)?;
                }
            }
        }
        Ok(known)
    }

    /// Why a name that this line declares, which has these tokens, is declared twice: in the scope whose first declaration
    /// has this number.
    #[tactic(auto, using(crate::proofs::Parts::twice_broken))]
    pub(crate) fn twice(
        self,
        first: usize,
        line: u32,
        tokens: &[Token<'a>],
        name: &[u8],
    ) -> Found<'a>
        ensures { IfSome result (Explains (entries_of self.entry.scope.now)) }
    {
        let number = self.scope.find(name)?;
        if number < first {
            return None;
        }
        let first = self.line_of(number);
        let at = token_of(tokens, name, first == line)?;
        Some(meant(at, 1, Why::DeclaredTwice { first }))
    }
}

/// Whether a token is this name.
fn is_name(token: &Token, name: &[u8]) -> bool {
    match token.kind {
        TokenKind::Name(other) => other == name,
        _ => false,
    }
}

/// How many brackets of sizes are open after a token.
fn depth_after(depth: usize, token: &Token) -> usize {
    match token.kind {
        TokenKind::Mark(Mark::OpenBracket) => depth.saturating_add(1),
        TokenKind::Mark(Mark::CloseBracket) => depth.saturating_sub(1),
        _ => depth,
    }
}

/// The number of the token that is this name for the first or for the second time, but for names in sizes.
fn token_of(tokens: &[Token], name: &[u8], second: bool) -> Option<usize> {
    let mut found = None;
    let mut depth = 0;
    for (at, token) in tokens.iter().enumerate() {
        depth = depth_after(depth, token);
        if depth == 0 && is_name(token, name) {
            if found.is_some() == second {
                return Some(at);
            }
            found = Some(at);
        }
    }
    found
}
