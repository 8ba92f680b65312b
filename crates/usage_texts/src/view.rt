//! Parts of a line by their tokens.

ghost use Rattle.std.specs.Prelude.{◌≡◌, ◌<◌, ◌^◌};
ghost use Rattle.usage_texts.specs.Phrases.{phrase_text};
ghost use Rattle.usage_texts.specs.Views.{seen, tokens_in, span_in, quoted_in, array_before, first_of, has_tokens};

use crate::phrases::{Phrase, Quoted};
use occam_layout::Token;
use reason_texts::{Span, closing_quote, line_span, meant};
use usage_reasons::Tokens;

/// A line of a source.
#[derive(Clone, Copy)]
pub(crate) struct View<'v, 'a> {
    pub(crate) bytes: &'v [u8],
    /// The offset in the source of its first byte.
    pub(crate) offset: usize,
    pub(crate) tokens: &'v [Token<'a>],
}

/// Tokens of a line, as far as it has them.
#[tactic(auto, using(std::proofs::lemmas::List::take_min))]
pub(crate) fn tokens_in<'t, 'a>(tokens: &'t [Token<'a>], part: Tokens) -> &'t [Token<'a>]
    ensures { result.now ≡ tokens_in tokens.now part }
{
    let (_, rest) = tokens.split_at(part.at.min(tokens.len()));
    let (part, _) = rest.split_at(part.len.min(rest.len()));
    part
}

impl<'v> View<'v, '_> {
    /// Where tokens of the line are.
    pub(crate) fn span(self, part: Tokens) -> Span
        ensures span { result ≡ span_in (seen self.entry) part }
        ensures small { result.at < 2 ^ 32 }
    {
        line_span(self.offset, tokens_in(self.tokens, part))
    }

    /// The bytes of tokens of the line in quotes, of which at most 100 are shown.
    #[tactic(auto, unfolding(crate::specs::Views::quoted_in))]
    pub(crate) fn quoted(self, part: Tokens) -> Phrase<'v>
        ensures { phrase_text result ≡ quoted_in (seen self.entry) part }
    {
        let span = self.span(part);
        Phrase::Quoted(Quoted {
            bytes: meant(self.bytes, span.at, span.len),
            end: closing_quote(span.len),
        })
    }
}

/// The name of the array whose subscript these tokens are: a bracket is between them.
pub(crate) fn array_before(subscript: Tokens) -> Tokens
    ensures { result ≡ array_before subscript }
{
    Tokens {
        at: subscript.at.saturating_sub(2),
        len: 1,
    }
}

/// The first of some tokens.
pub(crate) fn first_of(tokens: Tokens) -> Tokens
    ensures { result ≡ first_of tokens }
{
    Tokens {
        at: tokens.at,
        len: 1,
    }
}

/// Whether a line has all of some tokens, and there is one at least.
pub(crate) fn has_tokens(tokens: &[Token<'_>], part: Tokens) -> bool
    ensures { result ≡ has_tokens tokens.now part }
{
    part.len != 0 && tokens_in(tokens, part).len() == part.len
}
