//! Why a line breaks a usage rule, in a sentence.

ghost use Rattle.std.specs.Prelude.{◌≡◌, ◌++◌, OnOk, string_bytes};
ghost use Rattle.usage_texts.specs.Phrases.{phrase_text};
ghost use Rattle.usage_texts.specs.Sentences.{sentence_text};
ghost use Rattle.usage_texts.specs.Texts.{quoted_name};
ghost use Rattle.usage_texts.specs.Views.{quoted_in, seen};

use crate::phrases::{Phrase, Quoted, push_phrases};
use crate::types::push_type_sentence;
use crate::view::View;
use crate::words::sort_text;
use std::alloc::AllocError;
use usage_reasons::{Tokens, Why};

/// Why a line of a source is refused.
#[derive(Clone, Copy)]
pub(crate) struct Sentence<'v, 'a> {
    pub(crate) view: View<'v, 'a>,
    /// The tokens that are meant.
    pub(crate) tokens: Tokens,
    pub(crate) why: Why<'v>,
}

impl<'v> Sentence<'v, '_> {
    /// The tokens that are meant, in quotes.
    pub(crate) fn meant(self) -> Phrase<'v>
        ensures { phrase_text result ≡ quoted_in (seen self.entry.view) self.entry.tokens }
    {
        self.view.quoted(self.tokens)
    }
}

/// A name in quotes.
pub(crate) fn quoted_name(name: &[u8]) -> Phrase<'_>
    ensures { phrase_text result ≡ quoted_name name.now }
{
    Phrase::Quoted(Quoted {
        bytes: name,
        end: "`",
    })
}

/// Appends why a line is refused.
#[tactic(auto, unfolding(crate::specs::Sentences::sentence_text))]
pub(crate) fn push_sentence(text: &mut String, sentence: Sentence<'_, '_>) -> Result<(), AllocError>
    ensures { OnOk result (string_bytes text.new ≡ string_bytes text.old
        ++ sentence_text (seen sentence.entry.view) sentence.entry.tokens sentence.entry.why) }
{
    let it = sentence.meant();
    match sentence.why {
        Why::UnknownName {
            nearest: Some(name),
        } => push_phrases!(text, it " is not known here; the nearest name is " (quoted_name(name))),
        Why::UnknownName { nearest: None } => { push_phrases!(text, it " is not known here") }
        Why::DeclaredTwice { first } =>
            push_phrases!(text, it " is declared twice in one scope, first on line " (Phrase::Count(first))),
        Why::OtherSort { wanted } =>
            push_phrases!(text, it " is no " (Phrase::Words(sort_text(wanted)))),
        Why::NoConstant => push_phrases!(text, it " is no constant, but a constant was wanted"),
        _ => push_type_sentence(text, sentence),
    }
}
