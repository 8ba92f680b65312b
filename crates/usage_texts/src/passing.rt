//! What is passed to a procedure, in a sentence.

ghost use Rattle.std.specs.Prelude.{◌≡◌, ◌++◌, OnOk, string_bytes};
ghost use Rattle.usage_texts.specs.Passing.{unpassed, passing_sentence};
ghost use Rattle.usage_texts.specs.Views.{seen};

use crate::phrases::{Phrase, push_phrases};
use crate::sentence::Sentence;
use crate::sharing::push_sharing_sentence;
use crate::view::first_of;
use scalar_ranges::ExprType;
use std::alloc::AllocError;
use usage_reasons::Why;

/// What an actual is that is not taken, by its type if it is an expression.
fn unpassed(found: Option<ExprType>) -> &'static str
    ensures { result.now ≡ unpassed found }
{
    match found {
        None => "cannot be passed",
        Some(ExprType::Int) => "is of type INT, and cannot be passed",
        Some(ExprType::Byte) => "is of type BYTE, and cannot be passed",
        Some(ExprType::Condition) => "is a condition, and cannot be passed",
    }
}

/// Appends the same as [`push_sentence`](crate::sentence::push_sentence), for what is passed to a procedure, and what comes
/// after it.
#[tactic(auto, unfolding(crate::specs::Passing::passing_sentence))]
pub(crate) fn push_passing_sentence(
    text: &mut String,
    sentence: Sentence<'_, '_>,
) -> Result<(), AllocError>
    ensures { OnOk result (string_bytes text.new ≡ string_bytes text.old
        ++ passing_sentence (seen sentence.entry.view) sentence.entry.tokens sentence.entry.why) }
{
    let it = sentence.meant();
    match sentence.why {
        Why::OtherCount {
            actuals,
            parameters,
        } => push_phrases!(text, (sentence.view.quoted(first_of(sentence.tokens))) " has "
            (Phrase::Counted(parameters, "parameter")) ", but is passed "
            (Phrase::Counted(actuals, "actual"))),
        Why::NotTaken {
            parameter,
            found,
            ..
        } => push_phrases!(text, it " " (Phrase::Words(unpassed(found))) " to a parameter "
            (Phrase::Shape(parameter))),
        Why::PassedTwice { first } =>
            push_phrases!(text, it " is passed twice in one instance, first as "
                (sentence.view.quoted(first))),
        _ => push_sharing_sentence(text, sentence),
    }
}
