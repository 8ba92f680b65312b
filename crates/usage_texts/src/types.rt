//! What is of another type, in a sentence.

ghost use Rattle.std.specs.Prelude.{◌≡◌, ◌++◌, OnOk, string_bytes};
ghost use Rattle.usage_texts.specs.Types.{type_sentence};
ghost use Rattle.usage_texts.specs.Views.{seen};

use crate::passing::push_passing_sentence;
use crate::phrases::{Phrase, push_phrases};
use crate::sentence::Sentence;
use crate::words::{found_text, wanted_text};
use std::alloc::AllocError;
use usage_reasons::Why;

/// Appends the same as [`push_sentence`](crate::sentence::push_sentence), for what is of another type, and what comes
/// after it.
#[tactic(auto, unfolding(crate::specs::Types::type_sentence))]
pub(crate) fn push_type_sentence(
    text: &mut String,
    sentence: Sentence<'_, '_>,
) -> Result<(), AllocError>
    ensures { OnOk result (string_bytes text.new ≡ string_bytes text.old
        ++ type_sentence (seen sentence.entry.view) sentence.entry.tokens sentence.entry.why) }
{
    let it = sentence.meant();
    match sentence.why {
        Why::OtherType { found, wanted } =>
            push_phrases!(text, it " is " (Phrase::Words(found_text(found))) ", but "
                (Phrase::Words(wanted_text(wanted))) " was wanted"),
        Why::NoNumber => push_phrases!(text, it " is a condition, but a number was wanted"),
        Why::OtherTypes { left, right } =>
            push_phrases!(text, it " compares " (Phrase::Words(wanted_text(left))) " with "
                (Phrase::Words(wanted_text(right)))),
        Why::OtherPlaceType {
            found,
            wanted,
            place,
        } => push_phrases!(text, it " is " (Phrase::Words(found_text(found))) ", but "
            (sentence.view.quoted(place)) " is " (Phrase::Words(found_text(wanted)))),
        Why::OtherItems { stated, items } =>
            push_phrases!(text, it " has " (Phrase::Counted(items, "item")) ", but its size is "
                (Phrase::Count(stated))),
        Why::TextOfInts => push_phrases!(text, it " is a table of BYTE, but one of INT was wanted"),
        _ => push_passing_sentence(text, sentence),
    }
}
