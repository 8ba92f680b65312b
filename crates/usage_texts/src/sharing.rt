//! What is shared by the components of a `PAR`, and where a channel may not be used, in a sentence.

ghost use Rattle.std.specs.Prelude.{◌≡◌, ◌++◌, OnOk, string_bytes};
ghost use Rattle.usage_texts.specs.Sharing.{rightly, sharing_sentence};
ghost use Rattle.usage_texts.specs.Views.{seen};

use crate::last_item::push_last_item_sentence;
use crate::phrases::{Phrase, push_phrases};
use crate::sentence::{Sentence, quoted_name};
use crate::words::{deed_text, way_text};
use program_uses::Direction;
use std::alloc::AllocError;
use usage_reasons::Why;

/// What is done to a link that is not used in this direction.
fn rightly(direction: Direction) -> &'static str
    ensures { result.now ≡ rightly direction }
{
    match direction {
        Direction::Input => "sends to",
        Direction::Output => "receives from",
    }
}

/// Appends the same as [`push_sentence`](crate::sentence::push_sentence), for what is shared and for channels, and what
/// comes after it.
#[tactic(auto, unfolding(crate::specs::Sharing::sharing_sentence))]
pub(crate) fn push_sharing_sentence(
    text: &mut String,
    sentence: Sentence<'_, '_>,
) -> Result<(), AllocError>
    ensures { OnOk result (string_bytes text.new ≡ string_bytes text.old
        ++ sharing_sentence (seen sentence.entry.view) sentence.entry.tokens sentence.entry.why) }
{
    let it = sentence.meant();
    match sentence.why {
        Why::SharedVariable {
            variable,
            first,
            first_deed,
            second,
            second_deed,
        } =>
            push_phrases!(text, "line " (Phrase::Count(first)) " " (Phrase::Words(deed_text(first_deed))) " "
                (quoted_name(variable.name)) ", and line " (Phrase::Count(second))
                ", in another component, " (Phrase::Words(deed_text(second_deed))) " it"),
        Why::SharedChannel {
            channel,
            element,
            direction,
            first,
            second,
        } =>
            push_phrases!(text, "line " (Phrase::Count(first)) " " (Phrase::Words(way_text(direction))) " `"
                (Phrase::Spot(channel, element)) "`, and so does line " (Phrase::Count(second))
                ", in another component"),
        Why::OutsidePar => push_phrases!(text, it " is used outside a PAR in its scope"),
        Why::OtherDirection { direction } =>
            push_phrases!(text, "this " (Phrase::Words(way_text(direction))) " " it ", but main only "
                (Phrase::Words(rightly(direction))) " it"),
        _ => push_last_item_sentence(text, sentence),
    }
}
