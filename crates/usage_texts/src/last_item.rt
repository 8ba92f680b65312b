//! What is in place of `main`, in a sentence.

ghost use Rattle.std.specs.Prelude.{◌≡◌, ◌++◌, OnOk, string_bytes};
ghost use Rattle.usage_texts.specs.LastItems.{last_item_sentence, no_main_text};
ghost use Rattle.usage_texts.specs.Phrases.{phrase_text};
ghost use Rattle.usage_texts.specs.Views.{seen};

use crate::phrases::{Phrase, push_phrases};
use crate::ranges::push_range_sentence;
use crate::sentence::Sentence;
use std::alloc::AllocError;
use usage_reasons::{LastItem, Why};

/// Appends what is in place of `main`, where these tokens are meant.
fn push_no_main(text: &mut String, it: Phrase<'_>, item: LastItem) -> Result<(), AllocError>
    ensures { OnOk result (string_bytes text.new ≡ string_bytes text.old
        ++ no_main_text (phrase_text it.entry) item) }
{
    match item {
        LastItem::Missing => push_phrases!(text, "there is no procedure `main`"),
        LastItem::Constant => push_phrases!(
            text,
            "the last item is a constant, but the procedure `main` was wanted"
        ),
        LastItem::OtherName =>
            push_phrases!(text, "the last procedure is " it ", but `main` was wanted"),
        LastItem::NoLink => push_phrases!(text, "the parameter " it " of `main` is no link"),
    }
}

/// Appends the same as [`push_sentence`](crate::sentence::push_sentence), for what is in place of `main`, and what comes
/// after it.
#[tactic(auto, unfolding(crate::specs::LastItems::last_item_sentence))]
pub(crate) fn push_last_item_sentence(
    text: &mut String,
    sentence: Sentence<'_, '_>,
) -> Result<(), AllocError>
    ensures { OnOk result (string_bytes text.new ≡ string_bytes text.old
        ++ last_item_sentence (seen sentence.entry.view) sentence.entry.tokens sentence.entry.why) }
{
    match sentence.why {
        Why::NoMain(item) => push_no_main(text, sentence.meant(), item),
        _ => push_range_sentence(text, sentence),
    }
}
