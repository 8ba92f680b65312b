//! What is outside an array, or of a wrong size, in a sentence.

ghost use Rattle.std.specs.Prelude.{◌≡◌, ◌++◌, OnOk, string_bytes};
ghost use Rattle.usage_texts.specs.SizeTexts.{large_text, last_index, last_index_text, size_sentence};
ghost use Rattle.usage_texts.specs.Views.{seen};

use crate::phrases::{Phrase, push_phrases, range_phrase};
use crate::sentence::Sentence;
use crate::view::array_before;
use crate::words::numbers_text;
use occam_parser::ValueType;
use std::alloc::AllocError;
use usage_reasons::Why;

/// The index in the last turn.
#[tactic(auto, unfolding(crate::specs::SizeTexts::last_index))]
fn last_index(base: i32, count: i32) -> i64
    ensures { result ≡ last_index base count }
{
    i64::from(base) + i64::from(count) - 1
}

/// Appends that there is no such index as the last turn has.
#[tactic(auto, unfolding(crate::specs::SizeTexts::last_index_text))]
fn push_last_index(text: &mut String, last: i64) -> Result<(), AllocError>
    ensures { OnOk result (string_bytes text.new ≡ string_bytes text.old ++ last_index_text last) }
{
    push_phrases!(text, "the last index is " (Phrase::Number(last)) ", but "
        (Phrase::Words(numbers_text(ValueType::Int))))
}

/// Appends that too much is gone over.
#[tactic(auto, unfolding(crate::specs::SizeTexts::large_text))]
fn push_large(text: &mut String) -> Result<(), AllocError>
    ensures { OnOk result (string_bytes text.new ≡ string_bytes text.old ++ large_text) }
{
    text.push_str("up to here more than 8388608 is gone over")
}

/// Appends the same as [`push_sentence`](crate::sentence::push_sentence), for subscripts and sizes.
#[tactic(auto, unfolding(crate::specs::SizeTexts::size_sentence))]
pub(crate) fn push_size_sentence(
    text: &mut String,
    sentence: Sentence<'_, '_>,
) -> Result<(), AllocError>
    ensures { OnOk result (string_bytes text.new ≡ string_bytes text.old
        ++ size_sentence (seen sentence.entry.view) sentence.entry.tokens sentence.entry.why) }
{
    let it = sentence.meant();
    match sentence.why {
        Why::SizeBelowOne { size } =>
            push_phrases!(text, "the size is " (Phrase::Number(i64::from(size)))
                ", but an array has one element at least"),
        Why::CountBelowZero { count } =>
            push_phrases!(text, "the count is " (Phrase::Number(i64::from(count))) ", but 0 is the least"),
        Why::LastIndex { base, count } => push_last_index(text, last_index(base, count)),
        Why::Outside { size, subscript } =>
            push_phrases!(text, it " is " (range_phrase(subscript)) ", but the elements of "
                (sentence.view.quoted(array_before(sentence.tokens))) " are 0.."
                (Phrase::Number(i64::from(size) - 1))),
        _ => push_large(text),
    }
}
