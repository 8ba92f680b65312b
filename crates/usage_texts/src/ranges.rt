//! What an operator or a conversion may come to, in a sentence.

ghost use Rattle.std.specs.Prelude.{◌≡◌, ◌++◌, OnOk, string_bytes};
ghost use Rattle.usage_texts.specs.RangeTexts.{divisor_text, has_zero, range_sentence};
ghost use Rattle.usage_texts.specs.Views.{seen};

use crate::phrases::{Ends, Phrase, push_phrases, range_phrase};
use crate::sentence::Sentence;
use crate::sizes::push_size_sentence;
use crate::words::numbers_text;
use occam_parser::ValueType;
use std::alloc::AllocError;
use usage_reasons::Why;
use word_arithmetic::Range;

/// Whether a divisor may be 0.
fn has_zero(divisor: Range) -> bool
    ensures { result ≡ has_zero divisor }
{
    divisor.lo <= 0 && 0 <= divisor.hi
}

/// What a divisor may be.
fn divisor_text(divisor: Range) -> &'static str
    ensures { result.now ≡ divisor_text divisor }
{
    if has_zero(divisor) {
        "which may be 0"
    } else {
        "which may be -2147483648 by -1"
    }
}

/// Appends the same as [`push_sentence`](crate::sentence::push_sentence), for operators and conversions, and what comes
/// after it.
#[tactic(auto, unfolding(crate::specs::RangeTexts::range_sentence))]
pub(crate) fn push_range_sentence(
    text: &mut String,
    sentence: Sentence<'_, '_>,
) -> Result<(), AllocError>
    ensures { OnOk result (string_bytes text.new ≡ string_bytes text.old
        ++ range_sentence (seen sentence.entry.view) sentence.entry.tokens sentence.entry.why) }
{
    let it = sentence.meant();
    match sentence.why {
        Why::Overflow { results, .. } =>
            push_phrases!(text, it " is " (Phrase::Range(Ends { lo: results.lo, hi: results.hi, })) ", but "
                (Phrase::Words(numbers_text(ValueType::Int)))),
        Why::Division {
            dividend,
            divisor,
            ..
        } =>
            push_phrases!(text, it " divides " (range_phrase(dividend)) " by " (range_phrase(divisor)) ", "
                (Phrase::Words(divisor_text(divisor)))),
        Why::ShiftCount { count } =>
            push_phrases!(text, it " shifts by " (range_phrase(count)) ", but a word is shifted by 0..31"),
        Why::Conversion { to, operand } =>
            push_phrases!(text, it " converts " (range_phrase(operand)) ", but "
                (Phrase::Words(numbers_text(to)))),
        _ => push_size_sentence(text, sentence),
    }
}
