//! What is written of a program that breaks a usage rule.

ghost use Rattle.std.specs.Prelude.{◌≡◌, ◌++◌, ◌<◌, ◌^◌, IfOk, OnOk, option_map, string_bytes};
ghost use Rattle.std.specs.List.{flat_map};
ghost use Rattle.usage_texts.specs.Views.{seen};
ghost use Rattle.usage_texts.specs.KnownTexts.{known_text};
ghost use Rattle.usage_texts.specs.UsageTexts.{operand_text, operands_text, more_text, head_text, rest_text};
ghost use Rattle.usage_texts.specs.UsageTexts.{tail_text, whole_text, line_text, has_no_items, missing_text, usage_text};

use crate::hints::hint;
use crate::known::{push_known, push_known_name};
use crate::phrases::{Phrase, push_phrases, range_phrase};
use crate::sentence::{Sentence, push_sentence};
use crate::view::{View, has_tokens};
use occam_layout::Line;
use reason_texts::{Span, find_line, line_of, push_block, push_hint, push_number, push_place};
use std::alloc::{AllocError, Global};
use usage_reasons::{LastItem, Operator, Reason, Why};
use word_arithmetic::Range;

/// Appends where an operand lies.
#[tactic(auto, unfolding(crate::specs::UsageTexts::operand_text))]
fn push_operand(text: &mut String, right: Range) -> Result<(), AllocError>
    ensures { OnOk result (string_bytes text.new ≡ string_bytes text.old ++ operand_text right) }
{
    push_phrases!(text, "  the operand is " (range_phrase(right)) "\n")
}

/// Appends where two operands lie.
#[tactic(auto, unfolding(crate::specs::UsageTexts::operands_text))]
fn push_operands(text: &mut String, left: Range, right: Range) -> Result<(), AllocError>
    ensures { OnOk result (string_bytes text.new ≡ string_bytes text.old ++ operands_text left right) }
{
    push_phrases!(text, "  the operands are " (range_phrase(left)) " and " (range_phrase(right)) "\n")
}

/// Appends what else is known that a reason speaks of: the name that is shared, or the operands.
fn push_more(text: &mut String, why: Why<'_>) -> Result<(), AllocError>
    ensures { OnOk result (string_bytes text.new ≡ string_bytes text.old ++ more_text why.entry) }
{
    match why {
        Why::SharedVariable { variable, .. } => push_known_name(text, variable),
        Why::SharedChannel { channel, .. } => push_known_name(text, channel),
        Why::Overflow {
            operator: Operator::Negate,
            right,
            ..
        } => push_operand(text, right),
        Why::Overflow { left, right, .. } => push_operands(text, left, right),
        _ => text.push_str(""),
    }
}

/// Appends where and why a line is refused.
#[tactic(auto, unfolding(crate::specs::UsageTexts::head_text))]
fn push_head(
    text: &mut String,
    path: &str,
    line: u32,
    at: usize,
    sentence: Sentence<'_, '_>,
    number: u8,
) -> Result<(), AllocError>
    requires { at < 2 ^ 32 }
    ensures { OnOk result (string_bytes text.new ≡ string_bytes text.old
        ++ head_text path.now line at (seen sentence.entry.view) sentence.entry.tokens sentence.entry.why number) }
{
    push_place(text, path, line, at)?;
    push_sentence(text, sentence)?;
    push_number(text, number)
}

/// Appends what else is known, and what to write in a line's place.
#[tactic(auto, unfolding(crate::specs::UsageTexts::rest_text))]
fn push_rest(text: &mut String, why: Why<'_>) -> Result<(), AllocError>
    ensures { OnOk result (string_bytes text.new ≡ string_bytes text.old ++ rest_text why.entry) }
{
    push_more(text, why)?;
    push_hint(text, hint(why))
}

/// Appends a line with carets below tokens, what is known of the names in them, and what to write in its place.
#[tactic(auto, unfolding(crate::specs::UsageTexts::tail_text))]
fn push_tail(
    text: &mut String,
    line: &[u8],
    span: Span,
    reason: &Reason<'_>,
) -> Result<(), AllocError>
    ensures { OnOk result (string_bytes text.new ≡ string_bytes text.old ++ tail_text line.now span reason.now) }
{
    push_block(text, line, span)?;
    push_known(text, &reason.known)?;
    push_rest(text, reason.why)
}

/// Appends why a line is refused.
#[tactic(auto, unfolding(crate::specs::UsageTexts::whole_text))]
fn push_whole<'v>(
    text: &mut String,
    path: &str,
    view: View<'v, '_>,
    reason: &Reason<'v>,
    number: u8,
) -> Result<(), AllocError>
    ensures { OnOk result (string_bytes text.new ≡ string_bytes text.old
        ++ whole_text path.now (seen view.entry) reason.now number) }
{
    let (tokens, why) = (reason.tokens, reason.why);
    let span = view.span(tokens);
    let sentence = Sentence { view, tokens, why };
    push_head(text, path, reason.line, span.at, sentence, number)?;
    push_tail(text, view.bytes, span, reason)
}

/// Whether there are no items, so that no line is meant.
fn has_no_items(why: Why<'_>) -> bool
    ensures { result ≡ has_no_items why.entry }
{
    matches!(why, Why::NoMain(LastItem::Missing))
}

/// What is written of a source that has no items.
fn missing_text(alloc: Global, path: &str, number: u8) -> Result<String, AllocError>
    ensures { IfOk result (λ text. string_bytes text ≡ missing_text path.now number) }
{
    let mut text = String::new(alloc);
    writeln!(text, "{path}: there is no procedure `main` (O{number})")?;
    Ok(text)
}

/// What is written of a line that breaks a usage rule.
fn line_text(
    alloc: Global,
    path: &str,
    source: &[u8],
    lines: &[Line<'_>],
    reason: &Reason<'_>,
    number: u8,
) -> Result<Option<String>, AllocError>
    ensures { IfOk result (λ text. option_map string_bytes text
        ≡ line_text path.now source.now lines.now reason.now number) }
{
    let Some(line) = line_of(reason.line, lines) else {
        return Ok(None);
    };
    let Some(found) = find_line(source, reason.line) else {
        return Ok(None);
    };
    if !has_tokens(&line.tokens, reason.tokens) {
        return Ok(None);
    }
    let view = View {
        bytes: found.bytes,
        offset: found.offset,
        tokens: &line.tokens,
    };
    let mut text = String::new(alloc);
    push_whole(&mut text, path, view, reason, number)?;
    Ok(Some(text))
}

/// What is written of a program that breaks a usage rule: the place, the reason, the line, what is known of its names,
/// and a hint. The path is that of the source, the lines are its lines, and the number is that of the rule. There is no
/// text where the source or the lines have no line of that number, or the line not all of the tokens that are meant.
pub fn usage_text(
    alloc: Global,
    path: &str,
    source: &[u8],
    lines: &[Line<'_>],
    reason: &Reason<'_>,
    number: u8,
) -> Result<Option<String>, AllocError>
    ensures { IfOk result (λ text. option_map string_bytes text
        ≡ usage_text path.now source.now lines.now reason.now number) }
{
    if has_no_items(reason.why) {
        return Ok(Some(missing_text(alloc, path, number)?));
    }
    line_text(alloc, path, source, lines, reason, number)
}
