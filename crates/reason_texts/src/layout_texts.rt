//! What is written of a source that has no lines of tokens.

ghost use Rattle.std.specs.Prelude.{◌≡◌, ◌++◌, ◌≤◌, ◌<◌, ◌^◌, OnOk, IfOk, length, option_map, map, string_bytes};
ghost use Rattle.reason_texts.specs.Lines.{line_found, sight_of};
ghost use Rattle.reason_texts.specs.LayoutReasons.{place_of, layout_reason};
ghost use Rattle.reason_texts.specs.LayoutTexts.{len_of, token_sentence, deep_sentence, token_text, byte_at, sentence};
ghost use Rattle.reason_texts.specs.LayoutTexts.{byte_hint, token_hint, hint, whole_text, source_text, layout_text};

use crate::block::{Span, push_closed, push_number, push_place, push_rest};
use crate::layout::{LayoutReason, layout_reason};
use crate::lines::{Above, find_line};
use crate::tokens::{BadToken, TokenFault};
use occam_layout::LayoutFault;
use std::alloc::{AllocError, Global};

/// How many bytes of a line are meant.
fn len_of(reason: LayoutReason) -> usize
    ensures { result ≡ len_of reason }
{
    match reason {
        LayoutReason::OddIndentation { spaces } => spaces,
        LayoutReason::BadToken(bad) => bad.len,
        _ => 1,
    }
}

/// What is wrong where a token should begin.
fn token_sentence(fault: TokenFault) -> &'static str
    ensures { result.now ≡ token_sentence fault }
{
    match fault {
        TokenFault::NoToken => "no token begins so",
        TokenFault::LargeNumber => "the greatest number is 2147483647",
        TokenFault::HexadecimalDigits(0) => "a hexadecimal digit was wanted behind `#`",
        TokenFault::HexadecimalDigits(_) => "a number has at most 8 hexadecimal digits",
        TokenFault::Unclosed => "no quote ends this literal on its line",
        TokenFault::Unspelled => "no character is spelled so",
        TokenFault::NotOneCharacter => "one character was wanted between these quotes",
    }
}

/// Appends that a line is too deep.
fn push_deep(text: &mut String, level: usize, above: Option<Above>) -> Result<(), AllocError>
    ensures { OnOk result (string_bytes text.new ≡ string_bytes text.old ++ deep_sentence level above) }
{
    match above {
        Some(above) => write!(
            text,
            "level {level}, but line {} is at level {}",
            above.line, above.level
        ),
        None => write!(text, "level {level}, but a source begins at level 0"),
    }
}

/// Appends what is wrong where a token should begin, and the bytes that are meant.
#[tactic(auto, unfolding(crate::specs::LayoutTexts::token_text))]
fn push_token(text: &mut String, line: &[u8], bad: BadToken) -> Result<(), AllocError>
    ensures { OnOk result (string_bytes text.new ≡ string_bytes text.old ++ token_text line.now bad) }
{
    let BadToken { at, len, fault } = bad;
    text.push_str(token_sentence(fault))?;
    text.push_str(": `")?;
    push_closed(text, line, Span { at, len })
}

/// Appends why a line has no tokens, or a source no lines.
fn push_sentence(text: &mut String, line: &[u8], reason: LayoutReason) -> Result<(), AllocError>
    ensures { OnOk result (string_bytes text.new ≡ string_bytes text.old ++ sentence line.now reason) }
{
    match reason {
        LayoutReason::OddIndentation { spaces } => {
            write!(text, "indented by {spaces}, but a level is two spaces")
        }
        LayoutReason::TooDeep { level, above } => push_deep(text, level, above),
        LayoutReason::NoCharacter { at } => {
            let byte = byte_at(line, at);
            write!(text, "byte {byte} is no character of a source")
        }
        LayoutReason::BadToken(bad) => push_token(text, line, bad),
        LayoutReason::TooManyLines => text.push_str("a source has at most 32768 lines"),
        LayoutReason::TooManyBytes { .. } => text.push_str("a source has at most 1048576 bytes"),
    }
}

/// What to write in place of a byte that is no character of a source, or begins no token.
fn byte_hint(byte: u8) -> Option<&'static str>
    ensures { option_map (λ h. h.now) result ≡ byte_hint byte }
{
    match byte {
        b'\t' => Some("a source has no tabs; a level is two spaces"),
        b'\r' => Some("lines end with a line feed alone, and not with a carriage return before it"),
        b';' => Some(
            "no `;` ends a line; the parts of a message are sent one after the other, in a SEQ",
        ),
        b'_' => Some("a name has letters, digits and dots"),
        b'.' => Some("there are no real numbers, and a name begins with a letter"),
        b'\x80'..=b'\xff' => Some("a source is ASCII, in comments and strings too"),
        _ => None,
    }
}

/// What to write in place of bytes that are no token.
fn token_hint(fault: TokenFault, byte: u8) -> Option<&'static str>
    ensures { option_map (λ h. h.now) result ≡ token_hint fault byte }
{
    match fault {
        TokenFault::NoToken => byte_hint(byte),
        TokenFault::LargeNumber => Some("the least number is MOSTNEG INT"),
        TokenFault::HexadecimalDigits(0) => Some(
            "a hexadecimal number is written #1F; there are no directives such as #USE",
        ),
        TokenFault::Unspelled => Some(
            "the spellings are *c *n *t *s *' *\" ** and *# with two digits",
        ),
        TokenFault::NotOneCharacter => Some(
            "a text of several characters is a table, as VAL [2]BYTE t IS \"ab\":, and a line feed is '*n'",
        ),
        _ => None,
    }
}

/// What to write in place of a line that has no tokens.
fn hint(reason: LayoutReason, byte: u8) -> Option<&'static str>
    ensures { option_map (λ h. h.now) result ≡ hint reason byte }
{
    match reason {
        LayoutReason::OddIndentation { .. } => Some(
            "each level is two spaces more; a line does not go on on the next one",
        ),
        LayoutReason::TooDeep { .. } => Some(
            "a line is at most one level, of two spaces, below the line above it",
        ),
        LayoutReason::NoCharacter { .. } => byte_hint(byte),
        LayoutReason::BadToken(bad) => token_hint(bad.fault, byte),
        _ => None,
    }
}

/// The byte at a place of a line, or a space at its end.
fn byte_at(line: &[u8], at: usize) -> u8
    ensures { result ≡ byte_at line.now at }
{
    match line.get(at) {
        Some(byte) => *byte,
        None => b' ',
    }
}

/// How many bytes of the line are before those that are meant.
fn place_of(reason: LayoutReason) -> usize
    ensures { result ≡ place_of reason }
{
    match reason {
        LayoutReason::NoCharacter { at } => at,
        LayoutReason::BadToken(bad) => bad.at,
        _ => 0,
    }
}

/// Appends where and why a line is refused, the line, and what to write in its place.
#[tactic(auto, unfolding(crate::specs::LayoutTexts::whole_text))]
fn push_whole(
    text: &mut String,
    path: &str,
    fault: LayoutFault,
    line: &[u8],
    reason: LayoutReason,
) -> Result<(), AllocError>
    requires { place_of reason ≤ length line.now }
    ensures { OnOk result (string_bytes text.new
        ≡ string_bytes text.old ++ whole_text path.now fault line.now reason) }
{
    let (at, len) = (place_of(reason), len_of(reason));
    let hint = hint(reason, byte_at(line, at));
    push_place(text, path, fault.line, at)?;
    push_sentence(text, line, reason)?;
    push_rest(text, fault.number, line, Span { at, len }, hint)
}

/// Appends why a source without lines is refused.
#[tactic(auto, unfolding(crate::specs::LayoutTexts::source_text))]
fn push_source(
    text: &mut String,
    path: &str,
    fault: LayoutFault,
    reason: LayoutReason,
) -> Result<(), AllocError>
    ensures { OnOk result (string_bytes text.new ≡ string_bytes text.old ++ source_text path.now fault reason) }
{
    write!(text, "{path}: ")?;
    push_sentence(text, b"", reason)?;
    push_number(text, fault.number)
}

/// What is written of a source that has no lines of tokens: the place, the reason, the line, and a hint. The path is
/// that of the source. There is no text where the source has no such line, or the line is not at fault.
pub fn layout_text(
    alloc: Global,
    path: &str,
    source: &[u8],
    fault: LayoutFault,
) -> Result<Option<String>, AllocError>
    ensures { IfOk result (λ text. option_map string_bytes text ≡ layout_text path.now source.now fault) }
{
    let Some(reason) = layout_reason(source, fault.line) else {
        return Ok(None);
    };
    let mut text = String::new(alloc);
    match find_line(source, fault.line) {
        Some(line) => push_whole(&mut text, path, fault, line.bytes, reason)?,
        None => push_source(&mut text, path, fault, reason)?,
    }
    Ok(Some(text))
}
