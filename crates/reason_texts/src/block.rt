//! The place at fault: its number and column, its line, and carets below what is meant.

ghost use Rattle.std.specs.Prelude.{◌≡◌, ◌+◌, ◌++◌, ◌^◌, ◌<◌, OnOk, drop, map, option_map, replicate, string_bytes};
ghost use Rattle.std.specs.Prelude.{take};
ghost use Rattle.reason_texts.specs.Blocks.{place_text, number_text, shown_byte, block_text};
ghost use Rattle.reason_texts.specs.Blocks.{hint_text, caret_count, meant, closing_quote, closed_text, rest_text};

use std::alloc::AllocError;

/// Some bytes of a line.
#[derive(Clone, Copy)]
pub struct Span {
    /// How many bytes of the line are before them.
    pub at: usize,
    pub len: usize,
}

/// Appends where a fault is, as editors read it.
pub fn push_place(text: &mut String, path: &str, line: u32, at: usize) -> Result<(), AllocError>
    requires { at < 2 ^ 63 }
    ensures { OnOk result (string_bytes text.new ≡ string_bytes text.old ++ place_text path.now line at) }
{
    let column = at + 1;
    write!(text, "{path}:{line}:{column}: ")
}

/// Appends the number of a fault.
pub fn push_number(text: &mut String, number: u8) -> Result<(), AllocError>
    ensures { OnOk result (string_bytes text.new ≡ string_bytes text.old ++ number_text number) }
{
    writeln!(text, " (O{number})")
}

/// A byte of a line as it is shown.
pub fn shown_byte(byte: u8) -> u8
    ensures value { result ≡ shown_byte byte }
    ensures ascii { result < 128 }
{
    if byte >= 32 && byte < 127 { byte } else { b'?' }
}

/// Appends bytes of a line as they are shown.
pub fn push_bytes(text: &mut String, bytes: &[u8]) -> Result<(), AllocError>
    ensures { OnOk result (string_bytes text.new ≡ string_bytes text.old ++ map shown_byte bytes.now) }
{
    for byte in bytes {
        text.push(char::from(shown_byte(*byte)))?;
    }
    Ok(())
}

/// At most this number of bytes of a line, from an offset on.
#[tactic(auto, using(std::proofs::lemmas::List::take_min))]
fn part(line: &[u8], from: usize, len: usize) -> &[u8]
    ensures { result.now ≡ take len (drop from line.now) }
{
    let (_, rest) = line.split_at(from.min(line.len()));
    let (part, _) = rest.split_at(len.min(rest.len()));
    part
}

/// Some bytes of a line, of which at most 100 are told.
pub fn meant(line: &[u8], at: usize, len: usize) -> &[u8]
    ensures { result.now ≡ meant line.now at len }
{
    part(line, at, len.min(100))
}

/// What ends the bytes of a line: a quote, after two dots if not all of them are told.
pub fn closing_quote(len: usize) -> &'static str
    ensures { result.now ≡ closing_quote len }
{
    if len <= 100 { "`" } else { "..`" }
}

/// Appends some bytes of a line, and what ends them.
#[tactic(auto, unfolding(crate::specs::Blocks::closed_text))]
pub(crate) fn push_closed(text: &mut String, line: &[u8], span: Span) -> Result<(), AllocError>
    ensures { OnOk result (string_bytes text.new ≡ string_bytes text.old ++ closed_text line.now span.at span.len) }
{
    push_bytes(text, meant(line, span.at, span.len))?;
    text.push_str(closing_quote(span.len))
}

/// Appends a sign as often as this.
fn push_times(text: &mut String, count: usize, sign: u8) -> Result<(), AllocError>
    requires { sign < 128 }
    ensures { OnOk result (string_bytes text.new ≡ string_bytes text.old ++ replicate count sign) }
{
    for _ in 0..count {
        text.push(char::from(sign))?;
    }
    Ok(())
}

/// How many carets are below some bytes: one at least, and 100 at most.
fn caret_count(len: usize) -> usize
    ensures { result ≡ caret_count len }
{
    if len == 0 {
        return 1;
    }
    len.min(100)
}

/// Appends a line, and carets below some of its bytes.
#[tactic(auto, unfolding(crate::specs::Blocks::block_text))]
pub fn push_block(text: &mut String, line: &[u8], span: Span) -> Result<(), AllocError>
    ensures { OnOk result (string_bytes text.new ≡ string_bytes text.old ++ block_text line.now span.at span.len) }
{
    let from = span.at.saturating_sub(100);
    push_bytes(text, part(line, from, 200))?;
    text.push_str("\n")?;
    push_times(text, span.at - from, b' ')?;
    push_times(text, caret_count(span.len), b'^')?;
    text.push_str("\n")
}

/// Appends a hint, if there is one.
pub fn push_hint(text: &mut String, hint: Option<&str>) -> Result<(), AllocError>
    ensures { OnOk result (string_bytes text.new
        ≡ string_bytes text.old ++ hint_text (option_map (λ h. h.now) hint.entry)) }
{
    match hint {
        Some(hint) => writeln!(text, "  hint: {hint}"),
        None => Ok(()),
    }
}

/// Appends the number of a fault, the line with carets below what is meant, and a hint, if there is one.
#[tactic(auto, unfolding(crate::specs::Blocks::rest_text))]
pub(crate) fn push_rest(
    text: &mut String,
    number: u8,
    line: &[u8],
    span: Span,
    hint: Option<&str>,
) -> Result<(), AllocError>
    ensures { OnOk result (string_bytes text.new
        ≡ string_bytes text.old ++ rest_text number line.now span (option_map (λ h. h.now) hint.entry)) }
{
    push_number(text, number)?;
    push_block(text, line, span)?;
    push_hint(text, hint)
}
