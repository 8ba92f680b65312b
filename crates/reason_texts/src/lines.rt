//! A line of a source, found by its number.

ghost use Rattle.std.specs.Prelude.{◌≡◌, ◌<◌, ◌≤◌, ◌+◌, ◌∷◌, List, length, option_map, IfSome};
ghost use Rattle.occam_layout.specs.Reading.{is_blank, lines_of};
ghost use Rattle.reason_texts.specs.Lines.{line_found, above_after, sight_of};

use crate::classes::{Class, front_len};
use occam_layout::MAX_BYTES;

/// A line before another one that has tokens.
#[derive(Clone, Copy)]
pub struct Above {
    /// The line's number.
    pub line: u32,
    /// How deep the line is indented, in levels of two spaces.
    pub level: usize,
}

/// A line of a source.
#[derive(Clone, Copy)]
pub struct SourceLine<'s> {
    /// The line, without the line feed that ends it.
    pub bytes: &'s [u8],
    /// The offset in the source of its first byte.
    pub offset: usize,
    /// The last line before it that has more than spaces and a comment.
    pub above: Option<Above>,
}

/// Whether nothing but a comment is left of a line.
pub(crate) fn is_blank(body: &[u8]) -> bool
    ensures { result ≡ is_blank body.now }
{
    body.is_empty() || body.starts_with(b"--")
}

/// The first line of a text that isn't empty, and what follows the line feed that ends it.
pub fn first_line(text: &[u8]) -> (&[u8], &[u8])
    requires { 0 < length text.now }
    ensures parts { lines_of text.now ≡ result.0.now ∷ lines_of result.1.now }
    ensures within { length result.0.now + length result.1.now ≤ length text.now }
    ensures shorter { length result.1.now < length text.now }
    ensures ended { 0 < length result.1.now → length result.0.now + 1 + length result.1.now ≡ length text.now }
{
    let len = front_len(Class::InLine, text);
    let (line, rest) = text.split_at(len);
    if rest.is_empty() {
        return (line, rest);
    }
    let (_, after) = rest.split_at(1);
    (line, after)
}

/// The line above the next one: this line, if it has tokens, and otherwise the line above this one.
fn above_after(above: Option<Above>, line: u32, bytes: &[u8]) -> Option<Above>
    requires small { length bytes.now ≤ 1048576 }
    requires level { IfSome above (λ a. a.level ≤ 1048576) }
    ensures above { result ≡ above_after above line bytes.now }
    ensures level { IfSome result (λ a. a.level ≤ 1048576) }
{
    let indent = front_len(Class::Space, bytes);
    let (_, body) = bytes.split_at(indent);
    if is_blank(body) {
        return above;
    }
    let level = indent / 2;
    Some(Above { line, level })
}

/// The line of a source that has this number, counted from 1. A source of too many bytes has none.
pub fn find_line(source: &[u8], line: u32) -> Option<SourceLine<'_>>
    ensures found { option_map sight_of result ≡ line_found source.now line }
    ensures small { IfSome result (λ l. length l.bytes.now ≤ 1048576) }
    ensures level { IfSome result (λ l. IfSome l.above (λ a. a.level ≤ 1048576)) }
{
    if source.len() > MAX_BYTES {
        return None;
    }
    let mut rest = source;
    let mut number = 1;
    let mut offset = 0;
    let mut above = None;
    while !rest.is_empty() {
        let (bytes, after) = first_line(rest);
        if number == line {
            return Some(SourceLine {
                bytes,
                offset,
                above,
            });
        }
        above = above_after(above, number, bytes);
        number += 1;
        offset += bytes.len() + 1;
        rest = after;
    }
    None
}
