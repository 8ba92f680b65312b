//! Lines by their indentation, and the tokens of each.

ghost use Rattle.std.specs.Prelude.{ℕ, List, ◌≡◌, ◌<◌, ◌≤◌, ◌+◌, ◌^◌, ◌∷◌, [], map, length, option_map, drop, Ok, Err};
ghost use Rattle.std.specs.Prelude.{IfOk, IfSome};
ghost use Rattle.std.specs.List.{prefix_len, list_all};
ghost use Rattle.occam_layout.specs.Reading.{Row, lexeme_of, row_of, Continues, is_character, is_in_line, is_space};
ghost use Rattle.occam_layout.specs.Reading.{is_blank, lines_of, tokens_at, row_at, read, Gives, Answers};
ghost use Rattle.occam_layout.specs.Tokens.{IsSource, AreLines, ArePlaced};

use crate::fault::{Fault, LayoutFault, ScanError};
use crate::scan::token_at;
use crate::token::{Line, Token};
use std::alloc::Global;

/// The greatest number of bytes of a source.
pub const MAX_BYTES: usize = 1_048_576;
/// The greatest number of lines of a source.
pub const MAX_LINES: u32 = 32_768;

/// How many spaces a line begins with.
fn spaces_len(bytes: &[u8]) -> usize
    ensures len { result ≡ prefix_len is_space bytes.now }
    ensures within { result ≤ length bytes.now }
{
    bytes.iter().take_while(|b| **b == b' ').count()
}

/// Whether nothing but a comment is left of a line.
fn is_blank(body: &[u8]) -> bool
    ensures { result ≡ is_blank body.now }
{
    body.is_empty() || body.starts_with(b"--")
}

/// Whether each byte of a line is a character of a source.
fn has_characters_alone(bytes: &[u8]) -> bool
    ensures { result ≡ list_all is_character bytes.now }
{
    bytes.iter().all(|b| *b >= 32 && *b < 127)
}

/// The next token of a line that goes on at this offset of the source, and what follows the token.
fn next_token(offset: u32, line: &[u8]) -> Result<Option<(Token<'_>, &[u8])>, Fault>
    requires { offset + length line.now < 2 ^ 32 }
    ensures next { Continues (tokens_at 0) offset line.now result }
    ensures within { IfOk result (λ found. IfSome found
        (λ x. (length x.1.now < length line.now) × (x.0.end + length x.1.now ≤ offset + length line.now))) }
{
    let gap = spaces_len(line);
    let (_, rest) = line.split_at(gap);
    if is_blank(rest) {
        return Ok(None);
    }
    let (kind, len) = token_at(rest)?;
    let (_, after) = rest.split_at(len);
    let start = offset + gap as u32;
    let end = start + len as u32;
    Ok(Some((Token { kind, start, end }, after)))
}

/// The tokens of a line that goes on at this offset of the source.
fn tokens_of(alloc: Global, offset: u32, line: &[u8]) -> Result<Vec<Token<'_>>, ScanError>
    requires { offset + length line.now < 2 ^ 32 }
    ensures { Gives (λ v. map lexeme_of v.items) result (tokens_at 0 offset line.now) }
{
    let mut tokens = Vec::new(alloc);
    let mut rest = line;
    let mut start = offset;
    while let Some((token, after)) = next_token(start, rest).map_err(ScanError::Fault)? {
        start = token.end;
        rest = after;
        tokens.push(token)?;
    }
    Ok(tokens)
}

/// A line with its number and the offset where it begins, if it counts. It may be indented by `deepest` levels at most.
#[tactic(auto, unfolding(crate::specs::Reading::row_at, crate::specs::Reading::row_behind))]
fn row_of(
    alloc: Global,
    number: u32,
    offset: u32,
    deepest: u32,
    bytes: &[u8],
) -> Result<Option<Line<'_>>, ScanError>
    requires { offset + length bytes.now < 2 ^ 32 }
    ensures row { Gives (option_map row_of) result (row_at number offset deepest bytes.now) }
    ensures level { IfOk result (λ found. IfSome found (λ line. line.level ≤ length bytes.now)) }
{
    if !has_characters_alone(bytes) {
        return Err(ScanError::Fault(Fault::Character));
    }
    let indent = spaces_len(bytes);
    let (_, body) = bytes.split_at(indent);
    if is_blank(body) {
        return Ok(None);
    }
    if indent % 2 == 1 {
        return Err(ScanError::Fault(Fault::OddIndentation));
    }
    let level = (indent / 2) as u32;
    if level > deepest {
        return Err(ScanError::Fault(Fault::TooDeep));
    }
    let tokens = tokens_of(alloc, offset + indent as u32, body)?;
    Ok(Some(Line {
        number,
        level,
        tokens,
    }))
}

/// The number of bytes before the first line feed, or before the end.
fn line_len(text: &[u8]) -> usize
    ensures len { result ≡ prefix_len is_in_line text.now }
    ensures within { result ≤ length text.now }
{
    text.iter().take_while(|b| **b != b'\n').count()
}

/// The first line of a text that isn't empty, and what follows the line feed that ends it.
fn first_line(text: &[u8]) -> (&[u8], &[u8])
    requires { 0 < length text.now }
    ensures parts { lines_of text.now ≡ result.0.now ∷ lines_of result.1.now }
    ensures within { length result.0.now + length result.1.now ≤ length text.now }
    ensures shorter { length result.1.now < length text.now }
    ensures ended { 0 < length result.1.now → length result.0.now + 1 + length result.1.now ≡ length text.now }
{
    let len = line_len(text);
    let (line, rest) = text.split_at(len);
    if rest.is_empty() {
        return (line, rest);
    }
    let (_, after) = rest.split_at(1);
    (line, after)
}

/// The lines of a source that have tokens. A fault is the first one.
fn read_lines(alloc: Global, source: &[u8]) -> Result<Vec<Line<'_>>, LayoutFault>
    ensures { Answers result (read source.now) }
{
    if source.len() > MAX_BYTES {
        return Err(Fault::TooLarge.at(0));
    }
    let mut lines = Vec::new(alloc);
    let mut rest = source;
    let mut number = 1;
    let mut offset = 0;
    let mut deepest = 0;
    while !rest.is_empty() {
        if number > MAX_LINES {
            return Err(Fault::TooLarge.at(number));
        }
        let (bytes, after) = first_line(rest);
        let found = match row_of(alloc, number, offset, deepest, bytes) {
            Ok(found) => found,
            Err(error) => return Err(error.at(number)),
        };
        if let Some(line) = found {
            deepest = line.level + 1;
            lines.push(line)?;
        }
        number += 1;
        offset += bytes.len() as u32 + 1;
        rest = after;
    }
    Ok(lines)
}

/// The lines of a source that have tokens, in their order. Blank lines, and lines with a comment alone, have none.
///
/// A source that has no such lines is refused with a number and a line: the first line at fault, and on it
/// [`TOO_LARGE`](crate::TOO_LARGE) for a line too many, [`CHARACTER`](crate::CHARACTER) for a byte that is no
/// character of a source, [`ODD_INDENTATION`](crate::ODD_INDENTATION), [`TOO_DEEP`](crate::TOO_DEEP), and then
/// `CHARACTER` or [`LITERAL`](crate::LITERAL) for the first bad token from the left. A source of too many bytes is
/// `TOO_LARGE` at line 0, checked before all others. If memory runs out, the fault is [`MEMORY`](crate::MEMORY) at
/// line 0.
pub fn lines(alloc: Global, source: &[u8]) -> Result<Vec<Line<'_>>, LayoutFault>
    // The lines that are returned are the source's lines of tokens.
    ensures found { IfOk result (λ v. IsSource source.now (map row_of v.items)) }
    // A source that has lines of tokens is read, unless memory runs out.
    ensures only { (rows : List Row) → IsSource source.now rows → Answers result (Ok rows) }
    // No source has two readings.
    ensures unique { (rows others : List Row) → IsSource source.now rows → IsSource source.now others → rows ≡ others }
    // Each token is in the source at its span, and after the one before it.
    ensures placed { IfOk result (λ v. ArePlaced source.now (map row_of v.items)) }
    // Nothing is dropped between the lines: put together they are the source.
    ensures whole { AreLines source.now (lines_of source.now) }
    // Which fault it is, and where.
    ensures exact { Answers result (read source.now) }
{
    read_lines(alloc, source)
}
