//! Why a source has no lines of tokens.

ghost use Rattle.std.specs.Prelude.{◌≡◌, ◌<◌, ◌≤◌, ◌+◌, ◌^◌, ℕ, List, length, Err, IfSome};
ghost use Rattle.occam_layout.specs.Reading.{read};
ghost use Rattle.occam_layout.specs.declared.fault.LayoutFault.{LayoutFault};
ghost use Rattle.reason_texts.specs.Lines.{line_found};
ghost use Rattle.reason_texts.specs.LayoutReasons.{deepest_below, line_reason, layout_reason, Explains};
ghost use Rattle.reason_texts.specs.LayoutReasons.{place_of, IsWithin};

use crate::classes::{Class, front_len};
use crate::lines::{Above, find_line, is_blank};
use crate::tokens::{BadToken, bad_token};
use occam_layout::{MAX_BYTES, MAX_LINES};

/// Why a line has no tokens, or a source no lines. What is said of bytes is said by their offsets in the line.
#[derive(Clone, Copy)]
pub(crate) enum LayoutReason {
    /// The line begins with this odd number of spaces.
    OddIndentation { spaces: usize },
    /// The line is at this level, more than one deeper than the line above it, or the first one and not at level 0.
    TooDeep { level: usize, above: Option<Above> },
    /// The byte is no character of a source.
    NoCharacter { at: usize },
    /// Some bytes are no token.
    BadToken(BadToken),
    /// The source has more lines than are read.
    TooManyLines,
    /// The source has this number of bytes, which is more than are read.
    TooManyBytes { bytes: usize },
}

/// How deep a line may be below this one.
fn deepest_below(above: Option<Above>) -> usize
    requires { IfSome above (λ a. a.level ≤ 1048576) }
    ensures { result ≡ deepest_below above }
{
    match above {
        Some(above) => above.level + 1,
        None => 0,
    }
}

/// Why a line has no tokens, if it is at fault. The line above it is the last one before it that has tokens.
#[tactic(auto, unfolding(crate::specs::LayoutReasons::line_reason))]
fn line_reason(above: Option<Above>, bytes: &[u8]) -> Option<LayoutReason>
    requires small { length bytes.now ≤ 1048576 }
    requires level { IfSome above (λ a. a.level ≤ 1048576) }
    ensures reason { result ≡ line_reason above bytes.now }
    ensures within { IfSome result (λ r. place_of r ≤ length bytes.now) }
{
    let characters = front_len(Class::Character, bytes);
    if characters < bytes.len() {
        return Some(LayoutReason::NoCharacter { at: characters });
    }
    let indent = front_len(Class::Space, bytes);
    let (_, body) = bytes.split_at(indent);
    if is_blank(body) {
        return None;
    }
    if indent % 2 == 1 {
        return Some(LayoutReason::OddIndentation { spaces: indent });
    }
    let level = indent / 2;
    if level > deepest_below(above) {
        return Some(LayoutReason::TooDeep { level, above });
    }
    bad_token(indent, body).map(LayoutReason::BadToken)
}

/// Why a source has no lines of tokens, where this line is at fault.
#[tactic(auto, unfolding(crate::specs::LayoutReasons::layout_reason))]
fn reason_at(source: &[u8], line: u32) -> Option<LayoutReason>
    ensures exact { result ≡ layout_reason source.now line }
    ensures within { IfSome result (λ r. IsWithin (line_found source.now line) r) }
{
    if source.len() > MAX_BYTES {
        return Some(LayoutReason::TooManyBytes {
            bytes: source.len(),
        });
    }
    let found = find_line(source, line)?;
    if line > MAX_LINES {
        return Some(LayoutReason::TooManyLines);
    }
    line_reason(found.above, found.bytes)
}

/// Why a source has no lines of tokens, where [`lines`](occam_layout::lines) reports a fault at this line.
///
/// It is `None` if the source has no line of this number, or one that is not at fault, as where memory ran out.
pub(crate) fn layout_reason(source: &[u8], line: u32) -> Option<LayoutReason>
    // What is wrong with the line.
    ensures exact { result ≡ layout_reason source.now line }
    // The place is in the line.
    ensures within { IfSome result (λ r. IsWithin (line_found source.now line) r) }
    // Each fault of a source has a reason, and the reason is of its number.
    ensures explains { (fault : LayoutFault) → read source.now ≡ Err fault → fault.line ≡ line
        → Explains fault result }
{
    reason_at(source, line)
}
