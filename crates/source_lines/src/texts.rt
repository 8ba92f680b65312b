//! Lines of a source, in words.

ghost use Rattle.std.specs.Prelude.{◌≡◌, ◌++◌, ◌+◌, Some, OnOk, IfOk, string_bytes};
ghost use Rattle.source_lines.specs.declared.entry.LineEntry.{LineEntry};
ghost use Rattle.source_lines.specs.SourceLines.{around_text, entry_text, last_text, lines_text, within_text};

use crate::entry::{LineEntry, count_upto};
use std::alloc::AllocError;
use std::fmt;

/// The line around a line, unless it is the same.
#[derive(Clone, Copy)]
struct WithinText {
    line: u32,
    outer: u32,
}

impl fmt::Display for WithinText {
    ghost output = { λ within. Some (within_text within.line within.outer) };

    fn fmt<W: fmt::Write>(&self, f: &mut fmt::Formatter<W>) -> fmt::Result {
        if self.line == self.outer {
            return write!(f, "");
        }
        write!(f, " within line {}", self.outer)
    }
}

/// Appends the line of the entry of this number, if it is around that of the inner one. The result is the entry that goes
/// on outward from there.
#[tactic(auto, using(crate::proofs::LinesAround::around_none, crate::proofs::LinesAround::around_deeper))]
fn push_outer(
    text: &mut String,
    entries: &[LineEntry],
    number: usize,
    inner: LineEntry,
) -> Result<LineEntry, AllocError>
    ensures { IfOk result (λ (next : LineEntry). string_bytes text.new
        ++ around_text entries.now number next.depth next.line
        ≡ string_bytes text.old ++ around_text entries.now (number + 1) inner.depth inner.line) }
{
    let Some(outer) = entries.get(number) else {
        return Ok(inner);
    };
    if inner.depth <= outer.depth {
        return Ok(inner);
    }
    let within = WithinText {
        line: inner.line,
        outer: outer.line,
    };
    write!(text, "{within}")?;
    Ok(*outer)
}

/// Appends the lines around that of this entry, which are among the first `count` entries.
fn push_around(
    text: &mut String,
    entries: &[LineEntry],
    count: usize,
    entry: LineEntry,
) -> Result<(), AllocError>
    ensures { OnOk result (string_bytes text.new
        ≡ string_bytes text.old ++ around_text entries.now count entry.depth entry.line) }
{
    let mut inner = entry;
    let mut left = count;
    while left > 0 {
        left -= 1;
        inner = push_outer(text, entries, left, inner)?;
    }
    Ok(())
}

/// Appends the line of this entry, and those around it, which are among the first `count` entries.
fn push_entry(
    text: &mut String,
    entries: &[LineEntry],
    count: usize,
    entry: LineEntry,
) -> Result<(), AllocError>
    ensures { OnOk result (string_bytes text.new
        ≡ string_bytes text.old ++ entry_text entries.now count entry) }
{
    write!(text, ", line {}", entry.line)?;
    push_around(text, entries, count, entry)?;
    text.push_str(",")
}

/// Appends the line of the last of the first `count` entries, and those around it.
#[tactic(auto, using(crate::proofs::LinesAround::last_none, crate::proofs::LinesAround::last_entry))]
fn push_last(text: &mut String, entries: &[LineEntry], count: usize) -> Result<(), AllocError>
    ensures { OnOk result (string_bytes text.new ≡ string_bytes text.old ++ last_text entries.now count) }
{
    if count == 0 {
        return text.push_str("");
    }
    let Some(entry) = entries.get(count - 1) else {
        return text.push_str("");
    };
    push_entry(text, entries, count - 1, *entry)
}

/// Appends the line that what is at an offset comes from, and the lines around it, the innermost first: nothing, if
/// there is none.
pub fn push_lines(text: &mut String, entries: &[LineEntry], at: u32) -> Result<(), AllocError>
    ensures { OnOk result (string_bytes text.new ≡ string_bytes text.old ++ lines_text entries.now at) }
{
    let count = count_upto(entries, at);
    push_last(text, entries, count)
}
