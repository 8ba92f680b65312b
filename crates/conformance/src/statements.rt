//! The statements of a text of cases.

ghost use Rattle.std.specs.Prelude.{◌≡◌, IfSome};
ghost use Rattle.conformance.specs.Statements.{IsUnindented};

use std::alloc::{AllocError, Global};

/// A word at the start of a line, what follows on the line, and the indented lines below it.
#[derive(Clone, Copy)]
pub struct Statement<'l, 't> {
    /// The number of its line, from 1 on.
    pub line: usize,
    /// What it begins with.
    pub word: &'t str,
    /// What follows the word and a space on its line.
    pub rest: &'t str,
    /// The lines below it, with their indentation.
    pub block: &'l [&'t str],
}

/// How each line of a block begins.
const INDENT: &str = "  ";

/// Whether a line has no statement.
fn is_skipped(line: &str) -> bool {
    line.is_empty() || line.starts_with('#') || line.starts_with(INDENT)
}

/// The indented lines with which these lines begin.
fn block<'l, 't>(lines: &'l [&'t str]) -> &'l [&'t str] {
    for (index, line) in lines.iter().enumerate() {
        if !line.starts_with(INDENT) {
            return lines.get(..index).unwrap_or(lines);
        }
    }
    lines
}

/// The statement with which these lines begin, of which the first has this number, unless the line is blank, a comment,
/// or within a block.
pub(crate) fn first_statement<'l, 't>(
    lines: &'l [&'t str],
    line: usize,
) -> Option<Statement<'l, 't>>
    ensures { IfSome result (λ statement. statement.line ≡ line) }
{
    let (first, others) = lines.split_first()?;
    if is_skipped(first) {
        return None;
    }
    let (word, rest) = first.split_once(' ').unwrap_or((*first, ""));
    Some(Statement {
        line,
        word,
        rest,
        block: block(others),
    })
}

/// A line of a block without its indentation.
pub fn unindented(line: &str) -> &str
    ensures { IsUnindented line.now result.now }
{
    line.strip_prefix(INDENT).unwrap_or(line)
}

/// The lines of a text.
pub(crate) fn lines_of(alloc: Global, text: &str) -> Result<Vec<&str>, AllocError> {
    text.lines().collect(alloc)
}
