//! A source that is put together from statements.

use crate::quoted::append_quoted;
use conformance::{Statement, unindented};
use std::alloc::Global;

/// What begins a spelling in a text of a source.
const SIGN: u8 = b'\\';

/// What stands for a number in a text that is appended for several.
const NUMBER: u8 = b'%';

/// A source, of which statements say parts.
#[derive(Drop)]
pub(crate) struct Source {
    alloc: Global,
    text: Vec<u8>,
    /// How many lines end in the text.
    lines: usize,
}

/// The number with which a text begins, and what follows it.
fn number(text: &str) -> Option<(u32, &str)> {
    let (digits, rest) = text.split_once(' ').unwrap_or((text, ""));
    Some((digits.parse::<u32>().ok()?, rest))
}

/// A text for each number from the first up to the second, which is left out.
#[derive(Drop)]
struct Several {
    from: u32,
    to: u32,
    text: Vec<u8>,
}

impl Several {
    /// What `FROM TO "TEXT"` says.
    fn read(alloc: Global, said: &str) -> Option<Self> {
        let (from, rest) = number(said)?;
        let (to, quoted) = number(rest)?;
        let text = text_of(alloc, quoted, &[])?;
        Some(Several { from, to, text })
    }
}

/// A text in quotes, or else the lines of a block without their indentation.
fn text_of(alloc: Global, quoted: &str, block: &[&str]) -> Option<Vec<u8>> {
    let mut text = Vec::new(alloc);
    if !quoted.is_empty() {
        append_quoted(&mut text, SIGN, quoted)?;
        return Some(text);
    }
    for line in block {
        text.extend_from_slice(unindented(line).as_bytes()).ok()?;
        text.push(b'\n').ok()?;
    }
    Some(text)
}

/// How many lines end in a text.
fn ends_of_lines(text: &[u8]) -> usize {
    let mut count = 0_usize;
    for byte in text {
        if *byte == b'\n' {
            count = count.saturating_add(1);
        }
    }
    count
}

impl Source {
    /// One with no lines.
    pub(crate) fn new(alloc: Global) -> Self {
        Source {
            alloc,
            text: Vec::new(alloc),
            lines: 0,
        }
    }

    pub(crate) fn as_bytes(&self) -> &[u8] {
        &self.text
    }

    /// Takes a statement that says a part of the source, and returns whether it can be read; any other is left.
    pub(crate) fn take(&mut self, statement: Statement) -> Option<bool> {
        let taken = match statement.word {
            "source" => self.begin(statement.rest, statement.block),
            "repeat" => self.repeat(statement.rest, statement.block),
            "levels" => self.descend(statement.rest),
            "numbers" => self.count(statement.rest),
            "VAL" | "PROC" | ":" => self.append_item(statement),
            _ => return None,
        };
        Some(taken.is_some())
    }

    /// Appends a text `times` times.
    fn append(&mut self, times: u32, text: &[u8]) -> Option<()> {
        let ends = ends_of_lines(text);
        for _ in 0..times {
            self.text.extend_from_slice(text).ok()?;
            self.lines = self.lines.saturating_add(ends);
        }
        Some(())
    }

    fn begin(&mut self, quoted: &str, block: &[&str]) -> Option<()> {
        self.text = text_of(self.alloc, quoted, block)?;
        self.lines = ends_of_lines(&self.text);
        Some(())
    }

    /// Appends a text, or the lines of a block, several times: `TIMES "TEXT"` or `TIMES`.
    fn repeat(&mut self, said: &str, block: &[&str]) -> Option<()> {
        let (times, quoted) = number(said)?;
        let text = text_of(self.alloc, quoted, block)?;
        self.append(times, &text)
    }

    /// Appends a text at each level of indentation.
    fn descend(&mut self, said: &str) -> Option<()> {
        let said = Several::read(self.alloc, said)?;
        for level in said.from..said.to {
            self.append(level, b"  ")?;
            self.append(1, &said.text)?;
        }
        Some(())
    }

    /// Appends a text with a number for each sign of one.
    fn append_numbered(&mut self, text: &[u8], number: u32) -> Option<()> {
        let digits = format!(in self.alloc; "{number}").ok()?;
        for byte in text {
            if *byte == NUMBER {
                self.append(1, digits.as_bytes())?;
            } else {
                self.append(1, &[*byte])?;
            }
        }
        Some(())
    }

    /// Appends a text for each number.
    fn count(&mut self, said: &str) -> Option<()> {
        let said = Several::read(self.alloc, said)?;
        for number in said.from..said.to {
            self.append_numbered(&said.text, number)?;
        }
        Some(())
    }

    /// Appends a line.
    fn append_line(&mut self, line: &str) -> Option<()> {
        self.append(1, line.as_bytes())?;
        self.append(1, b"\n")
    }

    /// Appends a statement that is itself a part of a source, at the line that it has in its file.
    fn append_item(&mut self, statement: Statement) -> Option<()> {
        for _ in self.lines.saturating_add(1)..statement.line {
            self.append(1, b"\n")?;
        }
        self.append(1, statement.word.as_bytes())?;
        self.append(1, b" ")?;
        self.append_line(statement.rest)?;
        for line in statement.block {
            self.append_line(line)?;
        }
        Some(())
    }
}
