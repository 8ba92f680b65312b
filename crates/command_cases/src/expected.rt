//! What a command line is expected to leave.

use crate::folder::{NamedFile, named};
use crate::left::Left;
use std::alloc::Global;
use std::fmt::Write;

/// The place of the size of the module's file in what is expected.
const SIZE: &str = "{size}";

/// The lines on both streams, and the bytes of some files.
#[derive(Drop)]
pub(crate) struct Expected {
    out: String,
    err: String,
    held: Vec<NamedFile>,
}

/// Appends a line.
fn add_line(text: &mut String, line: &str) -> Option<()> {
    text.push_str(line).ok()?;
    text.push('\n').ok()
}

/// A text with a number wherever it has `{size}`.
fn with_size(alloc: Global, text: &str, size: usize) -> Option<String> {
    let mut made = String::new(alloc);
    let mut rest = text;
    for _ in 0..u64::MAX {
        let Some((before, after)) = rest.split_once(SIZE) else {
            made.push_str(rest).ok()?;
            return Some(made);
        };
        write!(made, "{before}{size}").ok()?;
        rest = after;
    }
    None
}

impl Expected {
    /// Nothing.
    pub(crate) fn new(alloc: Global) -> Self {
        Expected {
            out: String::new(alloc),
            err: String::new(alloc),
            held: Vec::new(alloc),
        }
    }

    pub(crate) fn clear(&mut self) {
        self.out.clear();
        self.err.clear();
        self.held.clear();
    }

    pub(crate) fn add_out(&mut self, line: &str) -> Option<()> {
        add_line(&mut self.out, line)
    }

    pub(crate) fn add_err(&mut self, line: &str) -> Option<()> {
        add_line(&mut self.err, line)
    }

    /// `NAME BYTES`, in hexadecimal.
    pub(crate) fn add_held(&mut self, alloc: Global, rest: &str) -> Option<()> {
        let (name, digits) = rest.split_once(' ').unwrap_or((rest, ""));
        let bytes = hex::decode(alloc, digits).ok()?;
        self.held.push(named(alloc, name, &bytes)?).ok()
    }

    /// Whether this was left, with a module of this size and a standard output that takes so many bytes.
    pub(crate) fn is_left(
        &self,
        alloc: Global,
        left: &Left,
        size: usize,
        room: usize,
    ) -> Option<bool> {
        let out = self.out.as_bytes();
        let err = with_size(alloc, self.err.as_str(), size)?;
        let is_held = self
            .held
            .iter()
            .all(|file| left.folder.holds(file.name.as_str(), &file.bytes));
        Some(
            left.out.as_slice() == out.get(..room).unwrap_or(out)
                && left.err.as_slice() == err.as_bytes()
                && is_held,
        )
    }
}
