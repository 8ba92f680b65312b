//! What the statements before a question say.

use crate::expected::Expected;
use crate::folder::{Folder, NamedFile, named};
use crate::words::span;
use conformance::Statement;
use std::alloc::Global;

/// The name of the module of a case.
const MODULE: &str = "F";

/// What a command line is run over, and what it is expected to leave.
#[derive(Drop)]
pub(crate) struct Setting {
    pub(crate) alloc: Global,
    /// The module as it is given, and with some numbers set.
    module: Vec<u8>,
    file: Vec<u8>,
    /// The first and the last size of the module's file.
    pub(crate) sizes: (usize, usize),
    files: Vec<NamedFile>,
    /// The lines of the commands that are run before.
    pub(crate) before: Vec<String>,
    /// The first and the last number of bytes that a file and standard output take.
    pub(crate) room: (usize, usize),
    pub(crate) line: String,
    pub(crate) expected: Expected,
}

/// No bound on what a file takes.
const UNBOUNDED: (usize, usize) = (usize::MAX, usize::MAX);

/// `AT:WIDTH=VALUE`: a place, a number of bytes, and a number.
fn setting_of(word: &str) -> Option<(usize, usize, u64)> {
    let (at, rest) = word.split_once(':')?;
    let (width, value) = rest.split_once('=')?;
    Some((at.parse().ok()?, width.parse().ok()?, value.parse().ok()?))
}

/// Sets a number of a file, least significant byte first.
fn set(file: &mut [u8], at: usize, width: usize, value: u64) -> Option<()> {
    let bytes = value.to_le_bytes();
    for index in 0..width {
        let byte = bytes.get(index).copied().unwrap_or(0);
        *file.get_mut(at.checked_add(index)?)? = byte;
    }
    Some(())
}

impl Setting {
    pub(crate) fn new(alloc: Global) -> Self {
        Setting {
            alloc,
            module: Vec::new(alloc),
            file: Vec::new(alloc),
            sizes: (0, 0),
            files: Vec::new(alloc),
            before: Vec::new(alloc),
            room: UNBOUNDED,
            line: String::new(alloc),
            expected: Expected::new(alloc),
        }
    }

    /// Takes a statement that asks nothing, and returns whether it can be read; any other is left.
    pub(crate) fn take(&mut self, statement: Statement) -> Option<bool> {
        let rest = statement.rest;
        let taken = match statement.word {
            "module" => self.read_module(rest),
            "with" => self.alter(rest),
            "file" => self.add_file(rest),
            "source" => self.add_source(rest),
            "|" => self.add_line(rest),
            "first" => self.run_before(rest),
            "output" => self.bound(rest),
            "$" => self.ask(rest),
            ">" => self.expected.add_out(rest),
            "!" => self.expected.add_err(rest),
            "holds" => self.expected.add_held(self.alloc, rest),
            _ => return None,
        };
        Some(taken.is_some())
    }

    fn read_module(&mut self, digits: &str) -> Option<()> {
        self.module = hex::decode(self.alloc, digits).ok()?;
        self.files.clear();
        self.before.clear();
        self.room = UNBOUNDED;
        self.alter("")
    }

    /// `4:1=8 size=3..5`: the module with numbers set, and its sizes.
    fn alter(&mut self, words: &str) -> Option<()> {
        self.file.clear();
        self.file.extend_from_slice(&self.module).ok()?;
        self.sizes = (self.module.len(), self.module.len());
        let mut rest = words;
        for _ in 0..u64::MAX {
            if rest.is_empty() {
                return Some(());
            }
            let (word, others) = rest.split_once(' ').unwrap_or((rest, ""));
            match word.strip_prefix("size=") {
                Some(sizes) => self.sizes = span(sizes)?,
                None => {
                    let (at, width, value) = setting_of(word)?;
                    set(&mut self.file, at, width, value)?;
                }
            }
            rest = others;
        }
        None
    }

    fn add_file(&mut self, rest: &str) -> Option<()> {
        let (name, digits) = rest.split_once(' ').unwrap_or((rest, ""));
        let bytes = hex::decode(self.alloc, digits).ok()?;
        self.files.push(named(self.alloc, name, &bytes)?).ok()
    }

    fn add_source(&mut self, name: &str) -> Option<()> {
        self.files.push(named(self.alloc, name, &[])?).ok()
    }

    fn add_line(&mut self, line: &str) -> Option<()> {
        let bytes = &mut self.files.last_mut()?.bytes;
        bytes.extend_from_slice(line.as_bytes()).ok()?;
        bytes.push(b'\n').ok()
    }

    fn run_before(&mut self, line: &str) -> Option<()> {
        let mut kept = String::new(self.alloc);
        kept.push_str(line).ok()?;
        self.before.push(kept).ok()
    }

    fn bound(&mut self, text: &str) -> Option<()> {
        self.room = span(text)?;
        Some(())
    }

    fn ask(&mut self, line: &str) -> Option<()> {
        self.expected.clear();
        self.line.clear();
        self.line.push_str(line).ok()
    }

    /// The folder with the module's file of this size, cut or filled with zeros, and the other files.
    pub(crate) fn folder(&self, size: usize, room: usize) -> Option<Folder> {
        let folder = Folder::new(self.alloc, room);
        let mut file = Vec::new(self.alloc);
        file.extend_from_slice(&self.file).ok()?;
        file.resize(size, 0).ok()?;
        folder.put(self.alloc, MODULE, &file)?;
        for file in &self.files {
            folder.put(self.alloc, file.name.as_str(), &file.bytes)?;
        }
        Some(folder)
    }

    /// The bytes of a file of the case.
    pub(crate) fn bytes_of(&self, name: &str) -> Option<&[u8]> {
        for file in &self.files {
            if file.name.as_str() == name {
                return Some(file.bytes.as_slice());
            }
        }
        None
    }
}
