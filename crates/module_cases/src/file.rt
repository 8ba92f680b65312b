//! The file that cases are about.

use crate::edits::Edit;
use crate::words::Words;
use conformance::{Outcome, Statement};
use std::alloc::Global;

/// A file, as the statements so far give it.
#[derive(Drop)]
pub struct CaseFile {
    alloc: Global,
    /// The file of the last `module`.
    module: Vec<u8>,
    /// The same, as the last `with` alters it.
    bytes: Vec<u8>,
    /// Whether the present statement cannot be read, or memory ran out.
    is_wrong: bool,
}

impl CaseFile {
    /// An empty file.
    pub fn new(alloc: Global) -> Self {
        CaseFile {
            alloc,
            module: Vec::new(alloc),
            bytes: Vec::new(alloc),
            is_wrong: false,
        }
    }

    /// The bytes of the file.
    pub fn bytes(&self) -> &[u8] {
        &self.bytes
    }

    /// The bytes of the file, to be altered in turn and left as they are.
    pub fn bytes_mut(&mut self) -> &mut [u8] {
        &mut self.bytes
    }

    /// Takes a statement `module` or `with`; any other is left.
    pub fn take(&mut self, statement: Statement) -> Option<Outcome> {
        self.is_wrong = false;
        match statement.word {
            "module" => self.read_module(statement.rest),
            "with" => self.alter(statement.rest),
            _ => return None,
        }
        Some(Outcome::set(!self.is_wrong))
    }

    fn read_module(&mut self, digits: &str) {
        match hex::decode(self.alloc, digits) {
            Ok(bytes) => self.module = bytes,
            Err(_) => self.is_wrong = true,
        }
        self.restore();
    }

    /// The file as the last `module` gives it.
    fn restore(&mut self) {
        self.bytes.clear();
        self.is_wrong |= self.bytes.extend_from_slice(&self.module).is_err();
    }

    /// The module's file with some numbers altered.
    fn alter(&mut self, rest: &str) {
        self.restore();
        let mut words = Words::of(rest);
        for _ in 0..words.count() {
            let word = words.word();
            match word.strip_prefix("size=") {
                Some(size) => self.resize(words.parsed(size)),
                None => self.is_wrong |= !Edit::of(word, &mut words).apply(&mut self.bytes),
            }
        }
        self.is_wrong |= !words.is_right();
    }

    /// Cuts the file to a length, or fills it with zeros.
    fn resize(&mut self, size: i64) {
        let size = usize::try_from(size).unwrap_or(0);
        self.is_wrong |= self.bytes.resize(size, 0).is_err();
    }
}
