//! What the statements before a question say.

use crate::given::Given;
use crate::source::Source;
use crate::values::bytes_of;
use conformance::{Outcome, Statement};
use std::alloc::Global;

/// What is asked about: a source, its module, and what the links are given in the next run.
#[derive(Drop)]
pub struct Setting {
    pub(crate) alloc: Global,
    pub(crate) source: Source,
    /// The file of the module, empty before the source is compiled and where it is refused.
    pub(crate) module: Vec<u8>,
    pub(crate) given: Given,
}

impl Setting {
    pub(crate) fn new(alloc: Global) -> Self {
        Setting {
            alloc,
            source: Source::new(alloc),
            module: Vec::new(alloc),
            given: Given::new(),
        }
    }

    /// Takes a statement that asks nothing; any other is left.
    pub(crate) fn take(&mut self, statement: Statement) -> Option<Outcome> {
        if let Some(is_read) = self.source.take(statement) {
            self.module.clear();
            return Some(Outcome::set(is_read));
        }
        match statement.word {
            "--" => Some(Outcome::Set),
            "in0" | "in1" | "in2" | "in3" | "out0" | "out1" | "out2" | "out3" => {
                Some(Outcome::set(self.give(statement.word, statement.rest)))
            }
            _ => None,
        }
    }

    fn give(&mut self, name: &str, said: &str) -> bool {
        match bytes_of(self.alloc, said) {
            Some(bytes) => self.given.give(name, bytes),
            None => false,
        }
    }
}
