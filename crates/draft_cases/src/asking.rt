//! Asks what statements ask of drafts and of spellings.

use crate::assembling::ask_draft;
use crate::setting::Setting;
use crate::spelling::ask_spelling;
use conformance::{Answer, Outcome, Statement, Subject};
use std::alloc::Global;

impl Subject for Setting {
    fn begin(alloc: Global) -> Self {
        Setting::new(alloc)
    }

    fn perform(&mut self, statement: Statement, out: &mut Answer) -> Outcome {
        if let Some(outcome) = self.file.take(statement) {
            return outcome;
        }
        match statement.word {
            "assemble" | "spell" => ask_draft(self.alloc, self.file.bytes(), statement, out),
            name => ask_spelling(name, statement.rest, out),
        }
    }
}
