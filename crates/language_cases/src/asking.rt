//! Takes the statements of cases: those that ask go to what they ask about.

use crate::layers::ask_source;
use crate::modules::{ask_compiler, ask_module};
use crate::reasons::{ask_program, ask_reason};
use crate::setting::Setting;
use conformance::{Answer, Outcome, Statement, Subject};
use std::alloc::Global;

/// How a file says a statement within a comment of occam.
const SPOKEN: &str = "-->";

/// The statement within a comment of occam, or else the statement itself.
fn spoken<'l, 't>(statement: Statement<'l, 't>) -> Statement<'l, 't> {
    if statement.word != SPOKEN {
        return statement;
    }
    let (word, rest) = statement
        .rest
        .split_once(' ')
        .unwrap_or((statement.rest, ""));
    Statement {
        line: statement.line,
        word,
        rest,
        block: &[],
    }
}

/// What is asked of the source, or of its module.
fn ask(setting: &mut Setting, statement: Statement, out: &mut Answer) -> Outcome {
    let (alloc, source) = (setting.alloc, setting.source.as_bytes());
    match statement.word {
        "lines" | "parse" | "check" => ask_source(alloc, source, statement, out),
        "reason" => ask_reason(alloc, source, statement, out),
        "limit" => ask_program(alloc, source, statement, None, out),
        "known" => match statement.rest.parse() {
            Ok(last) => ask_program(alloc, source, statement, Some(last), out),
            Err(_) => Outcome::Unreadable,
        },
        "compiled" | "refused" => ask_compiler(setting, statement, out),
        "budget" | "run" => ask_module(setting, statement, out),
        _ => Outcome::Unreadable,
    }
}

impl Subject for Setting {
    fn begin(alloc: Global) -> Self {
        Setting::new(alloc)
    }

    fn perform(&mut self, statement: Statement, out: &mut Answer) -> Outcome {
        let statement = spoken(statement);
        match self.take(statement) {
            Some(outcome) => outcome,
            None => ask(self, statement, out),
        }
    }
}
