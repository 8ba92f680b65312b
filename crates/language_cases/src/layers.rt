//! Runs the layers on a source, as statements ask.

use crate::tokens::write_lines;
use crate::trees::write_items;
use conformance::{Answer, Outcome, Statement, judged, unindented};
use occam_layout::{Line, lines};
use occam_parser::{Item, Program, parse};
use std::alloc::Global;
use usage_checks::check;

/// Whether a text has these lines.
pub(crate) fn has_lines(text: &str, block: &[&str]) -> bool {
    let mut lines = block.iter();
    for found in text.lines() {
        match lines.next() {
            Some(line) if unindented(line) == found => {}
            _ => return false,
        }
    }
    lines.next().is_none()
}

/// What comes of the lines of a source: how many there are, or the tokens of each.
fn judge_lines(found: &[Line], statement: Statement, out: &mut Answer) -> Outcome {
    if statement.block.is_empty() {
        out.put("ok ");
        out.great(found.len() as u64);
        return judged(out, statement.rest);
    }
    write_lines(out, found);
    Outcome::of(has_lines(out.as_str(), statement.block))
}

/// What comes of the items of a program: `ok`, or `same` if they are printed back as their source, or their lines as
/// they are printed back.
fn judge_items(items: &[Item], source: &[u8], statement: Statement, out: &mut Answer) -> Outcome {
    write_items(out, items);
    match statement.rest {
        "ok" => Outcome::Held,
        "same" => Outcome::of(out.as_str().as_bytes() == source),
        _ => Outcome::of(has_lines(out.as_str(), statement.block)),
    }
}

/// Whether a program breaks no usage rule: `ok`, or the rule and its line.
fn judge_usage(alloc: Global, program: Program, statement: Statement, out: &mut Answer) -> Outcome {
    match check(alloc, program) {
        Ok(_) => out.put("ok"),
        Err(fault) => out.fault("O", fault.number, u64::from(fault.line)),
    }
    judged(out, statement.rest)
}

/// The program of the lines of a source, or the fault.
fn judge_program(
    alloc: Global,
    rows: &[Line],
    source: &[u8],
    statement: Statement,
    out: &mut Answer,
) -> Outcome {
    match parse(alloc, rows) {
        Ok(program) if statement.word == "check" => judge_usage(alloc, program, statement, out),
        Ok(program) => judge_items(program.items(), source, statement, out),
        Err(fault) => {
            out.fault("O", fault.number, u64::from(fault.line));
            judged(out, statement.rest)
        }
    }
}

/// What is asked of the lines of a source, of its program, or of the usage rules.
pub(crate) fn ask_source(
    alloc: Global,
    source: &[u8],
    statement: Statement,
    out: &mut Answer,
) -> Outcome {
    match lines(alloc, source) {
        Ok(rows) if statement.word == "lines" => judge_lines(&rows, statement, out),
        Ok(rows) => judge_program(alloc, &rows, source, statement, out),
        Err(fault) => {
            out.fault("O", fault.number, u64::from(fault.line));
            judged(out, statement.rest)
        }
    }
}
