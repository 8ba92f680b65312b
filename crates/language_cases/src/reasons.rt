//! What is written of a source that is refused or known, as statements ask.

use crate::layers::has_lines;
use compiler::exceeded;
use conformance::{Answer, Outcome, Statement, judged};
use occam_layout::{Line, lines};
use occam_parser::{Program, parse};
use program_walk::{known_lines, limit_text};
use reason_texts::{layout_text, line_of, parse_text};
use std::alloc::{AllocError, Global};
use usage_checks::{UsageFault, check};
use usage_reasons::{Reason, usage_reason};
use usage_texts::usage_text;

/// The path of each source.
const PATH: &str = "a.occ";

/// Compares what is written with the lines below a statement, or with `none` on it.
fn judge_text(text: Option<String>, statement: Statement, out: &mut Answer) -> Outcome {
    match text {
        Some(text) => {
            out.put(&text);
            Outcome::of(has_lines(&text, statement.block))
        }
        None => {
            out.put("none");
            judged(out, statement.rest)
        }
    }
}

/// Why a program with these lines breaks a rule of usage.
fn reason_on<'a>(
    alloc: Global,
    lines: &[Line<'a>],
    program: &Program<'a>,
    fault: UsageFault,
) -> Result<Option<Reason<'a>>, AllocError> {
    match line_of(fault.line, lines) {
        Some(line) => usage_reason(alloc, &line.tokens, program, fault),
        None => usage_reason(alloc, &[], program, fault),
    }
}

/// What is written of the lines of a program that breaks a rule of usage.
fn text_of_fault(
    alloc: Global,
    source: &[u8],
    lines: &[Line<'_>],
    fault: UsageFault,
) -> Result<Option<String>, AllocError> {
    let Ok(program) = parse(alloc, lines) else {
        return Err(AllocError);
    };
    match reason_on(alloc, lines, &program, fault)? {
        Some(reason) => usage_text(alloc, PATH, source, lines, &reason, fault.number),
        None => Ok(None),
    }
}

/// What is written of the lines of a program, if it breaks a rule of usage.
fn text_of_program(
    alloc: Global,
    source: &[u8],
    lines: &[Line<'_>],
    program: Program<'_>,
) -> Result<Option<String>, AllocError> {
    match check(alloc, program) {
        Ok(_) => Ok(None),
        Err(fault) => text_of_fault(alloc, source, lines, fault),
    }
}

/// What is written of the lines of a source.
fn text_of_lines(
    alloc: Global,
    source: &[u8],
    lines: &[Line<'_>],
) -> Result<Option<String>, AllocError> {
    match parse(alloc, lines) {
        Ok(program) => text_of_program(alloc, source, lines, program),
        Err(fault) => parse_text(alloc, PATH, source, lines, fault),
    }
}

/// What is written of a source.
pub(crate) fn ask_reason(
    alloc: Global,
    source: &[u8],
    statement: Statement,
    out: &mut Answer,
) -> Outcome {
    let text = match lines(alloc, source) {
        Ok(lines) => text_of_lines(alloc, source, &lines),
        Err(fault) => layout_text(alloc, PATH, source, fault),
    };
    match text {
        Ok(text) => judge_text(text, statement, out),
        Err(_) => Outcome::OutOfMemory,
    }
}

/// What is written of a program that is above a limit.
fn text_of_limit(
    alloc: Global,
    source: &[u8],
    lines: &[Line<'_>],
    program: Program<'_>,
) -> Result<String, AllocError> {
    let excess = exceeded(alloc, program)?;
    limit_text(alloc, PATH, source, lines, excess)
}

/// What is written of a source that is a program.
pub(crate) fn ask_program(
    alloc: Global,
    source: &[u8],
    statement: Statement,
    last: Option<u32>,
    out: &mut Answer,
) -> Outcome {
    let Ok(lines) = lines(alloc, source) else {
        return Outcome::Unreadable;
    };
    let Ok(program) = parse(alloc, &lines) else {
        return Outcome::Unreadable;
    };
    let text = match last {
        Some(last) => known_lines(alloc, source, &lines, &program, last),
        None => text_of_limit(alloc, source, &lines, program),
    };
    match text {
        Ok(text) => judge_text(Some(text), statement, out),
        Err(_) => Outcome::OutOfMemory,
    }
}
