//! What is written of a source, where its lines are no program, where that breaks a rule of usage, and else of its lines.

ghost use Rattle.std.specs.Prelude.{IfOk, IfSome, string_bytes};
ghost use Rattle.program_walk.specs.Listings.{IsListing};
ghost use Rattle.source_reasons.specs.SourceReasons.{IsParseReason, IsSomeReasonOf, IsUsageReason, IsUsageText};

use occam_layout::{Line, lines};
use occam_parser::{ParseFault, Program, parse};
use program_walk::known_lines;
use reason_texts::{line_of, parse_text};
use std::alloc::{AllocError, Global};
use usage_checks::UsageFault;
use usage_reasons::{Reason, usage_reason};
use usage_texts::usage_text;

/// What is written of a source whose lines are no program. Where memory runs out for the lines, there is nothing.
pub fn parse_reason_text(
    alloc: Global,
    path: &str,
    source: &[u8],
    fault: ParseFault,
) -> Result<Option<String>, AllocError>
    ensures { IfOk result (λ found.
        IfSome found (λ text. IsParseReason path.now source.now fault (string_bytes text))) }
{
    match lines(alloc, source) {
        Ok(lines) => parse_text(alloc, path, source, &lines, fault),
        Err(_) => Ok(None),
    }
}

/// Why a program with these lines breaks a rule of usage. A program without items has no line at fault.
fn reason_on<'a>(
    alloc: Global,
    lines: &[Line<'a>],
    program: &Program<'a>,
    fault: UsageFault,
) -> Result<Option<Reason<'a>>, AllocError>
    ensures { IfOk result (λ found. IfSome found (IsSomeReasonOf fault)) }
{
    match line_of(fault.line, lines) {
        Some(line) => usage_reason(alloc, &line.tokens, program, fault),
        None => usage_reason(alloc, &[], program, fault),
    }
}

/// What is written of the lines of a program that breaks a rule of usage.
fn usage_text_of_lines(
    alloc: Global,
    path: &str,
    source: &[u8],
    lines: &[Line<'_>],
    fault: UsageFault,
) -> Result<Option<String>, AllocError>
    ensures { IfOk result (λ found.
        IfSome found (λ text. IsUsageText path.now source.now lines.now fault (string_bytes text))) }
{
    let Ok(program) = parse(alloc, lines) else {
        return Err(AllocError);
    };
    match reason_on(alloc, lines, &program, fault)? {
        Some(reason) => usage_text(alloc, path, source, lines, &reason, fault.number),
        None => Ok(None),
    }
}

/// What is written of a program that breaks a rule of usage. Its lines were read before, so that only memory may run out.
pub fn usage_reason_text(
    alloc: Global,
    path: &str,
    source: &[u8],
    fault: UsageFault,
) -> Result<Option<String>, AllocError>
    ensures { IfOk result (λ found.
        IfSome found (λ text. IsUsageReason path.now source.now fault (string_bytes text))) }
{
    match lines(alloc, source) {
        Ok(lines) => usage_text_of_lines(alloc, path, source, &lines, fault),
        Err(_) => Err(AllocError),
    }
}

/// The lines of a program up to one, with what is known on each. They were read before, so that only memory may run out.
pub fn listed(alloc: Global, source: &[u8], last: u32) -> Result<String, AllocError>
    ensures { IfOk result (λ text. IsListing source.now last (string_bytes text)) }
{
    let Ok(lines) = lines(alloc, source) else {
        return Err(AllocError);
    };
    match parse(alloc, &lines) {
        Ok(program) => known_lines(alloc, source, &lines, &program, last),
        Err(_) => Err(AllocError),
    }
}
