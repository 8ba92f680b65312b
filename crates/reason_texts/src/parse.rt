//! Why lines are no program.

ghost use Rattle.std.specs.Prelude.{◌≡◌, IfSome, List};
ghost use Rattle.occam_parser.specs.Terminals.{terminals_of};
ghost use Rattle.occam_parser.specs.Blocks.{row_of, rows_of};
ghost use Rattle.occam_parser.specs.declared.fault.ParseFault.{ParseFault};
ghost use Rattle.reason_texts.specs.ParseReasons.{number_of_lack, number_of, form_reason, row_reason, of_number};
ghost use Rattle.reason_texts.specs.ParseReasons.{parse_reason};

use crate::context::{Context, Sought, context_of, last_that};
use crate::forms::{Form, past_form};
use crate::stuck::{Lack, Stuck};
use occam_layout::Line;
use occam_parser::{MAX_LEVEL, MISSING_BODY, MIXTURE, NESTING, ParseFault, UNEXPECTED_TOKEN};

/// Why lines are no program, by the line at fault.
#[derive(Clone, Copy)]
pub(crate) enum ParseReason {
    /// The line has to be of this form, and goes on otherwise at a place.
    Form { form: Form, stuck: Stuck },
    /// The line is below another one, with this number, which nothing is below.
    NothingBelow { above: u32 },
    /// The line is below the line with the number `head`, and what may be there once begins on the line `first`.
    OnlyOne { head: u32, first: u32 },
    /// The line is the last one, and the `:` that ends its procedure is missing.
    MissingColon,
    /// What has to be below the line is missing.
    MissingBody,
    /// The line is deeper than lines may be.
    DeepLine,
}

/// The number of the fault that is reported where something lacks.
fn number_of_lack(lack: Lack) -> u8
    ensures { result ≡ number_of_lack lack }
{
    match lack {
        Lack::Token(_) => UNEXPECTED_TOKEN,
        Lack::Nesting => NESTING,
        Lack::Mixture => MIXTURE,
    }
}

/// The number of the fault whose reason it is.
fn number_of(reason: ParseReason) -> u8
    ensures { result ≡ number_of reason }
{
    match reason {
        ParseReason::Form { stuck, .. } => number_of_lack(stuck.lack),
        ParseReason::NothingBelow { .. } | ParseReason::OnlyOne { .. } => UNEXPECTED_TOKEN,
        ParseReason::MissingColon => UNEXPECTED_TOKEN,
        ParseReason::MissingBody => MISSING_BODY,
        ParseReason::DeepLine => NESTING,
    }
}

/// Where a line is not of the form that it has to be of, or that a procedure has no end if it is the last one.
fn form_reason(form: Form, line: &Line<'_>, is_last: bool) -> Option<ParseReason>
    ensures { result ≡ form_reason form (row_of line.now) is_last }
{
    match past_form(form, &line.tokens) {
        Err(stuck) => Some(ParseReason::Form { form, stuck }),
        Ok(_) if is_last => Some(ParseReason::MissingColon),
        Ok(_) => None,
    }
}

/// Why a line with these lines above it is at fault, if it is.
fn line_reason(above: &[Line<'_>], line: &Line<'_>, is_last: bool) -> Option<ParseReason>
    ensures { result ≡ row_reason (rows_of above.now) (row_of line.now) is_last }
{
    if line.level > MAX_LEVEL {
        return Some(ParseReason::DeepLine);
    }
    match context_of(line.level, above) {
        Context::Wants(form) => form_reason(form, line, is_last),
        Context::NothingBelow(above) => Some(ParseReason::NothingBelow { above }),
        Context::OnlyOne { head, first } => Some(ParseReason::OnlyOne { head, first }),
    }
}

/// A reason, if it is of this number.
fn of_number(number: u8, reason: Option<ParseReason>) -> Option<ParseReason>
    ensures exact { result ≡ of_number number reason }
    ensures number { IfSome result (λ reason. number_of reason ≡ number) }
{
    match reason {
        Some(reason) if number_of(reason) == number => Some(reason),
        _ => None,
    }
}

/// Why lines are no program, where [`parse`](occam_parser::parse) reports this fault.
///
/// A missing body is its own reason. Of another fault there is none if no line has its number, as where memory ran out,
/// or if that line is not at fault in this way.
#[tactic(auto, unfolding(crate::specs::ParseReasons::parse_reason))]
pub(crate) fn parse_reason(lines: &[Line<'_>], fault: ParseFault) -> Option<ParseReason>
    // What is wrong with the line at fault.
    ensures exact { result ≡ parse_reason (rows_of lines.now) fault }
    // The reason is of the fault's number.
    ensures number { IfSome result (λ reason. number_of reason ≡ fault.number) }
{
    if fault.number == MISSING_BODY {
        return Some(ParseReason::MissingBody);
    }
    let (line, above) = last_that(Sought::Number(fault.line), lines)?;
    let reason = line_reason(above, line, above.len() + 1 == lines.len());
    of_number(fault.number, reason)
}
