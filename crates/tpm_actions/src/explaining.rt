//! The explanation of the verdict on a module, of why a file is none, or of a source.

ghost use Rattle.std.specs.Prelude.{◌≡◌, false, IfOk, MatchResult, string_bytes};
ghost use Rattle.compiler.specs.Compiled.{IsRefusedFor};
ghost use Rattle.file_access.specs.Extents.{begins_as_module};
ghost use Rattle.tpm_actions.specs.Explaining.{IsExplained, malformed_text, IsUnread, IsSourceExplained};
ghost use Rattle.tpm_actions.specs.Explaining.{WithholdsExplanation, EndsAsCorrect, EndsWithReason, is_ended, line_count, WithholdsSource};
ghost use Rattle.tpm_actions.specs.Explaining.{Lists, last_line};

use crate::refused::{RefusedSource, reason_text};
use crate::report::{Failure, RefusedFor};
use certificate::Module;
use command_line::Question;
use compiler::{CompileFault, compile, ends_in};
use explanations::{Explained, explanation};
use file_faults::push_file_fault;
use module_builder::GenFault;
use module_format::{FormatFault, MEMORY};
use source_reasons::listed;
use std::alloc::{AllocError, Global};
use verifier::{Refusal, Stop, verdict_is_right};

/// The explanation of the verdict on a module: by itself if the module is certified, else with the refusal.
pub fn explain<'a>(alloc: Global, module: &Module<'_>) -> Result<String, Failure<'a>>
    ensures { MatchResult result (λ text. IsExplained «module».now (string_bytes text))
        (WithholdsExplanation «module».now) }
{
    verdict_is_right();
    let Explained { text, judged } = explanation(alloc, module)?;
    match judged {
        Ok(()) => Ok(text),
        Err(breach) => Err(Failure::Explained {
            refusal: RefusedFor::Uncertified(Refusal::from(Stop::Broken(breach))),
            text,
        }),
    }
}

/// Where and why a file is no module file: one line.
fn malformed_text(alloc: Global, bytes: &[u8], fault: FormatFault) -> Result<String, AllocError>
    ensures { IfOk result (λ text. string_bytes text ≡ malformed_text bytes.now fault) }
{
    let mut text = format!(in alloc; "refused C{} at {}: ", fault.number, fault.offset)?;
    push_file_fault(&mut text, bytes, fault)?;
    text.push_str("\n")?;
    Ok(text)
}

/// Why nothing is reported of a file that is no module file. Where memory runs out for an explanation, there is the
/// fault alone.
pub fn malformed<'a>(
    alloc: Global,
    bytes: &[u8],
    question: Question<'_>,
    fault: FormatFault,
) -> Failure<'a>
    ensures { IsUnread bytes.now question.entry fault result }
{
    match question {
        Question::Explanation if fault.number != MEMORY => match malformed_text(
            alloc, bytes, fault,
        ) {
            Ok(text) => Failure::Explained {
                refusal: RefusedFor::Malformed(fault),
                text,
            },
            Err(_) => Failure::Malformed(fault),
        },
        Question::Explanation | Question::Verdict | Question::Run { .. } | Question::Listing =>
            Failure::Malformed(fault),
    }
}

/// Whether no line is begun and not ended.
fn is_ended(source: &[u8]) -> bool
    ensures { result ≡ is_ended source.now }
{
    source.is_empty() || source.ends_with(b"\n")
}

/// How many lines a source has. The last one may lack its line feed.
fn line_count(source: &[u8]) -> u128
    ensures { result ≡ line_count source.now }
{
    let ends = ends_in(source) as u128;
    if is_ended(source) { ends } else { ends + 1 }
}

/// As many lines as a source has, as far as numbers of lines go.
fn last_line(source: &[u8]) -> u32
    ensures { result ≡ last_line source.now }
{
    line_count(source).min(u128::from(u32::MAX)) as u32
}

/// The lines of a source that are listed before its fault is told: none if they are no program, or memory ran out.
fn listed_before(alloc: Global, source: &[u8], fault: CompileFault) -> Result<String, AllocError>
    ensures { IfOk result (λ text. Lists source.now fault (string_bytes text)) }
{
    match fault {
        CompileFault::Layout(_)
        | CompileFault::Syntax(_)
        | CompileFault::Generation(GenFault::Memory) => Ok(String::new(alloc)),
        CompileFault::Usage(fault) => listed(alloc, source, fault.line),
        CompileFault::Generation(GenFault::Limit | GenFault::Invalid) => {
            listed(alloc, source, last_line(source))
        }
    }
}

/// The explanation of a source that becomes a module.
fn correct_text(alloc: Global, source: &[u8]) -> Result<String, AllocError>
    ensures { IfOk result (λ text. EndsAsCorrect source.now (string_bytes text)) }
{
    let mut text = listed(alloc, source, last_line(source))?;
    writeln!(text, "correct, {} lines", line_count(source))?;
    Ok(text)
}

/// The explanation of a source that is refused for this fault.
fn refused_text(
    alloc: Global,
    path: &str,
    source: &[u8],
    fault: CompileFault,
) -> Result<String, AllocError>
    ensures { IfOk result (λ text. EndsWithReason path.now source.now fault (string_bytes text)) }
{
    let mut text = listed_before(alloc, source, fault)?;
    if let Some(reason) = reason_text(alloc, path, source, fault)? {
        text.push_str(&reason)?;
    }
    Ok(text)
}

/// The same, or the fault alone where memory runs out for it.
fn explain_fault<'a>(alloc: Global, path: &str, source: &[u8], fault: CompileFault) -> Failure<'a>
    requires source { begins_as_module source.now ≡ false }
    requires refused { IsRefusedFor source.now fault }
    ensures { WithholdsSource path.now source.now result }
{
    match refused_text(alloc, path, source, fault) {
        Ok(text) => Failure::Explained {
            refusal: RefusedFor::Uncompiled(fault),
            text,
        },
        Err(_) => Failure::Uncompiled(RefusedSource {
            fault,
            reason: None,
        }),
    }
}

/// The explanation of a source: each line with what is known there of the scalars that it names, and that it is correct,
/// or up to its fault, with the refusal.
pub fn explain_source<'a>(alloc: Global, path: &str, source: &[u8]) -> Result<String, Failure<'a>>
    requires { begins_as_module source.now ≡ false }
    ensures { MatchResult result (λ text. IsSourceExplained source.now (string_bytes text))
        (WithholdsSource path.now source.now) }
{
    match compile(alloc, source) {
        Ok(_) => Ok(correct_text(alloc, source)?),
        Err(fault) => Err(explain_fault(alloc, path, source, fault)),
    }
}
