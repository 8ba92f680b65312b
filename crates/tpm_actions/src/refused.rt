//! A source that becomes no module, and what is written of it.

ghost use Rattle.std.specs.Prelude.{◌≡◌, IfOk, IfSome, string_bytes};
ghost use Rattle.program_walk.specs.LimitTexts.{IsLimitText};
ghost use Rattle.compiler.specs.Compiled.{IsRefusedFor};
ghost use Rattle.tpm_actions.specs.Compiling.{IsGenerationReason, IsLimitReason, IsReason, IsRefusedAs, mistake_text};

use compiler::{CompileFault, exceeded};
use module_builder::GenFault;
use occam_layout::{Line, lines};
use occam_parser::parse;
use program_walk::limit_text;
use reason_texts::layout_text;
use source_reasons::{parse_reason_text, usage_reason_text};
use std::alloc::{AllocError, Global};
use std::fmt;

/// Why a source becomes no module.
#[derive(Drop)]
pub struct RefusedSource {
    /// The fault.
    pub fault: CompileFault,
    /// Where and why in the source: lines that are written before the fault, if there are such and memory sufficed.
    pub reason: Option<String>,
}

impl fmt::Display for RefusedSource {
    fn fmt<W: fmt::Write>(&self, f: &mut fmt::Formatter<W>) -> fmt::Result {
        if let Some(reason) = &self.reason {
            f.write_str(reason)?;
        }
        write!(f, "refused {}", self.fault)
    }
}

impl fmt::Debug for RefusedSource {
    fn fmt<W: fmt::Write>(&self, f: &mut fmt::Formatter<W>) -> fmt::Result {
        write!(f, "{self}")
    }
}

/// What is written of the lines of a program that is above a limit.
fn limit_text_of_lines(
    alloc: Global,
    path: &str,
    source: &[u8],
    lines: &[Line<'_>],
) -> Result<Option<String>, AllocError>
    ensures { IfOk result (λ found. IfSome found (λ text. IsLimitText path.now source.now lines.now (string_bytes text))) }
{
    let Ok(program) = parse(alloc, lines) else {
        return Err(AllocError);
    };
    let excess = exceeded(alloc, program)?;
    let text = limit_text(alloc, path, source, lines, excess)?;
    Ok(Some(text))
}

/// What is written of a program that is above a limit. Its lines were read before, so that only memory may run out.
fn limit_reason_text(alloc: Global, path: &str, source: &[u8]) -> Result<Option<String>, AllocError>
    ensures { IfOk result (λ found. IfSome found (λ text. IsLimitReason path.now source.now (string_bytes text))) }
{
    match lines(alloc, source) {
        Ok(lines) => limit_text_of_lines(alloc, path, source, &lines),
        Err(_) => Err(AllocError),
    }
}

/// What is written of a program that becomes no module, since the verifier would refuse it.
fn mistake_text(alloc: Global, path: &str) -> Result<Option<String>, AllocError>
    ensures { IfOk result (λ found. IfSome found (λ text. string_bytes text ≡ mistake_text path.now)) }
{
    let text = format!(in alloc;
        "{path}: this is a mistake of the compiler; please report the source (G3)\n"
    )?;
    Ok(Some(text))
}

/// What is written of a program that becomes no module.
fn generation_reason_text(
    alloc: Global,
    path: &str,
    source: &[u8],
    fault: GenFault,
) -> Result<Option<String>, AllocError>
    ensures { IfOk result (λ found.
        IfSome found (λ text. IsGenerationReason path.now source.now fault (string_bytes text))) }
{
    match fault {
        GenFault::Limit => limit_reason_text(alloc, path, source),
        GenFault::Invalid => mistake_text(alloc, path),
        GenFault::Memory => Ok(None),
    }
}

/// What is written of a source that is refused for this fault. The path is that of the source.
pub(crate) fn reason_text(
    alloc: Global,
    path: &str,
    source: &[u8],
    fault: CompileFault,
) -> Result<Option<String>, AllocError>
    ensures { IfOk result (λ found. IfSome found (λ text. IsReason path.now source.now fault (string_bytes text))) }
{
    match fault {
        CompileFault::Layout(fault) => layout_text(alloc, path, source, fault),
        CompileFault::Syntax(fault) => parse_reason_text(alloc, path, source, fault),
        CompileFault::Usage(fault) => usage_reason_text(alloc, path, source, fault),
        CompileFault::Generation(fault) => generation_reason_text(alloc, path, source, fault),
    }
}

/// A source that is refused for this fault, with what is written of it. Where memory runs out for that, there is the
/// fault alone.
pub fn refused_source(
    alloc: Global,
    path: &str,
    source: &[u8],
    fault: CompileFault,
) -> RefusedSource
    requires { IsRefusedFor source.now fault }
    ensures { IsRefusedAs path.now source.now result }
{
    match reason_text(alloc, path, source, fault) {
        Ok(reason) => RefusedSource { fault, reason },
        Err(_) => RefusedSource {
            fault,
            reason: None,
        },
    }
}
