//! Calls `generate` alone, on the program of a source.

use crate::setting::Setting;
use compiler::{CompileFault, generate};
use conformance::{Answer, Outcome, judged};
use occam_layout::lines;
use occam_parser::parse;
use std::alloc::Global;
use usage_checks::check;

/// How long the module is that `generate` makes of the program of a source.
fn length(alloc: Global, source: &[u8]) -> Result<usize, CompileFault> {
    let rows = lines(alloc, source)?;
    let program = parse(alloc, &rows)?;
    let checked = check(alloc, program)?;
    Ok(generate(alloc, &checked)?.len())
}

/// Judges `NAME LENGTH`, or `NAME FAULT`: what comes of the source of this name.
pub(crate) fn judge_generated(setting: &Setting, rest: &str, out: &mut Answer) -> Outcome {
    let (name, expected) = rest.split_once(' ').unwrap_or((rest, ""));
    let Some(source) = setting.bytes_of(name) else {
        return Outcome::Unreadable;
    };
    match length(setting.alloc, source) {
        Ok(length) => out.great(length as u64),
        Err(fault) => out.debug(&fault),
    }
    judged(out, expected)
}
