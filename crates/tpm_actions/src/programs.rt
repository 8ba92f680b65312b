//! What is in a file that is a module or a source.

ghost use Rattle.std.specs.Prelude.{◌≡◌, false, option_map, IfOk, MatchResult, string_bytes};
ghost use Rattle.command_line.specs.Links.{paths_of};
ghost use Rattle.file_access.specs.Extents.{begins_as_module};
ghost use Rattle.compiler.specs.CodeLines.{AreLinesOf};
ghost use Rattle.tpm_actions.specs.Programs.{lined, TellsModule, TellsProgram, WithholdsProgram, WithholdsRun};
ghost use Rattle.file_access.specs.Storage.{storage_of};

use crate::report::Failure;
use certificate::Module;
use compiler::{code_lines, compile};
use file_access::{FileFailure, Files, begins_as_module};
use file_runs::{Debugged, Debugging, Ending, Tracer, debug};
use machine::Observer;
use source_lines::LineEntry;
use std::alloc::{AllocError, Global};
use std::io::Write;
use waiting_texts::{FaultText, entry_at};

/// The report of the run of a module on the machine that checks each rule. Where a process is at fault, that is why there
/// is none.
fn debug_module<'a, F: Files, O: Observer>(
    alloc: Global,
    module: &Module<'_>,
    lines: &[LineEntry],
    asked: Debugging<'a>,
    observer: O,
    files: &mut F,
) -> Result<String, Failure<'a>>
    ensures { let storage = storage_of F.calls F.Reader.left F.Reader.failed F.Writer.written F.Writer.failed in
        let ins = paths_of asked.entry.inputs in let outs = paths_of asked.entry.outputs in
        let limit = option_map (λ text. text.now) asked.entry.bytes in
        let m = lined «module».now lines.now in
        MatchResult result
        (λ text. TellsModule storage ins outs limit files.old files.new m (string_bytes text))
        (WithholdsRun storage ins outs limit files.old files.new m) }
{
    let Debugged { ending, text } = debug(alloc, module, lines, asked, observer, files)?;
    match ending {
        Ending::Over | Ending::Cut => Ok(text),
        Ending::Faulted(fault) => Err(Failure::Faulted {
            fault: FaultText {
                fault,
                entry: entry_at(module.tables(), fault.offset as usize),
            },
            text,
        }),
    }
}

/// Which lines of a source the code of its module comes from. It is compiled already, so that only memory may run out.
fn lines_of(alloc: Global, source: &[u8]) -> Result<Vec<LineEntry>, AllocError>
    ensures { IfOk result (λ lines. AreLinesOf source.now lines.items) }
{
    match code_lines(alloc, source) {
        Ok(lines) => Ok(lines),
        Err(_) => Err(AllocError),
    }
}

/// The same of a source, whose module is not written.
fn debug_source<'a, F: Files, T: Write + Drop>(
    alloc: Global,
    source: &[u8],
    asked: Debugging<'a>,
    tracer: Tracer<T>,
    files: &mut F,
) -> Result<String, Failure<'a>>
    requires { begins_as_module source.now ≡ false }
    ensures { let storage = storage_of F.calls F.Reader.left F.Reader.failed F.Writer.written F.Writer.failed in
        let ins = paths_of asked.entry.inputs in let outs = paths_of asked.entry.outputs in
        let limit = option_map (λ text. text.now) asked.entry.bytes in
        MatchResult result
        (λ text. TellsProgram storage ins outs limit files.old files.new source.now (string_bytes text))
        (WithholdsProgram storage ins outs limit files.old files.new source.now) }
{
    let file = compile(alloc, source)?;
    let table = lines_of(alloc, source)?;
    let lines = table.as_slice();
    // What is compiled is a module, so it is read unless memory runs out.
    match Module::read(alloc, &file) {
        Ok(module) => {
            let observer = tracer.with_lines(lines);
            debug_module(alloc, &module, lines, asked, observer, files)
        }
        Err(_) => Err(Failure::Stopped(FileFailure::Memory)),
    }
}

/// The report of the run of a module or a source on the machine that checks each rule.
pub fn debug_program<'a, F: Files, T: Write + Drop>(
    alloc: Global,
    bytes: &[u8],
    asked: Debugging<'a>,
    tracer: Tracer<T>,
    files: &mut F,
) -> Result<String, Failure<'a>>
    ensures { let storage = storage_of F.calls F.Reader.left F.Reader.failed F.Writer.written F.Writer.failed in
        let ins = paths_of asked.entry.inputs in let outs = paths_of asked.entry.outputs in
        let limit = option_map (λ text. text.now) asked.entry.bytes in
        MatchResult result
        (λ text. TellsProgram storage ins outs limit files.old files.new bytes.now (string_bytes text))
        (WithholdsProgram storage ins outs limit files.old files.new bytes.now) }
{
    if !begins_as_module(bytes) {
        return debug_source(alloc, bytes, asked, tracer, files);
    }
    let module = Module::read(alloc, bytes)?;
    debug_module(alloc, &module, &[], asked, tracer.with_lines(&[]), files)
}
