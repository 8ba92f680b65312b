//! The whole program over files and streams that it is handed.

ghost use Rattle.std.specs.Prelude.{◌≡◌, ℕ, true, false, List, MatchResult, string_bytes, option_map};
ghost use Rattle.command_line.specs.Words.{words_of};
ghost use Rattle.command_line.specs.Links.{paths_of};
ghost use Rattle.command_line.specs.Asked.{asked_about, asked_of, path_of, runs};
ghost use Rattle.file_access.specs.Extents.{begins_as_module};
ghost use Rattle.tpm_actions.specs.EnoughRead.{extent_of};
ghost use Rattle.tpm_actions.specs.Texts.{misuse_status, status_of};
ghost use Rattle.tpm_actions.specs.Acting.{Acts, Answers, HasRun, IsAccepted, IsTold, IsHindered, Performs, Tells};
ghost use Rattle.tpm_actions.specs.Acting.{TellsOf, WithholdsOf, WithholdsVerdict};
ghost use Rattle.tpm_actions.specs.Streams.{has_stream, is_stream_given, sends_out, shown_of};
ghost use Rattle.file_access.specs.Storage.{storage_of};

use crate::compiling::compile_to_file;
use crate::explaining::{explain, explain_source, malformed};
use crate::programs::debug_program;
use crate::report::{DONE, Failure, MISUSED, Report, STARVED};
use crate::telling::tell;
use crate::upgrading::upgrade_to_file;
use certificate::Module;
use command_line::{Line, LineFault, LinkPaths, Question, is_stream, line};
use file_access::{Extent, FileFailure, FileFault, Files, begins_as_module};
use file_runs::{Debugging, Tracer, run_report, run_with_files};
use listings::listing;
use std::alloc::Global;
use std::io::Write;
use verifier::verify;

/// The report of the verdict on a module.
fn verdict<'a>(alloc: Global, module: &Module<'_>) -> Result<String, Failure<'a>>
    ensures { MatchResult result (λ text. IsAccepted «module».now (string_bytes text)) (WithholdsVerdict «module».now) }
{
    verify(alloc, module)?;
    let report = Report::Accepted {
        budget: module.tables().budget,
    };
    Ok(format!(in alloc; "{report}\n")?)
}

/// The report of the run of a module with files on its links.
fn outcome<'a, F: Files>(
    alloc: Global,
    module: &Module<'_>,
    inputs: LinkPaths<'a>,
    outputs: LinkPaths<'a>,
    files: &mut F,
) -> Result<String, Failure<'a>>
    ensures { let storage = storage_of F.calls F.Reader.left F.Reader.failed F.Writer.written F.Writer.failed in
        let ins = paths_of inputs.entry in let outs = paths_of outputs.entry in
        MatchResult result
        (λ text. HasRun storage «module».now ins outs files.old files.new (string_bytes text))
        (λ failure. (path : List ℕ) → WithholdsOf storage «module».now
        (runs path ins outs) files.old files.new failure) }
{
    let verified = verify(alloc, module)?;
    let report = run_with_files(alloc, &verified, inputs, outputs, files)?;
    Ok(run_report(alloc, &report, inputs, outputs)?)
}

/// The report on a module, wherever its file is.
fn reply<'a, F: Files>(
    alloc: Global,
    module: &Module<'_>,
    question: Question<'a>,
    files: &mut F,
) -> Result<String, Failure<'a>>
    ensures { let storage = storage_of F.calls F.Reader.left F.Reader.failed F.Writer.written F.Writer.failed in
        (path : List ℕ) → MatchResult result
        (λ text. TellsOf storage «module».now (asked_about path question.entry) files.old files.new (string_bytes text))
        (WithholdsOf storage «module».now (asked_about path question.entry) files.old files.new) }
{
    match question {
        Question::Verdict => verdict(alloc, module),
        Question::Run { inputs, outputs } => outcome(alloc, module, inputs, outputs, files),
        Question::Listing => Ok(listing(alloc, module)?),
        Question::Explanation => explain(alloc, module),
    }
}

/// Whether it is a source of which an explanation is asked.
fn is_source_explained(bytes: &[u8], question: Question<'_>) -> bool
    ensures { result ≡ true
        → (question.entry ≡ Question.Explanation) × (begins_as_module bytes.now ≡ false) }
{
    match question {
        Question::Explanation => !begins_as_module(bytes),
        Question::Verdict | Question::Run { .. } | Question::Listing => false,
    }
}

/// The report on a module, or the explanation of a source, in a file of this path.
fn ask<'a, F: Files>(
    alloc: Global,
    path: &str,
    bytes: &[u8],
    question: Question<'a>,
    files: &mut F,
) -> Result<String, Failure<'a>>
    ensures { let storage = storage_of F.calls F.Reader.left F.Reader.failed F.Writer.written F.Writer.failed in
        let asked = asked_about path.now question.entry in
        MatchResult result
        (λ text. IsTold storage bytes.now asked files.old files.new (string_bytes text))
        (IsHindered storage bytes.now asked files.old files.new) }
{
    if is_source_explained(bytes, question) {
        return explain_source(alloc, path, bytes);
    }
    match Module::read(alloc, bytes) {
        Ok(module) => reply(alloc, &module, question, files),
        Err(fault) => Err(malformed(alloc, bytes, question, fault)),
    }
}

/// The report on the source or the module in these bytes, as text. A run that is traced is traced to the last one.
fn judge<'a, F: Files, T: Write + Drop>(
    alloc: Global,
    bytes: &[u8],
    line: Line<'a>,
    files: &mut F,
    trace: T,
) -> Result<String, Failure<'a>>
    ensures { let storage = storage_of F.calls F.Reader.left F.Reader.failed F.Writer.written F.Writer.failed in
        let asked = asked_of line.entry in
        MatchResult result
        (λ text. IsTold storage bytes.now asked files.old files.new (string_bytes text))
        (IsHindered storage bytes.now asked files.old files.new) }
{
    match line {
        Line::Compile { source, out } => compile_to_file(alloc, source, bytes, out, files),
        Line::Upgrade { out, .. } => upgrade_to_file(alloc, bytes, out, files),
        Line::Debug {
            inputs,
            outputs,
            bytes: limit,
            trace: is_traced,
            ..
        } => {
            let asked = Debugging {
                inputs,
                outputs,
                bytes: limit,
            };
            debug_program(
                alloc,
                bytes,
                asked,
                Tracer::new(alloc, is_traced, trace),
                files,
            )
        }
        Line::Ask { path, question } => ask(alloc, path, bytes, question, files),
    }
}

/// The path of the file that is read first.
fn read_path<'a>(line: Line<'a>) -> &'a str
    ensures { result.now ≡ path_of (asked_of line.entry) }
{
    match line {
        Line::Compile { source, .. } => source,
        Line::Upgrade { path, .. } | Line::Debug { path, .. } | Line::Ask { path, .. } => path,
    }
}

/// How far that file is read.
fn read_extent(line: Line) -> Extent
    ensures { result ≡ extent_of (asked_of line.entry) }
{
    match line {
        Line::Compile { .. } => Extent::Source,
        Line::Debug { .. }
        | Line::Ask {
            question: Question::Explanation,
            ..
        } => Extent::Either,
        Line::Upgrade { .. } | Line::Ask { .. } => Extent::Module,
    }
}

/// The report on the source or the module in the file.
fn answer<'a, F: Files, T: Write + Drop>(
    alloc: Global,
    line: Line<'a>,
    files: &mut F,
    trace: T,
) -> Result<String, Failure<'a>>
    ensures { let storage = storage_of F.calls F.Reader.left F.Reader.failed F.Writer.written F.Writer.failed in
        let answers = Answers storage (asked_of line.entry) files.old files.new in
        MatchResult result (λ text. answers (Ok (string_bytes text))) (λ failure. answers (Err failure)) }
{
    let path = read_path(line);
    let extent = read_extent(line);
    match files.read(path, extent) {
        Ok(bytes) => judge(alloc, bytes.as_slice(), line, files, trace),
        Err(FileFault::Failed) => Err(Failure::Stopped(FileFailure::Unread(path))),
        Err(FileFault::Memory) => Err(Failure::Stopped(FileFailure::Memory)),
    }
}

/// Whether the path of a standard stream is given.
fn is_stream_given(path: Option<&str>) -> bool
    ensures { result ≡ is_stream_given (option_map (λ p. p.now) path.entry) }
{
    match path {
        Some(path) => is_stream(path),
        None => false,
    }
}

/// Whether one of the paths is that of a standard stream.
fn has_stream(paths: LinkPaths<'_>) -> bool
    ensures { result ≡ has_stream (paths_of paths.entry) }
{
    is_stream_given(paths.first)
        || is_stream_given(paths.second)
        || is_stream_given(paths.third)
        || is_stream_given(paths.fourth)
}

/// Whether some output link is standard output.
fn sends_out(line: Line<'_>) -> bool
    ensures { result ≡ sends_out (asked_of line.entry) }
{
    match line {
        Line::Debug { outputs, .. }
        | Line::Ask {
            question: Question::Run { outputs, .. },
            ..
        } => has_stream(outputs),
        Line::Compile { .. } | Line::Upgrade { .. } | Line::Ask { .. } => false,
    }
}

/// Writes a report on `out`, or on `err` where an output link is standard output. A failure of `err` is not reported.
fn report<'a, O: Write, E: Write>(
    text: &str,
    line: Line<'a>,
    out: &mut O,
    err: &mut E,
) -> Result<(), Failure<'a>>
    ensures { Tells (O.contents out.old) (O.contents out.new) (shown_of (asked_of line.entry) text.now) result }
{
    if sends_out(line) {
        let _ = err.write_all(text.as_bytes());
        tell(&[], out)
    } else {
        tell(text.as_bytes(), out)
    }
}

/// Does what is asked for, and reports it on `out`, where a refusal that is explained is, too. Where an output link is
/// standard output, the report is on `err`.
fn perform<'a, F: Files, O: Write, E: Write, T: Write + Drop>(
    alloc: Global,
    line: Line<'a>,
    files: &mut F,
    out: &mut O,
    err: &mut E,
    trace: T,
) -> Result<(), Failure<'a>>
    ensures { let storage = storage_of F.calls F.Reader.left F.Reader.failed F.Writer.written F.Writer.failed in
        Performs storage (asked_of line.entry) files.old files.new (O.contents out.old) (O.contents out.new) result }
{
    match answer(alloc, line, files, trace) {
        Ok(text) => report(&text, line, out, err),
        Err(Failure::Faulted { fault, text }) => match report(&text, line, out, err) {
            Ok(()) => Err(Failure::Faulted { fault, text }),
            Err(failure) => Err(failure),
        },
        Err(Failure::Explained { refusal, text }) => match tell(text.as_bytes(), out) {
            Ok(()) => Err(Failure::Explained { refusal, text }),
            Err(failure) => Err(failure),
        },
        Err(failure) => Err(failure),
    }
}

/// Reports on `err` why nothing was done, and returns the exit status. A failure of `err` is not reported.
fn fail<E: Write>(failure: Failure, err: &mut E) -> u8
    ensures { result ≡ status_of failure.entry }
{
    let _ = writeln!(err, "{failure}");
    failure.status()
}

/// The same for a command line that asks for nothing.
fn misuse<E: Write>(fault: LineFault, err: &mut E) -> u8
    ensures { result ≡ misuse_status fault }
{
    let _ = write!(err, "{fault}");
    match fault {
        LineFault::Usage(_) | LineFault::Misfit(_) => MISUSED,
        LineFault::Memory => STARVED,
    }
}

/// The program: does what these words ask for, of which the first is its name, and returns the exit
/// status. A report goes to `out`, faults and asked-for help go to `err`, where a report goes too if an output link is
/// standard output. The instructions of a run that is traced go to `trace`.
// A body that always reports that memory ran out at the words meets this clause too, since no clause can say that
// memory is left: command lines show that each command is done.
pub fn act<'a, F: Files, O: Write, E: Write, T: Write + Drop>(
    alloc: Global,
    words: &'a [&'a str],
    files: &mut F,
    out: &mut O,
    err: &mut E,
    trace: T,
) -> u8
    ensures { let storage = storage_of F.calls F.Reader.left F.Reader.failed F.Writer.written F.Writer.failed in
        Acts storage (words_of words.entry.now) files.old files.new (O.contents out.old) (O.contents out.new) result }
{
    match line(alloc, words) {
        Ok(line) => match perform(alloc, line, files, out, err, trace) {
            Ok(()) => DONE,
            Err(failure) => fail(failure, err),
        },
        Err(fault) => misuse(fault, err),
    }
}
