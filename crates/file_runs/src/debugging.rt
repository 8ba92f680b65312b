//! The run of a module or a source on the machine that checks each rule.

ghost use Rattle.std.specs.Prelude.{◌≡◌, ◌∷◌, [], None, option_map, MatchResult, IfOk, string_bytes};
ghost use Rattle.machine_state.specs.World.{loaded};
ghost use Rattle.link_runner.specs.Readers.{NoneFailed, tally_at_start};
ghost use Rattle.machine.specs.Bounding.{Shows, HasStopped};
ghost use Rattle.command_line.specs.Links.{paths_of};
ghost use Rattle.file_access.specs.Storage.{inside, storage_of};
ghost use Rattle.file_runs.specs.Debugging.{CreatesAndDrives, DrivesOpened, IsKnown, TellsRun, given_of, is_over, limit_of};
ghost use Rattle.file_runs.specs.Debugging.{setting_of, report_at, HasRunTo, StopsRun};

use crate::reports::debug_report;
use crate::running::{close_all, create_all, open_all};
use certificate::Module;
use command_line::{LinkPaths, number_in};
use file_access::{FileFailure, Files};
use link_runner::{Halt, Outcome, Report, Tally, drive};
use machine::{Bounded, Cause, Checked, Observer};
use machine_state::Fault;
use source_lines::LineEntry;
use std::alloc::{AllocError, Global};
use waiting_texts::{Setting, waiting_lines};

/// What a run on the machine that checks each rule is asked for: which files are on the links, and how many bytes it
/// executes at most, as a text.
#[derive(Clone, Copy)]
pub struct Debugging<'a> {
    pub inputs: LinkPaths<'a>,
    pub outputs: LinkPaths<'a>,
    pub bytes: Option<&'a str>,
}

/// Why a run goes on no further.
#[derive(Clone, Copy)]
pub enum Ending {
    /// Nothing is left to do.
    Over,
    /// As many bytes were executed as may be.
    Cut,
    /// A process is at fault.
    Faulted(Fault),
}

/// A run that goes on no further, and what is told of it.
#[derive(Drop)]
pub struct Debugged {
    pub ending: Ending,
    pub text: String,
}

/// How many bytes are executed at most.
fn limit(module: &Module<'_>, bytes: Option<&str>) -> u64
    ensures { result ≡ limit_of «module».now (option_map (λ text. text.now) bytes.entry) }
{
    match bytes {
        Some(text) => number_in(text).unwrap_or(module.tables().budget),
        None => module.tables().budget,
    }
}

/// On which links there are files.
fn given(paths: LinkPaths<'_>) -> [bool; 4]
    ensures { result ≡ given_of (paths_of paths.entry) }
{
    [
        paths.first.is_some(),
        paths.second.is_some(),
        paths.third.is_some(),
        paths.fourth.is_some(),
    ]
}

/// Whether nothing is left to do.
fn is_over(ending: Ending) -> bool
    ensures { result ≡ is_over ending }
{
    matches!(ending, Ending::Over)
}

/// What is known of the run besides its world.
fn setting(asked: Debugging<'_>, ending: Ending) -> Setting
    ensures { result ≡ setting_of (paths_of asked.entry.inputs) (paths_of asked.entry.outputs) ending }
{
    Setting {
        inputs: given(asked.inputs),
        outputs: given(asked.outputs),
        is_over: is_over(ending),
    }
}

/// Creates the output files and drives the machine, until nothing is left to do, a link fails, or it stops of itself.
fn create_and_drive<'a, 'm, F: Files, O: Observer>(
    machine: &mut Bounded<'m, O>,
    outputs: LinkPaths<'a>,
    files: &mut F,
    readers: &mut [Option<Box<F::Reader>>; 4],
    writers: &mut [Option<Box<F::Writer>>; 4],
    tally: &mut Tally,
) -> Result<Ending, FileFailure<'a>>
    requires loaded { Shows machine.old (loaded machine.old.contents) }
    requires readers { NoneFailed (inside F.Reader.failed) readers.old }
    requires writers { writers.old ≡ None ∷ None ∷ None ∷ None ∷ [] }
    requires tally { tally.old ≡ tally_at_start readers.old }
    ensures drives { let storage = storage_of F.calls F.Reader.left F.Reader.failed F.Writer.written F.Writer.failed in
        CreatesAndDrives storage machine.old.contents (paths_of outputs.entry) files.old files.new readers.old
        readers.new writers.new machine.new tally.new result }
    ensures limit { machine.new.limit ≡ machine.old.limit }
{
    create_all(files, outputs, writers)?;
    match drive(machine, readers, writers, tally) {
        Ok(()) => Ok(Ending::Over),
        Err(Halt::Stopped(Cause::Limit)) => Ok(Ending::Cut),
        Err(Halt::Stopped(Cause::Fault(fault))) => Ok(Ending::Faulted(fault)),
        Err(Halt::Stopped(Cause::Memory)) => Err(FileFailure::Memory),
        Err(Halt::ReadFailed(link)) => Err(FileFailure::ReadFailed(link)),
        Err(Halt::WriteFailed(link)) => Err(FileFailure::WriteFailed(link)),
    }
}

/// Creates the output files, drives the machine, and closes the output files, in this order. The first failure is
/// reported, and output files that were created are closed in any case.
fn drive_opened<'a, 'm, F: Files, O: Observer>(
    machine: &mut Bounded<'m, O>,
    outputs: LinkPaths<'a>,
    files: &mut F,
    readers: &mut [Option<Box<F::Reader>>; 4],
    tally: &mut Tally,
) -> Result<Ending, FileFailure<'a>>
    requires loaded { Shows machine.old (loaded machine.old.contents) }
    requires readers { NoneFailed (inside F.Reader.failed) readers.old }
    requires tally { tally.old ≡ tally_at_start readers.old }
    ensures drives { let storage = storage_of F.calls F.Reader.left F.Reader.failed F.Writer.written F.Writer.failed in
        DrivesOpened storage machine.old.contents (paths_of outputs.entry) files.old files.new readers.old machine.new
        tally.new result }
    ensures limit { machine.new.limit ≡ machine.old.limit }
{
    let mut writers = [None, None, None, None];
    let ran = create_and_drive(machine, outputs, files, readers, &mut writers, tally);
    let unclosed = close_all(files, &mut writers);
    let ending = ran?;
    match unclosed {
        Some(link) => Err(FileFailure::WriteFailed(link)),
        None => Ok(ending),
    }
}

/// How far the run came.
fn report_at(checked: &Checked<'_>, tally: &Tally) -> Report
    ensures { result ≡ report_at checked.now.world tally.now }
{
    let outcome = if checked.finished() {
        Outcome::Ended
    } else {
        Outcome::Idle
    };
    Report {
        outcome,
        executed: checked.executed(),
        read: tally.read(),
        written: tally.written(),
    }
}

/// How far the run came, and what each process waits for.
fn told(
    alloc: Global,
    module: &Module<'_>,
    lines: &[LineEntry],
    checked: &Checked<'_>,
    tally: &Tally,
    asked: Debugging<'_>,
    ending: Ending,
) -> Result<String, AllocError>
    requires { IsKnown ending checked.now }
    ensures { IfOk result (λ text. TellsRun «module».now lines.now (paths_of asked.entry.inputs)
        (paths_of asked.entry.outputs) ending checked.now.world tally.now (string_bytes text)) }
{
    let waits = waiting_lines(alloc, module, lines, checked, setting(asked, ending))?;
    let report = report_at(checked, tally);
    debug_report(alloc, ending, &report, asked.inputs, asked.outputs, &waits)
}

/// Opens the input files, creates the output files, runs the module on the machine that checks each rule, closes the
/// output files, and says how far the run came and what each process waits for, with the lines of its source.
pub fn debug<'a, F: Files, O: Observer>(
    alloc: Global,
    module: &Module<'_>,
    lines: &[LineEntry],
    asked: Debugging<'a>,
    observer: O,
    files: &mut F,
) -> Result<Debugged, FileFailure<'a>>
    ensures { let storage = storage_of F.calls F.Reader.left F.Reader.failed F.Writer.written F.Writer.failed in
        let ins = paths_of asked.entry.inputs in let outs = paths_of asked.entry.outputs in
        let bytes = option_map (λ text. text.now) asked.entry.bytes in
        MatchResult result
        (λ d. HasRunTo storage «module».now ins outs bytes files.old files.new lines.now d.ending (string_bytes d.text))
        (StopsRun storage «module».now ins outs bytes files.old files.new) }
{
    let mut readers = [None, None, None, None];
    open_all(files, asked.inputs, &mut readers)?;
    let mut machine = Bounded::load(alloc, module, limit(module, asked.bytes), observer)?;
    let mut tally = Tally::at_start(&readers);
    let ending = drive_opened(&mut machine, asked.outputs, files, &mut readers, &mut tally)?;
    let text = told(
        alloc,
        module,
        lines,
        machine.checked(),
        &tally,
        asked,
        ending,
    )?;
    Ok(Debugged { ending, text })
}
