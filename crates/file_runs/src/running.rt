//! The run of an accepted module with files on its links.

ghost use Rattle.std.specs.Prelude.{◌≡◌, ◌∷◌, [], Bool, false, None, option_map, IfOk, IfErr, MatchResult};
ghost use Rattle.link_runs.specs.ByLink.{ByLink};
ghost use Rattle.link_runner.specs.Readers.{at_link, flag_at, NoneFailed, SameElsewhere};
ghost use Rattle.command_line.specs.Links.{paths_of};
ghost use Rattle.file_runs.specs.FilesInOrder.{in_order, MayGive, GivesAll, FailsForPath, FailsAtPath};
ghost use Rattle.file_runs.specs.FilesInOrder.{MayClose, ClosesAll};
ghost use Rattle.file_runs.specs.FilesOnLinks.{first_unclosed, CreatesAndRuns, RunsOpened, RunsTo};
ghost use Rattle.file_access.specs.Storage.{inside, storage_of};

use command_line::LinkPaths;
use file_access::{FileFailure, FileFault, Files};
use link_runner::{Report, RunError, run};
use machine_state::Link;
use module_format::Direction;
use std::alloc::Global;
use verifier::Verified;

/// A file that was not opened, if it is one to read, or not created, if it is one to write.
#[derive(Clone, Copy)]
pub struct MissingFile<'a> {
    path: &'a str,
    direction: Direction,
    fault: FileFault,
}

impl<'a> From<MissingFile<'a>> for FileFailure<'a> {
    ghost use Rattle.std.specs.Prelude.{◌≡◌};
    ghost use Rattle.file_runs.specs.FilesInOrder.{missing_file};

    ghost from_gives = { λ missing failure. failure ≡ missing_file missing.direction missing.path missing.fault };

    fn from(missing: MissingFile<'a>) -> Self {
        match (missing.direction, missing.fault) {
            (Direction::In, FileFault::Failed) => FileFailure::Unread(missing.path),
            (Direction::Out, FileFault::Failed) => FileFailure::Uncreated(missing.path),
            (_, FileFault::Memory) => FileFailure::Memory,
        }
    }
}

/// Opens the file of this path, if there is one.
fn open<'a, F: Files>(
    files: &mut F,
    path: Option<&'a str>,
) -> Result<Option<Box<F::Reader>>, MissingFile<'a>>
    ensures gives { let text = option_map (λ p. p.now) path.entry in
        MatchResult result (λ reader. MayGive F.calls.opens files.old text reader files.new)
        (λ missing. FailsForPath F.calls.opens files.old text missing.path.now missing.fault files.new) }
    ensures fresh { IfOk result (λ reader. flag_at (inside F.Reader.failed) reader ≡ false) }
    ensures direction { IfErr result (λ missing. missing.direction ≡ Direction.In) }
{
    let Some(path) = path else {
        return Ok(None);
    };
    match files.open(path) {
        Ok(reader) => Ok(Some(reader)),
        Err(fault) => Err(MissingFile {
            path,
            direction: Direction::In,
            fault,
        }),
    }
}

/// Opens the files of these paths in order, up to the first that cannot be opened.
pub(crate) fn open_all<'a, F: Files>(
    files: &mut F,
    paths: LinkPaths<'a>,
    readers: &mut [Option<Box<F::Reader>>; 4],
) -> Result<(), MissingFile<'a>>
    requires { readers.old ≡ None ∷ None ∷ None ∷ None ∷ [] }
    ensures gives { let texts = in_order (paths_of paths.entry) in
        MatchResult result (λ _. GivesAll F.calls.opens files.old texts readers.new files.new)
        (λ missing. FailsAtPath F.calls.opens files.old texts readers.new missing.path.now missing.fault files.new) }
    ensures fresh { IfOk result (λ _. NoneFailed (inside F.Reader.failed) readers.new) }
    ensures direction { IfErr result (λ missing. missing.direction ≡ Direction.In) }
{
    readers[0] = open(files, paths.first)?;
    readers[1] = open(files, paths.second)?;
    readers[2] = open(files, paths.third)?;
    readers[3] = open(files, paths.fourth)?;
    Ok(())
}

/// Creates the file of this path, if there is one.
fn create<'a, F: Files>(
    files: &mut F,
    path: Option<&'a str>,
) -> Result<Option<Box<F::Writer>>, MissingFile<'a>>
    ensures gives { let text = option_map (λ p. p.now) path.entry in
        MatchResult result (λ writer. MayGive F.calls.creates files.old text writer files.new)
        (λ missing. FailsForPath F.calls.creates files.old text missing.path.now missing.fault files.new) }
    ensures fresh { IfOk result (λ writer. flag_at (inside F.Writer.failed) writer ≡ false) }
    ensures direction { IfErr result (λ missing. missing.direction ≡ Direction.Out) }
{
    let Some(path) = path else {
        return Ok(None);
    };
    match files.create(path) {
        Ok(writer) => Ok(Some(writer)),
        Err(fault) => Err(MissingFile {
            path,
            direction: Direction::Out,
            fault,
        }),
    }
}

/// Creates the files of these paths in order, up to the first that cannot be created. Those before it are there.
pub(crate) fn create_all<'a, F: Files>(
    files: &mut F,
    paths: LinkPaths<'a>,
    writers: &mut [Option<Box<F::Writer>>; 4],
) -> Result<(), MissingFile<'a>>
    requires { writers.old ≡ None ∷ None ∷ None ∷ None ∷ [] }
    ensures gives { let texts = in_order (paths_of paths.entry) in
        MatchResult result (λ _. GivesAll F.calls.creates files.old texts writers.new files.new)
        (λ missing. FailsAtPath F.calls.creates files.old texts writers.new missing.path.now missing.fault files.new) }
    ensures fresh { IfOk result (λ _. NoneFailed (inside F.Writer.failed) writers.new) }
    ensures direction { IfErr result (λ missing. missing.direction ≡ Direction.Out) }
{
    writers[0] = create(files, paths.first)?;
    writers[1] = create(files, paths.second)?;
    writers[2] = create(files, paths.third)?;
    writers[3] = create(files, paths.fourth)?;
    Ok(())
}

/// Closes the writer of this link, if there is one, and returns whether that succeeded.
fn close<F: Files>(files: &mut F, writers: &mut [Option<Box<F::Writer>>; 4], link: Link) -> bool
    ensures closes { MayClose F.calls.closes files.old (at_link writers.old link) result files.new }
    ensures elsewhere { SameElsewhere writers.old writers.new link }
{
    match writers[link.index()].take() {
        Some(writer) => files.close(writer).is_ok(),
        None => true,
    }
}

/// Closes all writers in order, and returns the first link where that failed.
pub(crate) fn close_all<F: Files>(
    files: &mut F,
    writers: &mut [Option<Box<F::Writer>>; 4],
) -> Option<Link>
    ensures { (closed : ByLink Bool) × (ClosesAll F.calls.closes files.old writers.old closed files.new
        × (result ≡ first_unclosed closed)) }
{
    let first = close(files, writers, Link::Zero);
    let second = close(files, writers, Link::One);
    let third = close(files, writers, Link::Two);
    let fourth = close(files, writers, Link::Three);
    if !first {
        Some(Link::Zero)
    } else if !second {
        Some(Link::One)
    } else if !third {
        Some(Link::Two)
    } else if !fourth {
        Some(Link::Three)
    } else {
        None
    }
}

/// Creates the output files and runs the module.
fn create_and_run<'a, F: Files>(
    alloc: Global,
    verified: &Verified<'_>,
    outputs: LinkPaths<'a>,
    files: &mut F,
    readers: &mut [Option<Box<F::Reader>>; 4],
    writers: &mut [Option<Box<F::Writer>>; 4],
) -> Result<Report, FileFailure<'a>>
    requires readers { NoneFailed (inside F.Reader.failed) readers.old }
    requires writers { writers.old ≡ None ∷ None ∷ None ∷ None ∷ [] }
    ensures { let storage = storage_of F.calls F.Reader.left F.Reader.failed F.Writer.written F.Writer.failed in
        CreatesAndRuns storage verified.now (paths_of outputs.entry) files.old files.new readers.old readers.new
        writers.new result }
{
    create_all(files, outputs, writers)?;
    match run(alloc, verified, readers, writers) {
        Ok(report) => Ok(report),
        Err(RunError::ReadFailed(link)) => Err(FileFailure::ReadFailed(link)),
        Err(RunError::WriteFailed(link)) => Err(FileFailure::WriteFailed(link)),
        Err(RunError::Memory) => Err(FileFailure::Memory),
    }
}

/// Creates the output files, runs the module, and closes the output files, in this order. The first failure is
/// reported, and output files that were created are closed in any case.
fn run_opened<'a, F: Files>(
    alloc: Global,
    verified: &Verified<'_>,
    outputs: LinkPaths<'a>,
    files: &mut F,
    readers: &mut [Option<Box<F::Reader>>; 4],
) -> Result<Report, FileFailure<'a>>
    requires { NoneFailed (inside F.Reader.failed) readers.old }
    ensures { let storage = storage_of F.calls F.Reader.left F.Reader.failed F.Writer.written F.Writer.failed in
        RunsOpened storage verified.now (paths_of outputs.entry) files.old files.new readers.old result }
{
    let mut writers = [None, None, None, None];
    let ran = create_and_run(alloc, verified, outputs, files, readers, &mut writers);
    let unclosed = close_all(files, &mut writers);
    let report = ran?;
    match unclosed {
        Some(link) => Err(FileFailure::WriteFailed(link)),
        None => Ok(report),
    }
}

/// Opens the input files, and then creates the output files and runs the module.
pub fn run_with_files<'a, F: Files>(
    alloc: Global,
    verified: &Verified<'_>,
    inputs: LinkPaths<'a>,
    outputs: LinkPaths<'a>,
    files: &mut F,
) -> Result<Report, FileFailure<'a>>
    ensures { let storage = storage_of F.calls F.Reader.left F.Reader.failed F.Writer.written F.Writer.failed in
        RunsTo storage verified.now (paths_of inputs.entry) (paths_of outputs.entry) files.old files.new result }
{
    let mut readers = [None, None, None, None];
    open_all(files, inputs, &mut readers)?;
    run_opened(alloc, verified, outputs, files, &mut readers)
}
