//! Runs of accepted modules with readers and writers.

ghost use Rattle.link_runner.specs.Readers.{NoneFailed};
ghost use Rattle.link_runner.specs.Runs.{Runs, RunsWith};

use crate::driving::drive;
use crate::reading::LinkReader;
use crate::report::{Halt, Report, RunError};
use crate::tally::Tally;
use crate::writing::LinkWriter;
use accepted_runs::Run;
use std::alloc::Global;
use verifier::Verified;

/// Runs an accepted module, first in, first out, with a reader on each input link and a writer on each output link
/// where one is given. A byte is read only while no process is running, and a process waits for it. A message is
/// written before the next byte is read. A reader or writer that failed is not called again, and none of them may have
/// failed before.
pub fn run<R: LinkReader, W: LinkWriter>(
    alloc: Global,
    verified: &Verified,
    readers: &mut [Option<R>; 4],
    writers: &mut [Option<W>; 4],
) -> Result<Report, RunError>
    requires readers { NoneFailed R.failed readers.old }
    requires writers { NoneFailed W.failed writers.old }
    // What was read and written is what the first-in first-out run asks for and emits, up to some moment.
    ensures runs { Runs R.left R.failed W.written W.failed verified.now readers.old readers.new writers.old writers.new
        result }
    // The same of all the bytes that the readers have, if they are known.
    ensures known { RunsWith R.left R.failed W.written W.failed verified.now readers.old readers.new writers.old
        writers.new result }
{
    let mut machine = Run::load(alloc, verified)?;
    let mut tally = Tally::at_start(readers);
    match drive(&mut machine, readers, writers, &mut tally) {
        Ok(()) => Ok(Report::at_end(&machine, &tally)),
        Err(Halt::ReadFailed(link)) => Err(RunError::ReadFailed(link)),
        Err(Halt::WriteFailed(link)) => Err(RunError::WriteFailed(link)),
        Err(Halt::Stopped(never)) => match never {},
    }
}
