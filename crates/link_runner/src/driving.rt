//! A whole run, whichever machine makes it.

ghost use Rattle.std.specs.Prelude.{◌≡◌};
ghost use Rattle.machine_state.specs.World.{World, loaded};
ghost use Rattle.link_runs.specs.Driving.{IsShown};
ghost use Rattle.link_runner.specs.Readers.{NoneFailed, GoesOn, tally_at_start};
ghost use Rattle.link_runner.specs.Runs.{Drives};

use crate::providing::provide;
use crate::reading::LinkReader;
use crate::report::Halt;
use crate::sending::deliver;
use crate::tally::Tally;
use crate::writing::LinkWriter;
use link_runs::{Machine, Progress};

/// The machine goes on by itself, until it emits a message or no process is running.
fn go_on<M: Machine>(machine: &mut M) -> Result<Progress, Halt<M::Stop>>
    requires { IsShown M.shows machine.old }
    ensures contents { M.contents machine.new ≡ M.contents machine.old }
    ensures limit { M.limit machine.new ≡ M.limit machine.old }
    ensures goes { (w : World) → M.shows machine.old w
        → GoesOn (M.contents machine.old) w result (M.last machine.new) (M.shows machine.new) (M.stops machine.new) }
{
    match machine.proceed() {
        Ok(progress) => Ok(progress),
        Err(stop) => Err(Halt::Stopped(stop)),
    }
}

/// Runs a machine that is loaded, first in, first out, with a reader on each input link and a writer on each output
/// link where one is given, until nothing is left to do, a reader or writer fails, or the machine stops of itself. A
/// byte is read only while no process is running, and some process waits for it. A message is written before the next
/// byte is read. A reader or writer that failed is not called again. No reader and no writer may have failed before.
/// The tally, which nothing went into yet, has the bytes that went over the links.
pub fn drive<M: Machine, R: LinkReader, W: LinkWriter>(
    machine: &mut M,
    readers: &mut [Option<R>; 4],
    writers: &mut [Option<W>; 4],
    tally: &mut Tally,
) -> Result<(), Halt<M::Stop>>
    requires loaded { M.shows machine.old (loaded (M.contents machine.old)) }
    requires readers { NoneFailed R.failed readers.old }
    requires writers { NoneFailed W.failed writers.old }
    requires tally { tally.old ≡ tally_at_start readers.old }
    // What was read and written is what the first-in first-out run asks for and emits, up to some moment.
    ensures drives { Drives R.left R.failed W.written W.failed (M.contents machine.old) readers.old readers.new
        writers.old writers.new result tally.new (M.shows machine.new) (M.stops machine.new) }
    ensures limit { M.limit machine.new ≡ M.limit machine.old }
{
    let mut executed = machine.executed();
    while provide(machine, readers, tally)? {
        let progress = go_on(machine)?;
        match progress {
            Progress::Emitted { link } => deliver(machine, writers, tally, link)?,
            Progress::Idle => {}
        }
        executed = machine.executed();
    }
    Ok(())
}
