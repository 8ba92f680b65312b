//! One message of the machine.

ghost use Rattle.std.specs.Prelude.{◌≡◌, false};
ghost use Rattle.link_runs.specs.FirstInFirstOut.{RunMoment};
ghost use Rattle.link_runs.specs.Driving.{IsShown};
ghost use Rattle.link_runner.specs.Counting.{tally_of};
ghost use Rattle.link_runner.specs.Readers.{NoneFailed};
ghost use Rattle.link_runner.specs.Writers.{WritesWhole, PutsMessage, Delivers};

use crate::device::Failed;
use crate::report::Halt;
use crate::tally::Tally;
use crate::writing::LinkWriter;
use link_runs::Machine;
use machine_state::Link;

/// Writes the whole message, in as many calls as that takes. If a call fails, a part of it is written.
pub fn write_whole<W: LinkWriter>(writer: &mut W, message: &[u8]) -> Result<(), Failed>
    requires { W.failed writer.old ≡ false }
    ensures { WritesWhole W.written W.failed writer.old writer.new message.now result }
{
    let mut done = 0;
    while done < message.len() {
        let Ok(count) = writer.write_some(&message[done..]) else {
            return Err(Failed);
        };
        if count == 0 {
            return Err(Failed);
        }
        done += count;
    }
    Ok(())
}

/// Writes the whole message to the writer of this link, if there is one.
fn put<W: LinkWriter>(
    writers: &mut [Option<W>; 4],
    link: Link,
    message: &[u8],
) -> Option<Result<(), Failed>>
    requires { NoneFailed W.failed writers.old }
    ensures { PutsMessage W.written W.failed link message.now result writers.old writers.new }
{
    match &mut writers[link.index()] {
        Some(writer) => Some(write_whole(writer, message)),
        None => None,
    }
}

/// The message that the machine emitted last goes to the writer of this link and is acknowledged. If there is no
/// writer, nothing happens.
pub(crate) fn deliver<M: Machine, W: LinkWriter>(
    machine: &mut M,
    writers: &mut [Option<W>; 4],
    tally: &mut Tally,
    link: Link,
) -> Result<(), Halt<M::Stop>>
    requires shown { IsShown M.shows machine.old }
    requires none_failed { NoneFailed W.failed writers.old }
    ensures contents { M.contents machine.new ≡ M.contents machine.old }
    ensures limit { M.limit machine.new ≡ M.limit machine.old }
    ensures delivers { (s : RunMoment) → M.shows machine.old s.world → tally.old ≡ tally_of s
        → Delivers W.written W.failed (M.contents machine.old) link (M.last machine.old) s writers.old writers.new
        result tally.new (M.shows machine.new) (M.stops machine.new) }
{
    let message = machine.message();
    match put(writers, link, message) {
        Some(Ok(())) => {
            tally.written.add(link, message.len() as u64);
            match machine.acknowledge(link) {
                Ok(()) => Ok(()),
                Err(stop) => Err(Halt::Stopped(stop)),
            }
        }
        None => Ok(()),
        Some(Err(Failed)) => Err(Halt::WriteFailed(link)),
    }
}
