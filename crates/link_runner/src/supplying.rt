//! One byte for the machine.

ghost use Rattle.std.specs.Prelude.{◌≡◌, ◌<◌, List, Option, Bool, false, Some};
ghost use Rattle.machine_state.specs.World.{World};
ghost use Rattle.link_runs.specs.ByLink.{ByLink};
ghost use Rattle.link_runs.specs.FirstInFirstOut.{RunMoment, asked};
ghost use Rattle.link_runs.specs.Wanting.{is_running};
ghost use Rattle.link_runs.specs.Driving.{IsShown};
ghost use Rattle.link_runner.specs.Counting.{tally_of};
ghost use Rattle.link_runner.specs.Readers.{IsReadTo, NoneFailed, Asks, Supplies};

use crate::device::Failed;
use crate::reading::LinkReader;
use crate::report::Halt;
use crate::tally::Tally;
use link_runs::Machine;
use machine_state::Link;

/// The next byte of the reader of this link. No reader is a reader at its end.
fn ask<R: LinkReader>(readers: &mut [Option<R>; 4], link: Link) -> Result<Option<u8>, Failed>
    ensures { Asks R.left R.failed link result readers.old readers.new }
{
    match &mut readers[link.index()] {
        Some(reader) => reader.read_byte(),
        None => Ok(None),
    }
}

/// A byte is below 256, as the machine takes it.
fn is_in_range(_byte: u8)
    ensures { _byte < 256 }
{}

/// No process is running, and this link is the one to be asked: its next byte arrives, or it has ended.
pub(crate) fn supply<M: Machine, R: LinkReader>(
    machine: &mut M,
    readers: &mut [Option<R>; 4],
    tally: &mut Tally,
    link: Link,
) -> Result<(), Halt<M::Stop>>
    requires { IsShown M.shows machine.old }
    ensures contents { M.contents machine.new ≡ M.contents machine.old }
    ensures limit { M.limit machine.new ≡ M.limit machine.old }
    ensures supplies { (first : List (Option R)) (writers : ByLink Bool) (s : RunMoment)
        → M.shows machine.old s.world → is_running s.world ≡ false → asked s ≡ Some link
        → IsReadTo R.left (M.contents machine.old) first readers.old writers s → NoneFailed R.failed readers.old
        → tally.old ≡ tally_of s
        → Supplies R.left R.failed (M.contents machine.old) first readers.new writers s link result tally.new
        (M.shows machine.new) (M.stops machine.new) }
{
    match ask(readers, link) {
        Ok(Some(byte)) => {
            is_in_range(byte);
            tally.read.add(link, 1);
            match machine.arrive(link, byte) {
                Ok(()) => Ok(()),
                Err(stop) => Err(Halt::Stopped(stop)),
            }
        }
        Ok(None) => {
            tally.ended.add(link);
            Ok(())
        }
        Err(Failed) => Err(Halt::ReadFailed(link)),
    }
}
