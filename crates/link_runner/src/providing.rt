//! Bytes for the machine, until it can go on.

ghost use Rattle.std.specs.Prelude.{◌≡◌, List, Option, Bool};
ghost use Rattle.link_runs.specs.ByLink.{ByLink};
ghost use Rattle.link_runs.specs.FirstInFirstOut.{RunMoment};
ghost use Rattle.link_runner.specs.Counting.{tally_of};
ghost use Rattle.link_runner.specs.Readers.{IsReadTo, IsUnderWay, NoneFailed, Provides};

use crate::reading::LinkReader;
use crate::report::Halt;
use crate::supplying::supply;
use crate::tally::Tally;
use link_runs::Machine;

/// Asks the links for bytes until a process runs, and returns whether one does. If none does, nothing is left to do.
pub(crate) fn provide<M: Machine, R: LinkReader>(
    machine: &mut M,
    readers: &mut [Option<R>; 4],
    tally: &mut Tally,
) -> Result<bool, Halt<M::Stop>>
    requires { IsUnderWay R.left R.failed M.contents M.shows machine.old readers.old tally.old }
    ensures contents { M.contents machine.new ≡ M.contents machine.old }
    ensures limit { M.limit machine.new ≡ M.limit machine.old }
    ensures provides { (first : List (Option R)) (writers : ByLink Bool) (s : RunMoment)
        → M.shows machine.old s.world
        → IsReadTo R.left (M.contents machine.old) first readers.old writers s → NoneFailed R.failed readers.old
        → tally.old ≡ tally_of s
        → Provides R.left R.failed (M.contents machine.old) first readers.new writers s result tally.new
        (M.shows machine.new) (M.stops machine.new) }
{
    let mut running = machine.running();
    while !running {
        let Some(link) = tally.ended.next(machine) else {
            return Ok(false);
        };
        supply(machine, readers, tally, link)?;
        running = machine.running();
    }
    Ok(true)
}
