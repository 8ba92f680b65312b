//! What comes and goes on the links.

ghost use Rattle.std.specs.Prelude.{IsTrue, slice_get};
ghost use Rattle.machine_state.specs.Moves.{link_index};
ghost use Rattle.machine_state.specs.Happens.{arrive_turn, acknowledge_turn};
ghost use Rattle.traffic.specs.Arriving.{may_wake, has_sender};
ghost use Rattle.traffic.specs.Settling.{OnMemory};
ghost use Rattle.machine.specs.Applying.{Applies};

use super::act::Act;
use super::machine::Machine;
use machine_state::Link;
use traffic::{Arrival, Stop, links_read_no_counters};

impl Machine {
    /// A byte arrives: it is taken, or kept, or nothing changes.
    pub(crate) fn arrive(&mut self, link: Link, byte: u8) -> Result<Act, Stop>
        ensures applies { let turn = arrive_turn (link_index link) byte self.old.world in
            Applies self.old.world self.new.world result turn }
        ensures memory { let input = slice_get self.old.world.links.inputs (link_index link) in
            OnMemory result (IsTrue (may_wake input)) }
    {
        links_read_no_counters();
        match self.traffic.arrive(link, byte)? {
            Arrival::Taken => Ok(Act::Taken),
            Arrival::Kept => Ok(Act::Kept),
            Arrival::Busy => Ok(Act::Busy),
        }
    }

    /// The sender goes on, if one waits.
    pub(crate) fn acknowledge(&mut self, link: Link) -> Result<Act, Stop>
        ensures applies { let turn = acknowledge_turn (link_index link) self.old.world in
            Applies self.old.world self.new.world result turn }
        ensures memory { let output = slice_get self.old.world.links.outputs (link_index link) in
            OnMemory result (IsTrue (has_sender output)) }
    {
        links_read_no_counters();
        if self.traffic.acknowledge(link)? {
            Ok(Act::Acknowledged)
        } else {
            Ok(Act::Ignored)
        }
    }
}
