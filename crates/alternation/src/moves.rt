//! Changes that several instructions make.

ghost use Rattle.std.specs.Prelude.{◌≡◌, None, IsTrue};
ghost use Rattle.machine_state.specs.Holding.{may_write_word};
ghost use Rattle.machine_state.specs.Memory.{place_of, with_word};

use machine_state::Store;
use process_queue::ListQueue;
use traffic::Traffic;

/// The word at the workspace is undefined: a transputer keeps there what is selected.
pub(crate) fn clear_selection_word<S: Store>(traffic: &mut Traffic<S, ListQueue>, workspace: u32)
    requires { IsTrue (may_write_word traffic.old.holding (place_of workspace)) }
    ensures { let w = traffic.old.world in
        let memory = with_word w.memory (place_of workspace) None in
        traffic.new ≡ record traffic.old { world = record w { memory = memory } } }
{
    traffic.cpu().store.store_word(workspace, None);
}
