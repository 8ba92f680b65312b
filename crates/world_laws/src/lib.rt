//! Laws of every world that a module comes to, which a machine without checks relies on.
#![tactic(auto)]

mod laws;

pub use laws::{
    buffers_are_held, holdings_lie_in_memory, joins_have_members, kept_words_are_blank,
    parked_processes_are_at_rest, parked_words_are_blank, tasks_are_counted,
    waiting_processes_are_parked, workspaces_differ,
};
