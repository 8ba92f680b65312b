//! When the plain machine agrees with a world, and why it goes on to.
#![tactic(auto)]

mod laws;

pub use laws::{
    acknowledged_processes_go_on, bytes_are_taken, going_on_agrees, links_are_shown, loaded_agrees,
    queue_words_may_change, quiet_events_agree, ready_processes_may_run, steps_agree, turns_agree,
};
