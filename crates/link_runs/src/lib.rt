//! The run of a module with bytes for its links, first in, first out, and the machines that can make it.
#![tactic(auto)]

mod driving;
mod laws;

pub use driving::{Machine, Progress, Reaction};
pub use laws::{
    arrivals_come_to_an_end, deadlocks_stay, echo_runs, runs_are_made_of_events, there_is_one_run,
    unasked_bytes_change_nothing,
};
