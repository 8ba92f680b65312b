//! A module of a sequential program's code runs as the program means.
#![tactic(auto)]

mod laws;

pub use laws::{main_is_found, programs_run_as_meant};
