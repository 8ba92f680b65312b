//! A run of a module is as its program means, where its code does what main does.
#![tactic(auto)]

mod laws;

pub use laws::{echo_runs_as_meant, runs_follow_main};
