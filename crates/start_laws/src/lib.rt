//! The rules of starts and ends of branches fit their steps.
#![tactic(auto)]

mod laws;

pub use laws::{ends_fit_steps, starts_fit_steps};
