//! The rules of the instructions of an alternation, by which a process takes the first message of several.
#![tactic(auto)]

mod alternations;
mod ends;
mod guards;
mod laws;
mod modes;

pub use alternations::advance_alternation;
pub use ends::end_alternation;
pub use guards::exit_at;
pub use laws::{
    alternation_rules_fit_steps, operations_ask_their_mode, rules_judge_choice,
    tests_tell_guards_apart,
};
