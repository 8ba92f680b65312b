//! The rules of the instructions that start the branches of a PAR and end them.
#![tactic(auto)]

mod costs;
mod ends;
mod found;
mod gifts;
mod labels;
mod laws;
mod openings;
mod pointers;
mod sights;
mod starts;

pub use ends::end_process;
pub use laws::{rules_judge_pair, rules_judge_sending};
pub use starts::{Started, start_process};
